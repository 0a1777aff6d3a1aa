ghost use Rattle.image_loader.specs.Laws.{ImagesCanStart, LoadedAreFew};

/// A law: an image of at most 97 segments, whatever its format, has a state from which a run may start.
pub fn images_can_start()
    ensures { ImagesCanStart }
{}

/// A law: a file that is loaded has at most 97 segments, whatever the stubs.
pub fn loaded_are_few()
    ensures { LoadedAreFew }
{}
