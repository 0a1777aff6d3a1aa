ghost use Rattle.demo_loading.specs.Laws.{DemoImagesLoad, DemoStubsAreFaultless, DemoStubsAreRead};

/// A law: a demo image has no fault, and lays out its code, its tables, and one relocation.
pub fn demo_images_load()
    ensures { DemoImagesLoad }
{}

/// A law: the stub file of a demo image has no fault, and is refused for want of memory alone.
pub fn demo_stubs_are_read()
    ensures faultless { DemoStubsAreFaultless }
    ensures read { DemoStubsAreRead }
{}
