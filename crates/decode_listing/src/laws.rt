ghost use Rattle.std.specs.Prelude.{◌≡◌, ℕ, List};
ghost use Rattle.memory_map.specs.Image.{Image};
ghost use Rattle.decode_listing.specs.Listing.{IsListing};

/// A law: there is one listing alone of at most so many instructions of an image from an address on.
pub fn one_listing()
    ensures { (image : Image) (at count : ℕ) (text other : List ℕ) → IsListing image at count text → IsListing image at count other → text ≡ other }
{}
