ghost use Rattle.std.specs.Prelude.{◌≡◌};
ghost use Rattle.domain_laws.specs.Made.{values_of};
ghost use Rattle.partitioned_memory.specs.KnownBytes.{known_image_byte};
ghost use Rattle.transfer_functions.specs.Fetching.{is_cut, known_run};

use abstract_state::State;
use arrayvec::ArrayVec;
use domain_laws::Domain;
use image_loader::Image;

/// The code that a row knows at its location.
#[derive(Drop)]
pub struct KnownCode {
    /// The executable bytes of the image from the location on, one after another and at most 15, up to the first that is not known.
    pub bytes: ArrayVec<u8, 15>,
    /// Whether an executable byte that is not known ended them.
    pub cut: bool,
}

// The byte of the image at an address, where a state knows it.
fn known_at<D: Domain>(image: &Image, a: u32, s: &State<D>) -> Option<u8>
    ensures { result ≡ known_image_byte (values_of D.Domain.own D.eq) image.now.segments image.now.unset s.now.parts a }
{
    s.parts().known_byte(image.segments(), image.unset(), a)
}

/// The code at a location of the image, as a state knows it: an executable byte that a fact has is the fact's, and any other is the byte that
/// was loaded, where it is neither dirty nor unset.
pub fn known_code<D: Domain>(image: &Image, at: u32, s: &State<D>) -> KnownCode
    ensures bytes { result.bytes.items ≡ known_run (values_of D.Domain.own D.eq) image.now s.now at }
    ensures cut { result.cut ≡ is_cut (values_of D.Domain.own D.eq) image.now s.now at }
{
    let segments = image.segments();
    let count = segments.fetch(at).len();
    let mut bytes = ArrayVec::new();
    for i in 0..count {
        match known_at(image, at + i as u32, s) {
            Some(b) => bytes.push(b),
            None => return KnownCode { bytes, cut: true },
        }
    }
    KnownCode { bytes, cut: false }
}
