ghost use Rattle.std.specs.Prelude.{◌≡◌, []};
ghost use Rattle.x86_syntax.specs.Decodes.{decoded};

use arrayvec::ArrayVec;
use x86_decoder::decode;
use x86_syntax::Instr;

/// Bytes, and the instruction with which they begin and its length, where one does.
#[derive(Drop)]
pub struct Reading {
    pub bytes: ArrayVec<u8, 15>,
    pub found: Option<(Instr, u8)>,
    ghost read: { found ≡ decoded bytes.items },
}

impl Reading {
    /// What these bytes begin with; takes no memory.
    pub fn of(bytes: ArrayVec<u8, 15>) -> Reading
        ensures { result.bytes ≡ bytes }
    {
        let found = match decode(bytes.as_slice()) {
            Ok(found) => Some(found),
            Err(_) => None,
        };
        Reading { bytes, found }
    }
}
