ghost use Rattle.std.specs.Prelude.{◌<◌};

use memory_map::{Choice, Fill, Items};

/// What a start file states: where a run of the machine begins, and what its steps choose.
#[derive(Drop)]
pub struct StartFile {
    /// EAX ECX EDX EBX ESP EBP ESI EDI.
    pub regs: [u32; 8],
    /// CF PF AF ZF SF OF from bit 0 on.
    pub flags: u8,
    /// The base of the segment fs.
    pub fs: u32,
    /// The base of the segment gs.
    pub gs: u32,
    /// Bytes of windows and unset ranges; where two fills hold one byte, the later one counts.
    pub fill: Items<Fill>,
    /// What the steps choose, one after another.
    pub choices: Items<Choice>,
    ghost six_flags: { flags < 64 },
}
