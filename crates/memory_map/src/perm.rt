ghost use Rattle.std.specs.Prelude.{◌≡◌, ◌+◌, ⊤, [], ◌∷◌, codes, if◌then◌else◌};

use bitflags::{Flag, Flags, bitflag_items};

/// What may be done with the bytes of a segment. Every mapped byte may be read, whatever its segment says.
#[derive(Clone, Copy, PartialEq, Eq, Debug)]
pub struct Perm(u8);

bitflag_items! {
    impl Perm: u8 {
        const READ = 1;
        const WRITE = 2;
        const EXECUTE = 4;
    }
}

impl Flags for Perm {
    type Bits = u8;

    ghost exact = { ⊤ };

    ghost table = { (codes "READ", 1) ∷ (codes "WRITE", 2) ∷ (codes "EXECUTE", 4) ∷ [] };

    ghost set_of = { λ p. p.0 };

    fn flags<'a>() -> &'a [Flag<Perm>] {
        Perm::FLAGS
    }

    fn bits(&self) -> u8 {
        self.0
    }

    fn from_bits_retain(bits: u8) -> Perm {
        Perm(bits)
    }
}

impl Perm {
    /// The rights of bytes that may be read, and perhaps written and executed.
    pub fn new(write: bool, execute: bool) -> Perm
        ensures { result.0 ≡ 1 + (if write then 2 else 0) + (if execute then 4 else 0) }
    {
        match (write, execute) {
            (false, false) => Perm::READ,
            (true, false) => Perm(3),
            (false, true) => Perm(5),
            (true, true) => Perm(7),
        }
    }
}
