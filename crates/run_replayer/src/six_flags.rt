ghost use Rattle.std.specs.Prelude.{◌≡◌, ◌<◌};

use std::marker::Model;

/// CF PF AF ZF SF OF, from bit 0 on, which contracts see as their number.
#[derive(Drop)]
pub struct SixFlags {
    held: u8,
}

impl Model for SixFlags {
    ghost use Rattle.std.specs.Prelude.{ℕ, ◌<◌};

    ghost Value = { ℕ };

    ghost view = { λ f. f.held };

    ghost invariant = { λ f. f.held < 64 };
}

impl SixFlags {
    pub fn new(held: u8) -> SixFlags
        requires { held < 64 }
        ensures { result ≡ held }
    {
        SixFlags { held }
    }

    pub fn get(&self) -> u8
        ensures value { result ≡ self.now }
        ensures six { result < 64 }
    {
        self.held
    }
}
