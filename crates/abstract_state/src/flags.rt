ghost use Rattle.std.specs.Prelude.{◌≡◌};
ghost use Rattle.abstract_state.specs.Flags.{covers_flags, truth_met, truth_tests, unknown_flags};

use crate::truth::Truth;
use x86_syntax::Cond;

/// What is known of the seven flags.
#[derive(Clone, Copy, Debug, PartialEq, Eq)]
pub struct Truths {
    pub carry: Truth,
    pub parity: Truth,
    pub adjust: Truth,
    pub zero: Truth,
    pub sign: Truth,
    pub overflow: Truth,
    pub direction: Truth,
}

impl Truths {
    /// Six flags of which nothing is known, and the direction flag as given.
    pub fn unknown(direction: Truth) -> Truths
        ensures { result ≡ unknown_flags direction }
    {
        Truths {
            carry: Truth::Unknown,
            parity: Truth::Unknown,
            adjust: Truth::Unknown,
            zero: Truth::Unknown,
            sign: Truth::Unknown,
            overflow: Truth::Unknown,
            direction,
        }
    }

    /// Whether these stand for all for which `s` does: each flag is unknown here, or the same there.
    pub fn covers(&self, s: &Truths) -> bool
        ensures { result ≡ covers_flags self.now s.now }
    {
        self.carry.covers(s.carry)
            && self.parity.covers(s.parity)
            && self.adjust.covers(s.adjust)
            && self.zero.covers(s.zero)
            && self.sign.covers(s.sign)
            && self.overflow.covers(s.overflow)
            && self.direction.covers(s.direction)
    }

    /// What is known of a condition.
    #[tactic(auto, unfolding(crate::specs::Flags::truth_met))]
    pub fn meets(&self, condition: Cond) -> Truth
        ensures { result ≡ truth_met condition self.now }
    {
        self.even(condition.0 / 2).negated_if(condition.0 % 2 == 1)
    }

    // What is known of the even condition of twice this number.
    fn even(&self, half: u8) -> Truth
        ensures { result ≡ truth_tests self.now half }
    {
        match half {
            0 => self.overflow,
            1 => self.carry,
            2 => self.zero,
            3 => self.carry.or(self.zero),
            4 => self.sign,
            5 => self.parity,
            6 => self.sign.xor(self.overflow),
            7 => self.zero.or(self.sign.xor(self.overflow)),
            _ => Truth::No,
        }
    }
}
