ghost use Rattle.domain_laws.specs.Flat.{flat_eval, flat_leq, flat_number_of, flat_raise, flat_rank, flat_reach, flat_stands};
ghost use Rattle.domain_laws.specs.declared.flat.FlatNumbers.TheVariants as values;
ghost use Rattle.domain_laws.specs.FlatLaws.{flat-lawful};

use crate::domain::Domain;
use crate::flat::FlatNumbers;
use crate::reach::Reach;
use crate::rules::{Settled, settle};
use address_regions::Region;
use bit_words::{Op, Width};

impl Domain for FlatNumbers {
    ghost stands = { flat_stands };

    ghost number = { values.Number };

    ghost place = { λ _ _. values.Any };

    ghost inside = { λ _. values.Any };

    ghost any = { values.Any };

    ghost eval = { flat_eval };

    ghost number_of = { flat_number_of };

    ghost reach = { flat_reach };

    ghost up_to = { λ v _. v };

    ghost leq = { flat_leq };

    ghost rank = { flat_rank };

    ghost raise = { flat_raise };

    ghost lawful = { flat-lawful };

    fn number(n: u32) -> FlatNumbers {
        FlatNumbers::Number(n)
    }

    fn place(_region: Region, _offset: i32) -> FlatNumbers {
        FlatNumbers::Any
    }

    fn inside(_region: Region) -> FlatNumbers {
        FlatNumbers::Any
    }

    fn any() -> FlatNumbers {
        FlatNumbers::Any
    }

    fn eval(op: Op, w: Width, a: FlatNumbers, b: FlatNumbers, _align: u32) -> FlatNumbers {
        match settle(op, w, a.number_of(), b.number_of()) {
            Some(Settled::Number(n)) => FlatNumbers::Number(n),
            Some(Settled::First) => a,
            Some(Settled::Second) => b,
            None => FlatNumbers::Any,
        }
    }

    fn number_of(self) -> Option<u32> {
        match self {
            FlatNumbers::Number(n) => Some(n),
            FlatNumbers::Any => None,
        }
    }

    fn reach(self) -> Reach {
        match self {
            FlatNumbers::Number(n) => Reach::Number { low: n, high: n },
            FlatNumbers::Any => Reach::Anywhere,
        }
    }

    fn up_to(self, _c: u32) -> FlatNumbers {
        self
    }

    fn leq(self, other: FlatNumbers) -> bool {
        self == other || other == FlatNumbers::Any
    }

    fn rank(self) -> u8 {
        match self {
            FlatNumbers::Number(_) => 1,
            FlatNumbers::Any => 0,
        }
    }

    fn raise(self) -> FlatNumbers {
        FlatNumbers::Any
    }
}

#[cfg(test)]
mod tests {
    use super::*;

    #[test]
    fn flat_values_are_numbers_or_any(rt: HostRuntime) {
        let number = |n: u32| FlatNumbers::Number(n);
        let rows = [
            (Op::Add, number(2), number(3), number(5)),
            (Op::Neg, number(1), FlatNumbers::Any, number(0xFFFF_FFFF)),
            (Op::And, FlatNumbers::Any, number(0), number(0)),
            (Op::Add, FlatNumbers::Any, number(0), FlatNumbers::Any),
            (Op::Mul, FlatNumbers::Any, number(0), FlatNumbers::Any),
        ];
        for (op, a, b, want) in rows {
            assert!(rt;
                FlatNumbers::eval(op, Width::B32, a, b, 16) == want,
                "{op:?} of {a:?} and {b:?}"
            );
        }
        assert!(rt; FlatNumbers::place(Region::Stack, 0) == FlatNumbers::Any);
        assert!(rt; FlatNumbers::inside(Region::Stack) == FlatNumbers::any());
        assert!(rt; number(7).reach() == Reach::Number { low: 7, high: 7 });
        assert!(rt;
            number(7).leq(FlatNumbers::Any)
                && !FlatNumbers::Any.leq(number(7))
                && !number(7).leq(number(8))
        );
        assert!(rt;
            number(7).rank() == 1
                && number(7).raise() == FlatNumbers::Any
                && number(7).up_to(3) == number(7)
        );
    }
}
