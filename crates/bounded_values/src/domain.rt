ghost use Rattle.std.specs.Prelude.{◌≡◌};
ghost use Rattle.bounded_values.specs.declared.value.Bounded.TheVariants as values;
ghost use Rattle.bounded_values.specs.BoundedLaws.{bounded-lawful};
ghost use Rattle.bounded_values.specs.Order.{bounded_leq, bounded_raise, bounded_rank, is_within};
ghost use Rattle.bounded_values.specs.Rules.{bounded_eval};
ghost use Rattle.bounded_values.specs.Stands.{bounded_inside, bounded_number_of, bounded_reach, bounded_stands};

use crate::rules::by_places;
use crate::value::Bounded;
use address_regions::Region;
use bit_words::{Op, Width};
use domain_laws::{Domain, Reach, Settled, settle};

impl Domain for Bounded {
    ghost stands = { bounded_stands };

    ghost number = { values.Number };

    ghost place = { values.Exact };

    ghost inside = { bounded_inside };

    ghost any = { values.Any };

    ghost eval = { bounded_eval };

    ghost number_of = { bounded_number_of };

    ghost reach = { bounded_reach };

    ghost up_to = { λ v _. v };

    ghost leq = { bounded_leq };

    ghost rank = { bounded_rank };

    ghost raise = { bounded_raise };

    ghost lawful = { bounded-lawful };

    fn number(n: u32) -> Bounded {
        Bounded::Number(n)
    }

    fn place(region: Region, offset: i32) -> Bounded {
        Bounded::Exact(region, offset)
    }

    fn inside(region: Region) -> Bounded {
        if region.has_room() {
            Bounded::Inside(region)
        } else {
            Bounded::Any
        }
    }

    fn any() -> Bounded {
        Bounded::Any
    }

    fn eval(op: Op, w: Width, a: Bounded, b: Bounded, align: u32) -> Bounded {
        match settle(op, w, a.number_of(), b.number_of()) {
            Some(Settled::Number(n)) => Bounded::Number(n),
            Some(Settled::First) => a,
            Some(Settled::Second) => b,
            None => by_places(op, w, a, b, align),
        }
    }

    fn number_of(self) -> Option<u32> {
        match self {
            Bounded::Number(n) => Some(n),
            Bounded::Exact(..) | Bounded::Inside(_) | Bounded::Any => None,
        }
    }

    fn reach(self) -> Reach {
        match self {
            Bounded::Number(n) => Reach::Number { low: n, high: n },
            Bounded::Exact(region, o) => Reach::Place {
                region,
                low: o,
                high: o,
            },
            Bounded::Inside(region) => match region.bounds_inside() {
                Some((low, high)) => Reach::Place { region, low, high },
                None => Reach::Anywhere,
            },
            Bounded::Any => Reach::Anywhere,
        }
    }

    fn up_to(self, _c: u32) -> Bounded {
        self
    }

    #[tactic(auto, unfolding(crate::specs::Order::same_value))]
    fn leq(self, other: Bounded) -> bool {
        self == other || is_within(self, other)
    }

    fn rank(self) -> u8 {
        match self {
            Bounded::Number(_) | Bounded::Exact(..) => 2,
            Bounded::Inside(_) => 1,
            Bounded::Any => 0,
        }
    }

    fn raise(self) -> Bounded {
        match self {
            Bounded::Exact(region, o) if region.is_inside(o) => Bounded::Inside(region),
            _ => Bounded::Any,
        }
    }
}

// Whether `b` is any, or `a` is one of the places inside the region of `b`.
#[tactic(auto, unfolding(address_regions::specs::Same::same_region))]
fn is_within(a: Bounded, b: Bounded) -> bool
    ensures { result ≡ is_within a b }
{
    match (a, b) {
        (_, Bounded::Any) => true,
        (Bounded::Exact(r, o), Bounded::Inside(s)) => r == s && s.is_inside(o),
        _ => false,
    }
}
