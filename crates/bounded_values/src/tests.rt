use crate::Bounded;
use address_regions::Region;
use bit_words::{Op, Width};
use domain_laws::{Domain, FlatNumbers, Reach};

const BLOCK: Region = Region::Block {
    site: 0x0804_8008,
    size: 16,
    zeroed: true,
};

const TINY: Region = Region::Block {
    site: 0x0804_8008,
    size: 3,
    zeroed: true,
};

// What each method answers for the stack place at -8.
#[derive(Debug, Drop, PartialEq, Eq)]
struct Answers<D> {
    number: D,
    place: D,
    inside: D,
    any: D,
    sum: D,
    known: Option<u32>,
    reach: Reach,
    up_to: D,
    below: bool,
    rank: u8,
    raised: D,
}

fn asked<D: Domain>() -> Answers<D> {
    let place = D::place(Region::Stack, -8);
    Answers {
        number: D::number(5),
        place,
        inside: D::inside(Region::Stack),
        any: D::any(),
        sum: D::eval(Op::Add, Width::B32, place, D::number(4), 16),
        known: D::number(5).number_of(),
        reach: place.reach(),
        up_to: D::number(5).up_to(9),
        below: place.leq(D::inside(Region::Stack)),
        rank: D::number(5).rank(),
        raised: place.raise(),
    }
}

#[test]
fn every_method_through_its_bound_at_both_domains(rt: HostRuntime) {
    let flat = Answers {
        number: FlatNumbers::Number(5),
        place: FlatNumbers::Any,
        inside: FlatNumbers::Any,
        any: FlatNumbers::Any,
        sum: FlatNumbers::Any,
        known: Some(5),
        reach: Reach::Anywhere,
        up_to: FlatNumbers::Number(5),
        below: true,
        rank: 1,
        raised: FlatNumbers::Any,
    };
    let bounded = Answers {
        number: Bounded::Number(5),
        place: Bounded::Exact(Region::Stack, -8),
        inside: Bounded::Inside(Region::Stack),
        any: Bounded::Any,
        sum: Bounded::Exact(Region::Stack, -4),
        known: Some(5),
        reach: Reach::Place {
            region: Region::Stack,
            low: -8,
            high: -8,
        },
        up_to: Bounded::Number(5),
        below: true,
        rank: 2,
        raised: Bounded::Inside(Region::Stack),
    };
    assert!(rt; asked::<FlatNumbers>() == flat);
    assert!(rt; asked::<Bounded>() == bounded);
}

#[test]
fn values_and_flags(rt: HostRuntime) {
    let stack = |o: i32| Bounded::Exact(Region::Stack, o);
    let inside = Bounded::Inside(Region::Stack);
    let number = |n: u32| Bounded::Number(n);
    let rows = [
        (Op::And, stack(-44), number(0xFFFF_FFF0), 16, stack(-48)),
        (Op::And, stack(-44), number(0xFFFF_FFF0), 4, Bounded::Any),
        (Op::And, number(0xFFFF_FFF0), stack(-44), 16, stack(-48)),
        (Op::And, stack(-44), number(0xFFFF_FFF8), 16, stack(-48)),
        (Op::And, stack(-44), number(0xFFFF_FFF1), 16, Bounded::Any),
        (
            Op::And,
            Bounded::Exact(Region::Fs, -44),
            number(0xFFFF_FFF0),
            16,
            Bounded::Any,
        ),
        (Op::And, inside, number(0), 16, number(0)),
        (Op::Or, number(0xFFFF_FFFF), inside, 16, number(0xFFFF_FFFF)),
        (Op::Add, stack(-4), number(4), 16, stack(0)),
        (Op::Add, number(0xFFFF_FFFC), stack(0), 16, stack(-4)),
        (
            Op::Add,
            stack(0x7FFF_FFFF),
            number(1),
            16,
            stack(-0x8000_0000),
        ),
        (Op::Add, inside, number(4), 16, Bounded::Any),
        (Op::Add, inside, number(0), 16, inside),
        (Op::Sub, stack(-4), number(8), 16, stack(-12)),
        (Op::Sub, number(8), stack(-4), 16, Bounded::Any),
        (Op::Sub, stack(4), stack(8), 16, number(0xFFFF_FFFC)),
        (
            Op::Sub,
            Bounded::Exact(BLOCK, 4),
            Bounded::Exact(BLOCK, 8),
            16,
            Bounded::Any,
        ),
        (Op::Eq, stack(4), stack(8), 16, number(0)),
        (Op::Eq, stack(4), stack(4), 16, number(1)),
        (
            Op::Eq,
            stack(4),
            Bounded::Exact(Region::Gs, 4),
            16,
            Bounded::Any,
        ),
        (Op::Eq, Bounded::Inside(BLOCK), number(0), 16, number(0)),
        (
            Op::Eq,
            number(0xF000_0000),
            Bounded::Inside(BLOCK),
            16,
            number(0),
        ),
        (
            Op::Eq,
            number(4096),
            Bounded::Inside(BLOCK),
            16,
            Bounded::Any,
        ),
        (Op::Eq, number(0), Bounded::Inside(TINY), 16, Bounded::Any),
        (Op::Eq, number(0), Bounded::Exact(BLOCK, 15), 16, number(0)),
        (
            Op::Eq,
            number(0),
            Bounded::Exact(BLOCK, 16),
            16,
            Bounded::Any,
        ),
        (Op::Low8, number(0x1234), Bounded::Any, 16, number(0x34)),
        (Op::Shl, inside, number(0), 16, inside),
    ];
    for (op, a, b, align, want) in rows {
        let got = Bounded::eval(op, Width::B32, a, b, align);
        assert!(rt;
            got == want,
            "{op:?} of {a:?} and {b:?} at {align} is {got:?}"
        );
    }
    assert!(rt; Bounded::eval(Op::Add, Width::B16, stack(0), number(4), 16) == Bounded::Any);
}

#[test]
fn order_and_reach_at_the_ends_of_a_region(rt: HostRuntime) {
    let last = Bounded::Exact(BLOCK, 12);
    let past = Bounded::Exact(BLOCK, 13);
    assert!(rt; last.leq(Bounded::Inside(BLOCK)) && last.raise() == Bounded::Inside(BLOCK));
    assert!(rt; !past.leq(Bounded::Inside(BLOCK)) && past.raise() == Bounded::Any);
    assert!(rt; !Bounded::Inside(BLOCK).leq(last) && !Bounded::Any.leq(Bounded::Inside(BLOCK)));
    assert!(rt;
        Bounded::inside(BLOCK).reach()
            == Reach::Place {
                region: BLOCK,
                low: 0,
                high: 12
            }
    );
    assert!(rt; Bounded::inside(TINY) == Bounded::Any);
    assert!(rt; Bounded::Inside(TINY).reach() == Reach::Anywhere);
    assert!(rt; !Bounded::Exact(TINY, 0).leq(Bounded::Inside(TINY)));
}
