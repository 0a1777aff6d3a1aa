ghost use Rattle.std.specs.Prelude.{◌≡◌};
ghost use Rattle.interval_values.specs.Divisors.{gcd};

// The greatest common divisor; of 0 and x it is x.
pub(crate) fn gcd(a: u32, b: u32) -> u32
    ensures { result ≡ gcd a b }
{
    let mut x = a;
    let mut y = b;
    while y != 0 {
        let rest = x % y;
        x = y;
        y = rest;
    }
    x
}
