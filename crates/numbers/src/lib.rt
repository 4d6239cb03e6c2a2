#![tactic(auto)]

ghost use Rattle.std.specs.Prelude.{◌≡◌, ◌^◌, ◌<◌, pos, ◌-ℤ◌};
ghost use Rattle.numbers.specs.Pairs.{IsGcd};
ghost use Rattle.numbers.specs.Word.{Stretch};

// The greatest common divisor, by remainders.
pub fn gcd_of(a: u64, b: u64) -> u64
    ensures { IsGcd a b result }
{
    let mut x = a;
    let mut y = b;
    while y != 0 {
        let r = x % y;
        x = y;
        y = r;
    }
    x
}

// a less b, as a whole number.
pub fn less(a: u64, b: u64) -> i64
    requires { (a < 2 ^ 63) × (b < 2 ^ 63) }
    ensures { result ≡ pos a -ℤ pos b }
{
    a as i64 - b as i64
}

// The word of the bits from `a` up to `b`, without `b`.
pub fn stretch(a: usize, b: usize) -> u64
    requires { b < 64 }
    ensures { Stretch a b result }
{
    if b <= a {
        return 0;
    }
    (1u64 << b) - (1u64 << a)
}
