//! The greatest common divisor.

ghost use Rattle.csdf_analysis.specs.Divisor.{IsGreatestDivisor};

/// The greatest common divisor, by Euclid's algorithm.
pub(crate) fn gcd(a: u64, b: u64) -> u64
    ensures { IsGreatestDivisor a b result }
{
    let mut x = a;
    let mut y = b;
    while y != 0 {
        let rest = x % y;
        x = y;
        y = rest;
    }
    x
}
