//! Greatest common divisors, and how they are cancelled.

ghost use Rattle.std.specs.Prelude.{◌≡◌, ◌/◌, ◌≤◌};
ghost use Rattle.stp_frac.specs.Divisors.{gcd};

/// The greatest common divisor, by Euclid's steps.
pub fn gcd(a: u128, b: u128) -> u128
    ensures { result ≡ gcd a b }
{
    let mut x = a;
    let mut y = b;
    'steps: while y != 0 {
        let rest = x % y;
        x = y;
        y = rest;
    }
    x
}

/// Two numbers divided by their greatest common divisor.
pub fn cancel(top: u128, bottom: u128) -> (u128, u128)
    requires { 1 ≤ bottom }
    ensures top { result.0 ≡ top / gcd top bottom }
    ensures bottom { result.1 ≡ bottom / gcd top bottom }
    ensures lowest { gcd result.0 result.1 ≡ 1 }
    ensures low { 1 ≤ result.1 }
    ensures top_size { result.0 ≤ top }
    ensures bottom_size { result.1 ≤ bottom }
{
    let divisor = gcd(top, bottom);
    (top / divisor, bottom / divisor)
}
