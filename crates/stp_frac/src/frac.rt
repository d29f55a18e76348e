//! Fractions: their parts, and exact arithmetic.

ghost use Rattle.std.specs.Prelude.{◌≡◌, ◌<◌, ◌≤◌, ◌^◌, ◌&&◌, ◌==◌, false};
ghost use Rattle.stp_base.specs.declared.limits.TheConstants.{MAX_GRID};
ghost use Rattle.stp_frac.specs.Divisors.{gcd, lcm};

use crate::divisor::{cancel, gcd};
use std::cmp::Ordering;

/// Numerators stay below this in size.
const TOP_LIMIT: u128 = 1_000_000_000_000_000_000;
/// The greatest denominator.
const MAX_BOTTOM: u128 = 1_000_000_000_000;

/// A fraction in lowest terms: a numerator below 10^18 in size over a denominator from 1 to 10^12.
#[derive(Clone, Copy, Debug, PartialEq, Eq)]
pub struct Frac {
    pub(crate) negative: bool,
    pub(crate) top: u128,
    pub(crate) bottom: u128,
    pub ghost low: { 1 ≤ bottom },
    pub ghost high: { bottom ≤ 10 ^ 12 },
    pub ghost size: { top < 10 ^ 18 },
    pub ghost lowest: { gcd top bottom ≡ 1 },
    pub ghost sign: { (negative && (top == 0)) ≡ false },
}

impl Frac {
    ghost use Rattle.std.specs.Prelude.{option_map, neg_ℤ, pos};
    ghost use Rattle.stp_frac.specs.Fractions.{value_of, signed, lowest, fraction, sum_of, difference_of, product_of, quotient_of, order_of, whole_of, on_grid_of, up_to, zero};

    /// A fraction in lowest terms, where that is in range.
    #[tactic(auto, unfolding(crate::specs::Fractions::fraction))]
    fn reduced(negative: bool, top: u128, bottom: u128) -> Option<Frac>
        requires { 1 ≤ bottom }
        ensures { option_map value_of result ≡ fraction (signed negative top) bottom }
    {
        let (top, bottom) = cancel(top, bottom);
        if top >= TOP_LIMIT || bottom > MAX_BOTTOM {
            return None;
        }
        Some(Frac {
            negative: negative && top != 0,
            top,
            bottom,
        })
    }

    /// Two numbers in range as a fraction in lowest terms.
    pub(crate) fn lowest(negative: bool, top: u128, bottom: u128) -> Frac
        requires low { 1 ≤ bottom }
        requires high { bottom ≤ 10 ^ 12 }
        requires size { top < 10 ^ 18 }
        ensures { value_of result ≡ lowest (signed negative top) bottom }
    {
        let (top, bottom) = cancel(top, bottom);
        Frac {
            negative: negative && top != 0,
            top,
            bottom,
        }
    }

    /// The sum, where it is in range.
    #[tactic(auto, unfolding(crate::specs::Fractions::sum_of))]
    pub fn plus(self, other: Frac) -> Option<Frac>
        ensures { option_map value_of result ≡ sum_of (value_of self) (value_of other) }
    {
        let left = self.top * other.bottom;
        let right = other.top * self.bottom;
        let bottom = self.bottom * other.bottom;
        if self.negative == other.negative {
            return Frac::reduced(self.negative, left + right, bottom);
        }
        if right <= left {
            return Frac::reduced(self.negative, left - right, bottom);
        }
        Frac::reduced(other.negative, right - left, bottom)
    }

    /// The difference, where it is in range.
    pub fn minus(self, other: Frac) -> Option<Frac>
        ensures { option_map value_of result ≡ difference_of (value_of self) (value_of other) }
    {
        self.plus(other.negated())
    }

    /// The same number on the other side of 0.
    fn negated(self) -> Frac
        ensures top { (value_of result).top ≡ neg_ℤ (value_of self).top }
        ensures bottom { (value_of result).bottom ≡ (value_of self).bottom }
    {
        Frac {
            negative: !self.negative && self.top != 0,
            top: self.top,
            bottom: self.bottom,
        }
    }

    /// The product, where it is in range.
    #[tactic(auto, unfolding(crate::specs::Fractions::product_of))]
    pub fn times(self, other: Frac) -> Option<Frac>
        ensures { option_map value_of result ≡ product_of (value_of self) (value_of other) }
    {
        Frac::reduced(
            self.negative != other.negative,
            self.top * other.top,
            self.bottom * other.bottom,
        )
    }

    /// The quotient, where the divisor is not 0 and the quotient is in range.
    #[tactic(auto, unfolding(crate::specs::Fractions::quotient_of, crate::specs::Fractions::product_of))]
    pub fn over(self, other: Frac) -> Option<Frac>
        ensures { option_map value_of result ≡ quotient_of (value_of self) (value_of other) }
    {
        if other.top == 0 {
            return None;
        }
        Frac::reduced(
            self.negative != other.negative,
            self.top * other.bottom,
            self.bottom * other.top,
        )
    }

    /// Which of two fractions is less.
    #[tactic(auto, unfolding(crate::specs::Fractions::order_of))]
    pub fn compare(self, other: Frac) -> Ordering
        ensures { result ≡ order_of (value_of self) (value_of other) }
    {
        let left = self.top * other.bottom;
        let right = other.top * self.bottom;
        match (self.negative, other.negative) {
            (false, false) => left.cmp(&right),
            (false, true) => Ordering::Greater,
            (true, false) => Ordering::Less,
            (true, true) => right.cmp(&left),
        }
    }

    /// Whether the value is whole.
    pub fn is_whole(self) -> bool
        ensures { result ≡ ((value_of self).bottom == 1) }
    {
        self.bottom == 1
    }

    /// The value, where it is whole and not below 0.
    #[tactic(auto, unfolding(crate::specs::Fractions::whole_of))]
    pub fn whole(self) -> Option<u128>
        ensures { result ≡ whole_of (value_of self).top (value_of self).bottom }
    {
        if self.negative {
            return None;
        }
        if self.bottom != 1 {
            return None;
        }
        Some(self.top)
    }

    /// The value times k, where that is whole and not below 0.
    #[tactic(auto, unfolding(crate::specs::Fractions::on_grid_of, crate::specs::Fractions::whole_of))]
    pub fn on_grid(self, k: u128) -> Option<u128>
        requires low { 1 ≤ k }
        requires high { k ≤ MAX_GRID }
        ensures { result ≡ on_grid_of k (value_of self) }
    {
        if self.negative {
            return None;
        }
        let count = self.top * k;
        if count % self.bottom != 0 {
            return None;
        }
        Some(count / self.bottom)
    }

    /// Zero.
    pub fn zero() -> Frac
        ensures { value_of result ≡ zero }
    {
        let Some(zero) = Frac::from_grid(0, 1) else {
            unreachable!();
        };
        zero
    }

    /// n divided by k, where that is in range.
    pub fn from_grid(n: u128, k: u128) -> Option<Frac>
        requires low { 1 ≤ k }
        requires high { k ≤ MAX_GRID }
        ensures { option_map value_of result ≡ fraction (pos n) k }
    {
        Frac::reduced(false, n, k)
    }

    /// The least common multiple of k and a denominator, where that is at most the limit.
    pub fn join_grid(k: u128, f: Frac, limit: u128) -> Option<u128>
        requires low { 1 ≤ k }
        requires high { k ≤ limit }
        requires limit { limit ≤ MAX_GRID }
        ensures { result ≡ up_to limit (lcm k (value_of f).bottom) }
    {
        let joint = k / gcd(k, f.bottom) * f.bottom;
        if joint > limit {
            return None;
        }
        Some(joint)
    }
}
