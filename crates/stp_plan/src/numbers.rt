//! Numbers as plans spell them.

ghost use Rattle.std.specs.Prelude.{◌≡◌, option_map};
ghost use Rattle.stp_frac.specs.Fractions.{value_of};
ghost use Rattle.stp_plan.specs.Numbers.{plain_number};

use stp_frac::Frac;

/// The number that a word without a minus spells.
pub fn plain_number(word: &[u8]) -> Option<Frac>
    ensures { option_map value_of result ≡ plain_number word.now }
{
    match word {
        [b'-', ..] => None,
        _ => Frac::read(word).ok(),
    }
}
