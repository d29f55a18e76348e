//! Offences, and the first of those that were found.

ghost use Rattle.std.specs.Prelude.{◌≡◌, ◌||◌, ◌==◌, ◌&&◌, nat_lt, nat_le};
ghost use Rattle.stp_refusal.specs.First.{earlier, is_before};

use crate::code::{Code, rank};

/// What is wrong with a text, and where: the offset of a byte, or a number of a thing.
#[derive(Clone, Copy, Debug, PartialEq, Eq)]
pub struct Offence {
    pub at: u32,
    pub code: Code,
}

/// Whether the one offence is given where there are both.
fn is_before(one: &Offence, other: &Offence) -> bool
    ensures { result ≡ is_before one.now other.now }
{
    one.at < other.at || (one.at == other.at && rank(one.code) <= rank(other.code))
}

/// Keeps the first of what was found so far and one more offence.
pub fn note(first: &mut Option<Offence>, at: u32, code: Code)
    ensures { first.new ≡ earlier first.old (record { at = at; code = code }) }
{
    let offence = Offence { at, code };
    match first {
        Some(found) if is_before(found, &offence) => {}
        _ => *first = Some(offence),
    }
}
