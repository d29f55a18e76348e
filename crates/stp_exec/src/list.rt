//! Reading lists of durations.

ghost use Rattle.std.specs.Prelude.{◌≡◌, Some, None, MatchResult, map, option_map};
ghost use Rattle.stp_frac.specs.Fractions.{value_of};
ghost use Rattle.stp_plan.specs.Numbers.{plain_number};
ghost use Rattle.stp_exec.specs.Lists.{is_none_word, durations_in};
ghost use Rattle.stp_exec.specs.declared.list.ListFault.TheVariants.{Memory as OutOfMemory};

use std::alloc::Global;
use stp_base::{List, Memory};
use stp_frac::Frac;
use thiserror::Error;

/// Why a text is refused where a list of durations is read. Its code is V01.
#[derive(Clone, Copy, Debug, PartialEq, Eq, Error)]
pub enum ListFault {
    /// V01: it is neither `none` nor numbers that commas part.
    #[error("V01: a malformed list of durations")]
    BadList,
    /// Want of memory.
    #[error("out of memory")]
    Memory,
}

impl From<Memory> for ListFault {
    ghost from_gives = { λ _ e. e ≡ OutOfMemory };

    fn from(_error: Memory) -> ListFault {
        ListFault::Memory
    }
}

/// Whether a text is the word `none`.
fn is_none_word(text: &[u8]) -> bool
    ensures { result ≡ is_none_word text.now }
{
    text == b"none".as_slice()
}

/// The number that a word without a minus spells.
fn number(word: &[u8]) -> Option<Frac>
    ensures { option_map value_of result ≡ plain_number word.now }
{
    match word {
        [b'-', ..] => None,
        _ => Frac::read(word).ok(),
    }
}

/// The durations that a text lists: the word `none`, or numbers without a minus that single commas part.
pub fn read_durations(alloc: Global, text: &[u8]) -> Result<List<Frac>, ListFault>
    ensures { MatchResult result
        (λ durations. durations_in text.now ≡ Some (map value_of durations))
        (λ fault. fault ≡ ListFault.BadList → durations_in text.now ≡ None) }
{
    let mut durations = List::new(alloc);
    if is_none_word(text) {
        return Ok(durations);
    }
    for word in text.split(|byte| *byte == b',') {
        let Some(duration) = number(word) else {
            return Err(ListFault::BadList);
        };
        durations.push(duration)?;
    }
    Ok(durations)
}
