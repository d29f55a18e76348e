//! Names.

ghost use Rattle.std.specs.Prelude.{◌≡◌, IfOk, option_map};
ghost use Rattle.stp_plan.specs.Parts.{parts};
ghost use Rattle.stp_plan.specs.Names.{name_of, names_from};
ghost use Rattle.stp_plan.specs.Views.{view_front};

use crate::parts::run;
use std::alloc::Global;
use stp_base::{List, Memory, Text};
use stp_text::is_name;

/// The folded name that a word spells, if it is a name.
pub(crate) fn read_name(alloc: Global, word: &[u8]) -> Result<Option<Text>, Memory>
    ensures { IfOk result (λ r. r ≡ name_of word.now) }
{
    let mut name = Text::new(alloc);
    for byte in word {
        name.push(&[byte.to_ascii_lowercase()])?;
    }
    if !is_name(name.as_slice()) {
        return Ok(None);
    }
    Ok(Some(name))
}

/// The folded names that a text begins with, and what follows them; none where a word among them is no name.
pub(crate) fn read_names<'a>(
    alloc: Global,
    text: &'a [u8],
) -> Result<Option<(List<Text>, &'a [u8])>, Memory>
    ensures { IfOk result (λ r. option_map view_front r ≡ names_from (parts text.now)) }
{
    let mut names = List::new(alloc);
    let mut rest = text;
    while let Some((word, after)) = run(rest) {
        let Some(name) = read_name(alloc, word)? else {
            return Ok(None);
        };
        names.push(name)?;
        rest = after;
    }
    Ok(Some((names, rest)))
}
