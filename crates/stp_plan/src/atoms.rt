//! Names with their arguments.

ghost use Rattle.std.specs.Prelude.{◌≡◌, IfOk, option_map};
ghost use Rattle.stp_plan.specs.Parts.{parts};
ghost use Rattle.stp_plan.specs.Names.{atom_of};
ghost use Rattle.stp_plan.specs.Views.{view_front};

use crate::names::{read_name, read_names};
use crate::parts::{mark, run};
use std::alloc::Global;
use stp_base::{List, Memory, Text};

/// A name with its arguments.
#[derive(Drop)]
pub struct Named {
    /// The name in lower case.
    pub name: Text,
    /// The names of the arguments in lower case.
    pub args: List<Text>,
}

/// The `(name args)` that a text begins with, folded, and what follows it.
pub(crate) fn atom<'a>(alloc: Global, text: &'a [u8]) -> Result<Option<(Named, &'a [u8])>, Memory>
    ensures { IfOk result (λ r. option_map view_front r ≡ atom_of (parts text.now)) }
{
    let Some(rest) = mark(text, b'(') else {
        return Ok(None);
    };
    let Some((word, rest)) = run(rest) else {
        return Ok(None);
    };
    let Some(name) = read_name(alloc, word)? else {
        return Ok(None);
    };
    let Some((args, rest)) = read_names(alloc, rest)? else {
        return Ok(None);
    };
    let Some(rest) = mark(rest, b')') else {
        return Ok(None);
    };
    Ok(Some((Named { name, args }, rest)))
}
