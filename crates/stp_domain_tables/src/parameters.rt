//! Lists of parameters.

ghost use Rattle.std.specs.Prelude.{◌≡◌, ℕ, List as Sequence, IfOk};
ghost use Rattle.stp_refusal.specs.Read.{IsRead, Finds};
ghost use Rattle.stp_tables.specs.Names.{is_new_in};
ghost use Rattle.stp_domain_parts.specs.Entries.{plains};
ghost use Rattle.stp_domain_tables.specs.HeadViews.{head_in};
ghost use Rattle.stp_domain_tables.specs.Parameters.{name_wrong, parameters_read};

use crate::head::{Head, is_reserved};
use std::alloc::Global;
use stp_base::limits::MAX_PARAMETERS;
use stp_base::{List, Memory};
use stp_domain_parts::{Entry, WordKind, judge_names, judge_shapes, read_entries};
use stp_refusal::{Code, Offence, note};
use stp_tables::Names;
use stp_text::is_name;

/// Looks at the name of a declaration, which is new or not.
fn judge_name(reserved: bool, is_new: bool, head: Head<'_>, first: &mut Option<Offence>)
    ensures { (seen : Sequence (Sequence ℕ)) → is_new ≡ is_new_in seen head.entry.name.now → Finds first.old first.new (name_wrong reserved seen (head_in head.entry)) }
{
    if !is_name(head.name) {
        note(first, head.name_at, Code::D07);
    }
    if !is_new {
        note(first, head.name_at, Code::D08);
    }
    if reserved && is_reserved(head.name) {
        note(first, head.name_at, Code::D09);
    }
}

/// The entries of a declaration's list of parameters, with what is wrong with the declaration.
pub fn read_parameters<'a>(
    alloc: Global,
    reserved: bool,
    is_new: bool,
    head: Head<'a>,
    first: &mut Option<Offence>,
) -> Result<List<Entry<'a>>, Memory>
    ensures { IfOk result (λ r. (seen : Sequence (Sequence ℕ)) → is_new ≡ is_new_in seen head.entry.name.now → IsRead first.old first.new (plains r) (parameters_read reserved seen (head_in head.entry))) }
{
    let before = *first;
    let entries = read_entries(alloc, head.parameters, Code::D10, first)?;
    if entries.as_slice().len() > MAX_PARAMETERS {
        *first = before;
        note(first, head.at, Code::D12);
        return Ok(entries);
    }
    let mut names = Names::new(alloc);
    judge_names(
        WordKind::Variable,
        Code::D07,
        Code::D08,
        &mut names,
        entries.as_slice(),
        first,
    )?;
    judge_shapes(entries.as_slice(), first);
    judge_name(reserved, is_new, head, first);
    Ok(entries)
}
