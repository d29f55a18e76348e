//! Types that are not declared, and types of functions.

ghost use Rattle.std.specs.Prelude.{map};
ghost use Rattle.stp_text.specs.Tree.{view};
ghost use Rattle.stp_refusal.specs.Read.{Finds};
ghost use Rattle.stp_domain_tables.specs.Views.{signature_of};
ghost use Rattle.stp_domain_tables.specs.ActionViews.{action_signature_of};
ghost use Rattle.stp_domain_tables.specs.Tables.{symbols_unknown, actions_unknown, number_wrong, numbers_wrong};

use crate::declaration::{ActionDeclaration, Declaration};
use stp_domain_parts::judge_kinds;
use stp_refusal::{Code, Offence, note};
use stp_tables::Names;
use stp_text::Sexpr;

/// Looks for types of parameters that are not declared.
pub fn judge_symbols(types: &Names, rows: &[Declaration<'_>], first: &mut Option<Offence>)
    ensures { Finds first.old first.new (symbols_unknown types.now (map signature_of rows.now)) }
{
    for row in rows {
        judge_kinds(Code::D13, types, row.parameters.as_slice(), first);
    }
}

/// Looks for types of parameters of actions that are not declared.
pub fn judge_actions(types: &Names, rows: &[ActionDeclaration<'_>], first: &mut Option<Offence>)
    ensures { Finds first.old first.new (actions_unknown types.now (map action_signature_of rows.now)) }
{
    for row in rows {
        judge_kinds(Code::D13, types, row.parameters.as_slice(), first);
    }
}

/// Looks at a type of functions.
fn judge_number(kind: &Sexpr<'_>, first: &mut Option<Offence>)
    ensures { Finds first.old first.new (number_wrong (view kind.now)) }
{
    match kind {
        Sexpr::Word { at, text } => {
            if *text != b"number".as_slice() {
                note(first, *at, Code::D15);
            }
        }
        Sexpr::Items { .. } => {}
    }
}

/// Looks for types of functions other than `number`.
pub fn judge_numbers(kinds: &[Sexpr<'_>], first: &mut Option<Offence>)
    ensures { Finds first.old first.new (numbers_wrong (map view kinds.now)) }
{
    for kind in kinds {
        judge_number(kind, first);
    }
}
