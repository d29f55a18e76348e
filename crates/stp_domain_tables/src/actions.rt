//! Actions and their parameters.

ghost use Rattle.std.specs.Prelude.{◌≡◌, map, IfOk, OnOk};
ghost use Rattle.stp_refusal.specs.Read.{IsRead};
ghost use Rattle.stp_domain_parts.specs.Views.{action_of};
ghost use Rattle.stp_domain_tables.specs.Actions.{no_actions, head_of_action, action_read, actions_read};
ghost use Rattle.stp_domain_tables.specs.HeadViews.{head_in};
ghost use Rattle.stp_domain_tables.specs.ActionViews.{actions_of, action_table_of};
ghost use Rattle.stp_domain_tables.specs.Named.{action_names_of};

use crate::declaration::ActionDeclaration;
use crate::head::Head;
use crate::parameters::read_parameters;
use crate::table::ActionTable;
use std::alloc::Global;
use stp_base::{List, Memory};
use stp_domain_parts::ActionParts;
use stp_refusal::Offence;
use stp_tables::Names;

/// The head of an action.
fn head_of_action<'a>(action: &ActionParts<'a>) -> Head<'a>
    ensures { head_in result ≡ head_of_action (action_of action.now) }
{
    Head {
        at: action.at,
        name_at: action.name_at,
        name: action.name,
        parameters: action.parameters,
    }
}

/// Reads an action.
fn read_action<'a>(
    alloc: Global,
    names: &mut Names,
    rows: &mut List<ActionDeclaration<'a>>,
    action: &ActionParts<'a>,
    first: &mut Option<Offence>,
) -> Result<(), Memory>
    ensures read { OnOk result (IsRead first.old first.new (actions_of names.new rows.new) (action_read (actions_of names.old rows.old) (action_of action.now))) }
    ensures named { OnOk result (names.old ≡ action_names_of rows.old → names.new ≡ action_names_of rows.new) }
{
    let is_new = names.add(action.name)?;
    let head = head_of_action(action);
    let parameters = read_parameters(alloc, false, is_new, head, first)?;
    if is_new {
        rows.push(ActionDeclaration {
            action: *action,
            parameters,
        })?;
    }
    Ok(())
}

/// Reads actions.
pub fn read_actions<'a>(
    alloc: Global,
    actions: &[ActionParts<'a>],
    first: &mut Option<Offence>,
) -> Result<ActionTable<'a>, Memory>
    ensures { IfOk result (λ r. IsRead first.old first.new (action_table_of r) (actions_read no_actions (map action_of actions.now))) }
{
    let mut names = Names::new(alloc);
    let mut rows = List::new(alloc);
    for action in actions {
        read_action(alloc, &mut names, &mut rows, action, first)?;
    }
    Ok(ActionTable { rows, names })
}
