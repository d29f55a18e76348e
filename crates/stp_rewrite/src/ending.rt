//! The ends of the uncertain actions of a task.

ghost use Rattle.std.specs.Prelude.{◌≡◌, ◌+◌, ◌<◌, ◌^◌, ◌++◌, ◌∷◌, [], length, map, option_map, IfOk, OnOk};
ghost use Rattle.stp_cond.specs.Events.{event_of};
ghost use Rattle.stp_task.specs.Actions.{action_of};
ghost use Rattle.stp_task.specs.Tasks.{plain_task};
ghost use Rattle.stp_rewrite.specs.Ends.{end_views, end_with, ends_with, ends_by};
ghost use Rattle.stp_rewrite.specs.RewrittenTasks.{end_of, rewriting_in, opened_at, numbered_actions};
ghost use Rattle.stp_rewrite.specs.Views.{numbers_of};

use crate::end::End;
use crate::numbering::uncertain_end;
use bumpalo::Bump;
use std::alloc::Global;
use stp_base::{ActionId, AtomId, List, Memory};
use stp_cond::Event;
use stp_expand::Footprint;
use stp_task::{GroundAction, Task};

/// Puts the end of an action at the end.
fn add_end<'a>(
    arena: &'a Bump,
    ends: &mut List<End<'a>>,
    action: ActionId,
    event: &Event<'a>,
    opened: AtomId,
) -> Result<(), Memory>
    ensures { OnOk result (end_views ends.new ≡ end_views ends.old ++ end_with action.0 (event_of event.now) opened.0 ∷ []) }
{
    let atoms = arena.try_alloc_slice_copy(&[opened])?;
    let footprint = Footprint {
        adds: event.adds,
        dels: event.dels,
        opened: atoms,
    };
    ends.push(End {
        action,
        event: *event,
        opened,
        footprint,
    })
}

/// Puts the end of an action at the end, if its duration is uncertain.
fn add_uncertain<'a>(
    arena: &'a Bump,
    ends: &mut List<End<'a>>,
    number: ActionId,
    action: &GroundAction<'a>,
    opened: Option<AtomId>,
) -> Result<(), Memory>
    ensures { OnOk result
        (end_views ends.new ≡ end_views ends.old ++ ends_with number.0 (end_of (action_of action.now)) (option_map (λ a. a.0) opened)) }
{
    let Some(event) = uncertain_end(action) else {
        return Ok(());
    };
    let Some(atom) = opened else {
        return Ok(());
    };
    add_end(arena, ends, number, &event, atom)
}

/// The ends of the uncertain actions of a task, in the order of the actions.
pub(crate) fn ends<'a>(
    alloc: Global,
    arena: &'a Bump,
    task: &Task<'a>,
    opened: &[Option<AtomId>],
) -> Result<List<End<'a>>, Memory>
    requires few { length task.now.actions + 1 < 2 ^ 32 }
    requires row { numbers_of opened.now ≡ map (λ p. opened_at (rewriting_in (plain_task task.now)) p.0 p.1) (numbered_actions (plain_task task.now)) }
    ensures { IfOk result (λ r. end_views r ≡ ends_by (rewriting_in (plain_task task.now))) }
{
    let mut ends = List::new(alloc);
    for (place, action) in task.actions.as_slice().iter().enumerate() {
        add_uncertain(
            arena,
            &mut ends,
            ActionId(place as u32 + 1),
            action,
            opened[place],
        )?;
    }
    Ok(ends)
}
