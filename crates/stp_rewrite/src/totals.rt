//! What is counted of a task before anything of it is rewritten.

ghost use Rattle.std.specs.Prelude.{◌≡◌, ◌+◌, ◌<◌, None, length, option_map, IfOk};
ghost use Rattle.std.specs.List.{sum_by};
ghost use Rattle.stp_task.specs.Actions.{action_of, happening_of};
ghost use Rattle.stp_rewrite.specs.Counts.{cut, locks_of, locks_of_action, lock_count, node_count};
ghost use Rattle.stp_rewrite.specs.Refusals.{first_past_limit};
ghost use Rattle.stp_rewrite.specs.RewrittenTasks.{numbered_actions, numbered_timed};
ghost use Rattle.stp_rewrite.specs.Rewriters.{rewriting_by, task_in};

use crate::counting::{PAST, sum};
use crate::locking::count_among;
use crate::rewriter::Rewriter;
use bumpalo::Bump;
use std::alloc::Global;
use stp_base::{ActionId, Memory};
use stp_cond::Event;
use stp_task::GroundAction;

impl<'t, 'a> Rewriter<'t, 'a> {
    /// The number of the action at a place.
    pub(crate) fn number_at(&self, place: usize) -> ActionId
        requires { place < length self.now.task.now.actions }
        ensures { result.0 ≡ place + 1 }
    {
        ActionId(place as u32 + 1)
    }

    /// The number of the event of the environment at a place, after those of the actions.
    pub(crate) fn number_of_timed(&self, place: usize) -> ActionId
        requires { place < length self.now.task.now.timed }
        ensures { result.0 ≡ place + (1 + length self.now.task.now.actions) }
    {
        ActionId(place as u32 + (1 + self.task.actions.as_slice().len() as u32))
    }

    /// The first action that has a formula with too many footprints in its over-all condition.
    pub(crate) fn first_past_limit(
        &self,
        alloc: Global,
        arena: &'a Bump,
    ) -> Result<Option<ActionId>, Memory>
        ensures { IfOk result (λ r. option_map (λ n. n.0) r ≡ first_past_limit (task_in self.now)) }
    {
        for (place, action) in self.task.actions.as_slice().iter().enumerate() {
            let number = self.number_at(place);
            if self.is_past_limit(alloc, arena, number, action)? {
                return Ok(Some(number));
            }
        }
        Ok(None)
    }

    /// How many nodes the expanded over-all conditions of the actions that last have in all.
    pub(crate) fn node_count(&self, alloc: Global, arena: &'a Bump) -> Result<u64, Memory>
        requires { first_past_limit (task_in self.now) ≡ None }
        ensures { IfOk result (λ r. r ≡ cut (node_count (task_in self.now))) }
    {
        let mut count = 0;
        for (place, action) in self.task.actions.as_slice().iter().enumerate() {
            let one = self.over_all_nodes(alloc, arena, self.number_at(place), action)?;
            count = sum(count, one);
        }
        Ok(count)
    }

    /// By how many uncertain actions an event is locked.
    fn locks_of(&self, number: ActionId, event: &Event<'_>) -> u64
        ensures { result ≡ cut (locks_of (rewriting_by self.now) number.0 (happening_of event.now)) }
    {
        (count_among(self.ends.as_slice(), number, event) as u64).min(PAST)
    }

    /// How many locks the events of an action have.
    fn locks_of_action(&self, number: ActionId, action: &GroundAction<'_>) -> u64
        ensures { result ≡ cut (locks_of_action (rewriting_by self.now) number.0 (action_of action.now)) }
    {
        let start = self.locks_of(number, &action.start);
        let Some(finish) = action.finish else {
            return start;
        };
        sum(start, self.locks_of(number, &finish))
    }

    /// How many locks the events of all actions have.
    fn locks_of_actions(&self) -> u64
        ensures { result ≡ cut (sum_by (λ p. locks_of_action (rewriting_by self.now) p.0 p.1) (numbered_actions (task_in self.now))) }
    {
        let mut count = 0;
        for (place, action) in self.task.actions.as_slice().iter().enumerate() {
            count = sum(count, self.locks_of_action(self.number_at(place), action));
        }
        count
    }

    /// How many locks the events of the environment have.
    fn locks_of_timed(&self) -> u64
        ensures { result ≡ cut (sum_by (λ p. locks_of (rewriting_by self.now) p.0 p.1.event) (numbered_timed (task_in self.now))) }
    {
        let mut count = 0;
        for (place, timed) in self.task.timed.as_slice().iter().enumerate() {
            count = sum(
                count,
                self.locks_of(self.number_of_timed(place), &timed.event),
            );
        }
        count
    }

    /// How many locks there are in all.
    pub(crate) fn lock_count(&self) -> u64
        ensures { result ≡ cut (lock_count (task_in self.now)) }
    {
        sum(self.locks_of_actions(), self.locks_of_timed())
    }
}
