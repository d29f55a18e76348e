//! The rewritten problem of a task.

ghost use Rattle.std.specs.Prelude.{◌≡◌, ◌≢◌, ◌≤◌, None, map, IfOk, MatchResult, Ok, Err};
ghost use Rattle.stp_base.specs.declared.limits.TheConstants.{MAX_BLOCKS, MAX_OVER_ALL_NODES};
ghost use Rattle.stp_task.specs.Tasks.{plain_task, timed_event_of};
ghost use Rattle.stp_rewrite.specs.Refusals.{first_past_limit, rewritten_or_fault};
ghost use Rattle.stp_rewrite.specs.RewrittenTasks.{numbered_actions, numbered_timed, rewritten_action, rewritten_of, rewritten_timed};
ghost use Rattle.stp_rewrite.specs.Rewriters.{rewriting_by, task_in};
ghost use Rattle.stp_rewrite.specs.Views.{plain_rewritten, rewritten_action_of};

use crate::fault::RewriteFault;
use crate::first::first_state;
use crate::problem::{Rewritten, RewrittenAction};
use crate::rewriter::Rewriter;
use bumpalo::Bump;
use std::alloc::Global;
use stp_base::limits::{MAX_BLOCKS, MAX_OVER_ALL_NODES};
use stp_base::{List, Memory};
use stp_task::{Task, TimedEvent};

impl<'t, 'a> Rewriter<'t, 'a> {
    /// The actions, rewritten.
    fn actions(&self, alloc: Global, arena: &'a Bump) -> Result<List<RewrittenAction<'a>>, Memory>
        requires { first_past_limit (task_in self.now) ≡ None }
        ensures { IfOk result
            (λ r. map rewritten_action_of r ≡ map (λ p. rewritten_action (rewriting_by self.now) p.0 p.1) (numbered_actions (task_in self.now))) }
    {
        let opened = self.opened.as_slice();
        let mut made = List::new(alloc);
        for (place, action) in self.task.actions.as_slice().iter().enumerate() {
            let number = self.number_at(place);
            made.push(self.action(alloc, arena, number, action, opened[place])?)?;
        }
        Ok(made)
    }

    /// The events of the environment, rewritten.
    fn timed(&self, alloc: Global, arena: &'a Bump) -> Result<List<TimedEvent<'a>>, Memory>
        ensures { IfOk result
            (λ r. map timed_event_of r ≡ map (λ p. rewritten_timed (rewriting_by self.now) p.0 p.1) (numbered_timed (task_in self.now))) }
    {
        let mut made = List::new(alloc);
        for (place, timed) in self.task.timed.as_slice().iter().enumerate() {
            let number = self.number_of_timed(place);
            let event = self.settled(alloc, arena, number, &timed.event)?;
            made.push(TimedEvent {
                at: timed.at,
                event,
            })?;
        }
        Ok(made)
    }

    /// The whole problem, rewritten.
    fn rewritten(self, alloc: Global, arena: &'a Bump) -> Result<Rewritten<'a>, Memory>
        requires { first_past_limit (task_in self) ≡ None }
        ensures { IfOk result (λ r. plain_rewritten r ≡ rewritten_of (task_in self.entry)) }
    {
        let actions = self.actions(alloc, arena)?;
        let timed = self.timed(alloc, arena)?;
        let initial = first_state(alloc, self.task, self.ends.as_slice())?;
        Ok(Rewritten {
            plain: self.task.initial.len(),
            shadow_of: self.shadow_of,
            opened: self.opened,
            initial,
            actions,
            timed,
            goal: self.task.goal,
            grid: self.task.grid,
        })
    }
}

/// The rewritten problem of a task: events with shadows and locks, openings and closings in place of uncertain ends, and
/// over-all conditions that hold whichever of the opened ends have come. Or the first of these refusals: a formula of an
/// over-all condition has too many footprints; the expanded over-all conditions have too many nodes; there are too many
/// locks. All is counted before anything is made.
pub fn rewrite<'a>(
    alloc: Global,
    arena: &'a Bump,
    task: &Task<'a>,
) -> Result<Rewritten<'a>, RewriteFault>
    ensures { MatchResult result
        (λ r. rewritten_or_fault (plain_task task.now) ≡ Ok (plain_rewritten r))
        (λ fault. fault ≢ RewriteFault.Memory → rewritten_or_fault (plain_task task.now) ≡ Err fault) }
{
    let rewriter = Rewriter::new(alloc, arena, task)?;
    if let Some(action) = rewriter.first_past_limit(alloc, arena)? {
        return Err(RewriteFault::TooManyFootprints(action));
    }
    if rewriter.node_count(alloc, arena)? > MAX_OVER_ALL_NODES {
        return Err(RewriteFault::ExpansionTooLarge);
    }
    if rewriter.lock_count() > MAX_BLOCKS {
        return Err(RewriteFault::TooManyBlocks);
    }
    let made = rewriter.rewritten(alloc, arena)?;
    Ok(made)
}
