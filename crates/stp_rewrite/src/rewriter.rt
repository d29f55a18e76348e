//! A task with the numbers that its rewriting needs.

ghost use Rattle.std.specs.Prelude.{◌≡◌, ◌+◌, ◌<◌, ◌^◌, length, map, IfOk};
ghost use Rattle.std.specs.List.{range_with_len};
ghost use Rattle.stp_task.specs.Tasks.{plain_task};
ghost use Rattle.stp_rewrite.specs.Ends.{end_views, ends_by};
ghost use Rattle.stp_rewrite.specs.RewrittenTasks.{rewriting_in, shadow_at, opened_at, numbered_actions};
ghost use Rattle.stp_rewrite.specs.Views.{numbers_of};

use crate::end::End;
use crate::ending::ends;
use crate::numbering::{opened_numbers, shadow_numbers};
use bumpalo::Bump;
use std::alloc::Global;
use stp_base::{AtomId, List, Memory};
use stp_task::Task;

/// A task, the shadow of each of its atoms that has one, the atom that says that an action is opened, for each uncertain
/// one, and the ends of these. The actions and the events of the environment have numbers.
#[derive(Drop)]
pub struct Rewriter<'t, 'a> {
    pub task: &'t Task<'a>,
    pub shadow_of: List<Option<AtomId>>,
    pub opened: List<Option<AtomId>>,
    pub ends: List<End<'a>>,
    pub ghost few: { length task.now.actions + length task.now.timed + 1 < 2 ^ 32 },
    pub ghost shadowed: { numbers_of shadow_of ≡ map (shadow_at (rewriting_in (plain_task task.now))) (range_with_len 0 (length task.now.initial)) },
    pub ghost numbered: { numbers_of opened ≡ map (λ p. opened_at (rewriting_in (plain_task task.now)) p.0 p.1) (numbered_actions (plain_task task.now)) },
    pub ghost ended: { end_views ends ≡ ends_by (rewriting_in (plain_task task.now)) },
}

impl<'t, 'a> Rewriter<'t, 'a> {
    /// The numbers of a task. Where there are more than numbers of atoms and actions can be, there is no memory for them.
    pub(crate) fn new(
        alloc: Global,
        arena: &'a Bump,
        task: &'t Task<'a>,
    ) -> Result<Rewriter<'t, 'a>, Memory>
        ensures { IfOk result (λ r. r.task.now ≡ task.now) }
    {
        let count = task.actions.as_slice().len() as u128 + task.timed.as_slice().len() as u128;
        if count + 1 >= 1 << 32 {
            return Err(Memory);
        }
        let mut next = task.initial.len();
        let shadow_of = shadow_numbers(alloc, task, &mut next)?;
        let opened = opened_numbers(alloc, task, &mut next)?;
        let ends = ends(alloc, arena, task, opened.as_slice())?;
        Ok(Rewriter {
            task,
            shadow_of,
            opened,
            ends,
        })
    }
}
