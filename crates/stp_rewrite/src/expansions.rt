//! The over-all conditions of actions, expanded over the ends of all other uncertain ones.

ghost use Rattle.std.specs.Prelude.{◌≡◌, false, map, filter, IfOk};
ghost use Rattle.stp_cond.specs.Formulas.{view};
ghost use Rattle.stp_expand.specs.Views.{footprints_of};
ghost use Rattle.stp_task.specs.Actions.{action_of};
ghost use Rattle.stp_task.specs.Durations.{lasts, plain_duration};
ghost use Rattle.stp_rewriting.specs.Rewritten.{other_ends};
ghost use Rattle.stp_rewrite.specs.Counts.{cut, over_all_nodes};
ghost use Rattle.stp_rewrite.specs.Ends.{end_views, is_other};
ghost use Rattle.stp_rewrite.specs.Refusals.{is_past_limit};
ghost use Rattle.stp_rewrite.specs.RewrittenTasks.{over_of_action};
ghost use Rattle.stp_rewrite.specs.Rewriters.{rewriting_by};

use crate::counting::{expanded_nodes, has_too_many};
use crate::end::End;
use crate::rewriter::Rewriter;
use bumpalo::Bump;
use std::alloc::Global;
use stp_base::{ActionId, Memory};
use stp_cond::Cond;
use stp_expand::{ExpandFault, Footprint, expand};
use stp_task::{Duration, GroundAction};

/// Whether an action takes time.
fn lasts(duration: Duration) -> bool
    ensures { result ≡ lasts (plain_duration duration) }
{
    match duration {
        Duration::Instant => false,
        Duration::Controlled(_, _) | Duration::Uncertain(_, _) => true,
    }
}

/// What those of these ends write that are not of an action.
fn others_among<'a>(
    alloc: Global,
    ends: &[End<'a>],
    action: ActionId,
) -> Result<Vec<Footprint<'a>>, Memory>
    ensures { IfOk result
        (λ r. footprints_of r.items ≡ map (λ o. o.footprint) (filter (is_other action.0) (end_views ends.now))) }
{
    let mut others = Vec::new(alloc);
    for end in ends {
        if end.action.0 != action.0 {
            others.push(end.footprint)?;
        }
    }
    Ok(others)
}

impl<'t, 'a> Rewriter<'t, 'a> {
    /// What the ends of all other uncertain actions write.
    fn others(&self, alloc: Global, action: ActionId) -> Result<Vec<Footprint<'a>>, Memory>
        ensures { IfOk result (λ r. footprints_of r.items ≡ other_ends (rewriting_by self.now) action.0) }
    {
        others_among(alloc, self.ends.as_slice(), action)
    }

    /// Whether a formula of the over-all condition of an action has too many footprints.
    pub(crate) fn is_past_limit(
        &self,
        alloc: Global,
        arena: &'a Bump,
        number: ActionId,
        action: &GroundAction<'a>,
    ) -> Result<bool, Memory>
        ensures { IfOk result (λ r. r ≡ is_past_limit (rewriting_by self.now) number.0 (action_of action.now)) }
    {
        let others = self.others(alloc, number)?;
        let many = has_too_many(alloc, arena, action.over, &others)?;
        Ok(many)
    }

    /// How many nodes the expanded over-all condition of an action has, if the action lasts.
    pub(crate) fn over_all_nodes(
        &self,
        alloc: Global,
        arena: &'a Bump,
        number: ActionId,
        action: &GroundAction<'a>,
    ) -> Result<u64, Memory>
        requires { is_past_limit (rewriting_by self.now) number.0 (action_of action.now) ≡ false }
        ensures { IfOk result (λ r. r ≡ cut (over_all_nodes (rewriting_by self.now) number.0 (action_of action.now))) }
    {
        if !lasts(action.duration) {
            return Ok(0);
        }
        let others = self.others(alloc, number)?;
        let count = expanded_nodes(alloc, arena, action.over, &others)?;
        Ok(count)
    }

    /// The over-all condition of an action, expanded.
    pub(crate) fn expanded(
        &self,
        alloc: Global,
        arena: &'a Bump,
        number: ActionId,
        action: &GroundAction<'a>,
    ) -> Result<&'a Cond<'a>, Memory>
        requires { is_past_limit (rewriting_by self.now) number.0 (action_of action.now) ≡ false }
        ensures { IfOk result (λ r. view r.now ≡ over_of_action (rewriting_by self.now) number.0 (action_of action.now)) }
    {
        let others = self.others(alloc, number)?;
        let over = match expand(
            alloc,
            arena,
            action.over,
            &others,
            self.shadow_of.as_slice(),
        ) {
            Ok(over) => over,
            Err(ExpandFault::Memory) => return Err(Memory),
            Err(ExpandFault::TooManyFootprints) => unreachable!(),
        };
        let made = arena.try_alloc(over)?;
        Ok(made)
    }
}
