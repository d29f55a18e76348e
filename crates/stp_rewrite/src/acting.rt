//! Rewritten actions.

ghost use Rattle.std.specs.Prelude.{◌≡◌, ◌++◌, Some, None, false, map, option_map, IfOk, OnOk};
ghost use Rattle.stp_cond.specs.Events.{IsEventInRange};
ghost use Rattle.stp_task.specs.Actions.{action_of, happening_of};
ghost use Rattle.stp_task.specs.Durations.{plain_duration};
ghost use Rattle.stp_task.specs.SoundTask.{IsActionInRange};
ghost use Rattle.stp_rewrite.specs.Refusals.{is_past_limit};
ghost use Rattle.stp_rewrite.specs.RewrittenTasks.{end_points, finish_points, first_kind, last_points, opened_at, opened_points, points_of, rewritten_action, uncertain_end};
ghost use Rattle.stp_rewrite.specs.Rewriters.{plain_in, rewriting_by};
ghost use Rattle.stp_rewrite.specs.Views.{point_of, rewritten_action_of};

use crate::problem::{Point, RewrittenAction};
use crate::rewriter::Rewriter;
use bumpalo::Bump;
use std::alloc::Global;
use stp_base::{ActionId, AtomId, Memory};
use stp_cond::Event;
use stp_task::{Duration, GroundAction, PointKind};

/// What the first event of an action is.
fn first_kind(duration: Duration) -> PointKind
    ensures { result ≡ first_kind (plain_duration duration) }
{
    match duration {
        Duration::Instant => PointKind::Moment,
        Duration::Controlled(_, _) | Duration::Uncertain(_, _) => PointKind::Start,
    }
}

impl<'t, 'a> Rewriter<'t, 'a> {
    /// Puts the end of a controllable action at the end.
    fn add_finish(
        &self,
        alloc: Global,
        arena: &'a Bump,
        points: &mut Vec<Point<'a>>,
        number: ActionId,
        finish: &Event<'a>,
    ) -> Result<(), Memory>
        requires { IsEventInRange (plain_in self.now) finish.now }
        ensures { OnOk result
            (map point_of points.new.items ≡ map point_of points.old.items ++ finish_points (rewriting_by self.now) number.0 (happening_of finish.now)) }
    {
        let event = self.settled(alloc, arena, number, finish)?;
        points.push(Point {
            kind: PointKind::Finish,
            event,
        })?;
        Ok(())
    }

    /// Puts the opening and the closing of an uncertain action at the end.
    fn add_opened(
        &self,
        alloc: Global,
        arena: &'a Bump,
        points: &mut Vec<Point<'a>>,
        number: ActionId,
        finish: &Event<'a>,
        opened: AtomId,
    ) -> Result<(), Memory>
        requires in_range { IsEventInRange (plain_in self.now) finish.now }
        requires opened { opened.0 ≡ (rewriting_by self.now).opened number.0 }
        ensures { OnOk result
            (map point_of points.new.items ≡ map point_of points.old.items ++ opened_points (rewriting_by self.now) number.0 (happening_of finish.now)) }
    {
        let opening = self.opening(alloc, arena, number, finish, opened)?;
        points.push(Point {
            kind: PointKind::Opening,
            event: opening,
        })?;
        let closing = self.closing(alloc, arena, number, finish, opened)?;
        points.push(Point {
            kind: PointKind::Closing,
            event: closing,
        })?;
        Ok(())
    }

    /// Puts the events of the end of an action at the end.
    fn add_end(
        &self,
        alloc: Global,
        arena: &'a Bump,
        points: &mut Vec<Point<'a>>,
        number: ActionId,
        duration: Duration,
        finish: &Event<'a>,
        opened: Option<AtomId>,
    ) -> Result<(), Memory>
        requires in_range { IsEventInRange (plain_in self.now) finish.now }
        requires opened { option_map (λ a. a.0) opened ≡ option_map (λ e. (rewriting_by self.now).opened number.0) (uncertain_end (plain_duration duration) (Some (happening_of finish.now))) }
        ensures { OnOk result
            (map point_of points.new.items ≡ map point_of points.old.items ++ end_points (rewriting_by self.now) number.0 (plain_duration duration) (happening_of finish.now)) }
    {
        match duration {
            Duration::Instant => Ok(()),
            Duration::Controlled(_, _) => self.add_finish(alloc, arena, points, number, finish),
            Duration::Uncertain(_, _) => {
                let Some(atom) = opened else {
                    unreachable!();
                };
                self.add_opened(alloc, arena, points, number, finish, atom)
            }
        }
    }

    /// Puts the events of the end of an action at the end, if it has one.
    fn add_last(
        &self,
        alloc: Global,
        arena: &'a Bump,
        points: &mut Vec<Point<'a>>,
        number: ActionId,
        action: &GroundAction<'a>,
        opened: Option<AtomId>,
    ) -> Result<(), Memory>
        requires in_range { IsActionInRange (plain_in self.now) action.now }
        requires opened { option_map (λ a. a.0) opened ≡ opened_at (rewriting_by self.now) number.0 (action_of action.now) }
        ensures { OnOk result
            (map point_of points.new.items ≡ map point_of points.old.items ++ last_points (rewriting_by self.now) number.0 (action_of action.now).duration (action_of action.now).finish) }
    {
        let Some(finish) = action.finish else {
            return Ok(());
        };
        self.add_end(
            alloc,
            arena,
            points,
            number,
            action.duration,
            &finish,
            opened,
        )
    }

    /// The events of an action.
    fn points(
        &self,
        alloc: Global,
        arena: &'a Bump,
        number: ActionId,
        action: &GroundAction<'a>,
        opened: Option<AtomId>,
    ) -> Result<&'a [Point<'a>], Memory>
        requires in_range { IsActionInRange (plain_in self.now) action.now }
        requires opened { option_map (λ a. a.0) opened ≡ opened_at (rewriting_by self.now) number.0 (action_of action.now) }
        ensures { IfOk result
            (λ r. map point_of r.now ≡ points_of (rewriting_by self.now) number.0 (action_of action.now)) }
    {
        let mut points = Vec::new(alloc);
        let start = self.settled(alloc, arena, number, &action.start)?;
        points.push(Point {
            kind: first_kind(action.duration),
            event: start,
        })?;
        self.add_last(alloc, arena, &mut points, number, action, opened)?;
        let slice = arena.try_alloc_slice_copy(&points)?;
        Ok(slice)
    }

    /// An action, rewritten.
    pub(crate) fn action(
        &self,
        alloc: Global,
        arena: &'a Bump,
        number: ActionId,
        action: &GroundAction<'a>,
        opened: Option<AtomId>,
    ) -> Result<RewrittenAction<'a>, Memory>
        requires in_range { IsActionInRange (plain_in self.now) action.now }
        requires opened { option_map (λ a. a.0) opened ≡ opened_at (rewriting_by self.now) number.0 (action_of action.now) }
        requires few { is_past_limit (rewriting_by self.now) number.0 (action_of action.now) ≡ false }
        ensures { IfOk result
            (λ r. rewritten_action_of r ≡ rewritten_action (rewriting_by self.now) number.0 (action_of action.now)) }
    {
        let points = self.points(alloc, arena, number, action, opened)?;
        let over = self.expanded(alloc, arena, number, action)?;
        Ok(RewrittenAction {
            duration: action.duration,
            points,
            over,
        })
    }
}
