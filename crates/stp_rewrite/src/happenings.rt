//! What becomes of the events of a task.

ghost use Rattle.std.specs.Prelude.{◌≡◌, IfOk};
ghost use Rattle.stp_cond.specs.Events.{IsEventInRange, event_of};
ghost use Rattle.stp_cond.specs.Views.{atoms_of};
ghost use Rattle.stp_task.specs.Actions.{happening_of};
ghost use Rattle.stp_rewriting.specs.Rewritten.{Settled, Opening, Closing};
ghost use Rattle.stp_rewrite.specs.Happenings.{happening, lock_atoms};
ghost use Rattle.stp_rewrite.specs.Rewriters.{plain_in, rewriting_by};

use crate::locking::locks_among;
use crate::making::{event_with, guarded, joined};
use crate::rewriter::Rewriter;
use crate::shadows::{shadows, with_shadows};
use bumpalo::Bump;
use std::alloc::Global;
use stp_base::{ActionId, AtomId, Memory};
use stp_cond::{Cond, Event};

impl<'t, 'a> Rewriter<'t, 'a> {
    /// The opened atoms of the uncertain actions by which an event of an action is locked.
    fn locks(
        &self,
        alloc: Global,
        action: ActionId,
        event: &Event<'_>,
    ) -> Result<Vec<AtomId>, Memory>
        ensures { IfOk result
            (λ r. atoms_of r.items ≡ lock_atoms (rewriting_by self.now) action.0 (event_of event.now)) }
    {
        locks_among(alloc, self.ends.as_slice(), action, event)
    }

    /// An event that comes at its moment: a start, the end of a controllable action, the event of a simple action, or an
    /// event of the environment.
    pub(crate) fn settled(
        &self,
        alloc: Global,
        arena: &'a Bump,
        action: ActionId,
        event: &Event<'a>,
    ) -> Result<Event<'a>, Memory>
        requires { IsEventInRange (plain_in self.now) event.now }
        ensures { IfOk result
            (λ e. happening_of e ≡ happening (rewriting_by self.now) Settled action.0 (happening_of event.now)) }
    {
        let locks = self.locks(alloc, action, event)?;
        let cond = guarded(alloc, arena, event.cond, &locks)?;
        let reads = joined(alloc, event.reads, &locks)?;
        let adds = with_shadows(alloc, event.adds, self.shadow_of.as_slice())?;
        let dels = with_shadows(alloc, event.dels, self.shadow_of.as_slice())?;
        let made = event_with(alloc, arena, cond, &reads, &adds, &dels)?;
        Ok(made)
    }

    /// The opening of the time in which an uncertain action may end.
    pub(crate) fn opening(
        &self,
        alloc: Global,
        arena: &'a Bump,
        action: ActionId,
        event: &Event<'a>,
        opened: AtomId,
    ) -> Result<Event<'a>, Memory>
        requires in_range { IsEventInRange (plain_in self.now) event.now }
        requires opened { opened.0 ≡ (rewriting_by self.now).opened action.0 }
        ensures { IfOk result
            (λ e. happening_of e ≡ happening (rewriting_by self.now) Opening action.0 (happening_of event.now)) }
    {
        let locks = self.locks(alloc, action, event)?;
        let cond = guarded(alloc, arena, event.cond, &locks)?;
        let reads = joined(alloc, event.reads, &locks)?;
        let mut adds = shadows(alloc, event.adds, self.shadow_of.as_slice())?;
        adds.push(opened)?;
        let dels = shadows(alloc, event.dels, self.shadow_of.as_slice())?;
        let made = event_with(alloc, arena, cond, &reads, &adds, &dels)?;
        Ok(made)
    }

    /// The closing of that time, at which all that the end writes has its value.
    pub(crate) fn closing(
        &self,
        alloc: Global,
        arena: &'a Bump,
        action: ActionId,
        event: &Event<'a>,
        opened: AtomId,
    ) -> Result<Event<'a>, Memory>
        requires in_range { IsEventInRange (plain_in self.now) event.now }
        requires opened { opened.0 ≡ (rewriting_by self.now).opened action.0 }
        ensures { IfOk result
            (λ e. happening_of e ≡ happening (rewriting_by self.now) Closing action.0 (happening_of event.now)) }
    {
        let _ = action;
        let cond = arena.try_alloc(Cond::True)?;
        let adds = with_shadows(alloc, event.adds, self.shadow_of.as_slice())?;
        let mut dels = with_shadows(alloc, event.dels, self.shadow_of.as_slice())?;
        dels.push(opened)?;
        let made = event_with(alloc, arena, cond, &[], &adds, &dels)?;
        Ok(made)
    }
}
