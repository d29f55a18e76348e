//! Which steps may have ended at a moment, or not, and which events of the environment may have come.

ghost use Rattle.std.specs.Prelude.{◌≡◌, ◌++◌, ◌∷◌, [], true, nat_lt, IfOk, OnOk};
ghost use Rattle.stp_happen.specs.BoxViews.{plain_box};
ghost use Rattle.stp_happen.specs.OwnerViews.{plain_owner, plain_owners};
ghost use Rattle.stp_happen.specs.Sound.{is_ascending};
ghost use Rattle.stp_window.specs.Ends.{numbers_of, unsettled_among as unsettled_among_lem, unsettled as unsettled_lem};

use crate::windows::is_open;
use std::alloc::Global;
use stp_base::{List, Memory, StepId};
use stp_happen::{BoxRun, Owner, by_owners};

/// Puts the number of an owner at the end of a list if the owner is unsettled.
fn push_unsettled(found: &mut List<StepId>, owner: &Owner<'_>, time: u128) -> Result<(), Memory>
    ensures { OnOk result (numbers_of found.new ≡ numbers_of found.old ++ unsettled_among_lem (plain_owner owner.now ∷ []) time) }
{
    if is_open(owner.low, owner.high, time) {
        found.push(StepId(owner.number))?;
    }
    Ok(())
}

/// The unsettled ones of these owners.
fn unsettled_among(alloc: Global, owners: &[Owner<'_>], time: u128) -> Result<List<StepId>, Memory>
    ensures { IfOk result (λ r. numbers_of r ≡ unsettled_among_lem (plain_owners owners.now) time) }
{
    let mut found = List::new(alloc);
    for owner in owners {
        push_unsettled(&mut found, owner, time)?;
    }
    Ok(found)
}

/// The numbers of the steps whose ends, and of the events of the environment that, may have come by a moment or not,
/// ascending: the low end of the window is not past the moment, and the high end is.
pub fn unsettled(alloc: Global, boxed: &BoxRun<'_>, time: u128) -> Result<List<StepId>, Memory>
    ensures steps { IfOk result (λ r. numbers_of r ≡ unsettled_lem (plain_box boxed.now) time) }
    ensures ascending { IfOk result (λ r. is_ascending nat_lt (numbers_of r) ≡ true) }
{
    let owned = by_owners(alloc, boxed)?;
    unsettled_among(alloc, owned.owners.as_slice(), time)
}
