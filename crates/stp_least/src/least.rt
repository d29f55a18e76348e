//! The least failure of a box.

ghost use Rattle.std.specs.Prelude.{◌↔◌, IfOk, MatchOption, IsNone};
ghost use Rattle.stp_happen.specs.Boxes.{IsStrong};
ghost use Rattle.stp_happen.specs.BoxViews.{plain_box};
ghost use Rattle.stp_happen.specs.LeastFailure.{IsLeastFailure};
ghost use Rattle.stp_happen.specs.OwnedViews.{plain_owned};

use crate::search::{Search, advanced};
use std::alloc::Global;
use stp_base::{List, Memory};
use stp_check::{Verdict, strong_by_owners};
use stp_happen::{BoxRun, OwnedBox, by_owners};

/// The first durations in dictionary order, on its own grid, at which a box of owners fails; none exactly where it
/// is strong.
pub fn least_by_owners(alloc: Global, boxed: OwnedBox<'_>) -> Result<Option<List<u128>>, Memory>
    ensures least { IfOk result (λ r. MatchOption r (IsStrong (plain_owned boxed.entry)) (IsLeastFailure (plain_owned boxed.entry))) }
    ensures none { IfOk result (λ r. IsNone r ↔ IsStrong (plain_owned boxed.entry)) }
{
    let durations = match strong_by_owners(alloc, &boxed)? {
        Verdict::Strong => return Ok(None),
        Verdict::Weak(failing) => failing,
    };
    let count = boxed.owners.as_slice().len();
    let mut search = Search {
        boxed,
        position: 0,
        durations,
    };
    for index in 0..count {
        search = advanced(alloc, search, index)?;
    }
    Ok(Some(search.durations))
}

/// The first durations in dictionary order, on the box's own grid, at which the box fails; none exactly where it is
/// strong. They are one for each uncertain step, in order, and then a moment for each event of the environment whose
/// moment is chosen.
pub fn least_failure(alloc: Global, boxed: &BoxRun<'_>) -> Result<Option<List<u128>>, Memory>
    ensures least { IfOk result (λ r. MatchOption r (IsStrong (plain_box boxed.now)) (IsLeastFailure (plain_box boxed.now))) }
    ensures none { IfOk result (λ r. IsNone r ↔ IsStrong (plain_box boxed.now)) }
{
    let owned = by_owners(alloc, boxed)?;
    least_by_owners(alloc, owned)
}
