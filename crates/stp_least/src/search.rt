//! The search so far: the box whose first owners are fixed to their ends at the least failure.

ghost use Rattle.std.specs.Prelude.{◌≡◌, ◌+◌, ◌<◌, length, IfOk};
ghost use Rattle.stp_happen.specs.OwnedViews.{plain_owned};
ghost use Rattle.stp_least.specs.Places.{IsSearch};
ghost use Rattle.stp_least.specs.Searching.{KeepsLeastFailure};

use crate::place::{Place, fixed_at};
use std::alloc::Global;
use stp_base::{List, Memory};
use stp_happen::{OwnedBox, with_bounds};

/// The box with its first owners fixed, how many of them are uncertain, and durations at which it fails.
#[derive(Drop)]
pub struct Search<'a> {
    pub boxed: OwnedBox<'a>,
    pub position: usize,
    pub durations: List<u128>,
}

/// The search after one more owner, the one at this index.
pub fn advanced<'a>(alloc: Global, search: Search<'a>, index: usize) -> Result<Search<'a>, Memory>
    requires search { IsSearch index search }
    requires there { index < length search.boxed.owners }
    ensures search { IfOk result (IsSearch (index + 1)) }
    ensures least { IfOk result (λ r. KeepsLeastFailure (plain_owned search.entry.boxed) (plain_owned r.boxed)) }
    ensures long { IfOk result (λ r. length r.boxed.owners ≡ length search.entry.boxed.owners) }
{
    let Search {
        boxed,
        position,
        durations,
    } = search;
    let owner = boxed.owners.as_slice()[index];
    if !owner.uncertain {
        return Ok(Search {
            boxed,
            position,
            durations,
        });
    }
    let place = Place {
        boxed: &boxed,
        owner,
        position,
    };
    let found = fixed_at(alloc, place, durations)?;
    let fixed = with_bounds(alloc, &boxed, owner.number, found.low, found.high)?;
    Ok(Search {
        boxed: fixed,
        position: position + 1,
        durations: found.durations,
    })
}
