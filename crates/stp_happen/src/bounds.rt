//! The same box with other bounds for one of its owners.

ghost use Rattle.std.specs.Prelude.{◌≡◌, ℕ, map, All, IfOk};
ghost use Rattle.stp_happen.specs.Bounds.{MayEndWithin, bounded_box, bounded_owner};
ghost use Rattle.stp_happen.specs.OwnedViews.{plain_owned};
ghost use Rattle.stp_happen.specs.OwnerViews.{plain_owner, plain_owners};
ghost use Rattle.stp_happen.specs.SoundOwned.{IsOwner};

use crate::owners::{OwnedBox, Owner};
use std::alloc::Global;
use stp_base::{List, Memory};

/// The same owner, which ends between these moments if it has this number.
fn owner_within<'a>(owner: &Owner<'a>, number: u32, low: u128, high: u128) -> Owner<'a>
    ensures same { plain_owner result ≡ bounded_owner number low high (plain_owner owner.now) }
    ensures in_range { (grid n : ℕ) → IsOwner grid n owner.now → (owner.now.number ≡ number → MayEndWithin grid low high owner.now) → IsOwner grid n result }
{
    if owner.number == number {
        Owner {
            low,
            high,
            ..*owner
        }
    } else {
        *owner
    }
}

/// The same owners, of which the one with this number ends between these moments.
fn owners_within<'a>(
    alloc: Global,
    owners: &[Owner<'a>],
    number: u32,
    low: u128,
    high: u128,
) -> Result<List<Owner<'a>>, Memory>
    ensures same { IfOk result (λ r. plain_owners r ≡ map (bounded_owner number low high) (plain_owners owners.now)) }
    ensures in_range { IfOk result (λ r. (grid n : ℕ) → All (IsOwner grid n) owners.now → All (λ o. o.number ≡ number → MayEndWithin grid low high o) owners.now → All (IsOwner grid n) r) }
{
    let mut bounded = List::new(alloc);
    for owner in owners {
        bounded.push(owner_within(owner, number, low, high))?;
    }
    Ok(bounded)
}

/// The same box, in which the owner of this number ends between these moments.
pub fn with_bounds<'a>(
    alloc: Global,
    boxed: &OwnedBox<'a>,
    number: u32,
    low: u128,
    high: u128,
) -> Result<OwnedBox<'a>, Memory>
    requires { All (λ o. o.number ≡ number → MayEndWithin boxed.now.grid low high o) boxed.now.owners }
    ensures same { IfOk result (λ r. plain_owned r ≡ bounded_box number low high (plain_owned boxed.now)) }
    ensures grid { IfOk result (λ r. r.grid ≡ boxed.now.grid) }
{
    let owners = owners_within(alloc, boxed.owners.as_slice(), number, low, high)?;
    let initial = boxed.initial.copy(alloc)?;
    Ok(OwnedBox {
        grid: boxed.grid,
        owners,
        initial,
        goal: boxed.goal,
    })
}
