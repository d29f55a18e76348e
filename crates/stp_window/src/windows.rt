//! The windows of a box: when each event may come.

ghost use Rattle.std.specs.Prelude.{◌≡◌, ℕ, ◌++◌, ◌&&◌, nat_le, nat_lt, true, All, IfOk, OnOk};
ghost use Rattle.stp_cond.specs.Events.{IsEventInRange};
ghost use Rattle.stp_cond.specs.Truth.{is_below};
ghost use Rattle.stp_happen.specs.OwnerViews.{plain_owner, plain_owners};
ghost use Rattle.stp_happen.specs.SoundOwned.{IsOwner};
ghost use Rattle.stp_window.specs.OwnerWindows.{open_spans_of_owner, open_spans_of_owners, points_of_owner, points_of_owners};
ghost use Rattle.stp_window.specs.Views.{point_of, points_of, spans_of};
ghost use Rattle.stp_window.specs.Windows.{may_meet};

use std::alloc::Global;
use stp_base::Memory;
use stp_cond::Event;
use stp_happen::{Inside, Owner};

/// An event of a step, and the least and the greatest moment at which it may come.
#[derive(Clone, Copy)]
pub struct Window<'a> {
    pub low: u128,
    pub high: u128,
    pub step: u32,
    pub event: Event<'a>,
}

/// An owner in which something has to hold.
#[derive(Clone, Copy)]
pub struct Lasting<'a> {
    pub owner: Owner<'a>,
    pub inside: Inside<'a>,
}

/// The least and the greatest moment of a window.
#[derive(Clone, Copy)]
pub struct Bounds {
    pub low: u128,
    pub high: u128,
}

/// Puts the windows of an owner at the end of a list.
fn push_windows<'a>(windows: &mut Vec<Window<'a>>, owner: &Owner<'a>) -> Result<(), Memory>
    ensures ok { OnOk result (points_of windows.new.items ≡ points_of windows.old.items ++ points_of_owner (plain_owner owner.now)) }
    ensures in_range { OnOk result ((grid n : ℕ) → IsOwner grid n owner.now → All (λ w. IsEventInRange n w.event) windows.old.items → All (λ w. IsEventInRange n w.event) windows.new.items) }
{
    let step = owner.number;
    if let Some(event) = owner.first {
        windows.push(Window {
            low: owner.start,
            high: owner.start,
            step,
            event,
        })?;
    }
    if let Some(event) = owner.last {
        windows.push(Window {
            low: owner.low,
            high: owner.high,
            step,
            event,
        })?;
    }
    Ok(())
}

/// The windows of these owners, in the order of the owners.
pub fn windows_of<'a>(alloc: Global, owners: &[Owner<'a>]) -> Result<Vec<Window<'a>>, Memory>
    ensures points { IfOk result (λ r. points_of r.items ≡ points_of_owners (plain_owners owners.now)) }
    ensures in_range { IfOk result (λ r. (grid n : ℕ) → All (IsOwner grid n) owners.now → All (λ w. IsEventInRange n w.event) r.items) }
{
    let mut windows = Vec::new(alloc);
    for owner in owners {
        push_windows(&mut windows, owner)?;
    }
    Ok(windows)
}

/// Puts an owner, if something has to hold inside, at the end of a list.
fn push_lasting<'a>(lasting: &mut Vec<Lasting<'a>>, owner: &Owner<'a>) -> Result<(), Memory>
    ensures ok { OnOk result (spans_of lasting.new.items ≡ spans_of lasting.old.items ++ open_spans_of_owner (plain_owner owner.now)) }
    ensures in_range { OnOk result ((grid n : ℕ) → IsOwner grid n owner.now → All (λ s. is_below n s.inside.over.now ≡ true) lasting.old.items → All (λ s. is_below n s.inside.over.now ≡ true) lasting.new.items) }
{
    if let Some(inside) = owner.inside {
        lasting.push(Lasting {
            owner: *owner,
            inside,
        })?;
    }
    Ok(())
}

/// Those of these owners in which something has to hold.
pub fn lasting_of<'a>(alloc: Global, owners: &[Owner<'a>]) -> Result<Vec<Lasting<'a>>, Memory>
    ensures spans { IfOk result (λ r. spans_of r.items ≡ open_spans_of_owners (plain_owners owners.now)) }
    ensures in_range { IfOk result (λ r. (grid n : ℕ) → All (IsOwner grid n) owners.now → All (λ s. is_below n s.inside.over.now ≡ true) r.items) }
{
    let mut lasting = Vec::new(alloc);
    for owner in owners {
        push_lasting(&mut lasting, owner)?;
    }
    Ok(lasting)
}

/// Whether two windows have a common moment, both ends of a window being in it.
pub fn bounds_meet(one: Bounds, other: Bounds) -> bool
    ensures { result ≡ (nat_le one.low other.high && nat_le other.low one.high) }
{
    one.low <= other.high && other.low <= one.high
}

/// Whether the windows of two events have a common moment.
pub fn windows_meet(one: &Window<'_>, other: &Window<'_>) -> bool
    ensures { result ≡ may_meet (point_of one.now) (point_of other.now) }
{
    let one = Bounds {
        low: one.low,
        high: one.high,
    };
    let other = Bounds {
        low: other.low,
        high: other.high,
    };
    bounds_meet(one, other)
}

/// Whether a window has begun by a moment and not ended.
pub fn is_open(low: u128, high: u128, time: u128) -> bool
    ensures { result ≡ (nat_le low time && nat_lt time high) }
{
    low <= time && time < high
}
