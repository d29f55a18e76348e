//! A row that is carried along the ends of windows.

ghost use Rattle.std.specs.Prelude.{◌≡◌, ℕ, ◌<◌, ◌≤◌, Bool, length, map, take, slice_index_or, All, IfOk, IsPermutation};
ghost use Rattle.std.specs.List.Sorted.{IsNonDecreasingBy};
ghost use Rattle.stp_strength.specs.Splitting.{applied};
ghost use Rattle.stp_cond.specs.Atoms.{set_of};
ghost use Rattle.stp_cond.specs.Events.{IsEventInRange};
ghost use Rattle.stp_cond.specs.Truth.{state_of_row};
ghost use Rattle.stp_window.specs.Views.{points_of};

use std::alloc::Global;
use stp_base::{Memory, StateRow};
use stp_cond::apply;
use stp_window::Window;

/// The windows in the order of their ends.
pub(crate) fn by_ends<'a>(alloc: Global, windows: &[Window<'a>]) -> Result<Vec<Window<'a>>, Memory>
    ensures same { IfOk result (λ r. IsPermutation windows.now r.items) }
    ensures ordered { IfOk result (λ r. IsNonDecreasingBy (λ w. w.high) r.items) }
{
    let mut ordered = Vec::from_slice(alloc, windows)?;
    ordered.sort_by_key(|window| window.high)?;
    Ok(ordered)
}

/// When each of these windows begins.
fn lows_of(alloc: Global, windows: &[Window<'_>]) -> Result<Vec<u128>, Memory>
    ensures { IfOk result (λ r. r.items ≡ map (λ w. w.low) windows.now) }
{
    Ok(windows.iter().map(|window| window.low).collect(alloc)?)
}

/// The moments at which windows begin, ascending, each once.
pub(crate) fn moments_of(alloc: Global, windows: &[Window<'_>]) -> Result<Vec<u128>, Memory>
    ensures { IfOk result (λ r. r.items ≡ set_of (map (λ w. w.low) windows.now)) }
{
    let mut moments = lows_of(alloc, windows)?;
    moments.sort()?;
    moments.dedup();
    Ok(moments)
}

/// Takes a row past the windows from a place on that end by a moment, and says at which place the others
/// begin. The windows are in the order of their ends.
pub(crate) fn carry(row: &mut StateRow, ordered: &[Window<'_>], start: usize, time: u128) -> usize
    requires start { start ≤ length ordered.now }
    requires events { All (λ w. IsEventInRange (length row.old) w.event) ordered.now }
    ensures within { (start ≤ result) × (result ≤ length ordered.now) }
    ensures ended { (k : ℕ) (d : Window) → start ≤ k → k < result → (slice_index_or ordered.now k d).high ≤ time }
    ensures later { (d : Window) → result < length ordered.now → time < (slice_index_or ordered.now result d).high }
    ensures len { length row.new ≡ length row.old }
    ensures state { (first : ℕ → Bool) → ((a : ℕ) → state_of_row row.old a ≡ applied (points_of (take start ordered.now)) first a) → (a : ℕ) → state_of_row row.new a ≡ applied (points_of (take result ordered.now)) first a }
{
    for place in start..ordered.len() {
        let window = &ordered[place];
        if time < window.high {
            return place;
        }
        apply(row, &window.event);
    }
    ordered.len()
}
