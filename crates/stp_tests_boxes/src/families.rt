//! The plain check beside all vectors, one by one, on a box's grid and on finer ones.
//!
//! A window that is written [2, 5] is that of an end.

ghost use Rattle.std.specs.Prelude.{◌≡◌, ℕ, ◌*◌, ◌≤◌, ◌++◌, ◌∷◌, [], ◌↔◌, List as Sequence, length, drop, IfOk, IsTrue};
ghost use Rattle.stp_happen.specs.Boxes.{run_under, IsVector};
ghost use Rattle.stp_happen.specs.OwnedViews.{plain_owned};
ghost use Rattle.stp_happen.specs.OwnerViews.{plain_owners};
ghost use Rattle.stp_happen.specs.Plain.{Executes};

use crate::sketches::{
    Case, Over, Sketch, boxed, clear_f, drop_f, four, hold, late_f, long_f, need_f, none, off_f,
    on_f, plan, see_f, swap, up_f,
};
use bumpalo::Bump;
use std::alloc::Global;
use stp_base::{Memory, StateRow};
use stp_happen::refine::refine;
use stp_happen::run_at::run_by_owners;
use stp_happen::{BoxRun, OwnedBox, by_owners, first_fault};
use stp_strength::is_sound;

fn executes(alloc: Global, boxed: &OwnedBox<'_>, vector: &[u128]) -> Result<bool, Memory>
    requires { IsVector (plain_owned boxed.now).owners vector.now }
    ensures { IfOk result (λ r. IsTrue r ↔ Executes (run_under (plain_owned boxed.now) vector.now)) }
{
    let run = run_by_owners(alloc, boxed, vector)?;
    let mut row = StateRow::new(alloc, run.initial.len())?;
    Ok(first_fault(&run, &mut row).is_none())
}

/// A vector, if the box fails at it.
fn failing(
    alloc: Global,
    boxed: &OwnedBox<'_>,
    vector: &[u128],
) -> Result<Option<Vec<u128>>, Memory>
    requires { IsVector (plain_owned boxed.now).owners vector.now }
{
    if executes(alloc, boxed, vector)? {
        return Ok(None);
    }
    let mut copy = Vec::new(alloc);
    copy.extend_from_slice(vector)?;
    Ok(Some(copy))
}

fn with_duration(alloc: Global, vector: &[u128], duration: u128) -> Result<Vec<u128>, Memory>
    ensures { IfOk result (λ r. r.items ≡ vector.now ++ duration ∷ []) }
{
    let mut longer = Vec::new(alloc);
    longer.extend_from_slice(vector)?;
    longer.push(duration)?;
    Ok(longer)
}

/// The first in dictionary order of the failing vectors that begin with these durations, which are those of
/// the owners before a place.
pub fn first_failing(
    alloc: Global,
    boxed: &OwnedBox<'_>,
    at: usize,
    vector: &[u128],
) -> Result<Option<Vec<u128>>, Memory>
    requires within { at ≤ length boxed.now.owners }
    requires vector { (rest : Sequence ℕ) → IsVector (plain_owners (drop at boxed.now.owners)) rest → IsVector (plain_owned boxed.now).owners (vector.now ++ rest) }
{
    let owners = boxed.owners.as_slice();
    if at == owners.len() {
        return failing(alloc, boxed, vector);
    }
    let owner = owners[at];
    if !owner.uncertain {
        return first_failing(alloc, boxed, at + 1, vector);
    }
    for end in owner.low..owner.high + 1 {
        let longer = with_duration(alloc, vector, end - owner.start)?;
        let found = first_failing(alloc, boxed, at + 1, &longer)?;
        if found.is_some() {
            return Ok(found);
        }
    }
    Ok(None)
}

/// Whether all vectors on a grid that is so many times as fine give this verdict.
fn is_found(alloc: Global, boxed: &BoxRun<'_>, factor: u128, strong: bool) -> Result<bool, Memory>
    requires factor { 1 ≤ factor }
    requires grid { boxed.now.grid * factor ≤ 999999999 }
{
    let finer = refine(alloc, boxed, factor)?;
    let owned = by_owners(alloc, &finer)?;
    let found = first_failing(alloc, &owned, 0, &[])?;
    Ok(found.is_none() == strong)
}

/// Whether the plain check, and all vectors on the grid and on finer ones, give this verdict.
pub fn is_judged(alloc: Global, boxed: &BoxRun<'_>, strong: bool) -> Result<bool, Memory>
    requires { boxed.now.grid ≤ 12 }
{
    let owned = by_owners(alloc, boxed)?;
    let checked = is_sound(alloc, &owned)? == strong;
    let found = is_found(alloc, boxed, 1, strong)?;
    let twice = is_found(alloc, boxed, 2, strong)?;
    let thrice = is_found(alloc, boxed, 3, strong)?;
    Ok(checked && found && twice && thrice)
}

/// Whether a box fails first at these durations.
fn fails_first_at(alloc: Global, boxed: &BoxRun<'_>, durations: &[u128]) -> Result<bool, Memory> {
    let owned = by_owners(alloc, boxed)?;
    match first_failing(alloc, &owned, 0, &[])? {
        Some(found) => Ok(found.as_slice() == durations),
        None => Ok(false),
    }
}

/// Whether a case has this verdict.
fn case_is(alloc: Global, case: Case, strong: bool) -> Result<bool, Memory> {
    let arena = Bump::new(alloc);
    let boxed = boxed(alloc, &arena, case)?;
    is_judged(alloc, &boxed, strong)
}

/// Whether a case fails first at these durations.
fn case_fails_at(alloc: Global, case: Case, durations: &[u128]) -> Result<bool, Memory> {
    let arena = Bump::new(alloc);
    let boxed = boxed(alloc, &arena, case)?;
    fails_first_at(alloc, &boxed, durations)
}

/// Whether a case is weak, and fails first at these durations.
fn fails(alloc: Global, case: Case, durations: &[u128]) -> bool {
    matches!(case_is(alloc, case, false), Ok(true))
        && matches!(case_fails_at(alloc, case, durations), Ok(true))
}

#[test]
fn ends_that_come_too_soon_or_late(rt: HostRuntime) {
    let alloc = rt.alloc();
    let at_an_end = plan(true, false, four(0), see_f(4), none());
    assert!(rt; fails(alloc, at_an_end, &[]));
    let at_the_low = plan(true, false, late_f(0), see_f(3), none());
    assert!(rt; fails(alloc, at_the_low, &[3]));
    let at_the_high = plan(true, false, late_f(0), see_f(5), none());
    assert!(rt; fails(alloc, at_the_high, &[5]));
    let held_too_long = plan(true, false, drop_f(0), hold(0, 4, Over::F), none());
    assert!(rt; fails(alloc, held_too_long, &[3]));
}

#[test]
fn ends_that_meet(rt: HostRuntime) {
    let alloc = rt.alloc();
    let the_other_adder = plan(false, false, up_f(0), long_f(0), see_f(6));
    assert!(rt; fails(alloc, the_other_adder, &[1, 6]));
    let an_end_that_needs = plan(true, false, need_f(0), clear_f(4), none());
    assert!(rt; fails(alloc, an_end_that_needs, &[4]));
    let a_tie_inside = plan(false, false, on_f(0), off_f(0), none());
    assert!(rt; fails(alloc, a_tie_inside, &[4, 4]));
    let one_action_twice = plan(false, false, up_f(0), up_f(5), none());
    assert!(rt; fails(alloc, one_action_twice, &[5, 1]));
}

// Each family of boxes has a start or a duration that varies; it is strong where this is among some.

/// Whether a case has this verdict, and memory was left.
fn is(alloc: Global, case: Case, strong: bool) -> bool {
    matches!(case_is(alloc, case, strong), Ok(true))
}

/// An end that adds, before and after what sees it.
fn are_late(alloc: Global, at: u8) -> bool {
    let true_before = plan(true, false, late_f(0), see_f(at), none());
    let false_before = plan(false, false, late_f(0), see_f(at), none());
    is(alloc, true_before, at < 3 || at > 5) && is(alloc, false_before, at > 5)
}

/// Two ends that add, one after the other or at once.
fn are_two_adders(alloc: Global, at: u8) -> bool {
    let at_once = plan(false, false, up_f(0), long_f(0), see_f(at));
    let that_touch = plan(false, false, up_f(0), on_f(3), see_f(at));
    is(alloc, at_once, at > 7) && is(alloc, that_touch, at > 9)
}

/// Ends that must not meet.
fn are_apart(alloc: Global, at: u8) -> bool {
    let on_and_off = plan(false, false, on_f(0), off_f(at), none());
    let one_action_twice = plan(false, false, up_f(0), up_f(at), none());
    let a_need_at_an_end = plan(true, false, need_f(1), clear_f(at), none());
    is(alloc, on_and_off, at > 2)
        && is(alloc, one_action_twice, at > 5)
        && is(alloc, a_need_at_an_end, at > 7)
}

/// What is held while it drops, from within the drop, and until an end of its own.
fn are_held_at_drops(alloc: Global, at: u8) -> bool {
    let while_it_drops = plan(true, false, drop_f(1), hold(0, at, Over::F), none());
    let from_within = plan(true, false, drop_f(0), hold(at, 2, Over::F), none());
    let own = Sketch {
        over: Over::F,
        ..drop_f(at)
    };
    let until_its_own_end = plan(true, false, own, see_f(at), none());
    is(alloc, while_it_drops, at < 5)
        && is(alloc, from_within, at < 2)
        && is(alloc, until_its_own_end, true)
}

/// What is held while it comes, and from an end that adds.
fn are_held_at_adds(alloc: Global, at: u8) -> bool {
    let while_it_comes = plan(false, false, late_f(0), hold(at, 3, Over::F), none());
    let from_an_end = plan(false, false, four(0), hold(at, 2, Over::F), none());
    is(alloc, while_it_comes, at > 4) && is(alloc, from_an_end, at > 3)
}

/// What is held while it swaps, and while one of the two is swapped and cleared.
fn are_held_at_swaps(alloc: Global, at: u8) -> bool {
    let while_it_swaps = plan(false, true, swap(at), hold(4, 6, Over::FOrG), none());
    let and_cleared = plan(false, true, swap(0), hold(1, 6, Over::FOrG), clear_f(at));
    is(alloc, while_it_swaps, true) && is(alloc, and_cleared, at < 2 || at > 6)
}

#[test]
fn families_of_boxes(rt: HostRuntime) {
    for at in 0..11u8 {
        assert!(rt; are_late(rt.alloc(), at), "at {at}");
        assert!(rt; are_two_adders(rt.alloc(), at), "at {at}");
        assert!(rt; are_apart(rt.alloc(), at), "at {at}");
        assert!(rt; are_held_at_drops(rt.alloc(), at), "at {at}");
        assert!(rt; are_held_at_adds(rt.alloc(), at), "at {at}");
        assert!(rt; are_held_at_swaps(rt.alloc(), at), "at {at}");
    }
}
