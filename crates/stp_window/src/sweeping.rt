//! Two windows that meet and whose events interfere, found by a sweep.
//!
//! Only windows that mention a common atom are compared, in the order of their beginnings, and each only with those
//! that begin before it ends.

ghost use Rattle.std.specs.Prelude.{◌≡◌, ℕ, ◌<◌, ◌==◌, ◌^◌, ◌&&◌, ◌++◌, not, length, map, IfOk, IsPermutation, MatchOption, OnOk};
ghost use Rattle.std.specs.List.Sorted.{IsNonDecreasingBy};
ghost use Rattle.stp_cond.specs.Atoms.{interfere};
ghost use Rattle.stp_cond.specs.Events.{event_of};
ghost use Rattle.stp_window.specs.Sweep.{HaveMet, IsSwept, NoneMeet, PassesFrom, key, mention_at, mentions_by, mentions_from};
ghost use Rattle.stp_window.specs.Views.{point_of, points_of};
ghost use Rattle.stp_window.specs.Windows.{may_meet};

use crate::windows::{Window, windows_meet};
use std::alloc::Global;
use stp_base::{AtomId, Memory};
use stp_cond::{Event, interfere};

/// That an event reads or writes an atom: the atom, and the place of the event's window.
#[derive(Clone, Copy)]
pub(crate) struct Mention {
    pub(crate) atom: u32,
    pub(crate) place: usize,
}

/// Two windows that have a common moment, and whose events interfere.
#[derive(Clone, Copy)]
pub struct MetWindows<'a> {
    pub one: Window<'a>,
    pub other: Window<'a>,
}

/// Puts mentions of these atoms at the end of a list.
fn push_atoms(mentions: &mut Vec<Mention>, atoms: &[AtomId], place: usize) -> Result<(), Memory>
    ensures { OnOk result (mentions.new.items ≡ mentions.old.items ++ map (mention_at place) atoms.now) }
{
    for atom in atoms {
        mentions.push(Mention {
            atom: atom.0,
            place,
        })?;
    }
    Ok(())
}

/// Puts the mentions by an event at the end of a list.
fn push_event(mentions: &mut Vec<Mention>, event: &Event<'_>, place: usize) -> Result<(), Memory>
    ensures { OnOk result (mentions.new.items ≡ mentions.old.items ++ mentions_by place event.now) }
{
    push_atoms(mentions, event.reads, place)?;
    push_atoms(mentions, event.adds, place)?;
    push_atoms(mentions, event.dels, place)
}

/// The mentions by these windows.
fn mentions_of(alloc: Global, windows: &[Window<'_>]) -> Result<Vec<Mention>, Memory>
    ensures all { IfOk result (λ r. r.items ≡ mentions_from 0 windows.now) }
    ensures few { IfOk result (λ r. length windows.now < 2 ^ 64) }
{
    let mut mentions = Vec::with_capacity(alloc, windows.len())?;
    for (place, window) in windows.iter().enumerate() {
        push_event(&mut mentions, &window.event, place)?;
    }
    Ok(mentions)
}

/// Mentions in the order of their atoms, those of one atom in the order of their places.
fn by_atoms(mentions: &mut Vec<Mention>) -> Result<(), Memory>
    ensures same { OnOk result (IsPermutation mentions.old.items mentions.new.items) }
    ensures ordered { OnOk result (IsNonDecreasingBy key mentions.new.items) }
{
    mentions.sort_by_key(|m| u128::from(m.atom) * 18_446_744_073_709_551_616 + m.place as u128)?;
    Ok(())
}

/// The windows in the order of their beginnings.
fn by_lows<'a>(alloc: Global, windows: &[Window<'a>]) -> Result<Vec<Window<'a>>, Memory>
    ensures same { IfOk result (λ r. IsPermutation windows.now r.items) }
    ensures ordered { IfOk result (λ r. IsNonDecreasingBy (λ w. w.low) r.items) }
{
    let mut ordered = Vec::from_slice(alloc, windows)?;
    ordered.sort_by_key(|window| window.low)?;
    Ok(ordered)
}

/// Whether the events of two windows are of different steps, may meet and interfere.
pub(crate) fn clash(one: &Window<'_>, other: &Window<'_>) -> bool
    ensures { result ≡ (not (one.now.step == other.now.step) && (may_meet (point_of one.now) (point_of other.now) && interfere (event_of one.now.event) (event_of other.now.event))) }
{
    one.step != other.step && windows_meet(one, other) && interfere(&one.event, &other.event)
}

/// The window of a mention with that of the first later mention of its atom with which it meets and interferes.
///
/// Windows of later mentions begin later, so that none meets it once one begins after it has ended.
fn meeting_from<'a>(
    ordered: &[Window<'a>],
    mentions: &[Mention],
    start: usize,
) -> Option<MetWindows<'a>>
    requires start { start < length mentions.now }
    requires swept { IsSwept ordered.now mentions.now }
    ensures { MatchOption result (PassesFrom ordered.now mentions.now start) (λ m. HaveMet ordered.now m.one m.other) }
{
    let first = mentions[start];
    let one = ordered[first.place];
    for place in start + 1..mentions.len() {
        let second = mentions[place];
        if second.atom != first.atom {
            return None;
        }
        let other = ordered[second.place];
        if one.high < other.low {
            return None;
        }
        if clash(&one, &other) {
            return Some(MetWindows { one, other });
        }
    }
    None
}

/// Two windows that meet and interfere and mention an atom, if there are any.
fn meeting_among<'a>(ordered: &[Window<'a>], mentions: &[Mention]) -> Option<MetWindows<'a>>
    requires { IsSwept ordered.now mentions.now }
    ensures { MatchOption result
        ((x : ℕ) → x < length mentions.now → PassesFrom ordered.now mentions.now x)
        (λ m. HaveMet ordered.now m.one m.other) }
{
    for start in 0..mentions.len() {
        let found = meeting_from(ordered, mentions, start);
        if found.is_some() {
            return found;
        }
    }
    None
}

/// Two of these windows that are of different steps, have a common moment, and whose events interfere, if there are
/// any.
pub fn meeting_windows<'a>(
    alloc: Global,
    windows: &[Window<'a>],
) -> Result<Option<MetWindows<'a>>, Memory>
    ensures { IfOk result (λ r. MatchOption r (NoneMeet (points_of windows.now)) (λ m. HaveMet windows.now m.one m.other)) }
{
    let ordered = by_lows(alloc, windows)?;
    let mut mentions = mentions_of(alloc, &ordered)?;
    by_atoms(&mut mentions)?;
    Ok(meeting_among(&ordered, &mentions))
}
