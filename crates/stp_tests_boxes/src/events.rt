//! Worked formulas and events.

ghost use Rattle.std.specs.Prelude.{◌≡◌, true, length, map, IfOk};
ghost use Rattle.stp_cond.specs.Truth.{all_of, is_below};

use bumpalo::Bump;
use std::alloc::Global;
use std::test::*;
use stp_base::{AtomId, Memory, StateRow};
use stp_cond::{Cond, Event, ascending, conjunction, conjunctive_event, holds, interfere};

/// A row in which the first and the last of three atoms are true.
fn first_and_last(alloc: Global) -> Result<StateRow, Memory>
    ensures { IfOk result (λ r. length r ≡ 3) }
{
    let mut row = StateRow::new(alloc, 3)?;
    row.set(AtomId(0), true);
    row.set(AtomId(2), true);
    Ok(row)
}

/// Whether some of these formulas hold in a row of three atoms, and whether all do.
fn some_and_all(parts: &[Cond<'_>], row: &StateRow) -> (bool, bool)
    requires row { length row.now ≡ 3 }
    requires parts { all_of (map (is_below 3) parts.now) ≡ true }
{
    (holds(&Cond::Or(parts), row), holds(&Cond::And(parts), row))
}

/// What some formulas are in that row: two conjunctions, that of nothing, a disjunction and a conjunction
/// with a negation inside.
fn judged(alloc: Global) -> Result<[bool; 5], Memory> {
    let arena = Bump::new(alloc);
    let row = first_and_last(alloc)?;
    let both = conjunction(alloc, &arena, &[AtomId(2), AtomId(0)])?;
    let all = conjunction(alloc, &arena, &[AtomId(0), AtomId(1)])?;
    let none = conjunction(alloc, &arena, &[])?;
    let parts = [Cond::Atom(AtomId(1)), Cond::Not(all)];
    let (some, each) = some_and_all(&parts, &row);
    Ok([
        holds(both, &row),
        holds(all, &row),
        holds(none, &row),
        some,
        each,
    ])
}

#[test]
fn formulas(rt: HostRuntime) -> Result<(), Fail> {
    let judged = judged(rt.alloc()).ok().ok_or("memory")?;
    assert_eq!(rt; judged, [true, false, true, true, false]);
    Ok(())
}

/// Whether a list with two equal atoms is put in order.
fn is_ascending(alloc: Global) -> bool {
    let arena = Bump::new(alloc);
    let atoms = [AtomId(7), AtomId(2), AtomId(7), AtomId(0)];
    match ascending(alloc, &arena, &atoms) {
        Ok(found) => found == [AtomId(0), AtomId(2), AtomId(7)].as_slice(),
        Err(_memory) => false,
    }
}

/// Whether an event that needs 3, adds 5 and deletes 5 and 4 reads, adds and deletes so.
fn is_needing(event: &Event<'_>) -> bool {
    event.reads == [AtomId(3)].as_slice()
        && event.adds == [AtomId(5)].as_slice()
        && event.dels == [AtomId(4)].as_slice()
}

/// Whether that event meets one that adds 3, and none that only needs 3 and adds 5.
fn meets(alloc: Global, arena: &Bump, needing: &Event<'_>) -> Result<bool, Memory> {
    let adding = conjunctive_event(alloc, arena, &[], &[AtomId(3)], &[])?;
    let same = conjunctive_event(alloc, arena, &[AtomId(3)], &[AtomId(5)], &[])?;
    Ok(interfere(needing, &adding) && interfere(&adding, needing) && !interfere(needing, &same))
}

#[test]
fn events(rt: HostRuntime) -> Result<(), Fail> {
    assert!(rt; is_ascending(rt.alloc()));
    let arena = Bump::new(rt.alloc());
    let dels = [AtomId(5), AtomId(4)];
    let needing = conjunctive_event(rt.alloc(), &arena, &[AtomId(3)], &[AtomId(5)], &dels)?;
    assert!(rt; is_needing(&needing));
    assert!(rt; meets(rt.alloc(), &arena, &needing)?);
    Ok(())
}
