//! Worked runs: step 1 runs from 0 to 4 and adds atom 0 at its end, and step 2 needs that atom at some moment.

ghost use Rattle.std.specs.Prelude.{◌≡◌, ◌<◌, ◌≤◌, true, [], ◌∷◌, length, All, IfOk};
ghost use Rattle.stp_happen.specs.Sound.{IsEntryInRange, entry_before, is_ascending};

use bumpalo::Bump;
use std::alloc::Global;
use std::test::*;
use stp_base::{AtomId, List, Memory, StateRow, StepId};
use stp_cond::{conjunction, conjunctive_event};
use stp_happen::{Entry, Fault, Run, Span, first_fault};

/// What varies: when step 2 happens, the key of its action, what has to hold inside step 1, and the goal.
#[derive(Clone, Copy)]
struct Case<'a> {
    late: u128,
    key: u32,
    over: &'a [AtomId],
    goal: &'a [AtomId],
}

fn three<'a>(
    alloc: Global,
    first: Entry<'a>,
    second: Entry<'a>,
    third: Entry<'a>,
) -> Result<List<Entry<'a>>, Memory>
    ensures { IfOk result (λ l. l ≡ first.entry ∷ second.entry ∷ third.entry ∷ []) }
{
    let mut entries = List::new(alloc);
    entries.push(first)?;
    entries.push(second)?;
    entries.push(third)?;
    Ok(entries)
}

fn two<'a>(alloc: Global, first: Span<'a>, second: Span<'a>) -> Result<List<Span<'a>>, Memory>
    ensures { IfOk result (λ l. l ≡ first.entry ∷ second.entry ∷ []) }
{
    let mut spans = List::new(alloc);
    spans.push(first)?;
    spans.push(second)?;
    Ok(spans)
}

fn run<'a>(
    alloc: Global,
    arena: &'a Bump,
    entries: List<Entry<'a>>,
    case: Case<'_>,
) -> Result<Run<'a>, Memory>
    requires ordered { is_ascending entry_before entries ≡ true }
    requires in_range { All (IsEntryInRange 1 2) entries }
    requires late { case.late ≤ 9 }
    requires over { All (λ a. a.0 < 2) case.over.now }
    requires goal { All (λ a. a.0 < 2) case.goal.now }
    ensures { IfOk result (λ r. length r.initial ≡ 2) }
{
    let over = conjunction(alloc, arena, case.over)?;
    let nothing = conjunction(alloc, arena, &[])?;
    let goal = conjunction(alloc, arena, case.goal)?;
    let long = Span {
        from: 0,
        to: 4,
        step: StepId(1),
        key: 1,
        over,
    };
    let short = Span {
        from: case.late,
        to: case.late,
        step: StepId(2),
        key: case.key,
        over: nothing,
    };
    let spans = two(alloc, long, short)?;
    let initial = StateRow::new(alloc, 2)?;
    Ok(Run {
        grid: 1,
        entries,
        spans,
        initial,
        goal,
    })
}

fn worked<'a>(alloc: Global, arena: &'a Bump, case: Case<'_>) -> Result<Run<'a>, Memory>
    requires early { 1 ≤ case.late }
    requires late { case.late ≤ 9 }
    requires over { All (λ a. a.0 < 2) case.over.now }
    requires goal { All (λ a. a.0 < 2) case.goal.now }
    ensures { IfOk result (λ r. length r.initial ≡ 2) }
{
    let first = Entry {
        time: 0,
        step: StepId(1),
        event: conjunctive_event(alloc, arena, &[], &[], &[])?,
    };
    let end = Entry {
        time: 4,
        step: StepId(1),
        event: conjunctive_event(alloc, arena, &[], &[AtomId(0)], &[])?,
    };
    let simple = Entry {
        time: case.late,
        step: StepId(2),
        event: conjunctive_event(alloc, arena, &[AtomId(0)], &[], &[])?,
    };
    if case.late < 4 {
        let entries = three(alloc, first, simple, end)?;
        run(alloc, arena, entries, case)
    } else {
        let entries = three(alloc, first, end, simple)?;
        run(alloc, arena, entries, case)
    }
}

fn fault(alloc: Global, case: Case<'_>) -> Result<Option<Fault>, Memory>
    requires early { 1 ≤ case.late }
    requires late { case.late ≤ 9 }
    requires over { All (λ a. a.0 < 2) case.over.now }
    requires goal { All (λ a. a.0 < 2) case.goal.now }
{
    let arena = Bump::new(alloc);
    let run = worked(alloc, &arena, case)?;
    let mut row = StateRow::new(alloc, 2)?;
    Ok(first_fault(&run, &mut row))
}

#[test]
fn steps(rt: HostRuntime) -> Result<(), Fail> {
    let apart = Case {
        late: 5,
        key: 2,
        over: &[],
        goal: &[AtomId(0)],
    };
    assert_eq!(rt; fault(rt.alloc(), apart).ok().ok_or("memory")?, None);
    let met = Fault::Interference {
        time: 4,
        first: StepId(1),
        second: StepId(2),
    };
    let at_end = Case { late: 4, ..apart };
    assert_eq!(rt; fault(rt.alloc(), at_end).ok().ok_or("memory")?, Some(met));
    let hungry = Fault::Condition {
        time: 3,
        step: StepId(2),
    };
    let before = Case { late: 3, ..apart };
    assert_eq!(rt;
        fault(rt.alloc(), before).ok().ok_or("memory")?,
        Some(hungry)
    );
    Ok(())
}

#[test]
fn spans_and_goals(rt: HostRuntime) -> Result<(), Fail> {
    let twice = Case {
        late: 5,
        key: 1,
        over: &[],
        goal: &[AtomId(0)],
    };
    assert_eq!(rt; fault(rt.alloc(), twice).ok().ok_or("memory")?, None);
    let touching = Fault::Overlap {
        time: 4,
        first: StepId(1),
        second: StepId(2),
    };
    let at_end = Case { late: 4, ..twice };
    assert_eq!(rt;
        fault(rt.alloc(), at_end).ok().ok_or("memory")?,
        Some(touching)
    );
    let broken = Fault::OverAll {
        time: 0,
        step: StepId(1),
    };
    let guarded = Case {
        over: &[AtomId(0)],
        ..twice
    };
    assert_eq!(rt;
        fault(rt.alloc(), guarded).ok().ok_or("memory")?,
        Some(broken)
    );
    let missed = Case {
        goal: &[AtomId(1)],
        ..twice
    };
    assert_eq!(rt;
        fault(rt.alloc(), missed).ok().ok_or("memory")?,
        Some(Fault::Goal)
    );
    Ok(())
}
