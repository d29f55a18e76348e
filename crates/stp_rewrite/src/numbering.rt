//! The numbers of shadows and of opened atoms.

ghost use Rattle.std.specs.Prelude.{◌≡◌, ◌+◌, ◌<◌, ◌^◌, ◌||◌, ◌∷◌, [], ◌++◌, ℕ, length, map, option_map, IfSome, IfOk, OnOk};
ghost use Rattle.std.specs.List.{range_with_len};
ghost use Rattle.stp_cond.specs.Events.{IsEventInRange};
ghost use Rattle.stp_cond.specs.Truth.{state_of_row};
ghost use Rattle.stp_task.specs.Actions.{action_of, happening_of};
ghost use Rattle.stp_task.specs.SoundTask.{IsActionInRange};
ghost use Rattle.stp_task.specs.Tasks.{plain_task};
ghost use Rattle.stp_rewriting.specs.Rewritten.{is_shadowed};
ghost use Rattle.stp_rewrite.specs.RewrittenTasks.{end_of, rewriting_in, opened_at, shadow_at, numbered_actions, first_opened};
ghost use Rattle.stp_rewrite.specs.Rows.{writes_at_end, numbers_if, number_if, passing_below};
ghost use Rattle.stp_rewrite.specs.Views.{numbers_of, number_of, after_number};

use std::alloc::Global;
use stp_base::{AtomId, List, Memory, StateRow};
use stp_cond::Event;
use stp_cond::rows::set_all;
use stp_task::{Duration, GroundAction, Task};

/// The end of an action, if its duration is uncertain.
pub(crate) fn uncertain_end<'a>(action: &GroundAction<'a>) -> Option<Event<'a>>
    ensures end { option_map happening_of result ≡ end_of (action_of action.now) }
    ensures in_range { (n : ℕ) → IsActionInRange n action.now → IfSome result (IsEventInRange n) }
{
    match action.duration {
        Duration::Uncertain(_, _) => action.finish,
        Duration::Instant | Duration::Controlled(_, _) => None,
    }
}

/// Marks the atoms that the end of an action writes, if its duration is uncertain.
fn mark(row: &mut StateRow, action: &GroundAction<'_>)
    requires { IsActionInRange (length row.old) action.now }
    ensures len { length row.new ≡ length row.old }
    ensures state { (a : ℕ) → state_of_row row.new a ≡ (writes_at_end (action_of action.now) a || state_of_row row.old a) }
{
    let Some(end) = uncertain_end(action) else {
        return;
    };
    set_all(row, end.dels, true);
    set_all(row, end.adds, true);
}

/// Which atoms some uncertain end writes.
pub(crate) fn written(alloc: Global, task: &Task<'_>) -> Result<StateRow, Memory>
    ensures len { IfOk result (λ r. length r ≡ length task.now.initial) }
    ensures state { IfOk result (λ r. (a : ℕ) → state_of_row r a ≡ is_shadowed (rewriting_in (plain_task task.now)) a) }
{
    let mut row = StateRow::new(alloc, task.initial.len())?;
    for action in task.actions.as_slice() {
        mark(&mut row, action);
    }
    Ok(row)
}

/// Gives the next number to the next atom, if it has one. Where numbers are full, there is no memory for one more.
fn add_number(row: &mut List<Option<AtomId>>, next: &mut u32, has_one: bool) -> Result<(), Memory>
    ensures row { OnOk result (numbers_of row.new ≡ numbers_of row.old ++ number_of has_one next.old ∷ []) }
    ensures next { OnOk result (next.new ≡ after_number has_one next.old) }
{
    if !has_one {
        row.push(None)?;
        return Ok(());
    }
    let Some(after) = next.checked_add(1) else {
        return Err(Memory);
    };
    row.push(Some(AtomId(*next)))?;
    *next = after;
    Ok(())
}

/// A number for each atom that is marked, from a first one on; it becomes the number after the last.
fn numbers(alloc: Global, marked: &StateRow, next: &mut u32) -> Result<List<Option<AtomId>>, Memory>
    ensures row { IfOk result (λ r. numbers_of r ≡ numbers_if (state_of_row marked.now) next.old (length marked.now)) }
    ensures next { OnOk result (next.new ≡ next.old + passing_below (state_of_row marked.now) (length marked.now)) }
{
    let mut row = List::new(alloc);
    for number in 0..marked.len() {
        add_number(&mut row, next, marked.get(AtomId(number)))?;
    }
    Ok(row)
}

/// The shadow of each atom that an uncertain end writes, from a first number on; it becomes the number after the last.
pub(crate) fn shadow_numbers(
    alloc: Global,
    task: &Task<'_>,
    next: &mut u32,
) -> Result<List<Option<AtomId>>, Memory>
    requires { next.old ≡ length task.now.initial }
    ensures row { IfOk result (λ r. numbers_of r ≡ map (shadow_at (rewriting_in (plain_task task.now))) (range_with_len 0 (length task.now.initial))) }
    ensures next { OnOk result (next.new ≡ first_opened (plain_task task.now)) }
{
    let marked = written(alloc, task)?;
    let row = numbers(alloc, &marked, next)?;
    Ok(row)
}

/// The opened atom of each uncertain action, from a first number on; it becomes the number after the last.
pub(crate) fn opened_numbers(
    alloc: Global,
    task: &Task<'_>,
    next: &mut u32,
) -> Result<List<Option<AtomId>>, Memory>
    requires { next.old ≡ first_opened (plain_task task.now) }
    ensures row { IfOk result (λ r. numbers_of r ≡ map (λ p. opened_at (rewriting_in (plain_task task.now)) p.0 p.1) (numbered_actions (plain_task task.now))) }
    ensures next { OnOk result (next.new ≡ length (rewriting_in (plain_task task.now)).initial) }
{
    let mut row = List::new(alloc);
    for action in task.actions.as_slice() {
        add_number(&mut row, next, uncertain_end(action).is_some())?;
    }
    Ok(row)
}
