//! The first state of a rewritten problem.

ghost use Rattle.std.specs.Prelude.{◌≡◌, ◌++◌, ◌∷◌, [], if◌then◌else◌, false, length, map, filter, IfOk, OnOk};
ghost use Rattle.std.specs.List.{range_with_len};
ghost use Rattle.stp_cond.specs.Truth.{state_of_row};
ghost use Rattle.stp_task.specs.Tasks.{plain_task};
ghost use Rattle.stp_rewriting.specs.Rewritten.{is_shadowed};
ghost use Rattle.stp_rewrite.specs.Ends.{end_views, ends_by};
ghost use Rattle.stp_rewrite.specs.RewrittenTasks.{rewriting_in};

use crate::end::End;
use crate::numbering::written;
use std::alloc::Global;
use stp_base::{AtomId, Memory, StateRow};
use stp_task::Task;

/// Puts the values of a row at the end.
fn add_values(values: &mut Vec<bool>, row: &StateRow) -> Result<(), Memory>
    ensures { OnOk result (values.new.items ≡ values.old.items ++ row.now) }
{
    for number in 0..row.len() {
        values.push(row.get(AtomId(number)))?;
    }
    Ok(())
}

/// Puts a value at the end, if there is one.
fn add_if(values: &mut Vec<bool>, has_one: bool, value: bool) -> Result<(), Memory>
    ensures { OnOk result (values.new.items ≡ values.old.items ++ (if has_one then value ∷ [] else [])) }
{
    if has_one {
        values.push(value)?;
    }
    Ok(())
}

/// Puts the values of the marked atoms at the end.
fn add_marked(values: &mut Vec<bool>, row: &StateRow, marked: &StateRow) -> Result<(), Memory>
    requires { length marked.now ≡ length row.now }
    ensures { OnOk result
        (values.new.items ≡ values.old.items ++ map (state_of_row row.now) (filter (state_of_row marked.now) (range_with_len 0 (length row.now)))) }
{
    for number in 0..row.len() {
        let atom = AtomId(number);
        add_if(values, marked.get(atom), row.get(atom))?;
    }
    Ok(())
}

/// Puts false at the end for each of these ends.
fn add_closed(values: &mut Vec<bool>, ends: &[End<'_>]) -> Result<(), Memory>
    ensures { OnOk result (values.new.items ≡ values.old.items ++ map (λ e. false) (end_views ends.now)) }
{
    for end in ends {
        let _ = end;
        values.push(false)?;
    }
    Ok(())
}

/// The row of some values. Where there are more than a row can have, there is no memory for it.
fn row_of(alloc: Global, values: &[bool]) -> Result<StateRow, Memory>
    ensures { IfOk result (λ r. r ≡ values.now) }
{
    let Ok(count) = u32::try_from(values.len()) else {
        return Err(Memory);
    };
    let mut row = StateRow::new(alloc, count)?;
    for number in 0..count {
        row.set(AtomId(number), values[number as usize]);
    }
    Ok(row)
}

/// The first state: each atom and its shadow are as in the task, and no uncertain action is opened.
pub(crate) fn first_state(
    alloc: Global,
    task: &Task<'_>,
    ends: &[End<'_>],
) -> Result<StateRow, Memory>
    requires { end_views ends.now ≡ ends_by (rewriting_in (plain_task task.now)) }
    ensures { IfOk result (λ r. r ≡ (rewriting_in (plain_task task.now)).initial) }
{
    let marked = written(alloc, task)?;
    let mut values = Vec::new(alloc);
    add_values(&mut values, &task.initial)?;
    add_marked(&mut values, &task.initial, &marked)?;
    add_closed(&mut values, ends)?;
    let row = row_of(alloc, values.as_slice())?;
    Ok(row)
}
