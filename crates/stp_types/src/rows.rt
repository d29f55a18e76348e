//! Rows of ancestry, made from the parents.

ghost use Rattle.std.specs.Prelude.{◌≡◌, ◌≢◌, ℕ, ◌<◌, ◌^◌, [], length, IfOk, OnOk};
ghost use Rattle.stp_types.specs.Forest.{IsTable, IsForest, parent_of};
ghost use Rattle.stp_types.specs.Rows.{AreAncestries, parents_of};
ghost use Rattle.stp_types.specs.Making.{IsRow, IsDone, AreRight, IsPath};

use crate::row::Ancestry;
use std::alloc::Global;
use stp_base::Memory;

/// The rows of types of which none is an ancestor of itself.
pub fn ancestries(alloc: Global, parents: &[u32]) -> Result<Vec<Ancestry>, Memory>
    requires table { IsTable parents.now }
    requires forest { IsForest parents.now }
    requires small { length parents.now < 2 ^ 32 }
    ensures rows { IfOk result (λ r. AreAncestries r.items) }
    ensures parents { IfOk result (λ r. parents_of r.items ≡ parents.now) }
{
    let empty = Ancestry {
        parent: 0,
        depth: 0,
        jump: 0,
    };
    let mut rows = vec![in alloc; empty; parents.len()]?;
    let mut path = Vec::new(alloc);
    for start in 1..parents.len() as u32 {
        climb(parents, start, rows.as_slice(), &mut path)?;
        descend(parents, start, rows.as_mut_slice(), &mut path);
    }
    Ok(rows)
}

/// The types from a type up to the last that has no row.
fn climb(parents: &[u32], start: u32, rows: &[Ancestry], path: &mut Vec<u32>) -> Result<(), Memory>
    requires table { IsTable parents.now }
    requires forest { IsForest parents.now }
    requires there { start < length parents.now }
    requires length { length rows.now ≡ length parents.now }
    requires empty { path.old.items ≡ [] }
    ensures { OnOk result (IsPath parents.now start rows.now path.new.items) }
{
    let mut at = start;
    while at != 0 && rows[at as usize].depth == 0 {
        path.push(at)?;
        at = parents[at as usize];
    }
    Ok(())
}

/// Makes the rows of a path, the highest first, and empties it.
fn descend(parents: &[u32], start: u32, rows: &mut [Ancestry], path: &mut Vec<u32>)
    requires table { IsTable parents.now }
    requires forest { IsForest parents.now }
    requires small { length parents.now < 2 ^ 32 }
    requires there { start < length parents.now }
    requires right { AreRight parents.now rows.old }
    requires path { IsPath parents.now start rows.old path.old.items }
    ensures right { AreRight parents.now rows.new }
    ensures done { IsDone rows.new start }
    ensures kept { (k : ℕ) → IsDone rows.old k → IsDone rows.new k }
    ensures empty { path.new.items ≡ [] }
{
    while let Some(kind) = path.pop() {
        rows[kind as usize] = row_under(parents, kind, rows);
    }
}

/// The row of a type whose parent has one.
fn row_under(parents: &[u32], kind: u32, rows: &[Ancestry]) -> Ancestry
    requires table { IsTable parents.now }
    requires forest { IsForest parents.now }
    requires small { length parents.now < 2 ^ 32 }
    requires there { kind < length parents.now }
    requires child { kind ≢ 0 }
    requires right { AreRight parents.now rows.now }
    requires parent { IsDone rows.now (parent_of parents.now kind) }
    ensures row { IsRow parents.now kind result }
    ensures deep { 0 < result.depth }
{
    let parent = parents[kind as usize];
    let above = rows[parent as usize];
    let jump = rows[above.jump as usize];
    let far = rows[jump.jump as usize];
    Ancestry {
        parent,
        depth: above.depth + 1,
        jump: if above.depth - jump.depth == jump.depth - far.depth {
            jump.jump
        } else {
            parent
        },
    }
}
