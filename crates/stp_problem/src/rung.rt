//! Types in the order of their depths.

ghost use Rattle.std.specs.Prelude.{◌≡◌, ◌≢◌, ℕ, ◌<◌, ◌≤◌, All, IfOk, length};
ghost use Rattle.stp_types.specs.Rows.{AreAncestries};
ghost use Rattle.stp_problem.specs.Passing.{AreAllLeft, IsRung, times};

use std::alloc::Global;
use stp_base::Memory;
use stp_types::Ancestry;

/// A type below the root, with the number of steps to the root.
#[derive(Clone, Copy)]
pub struct Rung {
    pub depth: u32,
    pub kind: usize,
}

/// The types below the root, the deepest last.
pub fn rungs(alloc: Global, ancestries: &[Ancestry]) -> Result<Vec<Rung>, Memory>
    requires { AreAncestries ancestries.now }
    ensures { IfOk result (λ r. AreAllLeft ancestries.now r.items) }
{
    let mut rungs = unsorted(alloc, ancestries)?;
    rungs.sort_unstable_by_key(|rung| rung.depth);
    Ok(rungs)
}

/// The types below the root, in the order of their numbers.
fn unsorted(alloc: Global, ancestries: &[Ancestry]) -> Result<Vec<Rung>, Memory>
    ensures rungs { IfOk result (λ r. All (IsRung ancestries.now) r.items) }
    ensures once { IfOk result (λ r. (kind : ℕ) → times r.items kind ≤ 1) }
    ensures complete { IfOk result
        (λ r. (kind : ℕ) → kind ≢ 0 → kind < length ancestries.now → times r.items kind ≡ 1) }
{
    let mut rungs = Vec::new(alloc);
    for kind in 1..ancestries.len() {
        rungs.push(Rung {
            depth: ancestries[kind].depth,
            kind,
        })?;
    }
    Ok(rungs)
}
