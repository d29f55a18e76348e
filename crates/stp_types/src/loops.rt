//! Types that are ancestors of themselves.

ghost use Rattle.std.specs.Prelude.{◌≡◌, ◌+◌, ◌<◌, ◌^◌, length, IfOk};
ghost use Rattle.stp_types.specs.Forest.{IsTable};
ghost use Rattle.stp_types.specs.Loops.{MarksLoops, IsVisited, Climbed, IsClosed, Circled};

use std::alloc::Global;
use stp_base::Memory;

/// For each type whether it is an ancestor of itself.
pub fn looped(alloc: Global, parents: &[u32]) -> Result<Vec<bool>, Memory>
    requires table { IsTable parents.now }
    requires small { length parents.now < 2 ^ 32 }
    ensures { IfOk result (λ r. MarksLoops parents.now r.items) }
{
    let mut marks = vec![in alloc; 0u32; parents.len()]?;
    let mut looped = vec![in alloc; false; parents.len()]?;
    for start in 1..parents.len() as u32 {
        visit(parents, start, marks.as_mut_slice(), looped.as_mut_slice());
    }
    Ok(looped)
}

/// Marks what lies above a type, and the loop that it leads to, if it is a new one.
fn visit(parents: &[u32], start: u32, marks: &mut [u32], looped: &mut [bool])
    requires table { IsTable parents.now }
    requires there { start < length parents.now }
    requires visited { IsVisited parents.now start marks.old looped.old }
    ensures { IsVisited parents.now (start + 1) marks.new looped.new }
{
    let end = climb(parents, start, marks);
    if marks[end as usize] == start {
        circle(parents, end, looped);
    }
}

/// Marks the types above a type, itself first, up to the root or to one that is marked.
fn climb(parents: &[u32], start: u32, marks: &mut [u32]) -> u32
    requires table { IsTable parents.now }
    requires there { start < length parents.now }
    requires length { length marks.old ≡ length parents.now }
    requires positive { 0 < start }
    ensures { Climbed parents.now start marks.old marks.new result }
{
    let mut at = start;
    while at != 0 && marks[at as usize] == 0 {
        marks[at as usize] = start;
        at = parents[at as usize];
    }
    at
}

/// Marks the types on the loop of a type.
fn circle(parents: &[u32], start: u32, looped: &mut [bool])
    requires table { IsTable parents.now }
    requires there { start < length parents.now }
    requires length { length looped.old ≡ length parents.now }
    requires closed { IsClosed parents.now looped.old }
    ensures { Circled parents.now start looped.old looped.new }
{
    let mut at = start;
    while !looped[at as usize] {
        looped[at as usize] = true;
        at = parents[at as usize];
    }
}
