//! Tables of rows, and where moves lead in them.

ghost use Rattle.std.specs.Prelude.{◌≡◌, ◌++◌, ◌∷◌, [], true, map, replicate, Contains, Some, IfOk};
ghost use Rattle.stp_tests_tree.specs.Tables.{row_at, step, walk};

use std::alloc::Global;
use stp_base::Memory;

/// A row: where the two moves lead from it, whether it is valid, and its estimate.
#[derive(Clone, Copy)]
pub struct Row {
    pub left: Option<u32>,
    pub right: Option<u32>,
    pub valid: bool,
    pub estimate: u32,
}

/// The row of a number: the one there, or one from which no move leads.
pub fn row_at(rows: &[Row], number: u32) -> Row
    ensures { result ≡ row_at rows.now number }
{
    if number as usize >= rows.len() {
        return Row {
            left: None,
            right: None,
            valid: false,
            estimate: 0,
        };
    }
    rows[number as usize]
}

/// Where a move leads.
pub fn step(rows: &[Row], at: Option<u32>, right: bool) -> Option<u32>
    ensures { result ≡ step rows.now at right }
{
    match at {
        None => None,
        Some(number) => {
            let row = row_at(rows, number);
            if right { row.right } else { row.left }
        }
    }
}

/// Where moves lead from the first row.
pub fn walk(rows: &[Row], moves: &[bool]) -> Option<u32>
    ensures { result ≡ walk rows.now (Some 0) moves.now }
{
    let mut at = Some(0);
    for right in moves {
        at = step(rows, at, *right);
    }
    at
}

/// Where moves and one more lead from the first row.
pub fn walk_on(rows: &[Row], moves: &[bool], right: bool) -> Option<u32>
    ensures { result ≡ walk rows.now (Some 0) (moves.now ++ right ∷ []) }
{
    step(rows, walk(rows, moves), right)
}

/// Moves and one more.
pub fn longer(alloc: Global, moves: &[bool], right: bool) -> Result<Vec<bool>, Memory>
    ensures { IfOk result (λ r. r.items ≡ moves.now ++ right ∷ []) }
{
    let mut more = Vec::new(alloc);
    for before in moves {
        more.push(*before)?;
    }
    more.push(right)?;
    Ok(more)
}

/// Whether a number is among these.
pub fn is_seen(numbers: &[u32], number: u32) -> bool
    ensures { result ≡ true → Contains (map (λ n. replicate n true) numbers.now) (replicate number true) }
{
    for seen in numbers {
        if *seen == number {
            return true;
        }
    }
    false
}
