//! Whether a type is below another.

ghost use Rattle.std.specs.Prelude.{◌≡◌, ◌<◌, length};
ghost use Rattle.stp_types.specs.Forest.{is_below as is_below_in};
ghost use Rattle.stp_types.specs.Rows.{AreAncestries, parents_of};

use crate::row::Ancestry;

/// Whether a type is another, or below it. The time is logarithmic in the number of types.
pub fn is_below(rows: &[Ancestry], kind: u32, other: u32) -> bool
    requires rows { AreAncestries rows.now }
    requires kind { kind < length rows.now }
    requires other { other < length rows.now }
    ensures { result ≡ is_below_in (parents_of rows.now) kind other }
{
    let depth = rows[other as usize].depth;
    let mut at = kind;
    while rows[at as usize].depth > depth {
        let row = rows[at as usize];
        at = if rows[row.jump as usize].depth >= depth {
            row.jump
        } else {
            row.parent
        };
    }
    at == other
}
