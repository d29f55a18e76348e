//! Nodes of conditions.

ghost use Rattle.std.specs.Prelude.{◌≡◌, slice_index};
ghost use Rattle.stp_schema.specs.Formula.{formula};
ghost use Rattle.stp_problem.specs.Nodes.{nodes, nodes_of_parts, are_too_many, cut};

use crate::cutting::{are_too_many, bindings, product, sum};
use stp_schema::Lifted;

/// How many nodes a condition has once its quantifiers are expanded, where each type has so many objects. It is
/// cut at one more than is accepted.
pub fn expanded_nodes(sizes: &[u32], cond: &Lifted<'_>) -> u32
    ensures { result ≡ cut (nodes (slice_index sizes.now) (formula cond.now)) }
{
    match cond {
        Lifted::Atom(_) | Lifted::Same(..) => 1,
        Lifted::Not(inner) => sum(1, expanded_nodes(sizes, inner)),
        Lifted::And(members) | Lifted::Or(members) => {
            let mut count = 1;
            for member in *members {
                count = sum(count, expanded_nodes(sizes, member));
            }
            count
        }
        Lifted::Every(kinds, body) | Lifted::Any(kinds, body) => {
            let each = expanded_nodes(sizes, body);
            sum(1, product(bindings(sizes, kinds), each))
        }
    }
}

/// The nodes of a condition whose parts stand side by side.
pub fn part_nodes(sizes: &[u32], cond: &Lifted<'_>) -> u32
    ensures { result ≡ cut (nodes_of_parts (slice_index sizes.now) (formula cond.now)) }
{
    match cond {
        Lifted::And(members) => {
            let mut count = 0;
            for member in *members {
                count = sum(count, expanded_nodes(sizes, member));
            }
            count
        }
        other => expanded_nodes(sizes, other),
    }
}

/// Whether a condition has more expanded nodes than are accepted.
pub fn is_too_large(sizes: &[u32], cond: &Lifted<'_>) -> bool
    ensures { result ≡ are_too_many (nodes (slice_index sizes.now) (formula cond.now)) }
{
    are_too_many(expanded_nodes(sizes, cond))
}
