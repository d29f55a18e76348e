//! Nodes of the conditions of actions.

ghost use Rattle.std.specs.Prelude.{◌≡◌, ◌<◌, ◌^◌, map, length, slice_index};
ghost use Rattle.stp_schema.specs.Schemas.{schema_of};
ghost use Rattle.stp_problem.specs.Nodes.{nodes_of_schema, cut, are_too_many, first_too_large};

use crate::cutting::{are_too_many, sum};
use crate::nodes::{expanded_nodes, part_nodes};
use stp_schema::{Schema, Timing};

/// How many expanded nodes the conditions of an action have. It is cut at one more than is accepted.
pub fn schema_nodes(sizes: &[u32], schema: &Schema<'_>) -> u32
    ensures { result ≡ cut (nodes_of_schema (slice_index sizes.now) (schema_of schema.now)) }
{
    let start = schema.start_cond;
    if matches!(schema.timing, Timing::Instant) {
        if !schema.has_condition {
            return 0;
        }
        return expanded_nodes(sizes, start);
    }
    let begun = sum(part_nodes(sizes, start), part_nodes(sizes, schema.over_all));
    sum(begun, part_nodes(sizes, schema.end_cond))
}

/// Whether the conditions of an action have more expanded nodes than are accepted.
fn is_too_large(sizes: &[u32], schema: &Schema<'_>) -> bool
    ensures { result ≡ are_too_many (nodes_of_schema (slice_index sizes.now) (schema_of schema.now)) }
{
    are_too_many(schema_nodes(sizes, schema))
}

/// The number, from 1, of the first action whose conditions have more expanded nodes than are accepted.
pub fn first_too_large(sizes: &[u32], schemas: &[Schema<'_>]) -> Option<u32>
    requires { length schemas.now < 2 ^ 32 }
    ensures { result ≡ first_too_large (slice_index sizes.now) (map schema_of schemas.now) }
{
    let mut number = 0;
    for schema in schemas {
        number += 1;
        if is_too_large(sizes, schema) {
            return Some(number);
        }
    }
    None
}
