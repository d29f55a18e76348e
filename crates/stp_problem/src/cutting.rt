//! Counts that are cut at one more than is accepted, so that no sum and no product wraps.

ghost use Rattle.std.specs.Prelude.{◌≡◌, ◌+◌, ◌*◌, ◌≤◌, slice_index};
ghost use Rattle.stp_problem.specs.Nodes.{bindings, cut, are_too_many};

use stp_base::limits::MAX_EXPANDED_NODES;

const PAST: u32 = MAX_EXPANDED_NODES as u32 + 1;

/// A count, or one more than is accepted where it is greater.
fn cut(count: u32) -> u32
    ensures { result ≡ cut count }
{
    count.min(PAST)
}

/// The sum of two counts that are cut.
pub fn sum(one: u32, other: u32) -> u32
    requires one { one ≤ 10001 }
    requires other { other ≤ 10001 }
    ensures { result ≡ cut (one + other) }
{
    cut(one + other)
}

/// The product of two counts that are cut.
pub fn product(one: u32, other: u32) -> u32
    requires one { one ≤ 10001 }
    requires other { other ≤ 10001 }
    ensures { result ≡ cut (one * other) }
{
    cut(one * other)
}

/// Whether a count is greater than is accepted.
pub fn are_too_many(count: u32) -> bool
    ensures { result ≡ are_too_many count }
{
    u64::from(count) > MAX_EXPANDED_NODES
}

/// How many objects a type has.
fn size_of(sizes: &[u32], kind: u32) -> u32
    ensures { result ≡ slice_index sizes.now kind }
{
    sizes.get(kind as usize).copied().unwrap_or(0)
}

/// How many bindings variables of these types have.
pub fn bindings(sizes: &[u32], kinds: &[u32]) -> u32
    ensures { result ≡ cut (bindings (slice_index sizes.now) kinds.now) }
{
    let mut count = 1;
    for kind in kinds {
        count = product(count, cut(size_of(sizes, *kind)));
    }
    count
}
