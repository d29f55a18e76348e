//! The sizes of types.

ghost use Rattle.std.specs.Prelude.{◌≡◌, ℕ, ◌<◌, ◌+◌, ◌^◌, ◌==◌, All, IfOk, length, map, slice_index, slice_set};
ghost use Rattle.std.specs.List.{count_by};
ghost use Rattle.stp_types.specs.Forest.{parent_of};
ghost use Rattle.stp_types.specs.Rows.{AreAncestries, parents_of};
ghost use Rattle.stp_schema.specs.Rows.{thing_of};
ghost use Rattle.stp_problem.specs.Sizes.{AreSizes};

use crate::rung::rungs;
use std::alloc::Global;
use stp_base::Memory;
use stp_schema::ObjectRow;
use stp_types::Ancestry;

/// How many objects each type has, by its number. The time is that of a sort of the types.
pub fn sizes(
    alloc: Global,
    ancestries: &[Ancestry],
    objects: &[ObjectRow<'_>],
) -> Result<Vec<u32>, Memory>
    requires rows { AreAncestries ancestries.now }
    requires kinds { All (λ o. o.kind < length ancestries.now) objects.now }
    requires small { length objects.now < 2 ^ 32 }
    ensures { IfOk result
        (λ r. AreSizes (parents_of ancestries.now) (map thing_of objects.now) r.items) }
{
    let mut sizes = exact_sizes(alloc, ancestries.len(), objects)?;
    let mut left = rungs(alloc, ancestries)?;
    while let Some(rung) = left.pop() {
        pass_on(ancestries, rung.kind, sizes.as_mut_slice());
    }
    Ok(sizes)
}

/// Adds the size of a type to that of its parent.
fn pass_on(ancestries: &[Ancestry], kind: usize, sizes: &mut [u32])
    requires rows { AreAncestries ancestries.now }
    requires there { kind < length ancestries.now }
    requires len { length sizes.old ≡ length ancestries.now }
    requires fits { slice_index sizes.old (parent_of (parents_of ancestries.now) kind) + slice_index sizes.old kind < 2 ^ 32 }
    ensures { sizes.new ≡ slice_set sizes.old (parent_of (parents_of ancestries.now) kind) (slice_index sizes.old (parent_of (parents_of ancestries.now) kind) + slice_index sizes.old kind) }
{
    let parent = ancestries[kind].parent as usize;
    sizes[parent] += sizes[kind];
}

/// How many objects are of each of so many types itself.
fn exact_sizes(alloc: Global, types: usize, objects: &[ObjectRow<'_>]) -> Result<Vec<u32>, Memory>
    requires kinds { All (λ o. o.kind < types) objects.now }
    requires small { length objects.now < 2 ^ 32 }
    ensures len { IfOk result (λ r. length r.items ≡ types) }
    ensures each { IfOk result
        (λ r. (kind : ℕ) → slice_index r.items kind ≡ count_by (λ o. o.kind == kind) objects.now) }
{
    let mut sizes = vec![in alloc; 0u32; types]?;
    for object in objects {
        sizes[object.kind as usize] += 1;
    }
    Ok(sizes)
}
