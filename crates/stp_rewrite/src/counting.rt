//! Counts of nodes of expansions, before these are made. They are cut at one more than is accepted, so that no sum wraps.

ghost use Rattle.std.specs.Prelude.{◌≡◌, ◌+◌, ◌-◌, ◌≤◌, ◌^◌, ◌++◌, ◌∷◌, [], false, length, map, IfOk};
ghost use Rattle.std.specs.List.{sum_by};
ghost use Rattle.stp_base.specs.declared.limits.TheConstants.{MAX_FOOTPRINTS};
ghost use Rattle.stp_cond.specs.Formulas.{view};
ghost use Rattle.stp_expand.specs.Footprints.{has_too_many, is_past_limit};
ghost use Rattle.stp_expand.specs.Views.{footprint_of, footprints_of};
ghost use Rattle.stp_rewrite.specs.Counts.{cut, nodes_in, closed_nodes, set_nodes, nodes_at, nodes_from, nodes_under, whole_nodes, expanded_nodes};

use bumpalo::Bump;
use std::alloc::Global;
use stp_base::Memory;
use stp_base::limits::{MAX_FOOTPRINTS, MAX_OVER_ALL_NODES};
use stp_cond::Cond;
use stp_expand::{Footprint, footprints_on, is_consistent, picked, sets_of};

pub(crate) const PAST: u64 = MAX_OVER_ALL_NODES + 1;

/// The sum of two counts that are cut.
pub(crate) fn sum(one: u64, other: u64) -> u64
    requires one { one ≤ 10000001 }
    requires other { other ≤ 10000001 }
    ensures { result ≡ cut (one + other) }
{
    (one + other).min(PAST)
}

/// Whether a formula has too many footprints.
fn is_past_limit<'a>(
    alloc: Global,
    arena: &'a Bump,
    cond: &Cond<'_>,
    ends: &[Footprint<'a>],
) -> Result<bool, Memory>
    ensures { IfOk result (λ r. r ≡ is_past_limit (footprints_of ends.now) (view cond.now)) }
{
    let footprints = footprints_on(alloc, arena, cond, ends)?;
    Ok(footprints.len() > MAX_FOOTPRINTS)
}

/// Whether a formula of a condition, which is no conjunction, has too many footprints.
pub(crate) fn has_too_many<'a>(
    alloc: Global,
    arena: &'a Bump,
    cond: &Cond<'_>,
    ends: &[Footprint<'a>],
) -> Result<bool, Memory>
    ensures { IfOk result (λ r. r ≡ has_too_many (footprints_of ends.now) (view cond.now)) }
{
    match cond {
        Cond::And(parts) => {
            for part in *parts {
                if has_too_many(alloc, arena, part, ends)? {
                    return Ok(true);
                }
            }
            Ok(false)
        }
        Cond::True | Cond::False | Cond::Atom(_) | Cond::Not(_) | Cond::Or(_) => {
            is_past_limit(alloc, arena, cond, ends)
        }
    }
}

/// How many nodes a formula has.
fn nodes(cond: &Cond<'_>) -> u64
    ensures { result ≡ cut (nodes_in (view cond.now)) }
{
    match cond {
        Cond::True | Cond::False | Cond::Atom(_) => 1,
        Cond::Not(part) => sum(1, nodes(part)),
        Cond::And(parts) | Cond::Or(parts) => {
            let mut count = 1;
            for part in *parts {
                count = sum(count, nodes(part));
            }
            count
        }
    }
}

/// How many nodes it has that none of some actions is opened.
fn closed_nodes(opened: usize) -> u64
    ensures { result ≡ cut (closed_nodes opened) }
{
    match opened {
        0 => 1,
        1 => 2,
        several if several as u64 >= PAST => PAST,
        several => (1 + 2 * several as u64).min(PAST),
    }
}

/// How many nodes it has that none of the actions of a footprint is opened.
fn footprint_nodes(footprint: &Footprint<'_>) -> u64
    ensures { result ≡ cut (closed_nodes (length (footprint_of footprint.now).opened)) }
{
    closed_nodes(footprint.opened.len())
}

/// How many nodes the formula of a set of footprints has, on a formula of that many nodes.
fn set_nodes(set: &[Footprint<'_>], each: u64) -> u64
    requires { each ≤ 10000001 }
    ensures { result ≡ cut (set_nodes each (footprints_of set.now)) }
{
    let mut count = sum(1, each);
    for footprint in set {
        count = sum(count, footprint_nodes(footprint));
    }
    count
}

/// How many nodes the formula of the set of that number has, if the set is used.
fn nodes_at(
    alloc: Global,
    footprints: &[Footprint<'_>],
    number: usize,
    each: u64,
) -> Result<u64, Memory>
    requires { each ≤ 10000001 }
    ensures { IfOk result (λ r. r ≡ cut (nodes_at each (footprints_of footprints.now) number)) }
{
    let set = picked(alloc, footprints, number)?;
    if is_consistent(set.as_slice()) {
        return Ok(set_nodes(set.as_slice(), each));
    }
    Ok(0)
}

/// How many nodes the formulas of all used sets have.
fn nodes_of_sets(alloc: Global, footprints: &[Footprint<'_>], each: u64) -> Result<u64, Memory>
    requires few { length footprints.now ≤ MAX_FOOTPRINTS }
    requires each { each ≤ 10000001 }
    ensures { IfOk result
        (λ r. r ≡ cut (nodes_from each (footprints_of footprints.now) 1 (2 ^ length footprints.now - 1))) }
{
    let mut count = 0;
    for number in 1..sets_of(footprints.len()) {
        let one = nodes_at(alloc, footprints, number, each)?;
        count = sum(count, one);
    }
    Ok(count)
}

/// How many nodes a formula of that many nodes has under its footprints.
fn nodes_under(alloc: Global, footprints: &[Footprint<'_>], each: u64) -> Result<u64, Memory>
    requires few { length footprints.now ≤ MAX_FOOTPRINTS }
    requires each { each ≤ 10000001 }
    ensures { IfOk result (λ r. r ≡ cut (nodes_under each (footprints_of footprints.now))) }
{
    match footprints {
        [] => Ok(each),
        several => {
            let sets = nodes_of_sets(alloc, several, each)?;
            Ok(sum(sum(1, each), sets))
        }
    }
}

/// How many nodes a formula has that is expanded as a whole.
fn whole_nodes<'a>(
    alloc: Global,
    arena: &'a Bump,
    cond: &Cond<'_>,
    ends: &[Footprint<'a>],
) -> Result<u64, Memory>
    requires { is_past_limit (footprints_of ends.now) (view cond.now) ≡ false }
    ensures { IfOk result (λ r. r ≡ cut (whole_nodes (footprints_of ends.now) (view cond.now))) }
{
    let footprints = footprints_on(alloc, arena, cond, ends)?;
    let count = nodes_under(alloc, footprints.as_slice(), nodes(cond))?;
    Ok(count)
}

/// How many nodes an expanded condition has.
pub(crate) fn expanded_nodes<'a>(
    alloc: Global,
    arena: &'a Bump,
    cond: &Cond<'_>,
    ends: &[Footprint<'a>],
) -> Result<u64, Memory>
    requires { has_too_many (footprints_of ends.now) (view cond.now) ≡ false }
    ensures { IfOk result (λ r. r ≡ cut (expanded_nodes (footprints_of ends.now) (view cond.now))) }
{
    match cond {
        Cond::And(parts) => {
            let mut count = 1;
            for part in *parts {
                let one = expanded_nodes(alloc, arena, part, ends)?;
                count = sum(count, one);
            }
            Ok(count)
        }
        Cond::True | Cond::False | Cond::Atom(_) | Cond::Not(_) | Cond::Or(_) => {
            whole_nodes(alloc, arena, cond, ends)
        }
    }
}
