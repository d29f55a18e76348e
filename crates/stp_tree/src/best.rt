//! The search by the least estimate.

ghost use Rattle.std.specs.Prelude.{◌<◌, IfOk, IfSome};

use crate::expanding::root_rests;
use crate::space::{Child, Space};
use std::alloc::Global;
use std::cmp::Reverse;
use std::collections::BinaryHeap;
use stp_base::Memory;

/// A child to be expanded: its estimate, its parent's place and its move's.
type Open = Reverse<(u32, usize, usize)>;

/// Expands so many nodes at most, the root first and then each time one of the least estimate.
pub fn best_first<S: Space>(
    alloc: Global,
    space: &S,
    work: &mut S::Work,
    most: usize,
) -> Result<Option<S::Node>, Memory>
    requires { S.fits space.now work.old }
    ensures found { IfOk result (λ r. IfSome r (λ n. S.valid space.now (S.path n) × S.within space.now (S.path n))) }
    ensures some { IfOk result (λ r. IfSome r (λ _. 0 < most)) }
    ensures fits { IfOk result (λ r. S.fits space.now work.new) }
{
    if most == 0 {
        return Ok(None);
    }
    let root = space.root(work)?;
    if space.is_valid(work, &root) {
        return Ok(Some(root));
    }
    let mut rests = root_rests(space, work, &root)?;
    let mut open = BinaryHeap::new(alloc);
    if let Some(found) = look(space, work, &mut rests, &mut open, &root, 0)? {
        return Ok(Some(found));
    }
    let mut nodes = Vec::new(alloc);
    nodes.push(root)?;
    for _ in 1..most {
        let Some(Reverse((_, parent, number))) = open.pop() else {
            return Ok(None);
        };
        if let Some(node) = child_at(space, work, &nodes, parent, number)? {
            if let Some(found) = look(space, work, &mut rests, &mut open, &node, nodes.len())? {
                return Ok(Some(found));
            }
            nodes.push(node)?;
        }
    }
    Ok(None)
}

/// Makes a child again from its parent.
fn child_at<S: Space>(
    space: &S,
    work: &mut S::Work,
    nodes: &[S::Node],
    parent: usize,
    number: usize,
) -> Result<Option<S::Node>, Memory>
    requires { S.fits space.now work.old }
    ensures { IfOk result (λ r. S.fits space.now work.new) }
{
    let moves = space.all_moves();
    if parent >= nodes.len() || number >= moves.len() {
        return Ok(None);
    }
    match space.child(work, &nodes[parent], moves[number])? {
        Child::Node(child) => Ok(Some(child)),
        Child::No => Ok(None),
        Child::Past => Ok(None),
    }
}

/// Looks at the children of the node that gets a place: a valid one, or they are put among the open ones.
fn look<S: Space>(
    space: &S,
    work: &mut S::Work,
    rests: &mut S::Rests,
    open: &mut BinaryHeap<Open>,
    node: &S::Node,
    place: usize,
) -> Result<Option<S::Node>, Memory>
    requires { S.fits space.now work.old }
    ensures found { IfOk result (λ r. IfSome r (λ n. S.valid space.now (S.path n) × S.within space.now (S.path n))) }
    ensures fits { IfOk result (λ r. S.fits space.now work.new) }
{
    let mut number = 0;
    for next in space.all_moves() {
        if let Child::Node(child) = space.child(work, node, *next)? {
            if space.is_valid(work, &child) {
                return Ok(Some(child));
            }
            if space.is_new(work, rests, &child)? {
                let estimate = space.estimate(work, &child)?;
                open.push(Reverse((estimate, place, number)))?;
            }
        }
        number += 1;
    }
    Ok(None)
}
