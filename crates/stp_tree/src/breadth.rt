//! The search in order of depth.

ghost use Rattle.std.specs.Prelude.{◌≡◌, IfOk};
ghost use Rattle.stp_tree.specs.Answers.{IsAnswer, IsOfRoot};

use crate::answer::Answer;
use crate::expanding::{Expansion, expand, root_rests};
use crate::space::Space;
use std::alloc::Global;
use stp_base::Memory;

/// Expands so many nodes at most, none before those that are less deep.
pub fn breadth_first<S: Space>(
    alloc: Global,
    space: &S,
    work: &mut S::Work,
    most: usize,
) -> Result<Answer<S::Node>, Memory>
    requires { S.fits space.now work.old }
    ensures answer { IfOk result (λ a. IsAnswer (S.nodes space.now) (S.valid space.now) (S.within space.now) S.path (S.limit space.now) most a) }
    ensures root { most ≡ 0 → IfOk result (λ a. IsOfRoot S.path a) }
{
    let root = space.root(work)?;
    if space.is_valid(work, &root) {
        return Ok(Answer::Valid(root));
    }
    if most == 0 {
        return Ok(Answer::Spent);
    }
    let mut rests = root_rests(space, work, &root)?;
    let mut nodes = Vec::new(alloc);
    nodes.push(root)?;
    let mut cut = false;
    let mut at = 0;
    while at < nodes.len() {
        match expand(space, work, &mut nodes, &mut rests, at, most, cut)? {
            Expansion::Valid(node) => return Ok(Answer::Valid(node)),
            Expansion::Open(now) => cut = now,
        }
        at += 1;
    }
    if cut {
        return Ok(Answer::Spent);
    }
    Ok(Answer::Exhausted)
}
