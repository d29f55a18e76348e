//! The expansion of one node.

ghost use Rattle.std.specs.Prelude.{◌≡◌, ◌<◌, ◌≤◌, [], ◌∷◌, length, map, IfOk};
ghost use Rattle.stp_tree.specs.Queues.{IsQueue};
ghost use Rattle.stp_tree.specs.Rests.{AreMet};
ghost use Rattle.stp_tree.specs.Expansions.{IsExpanded};

use crate::space::{Child, Space};
use stp_base::Memory;

/// A valid child, or whether the search has been cut by now.
#[derive(Drop)]
pub enum Expansion<N> {
    Valid(N),
    Open(bool),
}

/// The state of the root is met, if it is at rest.
pub fn root_rests<S: Space>(space: &S, work: &S::Work, root: &S::Node) -> Result<S::Rests, Memory>
    requires { S.tells space.now work.now (S.path root.now) }
    ensures { IfOk result (λ r. AreMet (S.state space.now) (S.path root.now ∷ []) (S.met r)) }
{
    let mut rests = space.no_rests();
    space.is_new(work, &mut rests, root)?;
    Ok(rests)
}

/// Puts the wanted children of the node at a place at the end of the nodes, while there are not so many.
pub fn expand<S: Space>(
    space: &S,
    work: &mut S::Work,
    nodes: &mut Vec<S::Node>,
    rests: &mut S::Rests,
    at: usize,
    most: usize,
    was_cut: bool,
) -> Result<Expansion<S::Node>, Memory>
    requires at { at < length nodes.old.items }
    requires queue { IsQueue (S.nodes space.now) (S.valid space.now) (S.skips space.now) (S.moves space.now) (S.limit space.now) most was_cut at [] (map S.path nodes.old.items) }
    requires met { AreMet (S.state space.now) (map S.path nodes.old.items) (S.met rests.old) }
    requires fits { S.fits space.now work.old }
    ensures expanded { IfOk result (λ r. IsExpanded (S.nodes space.now) (S.valid space.now) (S.skips space.now) (S.within space.now) (S.moves space.now) (S.state space.now) S.path (S.limit space.now) most at (map S.path nodes.new.items) (S.met rests.new) r) }
    ensures fits { IfOk result (λ r. S.fits space.now work.new) }
{
    let mut cut = was_cut;
    for next in space.all_moves() {
        match space.child(work, &nodes[at], *next)? {
            Child::No => {}
            Child::Past => cut = true,
            Child::Node(child) => {
                if space.is_valid(work, &child) {
                    return Ok(Expansion::Valid(child));
                }
                if nodes.len() < most {
                    if space.is_new(work, rests, &child)? {
                        nodes.push(child)?;
                    }
                } else {
                    cut = true;
                }
            }
        }
    }
    Ok(Expansion::Open(cut))
}
