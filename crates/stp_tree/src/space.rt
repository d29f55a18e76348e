//! Trees that can be searched.

ghost use Rattle.std.specs.Prelude.{◌≡◌, ◌≤◌, ℕ, Bool, List, [], length, Option, IfOk, ◌↔◌};
ghost use Rattle.std.specs.Bool.{IsTrue};
ghost use Rattle.stp_tree.specs.Trees.{IsTree};
ghost use Rattle.stp_tree.specs.Rests.{AreRests, IsLookedUp};
ghost use Rattle.stp_tree.specs.Answers.{IsChild, IfChild};

use stp_base::Memory;

/// The child of a node by a move: none that is wanted, one past the limit, or this one.
#[derive(Drop)]
pub enum Child<N> {
    No,
    Past,
    Node(N),
}

/// A tree whose nodes are lists of moves. What is asked of a node is asked right after it was made, with the place of work
/// that it was made in.
pub trait Space {
    type Move: Copy;

    type Node: Drop;

    type Rests: Drop;

    type Work: Drop;

    // The lists that are nodes, and those of them that are valid.
    ghost nodes: { Self → List Self.Move → Type 0 };

    ghost valid: { Self → List Self.Move → Type 0 };

    // The children that may be left out where another one serves.
    ghost skips: { Self → List Self.Move → Type 0 };

    // The lists that a search is to keep, among them all of so many moves.
    ghost within: { Self → List Self.Move → Type 0 };

    ghost limit: { Self → ℕ };

    // The moves that there are.
    ghost moves: { Self → List Self.Move };

    // The list of a node.
    ghost path: { Self.Node → List Self.Move };

    // The state of a list at rest, and the states that were met.
    ghost state: { Self → List Self.Move → Option (List Bool) };

    ghost met: { Self.Rests → List (List Bool) };

    // A place of work is one of this tree, and it tells of the node of a list.
    ghost fits: { Self → Self.Work → Type 0 };

    ghost tells: { Self → Self.Work → List Self.Move → Type 0 };

    /// A place of work.
    fn work(&self) -> Result<Self::Work, Memory>
        ensures { IfOk result (λ w. fits self.now w) };

    /// No state was met.
    fn no_rests(&self) -> Self::Rests
        ensures { met result ≡ [] };

    /// The moves that there are.
    fn all_moves(&self) -> &[Self::Move]
        ensures { result.now ≡ moves self.now };

    /// The root.
    fn root(&self, work: &mut Self::Work) -> Result<Self::Node, Memory>
        requires { fits self.now work.old }
        ensures root { IfOk result (λ n. path n ≡ []) }
        ensures tells { IfOk result (λ n. tells self.now work.new (path n)) }
        ensures fits { IfOk result (λ n. fits self.now work.new) };

    /// The child of a node by a move.
    fn child(
        &self,
        work: &mut Self::Work,
        node: &Self::Node,
        next: Self::Move,
    ) -> Result<Child<Self::Node>, Memory>
        requires { fits self.now work.old }
        ensures child { IfOk result (λ c. IsChild (nodes self.now) (skips self.now) (within self.now) path (path node.now) next c) }
        ensures tells { IfOk result (λ c. IfChild c (λ n. tells self.now work.new (path n))) }
        ensures fits { IfOk result (λ c. fits self.now work.new) };

    /// Whether a node is valid.
    fn is_valid(&self, work: &Self::Work, node: &Self::Node) -> bool
        requires { tells self.now work.now (path node.now) }
        ensures { IsTrue result ↔ valid self.now (path node.now) };

    /// Whether a node is none at rest whose state was met, which it is then.
    fn is_new(
        &self,
        work: &Self::Work,
        rests: &mut Self::Rests,
        node: &Self::Node,
    ) -> Result<bool, Memory>
        requires { tells self.now work.now (path node.now) }
        ensures { IfOk result (λ r. IsLookedUp (state self.now) (path node.now) (met rests.old) (met rests.new) r) };

    /// How far a node may be from a valid one; the least are expanded first.
    fn estimate(&self, work: &Self::Work, node: &Self::Node) -> Result<u32, Memory>
        requires { tells self.now work.now (path node.now) };

    ghost tree: { (t : Self) → IsTree (nodes t) (valid t) (skips t) (moves t) };

    ghost rests: { (t : Self) → AreRests (nodes t) (valid t) (state t) };

    ghost root_within: { (t : Self) → within t [] };

    ghost short_within: { (t : Self) (s : List Self.Move) → length s ≤ limit t → within t s };
}
