//! The whole search.

ghost use Rattle.std.specs.Prelude.{◌≡◌, ◌-◌, ◌/◌, IfOk};
ghost use Rattle.stp_tree.specs.Answers.{IsAnswer, IsOfRoot};

use crate::answer::Answer;
use crate::best::best_first;
use crate::breadth::breadth_first;
use crate::space::Space;
use std::alloc::Global;
use stp_base::Memory;

/// Spends the smaller half of a budget of expanded nodes best first, and the rest in order of depth.
pub fn search<S: Space>(alloc: Global, space: &S, budget: u32) -> Result<Answer<S::Node>, Memory>
    ensures answer { IfOk result (λ a. IsAnswer (S.nodes space.now) (S.valid space.now) (S.within space.now) S.path (S.limit space.now) (budget - budget / 2) a) }
    ensures root { budget ≡ 0 → IfOk result (λ a. IsOfRoot S.path a) }
{
    let mut work = space.work()?;
    let first = budget / 2;
    if let Some(found) = best_first(alloc, space, &mut work, first as usize)? {
        return Ok(Answer::Valid(found));
    }
    breadth_first(alloc, space, &mut work, (budget - first) as usize)
}
