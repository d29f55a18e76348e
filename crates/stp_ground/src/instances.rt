//! The ground action that a name and arguments choose.

ghost use Rattle.std.specs.Prelude.{◌≡◌, ◌≢◌, length, IfErr, IfOk, MatchResult, Ok, Err};
ghost use Rattle.stp_schema.specs.Views.{problem_of};
ghost use Rattle.stp_task.specs.Actions.{action_of};
ghost use Rattle.stp_instance.specs.Numbered.{IsGrown};
ghost use Rattle.stp_ground.specs.Ground.{instance_by};
ghost use Rattle.stp_task.specs.SoundTask.{IsActionInRange};

use crate::choosing::choose;
use crate::fault::InstanceFault;
use crate::grounding::ground;
use crate::numbering::number_chosen;
use crate::world::World;
use bumpalo::Bump;
use std::alloc::Global;
use stp_base::{List, Text};
use stp_schema::Problem;
use stp_tables::AtomTable;
use stp_task::GroundAction;

/// The ground action that a name and the names of arguments choose, over the table with its fluent atoms; or the first
/// reason why there is none. The table is then as before, except that after want of memory it may have gained atoms.
pub fn instance<'a>(
    alloc: Global,
    arena: &'a Bump,
    problem: &'a Problem<'a>,
    table: &mut AtomTable,
    name: &[u8],
    args: &List<Text>,
) -> Result<GroundAction<'a>, InstanceFault>
    ensures instance { MatchResult result
        (λ a. instance_by (problem_of problem.now) name.now args.now table.old ≡ Ok (table.new, action_of a))
        (λ fault. fault ≢ InstanceFault.Memory → instance_by (problem_of problem.now) name.now args.now table.old ≡ Err fault) }
    ensures refused { IfErr result (λ fault. fault ≢ InstanceFault.Memory → table.new ≡ table.old) }
    ensures grown { IsGrown table.old table.new }
    ensures in_range { IfOk result (λ a. IsActionInRange (length table.new) a) }
{
    let mut world = World::new(alloc, problem)?;
    let chosen = choose(alloc, arena, &mut world, name, args)?;
    number_chosen(&world, table, &chosen)?;
    let action = ground(alloc, arena, &world, table, &chosen)?;
    Ok(action)
}
