//! The tables of a problem.

ghost use Rattle.std.specs.Prelude.{◌≡◌, [], map, IfOk};
ghost use Rattle.stp_schema.specs.Views.{fact_of, problem_of};
ghost use Rattle.stp_instance.specs.Numbered.{is_in, with_atoms};
ghost use Rattle.stp_ground.specs.Problems.{atom_of_fact, is_known};
ghost use Rattle.stp_ground.specs.Typing.{typing_of};
ghost use Rattle.stp_ground.specs.Worlds.{problem_in};

use crate::marks::fluents;
use crate::world::World;
use std::alloc::Global;
use stp_base::Memory;
use stp_instance::{Members, Values};
use stp_schema::{Fact, Problem};
use stp_tables::AtomTable;

/// The atoms that are true at first, in order, each once.
fn numbered_facts(alloc: Global, given: &[Fact<'_>]) -> Result<AtomTable, Memory>
    ensures { IfOk result (λ r. r ≡ with_atoms [] (map atom_of_fact (map fact_of given.now))) }
{
    let mut table = AtomTable::new(alloc);
    for fact in given {
        table.number(fact.predicate, fact.args)?;
    }
    Ok(table)
}

/// A table of the atoms that are true at first.
fn facts(alloc: Global, given: &[Fact<'_>]) -> Result<AtomTable, Memory>
    ensures { IfOk result (λ r. is_in r ≡ is_known (map fact_of given.now)) }
{
    let table = numbered_facts(alloc, given)?;
    Ok(table)
}

/// The objects of each type.
fn members<'a>(alloc: Global, problem: &'a Problem<'a>) -> Result<Members<'a>, Memory>
    ensures { IfOk result (λ r. r ≡ typing_of (problem_of problem.now)) }
{
    let _ = problem.object_names.len();
    let members = Members::new(alloc, &problem.domain.declared, problem.objects)?;
    Ok(members)
}

impl<'a> World<'a> {
    /// The tables of a problem.
    pub fn new(alloc: Global, problem: &'a Problem<'a>) -> Result<World<'a>, Memory>
        ensures { IfOk result (λ r. problem_in r ≡ problem_of problem.now) }
    {
        let fluent = fluents(alloc, problem)?;
        let facts = facts(alloc, problem.initial)?;
        let values = Values::new(alloc, problem.values)?;
        let members = members(alloc, problem)?;
        Ok(World {
            problem,
            fluent,
            facts,
            values,
            members,
        })
    }
}
