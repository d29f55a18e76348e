//! Problems with tables for looking things up.

ghost use Rattle.std.specs.Prelude.{◌≡◌, map};
ghost use Rattle.stp_schema.specs.Views.{given_of, problem_of};
ghost use Rattle.stp_instance.specs.Numbered.{is_fluent, is_in};
ghost use Rattle.stp_ground.specs.Problems.{is_fact, is_written};
ghost use Rattle.stp_ground.specs.Typing.{typing_of};

use stp_instance::{Members, Values};
use stp_schema::Problem;
use stp_tables::AtomTable;

/// A problem with its tables: which predicates are fluent, which atoms are true at first, the values of functions, and
/// the objects of each type.
#[derive(Drop)]
pub struct World<'a> {
    pub problem: &'a Problem<'a>,
    pub fluent: Vec<bool>,
    pub facts: AtomTable,
    pub values: Values<'a>,
    pub members: Members<'a>,
    pub ghost marked: { is_fluent fluent.items ≡ is_written (problem_of problem.now) },
    pub ghost known: { is_in facts ≡ is_fact (problem_of problem.now) },
    pub ghost valued: { values ≡ map given_of problem.now.values.now },
    pub ghost typed: { members ≡ typing_of (problem_of problem.now) },
}
