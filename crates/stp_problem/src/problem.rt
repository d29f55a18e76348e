//! Problems.

ghost use Rattle.std.specs.Prelude.{◌≡◌, ℕ, [], Ok, Err, IfOk};
ghost use Rattle.stp_text.specs.Tree.{view};
ghost use Rattle.stp_refusal.specs.declared.code.Code.{Code as TheCode};
ghost use Rattle.stp_refusal.specs.Read.{IsRead};
ghost use Rattle.stp_schema.specs.Formula.{formula};
ghost use Rattle.stp_schema.specs.Known.{known};
ghost use Rattle.stp_schema.specs.Views.{domain_of, problem_of};
ghost use Rattle.stp_condition.specs.Conditions.{condition_read};
ghost use Rattle.stp_problem.specs.Reading.{problem_or_refusal};

use crate::sizing::judge_sizes;
use crate::{read_events, read_facts, read_objects, read_timed};
use bumpalo::Bump;
use std::alloc::Global;
use stp_base::Memory;
use stp_condition::{Scope, read_condition_in};
use stp_domain_parts::problem_parts;
use stp_refusal::{Offence, ReadFault, end_phase};
use stp_schema::{Declared, Domain, Lifted, Objects, Problem};
use stp_text::Sexpr;

/// The condition of a goal, in which no variable is known.
fn read_goal<'a>(
    alloc: Global,
    arena: &'a Bump,
    declared: &Declared<'_>,
    objects: &Objects<'_>,
    goal: Sexpr<'a>,
    first: &mut Option<Offence>,
) -> Result<&'a Lifted<'a>, Memory>
    ensures { IfOk result
        (λ r. IsRead first.old first.new (formula r.now) (condition_read (known declared.now objects.now.rows.now) (view goal.entry) [])) }
{
    let tree = arena.try_alloc(goal)?;
    let mut scope = Scope::new(alloc);
    let goal = read_condition_in(alloc, arena, declared, objects, &mut scope, tree, first)?;
    let goal = arena.try_alloc(goal)?;
    Ok(goal)
}

/// The problem of a tree, for this domain, or its one refusal: of the earliest phase with an offence, the one of the
/// least place, and there the one of the least code. The phases are sections; objects; facts, values and events; the goal;
/// its size; the sizes of the actions, whose places are their numbers; the times of timed literals; the other events.
pub fn read_problem<'a>(
    alloc: Global,
    arena: &'a Bump,
    domain: Domain<'a>,
    tree: &'a Sexpr<'a>,
) -> Result<Problem<'a>, ReadFault>
    ensures ok { IfOk result (λ p. problem_or_refusal (domain_of domain.entry) (view tree.now) ≡ Ok (problem_of p)) }
    ensures refused { (code : TheCode) (at : ℕ) → result ≡ Err (ReadFault.Refused code at)
        → problem_or_refusal (domain_of domain.entry) (view tree.now) ≡ Err (ReadFault.Refused code at) }
{
    let declared = &domain.declared;
    let mut in_parts = None;
    let parts = problem_parts(domain.name, tree, &mut in_parts);
    end_phase(in_parts)?;
    let mut in_objects = None;
    let objects = read_objects(
        alloc,
        arena,
        &declared.type_names,
        domain.constants,
        parts.objects,
        &mut in_objects,
    )?;
    end_phase(in_objects)?;
    let mut in_facts = None;
    let facts = read_facts(alloc, arena, declared, &objects, parts.init, &mut in_facts)?;
    let items = read_timed(alloc, arena, declared, &objects, parts.init, &mut in_facts)?;
    end_phase(in_facts)?;
    let mut in_goal = None;
    let goal = read_goal(alloc, arena, declared, &objects, parts.goal, &mut in_goal)?;
    end_phase(in_goal)?;
    judge_sizes(alloc, &domain, &objects, parts.goal_at, goal)?;
    let timed = read_events(alloc, arena, items.as_slice())?;
    Ok(Problem {
        domain,
        objects: objects.rows,
        initial: facts.initial,
        values: facts.values,
        timed,
        goal,
        object_names: objects.names,
    })
}
