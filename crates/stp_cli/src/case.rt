//! The case that three files make.

ghost use Rattle.std.specs.Prelude.{◌≡◌, ◌≢◌, ◌≤◌, length, IfOk, IfErr, Ok, Err};
ghost use Rattle.stp_base.specs.declared.limits.TheConstants.{MAX_FILE_BYTES};
ghost use Rattle.stp_text.specs.Tree.{view, nodes};
ghost use Rattle.stp_text.specs.Reading.{tree_of};
ghost use Rattle.stp_schema.specs.Views.{domain_of, problem_of};
ghost use Rattle.stp_domain.specs.Reading.{domain_or_refusal};
ghost use Rattle.stp_problem.specs.Reading.{problem_or_refusal};
ghost use Rattle.stp_plan.specs.Laws.{IsAbove, IsLawfulPlan};
ghost use Rattle.stp_plan.specs.Plans.{plan_of};
ghost use Rattle.stp_plan.specs.Views.{plain_plan};
ghost use Rattle.stp_cli.specs.Refusals.{or_fault, text_fault, read_fault, plan_fault};
ghost use Rattle.stp_cli.specs.Case.{problem_of_texts, steps_of};
ghost use Rattle.stp_cli.specs.Cases.{IsReadAs};

use crate::refusal::{CaseFault, exec_refused, plan_refused, read_refused, text_refused};
use bumpalo::Bump;
use std::alloc::Global;
use stp_domain::read_domain;
use stp_exec::{BoxedPlan, box_placed, place};
use stp_ground::World;
use stp_plan::{Plan, read_plan};
use stp_problem::read_problem;
use stp_report::FileName;
use stp_schema::{Domain, Problem};
use stp_text::{Sexpr, tree};

/// The tree of a file's bytes.
fn read_tree<'a>(
    alloc: Global,
    arena: &'a Bump,
    file: FileName,
    bytes: &[u8],
) -> Result<&'a Sexpr<'a>, CaseFault>
    requires { length bytes.now ≤ MAX_FILE_BYTES }
    ensures ok { IfOk result (λ t. or_fault (text_fault file) (tree_of bytes.now) ≡ Ok (view t.now)) }
    ensures refused { IfErr result (λ fault. fault ≢ CaseFault.Memory → or_fault (text_fault file) (tree_of bytes.now) ≡ Err fault) }
{
    let tree = match tree(alloc, arena, bytes) {
        Ok(tree) => tree,
        Err(fault) => return Err(text_refused(file, fault)),
    };
    match arena.try_alloc(tree) {
        Ok(tree) => Ok(tree),
        Err(_) => Err(CaseFault::Memory),
    }
}

/// The domain of a tree.
fn whole_domain<'a>(
    alloc: Global,
    arena: &'a Bump,
    tree: &'a Sexpr<'a>,
) -> Result<Domain<'a>, CaseFault>
    ensures ok { IfOk result (λ d. or_fault (read_fault FileName.Domain) (domain_or_refusal (view tree.now)) ≡ Ok (domain_of d)) }
    ensures refused { IfErr result (λ fault. fault ≢ CaseFault.Memory → or_fault (read_fault FileName.Domain) (domain_or_refusal (view tree.now)) ≡ Err fault) }
{
    match read_domain(alloc, arena, tree) {
        Ok(domain) => Ok(domain),
        Err(fault) => Err(read_refused(FileName::Domain, fault)),
    }
}

/// The problem of a tree, for a domain.
fn whole_problem<'a>(
    alloc: Global,
    arena: &'a Bump,
    domain: Domain<'a>,
    tree: &'a Sexpr<'a>,
) -> Result<Problem<'a>, CaseFault>
    ensures ok { IfOk result (λ p. or_fault (read_fault FileName.Problem) (problem_or_refusal (domain_of domain.entry) (view tree.now)) ≡ Ok (problem_of p)) }
    ensures refused { IfErr result (λ fault. fault ≢ CaseFault.Memory → or_fault (read_fault FileName.Problem) (problem_or_refusal (domain_of domain.entry) (view tree.now)) ≡ Err fault) }
{
    match read_problem(alloc, arena, domain, tree) {
        Ok(problem) => Ok(problem),
        Err(fault) => Err(read_refused(FileName::Problem, fault)),
    }
}

/// The problem of a domain's and a problem's bytes.
pub fn read_problem_texts<'a>(
    alloc: Global,
    arena: &'a Bump,
    domain: &[u8],
    problem: &[u8],
) -> Result<Problem<'a>, CaseFault>
    requires domain { length domain.now ≤ MAX_FILE_BYTES }
    requires problem { length problem.now ≤ MAX_FILE_BYTES }
    ensures ok { IfOk result (λ p. problem_of_texts domain.now problem.now ≡ Ok (problem_of p)) }
    ensures refused { IfErr result (λ fault. fault ≢ CaseFault.Memory → problem_of_texts domain.now problem.now ≡ Err fault) }
{
    let domain_tree = match read_tree(alloc, arena, FileName::Domain, domain) {
        Ok(tree) => tree,
        Err(fault) => return Err(fault),
    };
    let world = match whole_domain(alloc, arena, domain_tree) {
        Ok(world) => world,
        Err(fault) => return Err(fault),
    };
    let problem_tree = match read_tree(alloc, arena, FileName::Problem, problem) {
        Ok(tree) => tree,
        Err(fault) => return Err(fault),
    };
    whole_problem(alloc, arena, world, problem_tree)
}

/// The plan of a file's bytes.
fn read_lines(alloc: Global, bytes: &[u8]) -> Result<Plan, CaseFault>
    requires { length bytes.now ≤ MAX_FILE_BYTES }
    ensures ok { IfOk result (λ plan. or_fault plan_fault (plan_of bytes.now) ≡ Ok (plain_plan plan)) }
    ensures lawful { IfOk result (λ plan. IsLawfulPlan IsAbove (plain_plan plan)) }
    ensures refused { IfErr result (λ fault. fault ≢ CaseFault.Memory → or_fault plan_fault (plan_of bytes.now) ≡ Err fault) }
{
    match read_plan(alloc, bytes) {
        Ok(plan) => Ok(plan),
        Err(fault) => Err(plan_refused(fault)),
    }
}

/// The box of a plan's bytes in a problem, and its times.
pub fn read_steps<'a>(
    alloc: Global,
    arena: &'a Bump,
    problem: &'a Problem<'a>,
    plan: &[u8],
) -> Result<BoxedPlan<'a>, CaseFault>
    requires { length plan.now ≤ MAX_FILE_BYTES }
    ensures ok { IfOk result (λ c. IsReadAs c (problem_of problem.now) (steps_of (problem_of problem.now) plan.now)) }
    ensures refused { IfErr result (λ fault. fault ≢ CaseFault.Memory → steps_of (problem_of problem.now) plan.now ≡ Err fault) }
{
    let lines = match read_lines(alloc, plan) {
        Ok(lines) => lines,
        Err(fault) => return Err(fault),
    };
    let mut world = World::new(alloc, problem)?;
    let placed = match place(alloc, arena, &mut world, &lines) {
        Ok(placed) => placed,
        Err(fault) => return Err(exec_refused(fault)),
    };
    match box_placed(alloc, arena, &mut world, placed.as_slice()) {
        Ok(made) => Ok(made),
        Err(fault) => Err(exec_refused(fault)),
    }
}
