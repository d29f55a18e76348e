//! The answers of the program.

use stp_happen::{Fault, Run};
use stp_refusal::Code;
use stp_schema::Problem;
use stp_task::{Certificate, Task};

/// What a refusal is about: a file that the command line names, its list of durations, or the task of a problem.
#[derive(Clone, Copy, Debug, PartialEq, Eq)]
pub enum FileName {
    Domain,
    Problem,
    Plan,
    Durations,
    Task,
}

/// How a plan that is not strong fails.
#[derive(Clone, Copy, Debug, PartialEq, Eq)]
pub struct Failure {
    /// The last entry of its least failure, if that has one.
    pub last: Option<u128>,
    /// The first fault of the run under its least failure.
    pub fault: Fault,
}

/// What is told of a plan of the demo.
#[derive(Clone, Copy, Debug, PartialEq, Eq)]
pub struct Summary {
    /// How many steps it has.
    pub steps: u32,
    /// How many of them are uncertain.
    pub uncertain: u32,
    /// Its base grid.
    pub grid: u128,
    /// How it fails, or nothing where it is strong.
    pub failure: Option<Failure>,
}

/// What the program answers. Moments and durations are counted on the grid beside them. A run is lent for less
/// long than the formulas that it points to.
#[derive(Clone, Copy)]
pub enum Answer<'r, 'a> {
    /// The plan has so many steps, so many of them uncertain, so many events whose moment is chosen, and this base
    /// grid, and is strong.
    Strong {
        steps: u32,
        uncertain: u32,
        events: u32,
        grid: u128,
    },
    /// The plan is not strong: under these durations and moments its run has this first fault.
    Weak {
        grid: u128,
        durations: &'r [u128],
        fault: Fault,
    },
    /// A run, and its first fault, if it has one.
    Replay {
        run: &'r Run<'a>,
        fault: Option<Fault>,
    },
    /// The plan without steps is strong.
    EmptyPlan,
    /// No plan reaches the goal, as this certificate of the problem's task shows.
    Unreachable {
        problem: &'r Problem<'a>,
        task: &'r Task<'a>,
        certificate: &'r Certificate,
    },
    /// The search's budget was spent.
    BudgetSpent,
    /// The demo of so many rovers: what is told of its plan, and of its spoiled plan.
    Demo {
        number: u32,
        plan: Summary,
        spoiled: Summary,
    },
    /// A file is refused, at a place of it.
    Refused {
        file: FileName,
        code: Code,
        at: u32,
    },
    /// A file could not be read.
    ReadFault(FileName),
    /// The words are no command.
    Usage,
}
