//! The text where a goal cannot be reached.

ghost use Rattle.std.specs.Prelude.{◌≡◌, ◌++◌, map, OnOk, slice_get};
ghost use Rattle.stp_cond.specs.Views.{atoms_of};
ghost use Rattle.stp_schema.specs.Rows.{shape_of, thing_of};
ghost use Rattle.stp_schema.specs.Views.{problem_of};
ghost use Rattle.stp_tables.specs.Atoms.{atom_with, numbers_of};
ghost use Rattle.stp_report.specs.NoPlan.{args_text, atom_lines, atom_text, numbered_text, shape_name, thing_name, unreachable_text};

use crate::pieces::push_words;
use stp_base::{AtomId, Memory, ObjectId, Text};
use stp_schema::{ObjectRow, Problem, Symbol};
use stp_tables::AtomTable;
use stp_task::{Certificate, Task};

/// Appends the name of a predicate, if there is one of this number.
fn push_predicate(predicates: &[Symbol<'_>], number: u32, out: &mut Text) -> Result<(), Memory>
    ensures { OnOk result (out.new ≡ out.old ++ shape_name (slice_get (map shape_of predicates.now) number)) }
{
    let Some(symbol) = predicates.get(number as usize) else {
        return Ok(());
    };
    out.push(symbol.name)
}

/// Appends the name of an object, if there is one of this number.
fn push_object(objects: &[ObjectRow<'_>], object: ObjectId, out: &mut Text) -> Result<(), Memory>
    ensures { OnOk result (out.new ≡ out.old ++ thing_name (slice_get (map thing_of objects.now) object.0)) }
{
    let Some(row) = objects.get(object.0 as usize) else {
        return Ok(());
    };
    out.push(row.name)
}

/// Appends the names of objects, each behind a space.
fn push_args(objects: &[ObjectRow<'_>], args: &[ObjectId], out: &mut Text) -> Result<(), Memory>
    ensures { OnOk result (out.new ≡ out.old ++ args_text (map thing_of objects.now) (numbers_of args.now)) }
{
    for arg in args {
        push_words(" ", out)?;
        push_object(objects, *arg, out)?;
    }
    Ok(())
}

/// Appends an atom.
fn push_atom(
    problem: &Problem<'_>,
    predicate: u32,
    args: &[ObjectId],
    out: &mut Text,
) -> Result<(), Memory>
    ensures { OnOk result (out.new ≡ out.old ++ atom_text (problem_of problem.now) (atom_with predicate args.now)) }
{
    push_words("(", out)?;
    push_predicate(problem.domain.predicates, predicate, out)?;
    push_args(problem.objects, args, out)?;
    push_words(")", out)
}

/// Appends the atom of a number, if there is one.
fn push_numbered(
    problem: &Problem<'_>,
    atoms: &AtomTable,
    atom: AtomId,
    out: &mut Text,
) -> Result<(), Memory>
    ensures { OnOk result (out.new ≡ out.old ++ numbered_text (problem_of problem.now) (slice_get atoms.now atom.0)) }
{
    if atom.0 >= atoms.len() {
        return Ok(());
    }
    let (predicate, args) = atoms.get(atom);
    push_atom(problem, predicate, args, out)
}

/// Appends a line for each of these atoms, behind a word.
fn push_atoms(
    problem: &Problem<'_>,
    atoms: &AtomTable,
    word: &str,
    those: &[AtomId],
    out: &mut Text,
) -> Result<(), Memory>
    ensures { OnOk result
        (out.new ≡ out.old ++ atom_lines (problem_of problem.now) atoms.now word.now (atoms_of those.now)) }
{
    for atom in those {
        push_words(word, out)?;
        push_numbered(problem, atoms, *atom, out)?;
        push_words("\n", out)?;
    }
    Ok(())
}

/// Appends that a goal cannot be reached, with the certificate.
pub fn push_unreachable(
    problem: &Problem<'_>,
    task: &Task<'_>,
    certificate: &Certificate,
    out: &mut Text,
) -> Result<(), Memory>
    ensures { OnOk result
        (out.new
        ≡ out.old
        ++ unreachable_text
        (problem_of problem.now)
        task.now.atoms
        (atoms_of certificate.now.may)
        (atoms_of certificate.now.always)) }
{
    push_words("no plan: unreachable\n", out)?;
    push_atoms(
        problem,
        &task.atoms,
        "may ",
        certificate.may.as_slice(),
        out,
    )?;
    push_atoms(
        problem,
        &task.atoms,
        "always ",
        certificate.always.as_slice(),
        out,
    )
}
