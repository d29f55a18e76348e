//! Conditions, domains and problems written in short: names as they are, all else by its number.

use stp_base::{Memory, Text};
use stp_schema::{
    Domain, Expr, Fact, Given, Lifted, LiftedAtom, ObjectRow, Problem, Schema, Symbol, Term,
    TimedFact, TimedLiteral, Timing, TypeRow,
};

/// Appends a number of one digit.
fn push_digit(out: &mut Text, number: u32) -> Result<(), Memory> {
    out.push(&[b'0' + (number % 10) as u8])
}

/// Appends numbers of one digit.
fn push_digits(out: &mut Text, numbers: &[u32]) -> Result<(), Memory> {
    for number in numbers {
        push_digit(out, *number)?;
    }
    Ok(())
}

/// Appends a term: `v` and the number of a variable, or `o` and that of an object.
fn push_term(out: &mut Text, term: Term) -> Result<(), Memory> {
    match term {
        Term::Variable(number) => {
            out.push(b" v")?;
            push_digit(out, number)
        }
        Term::Object(object) => {
            out.push(b" o")?;
            push_digit(out, object.0)
        }
    }
}

/// Appends an atom.
fn push_atom(out: &mut Text, atom: &LiftedAtom<'_>) -> Result<(), Memory> {
    out.push(b"(")?;
    push_digit(out, atom.symbol)?;
    for term in atom.terms {
        push_term(out, *term)?;
    }
    out.push(b")")
}

/// Appends several conditions.
#[cycle(push)]
fn push_all(out: &mut Text, word: &[u8], members: &[Lifted<'_>]) -> Result<(), Memory> {
    out.push(word)?;
    for member in members {
        push_condition(out, member)?;
    }
    out.push(b")")
}

/// Appends a quantifier with the types of its variables.
#[cycle(push)]
fn push_quantified(
    out: &mut Text,
    word: &[u8],
    kinds: &[u32],
    body: &Lifted<'_>,
) -> Result<(), Memory> {
    out.push(word)?;
    push_digits(out, kinds)?;
    push_condition(out, body)?;
    out.push(b")")
}

/// Appends a condition.
#[cycle(push)]
pub fn push_condition(out: &mut Text, condition: &Lifted<'_>) -> Result<(), Memory> {
    match condition {
        Lifted::Atom(atom) => push_atom(out, atom),
        Lifted::Same(one, other) => {
            out.push(b"(=")?;
            push_term(out, *one)?;
            push_term(out, *other)?;
            out.push(b")")
        }
        Lifted::Not(inner) => {
            out.push(b"(not")?;
            push_condition(out, inner)?;
            out.push(b")")
        }
        Lifted::And(members) => push_all(out, b"(and", members),
        Lifted::Or(members) => push_all(out, b"(or", members),
        Lifted::Every(kinds, body) => push_quantified(out, b"(every ", kinds, body),
        Lifted::Any(kinds, body) => push_quantified(out, b"(any ", kinds, body),
    }
}

/// Appends an expression.
fn push_expression(out: &mut Text, expression: &Expr<'_>) -> Result<(), Memory> {
    match expression {
        Expr::Number(number) => {
            out.push(b" ")?;
            number.print(out)
        }
        Expr::Value(atom) => push_atom(out, atom),
        Expr::Plus(one, other) => {
            out.push(b"(+")?;
            push_expression(out, one)?;
            push_expression(out, other)?;
            out.push(b")")
        }
        Expr::Minus(one, other) => {
            out.push(b"(-")?;
            push_expression(out, one)?;
            push_expression(out, other)?;
            out.push(b")")
        }
        Expr::Times(one, other) => {
            out.push(b"(*")?;
            push_expression(out, one)?;
            push_expression(out, other)?;
            out.push(b")")
        }
        Expr::Over(one, other) => {
            out.push(b"(/")?;
            push_expression(out, one)?;
            push_expression(out, other)?;
            out.push(b")")
        }
    }
}

/// Appends how long an action lasts.
fn push_timing(out: &mut Text, timing: &Timing<'_>) -> Result<(), Memory> {
    match timing {
        Timing::Instant => out.push(b" instant"),
        Timing::Controlled(low, high) => {
            out.push(b" controlled")?;
            push_expression(out, low)?;
            push_expression(out, high)
        }
        Timing::Uncertain(low, high) => {
            out.push(b" uncertain")?;
            push_expression(out, low)?;
            push_expression(out, high)
        }
    }
}

/// Appends atoms behind a sign.
fn push_atoms(out: &mut Text, sign: &[u8], atoms: &[LiftedAtom<'_>]) -> Result<(), Memory> {
    out.push(sign)?;
    for atom in atoms {
        push_atom(out, atom)?;
    }
    Ok(())
}

/// Appends what an action needs and does.
fn push_body(out: &mut Text, schema: &Schema<'_>) -> Result<(), Memory> {
    push_condition(out, schema.start_cond)?;
    push_condition(out, schema.over_all)?;
    push_condition(out, schema.end_cond)?;
    push_atoms(out, b"+", schema.start_adds)?;
    push_atoms(out, b"-", schema.start_dels)?;
    push_atoms(out, b"+", schema.end_adds)?;
    push_atoms(out, b"-", schema.end_dels)
}

/// Appends a name with numbers.
fn push_named(out: &mut Text, name: &[u8], numbers: &[u32]) -> Result<(), Memory> {
    out.push(b" ")?;
    out.push(name)?;
    out.push(b":")?;
    push_digits(out, numbers)
}

/// Appends actions.
fn push_schemas(out: &mut Text, schemas: &[Schema<'_>]) -> Result<(), Memory> {
    for schema in schemas {
        push_named(out, schema.name, schema.parameters)?;
        push_timing(out, &schema.timing)?;
        push_body(out, schema)?;
    }
    Ok(())
}

/// Appends types with their parents.
fn push_types(out: &mut Text, types: &[TypeRow<'_>]) -> Result<(), Memory> {
    for row in types {
        push_named(out, row.name, &[row.parent])?;
    }
    out.push(b";")
}

/// Appends predicates or functions with the types of their parameters.
fn push_symbols(out: &mut Text, symbols: &[Symbol<'_>]) -> Result<(), Memory> {
    for symbol in symbols {
        push_named(out, symbol.name, symbol.parameters)?;
    }
    out.push(b";")
}

/// Appends objects with their types.
fn push_objects(out: &mut Text, objects: &[ObjectRow<'_>]) -> Result<(), Memory> {
    for object in objects {
        push_named(out, object.name, &[object.kind])?;
    }
    out.push(b";")
}

/// Appends a domain.
pub fn push_domain(out: &mut Text, domain: &Domain<'_>) -> Result<(), Memory> {
    out.push(domain.name)?;
    push_types(out, domain.types)?;
    push_symbols(out, domain.predicates)?;
    push_symbols(out, domain.functions)?;
    push_objects(out, domain.constants)?;
    push_schemas(out, domain.schemas)
}

/// Appends what an action's text says, without its name.
pub fn push_action(out: &mut Text, schema: &Schema<'_>) -> Result<(), Memory> {
    push_timing(out, &schema.timing)?;
    push_body(out, schema)
}

/// Appends facts.
fn push_facts(out: &mut Text, facts: &[Fact<'_>]) -> Result<(), Memory> {
    for fact in facts {
        out.push(b" ")?;
        push_digit(out, fact.predicate)?;
        for arg in fact.args {
            push_digit(out, arg.0)?;
        }
    }
    out.push(b";")
}

/// Appends values of functions.
fn push_values(out: &mut Text, values: &[Given<'_>]) -> Result<(), Memory> {
    for given in values {
        out.push(b" ")?;
        push_digit(out, given.function)?;
        for arg in given.args {
            push_digit(out, arg.0)?;
        }
        out.push(b"=")?;
        given.value.print(out)?;
    }
    out.push(b";")
}

/// Appends what an event does: each literal behind a sign.
fn push_literals(out: &mut Text, literals: &[TimedLiteral<'_>]) -> Result<(), Memory> {
    for literal in literals {
        out.push(if literal.adds { b"+" } else { b"-" })?;
        push_digit(out, literal.predicate)?;
        for arg in literal.args {
            push_digit(out, arg.0)?;
        }
    }
    Ok(())
}

/// Appends when an event comes: its time, or the least and the greatest one.
fn push_window(out: &mut Text, event: &TimedFact<'_>) -> Result<(), Memory> {
    out.push(b" ")?;
    event.low.print(out)?;
    if event.low.compare(event.high).is_eq() {
        return Ok(());
    }
    out.push(b"..")?;
    event.high.print(out)
}

/// Appends the facts and the events of a problem.
pub fn push_events(out: &mut Text, problem: &Problem<'_>) -> Result<(), Memory> {
    push_facts(out, problem.initial)?;
    for event in problem.timed {
        push_window(out, event)?;
        out.push(b":")?;
        push_literals(out, event.literals)?;
    }
    Ok(())
}

/// Appends a problem without its domain and without its events.
pub fn push_problem(out: &mut Text, problem: &Problem<'_>) -> Result<(), Memory> {
    push_objects(out, problem.objects)?;
    push_facts(out, problem.initial)?;
    push_values(out, problem.values)?;
    push_condition(out, problem.goal)
}
