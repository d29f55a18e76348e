//! The codes of refusals.

ghost use Rattle.std.specs.Prelude.{◌≡◌};
ghost use Rattle.stp_refusal.specs.Codes.{rank_of};

/// The name of a refusal. Of two codes at one place the one that stands earlier here is given.
#[derive(Clone, Copy, Debug, PartialEq, Eq)]
pub enum Code {
    /// A file that is too long.
    F01,
    /// A byte that is no text.
    T01,
    /// A `)` too many.
    T02,
    /// Lists nested too deeply.
    T03,
    /// A list that is not closed.
    T04,
    /// A word that is too long.
    T05,
    /// Not exactly one list.
    T06,
    /// A file that is no domain.
    D01,
    /// An unknown section.
    D02,
    /// A section that is not supported.
    D03,
    /// A repeated section.
    D04,
    /// A malformed action.
    D05,
    /// A durative action without exactly one duration.
    D06,
    /// A declared word that is no name, or a parameter that is no variable.
    D07,
    /// A name that is declared twice.
    D08,
    /// A reserved name.
    D09,
    /// A malformed typed list.
    D10,
    /// A type that begins with `either`.
    D11,
    /// Too many parameters.
    D12,
    /// A type that is not declared.
    D13,
    /// A type that is an ancestor of itself.
    D14,
    /// A function that does not give a number.
    D15,
    /// A malformed condition.
    D16,
    /// A predicate or function that is not declared.
    D17,
    /// A wrong number of terms.
    D18,
    /// A term that is no variable in scope and no object.
    D19,
    /// A term of a wrong type.
    D20,
    /// A condition that is not supported.
    D21,
    /// A malformed effect.
    D22,
    /// An effect that is not supported.
    D23,
    /// A malformed duration.
    D24,
    /// A file that is no problem.
    P01,
    /// A problem of no domain, or of another one.
    P02,
    /// An unknown section of a problem.
    P03,
    /// A repeated section of a problem.
    P04,
    /// A problem without exactly one goal.
    P05,
    /// Malformed objects.
    P06,
    /// An object that is declared twice.
    P07,
    /// A malformed initial fact.
    P08,
    /// A predicate, function or object that is not declared.
    P09,
    /// Wrong arguments.
    P10,
    /// A function with two values.
    P11,
    /// A malformed timed literal.
    P12,
    /// A goal that is too large.
    P13,
    /// A schema whose conditions are too large.
    P14,
    /// Too many moments of timed literals.
    P15,
    /// A malformed uncontrollable event.
    P16,
    /// Too many uncontrollable events.
    P17,
    /// A line of a plan that is no step.
    L01,
    /// Too many steps.
    L02,
    /// A step of no action.
    X01,
    /// A wrong number of arguments of a step.
    X02,
    /// An argument that is no object.
    X03,
    /// An argument of a wrong type.
    X04,
    /// A step without a lawful duration.
    X05,
    /// A step whose duration is missing.
    X06,
    /// A duration that may not be given.
    X07,
    /// A duration outside of its interval.
    X08,
    /// An interval that is not the action's.
    X09,
    /// A plan whose grid is too fine.
    X10,
    /// A step that ends too late.
    X11,
    /// A malformed list of durations.
    V01,
    /// A wrong number of durations.
    V02,
    /// A chosen duration outside of its interval.
    V03,
    /// Durations whose grid is too fine.
    V04,
    /// Too many bindings.
    G01,
    /// Too many actions.
    G02,
    /// Too many atoms.
    G03,
    /// Too many nodes of conditions.
    G04,
    /// An action that lasts too long.
    G05,
    /// Durations whose common grid is too fine.
    G06,
    /// An uncontrollable event where a plan is wanted.
    G07,
    /// Too many footprints at one formula.
    R01,
    /// Expanded conditions that are too large.
    R02,
    /// Too many requirements of locks.
    R03,
    /// A file that is not among those that this version judges.
    N00,
}

/// The place of a code among all codes.
pub fn rank(code: Code) -> u8
    ensures { result ≡ rank_of code }
{
    code as u8
}
