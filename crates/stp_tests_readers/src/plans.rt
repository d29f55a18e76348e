//! Plans, lines and single names.

use std::alloc::Global;
use std::test::Fail;
use stp_base::limits::MAX_FILE_BYTES;
use stp_base::{List, Memory, Text};
use stp_frac::Frac;
use stp_plan::{Bracket, Named, PlanFault, Step, lines, named, print_plan, read_plan};

/// The text of the plan that a text is, or why it is none.
fn reprinted(alloc: Global, bytes: &[u8]) -> Result<Text, PlanFault> {
    if bytes.len() > MAX_FILE_BYTES {
        return Err(PlanFault::Memory);
    }
    let plan = read_plan(alloc, bytes)?;
    Ok(print_plan(alloc, &plan)?)
}

/// Whether a plan is printed so.
fn is_printed(alloc: Global, bytes: &[u8], wanted: &[u8]) -> bool {
    match reprinted(alloc, bytes) {
        Ok(text) => text.as_slice() == wanted,
        Err(_fault) => false,
    }
}

/// Whether a text is refused so.
fn is_refused(alloc: Global, bytes: &[u8], wanted: PlanFault) -> bool {
    match reprinted(alloc, bytes) {
        Ok(_text) => false,
        Err(fault) => fault == wanted,
    }
}

const PRINTED: [(&[u8], &[u8]); 15] = [
    (b"", b""),
    (b" \t\r\n;(\n\n", b""),
    (b"0: (drive r1 a b) [3,7]\n", b"0: (drive r1 a b) [3,7]\n"),
    (b"4.5: (photo r2 c) [2]", b"9/2: (photo r2 c) [2]\n"),
    (b"0: (drive r2 a c) [*]", b"0: (drive r2 a c) [*]\n"),
    (b"5: (see)", b"5: (see)\n"),
    (b"0:(a)[4]", b"0: (a) [4]\n"),
    (b" 0 :\t( A\tB-1 _ ) [ 8/2 ] \r\n", b"0: (a b-1 _) [4]\n"),
    (b"7:(9 9)[ 1/2,0.75 ]", b"7: (9 9) [1/2,3/4]\n"),
    (b"1:(a)[ * ]", b"1: (a) [*]\n"),
    (b"5: (SEE) ; [3] \xff\n", b"5: (see)\n"),
    (b"2:(b);\n;x\r\n\r\n1:(a)", b"2: (b)\n1: (a)\n"),
    (b"000000007:(a)[0,0]", b"7: (a) [0,0]\n"),
    (b"0/5:(a)[999999999]", b"0: (a) [999999999]\n"),
    (b"0.000000001:(a)", b"1/1000000000: (a)\n"),
];

const REFUSED: [(&[u8], u32); 31] = [
    (b"x", 1),
    (b"1(a)", 1),
    (b"\n;\n1:(a)\n-", 4),
    (b"1:(a)\r\n2:(b)\r\n3:(c", 3),
    (b"1:(a)\nx\ny", 2),
    (b"0: (see) [3, 5]", 1),
    (b"0: (see) [3 ,5]", 1),
    (b"0: (see) [3,]", 1),
    (b"0: (see) [,5]", 1),
    (b"0: (see) [,]", 1),
    (b"0: (see) [3,4,5]", 1),
    (b"0: (see) [*,5]", 1),
    (b"0: (see) [**]", 1),
    (b"0: (see) []", 1),
    (b"0: (see) [4", 1),
    (b"0: (see) 4]", 1),
    (b"0: (see) [4] [4]", 1),
    (b"0: (see) [-4]", 1),
    (b"0: (see) x", 1),
    (b": (see)", 1),
    (b"-0: (see)", 1),
    (b"1/0: (see)", 1),
    (b"1234567890: (see)", 1),
    (b"1.: (see)", 1),
    (b"1 (see)", 1),
    (b"1 2: (see)", 1),
    (b"1: ()", 1),
    (b"1: (-a)", 1),
    (b"1: (a ?b)", 1),
    (b"1: (a (b))", 1),
    (b"1: (a) 2: (b)", 1),
];

#[test]
fn plans_are_printed_or_refused(rt: HostRuntime) {
    for (bytes, wanted) in PRINTED.iter() {
        assert!(rt; is_printed(rt.alloc(), bytes, wanted), "{bytes:?}");
    }
    for (bytes, line) in REFUSED.iter() {
        assert!(rt;
            is_refused(rt.alloc(), bytes, PlanFault::BadLine(*line)),
            "{bytes:?}"
        );
    }
}

/// A text, and 500 times another before it.
fn behind_500(alloc: Global, line: &[u8], last: &[u8]) -> Result<Text, Memory> {
    let mut text = Text::new(alloc);
    for _ in 0..500 {
        text.push(line)?;
    }
    text.push(last)?;
    Ok(text)
}

/// Whether 500 steps are printed again.
fn most_are_printed(alloc: Global) -> Result<bool, Memory> {
    let most = behind_500(alloc, b"1:(see)\n;\n", b"")?;
    let printed = behind_500(alloc, b"1: (see)\n", b"")?;
    Ok(is_printed(alloc, most.as_slice(), printed.as_slice()))
}

/// Whether 500 steps with this behind them are refused so.
fn is_refused_behind(alloc: Global, last: &[u8], wanted: PlanFault) -> bool {
    match behind_500(alloc, b"1:(see)\n;\n", last) {
        Ok(text) => is_refused(alloc, text.as_slice(), wanted),
        Err(_memory) => false,
    }
}

#[test]
fn steps_are_counted(rt: HostRuntime) -> Result<(), Fail> {
    let alloc = rt.alloc();
    assert!(rt; most_are_printed(alloc)?);
    assert!(rt; is_refused_behind(alloc, b"\n1:(see)\n1:(see)", PlanFault::TooManySteps(1002)));
    assert!(rt; is_refused_behind(alloc, b"\n1:(see)\n1:(see)\nx", PlanFault::BadLine(1004)));
    Ok(())
}

/// The number that a text spells.
fn number(text: &str) -> Option<Frac> {
    Frac::read(text.as_bytes()).ok()
}

/// Whether a name is this, with this one argument.
fn is_named(name: &Text, args: &List<Text>, wanted: &[u8], other: &[u8]) -> bool {
    let [arg] = args.as_slice() else {
        return false;
    };
    name.as_slice() == wanted && arg.as_slice() == other
}

/// Whether a step is `3/2: (go left) [1,2]`.
fn is_expected(step: &Step) -> bool {
    let Bracket::Pair(low, high) = step.bracket else {
        return false;
    };
    is_named(&step.name, &step.args, b"go", b"left")
        && number("1.5") == Some(step.at)
        && number("1") == Some(low)
        && number("2") == Some(high)
}

#[test]
fn parts_of_a_step(rt: HostRuntime) -> Result<(), Fail> {
    let plan = read_plan(rt.alloc(), b"3/2: (Go Left) [1,2]")?;
    let steps = plan.steps.as_slice();
    assert!(rt; steps.len() == 1 && is_expected(&steps[0]));
    Ok(())
}

/// Whether the lines of a text have these ends.
fn has_lines(alloc: Global, bytes: &[u8], wanted: &[(u32, u32)]) -> bool {
    if bytes.len() > MAX_FILE_BYTES {
        return false;
    }
    let Ok(found) = lines(alloc, bytes) else {
        return false;
    };
    let found = found.as_slice();
    if found.len() != wanted.len() {
        return false;
    }
    for (line, row) in found.iter().zip(wanted.iter()) {
        if (line.from, line.to) != *row {
            return false;
        }
    }
    true
}

const LINES: [(&[u8], &[(u32, u32)]); 7] = [
    (b"", &[]),
    (b"\n", &[(0, 0)]),
    (b"a", &[(0, 1)]),
    (b"a\n", &[(0, 1)]),
    (b"a\n\n", &[(0, 1), (2, 2)]),
    (b" a b \r\n\t;c\n;", &[(1, 4), (8, 8), (11, 11)]),
    (b"ab;c\n d", &[(0, 2), (6, 7)]),
];

#[test]
fn lines_have_ends(rt: HostRuntime) {
    for (bytes, wanted) in LINES.iter() {
        assert!(rt; has_lines(rt.alloc(), bytes, wanted), "{bytes:?}");
    }
}

/// Whether a text is no name with arguments.
fn is_no_name(alloc: Global, text: &str) -> bool {
    match named(alloc, text.as_bytes()) {
        Ok(found) => found.is_none(),
        Err(_memory) => false,
    }
}

/// Whether a name with arguments is `(at r1 p-2)`.
fn is_at(found: &Option<Named>) -> bool {
    let Some(found) = found else {
        return false;
    };
    let [one, other] = found.args.as_slice() else {
        return false;
    };
    found.name.as_slice() == b"at".as_slice()
        && one.as_slice() == b"r1".as_slice()
        && other.as_slice() == b"p-2".as_slice()
}

const NO_NAMES: [&str; 11] = [
    "",
    "a",
    "()",
    "(a",
    "a)",
    "(a) b",
    "(a b) (c)",
    "(a (b))",
    "(a:b)",
    "(-a)",
    "((a))",
];

#[test]
fn single_names(rt: HostRuntime) -> Result<(), Fail> {
    for text in NO_NAMES.iter() {
        assert!(rt; is_no_name(rt.alloc(), text), "{text}");
    }
    let found = named(rt.alloc(), b" ( At\tR1 p-2\r) ")?;
    assert!(rt; is_at(&found));
    Ok(())
}
