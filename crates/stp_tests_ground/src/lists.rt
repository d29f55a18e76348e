//! Lists of durations.

use std::alloc::Global;
use stp_exec::{ListFault, read_durations};
use stp_frac::Frac;

/// The number that a text spells.
fn number(text: &str) -> Option<Frac> {
    Frac::read(text.as_bytes()).ok()
}

/// Whether a text lists the durations that these texts spell.
fn is_list(alloc: Global, text: &str, wanted: &[&str]) -> bool {
    let Ok(durations) = read_durations(alloc, text.as_bytes()) else {
        return false;
    };
    let durations = durations.as_slice();
    if durations.len() != wanted.len() {
        return false;
    }
    for (duration, text) in durations.iter().zip(wanted.iter()) {
        if number(text) != Some(*duration) {
            return false;
        }
    }
    true
}

/// Whether a text is no list.
fn is_no_list(alloc: Global, text: &str) -> bool {
    match read_durations(alloc, text.as_bytes()) {
        Ok(_durations) => false,
        Err(fault) => fault == ListFault::BadList,
    }
}

const LISTS: [(&str, &[&str]); 4] = [
    ("none", &[]),
    ("4", &["4"]),
    ("5/2,4", &["5/2", "4"]),
    ("4.50,0,8/2", &["9/2", "0", "4"]),
];

const NO_LISTS: [&str; 10] = [
    "",
    "None",
    "4,,4",
    "4,",
    ",4",
    "-4",
    "4, 4",
    "1/0",
    "1234567890",
    "4,none",
];

#[test]
fn lists(rt: HostRuntime) {
    for (text, wanted) in LISTS.iter() {
        assert!(rt; is_list(rt.alloc(), text, wanted), "{text}");
    }
    for text in NO_LISTS.iter() {
        assert!(rt; is_no_list(rt.alloc(), text), "{text}");
    }
}
