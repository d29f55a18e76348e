//! Command lines.

ghost use Rattle.std.specs.Prelude.{◌≡◌, map, length, string_bytes, option_map, IfSome};
ghost use Rattle.std.specs.List.{list_all};
ghost use Rattle.stp_cli.specs.Words.{is_file_word, roles_of, command_with, replay_in, replay_with, plan_in, plan_with, number_in, demo_of, demo_with, IsSized, row_of, command_of};
ghost use Rattle.stp_cli.specs.Named.{plain_command};

use crate::numbers::number_in;
use stp_report::FileName;

/// What is to be done.
#[derive(Clone, Copy, Debug, PartialEq, Eq)]
pub enum Work {
    /// A verdict on a plan.
    Check,
    /// The run of a plan under the durations that a text lists.
    Replay,
    /// A plan that is found without a search.
    Plan,
    /// Verdicts on the demo of so many rovers.
    Demo(u32),
}

/// What words ask for.
#[derive(Clone, Copy)]
pub struct Command<'a> {
    pub work: Work,
    /// The names of the files that the work wants, in the order of [`roles_of`].
    pub names: &'a [String],
    /// The durations that are listed, empty where the work wants none.
    pub list: &'a str,
}

/// The files of a case.
static CASE: [FileName; 3] = [FileName::Domain, FileName::Problem, FileName::Plan];

/// The files of a problem.
static WORLD: [FileName; 2] = [FileName::Domain, FileName::Problem];

/// Which files a work wants, in the order in which they are named and loaded.
pub fn roles_of(work: Work) -> &'static [FileName]
    ensures { result.now ≡ roles_of work }
{
    match work {
        Work::Check => &CASE,
        Work::Replay => &CASE,
        Work::Plan => &WORLD,
        Work::Demo(_) => &[],
    }
}

/// Whether a word can name a file: it is not empty and does not begin with `-`.
fn is_file_word(word: &str) -> bool
    ensures { result ≡ is_file_word word.now }
{
    match word.as_bytes() {
        [] => false,
        [first, ..] => *first != b'-',
    }
}

/// Whether each of these words can name a file.
fn are_file_words(words: &[String]) -> bool
    ensures { result ≡ list_all is_file_word (map string_bytes words.now) }
{
    for word in words {
        if !is_file_word(word.as_str()) {
            return false;
        }
    }
    true
}

/// A work on files of these names and with this list, where each file that it wants has a name.
fn command_with<'a>(work: Work, names: &'a [String], list: &'a str) -> Option<Command<'a>>
    requires { IsSized work }
    ensures command { option_map plain_command result
        ≡ command_with work (map string_bytes names.now) list.now }
    ensures complete { IfSome result (λ c. length c.names.now ≡ length (roles_of c.work)) }
    ensures sized { IfSome result (λ c. IsSized c.work) }
{
    if names.len() == roles_of(work).len() && are_file_words(names) {
        return Some(Command { work, names, list });
    }
    None
}

/// `replay` on these files with this list, where the option before it is the right one.
fn replay_in<'a>(option: &str, list: &'a str, names: &'a [String]) -> Option<Command<'a>>
    ensures command { option_map plain_command result
        ≡ replay_in option.now list.now (map string_bytes names.now) }
    ensures complete { IfSome result (λ c. length c.names.now ≡ length (roles_of c.work)) }
    ensures sized { IfSome result (λ c. IsSized c.work) }
{
    if option == "--durations" && is_file_word(list) {
        return command_with(Work::Replay, names, list);
    }
    None
}

/// `replay` on these files, where the words behind them are an option and its list.
fn replay_with<'a>(names: &'a [String], options: &'a [String]) -> Option<Command<'a>>
    ensures command { option_map plain_command result
        ≡ replay_with (map string_bytes names.now) (map string_bytes options.now) }
    ensures complete { IfSome result (λ c. length c.names.now ≡ length (roles_of c.work)) }
    ensures sized { IfSome result (λ c. IsSized c.work) }
{
    match options {
        [option, list] => replay_in(option.as_str(), list.as_str(), names),
        _ => None,
    }
}

/// `plan` on these files, where the option and its budget are the ones that there are.
fn plan_in<'a>(option: &str, budget: &str, names: &'a [String]) -> Option<Command<'a>>
    ensures command { option_map plain_command result
        ≡ plan_in option.now budget.now (map string_bytes names.now) }
    ensures complete { IfSome result (λ c. length c.names.now ≡ length (roles_of c.work)) }
    ensures sized { IfSome result (λ c. IsSized c.work) }
{
    if option == "--budget" && budget == "0" {
        return command_with(Work::Plan, names, "");
    }
    None
}

/// `plan` on these files, where the words behind them are an option and its budget.
fn plan_with<'a>(names: &'a [String], options: &'a [String]) -> Option<Command<'a>>
    ensures command { option_map plain_command result
        ≡ plan_with (map string_bytes names.now) (map string_bytes options.now) }
    ensures complete { IfSome result (λ c. length c.names.now ≡ length (roles_of c.work)) }
    ensures sized { IfSome result (λ c. IsSized c.work) }
{
    match options {
        [option, budget] => plan_in(option.as_str(), budget.as_str(), names),
        _ => None,
    }
}

/// The demo of as many rovers as a word spells.
fn demo_in<'a>(count: &str) -> Option<Command<'a>>
    ensures command { option_map plain_command result ≡ demo_of (number_in 3 1 250 count.now) }
    ensures complete { IfSome result (λ c. length c.names.now ≡ length (roles_of c.work)) }
    ensures sized { IfSome result (λ c. IsSized c.work) }
{
    match number_in(3, 1, 250, count) {
        Some(number) => command_with(Work::Demo(number), &[], ""),
        None => None,
    }
}

/// The demo of as many rovers as the one word spells.
fn demo_with<'a>(words: &'a [String]) -> Option<Command<'a>>
    ensures command { option_map plain_command result ≡ demo_with (map string_bytes words.now) }
    ensures complete { IfSome result (λ c. length c.names.now ≡ length (roles_of c.work)) }
    ensures sized { IfSome result (λ c. IsSized c.work) }
{
    match words {
        [count] => demo_in(count.as_str()),
        _ => None,
    }
}

/// The command that a word and those behind it are: a line for each command.
fn row_of<'a>(word: &str, rest: &'a [String]) -> Option<Command<'a>>
    ensures command { option_map plain_command result ≡ row_of word.now (map string_bytes rest.now) }
    ensures complete { IfSome result (λ c. length c.names.now ≡ length (roles_of c.work)) }
    ensures sized { IfSome result (λ c. IsSized c.work) }
{
    match word {
        "check" => command_with(Work::Check, rest, ""),
        "replay" => {
            let (names, options) = rest.split_at(rest.len().min(3));
            replay_with(names, options)
        }
        "plan" => {
            let (names, options) = rest.split_at(rest.len().min(2));
            plan_with(names, options)
        }
        "demo" => demo_with(rest),
        _ => None,
    }
}

/// The command that the words, with the program's name first, are.
pub fn read_words<'a>(words: &'a [String]) -> Option<Command<'a>>
    ensures command { option_map plain_command result ≡ command_of (map string_bytes words.now) }
    ensures complete { IfSome result (λ c. length c.names.now ≡ length (roles_of c.work)) }
    ensures sized { IfSome result (λ c. IsSized c.work) }
{
    match words {
        [_, word, rest @ ..] => row_of(word.as_str(), rest),
        _ => None,
    }
}
