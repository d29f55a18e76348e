//! Laws of the answers that may come. Nothing here runs.

ghost use Rattle.stp_cli.specs.Headline.{ChecksMeetTheHeadline, StrongIsExact, ChecksAreOfTexts, ChecksHaveOneText, NoCaseIsWantOfMemory, NoListIsWantOfMemory, RefusalsAreExact, RightAnswersAreNoFaults, RightAnswersHaveOneText, SteadyNamesAreRead, PlansMeetTheHeadline, NoTaskIsWantOfMemory};

/// An answer that may come to `check` over told files of steady names is the one of the headline.
pub fn checks_meet_the_headline()
    ensures { ChecksMeetTheHeadline }
{}

/// An answer that may come to `plan` over told files of steady names is the one of its headline.
pub fn plans_meet_the_headline()
    ensures { PlansMeetTheHeadline }
{}

/// Of accepted files `check` says strong exactly where their plan is strong.
pub fn strong_is_exact()
    ensures { StrongIsExact }
{}

/// Over any store an answer that may come to `check` is the one of the headline on some texts of lawful length, or
/// says which file was not loaded.
pub fn checks_are_of_texts()
    ensures { ChecksAreOfTexts }
{}

/// Two answers that may come to `check` over told files of steady names are printed alike.
pub fn checks_have_one_text()
    ensures { ChecksHaveOneText }
{}

/// A refusal is answered over told files of steady names exactly where it is the first one.
pub fn refusals_are_exact()
    ensures { RefusalsAreExact }
{}

/// Two answers that are right on one command's texts are printed alike, to `replay` too.
pub fn right_answers_have_one_text()
    ensures { RightAnswersHaveOneText }
{}

/// Texts are refused or make a case, problems a task, and lists are refused or read: no definition answers want of memory.
pub fn nothing_wants_memory()
    ensures cases { NoCaseIsWantOfMemory }
    ensures lists { NoListIsWantOfMemory }
    ensures tasks { NoTaskIsWantOfMemory }
{}

/// What is right on texts is no fault of the outside.
pub fn right_answers_are_no_faults()
    ensures { RightAnswersAreNoFaults }
{}

/// Where the names of a command's files are steady, no fault of the outside is answered.
pub fn steady_names_are_read()
    ensures { SteadyNamesAreRead }
{}
