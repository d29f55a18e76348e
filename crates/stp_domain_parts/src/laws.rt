//! What is true of the reading of sections and typed lists, whatever code reads them.

ghost use Rattle.stp_domain_parts.specs.Laws.{PartIsFirst, ActionsInOrder, OneByOne};
ghost use Rattle.stp_domain_parts.specs.TypedLists.{WrittenListsAreRead};
ghost use Rattle.stp_domain_parts.specs.ProblemLaws.{SectionIsFirst, OneByOne as OneByOneInProblem};

/// The sections of a domain in any order: each part is that of the first section of its word, the actions stand in the
/// order of the text, and each section is judged by itself and by whether its word stands before it.
pub fn domain_in_any_order()
    ensures parts { PartIsFirst }
    ensures actions { ActionsInOrder }
    ensures offences { OneByOne }
{}

/// The sections of a problem in any order: each is the first one of its word, and each is judged by itself and by whether
/// its word stands before it.
pub fn problem_in_any_order()
    ensures sections { SectionIsFirst }
    ensures offences { OneByOneInProblem }
{}

/// The entries of `g1 - t1 g2 - t2 ..` and of words without a type are those: each word at its place, with the place of
/// the first word of its group, and with its group's type. Nothing is wrong with such a list.
pub fn written_lists_are_read()
    ensures { WrittenListsAreRead }
{}
