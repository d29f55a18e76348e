//! Laws of the definitions by which the contracts speak of problems. Nothing here runs.

ghost use Rattle.stp_problem.specs.Typed.{ReadFactsAreTyped};
ghost use Rattle.stp_problem.specs.TimeLaws.{TimesAreThoseOfItems};
ghost use Rattle.stp_problem.specs.Counting.{CutDecides, ListsOfSizesCount, BindingsAreCounted};
ghost use Rattle.stp_problem.specs.Laws.{ReadProblemsAreTyped};

/// Facts, values and literals of events that are read without an offence are those of declared predicates and functions,
/// with objects that fit their parameters; and a function has at most one value at the same objects.
pub fn read_facts_are_typed()
    ensures { ReadFactsAreTyped }
{}

/// The times of the events at fixed times are those of the items that tell literals at one time, and no others.
pub fn times_are_those_of_items()
    ensures { TimesAreThoseOfItems }
{}

/// A count that is cut is above the limit exactly where the count itself is.
pub fn cut_decides()
    ensures { CutDecides }
{}

/// A list of the sizes of the types counts as the definition of a size does.
pub fn lists_of_sizes_count()
    ensures { ListsOfSizesCount }
{}

/// The number of bindings is that of the lists of objects that the variables may stand for.
pub fn bindings_are_counted()
    ensures { BindingsAreCounted }
{}

/// A problem that is read is one of the domain that was given. Where that domain was read, the problem's objects
/// begin with its constants, and its facts, its values, its events and its goal are made of what is declared, with
/// arguments that fit.
pub fn read_problems_are_typed()
    ensures { ReadProblemsAreTyped }
{}
