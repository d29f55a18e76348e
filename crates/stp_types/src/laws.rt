//! Laws of the definitions by which the contracts speak of ancestors. Nothing here runs.

ghost use Rattle.stp_types.specs.Laws.{TestsAreRelations, RootIsAboveAll};

/// The tests by climbing are the relations by any number of steps.
pub fn tests_are_relations()
    ensures { TestsAreRelations }
{}

/// Where no type is an ancestor of itself, each type is below the root.
pub fn root_is_above_all()
    ensures { RootIsAboveAll }
{}
