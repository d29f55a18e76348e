//! Laws of the definitions by which the contracts speak of types. Nothing here runs.

ghost use Rattle.stp_domain_tables.specs.Laws.{ParentsAreKept};

/// Where no entry of `:types` is refused as an ancestor of itself, the parents in the tables are those of the text.
pub fn parents_are_kept()
    ensures { ParentsAreKept }
{}
