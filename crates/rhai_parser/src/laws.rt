//! Laws of the entry points, as contracts of functions that do nothing.

ghost use Rattle.rhai_parser.specs.EntryLaws.{EntersAsInRows};

/// The worked rows of the definitions stand in the contexts in which a new engine reads from a fresh state.
#[tactic(auto, using(crate::proofs::EntryLemmas::enters_as_in_rows))]
pub fn enters_as_in_rows()
    ensures { EntersAsInRows }
{}
