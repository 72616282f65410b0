//! Laws of definitions, as contracts of functions that do nothing.

ghost use Rattle.rhai_grammar.specs.Laws.{EntriesAreDelivered};
ghost use Rattle.rhai_grammar.specs.LibraryLaws.{NumbersAreKept};
ghost use Rattle.rhai_grammar.specs.SlotLaws.{Reuse};

/// Entries that a stream accepts make a delivered stream.
#[tactic(auto, using(crate::proofs::SpellingLemmas::entries_are_delivered))]
pub fn entries_are_delivered()
    ensures { EntriesAreDelivered }
{}

/// A definition uses the latest slot of its name again exactly where that is in the block and not exported; otherwise
/// there is one more slot, which is the latest.
#[tactic(auto, using(crate::proofs::SlotLemmas::reuse))]
pub fn reuse()
    ensures { Reuse }
{}

/// A library whose closures are numbered stays so with one more closure of the next number, and with one more function
/// that is no closure. In it the key of the next closure is new.
#[tactic(auto, using(crate::proofs::LibraryLemmas::numbers_are_kept))]
pub fn numbers_are_kept()
    ensures { NumbersAreKept }
{}
