//! Laws of the machine, for a reader: each function has an empty body, and its contract is the law.

ghost use Rattle.sz_core.specs.Terms.{StatesAreSound, NoEventChangesWhatIsToCome};
ghost use Rattle.sz_core.specs.Terms.{EndedAsksHoldTheComposition, OrderDoesNotMatter};
ghost use Rattle.sz_core.specs.Terms.{LooksAreFromStoresThatWereSealed};
ghost use Rattle.sz_core.specs.Terms.{PlacedPiecesAreNotReadBeforeTheSeal};
ghost use Rattle.sz_core.specs.Terms.{EndedAsksHoldTheComposedRelation};

/// Each sealed shelf has every piece placed, before any event and after each.
pub fn states_are_sound()
    ensures { StatesAreSound }
{}

/// No event changes the cells to which any ask will come.
pub fn no_event_changes_what_is_to_come()
    ensures { NoEventChangesWhatIsToCome }
{}

/// An ask that has ended holds the composition of all pairs of its steps' shelves.
pub fn ended_asks_hold_the_composition()
    ensures { EndedAsksHoldTheComposition }
{}

/// Two lists of events after which an ask has ended leave it the same cells.
pub fn order_does_not_matter()
    ensures { OrderDoesNotMatter }
{}

/// A look is told that it read a store exactly where its shelf was sealed before.
pub fn looks_are_from_stores_that_were_sealed()
    ensures { LooksAreFromStoresThatWereSealed }
{}

/// The placed pieces of a shelf that is not sealed are not read.
pub fn placed_pieces_are_not_read_before_the_seal()
    ensures { PlacedPiecesAreNotReadBeforeTheSeal }
{}

/// Where the pairs say the operators' relations, an ask that has ended holds the composed relation
/// of its path.
pub fn ended_asks_hold_the_composed_relation()
    ensures { EndedAsksHoldTheComposedRelation }
{}
