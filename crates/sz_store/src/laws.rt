//! Laws of the definitions, for a reader: each function has an empty body, and its contract is the
//! law.

ghost use Rattle.sz_store.specs.Terms.{FittingLineagesCanBePlaced, PlacedPiecesMakeTheRelation};
ghost use Rattle.sz_store.specs.Terms.{OneListOfStoresBegins, WrittenStoresAreRead};
ghost use Rattle.sz_store.specs.Terms.{OtherOrdersStandForTheSame};

/// A lineage that fits its piece can be placed.
pub fn fitting_lineages_can_be_placed()
    ensures { FittingLineagesCanBePlaced }
{}

/// Where a fitting lineage of each piece is placed, the stores are whole, and each stands for
/// exactly the relation.
pub fn placed_pieces_make_the_relation()
    ensures { PlacedPiecesMakeTheRelation }
{}

/// What is written of stores is read again whatever follows it, and is read in no other way.
pub fn written_stores_are_read()
    ensures one { OneListOfStoresBegins }
    ensures read { WrittenStoresAreRead }
{}

/// Stores that keep the same in another order stand for the same.
pub fn other_orders_stand_for_the_same()
    ensures { OtherOrdersStandForTheSame }
{}
