//! Laws of what the stores of a tag stand for, for a reader: each function has an empty body, and
//! its contract is the law. What the stores in a shelf's slot stand for is said by
//! [`Shelved::store`](crate::Shelved::store).

ghost use Rattle.sz_shelf.specs.Terms.{FittingLineagesFitAsNeeded, NeededPartsCanBePlaced};
ghost use Rattle.sz_shelf.specs.Terms.{LineagesStandOnTheirPieces, EachStrategyStandsForTheTag};
ghost use Rattle.sz_shelf.specs.Terms.{LineagesOfAllPiecesStandForTheTag};
ghost use Rattle.sz_shelf.specs.Terms.{WholeStoresStandOnPlacedPieces, ImagesByStoresAreTheTags};

/// A lineage that fits its piece fits as needed. One that does can be placed, whatever else it has.
pub fn needed_parts_can_be_placed()
    ensures fitting { FittingLineagesFitAsNeeded }
    ensures placed { NeededPartsCanBePlaced }
{}

/// Lineages of which the needed parts fit, placed one after another, stand for exactly the relation
/// on the cells of their pieces, and elsewhere for nothing or the composite default.
pub fn lineages_stand_on_their_pieces()
    ensures { LineagesStandOnTheirPieces }
{}

/// Where no piece is missing among them, the stores are whole and stand for all of the relation.
pub fn lineages_of_all_pieces_stand_for_the_tag()
    ensures { LineagesOfAllPiecesStandForTheTag }
{}

/// Stores that stand for a tag do so on placed pieces too, once every piece is placed.
pub fn whole_stores_stand_on_placed_pieces()
    ensures { WholeStoresStandOnPlacedPieces }
{}

/// Of stores that stand for a tag, the one of a stored strategy of its list stands for the
/// relation, and its image of a set is the image under the relation.
pub fn each_strategy_stands_for_the_tag()
    ensures relation { EachStrategyStandsForTheTag }
    ensures image { ImagesByStoresAreTheTags }
{}
