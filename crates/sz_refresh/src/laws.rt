//! Laws of the definitions, for a reader: each function has an empty body, and its contract is the
//! law.

ghost use Rattle.sz_refresh.specs.Terms.{AffectedCellsAreReachedForward};
ghost use Rattle.sz_refresh.specs.Terms.{EachNodeHasItsAffectedCells};
ghost use Rattle.sz_refresh.specs.Terms.{AffectedCellsAreThoseOfTheirNodes};
ghost use Rattle.sz_refresh.specs.Terms.{OtherCellsKeepTheirValues};

/// A cell is affected exactly where a changed cell reaches it, by the old relation or by the new
/// one; of a flow the changed cells of a node are its affected ones.
pub fn affected_cells_are_those_reached()
    ensures forward { AffectedCellsAreReachedForward }
    ensures count { EachNodeHasItsAffectedCells }
    ensures each { AffectedCellsAreThoseOfTheirNodes }
{}

/// A cell that is not affected keeps its value.
pub fn other_cells_keep_their_values()
    ensures { OtherCellsKeepTheirValues }
{}
