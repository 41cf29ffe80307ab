//! Laws of the definitions, for a reader: each function has an empty body, and its contract is the
//! law.

ghost use Rattle.sz_frame.specs.Terms.{RegionsOfAllPiecesAreTheRelation};
ghost use Rattle.sz_frame.specs.Terms.{PayloadsOfAllPiecesAreTheRelation};
ghost use Rattle.sz_frame.specs.Terms.{OverridesOfAllPiecesAreTheRelation, WhatIsKeptIsRight};
ghost use Rattle.sz_frame.specs.Terms.{EachCellHasOnePayload};

/// Where the lineage of each piece fits, all of them together stand for exactly the relation.
pub fn fitting_pieces_make_the_relation()
    ensures full { RegionsOfAllPiecesAreTheRelation }
    ensures pay { PayloadsOfAllPiecesAreTheRelation }
    ensures comp { OverridesOfAllPiecesAreTheRelation }
{}

/// What is kept of a piece is right entry by entry, whatever else is kept: a region pair relates
/// its cells, and a payload is lawful, the only one of each of its cells, and stands by itself for
/// exactly the cells to which that is related.
pub fn what_is_kept_is_right()
    ensures kept { WhatIsKeptIsRight }
    ensures one { EachCellHasOnePayload }
{}
