//! Laws of the definitions, for a reader: each function has an empty body, and its contract is the
//! law.

ghost use Rattle.sz_rtree.specs.Terms.{OverlapsShareACell, NextHitsAreOne};

/// Two rectangles that are not turned over overlap exactly where a cell lies in both.
pub fn overlaps_share_a_cell()
    ensures { OverlapsShareACell }
{}

/// A look has one right answer.
pub fn next_hits_are_one()
    ensures { NextHitsAreOne }
{}
