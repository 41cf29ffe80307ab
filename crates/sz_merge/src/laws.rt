//! Laws of the definitions, for a reader: each function has an empty body, and its contract is the
//! law.

ghost use Rattle.sz_merge.specs.Terms.{NumbersToldAreThoseKept, NumbersToldAreTheKinds};

/// The number that is told of each store with region pairs is how many kinds of lineage it had
/// before it was merged: how many different ones its output cells have by what it stands for, over
/// all inputs together, that of no cell not counted. Nothing is asked of what the store stands for.
pub fn numbers_told_are_those_kept()
    ensures { NumbersToldAreThoseKept }
{}

/// Where the stores stand for an operator's relation, as those that a sealed shelf hands out do,
/// the number that is told of each one with region pairs is how many kinds of lineage the operator
/// has: how many different ones its output cells have, over all inputs together, that of no cell
/// not counted.
pub fn numbers_told_are_the_kinds()
    ensures { NumbersToldAreTheKinds }
{}
