//! Laws of the definitions, for a reader: each function has an empty body, and its contract is the
//! law.
//!
//! The last three say of every shape, set and bitmap what their types keep, for a proof that calls
//! them.

ghost use Rattle.std.specs.Prelude.{◌≡◌};
ghost use Rattle.sz_cells.specs.Terms.{true, is_extent, cells_where, has, IsSetOf};
ghost use Rattle.sz_cells.specs.Terms.{LayersMakeShapes, OneLayerIsFlat, CellsHavePlaces};
ghost use Rattle.sz_cells.specs.Terms.{PlacesHaveCells, CellsHaveIndexes, IndexesHaveCells};
ghost use Rattle.sz_cells.specs.Terms.{SetsAreTheirTests, SetsAreEqualByTheirCells};
ghost use Rattle.sz_cells.specs.Terms.{RisingIndexesAreSets, SetsHaveRisingIndexes};
ghost use Rattle.sz_cells.specs.Terms.{UnionsHaveTheCellsOfBoth, OneMoreCell, NextIsLeast};
ghost use Rattle.sz_cells.specs.Terms.{NoneIsNext, RunsSpellSets, RunsAreOne, BoundsHaveEachCell};
ghost use Rattle.sz_cells.specs.Terms.{BoundsAreSmallest, NoBoundsOfNoCell, BytesAreOneSet};
ghost use Rattle.sz_cells.specs.Terms.{OneSetBegins};

use crate::{CellBits, CellSet, Shape};

/// Layers within the limits make a shape; the shapes of one layer are those of its rows and
/// columns.
pub fn layers_make_shapes()
    ensures layers { LayersMakeShapes }
    ensures one { OneLayerIsFlat }
{}

/// The cells of a shape and its places, each a layer, a row in it and a column, are one to one.
pub fn cells_and_places_are_one_to_one()
    ensures cells { CellsHavePlaces }
    ensures places { PlacesHaveCells }
{}

/// Row-major indexes and cells are one to one.
pub fn cells_and_indexes_are_one_to_one()
    ensures cells { CellsHaveIndexes }
    ensures indexes { IndexesHaveCells }
{}

/// The cells of a shape that pass a test are exactly these.
pub fn sets_are_their_tests()
    ensures { SetsAreTheirTests }
{}

/// Two sets made by tests are equal where the tests agree on each cell of the shape.
pub fn sets_are_equal_by_their_cells()
    ensures { SetsAreEqualByTheirCells }
{}

/// Rising indexes below the size are the set of their cells, and each set made by a test has such
/// indexes.
pub fn rising_indexes_are_sets()
    ensures sets { RisingIndexesAreSets }
    ensures rising { SetsHaveRisingIndexes }
{}

/// What a union and a set with one cell more have.
pub fn cells_are_added()
    ensures union { UnionsHaveTheCellsOfBoth }
    ensures cell { OneMoreCell }
{}

/// The next index of a set is the least one that is not below the number.
pub fn next_is_least()
    ensures some { NextIsLeast }
    ensures none { NoneIsNext }
{}

/// One list of longest runs spells a set.
pub fn runs_are_one()
    ensures spelled { RunsSpellSets }
    ensures only { RunsAreOne }
{}

/// The bounds of a set are the smallest rectangle that has its cells.
pub fn bounds_are_smallest()
    ensures cells { BoundsHaveEachCell }
    ensures smallest { BoundsAreSmallest }
    ensures none { NoBoundsOfNoCell }
{}

/// A set of a known shape has one spelling in bytes, and its end shows without what follows.
pub fn bytes_are_one_set()
    ensures bytes { BytesAreOneSet }
    ensures place { OneSetBegins }
{}

/// Every shape is within the limits.
pub fn a_shape_is_within_limits(shape: &Shape)
    ensures { is_extent shape.now ≡ true }
{
    let _ = &shape.layers;
}

/// Every set is the set of its cells, with rising indexes.
pub fn a_set_is_its_cells(set: &CellSet)
    ensures cells { set.now ≡ cells_where set.now.extent (has set.now) }
    ensures rising { IsSetOf set.now.extent set.now }
{
    let _ = set.shape();
}

/// Every bitmap is the set of its cells, with rising indexes.
pub fn a_bitmap_is_its_cells(bits: &CellBits)
    ensures cells { bits.now ≡ cells_where bits.now.extent (has bits.now) }
    ensures rising { IsSetOf bits.now.extent bits.now }
{
    let _ = bits.shape();
}
