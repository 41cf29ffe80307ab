//! Looks by rectangles.

ghost use Rattle.std.specs.Prelude.{◌≡◌, ◌<◌};
ghost use Rattle.sz_full_many.specs.Terms.{length, has, with_those, extent_before, extent_after};
ghost use Rattle.sz_full_many.specs.Terms.{image_between, full_stands, pairings, IsRound, AreRound};
ghost use Rattle.sz_full_many.specs.Terms.{tree_for};

use crate::bounds::bounds_of_bits;
use sz_cells::{Bounds, CellBits};
use sz_rtree::RTree;
use sz_spec::Dir;
use sz_tables::{RegionTable, Seen};

/// Adds the image of a set of cells under the region pairs of a table, by the rectangles of a tree.
pub(crate) fn look(
    table: &RegionTable,
    tree: &RTree,
    dir: Dir,
    input: u32,
    from: &CellBits,
    to: &mut CellBits,
)
    requires input { input < length table.now.ins }
    requires round { AreRound dir input (pairings table.now) tree.now.rectangles }
    requires from { from.now.extent ≡ extent_before dir table.now.out table.now.ins input }
    requires to { to.old.extent ≡ extent_after dir table.now.out table.now.ins input }
    ensures { let t = table.now in to.new ≡ with_those to.old
        (has (image_between dir t.out t.ins input (full_stands (pairings t) input) from.now)) }
{
    to.shape(); // the sets as they were are those of their cells
    from.shape();
    match bounds_of_bits(from) {
        Some(bounds) => look_within(table, tree, dir, input, from, bounds, to),
        None => {}
    }
}

/// The same for a rectangle that has each asked cell: the rows whose rectangles overlap it are
/// taken one after another, and the others add nothing.
fn look_within(
    table: &RegionTable,
    tree: &RTree,
    dir: Dir,
    input: u32,
    from: &CellBits,
    bounds: Bounds,
    to: &mut CellBits,
)
    requires input { input < length table.now.ins }
    requires round { AreRound dir input (pairings table.now) tree.now.rectangles }
    requires from { from.now.extent ≡ extent_before dir table.now.out table.now.ins input }
    requires bounds { IsRound bounds from.now }
    requires to { to.old.extent ≡ extent_after dir table.now.out table.now.ins input }
    ensures { let t = table.now in to.new ≡ with_those to.old
        (has (image_between dir t.out t.ins input (full_stands (pairings t) input) from.now)) }
{
    to.shape(); // the sets as they were are those of their cells
    from.shape();
    let end = table.len();
    let mut seen = Seen::nothing();
    let mut start = 0;
    while start < end {
        match tree.next_hit(bounds, start) {
            Some(row) => {
                table.take_row(dir, input, row, from, &mut seen, to);
                start = row + 1;
            }
            None => start = end,
        }
    }
}

/// The number of the tree for a look over an input.
pub(crate) fn tree_for(dir: Dir, input: u32) -> u32
    ensures { result ≡ tree_for dir input }
{
    match dir {
        Dir::Back => 0,
        Dir::Forward => input,
    }
}
