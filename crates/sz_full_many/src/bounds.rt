//! Rectangles round sets of cells, and the trees in which they are found.

ghost use Rattle.std.specs.Prelude.{◌≡◌, ◌<◌, ◌≤◌, ◌+◌, ◌^◌};
ghost use Rattle.sz_full_many.specs.Terms.{ℕ, [], length, map, true, IfOk, IfSome, OnOk, All};
ghost use Rattle.sz_full_many.specs.Terms.{IsSomeAnd, slice_index_or, Cell, has, IsInBounds};
ghost use Rattle.sz_full_many.specs.Terms.{Rectangles, HasNext, trees_for, AreRound, pairings};
ghost use Rattle.sz_full_many.specs.Terms.{near_set, pairing_at, IsRound};

use std::alloc::Global;
use sz_cells::{Bounds, Cell, CellBits, NoMemory};
use sz_frame::Region;
use sz_rtree::RTree;
use sz_spec::Dir;
use sz_tables::{RegionTable, bounds_of_set};

/// The trees of a store without a region pair.
pub(crate) fn empty_trees(alloc: Global, dir: Dir, inputs: usize) -> Result<Vec<RTree>, NoMemory>
    ensures count { IfOk result (λ v. length v.items ≡ trees_for dir inputs) }
    ensures empty { IfOk result (λ v. All (λ t. t.rectangles ≡ []) v.items) }
    ensures spare { IfOk result (λ v. All (λ t. t.spare ≡ 0) v.items) }
{
    let count = match dir {
        Dir::Back => 1,
        Dir::Forward => inputs,
    };
    let mut trees = Vec::new(alloc);
    for _ in 0..count {
        trees.push(RTree::new(alloc)?)?;
    }
    Ok(trees)
}

/// The trees of the region pairs of a table.
pub(crate) fn trees_of(
    alloc: Global,
    dir: Dir,
    table: &RegionTable,
    inputs: u32,
) -> Result<Vec<RTree>, NoMemory>
    requires { inputs ≡ length table.now.ins }
    ensures count { IfOk result (λ v. length v.items ≡ trees_for dir inputs) }
    ensures round { IfOk result (λ v. (i : ℕ) (d : Rectangles) → i < length v.items
        → AreRound dir i (pairings table.now) (slice_index_or v.items i d).rectangles) }
{
    let count = match dir {
        Dir::Back => 1,
        Dir::Forward => inputs,
    };
    let mut trees = Vec::new(alloc);
    for input in 0..count {
        trees.push(tree_of(alloc, dir, table, input)?)?;
    }
    Ok(trees)
}

/// The tree of the rectangles round the sets of a table's region pairs from which a look over an
/// input starts.
fn tree_of(alloc: Global, dir: Dir, table: &RegionTable, input: u32) -> Result<RTree, NoMemory>
    requires { input < trees_for dir (length table.now.ins) }
    ensures { IfOk result (λ t. AreRound dir input (pairings table.now) t.rectangles) }
{
    let mut rectangles = Vec::with_capacity(alloc, table.len() as usize)?;
    for row in 0..table.len() {
        rectangles.push_reserved(row_bounds(dir, table, input, row));
    }
    RTree::of(alloc, rectangles)
}

/// A rectangle round the set of a row from which a look over an input starts.
fn row_bounds(dir: Dir, table: &RegionTable, input: u32, row: u32) -> Bounds
    requires input { input < trees_for dir (length table.now.ins) }
    requires row { row < length table.now.rows }
    ensures { IsRound result (near_set dir input (pairing_at table.now row)) }
{
    match dir {
        Dir::Back => table.out_bounds(row),
        Dir::Forward => table.in_bounds(input, row),
    }
}

/// Makes room for so many more rectangles in each tree.
pub(crate) fn reserve_trees(trees: &mut [RTree], more: u32) -> Result<(), NoMemory>
    requires { All (λ t. length t.rectangles + more < 2 ^ 32) trees.old }
    ensures kept { map (λ t. t.rectangles) trees.new ≡ map (λ t. t.rectangles) trees.old }
    ensures ok { OnOk result (All (λ t. more ≤ t.spare) trees.new) }
{
    for tree in trees.iter_mut() {
        tree.reserve(more)?;
    }
    Ok(())
}

/// Puts a rectangle round the near set of a region pair into each tree.
pub(crate) fn add_bounds(trees: &mut [RTree], dir: Dir, region: &Region)
    requires count { length trees.old ≡ trees_for dir (length region.now.ins) }
    requires room { All (λ t. 0 < t.spare) trees.old }
    ensures next { (i : ℕ) (d : Rectangles) → i < length trees.old
        → HasNext dir i region.now (slice_index_or trees.old i d) (slice_index_or trees.new i d) }
{
    for i in 0..trees.len() {
        let bounds = near_bounds(dir, i, region);
        trees[i].insert(bounds);
    }
}

/// A rectangle round the set of a region pair from which a look over an input starts.
fn near_bounds(dir: Dir, input: usize, region: &Region) -> Bounds
    requires { input < trees_for dir (length region.now.ins) }
    ensures { IsRound result (near_set dir input region.now) }
{
    match dir {
        Dir::Back => bounds_of_set(&region.out),
        Dir::Forward => bounds_of_set(&region.ins.as_slice()[input]),
    }
}

/// A rectangle round the cells of a bitmap, which is there where it has one. Takes no memory.
///
/// Costs a visit to each cell.
pub(crate) fn bounds_of_bits(bits: &CellBits) -> Option<Bounds>
    ensures { (c : Cell) → has bits.now c ≡ true → IsSomeAnd result (λ b. IsInBounds b c) }
{
    let shape = bits.shape();
    let end = shape.size();
    let mut bounds = None;
    let mut start = 0;
    while start < end {
        match bits.next_after(start) {
            Some(index) => {
                bounds = Some(bounds_with(bounds, shape.cell_at(index)));
                start = index + 1;
            }
            None => start = end,
        }
    }
    bounds
}

/// A rectangle made so wide that it has a further cell; where there is none yet, that of the cell.
fn bounds_with(bounds: Option<Bounds>, cell: Cell) -> Bounds
    ensures cell { IsInBounds result cell }
    ensures kept { IfSome bounds (λ b. (c : Cell) → IsInBounds b c → IsInBounds result c) }
{
    match bounds {
        Some(b) => Bounds {
            top: b.top.min(cell.row),
            left: b.left.min(cell.col),
            bottom: b.bottom.max(cell.row),
            right: b.right.max(cell.col),
        },
        None => Bounds {
            top: cell.row,
            left: cell.col,
            bottom: cell.row,
            right: cell.col,
        },
    }
}
