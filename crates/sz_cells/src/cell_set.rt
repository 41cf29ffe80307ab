//! Sets of cells of one shape, made once and kept as the longest runs of their row-major indexes.

ghost use Rattle.std.specs.Prelude.{◌≡◌, ◌==◌};
ghost use Rattle.sz_cells.specs.Terms.{true, length, All, IfOk, list_any, flat_map, size_of, holds};
ghost use Rattle.sz_cells.specs.Terms.{has, named_in, union_of, AreRising, Spells, AreRunsFrom};
ghost use Rattle.sz_cells.specs.Terms.{indexes_of, runs_of, bounds_of};

use crate::spelling::{add_run, bounds_with_run, count_of, is_left_next, place_of, rising_indexes};
use crate::{Bounds, Cell, NoMemory, Run, Shape};
use std::alloc::Global;
use std::marker::Model;

/// A set of cells of one shape, kept as the longest runs of row-major indexes, rising.
#[derive(Drop)]
pub struct CellSet {
    shape: Shape,
    runs: Vec<Run>,
    count: u32,
}

impl Model for CellSet {
    ghost use Rattle.std.specs.Prelude.{◌≡◌, length};
    ghost use Rattle.std.specs.List.{flat_map};
    ghost use Rattle.sz_cells.specs.Extent.{size_of};
    ghost use Rattle.sz_cells.specs.Cells.{Cells};
    ghost use Rattle.sz_cells.specs.Runs.{indexes_of, AreRunsFrom};

    ghost Value = { Cells };

    ghost view = { λ s. record { extent = s.shape; indexes = flat_map indexes_of s.runs.items } };

    ghost invariant = { λ s. AreRunsFrom 0 (size_of s.shape) s.runs.items
        × (s.count ≡ length (flat_map indexes_of s.runs.items)) };
}

impl CellSet {
    /// The set of the cells that a list names, a cell named twice once.
    ///
    /// Takes time in `n log n`, and memory in `n`, for a list of `n` cells.
    pub fn from_cells(alloc: Global, shape: Shape, cells: &[Cell]) -> Result<CellSet, NoMemory>
        requires held { All (λ c. holds shape c ≡ true) cells.now }
        ensures { IfOk result (λ s. s ≡ named_in shape cells.now) }
    {
        let indexes = rising_indexes(alloc, &shape, cells)?;
        CellSet::of_indexes(alloc, shape, &indexes)
    }

    /// The set of the cells of indexes that strictly rise.
    fn of_indexes(alloc: Global, shape: Shape, indexes: &[u32]) -> Result<CellSet, NoMemory>
        requires { AreRising 0 (size_of shape) indexes.now }
        ensures { IfOk result (λ s. s ≡ record { extent = shape; indexes = indexes.now }) }
    {
        let mut runs = Vec::new(alloc);
        for index in indexes {
            add_run(
                &mut runs,
                Run {
                    first: *index,
                    last: *index,
                },
            )?;
        }
        Ok(CellSet::from_runs(shape, runs))
    }

    /// The set that these runs spell, which rise, with a gap between any two, and end below the
    /// shape's size.
    ///
    /// Takes time in the number of runs, and no memory.
    pub fn from_runs(shape: Shape, runs: Vec<Run>) -> CellSet
        requires { AreRunsFrom 0 (size_of shape) runs.items }
        ensures { result ≡ record { extent = shape; indexes = flat_map indexes_of runs.items } }
    {
        let count = count_of(&shape, &runs);
        CellSet { shape, runs, count }
    }

    /// The set of the cells that are in either of two sets of one shape.
    ///
    /// Takes time and memory in the number of runs of both.
    pub fn union(&self, alloc: Global, other: &CellSet) -> Result<CellSet, NoMemory>
        requires { other.now.extent ≡ self.now.extent }
        ensures { IfOk result (λ s. s ≡ union_of self.now other.now) }
    {
        let left = self.runs();
        let right = other.runs();
        let mut runs = Vec::new(alloc);
        let mut from_left = 0;
        let mut from_right = 0;
        while from_left < left.len() || from_right < right.len() {
            if is_left_next(left, right, from_left, from_right) {
                add_run(&mut runs, left[from_left])?;
                from_left += 1;
            } else {
                add_run(&mut runs, right[from_right])?;
                from_right += 1;
            }
        }
        Ok(CellSet::from_runs(self.shape(), runs))
    }

    /// The smallest rectangle that has every cell of the set. `None` exactly where the set is
    /// empty.
    ///
    /// Takes time in the number of runs, and no memory.
    pub fn bounds(&self) -> Option<Bounds>
        ensures { result ≡ bounds_of self.now }
    {
        let shape = self.shape();
        let runs = self.runs();
        let start = shape.cell_at(runs.first()?.first);
        let mut bounds = Bounds {
            top: start.row,
            left: start.col,
            bottom: start.row,
            right: start.col,
        };
        for run in runs {
            bounds = bounds_with_run(&shape, bounds, *run);
        }
        Some(bounds)
    }

    /// Whether the set has the cell. False for a cell that the shape does not hold.
    ///
    /// Takes time in the logarithm of the number of runs, and no memory.
    pub fn has(&self, cell: Cell) -> bool
        ensures { result ≡ has self.now cell }
    {
        self.shape.holds(cell) && self.has_index(self.shape.index(cell))
    }

    /// Whether the set has the cell of an index.
    fn has_index(&self, index: u32) -> bool
        ensures { result ≡ list_any (λ k. k == index) self.now.indexes }
    {
        let place = place_of(&self.runs, index);
        place < self.runs.len() && self.runs[place].first <= index
    }

    /// The shape of which the cells are.
    pub fn shape(&self) -> Shape
        ensures value { result ≡ self.now.extent }
        ensures rising { AreRising 0 (size_of self.now.extent) self.now.indexes }
    {
        self.shape
    }

    /// How many cells the set has.
    pub fn count(&self) -> u32
        ensures { result ≡ length self.now.indexes }
    {
        self.count
    }

    /// The longest runs of the set's row-major indexes, rising. Between two of them there is a gap.
    pub fn runs(&self) -> &[Run]
        ensures spelled { Spells result.now self.now }
        ensures only { result.now ≡ runs_of self.now.indexes }
    {
        &self.runs
    }
}
