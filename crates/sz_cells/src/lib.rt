//! Cells, shapes and sets of cells: what every other crate of SubZero speaks of.
//!
//! A [`Shape`] says how many layers, rows and columns an array has. Rows are counted through the
//! layers, so a cell is a row and a column; no side is 0, and there are at most 16 layers and
//! 1,048,576 cells. The cells have indexes from 0 to `size() - 1`, row by row, and [`Shape::index`]
//! and [`Shape::cell_at`] lead from a cell to its index and back.
//!
//! There are two sets of cells of one shape. A [`CellSet`] is made once and kept small: the longest
//! runs of indexes, rising. A [`CellBits`] is a bitmap that is added to, and cleared to be used
//! again, without memory.
//!
//! Of 2 rows and 3 columns the indexes are 0, 1, 2 and 3, 4, 5. So of the list (0,1), (0,0), (0,1),
//! (1,2) the set has three cells, in two runs:
//!
//! ```
//! let Some(shape) = Shape::make(2, 3) else { return Err(Fault::NoShape) };
//! let cells = [
//!     Cell { row: 0, col: 1 },
//!     Cell { row: 0, col: 0 },
//!     Cell { row: 0, col: 1 },
//!     Cell { row: 1, col: 2 },
//! ];
//! let set = CellSet::from_cells(alloc, shape, &cells)?;
//! // set.count() == 3
//! // set.runs() == [Run { first: 0, last: 1 }, Run { first: 5, last: 5 }]
//! // set.has(Cell { row: 1, col: 2 }), and not set.has(Cell { row: 2, col: 0 })
//! ```
//!
//! Contracts see a shape as its layers, rows and columns, and either kind of set as its shape and
//! its rising indexes, in one way only: two sets with the same cells are equal. Most sets are
//! stated as the cells of a shape that pass a test, and [`laws`] says what may be taken for granted
//! of those.
#![tactic(auto)]

ghost use Rattle.std.specs.Prelude.{◌≡◌, ◌<◌, ◌≤◌, ◌*◌, if◌then◌else◌};
ghost use Rattle.sz_cells.specs.Terms.{true, Some, None, size_of, height_of, is_shape, is_layered};
ghost use Rattle.sz_cells.specs.Terms.{layered, flat, holds, index_of, cell_of, layer_of, row_in};
ghost use Rattle.sz_cells.specs.Terms.{is_place, cell_in};

pub use cell_bits::CellBits;
pub use cell_set::CellSet;
pub use spelling::{add_run, bounds_with_run};
use std::alloc::{AllocError, AllocFailed};
use std::marker::Model;

mod cell_bits;
mod cell_set;
pub mod laws;
mod spelling;
mod words;

/// There was no memory for what the call had to make.
#[derive(Clone, Copy, Debug, Drop, PartialEq, Eq)]
pub struct NoMemory;

impl From<AllocError> for NoMemory {
    ghost use Rattle.std.specs.Prelude.{◌≡◌};
    ghost use Rattle.sz_cells.specs.declared.NoMemory.{NoMemory};

    ghost from_gives = { λ _ e. e ≡ record {} };

    fn from(_error: AllocError) -> NoMemory {
        NoMemory
    }
}

impl<T: Drop> From<AllocFailed<T>> for NoMemory {
    ghost use Rattle.std.specs.Prelude.{◌≡◌};
    ghost use Rattle.sz_cells.specs.declared.NoMemory.{NoMemory};

    ghost from_gives = { λ _ e. e ≡ record {} };

    fn from(_error: AllocFailed<T>) -> NoMemory {
        NoMemory
    }
}

/// A cell of an array: its row, counted through the layers, and its column, both from 0.
#[derive(Clone, Copy, Debug, PartialEq, Eq)]
pub struct Cell {
    pub row: u32,
    pub col: u32,
}

/// A rectangle of cells, both corners in it: rows `top` to `bottom`, columns `left` to `right`.
#[derive(Clone, Copy, Debug, PartialEq, Eq)]
pub struct Bounds {
    pub top: u32,
    pub left: u32,
    pub bottom: u32,
    pub right: u32,
}

/// A run of cells that follow one another in row-major order: the indexes of its first and its
/// last.
#[derive(Clone, Copy, Debug, PartialEq, Eq)]
pub struct Run {
    pub first: u32,
    pub last: u32,
}

/// How many layers, rows and columns an array has. The layers, at most 16, have equally many rows,
/// and `rows` counts those of all of them. No side is 0, and there are at most 1,048,576 cells.
#[derive(Clone, Copy, Debug, PartialEq, Eq)]
pub struct Shape {
    pub layers: u32,
    pub rows: u32,
    pub cols: u32,
}

impl Model for Shape {
    ghost use Rattle.std.specs.Prelude.{◌≡◌, true};
    ghost use Rattle.sz_cells.specs.Extent.{Extent, is_extent};

    ghost Value = { Extent };

    ghost view = { λ s. record { layers = s.layers; rows = s.rows; cols = s.cols } };

    ghost invariant = { λ s.
        is_extent (record { layers = s.layers; rows = s.rows; cols = s.cols }) ≡ true };

    ghost inverse = { λ e. record { layers = e.layers; rows = e.rows; cols = e.cols } };
}

impl Shape {
    /// The largest number of cells that a shape has.
    const MOST: u64 = 1_048_576;

    /// The largest number of layers that a shape has.
    const MOST_LAYERS: u32 = 16;

    /// The shape of one layer with these sides. `None` exactly where a side is 0 or there would be
    /// more than 1,048,576 cells.
    pub fn make(rows: u32, cols: u32) -> Option<Shape>
        ensures { result ≡ (if is_shape rows cols then Some (flat rows cols) else None) }
    {
        Shape::make_layers(1, rows, cols)
    }

    /// The shape of so many layers, each with `height` rows and `cols` columns. `None` exactly
    /// where a number is 0, there would be more than 16 layers, or more than 1,048,576 cells in all
    /// of them.
    pub fn make_layers(layers: u32, height: u32, cols: u32) -> Option<Shape>
        ensures { result ≡ (if is_layered layers height cols
            then Some (layered layers height cols) else None) }
    {
        let rows = u64::from(layers) * u64::from(height);
        if layers > 0
            && layers <= Self::MOST_LAYERS
            && rows > 0
            && cols > 0
            && rows <= Self::MOST
            && rows * u64::from(cols) <= Self::MOST
        {
            Some(Shape {
                layers,
                rows: rows as u32,
                cols,
            })
        } else {
            None
        }
    }

    /// How many rows each layer has.
    pub fn height(&self) -> u32
        ensures value { result ≡ height_of self.now }
        ensures some { 0 < result }
        ensures whole { self.now.layers * result ≡ self.now.rows }
    {
        self.rows / self.layers
    }

    /// How many cells the shape has.
    pub fn size(&self) -> u32
        ensures value { result ≡ size_of self.now }
        ensures some { 0 < result }
        ensures few { result ≤ 1048576 }
    {
        self.rows * self.cols
    }

    /// Whether the cell is one of the shape.
    pub fn holds(&self, cell: Cell) -> bool
        ensures { result ≡ holds self.now cell }
    {
        cell.row < self.rows && cell.col < self.cols
    }

    /// The layer of a cell of the shape, from 0.
    pub fn layer_of(&self, cell: Cell) -> u32
        requires { holds self.now cell ≡ true }
        ensures value { result ≡ layer_of self.now cell }
        ensures within { result < self.now.layers }
    {
        cell.row / self.height()
    }

    /// The row of a cell of the shape in its layer, from 0.
    pub fn row_in(&self, cell: Cell) -> u32
        requires { holds self.now cell ≡ true }
        ensures value { result ≡ row_in self.now cell }
        ensures within { result < height_of self.now }
    {
        cell.row % self.height()
    }

    /// The cell of a layer, a row in that layer and a column. `None` exactly where the shape has no
    /// such place.
    pub fn cell_in(&self, layer: u32, row: u32, col: u32) -> Option<Cell>
        ensures { result ≡ (if is_place self.now layer row col
            then Some (cell_in self.now layer row col) else None) }
    {
        let height = self.height();
        if layer < self.layers && row < height && col < self.cols {
            Some(Cell {
                row: layer * height + row,
                col,
            })
        } else {
            None
        }
    }

    /// The row-major index of a cell of the shape, from 0.
    pub fn index(&self, cell: Cell) -> u32
        requires { holds self.now cell ≡ true }
        ensures value { result ≡ index_of self.now cell }
        ensures within { result < size_of self.now }
    {
        cell.row * self.cols + cell.col
    }

    /// The cell of a row-major index.
    pub fn cell_at(&self, index: u32) -> Cell
        requires { index < size_of self.now }
        ensures value { result ≡ cell_of self.now index }
        ensures held { holds self.now result ≡ true }
        ensures index { index_of self.now result ≡ index }
    {
        Cell {
            row: index / self.cols,
            col: index % self.cols,
        }
    }
}
