//! Sets of cells of one shape that are added to: bitmaps, in words of 64 cells.

ghost use Rattle.std.specs.Prelude.{◌≡◌, ◌<◌, ◌≤◌, ◌==◌, ◌↔◌};
ghost use Rattle.sz_cells.specs.Terms.{ℕ, true, false, [], IsTrue, IfOk, list_any, size_of, holds};
ghost use Rattle.sz_cells.specs.Terms.{has, no_cells, with_cell, union_of, next_index, AreRising};
ghost use Rattle.sz_cells.specs.Terms.{run_cells, is_in_word, words_for, cells_at};

use crate::words::{bits_of_run, clear_words, longest_runs, next_one};
use crate::{Cell, CellSet, NoMemory, Run, Shape};
use std::alloc::Global;
use std::marker::Model;

/// A set of cells of one shape, kept as a bitmap. Once it is made, cells are added to it without
/// memory.
///
/// The words that may have a cell lie in a range that is kept beside them, from the least one that
/// was touched to the greatest. So [`CellBits::clear`], [`CellBits::is_empty`],
/// [`CellBits::next_after`] and [`CellBits::to_set`] cost by what was touched since the last clear,
/// and not by the shape.
#[derive(Drop)]
pub struct CellBits {
    shape: Shape,
    words: Vec<u64>,
    first: u32,
    end: u32,
}

impl Model for CellBits {
    ghost use Rattle.sz_cells.specs.Cells.{Cells};
    ghost use Rattle.sz_cells.specs.Words.{cells_at, has_bit, AreWordsOf};

    ghost Value = { Cells };

    ghost view = { λ b. cells_at b.shape (has_bit b.words.items) };

    ghost invariant = { λ b. AreWordsOf b.shape b.words.items b.first b.end };
}

impl CellBits {
    /// The set of no cell. The only call that takes memory in the shape's size: one bit a cell, and
    /// time to match.
    pub fn new(alloc: Global, shape: Shape) -> Result<CellBits, NoMemory>
        ensures { IfOk result (λ b. b ≡ no_cells shape) }
    {
        let count = (shape.size() + 63) / 64;
        let words = vec![in alloc; 0u64; count as usize]?;
        Ok(CellBits {
            shape,
            words,
            first: count,
            end: 0,
        })
    }

    /// The shape of which the cells are.
    pub fn shape(&self) -> Shape
        ensures value { result ≡ self.now.extent }
        ensures rising { AreRising 0 (size_of self.now.extent) self.now.indexes }
    {
        self.shape
    }

    /// Adds a cell of the shape.
    pub fn set(&mut self, cell: Cell)
        requires { holds self.old.extent cell ≡ true }
        ensures { self.new ≡ with_cell self.old cell }
    {
        let index = self.shape.index(cell);
        self.add_word(index / 64, 1 << (index % 64));
    }

    /// Adds the cells of a run of row-major indexes of the shape.
    ///
    /// Takes time in the number of words, of 64 cells each, in which the run has cells.
    pub fn add_run(&mut self, run: Run)
        requires order { run.first ≤ run.last }
        requires within { run.last < size_of self.old.extent }
        ensures { self.new ≡ union_of self.old (run_cells self.old.extent run) }
    {
        let _ = &self.shape; // the set as it was is that of its cells
        for word in run.first / 64..run.last / 64 + 1 {
            self.add_word(word, bits_of_run(run, word));
        }
    }

    /// Adds the cells of another bitmap of the same shape.
    ///
    /// Takes time in the number of words from the least to the greatest that the other has touched.
    pub fn add_bits(&mut self, other: &CellBits)
        requires { other.now.extent ≡ self.old.extent }
        ensures { self.new ≡ union_of self.old other.now }
    {
        let _ = &self.shape; // the set as it was is that of its cells
        for word in other.first..other.end {
            self.add_word(word, other.words[word as usize]);
        }
    }

    /// Adds the cells of a set of the same shape.
    ///
    /// Takes time in the number of the set's runs and of the words in which they have cells.
    pub fn add_set(&mut self, set: &CellSet)
        requires { set.now.extent ≡ self.old.extent }
        ensures { self.new ≡ union_of self.old set.now }
    {
        let _ = &self.shape; // the set as it was is that of its cells
        for run in set.runs() {
            self.add_run(*run);
        }
    }

    /// Adds the cells of the bits of one word.
    fn add_word(&mut self, word: u32, bits: u64)
        requires within { word < words_for self.old.extent }
        requires held { (k : ℕ) → size_of self.old.extent ≤ k → is_in_word word bits k ≡ false }
        ensures { self.new ≡ union_of self.old (cells_at self.old.extent (is_in_word word bits)) }
    {
        self.words[word as usize] |= bits;
        self.first = self.first.min(word);
        self.end = self.end.max(word + 1);
    }

    /// Takes all cells out.
    ///
    /// Takes time in the number of words from the least to the greatest that were touched since the
    /// last clear.
    pub fn clear(&mut self)
        ensures { self.new ≡ no_cells self.old.extent }
    {
        clear_words(&mut self.words, self.first, self.end);
        self.first = self.words.len() as u32;
        self.end = 0;
    }

    /// Whether the set has the cell. False for a cell that the shape does not hold.
    pub fn has(&self, cell: Cell) -> bool
        ensures { result ≡ has self.now cell }
    {
        self.shape.holds(cell) && self.has_index(self.shape.index(cell))
    }

    /// Whether the set has the cell of an index of the shape.
    pub fn has_index(&self, index: u32) -> bool
        requires { index < size_of self.now.extent }
        ensures { result ≡ list_any (λ k. k == index) self.now.indexes }
    {
        (self.words[(index / 64) as usize] >> (index % 64)) & 1 == 1
    }

    /// Whether the set has no cell.
    pub fn is_empty(&self) -> bool
        ensures { IsTrue result ↔ (self.now.indexes ≡ []) }
    {
        self.next_after(0).is_none()
    }

    /// The least index of the set at or after a number. `None` exactly where there is none.
    ///
    /// Takes time in the number of words that it passes between the greater of `from` and the least
    /// index that was touched, and the index that it finds or the greatest that was touched.
    pub fn next_after(&self, from: u32) -> Option<u32>
        ensures { result ≡ next_index self.now from }
    {
        next_one(&self.words, from.max(self.first * 64), self.end)
    }

    /// The set as it is now, as a `CellSet`.
    ///
    /// Takes time in the number of runs and of the words that were touched, and memory in the
    /// number of runs.
    pub fn to_set(&self, alloc: Global) -> Result<CellSet, NoMemory>
        ensures { IfOk result (λ s. s ≡ self.now) }
    {
        let runs = longest_runs(alloc, &self.words, self.first, self.end)?;
        Ok(CellSet::from_runs(self.shape, runs))
    }
}
