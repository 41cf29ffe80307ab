//! What is known of each cell while components are numbered: a mark a cell, four bytes each.

ghost use Rattle.std.specs.Prelude.{◌≡◌, ◌+◌, ◌<◌, ◌≤◌};
ghost use Rattle.sz_ops_region.specs.Terms.{ℕ, length, map, IfOk, slice_set, is_at_least, mark_in};
ghost use Rattle.sz_ops_region.specs.Terms.{mark_at, AreStretches};

use std::alloc::Global;
use std::marker::Model;
use sz_cells::NoMemory;
use sz_spec::Value;

/// What is known of a cell.
#[derive(Clone, Copy)]
pub(crate) enum Mark {
    /// It is not high.
    Low,
    /// It is high and has no high neighbour: it is a component by itself.
    Alone,
    /// It is of the component of this number.
    Numbered(u32),
}

/// The marks of cells, in row-major order. Contracts see the list of them.
#[derive(Drop)]
pub(crate) struct Marks {
    words: Vec<u32>,
}

impl Model for Marks {
    ghost use Rattle.std.specs.Prelude.{List, map};
    ghost use Rattle.sz_ops_region.specs.declared.marks.Mark.{Mark};

    ghost Value = { List Mark };

    ghost use Rattle.sz_ops_region.specs.Marks.{mark_in};

    ghost view = { λ m. map mark_in m.words.items };
}

/// The words of the marks. That of a number is so much more than the number as there are others.
const LOW: u32 = 0;

const ALONE: u32 = 1;

const OTHERS: u32 = 2;

impl Marks {
    /// The marks of so many cells, of which none is high.
    pub(crate) fn none(alloc: Global, count: usize) -> Result<Marks, NoMemory>
        ensures long { IfOk result (λ m. length m ≡ count) }
        ensures low { IfOk result (λ m. (k : ℕ) → mark_at m k ≡ Mark.Low) }
    {
        Ok(Marks {
            words: vec![in alloc; LOW; count]?,
        })
    }

    /// How many cells there are.
    pub(crate) fn len(&self) -> u32
        requires { length self.now ≤ 1048576 }
        ensures { result ≡ length self.now }
    {
        self.words.len() as u32
    }

    /// The mark of the cell of an index.
    pub(crate) fn at(&self, index: u32) -> Mark
        requires { index < length self.now }
        ensures { result ≡ mark_at self.now index }
    {
        mark_of(self.words[index as usize])
    }

    /// Marks the cell of an index by a number.
    pub(crate) fn give(&mut self, index: u32, number: u32)
        requires index { index < length self.old }
        requires small { number < 1048576 }
        ensures { self.new ≡ slice_set self.old index (Mark.Numbered number) }
    {
        self.words[index as usize] = OTHERS + number;
    }

    /// Marks the cell of an index as a component by itself.
    pub(crate) fn set_alone(&mut self, index: u32)
        requires { index < length self.old }
        ensures { self.new ≡ slice_set self.old index Mark.Alone }
    {
        self.words[index as usize] = ALONE;
    }

    /// The indexes at which the stretches of cells with one mark begin, and behind them the number
    /// of cells.
    ///
    /// Takes time and memory in the number of cells, however many stretches there are.
    pub(crate) fn stretches(&self, alloc: Global) -> Result<Vec<u32>, NoMemory>
        requires few { length self.now ≤ 1048576 }
        requires some { 0 < length self.now }
        ensures { IfOk result (λ v. AreStretches self.now v.items) }
    {
        let mut starts = vec![in alloc; 0u32; self.words.len() + 1]?;
        write_starts(&self.words, &mut starts);
        Ok(starts)
    }
}

/// Writes the indexes at which words differ from the one before them, with 0 in front and the
/// number of words behind. There is one place more to write to than there are words.
///
/// It takes no branch by a word, since which words differ cannot be foreseen.
fn write_starts(words: &[u32], starts: &mut Vec<u32>)
    requires few { length words.now ≤ 1048576 }
    requires some { 0 < length words.now }
    requires room { length starts.old.items ≡ length words.now + 1 }
    ensures { AreStretches (map mark_in words.now) starts.new.items }
{
    starts[0] = 0;
    let mut count = 1;
    for index in 1..words.len() {
        starts[count] = index as u32;
        let differs = words[index] != words[index - 1];
        count += if differs { 1 } else { 0 };
    }
    starts[count] = words.len() as u32;
    starts.truncate(count + 1);
}

/// Whether a value is high.
pub(crate) fn is_high(value: Value, t: i64) -> bool
    ensures { result ≡ is_at_least t value }
{
    match value {
        Some(number) => t <= number,
        None => false,
    }
}

/// The mark of a word.
fn mark_of(word: u32) -> Mark
    ensures { result ≡ mark_in word }
{
    if word == LOW {
        Mark::Low
    } else if word == ALONE {
        Mark::Alone
    } else {
        Mark::Numbered(word - OTHERS)
    }
}
