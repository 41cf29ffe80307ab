//! The cells of each number, as runs.

ghost use Rattle.std.specs.Prelude.{◌≡◌, ◌<◌, ◌≤◌, ◌+◌, ◌^◌};
ghost use Rattle.sz_merge.specs.Terms.{[], length, All, IfOk, OnOk, slice_index_or, filter};
ghost use Rattle.sz_merge.specs.Terms.{range_with_len, AreGroups, HasCellMore, is_kind};

use std::alloc::Global;
use std::marker::Model;
use sz_cells::{NoMemory, Run, add_run};

/// The cells of each number: its first cell, and behind each cell the next one. Contracts see the
/// longest runs of the cells of each number.
#[derive(Drop)]
pub struct Grouping {
    /// For each number one more than the least cell that has it, 0 where none has.
    first: Vec<u32>,
    /// For each cell one more than the next cell that has the same number, 0 where none has.
    next: Vec<u32>,
}

impl Model for Grouping {
    ghost use Rattle.std.specs.Prelude.{List};
    ghost use Rattle.sz_cells.specs.declared.Run.{Run};
    ghost use Rattle.sz_merge.specs.Links.{AreLinks, groups_told};

    ghost Value = { List (List Run) };

    ghost view = { λ g. groups_told g.first.items g.next.items };

    ghost invariant = { λ g. AreLinks g.first.items g.next.items };
}

/// For each number below a count, the cells that have it.
///
/// Costs a look at each cell, and memory for a number for each cell and each number.
pub fn group_cells(alloc: Global, count: u32, labels: &[u32]) -> Result<Grouping, NoMemory>
    requires numbers { All (λ n. n < count) labels.now }
    requires few { length labels.now < 2 ^ 32 }
    ensures { IfOk result (λ g. AreGroups labels.now count (length labels.now) g) }
{
    let mut first = vec![in alloc; 0u32; count as usize]?;
    let mut next = vec![in alloc; 0u32; labels.len()]?;
    for index in (0..labels.len()).rev() {
        let number = labels[index] as usize;
        next[index] = first[number];
        first[number] = index as u32 + 1;
    }
    Ok(Grouping { first, next })
}

impl Grouping {
    /// How many numbers above 0 some cell has.
    ///
    /// Costs a look at each number.
    pub fn count_kinds(&self) -> u32
        requires some { 0 < length self.now }
        requires few { length self.now ≤ 2 ^ 30 + 1 }
        ensures count { result
            ≡ length (filter (is_kind self.now) (range_with_len 0 (length self.now))) }
        ensures few { result ≤ 2 ^ 30 }
    {
        let mut count = 0;
        for number in 1..self.first.len() {
            if self.first[number] != 0 {
                count += 1;
            }
        }
        count
    }

    /// Puts the longest runs of the cells of a number in the place of what a list holds.
    ///
    /// Costs a look at each of the cells.
    pub fn put_runs(&self, number: u32, runs: &mut Vec<Run>) -> Result<(), NoMemory>
        requires { number < length self.now }
        ensures { OnOk result (runs.new.items ≡ slice_index_or self.now number []) }
    {
        runs.clear();
        let mut told = self.first[number as usize];
        while told != 0 {
            let index = told - 1;
            add_cell(runs, index)?;
            told = self.next[index as usize];
        }
        Ok(())
    }
}

/// Puts a cell behind those of some runs.
fn add_cell(runs: &mut Vec<Run>, index: u32) -> Result<(), NoMemory>
    requires { All (λ r. r.first ≤ index) runs.old.items }
    ensures { OnOk result (HasCellMore runs.old.items index runs.new.items) }
{
    let cell = Run {
        first: index,
        last: index,
    };
    add_run(runs, cell)?;
    Ok(())
}
