//! The runs of each component: one pass over the marks of all cells, run by run.

ghost use Rattle.std.specs.Prelude.{◌≡◌, ◌+◌, ◌^◌, ◌<◌, ◌≤◌};
ghost use Rattle.sz_ops_region.specs.Terms.{ℕ, [], length, IfOk, OnOk, Some, size_of, number_of};
ghost use Rattle.sz_ops_region.specs.Terms.{AreStretches, HasRuns, AreLists, cells_numbered};

use crate::marks::{Mark, Marks};
use std::alloc::Global;
use std::marker::Model;
use sz_cells::{CellSet, NoMemory, Run, Shape, add_run};

/// Runs that rise, with a gap between any two. Contracts see the list of them.
#[derive(Drop)]
pub(crate) struct RunList {
    runs: Vec<Run>,
}

impl Model for RunList {
    ghost use Rattle.std.specs.Prelude.{List};
    ghost use Rattle.sz_cells.specs.declared.Run.{Run};

    ghost Value = { List Run };

    ghost view = { λ r. r.runs.items };
}

impl RunList {
    /// No run.
    pub(crate) fn new(alloc: Global) -> RunList
        ensures { result ≡ [] }
    {
        RunList {
            runs: Vec::new(alloc),
        }
    }

    /// No run, with room for so many.
    fn with_room(alloc: Global, room: u32) -> Result<RunList, NoMemory>
        ensures { IfOk result (λ r. r ≡ []) }
    {
        let mut runs = Vec::new(alloc);
        runs.reserve(room as usize)?;
        Ok(RunList { runs })
    }

    /// Adds the next run, of which each cell has the number of these runs.
    fn add(&mut self, marks: &Marks, number: u32, run: Run) -> Result<(), NoMemory>
        requires runs { HasRuns marks.now run.first number self.old }
        requires order { run.first ≤ run.last }
        requires number { (k : ℕ) → run.first ≤ k → k ≤ run.last
            → number_of marks.now k ≡ Some number }
        ensures { OnOk result (HasRuns marks.now (run.last + 1) number self.new) }
    {
        add_run(&mut self.runs, run)?;
        Ok(())
    }

    /// The set of the cells of a number, which these are the runs of.
    pub(crate) fn into_set(self, shape: Shape, marks: &Marks, number: u32) -> CellSet
        requires { HasRuns marks.now (size_of shape) number self }
        ensures { result ≡ cells_numbered shape marks.now number }
    {
        CellSet::from_runs(shape, self.runs)
    }
}

/// The runs of the cells of each number, each list made once with room for all of its runs.
pub(crate) fn lists_of(alloc: Global, marks: &Marks, count: u32) -> Result<Vec<RunList>, NoMemory>
    requires few { length marks.now ≤ 1048576 }
    requires some { 0 < length marks.now }
    requires below { (k j : ℕ) → number_of marks.now k ≡ Some j → j < count }
    ensures { IfOk result (λ v. AreLists marks.now (length marks.now) count v.items) }
{
    let starts = marks.stretches(alloc)?;
    let rooms = rooms_of(alloc, marks, count, &starts)?;
    let mut lists = empty_lists(alloc, marks, &rooms)?;
    for stretch in 0..starts.len() - 1 {
        let first = starts[stretch];
        if let Mark::Numbered(number) = marks.at(first) {
            let run = Run {
                first,
                last: starts[stretch + 1] - 1,
            };
            lists[number as usize].add(marks, number, run)?;
        }
    }
    Ok(lists)
}

/// How many runs the cells of each number have.
fn rooms_of(alloc: Global, marks: &Marks, count: u32, starts: &[u32]) -> Result<Vec<u32>, NoMemory>
    requires few { length marks.now ≤ 1048576 }
    requires below { (k j : ℕ) → number_of marks.now k ≡ Some j → j < count }
    requires starts { AreStretches marks.now starts.now }
    ensures { IfOk result (λ v. length v.items ≡ count) }
{
    let mut rooms = vec![in alloc; 0u32; count as usize]?;
    for stretch in 0..starts.len() - 1 {
        if let Mark::Numbered(number) = marks.at(starts[stretch]) {
            rooms[number as usize] += 1;
        }
    }
    Ok(rooms)
}

/// Lists without a run, each with room for so many as there are to be.
fn empty_lists(alloc: Global, marks: &Marks, rooms: &[u32]) -> Result<Vec<RunList>, NoMemory>
    requires { length rooms.now < 2 ^ 32 }
    ensures { IfOk result (λ v. AreLists marks.now 0 (length rooms.now) v.items) }
{
    let mut lists = Vec::new(alloc);
    lists.reserve(rooms.len())?;
    for room in rooms {
        lists.push(RunList::with_room(alloc, *room)?)?;
    }
    Ok(lists)
}
