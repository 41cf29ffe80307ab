//! Looks forward: from cells of an input to the output cells whose payloads stand for one of them.

ghost use Rattle.std.specs.Prelude.{◌≡◌, ◌<◌, ◌≤◌, ◌==◌, ◌&&◌};
ghost use Rattle.sz_payload.specs.Terms.{length, true, Cell, size_of, cell_of, index_of, any_cell};
ghost use Rattle.sz_payload.specs.Terms.{has, union_of, with_those, AreRunsFrom, covers, is_in};
ghost use Rattle.sz_payload.specs.Terms.{cells_at, Forward, is_payload, mapped_by_payload};
ghost use Rattle.sz_payload.specs.Terms.{image_in, extent_at, entries, entry_at, payload_at};
ghost use Rattle.sz_payload.specs.Terms.{AreAlike, entries_stand, IsHeld, IsTested, entry_adds};
ghost use Rattle.sz_payload.specs.Terms.{entries_add, lone};

use crate::look::Look;
use crate::table::{is_alike, meets};
use sz_cells::{CellBits, Run};

/// The number of the payload that was tested last, and whether it stands for an asked cell.
#[derive(Clone, Copy)]
pub(crate) struct Tested {
    pub number: u32,
    pub meets: bool,
}

impl<'a> Look<'a> {
    /// Adds the output cells whose entries stand for a cell of an input, or whose default does.
    /// Takes no memory. Costs a test of each entry's payload, of entries that follow one another
    /// with one payload a single test where it stands for the same cells, and else a test of each
    /// of their output cells.
    pub(crate) fn forward(&self, comp: bool, input: u32, from: &CellBits, to: &mut CellBits)
        requires held { IsHeld self.now.at.now self.now.table.now self.now.owner.now }
        requires input { input < length self.now.at.now.ins }
        requires from { from.now.extent ≡ extent_at self.now.at.now.ins input }
        requires to { to.old.extent ≡ self.now.at.now.out }
        ensures { let s = self.now.at.now in to.new ≡ with_those to.old
            (has (image_in Forward s input (entries_stand comp s (entries self.now.table.now) input)
            from.now)) }
    {
        self.entries_forward(input, from, to);
        if comp {
            self.defaults_forward(input, from, to);
        }
    }

    /// Adds the output cells whose entries stand for an asked cell.
    fn entries_forward(&self, input: u32, from: &CellBits, to: &mut CellBits)
        requires held { IsHeld self.now.at.now self.now.table.now self.now.owner.now }
        requires input { input < length self.now.at.now.ins }
        requires from { from.now.extent ≡ extent_at self.now.at.now.ins input }
        requires to { to.old.extent ≡ self.now.at.now.out }
        ensures { to.new ≡ with_those to.old
            (entries_add self.now.at.now input from.now (entries self.now.table.now)) }
    {
        to.shape(); // the set as it was is that of its cells
        let mut last = None;
        for row in 0..self.table.len() {
            last = self.row_forward(input, row, from, last, to);
        }
    }

    /// Adds the output cells of a row whose payload stands for an asked cell.
    fn row_forward(
        &self,
        input: u32,
        row: u32,
        from: &CellBits,
        last: Option<Tested>,
        to: &mut CellBits,
    ) -> Option<Tested>
        requires held { IsHeld self.now.at.now self.now.table.now self.now.owner.now }
        requires input { input < length self.now.at.now.ins }
        requires row { row < length (entries self.now.table.now) }
        requires from { from.now.extent ≡ extent_at self.now.at.now.ins input }
        requires to { to.old.extent ≡ self.now.at.now.out }
        requires tested { IsTested self.now.at.now self.now.table.now.payloads input from.now last }
        ensures to { to.new ≡ with_those to.old (entry_adds self.now.at.now input from.now
            (entry_at (entries self.now.table.now) row)) }
        ensures tested { IsTested self.now.at.now self.now.table.now.payloads input from.now
            result }
    {
        to.shape(); // the set as it was is that of its cells
        self.table.len(); // there is a row for each entry
        let number = self.table.payload_number(row);
        let payload = self.table.payload(number);
        let runs = self.table.out_runs(self.table.set_number(row));
        if !is_alike(self.at, payload, input) {
            self.add_met(runs, payload, input, from, to);
            return last;
        }
        let tested = self.tested(number, payload, input, from, last);
        if tested.meets {
            add_all(runs, to);
        }
        Some(tested)
    }

    /// Whether a payload that stands for the same cells whichever its output cell stands for an
    /// asked one, which is known where it was tested last.
    fn tested(
        &self,
        number: u32,
        payload: &[u8],
        input: u32,
        from: &CellBits,
        last: Option<Tested>,
    ) -> Tested
        requires held { IsHeld self.now.at.now self.now.table.now self.now.owner.now }
        requires input { input < length self.now.at.now.ins }
        requires lawful { is_payload self.now.at.now.op self.now.at.now.ins payload.now ≡ true }
        requires alike { AreAlike self.now.at.now.op self.now.at.now.ins payload.now input }
        requires payload { payload.now ≡ payload_at self.now.table.now.payloads number }
        requires from { from.now.extent ≡ extent_at self.now.at.now.ins input }
        requires tested { IsTested self.now.at.now self.now.table.now.payloads input from.now last }
        ensures number { result.number ≡ number }
        ensures meets { let s = self.now.at.now in (o : Cell) → result.meets
            ≡ any_cell (mapped_by_payload s.op s.ins payload.now input o) from.now }
    {
        match last {
            Some(tested) if tested.number == number => tested,
            _ => Tested {
                number,
                meets: self.any_meets(payload, input, from),
            },
        }
    }

    /// The same by a test at the first output cell.
    fn any_meets(&self, payload: &[u8], input: u32, from: &CellBits) -> bool
        requires held { IsHeld self.now.at.now self.now.table.now self.now.owner.now }
        requires input { input < length self.now.at.now.ins }
        requires lawful { is_payload self.now.at.now.op self.now.at.now.ins payload.now ≡ true }
        requires alike { AreAlike self.now.at.now.op self.now.at.now.ins payload.now input }
        requires from { from.now.extent ≡ extent_at self.now.at.now.ins input }
        ensures { let s = self.now.at.now in (o : Cell) → result
            ≡ any_cell (mapped_by_payload s.op s.ins payload.now input o) from.now }
    {
        let shape = self.at.out();
        shape.size(); // it has a cell
        meets(self.at, shape.cell_at(0), payload, input, from)
    }

    /// Adds those cells of some runs of the output for which a payload stands for an asked cell.
    fn add_met(&self, runs: &[Run], payload: &[u8], input: u32, from: &CellBits, to: &mut CellBits)
        requires held { IsHeld self.now.at.now self.now.table.now self.now.owner.now }
        requires runs { AreRunsFrom 0 (size_of self.now.at.now.out) runs.now }
        requires lawful { is_payload self.now.at.now.op self.now.at.now.ins payload.now ≡ true }
        requires input { input < length self.now.at.now.ins }
        requires from { from.now.extent ≡ extent_at self.now.at.now.ins input }
        requires to { to.old.extent ≡ self.now.at.now.out }
        ensures { let s = self.now.at.now in to.new ≡ with_those to.old
            (λ o. covers runs.now (index_of s.out o)
            && any_cell (mapped_by_payload s.op s.ins payload.now input o) from.now) }
    {
        to.shape(); // the set as it was is that of its cells
        for run in runs {
            self.add_met_run(*run, payload, input, from, to);
        }
    }

    /// The same of a run.
    fn add_met_run(&self, run: Run, payload: &[u8], input: u32, from: &CellBits, to: &mut CellBits)
        requires held { IsHeld self.now.at.now self.now.table.now self.now.owner.now }
        requires order { run.first ≤ run.last }
        requires within { run.last < size_of self.now.at.now.out }
        requires lawful { is_payload self.now.at.now.op self.now.at.now.ins payload.now ≡ true }
        requires input { input < length self.now.at.now.ins }
        requires from { from.now.extent ≡ extent_at self.now.at.now.ins input }
        requires to { to.old.extent ≡ self.now.at.now.out }
        ensures { let s = self.now.at.now in to.new ≡ with_those to.old
            (λ o. is_in run (index_of s.out o)
            && any_cell (mapped_by_payload s.op s.ins payload.now input o) from.now) }
    {
        to.shape(); // the set as it was is that of its cells
        self.at.out().size(); // so an index can be counted up
        for index in run.first..run.last + 1 {
            self.add_met_cell(index, payload, input, from, to);
        }
    }

    /// The same of a cell.
    fn add_met_cell(
        &self,
        index: u32,
        payload: &[u8],
        input: u32,
        from: &CellBits,
        to: &mut CellBits,
    )
        requires held { IsHeld self.now.at.now self.now.table.now self.now.owner.now }
        requires index { index < size_of self.now.at.now.out }
        requires lawful { is_payload self.now.at.now.op self.now.at.now.ins payload.now ≡ true }
        requires input { input < length self.now.at.now.ins }
        requires from { from.now.extent ≡ extent_at self.now.at.now.ins input }
        requires to { to.old.extent ≡ self.now.at.now.out }
        ensures { let s = self.now.at.now in to.new ≡ with_those to.old
            (λ o. (index_of s.out o == index)
            && any_cell (mapped_by_payload s.op s.ins payload.now input o) from.now) }
    {
        to.shape(); // the set as it was is that of its cells
        let cell = self.at.out().cell_at(index);
        if meets(self.at, cell, payload, input, from) {
            to.set(cell);
        }
    }

    /// Adds the output cells that are in no entry, and have the default of an asked cell.
    fn defaults_forward(&self, input: u32, from: &CellBits, to: &mut CellBits)
        requires held { IsHeld self.now.at.now self.now.table.now self.now.owner.now }
        requires input { input < length self.now.at.now.ins }
        requires from { from.now.extent ≡ extent_at self.now.at.now.ins input }
        requires to { to.old.extent ≡ self.now.at.now.out }
        ensures { let s = self.now.at.now in to.new ≡ with_those to.old
            (has (image_in Forward s input (lone s (entries self.now.table.now) input) from.now)) }
    {
        to.shape(); // the set as it was is that of its cells
        if input == 0 {
            self.firsts_forward(from, to);
        }
    }

    /// Adds the output cells that are in no entry, and are asked cells of input 0.
    fn firsts_forward(&self, from: &CellBits, to: &mut CellBits)
        requires held { IsHeld self.now.at.now self.now.table.now self.now.owner.now }
        requires input { 0 < length self.now.at.now.ins }
        requires from { from.now.extent ≡ extent_at self.now.at.now.ins 0 }
        requires to { to.old.extent ≡ self.now.at.now.out }
        ensures { let s = self.now.at.now in to.new ≡ with_those to.old
            (has (image_in Forward s 0 (lone s (entries self.now.table.now) 0) from.now)) }
    {
        to.shape(); // the set as it was is that of its cells
        self.at.out(); // the output has the shape of input 0
        let shape = from.shape();
        let end = shape.size();
        let mut start = 0;
        while start < end {
            match from.next_after(start) {
                Some(index) => {
                    self.first_forward(index, to);
                    start = index + 1;
                }
                None => start = end,
            }
        }
    }

    /// Adds an output cell that is in no entry.
    fn first_forward(&self, index: u32, to: &mut CellBits)
        requires held { IsHeld self.now.at.now self.now.table.now self.now.owner.now }
        requires index { index < size_of self.now.at.now.out }
        requires to { to.old.extent ≡ self.now.at.now.out }
        ensures { let s = self.now.at.now in to.new ≡ with_those to.old
            (λ o. lone s (entries self.now.table.now) 0 o (cell_of s.out index)) }
    {
        to.shape(); // the set as it was is that of its cells
        let cell = self.at.out().cell_at(index);
        match self.owner.entry_of(self.table, index) {
            Some(_row) => {}
            None => to.set(cell),
        }
    }
}

/// Adds the cells of runs.
fn add_all(runs: &[Run], to: &mut CellBits)
    requires { AreRunsFrom 0 (size_of to.old.extent) runs.now }
    ensures { to.new ≡ union_of to.old (cells_at to.old.extent (covers runs.now)) }
{
    to.shape(); // the set as it was is that of its cells
    for run in runs {
        to.add_run(*run);
    }
}
