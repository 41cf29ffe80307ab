//! Looks backward: from output cells to the cells of an input that their payloads stand for.

ghost use Rattle.std.specs.Prelude.{◌≡◌, ◌<◌, ◌↔◌};
ghost use Rattle.sz_payload.specs.Terms.{length, true, IsTrue, Some, holds, size_of, cell_of, has};
ghost use Rattle.sz_payload.specs.Terms.{with_those, Back, mapped_by_payload, image_in, extent_at};
ghost use Rattle.sz_payload.specs.Terms.{entries, entry_at, entries_stand, IsHeld, IsDone};

use crate::look::Look;
use crate::table::is_alike;
use sz_cells::{Cell, CellBits};
use sz_spec::Mapper;

impl<'a> Look<'a> {
    /// Adds the cells of an input for which the entries of some output cells stand. Takes no
    /// memory, and time in the asked cells and what each adds; a payload that stands for the same
    /// cells as the one before adds them once.
    pub(crate) fn back<M: Mapper>(
        &self,
        map: &M,
        comp: bool,
        input: u32,
        from: &CellBits,
        to: &mut CellBits,
    )
        requires held { IsHeld self.now.at.now self.now.table.now self.now.owner.now }
        requires map { M.site map.now ≡ self.now.at.now }
        requires input { input < length self.now.at.now.ins }
        requires from { from.now.extent ≡ self.now.at.now.out }
        requires to { to.old.extent ≡ extent_at self.now.at.now.ins input }
        ensures { let s = self.now.at.now in to.new ≡ with_those to.old
            (has (image_in Back s input (entries_stand comp s (entries self.now.table.now) input)
            from.now)) }
    {
        to.shape(); // the set as it was is that of its cells
        let shape = from.shape();
        let end = shape.size();
        let mut last = None;
        let mut start = 0;
        while start < end {
            match from.next_after(start) {
                Some(index) => {
                    last = self.cell_back(map, comp, input, index, last, to);
                    start = index + 1;
                }
                None => start = end,
            }
        }
    }

    /// Adds the cells for which the entry of an output cell stands, or its default. `last` is the
    /// number of a payload whose cells are there, whichever its output cell, and so is the result.
    fn cell_back<M: Mapper>(
        &self,
        map: &M,
        comp: bool,
        input: u32,
        index: u32,
        last: Option<u32>,
        to: &mut CellBits,
    ) -> Option<u32>
        requires held { IsHeld self.now.at.now self.now.table.now self.now.owner.now }
        requires map { M.site map.now ≡ self.now.at.now }
        requires input { input < length self.now.at.now.ins }
        requires index { index < size_of self.now.at.now.out }
        requires to { to.old.extent ≡ extent_at self.now.at.now.ins input }
        requires done { IsDone self.now.at.now self.now.table.now.payloads input last to.old }
        ensures to { let s = self.now.at.now in to.new ≡ with_those to.old
            (entries_stand comp s (entries self.now.table.now) input (cell_of s.out index)) }
        ensures done { IsDone self.now.at.now self.now.table.now.payloads input result to.new }
    {
        to.shape(); // the set as it was is that of its cells
        let cell = self.at.out().cell_at(index);
        match self.owner.entry_of(self.table, index) {
            Some(row) => self.payload_back(map, input, row, cell, last, to),
            None => {
                if comp {
                    map.map_b_into(cell, input, to);
                }
                last
            }
        }
    }

    /// Adds the cells for which the payload of an entry stands.
    fn payload_back<M: Mapper>(
        &self,
        map: &M,
        input: u32,
        row: u32,
        cell: Cell,
        last: Option<u32>,
        to: &mut CellBits,
    ) -> Option<u32>
        requires held { IsHeld self.now.at.now self.now.table.now self.now.owner.now }
        requires map { M.site map.now ≡ self.now.at.now }
        requires input { input < length self.now.at.now.ins }
        requires row { row < length (entries self.now.table.now) }
        requires cell { holds self.now.at.now.out cell ≡ true }
        requires to { to.old.extent ≡ extent_at self.now.at.now.ins input }
        requires done { IsDone self.now.at.now self.now.table.now.payloads input last to.old }
        ensures to { let s = self.now.at.now in to.new ≡ with_those to.old
            (mapped_by_payload s.op s.ins (entry_at (entries self.now.table.now) row).payload
            input cell) }
        ensures done { IsDone self.now.at.now self.now.table.now.payloads input result to.new }
    {
        to.shape(); // the set as it was is that of its cells
        self.table.len(); // there is a row for each entry
        let number = self.table.payload_number(row);
        if is_number(last, number) {
            return last;
        }
        let payload = self.table.payload(number);
        map.map_p_into(cell, payload, input, to);
        if is_alike(self.at, payload, input) {
            Some(number)
        } else {
            last
        }
    }
}

/// Whether a number is there, and is this one.
fn is_number(last: Option<u32>, number: u32) -> bool
    ensures { IsTrue result ↔ (last ≡ Some number) }
{
    last == Some(number)
}
