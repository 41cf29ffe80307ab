//! Which entry an output cell is in.

ghost use Rattle.std.specs.Prelude.{◌≡◌, ◌<◌, ◌≤◌, ◌+◌, ◌*◌, ◌++◌, ◌∷◌, if◌then◌else◌};
ghost use Rattle.sz_payload.specs.Terms.{[], ℕ, List, length, true, false, IfOk, OnOk, slice_index};
ghost use Rattle.sz_payload.specs.Terms.{nat_lt, IsNonDecreasingBy, IsPartitionPoint, size_of};
ghost use Rattle.sz_payload.specs.Terms.{cell_of, Extent, has, AreRunsFrom, covers, indexes_of};
ghost use Rattle.sz_payload.specs.Terms.{is_in, Entry, entries, entry_at, told, cells_in};
ghost use Rattle.sz_payload.specs.Terms.{most_given, IsIndexOf, IsOwnerOf, AreFilesOf, AreRound};
ghost use Rattle.sz_payload.specs.Terms.{AreSlotsOf, HasCellRoom, cell_room, rests, room_in};
ghost use Rattle.sz_payload.specs.Terms.{with_cells, owner_capacities};

use std::alloc::Global;
use sz_cells::{Bounds, CellSet, NoMemory, Run, Shape};
use sz_rtree::RTree;
use sz_tables::{Chains, EntryTable, bounds_of_set};

/// An index of entries whose sets are apart.
#[derive(Drop)]
pub(crate) enum Owner {
    /// For each output cell the number of its entry and one more, or 0.
    One(Vec<u32>),
    /// The number of its entry under each cell that is in one, by the rest of the cell's index over
    /// the number of keys: what is kept while few cells are in an entry.
    Few(Chains),
    /// A rectangle round the set of each entry.
    Many(RTree),
}

impl Owner {
    /// The index of no entry: by rectangles, or by single cells, of which there are few.
    pub(crate) fn new(alloc: Global, shape: Shape, many: bool) -> Result<Owner, NoMemory>
        ensures index { IfOk result (IsIndexOf shape []) }
        ensures room { IfOk result (λ w. room_in 0 w ≡ 0) }
        ensures cells { IfOk result (λ w. cell_room 0 w ≡ 0) }
    {
        if many {
            Ok(Owner::Many(RTree::new(alloc)?))
        } else {
            Ok(Owner::Few(no_files(alloc, shape)?))
        }
    }

    /// The index of the entries of a table, as it would be if they were added one by one, without
    /// room for more.
    ///
    /// Costs a visit to each entry; where it is by single cells also to each cell of the entries,
    /// and where these are many memory for each output cell.
    pub(crate) fn of_table(alloc: Global, table: &EntryTable, many: bool) -> Result<Owner, NoMemory>
        ensures { IfOk result (IsIndexOf table.now.out (entries table.now)) }
    {
        if many {
            return Ok(Owner::Many(tree_of(alloc, table)?));
        }
        let cells = cells_of(table);
        if most_filed(table.shape()) < cells {
            Ok(Owner::One(slots_of(alloc, table)?))
        } else {
            Ok(Owner::Few(files_of(alloc, table, cells)?))
        }
    }

    /// Gives each output cell a slot where more than one in sixteen would be in an entry, and where
    /// so many cells more are to be.
    pub(crate) fn widen(&mut self, table: &EntryTable, cells: usize) -> Result<(), NoMemory>
        ensures { IsIndexOf table.now.out (entries table.now) self.old
            → IsIndexOf table.now.out (entries table.now) self.new }
    {
        let most = most_filed(table.shape());
        let crowded = match self {
            Owner::Few(files) => {
                if most < (files.len() as usize).saturating_add(cells) {
                    Some(files.allocator())
                } else {
                    None
                }
            }
            _ => None,
        };
        if let Some(alloc) = crowded {
            *self = Owner::One(slots_of(alloc, table)?);
        }
        Ok(())
    }

    /// Makes room for so many more entries, which have so many cells.
    pub(crate) fn reserve(&mut self, more: u32, cells: usize) -> Result<(), NoMemory>
        requires few { (e : Extent) × (es : List Entry) × IsIndexOf e es self.old
            × (length es + more ≤ most_given) }
        ensures ok { OnOk result ((rows : ℕ) → more ≤ rows → more ≤ room_in rows self.new) }
        ensures cells { OnOk result ((runs : ℕ) → cells ≤ runs * 1048576
            → cells ≤ cell_room runs self.new) }
        ensures kept { (e : Extent) (es : List Entry)
            → IsIndexOf e es self.old → IsIndexOf e es self.new }
    {
        match self {
            Owner::One(_) => Ok(()),
            Owner::Few(files) => reserve_cells(files, cells),
            Owner::Many(tree) => tree.reserve(more),
        }
    }

    /// Files the set of the entry of a number, which follows those that are there. Takes no memory:
    /// each capacity stays.
    pub(crate) fn add(&mut self, shape: Shape, set: &CellSet, row: u32)
        requires index { (es : List Entry) × IsIndexOf shape es self.old }
        requires set { set.now.extent ≡ shape }
        requires row { row < most_given }
        requires room { 0 < room_in 1 self.old }
        requires cells { HasCellRoom (cells_in set.now) self.old }
        ensures index { (es : List Entry) (e : Entry) → e.out ≡ set.now → length es ≡ row
            → IsIndexOf shape es self.old → IsIndexOf shape (es ++ e ∷ []) self.new }
        ensures room { (rows left : ℕ) → rows ≤ left + 1
            → room_in rows self.old ≤ room_in left self.new + 1 }
        ensures cells { (n : ℕ) → HasCellRoom (cells_in set.now + n) self.old
            → HasCellRoom n self.new }
        ensures capacities { owner_capacities self.new ≡ owner_capacities self.old }
    {
        shape.size(); // there are as many slots, no more than a shape has cells
        match self {
            Owner::One(slots) => fill(slots, set.runs(), row + 1),
            Owner::Few(files) => file_set(files, set, row),
            Owner::Many(tree) => tree.insert(bounds_of_set(set)),
        }
    }

    /// The number of the entry that a cell is in, if it is in one.
    pub(crate) fn entry_of(&self, table: &EntryTable, index: u32) -> Option<u32>
        requires index { IsIndexOf table.now.out (entries table.now) self.now }
        requires cell { index < size_of table.now.out }
        ensures { IsOwnerOf (entries table.now) (cell_of table.now.out index) result }
    {
        match self {
            Owner::One(slots) => told(slots[index as usize]),
            Owner::Few(files) => walk(files, table, index),
            Owner::Many(tree) => search(tree, table, index),
        }
    }
}

/// How many cells are filed at most: where more are in an entry, each output cell has a slot.
fn most_filed(shape: Shape) -> usize {
    shape.size() as usize / 16
}

/// Files under the rests of the cells of a shape, in which nothing is filed.
fn no_files(alloc: Global, shape: Shape) -> Result<Chains, NoMemory>
    ensures keys { IfOk result (λ f. 0 < f.keys) }
    ensures entries { IfOk result (λ f. f.entries ≡ []) }
    ensures room { IfOk result (λ f. f.spare ≡ 0) }
{
    Chains::new(alloc, shape.size() / 512 * 2 + 17)
}

/// How many cells the entries of a table have together, as far as it is no more than a `usize` says.
fn cells_of(table: &EntryTable) -> usize {
    let mut cells = 0usize;
    for row in 0..table.len() {
        for run in table.out_runs(table.set_number(row)) {
            cells = cells.saturating_add((run.last.saturating_sub(run.first)) as usize + 1);
        }
    }
    cells
}

/// A rectangle round the set of each entry of a table.
fn tree_of(alloc: Global, table: &EntryTable) -> Result<RTree, NoMemory>
    ensures { IfOk result (λ t. AreRound (entries table.now) t.rectangles) }
{
    let mut rectangles = Vec::with_capacity(alloc, table.len() as usize)?;
    for row in 0..table.len() {
        rectangles.push_reserved(table.out_bounds(row));
    }
    RTree::of(alloc, rectangles)
}

/// The number of its entry in a table under each cell of the entries, which are so many.
fn files_of(alloc: Global, table: &EntryTable, cells: usize) -> Result<Chains, NoMemory>
    ensures { IfOk result (AreFilesOf table.now.out (entries table.now)) }
{
    let mut files = no_files(alloc, table.shape())?;
    reserve_cells(&mut files, cells)?;
    for row in 0..table.len() {
        file_row(&mut files, table, row)?;
    }
    Ok(files)
}

/// Files the number of a row under each cell of its set, for which there is mostly room.
fn file_row(files: &mut Chains, table: &EntryTable, row: u32) -> Result<(), NoMemory>
    requires keys { 0 < files.old.keys }
    requires row { row < length table.now.rows }
    ensures keys { files.new.keys ≡ files.old.keys }
    ensures shape { (entry_at (entries table.now) row).out.extent ≡ table.now.out }
    ensures filed { OnOk result (files.new.entries ≡ files.old.entries
        ++ rests files.old.keys (entry_at (entries table.now) row).out.indexes row) }
{
    let shape = table.shape();
    shape.size(); // no index is past a shape
    let runs = table.out_runs(table.set_number(row));
    for run in runs {
        reserve_cells(files, (run.last - run.first + 1) as usize)?;
        file_run(files, *run, row);
    }
    Ok(())
}

/// For each output cell the number of its entry in a table and one more, or 0.
fn slots_of(alloc: Global, table: &EntryTable) -> Result<Vec<u32>, NoMemory>
    ensures { IfOk result (λ v. AreSlotsOf table.now.out (entries table.now) v.items) }
{
    let mut slots = vec![in alloc; 0u32; table.shape().size() as usize]?;
    for row in 0..table.len() {
        fill(&mut slots, table.out_runs(table.set_number(row)), row + 1);
    }
    Ok(slots)
}

/// Makes room for so many more cells in files, or says `NoMemory` where they would be too many to
/// number.
fn reserve_cells(files: &mut Chains, cells: usize) -> Result<(), NoMemory>
    ensures room { OnOk result (cells ≤ files.new.spare) }
    ensures keys { files.new.keys ≡ files.old.keys }
    ensures entries { files.new.entries ≡ files.old.entries }
{
    files.keys(); // there are less than 2^32
    let most = (u32::MAX - files.len()) as usize;
    if most < cells {
        return Err(NoMemory);
    }
    files.reserve(0, cells as u32)
}

/// Files a number under each cell of a set. Takes no memory.
fn file_set(files: &mut Chains, set: &CellSet, number: u32)
    requires keys { 0 < files.old.keys }
    requires room { cells_in set.now ≤ files.old.spare }
    ensures { files.new ≡ with_cells files.old set.now.indexes number }
{
    set.shape().size(); // no index is past a shape
    for run in set.runs() {
        file_run(files, *run, number);
    }
}

/// Files a number under each cell of a run.
fn file_run(files: &mut Chains, run: Run, number: u32)
    requires keys { 0 < files.old.keys }
    requires order { run.first ≤ run.last }
    requires few { run.last < 1048576 }
    requires room { length (indexes_of run) ≤ files.old.spare }
    ensures { files.new ≡ with_cells files.old (indexes_of run) number }
{
    let keys = files.keys();
    for index in run.first..run.last + 1 {
        files.add(index % keys, number);
    }
}

/// The number of an entry that has a cell, by the entries that are filed under the rest of its
/// index.
fn walk(files: &Chains, table: &EntryTable, index: u32) -> Option<u32>
    requires files { AreFilesOf table.now.out (entries table.now) files.now }
    requires cell { index < size_of table.now.out }
    ensures { IsOwnerOf (entries table.now) (cell_of table.now.out index) result }
{
    let key = index % files.keys();
    let mut next = files.last(key);
    while let Some(place) = next {
        let row = files.item(place);
        if entry_has(table, row, index) {
            return Some(row);
        }
        next = files.before(place, key);
    }
    None
}

/// The number that is kept as one more than it, and none where 0 is kept.
fn told(slot: u32) -> Option<u32>
    ensures { result ≡ told slot }
{
    if slot == 0 { None } else { Some(slot - 1) }
}

/// Writes a number at each index of some runs.
fn fill(slots: &mut [u32], runs: &[Run], number: u32)
    requires few { length slots.old ≤ 1048576 }
    requires runs { AreRunsFrom 0 (length slots.old) runs.now }
    ensures { (k : ℕ) → k < length slots.old → slice_index slots.new k
        ≡ (if covers runs.now k then number else slice_index slots.old k) }
{
    for run in runs {
        fill_run(slots, *run, number);
    }
}

/// Writes a number at each index of a run.
fn fill_run(slots: &mut [u32], run: Run, number: u32)
    requires few { length slots.old ≤ 1048576 }
    requires order { run.first ≤ run.last }
    requires within { run.last < length slots.old }
    ensures { (k : ℕ) → k < length slots.old → slice_index slots.new k
        ≡ (if is_in run k then number else slice_index slots.old k) }
{
    for index in run.first..run.last + 1 {
        slots[index as usize] = number;
    }
}

/// The number of an entry that has a cell, by rectangles round the sets of all entries.
fn search(tree: &RTree, table: &EntryTable, index: u32) -> Option<u32>
    requires round { AreRound (entries table.now) tree.now.rectangles }
    requires cell { index < size_of table.now.out }
    ensures { IsOwnerOf (entries table.now) (cell_of table.now.out index) result }
{
    let cell = table.shape().cell_at(index);
    let bounds = Bounds {
        top: cell.row,
        left: cell.col,
        bottom: cell.row,
        right: cell.col,
    };
    let end = table.len();
    let mut start = 0;
    while start < end {
        match tree.next_hit(bounds, start) {
            Some(row) => {
                if entry_has(table, row, index) {
                    return Some(row);
                }
                start = row + 1;
            }
            None => start = end,
        }
    }
    None
}

/// Whether the set of an entry has the cell of an index.
fn entry_has(table: &EntryTable, row: u32, index: u32) -> bool
    requires row { row < length (entries table.now) }
    requires cell { index < size_of table.now.out }
    ensures { result ≡ has (entry_at (entries table.now) row).out (cell_of table.now.out index) }
{
    table.len(); // there is a row for each entry
    let runs = table.out_runs(table.set_number(row));
    let place = place_of(runs, index);
    place < runs.len() && runs[place].first <= index
}

/// The place of the first run that does not end before an index, or the number of runs where each
/// does.
fn place_of(runs: &[Run], index: u32) -> usize
    requires { IsNonDecreasingBy (λ r. r.last) runs.now }
    ensures within { result ≤ length runs.now }
    ensures first { IsPartitionPoint (λ r. nat_lt r.last index ≡ true) (λ r. nat_lt r.last index
        ≡ false) runs.now result }
{
    runs.partition_point(|run| run.last < index)
}
