//! Where region pairs are found: by the cells of the sets from which looks start.

ghost use Rattle.std.specs.Prelude.{◌≡◌, ◌<◌, ◌≤◌, ◌+◌};
ghost use Rattle.sz_full_one.specs.Terms.{ℕ, length, All, OnOk, IfOk, slice_index_or, map, Extent};
ghost use Rattle.sz_full_one.specs.Terms.{RowTable, empty_rows, IsIndexOf, AreFilesOf};
ghost use Rattle.sz_full_one.specs.Terms.{AreFiledByIns, AreSetsFiled, IsGrownBy, HasRoom};
ghost use Rattle.sz_full_one.specs.Terms.{HasFileRoom, HasSameEntries, HasSameFiles, pair_cells};
ghost use Rattle.sz_full_one.specs.Terms.{side_of, file_capacities, index_capacities};

use crate::filing::file_set;
use std::alloc::Global;
use sz_cells::{NoMemory, Shape};
use sz_frame::Region;
use sz_spec::{Dir, OpAt};
use sz_tables::{Chains, RegionTable};

/// The rows of region pairs by the cells of their output sets, or for each input by the cells of
/// its sets.
#[derive(Drop)]
pub enum Index {
    Outs(Chains),
    Ins(Vec<SetFiles>),
}

/// The different sets of an input by their cells, and the rows by the numbers of their sets.
#[derive(Drop)]
pub struct SetFiles {
    pub cells: Chains,
    pub rows: Chains,
}

impl Index {
    /// An index of a table without a region pair, for looks from this side.
    pub fn new(alloc: Global, at: &OpAt, dir: Dir) -> Result<Index, NoMemory>
        ensures index { IfOk result (IsIndexOf (empty_rows at.now.out at.now.ins)) }
        ensures side { IfOk result (λ x. side_of x ≡ dir) }
    {
        match dir {
            Dir::Back => Ok(Index::Outs(Chains::new(alloc, at.out().size())?)),
            Dir::Forward => Ok(Index::Ins(new_files(alloc, at.ins())?)),
        }
    }

    /// From which side it is looked at.
    pub fn side(&self) -> Dir
        ensures { result ≡ side_of self.now }
    {
        match self {
            Index::Outs(_) => Dir::Back,
            Index::Ins(_) => Dir::Forward,
        }
    }

    /// Makes room for so many more cells and region pairs.
    pub fn reserve(&mut self, cells: u32, count: u32) -> Result<(), NoMemory>
        ensures room { OnOk result (HasRoom cells count self.new) }
        ensures index { (t : RowTable) → IsIndexOf t self.old → IsIndexOf t self.new }
        ensures side { side_of self.new ≡ side_of self.old }
    {
        match self {
            Index::Outs(rows) => reserve_entries(rows, 0, cells),
            Index::Ins(inputs) => reserve_inputs(inputs, cells, count),
        }
    }

    /// Files the region pair that a table was given last. Takes no memory.
    pub fn file(&mut self, table: &RegionTable, region: &Region)
        requires grown { (t : RowTable) × IsGrownBy t table.now region.now × IsIndexOf t self.old }
        requires few { length table.now.ins ≤ 2 }
        requires room { HasRoom (pair_cells region.now) 1 self.old }
        ensures index { IsIndexOf table.now self.new }
        ensures room { (cells count : ℕ)
            → HasRoom (pair_cells region.now + cells) (count + 1) self.old
            → HasRoom cells count self.new }
        ensures side { side_of self.new ≡ side_of self.old }
        ensures capacities { index_capacities self.new ≡ index_capacities self.old }
    {
        let row = table.len() - 1;
        match self {
            Index::Outs(rows) => file_set(rows, &region.out, row),
            Index::Ins(inputs) => file_inputs(table, inputs, region, row),
        }
    }
}

/// Files of inputs of these shapes, without a set.
fn new_files(alloc: Global, ins: &[Shape]) -> Result<Vec<SetFiles>, NoMemory>
    ensures { (out : Extent) → IfOk result
        (λ files. AreFilesOf (empty_rows out ins.now) files.items) }
{
    let mut files = Vec::new(alloc);
    for shape in ins {
        let cells = Chains::new(alloc, shape.size())?;
        let rows = Chains::new(alloc, 0)?;
        files.push(SetFiles { cells, rows })?;
    }
    Ok(files)
}

/// Makes room for so many more cells and region pairs in the files of all inputs.
fn reserve_inputs(inputs: &mut [SetFiles], cells: u32, count: u32) -> Result<(), NoMemory>
    ensures room { OnOk result (All (HasFileRoom cells count) inputs.new) }
    ensures kept { (i : ℕ) (d : SetFiles) → i < length inputs.old
        → HasSameFiles (slice_index_or inputs.old i d) (slice_index_or inputs.new i d) }
{
    for files in inputs.iter_mut() {
        reserve_files(files, cells, count)?;
    }
    Ok(())
}

/// Makes room for so many more cells and region pairs in the files of an input.
fn reserve_files(files: &mut SetFiles, cells: u32, count: u32) -> Result<(), NoMemory>
    ensures room { OnOk result (HasFileRoom cells count files.new) }
    ensures kept { HasSameFiles files.old files.new }
{
    reserve_entries(&mut files.cells, 0, cells)?;
    reserve_entries(&mut files.rows, count, count)
}

/// Makes room for so many more keys and entries, of each at most 2^32 - 1.
fn reserve_entries(files: &mut Chains, keys: u32, entries: u32) -> Result<(), NoMemory>
    ensures keys { OnOk result (keys ≤ files.new.spare_keys) }
    ensures entries { OnOk result (entries ≤ files.new.spare) }
    ensures kept { HasSameEntries files.old files.new }
{
    if u32::MAX - files.keys() < keys || u32::MAX - files.len() < entries {
        return Err(NoMemory);
    }
    files.reserve(keys, entries)
}

/// Files a region pair in the files of all inputs.
fn file_inputs(table: &RegionTable, inputs: &mut [SetFiles], region: &Region, row: u32)
    requires grown { (t : RowTable) × IsGrownBy t table.now region.now × AreFilesOf t inputs.old }
    requires row { length table.now.rows ≡ row + 1 }
    requires few { length table.now.ins ≤ 2 }
    requires room { All (HasFileRoom (pair_cells region.now) 1) inputs.old }
    ensures files { AreFilesOf table.now inputs.new }
    ensures room { (cells count : ℕ)
        → All (HasFileRoom (pair_cells region.now + cells) (count + 1)) inputs.old
        → All (HasFileRoom cells count) inputs.new }
    ensures capacities { map file_capacities inputs.new ≡ map file_capacities inputs.old }
{
    for input in 0..inputs.len() {
        file_input(table, &mut inputs[input], region, input as u32, row);
    }
}

/// Files a region pair in the files of an input: its set, where no set before it is equal, and its
/// row by the number of that set.
fn file_input(table: &RegionTable, files: &mut SetFiles, region: &Region, input: u32, row: u32)
    requires grown { (t : RowTable) × IsGrownBy t table.now region.now
        × AreFiledByIns t input files.old }
    requires input { input < length table.now.ins }
    requires row { length table.now.rows ≡ row + 1 }
    requires room { HasFileRoom (pair_cells region.now) 1 files.old }
    ensures files { AreFiledByIns table.now input files.new }
    ensures room { (cells count : ℕ)
        → HasFileRoom (pair_cells region.now + cells) (count + 1) files.old
        → HasFileRoom cells count files.new }
    ensures capacities { file_capacities files.new ≡ file_capacities files.old }
{
    table.len(); // each row names a set of the input
    file_new_set(table, files, region, input);
    files.rows.add(table.number_of(row, input), row);
}

/// Files the set of a region pair for an input by the set's cells, where no set before it is equal.
fn file_new_set(table: &RegionTable, files: &mut SetFiles, region: &Region, input: u32)
    requires grown { (t : RowTable) × IsGrownBy t table.now region.now
        × AreFiledByIns t input files.old }
    requires input { input < length table.now.ins }
    requires room { HasFileRoom (pair_cells region.now) 1 files.old }
    ensures sets { AreSetsFiled table.now input files.new }
    ensures rows { files.new.rows.entries ≡ files.old.rows.entries }
    ensures spare { files.new.rows.spare ≡ files.old.rows.spare }
    ensures numbers { files.old.rows.spare_keys ≤ files.new.rows.spare_keys + 1 }
    ensures cells { files.old.cells.spare ≤ files.new.cells.spare + pair_cells region.now }
    ensures cell_capacities { files.new.cells.capacities ≡ files.old.cells.capacities }
    ensures row_capacities { files.new.rows.capacities ≡ files.old.rows.capacities }
{
    let known = files.rows.keys();
    if known < table.sets_of(input) {
        let sets = region.ins.as_slice();
        file_set(&mut files.cells, &sets[input as usize], known);
        files.rows.add_key();
    }
}
