//! Checklists: which of the region pairs, or of the entries, that a table keeps were ticked. Each is
//! known by the numbers of its sets, so that none of them is looked at cell by cell. Several lists of
//! one table can be ticked side by side, and are joined then.

ghost use Rattle.std.specs.Prelude.{◌≡◌, ◌<◌, ◌≤◌, ◌∷◌, ◌++◌};
ghost use Rattle.sz_tables.specs.Terms.{[], length, map, true, Some, IsPermutation, IfOk, IfSome};
ghost use Rattle.sz_tables.specs.Terms.{OnOk, arc_value, Decides, slice_get, pairings, sets_of};
ghost use Rattle.sz_tables.specs.Terms.{set_at, row_at, number_in, pairing_at, entries};
ghost use Rattle.sz_tables.specs.Terms.{entry_named, pair_named};

use crate::entry_table::{EntryRow, EntryTable};
use crate::region_table::RegionTable;
use std::alloc::Global;
use std::marker::Model;
use std::sync::Arc;
use sz_cells::{CellSet, NoMemory};
use sz_frame::{PayEntry, Region};

/// The region pairs of a table, and those of them that were ticked.
#[derive(Drop)]
pub struct PairChecklist<'a> {
    table: &'a RegionTable,
    names: Vec<PairName>,
}

/// A region pair by the numbers of its sets: that of the output, and those of up to two inputs. It
/// is 0 where there is no such input.
#[derive(Clone, Copy, PartialEq, Eq)]
pub struct PairName {
    pub out: u32,
    pub first: u32,
    pub second: u32,
}

impl<'a> Model for PairChecklist<'a> {
    ghost use Rattle.std.specs.Prelude.{◌≤◌, length, map};
    ghost use Rattle.sz_frame.specs.Parts.{Pairing};
    ghost use Rattle.sz_tables.specs.Rows.{RowTable};
    ghost use Rattle.sz_tables.specs.Checklists.{Checklist, pair_named};

    ghost Value = { Checklist RowTable Pairing };

    ghost view = { λ c. record {
      table = c.table.now;
      ticked = map (pair_named c.table.now) c.names.items;
    } };

    ghost invariant = { λ c. length c.table.now.ins ≤ 2 };
}

impl<'a> PairChecklist<'a> {
    /// A checklist of the region pairs of a table, of which none is ticked.
    pub fn new(alloc: Global, table: &'a RegionTable) -> PairChecklist<'a>
        requires { length table.now.ins ≤ 2 }
        ensures { result ≡ record { table = table.now; ticked = [] } }
    {
        PairChecklist {
            table,
            names: Vec::new(alloc),
        }
    }

    /// Another checklist of the same table, of which none is ticked.
    pub fn fork(&self) -> PairChecklist<'a>
        ensures { result ≡ record { table = self.now.table; ticked = [] } }
    {
        PairChecklist {
            table: self.table,
            names: Vec::new(*self.names.allocator()),
        }
    }

    /// Ticks what another checklist of the same table has ticked.
    pub fn join(&mut self, other: &PairChecklist) -> Result<(), NoMemory>
        requires { other.now.table ≡ self.old.table }
        ensures table { self.new.table ≡ self.old.table }
        ensures ticked { OnOk result (self.new.ticked ≡ self.old.ticked ++ other.now.ticked) }
    {
        self.names.extend_from_slice(&other.names)?;
        Ok(())
    }

    /// Ticks region pairs one after another, and answers true. False, with some of them ticked, at
    /// one that the table cannot have.
    ///
    /// Costs a look at the runs of their sets.
    pub fn tick_all(&mut self, regions: &[Arc<Region>]) -> Result<bool, NoMemory>
        ensures table { self.new.table ≡ self.old.table }
        ensures ticked { IfOk result (λ b. b ≡ true → self.new.ticked
            ≡ self.old.ticked ++ map (λ a. arc_value a) regions.now) }
    {
        for region in regions {
            if !self.tick(region)? {
                return Ok(false);
            }
        }
        Ok(true)
    }

    /// Ticks a region pair, and answers true. False, with nothing ticked, where the table does not
    /// have each of its sets.
    ///
    /// Costs a look at the runs of its sets.
    fn tick(&mut self, region: &Region) -> Result<bool, NoMemory>
        ensures table { self.new.table ≡ self.old.table }
        ensures ticked { IfOk result (λ b. b ≡ true
            → self.new.ticked ≡ self.old.ticked ++ region.now ∷ []) }
    {
        match name_of(self.table, region) {
            Some(name) => {
                self.names.push(name)?;
                Ok(true)
            }
            None => Ok(false),
        }
    }

    /// Whether each region pair of the table is ticked, as often as the table has it, and no other.
    /// It may be called once: the ticks lose their order.
    ///
    /// Takes time by a sort of the region pairs, and memory for their numbers.
    pub fn is_done(&mut self) -> Result<bool, NoMemory>
        ensures { IfOk result (λ b. b ≡ true
            → IsPermutation (pairings self.old.table) self.old.ticked) }
    {
        let mut kept = Vec::new(*self.names.allocator());
        put_names(self.table, &mut kept)?;
        Ok(are_one(&mut kept, &mut self.names))
    }
}

/// The name of a region pair that a table may have. `None` where one of its sets is none of the
/// table's.
fn name_of(table: &RegionTable, region: &Region) -> Option<PairName>
    requires { length table.now.ins ≤ 2 }
    ensures { IfSome result (λ n. pair_named table.now n ≡ region.now) }
{
    let sets = region.ins.as_slice();
    if sets.len() != table.inputs() as usize {
        return None;
    }
    let out = table.find_out(&region.out)?;
    let first = number_of(table, sets, 0)?;
    let second = number_of(table, sets, 1)?;
    Some(PairName { out, first, second })
}

/// The number of the set of an input. 0 where there is no such input.
fn number_of(table: &RegionTable, sets: &[Arc<CellSet>], input: u32) -> Option<u32>
    requires { length sets.now ≡ length table.now.ins }
    ensures { IfSome result (λ n. input < length sets.now
        → slice_get (sets_of table.now.sets input) n
        ≡ Some (set_at (map (λ a. arc_value a) sets.now) input)) }
{
    if (input as usize) < sets.len() {
        table.find_in(input, &sets[input as usize])
    } else {
        Some(0)
    }
}

/// Appends the names of the region pairs of a table.
fn put_names(table: &RegionTable, to: &mut Vec<PairName>) -> Result<(), NoMemory>
    requires inputs { length table.now.ins ≤ 2 }
    requires none { to.old.items ≡ [] }
    ensures { OnOk result (map (pair_named table.now) to.new.items ≡ pairings table.now) }
{
    for row in 0..table.len() {
        to.push(name_at(table, row))?;
    }
    Ok(())
}

/// The name of the region pair of a row.
fn name_at(table: &RegionTable, row: u32) -> PairName
    requires inputs { length table.now.ins ≤ 2 }
    requires row { row < length table.now.rows }
    ensures { pair_named table.now result ≡ pairing_at table.now row }
{
    table.len(); // each row names sets of the table
    table.inputs(); // there is a table of sets for each input
    PairName {
        out: table.out_number(row),
        first: number_at(table, row, 0),
        second: number_at(table, row, 1),
    }
}

/// The number of the set of an input of a row. 0 where there is no such input.
fn number_at(table: &RegionTable, row: u32, input: u32) -> u32
    requires inputs { length table.now.ins ≤ 2 }
    requires row { row < length table.now.rows }
    ensures { input < length table.now.ins → result ≡ number_in (row_at table.now.rows row) input }
{
    if input < table.inputs() {
        table.number_of(row, input)
    } else {
        0
    }
}

/// Whether two lists of names have the same ones, each as often as the other. Sorts both.
fn are_one(a: &mut [PairName], b: &mut [PairName]) -> bool
    ensures { result ≡ true → IsPermutation a.old b.old }
{
    a.sort_unstable_by_key(|n| (n.out, n.first, n.second));
    b.sort_unstable_by_key(|n| (n.out, n.first, n.second));
    are_same(a, b)
}

/// Whether two lists of names are one.
fn are_same(a: &[PairName], b: &[PairName]) -> bool
    ensures { Decides result (a.now ≡ b.now) }
{
    a == b
}

/// The entries of a table, and those of them that were ticked.
#[derive(Drop)]
pub struct EntryChecklist<'a> {
    table: &'a EntryTable,
    rows: Vec<EntryRow>,
}

impl<'a> Model for EntryChecklist<'a> {
    ghost use Rattle.std.specs.Prelude.{map};
    ghost use Rattle.sz_frame.specs.Parts.{Entry};
    ghost use Rattle.sz_tables.specs.Entries.{EntryRows, entry_named};
    ghost use Rattle.sz_tables.specs.Checklists.{Checklist};

    ghost Value = { Checklist EntryRows Entry };

    ghost view = { λ c. record {
      table = c.table.now;
      ticked = map (entry_named c.table.now.sets c.table.now.payloads) c.rows.items;
    } };
}

impl<'a> EntryChecklist<'a> {
    /// A checklist of the entries of a table, of which none is ticked.
    pub fn new(alloc: Global, table: &'a EntryTable) -> EntryChecklist<'a>
        ensures { result ≡ record { table = table.now; ticked = [] } }
    {
        EntryChecklist {
            table,
            rows: Vec::new(alloc),
        }
    }

    /// Another checklist of the same table, of which none is ticked.
    pub fn fork(&self) -> EntryChecklist<'a>
        ensures { result ≡ record { table = self.now.table; ticked = [] } }
    {
        EntryChecklist {
            table: self.table,
            rows: Vec::new(*self.rows.allocator()),
        }
    }

    /// Ticks what another checklist of the same table has ticked.
    pub fn join(&mut self, other: &EntryChecklist) -> Result<(), NoMemory>
        requires { other.now.table ≡ self.old.table }
        ensures table { self.new.table ≡ self.old.table }
        ensures ticked { OnOk result (self.new.ticked ≡ self.old.ticked ++ other.now.ticked) }
    {
        self.rows.extend_from_slice(&other.rows)?;
        Ok(())
    }

    /// Ticks entries one after another, and answers true. False, with some of them ticked, at one
    /// that the table cannot have.
    ///
    /// Costs a look at the runs of their sets and at their payloads.
    pub fn tick_all(&mut self, entries: &[Arc<PayEntry>]) -> Result<bool, NoMemory>
        ensures table { self.new.table ≡ self.old.table }
        ensures ticked { IfOk result (λ b. b ≡ true → self.new.ticked
            ≡ self.old.ticked ++ map (λ a. arc_value a) entries.now) }
    {
        for entry in entries {
            if !self.tick(entry)? {
                return Ok(false);
            }
        }
        Ok(true)
    }

    /// Ticks an entry, and answers true. False, with nothing ticked, where the table does not have
    /// its set or its payload.
    ///
    /// Costs a look at the runs of its set and at its payload.
    fn tick(&mut self, entry: &PayEntry) -> Result<bool, NoMemory>
        ensures table { self.new.table ≡ self.old.table }
        ensures ticked { IfOk result (λ b. b ≡ true
            → self.new.ticked ≡ self.old.ticked ++ entry.now ∷ []) }
    {
        match self.table.row_of(entry) {
            Some(row) => {
                self.rows.push(row)?;
                Ok(true)
            }
            None => Ok(false),
        }
    }

    /// Whether each entry of the table is ticked, as often as the table has it, and no other. It may
    /// be called once: the ticks lose their order.
    ///
    /// Takes time by a sort of the entries, and memory for their numbers.
    pub fn is_done(&mut self) -> Result<bool, NoMemory>
        ensures { IfOk result (λ b. b ≡ true
            → IsPermutation (entries self.old.table) self.old.ticked) }
    {
        let mut kept = self.table.rows().to_vec(*self.rows.allocator())?;
        Ok(are_one_rows(&mut kept, &mut self.rows))
    }
}

/// Whether two lists of rows have the same ones, each as often as the other. Sorts both.
fn are_one_rows(a: &mut [EntryRow], b: &mut [EntryRow]) -> bool
    ensures { result ≡ true → IsPermutation a.old b.old }
{
    a.sort_unstable_by_key(|r| (r.set, r.payload));
    b.sort_unstable_by_key(|r| (r.set, r.payload));
    are_same_rows(a, b)
}

/// Whether two lists of rows are one.
fn are_same_rows(a: &[EntryRow], b: &[EntryRow]) -> bool
    ensures { Decides result (a.now ≡ b.now) }
{
    a == b
}
