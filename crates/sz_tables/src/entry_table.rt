//! Payload entries as rows of the numbers of their output sets and payloads.

ghost use Rattle.std.specs.Prelude.{◌≡◌, ◌<◌, ◌≤◌, ◌+◌, ◌∷◌, ◌++◌};
ghost use Rattle.sz_tables.specs.Terms.{[], length, max, OnOk, OnErr, IfOk, IfSome, All, ℕ, List};
ghost use Rattle.sz_tables.specs.Terms.{map, arc_value, Cells, runs_of, IsSetOf, AreApart, IsShort};
ghost use Rattle.sz_tables.specs.Terms.{IsPayWord, AreDifferent, HasAtMostOneMore, set_at, runs_in};
ghost use Rattle.sz_tables.specs.Terms.{payload_at, most_given, entries, entry_at, entry_row_at};
ghost use Rattle.sz_tables.specs.Terms.{no_rows, numbers_of, entry_named, NamesBoth, KeepsEntries};
ghost use Rattle.sz_tables.specs.Terms.{table_with, IsOneOf, IsRound};
ghost use Rattle.std.specs.Prelude.{flat_map};

use crate::payload_table::PayloadTable;
use crate::region_table::{bounds_in, list_sets};
use crate::set_table::SetTable;
use crate::sets::runs_of_set;
use std::alloc::Global;
use std::marker::Model;
use std::sync::Arc;
use sz_cells::{Bounds, NoMemory, Run, Shape};
use sz_frame::PayEntry;
use sz_region::{ListedPayload, put_numbered_entries};

/// Payload entries of an output of a given shape, each different set and each different payload
/// once.
#[derive(Drop)]
pub struct EntryTable {
    sets: SetTable,
    payloads: PayloadTable,
    rows: Vec<EntryRow>,
    spare_rows: u32,
    spare_runs: usize,
    spare_bytes: usize,
}

/// An entry: the number of its output set, and that of its payload.
#[derive(Clone, Copy, PartialEq, Eq)]
pub struct EntryRow {
    pub set: u32,
    pub payload: u32,
}

impl Model for EntryTable {
    ghost use Rattle.std.specs.Prelude.{◌∷◌, ◌++◌, vec_capacity};
    ghost use Rattle.sz_tables.specs.Entries.{EntryRows};

    ghost Value = { EntryRows };

    ghost view = { λ t. record {
      out = t.sets.extent;
      sets = t.sets.sets;
      payloads = t.payloads.payloads;
      rows = t.rows.items;
      spare_rows = t.spare_rows;
      spare_runs = t.spare_runs;
      spare_bytes = t.spare_bytes;
      capacities = vec_capacity t.rows ∷ t.sets.capacities ++ t.payloads.capacities;
    } };

    ghost use Rattle.sz_tables.specs.Entries.{AreEntriesSound};

    ghost invariant = { λ t. AreEntriesSound t.sets t.payloads t.rows.items t.spare_rows
        t.spare_runs t.spare_bytes (vec_capacity t.rows) };
}

impl EntryTable {
    /// A table of entries of an output of this shape, without one.
    pub fn new(alloc: Global, out: Shape) -> Result<EntryTable, NoMemory>
        ensures { IfOk result (λ t. t ≡ no_rows out) }
    {
        Ok(EntryTable {
            sets: SetTable::new(alloc, out)?,
            payloads: PayloadTable::new(alloc)?,
            rows: Vec::new(alloc),
            spare_rows: 0,
            spare_runs: 0,
            spare_bytes: 0,
        })
    }

    /// Makes room for so many more entries, whose sets have so many runs together and whose
    /// payloads so many bytes, where there is none yet.
    pub fn reserve(&mut self, rows: u32, runs: usize, bytes: usize) -> Result<(), NoMemory>
        requires few { length self.old.rows + rows ≤ most_given }
        ensures ok { OnOk result (self.new ≡ record self.old {
          spare_rows = max self.old.spare_rows rows;
          spare_runs = max self.old.spare_runs runs;
          spare_bytes = max self.old.spare_bytes bytes;
          capacities = self.new.capacities;
        }) }
        ensures kept { self.new ≡ record self.old {
          spare_rows = self.new.spare_rows;
          spare_runs = self.new.spare_runs;
          spare_bytes = self.new.spare_bytes;
          capacities = self.new.capacities;
        } }
        ensures grown { (self.old.spare_rows ≤ self.new.spare_rows)
            × (self.old.spare_runs ≤ self.new.spare_runs)
            × (self.old.spare_bytes ≤ self.new.spare_bytes) }
    {
        let rows = rows.max(self.spare_rows);
        let runs = runs.max(self.spare_runs);
        let bytes = bytes.max(self.spare_bytes);
        self.rows.reserve(rows as usize)?;
        self.sets.reserve(rows, runs)?;
        self.payloads.reserve(rows, bytes)?;
        self.spare_rows = rows;
        self.spare_runs = runs;
        self.spare_bytes = bytes;
        Ok(())
    }

    /// Adds an entry, whose row is the `len` before. Its set and its payload get the numbers of
    /// equal ones that are there, or the next ones. Takes no memory: each capacity stays.
    pub fn add(&mut self, entry: &PayEntry)
        requires shape { entry.now.out.extent ≡ self.old.out }
        requires rows { 0 < self.old.spare_rows }
        requires runs { runs_in entry.now.out ≤ self.old.spare_runs }
        requires bytes { length entry.now.payload ≤ self.old.spare_bytes }
        ensures entries { entries self.new ≡ entries self.old ++ entry.now ∷ [] }
        ensures kept { KeepsEntries self.old self.new }
        ensures sets { HasAtMostOneMore self.old.sets self.new.sets entry.now.out }
        ensures payloads { HasAtMostOneMore self.old.payloads self.new.payloads entry.now.payload }
        ensures one { length self.new.rows ≡ length self.old.rows + 1 }
        ensures room { self.old.spare_rows ≤ self.new.spare_rows + 1 }
        ensures runs { self.old.spare_runs ≤ self.new.spare_runs + runs_in entry.now.out }
        ensures bytes { self.old.spare_bytes ≤ self.new.spare_bytes + length entry.now.payload }
        ensures capacities { self.new.capacities ≡ self.old.capacities }
    {
        let bytes = entry.payload.bytes();
        let set = self.sets.add(&entry.out);
        let payload = self.payloads.add(bytes);
        self.rows.push_reserved(EntryRow { set, payload });
        self.spare_rows -= 1;
        self.spare_runs -= entry.out.runs().len();
        self.spare_bytes -= bytes.len();
    }

    /// A table of these entries. The room for each is made when those before it are added, so a
    /// set or a payload that many of them share is counted once.
    pub(crate) fn of_entries(
        alloc: Global,
        out: Shape,
        given: &[Arc<PayEntry>],
    ) -> Result<EntryTable, NoMemory>
        requires few { length given.now ≤ most_given }
        requires shapes { All (λ e. e.out.extent ≡ out) (map (λ a. arc_value a) given.now) }
        ensures entries { IfOk result (λ t. entries t ≡ map (λ a. arc_value a) given.now) }
        ensures payloads { IfOk result (λ t. All
            (IsOneOf (map (λ e. e.payload) (map (λ a. arc_value a) given.now))) t.payloads) }
        ensures out { IfOk result (λ t. t.out ≡ out) }
    {
        let mut table = EntryTable::new(alloc, out)?;
        for entry in given {
            table.keep(entry)?;
        }
        Ok(table)
    }

    /// Makes the room for an entry, and adds it.
    fn keep(&mut self, entry: &PayEntry) -> Result<(), NoMemory>
        requires few { length self.old.rows < most_given }
        requires shape { entry.now.out.extent ≡ self.old.out }
        ensures out { self.new.out ≡ self.old.out }
        ensures entries { OnOk result (entries self.new ≡ entries self.old ++ entry.now ∷ []) }
        ensures payloads { OnOk result
            (HasAtMostOneMore self.old.payloads self.new.payloads entry.now.payload) }
    {
        self.reserve(1, runs_of_set(&entry.out), entry.payload.bytes().len())?;
        self.add(entry);
        Ok(())
    }

    /// The table of these rows, by the sets and payloads of these tables. `None` where there are
    /// more sets, or more payloads, than rows.
    pub(crate) fn of_rows(
        sets: SetTable,
        payloads: PayloadTable,
        rows: Vec<EntryRow>,
    ) -> Option<EntryTable>
        requires few { length rows.items ≤ most_given }
        requires named { All (NamesBoth sets.sets payloads.payloads) rows.items }
        ensures { IfSome result (λ t. t ≡ record (table_with sets payloads rows.items) {
          capacities = t.capacities;
        }) }
    {
        let count = rows.len() as u32;
        if count < sets.len() || count < payloads.len() {
            return None;
        }
        Some(EntryTable {
            sets,
            payloads,
            rows,
            spare_rows: 0,
            spare_runs: 0,
            spare_bytes: 0,
        })
    }

    /// How many entries there are.
    pub fn len(&self) -> u32
        ensures count { result ≡ length self.now.rows }
        ensures entries { result ≡ length (entries self.now) }
        ensures few { length self.now.rows ≤ most_given }
        ensures named { All (NamesBoth self.now.sets self.now.payloads) self.now.rows }
    {
        self.rows.len() as u32
    }

    /// The rows, in their order.
    pub(crate) fn rows(&self) -> &[EntryRow]
        ensures { result.now ≡ self.now.rows }
    {
        &self.rows
    }

    /// The row of an entry: the numbers of its set and of its payload. `None` where the table does
    /// not have one of them.
    pub(crate) fn row_of(&self, entry: &PayEntry) -> Option<EntryRow>
        ensures { IfSome result
            (λ r. entry_named self.now.sets self.now.payloads r ≡ entry.now) }
    {
        let set = self.sets.number_of(&entry.out)?;
        let payload = self.payloads.number_of(entry.payload.bytes())?;
        Some(EntryRow { set, payload })
    }

    /// How many different output sets there are. No two of them are equal.
    pub fn sets(&self) -> u32
        ensures count { result ≡ length self.now.sets }
        ensures different { AreDifferent self.now.sets }
    {
        self.sets.len()
    }

    /// How many different payloads there are. No two of them are equal.
    pub fn payloads(&self) -> u32
        ensures count { result ≡ length self.now.payloads }
        ensures different { AreDifferent self.now.payloads }
    {
        self.payloads.len()
    }

    /// The shape of the output.
    pub fn shape(&self) -> Shape
        ensures { result ≡ self.now.out }
    {
        self.sets.shape()
    }

    /// The number of the output set of a row.
    pub fn set_number(&self, row: u32) -> u32
        requires { row < length self.now.rows }
        ensures number { result ≡ (entry_row_at self.now.rows row).set }
        ensures within { result < length self.now.sets }
        ensures set { (entry_at (entries self.now) row).out ≡ set_at self.now.sets result }
    {
        self.rows[row as usize].set
    }

    /// The number of the payload of a row.
    pub fn payload_number(&self, row: u32) -> u32
        requires { row < length self.now.rows }
        ensures number { result ≡ (entry_row_at self.now.rows row).payload }
        ensures within { result < length self.now.payloads }
        ensures payload { (entry_at (entries self.now) row).payload
            ≡ payload_at self.now.payloads result }
    {
        self.rows[row as usize].payload
    }

    /// The longest runs, rising, of the output set of a number.
    pub fn out_runs(&self, number: u32) -> &[Run]
        requires { number < length self.now.sets }
        ensures runs { result.now ≡ runs_of (set_at self.now.sets number).indexes }
        ensures set { IsSetOf self.now.out (set_at self.now.sets number) }
    {
        self.sets.runs(number)
    }

    /// A rectangle round the output set of a row.
    pub fn out_bounds(&self, row: u32) -> Bounds
        requires { row < length self.now.rows }
        ensures { IsRound result (entry_at (entries self.now) row).out }
    {
        bounds_in(&self.sets, self.set_number(row))
    }

    /// The bytes of the payload of a number.
    pub fn payload(&self, number: u32) -> &[u8]
        requires { number < length self.now.payloads }
        ensures { result.now ≡ payload_at self.now.payloads number }
    {
        self.payloads.bytes(number)
    }

    /// Appends the bytes of these entries: tables of the different payloads and of the different
    /// sets, each once, and the rows. After `NoMemory` the bytes are as before.
    ///
    /// Takes time and memory in the number of the payloads' bytes, the sets' runs and the entries.
    pub fn put_bytes(&self, to: &mut Vec<u8>) -> Result<(), NoMemory>
        requires apart { AreApart (entries self.now) }
        requires short { All IsShort self.now.payloads }
        ensures ok { let t = self.now in OnOk result ((sets : List Cells) × (word : List ℕ)
            × AreDifferent t.payloads × AreDifferent sets
            × IsPayWord t.out t.payloads sets (entries t) word
            × (to.new.items ≡ to.old.items ++ word)) }
        ensures err { OnErr result (to.new.items ≡ to.old.items) }
    {
        let alloc = *to.allocator();
        let mut payloads = Vec::new(alloc);
        list_payloads(&self.payloads, &mut payloads)?;
        let mut sets = Vec::new(alloc);
        list_sets(&self.sets, 0, &mut sets)?;
        let mut names = Vec::new(alloc);
        list_names(&self.rows, &mut names)?;
        put_numbered_entries(&payloads, &sets, &names, to)
    }
}

/// Lists the payloads of a table.
fn list_payloads<'a>(
    table: &'a PayloadTable,
    payloads: &mut Vec<ListedPayload<'a>>,
) -> Result<(), NoMemory>
    requires short { All IsShort table.now.payloads }
    requires payloads { payloads.old.items ≡ [] }
    ensures listed { OnOk result (payloads.new.items ≡ table.now.payloads) }
    ensures different { OnOk result (AreDifferent table.now.payloads) }
{
    for number in 0..table.len() {
        payloads.push(listed(table, number))?;
    }
    Ok(())
}

/// The payload of a number.
fn listed<'a>(table: &'a PayloadTable, number: u32) -> ListedPayload<'a>
    requires number { number < length table.now.payloads }
    requires short { All IsShort table.now.payloads }
    ensures { result ≡ payload_at table.now.payloads number }
{
    ListedPayload {
        bytes: table.bytes(number),
    }
}

/// Lists the numbers of these rows.
fn list_names(rows: &[EntryRow], names: &mut Vec<u32>) -> Result<(), NoMemory>
    requires { names.old.items ≡ [] }
    ensures { OnOk result (names.new.items ≡ flat_map numbers_of rows.now) }
{
    for row in rows {
        names.push(row.set)?;
        names.push(row.payload)?;
    }
    Ok(())
}
