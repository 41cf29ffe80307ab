//! Region pairs as rows of the numbers of their sets.

ghost use Rattle.std.specs.Prelude.{◌≡◌, ◌<◌, ◌≤◌, ◌+◌, ◌-◌, ◌^◌, ◌∷◌, ◌++◌, ◌*◌, ◌≢◌};
ghost use Rattle.sz_tables.specs.Terms.{[], length, map, max, OnOk, OnErr, IfOk, Some, All, ℕ};
ghost use Rattle.sz_tables.specs.Terms.{take, drop, sum_by, vec_len, vec_capacity, List};
ghost use Rattle.sz_tables.specs.Terms.{slice_index_or, IfSome, MatchOption, true, range_with_len};
ghost use Rattle.sz_tables.specs.Terms.{slice_get, arc_value, runs_of, extent_at, IsSetOf};
ghost use Rattle.sz_tables.specs.Terms.{pairings, weight_of, empty_rows, Keeps, IsRowOf, row_at};
ghost use Rattle.sz_tables.specs.Terms.{number_in, rows_of, table_of, most_given, set_at, sets_of};
ghost use Rattle.sz_tables.specs.Terms.{empty_sets, runs_in, HasRoomFor, Takes, TakeEach};
ghost use Rattle.sz_tables.specs.Terms.{pairing_at, IsRound, AreDifferent, HasAtMostOneMore};
ghost use Rattle.sz_tables.specs.Terms.{IsOneOrApart, AreOneOrApart, set_of, listed_as, numbers_at};
ghost use Rattle.sz_tables.specs.Terms.{shifted, AreSetsOf, AreListed, Listed, IsFullWord};
ghost use Rattle.sz_tables.specs.Terms.{HasShapes};
ghost use Rattle.std.specs.Prelude.{flat_map};

use crate::set_table::SetTable;
use crate::sets::{bounds_of_runs, runs_of_region};
use std::alloc::Global;
use std::marker::Model;
use std::sync::Arc;
use sz_cells::{Bounds, CellSet, NoMemory, Run, Shape};
use sz_frame::Region;
use sz_region::{ListedSet, put_numbered};

/// Region pairs between an output and inputs of given shapes, each different set of an array once.
#[derive(Drop)]
pub struct RegionTable {
    outs: SetTable,
    ins: Vec<SetTable>,
    /// For each row the number of its output set, and then one number for each input.
    names: Vec<u32>,
    count: u32,
    /// Whether each set of an input is known to be that of a row. Of a table that was read it is
    /// not.
    named: bool,
    spare_rows: u32,
    spare_runs: usize,
}

impl Model for RegionTable {
    ghost use Rattle.std.specs.Prelude.{◌≡◌, ℕ, ◌<◌, ◌≤◌, ◌*◌, ◌+◌, ◌∷◌, map, length, All};
    ghost use Rattle.std.specs.Prelude.{vec_capacity, true};
    ghost use Rattle.sz_tables.specs.Rows.{RowTable, rows_of, set_capacities};

    ghost Value = { RowTable };

    ghost view = { λ t. record {
      out = t.outs.extent;
      ins = map (λ s. s.extent) t.ins.items;
      outs = t.outs.sets;
      sets = map (λ s. s.sets) t.ins.items;
      rows = rows_of (length t.ins.items) t.count t.names.items;
      spare_rows = t.spare_rows;
      spare_runs = t.spare_runs;
      capacities = vec_capacity t.names ∷ vec_capacity t.ins
          ∷ set_capacities (t.outs ∷ t.ins.items);
    } };

    ghost use Rattle.sz_tables.specs.Rows.{IsSound, pairings, table_of};
    ghost use Rattle.sz_tables.specs.Apart.{AreOfPairs};

    ghost invariant = { λ t. IsSound t.outs t.ins.items t.names.items t.count t.spare_rows
        t.spare_runs (vec_capacity t.names)
        × (t.named ≡ true → AreOfPairs (map (λ s. s.sets) t.ins.items)
        (pairings (table_of t.outs t.ins.items t.names.items t.count 0 0))) };
}

impl RegionTable {
    /// A table between an output and inputs of these shapes, without a region pair.
    pub fn new(alloc: Global, out: Shape, ins: &[Shape]) -> Result<RegionTable, NoMemory>
        ensures { IfOk result (λ t. t ≡ empty_rows out ins.now) }
    {
        Ok(RegionTable {
            outs: SetTable::new(alloc, out)?,
            ins: tables_for(alloc, ins)?,
            names: Vec::new(alloc),
            count: 0,
            named: true,
            spare_rows: 0,
            spare_runs: 0,
        })
    }

    /// Makes room for so many more region pairs, whose sets have so many runs together, where there
    /// is none yet.
    pub fn reserve(&mut self, rows: u32, runs: usize) -> Result<(), NoMemory>
        requires few { length self.old.rows + rows ≤ most_given }
        requires inputs { length self.old.ins ≤ 2 }
        ensures ok { OnOk result (self.new ≡ record self.old {
          spare_rows = max self.old.spare_rows rows;
          spare_runs = max self.old.spare_runs runs;
          capacities = self.new.capacities;
        }) }
        ensures kept { self.new ≡ record self.old {
          spare_rows = self.new.spare_rows;
          spare_runs = self.new.spare_runs;
          capacities = self.new.capacities;
        } }
        ensures grown { (self.old.spare_rows ≤ self.new.spare_rows)
            × (self.old.spare_runs ≤ self.new.spare_runs) }
    {
        let rows = rows.max(self.spare_rows);
        let runs = runs.max(self.spare_runs);
        self.names.reserve(rows as usize * (self.ins.len() + 1))?;
        self.outs.reserve(rows, runs)?;
        reserve_each(&mut self.ins, rows, runs)?;
        self.spare_rows = rows;
        self.spare_runs = runs;
        Ok(())
    }

    /// Adds a region pair, whose row is the `len` before. Its sets get the numbers of equal sets
    /// that are there, or the next ones. Takes no memory: each capacity stays.
    pub fn add(&mut self, region: &Region)
        requires out { region.now.out.extent ≡ self.old.out }
        requires ins { map (λ s. s.extent) region.now.ins ≡ self.old.ins }
        requires rows { 0 < self.old.spare_rows }
        requires runs { weight_of region.now ≤ self.old.spare_runs }
        ensures pairings { pairings self.new ≡ pairings self.old ++ region.now ∷ [] }
        ensures kept { Keeps self.old self.new }
        ensures sets { (i : ℕ) → i < length self.old.ins → HasAtMostOneMore
            (sets_of self.old.sets i) (sets_of self.new.sets i) (set_of region.now i) }
        ensures one { length self.new.rows ≡ length self.old.rows + 1 }
        ensures room { self.old.spare_rows ≤ self.new.spare_rows + 1 }
        ensures runs { self.old.spare_runs ≤ self.new.spare_runs + weight_of region.now }
        ensures capacities { self.new.capacities ≡ self.old.capacities }
    {
        self.add_as(region, false);
    }

    /// As [`RegionTable::add`]. Where `apart`, the region pair's set of each input is one with that
    /// of each region pair of the table or has no cell in common with it: which one it is is then
    /// told by its first cell, in a table that was not read.
    pub fn add_as(&mut self, region: &Region, apart: bool)
        requires out { region.now.out.extent ≡ self.old.out }
        requires ins { map (λ s. s.extent) region.now.ins ≡ self.old.ins }
        requires rows { 0 < self.old.spare_rows }
        requires runs { weight_of region.now ≤ self.old.spare_runs }
        requires apart { apart ≡ true → All (AreOneOrApart region.now) (pairings self.old) }
        ensures pairings { pairings self.new ≡ pairings self.old ++ region.now ∷ [] }
        ensures kept { Keeps self.old self.new }
        ensures sets { (i : ℕ) → i < length self.old.ins → HasAtMostOneMore
            (sets_of self.old.sets i) (sets_of self.new.sets i) (set_of region.now i) }
        ensures one { length self.new.rows ≡ length self.old.rows + 1 }
        ensures room { self.old.spare_rows ≤ self.new.spare_rows + 1 }
        ensures runs { self.old.spare_runs ≤ self.new.spare_runs + weight_of region.now }
        ensures capacities { self.new.capacities ≡ self.old.capacities }
    {
        let number = self.outs.add(&region.out);
        self.names.push_reserved(number);
        let sets = region.ins.as_slice();
        let told = both(apart, self.named);
        add_each(&mut self.ins, sets, told, &mut self.names);
        self.count += 1;
        self.spare_rows -= 1;
        self.spare_runs -= region.out.runs().len() + runs_of_each(sets);
    }

    /// A table of these region pairs. The room for each is made when those before it are added, so
    /// a set that many of them share is counted once.
    pub fn of_regions(
        alloc: Global,
        out: Shape,
        ins: &[Shape],
        regions: &[Arc<Region>],
    ) -> Result<RegionTable, NoMemory>
        requires inputs { length ins.now ≤ 2 }
        requires few { length regions.now ≤ most_given }
        requires shapes { All (HasShapes out ins.now) (map (λ a. arc_value a) regions.now) }
        ensures pairings { IfOk result
            (λ t. pairings t ≡ map (λ a. arc_value a) regions.now) }
        ensures out { IfOk result (λ t. t.out ≡ out) }
        ensures ins { IfOk result (λ t. t.ins ≡ ins.now) }
    {
        let mut table = RegionTable::new(alloc, out, ins)?;
        for region in regions {
            table.reserve(1, runs_of_region(region))?;
            table.add(region);
        }
        Ok(table)
    }

    /// The table whose rows so many numbers spell, by the sets of these tables. `None` where there
    /// are more sets of an array than rows.
    pub(crate) fn of_rows(
        outs: SetTable,
        ins: Vec<SetTable>,
        names: Vec<u32>,
        count: u32,
    ) -> Option<RegionTable>
        requires inputs { length ins.items ≤ 2 }
        requires few { count ≤ most_given }
        requires whole { length names.items ≡ count * (length ins.items + 1) }
        requires named { All (IsRowOf (table_of outs ins.items names.items count 0 0))
            (rows_of (length ins.items) count names.items) }
        ensures { IfSome result (λ t. t ≡ record (table_of outs ins.items names.items count 0 0) {
          capacities = t.capacities;
        }) }
    {
        if count < outs.len() || !are_few(&ins, count) {
            return None;
        }
        Some(RegionTable {
            outs,
            ins,
            names,
            count,
            named: false,
            spare_rows: 0,
            spare_runs: 0,
        })
    }

    /// How many region pairs there are.
    pub fn len(&self) -> u32
        ensures count { result ≡ length self.now.rows }
        ensures few { length self.now.rows ≤ most_given }
        ensures named { All (IsRowOf self.now) self.now.rows }
    {
        self.count
    }

    /// How many inputs there are.
    pub(crate) fn inputs(&self) -> u32
        requires { length self.now.ins ≤ 2 }
        ensures inputs { result ≡ length self.now.ins }
        ensures tables { length self.now.sets ≡ length self.now.ins }
    {
        self.ins.len() as u32
    }

    /// The number of a set of the output. `None` exactly where there is none.
    pub(crate) fn find_out(&self, set: &CellSet) -> Option<u32>
        ensures { MatchOption result ((n : ℕ) → slice_get self.now.outs n ≢ Some set.now)
            (λ n. slice_get self.now.outs n ≡ Some set.now) }
    {
        self.outs.number_of(set)
    }

    /// The number of a set of an input. `None` exactly where there is none.
    pub(crate) fn find_in(&self, input: u32, set: &CellSet) -> Option<u32>
        requires { input < length self.now.ins }
        ensures { let sets = sets_of self.now.sets input in
            MatchOption result ((n : ℕ) → slice_get sets n ≢ Some set.now)
            (λ n. slice_get sets n ≡ Some set.now) }
    {
        self.ins[input as usize].number_of(set)
    }

    /// How many different sets of the output there are.
    pub fn out_sets(&self) -> u32
        ensures { result ≡ length self.now.outs }
    {
        self.outs.len()
    }

    /// How many different sets of an input there are. No two of them are equal.
    pub fn sets_of(&self, input: u32) -> u32
        requires { input < length self.now.ins }
        ensures count { result ≡ length (sets_of self.now.sets input) }
        ensures different { AreDifferent (sets_of self.now.sets input) }
    {
        self.ins[input as usize].len()
    }

    /// The number of the set of an input of a row.
    pub fn number_of(&self, row: u32, input: u32) -> u32
        requires row { row < length self.now.rows }
        requires input { input < length self.now.ins }
        ensures { result ≡ number_in (row_at self.now.rows row) input }
    {
        let start = row as usize * (self.ins.len() + 1);
        self.names[start + 1 + input as usize]
    }

    /// The number of the output set of a row.
    pub fn out_number(&self, row: u32) -> u32
        requires { row < length self.now.rows }
        ensures { result ≡ (row_at self.now.rows row).out }
    {
        self.names[row as usize * (self.ins.len() + 1)]
    }

    /// The longest runs, rising, of the output set of a number.
    pub fn out_runs(&self, number: u32) -> &[Run]
        requires { number < length self.now.outs }
        ensures runs { result.now ≡ runs_of (set_at self.now.outs number).indexes }
        ensures set { IsSetOf self.now.out (set_at self.now.outs number) }
    {
        self.outs.runs(number)
    }

    /// The longest runs, rising, of the set of a number of an input.
    pub fn in_runs(&self, input: u32, number: u32) -> &[Run]
        requires input { input < length self.now.ins }
        requires number { number < length (sets_of self.now.sets input) }
        ensures runs { result.now
            ≡ runs_of (set_at (sets_of self.now.sets input) number).indexes }
        ensures set { IsSetOf (extent_at self.now.ins input)
            (set_at (sets_of self.now.sets input) number) }
    {
        self.ins[input as usize].runs(number)
    }

    /// The sets of the one input.
    pub fn in_sets(&self) -> &SetTable
        requires { length self.now.ins ≡ 1 }
        ensures extent { result.now.extent ≡ extent_at self.now.ins 0 }
        ensures sets { result.now.sets ≡ sets_of self.now.sets 0 }
    {
        &self.ins[0]
    }

    /// A rectangle round the output set of a row.
    pub fn out_bounds(&self, row: u32) -> Bounds
        requires { row < length self.now.rows }
        ensures { IsRound result (pairing_at self.now row).out }
    {
        self.len(); // each row names sets of the table
        bounds_in(&self.outs, self.out_number(row))
    }

    /// A rectangle round the set of an input of a row.
    pub fn in_bounds(&self, input: u32, row: u32) -> Bounds
        requires input { input < length self.now.ins }
        requires row { row < length self.now.rows }
        ensures { IsRound result (set_of (pairing_at self.now row) input) }
    {
        self.len(); // each row names sets of the table
        bounds_in(&self.ins[input as usize], self.number_of(row, input))
    }

    /// Appends the bytes of these region pairs: a table of the different sets, each once, and the
    /// rows. After `NoMemory` the bytes are as before.
    ///
    /// Takes time and memory in the number of the sets' runs and of the region pairs.
    pub fn put_bytes(&self, to: &mut Vec<u8>) -> Result<(), NoMemory>
        ensures ok { OnOk result ((sets : List Listed) × (word : List ℕ) × AreDifferent sets
            × IsFullWord self.now.out self.now.ins sets (pairings self.now) word
            × (to.new.items ≡ to.old.items ++ word)) }
        ensures err { OnErr result (to.new.items ≡ to.old.items) }
    {
        if self.count == 0 {
            return put_numbered(&[], 1, &[], to);
        }
        let alloc = *to.allocator();
        let mut sets = Vec::new(alloc);
        let mut starts = Vec::new(alloc);
        list_each(&self.outs, &self.ins, &mut sets, &mut starts)?;
        let mut names = Vec::new(alloc);
        shift_each(self.count, &self.names, &starts, &mut names)?;
        put_numbered(&sets, starts.len() as u32, &names, to)
    }
}

/// A table of sets for each of these shapes, without a set.
pub(crate) fn tables_for(alloc: Global, shapes: &[Shape]) -> Result<Vec<SetTable>, NoMemory>
    ensures tables { IfOk result (λ tables. tables.items ≡ map empty_sets shapes.now) }
    ensures capacity { IfOk result (λ tables. vec_capacity tables ≡ length shapes.now) }
{
    let mut tables = Vec::with_capacity(alloc, shapes.len())?;
    for shape in shapes {
        let table = SetTable::new(alloc, *shape)?;
        tables.push_reserved(table);
    }
    Ok(tables)
}

/// A rectangle round the set of a number.
pub(crate) fn bounds_in(table: &SetTable, number: u32) -> Bounds
    requires { number < length table.now.sets }
    ensures { IsRound result (set_at table.now.sets number) }
{
    bounds_of_runs(table.shape(), table.runs(number))
}

/// Whether none of these tables has more than so many sets.
pub(crate) fn are_few(tables: &[SetTable], most: u32) -> bool
    ensures { result ≡ true → All (λ t. length t.sets ≤ most) tables.now }
{
    for table in tables {
        if most < table.len() {
            return false;
        }
    }
    true
}

/// Makes room in each of these tables.
fn reserve_each(tables: &mut [SetTable], rows: u32, runs: usize) -> Result<(), NoMemory>
    requires { All (λ t. length t.sets + rows < 2 ^ 32) tables.old }
    ensures extents { map (λ t. t.extent) tables.new ≡ map (λ t. t.extent) tables.old }
    ensures sets { map (λ t. t.sets) tables.new ≡ map (λ t. t.sets) tables.old }
    ensures kept { (rows runs : ℕ)
        → All (HasRoomFor rows runs) tables.old → All (HasRoomFor rows runs) tables.new }
    ensures ok { OnOk result (All (HasRoomFor rows runs) tables.new) }
{
    for table in tables.iter_mut() {
        table.reserve(rows, runs)?;
    }
    Ok(())
}

/// How many runs these sets have together.
fn runs_of_each(sets: &[Arc<CellSet>]) -> usize
    requires { sum_by runs_in (map (λ a. arc_value a) sets.now) < 2 ^ 64 }
    ensures { result ≡ sum_by runs_in (map (λ a. arc_value a) sets.now) }
{
    let mut count = 0;
    for set in sets {
        count += set.runs().len();
    }
    count
}

/// Whether both are so.
fn both(one: bool, other: bool) -> bool
    ensures one { result ≡ true → one ≡ true }
    ensures other { result ≡ true → other ≡ true }
{
    one && other
}

/// Appends the numbers that these tables give to these sets, which are added where they are new.
/// Where `apart`, each is one with each set of its table or apart from it.
fn add_each(tables: &mut [SetTable], sets: &[Arc<CellSet>], apart: bool, names: &mut Vec<u32>)
    requires extents { map (λ s. s.extent) (map (λ a. arc_value a) sets.now)
        ≡ map (λ t. t.extent) tables.old }
    requires room { let xs = map (λ a. arc_value a) sets.now in
        All (HasRoomFor 1 (sum_by runs_in xs)) tables.old }
    requires names { vec_len names.old + length tables.old ≤ vec_capacity names.old }
    requires apart { apart ≡ true → (i : ℕ) → All
        (IsOneOrApart (set_at (map (λ a. arc_value a) sets.now) i))
        (sets_of (map (λ t. t.sets) tables.old) i) }
    ensures before { take (length names.old.items) names.new.items ≡ names.old.items }
    ensures taken { TakeEach tables.old tables.new (map (λ a. arc_value a) sets.now)
        (drop (length names.old.items) names.new.items) }
    ensures capacity { vec_capacity names.new ≡ vec_capacity names.old }
{
    for i in 0..tables.len() {
        let number = add_one(&mut tables[i], &sets[i], apart);
        names.push_reserved(number);
    }
}

/// The number that this table gives to this set, which is added where it is new.
fn add_one(table: &mut SetTable, set: &CellSet, apart: bool) -> u32
    requires extent { set.now.extent ≡ table.old.extent }
    requires room { HasRoomFor 1 (runs_in set.now) table.old }
    requires apart { apart ≡ true → All (IsOneOrApart set.now) table.old.sets }
    ensures { Takes table.old table.new set.now result }
{
    table.add_as(set, apart)
}

/// Lists the sets of the output and then of each input, and where those of each array begin.
fn list_each<'a>(
    outs: &'a SetTable,
    ins: &'a [SetTable],
    sets: &mut Vec<ListedSet<'a>>,
    starts: &mut Vec<u32>,
) -> Result<(), NoMemory>
    requires inputs { length ins.now ≤ 2 }
    requires few { All (λ t. length t.sets ≤ 2 ^ 30) (outs.now ∷ ins.now) }
    requires sets { sets.old.items ≡ [] }
    requires starts { starts.old.items ≡ [] }
    ensures { OnOk result (AreListed (outs.now ∷ ins.now) sets.new.items starts.new.items) }
{
    for array in 0..ins.len() as u8 + 1 {
        starts.push(sets.len() as u32)?;
        let table = table_of(outs, ins, array);
        list_sets(table, array, sets)?;
    }
    Ok(())
}

/// The table of the sets of an array: 0 is the output, i + 1 is input i.
fn table_of<'a>(outs: &'a SetTable, ins: &'a [SetTable], array: u8) -> &'a SetTable
    requires { array ≤ length ins.now }
    ensures { result.now ≡ slice_index_or (outs.now ∷ ins.now) array result.now }
{
    if array == 0 {
        outs
    } else {
        &ins[array as usize - 1]
    }
}

/// Appends the sets of a table to a list, as sets of this array.
pub fn list_sets<'a>(
    table: &'a SetTable,
    array: u8,
    sets: &mut Vec<ListedSet<'a>>,
) -> Result<(), NoMemory>
    ensures added { OnOk result
        (sets.new.items ≡ sets.old.items ++ listed_as array table.now.sets) }
    ensures right { OnOk result (AreSetsOf table.now.extent table.now.sets) }
{
    for number in 0..table.len() {
        sets.push(listed(table, array, number))?;
    }
    Ok(())
}

/// The set of a number, as one of this array.
fn listed<'a>(table: &'a SetTable, array: u8, number: u32) -> ListedSet<'a>
    requires { number < length table.now.sets }
    ensures value { result ≡ record { array = array; set = set_at table.now.sets number } }
    ensures right { IsSetOf table.now.extent (set_at table.now.sets number) }
{
    ListedSet {
        array,
        shape: table.shape(),
        runs: table.runs(number),
    }
}

/// Appends the numbers of so many rows, each number behind the start of its array.
fn shift_each(rows: u32, names: &[u32], starts: &[u32], to: &mut Vec<u32>) -> Result<(), NoMemory>
    requires whole { length names.now ≡ rows * length starts.now }
    requires fits { (n : ℕ) → n < rows
        → All (λ k. k < 2 ^ 32) (shifted starts.now (numbers_at (length starts.now) names.now n)) }
    requires to { to.old.items ≡ [] }
    ensures { OnOk result (to.new.items
        ≡ flat_map (λ n. shifted starts.now (numbers_at (length starts.now) names.now n))
        (range_with_len 0 rows)) }
{
    let width = starts.len();
    for row in 0..rows {
        let start = row as usize * width;
        shift(&names[start..start + width], starts, to)?;
    }
    Ok(())
}

/// Appends the numbers of a row, each behind the start of its array.
fn shift(numbers: &[u32], starts: &[u32], to: &mut Vec<u32>) -> Result<(), NoMemory>
    requires arrays { length numbers.now ≡ length starts.now }
    requires fits { All (λ k. k < 2 ^ 32) (shifted starts.now numbers.now) }
    ensures { OnOk result (to.new.items ≡ to.old.items ++ shifted starts.now numbers.now) }
{
    for i in 0..numbers.len() {
        to.push(starts[i] + numbers[i])?;
    }
    Ok(())
}
