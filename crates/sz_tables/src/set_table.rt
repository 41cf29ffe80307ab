//! Sets of cells of one shape by number, each different set once.

ghost use Rattle.std.specs.Prelude.{◌≡◌, ◌<◌, ◌≤◌, ◌+◌, ◌-◌, ◌^◌, ◌∷◌, ◌++◌, ◌≢◌};
ghost use Rattle.sz_tables.specs.Terms.{[], ℕ, MatchOption, vec_len, vec_capacity, Decides, length};
ghost use Rattle.sz_tables.specs.Terms.{fold, max, OnOk, OnErr, IfOk, Some, true, All, slice_get};
ghost use Rattle.sz_tables.specs.Terms.{runs_of, AreRunsFrom, Spells, size_of, AreDifferent};
ghost use Rattle.sz_tables.specs.Terms.{HasAtMostOneMore, spelled, first_of, mix_of, mixed, set_at};
ghost use Rattle.sz_tables.specs.Terms.{runs_in, empty_sets, IsOneOrApart, spans_from};
ghost use Rattle.sz_tables.specs.Terms.{slice_index_or};

use crate::chains::Chains;
use crate::spans::Span;
use std::alloc::Global;
use std::marker::Model;
use sz_cells::{CellSet, NoMemory, Run, Shape};

/// Under how many keys the first sets are filed: an odd number, as each number of keys is, so that
/// sets whose runs are all even leave no keys unused.
const FIRST_KEYS: u32 = 17;

/// Sets of one shape. The runs of all sets stand in one list.
#[derive(Drop)]
pub struct SetTable {
    shape: Shape,
    runs: Vec<Run>,
    /// Where the runs of each set end. They begin where those of the set before it end.
    ends: Vec<usize>,
    /// Each set under what is left of what its runs are mixed to, so that an equal set is found.
    index: Chains,
    /// No set begins behind this cell, so a set that does is none of the table's.
    latest: u32,
    spare_sets: u32,
    spare_runs: usize,
}

impl Model for SetTable {
    ghost use Rattle.std.specs.Prelude.{◌≡◌, ◌≤◌, ◌+◌, ◌∷◌, map, length, vec_capacity};
    ghost use Rattle.sz_tables.specs.Tables.{SetsByNumber};

    ghost Value = { SetsByNumber };

    ghost use Rattle.sz_tables.specs.Filed.{HasRoom};
    ghost use Rattle.sz_tables.specs.Tables.{spelled, runs_by_number, AreNumbered, BeginUpTo};
    ghost use Rattle.sz_tables.specs.Tables.{spans_from, end_from};

    ghost view = { λ t. record {
      extent = t.shape;
      sets = map (spelled t.shape) (runs_by_number t.runs.items (spans_from 0 t.ends.items));
      spare_sets = t.spare_sets;
      spare_runs = t.spare_runs;
      capacities = vec_capacity t.runs ∷ vec_capacity t.ends ∷ t.index.capacities;
    } };

    ghost invariant = { λ t. AreNumbered t.shape t.runs.items (spans_from 0 t.ends.items)
        t.index
        × HasRoom (length t.ends.items) t.spare_sets (vec_capacity t.ends)
        × (t.spare_sets ≤ t.index.spare)
        × (length t.runs.items + t.spare_runs ≤ vec_capacity t.runs)
        × BeginUpTo t.latest (runs_by_number t.runs.items (spans_from 0 t.ends.items))
        × (end_from 0 t.ends.items ≡ length t.runs.items) };
}

impl SetTable {
    /// A table of sets of this shape, without one.
    pub fn new(alloc: Global, shape: Shape) -> Result<SetTable, NoMemory>
        ensures { IfOk result (λ t. t ≡ empty_sets shape) }
    {
        let index = Chains::new(alloc, FIRST_KEYS)?;
        Ok(SetTable {
            shape,
            runs: Vec::new(alloc),
            ends: Vec::new(alloc),
            index,
            latest: 0,
            spare_sets: 0,
            spare_runs: 0,
        })
    }

    /// Makes room for so many more sets, which have so many runs together, where there is none yet.
    pub fn reserve(&mut self, sets: u32, runs: usize) -> Result<(), NoMemory>
        requires { length self.old.sets + sets < 2 ^ 32 }
        ensures ok { OnOk result (self.new ≡ record self.old {
          spare_sets = max self.old.spare_sets sets;
          spare_runs = max self.old.spare_runs runs;
          capacities = self.new.capacities;
        }) }
        ensures kept { self.new ≡ record self.old {
          spare_sets = self.new.spare_sets;
          spare_runs = self.new.spare_runs;
          capacities = self.new.capacities;
        } }
        ensures grown { (self.old.spare_sets ≤ self.new.spare_sets)
            × (self.old.spare_runs ≤ self.new.spare_runs) }
    {
        self.reserve_sets(sets)?;
        self.reserve_runs(runs)
    }

    /// Makes room for so many more sets, and for their keys.
    fn reserve_sets(&mut self, more: u32) -> Result<(), NoMemory>
        requires { length self.old.sets + more < 2 ^ 32 }
        ensures ok { OnOk result (self.new ≡ record self.old {
          spare_sets = max self.old.spare_sets more;
          capacities = self.new.capacities;
        }) }
        ensures err { OnErr result
            (self.new ≡ record self.old { capacities = self.new.capacities }) }
    {
        if more <= self.spare_sets {
            return Ok(());
        }
        self.ends.reserve(more as usize)?;
        self.index.widen(more)?;
        self.spare_sets = more;
        Ok(())
    }

    /// Makes room for so many more runs.
    fn reserve_runs(&mut self, more: usize) -> Result<(), NoMemory>
        ensures ok { OnOk result (self.new ≡ record self.old {
          spare_runs = max self.old.spare_runs more;
          capacities = self.new.capacities;
        }) }
        ensures err { OnErr result (self.new ≡ self.old) }
    {
        if more <= self.spare_runs {
            return Ok(());
        }
        self.runs.reserve(more)?;
        self.spare_runs = more;
        Ok(())
    }

    /// The number of this set, which is added where no set of the table is equal. Takes no memory:
    /// each capacity stays.
    ///
    /// Costs a look at some runs of the set, at each of them where it was added before, and at the
    /// sets that have the same key.
    pub fn add(&mut self, set: &CellSet) -> u32
        requires shape { set.now.extent ≡ self.old.extent }
        requires sets { 0 < self.old.spare_sets }
        requires runs { runs_in set.now ≤ self.old.spare_runs }
        ensures number { slice_get self.new.sets result ≡ Some set.now }
        ensures sets { HasAtMostOneMore self.old.sets self.new.sets set.now }
        ensures extent { self.new.extent ≡ self.old.extent }
        ensures room { self.old.spare_sets ≤ self.new.spare_sets + 1 }
        ensures runs { self.old.spare_runs ≤ self.new.spare_runs + runs_in set.now }
        ensures capacities { self.new.capacities ≡ self.old.capacities }
    {
        self.add_runs(set.runs())
    }

    /// As [`SetTable::add`]. Where `apart`, the set is one with each set of the table or has no
    /// cell in common with it, so that its first cell tells which one it is.
    ///
    /// Costs then a look at some runs of the set, at each of them where it is added, and at the
    /// sets that have the same key.
    pub fn add_as(&mut self, set: &CellSet, apart: bool) -> u32
        requires shape { set.now.extent ≡ self.old.extent }
        requires sets { 0 < self.old.spare_sets }
        requires runs { runs_in set.now ≤ self.old.spare_runs }
        requires apart { apart ≡ true → All (IsOneOrApart set.now) self.old.sets }
        ensures number { slice_get self.new.sets result ≡ Some set.now }
        ensures sets { HasAtMostOneMore self.old.sets self.new.sets set.now }
        ensures extent { self.new.extent ≡ self.old.extent }
        ensures room { self.old.spare_sets ≤ self.new.spare_sets + 1 }
        ensures runs { self.old.spare_runs ≤ self.new.spare_runs + runs_in set.now }
        ensures capacities { self.new.capacities ≡ self.old.capacities }
    {
        self.add_runs_as(set.runs(), apart)
    }

    /// As [`SetTable::add`], of the set that has these runs, which are its longest ones.
    pub fn add_runs(&mut self, runs: &[Run]) -> u32
        requires longest { AreRunsFrom 0 (size_of self.old.extent) runs.now }
        requires sets { 0 < self.old.spare_sets }
        requires runs { length runs.now ≤ self.old.spare_runs }
        ensures number { slice_get self.new.sets result
            ≡ Some (spelled self.old.extent runs.now) }
        ensures sets { HasAtMostOneMore self.old.sets self.new.sets
            (spelled self.old.extent runs.now) }
        ensures extent { self.new.extent ≡ self.old.extent }
        ensures room { self.old.spare_sets ≤ self.new.spare_sets + 1 }
        ensures runs { self.old.spare_runs ≤ self.new.spare_runs + length runs.now }
        ensures capacities { self.new.capacities ≡ self.old.capacities }
    {
        self.add_runs_as(runs, false)
    }

    /// As [`SetTable::add_as`], of the set that has these runs, which are its longest ones.
    fn add_runs_as(&mut self, runs: &[Run], apart: bool) -> u32
        requires longest { AreRunsFrom 0 (size_of self.old.extent) runs.now }
        requires sets { 0 < self.old.spare_sets }
        requires runs { length runs.now ≤ self.old.spare_runs }
        requires apart { apart ≡ true
            → All (IsOneOrApart (spelled self.old.extent runs.now)) self.old.sets }
        ensures number { slice_get self.new.sets result
            ≡ Some (spelled self.old.extent runs.now) }
        ensures sets { HasAtMostOneMore self.old.sets self.new.sets
            (spelled self.old.extent runs.now) }
        ensures extent { self.new.extent ≡ self.old.extent }
        ensures room { self.old.spare_sets ≤ self.new.spare_sets + 1 }
        ensures runs { self.old.spare_runs ≤ self.new.spare_runs + length runs.now }
        ensures capacities { self.new.capacities ≡ self.old.capacities }
    {
        let mix = mix_of(runs);
        if self.begins_behind(runs) {
            return self.append(runs, mix);
        }
        match self.find(runs, mix, apart) {
            Some(number) => number,
            None => self.append(runs, mix),
        }
    }

    /// The number of this set. `None` exactly where there is none.
    ///
    /// Costs as [`SetTable::add`] of a set that was added before.
    pub fn number_of(&self, set: &CellSet) -> Option<u32>
        ensures { MatchOption result ((n : ℕ) → slice_get self.now.sets n ≢ Some set.now)
            (λ n. slice_get self.now.sets n ≡ Some set.now) }
    {
        if set.shape() != self.shape {
            return None;
        }
        let runs = set.runs();
        self.find(runs, mix_of(runs), false)
    }

    /// Whether these runs begin behind all sets, so that no set has them. Sets that come in the
    /// order in which they begin are told to be new by this alone.
    fn begins_behind(&self, runs: &[Run]) -> bool
        requires longest { AreRunsFrom 0 (size_of self.now.extent) runs.now }
        ensures { result ≡ true → (n : ℕ)
            → slice_get self.now.sets n ≢ Some (spelled self.now.extent runs.now) }
    {
        self.latest < first_of(runs)
    }

    /// The number of the set that has these runs, which are mixed to this. Where `apart`, it is one
    /// with each set of the table or apart from it.
    fn find(&self, runs: &[Run], mix: u32, apart: bool) -> Option<u32>
        requires longest { AreRunsFrom 0 (size_of self.now.extent) runs.now }
        requires mix { mix ≡ mix_of runs.now }
        requires apart { apart ≡ true
            → All (IsOneOrApart (spelled self.now.extent runs.now)) self.now.sets }
        ensures { let set = spelled self.now.extent runs.now in MatchOption result
            ((n : ℕ) → slice_get self.now.sets n ≢ Some set)
            (λ n. slice_get self.now.sets n ≡ Some set) }
    {
        let key = mix % self.index.keys();
        let mut next = self.index.last(key);
        while let Some(number) = next {
            if self.is_spelled(number, runs, mix, apart) {
                return Some(number);
            }
            next = self.index.before(number, key);
        }
        None
    }

    /// Whether the set of a number has these runs, which are mixed to this. The runs of a set that
    /// are mixed to something else are not looked at; nor are, where `apart`, those behind the
    /// first one.
    fn is_spelled(&self, number: u32, runs: &[Run], mix: u32, apart: bool) -> bool
        requires number { number < length self.now.sets }
        requires longest { AreRunsFrom 0 (size_of self.now.extent) runs.now }
        requires mix { mix ≡ mix_of runs.now }
        requires apart { apart ≡ true
            → All (IsOneOrApart (spelled self.now.extent runs.now)) self.now.sets }
        ensures { Decides result
            (slice_get self.now.sets number ≡ Some (spelled self.now.extent runs.now)) }
    {
        if apart {
            return begin_alike(self.runs(number), runs);
        }
        self.index.item(number) == mix && are_same(self.runs(number), runs)
    }

    /// Adds the set that has these runs, which is none of the table's. Its number is the count of
    /// those before it.
    fn append(&mut self, runs: &[Run], mix: u32) -> u32
        requires longest { AreRunsFrom 0 (size_of self.old.extent) runs.now }
        requires mix { mix ≡ mix_of runs.now }
        requires new { (n : ℕ)
            → slice_get self.old.sets n ≢ Some (spelled self.old.extent runs.now) }
        requires sets { 0 < self.old.spare_sets }
        requires runs { length runs.now ≤ self.old.spare_runs }
        ensures number { result ≡ length self.old.sets }
        ensures table { self.new ≡ record self.old {
          sets = self.old.sets ++ spelled self.old.extent runs.now ∷ [];
          spare_sets = self.old.spare_sets - 1;
          spare_runs = self.old.spare_runs - length runs.now;
        } }
    {
        let number = self.ends.len() as u32;
        put_runs(&mut self.runs, runs);
        self.ends.push_reserved(self.runs.len());
        let key = mix % self.index.keys();
        self.index.add(key, mix);
        self.latest = self.latest.max(first_of(runs));
        self.spare_sets -= 1;
        self.spare_runs -= runs.len();
        number
    }

    /// The longest runs of the set of a number, rising.
    pub fn runs(&self, number: u32) -> &[Run]
        requires { number < length self.now.sets }
        ensures runs { result.now ≡ runs_of (set_at self.now.sets number).indexes }
        ensures longest { AreRunsFrom 0 (size_of self.now.extent) result.now }
        ensures extent { (set_at self.now.sets number).extent ≡ self.now.extent }
        ensures spelled { Spells result.now (set_at self.now.sets number) }
    {
        let span = span_at(&self.ends, number);
        &self.runs[span.start..span.end]
    }

    /// How many sets there are. No two of them are equal.
    pub fn len(&self) -> u32
        ensures count { result ≡ length self.now.sets }
        ensures different { AreDifferent self.now.sets }
    {
        self.ends.len() as u32
    }

    /// The shape of the sets.
    pub fn shape(&self) -> Shape
        ensures { result ≡ self.now.extent }
    {
        self.shape
    }
}

/// The span of a number among those that end so.
fn span_at(ends: &[usize], number: u32) -> Span
    requires { number < length ends.now }
    ensures within { number < length (spans_from 0 ends.now) }
    ensures span { result ≡ slice_index_or (spans_from 0 ends.now) number result }
{
    let end = ends[number as usize];
    if number == 0 {
        return Span { start: 0, end };
    }
    let start = ends[number as usize - 1];
    Span { start, end }
}

/// The first cell of the first run, 0 where there is no run.
fn first_of(runs: &[Run]) -> u32
    ensures { result ≡ first_of runs.now }
{
    match runs.first() {
        Some(run) => run.first,
        None => 0,
    }
}

/// What some runs are mixed to: their number, and of many the first and the last of them alone.
fn mix_of(runs: &[Run]) -> u32
    ensures { result ≡ mix_of runs.now }
{
    let long = runs.len();
    let seed = (long as u64 % 4_294_967_296 + u64::from(first_of(runs))) % 4_294_967_296;
    let first = mix_more(seed, &runs[..long.min(16)]);
    let start = long.saturating_sub(16).max(16).min(long);
    mix_more(first, &runs[start..]) as u32
}

/// What runs behind others are mixed to.
fn mix_more(before: u64, runs: &[Run]) -> u64
    requires { before < 4294967296 }
    ensures mix { result ≡ fold mixed before runs.now }
    ensures fits { result < 4294967296 }
{
    let mut mixed = before;
    for run in runs {
        let first = u64::from(run.first);
        let last = u64::from(run.last);
        mixed = ((mixed + 4_294_967_296 - last) * 1_000_003 + first) % 4_294_967_296;
    }
    mixed
}

/// Appends runs for which there is room. Takes no memory.
fn put_runs(list: &mut Vec<Run>, more: &[Run])
    requires { vec_len list.old + length more.now ≤ vec_capacity list.old }
    ensures items { list.new.items ≡ list.old.items ++ more.now }
    ensures capacity { vec_capacity list.new ≡ vec_capacity list.old }
{
    for run in more {
        list.push_reserved(*run);
    }
}

/// Whether two lists have as many runs, and the first ones begin with the same cell.
fn begin_alike(a: &[Run], b: &[Run]) -> bool
    ensures { Decides result
        ((length a.now ≡ length b.now) × (first_of a.now ≡ first_of b.now)) }
{
    a.len() == b.len() && first_of(a) == first_of(b)
}

/// Whether two lists of runs are one.
fn are_same(a: &[Run], b: &[Run]) -> bool
    ensures { Decides result (a.now ≡ b.now) }
{
    a == b
}
