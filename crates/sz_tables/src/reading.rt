//! Reading region pairs from bytes: each listed set goes into the table of its array as it is read,
//! and a region pair is a row of the numbers that its sets have there. Only where more sets are
//! listed than region pairs, the sets are kept until it is known which of them are named.

ghost use Rattle.std.specs.Prelude.{◌≡◌, ◌<◌, ◌≤◌, ◌+◌, ◌-◌, ◌*◌, ◌^◌, ◌++◌, ◌∷◌};
ghost use Rattle.sz_tables.specs.Terms.{[], ℕ, List, true, length, map, All, OnOk, IfOk, IfErr};
ghost use Rattle.sz_tables.specs.Terms.{IfSome, Some, AllZip, flat_map, slice_get, is_extent};
ghost use Rattle.sz_tables.specs.Terms.{size_of, AreRunsFrom, four_bytes, extent_at, counted};
ghost use Rattle.sz_tables.specs.Terms.{rows_bytes, IsAt, Listed, IsListed, listed_bytes};
ghost use Rattle.sz_tables.specs.Terms.{BeginsRegions, OnBad, NoRegionsBegin, SaysNoRegions};
ghost use Rattle.sz_tables.specs.Terms.{NoneAt, AreFew, IsNameFor, ArePairNames, AreStoreNames};
ghost use Rattle.sz_tables.specs.Terms.{HasAtMostOneMore, spelled, Row, pairings, rows_of};
ghost use Rattle.sz_tables.specs.Terms.{IsOfArray, Gets, IsRowNamed, place_for};
ghost use Rattle.sz_tables.specs.Terms.{IsTable, IsPart, NoPart};

use crate::region_table::{RegionTable, are_few, tables_for};
use crate::room::make_room;
use crate::set_table::SetTable;
use rayon::join;
use std::alloc::Global;
use std::thread::Threads;
use sz_cells::{NoMemory, Run, Shape};
use sz_region::{
    MOST_ROWS, Take, shapes_are_within_limits, take_listed_runs, take_number, take_regions,
};

/// The array of a listed set, 0 for the output and i + 1 for input i, and the number that the set
/// has in the table of that array.
#[derive(Clone, Copy)]
pub(crate) struct Place {
    array: u8,
    number: u32,
}

impl RegionTable {
    /// The table of the region pairs of the store that begins at a place of some bytes, for an
    /// operator with an output and inputs of these shapes, and the place behind it. `Bad` exactly
    /// where none begins there.
    ///
    /// Takes time in the number of bytes that it reads, memory for each listed set, for four bytes a
    /// name and while it reads for eight a listed set, and none for what is not there. A long
    /// table of sets is read in two parts side by side.
    pub fn take_bytes<R: Threads + Sync>(
        rt: &R,
        alloc: Global,
        out: Shape,
        ins: &[Shape],
        bytes: &[u8],
        at: u64,
    ) -> Result<(RegionTable, u64), Take>
        requires { length ins.now ≤ 2 }
        ensures ok { IfOk result (λ r. BeginsRegions out ins.now bytes.now at r.1 (pairings r.0)) }
        ensures out { IfOk result (λ r. r.0.out ≡ out) }
        ensures ins { IfOk result (λ r. r.0.ins ≡ ins.now) }
        ensures within { IfOk result (λ r. r.1 ≤ length bytes.now) }
        ensures err { IfErr result (λ e. SaysNoRegions out ins.now bytes.now at e) }
    {
        shapes_are_within_limits(&out, ins);
        match take_as_listed(rt, alloc, out, ins, bytes, at) {
            Ok(Some(taken)) => Ok(taken),
            Ok(None) => take_as_named(alloc, out, ins, bytes, at),
            Err(Take::Bad { .. }) => Err(Take::Bad { at }),
            Err(Take::NoMemory) => Err(Take::NoMemory),
        }
    }
}

/// The table of the region pairs that begin at a place, where the sets that no region pair names
/// are few. Each named set is kept until all are read.
fn take_as_named(
    alloc: Global,
    out: Shape,
    ins: &[Shape],
    bytes: &[u8],
    at: u64,
) -> Result<(RegionTable, u64), Take>
    requires { length ins.now ≤ 2 }
    ensures ok { IfOk result (λ r. BeginsRegions out ins.now bytes.now at r.1 (pairings r.0)) }
    ensures out { IfOk result (λ r. r.0.out ≡ out) }
    ensures ins { IfOk result (λ r. r.0.ins ≡ ins.now) }
    ensures within { IfOk result (λ r. r.1 ≤ length bytes.now) }
    ensures err { IfErr result (λ e. SaysNoRegions out ins.now bytes.now at e) }
{
    let (regions, next) = take_regions(alloc, out, ins, bytes, at)?;
    let table = RegionTable::of_regions(alloc, out, ins, &regions)?;
    Ok((table, next))
}

/// The table of the region pairs that begin at a place, with all sets that are listed. `None` where
/// more sets of an array are listed than region pairs. `Bad` says any place.
fn take_as_listed<R: Threads + Sync>(
    rt: &R,
    alloc: Global,
    out: Shape,
    ins: &[Shape],
    bytes: &[u8],
    at: u64,
) -> Result<Option<(RegionTable, u64)>, Take>
    requires inputs { length ins.now ≤ 2 }
    requires right { All (λ e. is_extent e ≡ true) (out ∷ ins.now) }
    ensures ok { IfOk result (λ o. IfSome o
        (λ r. BeginsRegions out ins.now bytes.now at r.1 (pairings r.0))) }
    ensures out { IfOk result (λ o. IfSome o (λ r. r.0.out ≡ out)) }
    ensures ins { IfOk result (λ o. IfSome o (λ r. r.0.ins ≡ ins.now)) }
    ensures within { IfOk result (λ o. IfSome o (λ r. r.1 ≤ length bytes.now)) }
    ensures err { IfErr result (λ e. OnBad e (NoRegionsBegin out ins.now bytes.now at)) }
{
    let taken = match take_sets_beside(rt, alloc, out, ins, bytes, at)? {
        Some(taken) => taken,
        None => take_sets(alloc, out, ins, bytes, at)?,
    };
    with_rows(alloc, out, ins, bytes, at, taken)
}

/// The table of the region pairs that begin at a place, whose listed sets were taken, as
/// [`take_as_listed`] gives it.
fn with_rows(
    alloc: Global,
    out: Shape,
    ins: &[Shape],
    bytes: &[u8],
    at: u64,
    taken: TakenSets,
) -> Result<Option<(RegionTable, u64)>, Take>
    requires inputs { length ins.now ≤ 2 }
    requires right { All (λ e. is_extent e ≡ true) (out ∷ ins.now) }
    requires extents { map (λ t. t.extent) (taken.outs ∷ taken.tables.items) ≡ out ∷ ins.now }
    requires taken { IsTable out ins.now bytes.now at taken.next
        (map (λ t. t.sets) (taken.outs ∷ taken.tables.items)) taken.places.items }
    ensures ok { IfOk result (λ o. IfSome o
        (λ r. BeginsRegions out ins.now bytes.now at r.1 (pairings r.0))) }
    ensures out { IfOk result (λ o. IfSome o (λ r. r.0.out ≡ out)) }
    ensures ins { IfOk result (λ o. IfSome o (λ r. r.0.ins ≡ ins.now)) }
    ensures within { IfOk result (λ o. IfSome o (λ r. r.1 ≤ length bytes.now)) }
    ensures err { IfErr result (λ e. OnBad e (NoRegionsBegin out ins.now bytes.now at)) }
{
    let TakenSets {
        outs,
        tables,
        places,
        next,
    } = taken;
    let mut names = Vec::new(alloc);
    let (count, end) = take_rows(&places, ins.len(), bytes, next, &mut names)?;
    match RegionTable::of_rows(outs, tables, names, count) {
        Some(table) => Ok(Some((table, end))),
        None => Ok(None),
    }
}

/// What is read of listed sets: the tables of their arrays, the place of each, and where the bytes
/// behind them begin.
#[derive(Drop)]
struct TakenSets {
    outs: SetTable,
    tables: Vec<SetTable>,
    places: Vec<Place>,
    next: u64,
}

/// The table of sets that begins at a place.
fn take_sets(
    alloc: Global,
    out: Shape,
    ins: &[Shape],
    bytes: &[u8],
    at: u64,
) -> Result<TakenSets, Take>
    requires { All (λ e. is_extent e ≡ true) (out ∷ ins.now) }
    ensures extents { IfOk result
        (λ s. map (λ t. t.extent) (s.outs ∷ s.tables.items) ≡ out ∷ ins.now) }
    ensures ok { IfOk result (λ s. IsTable out ins.now bytes.now at s.next
        (map (λ t. t.sets) (s.outs ∷ s.tables.items)) s.places.items) }
    ensures err { IfErr result (λ e. OnBad e
        (NoneAt (AreFew (IsListed out ins.now)) (counted listed_bytes) bytes.now at)) }
{
    let Some(count) = take_number(bytes, at) else {
        return Err(Take::Bad { at });
    };
    take_part(alloc, out, ins, bytes, at + 4, count)
}

/// From how many sets of the output on, and as many others behind them, the two parts of a table of
/// sets are read side by side.
const SIDE_BY_SIDE_FROM: u32 = 16_384;

/// As [`take_sets`], where many sets of the output stand in front of as many others: each of the
/// two parts in a thread of its own. `None` where that is not so, or nothing is read so.
fn take_sets_beside<R: Threads + Sync>(
    rt: &R,
    alloc: Global,
    out: Shape,
    ins: &[Shape],
    bytes: &[u8],
    at: u64,
) -> Result<Option<TakenSets>, NoMemory>
    requires { All (λ e. is_extent e ≡ true) (out ∷ ins.now) }
    ensures extents { IfOk result (λ o. IfSome o
        (λ s. map (λ t. t.extent) (s.outs ∷ s.tables.items) ≡ out ∷ ins.now)) }
    ensures ok { IfOk result (λ o. IfSome o (λ s. IsTable out ins.now bytes.now at s.next
        (map (λ t. t.sets) (s.outs ∷ s.tables.items)) s.places.items)) }
{
    let Some(count) = take_number(bytes, at) else {
        return Ok(None);
    };
    let (front, middle) = find_front(bytes, count, at + 4);
    if front < SIDE_BY_SIDE_FROM || count - front < SIDE_BY_SIDE_FROM {
        return Ok(None);
    }
    let (first, second) = join(
        rt,
        || -> Result<TakenSets, Take>
            requires right { All (λ e. is_extent e ≡ true) (out ∷ ins.now) }
            requires within { at + 4 ≤ length bytes.now }
            ensures extents { IfOk result
                (λ s. map (λ t. t.extent) (s.outs ∷ s.tables.items) ≡ out ∷ ins.entry.now) }
            ensures ok { IfOk result (λ s. IsPart out ins.entry.now bytes.entry.now (at + 4) s.next
                front (map (λ t. t.sets) (s.outs ∷ s.tables.items)) s.places.items) }
        { take_part(alloc, out, ins, bytes, at + 4, front) },
        || -> Result<TakenSets, Take>
            requires right { All (λ e. is_extent e ≡ true) (out ∷ ins.now) }
            requires within { middle ≤ length bytes.now }
            requires few { front ≤ count }
            ensures extents { IfOk result
                (λ s. map (λ t. t.extent) (s.outs ∷ s.tables.items) ≡ out ∷ ins.entry.now) }
            ensures ok { IfOk result (λ s. IsPart out ins.entry.now bytes.entry.now middle s.next
                (count - front) (map (λ t. t.sets) (s.outs ∷ s.tables.items)) s.places.items) }
        { take_part(alloc, out, ins, bytes, middle, count - front) },
    );
    let (Ok(first), Ok(second)) = (first, second) else {
        return Ok(None);
    };
    if first.next != middle || !are_few(&first.tables, 0) || second.outs.len() != 0 {
        return Ok(None);
    }
    Ok(Some(put_together(first, second)?))
}

/// How many sets of the output stand in front among so many that are listed from a place on, and
/// the place behind these, by their counts alone.
fn find_front(bytes: &[u8], count: u32, at: u64) -> (u32, u64)
    requires { at ≤ length bytes.now }
    ensures few { result.0 ≤ count }
    ensures within { result.1 ≤ length bytes.now }
{
    let mut place = at;
    for index in 0..count {
        match find_own(bytes, place) {
            Some(next) => place = next,
            None => return (index, place),
        }
    }
    (count, place)
}

/// The place behind the set of the output that may be listed at a place.
fn find_own(bytes: &[u8], at: u64) -> Option<u64>
    ensures { IfSome result (λ next. next ≤ length bytes.now) }
{
    if *bytes.get(at as usize)? != 0 {
        return None;
    }
    let runs = take_number(bytes, at.saturating_add(1))?;
    let next = at.saturating_add(5).saturating_add(u64::from(runs) * 8);
    if (bytes.len() as u64) < next {
        return None;
    }
    Some(next)
}

/// Sets of the output, and behind them sets of inputs, with the tables of the first and of the
/// second.
fn put_together(first: TakenSets, second: TakenSets) -> Result<TakenSets, NoMemory>
    ensures { IfOk result (λ s. (s.outs ≡ first.outs) × (s.tables ≡ second.tables)
        × (s.places.items ≡ first.places.items ++ second.places.items)
        × (s.next ≡ second.next)) }
{
    let TakenSets {
        outs,
        mut places,
        ..
    } = first;
    let TakenSets {
        tables,
        places: more,
        next,
        ..
    } = second;
    places.extend_from_slice(&more)?;
    Ok(TakenSets {
        outs,
        tables,
        places,
        next,
    })
}

/// So many listed sets from a place on, each in the table of its array.
fn take_part(
    alloc: Global,
    out: Shape,
    ins: &[Shape],
    bytes: &[u8],
    at: u64,
    count: u32,
) -> Result<TakenSets, Take>
    requires right { All (λ e. is_extent e ≡ true) (out ∷ ins.now) }
    requires within { at ≤ length bytes.now }
    ensures extents { IfOk result
        (λ s. map (λ t. t.extent) (s.outs ∷ s.tables.items) ≡ out ∷ ins.now) }
    ensures ok { IfOk result (λ s. IsPart out ins.now bytes.now at s.next count
        (map (λ t. t.sets) (s.outs ∷ s.tables.items)) s.places.items) }
    ensures err { IfErr result (λ e. OnBad e (NoPart out ins.now bytes.now at count)) }
{
    let mut outs = SetTable::new(alloc, out)?;
    let mut tables = tables_for(alloc, ins)?;
    let mut places = Vec::new(alloc);
    let next = take_each(
        out,
        ins,
        bytes,
        at,
        count,
        &mut outs,
        &mut tables,
        &mut places,
    )?;
    Ok(TakenSets {
        outs,
        tables,
        places,
        next,
    })
}

/// So many listed sets from a place on: each goes into the table of its array, and where it stands
/// there behind the places. Answers the place behind them.
fn take_each(
    out: Shape,
    ins: &[Shape],
    bytes: &[u8],
    at: u64,
    count: u32,
    outs: &mut SetTable,
    tables: &mut [SetTable],
    places: &mut Vec<Place>,
) -> Result<u64, Take>
    requires right { All (λ e. is_extent e ≡ true) (out ∷ ins.now) }
    requires within { at ≤ length bytes.now }
    requires extents { map (λ t. t.extent) (outs.old ∷ tables.old) ≡ out ∷ ins.now }
    requires none { All (λ t. t.sets ≡ []) (outs.old ∷ tables.old) }
    requires places { places.old.items ≡ [] }
    ensures extents { map (λ t. t.extent) (outs.new ∷ tables.new) ≡ out ∷ ins.now }
    ensures ok { IfOk result (λ next. IsPart out ins.now bytes.now at next count
        (map (λ t. t.sets) (outs.new ∷ tables.new)) places.new.items) }
    ensures err { IfErr result (λ e. OnBad e (NoPart out ins.now bytes.now at count)) }
{
    make_room(bytes, count, at, outs, tables)?;
    places.reserve((count as usize).min(bytes.len() / 5))?;
    let mut runs = Vec::new(*places.allocator());
    let mut place = at;
    for _index in 0..count {
        let (array, next) = take_listed_runs(out, ins, bytes, place, &mut runs)?;
        let number = add_listed(outs, tables, array, &runs)?;
        places.push(Place { array, number })?;
        place = next;
    }
    Ok(place)
}

/// The number of the set of an array that has these runs, in the array's table, to which it is
/// added where it is new.
fn add_listed(
    outs: &mut SetTable,
    tables: &mut [SetTable],
    array: u8,
    runs: &[Run],
) -> Result<u32, NoMemory>
    requires array { array ≤ length tables.old }
    requires longest { AreRunsFrom 0
        (size_of (extent_at (map (λ t. t.extent) (outs.old ∷ tables.old)) array)) runs.now }
    requires few { All (λ t. length t.sets + 1 < 2 ^ 32) (outs.old ∷ tables.old) }
    ensures extents { map (λ t. t.extent) (outs.new ∷ tables.new)
        ≡ map (λ t. t.extent) (outs.old ∷ tables.old) }
    ensures ok { IfOk result (Gets (map (λ t. t.sets) (outs.old ∷ tables.old))
        (map (λ t. t.sets) (outs.new ∷ tables.new)) array
        (spelled (extent_at (map (λ t. t.extent) (outs.old ∷ tables.old)) array) runs.now)) }
{
    if array == 0 {
        add_read(outs, runs)
    } else {
        add_read(&mut tables[array as usize - 1], runs)
    }
}

/// The number of the set that has these runs, which is added where it is new.
pub(crate) fn add_read(table: &mut SetTable, runs: &[Run]) -> Result<u32, NoMemory>
    requires longest { AreRunsFrom 0 (size_of table.old.extent) runs.now }
    requires few { length table.old.sets + 1 < 2 ^ 32 }
    ensures ok { let set = spelled table.old.extent runs.now in IfOk result (λ n.
        (slice_get table.new.sets n ≡ Some set)
        × HasAtMostOneMore table.old.sets table.new.sets set) }
    ensures extent { table.new.extent ≡ table.old.extent }
{
    table.reserve(1, runs.len())?;
    Ok(table.add_runs(runs))
}

/// How many region pairs begin with their number at a place and name sets that have places, and the
/// place behind them. The numbers of their sets take the place of the names, row by row.
fn take_rows(
    places: &[Place],
    inputs: usize,
    bytes: &[u8],
    at: u64,
    names: &mut Vec<u32>,
) -> Result<(u32, u64), Take>
    requires few { length places.now < 2 ^ 32 }
    requires inputs { inputs ≤ 2 }
    requires names { names.old.items ≡ [] }
    ensures few { IfOk result (λ r. r.0 ≤ 2 ^ 30) }
    ensures whole { IfOk result (λ r. length names.new.items ≡ r.0 * (inputs + 1)) }
    ensures ok { IfOk result (λ r. (rows : List (List ℕ))
        × AllZip (IsRowNamed places.now inputs) rows (rows_of inputs r.0 names.new.items)
        × IsAt bytes.now at r.1 (rows_bytes rows)) }
    ensures err { IfErr result (λ e. (listed : List Listed) → AllZip IsOfArray places.now listed
        → OnBad e (NoneAt (AreStoreNames listed inputs) rows_bytes bytes.now at)) }
{
    let Some(count) = take_number(bytes, at) else {
        return Err(Take::Bad { at });
    };
    if count > MOST_ROWS {
        return Err(Take::Bad { at });
    }
    names.reserve((count as usize * (inputs + 1)).min(bytes.len() / 4))?;
    let mut place = at + 4;
    for _index in 0..count {
        place = take_row(places, inputs, bytes, place, names)?;
    }
    Ok((count, place))
}

/// Appends the numbers of the sets of the region pair whose names stand at a place, and answers the
/// place behind them.
fn take_row(
    places: &[Place],
    inputs: usize,
    bytes: &[u8],
    at: u64,
    names: &mut Vec<u32>,
) -> Result<u64, Take>
    requires few { length places.now < 2 ^ 32 }
    requires inputs { inputs ≤ 2 }
    requires within { at ≤ length bytes.now }
    ensures ok { IfOk result (λ next. (ns : List ℕ) × (row : Row)
        × IsRowNamed places.now inputs ns row
        × (names.new.items ≡ names.old.items ++ row.out ∷ row.ins)
        × IsAt bytes.now at next (flat_map four_bytes ns)) }
    ensures err { IfErr result (λ e. (listed : List Listed) → AllZip IsOfArray places.now listed
        → OnBad e (NoneAt (ArePairNames listed inputs) (flat_map four_bytes) bytes.now at)) }
{
    let mut place = at;
    for array in 0..inputs as u8 + 1 {
        let number = take_place(places, array, bytes, place)?;
        names.push(number)?;
        place += 4;
    }
    Ok(place)
}

/// The number of the set of an array whose name stands at a place.
fn take_place(places: &[Place], array: u8, bytes: &[u8], at: u64) -> Result<u32, Take>
    requires { length places.now < 2 ^ 32 }
    ensures ok { IfOk result (λ k. (n : ℕ) × (slice_get places.now n ≡ Some (place_for array k))
        × IsAt bytes.now at (at + 4) (four_bytes n)) }
    ensures err { IfErr result (λ e. (listed : List Listed) → AllZip IsOfArray places.now listed
        → OnBad e (NoneAt (IsNameFor listed array) four_bytes bytes.now at)) }
{
    let Some(name) = take_number(bytes, at) else {
        return Err(Take::Bad { at });
    };
    let Some(place) = places.get(name as usize) else {
        return Err(Take::Bad { at });
    };
    if place.array != array {
        return Err(Take::Bad { at });
    }
    Ok(place.number)
}
