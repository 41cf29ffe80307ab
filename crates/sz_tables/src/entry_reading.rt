//! Reading payload entries from bytes: each listed payload and set goes into its table as it is
//! read, and an entry is a row of the numbers that its set and its payload have there. Only where
//! more sets or payloads are listed than entries, these are kept one by one until it is known which
//! of them are named.

ghost use Rattle.std.specs.Prelude.{◌≡◌, ◌<◌, ◌≤◌, ◌+◌, ◌^◌};
ghost use Rattle.sz_tables.specs.Terms.{[], ℕ, List, true, length, All, OnOk, IfOk, IfErr, IfSome};
ghost use Rattle.sz_tables.specs.Terms.{IfNone, Some, AllZip, flat_map, slice_get, Cells};
ghost use Rattle.sz_tables.specs.Terms.{is_extent, four_bytes, set_bytes, IsSetOf, counted};
ghost use Rattle.sz_tables.specs.Terms.{rows_bytes, IsAt, BeginsEntries, IsShort, payload_bytes};
ghost use Rattle.sz_tables.specs.Terms.{OnBad, NoEntriesBegin, SaysNoEntries, NoneAt, AreFew};
ghost use Rattle.sz_tables.specs.Terms.{IsNumberIn, AreEntryNames, AreEntriesNames, entries};
ghost use Rattle.sz_tables.specs.Terms.{AreNamesOfRow, BeginsTable, HasNumber, IsOneOf, IsRead};
ghost use Rattle.sz_tables.specs.Terms.{HasAtMostOneMore};

use crate::apart::are_apart;
use crate::entry_table::{EntryRow, EntryTable};
use crate::payload_table::PayloadTable;
use crate::reading::add_read;
use crate::room::find_counted;
use crate::set_table::SetTable;
use std::alloc::Global;
use sz_cells::laws::a_shape_is_within_limits;
use sz_cells::{NoMemory, Shape};
use sz_region::{MOST_ROWS, Take, take_entries, take_number, take_set_runs};

impl EntryTable {
    /// The table of the entries of the store that begins at a place of some bytes, for an output of
    /// this shape, and the place behind it. `Bad` exactly where none begins there. Whether the
    /// payloads are an operator's is not judged, but each payload of the table is one of the bytes.
    ///
    /// Takes time in the number of bytes that it reads, of the runs of the entries' sets and of the
    /// words of 64 cells in which these have cells; memory for each listed set and payload, for
    /// eight bytes an entry, and while it reads for four a listed set and payload and a bit for
    /// each cell of the shape; and none for what is not there.
    pub fn take_bytes(
        alloc: Global,
        out: Shape,
        bytes: &[u8],
        at: u64,
    ) -> Result<(EntryTable, u64), Take>
        ensures ok { IfOk result (λ r. BeginsEntries out bytes.now at r.1 (entries r.0)) }
        ensures payloads { IfOk result (λ r. BeginsTable out bytes.now at r.1 r.0) }
        ensures out { IfOk result (λ r. r.0.out ≡ out) }
        ensures within { IfOk result (λ r. r.1 ≤ length bytes.now) }
        ensures err { IfErr result (λ e. SaysNoEntries out bytes.now at e) }
    {
        a_shape_is_within_limits(&out);
        match take_as_listed(alloc, out, bytes, at) {
            Ok(Some(taken)) => Ok(taken),
            Ok(None) => take_as_named(alloc, out, bytes, at),
            Err(Take::Bad { .. }) => Err(Take::Bad { at }),
            Err(Take::NoMemory) => Err(Take::NoMemory),
        }
    }
}

/// The table of the entries that begin at a place, without the sets and payloads that none of them
/// names: what is listed is kept one by one until all are read.
fn take_as_named(
    alloc: Global,
    out: Shape,
    bytes: &[u8],
    at: u64,
) -> Result<(EntryTable, u64), Take>
    ensures ok { IfOk result (λ r. BeginsEntries out bytes.now at r.1 (entries r.0)) }
    ensures payloads { IfOk result (λ r. BeginsTable out bytes.now at r.1 r.0) }
    ensures out { IfOk result (λ r. r.0.out ≡ out) }
    ensures within { IfOk result (λ r. r.1 ≤ length bytes.now) }
    ensures err { IfErr result (λ e. SaysNoEntries out bytes.now at e) }
{
    let (given, next) = take_entries(alloc, out, bytes, at)?;
    let table = EntryTable::of_entries(alloc, out, &given)?;
    Ok((table, next))
}

/// The table of the entries that begin at a place, with all sets and payloads that are listed.
/// `None` where more of either are listed than entries. `Bad` says any place.
fn take_as_listed(
    alloc: Global,
    out: Shape,
    bytes: &[u8],
    at: u64,
) -> Result<Option<(EntryTable, u64)>, Take>
    requires { is_extent out ≡ true }
    ensures ok { IfOk result (λ o. IfSome o
        (λ r. BeginsEntries out bytes.now at r.1 (entries r.0))) }
    ensures payloads { IfOk result (λ o. IfSome o (λ r. BeginsTable out bytes.now at r.1 r.0)) }
    ensures out { IfOk result (λ o. IfSome o (λ r. r.0.out ≡ out)) }
    ensures within { IfOk result (λ o. IfSome o (λ r. r.1 ≤ length bytes.now)) }
    ensures err { IfErr result (λ e. OnBad e (NoEntriesBegin out bytes.now at)) }
{
    let Some((table, next)) = take_all(alloc, out, bytes, at)? else {
        return Ok(None);
    };
    if are_apart(alloc, &table)? {
        Ok(Some((table, next)))
    } else {
        Err(Take::Bad { at })
    }
}

/// As [`take_as_listed`], but that a cell may be in two of the entries.
fn take_all(
    alloc: Global,
    out: Shape,
    bytes: &[u8],
    at: u64,
) -> Result<Option<(EntryTable, u64)>, Take>
    requires { is_extent out ≡ true }
    ensures ok { IfOk result (λ o. IfSome o (λ r. IsRead out bytes.now at r.1 r.0)) }
    ensures out { IfOk result (λ o. IfSome o (λ r. r.0.out ≡ out)) }
    ensures within { IfOk result (λ o. IfSome o (λ r. r.1 ≤ length bytes.now)) }
    ensures err { IfErr result (λ e. OnBad e (NoEntriesBegin out bytes.now at)) }
{
    let mut payloads = PayloadTable::new(alloc)?;
    let mut bodies = Vec::new(alloc);
    let first = take_payloads(bytes, at, &mut payloads, &mut bodies)?;
    let mut sets = SetTable::new(alloc, out)?;
    let mut outs = Vec::new(alloc);
    let second = take_sets(out, bytes, first, &mut sets, &mut outs)?;
    let mut rows = Vec::new(alloc);
    let next = take_rows(&outs, &bodies, bytes, second, &mut rows)?;
    match EntryTable::of_rows(sets, payloads, rows) {
        Some(table) => Ok(Some((table, next))),
        None => Ok(None),
    }
}

/// The table of payloads that begins at a place: each goes into a table, and its number there
/// behind the numbers. Answers the place behind them.
fn take_payloads(
    bytes: &[u8],
    at: u64,
    table: &mut PayloadTable,
    numbers: &mut Vec<u32>,
) -> Result<u64, Take>
    requires none { table.old.payloads ≡ [] }
    requires numbers { numbers.old.items ≡ [] }
    ensures ok { IfOk result (λ next. (listed : List (List ℕ)) × AreFew IsShort listed
        × AllZip (HasNumber table.new.payloads) numbers.new.items listed
        × All (IsOneOf listed) table.new.payloads
        × IsAt bytes.now at next (counted payload_bytes listed)) }
    ensures err { IfErr result (λ e. OnBad e
        (NoneAt (AreFew IsShort) (counted payload_bytes) bytes.now at)) }
{
    let Some(count) = take_number(bytes, at) else {
        return Err(Take::Bad { at });
    };
    let found = find_counted(bytes, count, at + 4, 1);
    table.reserve(found.things, found.sum)?;
    numbers.reserve(found.things as usize)?;
    let mut place = at + 4;
    for _index in 0..count {
        let Some(body) = payload_at(bytes, place) else {
            return Err(Take::Bad { at });
        };
        let number = add_payload(table, body)?;
        numbers.push(number)?;
        place += 4 + body.len() as u64;
    }
    Ok(place)
}

/// The bytes of the payload that begins with its length at a place. `None` exactly where none
/// begins there.
fn payload_at(bytes: &[u8], at: u64) -> Option<&[u8]>
    ensures short { IfSome result (λ b. IsShort b.now) }
    ensures some { IfSome result
        (λ b. IsAt bytes.now at (at + (4 + length b.now)) (payload_bytes b.now)) }
    ensures none { IfNone result (NoneAt IsShort payload_bytes bytes.now at) }
{
    let Some(long) = take_number(bytes, at) else {
        return None;
    };
    let (_, behind) = bytes.split_at(at as usize + 4);
    if behind.len() < long as usize {
        return None;
    }
    let (body, _) = behind.split_at(long as usize);
    Some(body)
}

/// The number of the payload of these bytes, which is added where it is new.
fn add_payload(table: &mut PayloadTable, body: &[u8]) -> Result<u32, NoMemory>
    requires { length table.old.payloads + 1 < 2 ^ 32 }
    ensures { IfOk result (λ n. (slice_get table.new.payloads n ≡ Some body.now)
        × HasAtMostOneMore table.old.payloads table.new.payloads body.now) }
{
    table.reserve(1, body.len())?;
    Ok(table.add(body))
}

/// The table of output sets that begins at a place: each goes into a table, and its number there
/// behind the numbers. Answers the place behind them.
fn take_sets(
    out: Shape,
    bytes: &[u8],
    at: u64,
    table: &mut SetTable,
    numbers: &mut Vec<u32>,
) -> Result<u64, Take>
    requires right { is_extent out ≡ true }
    requires extent { table.old.extent ≡ out }
    requires none { table.old.sets ≡ [] }
    requires numbers { numbers.old.items ≡ [] }
    ensures extent { table.new.extent ≡ out }
    ensures ok { IfOk result (λ next. (listed : List Cells) × AreFew (IsSetOf out) listed
        × AllZip (HasNumber table.new.sets) numbers.new.items listed
        × IsAt bytes.now at next (counted set_bytes listed)) }
    ensures err { IfErr result (λ e. OnBad e
        (NoneAt (AreFew (IsSetOf out)) (counted set_bytes) bytes.now at)) }
{
    let Some(count) = take_number(bytes, at) else {
        return Err(Take::Bad { at });
    };
    let found = find_counted(bytes, count, at + 4, 8);
    table.reserve(found.things, found.sum)?;
    numbers.reserve(found.things as usize)?;
    let mut runs = Vec::new(*numbers.allocator());
    let mut place = at + 4;
    for _index in 0..count {
        let next = take_set_runs(out, bytes, place, &mut runs)?;
        let number = add_read(table, &runs)?;
        numbers.push(number)?;
        place = next;
    }
    Ok(place)
}

/// The rows of the entries that begin with their number at a place and name sets and payloads that
/// have numbers, behind the rows. Answers the place behind them.
fn take_rows(
    outs: &[u32],
    bodies: &[u32],
    bytes: &[u8],
    at: u64,
    rows: &mut Vec<EntryRow>,
) -> Result<u64, Take>
    requires few_outs { length outs.now < 2 ^ 32 }
    requires few_bodies { length bodies.now < 2 ^ 32 }
    requires rows { rows.old.items ≡ [] }
    ensures few { OnOk result (length rows.new.items ≤ 2 ^ 30) }
    ensures ok { IfOk result (λ next. (names : List (List ℕ))
        × AllZip (AreNamesOfRow outs.now bodies.now) names rows.new.items
        × IsAt bytes.now at next (rows_bytes names)) }
    ensures err { IfErr result (λ e. (sets : List Cells) (payloads : List (List ℕ))
        → length sets ≡ length outs.now → length payloads ≡ length bodies.now
        → OnBad e (NoneAt (AreEntriesNames sets payloads) rows_bytes bytes.now at)) }
{
    let Some(count) = take_number(bytes, at) else {
        return Err(Take::Bad { at });
    };
    if count > MOST_ROWS {
        return Err(Take::Bad { at });
    }
    rows.reserve((count as usize).min(bytes.len().saturating_sub(at as usize) / 8))?;
    let mut place = at + 4;
    for _index in 0..count {
        let row = take_row(outs, bodies, bytes, place)?;
        rows.push(row)?;
        place += 8;
    }
    Ok(place)
}

/// The row of the entry whose two names stand at a place.
fn take_row(outs: &[u32], bodies: &[u32], bytes: &[u8], at: u64) -> Result<EntryRow, Take>
    requires few_outs { length outs.now < 2 ^ 32 }
    requires few_bodies { length bodies.now < 2 ^ 32 }
    ensures ok { IfOk result (λ row. (ns : List ℕ) × AreNamesOfRow outs.now bodies.now ns row
        × IsAt bytes.now at (at + 8) (flat_map four_bytes ns)) }
    ensures err { IfErr result (λ e. (sets : List Cells) (payloads : List (List ℕ))
        → length sets ≡ length outs.now → length payloads ≡ length bodies.now
        → OnBad e (NoneAt (AreEntryNames sets payloads) (flat_map four_bytes) bytes.now at)) }
{
    let set = take_named(outs, bytes, at)?;
    let payload = take_named(bodies, bytes, at + 4)?;
    Ok(EntryRow { set, payload })
}

/// The number that the name at a place leads to.
fn take_named(numbers: &[u32], bytes: &[u8], at: u64) -> Result<u32, Take>
    requires { length numbers.now < 2 ^ 32 }
    ensures ok { IfOk result (λ k. (n : ℕ) × (slice_get numbers.now n ≡ Some k)
        × IsAt bytes.now at (at + 4) (four_bytes n)) }
    ensures err { IfErr result (λ e. OnBad e
        (NoneAt (IsNumberIn (length numbers.now)) four_bytes bytes.now at)) }
{
    let Some(name) = take_number(bytes, at) else {
        return Err(Take::Bad { at });
    };
    if numbers.len() <= name as usize {
        return Err(Take::Bad { at });
    }
    Ok(numbers[name as usize])
}
