//! Reading a store of payloads: the table of payloads, the table of output sets, and then the
//! entries that name one of each.

ghost use Rattle.std.specs.Prelude.{◌≡◌, ◌<◌, ◌≤◌, ◌+◌, ◌^◌, ◌∷◌};
ghost use Rattle.sz_region.specs.Terms.{ℕ, List, length, map, true, Some, All, IfOk, IfErr, AllZip};
ghost use Rattle.sz_region.specs.Terms.{flat_map, slice_get, arc_value, is_extent, four_bytes};
ghost use Rattle.sz_region.specs.Terms.{set_bytes, IsSetOf, counted, rows_bytes, IsAt, IsShort};
ghost use Rattle.sz_region.specs.Terms.{payload_bytes, AreNamesOfEntry, BeginsEntries, OnBad};
ghost use Rattle.sz_region.specs.Terms.{NoEntriesBegin, SaysNoEntries, NoneAt, AreFew, IsNumberIn};
ghost use Rattle.sz_region.specs.Terms.{AreEntryNames, AreEntriesNames};

use crate::apart::are_apart;
use crate::numbers::take_number;
use crate::set_bytes::{Take, take_set};
use crate::take_full::MOST_ROWS;
use std::alloc::Global;
use std::sync::Arc;
use sz_cells::laws::a_shape_is_within_limits;
use sz_cells::{CellSet, Shape};
use sz_frame::{PayEntry, Payload};

/// The entries of the store that begins at a place of some bytes, for an output of this shape, and
/// the place behind it. `Bad` exactly where none begins there. Entries that name one set or one
/// payload share it. Whether the payloads are an operator's is not judged.
///
/// Takes time and memory in the number of bytes that it reads, a bit for each cell of the shape,
/// and time in the number of the entries' cells; it takes no memory for what is not there.
pub fn take_entries(
    alloc: Global,
    out: Shape,
    bytes: &[u8],
    at: u64,
) -> Result<(Vec<Arc<PayEntry>>, u64), Take>
    ensures ok { IfOk result (λ r. BeginsEntries out bytes.now at r.1
        (map (λ x. arc_value x) r.0.items)) }
    ensures within { IfOk result (λ r. r.1 ≤ length bytes.now) }
    ensures err { IfErr result (λ e. SaysNoEntries out bytes.now at e) }
{
    a_shape_is_within_limits(&out);
    match take_pay(alloc, out, bytes, at) {
        Err(Take::Bad { .. }) => Err(Take::Bad { at }),
        taken => taken,
    }
}

/// As [`take_entries`], but that `Bad` says any place.
fn take_pay(
    alloc: Global,
    out: Shape,
    bytes: &[u8],
    at: u64,
) -> Result<(Vec<Arc<PayEntry>>, u64), Take>
    requires { is_extent out ≡ true }
    ensures ok { IfOk result (λ r. BeginsEntries out bytes.now at r.1
        (map (λ x. arc_value x) r.0.items)) }
    ensures within { IfOk result (λ r. r.1 ≤ length bytes.now) }
    ensures err { IfErr result (λ e. OnBad e (NoEntriesBegin out bytes.now at)) }
{
    let (payloads, place) = take_payloads(alloc, bytes, at)?;
    let (sets, place) = take_out_sets(alloc, out, bytes, place)?;
    let (entries, next) = take_rows(alloc, &payloads, &sets, bytes, place)?;
    if !are_apart(alloc, out, &entries)? {
        return Err(Take::Bad { at });
    }
    Ok((entries, next))
}

/// The table of payloads that begins at a place.
fn take_payloads(alloc: Global, bytes: &[u8], at: u64) -> Result<(Vec<Arc<Payload>>, u64), Take>
    ensures payloads { IfOk result (λ r. AreFew IsShort (map (λ p. arc_value p) r.0.items)) }
    ensures bytes { IfOk result (λ r. IsAt bytes.now at r.1
        (counted payload_bytes (map (λ p. arc_value p) r.0.items))) }
    ensures err { IfErr result (λ e. OnBad e
        (NoneAt (AreFew IsShort) (counted payload_bytes) bytes.now at)) }
{
    let Some(count) = take_number(bytes, at) else {
        return Err(Take::Bad { at });
    };
    let mut table = Vec::new(alloc);
    let mut place = at + 4;
    for _index in 0..count {
        let (payload, next) = take_payload(alloc, bytes, place)?;
        table.push(payload)?;
        place = next;
    }
    Ok((table, place))
}

/// The payload that begins with its length at a place.
fn take_payload(alloc: Global, bytes: &[u8], at: u64) -> Result<(Arc<Payload>, u64), Take>
    ensures payload { IfOk result (λ r. IsShort (arc_value r.0)) }
    ensures bytes { IfOk result (λ r. IsAt bytes.now at r.1 (payload_bytes (arc_value r.0))) }
    ensures err { IfErr result (λ e. OnBad e (NoneAt IsShort payload_bytes bytes.now at)) }
{
    let Some(long) = take_number(bytes, at) else {
        return Err(Take::Bad { at });
    };
    let (_, behind) = bytes.split_at(at as usize + 4);
    if behind.len() < long as usize {
        return Err(Take::Bad { at });
    }
    let (body, _) = behind.split_at(long as usize);
    let payload = Payload::of(Vec::from_slice(alloc, body)?);
    Ok((Arc::new(alloc, payload)?, at + 4 + u64::from(long)))
}

/// The table of output sets that begins at a place.
fn take_out_sets(
    alloc: Global,
    out: Shape,
    bytes: &[u8],
    at: u64,
) -> Result<(Vec<Arc<CellSet>>, u64), Take>
    requires { is_extent out ≡ true }
    ensures sets { IfOk result (λ r. AreFew (IsSetOf out) (map (λ s. arc_value s) r.0.items)) }
    ensures bytes { IfOk result (λ r. IsAt bytes.now at r.1
        (counted set_bytes (map (λ s. arc_value s) r.0.items))) }
    ensures err { IfErr result (λ e. OnBad e
        (NoneAt (AreFew (IsSetOf out)) (counted set_bytes) bytes.now at)) }
{
    let Some(count) = take_number(bytes, at) else {
        return Err(Take::Bad { at });
    };
    let mut table = Vec::new(alloc);
    let mut place = at + 4;
    for _index in 0..count {
        let (set, next) = take_set(alloc, out, bytes, place)?;
        table.push(Arc::new(alloc, set)?)?;
        place = next;
    }
    Ok((table, place))
}

/// The entries that begin with their number at a place, and name sets and payloads of tables.
fn take_rows(
    alloc: Global,
    payloads: &[Arc<Payload>],
    sets: &[Arc<CellSet>],
    bytes: &[u8],
    at: u64,
) -> Result<(Vec<Arc<PayEntry>>, u64), Take>
    requires few_payloads { length payloads.now < 2 ^ 32 }
    requires few_sets { length sets.now < 2 ^ 32 }
    ensures ok { IfOk result (λ r. (rows : List (List ℕ))
        × AllZip (AreNamesOfEntry (map (λ s. arc_value s) sets.now)
        (map (λ p. arc_value p) payloads.now)) rows (map (λ x. arc_value x) r.0.items)
        × (length rows ≤ 2 ^ 30) × IsAt bytes.now at r.1 (rows_bytes rows)) }
    ensures err { IfErr result (λ e. OnBad e (NoneAt (AreEntriesNames (map (λ s. arc_value s)
        sets.now) (map (λ p. arc_value p) payloads.now)) rows_bytes bytes.now at)) }
{
    let Some(count) = take_number(bytes, at) else {
        return Err(Take::Bad { at });
    };
    if count > MOST_ROWS {
        return Err(Take::Bad { at });
    }
    let mut entries = Vec::new(alloc);
    let mut place = at + 4;
    for _index in 0..count {
        let entry = take_entry(payloads, sets, bytes, place)?;
        entries.push(Arc::new(alloc, entry)?)?;
        place += 8;
    }
    Ok((entries, place))
}

/// The entry whose two names stand at a place.
fn take_entry(
    payloads: &[Arc<Payload>],
    sets: &[Arc<CellSet>],
    bytes: &[u8],
    at: u64,
) -> Result<PayEntry, Take>
    requires few_payloads { length payloads.now < 2 ^ 32 }
    requires few_sets { length sets.now < 2 ^ 32 }
    ensures ok { IfOk result (λ e. (ns : List ℕ) × AreNamesOfEntry (map (λ s. arc_value s) sets.now)
        (map (λ p. arc_value p) payloads.now) ns e
        × IsAt bytes.now at (at + 8) (flat_map four_bytes ns)) }
    ensures err { IfErr result (λ e. OnBad e (NoneAt (AreEntryNames (map (λ s. arc_value s)
        sets.now) (map (λ p. arc_value p) payloads.now)) (flat_map four_bytes) bytes.now at)) }
{
    let out = take_numbered(sets, bytes, at)?;
    let payload = take_numbered(payloads, bytes, at + 4)?;
    Ok(PayEntry { out, payload })
}

/// The shared value of a table whose number stands at a place.
fn take_numbered<T: Drop>(table: &[Arc<T>], bytes: &[u8], at: u64) -> Result<Arc<T>, Take>
    requires { length table.now < 2 ^ 32 }
    ensures ok { IfOk result (λ x. (n : ℕ)
        × (slice_get (map (λ y. arc_value y) table.now) n ≡ Some (arc_value x))
        × IsAt bytes.now at (at + 4) (four_bytes n)) }
    ensures err { IfErr result (λ e. OnBad e
        (NoneAt (IsNumberIn (length table.now)) four_bytes bytes.now at)) }
{
    let Some(name) = take_number(bytes, at) else {
        return Err(Take::Bad { at });
    };
    let Some(found) = table.get(name as usize) else {
        return Err(Take::Bad { at });
    };
    Ok(Arc::try_clone(found)?)
}
