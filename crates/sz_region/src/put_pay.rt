//! Writing a store of payloads from entries: their sets and payloads are numbered first, a payload
//! with the number of the one before where it has the same bytes.

ghost use Rattle.std.specs.Prelude.{◌≡◌, ◌<◌, ◌≤◌, ◌-◌, ◌^◌, ◌++◌};
ghost use Rattle.sz_region.specs.Terms.{[], ℕ, List, length, map, All, IfOk, OnOk, OnErr, true};
ghost use Rattle.sz_region.specs.Terms.{Some, slice_get, arc_value, Cells, Extent, IsShort};
ghost use Rattle.sz_region.specs.Terms.{IsPayWord, CanPutEntries, IsPayloadNumbered};
ghost use Rattle.sz_region.specs.Terms.{IsEntryNumbered, AreEntriesNumbered};

use crate::tables::{ListedPayload, ListedSet, put_numbered_entries};
use std::sync::Arc;
use sz_cells::NoMemory;
use sz_cells::laws::a_set_is_its_cells;
use sz_frame::PayEntry;

/// Appends a store of these entries. A payload with the bytes of the one of the entry before is
/// written once. After `NoMemory` the bytes are as before.
///
/// Takes time and memory in the number of the entries' runs and of their payloads' bytes.
pub fn put_entries(entries: &[Arc<PayEntry>], to: &mut Vec<u8>) -> Result<(), NoMemory>
    requires { (out : Extent) × CanPutEntries out (map (λ e. arc_value e) entries.now) }
    ensures ok { OnOk result ((out : Extent)
        → All (λ e. e.out.extent ≡ out) (map (λ e. arc_value e) entries.now)
        → (payloads : List (List ℕ)) × (sets : List Cells) × (word : List ℕ)
        × IsPayWord out payloads sets (map (λ e. arc_value e) entries.now) word
        × (to.new.items ≡ to.old.items ++ word)) }
    ensures err { OnErr result (to.new.items ≡ to.old.items) }
{
    let alloc = *to.allocator();
    let mut payloads = Vec::new(alloc);
    let mut sets = Vec::new(alloc);
    let mut names = Vec::new(alloc);
    number_entries(entries, &mut payloads, &mut sets, &mut names)?;
    put_numbered_entries(&payloads, &sets, &names, to)
}

/// Adds the payloads and the sets of entries to their tables, and two numbers for each to the
/// names.
fn number_entries<'a>(
    entries: &'a [Arc<PayEntry>],
    payloads: &mut Vec<ListedPayload<'a>>,
    sets: &mut Vec<ListedSet<'a>>,
    names: &mut Vec<u32>,
) -> Result<(), NoMemory>
    requires short { All (λ e. IsShort e.payload) (map (λ e. arc_value e) entries.now) }
    requires few { length entries.now ≤ 2 ^ 30 }
    requires payloads { payloads.old.items ≡ [] }
    requires sets { sets.old.items ≡ [] }
    requires names { names.old.items ≡ [] }
    ensures { OnOk result (AreEntriesNumbered payloads.new.items sets.new.items names.new.items
        (map (λ e. arc_value e) entries.now)) }
{
    for entry in entries {
        number_entry(entry, payloads, sets, names)?;
    }
    Ok(())
}

/// Adds the set of an entry, its payload where it is not the last of the table, and their numbers.
fn number_entry<'a>(
    entry: &'a PayEntry,
    payloads: &mut Vec<ListedPayload<'a>>,
    sets: &mut Vec<ListedSet<'a>>,
    names: &mut Vec<u32>,
) -> Result<(), NoMemory>
    requires short { IsShort entry.now.payload }
    requires few_payloads { length payloads.old.items < 2 ^ 32 }
    requires few_sets { length sets.old.items < 2 ^ 32 }
    ensures { OnOk result (IsEntryNumbered payloads.old.items payloads.new.items sets.old.items
        sets.new.items names.old.items names.new.items entry.now) }
{
    a_set_is_its_cells(&entry.out);
    names.push(sets.len() as u32)?;
    sets.push(ListedSet {
        array: 0,
        shape: entry.out.shape(),
        runs: entry.out.runs(),
    })?;
    let number = number_payload(entry.payload.bytes(), payloads)?;
    names.push(number)?;
    Ok(())
}

/// The number of a payload in a table, behind which it is put where it is not the last one.
fn number_payload<'a>(
    bytes: &'a [u8],
    payloads: &mut Vec<ListedPayload<'a>>,
) -> Result<u32, NoMemory>
    requires short { IsShort bytes.now }
    requires few { length payloads.old.items < 2 ^ 32 }
    ensures { IfOk result
        (λ n. IsPayloadNumbered payloads.old.items payloads.new.items bytes.now n) }
{
    if !is_last(payloads, bytes) {
        payloads.push(ListedPayload { bytes })?;
    }
    Ok((payloads.len() - 1) as u32)
}

/// Whether the last payload of a table has these bytes.
fn is_last(payloads: &[ListedPayload], bytes: &[u8]) -> bool
    ensures { result ≡ true → slice_get payloads.now (length payloads.now - 1) ≡ Some bytes.now }
{
    match payloads.last() {
        Some(last) => last.bytes == bytes,
        None => false,
    }
}
