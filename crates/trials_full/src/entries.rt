//! Payload entries as rows, with memory to spare, and the bytes of none, spelled by hand.

ghost use Rattle.std.specs.Prelude.{◌≡◌, ◌<◌, ◌≤◌, ◌+◌, [], length, IfOk, OnOk};
ghost use Rattle.std.specs.Arc.{arc_value};
ghost use Rattle.sz_cells.specs.Extent.{flat};

use crate::samples::{one_cell, row_of_20};
use std::alloc::Global;
use std::sync::Arc;
use std::test::Fail;
use sz_cells::{NoMemory, Run};
use sz_frame::{PayEntry, Payload};
use sz_tables::{EntryChecklist, EntryTable};

/// A payload of one byte.
fn payload_of(alloc: Global, byte: u8) -> Result<Arc<Payload>, NoMemory> {
    let bytes = vec![in alloc; byte]?;
    Ok(Arc::new(alloc, Payload::of(bytes))?)
}

/// The entry of one cell of the output, and a payload of one byte.
fn entry_of(alloc: Global, col: u32, byte: u8) -> Result<Arc<PayEntry>, Fail>
    requires { col < 20 }
    ensures { IfOk result (λ e. (arc_value e).out.extent ≡ flat 1 20) }
{
    let out = one_cell(alloc, col)?;
    let payload = payload_of(alloc, byte)?;
    Ok(Arc::new(alloc, PayEntry { out, payload })?)
}

/// Adds it to a table.
fn add_cell(alloc: Global, table: &mut EntryTable, col: u32, byte: u8) -> Result<(), Fail>
    requires out { table.old.out ≡ flat 1 20 }
    requires col { col < 20 }
    requires few { length table.old.rows < 100 }
    ensures out { table.new.out ≡ table.old.out }
    ensures one { OnOk result (length table.new.rows ≡ length table.old.rows + 1) }
{
    let entry = entry_of(alloc, col, byte)?;
    table.reserve(1, entry.out.runs().len(), entry.payload.bytes().len())?;
    table.add(&entry);
    Ok(())
}

/// Adds the entries of three cells, of which the first and the last have one payload.
fn add_three(alloc: Global, table: &mut EntryTable) -> Result<(), Fail>
    requires out { table.old.out ≡ flat 1 20 }
    requires none { table.old.rows ≡ [] }
    ensures { OnOk result (length table.new.rows ≡ 3) }
{
    add_cell(alloc, table, 1, 70)?;
    add_cell(alloc, table, 2, 80)?;
    add_cell(alloc, table, 3, 70)
}

/// A table of these entries.
fn three_entries(alloc: Global) -> Result<EntryTable, Fail>
    ensures { IfOk result (λ t. length t.rows ≡ 3) }
{
    let mut table = EntryTable::new(alloc, row_of_20()?)?;
    add_three(alloc, &mut table)?;
    Ok(table)
}

/// Whether three entries are counted so, and have these numbers of sets and of payloads.
fn are_numbered(table: &EntryTable) -> bool
    requires { length table.now.rows ≡ 3 }
{
    table.len() == 3
        && table.sets() == 3
        && table.payloads() == 2
        && table.set_number(2) == 2
        && table.payload_number(1) == 1
        && table.payload_number(2) == 0
}

#[test]
fn equal_payloads_stand_once(rt: HostRuntime) -> Result<(), Fail> {
    let table = three_entries(rt.alloc())?;
    assert!(rt; are_numbered(&table));
    Ok(())
}

/// Whether the last set and the last payload are kept so.
fn are_kept(table: &EntryTable) -> bool {
    2 < table.sets()
        && table.out_runs(2) == [Run { first: 3, last: 3 }].as_slice()
        && 1 < table.payloads()
        && table.payload(1) == [80].as_slice()
}

#[test]
fn sets_and_payloads_are_kept(rt: HostRuntime) -> Result<(), Fail> {
    let table = three_entries(rt.alloc())?;
    assert!(rt; are_kept(&table));
    Ok(())
}

/// The bytes of no entry, behind a 9.
fn bytes_of_none(alloc: Global) -> Result<Vec<u8>, Fail> {
    let table = EntryTable::new(alloc, row_of_20()?)?;
    let mut bytes = vec![in alloc; 9u8]?;
    table.put_bytes(&mut bytes)?;
    Ok(bytes)
}

#[test]
fn no_entry_is_three_empty_lists(rt: HostRuntime) -> Result<(), Fail> {
    let bytes = bytes_of_none(rt.alloc())?;
    assert!(rt; bytes.as_slice() == [9, 0, 0, 0, 0, 0, 0, 0, 0, 0, 0, 0, 0].as_slice());
    Ok(())
}

/// Adds the entry of one cell and a payload of one byte to others.
fn push_entry(
    alloc: Global,
    entries: &mut Vec<Arc<PayEntry>>,
    col: u32,
    byte: u8,
) -> Result<(), Fail>
    requires { col < 20 }
{
    let entry = entry_of(alloc, col, byte)?;
    entries.push(entry)?;
    Ok(())
}

/// The last of the three entries, then this one, and the second of the three.
fn entries_with(alloc: Global, col: u32, byte: u8) -> Result<Vec<Arc<PayEntry>>, Fail>
    requires { col < 20 }
{
    let mut entries = Vec::new(alloc);
    push_entry(alloc, &mut entries, 3, 70)?;
    push_entry(alloc, &mut entries, col, byte)?;
    push_entry(alloc, &mut entries, 2, 80)?;
    Ok(entries)
}

/// Whether a checklist of a table is done where these entries are ticked.
fn is_done_by(
    alloc: Global,
    table: &EntryTable,
    entries: &[Arc<PayEntry>],
) -> Result<bool, NoMemory> {
    let mut list = EntryChecklist::new(alloc, table);
    Ok(list.tick_all(entries)? && list.is_done()?)
}

/// Whether a checklist of the three entries is done where this one is ticked beside the last two.
fn is_done_with(alloc: Global, col: u32, byte: u8) -> Result<bool, Fail>
    requires { col < 20 }
{
    let table = three_entries(alloc)?;
    let entries = entries_with(alloc, col, byte)?;
    Ok(is_done_by(alloc, &table, &entries)?)
}

/// Whether it is done with the first entry, and with no entry of another payload.
fn first_is_wanted(alloc: Global) -> Result<bool, Fail> {
    Ok(is_done_with(alloc, 1, 70)? && !is_done_with(alloc, 1, 80)? && !is_done_with(alloc, 1, 90)?)
}

#[test]
fn a_checklist_is_done_where_each_entry_is_ticked(rt: HostRuntime) -> Result<(), Fail> {
    assert!(rt; first_is_wanted(rt.alloc())?);
    Ok(())
}

/// The last of the three entries and the first of them.
fn outer_entries(alloc: Global) -> Result<Vec<Arc<PayEntry>>, Fail> {
    let mut entries = Vec::new(alloc);
    push_entry(alloc, &mut entries, 3, 70)?;
    push_entry(alloc, &mut entries, 1, 70)?;
    Ok(entries)
}

/// The second of them alone.
fn middle_entry(alloc: Global) -> Result<Vec<Arc<PayEntry>>, Fail> {
    let mut entries = Vec::new(alloc);
    push_entry(alloc, &mut entries, 2, 80)?;
    Ok(entries)
}

/// Whether a checklist of a table is done where these entries were ticked on a list of their own,
/// and joined behind those.
fn are_done_joined(
    alloc: Global,
    table: &EntryTable,
    first: &[Arc<PayEntry>],
    second: &[Arc<PayEntry>],
) -> Result<bool, NoMemory> {
    let mut list = EntryChecklist::new(alloc, table);
    let mut other = list.fork();
    let both = list.tick_all(first)? && other.tick_all(second)?;
    list.join(&other)?;
    Ok(both && list.is_done()?)
}

/// Whether one of the three entries is, where the second was ticked so.
fn is_done_joined(alloc: Global) -> Result<bool, Fail> {
    let first = outer_entries(alloc)?;
    let second = middle_entry(alloc)?;
    let table = three_entries(alloc)?;
    Ok(are_done_joined(alloc, &table, &first, &second)?)
}

#[test]
fn what_another_list_has_ticked_is_joined(rt: HostRuntime) -> Result<(), Fail> {
    assert!(rt; is_done_joined(rt.alloc())?);
    Ok(())
}
