//! Stores as they are written, by hand, and each fault of bytes that are no store.

ghost use Rattle.std.specs.Prelude.{◌≡◌, ◌<◌, ◌≤◌, length, IfOk};
ghost use Rattle.sz_cells.specs.Extent.{flat};

use crate::region::first_taken;
use std::alloc::Global;
use std::test::Fail;
use sz_cells::Shape;
use sz_frame::{PayEntry, Region};
use sz_region::{Take, put_entries, put_regions, take_entries, take_regions};

/// The shape of two rows and two columns.
fn two_by_two() -> Result<Shape, Fail>
    ensures { IfOk result (λ s. s ≡ flat 2 2) }
{
    Ok(Shape::make(2, 2).ok_or("two rows of two columns are a shape")?)
}

/// Behind one byte, two region pairs of two inputs that share their input sets, which stand once.
const PAIRS: [u8; 102] = [
    9, 0, 0, 0, 4, //
    0, 0, 0, 0, 1, 0, 0, 0, 0, 0, 0, 0, 0, //
    1, 0, 0, 0, 2, 0, 0, 0, 0, 0, 0, 0, 0, 0, 0, 0, 3, 0, 0, 0, 3, //
    2, 0, 0, 0, 0, //
    0, 0, 0, 0, 1, 0, 0, 0, 3, 0, 0, 0, 3, //
    0, 0, 0, 2, //
    0, 0, 0, 0, 0, 0, 0, 1, 0, 0, 0, 2, //
    0, 0, 0, 3, 0, 0, 0, 1, 0, 0, 0, 2, //
    7, 7, 7, 7, 7, 7, 7, 7, 7, 7, 7, 7, 7, 7, 7, 7, 7,
];

/// Behind one byte, two entries of one cell each that share their payload.
const ENTRIES: [u8; 59] = [
    9, 0, 0, 0, 1, 0, 0, 0, 2, 7, 8, //
    0, 0, 0, 2, 0, 0, 0, 1, 0, 0, 0, 2, 0, 0, 0, 2, //
    0, 0, 0, 1, 0, 0, 0, 3, 0, 0, 0, 3, //
    0, 0, 0, 2, 0, 0, 0, 0, 0, 0, 0, 0, 0, 0, 0, 1, 0, 0, 0, 0,
];

/// Whether a region pair is of one cell of the output, and has two sets of inputs, the first of two
/// cells.
fn is_of_one_and_two(pair: &Region) -> bool {
    let inputs = pair.ins.as_slice();
    pair.out.count() == 1 && inputs.len() == 2 && inputs.first().is_some_and(|set| set.count() == 2)
}

/// Whether two region pairs are read behind the first byte, up to place 85, of which the second is
/// such.
fn are_pairs(alloc: Global, bytes: &[u8]) -> Result<bool, Fail> {
    let shape = two_by_two()?;
    let (pairs, next) = take_regions(alloc, shape, &[shape, shape], bytes, 1)?;
    Ok(next == 85 && pairs.len() == 2 && is_of_one_and_two(&pairs[1]))
}

#[test]
fn region_pairs_are_read_whatever_follows(rt: HostRuntime) -> Result<(), Fail> {
    assert!(rt; are_pairs(rt.alloc(), &PAIRS)?);
    Ok(())
}

/// Whether an entry is of one cell, and its payload is these bytes.
fn is_of_one(entry: &PayEntry, bytes: &[u8]) -> bool {
    entry.out.count() == 1 && entry.payload.bytes() == bytes
}

/// Whether two entries are read behind the first byte, up to place 59, of which the second is of
/// one cell.
fn are_entries(alloc: Global, bytes: &[u8]) -> Result<bool, Fail> {
    let (entries, next) = take_entries(alloc, two_by_two()?, bytes, 1)?;
    Ok(next == 59 && entries.len() == 2 && is_of_one(&entries[1], &[7, 8]))
}

#[test]
fn entries_are_read_and_those_of_one_cell_refused(rt: HostRuntime) -> Result<(), Fail> {
    assert!(rt; are_entries(rt.alloc(), &ENTRIES)?);
    let mut in_two = ENTRIES;
    in_two[54] = 0;
    assert!(rt; are_no_entries(rt.alloc(), two_by_two()?, &in_two));
    Ok(())
}

/// The shape of one cell.
pub(crate) fn one_cell() -> Result<Shape, Fail>
    ensures { IfOk result (λ s. s ≡ flat 1 1) }
{
    Ok(Shape::make(1, 1).ok_or("one row of one column is a shape")?)
}

/// Behind one byte, the store of one region pair of one cell and one cell: two sets, and their
/// names.
const PAIR: [u8; 43] = [
    9, 0, 0, 0, 2, //
    0, 0, 0, 0, 1, 0, 0, 0, 0, 0, 0, 0, 0, //
    1, 0, 0, 0, 1, 0, 0, 0, 0, 0, 0, 0, 0, //
    0, 0, 0, 1, 0, 0, 0, 0, 0, 0, 0, 1,
];

/// Behind one byte, the store of one entry of one cell, with a payload of one byte.
const ENTRY: [u8; 38] = [
    9, 0, 0, 0, 1, 0, 0, 0, 1, 7, //
    0, 0, 0, 1, 0, 0, 0, 1, 0, 0, 0, 0, 0, 0, 0, 0, //
    0, 0, 0, 1, 0, 0, 0, 0, 0, 0, 0, 0,
];

/// Whether the bytes behind the first are refused as region pairs of one cell and one cell, at that
/// place.
fn are_no_regions(alloc: Global, cell: Shape, bytes: &[u8]) -> bool {
    take_regions(alloc, cell, &[cell], bytes, 1).err() == Some(Take::Bad { at: 1 })
}

/// Whether the bytes behind the first are refused as entries of a shape, at that place.
fn are_no_entries(alloc: Global, shape: Shape, bytes: &[u8]) -> bool {
    take_entries(alloc, shape, bytes, 1).err() == Some(Take::Bad { at: 1 })
}

/// Whether the region pair's bytes are refused wherever they are cut.
fn cut_pairs_are_refused(alloc: Global, cell: Shape) -> bool {
    for length in 0..PAIR.len() {
        if !are_no_regions(alloc, cell, &PAIR[..length]) {
            return false;
        }
    }
    true
}

/// Whether the entry's bytes are.
fn cut_entries_are_refused(alloc: Global, cell: Shape) -> bool {
    for length in 0..ENTRY.len() {
        if !are_no_entries(alloc, cell, &ENTRY[..length]) {
            return false;
        }
    }
    true
}

#[test]
fn stores_that_are_cut_are_refused(rt: HostRuntime) -> Result<(), Fail> {
    let (alloc, cell) = (rt.alloc(), one_cell()?);
    assert!(rt; !are_no_regions(alloc, cell, &PAIR));
    assert!(rt; !are_no_entries(alloc, cell, &ENTRY));
    assert!(rt; cut_pairs_are_refused(alloc, cell));
    assert!(rt; cut_entries_are_refused(alloc, cell));
    Ok(())
}

/// Whether the region pair's bytes are refused with the byte at a place changed.
fn changed_pair_is_refused(alloc: Global, cell: Shape, place: usize) -> bool
    requires { place < 43 }
{
    let mut bytes = PAIR;
    bytes[place] ^= 1;
    are_no_regions(alloc, cell, &bytes)
}

/// Whether the region pair's bytes are refused just where a changed byte makes no other store.
fn changed_pairs_are_refused(alloc: Global, cell: Shape) -> bool {
    for place in 1..PAIR.len() {
        // a second set of no run, or no region pair, makes a shorter store
        let shorter = place == 22 || place == 34;
        if changed_pair_is_refused(alloc, cell, place) == shorter {
            return false;
        }
    }
    true
}

/// Whether the entry's bytes are refused with the byte at a place changed.
fn changed_entry_is_refused(alloc: Global, cell: Shape, place: usize) -> bool
    requires { place < 38 }
{
    let mut bytes = ENTRY;
    bytes[place] ^= 1;
    are_no_entries(alloc, cell, &bytes)
}

/// Whether the entry's bytes are refused just where a changed byte makes no other store.
fn changed_entries_are_refused(alloc: Global, cell: Shape) -> bool {
    for place in 1..ENTRY.len() {
        // another payload, a set of no run, no entry
        let other = place == 9 || place == 17 || place == 29;
        if changed_entry_is_refused(alloc, cell, place) == other {
            return false;
        }
    }
    true
}

#[test]
fn stores_that_are_changed_are_refused(rt: HostRuntime) -> Result<(), Fail> {
    let (alloc, cell) = (rt.alloc(), one_cell()?);
    assert!(rt; changed_pairs_are_refused(alloc, cell));
    assert!(rt; changed_entries_are_refused(alloc, cell));
    Ok(())
}

/// Whether the region pair is refused where its input's set has this number.
fn input_is_refused(alloc: Global, number: u8) -> Result<bool, Fail> {
    let mut bytes = PAIR;
    bytes[42] = number;
    Ok(are_no_regions(alloc, one_cell()?, &bytes))
}

#[test]
fn wrong_names_are_refused(rt: HostRuntime) -> Result<(), Fail> {
    assert!(rt; input_is_refused(rt.alloc(), 2)?, "a number past the table");
    assert!(rt; input_is_refused(rt.alloc(), 0)?, "a set of another array");
    Ok(())
}

/// Behind one byte, many sets in few bytes, many region pairs in few bytes, and more region pairs
/// than a store may have.
const WRONG_COUNTS: [&[u8]; 3] = [
    &[9, 255, 255, 255, 255, 0, 0, 0, 0, 0],
    &[9, 0, 0, 0, 0, 63, 255, 255, 255, 0, 0, 0, 0],
    &[9, 0, 0, 0, 0, 64, 0, 0, 1],
];

/// Whether each of these is refused as region pairs of one cell and one cell.
fn none_is_taken(alloc: Global, cell: Shape, rows: &[&[u8]]) -> bool {
    first_taken(
        rows,
        |bytes| take_regions(alloc, cell, &[cell], bytes, 1).err(),
    ) == None
}

#[test]
fn wrong_counts_are_refused(rt: HostRuntime) -> Result<(), Fail> {
    let (alloc, cell) = (rt.alloc(), one_cell()?);
    assert!(rt; none_is_taken(alloc, cell, &WRONG_COUNTS));
    // the first one has many payloads in few bytes, too
    assert!(rt; are_no_entries(alloc, cell, WRONG_COUNTS[0]));
    Ok(())
}

#[test]
fn a_run_that_touches_the_next_is_refused(rt: HostRuntime) -> Result<(), Fail> {
    let touching = [
        9, 0, 0, 0, 1, 0, 0, 0, 0, 2, 0, 0, 0, 0, 0, 0, 0, 0, 0, 0, 0, 1, 0, 0, 0, 1, 0, 0, 0, 0,
    ];
    let fault = take_regions(rt.alloc(), two_by_two()?, &[], &touching, 1).err();
    assert!(rt; fault == Some(Take::Bad { at: 1 }));
    Ok(())
}

/// What is written of the region pairs that these bytes spell behind the first.
fn regions_again(alloc: Global, shape: Shape, ins: &[Shape], bytes: &[u8]) -> Result<Vec<u8>, Fail>
    requires { length ins.now ≤ 2 }
{
    let (pairs, _) = take_regions(alloc, shape, ins, bytes, 1)?;
    let mut again = vec![in alloc; 9u8]?;
    put_regions(&pairs, &mut again)?;
    Ok(again)
}

/// The same of entries.
fn entries_again(alloc: Global, shape: Shape, bytes: &[u8]) -> Result<Vec<u8>, Fail> {
    let (entries, _) = take_entries(alloc, shape, bytes, 1)?;
    let mut again = vec![in alloc; 9u8]?;
    put_entries(&entries, &mut again)?;
    Ok(again)
}

/// Whether region pairs are written again as the bytes before place 85 of which they were read.
fn pairs_are_alike(alloc: Global) -> Result<bool, Fail> {
    let shape = two_by_two()?;
    let pairs = regions_again(alloc, shape, &[shape, shape], &PAIRS)?;
    Ok(pairs.as_slice() == &PAIRS[..85])
}

/// Whether entries are written again as their bytes.
fn entries_are_alike(alloc: Global) -> Result<bool, Fail> {
    let entries = entries_again(alloc, two_by_two()?, &ENTRIES)?;
    Ok(entries.as_slice() == ENTRIES.as_slice())
}

#[test]
fn what_was_read_is_written_alike(rt: HostRuntime) -> Result<(), Fail> {
    assert!(rt; pairs_are_alike(rt.alloc())?);
    assert!(rt; entries_are_alike(rt.alloc())?);
    Ok(())
}
