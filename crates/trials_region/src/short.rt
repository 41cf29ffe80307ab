//! The bytes of a short set and of stores with such sets as they are written, and bytes that are
//! none.

use crate::region::{first_taken, four_by_five, set_of_four};
use crate::stores::one_cell;
use std::alloc::Global;
use std::test::Fail;
use sz_cells::Run;
use sz_region::Take;
use sz_short::{put_set_2, shorten_full, shorten_pay, take_set_2, widen_full, widen_pay};

/// The short bytes of a set of four cells, behind a 9.
fn short_bytes_of_four(alloc: Global) -> Result<Vec<u8>, Fail> {
    let set = set_of_four(alloc)?;
    let mut bytes = vec![in alloc; 9u8]?;
    put_set_2(&set, &mut bytes)?;
    Ok(bytes)
}

/// Whether the set of these runs is read behind the first byte, up to a place.
fn is_read_short(alloc: Global, bytes: &[u8], runs: &[Run], to: u64) -> Result<bool, Fail> {
    let (again, next) = take_set_2(alloc, four_by_five()?, bytes, 1)?;
    Ok(next == to && again.runs() == runs)
}

/// The runs of that set.
const FOUR_CELLS: [Run; 2] = [
    Run { first: 5, last: 7 },
    Run {
        first: 10,
        last: 10,
    },
];

#[test]
fn a_set_is_written_short_and_read_again(rt: HostRuntime) -> Result<(), Fail> {
    let mut bytes = short_bytes_of_four(rt.alloc())?;
    assert_eq!(rt; bytes.as_slice(), [9, 2, 5, 2, 1, 0].as_slice());
    bytes.push(1)?;
    assert!(rt; is_read_short(rt.alloc(), &bytes, &FOUR_CELLS, 6)?);
    Ok(())
}

/// No bytes, and bytes of no set behind a 9: none, a run past the shape, a later one past it, and
/// one that is cut short.
const REFUSED: [&[u8]; 5] = [
    &[],
    &[9],
    &[9, 1, 19, 1],
    &[9, 2, 5, 2, 10, 1],
    &[9, 2, 5, 2, 1],
];

/// Whether each of these is refused.
fn none_is_taken(alloc: Global, rows: &[&[u8]]) -> Result<bool, Fail> {
    let shape = four_by_five()?;
    Ok(first_taken(rows, |bytes| take_set_2(alloc, shape, bytes, 1).err()) == None)
}

/// Whether bytes of no run behind the first are the set of no cell.
fn is_no_cell_short(alloc: Global, bytes: &[u8]) -> Result<bool, Fail> {
    let (none, next) = take_set_2(alloc, four_by_five()?, bytes, 1)?;
    Ok(none.count() == 0 && next == 2)
}

#[test]
fn bytes_of_no_set_are_refused_short(rt: HostRuntime) -> Result<(), Fail> {
    assert!(rt; none_is_taken(rt.alloc(), &REFUSED)?);
    assert!(rt; is_no_cell_short(rt.alloc(), &[9, 0])?);
    Ok(())
}

/// The store of one region pair of one cell and one cell, as it is written long and short.
const LONG_PAIR: [u8; 42] = [
    0, 0, 0, 2, 0, 0, 0, 0, 1, 0, 0, 0, 0, 0, 0, 0, 0, 1, 0, 0, 0, 1, 0, 0, 0, 0, 0, 0, 0, 0, 0, 0,
    0, 1, 0, 0, 0, 0, 0, 0, 0, 1,
];

const SHORT_PAIR: [u8; 24] = [
    0, 0, 0, 2, 0, 1, 0, 0, 1, 1, 0, 0, 0, 0, 0, 1, 0, 0, 0, 0, 0, 0, 0, 1,
];

/// Whether a long store of one region pair is shortened so.
fn is_shortened(alloc: Global, long: &[u8], short: &[u8]) -> Result<bool, Fail> {
    let cell = one_cell()?;
    let mut shorter = Vec::new(alloc);
    let next = shorten_full(alloc, cell, &[cell], long, 0, &mut shorter)?;
    Ok(next == long.len() as u64 && shorter.as_slice() == short)
}

#[test]
fn a_full_store_is_shortened(rt: HostRuntime) -> Result<(), Fail> {
    assert!(rt; is_shortened(rt.alloc(), &LONG_PAIR, &SHORT_PAIR)?);
    Ok(())
}

/// Whether a short store of one region pair is widened so.
fn is_widened(alloc: Global, short: &[u8], long: &[u8]) -> Result<bool, Fail> {
    let cell = one_cell()?;
    let mut wider = Vec::new(alloc);
    let next = widen_full(alloc, cell, &[cell], short, 0, &mut wider)?;
    Ok(next == short.len() as u64 && wider.as_slice() == long)
}

/// Why a store is not widened behind these bytes.
fn fault_of_widening(mut behind: Vec<u8>, bytes: &[u8]) -> Result<Option<Take>, Fail> {
    let cell = one_cell()?;
    let alloc = *behind.allocator();
    Ok(widen_full(alloc, cell, &[cell], bytes, 0, &mut behind).err())
}

#[test]
fn a_full_store_is_widened(rt: HostRuntime) -> Result<(), Fail> {
    assert!(rt; is_widened(rt.alloc(), &SHORT_PAIR, &LONG_PAIR)?);
    let behind = LONG_PAIR.to_vec(rt.alloc())?;
    assert_eq!(rt;
        fault_of_widening(behind, &LONG_PAIR)?,
        Some(Take::Bad { at: 0 })
    );
    Ok(())
}

/// The store of one entry of one cell, as it is written long and short.
const LONG_ENTRY: [u8; 48] = [
    0, 0, 0, 1, 0, 0, 0, 12, 0, 0, 0, 1, 0, 0, 0, 0, 0, 0, 0, 0, 0, 0, 0, 1, 0, 0, 0, 1, 0, 0, 0,
    0, 0, 0, 0, 0, 0, 0, 0, 1, 0, 0, 0, 0, 0, 0, 0, 0,
];

const SHORT_ENTRY: [u8; 39] = [
    0, 0, 0, 1, 0, 0, 0, 12, 0, 0, 0, 1, 0, 0, 0, 0, 0, 0, 0, 0, 0, 0, 0, 1, 1, 0, 0, 0, 0, 0, 1,
    0, 0, 0, 0, 0, 0, 0, 0,
];

/// Whether a long store of entries of one cell is shortened so.
fn entry_is_shortened(alloc: Global, long: &[u8], short: &[u8]) -> Result<bool, Fail> {
    let mut shorter = Vec::new(alloc);
    let next = shorten_pay(alloc, one_cell()?, long, 0, &mut shorter)?;
    Ok(next == long.len() as u64 && shorter.as_slice() == short)
}

/// Whether a short store of entries of one cell is widened so.
fn entry_is_widened(alloc: Global, short: &[u8], long: &[u8]) -> Result<bool, Fail> {
    let mut wider = Vec::new(alloc);
    let next = widen_pay(alloc, one_cell()?, short, 0, &mut wider)?;
    Ok(next == short.len() as u64 && wider.as_slice() == long)
}

#[test]
fn a_payload_keeps_its_bytes(rt: HostRuntime) -> Result<(), Fail> {
    assert!(rt; entry_is_shortened(rt.alloc(), &LONG_ENTRY, &SHORT_ENTRY)?);
    assert!(rt; entry_is_widened(rt.alloc(), &SHORT_ENTRY, &LONG_ENTRY)?);
    Ok(())
}
