//! Long tables of sets, which are read in two parts side by side.

use std::alloc::Global;
use std::test::Fail;
use std::thread::Threads;
use sz_cells::{NoMemory, Shape};
use sz_region::Take;
use sz_tables::RegionTable;

/// How many cells each array has, which is as many as its sets.
const CELLS: u32 = 20_000;

/// The shape of each array.
fn shape() -> Result<Shape, Fail> {
    Ok(Shape::make(200, 100).ok_or("200 by 100 is a shape")?)
}

/// Appends a number.
fn put(bytes: &mut Vec<u8>, number: u32) -> Result<(), NoMemory> {
    Ok(bytes.extend_from_slice(&number.to_be_bytes())?)
}

/// Appends the set of one cell of an array.
fn put_set(bytes: &mut Vec<u8>, array: u8, cell: u32) -> Result<(), NoMemory> {
    bytes.push(array)?;
    put(bytes, 1)?;
    put(bytes, cell)?;
    put(bytes, cell)
}

/// Appends the set of each cell of an array.
fn put_sets(bytes: &mut Vec<u8>, array: u8) -> Result<(), NoMemory> {
    for cell in 0..CELLS {
        put_set(bytes, array, cell)?;
    }
    Ok(())
}

/// Appends the rows of region pairs of the output's cell and the input's that have one number.
fn put_rows(bytes: &mut Vec<u8>) -> Result<(), NoMemory> {
    put(bytes, CELLS)?;
    for cell in 0..CELLS {
        put(bytes, cell)?;
        put(bytes, CELLS + cell)?;
    }
    Ok(())
}

/// The bytes of these region pairs, with one more listed set, where there is one.
fn pairs(alloc: Global, more: Option<(u8, u32)>) -> Result<Vec<u8>, NoMemory> {
    let mut bytes = Vec::new(alloc);
    let count = if more.is_some() {
        2 * CELLS + 1
    } else {
        2 * CELLS
    };
    put(&mut bytes, count)?;
    put_sets(&mut bytes, 0)?;
    put_sets(&mut bytes, 1)?;
    if let Some((array, cell)) = more {
        put_set(&mut bytes, array, cell)?;
    }
    put_rows(&mut bytes)?;
    Ok(bytes)
}

/// Whether some bytes are read, and written as others.
fn is_written_as<R: Threads + Sync>(
    rt: &R,
    alloc: Global,
    bytes: &[u8],
    wanted: &[u8],
) -> Result<bool, Fail> {
    let (table, next) = RegionTable::take_bytes(rt, alloc, shape()?, &[shape()?], bytes, 0)?;
    let mut again = Vec::new(alloc);
    table.put_bytes(&mut again)?;
    Ok(next == bytes.len() as u64 && again.as_slice() == wanted)
}

#[test]
fn two_parts_are_read_side_by_side(rt: HostRuntime) -> Result<(), Fail> {
    let bytes = pairs(rt.alloc(), None)?;
    assert!(rt; is_written_as(&rt, rt.alloc(), &bytes, &bytes)?);
    Ok(())
}

/// The set of the output that stands last was listed before.
#[test]
fn a_set_of_the_output_may_stand_behind_those_of_inputs(rt: HostRuntime) -> Result<(), Fail> {
    let bytes = pairs(rt.alloc(), Some((0, 7)))?;
    let wanted = pairs(rt.alloc(), None)?;
    assert!(rt; is_written_as(&rt, rt.alloc(), &bytes, &wanted)?);
    Ok(())
}

/// Why some bytes are not read.
fn fault_of<R: Threads + Sync>(rt: &R, alloc: Global, bytes: &[u8]) -> Result<Option<Take>, Fail> {
    let read = RegionTable::take_bytes(rt, alloc, shape()?, &[shape()?], bytes, 0);
    Ok(read.err())
}

/// The last set has a cell behind the last one.
#[test]
fn a_bad_set_in_the_second_part_is_refused(rt: HostRuntime) -> Result<(), Fail> {
    let bytes = pairs(rt.alloc(), Some((1, CELLS)))?;
    assert!(rt; fault_of(&rt, rt.alloc(), &bytes)? == Some(Take::Bad { at: 0 }));
    Ok(())
}
