//! Logs of one version, with a store that stands for the relation and with one that does not: the
//! second is found.
use std::alloc::Global;
use std::test::Fail;
use std::thread::Threads;
use sz_cells::NoMemory;
use sz_outside::MemStation;
use sz_recover::{Recovered, WrongStore, catalogue_of, unsound};
use sz_spec::Strategy;

/// The first bytes of a log.
const HEADER: [u8; 16] = *b"\x01SubZero log 1\r\n";

/// An array of one cell.
pub(crate) const ARRAY: &[u8] = br#"{"array":"a","cells":[[5]]}"#;

/// A flow of one node, which negates.
pub(crate) const FLOW: &[u8] =
    br#"{"flow":"f","inputs":1,"nodes":[{"op":"neg","from":[{"i":0}]}]}"#;

/// Version 1 of the flow on the array, up to the store: its node has the list of `full_one_b`.
const HEAD: [u8; 22] = [
    0, 0, 0, 1, 1, b'f', 0, 0, 0, 1, 1, b'a', 0, 0, 0, 1, 0, 0, 0, 1, 1, 2,
];

/// The store with the one region pair of the relation.
const TRUE_STORE: [u8; 42] = [
    0, 0, 0, 2, 0, 0, 0, 0, 1, 0, 0, 0, 0, 0, 0, 0, 0, 1, 0, 0, 0, 1, 0, 0, 0, 0, 0, 0, 0, 0, 0, 0,
    0, 1, 0, 0, 0, 0, 0, 0, 0, 1,
];

/// A store that has it twice.
const STORE_OF_TWO: [u8; 50] = [
    0, 0, 0, 2, 0, 0, 0, 0, 1, 0, 0, 0, 0, 0, 0, 0, 0, 1, 0, 0, 0, 1, 0, 0, 0, 0, 0, 0, 0, 0, 0, 0,
    0, 2, 0, 0, 0, 0, 0, 0, 0, 1, 0, 0, 0, 0, 0, 0, 0, 1,
];

/// A store with no region pair.
const EMPTY_STORE: [u8; 8] = [0; 8];

/// A group: its kind, and its body.
pub(crate) type Group<'a> = (u8, &'a [u8]);

/// Appends a group with its gate open.
fn put_group(disk: &mut Vec<u8>, kind: u8, body: &[u8]) -> Result<(), NoMemory> {
    disk.push(1)?;
    disk.push(kind)?;
    disk.extend_from_slice(&(body.len() as u64).to_be_bytes())?;
    disk.extend_from_slice(body)?;
    Ok(())
}

/// Appends the header, groups with their gates open, and a closed gate.
fn put_groups(disk: &mut Vec<u8>, groups: &[Group<'_>]) -> Result<(), NoMemory> {
    disk.extend_from_slice(&HEADER)?;
    for group in groups {
        put_group(disk, group.0, group.1)?;
    }
    disk.push(0)?;
    Ok(())
}

/// A log of some groups.
fn log_of(alloc: Global, groups: &[Group<'_>]) -> Result<Vec<u8>, NoMemory> {
    let mut disk = Vec::new(alloc);
    put_groups(&mut disk, groups)?;
    Ok(disk)
}

/// A station with a log of some groups.
pub(crate) fn station_of(alloc: Global, groups: &[Group<'_>]) -> Result<MemStation, Fail> {
    let disk = log_of(alloc, groups)?;
    Ok(MemStation::new(alloc, disk, Vec::new(alloc), Vec::new(alloc))?)
}

/// What a log of some groups opens to.
pub(crate) fn opened(
    rt: &(impl Threads + Sync),
    alloc: Global,
    groups: &[Group<'_>],
) -> Result<Recovered, Fail> {
    let mut station = station_of(alloc, groups)?;
    match catalogue_of(rt, alloc, &mut station) {
        Ok(recovered) => Ok(recovered),
        Err(_) => Err(Fail::from("not opened")),
    }
}

/// The body of the version with a store.
fn body_with(alloc: Global, store: &[u8]) -> Result<Vec<u8>, NoMemory> {
    let mut body = Vec::from_slice(alloc, &HEAD)?;
    body.extend_from_slice(store)?;
    Ok(body)
}

/// What a log opens to that holds the array, the flow and the version with a store.
fn opened_with(rt: &(impl Threads + Sync), alloc: Global, store: &[u8]) -> Result<Recovered, Fail> {
    let body = body_with(alloc, store)?;
    opened(rt, alloc, &[(1, ARRAY), (2, FLOW), (4, body.as_slice())])
}

/// What is found of the version with a store.
fn found(
    rt: &(impl Threads + Sync),
    alloc: Global,
    store: &[u8],
) -> Result<Option<WrongStore>, Fail> {
    let recovered = opened_with(rt, alloc, store)?;
    Ok(unsound(rt, alloc, &recovered)?)
}

#[test]
fn a_store_of_the_relation_is_sound(rt: HostRuntime) -> Result<(), Fail> {
    assert_eq!(rt; found(&rt, rt.alloc(), &TRUE_STORE)?, None);
    Ok(())
}

#[test]
fn a_store_that_keeps_more_pairs_of_the_relation_is_sound(rt: HostRuntime) -> Result<(), Fail> {
    assert_eq!(rt; found(&rt, rt.alloc(), &STORE_OF_TWO)?, None);
    Ok(())
}

#[test]
fn a_store_of_nothing_is_found(rt: HostRuntime) -> Result<(), Fail> {
    let wrong = WrongStore {
        version: 1,
        node: 0,
        s: Strategy::FullOneB,
    };
    assert_eq!(rt; found(&rt, rt.alloc(), &EMPTY_STORE)?, Some(wrong));
    Ok(())
}
