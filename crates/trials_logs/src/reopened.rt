//! Sessions of a log of one version, with a store that stands for the relation and with one that
//! does not: each answers by the store, and none is made again.
ghost use Rattle.std.specs.Prelude.{IfOk, true, ◌≡◌};
ghost use Rattle.sz_commands.specs.Logged.{HasLog};

use std::alloc::Global;
use std::sync::Wait;
use std::test::Fail;
use std::thread::Threads;
use sz_catalogue::{Reply, reply_text};
use sz_outside::{MemStation, NoGate, Station};
use sz_recover::{Recovered, catalogue_of};
use sz_session::{Session, Stop};
use sz_spec::Tally;

/// The first bytes of a log.
const HEADER: [u8; 16] = *b"\x01SubZero log 1\r\n";

/// An array of one cell.
const ARRAY: &[u8] = br#"{"array":"a","cells":[[5]]}"#;

/// A flow of one node, which negates.
const FLOW: &[u8] = br#"{"flow":"f","inputs":1,"nodes":[{"op":"neg","from":[{"i":0}]}]}"#;

/// Version 1 of the flow on the array, up to the store: its node has the list of `full_one_b`.
const HEAD: [u8; 22] = [
    0, 0, 0, 1, 1, b'f', 0, 0, 0, 1, 1, b'a', 0, 0, 0, 1, 0, 0, 0, 1, 1, 2,
];

/// The store with the one region pair of the relation.
const TRUE_STORE: [u8; 42] = [
    0, 0, 0, 2, 0, 0, 0, 0, 1, 0, 0, 0, 0, 0, 0, 0, 0, 1, 0, 0, 0, 1, 0, 0, 0, 0, 0, 0, 0, 0, 0, 0,
    0, 1, 0, 0, 0, 0, 0, 0, 0, 1,
];

/// A store with no region pair.
const EMPTY_STORE: [u8; 8] = [0; 8];

/// What is asked of the version: back from its one cell, by which way, its output, and a second
/// await.
const ASK: &[u8] = br#"{"ask":1,"dir":"back","path":[[0,0]],"cells":[[0,0]]}"#;

const EXPLAIN: &[u8] = br#"{"explain":1,"dir":"back","path":[[0,0]],"cells":[[0,0]]}"#;

const SHOW: &[u8] = br#"{"show":1,"node":0}"#;

const AWAIT: &[u8] = br#"{"await":1}"#;

/// That its stores be merged, and how many kinds of lineage they then have.
const MERGE: &[u8] = br#"{"merge":1}"#;

const MERGED: &[u8] = br#"{"merged":1}"#;

/// A refresh of it.
const REFRESH: &[u8] = br#"{"refresh":1,"input":0,"set":[[0,0,7]]}"#;

/// Appends a group with its gate open.
fn put_group(disk: &mut Vec<u8>, kind: u8, body: &[u8]) -> Result<(), Fail> {
    disk.extend_from_slice(&[1, kind])?;
    disk.extend_from_slice(&(body.len() as u64).to_be_bytes())?;
    disk.extend_from_slice(body)?;
    Ok(())
}

/// The version with a store.
fn version_with(alloc: Global, store: &[u8]) -> Result<Vec<u8>, Fail> {
    let mut body = Vec::from_slice(alloc, &HEAD)?;
    body.extend_from_slice(store)?;
    Ok(body)
}

/// A log that holds the array, the flow and this version.
fn disk_with(alloc: Global, version: &[u8]) -> Result<Vec<u8>, Fail> {
    let mut disk = Vec::from_slice(alloc, &HEADER)?;
    put_group(&mut disk, 1, ARRAY)?;
    put_group(&mut disk, 2, FLOW)?;
    put_group(&mut disk, 4, version)?;
    disk.push(0)?;
    Ok(disk)
}

/// A station with a log that holds the array, the flow and the version with a store.
fn station_with(alloc: Global, store: &[u8]) -> Result<MemStation, Fail> {
    let version = version_with(alloc, store)?;
    let disk = disk_with(alloc, &version)?;
    Ok(MemStation::new(alloc, disk, Vec::new(alloc), Vec::new(alloc))?)
}

/// A session of the station's log, beside which that log stands.
fn opened<T: Station, R: Threads + Sync>(
    rt: &R,
    alloc: Global,
    station: &mut T,
) -> Result<Session, Fail>
    ensures { IfOk result (λ s. HasLog T.Station s.held s.end station.new) }
{
    if station.sync().is_err() {
        return Err(Fail::from("not synced"));
    }
    let recovered: Recovered = match catalogue_of(rt, alloc, station) {
        Ok(recovered) => recovered,
        Err(_) => return Err(Fail::from("not opened")),
    };
    Ok(Session::of_log(alloc, recovered, 1, 1)?)
}

/// Whether a session does what a line orders.
fn is_taken<T: Station, R: Threads + Wait + Sync>(
    rt: &R,
    session: &mut Session,
    line: &[u8],
    station: &mut T,
) -> bool
    requires { HasLog T.Station session.old.held session.old.end station.old }
    ensures { result ≡ true → HasLog T.Station session.new.held session.new.end station.new }
{
    let mut tally = Tally::new();
    session
        .command(rt, line, 1, station, &NoGate, &mut tally)
        .is_ok()
}

/// The text of what a session gave for a line; none where it has no reply or stopped.
fn text_of(alloc: Global, given: &Result<Option<Reply>, Stop>) -> Result<Vec<u8>, Fail> {
    match given {
        Ok(Some(reply)) => Ok(reply_text(alloc, 1, reply)?),
        Ok(None) => Err(Fail::from("no reply")),
        Err(_) => Err(Fail::from("stopped")),
    }
}

/// The reply of a session to a line, and how many cells are counted for it.
fn reply_to<T: Station, R: Threads + Wait + Sync>(
    rt: &R,
    alloc: Global,
    session: &mut Session,
    line: &[u8],
    station: &mut T,
) -> Result<(Vec<u8>, u64), Fail>
    requires { HasLog T.Station session.old.held session.old.end station.old }
{
    let mut tally = Tally::new();
    let given = session.command(rt, line, 1, station, &NoGate, &mut tally);
    let count = tally.count();
    Ok((text_of(alloc, &given)?, count))
}

/// The same behind another line.
fn reply_behind<T: Station, R: Threads + Wait + Sync>(
    rt: &R,
    alloc: Global,
    session: &mut Session,
    lines: [&[u8]; 2],
    station: &mut T,
) -> Result<(Vec<u8>, u64), Fail>
    requires { HasLog T.Station session.old.held session.old.end station.old }
{
    let [before, line] = lines;
    if !is_taken(rt, session, before, station) {
        return Err(Fail::from("stopped at once"));
    }
    reply_to(rt, alloc, session, line, station)
}

/// The reply to the second of two lines in a session of the station's log, and how many cells are
/// counted for it.
fn reply_on<T: Station, R: Threads + Wait + Sync>(
    rt: &R,
    alloc: Global,
    station: &mut T,
    lines: [&[u8]; 2],
) -> Result<(Vec<u8>, u64), Fail> {
    let mut session = opened(rt, alloc, station)?;
    reply_behind(rt, alloc, &mut session, lines, station)
}

/// A store, two lines of a session of the log with it, the reply to the second, and how many cells
/// are counted for it.
type Row = (&'static [u8], [&'static [u8]; 2], &'static [u8], u64);

/// A true store answers the relation, and one of nothing answers nothing. The way is the store
/// whatever it stands for, and values are computed again. A version of a log is awaited already, and
/// no merge of it was asked; kinds are those of the store. It is refreshed by the relation: the one
/// cell that a set cell reaches is counted, and nothing is taken from the store.
const ROWS: [Row; 9] = [
    (&TRUE_STORE, [b"", ASK], b"1 cells 1 0,0\n", 0),
    (&EMPTY_STORE, [b"", ASK], b"1 cells 0\n", 0),
    (
        &EMPTY_STORE,
        [b"", EXPLAIN],
        b"1 explain full_one_b traced 0\n",
        0,
    ),
    (&EMPTY_STORE, [b"", SHOW], b"1 values 1 1 -5\n", 0),
    (&TRUE_STORE, [b"", AWAIT], b"1 done 1\n", 0),
    (&TRUE_STORE, [b"", MERGED], b"1 refused 25\n", 0),
    (&TRUE_STORE, [MERGE, MERGED], b"1 merged 1 1\n", 0),
    (&EMPTY_STORE, [MERGE, MERGED], b"1 merged 1 0\n", 0),
    (&EMPTY_STORE, [b"", REFRESH], b"1 refreshed 2 cells 1\n", 1),
];

/// Whether the reply and the count of a row are told.
fn is_told<R: Threads + Wait + Sync>(rt: &R, alloc: Global, row: &Row) -> Result<bool, Fail> {
    let mut station = station_with(alloc, row.0)?;
    let (text, count) = reply_on(rt, alloc, &mut station, row.1)?;
    Ok(text.as_slice() == row.2 && count == row.3)
}

/// The number of the first row whose reply or count is told otherwise, if any is.
fn first_other<R: Threads + Wait + Sync>(rt: &R, alloc: Global) -> Result<Option<usize>, Fail> {
    for number in 0..ROWS.len() {
        if !is_told(rt, alloc, &ROWS[number])? {
            return Ok(Some(number));
        }
    }
    Ok(None)
}

#[test]
fn a_version_of_a_log_is_answered_by_its_store(rt: HostRuntime) -> Result<(), Fail> {
    assert_eq!(rt; first_other(&rt, rt.alloc())?, None);
    Ok(())
}
