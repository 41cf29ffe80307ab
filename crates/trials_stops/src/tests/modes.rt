//! Modes that read nothing, of which each is given a source whose first read fails: how init,
//! upgrade and check end on each kind of disk, what they say and leave; and where each disk call
//! fails in turn, or the machine stops behind it.
use super::ended::{Ended, served_unread, station_of};
use std::alloc::Global;
use std::sync::Wait;
use std::test::Fail;
use std::thread::Threads;
use sz_outside::MemStation;
use sz_session::Status;

/// The empty log.
const EMPTY: &[u8] = b"\x01SubZero log 1\r\n\x00";

/// The same behind its raising: 27 bytes.
const RAISED: &[u8] = b"\x01SubZero log 1\r\n\x01\x05\x00\x00\x00\x00\x00\x00\x00\x00\x00";

/// A log that holds an array of one cell, and nothing else: 54 bytes. The same cut to 53 bytes, and
/// to 40; and behind its raising.
const ARRAY: &[u8] = b"\x01SubZero log 1\r\n\
    \x01\x01\x00\x00\x00\x00\x00\x00\x00\x1b{\"array\":\"a\",\"cells\":[[5]]}\
    \x00";

const CUT: &[u8] = b"\x01SubZero log 1\r\n\
    \x01\x01\x00\x00\x00\x00\x00\x00\x00\x1b{\"array\":\"a\",\"cells\":[[5]]}";

const SHORT: &[u8] = b"\x01SubZero log 1\r\n\
    \x01\x01\x00\x00\x00\x00\x00\x00\x00\x1b{\"array\":\"a\",\"";

const RAISED_ARRAY: &[u8] = b"\x01SubZero log 1\r\n\
    \x01\x01\x00\x00\x00\x00\x00\x00\x00\x1b{\"array\":\"a\",\"cells\":[[5]]}\
    \x01\x05\x00\x00\x00\x00\x00\x00\x00\x00\
    \x00";

/// A log that was raised twice, which is bad where the second group stands.
const TWICE: &[u8] = b"\x01SubZero log 1\r\n\
    \x01\x05\x00\x00\x00\x00\x00\x00\x00\x00\
    \x01\x05\x00\x00\x00\x00\x00\x00\x00\x00\
    \x00";

/// What is no log, since its first gate is closed, short and longer.
const CLOSED: &[u8] = b"\x00SubZero log 1\r\n";

const NO_LOG: &[u8] = b"\x00SubZero log 1\r\n\x00";

/// Thirty bytes that are no log.
const TEXT: &[u8] = b"thirty bytes of text, no more.";

/// A log that holds the array, a flow of one node, which negates, and version 1 of the flow on the
/// array. Its node has the list of `full_one_b`, and a store with the one region pair of the
/// relation.
const SOUND: &[u8] = b"\x01SubZero log 1\r\n\
    \x01\x01\x00\x00\x00\x00\x00\x00\x00\x1b{\"array\":\"a\",\"cells\":[[5]]}\
    \x01\x02\x00\x00\x00\x00\x00\x00\x00\x3f{\"flow\":\"f\",\"inputs\":1,\
    \"nodes\":[{\"op\":\"neg\",\"from\":[{\"i\":0}]}]}\
    \x01\x04\x00\x00\x00\x00\x00\x00\x00\x40\
    \x00\x00\x00\x01\x01f\x00\x00\x00\x01\x01a\x00\x00\x00\x01\x00\x00\x00\x01\x01\x02\
    \x00\x00\x00\x02\x00\x00\x00\x00\x01\x00\x00\x00\x00\x00\x00\x00\x00\x01\
    \x00\x00\x00\x01\x00\x00\x00\x00\x00\x00\x00\x00\x00\x00\x00\x01\
    \x00\x00\x00\x00\x00\x00\x00\x01\x00";

/// The same with a store that has no region pair.
const UNSOUND: &[u8] = b"\x01SubZero log 1\r\n\
    \x01\x01\x00\x00\x00\x00\x00\x00\x00\x1b{\"array\":\"a\",\"cells\":[[5]]}\
    \x01\x02\x00\x00\x00\x00\x00\x00\x00\x3f{\"flow\":\"f\",\"inputs\":1,\
    \"nodes\":[{\"op\":\"neg\",\"from\":[{\"i\":0}]}]}\
    \x01\x04\x00\x00\x00\x00\x00\x00\x00\x1e\
    \x00\x00\x00\x01\x01f\x00\x00\x00\x01\x01a\x00\x00\x00\x01\x00\x00\x00\x01\x01\x02\
    \x00\x00\x00\x00\x00\x00\x00\x00\
    \x00";

/// The lines of a log that was made, of one that has format 2, and of a store that does not stand
/// for the relation.
const READY: &[u8] = b"log ready\n";

const FORMAT: &[u8] = b"log 2\n";

const NAMED: &[u8] = b"unsound version 1 node 0 full_one_b\n";

/// A mode, a disk, how the call ends, what is said, and the disk that is left.
type Row = (
    &'static str,
    &'static [u8],
    Status,
    &'static [u8],
    &'static [u8],
);

/// A short disk becomes the empty log, and others stay; a log is raised once; and each log that is
/// checked has its line.
const ROWS: [Row; 21] = [
    ("init", b"", Status::Done, READY, EMPTY),
    ("init", b"seventeen bytes..", Status::Done, READY, EMPTY),
    ("init", CLOSED, Status::Done, READY, EMPTY),
    ("init", EMPTY, Status::AlreadyALog, b"", EMPTY),
    ("init", TEXT, Status::NotALog, b"", TEXT),
    ("upgrade", EMPTY, Status::Done, FORMAT, RAISED),
    ("upgrade", RAISED, Status::Done, FORMAT, RAISED),
    ("upgrade", ARRAY, Status::Done, FORMAT, RAISED_ARRAY),
    ("upgrade", RAISED_ARRAY, Status::Done, FORMAT, RAISED_ARRAY),
    ("upgrade", b"", Status::NotALog, b"", b""),
    ("upgrade", b"SubZero", Status::NotALog, b"", b"SubZero"),
    ("upgrade", NO_LOG, Status::NotALog, b"", NO_LOG),
    ("upgrade", CUT, Status::BadLog { at: 53 }, b"", CUT),
    ("upgrade", TWICE, Status::BadLog { at: 26 }, b"", TWICE),
    ("check", EMPTY, Status::Done, b"sound 0\n", EMPTY),
    ("check", ARRAY, Status::Done, b"sound 0\n", ARRAY),
    ("check", SOUND, Status::Done, b"sound 1\n", SOUND),
    ("check", UNSOUND, Status::Done, NAMED, UNSOUND),
    ("check", b"SubZero", Status::NotALog, b"", b"SubZero"),
    ("check", CUT, Status::BadLog { at: 53 }, b"", CUT),
    ("check", SHORT, Status::BadLog { at: 16 }, b"", SHORT),
];

/// Serves a mode on a disk. The disk calls and the says of these numbers fail.
fn served_with<R: Threads + Wait + Clone + Send + Sync + 'static>(
    rt: &R,
    alloc: Global,
    mode: &str,
    disk: &[u8],
    disk_fails: &[u64],
    say_fails: &[u64],
) -> Result<Ended, Fail> {
    let station = station_of(alloc, disk, disk_fails, say_fails)?;
    served_unread(rt, alloc, mode, station)
}

/// Whether a mode ends as a row says. The disk calls and the says of these numbers fail.
fn ends_so<R: Threads + Wait + Clone + Send + Sync + 'static>(
    rt: &R,
    alloc: Global,
    row: &Row,
    disk_fails: &[u64],
    say_fails: &[u64],
) -> Result<bool, Fail> {
    let ended = served_with(rt, alloc, row.0, row.1, disk_fails, say_fails)?;
    Ok(ended.leaves(row.2, row.3, row.4))
}

#[test]
fn each_mode_ends_so_on_each_disk(rt: HostRuntime) -> Result<(), Fail> {
    assert_eq!(rt; (RAISED.len(), CUT.len(), SHORT.len()), (27, 53, 40));
    for row in &ROWS {
        assert!(rt;
            ends_so(&rt, rt.alloc(), row, &[], &[])?,
            "{} of {} bytes",
            row.0,
            row.1.len()
        );
    }
    Ok(())
}

/// A log that was made or raised stays where its line is not said.
const UNSAID: [Row; 2] = [
    ("init", b"", Status::SayFault, b"", EMPTY),
    ("upgrade", EMPTY, Status::SayFault, b"", RAISED),
];

/// A check whose disk fails says nothing.
const UNREAD: Row = ("check", ARRAY, Status::DiskFault, b"", ARRAY);

#[test]
fn a_call_that_fails_is_told_by_the_status_alone(rt: HostRuntime) -> Result<(), Fail> {
    for row in &UNSAID {
        assert!(rt; ends_so(&rt, rt.alloc(), row, &[], &[1])?, "{}", row.0);
    }
    assert!(rt; ends_so(&rt, rt.alloc(), &UNREAD, &[1], &[])?);
    Ok(())
}

/// Whether a disk is as it was, or is the empty log, or has at most 17 bytes that are no log.
fn is_making(disk: &[u8], old: &[u8]) -> bool {
    disk == old || disk == EMPTY || (disk.len() <= 17 && disk.get(..16) != EMPTY.get(..16))
}

/// Whether a disk is one of two logs: up to its first closed gate it is the old one, or it is the
/// raised one; and to raise it again makes it that.
fn is_either<R: Threads + Wait + Clone + Send + Sync + 'static>(
    rt: &R,
    alloc: Global,
    disk: &[u8],
    logs: [&[u8]; 2],
) -> Result<bool, Fail> {
    let [old, raised] = logs;
    let again = served_with(rt, alloc, "upgrade", disk, &[], &[])?;
    let is_log = disk == raised || disk.get(..old.len()) == Some(old);
    Ok(is_log && again.leaves(Status::Done, FORMAT, raised))
}

/// Whether each image is, whatever a stop leaves.
fn are_either<R: Threads + Wait + Clone + Send + Sync + 'static>(
    rt: &R,
    alloc: Global,
    cut: &Ended,
    logs: [&[u8]; 2],
) -> Result<bool, Fail> {
    Ok(
        is_either(rt, alloc, &cut.synced, logs)?
            && is_either(rt, alloc, &cut.read, logs)?
            && is_either(rt, alloc, &cut.torn, logs)?,
    )
}

/// A mode that makes one disk of another, its line, and whether the machine stops behind a call of
/// the disk, in place of that the call fails.
type Making = (&'static str, [&'static [u8]; 2], &'static [u8], bool);

const MAKINGS: [Making; 5] = [
    ("init", [b"old", EMPTY], READY, false),
    ("upgrade", [EMPTY, RAISED], FORMAT, false),
    ("upgrade", [EMPTY, RAISED], FORMAT, true),
    ("upgrade", [ARRAY, RAISED_ARRAY], FORMAT, false),
    ("upgrade", [ARRAY, RAISED_ARRAY], FORMAT, true),
];

/// Whether the disk failed, nothing was said, and a stop leaves what it may of a making.
fn is_cut_short<R: Threads + Wait + Clone + Send + Sync + 'static>(
    rt: &R,
    alloc: Global,
    making: &Making,
    cut: &Ended,
) -> Result<bool, Fail> {
    if !cut.is(Status::DiskFault, b"") {
        return Ok(false);
    }
    if making.0 == "upgrade" {
        return are_either(rt, alloc, cut, making.1);
    }
    let [old, _] = making.1;
    Ok(is_making(&cut.read, old) && is_making(&cut.torn, old))
}

/// A station of which the disk call of this number fails, or behind so many calls of which the
/// machine stops.
fn faulty(alloc: Global, disk: &[u8], stops: bool, call: u64) -> Result<MemStation, Fail> {
    if stops {
        return Ok(MemStation::stopped(alloc, disk.to_vec(alloc)?, call)?);
    }
    station_of(alloc, disk, &[call], &[])
}

/// Whether a making is cut short there. None where it ends as if all calls were done.
fn fails_at<R: Threads + Wait + Clone + Send + Sync + 'static>(
    rt: &R,
    alloc: Global,
    making: &Making,
    call: u64,
) -> Result<Option<bool>, Fail> {
    let [old, new] = making.1;
    let station = faulty(alloc, old, making.3, call)?;
    let cut = served_unread(rt, alloc, making.0, station)?;
    if cut.leaves(Status::Done, making.2, new) {
        return Ok(None);
    }
    Ok(Some(is_cut_short(rt, alloc, making, &cut)?))
}

/// How many disk calls of a making fail, or are the last, one in turn, until one number more
/// changes nothing. Each making is cut short.
fn failing_calls<R: Threads + Wait + Clone + Send + Sync + 'static>(
    rt: &R,
    alloc: Global,
    making: &Making,
) -> Result<u64, Fail> {
    let first = if making.3 { 0u64 } else { 1 };
    for call in first..40 {
        match fails_at(rt, alloc, making, call)? {
            Some(true) => {}
            Some(false) => return Err(Fail::new(format_args!("disk call {call}"))),
            None => return Ok(call - first),
        }
    }
    Err(Fail::from("no end of disk calls"))
}

/// Of each disk call in turn: a disk call that fails, or behind which the machine stops, leaves the
/// old disk or the new one.
#[test]
fn a_making_is_cut_short_at_each_disk_call(rt: HostRuntime) -> Result<(), Fail> {
    for making in &MAKINGS {
        assert!(rt; failing_calls(&rt, rt.alloc(), making)? > 7, "{}", making.0);
    }
    Ok(())
}
