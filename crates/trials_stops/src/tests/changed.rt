//! Logs of which a byte was changed, and logs that were cut: where each is bad.
use super::ended::{log_of, says_on, served_on};
use std::alloc::Global;
use std::sync::Wait;
use std::test::Fail;
use std::thread::Threads;
use sz_session::Status;

/// An array of one cell: a line of 27 bytes.
const ARRAY: &[u8] = b"{\"array\":\"a\",\"cells\":[[5]]}\n";

/// A version with a store.
const VERSION: &[u8] = b"{\"array\":\"a\",\"cells\":[[5]]}
{\"flow\":\"f\",\"inputs\":1,\"nodes\":[{\"op\":\"neg\",\"from\":[{\"i\":0}]}]}
{\"strategy\":\"f\",\"node\":0,\"list\":[\"full_one_b\"]}
{\"start\":\"f\",\"base\":[[\"a\",1]]}
{\"await\":1}
";

/// Its body, of version 1 of the flow `f` on version 1 of the array `a`: one node, which negates,
/// with the list of `full_one_b`, whose store has one region pair.
const BODY: [u8; 64] = [
    0, 0, 0, 1, 1, b'f', 0, 0, 0, 1, 1, b'a', 0, 0, 0, 1, 0, 0, 0, 1, 1, 2, 0, 0, 0, 2, 0, 0, 0, 0,
    1, 0, 0, 0, 0, 0, 0, 0, 0, 1, 0, 0, 0, 1, 0, 0, 0, 0, 0, 0, 0, 0, 0, 0, 0, 1, 0, 0, 0, 0, 0, 0,
    0, 1,
];

/// Whether a check of a disk and a session on it both end so, say nothing and leave the disk.
fn both_end<R: Threads + Wait + Clone + Send + Sync + 'static>(
    rt: &R,
    alloc: Global,
    disk: &[u8],
    status: Status,
) -> Result<bool, Fail> {
    let checked = served_on(rt, alloc, "check", VERSION, disk)?;
    let answered = served_on(rt, alloc, "run", VERSION, disk)?;
    Ok(checked.leaves(status, b"", disk) && answered.leaves(status, b"", disk))
}

/// A disk with other bytes at a place. Fails where it is not that long.
fn with(alloc: Global, disk: &[u8], place: usize, bytes: &[u8]) -> Result<Vec<u8>, Fail> {
    let Some(front) = disk.get(..place) else {
        return Err(Fail::from("no such place"));
    };
    let Some(behind) = disk.get(place.saturating_add(bytes.len())..) else {
        return Err(Fail::from("no such bytes"));
    };
    let mut all = front.to_vec(alloc)?;
    all.extend_from_slice(bytes)?;
    all.extend_from_slice(behind)?;
    Ok(all)
}

/// A place of a disk, and the bytes that stand there instead.
type Change = (usize, &'static [u8]);

/// Whether both end so on a disk with other bytes at a place.
fn both_end_with<R: Threads + Wait + Clone + Send + Sync + 'static>(
    rt: &R,
    alloc: Global,
    disk: &[u8],
    place: usize,
    bytes: &[u8],
    status: Status,
) -> Result<bool, Fail> {
    let other = with(alloc, disk, place, bytes)?;
    both_end(rt, alloc, &other, status)
}

/// The place of the first of these changes, whose places are counted from one on, with which both
/// end otherwise, if any is.
fn first_other<R: Threads + Wait + Clone + Send + Sync + 'static>(
    rt: &R,
    alloc: Global,
    disk: &[u8],
    from: usize,
    changes: &[Change],
    status: Status,
) -> Result<Option<usize>, Fail> {
    for (place, bytes) in changes {
        if !both_end_with(rt, alloc, disk, from.saturating_add(*place), *bytes, status)? {
            return Ok(Some(*place));
        }
    }
    Ok(None)
}

/// Of the one group: its kind, its length, and its body, which becomes no JSON, a line with a name
/// that is none and one with a field that is none.
const BAD_GROUP: [Change; 11] = [
    (17, b"\x00"),
    (17, b"\x09"),
    (17, b"\x02"),
    (17, b"\x04"),
    (18, b"\xff\xff\xff\xff\xff\xff\xff\xff"),
    (18, b"\x00\x00\x00\x00\x00\x00\x00\x1a"),
    (18, b"\x00\x00\x00\x00\x00\x00\x00\x1c"),
    (18, b"\x00\x00\x00\x00\x00\x00\x00\x1d"),
    (26, b"["),
    (36, b"A"),
    (28, b"b"),
];

/// The header's gate, and its title.
const BAD_HEADER: [Change; 3] = [(0, &[0]), (1, &[0]), (15, &[0])];

/// The last gate.
const OPEN_GATE: [Change; 1] = [(53, &[1])];

#[test]
fn a_changed_log_is_bad_where_its_group_is(rt: HostRuntime) -> Result<(), Fail> {
    let alloc = rt.alloc();
    let log = log_of(&rt, alloc, ARRAY)?;
    assert_eq!(rt; log.len(), 54);
    let group = Status::BadLog { at: 16 };
    assert_eq!(rt; first_other(&rt, alloc, &log, 0, &BAD_GROUP, group)?, None);
    assert_eq!(rt;
        first_other(&rt, alloc, &log, 0, &BAD_HEADER, Status::NotALog)?,
        None
    );
    let gate = Status::BadLog { at: 53 };
    assert_eq!(rt; first_other(&rt, alloc, &log, 0, &OPEN_GATE, gate)?, None);
    Ok(())
}

/// How a session on a log ends that was cut to a length, where the whole one has another.
fn status_at(length: usize, whole: usize) -> Status {
    if length < 16 {
        Status::NotALog
    } else if length.saturating_add(1) == whole {
        Status::BadLog { at: length as u64 }
    } else {
        Status::BadLog { at: 16 }
    }
}

/// The first length to which a log is cut and both end otherwise, if any is.
fn first_other_cut<R: Threads + Wait + Clone + Send + Sync + 'static>(
    rt: &R,
    alloc: Global,
    log: &[u8],
) -> Result<Option<usize>, Fail> {
    for length in 0..log.len() {
        let cut = log.get(..length).unwrap_or(b"");
        if !both_end(rt, alloc, cut, status_at(length, log.len()))? {
            return Ok(Some(length));
        }
    }
    Ok(None)
}

/// To each length.
#[test]
fn a_log_that_is_cut_is_bad_where_it_breaks_off(rt: HostRuntime) -> Result<(), Fail> {
    let log = log_of(&rt, rt.alloc(), ARRAY)?;
    assert_eq!(rt; first_other_cut(&rt, rt.alloc(), &log)?, None);
    assert!(rt; says_on(&rt, rt.alloc(), "run", ARRAY, &log, b"1 array a 2\n")?);
    Ok(())
}

/// Of the body of a version one byte is another: a number that no version has, names of a flow and
/// of an array that are not held, a version of the array that is not held, no base array, a node
/// too many, no strategy, one that is none and one that is not the operator's, a set that is not in
/// the table, and a run that ends outside the shape.
const BAD_BODY: [Change; 12] = [
    (3, &[0]),
    (5, b"g"),
    (11, b"b"),
    (15, &[2]),
    (9, &[0]),
    (19, &[2]),
    (20, &[0]),
    (21, &[11]),
    (21, &[6]),
    (63, &[2]),
    (38, &[1]),
    (39, &[9]),
];

/// What stands before the body: an open gate, the kind and the length.
const BEFORE_BODY: [u8; 10] = [1, 4, 0, 0, 0, 0, 0, 0, 0, 64];

/// Whether a log has the group of the version behind its gate, and nothing behind it but a gate.
fn ends_in_version(log: &[u8], gate: usize) -> bool {
    let body = gate.saturating_add(10);
    log.get(gate..body) == Some(BEFORE_BODY.as_slice())
        && log.get(body..log.len().saturating_sub(1)) == Some(BODY.as_slice())
}

#[test]
fn a_version_with_a_broken_body_is_bad_at_its_gate(rt: HostRuntime) -> Result<(), Fail> {
    let alloc = rt.alloc();
    let log = log_of(&rt, alloc, VERSION)?;
    let gate = log.len().saturating_sub(75);
    assert!(rt; ends_in_version(&log, gate));
    let status = Status::BadLog { at: gate as u64 };
    let body = gate.saturating_add(10);
    assert_eq!(rt;
        first_other(&rt, alloc, &log, body, &BAD_BODY, status)?,
        None
    );
    Ok(())
}

/// What tells how the version's store is used, and a line that is added to the log.
const ASKS: &[u8] = b"{\"show\":1,\"node\":0}
{\"ask\":1,\"dir\":\"back\",\"path\":[[0,0]],\"cells\":[[0,0]]}
{\"ask\":1,\"dir\":\"forward\",\"path\":[[0,0]],\"cells\":[[0,0]]}
{\"explain\":1,\"dir\":\"back\",\"path\":[[0,0]],\"cells\":[[0,0]]}
{\"array\":\"b\",\"cells\":[[7]]}
";

const ASKS_REPLIES: &[u8] = b"1 values 1 1 -5
2 cells 0
3 cells 0
4 explain full_one_b traced 0
5 array b 1
";

/// A log whose version has a store of no region pair, made of one whose version has one.
fn false_log(alloc: Global, log: &[u8]) -> Result<Vec<u8>, Fail> {
    let gate = log.len().saturating_sub(75);
    let mut disk = log.get(..gate).unwrap_or(b"").to_vec(alloc)?;
    disk.extend_from_slice(&[1, 4, 0, 0, 0, 0, 0, 0, 0, 30])?;
    disk.extend_from_slice(&BODY[..22])?;
    disk.extend_from_slice(&[0; 9])?; // the store, and the gate
    Ok(disk)
}

/// Whether a check names the store of the version on a disk, and leaves that disk.
fn is_named<R: Threads + Wait + Clone + Send + Sync + 'static>(
    rt: &R,
    alloc: Global,
    disk: &[u8],
) -> Result<bool, Fail> {
    let checked = served_on(rt, alloc, "check", b"", disk)?;
    Ok(checked.leaves(Status::Done, b"unsound version 1 node 0 full_one_b\n", disk))
}

/// Whether a session on a disk answers by the store, a group is added, and a check names the store
/// behind that.
fn is_answered_by<R: Threads + Wait + Clone + Send + Sync + 'static>(
    rt: &R,
    alloc: Global,
    disk: &[u8],
) -> Result<bool, Fail> {
    let answered = served_on(rt, alloc, "run", ASKS, disk)?;
    Ok(
        answered.is(Status::Done, ASKS_REPLIES)
            && answered.read.len() == disk.len().saturating_add(37)
            && is_named(rt, alloc, &answered.read)?,
    )
}

/// A log whose version has a store of no region pair: a session answers by it, and a check names
/// it, before a group was added and behind that.
#[test]
fn a_false_store_is_answered_by_and_named(rt: HostRuntime) -> Result<(), Fail> {
    let log = log_of(&rt, rt.alloc(), VERSION)?;
    let disk = false_log(rt.alloc(), &log)?;
    assert!(rt; is_named(&rt, rt.alloc(), &disk)?);
    assert!(rt; is_answered_by(&rt, rt.alloc(), &disk)?);
    Ok(())
}
