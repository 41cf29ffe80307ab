//! Logs of groups of several kinds: one of kind 5 raises a log to format 2, once, and which groups
//! of versions are taken then.
use crate::bodies::{BODY, SHORT_BODY};
use crate::checks::{ARRAY, FLOW, Group, opened, station_of};
use std::alloc::Global;
use std::test::Fail;
use std::thread::Threads;
use sz_recover::{KeptVersion, RecoverFault, Recovered, catalogue_of, unsound};

/// The array at byte 16, the flow at byte 53, and its version 1 in format 1 at byte 126. A group
/// behind them stands at byte 200.
const OF_FORMAT_1: [Group<'static>; 3] = [(1, ARRAY), (2, FLOW), (4, &BODY)];

/// A group that raises the log.
const RAISED: [Group<'static>; 1] = [(5, b"")];

/// A version of format 1 behind an upgrade at byte 126, and its body in a group of format 2.
const OLD_BEHIND: [Group<'static>; 4] = [(1, ARRAY), (2, FLOW), (5, b""), (4, &BODY)];

const LONG_BEHIND: [Group<'static>; 4] = [(1, ARRAY), (2, FLOW), (5, b""), (6, &BODY)];

/// A version of format 2 before an upgrade, and its body in a group of format 1.
const NEW_BEFORE: [Group<'static>; 4] = [(1, ARRAY), (2, FLOW), (6, &SHORT_BODY), (5, b"")];

const SHORT_BEFORE: [Group<'static>; 3] = [(1, ARRAY), (2, FLOW), (4, &SHORT_BODY)];

/// Two upgrades, and one with a byte.
const RAISED_TWICE: [Group<'static>; 4] = [(1, ARRAY), (2, FLOW), (5, b""), (5, b"")];

const RAISED_BY_MORE: [Group<'static>; 3] = [(1, ARRAY), (2, FLOW), (5, b"\0")];

/// The body in format 2 of a version 2 like version 1.
fn second_body() -> [u8; 46] {
    let mut body = SHORT_BODY;
    body[3] = 2;
    body
}

/// Where the first bad group stands in a log of some groups, if one is bad.
fn bad_at(
    rt: &(impl Threads + Sync),
    alloc: Global,
    groups: &[Group<'_>],
) -> Result<Option<u64>, Fail> {
    let mut station = station_of(alloc, groups)?;
    match catalogue_of(rt, alloc, &mut station) {
        Ok(_) => Ok(None),
        Err(RecoverFault::BadLog { at }) => Ok(Some(at)),
        Err(_) => Err(Fail::from("not read")),
    }
}

/// Whether the first bad group of a log of some groups stands at a byte.
fn is_bad_at(
    rt: &(impl Threads + Sync),
    alloc: Global,
    groups: &[Group<'_>],
    at: u64,
) -> Result<bool, Fail> {
    Ok(bad_at(rt, alloc, groups)? == Some(at))
}

/// Whether what was opened has a format, so many versions, and its end at a byte.
fn is_so(recovered: &Recovered, format: u8, versions: usize, end: u64) -> bool {
    recovered.format == format && recovered.stores.len() == versions && recovered.end.at == end
}

/// Whether a log of some groups opens so.
fn opens_so(
    rt: &(impl Threads + Sync),
    alloc: Global,
    groups: &[Group<'_>],
    format: u8,
    versions: usize,
    end: u64,
) -> Result<bool, Fail> {
    let recovered = opened(rt, alloc, groups)?;
    Ok(is_so(&recovered, format, versions, end))
}

#[test]
fn a_log_that_is_not_raised_has_format_1(rt: HostRuntime) -> Result<(), Fail> {
    assert!(rt; opens_so(&rt, rt.alloc(), &OF_FORMAT_1, 1, 1, 200)?);
    Ok(())
}

#[test]
fn an_empty_log_is_raised(rt: HostRuntime) -> Result<(), Fail> {
    assert!(rt; opens_so(&rt, rt.alloc(), &RAISED, 2, 0, 26)?);
    Ok(())
}

/// Whether versions are the first two.
fn are_first_two(versions: &[KeptVersion]) -> bool {
    match versions {
        [first, second] => first.version == 1 && second.version == 2,
        _ => false,
    }
}

/// A log that holds version 1 in format 1 and, behind an upgrade, version 2 in format 2.
fn opened_with_both(rt: &(impl Threads + Sync), alloc: Global) -> Result<Recovered, Fail> {
    let second = second_body();
    let groups = [
        (1, ARRAY),
        (2, FLOW),
        (4, BODY.as_slice()),
        (5, b"".as_slice()),
        (6, second.as_slice()),
    ];
    opened(rt, alloc, &groups)
}

/// Whether both versions are kept, and are sound.
fn both_are_kept(rt: &(impl Threads + Sync), alloc: Global) -> Result<bool, Fail> {
    let recovered = opened_with_both(rt, alloc)?;
    Ok(
        is_so(&recovered, 2, 2, 266)
            && are_first_two(&recovered.stores)
            && unsound(rt, alloc, &recovered)?.is_none(),
    )
}

#[test]
fn versions_behind_an_upgrade_are_kept_beside_those_before_it(rt: HostRuntime) -> Result<(), Fail> {
    assert!(rt; both_are_kept(&rt, rt.alloc())?);
    Ok(())
}

#[test]
fn a_version_of_format_1_is_bad_behind_an_upgrade(rt: HostRuntime) -> Result<(), Fail> {
    assert!(rt; is_bad_at(&rt, rt.alloc(), &OLD_BEHIND, 136)?);
    assert!(rt; is_bad_at(&rt, rt.alloc(), &LONG_BEHIND, 136)?);
    Ok(())
}

#[test]
fn a_version_of_format_2_is_bad_before_an_upgrade(rt: HostRuntime) -> Result<(), Fail> {
    assert!(rt; is_bad_at(&rt, rt.alloc(), &NEW_BEFORE, 126)?);
    assert!(rt; is_bad_at(&rt, rt.alloc(), &SHORT_BEFORE, 126)?);
    Ok(())
}

#[test]
fn a_second_upgrade_is_bad(rt: HostRuntime) -> Result<(), Fail> {
    assert!(rt; is_bad_at(&rt, rt.alloc(), &RAISED_TWICE, 136)?);
    Ok(())
}

#[test]
fn an_upgrade_with_a_byte_is_bad(rt: HostRuntime) -> Result<(), Fail> {
    assert!(rt; is_bad_at(&rt, rt.alloc(), &RAISED_BY_MORE, 126)?);
    Ok(())
}
