//! What no clause says: that the calls succeed, what every stop of a making and of an adding leaves
//! when it is opened again, and that each disk call that fails is answered.
ghost use Rattle.std.specs.Prelude.{◌≡◌, [], ◌∷◌, Some, None, IfOk};
ghost use Rattle.sz_outside.specs.History.{scene_before};
ghost use Rattle.sz_outside.specs.Memory.{now, ledger_before};
ghost use Rattle.sz_outside.specs.Disk.{Only};
ghost use Rattle.sz_log.specs.Log.{empty_log, EndsAt};

use std::alloc::Global;
use std::test::Fail;
use sz_log::{Group, LogEnd, LogFault, append, group_at, init, is_log};
use sz_outside::{Failed, MemStation, NoMemory, Station, Torn};

/// The empty log.
const EMPTY: [u8; 17] = [
    1, 83, 117, 98, 90, 101, 114, 111, 32, 108, 111, 103, 32, 49, 13, 10, 0,
];

/// The log that has the line `{"array":"a","cells":[[5]]}` as its one group.
const LOG: &[u8] =
    b"\x01SubZero log 1\r\n\x01\x01\0\0\0\0\0\0\0\x1b{\"array\":\"a\",\"cells\":[[5]]}\0";

const LINE: &[u8] = b"{\"array\":\"a\",\"cells\":[[5]]}";

/// How many disk calls `init` and `append` make.
const INIT_CALLS: u64 = 13;

const APPEND_CALLS: u64 = 10;

/// What a stop may leave of writings that are not synced.
const STOPS: [Torn; 3] = [Torn::Old, Torn::New, Torn::Ones];

/// A station with these bytes, whose disk calls all fail past so many.
fn stopped(alloc: Global, disk: &[u8], passes: u64) -> Result<MemStation, NoMemory>
    ensures { IfOk result (λ s. s ≡ ledger_before disk.now [] [] (Some passes)) }
{
    MemStation::stopped(alloc, disk.to_vec(alloc)?, passes)
}

/// A station with these bytes, whose disk call of one number fails.
fn failing(alloc: Global, disk: &[u8], call: u64) -> Result<MemStation, NoMemory>
    ensures { IfOk result (λ s. s ≡ ledger_before disk.now (call ∷ []) [] None) }
{
    let fails = [call].to_vec(alloc)?;
    MemStation::new(alloc, disk.to_vec(alloc)?, fails, Vec::new(alloc))
}

/// A station with the empty log, whose disk calls all fail past so many.
fn stopped_empty(alloc: Global, passes: u64) -> Result<MemStation, NoMemory>
    ensures { IfOk result (λ s. s ≡ ledger_before empty_log [] [] (Some passes)) }
{
    stopped(alloc, &EMPTY, passes)
}

/// A station with the empty log, whose disk call of one number fails.
fn failing_empty(alloc: Global, call: u64) -> Result<MemStation, NoMemory>
    ensures { IfOk result (λ s. s ≡ ledger_before empty_log (call ∷ []) [] None) }
{
    failing(alloc, &EMPTY, call)
}

/// A station with these bytes.
fn station_with(alloc: Global, disk: &[u8]) -> Result<MemStation, NoMemory> {
    MemStation::new(alloc, disk.to_vec(alloc)?, Vec::new(alloc), Vec::new(alloc))
}

/// Adds a group of kind 1, over any station.
fn add_one<T: Station>(station: &mut T, end: LogEnd, body: &[u8]) -> Result<LogEnd, Failed>
    requires log { EndsAt (T.disk station.old) end.at }
    requires synced { Only (T.disk station.old) (T.may_leave station.old) }
{
    append(station, end, 1, body)
}

/// Adds a group of kind 1 to the empty log.
fn add(station: &mut MemStation, body: &[u8]) -> Result<LogEnd, Failed>
    requires { now station.old.past ≡ scene_before empty_log }
{
    add_one(station, LogEnd { at: 16 }, body)
}

/// Adds two groups one after the other, over any station, one that tells nothing of its disk too:
/// what the first leaves is what the second wants.
fn add_two<T: Station>(
    station: &mut T,
    end: LogEnd,
    first: &[u8],
    second: &[u8],
) -> Result<LogEnd, Failed>
    requires log { EndsAt (T.disk station.old) end.at }
    requires synced { Only (T.disk station.old) (T.may_leave station.old) }
{
    let next = append(station, end, 1, first)?;
    append(station, next, 2, second)
}

/// Adds two groups to the empty log.
fn add_both(station: &mut MemStation, first: &[u8], second: &[u8]) -> Result<LogEnd, Failed>
    requires { now station.old.past ≡ scene_before empty_log }
{
    add_two(station, LogEnd { at: 16 }, first, second)
}

/// Whether a log has one group, of kind 1 and of so many bytes, which ends at a place.
fn has_one_group<T: Station>(station: &mut T, length: u64, next: u64) -> bool {
    let whole = Group::Whole {
        kind: 1,
        body: 26,
        length,
        next,
    };
    group_at(station, 16) == Ok(whole) && group_at(station, next) == Ok(Group::Closed)
}

/// Whether an image is the log without its group, where it need not have it, or with it whole.
fn is_without_or_with<T: Station>(image: &mut T, has_it: bool) -> bool {
    has_one_group(image, 27, 53) || (!has_it && group_at(image, 16) == Ok(Group::Closed))
}

/// Whether a station has the empty log.
fn is_empty<T: Station>(station: &mut T) -> bool {
    is_log(station) == Ok(true) && group_at(station, 16) == Ok(Group::Closed)
}

/// Whether an image is what a stop of `init` may leave of some bytes, or the empty log alone.
fn is_old_or_new<T: Station>(
    old: &[u8],
    new: &[u8],
    image: &[u8],
    again: &mut T,
    is_made: bool,
) -> bool {
    if image == new {
        return is_empty(again);
    }
    !is_made && (image == old || image.len() <= 17) && is_log(again) == Ok(false)
}

/// Whether a stop leaves these bytes.
fn leaves(alloc: Global, station: &MemStation, torn: Torn, bytes: &[u8]) -> Result<bool, NoMemory> {
    let image = station.image(alloc, torn)?;
    Ok(image.as_slice() == bytes)
}

/// Whether a station that has no log is made one.
fn is_made<T: Station>(station: &mut T) -> bool {
    is_log(station) == Ok(false)
        && init(station) == Ok(LogEnd { at: 16 })
        && is_log(station) == Ok(true)
}

/// Whether a disk of no bytes is made the empty log.
fn none_is_made(alloc: Global) -> Result<bool, NoMemory> {
    let mut station = station_with(alloc, &[])?;
    Ok(is_made(&mut station) && leaves(alloc, &station, Torn::New, &EMPTY)?)
}

#[test]
fn a_log_is_made(rt: HostRuntime) {
    assert!(rt; none_is_made(rt.alloc()) == Ok(true));
}

/// Whether a group is added to the empty log, and what follows it is no group.
fn adds_the_group(station: &mut MemStation) -> bool
    requires { now station.old.past ≡ scene_before empty_log }
{
    add(station, LINE) == Ok(LogEnd { at: 53 })
        && is_without_or_with(station, true)
        && group_at(station, 54) == Ok(Group::Bad)
}

/// Whether a stop leaves the log with its group.
fn leaves_log(alloc: Global, station: &MemStation) -> Result<bool, NoMemory> {
    Ok(leaves(alloc, station, Torn::New, LOG)? && leaves(alloc, station, Torn::Old, LOG)?)
}

/// Whether the empty log has a group once it is added, as read and as a stop leaves it.
fn the_group_is_added(alloc: Global) -> Result<bool, NoMemory> {
    let mut station = failing_empty(alloc, 99)?;
    Ok(adds_the_group(&mut station) && leaves_log(alloc, &station)?)
}

#[test]
fn a_log_has_a_group(rt: HostRuntime) {
    assert!(rt; the_group_is_added(rt.alloc()) == Ok(true));
}

/// Whether a stop leaves the log without its group, where it need not have it, or with it whole.
fn leaves_whole(
    alloc: Global,
    station: &MemStation,
    torn: Torn,
    has_it: bool,
) -> Result<bool, NoMemory> {
    let mut again = station_with(alloc, &station.image(alloc, torn)?)?;
    Ok(is_without_or_with(&mut again, has_it))
}

/// Whether each stop leaves the log without its group, where it need not have it, or with it whole.
fn each_leaves_whole(alloc: Global, station: &MemStation, has_it: bool) -> Result<bool, NoMemory> {
    for torn in STOPS {
        if !leaves_whole(alloc, station, torn, has_it)? {
            return Ok(false);
        }
    }
    Ok(true)
}

/// Whether an adding of which so many disk calls pass is done exactly where all of them do, and
/// leaves the log without the group or with it.
fn is_added_whole(alloc: Global, passes: u64) -> Result<bool, NoMemory> {
    let mut station = stopped_empty(alloc, passes)?;
    let is_added = add(&mut station, LINE).is_ok();
    Ok(is_added == (passes == APPEND_CALLS) && each_leaves_whole(alloc, &station, is_added)?)
}

#[test]
fn a_stop_leaves_the_log_without_the_group_or_with_it(rt: HostRuntime) {
    let alloc = rt.alloc();
    let other = (0..=APPEND_CALLS).find(|passes| is_added_whole(alloc, *passes) != Ok(true));
    assert_eq!(rt; other, None);
}

/// Whether a stop of `init` leaves what it may of these bytes.
fn leaves_old_or_new(
    alloc: Global,
    old: &[u8],
    station: &MemStation,
    torn: Torn,
    is_made: bool,
) -> Result<bool, NoMemory> {
    let image = station.image(alloc, torn)?;
    let mut again = station_with(alloc, &image)?;
    Ok(is_old_or_new(old, &EMPTY, &image, &mut again, is_made))
}

/// Whether each stop of `init` leaves what it may of these bytes.
fn each_leaves_old_or_new(
    alloc: Global,
    old: &[u8],
    station: &MemStation,
    is_made: bool,
) -> Result<bool, NoMemory> {
    for torn in STOPS {
        if !leaves_old_or_new(alloc, old, station, torn, is_made)? {
            return Ok(false);
        }
    }
    Ok(true)
}

/// Whether a making of which so many disk calls pass is done exactly where all of them do, and
/// leaves the old bytes, or no log, or the empty log.
fn is_made_whole(alloc: Global, old: &[u8], passes: u64) -> Result<bool, NoMemory> {
    let mut station = stopped(alloc, old, passes)?;
    let is_made = init(&mut station).is_ok();
    Ok(is_made == (passes == INIT_CALLS) && each_leaves_old_or_new(alloc, old, &station, is_made)?)
}

#[test]
fn a_stop_of_a_making_leaves_old_bytes_or_no_log_or_the_empty_log(rt: HostRuntime) {
    let alloc = rt.alloc();
    let other = (0..=INIT_CALLS).find(|passes| is_made_whole(alloc, &[7; 5], *passes) != Ok(true));
    assert_eq!(rt; other, None);
}

/// Whether an adding fails where its disk call of one number does.
fn adding_fails(alloc: Global, call: u64) -> Result<bool, NoMemory> {
    let mut station = failing_empty(alloc, call)?;
    Ok(add(&mut station, LINE) == Err(Failed))
}

/// Whether a making fails where its disk call of one number does.
fn making_fails(alloc: Global, call: u64) -> Result<bool, NoMemory> {
    let mut station = failing(alloc, &[], call)?;
    Ok(init(&mut station) == Err(LogFault::Failed))
}

#[test]
fn each_disk_call_that_fails_is_answered(rt: HostRuntime) {
    let alloc = rt.alloc();
    let adding = (1..=APPEND_CALLS).find(|call| adding_fails(alloc, *call) != Ok(true));
    assert_eq!(rt; adding, None);
    let making = (1..=INIT_CALLS).find(|call| making_fails(alloc, *call) != Ok(true));
    assert_eq!(rt; making, None);
}

/// Whether a making on these bytes ends so, and leaves them as they are.
fn is_refused(alloc: Global, disk: &[u8], fault: LogFault) -> Result<bool, NoMemory> {
    let mut station = station_with(alloc, disk)?;
    Ok(init(&mut station) == Err(fault) && leaves(alloc, &station, Torn::New, disk)?)
}

#[test]
fn what_is_a_log_or_too_long_is_no_more_made_one(rt: HostRuntime) {
    assert!(rt; is_refused(rt.alloc(), LOG, LogFault::AlreadyALog) == Ok(true));
    assert!(rt; is_refused(rt.alloc(), &[7; 18], LogFault::NotALog) == Ok(true));
}

/// Whether a disk of these bytes is made a log.
fn is_replaced(alloc: Global, disk: &[u8]) -> Result<bool, NoMemory> {
    let mut station = station_with(alloc, disk)?;
    Ok(init(&mut station) == Ok(LogEnd { at: 16 }))
}

#[test]
fn what_is_short_is_made_a_log(rt: HostRuntime) {
    assert!(rt; is_replaced(rt.alloc(), &[7; 17]) == Ok(true));
}

/// Whether a group of one byte is added behind one of two bytes.
fn two_are_added(alloc: Global) -> Result<bool, NoMemory> {
    let mut station = failing_empty(alloc, 99)?;
    let second = Group::Whole {
        kind: 2,
        body: 38,
        length: 1,
        next: 39,
    };
    Ok(
        add_both(&mut station, b"ab", b"c") == Ok(LogEnd { at: 39 })
            && group_at(&mut station, 28) == Ok(second),
    )
}

#[test]
fn a_group_is_added_behind_another(rt: HostRuntime) {
    assert!(rt; two_are_added(rt.alloc()) == Ok(true));
}

/// Whether a group of these bytes, so many, is added to the empty log, and ends at a place.
fn one_is_added(alloc: Global, body: &[u8], length: u64, next: u64) -> Result<bool, NoMemory> {
    let mut station = failing_empty(alloc, 99)?;
    Ok(
        add(&mut station, body) == Ok(LogEnd { at: next })
            && has_one_group(&mut station, length, next),
    )
}

#[test]
fn a_group_of_no_bytes_is_added(rt: HostRuntime) {
    assert!(rt; one_is_added(rt.alloc(), &[], 0, 26) == Ok(true));
}

#[test]
fn a_large_group_is_added(rt: HostRuntime) -> Result<(), Fail> {
    let many = vec![in rt.alloc(); 7; 33_554_432]?;
    assert!(rt; one_is_added(rt.alloc(), &many, 33_554_432, 33_554_458) == Ok(true));
    Ok(())
}

/// Whether two places of a disk of these bytes have no group.
fn are_bad(alloc: Global, disk: &[u8], first: u64, second: u64) -> Result<bool, NoMemory> {
    let mut station = station_with(alloc, disk)?;
    Ok(
        group_at(&mut station, first) == Ok(Group::Bad)
            && group_at(&mut station, second) == Ok(Group::Bad),
    )
}

#[test]
fn a_length_of_the_greatest_number_is_bad(rt: HostRuntime) {
    let disk = b"\x01SubZero log 1\r\n\x01\x01\xff\xff\xff\xff\xff\xff\xff\xffbytes";
    assert!(rt; are_bad(rt.alloc(), disk, 16, u64::MAX) == Ok(true));
}
