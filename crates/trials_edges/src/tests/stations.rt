//! Each form of a station once on its happy path, through its trait, and what no clause says: that
//! a call can succeed, and what the real streams do.

use super::sources::need_send;
use std::alloc::Global;
use std::fs::{self, File};
use std::io;
use std::test::Fail;
use sz_outside::{Failed, FileStation, MemStation, NoMemory, Station, Torn};

fn say_to<S: Station>(station: &mut S, bytes: &[u8]) -> Result<(), Failed> {
    station.say(bytes)
}

/// A station of no bytes, to which the second line cannot be said.
fn failing_to_say(alloc: Global) -> Result<MemStation, NoMemory> {
    let say_fails = [2].to_vec(alloc)?;
    MemStation::new(alloc, Vec::new(alloc), Vec::new(alloc), say_fails)
}

/// Whether three lines are said to a station, of which the second fails.
fn says_all_but_the_second<S: Station>(station: &mut S) -> bool {
    say_to(station, b"1 done\n") == Ok(())
        && say_to(station, b"2 done\n") == Err(Failed)
        && say_to(station, b"3 done\n") == Ok(())
}

/// Whether a station to which nothing is said keeps the lines that are, and no other.
fn keeps_what_is_said(station: &mut MemStation) -> bool {
    station.said().is_empty()
        && says_all_but_the_second(station)
        && station.said() == b"1 done\n3 done\n".as_slice()
}

#[test]
fn a_station_keeps_what_is_said(rt: HostRuntime) -> Result<(), Fail> {
    let mut station = failing_to_say(rt.alloc())?;
    need_send(&station);
    assert!(rt; keeps_what_is_said(&mut station));
    Ok(())
}

/// A call that a test makes on a disk.
#[derive(Clone, Copy)]
enum Call<'a> {
    Write(u64, &'a [u8]),
    Cut(u64),
    Sync,
}

/// Makes a call on a disk, where its place is one.
fn call_disk<S: Station>(station: &mut S, call: Call<'_>) -> Result<(), Failed> {
    let size = station.size()?;
    match call {
        Call::Write(at, bytes) => {
            if at <= size {
                return station.write_at(at, bytes);
            }
        }
        Call::Cut(to) => {
            if to <= size {
                return station.cut(to);
            }
        }
        Call::Sync => return station.sync(),
    }
    Err(Failed)
}

/// Whether calls on a disk are made.
fn are_made<S: Station>(station: &mut S, calls: &[Call<'_>]) -> bool {
    for call in calls {
        if call_disk(station, *call) != Ok(()) {
            return false;
        }
    }
    true
}

/// Whether a disk has this size.
fn has_size<S: Station>(station: &mut S, size: u64) -> bool {
    station.size() == Ok(size)
}

/// Whether a reading of a disk from a place on gives so many bytes, after which the room for them
/// holds these.
fn fills<S: Station>(station: &mut S, at: u64, into: &mut [u8], count: usize, held: &[u8]) -> bool {
    station.read_at(at, into) == Ok(count) && *into == *held
}

/// Whether a disk of at most 16 bytes reads as these, and has no byte behind place 16.
fn reads_as<S: Station>(station: &mut S, bytes: &[u8]) -> Result<bool, Failed> {
    let mut into = [0; 16];
    let read = station.read_at(0, &mut into)?;
    let past = station.read_at(17, &mut [0; 4])?;
    Ok(past == 0 && &into[..read] == bytes)
}

/// Whether a stop leaves this image.
fn has_image(
    station: &MemStation,
    alloc: Global,
    torn: Torn,
    image: &[u8],
) -> Result<bool, NoMemory> {
    Ok(station.image(alloc, torn)?.as_slice() == image)
}

/// Whether a stop leaves these images.
fn has_images(station: &MemStation, alloc: Global, images: [&[u8]; 3]) -> Result<bool, NoMemory> {
    Ok(
        has_image(station, alloc, Torn::Old, images[0])?
            && has_image(station, alloc, Torn::New, images[1])?
            && has_image(station, alloc, Torn::Ones, images[2])?,
    )
}

/// Whether calls are made, and a stop then leaves these images, of which the disk reads as the
/// second.
fn leaves(
    station: &mut MemStation,
    alloc: Global,
    calls: &[Call<'_>],
    images: [&[u8]; 3],
) -> Result<bool, Fail> {
    for call in calls {
        call_disk(station, *call)?;
    }
    Ok(reads_as(station, images[1])? && has_images(station, alloc, images)?)
}

/// Whether a stop leaves a disk of four bytes as it is, and then one with two bytes written over
/// its last, torn or not.
fn is_torn_by_writing(station: &mut MemStation, alloc: Global) -> Result<bool, Fail> {
    let same: &[u8] = &[5, 6, 7, 8];
    let images = [same, &[5, 6, 7, 20, 21], &[5, 6, 7, 1, 1]];
    Ok(
        leaves(station, alloc, &[], [same; 3])?
            && leaves(station, alloc, &[Call::Write(3, &[20, 21])], images)?,
    )
}

/// Whether the same disk is cut and written to, and torn in both places.
fn is_torn_by_cutting(station: &mut MemStation, alloc: Global) -> Result<bool, Fail> {
    let calls = [Call::Cut(4), Call::Write(0, &[30])];
    let images: [&[u8]; 3] = [&[5, 6, 7, 8], &[30, 6, 7, 20], &[1, 6, 7, 1]];
    leaves(station, alloc, &calls, images)
}

/// Whether a stop leaves the same disk as it is once it is synced.
fn is_whole_behind_a_sync(station: &mut MemStation, alloc: Global) -> Result<bool, Fail> {
    let synced: &[u8] = &[30, 6, 7, 20];
    leaves(station, alloc, &[Call::Sync], [synced; 3])
}

/// A station with this disk, whose disk calls of these numbers fail.
fn failing(alloc: Global, disk: &[u8], fails: &[u64]) -> Result<MemStation, NoMemory> {
    let disk = disk.to_vec(alloc)?;
    MemStation::new(alloc, disk, fails.to_vec(alloc)?, Vec::new(alloc))
}

/// Whether a disk of four bytes is torn by a writing and by a cut, and no more once it is synced.
fn is_torn_until_it_is_synced(alloc: Global) -> Result<bool, Fail> {
    let mut station = failing(alloc, &[5, 6, 7, 8], &[])?;
    Ok(
        is_torn_by_writing(&mut station, alloc)?
            && is_torn_by_cutting(&mut station, alloc)?
            && is_whole_behind_a_sync(&mut station, alloc)?,
    )
}

#[test]
fn a_disk_is_torn_until_it_is_synced(rt: HostRuntime) -> Result<(), Fail> {
    assert!(rt; is_torn_until_it_is_synced(rt.alloc())?);
    Ok(())
}

/// Whether no byte of a disk is read, nor its size.
fn reads_nothing<S: Station>(station: &mut S) -> bool {
    station.size() == Err(Failed) && station.read_at(0, &mut [0; 2]) == Err(Failed)
}

/// Whether no call that changes a disk is done.
fn changes_nothing<S: Station>(station: &mut S) -> bool {
    station.cut(0) == Err(Failed) && station.sync() == Err(Failed)
}

/// A station with this disk, whose disk calls all fail past so many.
fn stopped(alloc: Global, disk: &[u8], passes: u64) -> Result<MemStation, NoMemory> {
    MemStation::stopped(alloc, disk.to_vec(alloc)?, passes)
}

/// Whether a writing of two bytes at place 1 fails.
fn fails_to_write<S: Station>(station: &mut S) -> bool {
    call_disk(station, Call::Write(1, &[9, 9])) == Err(Failed)
}

/// Whether a stop leaves a disk of two bytes as it was, or with its second byte torn.
fn has_second_torn(station: &MemStation, alloc: Global) -> Result<bool, NoMemory> {
    Ok(
        has_image(station, alloc, Torn::New, &[5, 6])?
            && has_image(station, alloc, Torn::Ones, &[5, 1])?,
    )
}

/// Whether no call changes a disk of two bytes whose second is torn.
fn stays_torn(station: &mut MemStation, alloc: Global) -> Result<bool, NoMemory> {
    Ok(changes_nothing(station) && has_image(station, alloc, Torn::Ones, &[5, 1])?)
}

/// Whether a writing that fails as the machine stops tears the disk, and no call then changes it.
fn is_torn_by_a_stop(alloc: Global) -> Result<bool, NoMemory> {
    let mut station = stopped(alloc, &[5, 6], 1)?;
    Ok(
        fails_to_write(&mut station)
            && has_second_torn(&station, alloc)?
            && stays_torn(&mut station, alloc)?,
    )
}

/// Whether two disk calls that fail, and are no writing, are answered.
fn is_not_read(alloc: Global) -> Result<bool, NoMemory> {
    let mut station = failing(alloc, &[5, 6], &[1, 2])?;
    Ok(reads_nothing(&mut station))
}

#[test]
fn a_disk_call_that_fails_may_tear_the_disk(rt: HostRuntime) -> Result<(), Fail> {
    assert!(rt; is_not_read(rt.alloc())?);
    assert!(rt; is_torn_by_a_stop(rt.alloc())?);
    Ok(())
}

fn numbers(alloc: Global) -> Result<Vec<u64>, NoMemory> {
    let mut numbers = [1].to_vec(alloc)?;
    numbers.push(2)?;
    Ok(numbers)
}

#[test]
fn want_of_memory_is_passed_on_by_a_question_mark(rt: HostRuntime) -> Result<(), Fail> {
    assert_eq!(rt; numbers(rt.alloc())?.as_slice(), [1, 2].as_slice());
    Ok(())
}

#[test]
fn the_real_output_is_said_to_with_no_file(rt: HostRuntime) {
    let mut station = FileStation::closed(&rt);
    need_send(&station);
    assert_eq!(rt; say_to(&mut station, b"said\n"), Ok(()));
    assert!(rt; reads_nothing(&mut station));
    assert_eq!(rt; station.write_at(0, b"x"), Err(Failed));
    assert!(rt; changes_nothing(&mut station));
}

/// A file of no bytes at a path, which is read and written to.
fn new_file(rt: &HostRuntime, path: &str) -> io::Result<File> {
    File::options()
        .read(true)
        .write(true)
        .create(true)
        .truncate(true)
        .open(rt, path)
}

/// Whether two writings on a disk of no bytes are read behind its second byte.
fn is_written_to<S: Station>(station: &mut S) -> bool {
    are_made(
        station,
        &[Call::Write(0, b"lineage"), Call::Write(3, b"ked")],
    ) && has_size(station, 7)
        && fills(station, 2, &mut [0; 8], 5, b"nkede\0\0\0")
}

/// Whether the same disk is cut and synced, and nothing is read behind its end.
fn is_cut<S: Station>(station: &mut S) -> bool {
    are_made(station, &[Call::Cut(4), Call::Sync])
        && fills(station, 0, &mut [0; 2], 2, b"li")
        && fills(station, 9, &mut [0; 8], 0, &[0; 8])
}

/// Whether nothing is written where it would end too far behind.
fn has_a_limit(station: &mut FileStation) -> bool {
    station.write_at(1 << 62, b"x") == Err(Failed)
}

/// Whether a station over a file of no bytes is a disk.
fn is_disk(station: &mut FileStation) -> bool {
    is_written_to(station) && is_cut(station) && has_a_limit(station)
}

/// Whether a file is made at a path, and a station over it is a disk.
fn is_disk_at(rt: &HostRuntime, path: &str) -> io::Result<bool> {
    let file = new_file(rt, path)?;
    let mut station = FileStation::over(rt, file);
    Ok(is_disk(&mut station))
}

#[test]
fn a_real_file_is_a_disk(rt: HostRuntime) -> Result<(), Fail> {
    let path = "sz_outside_test_disk";
    assert!(rt; is_disk_at(&rt, path)?);
    assert_eq!(rt; fs::read(&rt, path)?.as_slice(), b"link".as_slice());
    fs::remove_file(&rt, path)?;
    Ok(())
}
