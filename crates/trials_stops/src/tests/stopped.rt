//! Sessions on a new log in which a disk call or a read fails, or behind a disk call of which the
//! machine stops: what was said, and what each image holds that is left of the disk.
use super::ended::{
    Ended, first_lines, lines_in, log_of, ran, served_on, station_of, whole_source, whole_station,
};
use super::rows::{MOVED, REFRESHED, Row, STARS};
use std::alloc::Global;
use std::sync::Wait;
use std::test::Fail;
use std::thread::Threads;
use sz_outside::{MemSource, MemStation};
use sz_session::Status;

/// What a log holds: what the lines that ask say of it, and behind it what a check says. Nothing
/// where the disk is not opened as a log.
fn told<R: Threads + Wait + Clone + Send + Sync + 'static>(
    rt: &R,
    alloc: Global,
    row: &Row,
    disk: &[u8],
) -> Result<Option<Vec<u8>>, Fail> {
    let asked = served_on(rt, alloc, "run", row.asks, disk)?;
    let checked = served_on(rt, alloc, "check", b"", disk)?;
    if asked.status != Status::Done || checked.status != Status::Done {
        return Ok(None);
    }
    let mut all = asked.said;
    all.extend_from_slice(&checked.said)?;
    Ok(Some(all))
}

/// What logs hold on which so many first lines of a row were answered, for each number of lines.
fn told_of_each<R: Threads + Wait + Clone + Send + Sync + 'static>(
    rt: &R,
    alloc: Global,
    row: &Row,
) -> Result<Vec<Vec<u8>>, Fail> {
    let mut each = Vec::new(alloc);
    for count in 0..lines_in(row.text).saturating_add(1) {
        let log = log_of(rt, alloc, first_lines(row.text, count))?;
        each.push(told(rt, alloc, row, &log)?.ok_or("not opened")?)?;
    }
    Ok(each)
}

/// An image, and what it holds.
#[derive(Drop)]
struct Image {
    disk: Vec<u8>,
    told: Vec<u8>,
}

/// A row, what logs hold on which so many of its lines were answered, and the images that were
/// asked so far.
#[derive(Drop)]
struct Held {
    row: Row,
    each: Vec<Vec<u8>>,
    images: Vec<Image>,
}

impl Held {
    /// No image was asked yet.
    fn new<R: Threads + Wait + Clone + Send + Sync + 'static>(
        rt: &R,
        alloc: Global,
        row: Row,
    ) -> Result<Held, Fail> {
        let each = told_of_each(rt, alloc, &row)?;
        Ok(Held {
            row,
            each,
            images: Vec::new(alloc),
        })
    }

    /// Whether something is what a log holds behind so many lines.
    fn is_behind(&self, lines: usize, told: &[u8]) -> bool {
        match self.each.get(lines) {
            Some(held) => held.as_slice() == told,
            None => false,
        }
    }

    /// Whether it is that, or what a log holds behind so many lines more.
    fn is_behind_either(&self, lines: usize, more: usize, told: &[u8]) -> bool {
        self.is_behind(lines, told) || self.is_behind(lines.saturating_add(more), told)
    }

    /// What an image is known to hold, where it was asked before.
    fn known(&self, disk: &[u8]) -> Option<&[u8]> {
        for image in &self.images {
            if image.disk.as_slice() == disk {
                return Some(image.told.as_slice());
            }
        }
        None
    }

    /// Keeps what an image holds.
    fn keep(&mut self, alloc: Global, disk: &[u8], told: Vec<u8>) -> Result<(), Fail> {
        let disk = disk.to_vec(alloc)?;
        self.images.push(Image { disk, told })?;
        Ok(())
    }

    /// Whether each number of lines has a log of its own, but for lines that make nothing durable.
    fn is_telling(&self) -> bool {
        for count in 1..self.each.len() {
            let Some(told) = self.each.get(count) else {
                return false;
            };
            let is_same = self.is_behind(count - 1, told);
            if is_same == self.row.lasting.contains(&count) {
                return false;
            }
        }
        self.is_behind(0, self.row.none) && self.is_behind(lines_in(self.row.text), self.row.all)
    }
}

/// Has an image asked, where it was not asked before. Whether it holds what is durable behind so
/// many lines, or behind so many more.
fn has_either<R: Threads + Wait + Clone + Send + Sync + 'static>(
    rt: &R,
    alloc: Global,
    held: &mut Held,
    disk: &[u8],
    lines: usize,
    more: usize,
) -> Result<bool, Fail> {
    if let Some(told) = held.known(disk) {
        return Ok(held.is_behind_either(lines, more, told));
    }
    let Some(told) = told(rt, alloc, &held.row, disk)? else {
        return Ok(false);
    };
    let is_right = held.is_behind_either(lines, more, &told);
    held.keep(alloc, disk, told)?;
    Ok(is_right)
}

/// Whether a session that was cut short said the replies of its first lines, and each image holds
/// what is durable behind these lines, or behind so many lines more.
fn is_cut_short<R: Threads + Wait + Clone + Send + Sync + 'static>(
    rt: &R,
    alloc: Global,
    held: &mut Held,
    cut: &Ended,
    more: usize,
) -> Result<bool, Fail> {
    let lines = lines_in(&cut.said);
    if cut.said.as_slice() != first_lines(held.row.replies, lines) {
        return Ok(false);
    }
    for disk in [&cut.synced, &cut.read, &cut.torn] {
        if !has_either(rt, alloc, held, disk, lines, more)? {
            return Ok(false);
        }
    }
    Ok(true)
}

/// What happens at the disk calls of a session.
#[derive(Clone, Copy, Debug, Drop)]
enum Trouble {
    /// One fails.
    Fails,
    /// All behind one fail: the machine stopped.
    Stops,
}

/// A station with this disk, of which the call of this number fails, or behind which call the
/// machine stops.
fn station_with(
    alloc: Global,
    disk: &[u8],
    trouble: Trouble,
    call: u64,
) -> Result<MemStation, Fail> {
    match trouble {
        Trouble::Fails => station_of(alloc, disk, &[call], &[]),
        Trouble::Stops => Ok(MemStation::stopped(alloc, disk.to_vec(alloc)?, call)?),
    }
}

/// A row's session on a log, one disk call of which is in trouble.
fn served_in_trouble<R: Threads + Wait + Clone + Send + Sync + 'static>(
    rt: &R,
    alloc: Global,
    row: &Row,
    log: &[u8],
    trouble: Trouble,
    call: u64,
) -> Result<Ended, Fail> {
    let station = station_with(alloc, log, trouble, call)?;
    let source = whole_source(alloc, row.text)?;
    ran(rt, alloc, source, station)
}

/// Whether a session said all replies, and ended well; or else was cut short by its disk.
fn ends_well<R: Threads + Wait + Clone + Send + Sync + 'static>(
    rt: &R,
    alloc: Global,
    held: &mut Held,
    ended: &Ended,
) -> Result<bool, Fail> {
    let is_whole = ended.said.as_slice() == held.row.replies;
    let status = if is_whole {
        Status::Done
    } else {
        Status::DiskFault
    };
    let more = if is_whole { 0 } else { 1 };
    if ended.status != status || !is_cut_short(rt, alloc, held, ended, more)? {
        return Err(Fail::from("neither whole nor cut short"));
    }
    Ok(is_whole)
}

/// How many disk calls of a row's session on a new log can be in trouble. Each is, in turn, until
/// one number more changes nothing, and the session ends as it may.
fn calls_in_trouble<R: Threads + Wait + Clone + Send + Sync + 'static>(
    rt: &R,
    alloc: Global,
    held: &mut Held,
    log: &[u8],
    trouble: Trouble,
    first: u64,
) -> Result<u64, Fail> {
    for call in first..1000 {
        let ended = served_in_trouble(rt, alloc, &held.row, log, trouble, call)?;
        if ends_well(rt, alloc, held, &ended)? {
            return Ok(call - first);
        }
    }
    Err(Fail::new(format_args!("{trouble:?}: no end of disk calls")))
}

/// Has each disk call of a row's session fail, and has the machine stop behind each and before the
/// first. Each line that makes something durable takes eight disk calls or more.
fn is_held<R: Threads + Wait + Clone + Send + Sync + 'static>(
    rt: &R,
    alloc: Global,
    held: &mut Held,
) -> Result<bool, Fail> {
    let log = log_of(rt, alloc, b"")?;
    let fails = calls_in_trouble(rt, alloc, held, &log, Trouble::Fails, 1)?;
    let stops = calls_in_trouble(rt, alloc, held, &log, Trouble::Stops, 0)?;
    Ok(fails == stops && stops / 8 >= held.row.lasting.len() as u64)
}

/// The same, where the lines that ask tell each number of lines from the others.
fn is_safe<R: Threads + Wait + Clone + Send + Sync + 'static>(
    rt: &R,
    alloc: Global,
    row: Row,
) -> Result<bool, Fail> {
    let mut held = Held::new(rt, alloc, row)?;
    Ok(held.is_telling() && is_held(rt, alloc, &mut held)?)
}

#[test]
fn a_disk_that_fails_or_stops_loses_nothing_that_was_said(rt: HostRuntime) -> Result<(), Fail> {
    assert!(rt; is_safe(&rt, rt.alloc(), MOVED)?);
    Ok(())
}

#[test]
fn nor_does_it_lose_stores(rt: HostRuntime) -> Result<(), Fail> {
    assert!(rt; is_safe(&rt, rt.alloc(), STARS)?);
    Ok(())
}

#[test]
fn nor_does_it_lose_what_a_refresh_makes(rt: HostRuntime) -> Result<(), Fail> {
    assert!(rt; is_safe(&rt, rt.alloc(), REFRESHED)?);
    Ok(())
}

/// A source of a row's lines with reads of 16 bytes, of which the one of this number fails.
fn source_with(alloc: Global, row: &Row, read: u64) -> Result<MemSource, Fail> {
    let fails = vec![in alloc; read]?;
    Ok(MemSource::new(row.text.to_vec(alloc)?, 16, fails))
}

/// The session of a row on a log, of which the read of this number fails.
fn served_at_read<R: Threads + Wait + Clone + Send + Sync + 'static>(
    rt: &R,
    alloc: Global,
    row: &Row,
    log: &[u8],
    read: u64,
) -> Result<Ended, Fail> {
    let source = source_with(alloc, row, read)?;
    let station = whole_station(alloc, log)?;
    ran(rt, alloc, source, station)
}

/// Whether the read behind so many fails with each line that ends in what was read before answered
/// and kept, whatever a stop leaves.
fn is_kept_at<R: Threads + Wait + Clone + Send + Sync + 'static>(
    rt: &R,
    alloc: Global,
    held: &mut Held,
    log: &[u8],
    place: usize,
) -> Result<bool, Fail> {
    let read = (place as u64).saturating_add(1);
    let cut = served_at_read(rt, alloc, &held.row, log, read)?;
    let before = held.row.text.get(..place.saturating_mul(16));
    let lines = lines_in(before.unwrap_or(held.row.text));
    let said = first_lines(held.row.replies, lines);
    Ok(cut.leaves(Status::ReadFault, said, &cut.read) && is_cut_short(rt, alloc, held, &cut, 0)?)
}

/// The first place of a row's reads at which that is not so, if any is.
fn first_not_kept<R: Threads + Wait + Clone + Send + Sync + 'static>(
    rt: &R,
    alloc: Global,
    row: Row,
) -> Result<Option<usize>, Fail> {
    let log = log_of(rt, alloc, b"")?;
    let mut held = Held::new(rt, alloc, row)?;
    let reads = row.text.len().div_ceil(16).saturating_add(1); // the last one gives nothing
    for place in 0..reads {
        if !is_kept_at(rt, alloc, &mut held, &log, place)? {
            return Ok(Some(place));
        }
    }
    Ok(None)
}

/// Each read in turn: whenever one is made, each line that ends in what was read before has its
/// reply, and what it makes durable is in the log, whatever a stop leaves.
#[test]
fn a_read_finds_each_line_before_it_answered_and_kept(rt: HostRuntime) -> Result<(), Fail> {
    assert_eq!(rt; first_not_kept(&rt, rt.alloc(), MOVED)?, None);
    Ok(())
}
