//! How a call of `serve` on a disk in memory ended, and what is on that disk then.
use std::alloc::Global;
use std::sync::{Arc, Wait};
use std::test::Fail;
use std::thread::Threads;
use sz_outside::{MemSource, MemStation, NoGate, Torn};
use sz_session::{Status, serve};

/// How a call ended, what was said, and what a stop may then leave of the disk: what was there at
/// the last sync, what is read there, and this with each byte that is not synced 1.
#[derive(Drop)]
pub struct Ended {
    pub status: Status,
    pub said: Vec<u8>,
    pub synced: Vec<u8>,
    pub read: Vec<u8>,
    pub torn: Vec<u8>,
}

impl Ended {
    /// Whether it ended so, and said this.
    pub fn is(&self, status: Status, said: &[u8]) -> bool {
        self.status == status && self.said.as_slice() == said
    }

    /// Whether the disk is this one, whatever a stop leaves.
    pub fn has(&self, disk: &[u8]) -> bool {
        self.synced.as_slice() == disk
            && self.read.as_slice() == disk
            && self.torn.as_slice() == disk
    }

    /// Whether it ended so, with these bytes said and this disk, whatever a stop leaves.
    pub fn leaves(&self, status: Status, said: &[u8], disk: &[u8]) -> bool {
        self.is(status, said) && self.has(disk)
    }
}

/// What a call is given.
#[derive(Drop)]
struct Bench {
    words: Vec<String>,
    source: MemSource,
    station: MemStation,
    gate: Arc<NoGate>,
}

/// A station with this disk. The disk calls and the says of these numbers fail.
pub fn station_of(
    alloc: Global,
    disk: &[u8],
    disk_fails: &[u64],
    say_fails: &[u64],
) -> Result<MemStation, Fail> {
    let disk = disk.to_vec(alloc)?;
    let fails = disk_fails.to_vec(alloc)?;
    Ok(MemStation::new(alloc, disk, fails, say_fails.to_vec(alloc)?)?)
}

/// A station with this disk, whose calls are all done.
pub fn whole_station(alloc: Global, disk: &[u8]) -> Result<MemStation, Fail> {
    station_of(alloc, disk, &[], &[])
}

/// A source of this text, whose reads are all done.
pub fn whole_source(alloc: Global, text: &[u8]) -> Result<MemSource, Fail> {
    Ok(MemSource::new(text.to_vec(alloc)?, 65_536, Vec::new(alloc)))
}

/// A source with no bytes, whose first read fails.
fn unread_source(alloc: Global) -> Result<MemSource, Fail> {
    Ok(MemSource::new(Vec::new(alloc), 1, vec![in alloc; 1]?))
}

/// These words.
fn words_of(alloc: Global, words: &[&str]) -> Result<Vec<String>, Fail> {
    let mut all = Vec::new(alloc);
    for word in words {
        all.push(String::from_str(alloc, word)?)?;
    }
    Ok(all)
}

/// What a call of these words is given.
fn bench_of(
    alloc: Global,
    words: &[&str],
    source: MemSource,
    station: MemStation,
) -> Result<Bench, Fail> {
    let gate = Arc::new(alloc, NoGate)?;
    let words = words_of(alloc, words)?;
    Ok(Bench {
        words,
        source,
        station,
        gate,
    })
}

/// What a call that ended so left of a station.
fn left_of(alloc: Global, status: Status, station: &MemStation) -> Result<Ended, Fail> {
    Ok(Ended {
        status,
        said: station.said().to_vec(alloc)?,
        synced: station.image(alloc, Torn::Old)?,
        read: station.image(alloc, Torn::New)?,
        torn: station.image(alloc, Torn::Ones)?,
    })
}

/// Serves these words on a source and a station.
fn served<R: Threads + Wait + Clone + Send + Sync + 'static>(
    rt: &R,
    alloc: Global,
    words: &[&str],
    source: MemSource,
    station: MemStation,
) -> Result<Ended, Fail> {
    let mut g = bench_of(alloc, words, source, station)?;
    let status = serve(rt, alloc, &g.words, &mut g.source, &mut g.station, &g.gate);
    left_of(alloc, status, &g.station)
}

/// A session on a source and a station, with one worker.
pub fn ran<R: Threads + Wait + Clone + Send + Sync + 'static>(
    rt: &R,
    alloc: Global,
    source: MemSource,
    station: MemStation,
) -> Result<Ended, Fail> {
    served(
        rt,
        alloc,
        &["run", "log", "--workers", "1"],
        source,
        station,
    )
}

/// Serves a mode that reads nothing on a station.
pub fn served_unread<R: Threads + Wait + Clone + Send + Sync + 'static>(
    rt: &R,
    alloc: Global,
    mode: &str,
    station: MemStation,
) -> Result<Ended, Fail> {
    served(rt, alloc, &[mode, "log"], unread_source(alloc)?, station)
}

/// Serves a mode on a disk, with so many workers and this text as its input, and nothing fails.
pub fn served_by<R: Threads + Wait + Clone + Send + Sync + 'static>(
    rt: &R,
    alloc: Global,
    words: [&str; 2],
    text: &[u8],
    disk: &[u8],
) -> Result<Ended, Fail> {
    let [mode, workers] = words;
    let source = whole_source(alloc, text)?;
    let station = whole_station(alloc, disk)?;
    served(
        rt,
        alloc,
        &[mode, "log", "--workers", workers],
        source,
        station,
    )
}

/// The same with one worker.
pub fn served_on<R: Threads + Wait + Clone + Send + Sync + 'static>(
    rt: &R,
    alloc: Global,
    mode: &str,
    text: &[u8],
    disk: &[u8],
) -> Result<Ended, Fail> {
    served_by(rt, alloc, [mode, "1"], text, disk)
}

/// Whether a mode on a disk, with this text as its input, is done and says this.
pub fn says_on<R: Threads + Wait + Clone + Send + Sync + 'static>(
    rt: &R,
    alloc: Global,
    mode: &str,
    text: &[u8],
    disk: &[u8],
    said: &[u8],
) -> Result<bool, Fail> {
    let ended = served_on(rt, alloc, mode, text, disk)?;
    Ok(ended.is(Status::Done, said))
}

/// A log that holds nothing.
fn empty_log<R: Threads + Wait + Clone + Send + Sync + 'static>(
    rt: &R,
    alloc: Global,
) -> Result<Ended, Fail> {
    let made = served_on(rt, alloc, "init", b"", b"")?;
    if !made.is(Status::Done, b"log ready\n") {
        return Err(Fail::from("no log was made"));
    }
    Ok(made)
}

/// A log that was made, and on which a session of this text was answered.
pub fn log_of<R: Threads + Wait + Clone + Send + Sync + 'static>(
    rt: &R,
    alloc: Global,
    text: &[u8],
) -> Result<Vec<u8>, Fail> {
    let made = empty_log(rt, alloc)?;
    let answered = served_on(rt, alloc, "run", text, &made.read)?;
    if answered.status != Status::Done || !answered.has(&answered.read) {
        return Err(Fail::from("no session on a new log"));
    }
    Ok(answered.read)
}

/// How many lines end in these bytes.
pub fn lines_in(bytes: &[u8]) -> usize {
    let mut count = 0usize;
    for byte in bytes {
        if *byte == b'\n' {
            count = count.saturating_add(1);
        }
    }
    count
}

/// The first lines of a text, so many of them, or as many as end in it.
pub fn first_lines(text: &[u8], count: usize) -> &[u8] {
    let mut end = 0;
    let mut left = count;
    for at in 0..text.len() {
        if left == 0 {
            break;
        }
        if text[at] == b'\n' {
            end = at + 1;
            left = left.saturating_sub(1);
        }
    }
    text.get(..end).unwrap_or(text)
}
