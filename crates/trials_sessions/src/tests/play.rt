//! Whole sessions: each row is a text, and the replies that are said of it.
ghost use Rattle.std.specs.Prelude.{◌≤◌};

use std::alloc::{AllocError, Global};
use std::sync::{Arc, Wait};
use std::test::Fail;
use std::thread::Threads;
use sz_outside::{MemSource, MemStation, NoGate, Source, SteadySource};
use sz_session::{Status, serve};

/// The smallest session.
const TEXT: &[u8] = b"{\"array\":\"a\",\"cells\":[[5]]}
{\"flow\":\"f\",\"inputs\":1,\"nodes\":[{\"op\":\"neg\",\"from\":[{\"i\":0}]}]}
{\"start\":\"f\",\"base\":[[\"a\",1]]}
{\"await\":1}
{\"ask\":1,\"dir\":\"back\",\"path\":[[0,0]],\"cells\":[[0,0]]}
";

/// Its replies.
const REPLIES: &[u8] = b"1 array a 1\n2 flow f\n3 started 1\n4 done 1\n5 cells 1 0,0\n";

/// How a session ended, and what was said by then.
#[derive(Drop)]
pub struct Outcome {
    status: Status,
    said: Vec<u8>,
}

impl Outcome {
    /// Whether it ended so, and said this.
    pub fn is(&self, status: Status, said: &[u8]) -> bool {
        self.status == status && self.said.as_slice() == said
    }

    /// Whether it was done, and said these replies.
    pub fn is_done(&self, replies: &[u8]) -> bool {
        self.is(Status::Done, replies)
    }

    /// Whether it was done, and what it said begins so.
    pub fn begins(&self, front: &[u8]) -> bool {
        self.status == Status::Done && self.said.starts_with(front)
    }

    /// Whether it ended as another did, and said the same.
    pub fn is_as(&self, other: &Outcome) -> bool {
        self.is(other.status, &other.said)
    }

    /// Whether it ended so, and said the first so many bytes of the smallest session's replies.
    fn is_cut(&self, status: Status, bytes: usize) -> bool {
        self.status == status && Some(self.said.as_slice()) == REPLIES.get(..bytes)
    }
}

/// What a call is given.
#[derive(Drop)]
struct Bench {
    gate: Arc<NoGate>,
    words: Vec<String>,
    source: MemSource,
    station: MemStation,
}

/// These words.
pub fn words_of(alloc: Global, words: &[&str]) -> Result<Vec<String>, Fail> {
    let mut all = Vec::new(alloc);
    for word in words {
        all.push(String::from_str(alloc, word)?)?;
    }
    Ok(all)
}

/// A station without a disk, whose says of these numbers fail.
pub fn station_of(alloc: Global, say_fails: &[u64]) -> Result<MemStation, Fail> {
    let fails = say_fails.to_vec(alloc)?;
    Ok(MemStation::new(alloc, Vec::new(alloc), Vec::new(alloc), fails)?)
}

/// What a call of these words is given.
fn bench_of(
    alloc: Global,
    words: &[&str],
    source: MemSource,
    say_fails: &[u64],
) -> Result<Bench, Fail> {
    let gate = Arc::new(alloc, NoGate)?;
    let words = words_of(alloc, words)?;
    let station = station_of(alloc, say_fails)?;
    Ok(Bench {
        gate,
        words,
        source,
        station,
    })
}

/// Serves these words on a source. The says of these numbers fail.
pub fn served<R: Threads + Wait + Clone + Send + Sync + 'static>(
    rt: &R,
    alloc: Global,
    words: &[&str],
    source: MemSource,
    say_fails: &[u64],
) -> Result<Outcome, Fail> {
    let mut g = bench_of(alloc, words, source, say_fails)?;
    let status = serve(rt, alloc, &g.words, &mut g.source, &mut g.station, &g.gate);
    let said = g.station.said().to_vec(alloc)?;
    Ok(Outcome { status, said })
}

/// Plays a session of this text, of which a read gives at most so many bytes. The reads and the
/// says of these numbers fail.
pub fn session<R: Threads + Wait + Clone + Send + Sync + 'static>(
    rt: &R,
    alloc: Global,
    text: Vec<u8>,
    chunk: u32,
    read_fails: &[u64],
    say_fails: &[u64],
) -> Result<Outcome, Fail>
    requires { 1 ≤ chunk }
{
    let source = MemSource::new(text, chunk, read_fails.to_vec(alloc)?);
    served(rt, alloc, &["play"], source, say_fails)
}

/// Plays the smallest session so.
fn smallest<R: Threads + Wait + Clone + Send + Sync + 'static>(
    rt: &R,
    alloc: Global,
    chunk: u32,
    read_fails: &[u64],
    say_fails: &[u64],
) -> Result<Outcome, Fail>
    requires { 1 ≤ chunk }
{
    session(rt, alloc, TEXT.to_vec(alloc)?, chunk, read_fails, say_fails)
}

#[test]
fn chunks_of_any_size_say_the_same(rt: HostRuntime) -> Result<(), Fail> {
    for chunk in [1u32, 2, 3, 16, 65_536] {
        let played = smallest(&rt, rt.alloc(), chunk.max(1), &[], &[])?;
        assert!(rt; played.is_done(REPLIES), "chunks of {chunk}");
    }
    Ok(())
}

/// Of each read in turn, with reads of 16 bytes: as many bytes as the whole lines before it have
/// replies.
#[test]
fn a_read_that_fails_leaves_the_replies_of_whole_lines(rt: HostRuntime) -> Result<(), Fail> {
    let mut read = 0u64;
    for bytes in [0usize, 0, 12, 12, 12, 12, 21, 21, 33, 42, 42, 42, 56] {
        read = read.saturating_add(1);
        let played = smallest(&rt, rt.alloc(), 16, &[read], &[])?;
        assert!(rt; played.is_cut(Status::ReadFault, bytes), "read {read}");
    }
    Ok(())
}

/// Three lines that are no JSON and are 50,002 bytes long.
fn long_lines(alloc: Global) -> Result<String, AllocError> {
    let blanks = " ".repeat(alloc, 50_000)?;
    format!(in alloc; "{{{blanks}\n{{{blanks}\n{{{blanks}\n")
}

/// The eighth read of 16,384 bytes, past 100,000, fails once, and would give the rest if it were
/// tried again.
#[test]
fn a_late_read_that_fails_is_not_tried_again(rt: HostRuntime) -> Result<(), Fail> {
    let text = long_lines(rt.alloc())?;
    let played = session(&rt, rt.alloc(), text.into_bytes(), 16_384, &[8], &[])?;
    assert!(rt; played.is(Status::ReadFault, b"1 refused 1\n2 refused 1\n"));
    Ok(())
}

/// Of each say in turn; a session has no sixth.
#[test]
fn a_say_that_fails_leaves_the_replies_before_it(rt: HostRuntime) -> Result<(), Fail> {
    let mut say = 0u64;
    for bytes in [0usize, 12, 21, 33, 42] {
        say = say.saturating_add(1);
        let played = smallest(&rt, rt.alloc(), 16, &[], &[say])?;
        assert!(rt; played.is_cut(Status::SayFault, bytes), "say {say}");
    }
    let played = smallest(&rt, rt.alloc(), 16, &[14], &[6])?;
    assert!(rt; played.is_done(REPLIES));
    Ok(())
}

/// Whether these words are none of a mode.
fn is_usage<R: Threads + Wait + Clone + Send + Sync + 'static>(
    rt: &R,
    alloc: Global,
    words: &[&str],
    source: &mut SteadySource,
    station: &mut MemStation,
) -> Result<bool, Fail> {
    let gate = Arc::new(alloc, NoGate)?;
    let words = words_of(alloc, words)?;
    Ok(serve(rt, alloc, &words, source, station, &gate) == Status::Usage)
}

/// Whether all of these are.
fn are_usage<R: Threads + Wait + Clone + Send + Sync + 'static>(
    rt: &R,
    alloc: Global,
    lines: &[&[&str]],
    source: &mut SteadySource,
    station: &mut MemStation,
) -> Result<bool, Fail> {
    for words in lines {
        if !is_usage(rt, alloc, words, source, station)? {
            return Ok(false);
        }
    }
    Ok(true)
}

#[test]
fn other_words_read_nothing(rt: HostRuntime) -> Result<(), Fail> {
    let alloc = rt.alloc();
    let mut source = SteadySource::new(TEXT.to_vec(alloc)?, 100);
    let mut station = station_of(alloc, &[])?;
    let lines = [["Play"].as_slice(), &[], &["play", "x"]];
    assert!(rt; are_usage(&rt, alloc, &lines, &mut source, &mut station)?);
    assert!(rt; station.said().is_empty());
    assert_eq!(rt; source.read(&mut [0; 4]), Ok(4));
    Ok(())
}

#[test]
fn statuses_have_their_numbers(rt: HostRuntime) {
    assert_eq!(rt; Status::Done.number(), 0);
    assert_eq!(rt; Status::Usage.number(), 1);
    assert_eq!(rt; Status::ReadFault.number(), 2);
    assert_eq!(rt; Status::SayFault.number(), 3);
    assert_eq!(rt; Status::BadLog { at: 16 }.number(), 7);
    assert_eq!(rt; Status::NoMemory.number(), 8);
    assert_eq!(rt; Status::InputLimit.number(), 9);
}
