//! That each mode's words are read, that refused ones are, and that the longest are.
//!
//! Which job, place or fault words have is proved, where the call ends well, and rows of
//! `proofs/Rows.antt` have it worked by hand. No clause says that there is memory for it, so each
//! kind of answer is met here once.

use std::alloc::{AllocError, Global};
use sz_words::{Job, JobMode, LogPlace, NoMemory, WordsFault, log_place, read_words};

/// A word of a line, where `_` stands for the empty word.
fn word_of(alloc: Global, word: &str) -> Result<String, AllocError> {
    String::from_str(alloc, if word == "_" { "" } else { word })
}

/// The words of a line, apart at each blank.
fn words_of(alloc: Global, line: &str) -> Result<Vec<String>, AllocError> {
    let mut words = Vec::new(alloc);
    for word in line.split(' ') {
        if !word.is_empty() {
            words.push(word_of(alloc, word)?)?;
        }
    }
    Ok(words)
}

fn job_of(alloc: Global, line: &str) -> Result<Job, WordsFault> {
    let words = words_of(alloc, line)?;
    read_words(alloc, words.as_slice())
}

fn place_of(alloc: Global, line: &str) -> Result<Option<LogPlace>, NoMemory> {
    let words = words_of(alloc, line)?;
    log_place(alloc, words.as_slice())
}

fn job(mode: JobMode, workers: u32, askers: u32, seed: u32, side: u32) -> Job {
    Job {
        mode,
        workers,
        askers,
        seed,
        side,
    }
}

/// Lines of the words of each mode.
const READ: [&str; 6] = [
    "play",
    "init dir/x",
    "run _ --workers 2",
    "--askers=5 check x",
    "upgrade x",
    "load --seed 7 --side 8",
];

/// Whether the words of a line have a job, and a place or none.
fn is_read(alloc: Global, line: &str) -> bool {
    job_of(alloc, line).is_ok() && place_of(alloc, line).is_ok()
}

#[test]
fn reads_the_words_of_each_mode(rt: HostRuntime) {
    for line in READ {
        assert!(rt; is_read(rt.alloc(), line), "{line}");
    }
}

/// Lines of words that are refused.
const REFUSED: [&str; 13] = [
    "",
    "fly",
    "play x",
    "run",
    "run a b",
    "upgrade",
    "upgrade a b",
    "play --workers 2 --workers 3",
    "play --workers 65",
    "play --workers",
    "-x play",
    "--help",
    "--version",
];

/// Whether the words of a line are refused, and have no place.
fn is_refused(alloc: Global, line: &str) -> bool {
    job_of(alloc, line) == Err(WordsFault::Usage) && matches!(place_of(alloc, line), Ok(None))
}

#[test]
fn refuses_words(rt: HostRuntime) {
    for line in REFUSED {
        assert!(rt; is_refused(rt.alloc(), line), "{line}");
    }
}

/// A line that names a log by a path of so many bytes, with every option at its greatest number.
fn longest_line(alloc: Global, path_length: u32) -> Result<String, AllocError> {
    let mut line = String::from_str(alloc, "init ")?;
    for _ in 0..path_length {
        line.push('x')?;
    }
    line.push_str(" --workers 64 --askers 64 --seed 4294967295 --side 512")?;
    Ok(line)
}

/// Whether each byte is an `x`.
fn is_of_x(bytes: &[u8]) -> bool {
    for byte in bytes {
        if *byte != b'x' {
            return false;
        }
    }
    true
}

/// Whether a place is one to make, at a path of so many bytes `x`.
fn is_place(place: &LogPlace, length: usize) -> bool {
    place.make && place.path.len() == length && is_of_x(place.path.as_bytes())
}

/// Whether a line has a place to make, at a path of so many bytes `x`.
fn has_place(alloc: Global, line: &str, length: usize) -> bool {
    match place_of(alloc, line) {
        Ok(Some(place)) => is_place(&place, length),
        _ => false,
    }
}

/// Whether the longest line of a path of so many bytes has its job and its place.
fn is_longest_read(alloc: Global, length: u32) -> Result<bool, AllocError> {
    let line = longest_line(alloc, length)?;
    Ok(
        job_of(alloc, line.as_str()) == Ok(job(JobMode::Init, 64, 64, 4294967295, 512))
            && has_place(alloc, line.as_str(), length as usize),
    )
}

#[test]
fn reads_a_place_of_4096_bytes(rt: HostRuntime) {
    assert!(rt; is_longest_read(rt.alloc(), 4096) == Ok(true));
}
