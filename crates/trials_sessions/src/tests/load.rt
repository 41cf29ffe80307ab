//! Generated sessions: one line, the same of each number of workers and each time.
use super::play::{Outcome, served};
use std::alloc::Global;
use std::sync::Wait;
use std::test::Fail;
use std::thread::Threads;
use sz_outside::MemSource;
use sz_session::Status;

/// How `serve` ends with these words, and what is said. The says of these numbers fail.
fn ends<R: Threads + Wait + Clone + Send + Sync + 'static>(
    rt: &R,
    alloc: Global,
    words: &[&str],
    say_fails: &[u64],
) -> Result<Outcome, Fail> {
    let source = MemSource::new(Vec::new(alloc), 1, Vec::new(alloc));
    served(rt, alloc, words, source, say_fails)
}

#[test]
fn a_generated_session_says_one_line(rt: HostRuntime) -> Result<(), Fail> {
    let alloc = rt.alloc();
    let one = ends(&rt, alloc, &["load", "--side", "3", "--workers", "1"], &[])?;
    let eight = ends(&rt, alloc, &["load", "--side", "3", "--workers", "8"], &[])?;
    assert!(rt; one.begins(b"load seed 1 side 3 lines 42 sha256 "));
    assert!(rt; one.is_as(&eight));
    Ok(())
}

#[test]
fn a_line_that_cannot_be_said_is_a_fault(rt: HostRuntime) -> Result<(), Fail> {
    let faulty = ends(&rt, rt.alloc(), &["load", "--side", "1"], &[1])?;
    assert!(rt; faulty.is(Status::SayFault, b""));
    Ok(())
}

/// Words whose number is past its limits.
const PAST: [[&str; 3]; 3] = [
    ["play", "--workers", "0"],
    ["load", "--side", "0"],
    ["load", "--side", "513"],
];

#[test]
fn numbers_past_their_limits_are_refused(rt: HostRuntime) -> Result<(), Fail> {
    for words in PAST {
        let ended = ends(&rt, rt.alloc(), &words, &[])?;
        assert!(rt; ended.is(Status::Usage, b""), "{}", words[2]);
    }
    Ok(())
}
