//! The limit of bytes, met at ten of them.
ghost use Rattle.std.specs.Prelude.{◌≤◌};

use super::{Status, play};
use std::alloc::Global;
use std::sync::{Arc, Wait};
use std::test::Fail;
use std::thread::Threads;
use sz_outside::{MemStation, NoGate, SteadySource};
use sz_words::{Job, JobMode};

/// Whether a session of at most ten bytes of this text ends so, and says so many replies to lines
/// that are no JSON.
fn ends<R: Threads + Wait + Clone + Send + Sync + 'static>(
    rt: &R,
    alloc: Global,
    text: &[u8],
    status: Status,
    replies: usize,
) -> Result<bool, Fail> {
    let mut source = SteadySource::new(text.to_vec(alloc)?, 4);
    let mut station = MemStation::new(alloc, Vec::new(alloc), Vec::new(alloc), Vec::new(alloc))?;
    let job = Job {
        mode: JobMode::Play,
        workers: 1,
        askers: 1,
        seed: 1,
        side: 1,
    };
    let gate = Arc::new(alloc, NoGate)?;
    let ended = play(rt, alloc, job, &mut source, &mut station, &gate, 10);
    let all = b"1 refused 1\n2 refused 1\n3 refused 1\n4 refused 1\n5 refused 1\n";
    Ok(ended == status && Some(station.said()) == all.get(..replies.saturating_mul(12)))
}

#[test]
fn ten_bytes_are_read_and_not_eleven(rt: HostRuntime) -> Result<(), Fail> {
    let alloc = rt.alloc();
    assert!(rt; ends(&rt, alloc, b"{\n{\n{\n{\n{\n", Status::Done, 5)?);
    assert!(rt; ends(&rt, alloc, b"{\n{\n{\n{\n{\n{", Status::InputLimit, 5)?);
    assert!(rt; ends(&rt, alloc, b"{\n{\n{\n{\n{{", Status::Done, 5)?);
    assert!(rt; ends(&rt, alloc, b"{\n{\n{\n{\n{{\n", Status::InputLimit, 4)?);
    Ok(())
}
