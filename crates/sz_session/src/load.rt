//! Mode load: the generated session, taken from memory, and the one line that sums up its replies.
//!
//! Its lines go through a [`Feed`], like those of a source, and the replies are said to a station
//! that gathers them (`gathering`).
ghost use Rattle.std.specs.Prelude.{◌≡◌};
ghost use Rattle.sz_session.specs.Terms.{IfOk, transcript, lines_in, load_line, nothing_held};
ghost use Rattle.sz_session.specs.Terms.{SaysSummary, AreCounted, OnlySays, IsInRange};

use crate::gathering::told_by;
use crate::serving::Status;
use crate::staff::Staff;
use std::alloc::Global;
use std::sync::{Arc, Wait};
use std::thread::Threads;
use sz_feed::{Feed, Halt};
use sz_gen::{session_text, summary_text};
use sz_outside::{Failed, Gate, Station};
use sz_words::Job;

/// Says the line that sums up the session of the job's seed and side.
pub(crate) fn load<
    T: Station,
    G: Gate + 'static,
    R: Threads + Wait + Clone + Send + Sync + 'static,
>(rt: &R, alloc: Global, job: Job, station: &mut T, gate: &Arc<G>) -> Status
    requires { IsInRange job }
    ensures ends { SaysSummary result (load_line job) (T.said station.old) (T.said station.new) }
    ensures counted { AreCounted T.Station result 0 0 station.old station.new }
    ensures disk { OnlySays T.Station (load_line job) station.old station.new }
{
    let Ok(line) = summary(rt, alloc, job, gate) else {
        return Status::NoMemory;
    };
    match station.say(&line) {
        Ok(()) => Status::Done,
        Err(Failed) => Status::SayFault,
    }
}

/// The line that sums up the session. The text is held until its replies are found, and they until
/// the line is made. It halts only where there is no memory.
fn summary<G: Gate + 'static, R: Threads + Wait + Clone + Send + Sync + 'static>(
    rt: &R,
    alloc: Global,
    job: Job,
    gate: &Arc<G>,
) -> Result<Vec<u8>, Halt>
    requires { IsInRange job }
    ensures { IfOk result (λ line. line.items ≡ load_line job) }
{
    let Ok(text) = session_text(alloc, job.seed, job.side) else {
        return Err(Halt::NoMemory);
    };
    let replies = replies_to(rt, alloc, job, &text, gate)?;
    let lines = lines_in(&replies);
    let Ok(line) = summary_text(alloc, job.seed, job.side, lines, &replies) else {
        return Err(Halt::NoMemory);
    };
    Ok(line)
}

/// All that a session from nothing says of a text, with workers beside it.
fn replies_to<G: Gate + 'static, R: Threads + Wait + Clone + Send + Sync + 'static>(
    rt: &R,
    alloc: Global,
    job: Job,
    text: &[u8],
    gate: &Arc<G>,
) -> Result<Vec<u8>, Halt>
    requires { IsInRange job }
    ensures { IfOk result (λ replies. replies.items ≡ transcript nothing_held text.now) }
{
    let feed = Feed::new(alloc, job.workers, job.askers)?;
    let staff = Staff::of(alloc, rt, feed.session(), gate, job.workers);
    let replies = told_by(rt, alloc, feed, text, &**gate);
    staff.join(rt);
    replies
}

/// How many lines end in these bytes.
fn lines_in(bytes: &[u8]) -> u64
    ensures { result ≡ lines_in bytes.now }
{
    bytes.iter().filter(|byte| **byte == b'\n').count() as u64
}
