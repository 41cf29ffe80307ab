//! Texts that are served, each on a station of its own, and what a gate counts meanwhile.

ghost use Rattle.std.specs.Prelude.{◌≡◌, ◌≤◌, true};
ghost use Rattle.sz_commands.specs.Logged.{HasLog};
ghost use Rattle.sz_commands.specs.States.{nothing_held};

use std::alloc::Global;
use std::sync::atomic::{AtomicU64, Ordering};
use std::sync::{Arc, Wait};
use std::test::Fail;
use std::thread::Threads;
use sz_outside::{Gate, MemStation, NoGate, Station, SteadySource};
use sz_session::{Session, Status, serve};
use sz_spec::Tally;

/// For how many turns something is waited for.
const LIMIT: u64 = 1_000_000_000;

/// What a gate counts: pieces and answered asks at which it was called, and how often something
/// that it waited for did not come.
#[derive(Drop)]
pub struct Counts {
    pub pieces: AtomicU64,
    pub asks: AtomicU64,
    pub missed: AtomicU64,
}

impl Counts {
    /// Nothing was counted yet.
    pub fn new() -> Counts {
        Counts {
            pieces: AtomicU64::new(0),
            asks: AtomicU64::new(0),
            missed: AtomicU64::new(0),
        }
    }

    /// Waits until one of the counts is above a number.
    pub fn wait_above(&self, count: &AtomicU64, number: u64) {
        for _ in 0..LIMIT {
            if count.load(Ordering::SeqCst) > number {
                return;
            }
        }
        self.missed.fetch_add(1, Ordering::SeqCst);
    }
}

/// What a text is served with: the words that call for it, its bytes, and a station.
#[derive(Drop)]
struct Bench {
    words: Vec<String>,
    source: SteadySource,
    station: MemStation,
}

/// The words, each as a text of its own.
fn words_of(alloc: Global, words: &[&str]) -> Result<Vec<String>, Fail> {
    let mut texts = Vec::new(alloc);
    for word in words {
        texts.push(String::from_str(alloc, word)?)?;
    }
    Ok(texts)
}

/// A station with an empty disk.
pub fn empty_station(alloc: Global) -> Result<MemStation, Fail> {
    Ok(MemStation::new(alloc, Vec::new(alloc), Vec::new(alloc), Vec::new(alloc))?)
}

/// These words, this text in reads of at most `chunk` bytes, and an empty station.
fn bench_of(alloc: Global, words: &[&str], text: &[u8], chunk: u32) -> Result<Bench, Fail>
    requires { 1 ≤ chunk }
{
    let words = words_of(alloc, words)?;
    let source = SteadySource::new(text.to_vec(alloc)?, chunk);
    Ok(Bench {
        words,
        source,
        station: empty_station(alloc)?,
    })
}

/// Whether a text that is served as these words call for ends well, and this is what is said.
pub fn is_said<G: Gate + 'static, R: Threads + Wait + Clone + Send + Sync + 'static>(
    rt: &R,
    alloc: Global,
    words: &[&str],
    text: &[u8],
    chunk: u32,
    gate: &Arc<G>,
    replies: &[u8],
) -> Result<bool, Fail>
    requires { 1 ≤ chunk }
{
    let mut bench = bench_of(alloc, words, text, chunk)?;
    let status = serve(
        rt,
        alloc,
        &bench.words,
        &mut bench.source,
        &mut bench.station,
        gate,
    );
    Ok(status == Status::Done && bench.station.said() == replies)
}

/// Whether a session does what each of these lines orders, beside a station.
pub fn takes_each<T: Station, R: Threads + Wait + Sync>(
    rt: &R,
    session: &mut Session,
    lines: &[&[u8]],
    station: &mut T,
) -> bool
    requires { HasLog T.Station session.old.held session.old.end station.old }
    ensures { result ≡ true → HasLog T.Station session.new.held session.new.end station.new }
{
    for line in lines {
        let mut tally = Tally::new();
        let taken = session.command(rt, *line, 1, station, &NoGate, &mut tally);
        if taken.is_err() {
            return false;
        }
    }
    true
}

/// Whether a session that holds nothing does what each of these lines orders.
pub fn is_begun<R: Threads + Wait + Sync>(
    rt: &R,
    alloc: Global,
    session: &mut Session,
    lines: &[&[u8]],
) -> Result<bool, Fail>
    requires { session.old ≡ nothing_held }
{
    let mut station = empty_station(alloc)?;
    Ok(takes_each(rt, session, lines, &mut station))
}
