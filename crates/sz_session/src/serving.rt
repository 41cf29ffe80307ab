//! The top call: it reads a source to its end, and says the replies.
//!
//! A turn makes one read and answers every line that ends in what it gave. Its contract asks that
//! what was said so far is the replies of all whole lines read so far, from the start of the
//! session, and gives the same with the bytes read: so no read is made while a reply is still to be
//! said.
ghost use Rattle.std.specs.Prelude.{◌≡◌, ◌⊎◌, ◌<◌, ◌≤◌, ◌+◌, ◌-◌, ◌^◌};
ghost use Rattle.sz_session.specs.Terms.{false, Ok, Err, IfOk, IfErr, OnOk, OnErr, length, map};
ghost use Rattle.sz_session.specs.Terms.{string_bytes, None, Some, Rose, Stood, Gives, Keeps};
ghost use Rattle.sz_session.specs.Terms.{end_status, words_status, halt_status, log_status};
ghost use Rattle.sz_session.specs.Terms.{recover_status, status_number, Ends, AreCounted};
ghost use Rattle.sz_session.specs.Terms.{opening_of, TurnsOn, EndsTurn, EndsSession, EndsOnLog};
ghost use Rattle.sz_session.specs.Terms.{AsksFor, IfLoad, is_for, is_of_lines, EndsPlay, EndsLoad};
ghost use Rattle.sz_session.specs.Terms.{EndsInit, EndsCheck, EndsUpgrade, EndsRun, nothing_held};
ghost use Rattle.sz_session.specs.Terms.{IsLogOf, end_of, IsBeside, state_of_log, load_line};
ghost use Rattle.sz_session.specs.Terms.{Opening, Answered, AreAll, StaysFinding, FoundInPart};
ghost use Rattle.sz_session.specs.Terms.{job_of, IsInRange};
ghost use Rattle.sz_session.specs.declared.serving.Status.TheVariants.{ReadFault};

use crate::checking::check_log;
use crate::load::load;
use crate::making::make_log;
use crate::raising::raise_log;
use crate::staff::Staff;
use std::alloc::Global;
use std::sync::{Arc, Wait};
use std::thread::Threads;
use sz_commands::Session;
use sz_feed::{Feed, Halt};
use sz_log::LogFault;
use sz_outside::{Failed, Gate, Source, Station};
use sz_recover::{RecoverFault, Recovered, catalogue_of};
use sz_words::{Job, JobMode, WordsFault, read_words};

/// How a call of `serve` ended.
#[derive(Clone, Copy, Debug, PartialEq, Eq)]
pub enum Status {
    /// All was done that the words ask for, and every line was said.
    Done,
    /// The words are not those of a mode.
    Usage,
    /// A read failed.
    ReadFault,
    /// A line could not be said.
    SayFault,
    /// A call of the disk failed.
    DiskFault,
    /// The disk is no log: for its making, it has more than 17 bytes, so it was not made one.
    NotALog,
    /// The disk begins as a log, so it was not made one.
    AlreadyALog,
    /// The log is not well made: its first bad group stands at this place, or should.
    BadLog { at: u64 },
    /// There was no memory.
    NoMemory,
    /// The source holds more bytes than a session may have.
    InputLimit,
}

impl Status {
    /// Its number, which is the program's exit status.
    pub fn number(self) -> u8
        ensures { result ≡ status_number self }
    {
        match self {
            Status::Done => 0,
            Status::Usage => 1,
            Status::ReadFault => 2,
            Status::SayFault => 3,
            Status::DiskFault => 4,
            Status::NotALog => 5,
            Status::AlreadyALog => 6,
            Status::BadLog { .. } => 7,
            Status::NoMemory => 8,
            Status::InputLimit => 9,
        }
    }
}

/// A read that failed. What fails of a say comes as a [`Halt`].
impl From<Failed> for Status {
    ghost from_gives = { λ _ s. s ≡ ReadFault };

    fn from(_fault: Failed) -> Status {
        Status::ReadFault
    }
}

/// A session that stopped.
impl From<Halt> for Status {
    ghost from_gives = { λ halt s. s ≡ halt_status halt };

    fn from(halt: Halt) -> Status {
        match halt {
            Halt::SayFault => Status::SayFault,
            Halt::DiskFault => Status::DiskFault,
            Halt::NoMemory => Status::NoMemory,
        }
    }
}

/// A disk that was not made a log.
impl From<LogFault> for Status {
    ghost from_gives = { λ fault s. s ≡ log_status fault };

    fn from(fault: LogFault) -> Status {
        match fault {
            LogFault::Failed => Status::DiskFault,
            LogFault::NotALog => Status::NotALog,
            LogFault::AlreadyALog => Status::AlreadyALog,
        }
    }
}

/// A log that was not opened.
impl From<RecoverFault> for Status {
    ghost from_gives = { λ fault s. s ≡ recover_status fault };

    fn from(fault: RecoverFault) -> Status {
        match fault {
            RecoverFault::Failed => Status::DiskFault,
            RecoverFault::NotALog => Status::NotALog,
            RecoverFault::BadLog { at } => Status::BadLog { at },
            RecoverFault::NoMemory => Status::NoMemory,
        }
    }
}

/// The most bytes that one read asks for.
const CHUNK: usize = 65_536;

/// The most bytes of a session.
const LIMIT: u64 = 1 << 62;

/// Runs the program: `words` are those of the command line without the program's name.
///
/// - `play` reads the source in chunks of at most 65,536 bytes, and before each read every whole
///   line read so far has its reply said. The gate is called after each accepted ask and explain,
///   when its answer is found.
/// - `load` takes the generated session of the job's seed and side from memory, and says the one
///   line that sums up its replies. It makes no call on the source. It holds the text and the
///   replies once, and one line of the text a second time.
/// - `init` makes the disk of the station the empty log, and says one line, `log ready`. A disk
///   that begins as a log, or is none and has more than 17 bytes, stays as it is.
/// - `check` opens the log on the disk of the station, compares the stores of its versions with
///   what their operators relate, and says one line: how many versions it has where each store is
///   sound (`sound 2`), or the first that is not (`unsound version 1 node 0 full_one_b`). A disk
///   that does not begin as a log, or a log with a bad group, has a status of its own.
/// - `upgrade` opens the log on the disk of the station, and adds to a log of format 1 the group
///   that raises it to format 2: its versions are written in less room from then on, and it holds
///   and keeps the same. A log of format 2 stays as it is. Of both it says one line, `log 2`.
/// - `run` opens the log on the disk of the station, and answers the lines of the source as `play`
///   does, from what the log holds. What a line makes durable is in the log before its reply is
///   said. Asks are answered one by one.
///
/// Words that are refused end with Usage or for want of memory, and nothing is touched; and each
/// mode has one clause, its record in `specs/Modes`: what was read and said by each status, what
/// the counts of faults tell, and what a stop of the machine at any moment of the call finds. What
/// follows of these are the laws of [`crate::endings`]: that no fault is passed over, say, and that
/// a session with none ends as Done or for want of memory.
///
/// But in init, upgrade and run the disk of the station is as before, whatever the status. A stop
/// at any moment finds a first part of what the mode says (`found` of each record). In init it
/// leaves of the disk the old bytes, at most 17 bytes that are no log, or the empty log; in upgrade
/// the log as it was, or raised; and in run a well-made log that holds what is durable behind the
/// lines whose replies were said, or behind one line more.
///
/// As many threads as the words say work on what a start hands out, beside the lines, and one
/// merges the stores that a merge hands out; they are joined before the call returns. Nothing that
/// is said depends on them.
pub fn serve<
    S: Source,
    T: Station,
    G: Gate + 'static,
    R: Threads + Wait + Clone + Send + Sync + 'static,
>(rt: &R, alloc: Global, words: &[String], source: &mut S, station: &mut T, gate: &Arc<G>) -> Status
    ensures refused { job_of (map string_bytes words.now) ≡ None
        → (result ≡ Status.Usage) ⊎ (result ≡ Status.NoMemory) }
    ensures untouched { job_of (map string_bytes words.now) ≡ None
        → (source.new ≡ source.old) × (station.new ≡ station.old) }
    ensures unread { is_for is_of_lines (job_of (map string_bytes words.now)) ≡ false
        → source.new ≡ source.old }
    ensures play { AsksFor JobMode.Play (job_of (map string_bytes words.now))
        → EndsPlay T.Station result (2 ^ 62) (S.faults source.old) (S.faults source.new)
        (S.left source.old) (S.left source.new) station.old station.new }
    ensures load { IfLoad (job_of (map string_bytes words.now))
        (λ line. EndsLoad T.Station result line station.old station.new) }
    ensures init { AsksFor JobMode.Init (job_of (map string_bytes words.now))
        → EndsInit T.Station result station.old station.new }
    ensures check { AsksFor JobMode.Check (job_of (map string_bytes words.now))
        → EndsCheck T.Station result station.old station.new }
    ensures upgrade { AsksFor JobMode.Upgrade (job_of (map string_bytes words.now))
        → EndsUpgrade T.Station result station.old station.new }
    ensures run { AsksFor JobMode.Run (job_of (map string_bytes words.now))
        → EndsRun T.Station result (2 ^ 62) (S.faults source.old) (S.faults source.new)
        (S.left source.old) (S.left source.new) station.old station.new }
{
    match read_words(alloc, words) {
        Ok(job) => run_job(rt, alloc, job, source, station, gate),
        Err(fault) => status_of_words(fault),
    }
}

/// The status of words that ask for no job.
fn status_of_words(fault: WordsFault) -> Status
    ensures { result ≡ words_status fault }
{
    match fault {
        WordsFault::Usage => Status::Usage,
        WordsFault::NoMemory => Status::NoMemory,
    }
}

/// Does what a job asks for.
fn run_job<
    S: Source,
    T: Station,
    G: Gate + 'static,
    R: Threads + Wait + Clone + Send + Sync + 'static,
>(rt: &R, alloc: Global, job: Job, source: &mut S, station: &mut T, gate: &Arc<G>) -> Status
    requires ranges { IsInRange job }
    ensures unread { is_of_lines job.mode ≡ false → source.new ≡ source.old }
    ensures play { job.mode ≡ JobMode.Play
        → EndsPlay T.Station result (2 ^ 62) (S.faults source.old) (S.faults source.new)
        (S.left source.old) (S.left source.new) station.old station.new }
    ensures load { job.mode ≡ JobMode.Load
        → EndsLoad T.Station result (load_line job) station.old station.new }
    ensures init { job.mode ≡ JobMode.Init → EndsInit T.Station result station.old station.new }
    ensures check { job.mode ≡ JobMode.Check → EndsCheck T.Station result station.old station.new }
    ensures upgrade { job.mode ≡ JobMode.Upgrade
        → EndsUpgrade T.Station result station.old station.new }
    ensures run { job.mode ≡ JobMode.Run
        → EndsRun T.Station result (2 ^ 62) (S.faults source.old) (S.faults source.new)
        (S.left source.old) (S.left source.new) station.old station.new }
{
    match job.mode {
        JobMode::Play => play(rt, alloc, job, source, station, gate, LIMIT),
        JobMode::Init => make_log(station),
        JobMode::Run => run_log(rt, alloc, job, source, station, gate, LIMIT),
        JobMode::Check => check_log(rt, alloc, station),
        JobMode::Upgrade => raise_log(rt, alloc, station),
        JobMode::Load => load(rt, alloc, job, station, gate),
    }
}

/// Reads the source to its end, or to a limit, and answers its lines, with workers beside it.
fn play<
    S: Source,
    T: Station,
    G: Gate + 'static,
    R: Threads + Wait + Clone + Send + Sync + 'static,
>(
    rt: &R,
    alloc: Global,
    job: Job,
    source: &mut S,
    station: &mut T,
    gate: &Arc<G>,
    limit: u64,
) -> Status
    requires limit { limit ≤ LIMIT }
    requires ranges { IsInRange job }
    ensures ends { Ends nothing_held result limit (S.left source.old) (S.left source.new)
        (T.said station.old) (T.said station.new) }
    ensures counted { AreCounted T.Station result (S.faults source.old) (S.faults source.new)
        station.old station.new }
    ensures disk { StaysFinding T.Station
        (FoundInPart nothing_held (S.left source.old) (T.said station.old))
        station.old station.new }
{
    let Ok(mut buffer) = vec![in alloc; 0u8; CHUNK] else {
        return Status::NoMemory;
    };
    let Ok(feed) = Feed::new(alloc, job.workers, job.askers) else {
        return Status::NoMemory;
    };
    let staff = Staff::of(alloc, rt, feed.session(), gate, job.workers);
    let status = answer_all(rt, source, station, &**gate, &mut buffer, feed, limit);
    staff.join(rt);
    status
}

/// Opens the log of the station, once what is pending of its disk is put where a stop leaves it,
/// and goes on with it.
fn run_log<
    S: Source,
    T: Station,
    G: Gate + 'static,
    R: Threads + Wait + Clone + Send + Sync + 'static,
>(
    rt: &R,
    alloc: Global,
    job: Job,
    source: &mut S,
    station: &mut T,
    gate: &Arc<G>,
    limit: u64,
) -> Status
    requires limit { limit ≤ LIMIT }
    requires ranges { IsInRange job }
    ensures ends { EndsOnLog T.Station result limit (S.left source.old) (S.left source.new)
        station.old station.new }
    ensures counted { AreCounted T.Station result (S.faults source.old) (S.faults source.new)
        station.old station.new }
{
    if station.sync().is_err() {
        return Status::DiskFault;
    }
    match catalogue_of(rt, alloc, station) {
        Ok(recovered) => run_on(rt, alloc, recovered, job, source, station, gate, limit),
        Err(fault) => Status::from(fault),
    }
}

/// Goes on with a log that was opened: reads the source to its end, or to a limit, and answers its
/// lines beside the log, with workers beside it.
pub(crate) fn run_on<
    S: Source,
    T: Station,
    G: Gate + 'static,
    R: Threads + Wait + Clone + Send + Sync + 'static,
>(
    rt: &R,
    alloc: Global,
    recovered: Recovered,
    job: Job,
    source: &mut S,
    station: &mut T,
    gate: &Arc<G>,
    limit: u64,
) -> Status
    requires limit { limit ≤ LIMIT }
    requires ranges { IsInRange job }
    requires log { IsLogOf T.Station recovered.catalogue (end_of recovered) station.old }
    ensures { EndsSession T.Station result limit
        (opening_of (state_of_log recovered.catalogue recovered.stores.items)
        (S.left source.old) (T.said station.old))
        (Some (end_of recovered)) (S.left source.new)
        (S.faults source.old) (S.faults source.new) station.old station.new }
{
    let Ok(mut buffer) = vec![in alloc; 0u8; CHUNK] else {
        return Status::NoMemory;
    };
    let Ok(session) = Session::of_log(alloc, recovered, job.workers, job.askers) else {
        return Status::NoMemory;
    };
    let feed = Feed::over(alloc, session);
    let staff = Staff::of(alloc, rt, feed.session(), gate, job.workers);
    let status = answer_all(rt, source, station, &**gate, &mut buffer, feed, limit);
    staff.join(rt);
    status
}

/// Takes turn after turn with a feed, and lets it go, so that workers end.
fn answer_all<S: Source, T: Station, G: Gate, R: Threads + Wait + Sync>(
    rt: &R,
    source: &mut S,
    station: &mut T,
    gate: &G,
    buffer: &mut [u8],
    feed: Feed,
    limit: u64,
) -> Status
    ghost opening: { Opening }
    requires room { length buffer.old ≡ CHUNK }
    requires limit { limit ≤ LIMIT }
    requires number { feed.number ≡ 1 }
    requires answered { Answered opening.held opening.left (S.left source.old)
        opening.said (T.said station.old) feed 0 }
    requires log { IsBeside T.Station feed station.old }
    requires said { opening.said ≡ T.said station.old }
    ensures { EndsSession T.Station result limit opening feed.end (S.left source.new)
        (S.faults source.old) (S.faults source.new) station.old station.new }
{
    let mut feed = feed;
    read_all(rt, source, station, gate, buffer, &mut feed, limit)
}

/// Takes turn after turn, until no byte is left. Each takes at least one byte, and at the limit the
/// next one tells whether there are more.
fn read_all<S: Source, T: Station, G: Gate, R: Threads + Wait + Sync>(
    rt: &R,
    source: &mut S,
    station: &mut T,
    gate: &G,
    buffer: &mut [u8],
    feed: &mut Feed,
    limit: u64,
) -> Status
    ghost opening: { Opening }
    requires room { length buffer.old ≡ CHUNK }
    requires limit { limit ≤ LIMIT }
    requires number { feed.old.number ≡ 1 }
    requires answered { Answered opening.held opening.left (S.left source.old)
        opening.said (T.said station.old) feed.old 0 }
    requires log { IsBeside T.Station feed.old station.old }
    requires said { opening.said ≡ T.said station.old }
    ensures { EndsSession T.Station result limit opening feed.old.end (S.left source.new)
        (S.faults source.old) (S.faults source.new) station.old station.new }
{
    let mut total = 0u64;
    'chunks: loop {
        match take_turn(rt, source, station, gate, buffer, feed, total, limit) {
            Ok(0) => return status_of_end(feed.end_input(rt, station, gate)),
            Ok(count) => total += count as u64,
            Err(status) => return status,
        }
    }
}

/// One turn: reads at most a chunk, and says the replies of the lines that end in it. Gives how
/// many bytes were read, or the status that the session ends with.
fn take_turn<S: Source, T: Station, G: Gate, R: Threads + Wait + Sync>(
    rt: &R,
    source: &mut S,
    station: &mut T,
    gate: &G,
    buffer: &mut [u8],
    feed: &mut Feed,
    total: u64,
    limit: u64,
) -> Result<usize, Status>
    ghost opening: { Opening }
    requires room { length buffer.old ≡ CHUNK }
    requires limit { limit ≤ LIMIT }
    requires within { total ≤ limit }
    requires number { feed.old.number ≤ total + 1 }
    requires answered { Answered opening.held opening.left (S.left source.old)
        opening.said (T.said station.old) feed.old total }
    requires log { IsBeside T.Station feed.old station.old }
    ensures within { IfOk result (λ count. total + count ≤ limit) }
    ensures number { IfOk result (λ count. feed.new.number ≤ total + count + 1) }
    ensures turn { IfOk result (λ count. TurnsOn T.Station opening total count (S.left source.new)
        (S.faults source.old) (S.faults source.new) feed.old feed.new station.old station.new) }
    ensures all { result ≡ Ok 0 → AreAll opening.left total }
    ensures ends { IfErr result (λ status. EndsTurn T.Station status limit opening total
        (S.left source.new) (S.faults source.old) (S.faults source.new) feed.old
        station.old station.new) }
{
    let count = read_chunk(source, buffer, feed, station, total, limit)?;
    if total == limit && count > 0 {
        return Err(Status::InputLimit);
    }
    feed.take_chunk(rt, &buffer[..count], station, gate)?;
    Ok(count)
}

/// The one read of a turn, into the front of the buffer. Feed and station are lent for the contract
/// alone: a read may be made only where every whole line read so far has its reply said.
fn read_chunk<S: Source, T: Station>(
    source: &mut S,
    buffer: &mut [u8],
    _feed: &Feed,
    _station: &T,
    total: u64,
    limit: u64,
) -> Result<usize, Failed>
    ghost opening: { Opening }
    requires room { length buffer.old ≡ CHUNK }
    requires within { total ≤ limit }
    requires answered { Answered opening.held opening.left (S.left source.old)
        opening.said (T.said _station.now) _feed.now total }
    ensures most { IfOk result (λ count. count ≤ 65536) }
    ensures within { IfOk result (λ count. total < limit → total + count ≤ limit) }
    ensures one { IfOk result (λ count. total ≡ limit → count ≤ 1) }
    ensures length { length buffer.new ≡ length buffer.old }
    ensures bytes { IfOk result (λ count.
        Gives (S.left source.old) (S.left source.new) buffer.new count) }
    ensures fault { OnErr result (Rose (S.faults source.old) (S.faults source.new)) }
    ensures kept { OnErr result (Keeps (S.left source.old) (S.left source.new)) }
    ensures quiet { OnOk result (Stood (S.faults source.old) (S.faults source.new)) }
{
    let room = room_after(total, limit);
    source.read(&mut buffer[..room])
}

/// How many bytes the next read asks for: at the limit one, to see whether there are more.
fn room_after(total: u64, limit: u64) -> usize
    requires { total ≤ limit }
    ensures some { 0 < result }
    ensures most { result ≤ 65536 }
    ensures within { total < limit → total + result ≤ limit }
    ensures one { total ≡ limit → result ≡ 1 }
{
    if total == limit {
        1
    } else {
        (limit - total).min(CHUNK as u64) as usize
    }
}

/// The status of a session that was read to its end.
fn status_of_end(end: Result<(), Halt>) -> Status
    ensures { result ≡ end_status end }
{
    match end {
        Ok(()) => Status::Done,
        Err(halt) => Status::from(halt),
    }
}

#[cfg(test)]
mod tests;
