//! Opening a log: its groups are read one after another, and act on what is held.

ghost use Rattle.std.specs.Prelude.{◌≡◌, ◌<◌, true, IfOk, IfErr, IfSome, OnOk};
ghost use Rattle.sz_outside.specs.Counts.{faults_after};
ghost use Rattle.sz_outside.specs.Disk.{Told, Passes, Same, Said};
ghost use Rattle.sz_catalogue.specs.Holdings.{no_holdings};
ghost use Rattle.sz_formats.specs.Formats.{is_format};
ghost use Rattle.sz_recover.specs.Calls.{Keeps, Stays};
ghost use Rattle.sz_recover.specs.Logs.{IsMade, SaysWhy, TakesNext, SaysBad, IsNext, IsFurther};
ghost use Rattle.sz_recover.specs.Logs.{IsPlain, has_read};
ghost use Rattle.sz_recover.specs.Opened.{AreOfVersions};
ghost use Rattle.sz_recover.specs.Props.{own-prop};
ghost use Rattle.sz_recover.specs.declared.opening.RecoverFault.TheVariants as fault;

use crate::groups::{KeptVersion, act};
use std::alloc::Global;
use std::thread::Threads;
use sz_bodies::TakeFault;
use sz_catalogue::Catalogue;
use sz_log::{Group, LogEnd, group_at, is_log};
use sz_outside::{Failed, Station};

/// What a log holds: its format, 1 or 2, the catalogue that its groups make, the place of its first
/// closed gate, and the stores of its versions, in the order of the log: those of each version that
/// is held, which was awaited, and no others.
#[derive(Drop)]
pub struct Recovered {
    pub format: u8,
    pub catalogue: Catalogue,
    pub end: LogEnd,
    pub stores: Vec<KeptVersion>,
    pub ghost right: { is_format format ≡ true },
    ghost entries: { AreOfVersions catalogue stores.items } by { own-prop catalogue stores.items },
}

/// Why a log was not opened.
#[derive(Clone, Copy, Debug, Drop, PartialEq, Eq)]
pub enum RecoverFault {
    /// A call of the disk failed.
    Failed,
    /// The disk does not begin as a log.
    NotALog,
    /// The log is not well made: its first bad group stands at this place, or should.
    BadLog { at: u64 },
    /// There was no memory.
    NoMemory,
}

impl From<Failed> for RecoverFault {
    ghost from_gives = { λ _ e. e ≡ fault.Failed };

    fn from(_failed: Failed) -> RecoverFault {
        RecoverFault::Failed
    }
}

/// The catalogue that the groups of a well-made log make, with the log's format, where its first
/// closed gate stands and the stores of its versions, which are read side by side where a version
/// is long.
///
/// Takes time in the bytes of the log, and for each group time in the logarithm of what is held;
/// and memory in what is held, in the stores, and in the longest group.
pub fn catalogue_of<T: Station, R: Threads + Sync>(
    rt: &R,
    alloc: Global,
    station: &mut T,
) -> Result<Recovered, RecoverFault>
    ensures made { IfOk result
        (λ r. IsMade (T.disk station.old) r.end.at r.format r.catalogue r.stores.items) }
    ensures why { IfErr result (λ e. SaysWhy (T.disk station.old) e) }
    ensures counted { T.disk_faults station.new
        ≡ faults_after (T.disk_faults station.old) (has_read result) }
    ensures disk { T.disk station.new ≡ T.disk station.old }
    ensures output { (T.said station.new ≡ T.said station.old)
        × (T.say_faults station.new ≡ T.say_faults station.old) }
    ensures stops { Told (T.disk station.old) (
        Passes (T.moment station.old) (T.moment station.new)
        (T.left_since station.old) (T.left_since station.new)
        (T.may_leave station.old) (T.may_leave station.new) Same (Said (T.said station.old))) }
{
    let mut catalogue = Catalogue::new(alloc);
    match act_each(rt, alloc, station, &mut catalogue) {
        Ok((stores, format, at)) => Ok(Recovered {
            format,
            catalogue,
            end: LogEnd { at },
            stores,
        }),
        Err(fault) => Err(fault),
    }
}

/// Takes the groups of a log, from format 1 and nothing on, and gives the stores of its versions,
/// its format, and the place of the first closed gate.
#[tactic(auto, using(crate::proofs::Entries::nothing_kept))]
fn act_each<T: Station, R: Threads + Sync>(
    rt: &R,
    alloc: Global,
    station: &mut T,
    catalogue: &mut Catalogue,
) -> Result<(Vec<KeptVersion>, u8, u64), RecoverFault>
    requires nothing { catalogue.old ≡ no_holdings }
    ensures made { IfOk result
        (λ r. IsMade (T.disk station.old) r.2 r.1 catalogue.new r.0.items) }
    ensures format { IfOk result (λ r. is_format r.1 ≡ true) }
    ensures entries { IfOk result (λ r. AreOfVersions catalogue.new r.0.items) }
    ensures why { IfErr result (λ e. SaysWhy (T.disk station.old) e) }
    ensures counted { T.disk_faults station.new
        ≡ faults_after (T.disk_faults station.old) (has_read result) }
    ensures kept { Keeps T.disk T.said T.say_faults station.old station.new }
    ensures stops { Stays T.disk T.moment T.left_since T.may_leave T.said station.old station.new }
{
    if !is_log(station)? {
        return Err(RecoverFault::NotALog);
    }
    let mut kept = Vec::new(alloc);
    let mut format = 1;
    let mut at = 16;
    while let Some(next) = take_next(rt, alloc, station, catalogue, &mut kept, &mut format, at)? {
        at = next;
    }
    Ok((kept, format, at))
}

/// Takes the group that stands at a place, and gives the place of the next gate; nothing at a
/// closed gate.
fn take_next<T: Station, R: Threads + Sync>(
    rt: &R,
    alloc: Global,
    station: &mut T,
    catalogue: &mut Catalogue,
    kept: &mut Vec<KeptVersion>,
    format: &mut u8,
    at: u64,
) -> Result<Option<u64>, RecoverFault>
    requires { is_format format.old ≡ true }
    ensures ok { IfOk result (λ next. TakesNext (T.disk station.old) at next
        format.old format.new catalogue.old catalogue.new kept.old.items kept.new.items) }
    ensures format { OnOk result (is_format format.new ≡ true) }
    ensures entries { OnOk result (AreOfVersions catalogue.old kept.old.items
        → AreOfVersions catalogue.new kept.new.items) }
    ensures further { IfOk result (λ n. IfSome n (λ next. at < next)) }
    ensures bad { IfErr result (λ e. SaysBad (T.disk station.old) at format.old catalogue.old e) }
    ensures counted { T.disk_faults station.new
        ≡ faults_after (T.disk_faults station.old) (has_read result) }
    ensures kept { Keeps T.disk T.said T.say_faults station.old station.new }
    ensures stops { Stays T.disk T.moment T.left_since T.may_leave T.said station.old station.new }
{
    match next_group(alloc, station, at) {
        Ok(Next::End) => Ok(None),
        Ok(Next::Bad) => Err(RecoverFault::BadLog { at }),
        Ok(Next::Entry { kind, body, next }) => {
            match act(rt, alloc, catalogue, kept, format, kind, &body) {
                Ok(()) => Ok(Some(next)),
                Err(TakeFault::Bad) => Err(RecoverFault::BadLog { at }),
                Err(TakeFault::NoMemory) => Err(RecoverFault::NoMemory),
            }
        }
        Err(fault) => Err(fault),
    }
}

/// What is read next of a log.
#[derive(Drop)]
enum Next {
    /// A closed gate.
    End,
    /// No gate, or an open gate without a whole group behind it.
    Bad,
    /// A group: its kind, its body, and the place of the next gate.
    Entry { kind: u8, body: Vec<u8>, next: u64 },
}

/// What is read at a place.
fn next_group<T: Station>(alloc: Global, station: &mut T, at: u64) -> Result<Next, RecoverFault>
    ensures next { IfOk result (λ n. IsNext (T.disk station.old) at n) }
    ensures further { IfOk result (λ n. IsFurther at n) }
    ensures plain { IfErr result (λ e. IsPlain e) }
    ensures counted { T.disk_faults station.new
        ≡ faults_after (T.disk_faults station.old) (has_read result) }
    ensures kept { Keeps T.disk T.said T.say_faults station.old station.new }
    ensures stops { Stays T.disk T.moment T.left_since T.may_leave T.said station.old station.new }
{
    match group_at(station, at)? {
        Group::Closed => Ok(Next::End),
        Group::Bad => Ok(Next::Bad),
        Group::Whole {
            kind,
            body: place,
            length,
            next,
        } => {
            let Ok(mut body) = vec![in alloc; 0; length as usize] else {
                return Err(RecoverFault::NoMemory);
            };
            let count = station.read_at(place, &mut body)?;
            if count != body.len() {
                return Ok(Next::Bad); // a disk that is told has the whole group
            }
            if next <= at {
                return Ok(Next::Bad); // nor does it end before it begins
            }
            Ok(Next::Entry { kind, body, next })
        }
    }
}
