//! Making a disk the empty log.
ghost use Rattle.std.specs.Prelude.{◌≡◌};
ghost use Rattle.sz_log.specs.Terms.{List, ℕ, Some, [], IfOk, OnOk, is_ok, length, KeepsOutput};
ghost use Rattle.sz_log.specs.Terms.{Steps, faults_after, Told, Passes, Said, Only, Cut, Same};
ghost use Rattle.sz_log.specs.Terms.{empty_log, Makes, MakesIfFree, JudgesTold, IsMade, Spares};
ghost use Rattle.sz_log.specs.Terms.{is_no_failure};

use crate::groups::is_log;
use crate::writing::put;
use crate::{LogEnd, LogFault};
use sz_outside::{Failed, Station};

/// The most bytes that a stop of `init` leaves.
const MOST: u64 = 17;

/// The title of a log and its first closed gate.
const TITLE: [u8; 16] = [
    83, 117, 98, 90, 101, 114, 111, 32, 108, 111, 103, 32, 49, 13, 10, 0,
];

/// Makes the disk the empty log. `AlreadyALog` exactly where it begins as a log, and `NotALog`
/// exactly where it does not and has more than 17 bytes. Takes no memory.
///
/// At every moment a stop leaves the old bytes, at most 17 bytes that are no log, or the empty log,
/// and where the disk is refused the old bytes alone.
pub fn init<T: Station>(station: &mut T) -> Result<LogEnd, LogFault>
    ensures answer { JudgesTold (T.disk station.old) result }
    ensures end { IfOk result (λ end. end.at ≡ 16) }
    ensures made { OnOk result (IsMade (T.disk station.old) (T.disk station.new)) }
    // No write is pending.
    ensures synced { OnOk result (Only (T.disk station.new) (T.may_leave station.new)) }
    ensures counted { T.disk_faults station.new
        ≡ faults_after (T.disk_faults station.old) (is_no_failure result) }
    ensures output { (T.said station.new ≡ T.said station.old)
        × (T.say_faults station.new ≡ T.say_faults station.old) }
    ensures spared { Spares result (T.disk station.new ≡ T.disk station.old) }
    ensures stops { Told (T.disk station.old) (
        Passes (T.moment station.old) (T.moment station.new)
        (T.left_since station.old) (T.left_since station.new)
        (T.may_leave station.old) (T.may_leave station.new)
        MakesIfFree (Said (T.said station.old))) }
{
    let size = station.size()?;
    if is_log(station)? {
        return Err(LogFault::AlreadyALog);
    }
    if size > MOST {
        return Err(LogFault::NotALog);
    }
    make(station)?;
    Ok(LogEnd { at: 16 })
}

/// Makes any disk the empty log. The header's gate is opened when all else is where a stop leaves
/// it.
fn make<T: Station>(station: &mut T) -> Result<(), Failed>
    ensures made { OnOk result ((d : List ℕ) → T.disk station.old ≡ Some d
        → T.disk station.new ≡ Some empty_log) }
    ensures synced { OnOk result (Only (T.disk station.new) (T.may_leave station.new)) }
    ensures counted { T.disk_faults station.new
        ≡ faults_after (T.disk_faults station.old) (is_ok result) }
    ensures output { KeepsOutput T.said T.say_faults station.old station.new }
    ensures stops { (d : List ℕ) → T.disk station.old ≡ Some d
        → Steps T.moment T.left_since T.may_leave T.said station.old station.new Makes }
{
    clear(station)?;
    put(station, 0, &[0])?;
    put(station, 1, &TITLE)?;
    put(station, 0, &[1])
}

/// Cuts the disk to nothing, and puts it where a stop leaves it so.
fn clear<T: Station>(station: &mut T) -> Result<(), Failed>
    ensures cleared { OnOk result ((d : List ℕ) → T.disk station.old ≡ Some d
        → T.disk station.new ≡ Some []) }
    ensures synced { OnOk result (Only (T.disk station.new) (T.may_leave station.new)) }
    ensures counted { T.disk_faults station.new
        ≡ faults_after (T.disk_faults station.old) (is_ok result) }
    ensures output { KeepsOutput T.said T.say_faults station.old station.new }
    ensures stops { (d : List ℕ) → T.disk station.old ≡ Some d
        → Steps T.moment T.left_since T.may_leave T.said station.old station.new (Cut 0) }
{
    station.cut(0)?;
    station.sync()
}
