//! Mode upgrade: the log of the station is opened, and raised to format 2 where it has format 1, by
//! one group more; and one line says its format. Nothing else is written to the disk.
ghost use Rattle.std.specs.Prelude.{◌≡◌};
ghost use Rattle.sz_session.specs.Terms.{OnOk, is_ok, faults_after, Only, Said, IsMade};
ghost use Rattle.sz_session.specs.Terms.{StopsFinding, AreCounted, raised_line, RaisesLog};
ghost use Rattle.sz_session.specs.Terms.{HasRaised, RaisesOrStays, StopsRaising};

use crate::serving::Status;
use std::alloc::Global;
use std::thread::Threads;
use sz_log::append;
use sz_outside::{Failed, Station};
use sz_recover::{Recovered, catalogue_of};

/// Opens the log, once what is pending of its disk is put where a stop leaves it, raises it, and
/// says its line.
pub(crate) fn raise_log<T: Station, R: Threads + Sync>(
    rt: &R,
    alloc: Global,
    station: &mut T,
) -> Status
    ensures ends { RaisesLog T.Station result station.old station.new }
    ensures counted { AreCounted T.Station result 0 0 station.old station.new }
    ensures stops { StopsRaising T.Station station.old station.new }
{
    if station.sync().is_err() {
        return Status::DiskFault;
    }
    let log = match catalogue_of(rt, alloc, station) {
        Ok(log) => log,
        Err(fault) => return Status::from(fault),
    };
    if raise(&log, station).is_err() {
        return Status::DiskFault;
    }
    match station.say(raised_line()) {
        Ok(()) => Status::Done,
        Err(Failed) => Status::SayFault,
    }
}

/// Adds the group that raises a log, where it has format 1. A log of format 2 is not touched.
fn raise<T: Station>(log: &Recovered, station: &mut T) -> Result<(), Failed>
    requires log { IsMade (T.disk station.old) log.now.end.at log.now.format log.now.catalogue
        log.now.stores.items }
    requires synced { Only (T.disk station.old) (T.may_leave station.old) }
    ensures raised { OnOk result (HasRaised T.Station station.old station.new) }
    ensures counted { T.disk_faults station.new
        ≡ faults_after (T.disk_faults station.old) (is_ok result) }
    ensures output { (T.said station.new ≡ T.said station.old)
        × (T.say_faults station.new ≡ T.say_faults station.old) }
    ensures stops { StopsFinding T.Station RaisesOrStays (Said (T.said station.old))
        station.old station.new }
{
    if log.format != 1 {
        return Ok(());
    }
    append(station, log.end, 5, &[])?;
    Ok(())
}

/// The line that says that a log has format 2.
fn raised_line() -> &'static [u8]
    ensures { result.now ≡ raised_line }
{
    b"log 2\n"
}
