//! Mode init: the disk of the station is made the empty log, and one line says so.
ghost use Rattle.std.specs.Prelude.{◌≡◌};
ghost use Rattle.sz_session.specs.Terms.{MakesLog, AreCounted, StopsMaking, ready_line};

use crate::serving::Status;
use sz_log::init;
use sz_outside::{Failed, Station};

/// Makes the disk the empty log, and says that it is ready. Takes no memory.
pub(crate) fn make_log<T: Station>(station: &mut T) -> Status
    ensures ends { MakesLog T.Station result station.old station.new }
    ensures counted { AreCounted T.Station result 0 0 station.old station.new }
    ensures stops { StopsMaking T.Station station.old station.new }
{
    if let Err(fault) = init(station) {
        return Status::from(fault);
    }
    match station.say(ready_line()) {
        Ok(()) => Status::Done,
        Err(Failed) => Status::SayFault,
    }
}

/// The line that says that a log was made.
fn ready_line() -> &'static [u8]
    ensures { result.now ≡ ready_line }
{
    b"log ready\n"
}
