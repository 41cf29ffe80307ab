//! The session that the words ask for, from the words to the exit number.

ghost use Rattle.std.specs.Prelude.{◌≡◌};
ghost use Rattle.std.specs.Process.{exit_status};
ghost use Rattle.sz_session.specs.Modes.{Serves};
ghost use Rattle.sz_session.specs.Statuses.{status_number};
ghost use Rattle.sz_session.specs.declared.serving.Status.{Status as StatusOf};
ghost use Rattle.subzero.specs.Words.{AreOther, job_asked};

use crate::ending::end;
use crate::words::{status_of_fault, words_of};
use std::alloc::Global;
use std::env::Args;
use std::io::{self, Eprint};
use std::process::ExitCode;
use std::sync::{Arc, Wait};
use std::thread::Threads;
use sz_outside::{NoGate, Source, Station};
use sz_session::{Status, serve};

/// Runs the program over any source and any station, and gives the exit number; the line of the
/// status is printed on standard error. The number is that of one status, by
/// [`sz_session::endings::numbers_tell_statuses`], and all that `serve` owes by it, mode by mode,
/// is owed here; so each law of [`sz_session::endings`] holds of a run of the program. 0 comes only
/// where the words ask for a mode, all was done that it says, and no fault was counted.
pub(crate) fn run<
    S: Source,
    T: Station,
    R: Eprint + Threads + Wait + Clone + Send + Sync + 'static,
>(rt: &R, alloc: Global, args: io::Result<Args>, source: &mut S, station: &mut T) -> ExitCode
    ensures serves { (s : StatusOf) × (exit_status result ≡ status_number s)
        × Serves S.Source T.Station (job_asked args) s
        source.old source.new station.old station.new }
    ensures usage { exit_status result ≡ 1 → AreOther args }
{
    let status = session(rt, alloc, args, source, station);
    end(rt, status)
}

/// The status of the session that the words ask for.
fn session<S: Source, T: Station, R: Threads + Wait + Clone + Send + Sync + 'static>(
    rt: &R,
    alloc: Global,
    args: io::Result<Args>,
    source: &mut S,
    station: &mut T,
) -> Status
    ensures serves { Serves S.Source T.Station (job_asked args) result
        source.old source.new station.old station.new }
    ensures usage { result ≡ Status.Usage → AreOther args }
{
    let args = match args {
        Ok(args) => args,
        Err(fault) => return status_of_fault(&fault),
    };
    let Ok(words) = words_of(alloc, args) else {
        return Status::NoMemory;
    };
    let Ok(gate) = Arc::new(alloc, NoGate) else {
        return Status::NoMemory;
    };
    serve(rt, alloc, &words, source, station, &gate)
}
