//! The program: `subzero play` answers a session that comes on standard input, on standard output,
//! `subzero load` says there what sums up a session that is made from numbers,
//! `subzero init LOG` makes the file LOG the empty log, `subzero run LOG` answers a session beside
//! it and keeps it there, `subzero check LOG` says whether the stores in it stand for what they
//! should, and `subzero upgrade LOG` raises it to format 2, in which versions take less room.
//!
//! `main` makes the real input and output, with the file of the log, and leaves with what [`run`]
//! gives: the exit number. That one call is all that is left unproved of it. `words` reads the
//! command line, `opening` opens the file that it names, `running` has the one call of `serve`, and
//! `ending` prints the line of a status on standard error and gives its number.
#![tactic(auto)]

mod ending;
mod opening;
mod running;
#[cfg(test)]
mod tests;
mod words;

use crate::ending::end;
use crate::opening::station_for;
use crate::running::run;
use std::env;
use std::process::ExitCode;
use sz_outside::StdinSource;
use sz_session::Status;

fn main(rt: HostRuntime) -> ExitCode {
    let mut source = StdinSource::new(&rt);
    let Ok(mut station) = station_for(&rt, rt.alloc(), env::args(&rt)) else {
        return end(&rt, Status::NoMemory);
    };
    run(&rt, rt.alloc(), env::args(&rt), &mut source, &mut station)
}
