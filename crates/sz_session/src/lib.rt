//! A session: lines in, reply lines out.
//!
//! [`serve`] is the program's one call: it does what the words of the command line ask for. Words
//! that are refused end with Usage, or where there was no memory for reading them, and nothing was
//! touched (`refused`, `untouched`); a mode that reads no lines leaves the source as it was
//! (`unread`); and each mode has one clause, a record of `specs/Modes` with a field for each fact:
//! what was read and said by each status (`ends`), what the counts of faults tell (`counted`), and
//! what a stop at any moment of the call finds (`found`).
//!
//! - `play` reads a source to its end, and for each line that is not blank it says one reply line
//!   to a station, before it reads on. Where source and station tell their bytes, what was said is
//!   all of the session's transcript, the replies of the whole lines that were read, a first part
//!   of the transcript, or the first so many of its lines, by each of its endings. Nothing depends
//!   on how many bytes a read gives, nor on how many workers there are or what they do.
//! - `load` says the one line that sums up the replies of a session that is made from a seed and a
//!   side (`sz_gen`).
//! - `init` makes the disk the empty log, and one line says so, or the disk stays as it is, since
//!   it is a log already or too long.
//! - `check` opens the log on the disk and compares its stores with what the operators relate, and
//!   one line says what was found (`specs/Checking`). A disk that does not begin as a log, and a
//!   log with a bad group, have statuses of their own.
//! - `upgrade` opens the log and raises it to format 2 in place where it has format 1, and one line
//!   says its format (`specs/Raising`). A stop at any moment leaves the log as it was or raised.
//! - `run` opens the log, and the session goes on from it (`specs/Continuing`): what is said is the
//!   transcript from what the log holds, and a stop at any moment finds the replies of so many
//!   lines said, and perhaps a part of the next one, and leaves a well-made log of what is durable
//!   behind those lines, or behind one more.
//!
//! What follows of these clauses are the laws of [`endings`]: what was said by each status (`done`,
//! `after_say_fault`, `ready`, `checked`, `said`, ..), that a call is done only where no fault was
//! counted (`quiet`), nor ends for want of memory where one was
//! ([`endings::want_of_memory_hides_no_fault`]), that there is no other ending without one
//! (`completes`, `init_completes`, `check_completes`, `upgrade_completes`, `run_completes`), which
//! statuses come where and nowhere else (`unlike`, `broken`, `barred`, ..), and that each exit
//! number is that of one status.
//!
//! ```text
//! {"array":"a","cells":[[5]]}                                         1 array a 1
//! {"flow":"f","inputs":1,"nodes":[{"op":"neg","from":[{"i":0}]}]}     2 flow f
//! {"start":"f","base":[["a",1]]}                                      3 started 1
//! {"await":1}                                                         4 done 1
//! {"ask":1,"dir":"back","path":[[0,0]],"cells":[[0,0]]}               5 cells 1 0,0
//! {"show":1,"node":0}                                                 6 values 1 1 -5
//! ```
//!
//! The path of a line: `serving` reads chunks, `sz_feed` cuts them into lines and says their
//! replies, `Session::command` of `sz_commands` gives the reply of each, and `sz_versions` starts,
//! ends and asks versions. `staff` is the threads. `docs/FORMATS.md` describes lines and replies,
//! `docs/DEFINITIONS.md` reads the definitions aloud.
//!
//! Contracts see a session as a `SessionState`: its catalogue, and beside it the stores that a log
//! gave; of a session of no log the catalogue says all ([`laws::sessions_of_no_log_are_plain`]).
//! What is written to a log, and what a stop leaves of it, `specs/Logged` of `sz_commands` says of
//! one command, `specs/Running` of `sz_feed` of lines one after another, and `specs/Continuing` of
//! the whole call.
//!
//! To whoever changes this crate: `serving` carries from turn to turn that every whole line so far
//! has its reply said (`Answered` of `sz_feed`), and the one function that reads asks for it.
//! `specs/Statuses` says what each status tells of what was read and said, and what the counts of
//! faults tell of it in every mode (`AreCounted`); `specs/Sessions` what a turn leaves, and how a
//! session of lines ends; `specs/Checking` what a check tells; `specs/Raising` what a log is made
//! that is raised; and `specs/Modes` puts these together, mode by mode. `proofs/Modes` goes through
//! the modes once (`by-mode`), and each law that speaks of a status in any of them goes by it.
#![tactic(auto)]

mod checking;
pub mod endings;
mod gathering;
pub mod laws;
mod load;
mod making;
mod raising;
mod serving;
mod staff;

pub use serving::{Status, serve};
pub use sz_commands::{AskLine, Session, Stop};
