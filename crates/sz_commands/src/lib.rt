//! A session: what one line does to it, and several asks at the same time.
//!
//! [`Session::command`] gives the reply of a line: it has the line read and judged, and then taken
//! by the catalogue (`accept`), started, refreshed, awaited, merged, answered along its path, or
//! shown, by what `sz_versions` does with versions. Its clauses say the reply and what is held then
//! (`Responds` of `specs/Commands`, by `after_line` of `specs/States`), how many cells were traced
//! for it, and of the station beside it what a stop at any moment leaves. [`Session::asks`] answers
//! as many asks at the same time as there are askers, each in a thread, and gives their replies in
//! their order.
//!
//! ```text
//! let mut session = Session::fresh(alloc, workers, askers)?;
//! let reply = session.command(rt, line, number, &mut station, &gate, &mut tally)?;
//! ```
//!
//! Contracts see a session as a `SessionState`: its catalogue, beside it the stores that a log
//! gave, and of each version what stands of what is kept of its nodes, be it a shelf, stores that
//! were built, or stores that were read. `specs/Carrying` says what a line does to these
//! (`StoredBehind`): a start and a refresh add those of their version, the first await of a version
//! leaves none of its nodes on a shelf, a line that tells what a merge gave leaves the stores of
//! its version merged, and every other line leaves all.
//!
//! A log that was opened is gone on from by [`Session::of_log`]: it holds what the log holds,
//! and answers of each version by the stores that were read of it, whatever they stand for
//! (`cells_recalled` of `sz_versions`). Where they stand for the relation that is the composed
//! relation. The values of a version's nodes are computed again when a line first needs them.
//!
//! What a command of such a session makes durable is written to the log before its reply is given
//! (`logging`): an accepted line that holds an array or a flow or sets strategies, the array that a
//! refresh makes, as a line that holds it, and a version at its first await, with stores that stand
//! for the relation. `specs/Logged` says what the station has beside the session (`HasLog`), what a
//! command makes of it (`KeepsLog`) and what a stop leaves (`StopsInLog`). `specs/Faults` says
//! which counts of faults a line raises (`CountsTell`): one of the disk where a call of it failed,
//! which comes only for a line that is written (`written`), and else none, also where there is no
//! memory. `specs/Lines` says what the lines of a text are, and `specs/Transcript` what a session
//! says to all of them. `docs/FORMATS.md` describes lines and replies.
//!
//! To whoever changes this crate: the catalogue has the versions, and beside it the session has
//! what is carried of each (`HeldRuns` of `sz_versions`). What is kept true of both is
//! `IsInService`: each version has what is its own, and there is nothing else. A call that changes
//! the one changes the other. Before an await the tally of an ask is known from below and above,
//! and once the version is awaited exactly.
#![tactic(auto)]

mod asking;
mod blank;
mod logging;
mod merging;
mod open_log;
mod refreshing;
mod session;

pub use asking::AskLine;
pub use blank::is_blank;
pub use session::{Given, Session, Stop};
