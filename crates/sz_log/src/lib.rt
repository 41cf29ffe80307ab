//! A log on the disk of a station: groups of bytes, each behind a gate.
//!
//! A log begins with a header, and its groups follow from byte 16 on: a gate, a kind, the length of
//! a body, and the body. A gate is open where its byte is 1, and the first closed gate ends the
//! log. A group is written behind the closed gate, with a closed gate behind it, and is synced; the
//! gate is opened by a write of its own, which is synced too. So a stop of the machine at any
//! moment leaves the log without the group or with it whole. What the body of a group means is not
//! known here.
//!
//! ```
//! let mut station = MemStation::new(alloc, Vec::new(alloc), Vec::new(alloc), Vec::new(alloc))?;
//! let end = init(&mut station)?;
//! let end = append(&mut station, end, 1, b"{}")?;
//! // group_at(&mut station, 16)? is Group::Whole { kind: 1, body: 26, length: 2, next: 28 },
//! // and end.at is 28
//! ```
#![tactic(auto)]

ghost use Rattle.sz_log.specs.Terms.{GroupsAreRead};

mod appending;
mod groups;
mod making;
mod writing;

pub use appending::append;
pub use groups::{Group, group_at, is_kind, is_log};
pub use making::init;
use sz_outside::Failed;

/// Where the first closed gate of a log stands.
#[derive(Clone, Copy, Debug, Drop, PartialEq, Eq)]
pub struct LogEnd {
    pub at: u64,
}

/// Why a disk was not made a log.
#[derive(Clone, Copy, Debug, Drop, PartialEq, Eq)]
pub enum LogFault {
    /// A call of the disk failed.
    Failed,
    /// The disk is no log, and has more bytes than what a stop of `init` leaves.
    NotALog,
    /// The disk begins as a log.
    AlreadyALog,
}

impl From<Failed> for LogFault {
    ghost use Rattle.std.specs.Prelude.{◌≡◌};
    ghost use Rattle.sz_log.specs.declared.LogFault.TheVariants.{Failed};

    ghost from_gives = { λ _ e. e ≡ Failed };

    fn from(_failed: Failed) -> LogFault {
        LogFault::Failed
    }
}

/// The groups of a log are those that are read at one place after another from byte 16 on.
pub fn groups_are_read()
    ensures { GroupsAreRead }
{}
