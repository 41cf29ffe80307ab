//! The session that a number makes, and the line that sums it up.
//!
//! - [`session_text`] writes the 42 lines of a session: an image and a table of draws, a flow over
//!   both, its strategies, its start, three asks, the await, and thirty asks more.
//! - [`summary_text`] writes one line with the seed, the side, the number of lines and the SHA-256
//!   digest of the replies.
//!
//! The same seed and side always make the same text, so two runs of one session are compared by
//! their summaries alone.
//!
//! ```rust
//! let text = session_text(rt.alloc(), 0, 2)?;
//! // {"array":"img","cells":[[807,424],[937,236]]}, and 41 lines more
//! let line = summary_text(rt.alloc(), 0, 2, 42, replies)?;
//! // load seed 0 side 2 lines 42 sha256 .., with 64 digits for the two dots
//! ```
//!
//! `specs/Session.antt` says line by line what the text is, and `specs/Draws.antt` what a draw is.
//! `draft` writes it from left to right: each of its calls appends one definition's text and leaves
//! the generator's number after that definition's draws.
#![tactic(auto)]

mod draft;
pub mod laws;
mod load;

pub use load::{session_text, summary_text};
use std::alloc::AllocError;

/// There was no memory for what the call had to make.
#[derive(Clone, Copy, Debug, Drop, PartialEq, Eq)]
pub struct NoMemory;

impl From<AllocError> for NoMemory {
    fn from(_: AllocError) -> Self {
        NoMemory
    }
}
