//! The bytes of a source become lines, and the lines replies that are said to a station, one after
//! another.
//!
//! A [`Feed`] holds a session and the line that has not ended. [`Feed::take_chunk`] takes in the
//! bytes of one read: each line that ends in them has its reply said, and where the session has
//! askers, asks behind one another wait and are answered at the same time. [`Feed::end_input`] does
//! the same of the bytes behind the last newline. Both stop at a [`Halt`].
//!
//! ```text
//! let mut feed = Feed::new(alloc, workers, askers)?;
//! feed.take_chunk(rt, b"{\"array\":\"a\",", station, gate)?;       says nothing yet
//! feed.take_chunk(rt, b"\"cells\":[[5]]}\n{", station, gate)?;     says 1 array a 1
//! feed.end_input(rt, station, gate)?;                             says 2 refused 1
//! ```
//!
//! What bytes tell as they come, and the moment that they leave, are functions of `specs/Moments`,
//! and both go by parts, so that nothing depends on how many bytes a read gives. `specs/Serving`
//! says what was said of a source by then (`Answered`, `Done`, a first part, the first so many
//! lines); `specs/Disks` that the disk is as before, or what the making of a log leaves of it;
//! `specs/Running` what a stop finds of lines beside their log; and `specs/Calls` what a call does
//! to its station: what was said, what the counts of faults tell of how it ended (`CountsTell`),
//! and what a stop finds, of a session of no log as of one whose log stays (`IsAnswered`).
//! `specs/Laws` has what a reader may take for granted of lines and transcripts, proved in
//! `sz_session`'s `laws`.
//!
//! To whoever changes this crate: a feed is at each turn *like* the moment of what was read
//! (`AreAlike`), since it keeps less of a line past the limit. All that this rests on of a line's
//! meaning is that one which is too long is refused for that. What waits is told by
//! `specs/Waiting`.
#![tactic(auto)]

mod feed;

pub use feed::{Feed, Halt};
