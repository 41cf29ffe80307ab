//! Workers: threads that make the lineage of a node's pieces and place it on the node's shelf, and
//! the call that finishes what they left undone.
//!
//! A [`Task`] is one node of one version: its operator at its shapes, the arrays that it takes,
//! what was prepared for them, its strategies, its shelf with a pass, and the claims on its pieces
//! with a pass. Several tasks of one node, each with passes of its own, may be worked on at once.
//!
//! - [`work`] claims each piece of a task, makes what it won, places it, and seals at its end.
//! - [`attend`] works on each task that comes through a channel, until the channel closes.
//! - [`finish`] makes and places what is missing on a shelf, and seals it, whatever workers did.
//! - [`tasks`] makes the channel, [`hand_out`] sends a task, and [`employ`] starts a thread that
//!   attends. A task that is not sent and a thread that is not started are no error: `finish` does
//!   that work.
//!
//! ```text
//! let (to, from) = tasks(alloc)?;
//! let worker = employ(alloc, rt, &gate, &from)?;
//! hand_out(rt, &to, task)?;
//! finish(alloc, rt, &run, &list, &shelf, &mut pass, &mut tally)?;   // the shelf is sealed
//! drop(to);
//! worker.join(rt);
//! ```
//!
//! # What is proved
//!
//! - After `work` each piece is claimed by the task's pass or was met claimed, and each was tried
//!   once. Where it answers, each piece that it claimed is placed, the tally rose by exactly their
//!   cells, and its reply says exactly what the pass has seen. Where a piece is refused for memory,
//!   it answers that there was no memory, and each piece is claimed all the same.
//! - After `finish` the pass saw the seal, or there was no memory. The tally rose by at most the
//!   cells of the pieces that the pass had not seen.
//! - Passes only grow, in whatever they saw and claimed, and a lineage that does not fit is never
//!   placed.
//!
//! # What is not
//!
//! - Nothing is said of whether a worker does anything, nor of who takes up which piece, nor when.
//!   That `attend` calls `work`, that a task arrives, and that a thread runs is only tested.
//! - Nothing is said of how long a turn at a shelf is waited for. A promise holds if its call
//!   returns.
//! - Where a piece is refused for memory, its cells are in no tally, though some were looked at.
//!   Nothing is said of which pieces behind it are made.
//! - A piece that a worker is making may be made by `finish` as well. One of the two is placed.
//!
//! To whoever changes this crate: `src/maker.rt` makes one piece and places it, for `work` and
//! `finish` alike. `src/trying.rt` has one try of a piece, `specs/Tries` what it does, and
//! `proofs/Following` how tries follow one another.
#![tactic(auto)]

mod finishing;
mod hiring;
mod maker;
mod making;
mod task;
mod trying;
mod working;

pub use finishing::finish;
pub use hiring::{Receiver, Sender, attend, employ, hand_out, one_more, tasks};
pub use making::make_task;
pub use task::{StrategyList, Task};
pub use working::work;
