//! What a session does with the versions of its flows: a start computes their values and makes a
//! shelf for each node that keeps a store, an await makes the stores whole, an ask along a path of
//! one looks at what its nodes keep, and the versions that a log gave are computed again, beside the
//! stores that were read of them, when they are first asked. No line is read here and nothing is
//! said.
//!
//! - [`run_version`] starts a version, and hands what is to be made of its stores to workers by
//!   [`Hands`]. What is carried of it from then on is a [`VersionRun`]: the runs of its nodes, and
//!   of each node nothing, a shelf that grows, whole stores, or stores that were read of a log.
//! - [`HeldRuns`] is what is carried of all versions that are held, by their numbers, whether they
//!   were started here or a log gave them: there is one kind of them, and each call is for any.
//!   [`HeldRuns::recalled`] has what the values of those that a log gave are computed of, which is
//!   done when a call first needs them.
//! - [`HeldRuns::inquiry`] finds by what each step of a path is answered, as an [`Inquiry`] that
//!   owns what it uses: it can be answered beside others, in any thread.
//! - [`HeldRuns::whole`] makes what workers left undone, and gives a run with the whole stores,
//!   which [`HeldRuns::replace`] puts in the place of the one that was carried.
//! - [`HeldRuns::hand_merges`] hands the whole stores of a version to a thread, which merges them
//!   on their shelves beside the asks, and [`HeldRuns::merged`] merges what is left and tells how
//!   many kinds of lineage the stores with region pairs have: what is carried from then on has one
//!   region pair for each. Stores that a log gave stay as they were read.
//! - [`body_for`] is the body of a version for a log, with stores that stand for the relation.
//!
//! ```text
//! let run = run_version(rt, alloc, &catalogue, &hands, "f", &base)?;       its values, and shelves
//! runs.add(1, run)?;
//! let run = runs.whole(alloc, rt, &catalogue, 1)?;                         its stores, whole
//! runs.replace(1, run);
//! runs.hand_merges(alloc, rt, &catalogue, &to, 1);                         to a thread
//! let kinds = runs.merged(alloc, rt, &catalogue, 1)?;                      one for each full store
//! let inquiry = runs.inquiry(rt, alloc, &catalogue, 1, dir, &path, &named)?; what a step looks at
//! let found = inquiry.answer(alloc, rt, &mut spare, &mut tally)?;          the cells
//! ```
//!
//! Contracts see a `VersionRun` as a `Trail`, what is carried as a list of `Resident`, and an
//! `Inquiry` as a `Search`. `specs/Stores` says what is kept of a node, `specs/Residents` what is
//! carried, `specs/Views` by what a step is answered, `specs/Searches` what an ask along a path is
//! over, `specs/Recalled` the same of a version that a log gave, and `specs/Merging` what merging
//! changes and tells. That a version that a log gave is answered by the composed relation where its
//! stores stand for it is a law ([`sound_stores_answer_the_relation`]), and so is that the same
//! numbers are told of it ([`sound_stores_tell_the_kinds`]).
//!
//! To whoever changes this crate: what is kept of a node is `NodeKeeping` (`runs`), and each kind
//! of it has a line in `building` (how it begins and ends), in `finding` (the view of it), in
//! `merging` (what is merged of it), in `bodies` (what a log keeps of it), and in `specs/Stores`,
//! `specs/Views`, `specs/Lending`, `specs/Residents` and `specs/Merging`.
#![tactic(auto)]

mod bodies;
mod building;
mod built;
mod cells;
mod finding;
mod held;
mod inquiry;
mod laws;
mod merging;
mod recalled;
mod refreshing;
mod runs;
mod starting;
mod tasks;

pub use bodies::body_for;
pub use built::Built;
pub use held::{HeldRun, HeldRuns};
pub use inquiry::Inquiry;
pub use laws::{sound_stores_answer_the_relation, sound_stores_tell_the_kinds};
pub use refreshing::{RefreshedRun, refresh_version};
pub use runs::{NodeKeeping, VersionRun};
pub use starting::run_version;
pub use tasks::Hands;
