//! What a log holds: its groups act on a catalogue, and the body of a version's group says which
//! version it is, and has its stores.
//!
//! - [`catalogue_of`] opens a log: it gives its format, the catalogue that its groups make, where
//!   its first closed gate stands, and the stores of its versions; or the place of its first bad
//!   group.
//! - [`unsound`] tells which store of an opened log, if any, does not stand for exactly the
//!   relation of its node's operator: it runs each version again.
//! - [`version_body`] writes the body of a version that is held.
//! - [`take_version_body`] reads the version that a body says, with its stores, over what is held.
//!   What it gives can be added to the catalogue.
//!
//! ```
//! let body = version_body(alloc, &catalogue, version, &stores, 2)?;
//! // over a catalogue that holds its flow and its base arrays, and no version of its number
//! let taken = take_version_body(rt, alloc, &other, &body, 2)?; // taken.number == version
//! let opened: Recovered = catalogue_of(rt, alloc, &mut station)?;
//! let wrong = unsound(rt, alloc, &opened)?;   // None: each store is sound
//! ```
//!
//! `specs/Logs` says what each kind of group does (`Acts`), which logs are well made
//! (`IsWellMade`), and which is the first bad group (`IsFirstBad`). What is opened has an entry for
//! each version that is held, and no other (`AreOfVersions` of `specs/Opened`), also where the disk
//! is not told; `specs/Soundness` says when its stores are sound.
//!
//! A group is added by `append` of `sz_log`, at the end that `catalogue_of` gave: a well-made log
//! ends there as that asks (`MadeLogsEnd` of `specs/Growing`). A group that acts on what the log
//! holds makes of it a well-made log again (`MadeLogsGrow`, by the clauses `added` and `end`), and
//! so does what a stop leaves on the way (`LogsGrowOrStay`, by the clause `stops`); which groups
//! act, `LinesAct`, `AwaitsAct` and `UpgradesAct` say. All are [`laws`].
//!
//! `IsBodyOf` of `specs/Bodies` is what a body is; `Fit` of `specs/Fitting` is which stores fit a
//! version, and `body_of` what its body says.
//!
//! That bytes are a body in one way only, and that a body that is written is lawful, are laws
//! ([`laws`]); `IsLawful` of `specs/Lawful` has each condition as a test with its name.
//!
//! To whoever changes this crate: a body says no shape. Its cell sets are read between the shapes
//! that its version has, so what a body says is told over the operators at their shapes
//! (`sites_of`). Each part is read by a function that says where the part ends, and where none is
//! there, that none is (`specs/Taking`): no word of a part begins another one of the same part, so
//! what was read in front is what every body says in front. A further condition on a body is a test
//! in `specs/Lawful`, and is known where the part that it is on is read.
#![tactic(auto)]

mod checking;
mod groups;
pub mod laws;
mod opening;
mod ticking;

pub use checking::{WrongStore, unsound};
pub use groups::{KeptVersion, version_kind};
pub use opening::{RecoverFault, Recovered, catalogue_of};
pub use sz_bodies::{TakeFault, TakenVersion, take_version_body, version_body};
