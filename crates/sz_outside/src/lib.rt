//! The edges of the program: where bytes come from, where they go, where they are kept, and where a
//! test may hold up a thread.
//!
//! A [`Source`] gives bytes by `read`. A [`Station`] takes what the program says by `say`, and
//! holds one disk, with `size`, `read_at`, `write_at`, `cut` and `sync`. Each counts its faults,
//! and answers `Failed` only where the count rose in that call. A [`Gate`] is called as a piece of
//! work begins and as an ask was answered. The rest of the program is written for any of them.
//!
//! In memory there are `MemSource`, `SteadySource` and `MemStation`. They tell their bytes, so that
//! a contract can speak of what was read, said and written, and they fail at the calls whose
//! numbers they are given. `StdinSource` and `FileStation` stand over the real streams and a real
//! file, of whose bytes nothing is told. `NoGate` holds up nobody.
//!
//! ```
//! let mut source = MemSource::new(b"12345".to_vec(alloc)?, 2, Vec::new(alloc));
//! let mut station = MemStation::new(alloc, Vec::new(alloc), Vec::new(alloc), Vec::new(alloc))?;
//! let mut piece = [0; 8];
//! let count = source.read(&mut piece)?;
//! station.say(&piece[..count])?;
//! // station.said() is b"12", and source has b"345" left
//! ```
//!
//! # What a stop leaves of a disk
//!
//! Until a `sync` is answered by Ok, the machine may stop and leave any bytes where some were
//! written, and any size from the old one to the new one; a cut may be lost as a whole. The bytes
//! elsewhere stay. A write or a cut that failed is no better than one that was done. Behind a sync
//! a stop leaves what a read gives. The clauses `stops` of a station say this of each call, and
//! `MemStation` gives three of the images:
//!
//! ```
//! let disk = [5, 6, 7].to_vec(alloc)?;
//! let mut station = MemStation::new(alloc, disk, Vec::new(alloc), Vec::new(alloc))?;
//! station.write_at(2, &[20, 21])?;
//! // a read gives 5 6 20 21; a stop leaves 5 6 and then one byte or two, whichever they are:
//! // image(alloc, Torn::Old) is 5 6 7, Torn::New is 5 6 20 21, and Torn::Ones is 5 6 1 1
//! station.sync()?;
//! // each image is 5 6 20 21
//! ```
//!
//! A station made by `MemStation::stopped` lets some disk calls pass and fails all others, so a
//! test can stop a body after each of its disk calls, and open each image again.
#![tactic(auto)]

mod adapters;
mod cursor;
mod gates;
mod history;
mod sources;
mod stations;
mod streams;
mod volumes;

pub use adapters::{FileStation, StdinSource};
pub use gates::{Gate, NoGate};
pub use sources::{MemSource, Source, SteadySource};
pub use stations::{MemStation, Station, Torn};
use std::alloc::{AllocError, AllocFailed};

/// There was no memory for what the call had to make.
#[derive(Clone, Copy, Debug, Drop, PartialEq, Eq)]
pub struct NoMemory;

impl From<AllocError> for NoMemory {
    fn from(_fault: AllocError) -> NoMemory {
        NoMemory
    }
}

impl<T: Drop> From<AllocFailed<T>> for NoMemory {
    fn from(_fault: AllocFailed<T>) -> NoMemory {
        NoMemory
    }
}

/// The call did not do its work, and its fault was counted.
#[derive(Clone, Copy, Debug, Drop, PartialEq, Eq)]
pub struct Failed;

#[cfg(test)]
mod tests;
