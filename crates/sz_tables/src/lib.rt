//! Tables that stores of lineage are built of: sets of cells and payloads by number, each different
//! one once; region pairs and payload entries as rows of such numbers; and entries under keys, by
//! which a cell's region pairs are found.
//!
//! - [`SetTable`] gives each different set of one shape a number.
//! - [`PayloadTable`] gives each different payload a number.
//! - [`RegionTable`] keeps region pairs as rows of the numbers of their sets.
//! - [`EntryTable`] keeps payload entries as rows of the numbers of their sets and payloads.
//! - [`PairChecklist`] and [`EntryChecklist`] tell whether region pairs, or entries, are those of a
//!   table, by their numbers.
//! - [`Chains`] files entries under keys, and finds those of a key one after another.
//! - [`runs_of_set`] and [`runs_of_region`] count the runs of a set and of a region pair's sets, and
//!   [`bounds_of_set`] puts a rectangle round a set.
//!
//! Each takes the room for what is to come beforehand (`reserve`), so that adding takes no memory.
#![tactic(auto)]

mod apart;
mod chains;
mod checklists;
mod entry_reading;
mod entry_table;
mod looks;
mod payload_table;
mod reading;
mod region_table;
mod room;
mod scans;
mod set_table;
mod sets;
mod spans;

pub use chains::Chains;
pub use checklists::{EntryChecklist, PairChecklist};
pub use entry_table::{EntryRow, EntryTable};
pub use payload_table::PayloadTable;
pub use region_table::RegionTable;
pub use scans::Seen;
pub use set_table::SetTable;
pub use sets::{bounds_of_set, runs_of_region, runs_of_set};
