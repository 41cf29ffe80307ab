//! Stored lineage: its values and its bytes. Region pairs, payload entries and the lineages of
//! pieces are those of `sz_frame`; here stand the bytes of cell sets, and of stores: region pairs
//! and payload entries over numbered sets. `docs/FORMATS.md` describes them.
//!
//! [`put_set`] and [`take_set`] write and read the bytes of a cell set, [`put_regions`] and
//! [`take_regions`] those of a store of region pairs, [`put_entries`] and [`take_entries`] those of
//! a store of payload entries. A store that has its sets by number already writes them by
//! [`put_numbered`] or [`put_numbered_entries`]; one whose sets are told one after another writes
//! their number by [`put_number`], each by [`put_listed`], and the rows of their names by
//! [`put_rows`].
//!
//! ```
//! let mut bytes = Vec::new(alloc);
//! put_set(&set, &mut bytes)?;
//! // what was written is read again, and what was written behind it follows
//! let taken: Take = take_set(alloc, &bytes, 0, set.rows(), set.cols())?;
//! ```
//!
//! To whoever changes this crate: what is read is told over the bytes, by where a store begins and
//! where it ends (`specs/Stores`), and each part is read in one way only. [`laws`] says that what
//! is written is read again whatever follows it.
#![tactic(auto)]

mod apart;
pub mod laws;
mod limits;
mod numbers;
mod put_full;
mod put_pay;
mod set_bytes;
mod tables;
mod take_full;
mod take_pay;

pub use limits::shapes_are_within_limits;
pub use numbers::{put_number, put_rows, take_number};
pub use put_full::put_regions;
pub use put_pay::put_entries;
pub use set_bytes::{Take, put_set, take_set, take_set_runs};
pub use sz_frame::{
    AtWork, Folding, MapOf, Mapped, Mapping, PayEntry, Payload, PieceLineage, Region, SetList,
    add_cell, at_work, has_cell, image_by, input_of, output_with, piece_by, right_shapes, run_by,
    set_of_cell, trace_by,
};
pub use tables::{ListedPayload, ListedSet, put_listed, put_numbered, put_numbered_entries};
pub use take_full::{MOST_ROWS, take_listed_runs, take_regions};
pub use take_pay::take_entries;
