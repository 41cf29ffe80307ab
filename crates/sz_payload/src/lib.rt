//! Payload and composite lineage: what the payloads of an operator stand for, and stores of them.
//!
//! A [`PayMap`] maps output cells by their payloads, for an operator that has payloads: lookup,
//! connected regions and cleaning. A [`PayStore`] keeps payload entries of one operator, each
//! different set and each different payload once, with an index of the entry that each output cell
//! is in. Where it is one of composite lineage, a cell that is in no entry has the default.
//!
//! - [`PayStore::new`] makes a store without an entry, whose entries are found by single cells or
//!   by rectangles round their sets. Both answer alike.
//! - [`PayStore::reserve_piece`] takes the memory for the entries of a lineage.
//! - [`PayStore::add_piece`] adds them, and takes none.
//! - [`PayStore::image`] adds the image of a set of cells, backward or forward.
//! - [`PayStore::put_bytes`] writes its entries, and [`PayStore::take_bytes`] reads them again, if
//!   each payload of the bytes is one of the operator.
//!
//! ```
//! let mut store = PayStore::new(alloc, PayMap::new(at), other, false, true)?;
//! store.reserve_piece(&lineage)?;
//! store.add_piece(&lineage);
//! store.image(Dir::Back, 0, &asked, &mut found);     // the cells of input 0 behind the asked ones
//! ```
//!
//! To whoever changes this crate: an operator that has payloads is a file (`lookup`, `regions`,
//! `clean`) and a line of `table`. What an image is rests on the index by `IsOwnerOf` of
//! `specs/Owned` alone, the number of an entry that has the cell: no cell is in two. A look keeps
//! what the payload before showed (`IsDone`, `IsTested` of `specs/Looks`), where that payload
//! stands for the same cells whichever its output cell is.
#![tactic(auto)]

mod back;
mod clean;
mod counting;
mod forward;
mod look;
mod lookup;
mod owner;
mod pay_map;
mod regions;
mod runs;
mod store;
mod table;
mod taking;

pub use pay_map::PayMap;
pub use store::PayStore;
