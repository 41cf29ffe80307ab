//! What a session holds: arrays and flows by name, and versions by number.
//!
//! A [`Catalogue`] judges a command, takes one that no rule refuses, and is read by name and by
//! number. A start, a refresh and an await are calls of their own. [`reply_text`] writes the line
//! of a [`Reply`].
//!
//! ```
//! let mut held = Catalogue::new(alloc);
//! match held.judge(alloc, &command) {
//!     Ok(()) => held.accept(command)?,                 // array a 1
//!     Err(LineFault::Refused(rule)) => Reply::Refused(rule),
//!     Err(LineFault::NoMemory) => return Err(NoMemory),
//! }
//! ```
//!
//! Contracts see a catalogue as its `Holdings`, and a reply as a `Response`. `judged` of
//! `specs/Rules.antt` is the ordered table of the rules that refuse a command; `accepted` of
//! `specs/Changes.antt` is what any other command changes and is answered.
//!
//! To whoever changes this crate: a version keeps the shapes of its outputs and no values. So what
//! is judged is found from shapes alone, and the count of the cells held is that of the arrays and
//! of these shapes (`specs/Kept.antt`). What is true of all that is held, and told by
//! [`Catalogue::is_in_order`], stands in `specs/Order.antt`. A further command is a line in
//! `rules_of`, in `accepted` and in `changes_no_version`, a function in `catalogue/judging.rt`, and
//! one in `catalogue/accepting.rt` where it changes what is held; `proofs/Order.antt` has a lemma
//! for each change.
#![tactic(auto)]

mod arrays;
mod catalogue;
mod flows;
pub mod laws;
mod lists;
mod memory;
mod paths;
mod reply;
mod shapes;
mod sites;
mod strategies;
mod version;
mod versions;

pub use catalogue::Catalogue;
pub use lists::{BaseArrays, StrategyLists};
pub use reply::{Reply, reply_text};
pub use shapes::cells_of;
pub use sites::site_over;
pub use strategies::{is_list_for, names_a_store};
pub use version::{BaseArray, HeldVersion, base_shapes};
