//! The shelf of an operator of a version: its stores, filled piece by piece by several threads, and
//! looked into by others, one at a time.
//!
//! A [`Shelf`] has a flag, a count and a slot. In the slot lie the stores, beside the list of the
//! placed pieces in their order. A [`Pass`] is the right to take turns. Whoever wins the flag has
//! the turn: it takes the stores out, does its one thing, gives them back, and lets the flag go.
//! Whoever waits for it lets other threads run. So a shelf is in one of the states that the pure
//! machine of sz_core has, and each call answers as that machine does.
//!
//! - [`Shelf::make`] makes a shelf on which nothing is placed, and its first pass.
//! - [`Shelf::split`] makes one pass more, for one thread more; [`Shelf::join`] puts a pass into
//!   another, once its thread is done.
//! - [`Shelf::place`] places the lineage of a piece, once, while the shelf is not sealed;
//!   [`Shelf::place_as`] may tell beside it that its region pairs have the images of output cells.
//! - [`Shelf::seal`] seals it, where every piece is placed.
//! - [`Shelf::look`] adds the image of a set of cells, where it is sealed: an unsealed store is
//!   never read.
//! - [`Shelf::sealed_now`] tells by one load, without a turn, whether it is sealed.
//! - [`Shelf::store_of`] hands out the sealed stores, which the pass keeps for [`Pass::kept`];
//!   [`Shelf::swap`] puts others in their place that stand for the same.
//!
//! ```text
//! let (shelf, mut pass) = Shelf::make(alloc, at, &inputs, &list)?;
//! shelf.look(rt, &mut pass, s, dir, 0, &from, &mut to);   // Unsealed { missing: 0 }
//! shelf.place(rt, &mut pass, &lineage)?;                  // New, and once more Already
//! shelf.seal(rt, &mut pass);                              // Missing(1), or Sealed
//! shelf.look(rt, &mut pass, s, dir, 0, &from, &mut to);   // Done, by the store of s, once it is
//!                                                         // sealed
//! ```
//!
//! # What is proved
//!
//! Contracts see of a pass the placed list as it has seen it, whether it saw the seal, how many
//! turns and loads it made, how many passes were split off it, and what its last turn found. For
//! passes in any threads:
//!
//! - Each call with a turn takes exactly one, and splits no pass off that could take another. What
//!   it found, and what it has seen by the turn's end, begin with what it had seen, and have no
//!   piece twice.
//! - A split is counted by the pass that it is made of, and a join adds up the turns, loads and
//!   splits of both, so that no call has steps made by a pass that nobody sees.
//! - Its answer is the pure machine's reply to what it found, and it leaves the machine's next
//!   state. A pass that saw the seal gets no unsealed answer again.
//! - An image that was added is exactly the image under the operator's relation, and what the pure
//!   machine's ask then holds; stores that are handed out stand for exactly that relation.
//! - A look that is done names the strategy whose store was read ([`ReadBy`]), and it is the one
//!   that was asked for.
//! - Stores that are not sealed are read by no call: [`Shelved::store`] asks for the seal.
//!
//! The views behind these words are ghosts. [`laws`] says what they mean: the rule that holds
//! between any two steps, and what each kind of step changes on the words, the slot and each view.
//! [`standing`] says what the stores stand for, [`Shelved::standing`] that those in the slot do,
//! and [`matching`] that the machine is given the tag's relation.
//!
//! # What is not
//!
//! - Nothing is said of who gets a turn, nor that anybody does, nor how long one waits.
//! - That no step is made but those of the kinds that the laws name is read in `src/words.rt`.
//! - A pass that is dropped in a turn would leave the shelf taken. No call of this crate drops one:
//!   each takes the pass by reference, says that its turn has ended, and makes none beside it.
//!
//! To whoever changes this crate: `src/rule.rt` has the kinds of step, `specs/Rule` and
//! `specs/Steps` what they keep and tell, `proofs/Moves` one lemma for each. `src/words.rt` alone
//! reaches the table. What is done to the stores in a turn is a method of [`Shelved`], which knows
//! no turns.
#![tactic(auto)]

mod answers;
pub mod laws;
pub mod matching;
mod pass;
mod read_by;
mod rule;
mod shelf;
mod shelved;
pub mod standing;
mod stored;
mod tag;
mod words;

pub use answers::{Look, Placed, SealReply};
pub use pass::Pass;
pub use read_by::ReadBy;
pub use shelf::Shelf;
pub use shelved::Shelved;
