//! Lines to commands: [`read_line`] reads one line of a session as a [`Command`], or tells the
//! first rule that refuses it.
//!
//! A line is JSON with exactly the fields of one form. The rules are tested in this order: the line
//! is too long, no JSON, of no form; a name is none; the cells of an array are bad, or too many; a
//! flow has a fault. A command that is read has right names and a right flow. Whether it is
//! accepted beside what is held is not judged here.
//!
//! ```
//! // read_line(alloc, br#"{"await":1}"#) gives Ok(Command::Await { version: 1 })
//! // read_line(alloc, br#"{"await":-1}"#) gives Err(LineFault::Refused(Refusal::NoForm))
//! ```
//!
//! The definitions are tables, in specs/: the forms in Forms with a file for each, the operators of
//! a node in Nodes, words in Words, and the rules in Drafts. [`laws`] says that each refusal comes
//! exactly where its rule holds and none before it.
#![tactic(auto)]

mod command;
mod each;
mod fields;
mod forms;
mod kernels;
pub mod laws;
mod layers;
mod lists;
mod name;
mod nodes;
mod reading;
mod records;
mod refusal;
mod words;

pub use command::{BaseName, Command, LineFault, NamedCell, NewCell, PathStep};
pub use lists::{BaseList, NamedCells, NewCells, Path, StrategyList};
pub use name::{Name, is_name};
pub use reading::{LINE_LIMIT, read_line};
pub use refusal::{Printed, Refusal};
pub use words::{strategy_name, strategy_named};
