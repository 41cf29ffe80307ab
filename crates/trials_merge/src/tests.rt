//! The tests, and what they share.

mod bench;
mod held;
mod hired;
mod small;
mod tasks;
