//! The tests, and what they share.

mod bench;
mod rows;
mod stores;
mod threads;
mod views;
