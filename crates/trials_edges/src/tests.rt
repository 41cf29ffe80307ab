//! The tests, and what they share.

mod claims;
mod generated;
mod groups;
mod sources;
mod stations;
mod words;
