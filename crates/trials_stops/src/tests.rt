//! The tests, and what they share.

mod again;
mod changed;
mod ended;
mod modes;
mod refreshed;
mod rows;
mod stopped;
