//! The tests, and what they share.

mod gate;
mod greatest;
mod load;
mod merged;
mod play;
mod refreshed;
mod rows;
