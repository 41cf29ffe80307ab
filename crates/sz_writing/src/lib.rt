//! The line of an array: [`line_of_array`] writes the line that orders an array to be held under a
//! name, such that it is read as that array again.
//!
//! ```
//! // an array of one layer that holds 1, and nothing beside it, under the name a:
//! // {"array":"a","cells":[[1,null]]}
//! // with a second layer, of 2 and 3: {"cells":[[[1,null]],[[2,3]]],"layers":"a"}
//! ```
//!
//! `cells` makes the JSON value of the cells, from a cell over a row to layers, and `line` the
//! object of a line. What a line is read as is defined in `sz_script`, specs/Reading.
#![tactic(auto)]

mod cells;
mod line;

pub use line::line_of_array;
