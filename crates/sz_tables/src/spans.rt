//! Slices of one list by number.

/// Where a slice of a list begins, and where it ends.
#[derive(Clone, Copy)]
pub struct Span {
    pub start: usize,
    pub end: usize,
}
