//! What the calls of a shelf answer.

use crate::read_by::ReadBy;

/// What the placing of a piece is told.
#[derive(Clone, Copy, Debug, PartialEq, Eq)]
pub enum Placed {
    /// The piece is placed.
    New,
    /// The piece was placed before.
    Already,
    /// The store was sealed before, and takes no more pieces.
    Sealed,
}

/// What a seal is told.
#[derive(Clone, Copy, Debug, PartialEq, Eq)]
pub enum SealReply {
    /// The store is sealed.
    Sealed,
    /// It is not: this is the least piece that is not placed.
    Missing(u32),
}

/// What a look is told.
#[derive(Clone, Copy, Debug, PartialEq, Eq)]
pub enum Look {
    /// The image is added, by the store that was read.
    Done(ReadBy),
    /// The store is not sealed, and nothing is added. The least piece that is not placed, or the
    /// number of pieces.
    Unsealed { missing: u32 },
}
