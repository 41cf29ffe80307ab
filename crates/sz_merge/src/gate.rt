//! Gates: what is called while the stores of a task are merged.

/// Called between two turns at a shelf. It may wait, as one of a test does to hold a merge; the
/// shelf is free while it does.
pub trait MergeGate: Send + Sync + Drop {
    /// When the merged stores of a shelf are made, before they are put in the place of its own.
    fn before_swap(&self);
}

/// A gate that does nothing.
#[derive(Clone, Copy, Debug, Drop, PartialEq, Eq)]
pub struct NoMergeGate;

impl MergeGate for NoMergeGate {
    fn before_swap(&self) {}
}
