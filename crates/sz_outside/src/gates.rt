//! The places at which a test may hold up a worker or an asker.

/// Is called where a test may want to wait or to look. The program passes one that does nothing. A
/// session calls it after asks, and a worker before each piece that it takes up.
///
/// It is `Send` and `Sync`, since threads share it, and `Drop`, since a thread's body must be able
/// to let go of the gate that it holds.
pub trait Gate: Send + Sync + Drop {
    /// Before a worker takes up this piece of the node.
    fn at_piece(&self, version: u32, node: u32, piece: u32);

    /// When the answer of the ask or explain of this line was found.
    fn after_ask(&self, line: u64);
}

/// A gate that does nothing.
#[derive(Clone, Copy, Debug, Drop, PartialEq, Eq)]
pub struct NoGate;

impl Gate for NoGate {
    fn at_piece(&self, _version: u32, _node: u32, _piece: u32) {}

    fn after_ask(&self, _line: u64) {}
}
