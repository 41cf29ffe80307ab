//! Events of the machine, and what each is told.

/// One step of the machine. Shelves, pieces and asks are named by their numbers, from 0.
#[derive(Clone, Copy, Debug, PartialEq, Eq)]
pub enum Event {
    /// This piece is placed on this shelf.
    Place { shelf: u32, piece: u32 },
    /// This shelf is sealed.
    Seal { shelf: u32 },
    /// This ask looks in the shelf of its next step, and takes that step.
    Look { ask: u32 },
}

/// What an event is told.
#[derive(Clone, Copy, Debug, PartialEq, Eq)]
pub enum Told {
    /// The piece is placed.
    Placed,
    /// The piece was placed before.
    Already,
    /// The shelf was sealed before, and takes no more pieces.
    SealedBefore,
    /// The shelf is sealed.
    Sealed,
    /// The shelf is not sealed: this is the least piece that is not placed.
    Missing { piece: u32 },
    /// The ask took a step, by the placed pieces of a sealed shelf.
    FromStore,
    /// The ask took a step, by all pairs of a shelf that is not sealed, as tracing gives them.
    FromTrace,
    /// The ask had made all its steps.
    Ended,
    /// There is no shelf, no piece or no ask of this number.
    NoSuch,
}
