//! Payloads, and the entries that keep them.

ghost use Rattle.std.specs.Prelude.{◌≡◌};

use std::marker::Model;
use std::sync::Arc;
use sz_cells::CellSet;

/// The bytes that are kept for cells in place of their lineage. Contracts see the list of them.
#[derive(Debug, Drop)]
pub struct Payload {
    bytes: Vec<u8>,
}

impl Model for Payload {
    ghost use Rattle.std.specs.Prelude.{ℕ, List};

    ghost Value = { List ℕ };

    ghost view = { λ p. p.bytes.items };
}

impl Payload {
    /// The payload of these bytes.
    pub fn of(bytes: Vec<u8>) -> Payload
        ensures { result ≡ bytes.items }
    {
        Payload { bytes }
    }

    /// The bytes.
    pub fn bytes(&self) -> &[u8]
        ensures { result.now ≡ self.now }
    {
        &self.bytes
    }
}

/// A payload that is kept for a set of output cells.
#[derive(Drop)]
pub struct PayEntry {
    pub out: Arc<CellSet>,
    pub payload: Arc<Payload>,
}

impl Model for PayEntry {
    ghost use Rattle.std.specs.Arc.{arc_value};
    ghost use Rattle.sz_frame.specs.Parts.{Entry};

    ghost Value = { Entry };

    ghost view = { λ e. record { out = arc_value e.out; payload = arc_value e.payload } };
}
