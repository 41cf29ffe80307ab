//! The bytes of a source in memory, and the one way in which both such sources give them.
ghost use Rattle.std.specs.Prelude.{◌≡◌, ◌≤◌, ◌<◌, ◌++◌};
ghost use Rattle.sz_outside.specs.Terms.{ℕ, [], length, take, drop, bytes_given, supply_after};

use std::marker::Model;

/// Bytes, the place of the next one, and the most that one read gives.
#[derive(Drop)]
pub(crate) struct Cursor {
    bytes: Vec<u8>,
    at: usize,
    chunk: u32,
}

impl Model for Cursor {
    ghost use Rattle.std.specs.Prelude.{◌≤◌, drop, length};
    ghost use Rattle.sz_outside.specs.Memory.{Supply};

    ghost Value = { Supply };

    ghost view = { λ s. record { left = drop s.at s.bytes.items; chunk = s.chunk } };

    ghost invariant = { λ s. (s.at ≤ length s.bytes.items) × (1 ≤ s.chunk) };
}

impl Cursor {
    pub(crate) fn new(bytes: Vec<u8>, chunk: u32) -> Cursor
        requires { 1 ≤ chunk }
        ensures { result ≡ record { left = bytes.items; chunk = chunk } }
    {
        Cursor {
            bytes,
            at: 0,
            chunk,
        }
    }

    /// Moves the next bytes to the front of `into`, and says how many.
    pub(crate) fn give(&mut self, into: &mut [u8]) -> usize
        ensures count { result ≡ bytes_given self.old (length into.old) }
        ensures after { self.new ≡ supply_after self.old result }
        ensures filled { into.new ≡ take result self.old.left ++ drop result into.old }
        ensures end { 0 < length into.old → result ≡ 0 → self.old.left ≡ [] }
    {
        let left = &self.bytes[self.at..];
        let count = left.len().min(into.len()).min(self.chunk as usize);
        into[..count].copy_from_slice(&left[..count]);
        self.at += count;
        count
    }
}
