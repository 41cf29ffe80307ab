//! Where bytes come from: what a source is, and the two in memory.
ghost use Rattle.std.specs.Prelude.{◌≡◌, ◌≤◌, ◌++◌};
ghost use Rattle.sz_outside.specs.Terms.{ℕ, List, Option, None, Some, Ok, IfOk, OnOk, OnErr};
ghost use Rattle.sz_outside.specs.Terms.{length, take, drop, is_err, Rose, Stood, Gives, Keeps};
ghost use Rattle.sz_outside.specs.Terms.{bytes_given, fails_next, tape_after, supply_after};

use crate::Failed;
use crate::cursor::Cursor;
use std::marker::Model;

/// Gives bytes in pieces of its own choice.
///
/// Two meanings stand beside it: the bytes that are left, where it tells them, and the count of its
/// faults, which rises exactly where a read fails.
pub trait Source {
    ghost left: { Self → Option (List ℕ) };

    ghost faults: { Self → ℕ };

    /// Reads the next bytes into the front of `into`, at most as many as it has room for, and says
    /// how many. 0 for a buffer with room means that no byte is left.
    fn read(&mut self, into: &mut [u8]) -> Result<usize, Failed>
        ensures bound { IfOk result (λ n. n ≤ length into.new) }
        ensures bytes { IfOk result (λ n. Gives (left self.old) (left self.new) into.new n) }
        ensures failed { OnErr result (Rose (faults self.old) (faults self.new)) }
        ensures quiet { OnOk result (Stood (faults self.old) (faults self.new)) }
        ensures kept { OnErr result (Keeps (left self.old) (left self.new)) }
        ensures faults { faults self.old ≤ faults self.new };
}

/// Bytes in memory, some of whose reads fail.
#[derive(Drop)]
pub struct MemSource {
    cursor: Cursor,
    fails: Vec<u64>,
    reads: u64,
    faults: u64,
}

impl Model for MemSource {
    ghost use Rattle.sz_outside.specs.Memory.{Tape};

    ghost Value = { Tape };

    ghost view = { λ s. record {
      supply = s.cursor;
      fails = s.fails.items;
      reads = s.reads;
      faults = s.faults;
    } };
}

impl MemSource {
    /// A source of these bytes, of which a read gives at most `chunk`. The reads numbered in
    /// `fails`, counted from 1, fail.
    pub fn new(bytes: Vec<u8>, chunk: u32, fails: Vec<u64>) -> MemSource
        requires { 1 ≤ chunk }
        ensures { result ≡ record {
          supply = record { left = bytes.items; chunk = chunk };
          fails = fails.items;
          reads = 0;
          faults = 0;
        } }
    {
        MemSource {
            cursor: Cursor::new(bytes, chunk),
            fails,
            reads: 0,
            faults: 0,
        }
    }
}

impl Source for MemSource {
    ghost left = { λ s. Some s.supply.left };

    ghost faults = { λ s. s.faults };

    fn read(&mut self, into: &mut [u8]) -> Result<usize, Failed>
        ensures bound { IfOk result (λ n. n ≤ length into.new) }
        ensures bytes { IfOk result (λ n.
            Gives (Some self.old.supply.left) (Some self.new.supply.left) into.new n) }
        ensures failed { OnErr result (Rose self.old.faults self.new.faults) }
        ensures quiet { OnOk result (Stood self.old.faults self.new.faults) }
        ensures kept { OnErr result
            (Keeps (Some self.old.supply.left) (Some self.new.supply.left)) }
        ensures faults { self.old.faults ≤ self.new.faults }

        ensures fails { is_err result ≡ fails_next self.old.fails self.old.reads }
        ensures count { IfOk result (λ n. n ≡ bytes_given self.old.supply (length into.old)) }
        ensures filled { IfOk result (λ n.
            into.new ≡ take n self.old.supply.left ++ drop n into.old) }
        ensures untouched { OnErr result (into.new ≡ into.old) }
        ensures after { self.new ≡ tape_after self.old (length into.old) }
    {
        self.reads = self.reads.saturating_add(1);
        if self.fails.contains(&self.reads) {
            self.faults = self.faults.saturating_add(1);
            return Err(Failed);
        }
        Ok(self.cursor.give(into))
    }
}

/// Bytes in memory, none of whose reads fails.
#[derive(Drop)]
pub struct SteadySource {
    cursor: Cursor,
}

impl Model for SteadySource {
    ghost use Rattle.sz_outside.specs.Memory.{Supply};

    ghost Value = { Supply };

    ghost view = { λ s. s.cursor };
}

impl SteadySource {
    /// A source of these bytes, of which a read gives at most `chunk`.
    pub fn new(bytes: Vec<u8>, chunk: u32) -> SteadySource
        requires { 1 ≤ chunk }
        ensures { result ≡ record { left = bytes.items; chunk = chunk } }
    {
        SteadySource {
            cursor: Cursor::new(bytes, chunk),
        }
    }
}

impl Source for SteadySource {
    ghost left = { λ s. Some s.left };

    ghost faults = { λ _. 0 };

    fn read(&mut self, into: &mut [u8]) -> Result<usize, Failed>
        ensures bound { IfOk result (λ n. n ≤ length into.new) }
        ensures bytes { IfOk result (λ n.
            Gives (Some self.old.left) (Some self.new.left) into.new n) }
        ensures failed { OnErr result (Rose 0 0) }
        ensures quiet { OnOk result (Stood 0 0) }
        ensures kept { OnErr result (Keeps (Some self.old.left) (Some self.new.left)) }
        ensures faults { 0 ≤ 0 }

        ensures ok { result ≡ Ok (bytes_given self.old (length into.old)) }
        ensures filled { IfOk result (λ n. into.new ≡ take n self.old.left ++ drop n into.old) }
        ensures after { IfOk result (λ n. self.new ≡ supply_after self.old n) }
    {
        Ok(self.cursor.give(into))
    }
}
