//! The versions held, by number.
ghost use Rattle.std.specs.Prelude.{◌≡◌, ◌+◌, ◌<◌};
ghost use Rattle.sz_catalogue.specs.Terms.{true, [], length, Some, is_some, unwrap_or, OnOk, OnErr};
ghost use Rattle.sz_catalogue.specs.Terms.{nat_cmp, IsStrictlySortedBy, lookup, set_value, keys_of};
ghost use Rattle.sz_catalogue.specs.Terms.{is_at, insert_entry, option_copied, greatest};
ghost use Rattle.sz_catalogue.specs.Terms.{no_version, ℕ, List, Version};

use crate::version::Run;
use std::alloc::Global;
use std::collections::BTreeMap;
use std::marker::Model;
use sz_cells::NoMemory;

/// The versions held, each under its number.
#[derive(Drop)]
pub struct HeldVersions {
    by_number: BTreeMap<u32, Run>,
}

impl Model for HeldVersions {
    ghost Value = { List (ℕ × Version) };

    ghost view = { λ v. v.by_number.entries };
}

impl HeldVersions {
    pub fn new(alloc: Global) -> HeldVersions
        ensures { result ≡ [] }
    {
        HeldVersions {
            by_number: BTreeMap::new(alloc),
        }
    }

    /// How many versions are held.
    pub fn len(&self) -> usize
        ensures { result ≡ length self.now }
    {
        self.by_number.len()
    }

    /// The version of a number. Logarithmic in the versions.
    pub fn get(&self, number: u32) -> Option<&Run>
        ensures { option_copied result ≡ lookup (is_at (nat_cmp number)) self.now }
    {
        self.by_number.get(&number)
    }

    /// 1 plus the greatest number, or 1.
    pub fn next_number(&self) -> u64
        ensures { result ≡ greatest (keys_of self.now) + 1 }
    {
        match self.by_number.last_key_value() {
            Some((number, _)) => u64::from(*number) + 1,
            None => 1,
        }
    }

    /// Holds a version under a number. Logarithmic in the versions.
    pub fn push(&mut self, number: u32, run: Run) -> Result<(), NoMemory>
        ensures held { OnOk result (self.new ≡ insert_entry nat_cmp self.old number run) }
        ensures err { OnErr result (self.new ≡ self.old) }
        ensures rising { OnOk result (IsStrictlySortedBy nat_cmp (keys_of self.new)) }
    {
        self.by_number.insert(number, run)?;
        Ok(())
    }

    /// Notes that a version that is held was awaited. Logarithmic in the versions.
    pub fn note_await(&mut self, number: u32)
        requires held { is_some (lookup (is_at (nat_cmp number)) self.old) ≡ true }
        ensures { self.new ≡ set_value (is_at (nat_cmp number)) self.old
            (record (unwrap_or (lookup (is_at (nat_cmp number)) self.old) no_version) {
              awaited = true;
            }) }
    {
        let Some(run) = self.by_number.get_mut(&number) else {
            return;
        };
        run.note_await();
    }
}
