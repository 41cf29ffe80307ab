//! Payloads by number, each different one once.

ghost use Rattle.std.specs.Prelude.{◌≡◌, ◌<◌, ◌≤◌, ◌+◌, ◌-◌, ◌^◌, ◌∷◌, ◌++◌, ◌≢◌};
ghost use Rattle.sz_tables.specs.Terms.{[], ℕ, MatchOption, vec_len, vec_capacity, Decides, length};
ghost use Rattle.sz_tables.specs.Terms.{fold, max, OnOk, OnErr, IfOk, Some, slice_get};
ghost use Rattle.sz_tables.specs.Terms.{AreDifferent, HasAtMostOneMore, first_capacities};
ghost use Rattle.sz_tables.specs.Terms.{payload_at, payload_mix, mixed_byte};

use crate::chains::Chains;
use crate::spans::Span;
use std::alloc::Global;
use std::marker::Model;
use sz_cells::NoMemory;

/// Under how many keys the first payloads are filed.
const FIRST_KEYS: u32 = 17;

/// Payloads. The bytes of all of them stand in one list.
#[derive(Drop)]
pub struct PayloadTable {
    bytes: Vec<u8>,
    spans: Vec<Span>,
    /// Each payload under what is left of what it is mixed to, so that an equal one is found.
    index: Chains,
    spare_payloads: u32,
    spare_bytes: usize,
}

impl Model for PayloadTable {
    ghost use Rattle.std.specs.Prelude.{◌≤◌, ◌+◌, ◌∷◌, length, vec_capacity};
    ghost use Rattle.sz_tables.specs.Payloads.{PayloadsByNumber};

    ghost Value = { PayloadsByNumber };

    ghost use Rattle.sz_tables.specs.Filed.{HasRoom};
    ghost use Rattle.sz_tables.specs.Tables.{slices_by_number};
    ghost use Rattle.sz_tables.specs.Payloads.{AreKept};

    ghost view = { λ t. record {
      payloads = slices_by_number t.bytes.items t.spans.items;
      spare_payloads = t.spare_payloads;
      spare_bytes = t.spare_bytes;
      capacities = vec_capacity t.bytes ∷ vec_capacity t.spans ∷ t.index.capacities;
    } };

    ghost invariant = { λ t. AreKept t.bytes.items t.spans.items t.index
        × HasRoom (length t.spans.items) t.spare_payloads (vec_capacity t.spans)
        × (t.spare_payloads ≤ t.index.spare)
        × (length t.bytes.items + t.spare_bytes ≤ vec_capacity t.bytes) };
}

impl PayloadTable {
    /// A table without a payload.
    pub fn new(alloc: Global) -> Result<PayloadTable, NoMemory>
        ensures { IfOk result (λ t. t ≡ record {
          payloads = [];
          spare_payloads = 0;
          spare_bytes = 0;
          capacities = first_capacities;
        }) }
    {
        let index = Chains::new(alloc, FIRST_KEYS)?;
        Ok(PayloadTable {
            bytes: Vec::new(alloc),
            spans: Vec::new(alloc),
            index,
            spare_payloads: 0,
            spare_bytes: 0,
        })
    }

    /// Makes room for so many more payloads, which have so many bytes together, where there is none
    /// yet.
    pub fn reserve(&mut self, payloads: u32, bytes: usize) -> Result<(), NoMemory>
        requires { length self.old.payloads + payloads < 2 ^ 32 }
        ensures ok { OnOk result (self.new ≡ record self.old {
          spare_payloads = max self.old.spare_payloads payloads;
          spare_bytes = max self.old.spare_bytes bytes;
          capacities = self.new.capacities;
        }) }
        ensures kept { self.new ≡ record self.old {
          spare_payloads = self.new.spare_payloads;
          spare_bytes = self.new.spare_bytes;
          capacities = self.new.capacities;
        } }
        ensures grown { (self.old.spare_payloads ≤ self.new.spare_payloads)
            × (self.old.spare_bytes ≤ self.new.spare_bytes) }
    {
        self.reserve_payloads(payloads)?;
        self.reserve_bytes(bytes)
    }

    /// Makes room for so many more payloads, and for their keys.
    fn reserve_payloads(&mut self, more: u32) -> Result<(), NoMemory>
        requires { length self.old.payloads + more < 2 ^ 32 }
        ensures ok { OnOk result (self.new ≡ record self.old {
          spare_payloads = max self.old.spare_payloads more;
          capacities = self.new.capacities;
        }) }
        ensures err { OnErr result
            (self.new ≡ record self.old { capacities = self.new.capacities }) }
    {
        if more <= self.spare_payloads {
            return Ok(());
        }
        self.spans.reserve(more as usize)?;
        self.index.widen(more)?;
        self.spare_payloads = more;
        Ok(())
    }

    /// Makes room for so many more bytes.
    fn reserve_bytes(&mut self, more: usize) -> Result<(), NoMemory>
        ensures ok { OnOk result (self.new ≡ record self.old {
          spare_bytes = max self.old.spare_bytes more;
          capacities = self.new.capacities;
        }) }
        ensures err { OnErr result (self.new ≡ self.old) }
    {
        if more <= self.spare_bytes {
            return Ok(());
        }
        self.bytes.reserve(more)?;
        self.spare_bytes = more;
        Ok(())
    }

    /// The number of this payload, which is added where no payload of the table is equal. Takes no
    /// memory: each capacity stays.
    ///
    /// Costs a look at some bytes of the payload, at each of them where it was added before, and at
    /// the payloads that have the same key.
    pub fn add(&mut self, bytes: &[u8]) -> u32
        requires payloads { 0 < self.old.spare_payloads }
        requires bytes { length bytes.now ≤ self.old.spare_bytes }
        ensures number { slice_get self.new.payloads result ≡ Some bytes.now }
        ensures payloads { HasAtMostOneMore self.old.payloads self.new.payloads bytes.now }
        ensures room { self.old.spare_payloads ≤ self.new.spare_payloads + 1 }
        ensures bytes { self.old.spare_bytes ≤ self.new.spare_bytes + length bytes.now }
        ensures capacities { self.new.capacities ≡ self.old.capacities }
    {
        let mix = mix_of(bytes);
        match self.find(bytes, mix) {
            Some(number) => number,
            None => self.append(bytes, mix),
        }
    }

    /// The number of the payload of these bytes. `None` exactly where there is none.
    ///
    /// Costs as [`PayloadTable::add`] of a payload that was added before.
    pub fn number_of(&self, bytes: &[u8]) -> Option<u32>
        ensures { MatchOption result
            ((n : ℕ) → slice_get self.now.payloads n ≢ Some bytes.now)
            (λ n. slice_get self.now.payloads n ≡ Some bytes.now) }
    {
        self.find(bytes, mix_of(bytes))
    }

    /// The number of the payload of these bytes, which are mixed to this.
    fn find(&self, bytes: &[u8], mix: u32) -> Option<u32>
        requires { mix ≡ payload_mix bytes.now }
        ensures { MatchOption result
            ((n : ℕ) → slice_get self.now.payloads n ≢ Some bytes.now)
            (λ n. slice_get self.now.payloads n ≡ Some bytes.now) }
    {
        let key = mix % self.index.keys();
        let mut next = self.index.last(key);
        while let Some(number) = next {
            if self.is_kept(number, bytes, mix) {
                return Some(number);
            }
            next = self.index.before(number, key);
        }
        None
    }

    /// Whether the payload of a number has these bytes, which are mixed to this. The bytes of a
    /// payload that is mixed to something else are not looked at.
    fn is_kept(&self, number: u32, bytes: &[u8], mix: u32) -> bool
        requires number { number < length self.now.payloads }
        requires mix { mix ≡ payload_mix bytes.now }
        ensures { Decides result (slice_get self.now.payloads number ≡ Some bytes.now) }
    {
        self.index.item(number) == mix && are_same(self.bytes(number), bytes)
    }

    /// Adds the payload of these bytes, which is none of the table's. Its number is the count of
    /// those before it.
    fn append(&mut self, bytes: &[u8], mix: u32) -> u32
        requires mix { mix ≡ payload_mix bytes.now }
        requires new { (n : ℕ) → slice_get self.old.payloads n ≢ Some bytes.now }
        requires payloads { 0 < self.old.spare_payloads }
        requires bytes { length bytes.now ≤ self.old.spare_bytes }
        ensures number { result ≡ length self.old.payloads }
        ensures table { self.new ≡ record self.old {
          payloads = self.old.payloads ++ bytes.now ∷ [];
          spare_payloads = self.old.spare_payloads - 1;
          spare_bytes = self.old.spare_bytes - length bytes.now;
        } }
    {
        let number = self.spans.len() as u32;
        let start = self.bytes.len();
        put_bytes(&mut self.bytes, bytes);
        let end = self.bytes.len();
        self.spans.push_reserved(Span { start, end });
        let key = mix % self.index.keys();
        self.index.add(key, mix);
        self.spare_payloads -= 1;
        self.spare_bytes -= bytes.len();
        number
    }

    /// The bytes of the payload of a number.
    pub fn bytes(&self, number: u32) -> &[u8]
        requires { number < length self.now.payloads }
        ensures { result.now ≡ payload_at self.now.payloads number }
    {
        let span = self.spans[number as usize];
        &self.bytes[span.start..span.end]
    }

    /// How many payloads there are. No two of them are equal.
    pub fn len(&self) -> u32
        ensures count { result ≡ length self.now.payloads }
        ensures different { AreDifferent self.now.payloads }
    {
        self.spans.len() as u32
    }
}

/// What a payload is mixed to: its length, and of many bytes the first and the last of them alone.
fn mix_of(bytes: &[u8]) -> u32
    ensures { result ≡ payload_mix bytes.now }
{
    let long = bytes.len();
    let first = mix_more(long as u64 % 4_294_967_296, &bytes[..long.min(32)]);
    let start = long.saturating_sub(32).max(32).min(long);
    mix_more(first, &bytes[start..]) as u32
}

/// What bytes behind others are mixed to.
fn mix_more(before: u64, bytes: &[u8]) -> u64
    requires { before < 4294967296 }
    ensures mix { result ≡ fold mixed_byte before bytes.now }
    ensures fits { result < 4294967296 }
{
    let mut mixed = before;
    for byte in bytes {
        mixed = (mixed * 16_777_619 + u64::from(*byte)) % 4_294_967_296;
    }
    mixed
}

/// Appends bytes for which there is room. Takes no memory.
fn put_bytes(list: &mut Vec<u8>, more: &[u8])
    requires { vec_len list.old + length more.now ≤ vec_capacity list.old }
    ensures items { list.new.items ≡ list.old.items ++ more.now }
    ensures capacity { vec_capacity list.new ≡ vec_capacity list.old }
{
    for byte in more {
        list.push_reserved(*byte);
    }
}

/// Whether two payloads are one.
fn are_same(a: &[u8], b: &[u8]) -> bool
    ensures { Decides result (a.now ≡ b.now) }
{
    a == b
}
