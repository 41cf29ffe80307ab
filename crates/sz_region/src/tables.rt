//! Stores whose sets and payloads are numbered already: writing their tables as they are.

ghost use Rattle.std.specs.Prelude.{◌≡◌, ◌<◌, ◌≤◌, ◌^◌, ◌++◌};
ghost use Rattle.sz_region.specs.Terms.{ℕ, List, length, take, map, OnOk, OnErr, set_bytes};
ghost use Rattle.sz_region.specs.Terms.{counted, rows_bytes, listed_bytes, payload_bytes, AreRows};
ghost use Rattle.sz_region.specs.Terms.{MakeRows};

use crate::numbers::{put_number, put_rows};
use crate::set_bytes::put_runs;
use std::marker::Model;
use sz_cells::{NoMemory, Run, Shape};

/// A set of one of the arrays of a store, lent: 0 is the output, i + 1 is input i. The runs are the
/// longest ones of a set of the shape. Contracts see the array and the set.
#[derive(Drop)]
pub struct ListedSet<'a> {
    pub array: u8,
    pub shape: Shape,
    pub runs: &'a [Run],
}

impl<'a> Model for ListedSet<'a> {
    ghost use Rattle.std.specs.List.{flat_map};
    ghost use Rattle.sz_cells.specs.Extent.{size_of};
    ghost use Rattle.sz_cells.specs.Runs.{indexes_of, AreRunsFrom};
    ghost use Rattle.sz_region.specs.FullBytes.{Listed};

    ghost Value = { Listed };

    ghost view = { λ s. record {
      array = s.array;
      set = record { extent = s.shape; indexes = flat_map indexes_of s.runs.now };
    } };

    ghost invariant = { λ s. AreRunsFrom 0 (size_of s.shape) s.runs.now };
}

/// Appends a store of full lineage whose sets are numbered: the sets in this order, and then region
/// pairs of `width` sets each, the output's and one for each input, each by the number of its set.
/// After `NoMemory` the bytes are as before.
///
/// Takes time and memory in the number of the sets' runs and of the names.
pub fn put_numbered(
    sets: &[ListedSet],
    width: u32,
    names: &[u32],
    to: &mut Vec<u8>,
) -> Result<(), NoMemory>
    requires few_sets { length sets.now < 2 ^ 32 }
    requires width { 0 < width }
    requires whole { MakeRows width names.now }
    ensures ok { OnOk result ((rows : List (List ℕ)) → AreRows width names.now rows
        → to.new.items ≡ to.old.items ++ (counted listed_bytes sets.now ++ rows_bytes rows)) }
    ensures err { OnErr result (to.new.items ≡ to.old.items) }
{
    let length = to.len();
    let put = put_full(sets, width, names, to);
    if put.is_err() {
        to.truncate(length);
    }
    put
}

/// As [`put_numbered`], but that after `NoMemory` some of the bytes may be there.
fn put_full(sets: &[ListedSet], width: u32, names: &[u32], to: &mut Vec<u8>) -> Result<(), NoMemory>
    requires few_sets { length sets.now < 2 ^ 32 }
    requires width { 0 < width }
    requires whole { MakeRows width names.now }
    ensures ok { OnOk result ((rows : List (List ℕ)) → AreRows width names.now rows
        → to.new.items ≡ to.old.items ++ (counted listed_bytes sets.now ++ rows_bytes rows)) }
    ensures err { OnErr result (take (length to.old.items) to.new.items ≡ to.old.items) }
{
    put_sets(sets, to)?;
    put_rows(width, names, to)
}

/// Appends how many sets there are, and each with its array. After `NoMemory` some of the bytes may
/// be there.
fn put_sets(sets: &[ListedSet], to: &mut Vec<u8>) -> Result<(), NoMemory>
    requires { length sets.now < 2 ^ 32 }
    ensures ok { OnOk result (to.new.items ≡ to.old.items ++ counted listed_bytes sets.now) }
    ensures err { OnErr result (take (length to.old.items) to.new.items ≡ to.old.items) }
{
    put_number(sets.len() as u32, to)?;
    for set in sets {
        put_listed(set, to)?;
    }
    Ok(())
}

/// Appends a set with its array. After `NoMemory` some of the bytes may be there.
pub fn put_listed(set: &ListedSet, to: &mut Vec<u8>) -> Result<(), NoMemory>
    ensures ok { OnOk result (to.new.items ≡ to.old.items ++ listed_bytes set.now) }
    ensures err { OnErr result (take (length to.old.items) to.new.items ≡ to.old.items) }
{
    to.push(set.array)?;
    put_runs(&set.shape, set.runs, to)
}

/// A payload of a store, lent. Contracts see its bytes, fewer than 4,294,967,296.
#[derive(Drop)]
pub struct ListedPayload<'a> {
    pub bytes: &'a [u8],
}

impl<'a> Model for ListedPayload<'a> {
    ghost use Rattle.std.specs.Prelude.{ℕ, List};
    ghost use Rattle.sz_region.specs.PayBytes.{IsShort};

    ghost Value = { List ℕ };

    ghost view = { λ p. p.bytes.now };

    ghost invariant = { λ p. IsShort p.bytes.now };
}

/// Appends a store of payloads whose payloads and output sets are numbered: both in this order, and
/// then entries of two names each, the output set's number and the payload's. The sets' arrays are
/// not written. After `NoMemory` the bytes are as before.
///
/// Takes time and memory in the number of the payloads' bytes, the sets' runs and the names.
pub fn put_numbered_entries(
    payloads: &[ListedPayload],
    sets: &[ListedSet],
    names: &[u32],
    to: &mut Vec<u8>,
) -> Result<(), NoMemory>
    requires few_payloads { length payloads.now < 2 ^ 32 }
    requires few_sets { length sets.now < 2 ^ 32 }
    requires whole { MakeRows 2 names.now }
    ensures ok { OnOk result ((rows : List (List ℕ)) → AreRows 2 names.now rows
        → to.new.items ≡ to.old.items ++ (counted payload_bytes payloads.now
        ++ counted set_bytes (map (λ l. l.set) sets.now) ++ rows_bytes rows)) }
    ensures err { OnErr result (to.new.items ≡ to.old.items) }
{
    let length = to.len();
    let put = put_pay(payloads, sets, names, to);
    if put.is_err() {
        to.truncate(length);
    }
    put
}

/// As [`put_numbered_entries`], but that after `NoMemory` some of the bytes may be there.
fn put_pay(
    payloads: &[ListedPayload],
    sets: &[ListedSet],
    names: &[u32],
    to: &mut Vec<u8>,
) -> Result<(), NoMemory>
    requires few_payloads { length payloads.now < 2 ^ 32 }
    requires few_sets { length sets.now < 2 ^ 32 }
    requires whole { MakeRows 2 names.now }
    ensures ok { OnOk result ((rows : List (List ℕ)) → AreRows 2 names.now rows
        → to.new.items ≡ to.old.items ++ (counted payload_bytes payloads.now
        ++ counted set_bytes (map (λ l. l.set) sets.now) ++ rows_bytes rows)) }
    ensures err { OnErr result (take (length to.old.items) to.new.items ≡ to.old.items) }
{
    put_payloads(payloads, to)?;
    put_out_sets(sets, to)?;
    put_rows(2, names, to)
}

/// Appends how many payloads there are, and each with its length. After `NoMemory` some of the
/// bytes may be there.
fn put_payloads(payloads: &[ListedPayload], to: &mut Vec<u8>) -> Result<(), NoMemory>
    requires { length payloads.now < 2 ^ 32 }
    ensures ok { OnOk result (to.new.items ≡ to.old.items ++ counted payload_bytes payloads.now) }
    ensures err { OnErr result (take (length to.old.items) to.new.items ≡ to.old.items) }
{
    put_number(payloads.len() as u32, to)?;
    for payload in payloads {
        put_payload(payload, to)?;
    }
    Ok(())
}

/// Appends a payload with its length. After `NoMemory` some of the bytes may be there.
fn put_payload(payload: &ListedPayload, to: &mut Vec<u8>) -> Result<(), NoMemory>
    ensures ok { OnOk result (to.new.items ≡ to.old.items ++ payload_bytes payload.now) }
    ensures err { OnErr result (take (length to.old.items) to.new.items ≡ to.old.items) }
{
    put_number(payload.bytes.len() as u32, to)?;
    to.extend_from_slice(payload.bytes)?;
    Ok(())
}

/// Appends how many sets there are, and each without its array. After `NoMemory` some of the bytes
/// may be there.
fn put_out_sets(sets: &[ListedSet], to: &mut Vec<u8>) -> Result<(), NoMemory>
    requires { length sets.now < 2 ^ 32 }
    ensures ok { OnOk result
        (to.new.items ≡ to.old.items ++ counted set_bytes (map (λ l. l.set) sets.now)) }
    ensures err { OnErr result (take (length to.old.items) to.new.items ≡ to.old.items) }
{
    put_number(sets.len() as u32, to)?;
    for set in sets {
        put_out_set(set, to)?;
    }
    Ok(())
}

/// Appends a set without its array. After `NoMemory` some of the bytes may be there.
fn put_out_set(set: &ListedSet, to: &mut Vec<u8>) -> Result<(), NoMemory>
    ensures ok { OnOk result (to.new.items ≡ to.old.items ++ set_bytes set.now.set) }
    ensures err { OnErr result (take (length to.old.items) to.new.items ≡ to.old.items) }
{
    put_runs(&set.shape, set.runs, to)
}
