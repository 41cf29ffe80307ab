//! The parts of stores that are the same bytes in either form: counts, payloads and names.

ghost use Rattle.std.specs.Prelude.{◌≡◌, ◌<◌, ◌≤◌, ◌+◌, ◌^◌, ◌++◌};
ghost use Rattle.sz_short.specs.Terms.{ℕ, List, length, IfSome, IfNone, IfOk, IfErr, OnOk, OnErr};
ghost use Rattle.sz_short.specs.Terms.{four_bytes, IsAt, counted, rows_bytes, IsShort};
ghost use Rattle.sz_short.specs.Terms.{payload_bytes, OnBad, NoneAt, AreFew, AreRowsOf, IsBlock};

use sz_cells::NoMemory;
use sz_numbers::four_at;
use sz_region::Take;

/// The number whose four bytes stand at a place. `None` exactly where there are not four bytes.
pub(crate) fn take_number(bytes: &[u8], at: u64) -> Option<u32>
    ensures some { IfSome result (λ n. IsAt bytes.now at (at + 4) (four_bytes n)) }
    ensures none { IfNone result (length bytes.now < at + 4) }
{
    let length = bytes.len() as u64;
    if length < 4 || length - 4 < at {
        return None;
    }
    Some(four_at(bytes, at as usize))
}

/// Appends the bytes between two places. After `NoMemory` the bytes are as before.
pub(crate) fn copy_part(bytes: &[u8], at: u64, next: u64, to: &mut Vec<u8>) -> Result<(), NoMemory>
    requires order { at ≤ next }
    requires within { next ≤ length bytes.now }
    ensures ok { OnOk result ((word : List ℕ) → IsAt bytes.now at next word
        → to.new.items ≡ to.old.items ++ word) }
    ensures err { OnErr result (to.new.items ≡ to.old.items) }
{
    to.extend_from_slice(&bytes[at as usize..next as usize])?;
    Ok(())
}

/// Appends the rows of numbers, each of one width, that begin with their number at a place, and
/// gives the place behind them. After a refusal the bytes are as before.
pub(crate) fn copy_rows(width: u64, bytes: &[u8], at: u64, to: &mut Vec<u8>) -> Result<u64, Take>
    ensures ok { IfOk result (λ n. (block : List ℕ) × IsBlock width block
        × IsAt bytes.now at n block × (to.new.items ≡ to.old.items ++ block)) }
    ensures err { IfErr result (λ e. OnBad e (NoneAt (AreRowsOf width) rows_bytes bytes.now at)) }
    ensures kept { OnErr result (to.new.items ≡ to.old.items) }
{
    let Some(next) = rows_end(width, bytes, at) else {
        return Err(Take::Bad { at });
    };
    copy_part(bytes, at, next, to)?;
    Ok(next)
}

/// The place behind the rows of numbers, each of one width, that begin with their number at a
/// place. `None` exactly where there are too few bytes for them.
fn rows_end(width: u64, bytes: &[u8], at: u64) -> Option<u64>
    ensures some { IfSome result (λ n. (block : List ℕ) × IsBlock width block
        × IsAt bytes.now at n block) }
    ensures order { IfSome result (λ n. at ≤ n) }
    ensures none { IfNone result (NoneAt (AreRowsOf width) rows_bytes bytes.now at) }
{
    let length = bytes.len() as u64;
    let count = take_number(bytes, at)?;
    let numbers = u64::from(count).checked_mul(width)?;
    let long = numbers.checked_mul(4)?;
    if length - (at + 4) < long {
        return None;
    }
    Some(at + 4 + long)
}

/// Appends the payloads that begin with their number at a place, and gives the place behind them.
/// After a refusal the bytes are as before.
pub(crate) fn copy_payloads(bytes: &[u8], at: u64, to: &mut Vec<u8>) -> Result<u64, Take>
    ensures ok { IfOk result (λ n. (payloads : List (List ℕ)) × AreFew IsShort payloads
        × IsAt bytes.now at n (counted payload_bytes payloads)
        × (to.new.items ≡ to.old.items ++ counted payload_bytes payloads)) }
    ensures err { IfErr result (λ e. OnBad e
        (NoneAt (AreFew IsShort) (counted payload_bytes) bytes.now at)) }
    ensures kept { OnErr result (to.new.items ≡ to.old.items) }
{
    let Some(end) = payloads_end(bytes, at) else {
        return Err(Take::Bad { at });
    };
    copy_part(bytes, at, end, to)?;
    Ok(end)
}

/// The place behind the payloads that begin with their number at a place. `None` exactly where
/// none do.
fn payloads_end(bytes: &[u8], at: u64) -> Option<u64>
    ensures some { IfSome result (λ n. (payloads : List (List ℕ)) × AreFew IsShort payloads
        × IsAt bytes.now at n (counted payload_bytes payloads)) }
    ensures order { IfSome result (λ n. at ≤ n) }
    ensures none { IfNone result
        (NoneAt (AreFew IsShort) (counted payload_bytes) bytes.now at) }
{
    let count = take_number(bytes, at)?;
    let mut place = at + 4;
    for _index in 0..count {
        place = payload_end(bytes, place)?;
    }
    Some(place)
}

/// The place behind the payload that begins with its length at a place. `None` exactly where none
/// does.
fn payload_end(bytes: &[u8], at: u64) -> Option<u64>
    ensures some { IfSome result (λ n. (payload : List ℕ) × IsShort payload
        × IsAt bytes.now at n (payload_bytes payload)) }
    ensures order { IfSome result (λ n. at ≤ n) }
    ensures none { IfNone result (NoneAt IsShort payload_bytes bytes.now at) }
{
    let length = bytes.len() as u64;
    let long = take_number(bytes, at)?;
    if length - (at + 4) < u64::from(long) {
        return None;
    }
    Some(at + 4 + u64::from(long))
}
