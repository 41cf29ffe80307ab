//! Short numbers: writing one, and reading one where it begins.

ghost use Rattle.std.specs.Prelude.{◌≡◌, ◌+◌, ◌++◌};
ghost use Rattle.sz_short.specs.Terms.{length, take, IfSome, IfNone, OnOk, OnErr, IsAt, NoneAt};
ghost use Rattle.sz_short.specs.Terms.{short_within, short_number, IsWithin, IsSmall};

use sz_cells::NoMemory;

/// Appends a short number. After `NoMemory` some of its bytes may be there.
pub(crate) fn put_short(number: u32, to: &mut Vec<u8>) -> Result<(), NoMemory>
    ensures ok { OnOk result (to.new.items ≡ to.old.items ++ short_number number) }
    ensures err { OnErr result (take (length to.old.items) to.new.items ≡ to.old.items) }
{
    let mut rest = number;
    while rest >= 128 {
        to.push((rest % 128 + 128) as u8)?;
        rest /= 128;
    }
    to.push(rest as u8)?;
    Ok(())
}

/// The short number that begins at a place, and the place behind it. `None` exactly where none
/// begins there.
pub(crate) fn take_short(bytes: &[u8], at: u64) -> Option<(u32, u64)>
    ensures some { IfSome result (λ r. IsAt bytes.now at r.1 (short_number r.0)) }
    ensures none { IfNone result (NoneAt IsSmall short_number bytes.now at) }
{
    take_within(bytes, at, 4)
}

/// The short number that begins at a place and has at most so many bytes more than one.
fn take_within(bytes: &[u8], at: u64, more: u32) -> Option<(u32, u64)>
    ensures number { IfSome result (λ r. IsWithin more r.0) }
    ensures some { IfSome result (λ r. IsAt bytes.now at r.1 (short_within more r.0)) }
    ensures none { IfNone result (NoneAt (IsWithin more) (short_within more) bytes.now at) }
{
    if bytes.len() as u64 <= at {
        return None;
    }
    let byte = u32::from(bytes[at as usize]);
    if byte < 128 {
        return Some((byte, at + 1));
    }
    if more == 0 {
        return None;
    }
    let (high, next) = take_within(bytes, at + 1, more - 1)?;
    if high < LEAST || high > MOST {
        return None;
    }
    Some((high * 128 + (byte - 128), next))
}

/// The least number that may be behind the lowest seven bits: a last byte of 0 would add nothing.
const LEAST: u32 = 1;

/// The largest number that may be behind the lowest seven bits of a number of 32 bits.
const MOST: u32 = 33_554_431;
