//! The names that stand in a body, and other bytes that are counted.

ghost use Rattle.std.specs.Prelude.{◌<◌, ◌+◌};
ghost use Rattle.sz_bodies.specs.Terms.{length, IfOk, IfErr, IfSome, IfNone, IsAt, NoneAt};
ghost use Rattle.sz_bodies.specs.Terms.{name_bytes, IfBad, IsName, IsAnyText};

use crate::reading::TakeFault;
use std::alloc::Global;
use sz_script::{Name, is_name};

/// The name that stands at a place, and the place behind it.
pub(crate) fn take_name(alloc: Global, bytes: &[u8], at: u64) -> Result<(Name, u64), TakeFault>
    ensures name { IfOk result (λ r. IsName r.0) }
    ensures bytes { IfOk result (λ r. IsAt bytes.now at r.1 (name_bytes r.0)) }
    ensures err { IfErr result (λ e. IfBad e (NoneAt IsName name_bytes bytes.now at)) }
{
    let Some(text) = text_at(bytes, at) else {
        return Err(TakeFault::Bad);
    };
    let next = at + 1 + text.len() as u64;
    let text = String::from_str(alloc, text)?;
    Ok((Name::of(text), next))
}

/// The text of the name that stands at a place.
fn text_at(bytes: &[u8], at: u64) -> Option<&str>
    ensures name { IfSome result (λ t. IsName t.now) }
    ensures bytes { IfSome result
        (λ t. IsAt bytes.now at (at + 1 + length t.now) (name_bytes t.now)) }
    ensures none { IfNone result (NoneAt IsName name_bytes bytes.now at) }
{
    let name = counted_at(bytes, at)?;
    let Ok(text) = str::from_utf8(name) else {
        return None;
    };
    if is_name(text) { Some(text) } else { None }
}

/// The bytes behind the byte at a place that says how many they are. `None` exactly where there
/// are not so many.
pub(crate) fn counted_at(bytes: &[u8], at: u64) -> Option<&[u8]>
    ensures some { IfSome result
        (λ b. IsAt bytes.now at (at + 1 + length b.now) (name_bytes b.now)) }
    ensures few { IfSome result (λ b. length b.now < 256) }
    ensures none { IfNone result (NoneAt IsAnyText name_bytes bytes.now at) }
{
    if bytes.len() as u64 <= at {
        return None;
    }
    let place = at as usize;
    let count = bytes[place] as usize;
    let (_, behind) = bytes.split_at(place + 1);
    if behind.len() < count {
        return None;
    }
    let (text, _) = behind.split_at(count);
    Some(text)
}
