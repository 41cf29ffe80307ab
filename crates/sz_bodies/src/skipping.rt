//! Where a node of a body in format 1 ends, if one stands there: told by its counts alone, at a
//! fraction of what reading it costs. Nothing rests on what is told, since whoever reads a node says
//! where it ends.

ghost use Rattle.std.specs.Prelude.{◌≤◌};
ghost use Rattle.sz_bodies.specs.Terms.{length, IfSome};

use crate::lists::strategy_of;
use crate::parts::counted_at;
use sz_region::take_number;
use sz_spec::Mode;

/// The place behind the node of so many inputs that stands at a place.
pub(crate) fn node_end(inputs: u64, bytes: &[u8], at: u64) -> Option<u64> {
    let numbers = counted_at(bytes, at)?;
    let mut place = at + 1 + numbers.len() as u64;
    for number in numbers {
        place = store_end(*number, inputs, bytes, place)?;
    }
    Some(place)
}

/// The place behind the store of the strategy of a number, if it has one.
fn store_end(number: u8, inputs: u64, bytes: &[u8], at: u64) -> Option<u64> {
    match strategy_of(number)?.mode() {
        Mode::Full => pairs_end(inputs.saturating_add(1), bytes, at),
        Mode::Pay | Mode::Comp => entries_end(bytes, at),
        Mode::Map | Mode::BlackBox => Some(at),
    }
}

/// The place behind a store of region pairs of so many sets each.
fn pairs_end(width: u64, bytes: &[u8], at: u64) -> Option<u64> {
    let sets = take_number(bytes, at)?;
    let mut place = at + 4;
    for _set in 0..sets {
        place = set_end(bytes, within(bytes, place, 1, 1)?)?;
    }
    rows_end(width, bytes, place)
}

/// The place behind a store of entries.
fn entries_end(bytes: &[u8], at: u64) -> Option<u64> {
    let payloads = take_number(bytes, at)?;
    let mut place = at + 4;
    for _payload in 0..payloads {
        let length = take_number(bytes, place)?;
        place = within(bytes, place + 4, length, 1)?;
    }
    let sets = take_number(bytes, place)?;
    place += 4;
    for _set in 0..sets {
        place = set_end(bytes, place)?;
    }
    rows_end(2, bytes, place)
}

/// The place behind a cell set.
fn set_end(bytes: &[u8], at: u64) -> Option<u64> {
    let runs = take_number(bytes, at)?;
    within(bytes, at + 4, runs, 8)
}

/// The place behind rows of so many names each.
fn rows_end(width: u64, bytes: &[u8], at: u64) -> Option<u64> {
    let rows = take_number(bytes, at)?;
    within(bytes, at + 4, rows, width.saturating_mul(4))
}

/// The place behind so many parts of a size each, if the bytes go so far.
fn within(bytes: &[u8], at: u64, count: u32, size: u64) -> Option<u64>
    ensures { IfSome result (λ place. place ≤ length bytes.now) }
{
    let place = at.saturating_add(u64::from(count).saturating_mul(size));
    if place <= bytes.len() as u64 {
        Some(place)
    } else {
        None
    }
}
