//! Cells that are found by the numbers which arrays hold: one pass over these, and no search.

ghost use Rattle.std.specs.Prelude.{◌≡◌, ◌+◌, ◌^◌, ◌≤◌, ◌<◌, ◌==◌, ◌&&◌, ◌||◌};
ghost use Rattle.sz_refresh.specs.Terms.{ℕ, nat_le, nat_lt, false, length, pos, true, list_any};
ghost use Rattle.sz_refresh.specs.Terms.{size_of, index_of, with_those, index_above, named};
ghost use Rattle.sz_refresh.specs.Terms.{has_named, is_named, EndAfter, LieWithin};

use sz_cells::{CellBits, Run};
use sz_spec::Value;

/// Between which indexes those of a set lie.
#[derive(Clone, Copy)]
struct Span {
    least: u32,
    last: u32,
}

/// Adds the cells whose value, in one of two lists, names a cell of the set of that list: by its
/// index, counted from a first number. The cells before a given one are known to name none, and so
/// are those behind a gap of so many that name none, where it lies behind all cells of the sets.
///
/// Takes time in the number of the shape's cells from the first of these to the end of such a gap,
/// and no memory.
pub(crate) fn add_named(
    first: u32,
    from: u32,
    gap: u32,
    old: &[Value],
    old_set: &CellBits,
    new: &[Value],
    new_set: &CellBits,
    to: &mut CellBits,
)
    requires first { first ≤ 1 }
    requires from { from ≤ size_of to.old.extent }
    requires before { (k : ℕ) → k < from
        → is_named first old.now old_set.now new.now new_set.now k ≡ false }
    requires gap { EndAfter gap first old.now old_set.now new.now new_set.now
        (size_of to.old.extent) }
    requires old { length old.now ≡ size_of to.old.extent }
    requires new { length new.now ≡ size_of to.old.extent }
    ensures { to.new ≡ with_those to.old (λ o.
        is_named first old.now old_set.now new.now new_set.now (index_of to.old.extent o)) }
{
    let size = to.shape().size();
    let old_span = span_of(old_set);
    let new_span = span_of(new_set);
    let mut start = from;
    let mut idle = old_span.last.max(new_span.last) + 1;
    for index in from..size {
        if idle <= index && index - idle >= gap {
            add_between(start, index, to);
            return;
        }
        let place = index as usize;
        let is_named = has_named(first, old[place], old_span, old_set)
            || has_named(first, new[place], new_span, new_set);
        if is_named {
            idle = idle.max(index + 1);
        } else {
            add_between(start, index, to);
            start = index + 1;
        }
    }
    add_between(start, size, to);
}

/// Adds the cells of the indexes from one to before another.
pub(crate) fn add_between(start: u32, end: u32, to: &mut CellBits)
    requires order { start ≤ end }
    requires within { end ≤ size_of to.old.extent }
    ensures { to.new ≡ with_those to.old (λ o. nat_le start (index_of to.old.extent o)
        && nat_lt (index_of to.old.extent o) end) }
{
    to.shape(); // the set as it was is that of its cells
    if start < end {
        let last = end - 1;
        to.add_run(Run { first: start, last });
    }
}

/// The least index of a set, or the size of its shape where it has none.
pub(crate) fn least_of(set: &CellBits) -> u32
    ensures few { result ≤ size_of set.now.extent }
    ensures before { (k : ℕ) → k < result → list_any (λ i. i == k) set.now.indexes ≡ false }
{
    let size = set.shape().size();
    match set.next_after(0) {
        Some(index) => index,
        None => size,
    }
}

/// The least and the greatest index of a set, 0 and 0 where it has none. Takes time in the number
/// of its cells.
fn span_of(set: &CellBits) -> Span
    ensures within { LieWithin result.least result.last set.now }
    ensures order { result.least ≤ result.last }
    ensures last { result.last < size_of set.now.extent }
    ensures few { result.last < 1048576 }
{
    set.shape().size(); // there is a cell, and there are not too many
    match set.next_after(0) {
        Some(least) => Span {
            least,
            last: last_from(set, least),
        },
        None => Span { least: 0, last: 0 },
    }
}

/// The greatest index of a set from a given one on, or that one where no other is later. Takes time
/// in the number of the set's cells.
fn last_from(set: &CellBits, index: u32) -> u32
    requires { index < size_of set.now.extent }
    ensures later { index ≤ result }
    ensures greatest { (k : ℕ) → list_any (λ i. i == k) set.now.indexes ≡ true → k ≤ result }
    ensures below { result < size_of set.now.extent }
{
    let size = set.shape().size();
    let mut last = index;
    while last < size - 1 {
        match set.next_after(last + 1) {
            Some(later) => last = later,
            None => return last,
        }
    }
    last
}

/// Whether a set has the cell that a value names, given between which indexes its own lie.
fn has_named(first: u32, value: Value, span: Span, set: &CellBits) -> bool
    requires first { first ≤ 1 }
    requires within { LieWithin span.least span.last set.now }
    requires order { span.least ≤ span.last }
    requires last { span.last < size_of set.now.extent }
    ensures { result ≡ has_named first value set.now }
{
    match value {
        Some(number) => has_number(first, number, span, set),
        None => false,
    }
}

/// The same for a number. One below 0 is told as one above all indexes.
fn has_number(first: u32, number: i64, span: Span, set: &CellBits) -> bool
    requires first { first ≤ 1 }
    requires within { LieWithin span.least span.last set.now }
    requires order { span.least ≤ span.last }
    requires last { span.last < size_of set.now.extent }
    ensures { result ≡ has_named first (Some number) set.now }
{
    set.shape().size(); // there are fewer cells than a number below 0 tells
    has_counted(first, number.cast_unsigned(), span, set)
}

/// The same for a number from 0 on. It is compared once, with what it is between the two ends:
/// numbers below the least one and above the greatest are met in any order.
fn has_counted(first: u32, number: u64, span: Span, set: &CellBits) -> bool
    requires first { first ≤ 1 }
    requires within { LieWithin span.least span.last set.now }
    requires order { span.least ≤ span.last }
    requires last { span.last < size_of set.now.extent }
    ensures { result ≡ has_named first (Some (pos number)) set.now }
{
    set.shape().size(); // there are fewer cells than a u32 tells
    let least = (first + span.least) as u64;
    let last = (first + span.last) as u64;
    number.max(least).min(last) == number && set.has_index((number - first as u64) as u32)
}

/// The index that a value names, of so many, counted from a first number.
pub(crate) fn named(first: u32, count: u32, value: Value) -> Option<u32>
    requires { first + count < 2 ^ 32 }
    ensures { result ≡ named first count value }
{
    index_above(first, count, value?)
}

/// The index that a number names, of so many, counted from a first number.
fn index_above(first: u32, count: u32, number: i64) -> Option<u32>
    requires { first + count < 2 ^ 32 }
    ensures { result ≡ index_above first count number }
{
    let number = u32::try_from(number).ok()?;
    if first <= number && number - first < count {
        Some(number - first)
    } else {
        None
    }
}
