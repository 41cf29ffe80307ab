//! Stores of full lineage in the other form: the table of sets is spelled again, and what names
//! its sets is copied.

ghost use Rattle.std.specs.Prelude.{◌≡◌, ◌≤◌, ◌<◌, ◌+◌, ◌++◌, ◌∷◌};
ghost use Rattle.sz_short.specs.Terms.{ℕ, List, length, take, true, All, IfOk, IfErr, OnOk, OnErr};
ghost use Rattle.sz_short.specs.Terms.{IfSome, IfNone, is_extent, set_bytes, extent_at, IsAt};
ghost use Rattle.sz_short.specs.Terms.{counted, Listed, IsListed, BeginsRegions, Pairing, OnBad};
ghost use Rattle.sz_short.specs.Terms.{NoneAt, AreFew, NoRegionsBegin, SaysNoRegions};
ghost use Rattle.sz_short.specs.Terms.{short_set_bytes, listed_by, RespellsFull, SaysNoShortFull};
ghost use Rattle.sz_short.specs.Terms.{NoFullBegins, read_bytes, written_bytes};

use crate::parts::{copy_part, copy_rows, take_number};
use crate::ways::{Way, respell_set};
use std::alloc::Global;
use sz_cells::Shape;
use sz_region::{Take, shapes_are_within_limits, take_regions};

/// Appends the short form of the store of full lineage that begins at a place of some bytes, for an
/// operator with an output and inputs of these shapes, and gives the place behind the store. The
/// sets keep their order and their numbers. `Bad` exactly where no store begins there; after either
/// refusal the bytes are as before. "The short bytes of a store" of `docs/FORMATS.md` describes
/// the form.
///
/// Takes time in the number of the bytes that it reads, memory for what it appends, and as much as
/// [`take_regions`] while it works.
pub fn shorten_full(
    alloc: Global,
    out: Shape,
    ins: &[Shape],
    bytes: &[u8],
    at: u64,
    to: &mut Vec<u8>,
) -> Result<u64, Take>
    ensures ok { IfOk result (λ n. RespellsFull set_bytes short_set_bytes out ins.now bytes.now at n
        to.old.items to.new.items) }
    ensures err { IfErr result (λ e. SaysNoRegions out ins.now bytes.now at e) }
    ensures kept { OnErr result (to.new.items ≡ to.old.items) }
{
    let length = to.len();
    shapes_are_within_limits(&out, ins);
    let done = shorten(alloc, out, ins, bytes, at, to);
    if done.is_err() {
        to.truncate(length);
    }
    match done {
        Err(Take::Bad { .. }) => Err(Take::Bad { at }),
        done => done,
    }
}

/// As [`shorten_full`], but that `Bad` says any place, and that after a refusal some of the bytes
/// may be there.
fn shorten(
    alloc: Global,
    out: Shape,
    ins: &[Shape],
    bytes: &[u8],
    at: u64,
    to: &mut Vec<u8>,
) -> Result<u64, Take>
    requires { All (λ e. is_extent e ≡ true) (out ∷ ins.now) }
    ensures ok { IfOk result (λ n. RespellsFull set_bytes short_set_bytes out ins.now bytes.now at n
        to.old.items to.new.items) }
    ensures err { IfErr result (λ e. OnBad e (NoRegionsBegin out ins.now bytes.now at)) }
    ensures kept { OnErr result (take (length to.old.items) to.new.items ≡ to.old.items) }
{
    find_store(alloc, out, ins, bytes, at)?;
    let place = respell_table(Way::Shorten, alloc, out, ins, bytes, at, to)?;
    copy_rows(ins.len() as u64 + 1, bytes, place, to)
}

/// Appends the store of full lineage whose short form begins at a place of some bytes, for an
/// operator with an output and inputs of these shapes, and gives the place behind that form. The
/// sets keep their order and their numbers. `Bad` exactly where no short form begins there; after
/// either refusal the bytes are as before. "The short bytes of a store" of `docs/FORMATS.md`
/// describes the form.
///
/// Takes time in the number of the bytes that it reads and appends, memory for what it appends, and
/// as much as [`take_regions`] while it works.
pub fn widen_full(
    alloc: Global,
    out: Shape,
    ins: &[Shape],
    bytes: &[u8],
    at: u64,
    to: &mut Vec<u8>,
) -> Result<u64, Take>
    ensures ok { IfOk result (λ n. RespellsFull short_set_bytes set_bytes out ins.now bytes.now at n
        to.old.items to.new.items) }
    ensures err { IfErr result (λ e. SaysNoShortFull out ins.now bytes.now at e) }
    ensures kept { OnErr result (to.new.items ≡ to.old.items) }
{
    let length = to.len();
    shapes_are_within_limits(&out, ins);
    let done = widen(alloc, out, ins, bytes, at, to);
    if done.is_err() {
        to.truncate(length);
    }
    match done {
        Err(Take::Bad { .. }) => Err(Take::Bad { at }),
        done => done,
    }
}

/// As [`widen_full`], but that `Bad` says any place, and that after a refusal some of the bytes may
/// be there.
fn widen(
    alloc: Global,
    out: Shape,
    ins: &[Shape],
    bytes: &[u8],
    at: u64,
    to: &mut Vec<u8>,
) -> Result<u64, Take>
    requires { All (λ e. is_extent e ≡ true) (out ∷ ins.now) }
    ensures ok { IfOk result (λ n. RespellsFull short_set_bytes set_bytes out ins.now bytes.now at n
        to.old.items to.new.items) }
    ensures err { IfErr result
        (λ e. OnBad e (NoFullBegins short_set_bytes out ins.now bytes.now at)) }
    ensures kept { OnErr result (take (length to.old.items) to.new.items ≡ to.old.items) }
{
    let begin = to.len() as u64;
    let place = respell_table(Way::Widen, alloc, out, ins, bytes, at, to)?;
    let next = copy_rows(ins.len() as u64 + 1, bytes, place, to)?;
    find_store(alloc, out, ins, to, begin)?;
    Ok(next)
}

/// Whether a store of full lineage begins at a place. `Bad` says any place.
fn find_store(alloc: Global, out: Shape, ins: &[Shape], bytes: &[u8], at: u64) -> Result<(), Take>
    ensures ok { OnOk result ((next : ℕ) × (regions : List Pairing)
        × BeginsRegions out ins.now bytes.now at next regions) }
    ensures err { IfErr result (λ e. OnBad e (NoRegionsBegin out ins.now bytes.now at)) }
{
    match take_regions(alloc, out, ins, bytes, at) {
        Ok(_) => Ok(()),
        Err(fault) => Err(fault),
    }
}

/// Appends the table of sets that begins at a place, each set in the other spelling, and gives the
/// place behind the table. After a refusal some of the bytes may be there.
fn respell_table(
    way: Way,
    alloc: Global,
    out: Shape,
    ins: &[Shape],
    bytes: &[u8],
    at: u64,
    to: &mut Vec<u8>,
) -> Result<u64, Take>
    requires { All (λ e. is_extent e ≡ true) (out ∷ ins.now) }
    ensures ok { IfOk result (λ n. (table : List Listed) × AreFew (IsListed out ins.now) table
        × IsAt bytes.now at n (counted (listed_by (read_bytes way)) table)
        × (to.new.items ≡ to.old.items ++ counted (listed_by (written_bytes way)) table)) }
    ensures err { IfErr result (λ e. OnBad e (NoneAt (AreFew (IsListed out ins.now))
        (counted (listed_by (read_bytes way))) bytes.now at)) }
    ensures kept { OnErr result (take (length to.old.items) to.new.items ≡ to.old.items) }
{
    let Some(count) = take_number(bytes, at) else {
        return Err(Take::Bad { at });
    };
    copy_part(bytes, at, at + 4, to)?;
    let mut place = at + 4;
    for _index in 0..count {
        place = respell_listed(way, alloc, out, ins, bytes, place, to)?;
    }
    Ok(place)
}

/// Appends the set with its array that begins at a place, in the other spelling, and gives the
/// place behind it. After a refusal some of the bytes may be there.
fn respell_listed(
    way: Way,
    alloc: Global,
    out: Shape,
    ins: &[Shape],
    bytes: &[u8],
    at: u64,
    to: &mut Vec<u8>,
) -> Result<u64, Take>
    ensures ok { IfOk result (λ n. (l : Listed) × IsListed out ins.now l
        × IsAt bytes.now at n (listed_by (read_bytes way) l)
        × (to.new.items ≡ to.old.items ++ listed_by (written_bytes way) l)) }
    ensures err { IfErr result (λ e. OnBad e
        (NoneAt (IsListed out ins.now) (listed_by (read_bytes way)) bytes.now at)) }
    ensures kept { OnErr result (take (length to.old.items) to.new.items ≡ to.old.items) }
{
    if bytes.len() as u64 <= at {
        return Err(Take::Bad { at });
    }
    let array = bytes[at as usize];
    let Some(shape) = shape_of(out, ins, array) else {
        return Err(Take::Bad { at });
    };
    to.push(array)?;
    respell_set(way, alloc, shape, bytes, at + 1, to)
}

/// The shape of an array of an operator. `None` exactly where it has no such array.
fn shape_of(out: Shape, ins: &[Shape], array: u8) -> Option<Shape>
    ensures some { IfSome result (λ e. e ≡ extent_at (out ∷ ins.now) array) }
    ensures there { IfSome result (λ e. array ≤ length ins.now) }
    ensures none { IfNone result (length ins.now < array) }
{
    if array == 0 {
        return Some(out);
    }
    ins.get(array as usize - 1).copied()
}
