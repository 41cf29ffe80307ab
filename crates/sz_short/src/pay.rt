//! Stores of payloads in the other form: the table of output sets is spelled again, and the
//! payloads and what names both are copied.

ghost use Rattle.std.specs.Prelude.{◌≡◌, ◌≤◌, ◌<◌, ◌+◌, ◌++◌};
ghost use Rattle.sz_short.specs.Terms.{ℕ, List, length, take, true, IfOk, IfErr, OnOk, OnErr};
ghost use Rattle.sz_short.specs.Terms.{Cells, is_extent, set_bytes, IsSetOf, IsAt, counted, Entry};
ghost use Rattle.sz_short.specs.Terms.{BeginsEntries, OnBad, NoneAt, AreFew, NoEntriesBegin};
ghost use Rattle.sz_short.specs.Terms.{SaysNoEntries, short_set_bytes, RespellsPay, SaysNoShortPay};
ghost use Rattle.sz_short.specs.Terms.{NoPayBegins, read_bytes, written_bytes};

use crate::parts::{copy_part, copy_payloads, copy_rows, take_number};
use crate::ways::{Way, respell_set};
use std::alloc::Global;
use sz_cells::Shape;
use sz_cells::laws::a_shape_is_within_limits;
use sz_region::{Take, take_entries};

/// Appends the short form of the store of payloads that begins at a place of some bytes, for an
/// output of this shape, and gives the place behind the store. Payloads and sets keep their order
/// and their numbers, and payloads their bytes; whether they are an operator's is not judged. `Bad`
/// exactly where no store begins there; after either refusal the bytes are as before. "The short
/// bytes of a store" of `docs/FORMATS.md` describes the form.
///
/// Takes time in the number of the bytes that it reads and of the entries' cells, memory for what
/// it appends, and as much as [`take_entries`] while it works.
pub fn shorten_pay(
    alloc: Global,
    out: Shape,
    bytes: &[u8],
    at: u64,
    to: &mut Vec<u8>,
) -> Result<u64, Take>
    ensures ok { IfOk result (λ n. RespellsPay set_bytes short_set_bytes out bytes.now at n
        to.old.items to.new.items) }
    ensures err { IfErr result (λ e. SaysNoEntries out bytes.now at e) }
    ensures kept { OnErr result (to.new.items ≡ to.old.items) }
{
    let length = to.len();
    a_shape_is_within_limits(&out);
    let done = shorten(alloc, out, bytes, at, to);
    if done.is_err() {
        to.truncate(length);
    }
    match done {
        Err(Take::Bad { .. }) => Err(Take::Bad { at }),
        done => done,
    }
}

/// As [`shorten_pay`], but that `Bad` says any place, and that after a refusal some of the bytes
/// may be there.
fn shorten(alloc: Global, out: Shape, bytes: &[u8], at: u64, to: &mut Vec<u8>) -> Result<u64, Take>
    requires { is_extent out ≡ true }
    ensures ok { IfOk result (λ n. RespellsPay set_bytes short_set_bytes out bytes.now at n
        to.old.items to.new.items) }
    ensures err { IfErr result (λ e. OnBad e (NoEntriesBegin out bytes.now at)) }
    ensures kept { OnErr result (take (length to.old.items) to.new.items ≡ to.old.items) }
{
    find_store(alloc, out, bytes, at)?;
    let place = copy_payloads(bytes, at, to)?;
    let far = respell_sets(Way::Shorten, alloc, out, bytes, place, to)?;
    copy_rows(2, bytes, far, to)
}

/// Appends the store of payloads whose short form begins at a place of some bytes, for an output of
/// this shape, and gives the place behind that form. Payloads and sets keep their order and their
/// numbers, and payloads their bytes; whether they are an operator's is not judged. `Bad` exactly
/// where no short form begins there; after either refusal the bytes are as before. "The short bytes
/// of a store" of `docs/FORMATS.md` describes the form.
///
/// Takes time in the number of the bytes that it reads and appends and of the entries' cells,
/// memory for what it appends, and as much as [`take_entries`] while it works.
pub fn widen_pay(
    alloc: Global,
    out: Shape,
    bytes: &[u8],
    at: u64,
    to: &mut Vec<u8>,
) -> Result<u64, Take>
    ensures ok { IfOk result (λ n. RespellsPay short_set_bytes set_bytes out bytes.now at n
        to.old.items to.new.items) }
    ensures err { IfErr result (λ e. SaysNoShortPay out bytes.now at e) }
    ensures kept { OnErr result (to.new.items ≡ to.old.items) }
{
    let length = to.len();
    a_shape_is_within_limits(&out);
    let done = widen(alloc, out, bytes, at, to);
    if done.is_err() {
        to.truncate(length);
    }
    match done {
        Err(Take::Bad { .. }) => Err(Take::Bad { at }),
        done => done,
    }
}

/// As [`widen_pay`], but that `Bad` says any place, and that after a refusal some of the bytes may
/// be there.
fn widen(alloc: Global, out: Shape, bytes: &[u8], at: u64, to: &mut Vec<u8>) -> Result<u64, Take>
    requires { is_extent out ≡ true }
    ensures ok { IfOk result (λ n. RespellsPay short_set_bytes set_bytes out bytes.now at n
        to.old.items to.new.items) }
    ensures err { IfErr result
        (λ e. OnBad e (NoPayBegins short_set_bytes out bytes.now at)) }
    ensures kept { OnErr result (take (length to.old.items) to.new.items ≡ to.old.items) }
{
    let begin = to.len() as u64;
    let place = copy_payloads(bytes, at, to)?;
    let far = respell_sets(Way::Widen, alloc, out, bytes, place, to)?;
    let next = copy_rows(2, bytes, far, to)?;
    find_store(alloc, out, to, begin)?;
    Ok(next)
}

/// Whether a store of payloads begins at a place. `Bad` says any place.
fn find_store(alloc: Global, out: Shape, bytes: &[u8], at: u64) -> Result<(), Take>
    ensures ok { OnOk result ((next : ℕ) × (entries : List Entry)
        × BeginsEntries out bytes.now at next entries) }
    ensures err { IfErr result (λ e. OnBad e (NoEntriesBegin out bytes.now at)) }
{
    match take_entries(alloc, out, bytes, at) {
        Ok(_) => Ok(()),
        Err(fault) => Err(fault),
    }
}

/// Appends the table of output sets that begins at a place, each set in the other spelling, and
/// gives the place behind the table. After a refusal some of the bytes may be there.
fn respell_sets(
    way: Way,
    alloc: Global,
    out: Shape,
    bytes: &[u8],
    at: u64,
    to: &mut Vec<u8>,
) -> Result<u64, Take>
    requires { is_extent out ≡ true }
    ensures ok { IfOk result (λ n. (sets : List Cells) × AreFew (IsSetOf out) sets
        × IsAt bytes.now at n (counted (read_bytes way) sets)
        × (to.new.items ≡ to.old.items ++ counted (written_bytes way) sets)) }
    ensures err { IfErr result (λ e. OnBad e
        (NoneAt (AreFew (IsSetOf out)) (counted (read_bytes way)) bytes.now at)) }
    ensures kept { OnErr result (take (length to.old.items) to.new.items ≡ to.old.items) }
{
    let Some(count) = take_number(bytes, at) else {
        return Err(Take::Bad { at });
    };
    copy_part(bytes, at, at + 4, to)?;
    let mut place = at + 4;
    for _index in 0..count {
        place = respell_set(way, alloc, out, bytes, place, to)?;
    }
    Ok(place)
}
