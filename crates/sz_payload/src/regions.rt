//! Payloads of connected regions: no byte for the cell alone, or the bytes of the region's set.

ghost use Rattle.std.specs.Prelude.{◌≡◌, ◌<◌};
ghost use Rattle.sz_payload.specs.Terms.{length, true, IfSome, IfNone, holds, any_cell, has};
ghost use Rattle.sz_payload.specs.Terms.{with_those, is_set_word, set_spelled, extent_at};
ghost use Rattle.sz_payload.specs.Terms.{is_payload, mapped_by_payload, AreAlike, IsRegions};
ghost use Rattle.sz_payload.specs.Terms.{IsBodyOf, IsNoWord};

use crate::runs::{add_runs, are_longest, number_at, runs_meet};
use sz_cells::{Cell, CellBits, Shape};
use sz_spec::OpAt;

/// Adds the output cell where there is no byte, and else the cells of the set.
pub(crate) fn map_p(at: &OpAt, out: Cell, payload: &[u8], input: u32, to: &mut CellBits)
    requires op { IsRegions at.now.op }
    requires out { holds at.now.out out ≡ true }
    requires input { input < length at.now.ins }
    requires to { to.old.extent ≡ extent_at at.now.ins input }
    ensures extent { to.new.extent ≡ to.old.extent }
    ensures added { is_payload at.now.op at.now.ins payload.now ≡ true → to.new ≡ with_those to.old
        (λ x. mapped_by_payload at.now.op at.now.ins payload.now input out x) }
{
    at.ins(); // there is one input
    at.out(); // and the output has its shape
    let _ = input;
    if payload.is_empty() {
        to.set(out);
    } else {
        add_spelled(payload, to);
    }
}

/// Whether the output cell, or a cell of the set, is one of some cells.
pub(crate) fn meets(at: &OpAt, out: Cell, payload: &[u8], input: u32, from: &CellBits) -> bool
    requires op { IsRegions at.now.op }
    requires out { holds at.now.out out ≡ true }
    requires payload { is_payload at.now.op at.now.ins payload.now ≡ true }
    requires input { input < length at.now.ins }
    requires from { from.now.extent ≡ extent_at at.now.ins input }
    ensures { result ≡ any_cell
        (λ x. mapped_by_payload at.now.op at.now.ins payload.now input out x) from.now }
{
    at.ins(); // there is one input
    from.shape(); // the set is that of its cells
    let _ = input;
    if payload.is_empty() {
        from.has(out)
    } else {
        spelled_meets(payload, from)
    }
}

/// Whether the bytes are none, or exactly those of a set of the input's shape.
pub(crate) fn is_payload(at: &OpAt, bytes: &[u8]) -> bool
    requires { IsRegions at.now.op }
    ensures { result ≡ is_payload at.now.op at.now.ins bytes.now }
{
    let ins = at.ins();
    if bytes.is_empty() {
        true
    } else {
        is_word(ins[0], bytes)
    }
}

/// Adds the cells of the set whose bytes these are. Of other bytes nothing is said but that the set
/// keeps its shape.
fn add_spelled(bytes: &[u8], to: &mut CellBits)
    ensures extent { to.new.extent ≡ to.old.extent }
    ensures added { is_set_word to.old.extent bytes.now ≡ true
        → to.new ≡ with_those to.old (has (set_spelled to.old.extent bytes.now)) }
{
    let shape = to.shape();
    shape.size(); // a shape is within the limits
    if let Some(body) = body_of(bytes) {
        add_runs(body, to);
    }
}

/// Whether the set whose bytes these are has one of some cells.
fn spelled_meets(bytes: &[u8], from: &CellBits) -> bool
    requires { is_set_word from.now.extent bytes.now ≡ true }
    ensures { result ≡ any_cell (has (set_spelled from.now.extent bytes.now)) from.now }
{
    let shape = from.shape();
    shape.size(); // a shape is within the limits
    match body_of(bytes) {
        Some(body) => runs_meet(body, from),
        None => false,
    }
}

/// Whether the bytes are those of a set of a shape.
fn is_word(shape: Shape, bytes: &[u8]) -> bool
    ensures { result ≡ is_set_word shape bytes.now }
{
    let size = shape.size();
    match body_of(bytes) {
        Some(body) => are_longest(body, size),
        None => false,
    }
}

/// The bytes of the runs behind their number, where there are as many as it says and no more.
fn body_of(bytes: &[u8]) -> Option<&[u8]>
    ensures some { IfSome result (λ b. IsBodyOf bytes.now b.now) }
    ensures none { IfNone result (IsNoWord bytes.now) }
{
    if bytes.len() < 4 {
        return None;
    }
    let (head, body) = bytes.split_at(4);
    if body.len() != number_at(head, 0) as usize * 8 {
        return None;
    }
    Some(body)
}

/// The cells of a set do not depend on the output cell.
pub(crate) fn is_alike(at: &OpAt, payload: &[u8], _input: u32) -> bool
    requires { IsRegions at.now.op }
    ensures { result ≡ true → AreAlike at.now.op at.now.ins payload.now _input }
{
    let _ = at;
    !payload.is_empty()
}
