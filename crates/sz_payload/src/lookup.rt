//! Payloads of lookup: no byte, or four of the column that is named in the table.

ghost use Rattle.std.specs.Prelude.{◌≡◌, ◌<◌};
ghost use Rattle.sz_payload.specs.Terms.{[], length, true, IfSome, holds, any_cell, with_those};
ghost use Rattle.sz_payload.specs.Terms.{Lookup, extent_at, is_payload, mapped_by_payload};
ghost use Rattle.sz_payload.specs.Terms.{is_column, entry_kept, is_cell, IsOnly, AreAlike};

use crate::runs::number_at;
use sz_cells::{Cell, CellBits, Shape};
use sz_frame::{add_cell, has_cell};
use sz_spec::OpAt;

/// Adds the output cell to input 0, and to the table the cell that the payload names.
pub(crate) fn map_p(at: &OpAt, out: Cell, payload: &[u8], input: u32, to: &mut CellBits)
    requires op { at.now.op ≡ Lookup }
    requires out { holds at.now.out out ≡ true }
    requires input { input < length at.now.ins }
    requires to { to.old.extent ≡ extent_at at.now.ins input }
    ensures extent { to.new.extent ≡ to.old.extent }
    ensures added { is_payload at.now.op at.now.ins payload.now ≡ true → to.new ≡ with_those to.old
        (λ x. mapped_by_payload at.now.op at.now.ins payload.now input out x) }
{
    add_cell(to, cell_of(at, out, payload, input));
}

/// Whether the output cell is one of those of input 0, or the named cell one of the table's.
pub(crate) fn meets(at: &OpAt, out: Cell, payload: &[u8], input: u32, from: &CellBits) -> bool
    requires op { at.now.op ≡ Lookup }
    requires out { holds at.now.out out ≡ true }
    requires payload { is_payload at.now.op at.now.ins payload.now ≡ true }
    requires input { input < length at.now.ins }
    requires from { from.now.extent ≡ extent_at at.now.ins input }
    ensures { result ≡ any_cell
        (λ x. mapped_by_payload at.now.op at.now.ins payload.now input out x) from.now }
{
    from.shape(); // the set is that of its cells
    has_cell(from, cell_of(at, out, payload, input))
}

/// The cell of an input that a payload of an output cell stands for, where there is one.
fn cell_of(at: &OpAt, out: Cell, payload: &[u8], input: u32) -> Option<Cell>
    requires op { at.now.op ≡ Lookup }
    requires out { holds at.now.out out ≡ true }
    requires input { input < length at.now.ins }
    ensures held { IfSome result (λ c. holds (extent_at at.now.ins input) c ≡ true) }
    ensures only { is_payload at.now.op at.now.ins payload.now ≡ true
        → IsOnly (extent_at at.now.ins input)
        (λ x. mapped_by_payload at.now.op at.now.ins payload.now input out x) result }
{
    at.out(); // the output has the shape of input 0
    let ins = at.ins();
    if input == 0 {
        Some(out)
    } else {
        named(&ins[1], payload)
    }
}

/// The cell of the table that a payload names, where it names one.
fn named(table: &Shape, payload: &[u8]) -> Option<Cell>
    ensures held { IfSome result (λ c. holds table.now c ≡ true) }
    ensures only { is_column table.now payload.now ≡ true
        → IsOnly table.now (entry_kept payload.now) result }
    ensures none { payload.now ≡ [] → IsOnly table.now (entry_kept payload.now) result }
{
    if payload.len() != 4 {
        return None;
    }
    let cell = Cell {
        row: 0,
        col: number_at(payload, 0),
    };
    if table.holds(cell) { Some(cell) } else { None }
}

/// Whether the bytes are none, or four of a column of the table.
pub(crate) fn is_payload(at: &OpAt, bytes: &[u8]) -> bool
    requires { at.now.op ≡ Lookup }
    ensures { result ≡ is_payload at.now.op at.now.ins bytes.now }
{
    let ins = at.ins();
    let table = ins[1];
    match bytes.len() {
        0 => true,
        4 => number_at(bytes, 0) < table.cols,
        _ => false,
    }
}

/// Over the table it does not depend on the output cell.
pub(crate) fn is_alike(at: &OpAt, _payload: &[u8], input: u32) -> bool
    requires { at.now.op ≡ Lookup }
    ensures { result ≡ true → AreAlike at.now.op at.now.ins _payload.now input }
{
    let _ = at;
    input == 1
}
