//! The table of operators that have payloads: which file speaks of which. A further operator is a
//! file, and a line here.

ghost use Rattle.std.specs.Prelude.{◌≡◌, ◌<◌};
ghost use Rattle.sz_payload.specs.Terms.{length, true, false, holds, any_cell, with_those};
ghost use Rattle.sz_payload.specs.Terms.{extent_at, has_mapping, mapped, is_payload};
ghost use Rattle.sz_payload.specs.Terms.{mapped_by_payload, AreAlike};

use crate::{clean, lookup, regions};
use sz_cells::{Cell, CellBits};
use sz_spec::{Op, OpAt};

/// Goes on with the file of an operator that has payloads.
macro_rules! by_operator {
    ($at:expr; $call:ident($($given:expr),*)) => {
        match $at.op() {
            Op::Lookup => lookup::$call($($given),*),
            Op::Regions { .. } => regions::$call($($given),*),
            Op::Clean { .. } => clean::$call($($given),*),
            _ => unreachable!(),
        }
    };
}

/// Adds the cell of an input that is the composite default of an output cell: the same cell, over
/// input 0.
pub(crate) fn default_back(at: &OpAt, out: Cell, input: u32, to: &mut CellBits)
    requires op { has_mapping at.now.op ≡ false }
    requires out { holds at.now.out out ≡ true }
    requires to { to.old.extent ≡ extent_at at.now.ins input }
    ensures { to.new ≡ with_those to.old (λ x. mapped at.now.op at.now.ins input out x) }
{
    at.out(); // the output has the shape of input 0
    to.shape(); // the set as it was is that of its cells
    if input == 0 {
        to.set(out);
    }
}

/// Adds the output cell of which a cell of an input is the composite default.
pub(crate) fn default_forward(at: &OpAt, cell: Cell, input: u32, to: &mut CellBits)
    requires op { has_mapping at.now.op ≡ false }
    requires cell { holds (extent_at at.now.ins input) cell ≡ true }
    requires to { to.old.extent ≡ at.now.out }
    ensures { to.new ≡ with_those to.old (λ o. mapped at.now.op at.now.ins input o cell) }
{
    at.out(); // the output has the shape of input 0
    to.shape(); // the set as it was is that of its cells
    if input == 0 {
        to.set(cell);
    }
}

/// Adds the cells of an input that a payload of an output cell stands for. Of bytes that are no
/// payload nothing is said but that the set keeps its shape. Takes no memory.
pub(crate) fn map_p(at: &OpAt, out: Cell, payload: &[u8], input: u32, to: &mut CellBits)
    requires op { has_mapping at.now.op ≡ false }
    requires out { holds at.now.out out ≡ true }
    requires input { input < length at.now.ins }
    requires to { to.old.extent ≡ extent_at at.now.ins input }
    ensures extent { to.new.extent ≡ to.old.extent }
    ensures added { is_payload at.now.op at.now.ins payload.now ≡ true → to.new ≡ with_those to.old
        (λ x. mapped_by_payload at.now.op at.now.ins payload.now input out x) }
{
    by_operator!(at; map_p(at, out, payload, input, to))
}

/// Whether a payload of an output cell stands for one of some cells of an input. Takes no memory.
pub(crate) fn meets(at: &OpAt, out: Cell, payload: &[u8], input: u32, from: &CellBits) -> bool
    requires op { has_mapping at.now.op ≡ false }
    requires out { holds at.now.out out ≡ true }
    requires payload { is_payload at.now.op at.now.ins payload.now ≡ true }
    requires input { input < length at.now.ins }
    requires from { from.now.extent ≡ extent_at at.now.ins input }
    ensures { result ≡ any_cell
        (λ x. mapped_by_payload at.now.op at.now.ins payload.now input out x) from.now }
{
    by_operator!(at; meets(at, out, payload, input, from))
}

/// Whether these bytes are a payload of the operator. Takes no memory, and time in their number.
pub(crate) fn is_payload(at: &OpAt, bytes: &[u8]) -> bool
    requires { has_mapping at.now.op ≡ false }
    ensures { result ≡ is_payload at.now.op at.now.ins bytes.now }
{
    by_operator!(at; is_payload(at, bytes))
}

/// Whether it is known of a payload that it stands for the same cells of an input, whichever the
/// output cell is.
pub(crate) fn is_alike(at: &OpAt, payload: &[u8], input: u32) -> bool
    requires { has_mapping at.now.op ≡ false }
    ensures { result ≡ true → AreAlike at.now.op at.now.ins payload.now input }
{
    by_operator!(at; is_alike(at, payload, input))
}
