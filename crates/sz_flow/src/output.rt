//! The output of an operator over its inputs, and how its values are computed: one after another,
//! or side by side.

ghost use Rattle.std.specs.Prelude.{◌≡◌, ◌<◌, ◌^◌};
ghost use Rattle.sz_flow.specs.Terms.{true, length, map, IfOk, arc_value, size_of, cell_of};
ghost use Rattle.sz_flow.specs.Terms.{extents_of, value_of, output_of, values_before, aid_of};

use rayon::prelude::*;
use std::alloc::Global;
use std::sync::Arc;
use std::thread::Threads;
use sz_cells::{NoMemory, Shape};
use sz_ops::{Aid, run_prepared, value_at};
use sz_spec::{Array, Op, OpAt, Value};

/// From how many cells on values are computed side by side.
const SIDE_BY_SIDE_FROM: u32 = 16_384;

/// The operator's output, given what was prepared for its inputs. One pass over its cells.
pub(crate) fn output_of<R: Threads + Sync>(
    rt: &R,
    alloc: Global,
    at: &OpAt,
    inputs: &[Arc<Array>],
    aid: &Aid,
) -> Result<Array, NoMemory>
    requires inputs { extents_of (map (λ a. arc_value a) inputs.now) ≡ at.now.ins }
    requires aid { aid.now ≡ aid_of at.now.op (map (λ a. arc_value a) inputs.now) }
    ensures { IfOk result (λ a. a ≡ output_of at.now.op (map (λ a. arc_value a) inputs.now)) }
{
    at.ins(); // there are as many inputs as the operator takes
    let shape = at.out();
    if is_side_by_side(at.op(), shape.size()) {
        let values = side_by_side(rt, alloc, at, inputs, aid)?;
        Ok(array_of(shape, values))
    } else {
        run_prepared(alloc, at, inputs, aid)
    }
}

/// Whether the values of an operator with so many output cells are computed side by side. It
/// settles the cost alone: it pays for an operator that reads many cells for each value, and has
/// no faster way of its own to all of them.
pub(crate) fn is_side_by_side(op: &Op, size: u32) -> bool {
    size >= SIDE_BY_SIDE_FROM && matches!(op, Op::Clean { .. })
}

/// An operator's values at all cells of its output, computed side by side. Each is written at its
/// place in one vector of that many, so that no worker allocates.
pub(crate) fn side_by_side<R: Threads + Sync>(
    rt: &R,
    alloc: Global,
    at: &OpAt,
    inputs: &[Arc<Array>],
    aid: &Aid,
) -> Result<Vec<Value>, NoMemory>
    requires inputs { extents_of (map (λ a. arc_value a) inputs.now) ≡ at.now.ins }
    requires aid { aid.now ≡ aid_of at.now.op (map (λ a. arc_value a) inputs.now) }
    ensures { IfOk result (λ v. v.items
        ≡ values_before at.now (map (λ a. arc_value a) inputs.now) (size_of at.now.out)) }
{
    let size = at.out().size();
    let mut values: Vec<Value> = vec![in alloc; None; size as usize]?;
    par_for_each_mut(
        rt,
        &mut values,
        |index: usize, value: &mut Value|
            requires inputs { extents_of (map (λ a. arc_value a) inputs.now) ≡ at.now.ins }
            requires aid { aid.now ≡ aid_of at.now.op (map (λ a. arc_value a) inputs.now) }
            requires index { index < size_of at.now.out }
            requires fits { index < 2 ^ 32 }
            ensures { value.new ≡ value_of at.entry.now.op
                (map (λ a. arc_value a) inputs.entry.now) (cell_of at.entry.now.out index) }
        {
            *value = value_of_index(at, inputs, aid, index as u32);
        },
    );
    Ok(values)
}

/// An operator's value at the output cell of a row-major index.
fn value_of_index(at: &OpAt, inputs: &[Arc<Array>], aid: &Aid, index: u32) -> Value
    requires inputs { extents_of (map (λ a. arc_value a) inputs.now) ≡ at.now.ins }
    requires aid { aid.now ≡ aid_of at.now.op (map (λ a. arc_value a) inputs.now) }
    requires index { index < size_of at.now.out }
    ensures { result ≡ value_of at.now.op (map (λ a. arc_value a) inputs.now)
        (cell_of at.now.out index) }
{
    value_at(at, inputs, aid, at.out().cell_at(index))
}

/// The array of a shape with a value for each of its cells.
fn array_of(shape: Shape, values: Vec<Value>) -> Array
    requires { length values.items ≡ size_of shape }
    ensures { result ≡ record { extent = shape; values = values.items } }
{
    match Array::make(shape, values) {
        Some(array) => array,
        None => unreachable!(),
    }
}
