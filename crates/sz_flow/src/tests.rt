//! The values of an array computed side by side, and where they are.

ghost use Rattle.std.specs.Prelude.{◌≡◌};
ghost use Rattle.sz_flow.specs.Terms.{IfOk, arc_value, flat};

use crate::output::{is_side_by_side, side_by_side};
use std::alloc::Global;
use std::sync::Arc;
use std::test::Fail;
use sz_cells::Shape;
use sz_ops::{prepare, run};
use sz_spec::{Array, Kernel, Op, OpAt, Value, has_right_parameters};

/// An array of one layer.
fn array(alloc: Global, rows: u32, cols: u32, cells: &[Value]) -> Result<Arc<Array>, Fail>
    ensures { IfOk result (λ a. (arc_value a).extent ≡ flat rows cols) }
{
    let shape = Shape::make(rows, cols).ok_or("the sides are those of a shape")?;
    match Array::make(shape, cells.to_vec(alloc)?) {
        Some(array) => Ok(Arc::new(alloc, array)?),
        None => Err("the shape has other cells".into()),
    }
}

/// The array of one layer that holds 0, 1, 2, .. in row-major order.
fn counted(alloc: Global, rows: u32, cols: u32) -> Result<Arc<Array>, Fail>
    ensures { IfOk result (λ a. (arc_value a).extent ≡ flat rows cols) }
{
    let shape = Shape::make(rows, cols).ok_or("the sides are those of a shape")?;
    let mut cells = Vec::new(alloc);
    for index in 0..shape.size() {
        cells.push(Some(i64::from(index)))?;
    }
    array(alloc, rows, cols, &cells)
}

#[test]
fn values_are_the_same_side_by_side(rt: HostRuntime) -> Result<(), Fail> {
    let alloc = rt.alloc();
    let inputs = [counted(alloc, 128, 256)?];
    let mut ins = Vec::new(alloc);
    ins.push(inputs[0].shape())?;
    let Ok(at) = OpAt::of(Op::Transpose, ins) else {
        return Err("a transpose has no shape rule".into())
    };
    let aid = prepare(alloc, &at, &inputs)?;
    let values = side_by_side(&rt, alloc, &at, &inputs, &aid)?;
    assert_eq!(rt; values.len(), 32_768);
    assert_eq!(rt; values.get(1), Some(&Some(256)));
    assert_eq!(rt; values.get(32_767), Some(&Some(32_767)));
    let plain = run(alloc, &at, &inputs)?;
    assert_eq!(rt; values.as_slice(), plain.cells());
    Ok(())
}

#[test]
fn large_arrays_that_cost_are_run_side_by_side(rt: HostRuntime) -> Result<(), Fail> {
    assert!(rt; is_side_by_side(&Op::Clean { t: 0 }, 16_384));
    assert!(rt; !is_side_by_side(&Op::Clean { t: 0 }, 16_383));
    assert!(rt; !is_side_by_side(&Op::Neg, 1_048_576));
    Ok(())
}

/// The array of 30 rows and 7 columns that holds small numbers, but large ones in every tenth row
/// and one empty cell.
fn rows_of_kinds(alloc: Global) -> Result<Arc<Array>, Fail>
    ensures { IfOk result (λ a. (arc_value a).extent ≡ flat 30 7) }
{
    let mut cells = Vec::new(alloc);
    for index in 0..210u32 {
        let number = i64::from(index * 7 % 23) - 9;
        cells.push(if index == 42 {
            None
        } else if index / 7 % 10 == 9 {
            Some(number * 1_000_000_000_000)
        } else {
            Some(number)
        })?;
    }
    array(alloc, 30, 7, &cells)
}

#[test]
fn a_convolution_is_run_as_its_cells_say(rt: HostRuntime) -> Result<(), Fail> {
    let alloc = rt.alloc();
    let inputs = [rows_of_kinds(alloc)?];
    let mut ins = Vec::new(alloc);
    ins.push(inputs[0].shape())?;
    let weights = [1i64, 0, 2, 0, 0, -7, 3, -1, 0, 4, 0, 0, 5, 0, 6].to_vec(alloc)?;
    let op = Op::Convolve {
        kernel: Kernel::make(5, 3, weights),
    };
    if !has_right_parameters(&op) {
        return Err("the kernel is not right".into());
    }
    let Ok(at) = OpAt::of(op, ins) else {
        return Err("a convolution has no shape rule".into())
    };
    let aid = prepare(alloc, &at, &inputs)?;
    let values = side_by_side(&rt, alloc, &at, &inputs, &aid)?;
    let whole = run(alloc, &at, &inputs)?;
    assert_eq!(rt; values.len(), 210);
    assert_eq!(rt; values.as_slice(), whole.cells());
    let cells = whole.cells();
    assert_eq!(rt; cells.get(108), Some(&Some(163)));
    assert_eq!(rt; cells.get(60), Some(&Some(-27_999_999_999_922)));
    assert_eq!(rt; cells.get(42), Some(&None));
    Ok(())
}
