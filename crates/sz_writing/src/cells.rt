//! The JSON values of a cell, a row, a layer and layers.

ghost use Rattle.std.specs.Prelude.{◌≡◌, ◌≤◌, ◌<◌, ◌*◌};
ghost use Rattle.sz_writing.specs.Terms.{length, IfOk, view, value_of, values_of_row};
ghost use Rattle.sz_writing.specs.Terms.{values_of_layer, is_value, is_row, is_layer, IsWritten};
ghost use Rattle.sz_writing.specs.Terms.{AreLayers, value_long, row_long, layer_long};

use serde_json::Value;
use std::alloc::{AllocError, Global};

/// The value of a cell: its number, or null where it is empty.
fn value_of(cell: Option<i64>) -> Value
    ensures written { IsWritten is_value 0 value_long (view result) }
    ensures given { value_of (view result) ≡ cell }
{
    match cell {
        Some(number) => Value::from(number),
        None => Value::Null,
    }
}

/// The value of a row: the list of its cells.
fn row_of(alloc: Global, cells: &[Option<i64>]) -> Result<Value, AllocError>
    ensures written { IfOk result (λ v.
        IsWritten (is_row (length cells.now)) 1 (row_long (length cells.now)) (view v)) }
    ensures given { IfOk result (λ v. values_of_row (view v) ≡ cells.now) }
{
    let mut items = Vec::with_capacity(alloc, cells.len())?;
    for cell in cells {
        items.push(value_of(*cell))?;
    }
    Ok(Value::Array(items))
}

/// The value of a layer: the list of its rows, so many and each of this width.
pub fn layer_of(
    alloc: Global,
    cells: &[Option<i64>],
    height: usize,
    width: usize,
) -> Result<Value, AllocError>
    requires { length cells.now ≡ height * width }
    ensures written { IfOk result (λ v.
        IsWritten (is_layer height width) 2 (layer_long height width) (view v)) }
    ensures given { IfOk result (λ v. values_of_layer (view v) ≡ cells.now) }
{
    let mut rows = Vec::with_capacity(alloc, height)?;
    let mut rest = cells;
    for _row in 0..height {
        let (row, below) = rest.split_at(width);
        rows.push(row_of(alloc, row)?)?;
        rest = below;
    }
    Ok(Value::Array(rows))
}

/// The value of some layers: the list of them, each of this height and width.
pub fn layers_of(
    alloc: Global,
    cells: &[Option<i64>],
    count: usize,
    height: usize,
    width: usize,
) -> Result<Value, AllocError>
    requires whole { length cells.now ≡ count * (height * width) }
    requires some { 0 < count }
    ensures { IfOk result (λ v. AreLayers count height width cells.now (view v)) }
{
    let size = cells.len() / count;
    let mut layers = Vec::with_capacity(alloc, count)?;
    let mut rest = cells;
    for _layer in 0..count {
        let (layer, behind) = rest.split_at(size);
        layers.push(layer_of(alloc, layer, height, width)?)?;
        rest = behind;
    }
    Ok(Value::Array(layers))
}
