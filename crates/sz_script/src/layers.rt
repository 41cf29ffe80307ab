//! The cells of an array: layers of rows of values.

ghost use Rattle.std.specs.Prelude.{◌≡◌, ◌≤◌, ◌<◌, ◌++◌, if◌then◌else◌};
ghost use Rattle.sz_script.specs.Terms.{true, map, length, Some, None, IfOk, IfSome, list_all};
ghost use Rattle.sz_script.specs.Terms.{flat_map, view, is_layered, layered, value_in, is_value};
ghost use Rattle.sz_script.specs.Terms.{is_row, is_layer, height_of, width_of, value_of};
ghost use Rattle.sz_script.specs.Terms.{values_of_row, values_of_layer, array_in, are_counted};
ghost use Rattle.sz_script.specs.Terms.{filled, Reads};

use crate::command::LineFault;
use crate::fields;
use crate::refusal::Refusal;
use serde_json::Value;
use std::alloc::{AllocError, Global};
use sz_cells::Shape;
use sz_spec::Array;

/// The most cells that an array has.
const CELL_LIMIT: usize = 1_048_576;

/// The most layers that an array has.
const LAYER_LIMIT: usize = 16;

/// The array of some layers. Each value is looked at once, and takes memory only where the array
/// has not too many cells.
pub fn array_of(alloc: Global, layers: &[Value]) -> Result<Array, LineFault>
    ensures { Reads (array_in (map view layers.now)) result }
{
    let Some((height, width)) = sides_of(layers) else {
        return Err(LineFault::Refused(Refusal::BadCells));
    };
    match make_shape(layers.len(), height, width) {
        Some(shape) => fill(alloc, shape, layers, height, width),
        None => {
            if are_layers(layers, height, width) {
                Err(LineFault::Refused(Refusal::TooManyCells))
            } else {
                Err(LineFault::Refused(Refusal::BadCells))
            }
        }
    }
}

/// The height of the first layer and the width of its first row, where there are 1 to 16 layers and
/// neither is 0.
fn sides_of(layers: &[Value]) -> Option<(usize, usize)>
    ensures { result ≡ (if are_counted (map view layers.now)
        then Some (height_of (map view layers.now), width_of (map view layers.now)) else None) }
{
    let height = fields::first_length(layers);
    let width = width_of(layers);
    if layers.len() > 0 && layers.len() <= LAYER_LIMIT && height > 0 && width > 0 {
        Some((height, width))
    } else {
        None
    }
}

/// How many cells the first row of the first layer has.
fn width_of(layers: &[Value]) -> usize
    ensures { result ≡ width_of (map view layers.now) }
{
    match layers.first() {
        Some(layer) => match fields::list_of(layer) {
            Some(rows) => fields::first_length(rows),
            None => 0,
        },
        None => 0,
    }
}

/// The shape of this many layers, rows of each, and columns.
pub fn make_shape(layers: usize, height: usize, width: usize) -> Option<Shape>
    requires { layers ≤ 16 }
    ensures { result ≡ (if is_layered layers height width
        then Some (layered layers height width) else None) }
{
    if height > CELL_LIMIT || width > CELL_LIMIT {
        return None;
    }
    Shape::make_layers(layers as u32, height as u32, width as u32)
}

/// The array of this shape, where each layer has its height and its width.
fn fill(
    alloc: Global,
    shape: Shape,
    layers: &[Value],
    height: usize,
    width: usize,
) -> Result<Array, LineFault>
    requires { shape ≡ layered (length layers.now) height width }
    ensures { Reads (filled shape height width (map view layers.now)) result }
{
    let mut cells = Vec::with_capacity(alloc, shape.size() as usize)?;
    for layer in layers {
        if !push_layer(&mut cells, layer, height, width)? {
            return Err(LineFault::Refused(Refusal::BadCells));
        }
    }
    match Array::make(shape, cells) {
        Some(array) => Ok(array),
        None => Err(LineFault::Refused(Refusal::BadCells)),
    }
}

/// Appends the values of a layer, or answers false where it is none of this height and width.
fn push_layer(
    cells: &mut Vec<Option<i64>>,
    layer: &Value,
    height: usize,
    width: usize,
) -> Result<bool, AllocError>
    ensures tested { IfOk result (λ done. done ≡ is_layer height width (view layer.now)) }
    ensures pushed { IfOk result (λ done. done ≡ true
        → cells.new.items ≡ cells.old.items ++ values_of_layer (view layer.now)) }
{
    match fields::list_of(layer) {
        Some(rows) => {
            if rows.len() == height {
                push_rows(cells, rows, width)
            } else {
                Ok(false)
            }
        }
        None => Ok(false),
    }
}

/// Appends the values of some rows, or answers false where one is none of this width.
fn push_rows(cells: &mut Vec<Option<i64>>, rows: &[Value], width: usize) -> Result<bool, AllocError>
    ensures tested { IfOk result (λ done. done ≡ list_all (is_row width) (map view rows.now)) }
    ensures pushed { IfOk result (λ done. done ≡ true
        → cells.new.items ≡ cells.old.items ++ flat_map values_of_row (map view rows.now)) }
{
    for row in rows {
        if !push_row(cells, row, width)? {
            return Ok(false);
        }
    }
    Ok(true)
}

/// Appends the values of a row, or answers false where it is none of this width.
fn push_row(cells: &mut Vec<Option<i64>>, row: &Value, width: usize) -> Result<bool, AllocError>
    ensures tested { IfOk result (λ done. done ≡ is_row width (view row.now)) }
    ensures pushed { IfOk result (λ done. done ≡ true
        → cells.new.items ≡ cells.old.items ++ values_of_row (view row.now)) }
{
    match fields::list_of(row) {
        Some(items) => {
            if items.len() == width {
                push_values(cells, items)
            } else {
                Ok(false)
            }
        }
        None => Ok(false),
    }
}

/// Appends the values of some items, or answers false where one is none.
fn push_values(cells: &mut Vec<Option<i64>>, items: &[Value]) -> Result<bool, AllocError>
    ensures tested { IfOk result (λ done. done ≡ list_all is_value (map view items.now)) }
    ensures pushed { IfOk result (λ done. done ≡ true
        → cells.new.items ≡ cells.old.items ++ map value_of (map view items.now)) }
{
    for item in items {
        let Some(value) = value_of(item) else {
            return Ok(false);
        };
        cells.push(value)?;
    }
    Ok(true)
}

/// Whether each layer has this height and width.
fn are_layers(layers: &[Value], height: usize, width: usize) -> bool
    ensures { result ≡ list_all (λ v. is_layer height width (view v)) layers.now }
{
    layers.iter().all(|layer| is_layer(layer, height, width))
}

/// Whether a layer has this height and width.
fn is_layer(layer: &Value, height: usize, width: usize) -> bool
    ensures { result ≡ is_layer height width (view layer.now) }
{
    match fields::list_of(layer) {
        Some(rows) => rows.len() == height && are_rows(rows, width),
        None => false,
    }
}

/// Whether each row has this width.
fn are_rows(rows: &[Value], width: usize) -> bool
    ensures { result ≡ list_all (λ v. is_row width (view v)) rows.now }
{
    rows.iter().all(|row| is_row(row, width))
}

/// Whether a row has this width.
fn is_row(row: &Value, width: usize) -> bool
    ensures { result ≡ is_row width (view row.now) }
{
    match fields::list_of(row) {
        Some(items) => items.len() == width && are_values(items),
        None => false,
    }
}

/// Whether each item is a value.
fn are_values(items: &[Value]) -> bool
    ensures { result ≡ list_all (λ v. is_value (view v)) items.now }
{
    items.iter().all(|item| value_of(item).is_some())
}

/// What a cell holds: a whole number that is an i64, or null for nothing.
pub fn value_of(value: &Value) -> Option<Option<i64>>
    ensures { result ≡ value_in (view value.now) }
{
    match value {
        Value::Null => Some(None),
        Value::Number(number) => match number.as_i64() {
            Some(whole) => Some(Some(whole)),
            None => None,
        },
        _ => None,
    }
}
