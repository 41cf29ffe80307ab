//! The line that orders an array to be held.

ghost use Rattle.std.specs.Prelude.{◌≡◌};
ghost use Rattle.sz_writing.specs.Terms.{true, IfOk, Ok, view, is_name, reading, array_order};
ghost use Rattle.sz_writing.specs.Terms.{IsOrder, order_data};

use crate::cells;
use serde_json::{Value, json};
use std::alloc::{AllocError, Global};
use sz_cells::NoMemory;
use sz_spec::Array;

/// The line that orders an array to be held under a name, as it is read: of an `array`, or of
/// `layers` where it has more than one layer.
pub fn line_of_array(alloc: Global, name: &str, array: &Array) -> Result<Vec<u8>, NoMemory>
    requires { is_name name.now ≡ true }
    ensures { IfOk result (λ line. reading line.items ≡ Ok (array_order name.now array.now)) }
{
    let order = order_of(alloc, name, array)?;
    Ok(order.to_vec(alloc)?)
}

/// The object of a line that orders an array to be held under a name.
fn order_of(alloc: Global, name: &str, array: &Array) -> Result<Value, AllocError>
    requires { is_name name.now ≡ true }
    ensures { IfOk result (λ v. IsOrder (array_order name.now array.now) (view v)) }
{
    let shape = array.shape();
    let height = shape.height() as usize;
    let width = shape.cols as usize;
    if shape.layers == 1 {
        let cells = cells::layer_of(alloc, array.cells(), height, width)?;
        object_of(alloc, "array", name, cells)
    } else {
        let count = shape.layers as usize;
        let cells = cells::layers_of(alloc, array.cells(), count, height, width)?;
        object_of(alloc, "layers", name, cells)
    }
}

/// The object of a line: a name under the word of a form, and cells.
fn object_of(alloc: Global, word: &str, name: &str, cells: Value) -> Result<Value, AllocError>
    ensures { IfOk result (λ v. view v ≡ order_data word.now name.now (view cells)) }
{
    json!(in alloc; { word: name, "cells": cells })
}
