//! The kernel of a convolution, as a node gives it.

ghost use Rattle.std.specs.Prelude.{◌≡◌, ◌∷◌, ◌++◌, ◌==◌};
ghost use Rattle.sz_script.specs.Terms.{true, map, length, [], IfOk, OnOk, list_all, view};
ghost use Rattle.sz_script.specs.Terms.{items_in, is_whole, is_row_of_wholes, side_of, cols_of};
ghost use Rattle.sz_script.specs.Terms.{weight_of, weights_of, kernel_in};

use crate::fields;
use serde_json::Value;
use std::alloc::{AllocError, Global};
use sz_spec::Kernel;

/// [[I,..],..]: rows of weights. Whether the kernel is right is a rule of flows; of rows of unequal
/// length it has no columns, so that it is none.
pub fn kernel_of(alloc: Global, rows: &[Value]) -> Result<Option<Kernel>, AllocError>
    ensures { IfOk result (λ o. o ≡ kernel_in (map view rows.now)) }
{
    let mut weights = Vec::new(alloc);
    for row in rows {
        if !push_weights(&mut weights, row)? {
            return Ok(None);
        }
    }
    Ok(Some(Kernel::make(side_of(rows.len()), cols_of(rows), weights)))
}

/// Appends the weights of a row, or answers false where it is no list of whole numbers.
fn push_weights(weights: &mut Vec<i64>, row: &Value) -> Result<bool, AllocError>
    ensures tested { IfOk result (λ done. done ≡ is_row_of_wholes (view row.now)) }
    ensures pushed { IfOk result (λ done. done ≡ true
        → weights.new.items ≡ weights.old.items ++ weights_of (view row.now)) }
{
    match fields::list_of(row) {
        Some(items) => push_wholes(weights, items),
        None => Ok(false),
    }
}

/// Appends whole numbers, or answers false where an item is none.
fn push_wholes(weights: &mut Vec<i64>, items: &[Value]) -> Result<bool, AllocError>
    ensures tested { IfOk result (λ done. done ≡ list_all is_whole (map view items.now)) }
    ensures pushed { IfOk result (λ done. done ≡ true
        → weights.new.items ≡ weights.old.items ++ map weight_of (map view items.now)) }
{
    for item in items {
        let Some(weight) = fields::whole_of(item) else {
            return Ok(false);
        };
        push_weight(weights, weight)?;
    }
    Ok(true)
}

/// Appends a weight.
fn push_weight(weights: &mut Vec<i64>, weight: i64) -> Result<(), AllocError>
    ensures { OnOk result (weights.new.items ≡ weights.old.items ++ weight ∷ []) }
{
    weights.push(weight)?;
    Ok(())
}

/// How many columns the rows have: none where they are of unequal length.
#[tactic(auto, using(crate::proofs::Walks::all_seen))]
fn cols_of(rows: &[Value]) -> u32
    ensures { result ≡ cols_of (map view rows.now) }
{
    let width = fields::first_length(rows);
    if are_even(rows, width) {
        side_of(width)
    } else {
        0
    }
}

/// Whether each row has as many weights as this.
fn are_even(rows: &[Value], width: usize) -> bool
    ensures { result ≡ list_all (λ v. length (items_in (view v)) == width) rows.now }
{
    rows.iter().all(|row| fields::length_of(row) == width)
}

/// A side of a kernel, as a u32 holds it.
fn side_of(side: usize) -> u32
    ensures { result ≡ side_of side }
{
    if side <= u32::MAX as usize {
        side as u32
    } else {
        u32::MAX
    }
}
