//! The labels of all cells, written straight from their links: no set is made for them.

ghost use Rattle.std.specs.Prelude.{◌≡◌};
ghost use Rattle.sz_ops_region.specs.Terms.{ℕ, pos, true, map, length, IfOk, Some, arc_value};
ghost use Rattle.sz_ops_region.specs.Terms.{range_with_len, size_of, cell_of, extents_of};
ghost use Rattle.sz_ops_region.specs.Terms.{output_of, labelled_at, is_regions, AreLinks, AreRoots};
ghost use Rattle.sz_ops_region.specs.Terms.{label_by};

use crate::linking::links_of;
use crate::links::settle;
use crate::work::threshold;
use std::alloc::Global;
use std::sync::Arc;
use sz_cells::NoMemory;
use sz_frame::output_with;
use sz_spec::{Array, OpAt, Value};

/// The operator's output: each high cell has the label of its component, any other 0.
///
/// Takes memory in the number of the array's cells, and time in that number too, whatever the
/// components look like, but for the searches for roots: all together these take at most that
/// number times its logarithm.
pub fn run(alloc: Global, at: &OpAt, inputs: &[Arc<Array>]) -> Result<Array, NoMemory>
    requires regions { is_regions at.now.op ≡ true }
    requires inputs { extents_of (map (λ a. arc_value a) inputs.now) ≡ at.now.ins }
    ensures { IfOk result (λ a. a ≡ output_of at.now.op (map (λ a. arc_value a) inputs.now)) }
{
    let t = threshold(at);
    at.ins(); // there is one input
    let cells = labels_over(alloc, &inputs[0], t)?;
    Ok(output_with(at, inputs, cells))
}

/// The label of each cell of an array.
fn labels_over(alloc: Global, array: &Array, t: i64) -> Result<Vec<Value>, NoMemory>
    ensures { IfOk result (λ v. v.items
        ≡ map (λ k. labelled_at t array.now (cell_of array.now.extent k))
        (range_with_len 0 (size_of array.now.extent))) }
{
    let mut words = links_of(alloc, array, t)?;
    labels_of(alloc, &mut words)
}

/// The label of each cell by its word: one pass over the words. What a cell is linked to has the
/// label of its root by then.
fn labels_of(alloc: Global, words: &mut [u32]) -> Result<Vec<Value>, NoMemory>
    requires { AreLinks words.old }
    ensures { (root : ℕ → ℕ) → AreRoots words.old root → IfOk result (λ v. v.items
        ≡ map (λ k. Some (pos (label_by words.old root k))) (range_with_len 0 (length words.old))) }
{
    let mut cells = Vec::new(alloc);
    cells.reserve(words.len())?;
    for index in 0..words.len() {
        let label = settle(words, index);
        cells.push(value_of(label))?;
    }
    Ok(cells)
}

/// A label as a value.
pub(crate) fn value_of(label: u32) -> Value
    ensures { result ≡ Some (pos label) }
{
    Some(i64::from(label))
}
