//! The label of each cell of an array, found once: one word a cell, and no set.

ghost use Rattle.std.specs.Prelude.{◌≡◌, ◌<◌};
ghost use Rattle.sz_ops_region.specs.Terms.{pos, length, map, IfOk, Some, slice_index_or, Cells};
ghost use Rattle.sz_ops_region.specs.Terms.{label_of, components_of};

use crate::output::value_of;
use crate::settling::labels_in;
use std::alloc::Global;
use std::marker::Model;
use sz_cells::{NoMemory, Shape};
use sz_spec::{Array, Value};

/// The labels of cells. Contracts see the component of each cell, in row-major order: the cells
/// that have its label; that of a cell that is not high is empty.
#[derive(Drop)]
pub struct Labels {
    shape: Shape,
    words: Vec<u32>,
}

impl Model for Labels {
    ghost use Rattle.std.specs.Prelude.{◌≡◌, List, length};
    ghost use Rattle.sz_cells.specs.Cells.{Cells};
    ghost use Rattle.sz_cells.specs.Extent.{size_of};
    ghost use Rattle.sz_ops_region.specs.Numbers.{AreFirsts};
    ghost use Rattle.sz_ops_region.specs.Labelled.{sets_labelled};

    ghost Value = { List Cells };

    ghost view = { λ l. sets_labelled l.shape l.words.items };

    ghost invariant = { λ l. (length l.words.items ≡ size_of l.shape) × AreFirsts l.words.items };
}

impl Labels {
    /// The labels of the cells of an array, of which those that are at least `t` are high.
    ///
    /// Takes memory in the number of the array's cells, four bytes a cell; and time as the links of
    /// cells do.
    pub(crate) fn of(alloc: Global, array: &Array, t: i64) -> Result<Labels, NoMemory>
        ensures { IfOk result (λ l. l ≡ components_of t array.now) }
    {
        let shape = array.shape();
        let words = labels_in(alloc, array, t)?;
        Ok(Labels { shape, words })
    }

    /// The label of the cell of an index. Takes no memory.
    pub(crate) fn label(&self, index: u32) -> u32
        requires { index < length self.now }
        ensures { (d : Cells) → pos result ≡ label_of (slice_index_or self.now index d).indexes }
    {
        self.words[index as usize]
    }

    /// The labels of all cells, as values. One pass over the words.
    pub(crate) fn values(&self, alloc: Global) -> Result<Vec<Value>, NoMemory>
        ensures { IfOk result (λ v. v.items ≡ map (λ s. Some (label_of s.indexes)) self.now) }
    {
        values_of(alloc, &self.words)
    }
}

/// Labels as values.
fn values_of(alloc: Global, words: &[u32]) -> Result<Vec<Value>, NoMemory>
    ensures { IfOk result (λ v. v.items ≡ map (λ w. Some (pos w)) words.now) }
{
    let mut cells = Vec::new(alloc);
    cells.reserve(words.len())?;
    for word in words {
        cells.push(value_of(*word))?;
    }
    Ok(cells)
}
