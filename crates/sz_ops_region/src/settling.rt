//! The labels of all cells, as words: 1 plus the least index of the cell's component, 0 where the
//! cell is not high.

ghost use Rattle.std.specs.Prelude.{◌≡◌, ◌<◌};
ghost use Rattle.sz_ops_region.specs.Terms.{ℕ, length, slice_index, IfOk, AreLinks, AreRoots};
ghost use Rattle.sz_ops_region.specs.Terms.{label_by, AreLabels};

use crate::linking::links_of;
use crate::links::settle;
use std::alloc::Global;
use sz_cells::NoMemory;
use sz_spec::Array;

/// The label of each cell of an array.
pub(crate) fn labels_in(alloc: Global, array: &Array, t: i64) -> Result<Vec<u32>, NoMemory>
    ensures { IfOk result (λ v. AreLabels t array.now v.items) }
{
    let mut words = links_of(alloc, array, t)?;
    settle_all(&mut words);
    Ok(words)
}

/// Makes the word of each cell its label, one after the other.
fn settle_all(words: &mut [u32])
    requires { AreLinks words.old }
    ensures { (root : ℕ → ℕ) → AreRoots words.old root → (k : ℕ) → k < length words.old
        → slice_index words.new k ≡ label_by words.old root k }
{
    for index in 0..words.len() {
        settle(words, index);
    }
}
