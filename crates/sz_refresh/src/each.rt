//! Adding to a set what each cell of another set adds.

ghost use Rattle.std.specs.Prelude.{◌≡◌};
ghost use Rattle.sz_refresh.specs.Terms.{Bool, true, Cell, Extent, holds, any_cell, with_those};

use sz_cells::{Cell, CellBits};

/// What each cell of a shape adds to a set of another shape.
pub(crate) trait Adder {
    ghost of: { Self → Extent };

    ghost into: { Self → Extent };

    ghost adds: { Self → Cell → Cell → Bool };

    /// Adds what a cell adds. Takes no memory.
    fn add(&self, cell: Cell, to: &mut CellBits)
        requires cell { holds (of self.now) cell ≡ true }
        requires to { to.old.extent ≡ into self.now }
        ensures { to.new ≡ with_those to.old (λ o. adds self.now o cell) };
}

/// Adds what the cells of a set add. Takes no memory.
pub(crate) fn add_each<A: Adder>(adder: &A, from: &CellBits, to: &mut CellBits)
    requires from { from.now.extent ≡ A.of adder.now }
    requires to { to.old.extent ≡ A.into adder.now }
    ensures { to.new ≡ with_those to.old (λ o. any_cell (A.adds adder.now o) from.now) }
{
    to.shape(); // the set as it was is that of its cells
    let shape = from.shape();
    let end = shape.size();
    let mut start = 0;
    while start < end {
        match from.next_after(start) {
            Some(index) => {
                adder.add(shape.cell_at(index), to);
                start = index + 1;
            }
            None => start = end,
        }
    }
}
