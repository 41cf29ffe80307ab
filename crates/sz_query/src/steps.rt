//! The steps of a path, one after the other.

ghost use Rattle.std.specs.Prelude.{◌≡◌, ◌+◌, ◌<◌, ◌^◌};
ghost use Rattle.sz_query.specs.Terms.{map, IfOk, OnOk, OnErr, AllZip, view_of, used_of, IsAsked};
ghost use Rattle.sz_query.specs.Terms.{MayBeAsked, answered, traced_of, most_traced_of, AreSteps};
ghost use Rattle.sz_query.specs.Terms.{empty_sides};

use crate::spare::Spare;
use crate::used::UsedList;
use crate::views::NodeView;
use std::alloc::Global;
use std::sync::Wait;
use sz_cells::{CellBits, CellSet, NoMemory};
use sz_spec::{Dir, Tally};

/// An empty bitmap for each step, of the shape to which it leads. Where one is refused, those
/// before it are let go.
pub(crate) fn sides_of(
    alloc: Global,
    spare: &mut Spare,
    views: &[NodeView],
    inputs: &[u32],
    dir: Dir,
    cells: &CellSet,
) -> Result<Vec<CellBits>, NoMemory>
    requires { AreSteps dir (map view_of views.now) inputs.now cells.now.extent }
    ensures { IfOk result (λ s. s.items ≡ empty_sides dir (map view_of views.now) inputs.now) }
{
    let mut sides = Vec::with_capacity(alloc, views.len())?;
    for index in 0..views.len() {
        let shape = views[index].far_shape(dir, inputs[index]);
        sides.push(spare.take(alloc, shape)?)?;
    }
    Ok(sides)
}

/// A bitmap with the cells of a set.
pub(crate) fn bits_of(
    alloc: Global,
    spare: &mut Spare,
    cells: &CellSet,
) -> Result<CellBits, NoMemory>
    ensures { IfOk result (λ b. b ≡ cells.now) }
{
    let mut bits = spare.take(alloc, cells.shape())?;
    bits.add_set(cells);
    Ok(bits)
}

/// Takes a set through all steps, and tells how each went. `set` is the answer at last; each of
/// `sides` is used once. After `NoMemory`, none of them is of use, nor is the tally.
pub(crate) fn take_steps<R: Wait>(
    alloc: Global,
    rt: &R,
    views: &mut [NodeView],
    inputs: &[u32],
    dir: Dir,
    set: &mut CellBits,
    sides: &mut [CellBits],
    tally: &mut Tally,
) -> Result<UsedList, NoMemory>
    requires steps { AreSteps dir (map view_of views.old) inputs.now set.old.extent }
    requires sides { sides.old ≡ empty_sides dir (map view_of views.old) inputs.now }
    requires room { tally.old + most_traced_of (map view_of views.old) < 2 ^ 63 }
    ensures set { OnOk result
        (set.new ≡ answered dir (map view_of views.old) inputs.now set.old) }
    ensures used { IfOk result (λ u. u ≡ map used_of (map view_of views.new)) }
    ensures ticks { OnOk result
        (tally.new ≡ tally.old + traced_of (map view_of views.new)) }
    ensures asked { OnOk result (AllZip IsAsked (map view_of views.old) (map view_of views.new)) }
    ensures tried { OnErr result
        (AllZip MayBeAsked (map view_of views.old) (map view_of views.new)) }
{
    let mut used = Vec::with_capacity(alloc, views.len())?;
    for index in 0..views.len() {
        let side = &mut sides[index];
        let view = &mut views[index];
        let how = view.step_into(alloc, rt, dir, inputs[index], set, side, tally)?;
        used.push(how)?;
        std::mem::swap(set, side);
    }
    Ok(UsedList::of(used))
}
