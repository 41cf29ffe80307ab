//! The answer along a path.

ghost use Rattle.std.specs.Prelude.{◌≡◌, ◌+◌, ◌<◌, ◌^◌};
ghost use Rattle.sz_query.specs.Terms.{map, IfOk, OnOk, OnErr, AllZip, view_of, used_of, IsAsked};
ghost use Rattle.sz_query.specs.Terms.{MayBeAsked, answered, traced_of, most_traced_of, AreSteps};
ghost use Rattle.sz_query.specs.Terms.{IsPath};

use crate::spare::Spare;
use crate::steps::{bits_of, sides_of, take_steps};
use crate::used::UsedList;
use crate::views::NodeView;
use std::alloc::Global;
use std::sync::Wait;
use sz_cells::{CellSet, NoMemory};
use sz_spec::{Dir, Tally};

/// What was found along a path.
#[derive(Drop)]
pub struct Found {
    /// The cells at the path's end.
    pub cells: CellSet,
    /// How each step was taken, in the path's order.
    pub used: UsedList,
    /// The output sizes of the steps that are told as traced, summed.
    pub traced: u64,
}

/// The cells that a set of cells leads to along a path, by bitmaps that are made for this answer
/// alone: as [`answer_with`] where none is kept. So it takes memory and time in the sizes of the
/// shapes that the path leads through, however few cells it touches.
pub fn answer<R: Wait>(
    alloc: Global,
    rt: &R,
    views: &mut [NodeView],
    inputs: &[u32],
    dir: Dir,
    cells: &CellSet,
    tally: &mut Tally,
) -> Result<Found, NoMemory>
    requires path { IsPath (map view_of views.old) }
    requires steps { AreSteps dir (map view_of views.old) inputs.now cells.now.extent }
    requires room { tally.old + most_traced_of (map view_of views.old) < 2 ^ 63 }
    ensures cells { IfOk result
        (λ f. f.cells ≡ answered dir (map view_of views.old) inputs.now cells.now) }
    ensures used { IfOk result (λ f. f.used ≡ map used_of (map view_of views.new)) }
    ensures traced { IfOk result (λ f. f.traced ≡ traced_of (map view_of views.new)) }
    ensures ticks { OnOk result
        (tally.new ≡ tally.old + traced_of (map view_of views.new)) }
    ensures no_memory { OnErr result (tally.new ≡ tally.old) }
    ensures asked { OnOk result (AllZip IsAsked (map view_of views.old) (map view_of views.new)) }
    ensures tried { OnErr result
        (AllZip MayBeAsked (map view_of views.old) (map view_of views.new)) }
{
    let mut spare = Spare::new(alloc);
    answer_with(alloc, rt, &mut spare, views, inputs, dir, cells, tally)
}

/// The cells that a set of cells leads to along a path: through each view, with the number of one
/// of its inputs, in the order of the lists.
///
/// Uses a bitmap for the cells and one for each step, of those that are kept where these have one
/// of its shape. Such a one costs by what is touched of it, and memory and time in the shape's size
/// go into one that has to be made. All are kept for further answers; where memory is refused,
/// those of this answer are let go.
///
/// Takes its bitmaps and room to tell of each step at the start, and memory for the result at the
/// end; in between it takes none with `Mapped`, `Stored` and `Kept` views alone, and else what
/// tracing takes. A step by a mapping costs by the cells that it touches, one by a store by what
/// the store finds of them, one that is traced by the cells of its output. A `Stored` and a
/// `Building` view take one turn each at their shelf, and wait for it. The tally rises by the
/// output sizes of the steps that are told as traced, which says nothing of how a step was worked
/// out. At `NoMemory` the tally is as before, and the views up to some one have taken their turns.
pub fn answer_with<R: Wait>(
    alloc: Global,
    rt: &R,
    spare: &mut Spare,
    views: &mut [NodeView],
    inputs: &[u32],
    dir: Dir,
    cells: &CellSet,
    tally: &mut Tally,
) -> Result<Found, NoMemory>
    requires path { IsPath (map view_of views.old) }
    requires steps { AreSteps dir (map view_of views.old) inputs.now cells.now.extent }
    requires room { tally.old + most_traced_of (map view_of views.old) < 2 ^ 63 }
    ensures cells { IfOk result
        (λ f. f.cells ≡ answered dir (map view_of views.old) inputs.now cells.now) }
    ensures used { IfOk result (λ f. f.used ≡ map used_of (map view_of views.new)) }
    ensures traced { IfOk result (λ f. f.traced ≡ traced_of (map view_of views.new)) }
    ensures ticks { OnOk result
        (tally.new ≡ tally.old + traced_of (map view_of views.new)) }
    ensures no_memory { OnErr result (tally.new ≡ tally.old) }
    ensures asked { OnOk result (AllZip IsAsked (map view_of views.old) (map view_of views.new)) }
    ensures tried { OnErr result
        (AllZip MayBeAsked (map view_of views.old) (map view_of views.new)) }
{
    let mut sides = sides_of(alloc, spare, views, inputs, dir, cells)?;
    let mut set = bits_of(alloc, spare, cells)?;
    let mut count = Tally::new();
    let used = take_steps(
        alloc, rt, views, inputs, dir, &mut set, &mut sides, &mut count,
    )?;
    let found = Found {
        cells: set.to_set(alloc)?,
        used,
        traced: count.count(),
    };
    spare.give_all(sides);
    spare.give(set);
    tally.add(count);
    Ok(found)
}
