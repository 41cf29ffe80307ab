//! How many kinds small cases have: an output of five cells, which is one piece.

ghost use Rattle.std.specs.Prelude.{◌≡◌, ◌∷◌, [], true, IfOk};
ghost use Rattle.std.specs.Arc.{arc_value};
ghost use Rattle.sz_cells.specs.Extent.{flat};
ghost use Rattle.sz_spec.specs.Weights.{is_kernel};

use std::alloc::Global;
use std::sync::Arc;
use std::test::Fail;
use std::thread::Threads;
use sz_cells::Shape;
use sz_merge::merge;
use sz_ops::{piece, prepare_lineage};
use sz_shelf::standing::needed_parts_can_be_placed;
use sz_spec::{Array, Kernel, Op, OpAt, Strategy, Tally};
use sz_store::NodeStore;

/// Backward by single cells, and forward by sets: a number of kinds for each.
const LIST: [Strategy; 2] = [Strategy::FullOneB, Strategy::FullManyF];

/// The shape of input and output.
fn row() -> Result<Shape, Fail>
    ensures { IfOk result (λ s. s ≡ flat 1 5) }
{
    Ok(Shape::make(1, 5).ok_or("a row of 5 is a shape")?)
}

/// The regions of cells from 5 up.
fn labels(alloc: Global) -> Result<Arc<OpAt>, Fail>
    ensures ins { IfOk result (λ at. (arc_value at).ins ≡ flat 1 5 ∷ []) }
    ensures out { IfOk result (λ at. (arc_value at).out ≡ flat 1 5) }
{
    match OpAt::of(Op::Regions { t: 5 }, vec![in alloc; row()?]?) {
        Ok(at) => Ok(Arc::new(alloc, at)?),
        Err(_) => Err("every shape has regions".into()),
    }
}

/// The convolution with a kernel of one row and these three weights.
fn laid_on(alloc: Global, weights: Vec<i64>) -> Result<Arc<OpAt>, Fail>
    requires { is_kernel (record { rows = 1; cols = 3; weights = weights.items }) ≡ true }
    ensures ins { IfOk result (λ at. (arc_value at).ins ≡ flat 1 5 ∷ []) }
    ensures out { IfOk result (λ at. (arc_value at).out ≡ flat 1 5) }
{
    let op = Op::Convolve {
        kernel: Kernel::make(1, 3, weights),
    };
    match OpAt::of(op, vec![in alloc; row()?]?) {
        Ok(at) => Ok(Arc::new(alloc, at)?),
        Err(_) => Err("a kernel can be laid on every shape".into()),
    }
}

/// How many kinds the stores of an operator over a row of these numbers have.
fn kinds<R: Threads + Sync>(
    rt: &R,
    alloc: Global,
    at: &Arc<OpAt>,
    numbers: [i64; 5],
) -> Result<Vec<u32>, Fail>
    requires ins { (arc_value at.now).ins ≡ flat 1 5 ∷ [] }
    requires out { (arc_value at.now).out ≡ flat 1 5 }
{
    let mut values = Vec::new(alloc);
    for number in numbers {
        values.push(Some(number))?;
    }
    match Array::make(row()?, values) {
        Some(array) => kinds_over(rt, alloc, at, Arc::new(alloc, array)?),
        None => Err("the shape has 5 cells".into()),
    }
}

/// How many kinds the stores of an operator over an array have.
fn kinds_over<R: Threads + Sync>(
    rt: &R,
    alloc: Global,
    at: &Arc<OpAt>,
    array: Arc<Array>,
) -> Result<Vec<u32>, Fail>
    requires ins { (arc_value at.now).ins ≡ flat 1 5 ∷ [] }
    requires out { (arc_value at.now).out ≡ flat 1 5 }
    requires array { (arc_value array).extent ≡ flat 1 5 }
{
    let inputs = [array];
    let aid = prepare_lineage(alloc, at, &inputs)?;
    let mut tally = Tally::new();
    let lineage = piece(alloc, at, &inputs, &aid, 0, &LIST, &mut tally)?;
    needed_parts_can_be_placed();
    let mut store = NodeStore::new(alloc, Arc::try_clone(at)?, &LIST)?;
    store.place(&lineage)?;
    if !store.is_whole() {
        return Err("the output is one piece".into());
    }
    let merged = merge(alloc, rt, at, &LIST, &store)?;
    Ok(merged.kinds)
}

/// Whether they have so many.
fn are_kinds<R: Threads + Sync>(
    rt: &R,
    alloc: Global,
    at: &Arc<OpAt>,
    numbers: [i64; 5],
    wanted: &[u32],
) -> Result<bool, Fail>
    requires ins { (arc_value at.now).ins ≡ flat 1 5 ∷ [] }
    requires out { (arc_value at.now).out ≡ flat 1 5 }
{
    let found = kinds(rt, alloc, at, numbers)?;
    Ok(found.as_slice() == wanted)
}

/// Whether each region is a kind, and each low cell.
fn regions_are_kinds<R: Threads + Sync>(rt: &R, alloc: Global) -> Result<bool, Fail> {
    let at = labels(alloc)?;
    Ok(
        are_kinds(rt, alloc, &at, [9, 9, 0, 9, 9], &[3, 3])?
            && are_kinds(rt, alloc, &at, [9, 0, 9, 0, 9], &[5, 5])?
            && are_kinds(rt, alloc, &at, [9, 9, 9, 9, 9], &[1, 1])?,
    )
}

#[test]
fn a_region_is_a_kind_and_so_is_a_low_cell(rt: HostRuntime) -> Result<(), Fail> {
    assert!(rt; regions_are_kinds(&rt, rt.alloc())?);
    Ok(())
}

/// Whether there is no kind where all weights are 0.
fn nothing_is_of_no_kind<R: Threads + Sync>(rt: &R, alloc: Global) -> Result<bool, Fail> {
    let at = laid_on(alloc, vec![in alloc; 0, 0, 0]?)?;
    are_kinds(rt, alloc, &at, [1, 2, 3, 4, 5], &[0, 0])
}

/// Whether there are four where one cell has no neighbor of a weight.
fn neighbors_are_kinds<R: Threads + Sync>(rt: &R, alloc: Global) -> Result<bool, Fail> {
    let at = laid_on(alloc, vec![in alloc; 1, 0, 0]?)?;
    are_kinds(rt, alloc, &at, [1, 2, 3, 4, 5], &[4, 4])
}

#[test]
fn cells_without_lineage_are_of_no_kind(rt: HostRuntime) -> Result<(), Fail> {
    assert!(rt; nothing_is_of_no_kind(&rt, rt.alloc())?);
    assert!(rt; neighbors_are_kinds(&rt, rt.alloc())?);
    Ok(())
}
