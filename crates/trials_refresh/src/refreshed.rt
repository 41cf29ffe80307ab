//! Flows that are refreshed after a change: each is the flow started anew on the new arrays, and
//! the cells that were computed are those that a hand finds.

ghost use Rattle.std.specs.Prelude.{◌≡◌, map, IfOk};
ghost use Rattle.std.specs.Arc.{arc_value};
ghost use Rattle.sz_flow.specs.Executions.{executions, execution_of};

use crate::asked::{fits, refresh_after};
use std::alloc::Global;
use std::sync::Arc;
use std::test::Fail;
use std::thread::Threads;
use sz_cells::{CellBits, CellSet, NoMemory, Shape};
use sz_flow::{NodeRun, run_all};
use sz_refresh::Refreshed;
use sz_spec::{Array, Flow, Fold, Kernel, Node, Op, SourceList, SourceRef, Tally, Value};

/// An array of so many layers.
pub(crate) fn layers(
    alloc: Global,
    layers: u32,
    height: u32,
    cols: u32,
    cells: &[Value],
) -> Result<Arc<Array>, Fail> {
    let shape = Shape::make_layers(layers, height, cols).ok_or("no sides of a shape")?;
    match Array::make(shape, cells.to_vec(alloc)?) {
        Some(array) => Ok(Arc::new(alloc, array)?),
        None => Err("the shape has other cells".into()),
    }
}

/// The cells that hold these numbers.
fn numbers(alloc: Global, numbers: &[i64]) -> Result<Vec<Value>, NoMemory> {
    let mut cells = Vec::new(alloc);
    for number in numbers {
        cells.push(Some(*number))?;
    }
    Ok(cells)
}

/// An array of one row of numbers.
pub(crate) fn row(alloc: Global, cells: &[i64]) -> Result<Arc<Array>, Fail> {
    let Ok(cols) = u32::try_from(cells.len()) else {
        return Err("the row is too long".into())
    };
    layers(alloc, 1, 1, cols, &numbers(alloc, cells)?)
}

/// The array of one layer whose cells hold numbers from 0 to 22, and one of them another.
fn mixed(alloc: Global, rows: u32, cols: u32, at: u32, other: i64) -> Result<Arc<Array>, Fail> {
    let shape = Shape::make(rows, cols).ok_or("no sides of a shape")?;
    let mut cells = Vec::new(alloc);
    for index in 0..shape.size() {
        let number = i64::from(index % 4_099 * 7 % 23);
        cells.push(Some(if index == at { other } else { number }))?;
    }
    layers(alloc, 1, rows, cols, &cells)
}

/// A node of one source.
pub(crate) fn over(alloc: Global, op: Op, first: SourceRef) -> Result<Node, NoMemory> {
    let from = SourceList::of(vec![in alloc; first]?);
    Ok(Node { op, from })
}

/// A node of two sources.
pub(crate) fn over_two(
    alloc: Global,
    op: Op,
    first: SourceRef,
    second: SourceRef,
) -> Result<Node, NoMemory> {
    let from = SourceList::of(vec![in alloc; first, second]?);
    Ok(Node { op, from })
}

/// The flow of one operator over one base array.
fn alone(alloc: Global, op: Op) -> Result<Flow, NoMemory> {
    let node = over(alloc, op, SourceRef::Input(0))?;
    Ok(Flow::make(1, vec![in alloc; node]?))
}

/// The set of the cells of these indexes.
fn set_of(alloc: Global, shape: Shape, indexes: &[u32]) -> Result<CellSet, Fail>
    ensures { IfOk result (λ s. s.extent ≡ shape) }
{
    let mut cells = CellBits::new(alloc, shape)?;
    for index in indexes {
        if *index < shape.size() {
            cells.set(shape.cell_at(*index));
        }
    }
    Ok(cells.to_set(alloc)?)
}

/// Whether a set is that of the cells of these indexes.
fn is_set(set: &CellSet, indexes: &[u32]) -> bool {
    let shape = set.shape();
    set.count() as usize == indexes.len()
        && indexes.iter().all(|index| *index < shape.size() && set.has(shape.cell_at(*index)))
}

/// Whether runs have the same inputs and outputs.
fn are_same(one: &[NodeRun], other: &[NodeRun]) -> bool {
    one.len() == other.len()
        && one.iter().zip(other.iter()).all(|(a, b)| {
            a.out.shape() == b.out.shape()
                && a.out.cells() == b.out.cells()
                && a.inputs.as_slice().len() == b.inputs.as_slice().len()
        })
}

/// The runs of a flow over arrays, where it can be run over them.
pub(crate) fn run_over<R: Threads + Sync>(
    rt: &R,
    alloc: Global,
    flow: &Flow,
    base: &[Arc<Array>],
) -> Result<Vec<NodeRun>, Fail>
    ensures { IfOk result (λ runs. map execution_of runs.items
        ≡ executions flow.now (map (λ a. arc_value a) base.now)) }
{
    if !fits(alloc, flow, base)? {
        return Err("the flow cannot be run".into());
    }
    Ok(run_all(rt, alloc, flow, base)?)
}

/// The set of the cells of these indexes of a base array.
fn changed_of(
    alloc: Global,
    base: &[Arc<Array>],
    input: u32,
    indexes: &[u32],
) -> Result<CellSet, Fail> {
    match base.get(input as usize) {
        Some(array) => set_of(alloc, array.shape(), indexes),
        None => Err("no such base array".into()),
    }
}

/// How many cells some sets have together.
fn cells_of(sets: &[CellSet]) -> u64 {
    let mut count = 0u64;
    for set in sets {
        count = count.wrapping_add(u64::from(set.count()));
    }
    count
}

/// Compares a refreshed flow with its runs where it is started anew, and with the cells counted.
fn compare(made: &Refreshed, anew: &[NodeRun], count: u64) -> Result<(), Fail> {
    if !are_same(&made.runs, anew) {
        return Err("a start gives other values".into());
    }
    if cells_of(&made.affected) != count || made.affected.len() != anew.len() {
        return Err("the affected cells are not those that were counted".into());
    }
    Ok(())
}

/// What a refresh gives: the flow was run over the arrays before,
/// cells of these indexes are changed in an input, and it is refreshed. It has to give what a start
/// over the arrays after the change gives, and to count each affected cell.
fn refreshed<R: Threads + Sync>(
    rt: &R,
    alloc: Global,
    flow: &Flow,
    before: &[Arc<Array>],
    base: &[Arc<Array>],
    input: u32,
    indexes: &[u32],
) -> Result<Refreshed, Fail> {
    let changed = changed_of(alloc, base, input, indexes)?;
    let old = run_over(rt, alloc, flow, before)?;
    let mut tally = Tally::new();
    let made = refresh_after(
        rt, alloc, flow, before, &old, base, input, &changed, &mut tally,
    )?;
    let made = made.ok_or("other cells are changed too")?;
    let anew = run_over(rt, alloc, flow, base)?;
    compare(&made, &anew, tally.count())?;
    Ok(made)
}

/// Whether just the cells of these indexes are affected of a node, and it has these values now.
fn shows(refreshed: &Refreshed, node: usize, affected: &[u32], values: &[Value]) -> bool {
    match (refreshed.affected.get(node), refreshed.runs.get(node)) {
        (Some(set), Some(run)) => is_set(set, affected) && run.out.cells() == values,
        _ => false,
    }
}

/// What a refresh gives of a flow of one base array, which is one row, of which some cells are
/// changed.
fn of_row<R: Threads + Sync>(
    rt: &R,
    alloc: Global,
    flow: &Flow,
    before: &[i64],
    after: &[i64],
    changed: &[u32],
) -> Result<Refreshed, Fail> {
    let before = [row(alloc, before)?];
    let base = [row(alloc, after)?];
    refreshed(rt, alloc, flow, &before, &base, 0, changed)
}

/// Of one operator over one row, of which some cells are changed.
fn is_row<R: Threads + Sync>(
    rt: &R,
    alloc: Global,
    op: Op,
    before: &[i64],
    after: &[i64],
    changed: &[u32],
    affected: &[u32],
    values: &[Value],
) -> Result<bool, Fail> {
    let flow = alone(alloc, op)?;
    let made = of_row(rt, alloc, &flow, before, after, changed)?;
    Ok(shows(&made, 0, affected, values))
}

/// Whether a pixel joins two regions, and parts them again.
fn regions_change<R: Threads + Sync>(rt: &R, alloc: Global) -> Result<bool, Fail> {
    let joined = [Some(1), Some(1), Some(1)];
    let apart = [Some(1), Some(0), Some(3)];
    let high = [9, 8, 9];
    let low = [9, 0, 9];
    let one = Op::Regions { t: 5 };
    let other = Op::Regions { t: 5 };
    Ok(
        is_row(rt, alloc, one, &low, &high, &[1], &[0, 1, 2], &joined)?
            && is_row(rt, alloc, other, &high, &low, &[1], &[0, 1, 2], &apart)?,
    )
}

#[test]
fn a_pixel_that_joins_two_regions_changes_three_cells(rt: HostRuntime) -> Result<(), Fail> {
    assert!(rt; regions_change(&rt, rt.alloc())?);
    Ok(())
}

/// Whether a cleaned row is so, of which one cell is changed.
fn is_clean<R: Threads + Sync>(
    rt: &R,
    alloc: Global,
    before: &[i64],
    after: &[i64],
    affected: &[u32],
    values: &[Value],
) -> Result<bool, Fail> {
    let op = Op::Clean { t: 100 };
    is_row(rt, alloc, op, before, after, &[1], affected, values)
}

/// Whether a hot cell becomes sound, a sound one hot, and the last sound one hot.
fn hot_cells_change<R: Threads + Sync>(rt: &R, alloc: Global) -> Result<bool, Fail> {
    let sound = [1, 2, 3];
    let hot = [1, 300, 3];
    let stays = [Some(1), Some(2), Some(3)];
    let cleaned = [Some(1), Some(1), Some(3)];
    let last = [300, 2, 300, 300];
    let none = [300, 300, 300, 300];
    let empty = [None, None, None, None];
    Ok(
        is_clean(rt, alloc, &hot, &sound, &[1], &stays)?
            && is_clean(rt, alloc, &sound, &hot, &[1], &cleaned)?
            && is_clean(rt, alloc, &last, &none, &[0, 1, 2], &empty)?,
    )
}

#[test]
fn hot_cells_become_sound_and_sound_ones_hot(rt: HostRuntime) -> Result<(), Fail> {
    assert!(rt; hot_cells_change(&rt, rt.alloc())?);
    Ok(())
}

/// A lookup in the second of two base arrays.
fn lookup(alloc: Global) -> Result<Flow, NoMemory> {
    let node = over_two(alloc, Op::Lookup, SourceRef::Input(0), SourceRef::Input(1))?;
    Ok(Flow::make(2, vec![in alloc; node]?))
}

/// Two arrays of one row each.
fn two_rows(alloc: Global, first: &[i64], second: &[i64]) -> Result<[Arc<Array>; 2], Fail> {
    let first = row(alloc, first)?;
    let second = row(alloc, second)?;
    Ok([first, second])
}

/// The keys and the table of a lookup.
const LOOKED_UP: [[i64; 3]; 2] = [[0, 2, 0], [7, 8, 9]];

/// What a refresh gives of a lookup, of which some keys or cells of the table are changed.
fn of_lookup<R: Threads + Sync>(
    rt: &R,
    alloc: Global,
    keys: &[i64],
    table: &[i64],
    input: u32,
    changed: &[u32],
) -> Result<Refreshed, Fail> {
    let flow = lookup(alloc)?;
    let before = two_rows(alloc, &LOOKED_UP[0], &LOOKED_UP[1])?;
    let base = two_rows(alloc, keys, table)?;
    refreshed(rt, alloc, &flow, &before, &base, input, changed)
}

/// Whether a key changes, and a cell of the table.
fn lookups_change<R: Threads + Sync>(rt: &R, alloc: Global) -> Result<bool, Fail> {
    let keys = of_lookup(rt, alloc, &[0, 0, 0], &LOOKED_UP[1], 0, &[1])?;
    let table = of_lookup(rt, alloc, &LOOKED_UP[0], &[5, 8, 9], 1, &[0])?;
    Ok(
        shows(&keys, 0, &[1], &[Some(7), Some(7), Some(7)])
            && shows(&table, 0, &[0, 2], &[Some(5), Some(9), Some(5)]),
    )
}

#[test]
fn keys_and_tables_of_lookups_change(rt: HostRuntime) -> Result<(), Fail> {
    assert!(rt; lookups_change(&rt, rt.alloc())?);
    Ok(())
}

/// Whether a cell of a block changes.
fn blocks_change<R: Threads + Sync>(rt: &R, alloc: Global) -> Result<bool, Fail> {
    let op = Op::Block {
        fold: Fold::Sum,
        h: 1,
        w: 2,
    };
    let sums = [Some(3), Some(4)];
    is_row(rt, alloc, op, &[1, 2, 3], &[1, 2, 4], &[2], &[1], &sums)
}

/// What a refresh gives of the greatest cells of two layers of two cells, of which some are
/// changed.
fn of_layers<R: Threads + Sync>(
    rt: &R,
    alloc: Global,
    before: &[Value],
    after: &[Value],
    changed: &[u32],
) -> Result<Refreshed, Fail> {
    let flow = alone(alloc, Op::FoldLayers { fold: Fold::Max })?;
    let before = [layers(alloc, 2, 1, 2, before)?];
    let base = [layers(alloc, 2, 1, 2, after)?];
    refreshed(rt, alloc, &flow, &before, &base, 0, changed)
}

/// Whether a cell of a layer changes.
fn layers_change<R: Threads + Sync>(rt: &R, alloc: Global) -> Result<bool, Fail> {
    let before = [Some(1), Some(2), Some(3), None];
    let after = [Some(1), Some(2), Some(3), Some(6)];
    let made = of_layers(rt, alloc, &before, &after, &[3])?;
    Ok(shows(&made, 0, &[1], &[Some(3), Some(6)]))
}

#[test]
fn cells_of_blocks_and_layers_change(rt: HostRuntime) -> Result<(), Fail> {
    assert!(rt; blocks_change(&rt, rt.alloc())?);
    assert!(rt; layers_change(&rt, rt.alloc())?);
    Ok(())
}

/// Nodes of which node 0 negates the first of two base arrays, node 1 adds the first to that, and
/// node 2 adds the second to itself.
fn three_nodes(alloc: Global) -> Result<Vec<Node>, NoMemory> {
    let negated = over(alloc, Op::Neg, SourceRef::Input(0))?;
    let sum = over_two(alloc, Op::Add, SourceRef::Node(0), SourceRef::Input(0))?;
    let twice = over_two(alloc, Op::Add, SourceRef::Input(1), SourceRef::Input(1))?;
    Ok(vec![in alloc; negated, sum, twice]?)
}

/// The flow of these nodes.
fn diamond(alloc: Global) -> Result<Flow, NoMemory> {
    Ok(Flow::make(2, three_nodes(alloc)?))
}

/// Two arrays together.
fn both(one: &Arc<Array>, other: &Arc<Array>) -> Result<[Arc<Array>; 2], Fail> {
    let one = Arc::try_clone(one)?;
    let other = Arc::try_clone(other)?;
    Ok([one, other])
}

/// What a refresh gives of the diamond over one array twice, which is another now under one number.
fn of_diamond<R: Threads + Sync>(
    rt: &R,
    alloc: Global,
    one: &Arc<Array>,
    base: &[Arc<Array>],
    input: u32,
    changed: &[u32],
) -> Result<Refreshed, Fail> {
    let flow = diamond(alloc)?;
    let before = both(one, one)?;
    refreshed(rt, alloc, &flow, &before, base, input, changed)
}

/// Whether of each node of the diamond just the cells of these indexes are affected, and node 0 and
/// node 2 have these values now, and node 1 has the value 0 at each cell.
fn are_shown(
    made: &Refreshed,
    affected: (&[u32], &[u32], &[u32]),
    negated: &[Value],
    twice: &[Value],
) -> bool {
    shows(made, 0, affected.0, negated)
        && shows(made, 1, affected.1, &[Some(0), Some(0), Some(0)])
        && shows(made, 2, affected.2, twice)
}

/// Whether a change of one array under the first number is one of the first input alone.
fn first_changes<R: Threads + Sync>(rt: &R, alloc: Global) -> Result<bool, Fail> {
    let one = row(alloc, &[1, 2, 3])?;
    let base = both(&row(alloc, &[1, 5, 3])?, &one)?;
    let made = of_diamond(rt, alloc, &one, &base, 0, &[1])?;
    let negated = [Some(-1), Some(-5), Some(-3)];
    let twice = [Some(2), Some(4), Some(6)];
    Ok(are_shown(&made, (&[1], &[1], &[]), &negated, &twice))
}

/// Whether one under the second number is one of the second input alone.
fn second_changes<R: Threads + Sync>(rt: &R, alloc: Global) -> Result<bool, Fail> {
    let one = row(alloc, &[1, 2, 3])?;
    let base = both(&one, &row(alloc, &[1, 5, 3])?)?;
    let made = of_diamond(rt, alloc, &one, &base, 1, &[1])?;
    let negated = [Some(-1), Some(-2), Some(-3)];
    let twice = [Some(2), Some(10), Some(6)];
    Ok(are_shown(&made, (&[], &[], &[1]), &negated, &twice))
}

/// Whether nothing is affected where no cell is changed.
fn none_changes<R: Threads + Sync>(rt: &R, alloc: Global) -> Result<bool, Fail> {
    let one = row(alloc, &[1, 2, 3])?;
    let base = both(&one, &one)?;
    let made = refreshed(rt, alloc, &diamond(alloc)?, &base, &base, 0, &[])?;
    let negated = [Some(-1), Some(-2), Some(-3)];
    let twice = [Some(2), Some(4), Some(6)];
    Ok(are_shown(&made, (&[], &[], &[]), &negated, &twice))
}

#[test]
fn only_the_input_that_is_named_changes(rt: HostRuntime) -> Result<(), Fail> {
    assert!(rt; first_changes(&rt, rt.alloc())?);
    assert!(rt; second_changes(&rt, rt.alloc())?);
    assert!(rt; none_changes(&rt, rt.alloc())?);
    Ok(())
}

/// Cut to numbers from 0 to 3, and then negated.
fn cut_and_negated(alloc: Global) -> Result<Flow, NoMemory> {
    let cut = over(alloc, Op::Clip { lo: 0, hi: 3 }, SourceRef::Input(0))?;
    let negated = over(alloc, Op::Neg, SourceRef::Node(0))?;
    Ok(Flow::make(1, vec![in alloc; cut, negated]?))
}

/// Whether a cell that is cut to the same number is affected, and so is the one behind it.
fn kept_is_affected<R: Threads + Sync>(rt: &R, alloc: Global) -> Result<bool, Fail> {
    let flow = cut_and_negated(alloc)?;
    let made = of_row(rt, alloc, &flow, &[1, 4, 2], &[1, 5, 2], &[1])?;
    Ok(
        shows(&made, 0, &[1], &[Some(1), Some(3), Some(2)])
            && shows(&made, 1, &[1], &[Some(-1), Some(-3), Some(-2)]),
    )
}

#[test]
fn a_cell_that_keeps_its_value_is_affected_with_those_behind_it(
    rt: HostRuntime,
) -> Result<(), Fail> {
    assert!(rt; kept_is_affected(&rt, rt.alloc())?);
    Ok(())
}

/// A kernel of a plus.
fn plus(alloc: Global) -> Result<Kernel, NoMemory> {
    let weights = [0i64, 1, 0, 1, 1, 1, 0, 1, 0].to_vec(alloc)?;
    Ok(Kernel::make(3, 3, weights))
}

/// Cleaned, and then smoothed by a plus.
fn smoothed(alloc: Global) -> Result<Flow, NoMemory> {
    let cleaned = over(alloc, Op::Clean { t: 18 }, SourceRef::Input(0))?;
    let kernel = plus(alloc)?;
    let smoothed = over(alloc, Op::Convolve { kernel }, SourceRef::Node(0))?;
    Ok(Flow::make(1, vec![in alloc; cleaned, smoothed]?))
}

/// What a refresh gives of a flow of one base array of 160 rows of 128 cells, of which one holds 1
/// before and 40 behind, where the cells of these indexes may be changed.
fn of_many<R: Threads + Sync>(
    rt: &R,
    alloc: Global,
    flow: &Flow,
    indexes: &[u32],
) -> Result<Refreshed, Fail> {
    let before = [mixed(alloc, 160, 128, 700, 1)?];
    let base = [mixed(alloc, 160, 128, 700, 40)?];
    refreshed(rt, alloc, flow, &before, &base, 0, indexes)
}

/// The numbers below another.
fn numbers_below(alloc: Global, end: u32) -> Result<Vec<u32>, NoMemory> {
    let mut all = Vec::new(alloc);
    for index in 0..end {
        all.push(index)?;
    }
    Ok(all)
}

/// Whether two sets have so many cells each.
fn have_each(sets: &[CellSet], count: u32) -> bool {
    match sets {
        [one, other] => one.count() == count && other.count() == count,
        _ => false,
    }
}

/// Whether many cells are all computed again.
fn many_are_computed<R: Threads + Sync>(rt: &R, alloc: Global) -> Result<bool, Fail> {
    let flow = smoothed(alloc)?;
    let all = numbers_below(alloc, 20_480)?;
    let made = of_many(rt, alloc, &flow, &all)?;
    Ok(have_each(&made.affected, 20_480))
}

#[test]
fn many_cells_are_computed_side_by_side(rt: HostRuntime) -> Result<(), Fail> {
    assert!(rt; many_are_computed(&rt, rt.alloc())?);
    Ok(())
}
