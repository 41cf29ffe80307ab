//! Small flows: where a cell leads along a path, by mappings and by traces, how each step was
//! taken, and how much was traced.

ghost use Rattle.std.specs.Prelude.{◌≡◌, ◌∷◌, ◌<◌, ◌^◌, [], true, length, map, Ok, IfOk};
ghost use Rattle.std.specs.Arc.{arc_value};
ghost use Rattle.sz_cells.specs.Extent.{flat, layered};
ghost use Rattle.sz_spec.specs.Shapes.{arity, has_right_parameters, site_of};
ghost use Rattle.sz_spec.specs.Sides.{near_side};
ghost use Rattle.sz_spec.specs.Values.{extents_of};
ghost use Rattle.sz_query.specs.Views.{view_of, by_map, view_site, IsUsable};
ghost use Rattle.sz_query.specs.Answers.{most_traced_of, AreSteps, IsPath};

use std::alloc::Global;
use std::sync::{Arc, Wait};
use std::test::Fail;
use sz_cells::{Cell, CellSet, Run, Shape};
use sz_query::{NodeRunRef, NodeView, Spare, Used, answer, answer_with};
use sz_spec::{Array, ArrayList, Dir, Op, OpAt, Strategy, Tally, Value};

/// The shape of one layer.
fn shape(rows: u32, cols: u32) -> Result<Shape, Fail>
    ensures { IfOk result (λ s. s ≡ flat rows cols) }
{
    Ok(Shape::make(rows, cols).ok_or("it is no shape")?)
}

/// An array of one layer.
fn array(alloc: Global, shape: Shape, cells: &[Value]) -> Result<Arc<Array>, Fail>
    ensures { IfOk result (λ a. (arc_value a).extent ≡ shape) }
{
    match Array::make(shape, cells.to_vec(alloc)?) {
        Some(array) => Ok(Arc::new(alloc, array)?),
        None => Err("the shape has other cells".into()),
    }
}

/// An operator between inputs of these shapes, which it takes.
fn operator(alloc: Global, op: Op, ins: Vec<Shape>) -> Result<Arc<OpAt>, Fail>
    requires arity { length ins.items ≡ arity op }
    requires parameters { has_right_parameters op ≡ true }
    ensures { IfOk result (λ a. site_of op ins.items ≡ Ok (arc_value a)) }
{
    match OpAt::of(op, ins) {
        Ok(at) => Ok(Arc::new(alloc, at)?),
        Err(_) => Err("the operator takes these shapes".into()),
    }
}

/// The negation of one cell.
fn negation(alloc: Global) -> Result<Arc<OpAt>, Fail>
    ensures { IfOk result (λ a. arc_value a
        ≡ record { op = Op.Neg; ins = flat 1 1 ∷ []; out = flat 1 1 }) }
{
    Ok(operator(alloc, Op::Neg, vec![in alloc; shape(1, 1)?]?)?)
}

/// The transpose of two rows of three.
fn transpose(alloc: Global) -> Result<Arc<OpAt>, Fail>
    ensures { IfOk result (λ a. arc_value a
        ≡ record { op = Op.Transpose; ins = flat 2 3 ∷ []; out = flat 3 2 }) }
{
    Ok(operator(alloc, Op::Transpose, vec![in alloc; shape(2, 3)?]?)?)
}

/// The set of one cell.
fn single(alloc: Global, rows: u32, cols: u32, cell: Cell) -> Result<CellSet, Fail>
    ensures { IfOk result (λ s. s.extent ≡ flat rows cols) }
{
    let shape = shape(rows, cols)?;
    if !shape.holds(cell) {
        return Err("the cell is out of the shape".into());
    }
    Ok(CellSet::from_cells(alloc, shape, &[cell])?)
}

/// The run from one index to another.
fn run(first: u32, last: u32) -> Run {
    Run { first, last }
}

/// How an answer is told: the run that its cells are, how each step was taken, and how many cells
/// were traced.
type Told<'a> = (Run, &'a [Used], u64);

/// Whether cells lead along a path so, and so many cells are counted as traced.
fn leads<R: Wait>(
    alloc: Global,
    rt: &R,
    views: &mut [NodeView],
    inputs: &[u32],
    dir: Dir,
    cells: &CellSet,
    told: Told<'_>,
) -> Result<bool, Fail>
    requires path { IsPath (map view_of views.old) }
    requires steps { AreSteps dir (map view_of views.old) inputs.now cells.now.extent }
    requires room { most_traced_of (map view_of views.old) < 2 ^ 63 }
{
    let (to, used, traced) = told;
    let mut tally = Tally::new();
    let found = answer(alloc, rt, views, inputs, dir, cells, &mut tally)?;
    Ok(
        found.cells.runs() == [to].as_slice()
            && found.used.as_slice() == used
            && found.traced == traced
            && tally.count() == traced,
    )
}

/// The negation of one cell, at work.
fn negation_of(alloc: Global, cell: Arc<Array>) -> Result<NodeRunRef, Fail>
    requires { (arc_value cell).extent ≡ flat 1 1 }
    ensures at { IfOk result (λ r. arc_value r.at
        ≡ record { op = Op.Neg; ins = flat 1 1 ∷ []; out = flat 1 1 }) }
    ensures inputs { IfOk result (λ r. extents_of r.inputs ≡ flat 1 1 ∷ []) }
{
    let at = negation(alloc)?;
    let inputs = ArrayList::of(vec![in alloc; cell]?);
    Ok(NodeRunRef { at, inputs })
}

/// The sum of one cell and one cell, at work.
fn sum_of(alloc: Global, first: Arc<Array>, second: Arc<Array>) -> Result<NodeRunRef, Fail>
    requires first { (arc_value first).extent ≡ flat 1 1 }
    requires second { (arc_value second).extent ≡ flat 1 1 }
    ensures at { IfOk result (λ r. arc_value r.at
        ≡ record { op = Op.Add; ins = flat 1 1 ∷ flat 1 1 ∷ []; out = flat 1 1 }) }
    ensures inputs { IfOk result (λ r. extents_of r.inputs ≡ flat 1 1 ∷ flat 1 1 ∷ []) }
{
    let at = operator(alloc, Op::Add, vec![in alloc; shape(1, 1)?, shape(1, 1)?]?)?;
    let inputs = ArrayList::of(vec![in alloc; first, second]?);
    Ok(NodeRunRef { at, inputs })
}

/// The negation of 5, and the sum of what it makes and of 5.
fn two_runs(alloc: Global) -> Result<(NodeRunRef, NodeRunRef), Fail>
    ensures first { IfOk result (λ r. arc_value r.0.at
        ≡ record { op = Op.Neg; ins = flat 1 1 ∷ []; out = flat 1 1 }) }
    ensures taken { IfOk result (λ r. extents_of r.0.inputs ≡ flat 1 1 ∷ []) }
    ensures second { IfOk result (λ r. arc_value r.1.at
        ≡ record { op = Op.Add; ins = flat 1 1 ∷ flat 1 1 ∷ []; out = flat 1 1 }) }
    ensures added { IfOk result (λ r. extents_of r.1.inputs ≡ flat 1 1 ∷ flat 1 1 ∷ []) }
{
    let base = array(alloc, shape(1, 1)?, &[Some(5)])?;
    let first = negation_of(alloc, Arc::try_clone(&base)?)?;
    let negated = array(alloc, shape(1, 1)?, &[Some(-5)])?;
    let second = sum_of(alloc, negated, base)?;
    Ok((first, second))
}

#[test]
fn a_path_goes_forward_by_traces(rt: HostRuntime) -> Result<(), Fail> {
    let alloc = rt.alloc();
    let cells = single(alloc, 1, 1, Cell { row: 0, col: 0 })?;
    let (first, second) = two_runs(alloc)?;
    let mut views = [
        NodeView::Traced { run: first },
        NodeView::Traced { run: second },
    ];
    let told = (run(0, 0), [Used::Traced, Used::Traced].as_slice(), 2);
    assert!(rt; leads(alloc, &rt, &mut views, &[0, 0], Dir::Forward, &cells, told)?);
    Ok(())
}

#[test]
fn a_transposed_cell_comes_from_its_place(rt: HostRuntime) -> Result<(), Fail> {
    let alloc = rt.alloc();
    let cells = single(alloc, 3, 2, Cell { row: 2, col: 0 })?;
    let at = transpose(alloc)?;
    let mut views = [NodeView::Mapped { at }];
    let told = (run(2, 2), [Used::By(Strategy::Map)].as_slice(), 0);
    assert!(rt; leads(alloc, &rt, &mut views, &[0], Dir::Back, &cells, told)?);
    Ok(())
}

/// The look up of three columns in a table, at work.
fn lookup_of(alloc: Global) -> Result<NodeRunRef, Fail>
    ensures at { IfOk result (λ r. arc_value r.at
        ≡ record { op = Op.Lookup; ins = flat 1 3 ∷ flat 1 2 ∷ []; out = flat 1 3 }) }
    ensures inputs { IfOk result (λ r. extents_of r.inputs ≡ flat 1 3 ∷ flat 1 2 ∷ []) }
{
    let columns = array(alloc, shape(1, 3)?, &[Some(0), Some(0), Some(1)])?;
    let table = array(alloc, shape(1, 2)?, &[Some(10), Some(20)])?;
    let inputs = ArrayList::of(vec![in alloc; columns, table]?);
    let shapes = vec![in alloc; shape(1, 3)?, shape(1, 2)?]?;
    let at = operator(alloc, Op::Lookup, shapes)?;
    Ok(NodeRunRef { at, inputs })
}

#[test]
fn a_cell_of_a_table_leads_to_those_that_it_matches(rt: HostRuntime) -> Result<(), Fail> {
    let alloc = rt.alloc();
    let cells = single(alloc, 1, 2, Cell { row: 0, col: 0 })?;
    let looked_up = lookup_of(alloc)?;
    let mut views = [NodeView::Traced { run: looked_up }];
    let told = (run(0, 1), [Used::Traced].as_slice(), 3);
    assert!(rt; leads(alloc, &rt, &mut views, &[1], Dir::Forward, &cells, told)?);
    Ok(())
}

/// Whether cells lead to just the cell of an index, by the mapping of an operator over one array.
fn maps_to<R: Wait>(
    alloc: Global,
    rt: &R,
    spare: &mut Spare,
    at: Arc<OpAt>,
    dir: Dir,
    cells: &CellSet,
    index: u32,
) -> Result<bool, Fail>
    requires ready { IsUsable (by_map (arc_value at)) }
    requires input { 0 < length (arc_value at).ins }
    requires near { cells.now.extent ≡ near_side dir (arc_value at) 0 }
{
    let mut tally = Tally::new();
    let mut views = [NodeView::Mapped { at }];
    let found = answer_with(alloc, rt, spare, &mut views, &[0], dir, cells, &mut tally)?;
    Ok(found.cells.runs() == [run(index, index)].as_slice())
}

/// Whether a cell of three rows of two leads back to its place by the transpose.
fn comes_back<R: Wait>(alloc: Global, rt: &R, spare: &mut Spare) -> Result<bool, Fail> {
    let last = single(alloc, 3, 2, Cell { row: 2, col: 0 })?;
    maps_to(alloc, rt, spare, transpose(alloc)?, Dir::Back, &last, 2)
}

/// Whether the one cell of a negation leads back to itself.
fn stays<R: Wait>(alloc: Global, rt: &R, spare: &mut Spare) -> Result<bool, Fail> {
    let only = single(alloc, 1, 1, Cell { row: 0, col: 0 })?;
    maps_to(alloc, rt, spare, negation(alloc)?, Dir::Back, &only, 0)
}

/// Whether a cell of two rows of three leads forward to its place by the transpose.
fn goes_on<R: Wait>(alloc: Global, rt: &R, spare: &mut Spare) -> Result<bool, Fail> {
    let middle = single(alloc, 2, 3, Cell { row: 1, col: 1 })?;
    let at = transpose(alloc)?;
    maps_to(alloc, rt, spare, at, Dir::Forward, &middle, 3)
}

#[test]
fn an_answer_sees_no_cell_of_the_one_before(rt: HostRuntime) -> Result<(), Fail> {
    let alloc = rt.alloc();
    let mut spare = Spare::new(alloc);
    assert!(rt; comes_back(alloc, &rt, &mut spare)?);

    // A shape of which none was kept.
    assert!(rt; stays(alloc, &rt, &mut spare)?);

    // The first two shapes, other cells, and the other way.
    assert!(rt; goes_on(alloc, &rt, &mut spare)?);
    Ok(())
}
