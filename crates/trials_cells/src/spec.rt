//! Flows and the shapes of their outputs, ways of both directions, kernels, copies, counts, a
//! mapping and a square: each call once, with memory to spare.

ghost use Rattle.std.specs.Prelude.{◌≡◌, ◌<◌, None, IfOk, length};
ghost use Rattle.sz_cells.specs.Extent.{layered};
ghost use Rattle.sz_spec.specs.Flows.{flow_fault};

use std::alloc::Global;
use std::test::Fail;
use sz_cells::{Cell, CellBits, NoMemory, Shape};
use sz_spec::{
    Array, Dir, Flow, FlowFault, Kernel, Mapper, Node, Op, OpAt, ShapeFault, SourceList, SourceRef,
    Strategy, Tally, Value, input_shapes, output_shapes, shape_of, source_shape, square, supports,
    way,
};

fn shape(layers: u32, height: u32, cols: u32) -> Result<Shape, Fail>
    ensures { IfOk result (λ s. s ≡ layered layers height cols) }
{
    Ok(Shape::make_layers(layers, height, cols).ok_or("the sides are those of a shape")?)
}

fn node(alloc: Global, op: Op, from: &[SourceRef]) -> Result<Node, NoMemory> {
    Ok(Node {
        op,
        from: SourceList::of(from.to_vec(alloc)?),
    })
}

/// A transpose of the base array, and the sum of both.
fn two_nodes(alloc: Global) -> Result<Vec<Node>, NoMemory> {
    let turned = node(alloc, Op::Transpose, &[SourceRef::Input(0)])?;
    let sum = node(alloc, Op::Add, &[SourceRef::Node(0), SourceRef::Input(0)])?;
    Ok(vec![in alloc; turned, sum]?)
}

/// The flow of one base array, its transpose, and the sum of both.
fn turned_and_added(alloc: Global) -> Result<Flow, Fail>
    ensures { IfOk result (λ f. (flow_fault f ≡ None) × (f.inputs ≡ 1)) }
{
    let flow = Flow::make(1, two_nodes(alloc)?);
    match flow.check() {
        Ok(()) => Ok(flow),
        Err(_) => Err("the flow keeps the rules".into()),
    }
}

/// A flow of no base array whose node names one.
fn bad_flow(alloc: Global) -> Result<Flow, NoMemory> {
    let only = node(alloc, Op::Neg, &[SourceRef::Input(0)])?;
    Ok(Flow::make(0, vec![in alloc; only]?))
}

/// Whether a flow that names a base array that it has not is refused for its source.
fn is_judged(alloc: Global) -> Result<bool, NoMemory> {
    let bad = bad_flow(alloc)?;
    Ok(bad.check() == Err(FlowFault::BadSource { node: 0, input: 0 }))
}

/// Whether the outputs of a flow over one base array have these shapes.
fn are_outputs(alloc: Global, flow: &Flow, base: Shape, shapes: &[Shape]) -> Result<bool, NoMemory>
    requires right { flow_fault flow.now ≡ None }
    requires one { flow.now.inputs ≡ 1 }
{
    match output_shapes(alloc, flow, &[base])? {
        Ok(found) => Ok(found.as_slice() == shapes),
        Err(_) => Ok(false),
    }
}

/// Whether it is this node of a flow over one base array whose shape rule is broken first.
fn breaks_at(alloc: Global, flow: &Flow, base: Shape, node: u32) -> Result<bool, NoMemory>
    requires right { flow_fault flow.now ≡ None }
    requires one { flow.now.inputs ≡ 1 }
{
    match output_shapes(alloc, flow, &[base])? {
        Ok(_) => Ok(false),
        Err(first) => Ok(first == node),
    }
}

/// Whether the shapes of the outputs are found over a square, and over no other array.
fn are_found(alloc: Global) -> Result<bool, Fail> {
    let square = shape(1, 3, 3)?;
    let wide = shape(1, 2, 3)?;
    let flow = turned_and_added(alloc)?;
    Ok(are_outputs(alloc, &flow, square, &[square, square])? && breaks_at(alloc, &flow, wide, 1)?)
}

/// Whether the sum of an output and a base array, each of a shape of its own, is of unequal shapes.
fn is_unequal(alloc: Global, base: Shape, output: Shape) -> Result<bool, NoMemory> {
    let from = [SourceRef::Node(0), SourceRef::Input(0)];
    let ins = input_shapes(alloc, &[base], &[output], &from)?;
    Ok(shape_of(&Op::Add, &ins) == Err(ShapeFault::Unequal))
}

/// Whether the shapes of sources are found, and are not those of a sum where they are unequal.
fn sources_are_found(alloc: Global) -> Result<bool, Fail> {
    let wide = shape(1, 2, 3)?;
    let high = shape(1, 3, 2)?;
    let found = source_shape(&[wide], &[high], SourceRef::Node(0));
    Ok(found == high && is_unequal(alloc, wide, high)?)
}

#[test]
fn a_flow_is_judged_and_its_shapes_are_found(rt: HostRuntime) -> Result<(), Fail> {
    assert!(rt; is_judged(rt.alloc()) == Ok(true));
    assert!(rt; are_found(rt.alloc())?);
    assert!(rt; sources_are_found(rt.alloc())?);
    Ok(())
}

/// A convolution by a kernel of one row.
fn convolution(alloc: Global, weights: &[i64]) -> Result<Op, NoMemory> {
    let kernel = Kernel::make(1, 3, weights.to_vec(alloc)?);
    Ok(Op::Convolve { kernel })
}

/// Whether a kernel has one row, of these three weights.
fn is_kernel(kernel: &Kernel, weights: &[i64]) -> bool {
    kernel.is_right() && kernel.rows() == 1 && kernel.cols() == 3 && kernel.weights() == weights
}

/// Whether a copy of a convolution has a kernel of one row, of these three weights.
fn is_copied(alloc: Global, op: &Op, weights: &[i64]) -> Result<bool, NoMemory> {
    match op.copy(alloc)? {
        Op::Convolve { kernel } => Ok(is_kernel(&kernel, weights)),
        _ => Ok(false),
    }
}

/// Whether a convolution by three weights is copied.
fn convolution_is_copied(alloc: Global) -> Result<bool, NoMemory> {
    let weights = [-2_147_483_648, 0, 2_147_483_647];
    let op = convolution(alloc, &weights)?;
    is_copied(alloc, &op, &weights)
}

/// The transposing of an array of a shape.
fn transposing(alloc: Global, shape: Shape) -> Result<OpAt, Fail> {
    match OpAt::of(Op::Transpose, vec![in alloc; shape]?) {
        Ok(at) => Ok(at),
        Err(_) => Err("transposing has no shape rule".into()),
    }
}

/// Whether an operator is a transposing to a shape.
fn transposes_to(at: &OpAt, out: Shape) -> bool {
    at.out() == out && at.ins().len() == 1 && matches!(at.op(), Op::Transpose)
}

/// Whether the transposing of an array of 2 by 3 is to one of 3 by 2.
fn is_kept_with_its_shapes(alloc: Global) -> Result<bool, Fail> {
    let at = transposing(alloc, shape(1, 2, 3)?)?;
    let out = shape(1, 3, 2)?;
    Ok(transposes_to(&at, out))
}

#[test]
fn an_operator_is_copied_and_kept_with_its_shapes(rt: HostRuntime) -> Result<(), Fail> {
    assert!(rt; convolution_is_copied(rt.alloc()) == Ok(true));
    assert!(rt; is_kept_with_its_shapes(rt.alloc())?);
    Ok(())
}

/// Whether a list of strategies leads both ways by these.
fn leads_by(list: &[Strategy], back: Strategy, forward: Strategy) -> bool
    requires { 0 < length list.now }
{
    way(list, Dir::Back) == back && way(list, Dir::Forward) == forward
}

/// Whether a list of four strategies leads both ways, and what operators and strategies are is
/// known.
fn ways_are_found() -> bool {
    let full = [
        Strategy::BlackBox,
        Strategy::FullManyF,
        Strategy::PayOne,
        Strategy::FullOneB,
    ];
    leads_by(&full, Strategy::FullOneB, Strategy::FullManyF)
        && supports(&Op::Lookup, Strategy::PayOne)
        && !Strategy::Map.is_stored()
}

/// Whether an array has the values of which it is made, where it can be made of them.
fn has_values(alloc: Global, shape: Shape, values: &[Value]) -> Result<Option<bool>, NoMemory> {
    match Array::make(shape, values.to_vec(alloc)?) {
        Some(array) => Ok(Some(array.cells() == values)),
        None => Ok(None),
    }
}

/// Whether an array of 2 by 2 cells is made of four values, and not of one.
fn arrays_are_made(alloc: Global) -> Result<bool, Fail> {
    let shape = shape(1, 2, 2)?;
    let values = [Some(1), None, Some(-3), Some(4)];
    Ok(
        has_values(alloc, shape, &values)? == Some(true)
            && has_values(alloc, shape, &[Some(1)])? == None,
    )
}

/// How many steps are counted where one count is added to another.
fn three_steps() -> u64 {
    let mut here = Tally::new();
    let mut there = Tally::new();
    here.tick();
    there.tick();
    there.tick();
    here.add(there);
    here.count()
}

#[test]
fn ways_arrays_and_counts(rt: HostRuntime) -> Result<(), Fail> {
    assert!(rt; ways_are_found());
    assert!(rt; arrays_are_made(rt.alloc())?);
    assert!(rt; three_steps() == 3);
    Ok(())
}

/// The mappings of the negation of an array of this shape.
#[derive(Drop)]
struct Negation {
    shape: Shape,
}

impl Mapper for Negation {
    ghost use Rattle.std.specs.Prelude.{[], ◌∷◌};
    ghost use Rattle.sz_spec.specs.Shapes.{Site};
    ghost use Rattle.sz_spec.specs.declared.op.Op.TheVariants.{Neg};

    ghost site = { λ m. record { op = Neg; ins = m.shape ∷ []; out = m.shape } };

    fn map_b_into(&self, out: Cell, _input: u32, to: &mut CellBits) {
        to.set(out);
    }

    fn map_f_into(&self, cell: Cell, _input: u32, to: &mut CellBits) {
        to.set(cell);
    }

    fn map_p_into(&self, _out: Cell, _payload: &[u8], _input: u32, _to: &mut CellBits) {
        // no payload is one of the negation's
    }
}

/// The bitmap of two cells of a shape that the negation of an array maps.
fn mapped(alloc: Global, shape: Shape) -> Result<CellBits, NoMemory>
    requires { shape ≡ layered 2 2 3 }
    ensures { IfOk result (λ b. b.extent ≡ shape) }
{
    let map = Negation { shape };
    let mut cells = CellBits::new(alloc, shape)?;
    map.map_b_into(Cell { row: 3, col: 0 }, 0, &mut cells);
    map.map_f_into(Cell { row: 0, col: 2 }, 0, &mut cells);
    Ok(cells)
}

/// The least cell of a bitmap at or behind some number, and behind another.
fn next_two(cells: &CellBits, first: u32, second: u32) -> (Option<u32>, Option<u32>) {
    (cells.next_after(first), cells.next_after(second))
}

/// Whether a mapping adds its cells, and a square its own to no others.
fn are_added(alloc: Global) -> Result<bool, Fail> {
    let shape = shape(2, 2, 3)?;
    let mut cells = mapped(alloc, shape)?;
    let is_mapped = next_two(&cells, 0, 3) == (Some(2), Some(9));
    cells.clear();
    square(shape, Cell { row: 1, col: 2 }, &mut cells);
    Ok(is_mapped && next_two(&cells, 0, 3) == (Some(1), Some(4)) && cells.next_after(6) == None)
}

#[test]
fn a_mapping_and_a_square_add_their_cells(rt: HostRuntime) -> Result<(), Fail> {
    assert!(rt; are_added(rt.alloc())?);
    Ok(())
}
