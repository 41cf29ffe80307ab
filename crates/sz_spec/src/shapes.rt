//! Shapes of outputs: the shape rule of each operator.

ghost use Rattle.std.specs.Prelude.{◌≡◌, ◌<◌, ◌==◌, if◌then◌else◌};
ghost use Rattle.sz_spec.specs.Terms.{true, length, Ok, Err, height_of, flat, is_layered, arity};
ghost use Rattle.sz_spec.specs.Terms.{has_right_parameters, shape_of, each_layer, sliced};
ghost use Rattle.sz_spec.specs.Terms.{are_equal, blocks_over};

use crate::op::Op;
use sz_cells::Shape;

/// The shape of the output that an operator makes of inputs of these shapes, or the shape rule that
/// they break. Takes no memory.
pub fn shape_of(op: &Op, ins: &[Shape]) -> Result<Shape, ShapeFault>
    requires arity { length ins.now ≡ arity op.now }
    requires parameters { has_right_parameters op.now ≡ true }
    ensures { result ≡ shape_of op.now ins.now }
{
    let first = ins[0];
    match op {
        Op::Add | Op::Sub | Op::Mul | Op::Min | Op::Max => same_shape(first, ins[1]),
        Op::Transpose => Ok(transpose_shape(first)),
        Op::Slice { r0, c0, h, w } => slice_shape(first, *r0, *c0, *h, *w),
        Op::Block { fold: _, h, w } => Ok(block_shape(first, *h, *w)),
        Op::Lookup => lookup_shape(first, ins[1]),
        Op::FoldLayers { fold: _ } => Ok(layer_shape(first)),
        _ => Ok(first),
    }
}

/// Which shape rule of an operator its inputs break.
#[derive(Clone, Copy, Debug, PartialEq, Eq)]
pub enum ShapeFault {
    /// The two inputs have unequal shapes.
    Unequal,
    /// The slice reaches out of its input.
    OutOfRange,
    /// The table has more than one row.
    NotOneRow,
}

/// The one shape of two inputs.
fn same_shape(first: Shape, second: Shape) -> Result<Shape, ShapeFault>
    ensures { result ≡ (if are_equal first second then Ok first else Err ShapeFault.Unequal) }
{
    if first == second {
        Ok(first)
    } else {
        Err(ShapeFault::Unequal)
    }
}

/// Rows and columns of each layer exchanged.
fn transpose_shape(of: Shape) -> Shape
    ensures { result ≡ each_layer of of.cols (height_of of) }
{
    each_layer(of, of.cols, of.height())
}

/// So many rows and columns of each layer, from these on.
fn slice_shape(of: Shape, r0: u32, c0: u32, h: u32, w: u32) -> Result<Shape, ShapeFault>
    requires rows { 0 < h }
    requires cols { 0 < w }
    ensures { result ≡ sliced of r0 c0 h w }
{
    let bottom = u64::from(r0) + u64::from(h);
    let right = u64::from(c0) + u64::from(w);
    if bottom <= u64::from(of.height()) && right <= u64::from(of.cols) {
        Ok(each_layer(of, h, w))
    } else {
        Err(ShapeFault::OutOfRange)
    }
}

/// A cell for each block of so many rows and columns of each layer.
fn block_shape(of: Shape, h: u32, w: u32) -> Shape
    requires rows { 0 < h }
    requires cols { 0 < w }
    ensures { result ≡ each_layer of (blocks_over (height_of of) h) (blocks_over of.cols w) }
{
    each_layer(of, blocks_over(of.height(), h), blocks_over(of.cols, w))
}

/// How many blocks of a side are laid over so many rows or columns.
fn blocks_over(count: u32, side: u32) -> u32
    requires { 0 < side }
    ensures { result ≡ blocks_over count side }
{
    count.div_ceil(side)
}

/// The shape of the first input, where the table has one row.
fn lookup_shape(first: Shape, table: Shape) -> Result<Shape, ShapeFault>
    ensures { result ≡ (if table.rows == 1 then Ok first else Err ShapeFault.NotOneRow) }
{
    if table.rows == 1 {
        Ok(first)
    } else {
        Err(ShapeFault::NotOneRow)
    }
}

/// One layer's rows and columns.
fn layer_shape(of: Shape) -> Shape
    ensures { result ≡ flat (height_of of) of.cols }
{
    Shape {
        layers: 1,
        rows: of.height(),
        cols: of.cols,
    }
}

/// So many rows and columns in each layer of a shape.
fn each_layer(of: Shape, height: u32, cols: u32) -> Shape
    requires { is_layered of.layers height cols ≡ true }
    ensures { result ≡ each_layer of height cols }
{
    Shape {
        layers: of.layers,
        rows: of.layers * height,
        cols,
    }
}
