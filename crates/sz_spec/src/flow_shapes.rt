//! The shapes of a flow's outputs, found from the shapes of its base arrays alone.
ghost use Rattle.std.specs.Prelude.{◌≡◌};
ghost use Rattle.sz_spec.specs.Terms.{All, true, length, map, IfOk, result_map_both};
ghost use Rattle.sz_spec.specs.Terms.{is_well_formed, is_source, source_shape, output_shapes};

use crate::flow::{Flow, SourceRef};
use crate::shapes::shape_of;
use std::alloc::Global;
use sz_cells::{NoMemory, Shape};

/// The shapes of the outputs of a flow's nodes over base arrays of these shapes, or the first node
/// whose shape rule is broken. Linear in the flow's sources.
pub fn output_shapes(
    alloc: Global,
    flow: &Flow,
    base: &[Shape],
) -> Result<Result<Vec<Shape>, u32>, NoMemory>
    requires right { is_well_formed flow.now ≡ true }
    requires count { length base.now ≡ flow.now.inputs }
    ensures { IfOk result
        (λ r. result_map_both (λ v. v.items) (λ n. n) r ≡ output_shapes flow.now base.now) }
{
    let mut outputs: Vec<Shape> = Vec::new(alloc);
    for (number, node) in flow.nodes().iter().enumerate() {
        let inputs = input_shapes(alloc, base, &outputs, node.from.as_slice())?;
        match shape_of(&node.op, &inputs) {
            Ok(shape) => outputs.push(shape)?,
            Err(_) => return Ok(Err(number as u32)),
        }
    }
    Ok(Ok(outputs))
}

/// The shapes of the arrays that sources stand for, given those of the base arrays and of the
/// outputs. Linear in the sources.
pub fn input_shapes(
    alloc: Global,
    base: &[Shape],
    outputs: &[Shape],
    from: &[SourceRef],
) -> Result<Vec<Shape>, NoMemory>
    requires { All (λ s. is_source (length base.now) (length outputs.now) s ≡ true) from.now }
    ensures { IfOk result (λ v. v.items ≡ map (source_shape base.now outputs.now) from.now) }
{
    let mut shapes = Vec::with_capacity(alloc, from.len())?;
    for source in from {
        shapes.push(source_shape(base, outputs, *source))?;
    }
    Ok(shapes)
}

/// The shape of the array that a source stands for. Takes no memory.
pub fn source_shape(base: &[Shape], outputs: &[Shape], source: SourceRef) -> Shape
    requires { is_source (length base.now) (length outputs.now) source ≡ true }
    ensures { result ≡ source_shape base.now outputs.now source }
{
    match source {
        SourceRef::Input(input) => base[input as usize],
        SourceRef::Node(node) => outputs[node as usize],
    }
}
