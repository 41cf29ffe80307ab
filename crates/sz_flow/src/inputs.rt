//! What a node takes, and its operator at the shapes of that.

ghost use Rattle.std.specs.Prelude.{◌≡◌};
ghost use Rattle.sz_flow.specs.Terms.{true, length, map, All, Ok, IfOk, arc_value, Extent};
ghost use Rattle.sz_flow.specs.Terms.{extents_of, arity, has_right_parameters, shape_of, is_source};
ghost use Rattle.sz_flow.specs.Terms.{array_of, site_over, inputs_among};

use crate::node_run::NodeRun;
use std::alloc::Global;
use std::sync::Arc;
use sz_cells::{NoMemory, Shape};
use sz_spec::{Array, ArrayList, Node, Op, OpAt, SourceRef};

/// The arrays that a node takes, given the base arrays and the runs of the nodes before it. They
/// are shared and not copied.
pub fn inputs_of(
    alloc: Global,
    node: &Node,
    base: &[Arc<Array>],
    earlier: &[NodeRun],
) -> Result<ArrayList, NoMemory>
    requires { All (λ s. is_source (length base.now) (length earlier.now) s ≡ true) node.now.from }
    ensures { IfOk result (λ arrays. arrays ≡ inputs_among (map (λ a. arc_value a) base.now)
        (map (λ r. arc_value r.out) earlier.now) node.now) }
{
    let mut arrays = Vec::new(alloc);
    for source in node.from.as_slice() {
        let array = array_of(*source, base, earlier)?;
        arrays.push(array)?;
    }
    Ok(ArrayList::of(arrays))
}

/// The array that a source stands for, shared.
fn array_of(
    source: SourceRef,
    base: &[Arc<Array>],
    earlier: &[NodeRun],
) -> Result<Arc<Array>, NoMemory>
    requires { is_source (length base.now) (length earlier.now) source ≡ true }
    ensures { IfOk result (λ a. arc_value a ≡ array_of (map (λ a. arc_value a) base.now)
        (map (λ r. arc_value r.out) earlier.now) source) }
{
    Ok(match source {
        SourceRef::Input(input) => Arc::try_clone(&base[input as usize])?,
        SourceRef::Node(node) => Arc::try_clone(&earlier[node as usize].out)?,
    })
}

/// An operator at the shapes of the arrays that it takes.
pub(crate) fn site_over(alloc: Global, op: Op, inputs: &[Arc<Array>]) -> Result<OpAt, NoMemory>
    requires arity { length inputs.now ≡ arity op }
    requires parameters { has_right_parameters op ≡ true }
    requires fits { (e : Extent)
        × (shape_of op (extents_of (map (λ a. arc_value a) inputs.now)) ≡ Ok e) }
    ensures { IfOk result (λ at. at ≡ site_over op (map (λ a. arc_value a) inputs.now)) }
{
    let ins = shapes_of(alloc, inputs)?;
    match OpAt::of(op, ins) {
        Ok(at) => Ok(at),
        Err(_) => unreachable!(),
    }
}

/// The shapes of arrays, in their order.
fn shapes_of(alloc: Global, arrays: &[Arc<Array>]) -> Result<Vec<Shape>, NoMemory>
    ensures { IfOk result (λ s. s.items ≡ extents_of (map (λ a. arc_value a) arrays.now)) }
{
    let mut shapes = Vec::new(alloc);
    for array in arrays {
        shapes.push(array.shape())?;
    }
    Ok(shapes)
}
