//! The operators of a flow's nodes, at the shapes between which they work.
ghost use Rattle.std.specs.Prelude.{◌≡◌};
ghost use Rattle.sz_catalogue.specs.Terms.{map, All, IfOk, site_over, IsFitting};

use std::alloc::Global;
use sz_cells::{NoMemory, Shape};
use sz_spec::{Node, OpAt, input_shapes};

/// The operators of nodes, between shapes of base arrays and outputs. Linear in the nodes' sources.
pub(crate) fn sites_over(
    alloc: Global,
    nodes: &[Node],
    base: &[Shape],
    outputs: &[Shape],
) -> Result<Vec<OpAt>, NoMemory>
    requires { All (IsFitting base.now outputs.now) nodes.now }
    ensures { IfOk result
        (λ sites. sites.items ≡ map (site_over base.now outputs.now) nodes.now) }
{
    let mut sites = Vec::with_capacity(alloc, nodes.len())?;
    for node in nodes {
        sites.push(site_over(alloc, node, base, outputs)?)?;
    }
    Ok(sites)
}

/// The operator of a node, between shapes of base arrays and outputs. Linear in the node's sources.
pub fn site_over(
    alloc: Global,
    node: &Node,
    base: &[Shape],
    outputs: &[Shape],
) -> Result<OpAt, NoMemory>
    requires { IsFitting base.now outputs.now node.now }
    ensures { IfOk result (λ site. site ≡ site_over base.now outputs.now node.now) }
{
    let ins = input_shapes(alloc, base, outputs, node.from.as_slice())?;
    let op = node.op.copy(alloc)?;
    match OpAt::of(op, ins) {
        Ok(site) => Ok(site),
        Err(_) => unreachable!(),
    }
}
