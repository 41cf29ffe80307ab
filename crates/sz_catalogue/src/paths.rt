//! Paths through a flow: whether one is joined.
ghost use Rattle.std.specs.Prelude.{◌≡◌};
ghost use Rattle.sz_catalogue.specs.Terms.{source_of, is_output_of, follows, are_joined, is_joined};

use sz_script::PathStep;
use sz_spec::{Dir, Flow, SourceRef};

/// The most steps of a path.
const MOST_STEPS: usize = 32;

/// Whether a path has 1 to 32 joined steps. Linear in the path.
pub fn is_joined(dir: Dir, flow: &Flow, path: &[PathStep]) -> bool
    ensures { result ≡ is_joined dir flow.now path.now }
{
    if path.is_empty() || path.len() > MOST_STEPS {
        return false;
    }
    are_joined(dir, flow, path)
}

/// Whether each step is of the flow, and follows the one before it.
fn are_joined(dir: Dir, flow: &Flow, path: &[PathStep]) -> bool
    ensures { result ≡ are_joined dir flow.now path.now }
{
    match path {
        [] => true,
        [step] => source_of(flow, *step).is_some(),
        [step, next, ..] => {
            source_of(flow, *step).is_some()
                && follows(dir, flow, *step, *next)
                && are_joined(dir, flow, &path[1..])
        }
    }
}

/// Whether a step follows another.
fn follows(dir: Dir, flow: &Flow, step: PathStep, next: PathStep) -> bool
    ensures { result ≡ follows dir flow.now step next }
{
    match dir {
        Dir::Back => is_output_of(next.node, source_of(flow, step)),
        Dir::Forward => is_output_of(step.node, source_of(flow, next)),
    }
}

/// Whether a source is the output of a node.
fn is_output_of(node: u32, source: Option<SourceRef>) -> bool
    ensures { result ≡ is_output_of node source }
{
    match source {
        Some(SourceRef::Node(of)) => of == node,
        _ => false,
    }
}

/// Where the input of a step comes from, if the flow has the node and the node the input.
pub fn source_of(flow: &Flow, step: PathStep) -> Option<SourceRef>
    ensures { result ≡ source_of flow.now step }
{
    match flow.nodes().get(step.node as usize) {
        Some(node) => node.from.as_slice().get(step.input as usize).copied(),
        None => None,
    }
}
