//! Flows of two nodes, of which the second takes the output of the first, on small and large arrays.

use crate::refreshed::{layers, over, over_two, row, run_over};
use std::alloc::Global;
use std::sync::Arc;
use std::test::Fail;
use std::thread::Threads;
use sz_cells::{NoMemory, Shape};
use sz_flow::NodeRun;
use sz_spec::{Array, Flow, Node, Op, SourceRef, Value};

/// The flow of one base array and two nodes.
fn flow_of_two(alloc: Global, first: Node, second: Node) -> Result<Flow, NoMemory> {
    Ok(Flow::make(1, vec![in alloc; first, second]?))
}

/// The runs of a flow in which the first node takes the base array, and the second the first.
fn run_in_turn<R: Threads + Sync>(
    rt: &R,
    alloc: Global,
    first: Op,
    second: Op,
    base: Arc<Array>,
) -> Result<Vec<NodeRun>, Fail> {
    let first = over(alloc, first, SourceRef::Input(0))?;
    let second = over(alloc, second, SourceRef::Node(0))?;
    run_over(rt, alloc, &flow_of_two(alloc, first, second)?, &[base])
}

/// The array of one layer that holds 0, 1, 2, .. in row-major order.
fn counted(alloc: Global, rows: u32, cols: u32) -> Result<Arc<Array>, Fail> {
    let shape = Shape::make(rows, cols).ok_or("no sides of a shape")?;
    let mut cells = Vec::new(alloc);
    for index in 0..shape.size() {
        cells.push(Some(i64::from(index)))?;
    }
    layers(alloc, 1, rows, cols, &cells)
}

/// The runs of a node that negates the one cell of an array, and of one that adds both.
fn negated_and_added<R: Threads + Sync>(rt: &R, alloc: Global) -> Result<Vec<NodeRun>, Fail> {
    let negated = over(alloc, Op::Neg, SourceRef::Input(0))?;
    let sum = over_two(alloc, Op::Add, SourceRef::Node(0), SourceRef::Input(0))?;
    let flow = flow_of_two(alloc, negated, sum)?;
    run_over(rt, alloc, &flow, &[row(alloc, &[5])?])
}

/// Whether they are runs of 5.
fn are_of_five(runs: &[NodeRun]) -> bool {
    if runs.len() != 2 {
        return false;
    }
    let inputs = runs[1].inputs.as_slice();
    runs[0].out.cells() == [Some(-5)].as_slice()
        && runs[1].out.cells() == [Some(0)].as_slice()
        && inputs.len() == 2
        && inputs[0].cells() == [Some(-5)].as_slice()
        && inputs[1].cells() == [Some(5)].as_slice()
}

#[test]
fn a_node_takes_the_output_of_another(rt: HostRuntime) -> Result<(), Fail> {
    let runs = negated_and_added(&rt, rt.alloc())?;
    assert!(rt; are_of_five(&runs));
    Ok(())
}

/// Whether an array of so many cells has these values at these indexes.
fn has_each(cells: &[Value], count: usize, values: &[(usize, Value)]) -> bool {
    cells.len() == count
        && values
            .iter()
            .all(|(at, value)| cells.get(*at) == Some(value))
}

#[test]
fn the_greatest_array_is_run(rt: HostRuntime) -> Result<(), Fail> {
    let alloc = rt.alloc();
    let base = counted(alloc, 1_024, 1_024)?;
    let runs = run_in_turn(&rt, alloc, Op::Transpose, Op::Neg, base)?;
    assert_eq!(rt; runs.len(), 2);
    let values = [(1, Some(-1_024)), (1_048_574, Some(-1_047_551))];
    assert!(rt; has_each(runs[1].out.cells(), 1_048_576, &values));
    Ok(())
}

#[test]
fn an_array_is_cleaned_side_by_side_and_labelled(rt: HostRuntime) -> Result<(), Fail> {
    let alloc = rt.alloc();
    let clean = Op::Clean { t: 16_000 };
    let base = counted(alloc, 128, 128)?;
    let runs = run_in_turn(&rt, alloc, clean, Op::Regions { t: 100 }, base)?;
    assert_eq!(rt; runs.len(), 2);
    let values = [(7, Some(7)), (16_005, Some(15_876)), (16_128, None)];
    assert!(rt; has_each(runs[0].out.cells(), 16_384, &values));
    let labels = [(99, Some(0)), (16_005, Some(101)), (16_128, Some(0))];
    assert!(rt; has_each(runs[1].out.cells(), 16_384, &labels));
    Ok(())
}
