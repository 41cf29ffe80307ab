//! Flows: acyclic graphs of operators, and whether they are well formed.

ghost use Rattle.std.specs.Prelude.{◌≡◌, ◌<◌, ◌^◌};
ghost use Rattle.sz_spec.specs.Terms.{length, result_err, flow_fault, nodes_fault, node_fault};
ghost use Rattle.sz_spec.specs.Terms.{source_fault, is_source};

use crate::op::{Op, arity, has_right_parameters};
use std::marker::Model;

/// A flow: how many base arrays it takes, and its nodes. It holds what it is given: `check` judges
/// it.
#[derive(Drop)]
pub struct Flow {
    inputs: u32,
    nodes: Vec<Node>,
}

impl Model for Flow {
    ghost use Rattle.sz_spec.specs.Flows.{Graph};

    ghost Value = { Graph };

    ghost view = { λ f. record { inputs = f.inputs; nodes = f.nodes.items } };
}

impl Flow {
    /// The largest number of nodes that a flow has.
    const MOST_NODES: usize = 32;

    /// The largest number of base arrays that a flow takes.
    const MOST_INPUTS: u32 = 32;

    /// The flow of so many base arrays and these nodes.
    pub fn make(inputs: u32, nodes: Vec<Node>) -> Flow
        ensures { result ≡ record { inputs = inputs; nodes = nodes.items } }
    {
        Flow { inputs, nodes }
    }

    /// How many base arrays the flow takes.
    pub fn inputs(&self) -> u32
        ensures { result ≡ self.now.inputs }
    {
        self.inputs
    }

    /// The nodes, each of which takes base arrays and the outputs of earlier ones.
    pub fn nodes(&self) -> &[Node]
        ensures { result.now ≡ self.now.nodes }
    {
        &self.nodes
    }

    /// Whether the flow is well formed, and if not its first fault: that of the number of nodes,
    /// then that of the number of base arrays, then that of the first node that has one. Of one
    /// node the number of sources comes first, then the sources in their order, then the
    /// parameters.
    ///
    /// Takes no memory, and time in the number of sources and of weights.
    pub fn check(&self) -> Result<(), FlowFault>
        ensures { result_err result ≡ flow_fault self.now }
    {
        if self.nodes.is_empty() {
            return Err(FlowFault::NoNodes);
        }
        if self.nodes.len() > Self::MOST_NODES {
            return Err(FlowFault::TooManyNodes);
        }
        if self.inputs > Self::MOST_INPUTS {
            return Err(FlowFault::TooManyInputs);
        }
        check_nodes(self.inputs, &self.nodes)
    }
}

/// Why a flow is refused. Nodes and inputs are counted from 0.
#[derive(Clone, Copy, Debug, PartialEq, Eq)]
pub enum FlowFault {
    /// The flow has no node.
    NoNodes,
    /// The flow has more than 32 nodes.
    TooManyNodes,
    /// This source of this node is no base array and no earlier node.
    BadSource { node: u32, input: u32 },
    /// This node has more or fewer sources than its operator has inputs.
    WrongArity { node: u32 },
    /// A parameter of this node breaks its rule.
    BadParameter { node: u32 },
    /// The flow has more than 32 base arrays.
    TooManyInputs,
}

/// The first fault of nodes, one after another.
fn check_nodes(inputs: u32, nodes: &[Node]) -> Result<(), FlowFault>
    requires { length nodes.now < 2 ^ 32 }
    ensures { result_err result ≡ nodes_fault inputs 0 nodes.now }
{
    for (number, node) in nodes.iter().enumerate() {
        check_node(inputs, number as u32, node)?;
    }
    Ok(())
}

/// The first fault of one node, given its number.
fn check_node(inputs: u32, number: u32, node: &Node) -> Result<(), FlowFault>
    ensures { result_err result ≡ node_fault inputs number node.now }
{
    let from = node.from.as_slice();
    if from.len() != arity(&node.op) as usize {
        return Err(FlowFault::WrongArity { node: number });
    }
    check_sources(inputs, number, from)?;
    if has_right_parameters(&node.op) {
        Ok(())
    } else {
        Err(FlowFault::BadParameter { node: number })
    }
}

/// The first source of a node that is none, given the node's number.
fn check_sources(inputs: u32, number: u32, from: &[SourceRef]) -> Result<(), FlowFault>
    requires { length from.now < 2 ^ 32 }
    ensures { result_err result ≡ source_fault inputs number 0 from.now }
{
    for (input, source) in from.iter().enumerate() {
        if !source.is_before(inputs, number) {
            return Err(FlowFault::BadSource {
                node: number,
                input: input as u32,
            });
        }
    }
    Ok(())
}

/// A node of a flow: an operator, and where it takes its inputs from.
#[derive(Drop)]
pub struct Node {
    pub op: Op,
    pub from: SourceList,
}

/// Where a node takes an array from, by number from 0.
#[derive(Clone, Copy, Debug, PartialEq, Eq)]
pub enum SourceRef {
    /// A base array of the flow.
    Input(u32),
    /// The output of an earlier node.
    Node(u32),
}

impl SourceRef {
    /// Whether this is one of so many base arrays, or a node before the one of a number.
    fn is_before(self, inputs: u32, number: u32) -> bool
        ensures { result ≡ is_source inputs number self }
    {
        match self {
            SourceRef::Input(input) => input < inputs,
            SourceRef::Node(node) => node < number,
        }
    }
}

/// The sources of a node: one for each input of its operator, in their order. Contracts see the
/// list of them.
#[derive(Drop)]
pub struct SourceList {
    items: Vec<SourceRef>,
}

impl Model for SourceList {
    ghost use Rattle.std.specs.Prelude.{List};
    ghost use Rattle.sz_spec.specs.declared.flow.SourceRef.{SourceRef};

    ghost Value = { List SourceRef };

    ghost view = { λ s. s.items.items };
}

impl SourceList {
    /// These sources, in this order.
    pub fn of(items: Vec<SourceRef>) -> SourceList
        ensures { result ≡ items.items }
    {
        SourceList { items }
    }

    /// The sources, in their order.
    pub fn as_slice(&self) -> &[SourceRef]
        ensures { result.now ≡ self.now }
    {
        &self.items
    }
}
