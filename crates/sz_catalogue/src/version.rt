//! A version as it is held: a run of a flow over base arrays. What is held of its outputs is their
//! shapes.
ghost use Rattle.std.specs.Prelude.{◌≡◌, ◌<◌, ◌≤◌};
ghost use Rattle.sz_catalogue.specs.Terms.{true, length, None, IfOk, result_err, extent_at};
ghost use Rattle.sz_catalogue.specs.Terms.{is_well_formed, output_shapes, source_of, is_there};
ghost use Rattle.sz_catalogue.specs.Terms.{shapes_of, outputs_of, inputs_of, step_start};
ghost use Rattle.sz_catalogue.specs.Terms.{are_lists_for, IsRun, arc_value, Version, Base};

use crate::lists::{BaseArrays, StrategyLists};
use crate::paths::source_of;
use std::alloc::Global;
use std::marker::Model;
use std::sync::Arc;
use sz_cells::{NoMemory, Shape};
use sz_script::{Name, PathStep};
use sz_spec::{Array, Dir, Flow, SourceRef, output_shapes};

/// A run of a flow: the flow and the name under which it is held, its base arrays, the strategies
/// of its nodes as they were at the start, one list a node, and whether it was awaited.
#[derive(Drop)]
pub struct HeldVersion {
    pub flow_name: Name,
    pub flow: Arc<Flow>,
    pub base: BaseArrays,
    pub lists: StrategyLists,
    pub awaited: bool,
}

impl Model for HeldVersion {
    ghost Value = { Version };

    ghost view = { λ v. record {
      flow_name = v.flow_name;
      flow = arc_value v.flow;
      base = v.base;
      lists = v.lists;
      awaited = v.awaited;
    } };
}

impl HeldVersion {
    /// Notes that the version was awaited.
    fn note_await(&mut self)
        ensures { self.new ≡ record self.old { awaited = true } }
    {
        self.awaited = true;
    }
}

/// A base array of a version: its name, its version from 1, and the array.
#[derive(Drop)]
pub struct BaseArray {
    pub name: Name,
    pub version: u32,
    pub array: Arc<Array>,
}

impl Model for BaseArray {
    ghost Value = { Base };

    ghost view = { λ b. record { name = b.name; version = b.version; array = arc_value b.array } };
}

/// The shapes of base arrays.
pub fn base_shapes(alloc: Global, base: &[BaseArray]) -> Result<Vec<Shape>, NoMemory>
    ensures { IfOk result (λ v. v.items ≡ shapes_of base.now) }
{
    let mut shapes = Vec::with_capacity(alloc, base.len())?;
    for only in base {
        shapes.push(only.array.shape())?;
    }
    Ok(shapes)
}

/// A version with the shapes of its outputs: of a flow that is well formed, on as many base arrays
/// as it takes, whose shapes fit, with a list of strategies for each node.
#[derive(Drop)]
pub struct Run {
    version: HeldVersion,
    outputs: Vec<Shape>,
}

impl Model for Run {
    ghost Value = { Version };

    ghost view = { λ r. r.version };

    ghost invariant = { λ r. IsRun r.version r.outputs.items };
}

impl Run {
    /// The run that a version is. Linear in the flow's sources.
    pub fn make(alloc: Global, version: HeldVersion) -> Result<Run, NoMemory>
        requires right { is_well_formed version.flow ≡ true }
        requires count { length version.base ≡ version.flow.inputs }
        requires fits { result_err (output_shapes version.flow (shapes_of version.base)) ≡ None }
        requires lists { are_lists_for version.flow.nodes version.lists ≡ true }
        ensures { IfOk result (λ r. r ≡ version) }
    {
        let base = base_shapes(alloc, version.base.as_slice())?;
        match output_shapes(alloc, &version.flow, &base)? {
            Ok(outputs) => Ok(Run { version, outputs }),
            Err(_) => unreachable!(),
        }
    }

    /// The version.
    pub fn version(&self) -> &HeldVersion
        ensures { result.now ≡ self.now }
    {
        &self.version
    }

    /// The flow.
    pub fn flow(&self) -> &Flow
        ensures value { result.now ≡ self.now.flow }
        ensures right { is_well_formed self.now.flow ≡ true }
    {
        &self.version.flow
    }

    /// The shapes of the outputs of its nodes.
    pub fn outputs(&self) -> &[Shape]
        ensures value { result.now ≡ outputs_of self.now }
        ensures count { length result.now ≡ length self.now.flow.nodes }
        ensures few { length result.now ≤ 32 }
        ensures run { IsRun self.now result.now }
    {
        &self.outputs
    }

    /// The shape in which a step of the flow starts.
    pub fn step_start(&self, dir: Dir, step: PathStep) -> Shape
        requires { is_there (source_of self.now.flow step) ≡ true }
        ensures { result ≡ step_start dir self.now step }
    {
        match dir {
            Dir::Back => self.outputs()[step.node as usize],
            Dir::Forward => self.input_shape(step),
        }
    }

    /// The shape of the array that a step's input is.
    fn input_shape(&self, step: PathStep) -> Shape
        requires { is_there (source_of self.now.flow step) ≡ true }
        ensures { result ≡ extent_at (inputs_of self.now step.node) step.input }
    {
        let outputs = self.outputs();
        match source_of(self.flow(), step) {
            Some(SourceRef::Input(input)) => self.base_shape(input),
            Some(SourceRef::Node(node)) => outputs[node as usize],
            None => unreachable!(),
        }
    }

    /// The shape of one of its base arrays.
    fn base_shape(&self, input: u32) -> Shape
        requires { input < length self.now.base }
        ensures { result ≡ extent_at (shapes_of self.now.base) input }
    {
        let version = &self.version;
        let base = version.base.as_slice();
        let only = &base[input as usize];
        only.array.shape()
    }

    /// Notes that the version was awaited.
    pub fn note_await(&mut self)
        ensures { self.new ≡ record self.old { awaited = true } }
    {
        self.version.note_await();
    }
}
