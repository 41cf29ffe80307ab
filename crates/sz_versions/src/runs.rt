//! What is carried of a version: the runs of its nodes, and what is kept of each; or, of one that a
//! log gave, what these are made of once they are asked.

ghost use Rattle.std.specs.Prelude.{◌≡◌};
ghost use Rattle.sz_versions.specs.Terms.{map, length, true, IfOk, arc_value, is_well_formed};
ghost use Rattle.sz_versions.specs.Terms.{execution_of, executions, FlowFits, keeping_of};

use crate::built::Built;
use std::alloc::Global;
use std::marker::Model;
use std::sync::Arc;
use std::thread::Threads;
use sz_cells::NoMemory;
use sz_flow::{NodeRun, run_all};
use sz_shelf::{Pass, Shelf};
use sz_spec::{Array, Flow};
use sz_store::NodeStore;

/// What is kept of a node. A further kind is a further line here and in `specs/Stores`.
#[derive(Drop)]
pub enum NodeKeeping {
    /// Nothing.
    Nothing,
    /// The shelf on which its stores grow, with a pass of it.
    Growing { shelf: Arc<Shelf>, pass: Pass },
    /// Its stores, which are whole.
    Whole(Built),
    /// Stores that were read of a log, whatever they stand for.
    Read { store: Arc<NodeStore> },
}

/// The run of a version: the runs of its nodes, and what is kept of each, in the order of the
/// nodes. Contracts see the executions, and what is kept.
#[derive(Drop)]
pub struct VersionRun {
    pub(crate) runs: Arc<Vec<NodeRun>>,
    pub(crate) stores: Vec<NodeKeeping>,
}

impl Model for VersionRun {
    ghost use Rattle.std.specs.Prelude.{map};
    ghost use Rattle.std.specs.Arc.{arc_value};
    ghost use Rattle.sz_flow.specs.Executions.{execution_of};
    ghost use Rattle.sz_versions.specs.Stores.{Trail, keeping_of};

    ghost Value = { Trail };

    ghost view = { λ v. record {
      executions = map execution_of (arc_value v.runs).items;
      kept = map keeping_of v.stores.items;
    } };
}

impl VersionRun {
    /// These runs, with what is kept of each.
    pub fn of(
        alloc: Global,
        runs: Vec<NodeRun>,
        stores: Vec<NodeKeeping>,
    ) -> Result<VersionRun, NoMemory>
        ensures { IfOk result (λ v. v ≡ record {
          executions = map execution_of runs.items;
          kept = map keeping_of stores.items;
        }) }
    {
        let runs = Arc::new(alloc, runs)?;
        Ok(VersionRun { runs, stores })
    }

    /// The runs of the nodes.
    pub(crate) fn runs(&self) -> &[NodeRun]
        ensures { map execution_of result.now ≡ self.now.executions }
    {
        &self.runs
    }

    /// The runs of the nodes, shared once more.
    pub(crate) fn shared(&self) -> Result<Arc<Vec<NodeRun>>, NoMemory>
        ensures { IfOk result
            (λ r. map execution_of (arc_value r).items ≡ self.now.executions) }
    {
        Ok(Arc::try_clone(&self.runs)?)
    }
}

/// What the run of a version is made of, once it is asked: the version's flow and base arrays,
/// beside what is kept of its nodes. Contracts see the run that is made of it.
#[derive(Drop)]
pub(crate) struct UnmadeRun {
    flow: Arc<Flow>,
    base: Vec<Arc<Array>>,
    stores: Vec<NodeKeeping>,
}

impl Model for UnmadeRun {
    ghost use Rattle.std.specs.Prelude.{◌≡◌, map, length, true};
    ghost use Rattle.std.specs.Arc.{arc_value};
    ghost use Rattle.sz_spec.specs.Flows.{is_well_formed};
    ghost use Rattle.sz_flow.specs.Executions.{executions, FlowFits};
    ghost use Rattle.sz_versions.specs.Stores.{Trail, keeping_of};

    ghost Value = { Trail };

    ghost view = { λ u. record {
      executions = executions (arc_value u.flow) (map (λ a. arc_value a) u.base.items);
      kept = map keeping_of u.stores.items;
    } };

    ghost invariant = { λ u. (is_well_formed (arc_value u.flow) ≡ true)
        × (length u.base.items ≡ (arc_value u.flow).inputs)
        × FlowFits (arc_value u.flow) (map (λ a. arc_value a) u.base.items) };
}

impl UnmadeRun {
    /// Of this flow over these base arrays, with what is kept of each node.
    pub(crate) fn of(
        flow: &Arc<Flow>,
        base: Vec<Arc<Array>>,
        stores: Vec<NodeKeeping>,
    ) -> Result<UnmadeRun, NoMemory>
        requires well_formed { is_well_formed (arc_value flow.now) ≡ true }
        requires count { length base.items ≡ (arc_value flow.now).inputs }
        requires fits { FlowFits (arc_value flow.now) (map (λ a. arc_value a) base.items) }
        ensures { IfOk result (λ u. u ≡ record {
          executions = executions (arc_value flow.now) (map (λ a. arc_value a) base.items);
          kept = map keeping_of stores.items;
        }) }
    {
        let flow = Arc::try_clone(flow)?;
        Ok(UnmadeRun { flow, base, stores })
    }

    /// The runs of the nodes: the value of each is computed once, side by side where that pays.
    pub(crate) fn runs<R: Threads + Sync>(
        &self,
        rt: &R,
        alloc: Global,
    ) -> Result<Arc<Vec<NodeRun>>, NoMemory>
        ensures { IfOk result
            (λ r. map execution_of (arc_value r).items ≡ self.now.executions) }
    {
        let runs = run_all(rt, alloc, &self.flow, &self.base)?;
        Ok(Arc::new(alloc, runs)?)
    }

    /// The run, of these runs of its nodes.
    pub(crate) fn with(self, runs: Arc<Vec<NodeRun>>) -> VersionRun
        requires { map execution_of (arc_value runs).items ≡ self.executions }
        ensures { result ≡ self }
    {
        VersionRun {
            runs,
            stores: self.stores,
        }
    }
}
