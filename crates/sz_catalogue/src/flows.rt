//! The flows held, by name, each with the strategies that its nodes have.
ghost use Rattle.std.specs.Prelude.{◌≡◌, ◌<◌};
ghost use Rattle.sz_catalogue.specs.Terms.{true, [], length, slice_set, option_map, map, Some};
ghost use Rattle.sz_catalogue.specs.Terms.{IfOk, IfSome, OnOk, OnErr, nat_cmp, slice_cmp, lookup};
ghost use Rattle.sz_catalogue.specs.Terms.{set_value, is_at, insert_entry, arc_value};
ghost use Rattle.sz_catalogue.specs.Terms.{option_copied, is_well_formed, workflow_in, first_lists};
ghost use Rattle.sz_catalogue.specs.Terms.{is_list_of, are_lists_for, with_list, ℕ, List, Workflow};
ghost use Rattle.sz_catalogue.specs.Terms.{by_bytes, IsWorkflow};

use crate::lists::StrategyLists;
use crate::memory::{own_text, share_flow};
use crate::strategies::first_lists;
use std::alloc::Global;
use std::collections::BTreeMap;
use std::marker::Model;
use std::sync::Arc;
use sz_cells::NoMemory;
use sz_script::StrategyList;
use sz_spec::Flow;

/// The flows held, each under its name.
#[derive(Drop)]
pub struct HeldFlows {
    by_name: BTreeMap<String, HeldFlow>,
}

impl Model for HeldFlows {
    ghost Value = { List (List ℕ × Workflow) };

    ghost view = { λ f. by_bytes f.by_name.entries };
}

impl HeldFlows {
    pub fn new(alloc: Global) -> HeldFlows
        ensures { result ≡ [] }
    {
        HeldFlows {
            by_name: BTreeMap::new(alloc),
        }
    }

    /// How many flows are held.
    pub fn len(&self) -> usize
        ensures { result ≡ length self.now }
    {
        self.by_name.len()
    }

    /// The flow of a name. Logarithmic in the names.
    pub fn get(&self, name: &str) -> Option<&HeldFlow>
        ensures { option_copied result
            ≡ lookup (is_at (slice_cmp nat_cmp name.now)) self.now }
    {
        self.by_name.get(name)
    }

    /// Holds a flow under a name. Logarithmic in the names.
    pub fn push(&mut self, alloc: Global, name: &str, flow: HeldFlow) -> Result<(), NoMemory>
        ensures held { OnOk result (self.new
            ≡ insert_entry (slice_cmp nat_cmp) self.old name.now flow) }
        ensures err { OnErr result (self.new ≡ self.old) }
    {
        let key = own_text(alloc, name)?;
        self.by_name.insert(key, flow)?;
        Ok(())
    }

    /// Sets the list of a node of a flow that is held. Logarithmic in the names.
    pub fn set_list(&mut self, name: &str, node: u32, list: StrategyList)
        requires { is_list_of (workflow_in self.old name.now).graph.nodes node list ≡ true }
        ensures { self.new ≡ set_value (is_at (slice_cmp nat_cmp name.now)) self.old
            (with_list (workflow_in self.old name.now) node list) }
    {
        let Some(flow) = self.by_name.get_mut(name) else {
            return;
        };
        flow.set_list(node, list);
    }
}

/// A flow, and the strategies that a version of it started now has.
#[derive(Drop)]
pub struct HeldFlow {
    flow: Arc<Flow>,
    lists: StrategyLists,
}

impl Model for HeldFlow {
    ghost Value = { Workflow };

    ghost view = { λ f. record { graph = arc_value f.flow; lists = f.lists } };

    ghost invariant = { λ f. IsWorkflow (record { graph = arc_value f.flow; lists = f.lists }) };
}

impl HeldFlow {
    /// The flow with its first strategies.
    pub fn make(alloc: Global, flow: Flow) -> Result<HeldFlow, NoMemory>
        requires { is_well_formed flow ≡ true }
        ensures { IfOk result (λ f. f ≡ record { graph = flow; lists = first_lists flow }) }
    {
        let lists = first_lists(alloc, flow.nodes())?;
        let flow = share_flow(alloc, flow)?;
        Ok(HeldFlow { flow, lists })
    }

    /// The flow.
    pub fn flow(&self) -> &Arc<Flow>
        ensures value { arc_value result.now ≡ self.now.graph }
        ensures right { is_well_formed self.now.graph ≡ true }
    {
        &self.flow
    }

    /// The strategies of its nodes.
    pub fn lists(&self) -> &StrategyLists
        ensures value { result.now ≡ self.now.lists }
        ensures lists { are_lists_for self.now.graph.nodes self.now.lists ≡ true }
    {
        &self.lists
    }

    /// Sets the list of a node.
    fn set_list(&mut self, node: u32, list: StrategyList)
        requires { is_list_of self.old.graph.nodes node list ≡ true }
        ensures { self.new ≡ with_list self.old node list }
    {
        self.lists.set(node, list);
    }
}
