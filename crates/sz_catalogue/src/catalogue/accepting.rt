//! What commands that no rule refuses change.
ghost use Rattle.std.specs.Prelude.{◌≡◌, ◌≤◌, ◌+◌, ◌++◌};
ghost use Rattle.sz_catalogue.specs.Terms.{false, true, is_some, [], length, Some, None, All};
ghost use Rattle.sz_catalogue.specs.Terms.{option_map, IfOk, OnOk, OnErr, arc_value, cons_option};
ghost use Rattle.sz_catalogue.specs.Terms.{result_err, is_well_formed, output_shapes, is_name};
ghost use Rattle.sz_catalogue.specs.Terms.{is_right, array_version, flow_named, version_numbered};
ghost use Rattle.sz_catalogue.specs.Terms.{shapes_of, output_cells, things_named, base_of};
ghost use Rattle.sz_catalogue.specs.Terms.{bases_of, workflow_of, version_started, judged};
ghost use Rattle.sz_catalogue.specs.Terms.{has_room, are_lists_for, has_no_version, version_of};
ghost use Rattle.sz_catalogue.specs.Terms.{has_no_flow, has_no_array, has_wrong_base};
ghost use Rattle.sz_catalogue.specs.Terms.{has_broken_shapes, has_no_room_for_array, sites_of};
ghost use Rattle.sz_catalogue.specs.Terms.{accepted, changes_no_version, with_array, with_version};
ghost use Rattle.sz_catalogue.specs.Terms.{plan_over, plan_for, response_of};
ghost use Rattle.sz_script.specs.declared.command.Command.TheVariants as command;

use super::Catalogue;
use crate::flows::HeldFlow;
use crate::lists::BaseArrays;
use crate::memory::{another_flow, another_owner, own_name, share};
use crate::reply::Reply;
use crate::shapes::cells_of;
use crate::sites::sites_over;
use crate::version::{BaseArray, HeldVersion, Run};
use std::alloc::Global;
use std::sync::Arc;
use sz_cells::NoMemory;
use sz_planner::laws::{best_choices_are_one, lists_are_best_choices};
use sz_script::{BaseName, Command, Name, StrategyList};
use sz_spec::{Array, Flow, OpAt, output_shapes};

impl Catalogue {
    /// Takes a command that changes no version and looks at none, and is refused by no rule.
    /// Without memory nothing is changed.
    ///
    /// Takes time in the command, and in the logarithm of what is held; for a plan, in the flow's
    /// nodes times the units.
    pub fn accept(&mut self, command: Command) -> Result<Reply, NoMemory>
        requires right { is_right command ≡ true }
        requires judged { judged self.old command ≡ None }
        requires changes { changes_no_version command ≡ true }
        ensures ok { IfOk result (λ r. (self.new, response_of r) ≡ accepted self.old command) }
        ensures err { OnErr result (self.new ≡ self.old) }
    {
        match command {
            Command::Array { name, array } => self.hold_array(name, array),
            Command::Csv { name, array } => self.hold_array(name, array),
            Command::Layers { name, array } => self.hold_array(name, array),
            Command::Flow { name, flow } => self.hold_flow(name, flow),
            Command::Strategy { name, node, list } => Ok(self.set_list(name, node, list)),
            Command::Plan {
                name,
                base,
                units,
                back,
                forward,
            } => self.plan(name.as_str(), base.as_slice(), units, back, forward),
            Command::Merge { version } => self.ask_merge(version),
            _ => unreachable!(),
        }
    }

    /// Holds an array as the next version of a name.
    fn hold_array(&mut self, name: Name, array: Array) -> Result<Reply, NoMemory>
        requires right { is_right (command.Array name array) ≡ true }
        requires judged { judged self.old (command.Array name array) ≡ None }
        ensures ok { IfOk result
            (λ r. (self.new, response_of r) ≡ accepted self.old (command.Array name array)) }
        ensures err { OnErr result (self.new ≡ self.old) }
    {
        let owner = share(self.alloc, array)?;
        let version = self.hold(name.as_str(), owner)?;
        Ok(Reply::Array {
            name,
            version: version as u32,
        })
    }

    /// Holds an array as the next version of a name, and gives that version's number.
    pub(super) fn hold(&mut self, name: &str, owner: Arc<Array>) -> Result<usize, NoMemory>
        requires name { is_name name.now ≡ true }
        requires room { has_no_room_for_array self.old (arc_value owner) ≡ false }
        ensures held { OnOk result (self.new ≡ with_array self.old name.now (arc_value owner)) }
        ensures version { IfOk result
            (λ n. n ≡ length (things_named name.now self.old.arrays) + 1) }
        ensures few { IfOk result (λ n. n ≤ 4096) }
        ensures err { OnErr result (self.new ≡ self.old) }
    {
        let size = u64::from(owner.shape().size());
        let version = self.arrays.push(self.alloc, name, owner)?;
        self.cells += size;
        Ok(version)
    }

    /// Holds a flow under a name that no flow has.
    fn hold_flow(&mut self, name: Name, flow: Flow) -> Result<Reply, NoMemory>
        requires right { is_right (command.Flow name flow) ≡ true }
        requires judged { judged self.old (command.Flow name flow) ≡ None }
        ensures ok { IfOk result
            (λ r. (self.new, response_of r) ≡ accepted self.old (command.Flow name flow)) }
        ensures err { OnErr result (self.new ≡ self.old) }
    {
        let held = HeldFlow::make(self.alloc, flow)?;
        self.flows.push(self.alloc, name.as_str(), held)?;
        Ok(Reply::Flow { name })
    }

    /// Sets the list of a node of a flow.
    fn set_list(&mut self, name: Name, node: u32, list: StrategyList) -> Reply
        requires { judged self.old (command.Strategy name node list) ≡ None }
        ensures { (self.new, response_of result)
            ≡ accepted self.old (command.Strategy name node list) }
    {
        self.flows.set_list(name.as_str(), node, list);
        Reply::Strategy { name, node }
    }

    /// Notes that the merge of a version was asked.
    fn ask_merge(&mut self, number: u32) -> Result<Reply, NoMemory>
        requires judged { judged self.old (command.Merge number) ≡ None }
        ensures ok { IfOk result (λ r. (self.new, response_of r)
            ≡ accepted self.old (command.Merge number)) }
        ensures err { OnErr result (self.new ≡ self.old) }
    {
        if !self.merge_asked(number) {
            self.merges.push(number)?;
        }
        Ok(Reply::Merging { version: number })
    }

    /// What is planned for the version that a start would make.
    fn plan(
        &self,
        name: &str,
        base: &[BaseName],
        units: u32,
        back: u32,
        forward: u32,
    ) -> Result<Reply, NoMemory>
        requires judged { judged self.now (command.Plan name.now base.now units back forward)
            ≡ None }
        ensures { IfOk result (λ r. response_of r
            ≡ plan_for (version_started self.now name.now base.now) units back forward) }
    {
        let sites = self.sites_named(name, base)?;
        plan_over(self.alloc, &sites, units, back, forward)
    }

    /// The operators of the nodes of the version that a start would make.
    fn sites_named(&self, name: &str, base: &[BaseName]) -> Result<Vec<OpAt>, NoMemory>
        requires flow { has_no_flow self.now name.now ≡ false }
        requires arrays { has_no_array self.now base.now ≡ false }
        requires count { has_wrong_base self.now name.now base.now ≡ false }
        requires fits { has_broken_shapes self.now name.now base.now ≡ false }
        ensures value { IfOk result (λ sites.
            sites.items ≡ sites_of (version_started self.now name.now base.now)) }
        ensures few { IfOk result (λ sites. length sites.items ≤ 32) }
    {
        let Some(held) = self.flows.get(name) else {
            unreachable!()
        };
        let flow = held.flow();
        let shapes = self.shapes_named(self.alloc, base)?;
        match output_shapes(self.alloc, flow, &shapes)? {
            Ok(outputs) => sites_over(self.alloc, flow.nodes(), &shapes, &outputs),
            Err(_) => unreachable!(),
        }
    }

    /// Starts a version of a flow, where no rule refuses the start. Without memory nothing is
    /// changed.
    ///
    /// Takes time in the flow, in the base arrays, and in the logarithm of what is held.
    pub fn start(&mut self, name: Name, base: &[BaseName]) -> Result<Reply, NoMemory>
        requires judged { judged self.old (command.Start name base.now) ≡ None }
        ensures ok { IfOk result
            (λ r. (self.new, response_of r) ≡ accepted self.old (command.Start name base.now)) }
        ensures err { OnErr result (self.new ≡ self.old) }
    {
        let number = self.versions.next_number() as u32;
        let version = self.version_started(name, base)?;
        self.add(number, version)?;
        Ok(Reply::Started { version: number })
    }

    /// The version that a start makes.
    fn version_started(&self, name: Name, base: &[BaseName]) -> Result<HeldVersion, NoMemory>
        requires flow { is_some (flow_named self.now name) ≡ true }
        ensures started { IfOk result (λ v. v ≡ version_started self.now name base.now) }
        ensures right { OnOk result (is_well_formed (workflow_of self.now name).graph ≡ true) }
        ensures lists { OnOk result (are_lists_for (workflow_of self.now name).graph.nodes
            (workflow_of self.now name).lists ≡ true) }
    {
        let Some(held) = self.flows.get(name.as_str()) else {
            unreachable!()
        };
        let flow = another_flow(held.flow())?;
        let lists = held.lists().copy(self.alloc)?;
        let base = self.arrays_named(base)?;
        Ok(HeldVersion {
            flow_name: name,
            flow,
            base,
            lists,
            awaited: false,
        })
    }

    /// The base arrays that are held.
    fn arrays_named(&self, base: &[BaseName]) -> Result<BaseArrays, NoMemory>
        ensures { IfOk result (λ b. b ≡ bases_of self.now base.now) }
    {
        let mut arrays = Vec::with_capacity(self.alloc, base.len())?;
        for only in base {
            self.push_named(&mut arrays, only)?;
        }
        Ok(BaseArrays::of(arrays))
    }

    /// Adds a base array, where it is held.
    fn push_named(&self, arrays: &mut Vec<BaseArray>, only: &BaseName) -> Result<(), NoMemory>
        ensures { OnOk result (arrays.new.items
            ≡ arrays.old.items ++ cons_option (base_of self.now only.now) []) }
    {
        let Some(array) = self.array(only.name.as_str(), only.version) else {
            return Ok(());
        };
        let name = own_name(self.alloc, only.name.as_str())?;
        let array = another_owner(array)?;
        let version = only.version;
        arrays.push(BaseArray {
            name,
            version,
            array,
        })?;
        Ok(())
    }

    /// Notes that a version was awaited, where no rule refuses the await.
    ///
    /// Takes time in the logarithm of what is held, and no memory.
    pub fn await_version(&mut self, number: u32) -> Reply
        requires judged { judged self.old (command.Await number) ≡ None }
        ensures { (self.new, response_of result) ≡ accepted self.old (command.Await number) }
    {
        self.versions.note_await(number);
        Reply::Done { version: number }
    }

    /// Holds a version that is awaited, under a number: at least 1, and not held. The flow and the
    /// base arrays are those that are held under these names; as many as the flow takes, and their
    /// shapes fit. There is one list for each node. There is room for the outputs. Without memory
    /// nothing is changed.
    ///
    /// Takes time in the flow's sources, and in the logarithm of what is held.
    pub fn add_version(&mut self, number: u32, version: HeldVersion) -> Result<(), NoMemory>
        requires some { 1 ≤ number }
        requires new { version_numbered self.old number ≡ None }
        requires awaited { version.awaited ≡ true }
        requires flow { option_map (λ w. w.graph) (flow_named self.old version.flow_name)
            ≡ Some version.flow }
        requires base { All (λ b. array_version self.old b.name b.version ≡ Some b.array)
            version.base }
        requires count { length version.base ≡ version.flow.inputs }
        requires fits { result_err (output_shapes version.flow (shapes_of version.base)) ≡ None }
        requires lists { are_lists_for version.flow.nodes version.lists ≡ true }
        requires room { has_room self.old (output_cells version) ≡ true }
        ensures ok { OnOk result (self.new ≡ with_version self.old number version) }
        ensures err { OnErr result (self.new ≡ self.old) }
    {
        if let Some(held) = self.flows.get(version.flow_name.as_str()) {
            let _flow = held.flow();
        }
        self.add(number, version)
    }

    /// Holds a version under a number that is not held.
    pub(super) fn add(&mut self, number: u32, version: HeldVersion) -> Result<(), NoMemory>
        requires some { 1 ≤ number }
        requires new { version_numbered self.old number ≡ None }
        requires flow { option_map (λ w. w.graph) (flow_named self.old version.flow_name)
            ≡ Some version.flow }
        requires base { All (λ b. array_version self.old b.name b.version ≡ Some b.array)
            version.base }
        requires right { is_well_formed version.flow ≡ true }
        requires count { length version.base ≡ version.flow.inputs }
        requires fits { result_err (output_shapes version.flow (shapes_of version.base)) ≡ None }
        requires lists { are_lists_for version.flow.nodes version.lists ≡ true }
        requires room { has_room self.old (output_cells version) ≡ true }
        ensures ok { OnOk result (self.new ≡ with_version self.old number version) }
        ensures err { OnErr result (self.new ≡ self.old) }
    {
        let run = Run::make(self.alloc, version)?;
        let cells = cells_of(run.outputs());
        self.versions.push(number, run)?;
        self.cells += cells;
        Ok(())
    }
}

/// What is planned for operators at their shapes.
fn plan_over(
    alloc: Global,
    sites: &[OpAt],
    units: u32,
    back: u32,
    forward: u32,
) -> Result<Reply, NoMemory>
    requires few { length sites.now ≤ 32 }
    requires limit { units ≤ 65536 }
    ensures { IfOk result (λ r. response_of r ≡ plan_over sites.now units back forward) }
{
    lists_are_best_choices();
    best_choices_are_one();
    let planned = sz_planner::plan(alloc, sites, units, back, forward)?;
    Ok(Reply::Plan {
        cost: planned.cost,
        units: planned.units,
        list: planned.list,
    })
}
