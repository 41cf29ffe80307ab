//! What a session holds. Contracts see a catalogue as its `Holdings`.
mod accepting;
mod judging;
mod refreshing;

ghost use Rattle.std.specs.Prelude.{◌≡◌, ◌≤◌, if◌then◌else◌};
ghost use Rattle.sz_catalogue.specs.Terms.{ℕ, true, length, map, option_map, Some, None, All, IfOk};
ghost use Rattle.sz_catalogue.specs.Terms.{IfSome, OnOk, OnErr, false, arc_value, option_copied};
ghost use Rattle.sz_catalogue.specs.Terms.{result_err, is_well_formed, output_shapes, is_right};
ghost use Rattle.sz_catalogue.specs.Terms.{no_holdings, array_version, flow_named, next_number};
ghost use Rattle.sz_catalogue.specs.Terms.{version_numbered, shapes_of, cells_of, output_cells};
ghost use Rattle.sz_catalogue.specs.Terms.{bases_of, IsInOrder, accepted, with_version, IsRun};
ghost use Rattle.sz_catalogue.specs.Terms.{is_merge_asked, response_of, Judges, Holdings, IsKept};
ghost use Rattle.sz_script.specs.declared.command.Command.TheVariants as command;
ghost use Rattle.sz_script.specs.declared.refusal.Refusal.TheVariants as rule;
ghost use Rattle.sz_catalogue.specs.Rules as rules;

use crate::arrays::HeldArrays;
use crate::flows::{HeldFlow, HeldFlows};
use crate::lists::{BaseArrays, StrategyLists};
use crate::memory::{another_flow, another_owner, own_name};
use crate::paths::is_joined;
use crate::reply::Reply;
use crate::shapes::cells_of;
use crate::strategies::{is_list_of, names_a_store};
use crate::version::{BaseArray, HeldVersion, Run};
use crate::versions::HeldVersions;
use std::alloc::Global;
use std::marker::Model;
use std::sync::Arc;
use sz_cells::{NoMemory, Shape};
use sz_script::{BaseName, Command, LineFault, Name, NamedCell, PathStep, Refusal, StrategyList};
use sz_spec::{Array, Dir, Flow, Strategy, output_shapes};

/// Everything held: arrays and flows by name, and versions by number.
#[derive(Drop)]
pub struct Catalogue {
    arrays: HeldArrays,
    flows: HeldFlows,
    versions: HeldVersions,
    merges: Vec<u32>,
    cells: u64,
    alloc: Global,
}

impl Model for Catalogue {
    ghost Value = { Holdings };

    ghost view = { λ c. record {
      arrays = c.arrays;
      flows = c.flows;
      versions = c.versions;
      merges = c.merges.items;
    } };

    ghost invariant = { λ c. IsKept c.cells (record {
      arrays = c.arrays;
      flows = c.flows;
      versions = c.versions;
      merges = c.merges.items;
    }) };
}

/// The most arrays that are held.
const MOST_ARRAYS: usize = 4_096;

/// The most flows that are held.
const MOST_FLOWS: usize = 1_024;

/// The most versions that are held.
const MOST_VERSIONS: usize = 4_096;

/// The most cells that the arrays and the versions' outputs have together.
const MOST_CELLS: u64 = 4_194_304;

/// The most units that a plan may have.
const MOST_UNITS: u32 = 65_536;

/// The greatest number of a version.
const GREATEST_NUMBER: u64 = 4_294_967_295;

impl Catalogue {
    /// The catalogue that holds nothing. Takes no memory.
    pub fn new(alloc: Global) -> Catalogue
        ensures { result ≡ no_holdings }
    {
        Catalogue {
            arrays: HeldArrays::new(alloc),
            flows: HeldFlows::new(alloc),
            versions: HeldVersions::new(alloc),
            merges: Vec::new(alloc),
            cells: 0,
            alloc,
        }
    }

    /// The flow of a name. Logarithmic in the names, and takes no memory.
    pub fn flow(&self, name: &str) -> Option<&Arc<Flow>>
        ensures { option_map (λ f. arc_value f.now) result
            ≡ option_map (λ w. w.graph) (flow_named self.now name.now) }
    {
        match self.flows.get(name) {
            Some(held) => Some(held.flow()),
            None => None,
        }
    }

    /// The strategies that the nodes of a name's flow have now, one list a node. Logarithmic in the
    /// names, and takes no memory.
    pub fn lists(&self, name: &str) -> Option<&StrategyLists>
        ensures { option_copied result
            ≡ option_map (λ w. w.lists) (flow_named self.now name.now) }
    {
        match self.flows.get(name) {
            Some(held) => Some(held.lists()),
            None => None,
        }
    }

    /// The array of a name and a version, from 1. Logarithmic in the names, and takes no memory.
    pub fn array(&self, name: &str, version: u32) -> Option<&Arc<Array>>
        ensures { option_map (λ a. arc_value a.now) result
            ≡ array_version self.now name.now version }
    {
        self.arrays.get(name, version)
    }

    /// The version of a number. Logarithmic in the versions, and takes no memory.
    pub fn version(&self, number: u32) -> Option<&HeldVersion>
        ensures { option_copied result ≡ version_numbered self.now number }
    {
        match self.versions.get(number) {
            Some(run) => Some(run.version()),
            None => None,
        }
    }

    /// Whether the merge of a version was asked. A look at each version whose merge was, and takes
    /// no memory.
    pub fn merge_asked(&self, version: u32) -> bool
        ensures { result ≡ is_merge_asked self.now version }
    {
        self.merges.iter().any(|number| *number == version)
    }

    /// The shapes of the outputs of a version that is held. Its flow is well formed, it has as many
    /// base arrays as the flow takes, whose shapes fit, and a list of strategies for each node.
    /// Logarithmic in the versions, and takes no memory.
    pub fn outputs(&self, number: u32) -> &[Shape]
        requires held { rules.has_no_version self.now number ≡ false }
        ensures run { IsRun (rules.version_of self.now number) result.now }
        ensures few { length result.now ≤ 32 }
    {
        let Some(run) = self.versions.get(number) else {
            unreachable!()
        };
        run.outputs()
    }

    /// The number of the version that is started next. Logarithmic in the versions, and takes no
    /// memory.
    pub fn next_number(&self) -> u64
        ensures { result ≡ next_number self.now }
    {
        self.versions.next_number()
    }

    /// What holds of all that is held: no limit is passed, each name is one, each flow is well
    /// formed and has a list of strategies for each node, and each version is a run of the flow and
    /// on the base arrays that are held under its names, with a number of 32 bits from 1. Costs
    /// nothing.
    pub fn is_in_order(&self)
        ensures { IsInOrder self.now }
    {
        // What is kept true is known where a field is read.
        let _cells = self.cells;
    }

    /// What holds of a flow that is held: it is well formed. Costs nothing.
    pub fn flow_is_right(&self, name: &str)
        ensures { IfSome (flow_named self.now name.now) (λ w. is_well_formed w.graph ≡ true) }
    {
        self.is_in_order();
    }

    /// Whether a further version is held whose outputs have so many cells. Takes no memory.
    pub fn has_room(&self, cells: u64) -> bool
        ensures { result ≡ rules.has_room self.now cells }
    {
        self.versions.len() < MOST_VERSIONS && cells <= MOST_CELLS - self.cells
    }
}
