//! Which commands are refused: the rules of each, in their order.
ghost use Rattle.std.specs.Prelude.{◌≡◌, ◌≤◌, ◌∷◌, if◌then◌else◌};
ghost use Rattle.sz_catalogue.specs.Terms.{ℕ, true, length, List, [], Ok, IfOk, Some, None};
ghost use Rattle.sz_catalogue.specs.Terms.{list_all, Graph, is_well_formed, output_shapes};
ghost use Rattle.sz_catalogue.specs.Terms.{shapes_of, bases_of, judged, first_of, has_no_array};
ghost use Rattle.sz_catalogue.specs.Terms.{has_named_cell, is_not_awaited, has_too_many_units};
ghost use Rattle.sz_catalogue.specs.Terms.{version_of, has_no_room_to_set, has_no_room_to_refresh};
ghost use Rattle.sz_catalogue.specs.Terms.{names_an_input, base_at, has_new_cell, refusal_by};
ghost use Rattle.sz_catalogue.specs.Terms.{is_of_room, is_open, refusal_on_version, Judges};
ghost use Rattle.sz_catalogue.specs.Terms.{is_right};
ghost use Rattle.sz_script.specs.declared.command.Command.TheVariants as command;
ghost use Rattle.sz_script.specs.declared.refusal.Refusal.TheVariants as rule;

use super::{
    Catalogue, GREATEST_NUMBER, MOST_ARRAYS, MOST_CELLS, MOST_FLOWS, MOST_UNITS, MOST_VERSIONS,
};
use crate::paths::is_joined;
use crate::shapes::cells_of;
use crate::strategies::is_list_of;
use crate::version::Run;
use std::alloc::Global;
use sz_cells::{NoMemory, Shape};
use sz_script::{BaseName, Command, LineFault, NamedCell, NewCell, PathStep, Refusal};
use sz_spec::{Array, Dir, Flow, Strategy, output_shapes};

impl Catalogue {
    /// Whether a rule refuses a command, and which is the first that does. The command is one that
    /// a line can be: its names are names, and its flow is well formed.
    ///
    /// Takes time in the command, in the flow's sources for a start, and in the logarithm of what
    /// is held.
    pub fn judge(&self, alloc: Global, command: &Command) -> Result<(), LineFault>
        requires { is_right command.now ≡ true }
        ensures { Judges (judged self.now command.now) result }
    {
        match self.refusal_of(alloc, command) {
            Ok(None) => Ok(()),
            Ok(Some(refusal)) => Err(LineFault::Refused(refusal)),
            Err(_) => Err(LineFault::NoMemory),
        }
    }

    /// The first rule that refuses a command.
    fn refusal_of(&self, alloc: Global, command: &Command) -> Result<Option<Refusal>, NoMemory>
        ensures { IfOk result (λ r. r ≡ judged self.now command.now) }
    {
        match command {
            Command::Array { name: _, array } => Ok(self.refusal_of_array(array)),
            Command::Csv { name: _, array } => Ok(self.refusal_of_array(array)),
            Command::Layers { name: _, array } => Ok(self.refusal_of_array(array)),
            Command::Flow { name, flow: _ } => Ok(self.refusal_of_flow(name.as_str())),
            Command::Strategy { name, node, list } => {
                Ok(self.refusal_of_strategies(name.as_str(), *node, list.as_slice()))
            }
            Command::Start { name, base } => {
                self.refusal_of_start(alloc, name.as_str(), base.as_slice())
            }
            Command::Plan {
                name,
                base,
                units,
                back: _,
                forward: _,
            } => self.refusal_of_plan(alloc, name.as_str(), base.as_slice(), *units),
            Command::Refresh {
                version,
                input,
                set,
            } => Ok(self.refusal_of_refresh(*version, *input, set.as_slice())),
            Command::Merge { version } => Ok(self.refusal_of_merge(*version)),
            Command::Merged { version } => Ok(self.refusal_of_merged(*version)),
            Command::Await { version } => Ok(self.refusal_of_await(*version)),
            Command::Ask {
                version,
                dir,
                path,
                cells,
            } => Ok(self.refusal_of_ask(*version, *dir, path.as_slice(), cells.as_slice())),
            Command::Explain {
                version,
                dir,
                path,
                cells,
            } => Ok(self.refusal_of_explain(*version, *dir, path.as_slice(), cells.as_slice())),
            Command::Show { version, node } => Ok(self.refusal_of_show(*version, *node)),
        }
    }

    /// The rule that refuses an array.
    fn refusal_of_array(&self, array: &Array) -> Option<Refusal>
        ensures one { (name : List ℕ) → result ≡ judged self.now (command.Array name array.now) }
        ensures csv { (name : List ℕ) → result ≡ judged self.now (command.Csv name array.now) }
        ensures layers { (name : List ℕ)
            → result ≡ judged self.now (command.Layers name array.now) }
    {
        let size = u64::from(array.shape().size());
        if self.arrays.len() >= MOST_ARRAYS || self.cells + size > MOST_CELLS {
            Some(Refusal::NoRoomForArray)
        } else {
            None
        }
    }

    /// The rule that refuses a flow under a name.
    fn refusal_of_flow(&self, name: &str) -> Option<Refusal>
        ensures { (flow : Graph) → result ≡ judged self.now (command.Flow name.now flow) }
    {
        if self.flows.len() >= MOST_FLOWS || self.flows.get(name).is_some() {
            Some(Refusal::NoRoomForFlow)
        } else {
            None
        }
    }

    /// The rule that refuses strategies of a node.
    fn refusal_of_strategies(&self, name: &str, node: u32, list: &[Strategy]) -> Option<Refusal>
        ensures { result ≡ judged self.now (command.Strategy name.now node list.now) }
    {
        let Some(held) = self.flows.get(name) else {
            return Some(Refusal::NoSuchFlow);
        };
        if !is_list_of(held.flow().nodes(), node, list) {
            return Some(Refusal::BadStrategies);
        }
        None
    }

    /// The rule that refuses a start.
    fn refusal_of_start(
        &self,
        alloc: Global,
        name: &str,
        base: &[BaseName],
    ) -> Result<Option<Refusal>, NoMemory>
        ensures { IfOk result (λ r. r ≡ judged self.now (command.Start name.now base.now)) }
    {
        let Some(held) = self.flows.get(name) else {
            return Ok(Some(Refusal::NoSuchFlow));
        };
        if self.has_no_array(base) {
            return Ok(Some(Refusal::NoSuchArray));
        }
        let flow = held.flow();
        if base.len() != flow.inputs() as usize {
            return Ok(Some(Refusal::WrongBase));
        }
        let shapes = self.shapes_named(alloc, base)?;
        self.refusal_of_shapes(alloc, flow, &shapes)
    }

    /// The rule that refuses a version of a flow over base arrays of these shapes.
    fn refusal_of_shapes(
        &self,
        alloc: Global,
        flow: &Flow,
        base: &[Shape],
    ) -> Result<Option<Refusal>, NoMemory>
        requires right { is_well_formed flow.now ≡ true }
        requires count { length base.now ≡ flow.now.inputs }
        ensures { IfOk result
            (λ r. r ≡ refusal_by self.now (output_shapes flow.now base.now)) }
    {
        match output_shapes(alloc, flow, base)? {
            Err(node) => Ok(Some(Refusal::ShapesDoNotFit { node })),
            Ok(outputs) => Ok(self.refusal_of_outputs(&outputs)),
        }
    }

    /// Whether a base array is not held.
    fn has_no_array(&self, base: &[BaseName]) -> bool
        ensures { result ≡ has_no_array self.now base.now }
    {
        base.iter().any(|only| self.array(only.name.as_str(), only.version).is_none())
    }

    /// The shapes of the base arrays that are held.
    pub(super) fn shapes_named(
        &self,
        alloc: Global,
        base: &[BaseName],
    ) -> Result<Vec<Shape>, NoMemory>
        ensures { IfOk result (λ v. v.items ≡ shapes_of (bases_of self.now base.now)) }
    {
        let mut shapes = Vec::with_capacity(alloc, base.len())?;
        for only in base {
            match self.array(only.name.as_str(), only.version) {
                Some(array) => shapes.push(array.shape())?,
                None => {}
            }
        }
        Ok(shapes)
    }

    /// The rule that refuses a version whose outputs have these shapes.
    fn refusal_of_outputs(&self, outputs: &[Shape]) -> Option<Refusal>
        requires { length outputs.now ≤ 1024 }
        ensures { result ≡ refusal_by self.now (Ok outputs.now) }
    {
        let next = self.versions.next_number();
        if !self.has_room(cells_of(outputs)) || next > GREATEST_NUMBER {
            Some(Refusal::NoRoomForVersion)
        } else {
            None
        }
    }

    /// The rule that refuses a plan: what refuses a start, but want of room, and then its own.
    fn refusal_of_plan(
        &self,
        alloc: Global,
        name: &str,
        base: &[BaseName],
        units: u32,
    ) -> Result<Option<Refusal>, NoMemory>
        ensures { (back forward : ℕ) → IfOk result
            (λ r. r ≡ judged self.now (command.Plan name.now base.now units back forward)) }
    {
        let refusal = self.refusal_of_start(alloc, name, base)?;
        if is_open(refusal) {
            return Ok(refusal_of_units(units));
        }
        Ok(refusal)
    }

    /// The rule that refuses a refresh.
    fn refusal_of_refresh(&self, number: u32, input: u32, set: &[NewCell]) -> Option<Refusal>
        ensures { result ≡ judged self.now (command.Refresh number input set.now) }
    {
        if self.has_no_room_to_set(number, input) {
            return Some(Refusal::NoRoomForArray);
        }
        if self.has_no_room_to_refresh(number, input) {
            return Some(Refusal::NoRoomForVersion);
        }
        let Some(run) = self.versions.get(number) else {
            return Some(Refusal::NoSuchVersion);
        };
        refusal_on_run(run, input, set)
    }

    /// Whether no further array is held in the place of an input of a version: as many are as may
    /// be, or with it there would be too many cells.
    fn has_no_room_to_set(&self, number: u32, input: u32) -> bool
        ensures { result ≡ has_no_room_to_set self.now number input }
    {
        if self.arrays.len() >= MOST_ARRAYS {
            return true;
        }
        match self.input_of(number, input) {
            Some(shape) => self.cells + u64::from(shape.size()) > MOST_CELLS,
            None => false,
        }
    }

    /// Whether no further version is held that is one with such an array: as many are as may be,
    /// its number would be too great, or with both there would be too many cells.
    fn has_no_room_to_refresh(&self, number: u32, input: u32) -> bool
        ensures { result ≡ has_no_room_to_refresh self.now number input }
    {
        if self.versions.len() >= MOST_VERSIONS || self.next_number() > GREATEST_NUMBER {
            return true;
        }
        match self.input_of(number, input) {
            Some(shape) => {
                let outputs = cells_of(self.outputs(number));
                self.cells + u64::from(shape.size()) + outputs > MOST_CELLS
            }
            None => false,
        }
    }

    /// The shape of the base array of an input, where the version is held and has that input.
    fn input_of(&self, number: u32, input: u32) -> Option<Shape>
        ensures { result ≡ (if names_an_input self.now number input
            then Some (base_at (version_of self.now number) input).array.extent else None) }
    {
        let run = self.versions.get(number)?;
        let base = run.version().base.as_slice().get(input as usize)?;
        Some(base.array.shape())
    }

    /// The rule that refuses a merge.
    fn refusal_of_merge(&self, number: u32) -> Option<Refusal>
        ensures { result ≡ judged self.now (command.Merge number) }
    {
        match self.version(number) {
            None => Some(Refusal::NoSuchVersion),
            Some(version) if version.awaited => None,
            Some(_) => Some(Refusal::StillBuilt),
        }
    }

    /// The rule that refuses to tell what a merge gave.
    fn refusal_of_merged(&self, number: u32) -> Option<Refusal>
        ensures { result ≡ judged self.now (command.Merged number) }
    {
        match self.versions.get(number) {
            None => Some(Refusal::NoSuchVersion),
            Some(_) if self.merge_asked(number) => None,
            Some(_) => Some(Refusal::NotMerged),
        }
    }

    /// The rule that refuses an await.
    fn refusal_of_await(&self, number: u32) -> Option<Refusal>
        ensures { result ≡ judged self.now (command.Await number) }
    {
        match self.versions.get(number) {
            Some(_) => None,
            None => Some(Refusal::NoSuchVersion),
        }
    }

    /// The rule that refuses an ask.
    fn refusal_of_ask(
        &self,
        number: u32,
        dir: Dir,
        path: &[PathStep],
        cells: &[NamedCell],
    ) -> Option<Refusal>
        ensures { result ≡ judged self.now (command.Ask number dir path.now cells.now) }
    {
        let Some(run) = self.versions.get(number) else {
            return Some(Refusal::NoSuchVersion);
        };
        if !is_joined(dir, run.flow(), path) {
            return Some(Refusal::NotJoined);
        }
        if !holds_each(run.step_start(dir, path[0]), cells) {
            return Some(Refusal::OutOfRange);
        }
        None
    }

    /// The rule that refuses an explain.
    fn refusal_of_explain(
        &self,
        number: u32,
        dir: Dir,
        path: &[PathStep],
        cells: &[NamedCell],
    ) -> Option<Refusal>
        ensures { result ≡ judged self.now (command.Explain number dir path.now cells.now) }
    {
        match self.refusal_of_ask(number, dir, path, cells) {
            Some(refusal) => Some(refusal),
            None => self.refusal_of_not_awaited(number),
        }
    }

    /// The rule that refuses to explain a version that is not awaited.
    fn refusal_of_not_awaited(&self, number: u32) -> Option<Refusal>
        ensures { result ≡ first_of ((is_not_awaited self.now number, rule.NotAwaited) ∷ []) }
    {
        match self.version(number) {
            Some(version) if version.awaited => None,
            _ => Some(Refusal::NotAwaited),
        }
    }

    /// The rule that refuses a show.
    fn refusal_of_show(&self, number: u32, node: u32) -> Option<Refusal>
        ensures { result ≡ judged self.now (command.Show number node) }
    {
        let Some(run) = self.versions.get(number) else {
            return Some(Refusal::NoSuchVersion);
        };
        if node as usize >= run.flow().nodes().len() {
            return Some(Refusal::NoSuchNode);
        }
        None
    }
}

/// The rule that refuses to set cells of an input of a version that is held.
fn refusal_on_run(run: &Run, input: u32, set: &[NewCell]) -> Option<Refusal>
    ensures { result ≡ refusal_on_version run.now input set.now }
{
    let version = run.version();
    let base = version.base.as_slice();
    let only = base.get(input as usize);
    if let Some(only) = only
        && !sets_each(only.array.shape(), set)
    {
        return Some(Refusal::OutOfRange);
    }
    if !version.awaited {
        return Some(Refusal::StillBuilt);
    }
    if only.is_none() {
        return Some(Refusal::NoSuchInput);
    }
    None
}

/// Whether a shape has each of some cells that are set.
fn sets_each(shape: Shape, set: &[NewCell]) -> bool
    ensures { result ≡ list_all (has_new_cell shape) set.now }
{
    set.iter().all(|cell| shape.cell_in(cell.layer, cell.row, cell.col).is_some())
}

/// Whether nothing refuses a start, but want of room.
fn is_open(refusal: Option<Refusal>) -> bool
    ensures { result ≡ is_open refusal }
{
    match refusal {
        Some(refusal) => is_of_room(refusal),
        None => true,
    }
}

/// Whether a rule is that of room for a version.
fn is_of_room(refusal: Refusal) -> bool
    ensures { result ≡ is_of_room refusal }
{
    match refusal {
        Refusal::NoRoomForVersion => true,
        _ => false,
    }
}

/// The rule that refuses so many units.
fn refusal_of_units(units: u32) -> Option<Refusal>
    ensures { result ≡ first_of ((has_too_many_units units, rule.TooManyUnits) ∷ []) }
{
    if units > MOST_UNITS {
        Some(Refusal::TooManyUnits)
    } else {
        None
    }
}

/// Whether a shape has each of some cells.
fn holds_each(shape: Shape, cells: &[NamedCell]) -> bool
    ensures { result ≡ list_all (has_named_cell shape) cells.now }
{
    cells.iter().all(|cell| shape.cell_in(cell.layer, cell.row, cell.col).is_some())
}
