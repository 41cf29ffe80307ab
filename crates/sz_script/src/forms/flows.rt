//! The forms that speak of a flow by its name: hold one, set the strategies of its nodes, and start
//! or plan it on base arrays.

ghost use Rattle.std.specs.Prelude.{◌≡◌, ◌∷◌};
ghost use Rattle.sz_script.specs.Terms.{map, IfOk, list_all, view, is_name, strategy_in};
ghost use Rattle.sz_script.specs.Terms.{reading_of_draft, reading_of_form, flow_form};
ghost use Rattle.sz_script.specs.Terms.{strategy_form, start_form, base_in, with_base, plan_form};
ghost use Rattle.sz_script.specs.Terms.{within_units, Reads};

use crate::command::{BAD_NAME, BaseName, Command, LineFault, NO_FORM};
use crate::each::{Listed, each_at};
use crate::lists::{BaseList, StrategyList};
use crate::name::{Name, is_name};
use crate::refusal::Refusal;
use crate::{fields, words};
use serde_json::Value;
use std::alloc::{AllocError, Global};
use sz_spec::{Flow, Strategy};

/// {"flow":NAME,"inputs":U,"nodes":[NODE,..]}: hold a flow under a name.
pub fn flow(alloc: Global, value: &Value) -> Result<Command, LineFault>
    ensures { Reads (reading_of_form (flow_form.draft (view value.now))) result }
{
    let name = fields::text_at(value, "flow").ok_or(NO_FORM)?;
    let inputs = fields::number_at(value, "inputs").ok_or(NO_FORM)?;
    let nodes = each_at(alloc, value, "nodes")?.ok_or(NO_FORM)?;
    if !is_name(name) {
        return Err(BAD_NAME);
    }
    let flow = Flow::make(inputs, nodes);
    match flow.check() {
        Ok(()) => {
            let name = Name::of(String::from_str(alloc, name)?);
            Ok(Command::Flow { name, flow })
        }
        Err(fault) => Err(LineFault::Refused(Refusal::BadFlow(fault))),
    }
}

/// {"strategy":NAME,"node":U,"list":[S,..]}: set the strategies of a node.
pub fn strategy(alloc: Global, value: &Value) -> Result<Command, LineFault>
    ensures { Reads (reading_of_form (strategy_form.draft (view value.now))) result }
{
    let name = fields::text_at(value, "strategy").ok_or(NO_FORM)?;
    let node = fields::number_at(value, "node").ok_or(NO_FORM)?;
    let list = StrategyList::of(each_at(alloc, value, "list")?.ok_or(NO_FORM)?);
    if !is_name(name) {
        return Err(BAD_NAME);
    }
    let name = Name::of(String::from_str(alloc, name)?);
    Ok(Command::Strategy { name, node, list })
}

impl Listed for Strategy {
    ghost said = { strategy_in };

    /// A strategy by its word.
    fn of_item(_alloc: Global, value: &Value) -> Result<Option<Strategy>, AllocError> {
        match value.as_str() {
            Some(word) => Ok(words::strategy_named(word)),
            None => Ok(None),
        }
    }
}

/// {"start":NAME,"base":[[NAME,U],..]}: start a version of a flow on base arrays.
pub fn start(alloc: Global, value: &Value) -> Result<Command, LineFault>
    ensures { Reads (reading_of_form (start_form.draft (view value.now))) result }
{
    let name = fields::text_at(value, "start").ok_or(NO_FORM)?;
    let base = each_at(alloc, value, "base")?.ok_or(NO_FORM)?;
    start_on(alloc, name, base)
}

/// The start of a flow on base arrays, where each of the names is one.
fn start_on(alloc: Global, name: &str, base: Vec<BaseName>) -> Result<Command, LineFault>
    ensures { Reads (reading_of_draft (with_base name.now base.items)) result }
{
    if !are_names(name, &base) {
        return Err(BAD_NAME);
    }
    let name = Name::of(String::from_str(alloc, name)?);
    let base = BaseList::of(base);
    Ok(Command::Start { name, base })
}

/// Whether each of the names is one: this, and those of base arrays.
#[tactic(auto, using(crate::proofs::Walks::all_names))]
fn are_names(name: &str, base: &[BaseName]) -> bool
    ensures { result ≡ list_all is_name (name.now ∷ map (λ b. b.name) base.now) }
{
    is_name(name) && are_named(base)
}

/// Whether the name of each base array is one.
fn are_named(base: &[BaseName]) -> bool
    ensures { result ≡ list_all (λ b. is_name b.name) base.now }
{
    base.iter().all(|b| is_name(b.name.as_str()))
}

impl Listed for BaseName {
    ghost said = { base_in };

    /// [NAME,U]
    fn of_item(alloc: Global, value: &Value) -> Result<Option<BaseName>, AllocError> {
        let Some((name, version)) = fields::two_of(value) else {
            return Ok(None);
        };
        let Some(name) = name.as_str() else {
            return Ok(None);
        };
        let Some(version) = fields::number_of(version) else {
            return Ok(None);
        };
        let name = Name::of(String::from_str(alloc, name)?);
        Ok(Some(BaseName { name, version }))
    }
}

/// {"plan":NAME,"base":[[NAME,U],..],"units":U,"back":U,"forward":U}: plan the strategies of a
/// flow's nodes on base arrays, for so many units and so many asks in each direction.
pub fn plan(alloc: Global, value: &Value) -> Result<Command, LineFault>
    ensures { Reads (reading_of_form (plan_form.draft (view value.now))) result }
{
    let name = fields::text_at(value, "plan").ok_or(NO_FORM)?;
    let base = each_at(alloc, value, "base")?.ok_or(NO_FORM)?;
    let units = fields::number_at(value, "units").ok_or(NO_FORM)?;
    let back = fields::number_at(value, "back").ok_or(NO_FORM)?;
    let forward = fields::number_at(value, "forward").ok_or(NO_FORM)?;
    plan_on(alloc, name, base, units, back, forward)
}

/// The plan of a flow on base arrays, where each of the names is one.
fn plan_on(
    alloc: Global,
    name: &str,
    base: Vec<BaseName>,
    units: u32,
    back: u32,
    forward: u32,
) -> Result<Command, LineFault>
    ensures { Reads
        (reading_of_draft (within_units name.now base.items units back forward)) result }
{
    if !are_names(name, &base) {
        return Err(BAD_NAME);
    }
    let name = Name::of(String::from_str(alloc, name)?);
    let base = BaseList::of(base);
    Ok(Command::Plan {
        name,
        base,
        units,
        back,
        forward,
    })
}
