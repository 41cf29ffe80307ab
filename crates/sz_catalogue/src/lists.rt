//! The lists that a held version shows. Contracts see each as the list of what it holds.
ghost use Rattle.std.specs.Prelude.{◌≡◌, ◌<◌};
ghost use Rattle.sz_catalogue.specs.Terms.{List, length, slice_set, IfOk, Strategy, Base};

use crate::memory::{another_owner, own_list, own_name};
use crate::version::BaseArray;
use std::alloc::Global;
use std::marker::Model;
use sz_cells::NoMemory;
use sz_script::StrategyList;

/// The strategies of each node of a flow, in the nodes' order.
#[derive(Drop)]
pub struct StrategyLists {
    items: Vec<StrategyList>,
}

impl Model for StrategyLists {
    ghost Value = { List (List Strategy) };

    ghost view = { λ l. l.items.items };
}

impl StrategyLists {
    /// These lists, in this order.
    pub fn of(items: Vec<StrategyList>) -> StrategyLists
        ensures { result ≡ items.items }
    {
        StrategyLists { items }
    }

    /// The lists, in their order.
    pub fn as_slice(&self) -> &[StrategyList]
        ensures { result.now ≡ self.now }
    {
        &self.items
    }

    /// Sets the list of a node.
    pub(crate) fn set(&mut self, node: u32, list: StrategyList)
        requires { node < length self.old }
        ensures { self.new ≡ slice_set self.old node list }
    {
        self.items[node as usize] = list;
    }

    /// The same lists once more. Linear in their strategies.
    pub(crate) fn copy(&self, alloc: Global) -> Result<StrategyLists, NoMemory>
        ensures { IfOk result (λ l. l ≡ self.now) }
    {
        let mut items = Vec::with_capacity(alloc, self.items.len())?;
        for list in &self.items {
            items.push(own_list(alloc, list)?)?;
        }
        Ok(StrategyLists { items })
    }
}

/// The base arrays of a version, in the order in which its flow takes them.
#[derive(Drop)]
pub struct BaseArrays {
    items: Vec<BaseArray>,
}

impl Model for BaseArrays {
    ghost Value = { List Base };

    ghost view = { λ l. l.items.items };
}

impl BaseArrays {
    /// These base arrays, in this order.
    pub fn of(items: Vec<BaseArray>) -> BaseArrays
        ensures { result ≡ items.items }
    {
        BaseArrays { items }
    }

    /// The base arrays, in their order.
    pub fn as_slice(&self) -> &[BaseArray]
        ensures { result.now ≡ self.now }
    {
        &self.items
    }

    /// Sets the base array of an input.
    pub(crate) fn set(&mut self, input: u32, base: BaseArray)
        requires { input < length self.old }
        ensures { self.new ≡ slice_set self.old input base }
    {
        self.items[input as usize] = base;
    }

    /// The same base arrays once more: their names, and one more owner of each array.
    pub(crate) fn copy(&self, alloc: Global) -> Result<BaseArrays, NoMemory>
        ensures { IfOk result (λ l. l ≡ self.now) }
    {
        let mut items = Vec::with_capacity(alloc, self.items.len())?;
        for base in &self.items {
            items.push(own_base(alloc, base)?)?;
        }
        Ok(BaseArrays { items })
    }
}

/// A base array once more.
fn own_base(alloc: Global, base: &BaseArray) -> Result<BaseArray, NoMemory>
    ensures { IfOk result (λ b. b ≡ base.now) }
{
    Ok(BaseArray {
        name: own_name(alloc, base.name.as_str())?,
        version: base.version,
        array: another_owner(&base.array)?,
    })
}
