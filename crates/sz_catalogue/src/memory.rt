//! What takes memory, and answers where there is none.
ghost use Rattle.std.specs.Prelude.{◌≡◌};
ghost use Rattle.sz_catalogue.specs.Terms.{string_bytes, IfOk, arc_value};

use std::alloc::Global;
use std::sync::Arc;
use sz_cells::NoMemory;
use sz_script::{Name, StrategyList};
use sz_spec::{Array, Flow};

/// A text of its own.
pub fn own_text(alloc: Global, text: &str) -> Result<String, NoMemory>
    ensures { IfOk result (λ s. string_bytes s ≡ text.now) }
{
    Ok(String::from_str(alloc, text)?)
}

/// A name of its own.
pub fn own_name(alloc: Global, text: &str) -> Result<Name, NoMemory>
    ensures { IfOk result (λ n. n ≡ text.now) }
{
    Ok(Name::of(own_text(alloc, text)?))
}

/// Makes an array that can have many owners.
pub fn share(alloc: Global, array: Array) -> Result<Arc<Array>, NoMemory>
    ensures { IfOk result (λ a. arc_value a ≡ array) }
{
    Ok(Arc::new(alloc, array)?)
}

/// Makes a flow that can have many owners.
pub fn share_flow(alloc: Global, flow: Flow) -> Result<Arc<Flow>, NoMemory>
    ensures { IfOk result (λ f. arc_value f ≡ flow) }
{
    Ok(Arc::new(alloc, flow)?)
}

/// One more owner of an array.
pub fn another_owner(array: &Arc<Array>) -> Result<Arc<Array>, NoMemory>
    ensures { IfOk result (λ a. arc_value a ≡ arc_value array.now) }
{
    Ok(Arc::try_clone(array)?)
}

/// One more owner of a flow.
pub fn another_flow(flow: &Arc<Flow>) -> Result<Arc<Flow>, NoMemory>
    ensures { IfOk result (λ f. arc_value f ≡ arc_value flow.now) }
{
    Ok(Arc::try_clone(flow)?)
}

/// A list of strategies of its own.
pub fn own_list(alloc: Global, list: &StrategyList) -> Result<StrategyList, NoMemory>
    ensures { IfOk result (λ l. l ≡ list.now) }
{
    Ok(StrategyList::of(Vec::from_slice(alloc, list.as_slice())?))
}
