//! What stands before the nodes in a body, and what is held under the names in it.

ghost use Rattle.std.specs.Prelude.{◌≡◌, ◌<◌, ◌≤◌, ◌+◌, ◌^◌, ◌&&◌};
ghost use Rattle.sz_bodies.specs.Terms.{true, length, map, All, Some, nat_le, option_map, IfOk};
ghost use Rattle.sz_bodies.specs.Terms.{IfErr, IfSome, IfNone, arc_value, four_bytes, counted};
ghost use Rattle.sz_bodies.specs.Terms.{IsAt, NoneAt, AreFew, flow_named, name_bytes, base_bytes};
ghost use Rattle.sz_bodies.specs.Terms.{named_base, IfBad, IsNewNumber, IsHeldName, IsHeldBase};
ghost use Rattle.sz_bodies.specs.Terms.{IsHeldHead, IsFlowOf, IsArray, AreArrays, IsBegun};
ghost use Rattle.sz_bodies.specs.Terms.{said_bytes, said_in, Begun};

use crate::parts::take_name;
use crate::reading::TakeFault;
use std::alloc::Global;
use std::marker::Model;
use std::sync::Arc;
use sz_catalogue::{BaseArray, Catalogue};
use sz_region::take_number;
use sz_script::Name;
use sz_spec::Flow;

/// What stands before the nodes: the version's number, the flow and the base arrays that are held
/// under the names there, and the number of nodes.
#[derive(Drop)]
pub(crate) struct Head {
    pub(crate) number: u32,
    pub(crate) flow_name: Name,
    pub(crate) flow: Arc<Flow>,
    pub(crate) base: Vec<BaseArray>,
    pub(crate) count: u32,
}

impl Model for Head {
    ghost Value = { Begun };

    ghost view = { λ h. record {
      number = h.number;
      flow_name = h.flow_name;
      flow = arc_value h.flow;
      base = h.base.items;
      count = h.count;
    } };
}

/// What stands before the nodes of a body, and the place behind it.
pub(crate) fn take_head(
    alloc: Global,
    catalogue: &Catalogue,
    body: &[u8],
) -> Result<(Head, u64), TakeFault>
    ensures held { IfOk result (λ r. IsBegun catalogue.now r.0) }
    ensures bytes { IfOk result (λ r. IsAt body.now 0 r.1 (said_bytes (said_in r.0))) }
    ensures err { IfErr result (λ e. IfBad e
        (NoneAt (IsHeldHead catalogue.now) said_bytes body.now 0)) }
{
    let Some(number) = take_new_number(catalogue, body) else {
        return Err(TakeFault::Bad);
    };
    let (flow_name, flow, place) = take_flow(alloc, catalogue, body, 4)?;
    let (base, place) = take_bases(alloc, catalogue, body, place)?;
    let Some(count) = take_number(body, place) else {
        return Err(TakeFault::Bad);
    };
    let head = Head {
        number,
        flow_name,
        flow,
        base,
        count,
    };
    Ok((head, place + 4))
}

/// The number in front, where it is at least 1 and not held.
fn take_new_number(catalogue: &Catalogue, body: &[u8]) -> Option<u32>
    ensures new { IfSome result (λ n. IsNewNumber catalogue.now n) }
    ensures bytes { IfSome result (λ n. IsAt body.now 0 4 (four_bytes n)) }
    ensures none { IfNone result (NoneAt (IsNewNumber catalogue.now) four_bytes body.now 0) }
{
    let number = take_number(body, 0)?;
    if number == 0 || catalogue.version(number).is_some() {
        return None;
    }
    Some(number)
}

/// The name that stands at a place, the flow that is held under it, and the place behind it.
fn take_flow(
    alloc: Global,
    catalogue: &Catalogue,
    bytes: &[u8],
    at: u64,
) -> Result<(Name, Arc<Flow>, u64), TakeFault>
    ensures flow { IfOk result (λ r. IsFlowOf catalogue.now r.0 (arc_value r.1)) }
    ensures bytes { IfOk result (λ r. IsAt bytes.now at r.2 (name_bytes r.0)) }
    ensures err { IfErr result (λ e. IfBad e
        (NoneAt (IsHeldName catalogue.now) name_bytes bytes.now at)) }
{
    let (name, next) = take_name(alloc, bytes, at)?;
    let Some(flow) = catalogue.flow(name.as_str()) else {
        return Err(TakeFault::Bad);
    };
    let flow = Arc::try_clone(flow)?;
    Ok((name, flow, next))
}

/// The base arrays that stand with their number before them at a place, each as it is held, and
/// the place behind them.
fn take_bases(
    alloc: Global,
    catalogue: &Catalogue,
    bytes: &[u8],
    at: u64,
) -> Result<(Vec<BaseArray>, u64), TakeFault>
    ensures held { IfOk result (λ r. AreArrays catalogue.now r.0.items) }
    ensures few { IfOk result (λ r. length r.0.items < 2 ^ 32) }
    ensures bytes { IfOk result (λ r. IsAt bytes.now at r.1
        (counted base_bytes (map named_base r.0.items))) }
    ensures err { IfErr result (λ e. IfBad e
        (NoneAt (AreFew (IsHeldBase catalogue.now)) (counted base_bytes) bytes.now at)) }
{
    let Some(count) = take_number(bytes, at) else {
        return Err(TakeFault::Bad);
    };
    let mut base = Vec::new(alloc);
    let mut place = at + 4;
    for _index in 0..count {
        let (only, next) = take_base(alloc, catalogue, bytes, place)?;
        base.push(only)?;
        place = next;
    }
    Ok((base, place))
}

/// The base array that stands at a place, as it is held, and the place behind it.
fn take_base(
    alloc: Global,
    catalogue: &Catalogue,
    bytes: &[u8],
    at: u64,
) -> Result<(BaseArray, u64), TakeFault>
    ensures held { IfOk result (λ r. IsArray catalogue.now r.0) }
    ensures bytes { IfOk result (λ r. IsAt bytes.now at r.1 (base_bytes (named_base r.0))) }
    ensures err { IfErr result (λ e. IfBad e
        (NoneAt (IsHeldBase catalogue.now) base_bytes bytes.now at)) }
{
    let (name, place) = take_name(alloc, bytes, at)?;
    let Some(version) = take_number(bytes, place) else {
        return Err(TakeFault::Bad);
    };
    let Some(array) = catalogue.array(name.as_str(), version) else {
        return Err(TakeFault::Bad);
    };
    let array = Arc::try_clone(array)?;
    let only = BaseArray {
        name,
        version,
        array,
    };
    Ok((only, place + 4))
}
