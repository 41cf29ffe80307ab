//! Merging: the output cells of one lineage become one region pair.
//!
//! A store of full lineage has a region pair for each group of cells that were placed together, so
//! cells with the same cells behind them may stand in many pairs. [`merge`] makes of each such
//! store one that stands for the same, with one region pair for each kind of lineage: no two have
//! the same input sets, no output cell is in two, none is empty. Stores of payloads stay.
//!
//! ```
//! let merged = merge(alloc, rt, &at, &[Strategy::FullManyB], &store)?;
//! // merged.kinds[0] is how many kinds of lineage the store has, and merged.store stands for the
//! // same as the store
//! ```
//!
//! Beside asks, stores are merged on their shelf: [`merge_tasks`] makes a channel of tasks,
//! [`hand_merge`] sends one, and [`employ_merger`] starts a thread that attends to them. A task
//! that is not sent and a thread that is not started are no error, since a shelf that is not merged
//! answers the same. That a task arrives and that a thread runs is only tested.
//!
//! ```text
//! let (to, from) = merge_tasks(alloc)?;
//! let worker = employ_merger(alloc, rt, &gate, &from)?;
//! hand_merge(rt, &to, task);
//! drop(to);
//! worker.join(rt);   // each task that was sent was attended to
//! ```
#![tactic(auto)]

ghost use Rattle.std.specs.Prelude.{◌≡◌};
ghost use Rattle.sz_merge.specs.Terms.{ℕ, List, [], true, length, All, IfOk, OnOk, arc_value};
ghost use Rattle.sz_merge.specs.Terms.{supports, is_whole, stored_in, BeginEach, AreMerged};
ghost use Rattle.sz_merge.specs.Terms.{AreRead};

mod apart;
mod gate;
mod grouping;
mod hiring;
mod joining;
mod kinds;
pub mod laws;
mod lineages;
mod marking;
mod parts;
mod tabled;
mod task;

pub use crate::gate::{MergeGate, NoMergeGate};
pub use crate::hiring::{
    Receiver, Sender, employ_merger, hand_merge, merge_tasks, one_more_merger,
};
use crate::parts::{merge_part, within_limits};
pub use crate::task::{MergeTask, attend_merges};
use std::alloc::Global;
use std::sync::Arc;
use std::thread::Threads;
use sz_cells::NoMemory;
use sz_spec::{OpAt, Strategy};
use sz_store::NodeStore;

/// Merged stores, their bytes, and for each that has region pairs how many, in the order of the
/// stores.
#[derive(Drop)]
pub struct Merged {
    pub store: NodeStore,
    pub bytes: Vec<u8>,
    pub kinds: Vec<u32>,
}

/// Merges the whole stores of an operator and a list: each that has region pairs gets one for each
/// kind of lineage, and stands for the same; those of entries stay.
///
/// Costs a look at each cell of the region pairs' output sets and at the runs of their input sets,
/// the writing of the merged stores and the reading of these. A store that is given is written only
/// where it stays as it is, and is read again only where the sets of its region pairs are joined:
/// where there is not one input, a set of it has no cell, or a cell is in two region pairs.
pub fn merge<R: Threads + Sync>(
    alloc: Global,
    rt: &R,
    at: &Arc<OpAt>,
    list: &[Strategy],
    store: &NodeStore,
) -> Result<Merged, NoMemory>
    requires site { store.now.site ≡ arc_value at.now }
    requires list { store.now.list ≡ list.now }
    requires whole { is_whole store.now ≡ true }
    requires supported { All (λ t. supports (arc_value at.now).op t ≡ true) list.now }
    ensures { IfOk result (λ m. AreMerged (arc_value at.now) list.now store.now.stores m.store
        m.bytes.items m.kinds.items) }
{
    within_limits(at);
    let mut bytes = Vec::new(alloc);
    let mut kinds = Vec::new(alloc);
    put_merged(alloc, store, &mut bytes, &mut kinds)?;
    let store = read_merged(alloc, rt, at, list, &bytes)?;
    Ok(Merged {
        store,
        bytes,
        kinds,
    })
}

/// The stores that these bytes spell.
fn read_merged<R: Threads + Sync>(
    alloc: Global,
    rt: &R,
    at: &Arc<OpAt>,
    list: &[Strategy],
    bytes: &[u8],
) -> Result<NodeStore, NoMemory>
    requires { All (λ t. supports (arc_value at.now).op t ≡ true) list.now }
    ensures ok { IfOk result (λ s. (next : ℕ)
        × BeginEach (arc_value at.now) (stored_in list.now) bytes.now 0 next s.stores) }
    ensures site { IfOk result (λ s. s.site ≡ arc_value at.now) }
    ensures list { IfOk result (λ s. s.list ≡ list.now) }
    ensures whole { IfOk result (λ s. is_whole s ≡ true) }
{
    let own = Arc::try_clone(at)?;
    match NodeStore::take_bytes(rt, alloc, own, list, bytes, 0) {
        Ok((store, _)) => Ok(store),
        Err(_) => Err(NoMemory),
    }
}

/// Merged stores to share: those that are given where merging changes nothing.
pub(crate) fn merge_shared<R: Threads + Sync>(
    alloc: Global,
    rt: &R,
    at: &Arc<OpAt>,
    list: &[Strategy],
    store: &Arc<NodeStore>,
) -> Result<Arc<NodeStore>, NoMemory>
    requires site { (arc_value store.now).site ≡ arc_value at.now }
    requires list { (arc_value store.now).list ≡ list.now }
    requires whole { is_whole (arc_value store.now) ≡ true }
    requires supported { All (λ t. supports (arc_value at.now).op t ≡ true) list.now }
    ensures { IfOk result (λ a. (bytes : List ℕ) × (kinds : List ℕ)
        × AreMerged (arc_value at.now) list.now (arc_value store.now).stores (arc_value a) bytes
        kinds) }
{
    within_limits(at);
    let mut bytes = Vec::new(alloc);
    let mut kinds = Vec::new(alloc);
    let same = put_merged(alloc, store, &mut bytes, &mut kinds)?;
    if same {
        let own = Arc::try_clone(store)?;
        return Ok(own);
    }
    let store = read_merged(alloc, rt, at, list, &bytes)?;
    let merged = Arc::new(alloc, store)?;
    Ok(merged)
}

/// Puts the words of the stores as they are once they are merged, and their numbers of kinds.
/// Whether each store is put as it is.
fn put_merged(
    alloc: Global,
    store: &NodeStore,
    to: &mut Vec<u8>,
    kinds: &mut Vec<u32>,
) -> Result<bool, NoMemory>
    requires to { to.old.items ≡ [] }
    requires kinds { kinds.old.items ≡ [] }
    ensures read { let s = store.now in OnOk result
        (AreRead s.site (stored_in s.list) s.stores to.new.items kinds.new.items) }
    ensures same { let s = store.now in IfOk result (λ b. b ≡ true → BeginEach s.site
        (stored_in s.list) to.new.items 0 (length to.new.items) s.stores) }
{
    let mut same = true;
    for place in 0..store.stores() {
        let left = merge_part(alloc, store, place, to, kinds)?;
        if !left {
            same = false;
        }
    }
    Ok(same)
}
