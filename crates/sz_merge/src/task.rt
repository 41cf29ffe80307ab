//! Tasks: stores on a shelf that are merged beside the asks.

ghost use Rattle.std.specs.Prelude.{◌≡◌, ◌+◌, true, OnOk};
ghost use Rattle.std.specs.Arc.{arc_value};
ghost use Rattle.sz_shelf.specs.Passes.{place_of};

use crate::gate::MergeGate;
use crate::merge_shared;
use crossbeam_channel::Receiver;
use std::alloc::Global;
use std::sync::{Arc, Wait};
use std::thread::Threads;
use sz_cells::NoMemory;
use sz_shelf::{Pass, Shelf};
use sz_spec::{OpAt, Strategy};

/// A sealed shelf of a node, whose stores are to be merged. Its pass is of its shelf and saw the
/// seal, and the tag has the operator and the list.
#[derive(Drop)]
pub struct MergeTask {
    /// The operator, with the shapes of the arrays that it takes and of its output.
    pub at: Arc<OpAt>,
    /// The strategies by which the lineage is kept.
    pub list: Vec<Strategy>,
    /// Where it is kept.
    pub shelf: Arc<Shelf>,
    /// The right to take turns at the shelf.
    pub pass: Pass,
    ghost own: { place_of pass ≡ arc_value shelf },
    ghost saw: { pass.saw ≡ true },
    ghost site: { pass.tag.site ≡ arc_value at },
    ghost same_list: { pass.tag.list ≡ list.items },
}

/// Merges the stores of each task that comes, and puts them in the place of those on its shelf,
/// until the channel is closed. A task that is refused for memory is left undone. Between a merge
/// and the turn in which it is put in its place the gate is called.
///
/// While a task is merged, its shelf is free: asks are answered as before and after.
pub fn attend_merges<G: MergeGate, R: Threads + Wait + Sync>(
    alloc: Global,
    rt: &R,
    tasks: Receiver<MergeTask>,
    gate: &G,
) {
    attend_to_each(alloc, rt, tasks, gate);
}

/// What comes through a channel of tasks.
pub(crate) trait Message: Drop {
    /// The task that it is.
    fn task(self) -> MergeTask;
}

impl Message for MergeTask {
    fn task(self) -> MergeTask {
        self
    }
}

/// Merges the stores of each message's task, until the channel is closed.
pub(crate) fn attend_to_each<M: Message, G: MergeGate, R: Threads + Wait + Sync>(
    alloc: Global,
    rt: &R,
    messages: Receiver<M>,
    gate: &G,
) {
    for message in messages.iter(rt) {
        let _ = merge_task(alloc, rt, message.task(), gate);
    }
}

/// Merges the stores of a task's shelf, in two turns: a share of them is taken, and the merged ones
/// are put in their place. After `NoMemory` they are not.
fn merge_task<G: MergeGate, R: Threads + Wait + Sync>(
    alloc: Global,
    rt: &R,
    task: MergeTask,
    gate: &G,
) -> Result<(), NoMemory> {
    let MergeTask {
        at,
        list,
        shelf,
        pass,
    } = task;
    let mut pass = pass;
    merge_on(alloc, rt, &at, &list, &shelf, &mut pass, gate)
}

/// Merges the stores of a sealed shelf.
fn merge_on<G: MergeGate, R: Threads + Wait + Sync>(
    alloc: Global,
    rt: &R,
    at: &Arc<OpAt>,
    list: &[Strategy],
    shelf: &Shelf,
    pass: &mut Pass,
    gate: &G,
) -> Result<(), NoMemory>
    requires own { place_of pass.old ≡ shelf.now }
    requires saw { pass.old.saw ≡ true }
    requires site { pass.old.tag.site ≡ arc_value at.now }
    requires same_list { pass.old.tag.list ≡ list.now }
    ensures own { place_of pass.new ≡ place_of pass.old }
    ensures turns { OnOk result (pass.new.turns ≡ pass.old.turns + 2) }
{
    let Some(store) = shelf.store_of(alloc, rt, pass)? else {
        unreachable!() // the pass saw the seal
    };
    pass.kept(); // its tag is one
    let merged = merge_shared(alloc, rt, at, list, &store)?;
    gate.before_swap();
    shelf.swap(rt, pass, merged);
    Ok(())
}
