//! The channel of the tasks, and the threads that merge.
//!
//! What a thread does is written for any type of [`Message`], of which it needs to know only that
//! it may move between threads. That a task may do so is shown once, where the type is chosen.

use crate::gate::MergeGate;
use crate::task::{MergeTask, Message, attend_to_each};
pub use crossbeam_channel::{Receiver, Sender};
use std::alloc::{AllocError, Global};
use std::sync::{Arc, Wait};
use std::thread::{self, JoinHandle, Threads};
use sz_cells::NoMemory;

/// The two ends of a channel that holds any number of tasks. It closes once each sender is let go.
pub fn merge_tasks(alloc: Global) -> Result<(Sender<MergeTask>, Receiver<MergeTask>), NoMemory> {
    Ok(crossbeam_channel::unbounded::<MergeTask, Global>(alloc)?)
}

/// One receiving end more.
pub fn one_more_merger(tasks: &Receiver<MergeTask>) -> Result<Receiver<MergeTask>, NoMemory> {
    let more: Result<Receiver<MergeTask>, AllocError> = tasks.clone();
    Ok(more?)
}

/// Sends a task. Whether it was sent: where it was not, it is let go, and its shelf keeps the
/// stores that it has.
pub fn hand_merge<R: Wait>(rt: &R, to: &Sender<MergeTask>, task: MergeTask) -> bool {
    to.send(rt, task).is_ok()
}

/// Starts a thread that merges the stores of each task, as [`attend_merges`] does, by a receiving
/// end of its own. It ends once the channel closes.
///
/// [`attend_merges`]: crate::attend_merges
pub fn employ_merger<G: MergeGate + 'static, R: Threads + Wait + Clone + Send + Sync + 'static>(
    alloc: Global,
    rt: &R,
    gate: &Arc<G>,
    tasks: &Receiver<MergeTask>,
) -> Result<JoinHandle<()>, NoMemory> {
    start(alloc, rt, Arc::try_clone(gate)?, one_more_merger(tasks)?)
}

/// Starts a thread that attends to each message.
fn start<
    M: Message + Send + 'static,
    G: MergeGate + 'static,
    R: Threads + Wait + Clone + Send + Sync + 'static,
>(alloc: Global, rt: &R, gate: Arc<G>, messages: Receiver<M>) -> Result<JoinHandle<()>, NoMemory> {
    let own: Result<R, AllocError> = rt.clone();
    let own = own?;
    match thread::spawn(rt, move || attend_to_each(alloc, &own, messages, &*gate)) {
        Ok(worker) => Ok(worker),
        Err(_) => Err(NoMemory),
    }
}
