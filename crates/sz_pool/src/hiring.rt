//! The channel of the tasks, and the threads that attend to it.
//!
//! What a thread does is written for any type of [`Message`], of which it needs to know only that
//! it may move between threads. That a task may do so is shown once, where the type is chosen.

use crate::task::Task;
use crate::working::work;
pub use crossbeam_channel::{Receiver, Sender};
use std::alloc::{AllocError, Global};
use std::sync::{Arc, Wait};
use std::thread::{self, JoinHandle, Threads};
use sz_cells::NoMemory;
use sz_outside::Gate;
use sz_spec::Tally;

/// The two ends of a channel that holds any number of tasks. It closes once each sender is let go.
pub fn tasks(alloc: Global) -> Result<(Sender<Task>, Receiver<Task>), NoMemory> {
    Ok(crossbeam_channel::unbounded::<Task, Global>(alloc)?)
}

/// One receiving end more.
pub fn one_more(tasks: &Receiver<Task>) -> Result<Receiver<Task>, NoMemory> {
    let more: Result<Receiver<Task>, AllocError> = tasks.clone();
    Ok(more?)
}

/// Sends a task. Whether it was sent: where it was not, it is let go.
pub fn hand_out<R: Wait>(rt: &R, to: &Sender<Task>, task: Task) -> bool {
    to.send(rt, task).is_ok()
}

/// Works on each task until the channel closes. It passes over those for which there was no memory.
pub fn attend<G: Gate, R: Wait>(alloc: Global, rt: &R, tasks: Receiver<Task>, gate: &G) {
    attend_to_each(alloc, rt, tasks, gate);
}

/// Starts a thread that attends to the tasks. It ends once the channel closes.
pub fn employ<G: Gate + 'static, R: Threads + Wait + Clone + Send + Sync + 'static>(
    alloc: Global,
    rt: &R,
    gate: &Arc<G>,
    tasks: &Receiver<Task>,
) -> Result<JoinHandle<()>, NoMemory> {
    start(alloc, rt, Arc::try_clone(gate)?, one_more(tasks)?)
}

/// What comes through the channel.
trait Message: Drop {
    /// The task that it is.
    fn task(self) -> Task;
}

impl Message for Task {
    fn task(self) -> Task {
        self
    }
}

/// Works on each message until the channel closes.
fn attend_to_each<M: Message, G: Gate, R: Wait>(
    alloc: Global,
    rt: &R,
    messages: Receiver<M>,
    gate: &G,
) {
    for _ in rt.forever() {
        let Ok(message) = messages.recv(rt) else {
            break;
        };
        let mut task = message.task();
        let mut tally = Tally::new();
        let _ = work(alloc, rt, &mut task, gate, &mut tally);
    }
}

/// Starts a thread that works on each message.
fn start<
    M: Message + Send + 'static,
    G: Gate + 'static,
    R: Threads + Wait + Clone + Send + Sync + 'static,
>(alloc: Global, rt: &R, gate: Arc<G>, messages: Receiver<M>) -> Result<JoinHandle<()>, NoMemory> {
    let own: Result<R, AllocError> = rt.clone();
    let own = own?;
    match thread::spawn(rt, move || attend_to_each(alloc, &own, messages, &*gate)) {
        Ok(worker) => Ok(worker),
        Err(_) => Err(NoMemory),
    }
}
