//! The threads that work on what a session hands out: those that make stores, and the one that
//! merges them. No clause speaks of them: that they work is seen by tests.

use std::alloc::Global;
use std::sync::{Arc, Wait};
use std::thread::{JoinHandle, Threads};
use sz_cells::NoMemory;
use sz_commands::Session;
use sz_merge::{NoMergeGate, employ_merger};
use sz_outside::Gate;
use sz_pool::employ;

/// The threads of a session.
#[derive(Drop)]
pub(crate) struct Staff {
    workers: Vec<JoinHandle<()>>,
    merger: Option<JoinHandle<()>>,
}

impl Staff {
    /// Starts so many threads that attend to what a session hands out at a start, and one that
    /// attends to what it hands out at a merge. One that cannot be started is left out.
    pub(crate) fn of<G: Gate + 'static, R: Threads + Wait + Clone + Send + Sync + 'static>(
        alloc: Global,
        rt: &R,
        session: &Session,
        gate: &Arc<G>,
        count: u32,
    ) -> Staff {
        Staff {
            workers: workers_of(alloc, rt, session, gate, count),
            merger: merger_of(alloc, rt, session).ok(),
        }
    }

    /// Waits for each thread. They end once the session is let go.
    pub(crate) fn join<R: Threads + Wait>(self, rt: &R) {
        for worker in self.workers {
            worker.join(rt);
        }
        if let Some(merger) = self.merger {
            merger.join(rt);
        }
    }
}

/// The threads that make stores.
fn workers_of<G: Gate + 'static, R: Threads + Wait + Clone + Send + Sync + 'static>(
    alloc: Global,
    rt: &R,
    session: &Session,
    gate: &Arc<G>,
    count: u32,
) -> Vec<JoinHandle<()>> {
    let Ok(tasks) = session.tasks() else {
        return Vec::new(alloc);
    };
    let Ok(mut workers) = Vec::with_capacity(alloc, count as usize) else {
        return Vec::new(alloc);
    };
    for _ in 0..count {
        if let Ok(worker) = employ(alloc, rt, gate, &tasks) {
            let _ = workers.push(worker);
        }
    }
    workers
}

/// The thread that merges stores.
fn merger_of<R: Threads + Wait + Clone + Send + Sync + 'static>(
    alloc: Global,
    rt: &R,
    session: &Session,
) -> Result<JoinHandle<()>, NoMemory> {
    let gate = Arc::new(alloc, NoMergeGate)?;
    let tasks = session.merges()?;
    employ_merger(alloc, rt, &gate, &tasks)
}
