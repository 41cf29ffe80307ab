//! A thread that merges the stores of the tasks that are sent to it.

use super::held::is_answered;
use super::tasks::ready;
use std::alloc::Global;
use std::sync::{Arc, Wait};
use std::test::Fail;
use std::thread::Threads;
use sz_merge::{MergeTask, NoMergeGate, employ_merger, hand_merge, merge_tasks};

/// Sends a shelf's task to a thread that merges, and waits until the thread ends. Whether it was
/// sent.
fn hand<R: Threads + Wait + Clone + Send + Sync + 'static>(
    alloc: Global,
    rt: &R,
    task: MergeTask,
) -> Result<bool, Fail> {
    let (to, from) = merge_tasks(alloc)?;
    let gate = Arc::new(alloc, NoMergeGate)?;
    let merger = employ_merger(alloc, rt, &gate, &from)?;
    let sent = hand_merge(rt, &to, task);
    drop(to);
    drop(from);
    merger.join(rt);
    Ok(sent)
}

/// Whether the stores of a new shelf are merged then, as another pass finds.
fn is_merged<R: Threads + Wait + Clone + Send + Sync + 'static>(
    alloc: Global,
    rt: &R,
) -> Result<bool, Fail> {
    let (bench, task, mut other) = ready(alloc, rt)?;
    Ok(hand(alloc, rt, task)? && is_answered(alloc, rt, &bench, &mut other, 1)?)
}

#[test]
fn a_thread_merges_the_task_that_is_sent(rt: HostRuntime) -> Result<(), Fail> {
    assert!(rt; is_merged(rt.alloc(), &rt)?);
    Ok(())
}
