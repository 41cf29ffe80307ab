//! A merge that is held between its two turns, while asks are answered.

ghost use Rattle.std.specs.Prelude.{◌≡◌};
ghost use Rattle.sz_shelf.specs.Passes.{place_of};

use super::bench::Bench;
use super::tasks::{finds_all, given, pairs, ready};
use crossbeam_channel::Receiver;
use std::alloc::Global;
use std::sync::Wait;
use std::sync::atomic::{AtomicU64, Ordering};
use std::test::Fail;
use std::thread::{self, Threads};
use sz_merge::{MergeGate, MergeTask, attend_merges};
use sz_shelf::Pass;

/// For how many turns something is waited for.
const LIMIT: u64 = 1_000_000_000;

/// A gate that holds each merge until it is let go. It counts the merges that it held, how many
/// were let go, and how often something did not come.
#[derive(Drop)]
pub struct Holding {
    held: AtomicU64,
    let_go: AtomicU64,
    missed: AtomicU64,
}

impl Holding {
    /// Nothing is held yet.
    fn new() -> Holding {
        Holding {
            held: AtomicU64::new(0),
            let_go: AtomicU64::new(0),
            missed: AtomicU64::new(0),
        }
    }

    /// Waits until one was counted.
    fn wait_for(&self, count: &AtomicU64) {
        for _ in 0..LIMIT {
            if count.load(Ordering::SeqCst) != 0 {
                return;
            }
        }
        self.missed.fetch_add(1, Ordering::SeqCst);
    }
}

impl MergeGate for Holding {
    fn before_swap(&self) {
        self.held.fetch_add(1, Ordering::SeqCst);
        self.wait_for(&self.let_go);
    }
}

/// Whether asks are answered by the stores as so many region pairs, in both directions.
pub fn is_answered<R: Wait>(
    alloc: Global,
    rt: &R,
    bench: &Bench,
    pass: &mut Pass,
    count: usize,
) -> Result<bool, Fail>
    requires { place_of pass.old ≡ bench.now }
    ensures { place_of pass.new ≡ place_of pass.old }
{
    let found = finds_all(alloc, rt, bench, pass)?;
    let store = given(alloc, rt, bench, pass)?;
    Ok(found && pairs(alloc, &store)? == count)
}

/// Waits until a merge is held, asks, and lets it go. Whether the asks were answered by the stores
/// that are not merged.
fn ask_while_held<R: Wait>(
    alloc: Global,
    rt: &R,
    bench: &Bench,
    pass: &mut Pass,
    gate: &Holding,
) -> Result<bool, Fail>
    requires { place_of pass.old ≡ bench.now }
    ensures { place_of pass.new ≡ place_of pass.old }
{
    gate.wait_for(&gate.held);
    let answered = is_answered(alloc, rt, bench, pass, 3);
    gate.let_go.fetch_add(1, Ordering::SeqCst);
    answered
}

/// Attends to the tasks, where they are there.
fn attend<R: Threads + Wait + Sync>(
    alloc: Global,
    rt: &R,
    tasks: &mut Option<Receiver<MergeTask>>,
    gate: &Holding,
) {
    if let Some(tasks) = tasks.take() {
        attend_merges(alloc, rt, tasks, gate);
    }
}

/// Merges in this thread, and asks in another one while the merge is held. Whether the asks were
/// answered.
fn merge_beside_asks<R: Threads + Wait + Sync>(
    rt: &R,
    alloc: Global,
    bench: &Bench,
    pass: &mut Pass,
    tasks: Receiver<MergeTask>,
    gate: &Holding,
) -> Result<bool, Fail>
    requires { place_of pass.old ≡ bench.now }
    ensures { place_of pass.new ≡ place_of pass.old }
{
    let mut tasks = Some(tasks);
    let (answered, _) = thread::join_mut(
        rt,
        &mut || ask_while_held(alloc, rt, bench, pass, gate),
        &mut || attend(alloc, rt, &mut tasks, gate),
    );
    answered
}

/// The receiving end of a closed channel that has a task.
fn sent<R: Wait>(alloc: Global, rt: &R, task: MergeTask) -> Result<Receiver<MergeTask>, Fail> {
    let (to, from) = crossbeam_channel::unbounded::<MergeTask, Global>(alloc)?;
    if to.send(rt, task).is_err() {
        return Err("the task is not sent".into());
    }
    Ok(from)
}

/// Whether one merge was held, and nothing was missed.
fn held_one(gate: &Holding) -> bool {
    gate.held.load(Ordering::SeqCst) == 1 && gate.missed.load(Ordering::SeqCst) == 0
}

/// Whether the task of a shelf is held so, and asks beside the merge are answered.
fn is_held<R: Threads + Wait + Sync>(
    rt: &R,
    alloc: Global,
    bench: &Bench,
    pass: &mut Pass,
    task: MergeTask,
) -> Result<bool, Fail>
    requires { place_of pass.old ≡ bench.now }
    ensures { place_of pass.new ≡ place_of pass.old }
{
    let tasks = sent(alloc, rt, task)?;
    let gate = Holding::new();
    Ok(merge_beside_asks(rt, alloc, bench, pass, tasks, &gate)? && held_one(&gate))
}

/// Whether asks of a new shelf are answered before its merge, beside it and behind it.
fn asks_are_answered<R: Threads + Wait + Sync>(rt: &R, alloc: Global) -> Result<bool, Fail> {
    let (bench, task, mut other) = ready(alloc, rt)?;
    Ok(
        is_answered(alloc, rt, &bench, &mut other, 3)?
            && is_held(rt, alloc, &bench, &mut other, task)?
            && is_answered(alloc, rt, &bench, &mut other, 1)?,
    )
}

#[test]
fn asks_are_answered_while_a_merge_is_held(rt: HostRuntime) -> Result<(), Fail> {
    assert!(rt; asks_are_answered(&rt, rt.alloc())?);
    Ok(())
}
