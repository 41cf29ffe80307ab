//! A row of 130 cells that is one region: its three pieces need a region pair each, and one is
//! enough for all of them.

ghost use Rattle.std.specs.Prelude.{◌≡◌, true, IfOk};
ghost use Rattle.std.specs.Arc.{arc_value};
ghost use Rattle.sz_shelf.specs.Passes.{TookTurn, place_of};
ghost use Rattle.sz_shelf.specs.Tags.{StandsFor};

use super::bench::Bench;
use std::alloc::Global;
use std::sync::{Arc, Wait};
use std::test::Fail;
use std::thread::Threads;
use sz_cells::{NoMemory, Run, Shape};
use sz_merge::{MergeTask, Merged, NoMergeGate, attend_merges};
use sz_region::take_regions;
use sz_shelf::{Look, Pass, Placed, SealReply};
use sz_spec::{Dir, Strategy};
use sz_store::NodeStore;

/// One region pair, of the two sets that have all cells.
const ONE: [u8; 42] = [
    0, 0, 0, 2, 0, 0, 0, 0, 1, 0, 0, 0, 0, 0, 0, 0, 129, 1, 0, 0, 0, 1, 0, 0, 0, 0, 0, 0, 0, 129,
    0, 0, 0, 1, 0, 0, 0, 0, 0, 0, 0, 1,
];

/// Every cell.
const ALL: [Run; 1] = [Run {
    first: 0,
    last: 129,
}];

/// Places each piece, and seals.
fn fill<R: Wait>(alloc: Global, rt: &R, bench: &Bench, pass: &mut Pass) -> Result<(), Fail>
    requires { place_of pass.old ≡ bench.now }
    ensures own { place_of pass.new ≡ place_of pass.old }
    ensures saw { IfOk result (λ _. pass.new.saw ≡ true) }
{
    let third = bench.place(alloc, rt, pass, 2)? == Placed::New;
    let first = bench.place(alloc, rt, pass, 0)? == Placed::New;
    let second = bench.place(alloc, rt, pass, 1)? == Placed::New;
    if !third || !first || !second || bench.seal(rt, pass) != SealReply::Sealed {
        return Err("the shelf is not filled".into());
    }
    Ok(())
}

/// The stores that are handed out.
pub fn given<R: Wait>(
    alloc: Global,
    rt: &R,
    bench: &Bench,
    pass: &mut Pass,
) -> Result<Arc<NodeStore>, Fail>
    requires { place_of pass.old ≡ bench.now }
    ensures own { place_of pass.new ≡ place_of pass.old }
    ensures stands { IfOk result (λ a. StandsFor bench.now.tag (arc_value a)) }
{
    match bench.store_of(alloc, rt, pass)? {
        Some(store) => Ok(store),
        None => Err("a sealed shelf hands out its stores".into()),
    }
}

/// The bytes of some stores.
fn spelled(alloc: Global, store: &NodeStore) -> Result<Vec<u8>, Fail> {
    let mut bytes = Vec::new(alloc);
    store.put_bytes(&mut bytes)?;
    Ok(bytes)
}

/// How many region pairs some stores have.
pub fn pairs(alloc: Global, store: &NodeStore) -> Result<usize, Fail> {
    let shape = Shape::make(1, 130).ok_or("a row of 130 is a shape")?;
    let bytes = spelled(alloc, store)?;
    match take_regions(alloc, shape, &[shape], &bytes, 0) {
        Ok((regions, _)) => Ok(regions.len()),
        Err(_) => Err("the stores are region pairs".into()),
    }
}

/// Whether a look from one cell finds all by the store, in both directions.
pub fn finds_all<R: Wait>(
    alloc: Global,
    rt: &R,
    bench: &Bench,
    pass: &mut Pass,
) -> Result<bool, Fail>
    requires { place_of pass.old ≡ bench.now }
    ensures { place_of pass.new ≡ place_of pass.old }
{
    let (told, back) = bench.look(alloc, rt, pass, Dir::Back)?;
    let (said, on) = bench.look(alloc, rt, pass, Dir::Forward)?;
    let done = is_done(told) && is_done(said);
    Ok(done && back.runs() == ALL.as_slice() && on.runs() == ALL.as_slice())
}

/// Whether a look read the store.
fn is_done(look: Look) -> bool {
    match look {
        Look::Done(read) => read.strategy() == Strategy::FullManyB,
        Look::Unsealed { .. } => false,
    }
}

/// Sends a task to a channel that is closed then, and attends to it. Whether it was sent.
fn attend<R: Threads + Wait + Sync>(
    alloc: Global,
    rt: &R,
    task: MergeTask,
) -> Result<bool, NoMemory> {
    let (to, from) = crossbeam_channel::unbounded::<MergeTask, Global>(alloc)?;
    let sent = to.send(rt, task).is_ok();
    drop(to);
    attend_merges(alloc, rt, from, &NoMergeGate);
    Ok(sent)
}

/// Whether some stores have one region pair, with these bytes.
fn is_one(alloc: Global, store: &NodeStore) -> Result<bool, Fail> {
    let bytes = spelled(alloc, store)?;
    Ok(bytes.as_slice() == ONE.as_slice() && pairs(alloc, store)? == 1)
}

/// Whether merged stores do, and are told so.
fn is_told_as_one(alloc: Global, merged: &Merged) -> Result<bool, Fail> {
    Ok(
        merged.bytes.as_slice() == ONE.as_slice()
            && merged.kinds.as_slice() == [1].as_slice()
            && is_one(alloc, &merged.store)?,
    )
}

/// Whether stores of three region pairs are merged so.
fn three_become_one<R: Threads + Sync>(
    alloc: Global,
    rt: &R,
    bench: &Bench,
    store: &NodeStore,
) -> Result<bool, Fail>
    requires { StandsFor bench.now.tag store.now }
{
    let merged = bench.merged(alloc, rt, store)?;
    Ok(pairs(alloc, store)? == 3 && is_told_as_one(alloc, &merged)?)
}

/// Whether those of a new shelf are.
fn is_merged<R: Threads + Wait + Sync>(alloc: Global, rt: &R) -> Result<bool, Fail> {
    let (bench, mut pass) = Bench::new(alloc)?;
    fill(alloc, rt, &bench, &mut pass)?;
    let store = given(alloc, rt, &bench, &mut pass)?;
    three_become_one(alloc, rt, &bench, &store)
}

#[test]
fn three_pairs_of_one_region_become_one(rt: HostRuntime) -> Result<(), Fail> {
    assert!(rt; is_merged(rt.alloc(), &rt)?);
    Ok(())
}

/// A new shelf that is filled, its task, and another pass of it.
pub fn ready<R: Wait>(alloc: Global, rt: &R) -> Result<(Bench, MergeTask, Pass), Fail>
    ensures { IfOk result (λ r. place_of r.2 ≡ r.0) }
{
    let (bench, mut pass) = Bench::new(alloc)?;
    fill(alloc, rt, &bench, &mut pass)?;
    let other = bench.split(&mut pass)?;
    let task = bench.task(alloc, pass)?;
    Ok((bench, task, other))
}

/// Whether a pass finds all by stores of one region pair.
fn finds_one<R: Wait>(alloc: Global, rt: &R, bench: &Bench, pass: &mut Pass) -> Result<bool, Fail>
    requires { place_of pass.old ≡ bench.now }
{
    if !finds_all(alloc, rt, bench, pass)? {
        return Ok(false);
    }
    let store = given(alloc, rt, bench, pass)?;
    is_one(alloc, &store)
}

/// Whether a shelf's stores are merged by its task, and those that were handed out before stay as
/// they were.
fn merges_beside<R: Threads + Wait + Sync>(
    alloc: Global,
    rt: &R,
    bench: &Bench,
    task: MergeTask,
    other: &mut Pass,
) -> Result<bool, Fail>
    requires { place_of other.old ≡ bench.now }
{
    let before = given(alloc, rt, bench, other)?;
    Ok(
        pairs(alloc, &before)? == 3
            && attend(alloc, rt, task)?
            && finds_one(alloc, rt, bench, other)?
            && pairs(alloc, &before)? == 3,
    )
}

/// Whether the stores of a new shelf are merged by its task, beside another pass.
fn is_merged_by_task<R: Threads + Wait + Sync>(alloc: Global, rt: &R) -> Result<bool, Fail> {
    let (bench, task, mut other) = ready(alloc, rt)?;
    Ok(
        finds_all(alloc, rt, &bench, &mut other)?
            && merges_beside(alloc, rt, &bench, task, &mut other)?,
    )
}

#[test]
fn a_task_puts_the_merged_stores_in_their_place(rt: HostRuntime) -> Result<(), Fail> {
    assert!(rt; is_merged_by_task(rt.alloc(), &rt)?);
    Ok(())
}
