//! Short cell sets: writing one, and reading one where it begins.

ghost use Rattle.std.specs.Prelude.{◌≡◌, ◌≤◌, ◌++◌};
ghost use Rattle.sz_short.specs.Terms.{length, take, IfOk, OnOk, IfErr, OnErr, IfSome, IfNone};
ghost use Rattle.sz_short.specs.Terms.{size_of, AreRunsFrom, IsAt, NoneAt, short_run};
ghost use Rattle.sz_short.specs.Terms.{short_runs_bytes, short_set_bytes, BeginsShortSet};
ghost use Rattle.sz_short.specs.Terms.{SaysNoShortSet, IsRunFrom};

use crate::numbers::{put_short, take_short};
use std::alloc::Global;
use sz_cells::{CellSet, NoMemory, Run, Shape};
use sz_region::Take;

/// Appends the short bytes of a set, as "The short bytes of a cell set" of `docs/FORMATS.md`
/// describes them. After `NoMemory` the bytes are as before.
///
/// Takes time in the number of the set's runs, and memory for the bytes that it appends.
pub fn put_set_2(set: &CellSet, to: &mut Vec<u8>) -> Result<(), NoMemory>
    ensures ok { OnOk result (to.new.items ≡ to.old.items ++ short_set_bytes set.now) }
    ensures err { OnErr result (to.new.items ≡ to.old.items) }
{
    let length = to.len();
    let shape = set.shape();
    let put = put_runs(&shape, set.runs(), to);
    if put.is_err() {
        to.truncate(length);
    }
    put
}

/// Appends the number of these runs of a shape and their short bytes. After `NoMemory` some of the
/// bytes may be there.
fn put_runs(shape: &Shape, runs: &[Run], to: &mut Vec<u8>) -> Result<(), NoMemory>
    requires { AreRunsFrom 0 (size_of shape.now) runs.now }
    ensures ok { OnOk result (to.new.items ≡ to.old.items ++ short_runs_bytes runs.now) }
    ensures err { OnErr result (take (length to.old.items) to.new.items ≡ to.old.items) }
{
    prove!(runs.len() <= shape.size() as usize); // so their number is one of four bytes
    put_short(runs.len() as u32, to)?;
    let mut from = 0;
    for run in runs {
        put_run(from, *run, to)?;
        from = run.last + 2;
    }
    Ok(())
}

/// Appends the short bytes of a run that begins no earlier than at an index. After `NoMemory` some
/// of the bytes may be there.
fn put_run(least: u32, run: Run, to: &mut Vec<u8>) -> Result<(), NoMemory>
    requires begins { least ≤ run.first }
    requires order { run.first ≤ run.last }
    ensures ok { OnOk result (to.new.items ≡ to.old.items ++ short_run least run) }
    ensures err { OnErr result (take (length to.old.items) to.new.items ≡ to.old.items) }
{
    put_short(run.first - least, to)?;
    put_short(run.last - run.first, to)
}

/// The set of a shape whose short bytes begin at a place of some bytes, and the place behind it.
/// `Bad` exactly where none begins there. "The short bytes of a cell set" of `docs/FORMATS.md`
/// describes them.
///
/// Takes time in the number of the set's runs and memory for them, and where none begins no more
/// than in the number of bytes.
pub fn take_set_2(
    alloc: Global,
    shape: Shape,
    bytes: &[u8],
    at: u64,
) -> Result<(CellSet, u64), Take>
    ensures ok { IfOk result (λ r. BeginsShortSet shape bytes.now at r.1 r.0) }
    ensures within { IfOk result (λ r. r.1 ≤ length bytes.now) }
    ensures err { IfErr result (λ e. SaysNoShortSet shape bytes.now at e) }
{
    let (runs, next) = take_runs(alloc, &shape, bytes, at)?;
    Ok((CellSet::from_runs(shape, runs), next))
}

/// The longest runs of a set of a shape whose short bytes begin at a place, and the place behind
/// them.
fn take_runs(alloc: Global, shape: &Shape, bytes: &[u8], at: u64) -> Result<(Vec<Run>, u64), Take>
    ensures longest { IfOk result (λ r. AreRunsFrom 0 (size_of shape.now) r.0.items) }
    ensures bytes { IfOk result (λ r. IsAt bytes.now at r.1 (short_runs_bytes r.0.items)) }
    ensures err { IfErr result (λ e. SaysNoShortSet shape.now bytes.now at e) }
{
    let size = shape.size();
    let Some((count, first)) = take_short(bytes, at) else {
        return Err(Take::Bad { at });
    };
    let mut runs = Vec::new(alloc);
    let mut place = first;
    let mut least = 0;
    for _index in 0..count {
        let Some((run, next)) = take_run(least, size, bytes, place) else {
            return Err(Take::Bad { at });
        };
        runs.push(run)?;
        least = run.last + 2;
        place = next;
    }
    Ok((runs, place))
}

/// The run whose short bytes begin at a place, where it begins no earlier than at an index and ends
/// below a bound, and the place behind it.
fn take_run(least: u32, bound: u32, bytes: &[u8], at: u64) -> Option<(Run, u64)>
    requires { bound ≤ 1048576 }
    ensures run { IfSome result (λ r. IsRunFrom least bound r.0) }
    ensures some { IfSome result (λ r. IsAt bytes.now at r.1 (short_run least r.0)) }
    ensures none { IfNone result (NoneAt (IsRunFrom least bound) (short_run least) bytes.now at) }
{
    let (gap, place) = take_short(bytes, at)?;
    let (behind, next) = take_short(bytes, place)?;
    let first = u64::from(least) + u64::from(gap);
    let last = first + u64::from(behind);
    if u64::from(bound) <= last {
        return None;
    }
    let run = Run {
        first: first as u32,
        last: last as u32,
    };
    Some((run, next))
}
