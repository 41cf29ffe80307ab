//! The bytes of a cell set: writing them, and reading a set where one begins.

ghost use Rattle.std.specs.Prelude.{◌≡◌, ◌≤◌, ◌+◌, ◌%◌, ◌++◌};
ghost use Rattle.sz_region.specs.Terms.{length, take, IfOk, OnOk, IfErr, OnErr, IfSome, IfNone};
ghost use Rattle.sz_region.specs.Terms.{size_of, flat_map, AreRunsFrom, indexes_of, set_bytes};
ghost use Rattle.sz_region.specs.Terms.{BeginsSet, runs_spelled, SaysNoneBegins, runs_bytes};
ghost use Rattle.sz_region.specs.Terms.{HasBody, HasNoRuns, SaysNoRuns, run_at};

use std::alloc::{AllocError, AllocFailed, Global};
use sz_cells::{CellSet, NoMemory, Run, Shape};
use sz_numbers::{four_at, four_bytes};

/// Why no set was read.
#[derive(Clone, Copy, Debug, Drop, PartialEq, Eq)]
pub enum Take {
    /// At this place no cell set of the shape begins.
    Bad { at: u64 },
    /// There was no memory for the set.
    NoMemory,
}

impl<T: Drop> From<AllocFailed<T>> for Take {
    ghost use Rattle.std.specs.Prelude.{◌≡◌};
    ghost use Rattle.sz_region.specs.declared.set_bytes.Take.TheVariants.{NoMemory};

    ghost from_gives = { λ _ e. e ≡ NoMemory };

    fn from(_error: AllocFailed<T>) -> Take {
        Take::NoMemory
    }
}

impl From<AllocError> for Take {
    ghost use Rattle.std.specs.Prelude.{◌≡◌};
    ghost use Rattle.sz_region.specs.declared.set_bytes.Take.TheVariants.{NoMemory};

    ghost from_gives = { λ _ e. e ≡ NoMemory };

    fn from(_error: AllocError) -> Take {
        Take::NoMemory
    }
}

impl From<NoMemory> for Take {
    ghost use Rattle.std.specs.Prelude.{◌≡◌};
    ghost use Rattle.sz_region.specs.declared.set_bytes.Take.TheVariants as take;

    ghost from_gives = { λ _ e. e ≡ take.NoMemory };

    fn from(_error: NoMemory) -> Take {
        Take::NoMemory
    }
}

/// Appends the bytes of a set: 4 for the number of its longest runs, then 4 for the first and 4 for
/// the last index of each. After `NoMemory` the bytes are as before.
///
/// Takes time and memory in the number of the set's runs.
pub fn put_set(set: &CellSet, to: &mut Vec<u8>) -> Result<(), NoMemory>
    ensures ok { OnOk result (to.new.items ≡ to.old.items ++ set_bytes set.now) }
    ensures err { OnErr result (to.new.items ≡ to.old.items) }
{
    let length = to.len();
    let shape = set.shape();
    let put = put_runs(&shape, set.runs(), to);
    if put.is_err() {
        to.truncate(length);
    }
    put
}

/// Appends the number of these runs of a shape and their bytes. After `NoMemory` some of the bytes
/// may be there.
pub(crate) fn put_runs(shape: &Shape, runs: &[Run], to: &mut Vec<u8>) -> Result<(), NoMemory>
    requires { AreRunsFrom 0 (size_of shape.now) runs.now }
    ensures ok { OnOk result (to.new.items ≡ to.old.items ++ runs_bytes runs.now) }
    ensures err { OnErr result (take (length to.old.items) to.new.items ≡ to.old.items) }
{
    prove!(runs.len() <= shape.size() as usize); // so their number is one of four bytes
    to.extend_from_slice(&four_bytes(runs.len() as u32))?;
    for run in runs {
        to.extend_from_slice(&four_bytes(run.first))?;
        to.extend_from_slice(&four_bytes(run.last))?;
    }
    Ok(())
}

/// The set of a shape that begins at a place of some bytes, and the place behind it. `Bad` exactly
/// where none begins there.
///
/// Takes time and memory in the number of the set's runs, and where none begins no more than in the
/// number of bytes.
pub fn take_set(alloc: Global, shape: Shape, bytes: &[u8], at: u64) -> Result<(CellSet, u64), Take>
    ensures ok { IfOk result (λ r. BeginsSet shape bytes.now at r.1 r.0) }
    ensures within { IfOk result (λ r. r.1 ≤ length bytes.now) }
    ensures err { IfErr result (λ e. SaysNoneBegins shape bytes.now at e) }
{
    let mut runs = Vec::new(alloc);
    let next = take_set_runs(shape, bytes, at, &mut runs)?;
    Ok((CellSet::from_runs(shape, runs), next))
}

/// As [`take_set`], but that the set's longest runs, rising, take the place of what a list has. So
/// one list does for many sets, and takes memory only where a set has more runs than any before.
pub fn take_set_runs(shape: Shape, bytes: &[u8], at: u64, to: &mut Vec<Run>) -> Result<u64, Take>
    ensures ok { IfOk result (λ next. BeginsSet shape bytes.now at next
        (record { extent = shape; indexes = flat_map indexes_of to.new.items })) }
    ensures longest { OnOk result (AreRunsFrom 0 (size_of shape) to.new.items) }
    ensures within { IfOk result (λ next. next ≤ length bytes.now) }
    ensures err { IfErr result (λ e. SaysNoneBegins shape bytes.now at e) }
{
    shape.size(); // a shape is within the limits
    let Some(body) = body_at(bytes, at) else {
        return Err(Take::Bad { at })
    };
    match take_runs(&shape, body, to) {
        Ok(()) => Ok(at + 4 + body.len() as u64),
        Err(Take::Bad { .. }) => Err(Take::Bad { at }),
        Err(Take::NoMemory) => Err(Take::NoMemory),
    }
}

/// The bytes of the runs behind the number of runs at a place. `None` exactly where there are too
/// few bytes.
fn body_at(bytes: &[u8], at: u64) -> Option<&[u8]>
    ensures some { IfSome result (λ b. HasBody bytes.now at b.now) }
    ensures none { IfNone result (HasNoRuns bytes.now at) }
{
    let length = bytes.len() as u64;
    if length < 4 || length - 4 < at {
        return None;
    }
    let (_, rest) = bytes.split_at(at as usize);
    let (head, rest) = rest.split_at(4);
    let long = four_at(head, 0) as usize * 8;
    if rest.len() < long {
        return None;
    }
    let (body, _) = rest.split_at(long);
    Some(body)
}

/// The runs that eight bytes after eight bytes spell, in place of what a list has. `Bad` where they
/// are not the longest runs of a set of the shape.
fn take_runs(shape: &Shape, body: &[u8], to: &mut Vec<Run>) -> Result<(), Take>
    requires { length body.now % 8 ≡ 0 }
    ensures runs { OnOk result (to.new.items ≡ runs_spelled body.now) }
    ensures longest { OnOk result (AreRunsFrom 0 (size_of shape.now) to.new.items) }
    ensures err { IfErr result (λ e. SaysNoRuns shape.now body.now e) }
{
    let size = shape.size();
    to.clear();
    let mut least = 0;
    for index in 0..body.len() / 8 {
        let run = run_at(body, index * 8);
        if run.first < least || run.last < run.first || size <= run.last {
            return Err(Take::Bad { at: 0 });
        }
        to.push(run)?;
        least = run.last + 2;
    }
    Ok(())
}

/// The run of the eight bytes at a place.
fn run_at(bytes: &[u8], at: usize) -> Run
    requires { at + 8 ≤ length bytes.now }
    ensures { result ≡ run_at bytes.now at }
{
    Run {
        first: four_at(bytes, at),
        last: four_at(bytes, at + 4),
    }
}
