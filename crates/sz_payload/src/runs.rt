//! Runs of cells as they stand in bytes: eight of them a run, four for its first index and four
//! for its last, big-endian.

ghost use Rattle.std.specs.Prelude.{◌≡◌, ◌<◌, ◌≤◌, ◌+◌, ◌%◌, ◌↔◌};
ghost use Rattle.sz_payload.specs.Terms.{length, IsTrue, Option, list_any, size_of, union_of};
ghost use Rattle.sz_payload.specs.Terms.{next_index, AreRising, AreRunsFrom, covers, is_in};
ghost use Rattle.sz_payload.specs.Terms.{runs_spelled, cells_at, number_at, run_at};

use sz_cells::{CellBits, Run};

/// The number of the four bytes at a place.
pub(crate) fn number_at(bytes: &[u8], at: usize) -> u32
    requires { at + 4 ≤ length bytes.now }
    ensures { result ≡ number_at bytes.now at }
{
    u32::from_be_bytes([bytes[at], bytes[at + 1], bytes[at + 2], bytes[at + 3]])
}

/// The run of the eight bytes at a place.
fn run_at(bytes: &[u8], at: usize) -> Run
    requires { at + 8 ≤ length bytes.now }
    ensures { result ≡ run_at bytes.now at }
{
    Run {
        first: number_at(bytes, at),
        last: number_at(bytes, at + 4),
    }
}

/// Whether these are the longest runs of a set of a shape of this size.
pub(crate) fn are_longest(body: &[u8], size: u32) -> bool
    requires whole { length body.now % 8 ≡ 0 }
    requires few { size ≤ 1048576 }
    ensures { IsTrue result ↔ AreRunsFrom 0 size (runs_spelled body.now) }
{
    let mut least = 0;
    for index in 0..body.len() / 8 {
        let run = run_at(body, index * 8);
        if run.first < least || run.last < run.first || size <= run.last {
            return false;
        }
        least = run.last + 2;
    }
    true
}

/// Adds the cells of runs, where these are the longest ones of a set. Of others nothing is said but
/// that the set keeps its shape.
pub(crate) fn add_runs(body: &[u8], to: &mut CellBits)
    requires { length body.now % 8 ≡ 0 }
    ensures extent { to.new.extent ≡ to.old.extent }
    ensures added { let e = to.old.extent in AreRunsFrom 0 (size_of e) (runs_spelled body.now)
        → to.new ≡ union_of to.old (cells_at e (covers (runs_spelled body.now))) }
{
    let shape = to.shape(); // the set as it was is that of its cells
    let size = shape.size();
    for index in 0..body.len() / 8 {
        let run = run_at(body, index * 8);
        if run.first <= run.last && run.last < size {
            to.add_run(run);
        }
    }
}

/// Whether one of some runs, the longest ones of a set, has an asked cell.
pub(crate) fn runs_meet(body: &[u8], from: &CellBits) -> bool
    requires whole { length body.now % 8 ≡ 0 }
    requires runs { AreRunsFrom 0 (size_of from.now.extent) (runs_spelled body.now) }
    ensures met { result ≡ list_any (covers (runs_spelled body.now)) from.now.indexes }
    ensures rising { AreRising 0 (size_of from.now.extent) from.now.indexes }
{
    from.shape(); // the asked indexes rise
    for index in 0..body.len() / 8 {
        if run_meets(run_at(body, index * 8), from) {
            return true;
        }
    }
    false
}

/// Whether a run has an asked cell: the next one from its first on is in it.
pub(crate) fn run_meets(run: Run, from: &CellBits) -> bool
    ensures met { result ≡ list_any (is_in run) from.now.indexes }
{
    from.shape(); // the asked indexes rise
    match from.next_after(run.first) {
        Some(index) => index <= run.last,
        None => false,
    }
}
