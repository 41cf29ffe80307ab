//! Which output cells of a piece are kept together: those of one kind share a region pair, or an
//! entry.

ghost use Rattle.std.specs.Prelude.{◌≡◌, ◌<◌, ◌≤◌, ◌+◌};
ghost use Rattle.sz_frame.specs.Terms.{ℕ, length, true, IfOk, arc_value, list_any, size_of};
ghost use Rattle.sz_frame.specs.Terms.{AreRunsFrom, covers, keeping_of, is_kind, is_first, leads};
ghost use Rattle.sz_frame.specs.Terms.{is_with, group_at};

use std::alloc::Global;
use std::sync::Arc;
use sz_cells::{CellSet, NoMemory, Run, Shape, add_run};

/// How a part of a lineage keeps an output cell.
#[derive(Clone, Copy)]
pub(crate) enum Keeping {
    /// Not at all.
    Nothing,
    /// By itself.
    Alone,
    /// With all cells of the piece that are of this kind.
    Kind(u32),
}

/// How an output cell of a kind is kept, or one of no kind, where it is to be kept.
pub(crate) fn keeping_of(wanted: bool, kind: Option<u32>) -> Keeping
    ensures { result ≡ keeping_of wanted kind }
{
    match kind {
        _ if !wanted => Keeping::Nothing,
        Some(kind) => Keeping::Kind(kind),
        None => Keeping::Alone,
    }
}

/// Whether an output cell is kept as one of a kind.
fn is_kind(kind: u32, keeping: Keeping) -> bool
    ensures { result ≡ is_kind kind keeping }
{
    match keeping {
        Keeping::Kind(other) => other == kind,
        _ => false,
    }
}

/// Whether a cell is kept, and none of the cells before it is kept with it.
fn is_first(keeping: Keeping, before: &[Keeping]) -> bool
    ensures { result ≡ is_first keeping before.now }
{
    match keeping {
        Keeping::Nothing => false,
        Keeping::Alone => true,
        Keeping::Kind(kind) => !has_kind(kind, before),
    }
}

/// Whether one of some cells is kept as one of a kind.
fn has_kind(kind: u32, kept: &[Keeping]) -> bool
    ensures { result ≡ list_any (is_kind kind) kept.now }
{
    kept.iter().any(|keeping| is_kind(kind, *keeping))
}

/// Whether the cell at a place of a piece is the first of those that are kept with it.
pub(crate) fn leads(kept: &[Keeping], place: usize) -> bool
    requires { place < length kept.now }
    ensures { result ≡ leads kept.now place }
{
    is_first(kept[place], &kept[..place])
}

/// The output cells of a piece that are kept with the one at a place, which leads them. The piece
/// has the cells from an index on.
///
/// Takes time in the number of the piece's cells, and memory in the number of the set's runs.
pub(crate) fn group(
    alloc: Global,
    shape: Shape,
    start: u32,
    kept: &[Keeping],
    place: usize,
) -> Result<Arc<CellSet>, NoMemory>
    requires place { place < length kept.now }
    requires leads { leads kept.now place ≡ true }
    requires cells { start + length kept.now ≤ size_of shape }
    ensures { IfOk result (λ s. arc_value s ≡ group_at shape start kept.now place) }
{
    let runs = runs_of_group(alloc, shape, start, kept, place)?;
    let set = CellSet::from_runs(shape, runs);
    Ok(Arc::new(alloc, set)?)
}

/// The longest runs of the indexes of those cells.
fn runs_of_group(
    alloc: Global,
    shape: Shape,
    start: u32,
    kept: &[Keeping],
    place: usize,
) -> Result<Vec<Run>, NoMemory>
    requires place { place < length kept.now }
    requires leads { leads kept.now place ≡ true }
    requires cells { start + length kept.now ≤ size_of shape }
    ensures longest { IfOk result (λ v. AreRunsFrom 0 (size_of shape) v.items) }
    ensures covered { IfOk result
        (λ v. (k : ℕ) → covers v.items k ≡ is_with start kept.now place k) }
{
    shape.size(); // a shape is within the limits
    let mut runs = Vec::new(alloc);
    add_run(&mut runs, run_of(start + place as u32))?;
    if let Keeping::Kind(kind) = kept[place] {
        for next in place + 1..kept.len() {
            if is_kind(kind, kept[next]) {
                add_run(&mut runs, run_of(start + next as u32))?;
            }
        }
    }
    Ok(runs)
}

/// The run of one index.
fn run_of(index: u32) -> Run
    ensures { result ≡ record { first = index; last = index } }
{
    Run {
        first: index,
        last: index,
    }
}
