//! How many runs the sets of entries have, and how many bytes their payloads.

ghost use Rattle.std.specs.Prelude.{◌≡◌, ◌<◌, ◌≤◌, ◌*◌, ◌^◌};
ghost use Rattle.sz_payload.specs.Terms.{length, map, sum_by, All, arc_value, IsShort, runs_in};
ghost use Rattle.sz_payload.specs.Terms.{cells_in, most_given};

use std::sync::Arc;
use sz_frame::PayEntry;
use sz_tables::runs_of_set;

/// How many runs the sets of all these entries have.
pub(crate) fn runs_of_all(entries: &[Arc<PayEntry>]) -> usize
    requires { length entries.now ≤ most_given }
    ensures runs { result ≡ sum_by (λ e. runs_in e.out) (map (λ a. arc_value a) entries.now) }
    ensures cells { sum_by (λ e. cells_in e.out) (map (λ a. arc_value a) entries.now)
        ≤ result * 1048576 }
    ensures each { All (λ e. cells_in e.out ≤ runs_in e.out * 1048576)
        (map (λ a. arc_value a) entries.now) }
{
    let mut runs = 0;
    for entry in entries {
        runs += runs_of_set(&entry.out);
    }
    runs
}

/// How many cells the sets of all these entries have.
pub(crate) fn cells_of_all(entries: &[Arc<PayEntry>]) -> usize
    requires { length entries.now ≤ most_given }
    ensures { result ≡ sum_by (λ e. cells_in e.out) (map (λ a. arc_value a) entries.now) }
{
    let mut cells = 0;
    for entry in entries {
        cells += entry.out.count() as usize;
    }
    cells
}

/// How many bytes the payloads of all these entries have.
pub(crate) fn bytes_of_all(entries: &[Arc<PayEntry>]) -> usize
    requires few { length entries.now ≤ most_given }
    requires short { All (λ e. IsShort e.payload) (map (λ a. arc_value a) entries.now) }
    ensures { result ≡ sum_by (λ e. length e.payload) (map (λ a. arc_value a) entries.now) }
{
    let mut bytes = 0;
    for entry in entries {
        bytes += entry.payload.bytes().len();
    }
    bytes
}
