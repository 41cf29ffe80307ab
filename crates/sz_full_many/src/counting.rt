//! How many runs the sets of region pairs have.

ghost use Rattle.std.specs.Prelude.{◌≡◌, ◌≤◌, ◌*◌, ◌+◌};
ghost use Rattle.sz_full_many.specs.Terms.{length, map, sum_by, All, arc_value, weight_of};
ghost use Rattle.sz_full_many.specs.Terms.{cells_in, most_given};

use std::sync::Arc;
use sz_frame::Region;
use sz_tables::runs_of_region;

/// How many runs the sets of all these region pairs have.
pub(crate) fn runs_of_all(regions: &[Arc<Region>]) -> usize
    requires few { length regions.now ≤ most_given }
    requires inputs { All (λ r. length r.ins ≤ 2) (map (λ a. arc_value a) regions.now) }
    ensures runs { result ≡ sum_by weight_of (map (λ a. arc_value a) regions.now) }
    ensures cells { sum_by (λ r. cells_in r.out + sum_by cells_in r.ins)
        (map (λ a. arc_value a) regions.now) ≤ result * 1048576 }
{
    let mut runs = 0;
    for region in regions {
        runs += runs_of_region(region);
    }
    runs
}
