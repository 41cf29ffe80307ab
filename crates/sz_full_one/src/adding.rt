//! Adding region pairs to a table and to its index.

ghost use Rattle.std.specs.Prelude.{◌≡◌, ◌<◌, ◌≤◌, ◌+◌, ◌∷◌, ◌++◌};
ghost use Rattle.sz_full_one.specs.Terms.{ℕ, [], length, map, sum_by, All, true, arc_value};
ghost use Rattle.sz_full_one.specs.Terms.{pairings, weight_of, IsIndexOf, IsPairIn, HasRoom};
ghost use Rattle.sz_full_one.specs.Terms.{pair_cells, index_capacities, AreOneOrApart};
ghost use Rattle.sz_full_one.specs.Terms.{HaveInputsApart};

use crate::index::Index;
use std::sync::Arc;
use sz_frame::Region;
use sz_tables::RegionTable;

/// Adds region pairs, in their order. Takes no memory. Where `apart`, their sets of each input and
/// those of the table's are one or apart.
pub fn add_regions(table: &mut RegionTable, index: &mut Index, regions: &[Arc<Region>], apart: bool)
    requires index { IsIndexOf table.old index.old }
    requires inputs { length table.old.ins ≤ 2 }
    requires pairs { All (IsPairIn table.old) (map (λ a. arc_value a) regions.now) }
    requires rows { length regions.now ≤ table.old.spare_rows }
    requires runs { sum_by weight_of (map (λ a. arc_value a) regions.now)
        ≤ table.old.spare_runs }
    requires room { HasRoom (sum_by pair_cells (map (λ a. arc_value a) regions.now))
        (length regions.now) index.old }
    requires apart { apart ≡ true
        → HaveInputsApart (pairings table.old ++ map (λ a. arc_value a) regions.now) }
    ensures pairings { pairings table.new
        ≡ pairings table.old ++ map (λ a. arc_value a) regions.now }
    ensures index { IsIndexOf table.new index.new }
    ensures out { table.new.out ≡ table.old.out }
    ensures ins { table.new.ins ≡ table.old.ins }
    ensures capacities { table.new.capacities ≡ table.old.capacities }
    ensures index_capacities { index_capacities index.new ≡ index_capacities index.old }
{
    for region in regions {
        add_region(table, index, region, apart);
    }
}

/// Adds a region pair.
fn add_region(table: &mut RegionTable, index: &mut Index, region: &Region, apart: bool)
    requires index { IsIndexOf table.old index.old }
    requires inputs { length table.old.ins ≤ 2 }
    requires pair { IsPairIn table.old region.now }
    requires rows { 0 < table.old.spare_rows }
    requires runs { weight_of region.now ≤ table.old.spare_runs }
    requires room { HasRoom (pair_cells region.now) 1 index.old }
    requires apart { apart ≡ true → All (AreOneOrApart region.now) (pairings table.old) }
    ensures pairings { pairings table.new ≡ pairings table.old ++ region.now ∷ [] }
    ensures index { IsIndexOf table.new index.new }
    ensures out { table.new.out ≡ table.old.out }
    ensures ins { table.new.ins ≡ table.old.ins }
    ensures rows { table.old.spare_rows ≤ table.new.spare_rows + 1 }
    ensures runs { table.old.spare_runs ≤ table.new.spare_runs + weight_of region.now }
    ensures room { (cells count : ℕ) → HasRoom (pair_cells region.now + cells) (count + 1) index.old
        → HasRoom cells count index.new }
    ensures capacities { table.new.capacities ≡ table.old.capacities }
    ensures index_capacities { index_capacities index.new ≡ index_capacities index.old }
{
    table.add_as(region, apart);
    table.len(); // each row names sets of the table
    index.file(table, region);
}
