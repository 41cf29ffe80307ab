//! Region pairs of a table that are kinds of lineage as they are, told one after another: none has
//! an output cell or the input set of one before it.

ghost use Rattle.std.specs.Prelude.{◌≡◌, ◌<◌, ◌≤◌, ◌∷◌, ◌++◌};
ghost use Rattle.sz_merge.specs.Terms.{[], List, length, true, false, IfOk, slice_index_or};
ghost use Rattle.sz_merge.specs.Terms.{slice_set, Cells, set_of, pairings, row_at, number_in};
ghost use Rattle.sz_merge.specs.Terms.{sets_of, pairing_at, IsFurther, AreKinds};

use std::alloc::Global;
use sz_cells::{CellBits, NoMemory, Shape};
use sz_tables::RegionTable;

/// Whether the region pairs of a table are kinds as they are. `false` also where that is not seen
/// from their sets of one input alone.
///
/// Costs for each region pair and input what [`is_further`] does.
pub fn are_kinds(
    alloc: Global,
    out: Shape,
    inputs: u32,
    table: &RegionTable,
) -> Result<bool, NoMemory>
    requires out { table.now.out ≡ out }
    requires inputs { inputs ≤ length table.now.ins }
    ensures { IfOk result (λ b. b ≡ true → AreKinds (pairings table.now)) }
{
    for input in 0..inputs {
        if are_kinds_by(alloc, out, table, input)? {
            return Ok(true);
        }
    }
    Ok(false)
}

/// Whether the region pairs of a table are kinds, as is seen from their sets of one input.
fn are_kinds_by(
    alloc: Global,
    out: Shape,
    table: &RegionTable,
    input: u32,
) -> Result<bool, NoMemory>
    requires out { table.now.out ≡ out }
    requires input { input < length table.now.ins }
    ensures { IfOk result (λ b. b ≡ true → AreKinds (pairings table.now)) }
{
    let mut seen = CellBits::new(alloc, out)?;
    let mut known = vec![in alloc; false; table.sets_of(input) as usize]?;
    for row in 0..table.len() {
        if !is_further(table, row, input, &mut seen, &mut known) {
            return Ok(false);
        }
    }
    Ok(true)
}

/// Whether the region pair of a row is one of a kind beside those whose output cells are seen and
/// the numbers of whose sets of an input are known. Then its cells are seen, and its number is
/// known.
///
/// Costs a look at the cells of its output set.
pub fn is_further(
    table: &RegionTable,
    row: u32,
    input: u32,
    seen: &mut CellBits,
    known: &mut Vec<bool>,
) -> bool
    requires row { row < length table.now.rows }
    requires input { input < length table.now.ins }
    requires seen { seen.old.extent ≡ table.now.out }
    requires known { length known.old.items ≡ length (sets_of table.now.sets input) }
    ensures further { let r = pairing_at table.now row in result ≡ true → (sets : List Cells)
        → IsFurther r.out (set_of r input) seen.old seen.new sets (sets ++ set_of r input ∷ []) }
    ensures new { let n = number_in (row_at table.now.rows row) input in result ≡ true
        → (slice_index_or known.old.items n true ≡ false)
        × (known.new.items ≡ slice_set known.old.items n true) }
{
    table.len(); // each row names sets of the table
    let out = table.out_number(row);
    let number = table.number_of(row, input);
    if known[number as usize]
        || table.out_runs(out).is_empty()
        || table.in_runs(input, number).is_empty()
        || table.out_set_meets(out, seen)
    {
        return false;
    }
    table.add_out_set(out, seen);
    known[number as usize] = true;
    true
}
