//! Region pairs of one input that are rows of a table, no output cell in two of them: their kinds
//! are told by the numbers of their sets, and put as the cells of one after another are gathered.
//! No set is made or joined with another, and none is kept.

ghost use Rattle.std.specs.Prelude.{◌≡◌, ◌≢◌, ◌<◌, ◌≤◌, ◌+◌, ◌==◌, ◌^◌, ◌∷◌};
ghost use Rattle.sz_merge.specs.Terms.{[], ℕ, List, length, true, not, All, IfOk, OnOk, IfSome};
ghost use Rattle.sz_merge.specs.Terms.{OnSome, IfNone, Cells, Extent, size_of, AreRunsFrom, is_in};
ghost use Rattle.sz_merge.specs.Terms.{IsSetOf, extent_at, HasShapes, Pairing, pairings, row_at};
ghost use Rattle.sz_merge.specs.Terms.{number_in, set_at, sets_of, pairing_at, lists_of, AreLabels};
ghost use Rattle.sz_merge.specs.Terms.{AreMarked, IsNext, has_index, kinds_behind, ArePut};
ghost use Rattle.sz_merge.specs.Terms.{IsKindPut, AreSetsPut, IsStorePut, kind_of, AreKindsPut};

use crate::grouping::{Grouping, group_cells};
use std::alloc::Global;
use sz_cells::{NoMemory, Run, Shape};
use sz_region::{ListedSet, put_listed, put_number, put_rows};
use sz_tables::{RegionTable, SetTable};

/// Appends a store of region pairs that stand for the same as those of a table, one for each kind
/// of lineage, and answers how many. `None`, and nothing appended, where there is not one input,
/// where a set of the input has no cell, and where an output cell is in the output sets of two
/// rows. After `NoMemory` some of the bytes may be there.
///
/// Costs a look at each cell of the rows' output sets, two looks at each output cell, and memory
/// for two numbers for each of these, of which one is let go before a byte is put.
pub fn put_kinds_of_rows(
    alloc: Global,
    out: Shape,
    ins: &[Shape],
    table: &RegionTable,
    to: &mut Vec<u8>,
) -> Result<Option<u32>, NoMemory>
    requires out { table.now.out ≡ out }
    requires ins { table.now.ins ≡ ins.now }
    ensures put { IfOk result (λ o. IfSome o
        (λ n. AreKindsPut out ins.now (pairings table.now) n to.old.items to.new.items)) }
    ensures none { IfOk result (λ o. IfNone o (to.new.items ≡ to.old.items)) }
{
    if ins.len() != 1 || table.sets_of(0) > table.len() || !have_cells(table) {
        return Ok(None); // no table has more sets than rows
    }
    let Some(labels) = label_rows(alloc, out, table)? else {
        return Ok(None);
    };
    let behind = table.in_sets();
    let groups = group_cells(alloc, behind.len() + 1, &labels)?;
    drop(labels);
    let kinds = put_kinds(alloc, out, behind, &groups, to)?;
    Ok(Some(kinds))
}

/// Appends a store of the kinds of the cells of each number, where a set of the input stands behind
/// those of its number and one more. Answers how many they are.
fn put_kinds(
    alloc: Global,
    out: Shape,
    behind: &SetTable,
    groups: &Grouping,
    to: &mut Vec<u8>,
) -> Result<u32, NoMemory>
    requires many { length groups.now ≡ length behind.now.sets + 1 }
    requires few { length groups.now ≤ 2 ^ 30 + 1 }
    requires groups { All (AreRunsFrom 0 (size_of out)) groups.now }
    requires shapes { All (HasShapes out (behind.now.extent ∷ []))
        (kinds_behind out groups.now behind.now) }
    ensures { IfOk result (λ n. IsStorePut out (behind.now.extent ∷ [])
        (kinds_behind out groups.now behind.now) n to.old.items to.new.items) }
{
    let kinds = groups.count_kinds();
    put_number(2 * kinds, to)?;
    let mut names = Vec::with_capacity(alloc, 2 * kinds as usize)?;
    put_sets(alloc, out, behind, groups, &mut names, to)?;
    put_rows(2, &names, to)?;
    Ok(kinds)
}

/// Appends the sets of the kinds: for each set of the input that stands behind some cell, the cells
/// that it stands behind, and the set. Each has a name, its number.
fn put_sets(
    alloc: Global,
    out: Shape,
    behind: &SetTable,
    groups: &Grouping,
    names: &mut Vec<u32>,
    to: &mut Vec<u8>,
) -> Result<(), NoMemory>
    requires many { length groups.now ≡ length behind.now.sets + 1 }
    requires few { length groups.now ≤ 2 ^ 30 + 1 }
    requires groups { All (AreRunsFrom 0 (size_of out)) groups.now }
    requires names { names.old.items ≡ [] }
    ensures put { OnOk result (AreSetsPut names.new.items (kinds_behind out groups.now behind.now)
        to.old.items to.new.items) }
    ensures few { OnOk result (length names.new.items ≤ 2 ^ 31) }
{
    let mut runs = Vec::new(alloc);
    for number in 0..behind.len() {
        groups.put_runs(number + 1, &mut runs)?;
        put_kind(out, behind, number, &runs, names, to)?;
    }
    Ok(())
}

/// Appends the sets of the kind of a set of the input, if it stands behind some cell: the cells of
/// these runs.
fn put_kind(
    out: Shape,
    behind: &SetTable,
    number: u32,
    group: &[Run],
    names: &mut Vec<u32>,
    to: &mut Vec<u8>,
) -> Result<(), NoMemory>
    requires number { number < length behind.now.sets }
    requires group { AreRunsFrom 0 (size_of out) group.now }
    requires few { length names.old.items ≤ 2 ^ 31 }
    ensures { OnOk result (IsKindPut (not (length group.now == 0)) names.old.items
        names.new.items to.old.items to.new.items
        (kind_of out group.now (set_at behind.now.sets number))) }
{
    if group.is_empty() {
        return Ok(());
    }
    let own = ListedSet {
        array: 0,
        shape: out,
        runs: group,
    };
    let set = ListedSet {
        array: 1,
        shape: behind.shape(),
        runs: behind.runs(number),
    };
    put_set(&own, names, to)?;
    put_set(&set, names, to)
}

/// Appends a set behind as many as there are names, and its number to the names.
fn put_set(set: &ListedSet, names: &mut Vec<u32>, to: &mut Vec<u8>) -> Result<(), NoMemory>
    requires few { length names.old.items < 2 ^ 32 }
    requires set { IsSetOf set.now.set.extent set.now.set }
    ensures { OnOk result (ArePut names.old.items names.new.items to.old.items to.new.items
        (set.now ∷ [])) }
{
    names.push(names.len() as u32)?;
    put_listed(set, to)
}

/// Whether each set of the input has a cell.
fn have_cells(table: &RegionTable) -> bool
    requires { 0 < length table.now.ins }
    ensures some { result ≡ true → All (λ s. s.indexes ≢ []) (sets_of table.now.sets 0) }
    ensures sets { result ≡ true
        → All (IsSetOf (extent_at table.now.ins 0)) (sets_of table.now.sets 0) }
{
    for number in 0..table.sets_of(0) {
        if table.in_runs(0, number).is_empty() {
            return false;
        }
    }
    true
}

/// For each output cell the number of what stands behind it by the rows of a table. `None` where
/// a cell is in the output sets of two rows.
fn label_rows(alloc: Global, out: Shape, table: &RegionTable) -> Result<Option<Vec<u32>>, NoMemory>
    requires one { length table.now.ins ≡ 1 }
    requires out { table.now.out ≡ out }
    requires sets { All (IsSetOf (extent_at table.now.ins 0)) (sets_of table.now.sets 0) }
    ensures labels { IfOk result (λ o. IfSome o (λ v. AreLabels out table.now.ins
        (pairings table.now) v.items (lists_of table.now.ins (sets_of table.now.sets 0)))) }
    ensures shapes { IfOk result
        (λ o. OnSome o (All (HasShapes out table.now.ins) (pairings table.now))) }
{
    let mut labels = vec![in alloc; 0u32; out.size() as usize]?;
    for row in 0..table.len() {
        if !label_row(table, row, &mut labels) {
            return Ok(None);
        }
    }
    Ok(Some(labels))
}

/// Labels the cells of a row's output set with the number of its set of the input, and one more.
/// `false` where one of them is labelled.
fn label_row(table: &RegionTable, row: u32, labels: &mut Vec<u32>) -> bool
    requires input { 0 < length table.now.ins }
    requires row { row < length table.now.rows }
    requires size { length labels.old.items ≡ size_of table.now.out }
    ensures marked { let r = pairing_at table.now row in result ≡ true
        → (ins : List Extent) (lists : List (List Cells))
        → IsNext ins r lists 0 (number_in (row_at table.now.rows row) 0 + 1)
        → AreMarked ins r (has_index r) labels.old.items labels.new.items lists lists }
    ensures shape { result ≡ true → (pairing_at table.now row).out.extent ≡ table.now.out }
{
    table.len(); // each row names sets of the table
    table.sets_of(0); // of which there are so few that each number has one above it
    let label = table.number_of(row, 0) + 1;
    let runs = table.out_runs(table.out_number(row));
    for run in runs {
        if !label_run(*run, label, labels) {
            return false;
        }
    }
    true
}

/// Labels the cells of a run. `false` where one of them is labelled.
fn label_run(run: Run, label: u32, labels: &mut Vec<u32>) -> bool
    requires order { run.first ≤ run.last }
    requires within { run.last < length labels.old.items }
    ensures long { length labels.new.items ≡ length labels.old.items }
    ensures marked { result ≡ true
        → (ins : List Extent) (r : Pairing) (lists : List (List Cells)) → IsNext ins r lists 0 label
        → AreMarked ins r (is_in run) labels.old.items labels.new.items lists lists }
{
    for index in run.first as usize..run.last as usize + 1 {
        if labels[index] != 0 {
            return false;
        }
        labels[index] = label;
    }
    true
}
