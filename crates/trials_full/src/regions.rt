//! Region pairs as rows, and their bytes, with memory to spare. The bytes were spelled by hand.

ghost use Rattle.std.specs.Prelude.{◌≡◌, ◌<◌, ◌+◌, [], ◌∷◌, length, All, IfOk, OnOk};
ghost use Rattle.std.specs.Arc.{arc_value};
ghost use Rattle.sz_cells.specs.Extent.{flat};

use crate::samples::{one_cell, row_of_20};
use std::alloc::Global;
use std::sync::Arc;
use std::test::Fail;
use std::thread::Threads;
use sz_cells::{CellSet, NoMemory, Run};
use sz_frame::{Region, SetList};
use sz_tables::{PairChecklist, RegionTable};

/// A table of no region pair, of an output and two inputs.
fn no_pairs(alloc: Global) -> Result<RegionTable, Fail>
    ensures out { IfOk result (λ t. t.out ≡ flat 1 20) }
    ensures ins { IfOk result (λ t. t.ins ≡ flat 1 20 ∷ flat 1 20 ∷ []) }
    ensures none { IfOk result (λ t. t.rows ≡ []) }
{
    let shape = row_of_20()?;
    Ok(RegionTable::new(alloc, shape, &[shape, shape])?)
}

/// Adds the region pair of a set of the output, and one of each of two inputs.
fn add_sets(
    alloc: Global,
    table: &mut RegionTable,
    out: Arc<CellSet>,
    first: Arc<CellSet>,
    second: Arc<CellSet>,
) -> Result<(), NoMemory>
    requires out { table.old.out ≡ flat 1 20 }
    requires ins { table.old.ins ≡ flat 1 20 ∷ flat 1 20 ∷ [] }
    requires few { length table.old.rows < 100 }
    requires own { (arc_value out).extent ≡ flat 1 20 }
    requires one { (arc_value first).extent ≡ flat 1 20 }
    requires other { (arc_value second).extent ≡ flat 1 20 }
    ensures out { table.new.out ≡ table.old.out }
    ensures ins { table.new.ins ≡ table.old.ins }
    ensures one { OnOk result (length table.new.rows ≡ length table.old.rows + 1) }
{
    table.reserve(
        1,
        out.runs().len() + first.runs().len() + second.runs().len(),
    )?;
    let ins = SetList::of(vec![in alloc; first, second]?);
    table.add(&Region { out, ins });
    Ok(())
}

/// Adds the region pair of one cell of the output, and one of each of two inputs.
fn add_cells(alloc: Global, table: &mut RegionTable, cols: [u32; 3]) -> Result<(), Fail>
    requires out { table.old.out ≡ flat 1 20 }
    requires ins { table.old.ins ≡ flat 1 20 ∷ flat 1 20 ∷ [] }
    requires cols { All (λ c. c < 20) cols }
    requires few { length table.old.rows < 100 }
    ensures out { table.new.out ≡ table.old.out }
    ensures ins { table.new.ins ≡ table.old.ins }
    ensures one { OnOk result (length table.new.rows ≡ length table.old.rows + 1) }
{
    let out = one_cell(alloc, cols[0])?;
    let first = one_cell(alloc, cols[1])?;
    let second = one_cell(alloc, cols[2])?;
    Ok(add_sets(alloc, table, out, first, second)?)
}

/// Adds three region pairs, of which each set but one stands in two.
fn add_three(alloc: Global, table: &mut RegionTable) -> Result<(), Fail>
    requires out { table.old.out ≡ flat 1 20 }
    requires ins { table.old.ins ≡ flat 1 20 ∷ flat 1 20 ∷ [] }
    requires none { table.old.rows ≡ [] }
    ensures ins { table.new.ins ≡ table.old.ins }
    ensures rows { OnOk result (length table.new.rows ≡ 3) }
{
    add_cells(alloc, table, [1, 2, 3])?;
    add_cells(alloc, table, [1, 3, 2])?;
    add_cells(alloc, table, [4, 2, 3])
}

/// A table of these.
fn three_pairs(alloc: Global) -> Result<RegionTable, Fail>
    ensures rows { IfOk result (λ t. length t.rows ≡ 3) }
    ensures ins { IfOk result (λ t. length t.ins ≡ 2) }
{
    let mut table = no_pairs(alloc)?;
    add_three(alloc, &mut table)?;
    Ok(table)
}

/// Whether three region pairs are counted so, and their rows have these numbers.
fn are_numbered(table: &RegionTable) -> bool
    requires rows { length table.now.rows ≡ 3 }
    requires ins { length table.now.ins ≡ 2 }
{
    table.len() == 3
        && table.out_sets() == 2
        && table.sets_of(0) == 2
        && table.out_number(1) == 0
        && table.out_number(2) == 1
        && table.number_of(1, 0) == 1
        && table.number_of(2, 0) == 0
        && table.number_of(1, 1) == 1
}

#[test]
fn equal_sets_of_an_array_stand_once(rt: HostRuntime) -> Result<(), Fail> {
    let table = three_pairs(rt.alloc())?;
    assert!(rt; are_numbered(&table));
    Ok(())
}

/// Whether the last sets of the output and of input 1 are kept so.
fn are_kept(table: &RegionTable) -> bool
    requires { length table.now.ins ≡ 2 }
{
    1 < table.out_sets()
        && table.out_runs(1) == [Run { first: 4, last: 4 }].as_slice()
        && 1 < table.sets_of(1)
        && table.in_runs(1, 1) == [Run { first: 2, last: 2 }].as_slice()
}

#[test]
fn sets_are_kept_as_runs(rt: HostRuntime) -> Result<(), Fail> {
    let table = three_pairs(rt.alloc())?;
    assert!(rt; are_kept(&table));
    Ok(())
}

/// The bytes of no row, behind a 9.
fn bytes_of_none(alloc: Global) -> Result<Vec<u8>, Fail> {
    let table = no_pairs(alloc)?;
    let mut bytes = vec![in alloc; 9u8]?;
    table.put_bytes(&mut bytes)?;
    Ok(bytes)
}

#[test]
fn no_row_is_two_empty_lists(rt: HostRuntime) -> Result<(), Fail> {
    let bytes = bytes_of_none(rt.alloc())?;
    assert!(rt; bytes.as_slice() == b"\x09\0\0\0\0\0\0\0\0".as_slice());
    Ok(())
}

/// Adds two region pairs, which share the sets of the output and of input 1.
fn add_two(alloc: Global, table: &mut RegionTable) -> Result<(), Fail>
    requires out { table.old.out ≡ flat 1 20 }
    requires ins { table.old.ins ≡ flat 1 20 ∷ flat 1 20 ∷ [] }
    requires none { table.old.rows ≡ [] }
    ensures { table.new.ins ≡ table.old.ins }
{
    add_cells(alloc, table, [1, 2, 3])?;
    add_cells(alloc, table, [1, 3, 3])
}

/// A table of these.
fn two_pairs(alloc: Global) -> Result<RegionTable, Fail>
    ensures { IfOk result (λ t. length t.ins ≡ 2) }
{
    let mut table = no_pairs(alloc)?;
    add_two(alloc, &mut table)?;
    Ok(table)
}

/// What is written of some region pairs.
fn bytes_of(alloc: Global, table: &RegionTable) -> Result<Vec<u8>, NoMemory> {
    let mut bytes = Vec::new(alloc);
    table.put_bytes(&mut bytes)?;
    Ok(bytes)
}

/// The bytes of the sets of region pairs, and of their rows.
type Spelled = [&'static [u8]; 2];

/// Whether bytes are those of sets and rows.
fn are_spelled(bytes: &[u8], spelled: Spelled) -> bool {
    let [sets, rows] = spelled;
    bytes.get(..sets.len()) == Some(sets) && bytes.get(sets.len()..) == Some(rows)
}

/// The sets of the two region pairs.
const FOUR_SETS: &[u8] = &[
    0, 0, 0, 4, // four sets
    0, 0, 0, 0, 1, 0, 0, 0, 1, 0, 0, 0, 1, // output: 1
    1, 0, 0, 0, 1, 0, 0, 0, 2, 0, 0, 0, 2, // input 0: 2
    1, 0, 0, 0, 1, 0, 0, 0, 3, 0, 0, 0, 3, // input 0: 3
    2, 0, 0, 0, 1, 0, 0, 0, 3, 0, 0, 0, 3, // input 1: 3
];

/// Their rows, the first row twice, and it alone.
const BOTH_ROWS: &[u8] = &[
    0, 0, 0, 2, // two rows
    0, 0, 0, 0, 0, 0, 0, 1, 0, 0, 0, 3, //
    0, 0, 0, 0, 0, 0, 0, 2, 0, 0, 0, 3,
];

const ROW_TWICE: &[u8] = &[
    0, 0, 0, 2, // two rows
    0, 0, 0, 0, 0, 0, 0, 1, 0, 0, 0, 3, //
    0, 0, 0, 0, 0, 0, 0, 1, 0, 0, 0, 3,
];

const ONE_ROW: &[u8] = &[0, 0, 0, 1, 0, 0, 0, 0, 0, 0, 0, 1, 0, 0, 0, 3];

#[test]
fn each_set_of_an_array_is_written_once(rt: HostRuntime) -> Result<(), Fail> {
    let alloc = rt.alloc();
    let table = two_pairs(alloc)?;
    let bytes = bytes_of(alloc, &table)?;
    assert!(rt; are_spelled(&bytes, [FOUR_SETS, BOTH_ROWS]));
    Ok(())
}

/// The bytes of sets and rows.
fn spell(alloc: Global, spelled: Spelled) -> Result<Vec<u8>, NoMemory> {
    let [sets, rows] = spelled;
    let mut bytes = sets.to_vec(alloc)?;
    bytes.extend_from_slice(rows)?;
    Ok(bytes)
}

/// What is written of the region pairs that some bytes are.
fn written_again<R: Threads + Sync>(rt: &R, alloc: Global, bytes: &[u8]) -> Result<Vec<u8>, Fail> {
    let shape = row_of_20()?;
    let (table, _next) = RegionTable::take_bytes(rt, alloc, shape, &[shape, shape], bytes, 0)?;
    Ok(bytes_of(alloc, &table)?)
}

/// Whether the region pairs of some sets and rows are written as others.
fn is_written_as<R: Threads + Sync>(
    rt: &R,
    alloc: Global,
    from: Spelled,
    to: Spelled,
) -> Result<bool, Fail> {
    let bytes = spell(alloc, from)?;
    let again = written_again(rt, alloc, &bytes)?;
    Ok(are_spelled(&again, to))
}

/// No row names the second set of input 0.
#[test]
fn a_set_that_no_pair_names_is_kept(rt: HostRuntime) -> Result<(), Fail> {
    let twice = [FOUR_SETS, ROW_TWICE];
    assert!(rt; is_written_as(&rt, rt.alloc(), twice, twice)?);
    Ok(())
}

/// The sets without the second one of input 0, and the first row behind them.
const THREE_SETS: &[u8] = &[
    0, 0, 0, 3, // three sets
    0, 0, 0, 0, 1, 0, 0, 0, 1, 0, 0, 0, 1, // output: 1
    1, 0, 0, 0, 1, 0, 0, 0, 2, 0, 0, 0, 2, // input 0: 2
    2, 0, 0, 0, 1, 0, 0, 0, 3, 0, 0, 0, 3, // input 1: 3
];

const ONE_ROW_BEHIND: &[u8] = &[0, 0, 0, 1, 0, 0, 0, 0, 0, 0, 0, 1, 0, 0, 0, 2];

/// Of input 0 there are more sets than rows.
#[test]
fn sets_in_place_of_pairs_are_left_out(rt: HostRuntime) -> Result<(), Fail> {
    let left = [THREE_SETS, ONE_ROW_BEHIND];
    assert!(rt; is_written_as(&rt, rt.alloc(), [FOUR_SETS, ONE_ROW], left)?);
    Ok(())
}

/// The sets of one cell of each of two inputs.
fn ins_of(alloc: Global, first: u32, second: u32) -> Result<SetList, Fail>
    requires first { first < 20 }
    requires second { second < 20 }
{
    let first = one_cell(alloc, first)?;
    let second = one_cell(alloc, second)?;
    Ok(SetList::of(vec![in alloc; first, second]?))
}

/// Adds a region pair of one cell of the output, and one of each of two inputs, to others.
fn push_pair(alloc: Global, pairs: &mut Vec<Arc<Region>>, cols: [u32; 3]) -> Result<(), Fail>
    requires { All (λ c. c < 20) cols }
{
    let ins = ins_of(alloc, cols[1], cols[2])?;
    let out = one_cell(alloc, cols[0])?;
    pairs.push(Arc::new(alloc, Region { out, ins })?)?;
    Ok(())
}

/// Whether these are the region pairs of a table.
fn are_pairs_of(alloc: Global, table: &RegionTable, pairs: &[Arc<Region>]) -> Result<bool, NoMemory>
    requires { length table.now.ins ≡ 2 }
{
    let mut list = PairChecklist::new(alloc, table);
    Ok(list.tick_all(pairs)? && list.is_done()?)
}

/// Whether these are the region pairs of a table of two.
fn are_two_pairs(alloc: Global, pairs: &[Arc<Region>]) -> Result<bool, Fail> {
    let table = two_pairs(alloc)?;
    Ok(are_pairs_of(alloc, &table, pairs)?)
}

/// Whether they are one of these cells.
fn is_one(alloc: Global, cols: [u32; 3]) -> Result<bool, Fail>
    requires { All (λ c. c < 20) cols }
{
    let mut pairs = Vec::new(alloc);
    push_pair(alloc, &mut pairs, cols)?;
    are_two_pairs(alloc, &pairs)
}

/// Whether they are two of these cells.
fn are_both(alloc: Global, one: [u32; 3], other: [u32; 3]) -> Result<bool, Fail>
    requires one { All (λ c. c < 20) one }
    requires other { All (λ c. c < 20) other }
{
    let mut pairs = Vec::new(alloc);
    push_pair(alloc, &mut pairs, one)?;
    push_pair(alloc, &mut pairs, other)?;
    are_two_pairs(alloc, &pairs)
}

#[test]
fn a_checklist_is_done_where_each_pair_is_ticked(rt: HostRuntime) -> Result<(), Fail> {
    assert!(rt; are_both(rt.alloc(), [1, 3, 3], [1, 2, 3])?);
    assert!(rt; !is_one(rt.alloc(), [1, 3, 3])?);
    Ok(())
}

/// A list of the one region pair of these cells.
fn pair_alone(alloc: Global, cols: [u32; 3]) -> Result<Vec<Arc<Region>>, Fail>
    requires { All (λ c. c < 20) cols }
{
    let mut pairs = Vec::new(alloc);
    push_pair(alloc, &mut pairs, cols)?;
    Ok(pairs)
}

/// Whether a checklist of a table is done where these region pairs were ticked on a list of their
/// own, and joined behind those.
fn are_done_joined(
    alloc: Global,
    table: &RegionTable,
    first: &[Arc<Region>],
    second: &[Arc<Region>],
) -> Result<bool, NoMemory>
    requires { length table.now.ins ≡ 2 }
{
    let mut list = PairChecklist::new(alloc, table);
    let mut other = list.fork();
    let both = list.tick_all(first)? && other.tick_all(second)?;
    list.join(&other)?;
    Ok(both && list.is_done()?)
}

/// Whether a checklist of the two region pairs is done where this one was ticked on a list of its
/// own, and joined behind the first.
fn is_done_joined(alloc: Global, cols: [u32; 3]) -> Result<bool, Fail>
    requires { All (λ c. c < 20) cols }
{
    let first = pair_alone(alloc, [1, 2, 3])?;
    let second = pair_alone(alloc, cols)?;
    let table = two_pairs(alloc)?;
    Ok(are_done_joined(alloc, &table, &first, &second)?)
}

#[test]
fn what_another_list_has_ticked_is_joined(rt: HostRuntime) -> Result<(), Fail> {
    let alloc = rt.alloc();
    assert!(rt; is_done_joined(alloc, [1, 3, 3])?);
    assert!(rt; !is_done_joined(alloc, [1, 2, 3])?);
    Ok(())
}

#[test]
fn a_pair_that_is_not_kept_is_not_ticked(rt: HostRuntime) -> Result<(), Fail> {
    // both sets are known
    assert!(rt; !are_both(rt.alloc(), [1, 2, 3], [1, 2, 3])?);
    // a set is another one
    assert!(rt; !are_both(rt.alloc(), [1, 2, 3], [2, 3, 3])?);
    Ok(())
}
