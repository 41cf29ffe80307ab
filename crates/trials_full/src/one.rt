//! Stores with memory to spare, indexed both ways and asked both ways. The cells that are found
//! were worked by hand.

ghost use Rattle.std.specs.Prelude.{◌≡◌, ◌<◌, ◌≤◌, ◌+◌, ◌∷◌, [], length, map, IfOk, OnOk};
ghost use Rattle.std.specs.Arc.{arc_value};
ghost use Rattle.sz_cells.specs.Extent.{flat, size_of};
ghost use Rattle.sz_spec.specs.Sides.{near_side, far_side};
ghost use Rattle.sz_tables.specs.Stores.{IsPairOf};

use std::alloc::Global;
use std::sync::Arc;
use std::test::Fail;
use sz_cells::{CellBits, CellSet, NoMemory, Run, Shape};
use sz_frame::{PieceLineage, Region, SetList};
use sz_full_one::FullOne;
use sz_region::Take;
use sz_spec::{Dir, Op, OpAt};

/// The shape of one row.
fn row(cols: u32) -> Result<Shape, Fail>
    ensures { IfOk result (λ s. s ≡ flat 1 cols) }
{
    Ok(Shape::make(1, cols).ok_or("it is no shape")?)
}

/// An operator from a row of six cells to a row of six.
fn six_to_six(alloc: Global) -> Result<Arc<OpAt>, Fail>
    ensures { IfOk result (λ a. arc_value a
        ≡ record { op = Op.Neg; ins = flat 1 6 ∷ []; out = flat 1 6 }) }
{
    match OpAt::of(Op::Neg, vec![in alloc; row(6)?]?) {
        Ok(at) => Ok(Arc::new(alloc, at)?),
        Err(_) => Err("every shape can be negated".into()),
    }
}

/// An operator from rows of three and two cells to a row of three.
fn three_and_two(alloc: Global) -> Result<Arc<OpAt>, Fail>
    ensures { IfOk result (λ a. arc_value a
        ≡ record { op = Op.Lookup; ins = flat 1 3 ∷ flat 1 2 ∷ []; out = flat 1 3 }) }
{
    match OpAt::of(Op::Lookup, vec![in alloc; row(3)?, row(2)?]?) {
        Ok(at) => Ok(Arc::new(alloc, at)?),
        Err(_) => Err("the table has one row".into()),
    }
}

/// The set of the cells of a run.
fn cells(alloc: Global, shape: Shape, first: u32, last: u32) -> Result<Arc<CellSet>, NoMemory>
    requires order { first ≤ last }
    requires within { last < size_of shape }
    ensures { IfOk result (λ s. (arc_value s).extent ≡ shape) }
{
    let runs = vec![in alloc; Run { first, last }]?;
    Ok(Arc::new(alloc, CellSet::from_runs(shape, runs))?)
}

/// Gives a store one region pair.
fn give(alloc: Global, store: &mut FullOne, region: Region) -> Result<(), Fail>
    requires pair { IsPairOf store.old.site region }
    requires few { length store.old.given < 100 }
    ensures site { store.new.site ≡ store.old.site }
    ensures one { OnOk result (length store.new.given ≡ length store.old.given + 1) }
{
    let mut lineage = PieceLineage::new(alloc, 0);
    lineage.lwrite(region)?;
    store.reserve_piece(&lineage)?;
    store.add_piece(&lineage);
    Ok(())
}

/// The set of the cells of a run of a row of six.
fn cells_of(alloc: Global, run: [u32; 2]) -> Result<Arc<CellSet>, Fail>
    ensures { IfOk result (λ s. (arc_value s).extent ≡ flat 1 6) }
{
    let [first, last] = run;
    if first > last || last >= 6 {
        return Err("this is no run of six cells".into());
    }
    let shape = row(6)?;
    Ok(cells(alloc, shape, first, last)?)
}

/// The region pair of two runs of rows of six cells.
fn pair_of(alloc: Global, out: [u32; 2], ins: [u32; 2]) -> Result<Region, Fail>
    ensures out { IfOk result (λ r. r.out.extent ≡ flat 1 6) }
    ensures ins { IfOk result (λ r. map (λ s. s.extent) r.ins ≡ flat 1 6 ∷ []) }
{
    let set = cells_of(alloc, ins)?;
    let ins = SetList::of(vec![in alloc; set]?);
    let out = cells_of(alloc, out)?;
    Ok(Region { out, ins })
}

/// Gives a store of six cells to six the region pair of two runs.
fn give_runs(alloc: Global, store: &mut FullOne, out: [u32; 2], ins: [u32; 2]) -> Result<(), Fail>
    requires site { store.old.site ≡ record { op = Op.Neg; ins = flat 1 6 ∷ []; out = flat 1 6 } }
    requires few { length store.old.given < 100 }
    ensures site { store.new.site ≡ store.old.site }
    ensures one { OnOk result (length store.new.given ≡ length store.old.given + 1) }
{
    let region = pair_of(alloc, out, ins)?;
    give(alloc, store, region)
}

/// Whether the image of the cells of a run has these runs.
fn leads_to(
    alloc: Global,
    store: &FullOne,
    dir: Dir,
    input: u32,
    sides: [Shape; 2],
    asked: Run,
    wanted: &[Run],
) -> Result<bool, NoMemory>
    requires input { input < length store.now.site.ins }
    requires sides { sides ≡ near_side dir store.now.site input
        ∷ far_side dir store.now.site input ∷ [] }
    requires order { asked.first ≤ asked.last }
    requires within { asked.last < size_of (near_side dir store.now.site input) }
{
    let mut from = CellBits::new(alloc, sides[0])?;
    from.add_run(asked);
    let mut to = CellBits::new(alloc, sides[1])?;
    store.image(dir, input, &from, &mut to);
    let found = to.to_set(alloc)?;
    Ok(found.runs() == wanted)
}

/// A direction, a run of cells that is asked for, and the runs that are found.
type Found = (Dir, [u32; 2], &'static [Run]);

/// Whether a store of six cells to six finds what it is to find.
fn finds(alloc: Global, store: &FullOne, asked: Found) -> Result<bool, Fail>
    requires { store.now.site ≡ record { op = Op.Neg; ins = flat 1 6 ∷ []; out = flat 1 6 } }
{
    let (dir, [first, last], wanted) = asked;
    if first > last || last >= 6 {
        return Err("this is no run of six cells".into());
    }
    let shape = row(6)?;
    let run = Run { first, last };
    let sides = [shape, shape];
    let found = match dir {
        Dir::Back => leads_to(alloc, store, Dir::Back, 0, sides, run, wanted)?,
        Dir::Forward => leads_to(alloc, store, Dir::Forward, 0, sides, run, wanted)?,
    };
    Ok(found)
}

/// Whether it finds each of these.
fn finds_all(alloc: Global, store: &FullOne, rows: &[Found]) -> Result<bool, Fail>
    requires { store.now.site ≡ record { op = Op.Neg; ins = flat 1 6 ∷ []; out = flat 1 6 } }
{
    let [first, others @ ..] = rows else {
        return Ok(true);
    };
    Ok(finds(alloc, store, *first)? && finds_all(alloc, store, others)?)
}

/// Gives a store of six cells to six the region pairs of these runs, an output's and an input's
/// each.
fn give_all(alloc: Global, store: &mut FullOne, pairs: &[[[u32; 2]; 2]]) -> Result<(), Fail>
    requires site { store.old.site ≡ record { op = Op.Neg; ins = flat 1 6 ∷ []; out = flat 1 6 } }
    requires few { length store.old.given + length pairs.now < 100 }
    ensures { store.new.site ≡ store.old.site }
{
    let [[out, ins], others @ ..] = pairs else {
        return Ok(());
    };
    give_runs(alloc, store, *out, *ins)?;
    give_all(alloc, store, others)
}

/// A store of the region pairs of these runs.
fn store_of(alloc: Global, dir: Dir, pairs: &[[[u32; 2]; 2]]) -> Result<FullOne, Fail>
    requires { length pairs.now < 100 }
    ensures { IfOk result (λ s. s.site
        ≡ record { op = Op.Neg; ins = flat 1 6 ∷ []; out = flat 1 6 }) }
{
    let mut store = FullOne::new(alloc, six_to_six(alloc)?, dir)?;
    give_all(alloc, &mut store, pairs)?;
    Ok(store)
}

/// The windows of three cells round each cell.
const WINDOWS: [[[u32; 2]; 2]; 6] = [
    [[0, 0], [0, 1]],
    [[1, 1], [0, 2]],
    [[2, 2], [1, 3]],
    [[3, 3], [2, 4]],
    [[4, 4], [3, 5]],
    [[5, 5], [4, 5]],
];

/// Pairs that are no operator's: cell 3 of the output is in all of them, and two name one set of
/// the input.
const OVERLAPS: [[[u32; 2]; 2]; 3] = [[[0, 3], [0, 0]], [[3, 5], [4, 5]], [[3, 3], [0, 0]]];

/// What is found of the windows.
const FOUND_WINDOWS: [Found; 4] = [
    (Dir::Back, [2, 2], &[Run { first: 1, last: 3 }]),
    (Dir::Back, [4, 5], &[Run { first: 3, last: 5 }]),
    (Dir::Forward, [0, 0], &[Run { first: 0, last: 1 }]),
    (Dir::Forward, [3, 4], &[Run { first: 2, last: 5 }]),
];

/// What is found of the overlapping pairs.
const FOUND_OVERLAPS: [Found; 5] = [
    (Dir::Back, [0, 2], &[Run { first: 0, last: 0 }]),
    (
        Dir::Back,
        [3, 3],
        &[Run { first: 0, last: 0 }, Run { first: 4, last: 5 }],
    ),
    (Dir::Forward, [0, 1], &[Run { first: 0, last: 3 }]),
    (Dir::Forward, [5, 5], &[Run { first: 3, last: 5 }]),
    (Dir::Forward, [1, 3], &[]),
];

/// Whether a store of these region pairs finds each of these.
fn are_found(alloc: Global, dir: Dir, pairs: &[[[u32; 2]; 2]], rows: &[Found]) -> Result<bool, Fail>
    requires { length pairs.now < 100 }
{
    let store = store_of(alloc, dir, pairs)?;
    finds_all(alloc, &store, rows)
}

#[test]
fn windows_are_found_from_both_sides(rt: HostRuntime) -> Result<(), Fail> {
    assert!(rt; are_found(rt.alloc(), Dir::Back, &WINDOWS, &FOUND_WINDOWS)?);
    assert!(rt; are_found(rt.alloc(), Dir::Forward, &WINDOWS, &FOUND_WINDOWS)?);
    Ok(())
}

#[test]
fn overlapping_pairs_are_all_found(rt: HostRuntime) -> Result<(), Fail> {
    assert!(rt; are_found(rt.alloc(), Dir::Back, &OVERLAPS, &FOUND_OVERLAPS)?);
    assert!(rt; are_found(rt.alloc(), Dir::Forward, &OVERLAPS, &FOUND_OVERLAPS)?);
    Ok(())
}

/// The sets of one cell of each of two inputs.
fn two_sets(alloc: Global) -> Result<SetList, Fail>
    ensures { IfOk result (λ l. map (λ s. s.extent) l ≡ flat 1 3 ∷ flat 1 2 ∷ []) }
{
    let first = cells(alloc, row(3)?, 0, 0)?;
    let second = cells(alloc, row(2)?, 1, 1)?;
    Ok(SetList::of(vec![in alloc; first, second]?))
}

/// The region pair of two cells of the output and these.
fn pair_of_two(alloc: Global) -> Result<Region, Fail>
    ensures out { IfOk result (λ r. r.out.extent ≡ flat 1 3) }
    ensures ins { IfOk result (λ r. map (λ s. s.extent) r.ins ≡ flat 1 3 ∷ flat 1 2 ∷ []) }
{
    let ins = two_sets(alloc)?;
    let out = cells(alloc, row(3)?, 0, 1)?;
    Ok(Region { out, ins })
}

/// A store of one region pair of two inputs.
fn store_of_two(alloc: Global, dir: Dir) -> Result<FullOne, Fail>
    ensures { IfOk result (λ s. s.site
        ≡ record { op = Op.Lookup; ins = flat 1 3 ∷ flat 1 2 ∷ []; out = flat 1 3 }) }
{
    let mut store = FullOne::new(alloc, three_and_two(alloc)?, dir)?;
    let region = pair_of_two(alloc)?;
    give(alloc, &mut store, region)?;
    Ok(store)
}

/// Whether the pairs of two inputs are found backward, of each input its own.
fn inputs_are_behind(alloc: Global, store: &FullOne) -> Result<bool, Fail>
    requires { store.now.site
        ≡ record { op = Op.Lookup; ins = flat 1 3 ∷ flat 1 2 ∷ []; out = flat 1 3 } }
{
    let three = row(3)?;
    let one = Run { first: 1, last: 1 };
    let first = Run { first: 0, last: 0 };
    Ok(
        leads_to(alloc, store, Dir::Back, 0, [three, three], one, &[first])?
            && leads_to(alloc, store, Dir::Back, 1, [three, row(2)?], one, &[one])?,
    )
}

/// The same forward.
fn inputs_lead_on(alloc: Global, store: &FullOne) -> Result<bool, Fail>
    requires { store.now.site
        ≡ record { op = Op.Lookup; ins = flat 1 3 ∷ flat 1 2 ∷ []; out = flat 1 3 } }
{
    let three = row(3)?;
    let one = Run { first: 1, last: 1 };
    let whole = [Run { first: 0, last: 1 }];
    Ok(
        leads_to(alloc, store, Dir::Forward, 0, [three, three], one, &[])?
            && leads_to(alloc, store, Dir::Forward, 1, [row(2)?, three], one, &whole)?,
    )
}

/// Whether the pairs of two inputs are found from both sides.
fn inputs_are_found(alloc: Global, dir: Dir) -> Result<bool, Fail> {
    let store = store_of_two(alloc, dir)?;
    Ok(inputs_are_behind(alloc, &store)? && inputs_lead_on(alloc, &store)?)
}

#[test]
fn each_input_has_its_own_sets(rt: HostRuntime) -> Result<(), Fail> {
    assert!(rt; inputs_are_found(rt.alloc(), Dir::Back)?);
    assert!(rt; inputs_are_found(rt.alloc(), Dir::Forward)?);
    Ok(())
}

/// Adds the bytes of the overlapping pairs to others.
fn put(alloc: Global, bytes: &mut Vec<u8>) -> Result<(), Fail> {
    let store = store_of(alloc, Dir::Back, &OVERLAPS)?;
    store.put_bytes(bytes)?;
    Ok(())
}

/// The bytes of the overlapping pairs, between a 9 and a 7.
fn written(alloc: Global) -> Result<Vec<u8>, Fail> {
    let mut bytes = vec![in alloc; 9u8]?;
    put(alloc, &mut bytes)?;
    bytes.push(7)?;
    Ok(bytes)
}

/// Whether the overlapping pairs are read up to the last byte, and all found.
fn is_read(alloc: Global, bytes: &[u8]) -> Result<bool, Fail> {
    let (store, next) = FullOne::take_bytes(alloc, six_to_six(alloc)?, Dir::Forward, bytes, 1)?;
    Ok(
        next.checked_add(1) == Some(bytes.len() as u64)
            && finds_all(alloc, &store, &FOUND_OVERLAPS)?,
    )
}

#[test]
fn what_is_written_is_read_again(rt: HostRuntime) -> Result<(), Fail> {
    let alloc = rt.alloc();
    let bytes = written(alloc)?;
    assert!(rt; is_read(alloc, &bytes)?);
    Ok(())
}

/// Why no store begins at a place of some bytes.
fn fault_of(alloc: Global, bytes: &[u8], from: u64) -> Result<Option<Take>, Fail> {
    let at = six_to_six(alloc)?;
    Ok(FullOne::take_bytes(alloc, at, Dir::Back, bytes, from).err())
}

#[test]
fn bytes_of_no_store_are_refused(rt: HostRuntime) -> Result<(), Fail> {
    let alloc = rt.alloc();
    let bytes = written(alloc)?;
    assert!(rt; fault_of(alloc, &bytes, 2)? == Some(Take::Bad { at: 2 }));
    Ok(())
}
