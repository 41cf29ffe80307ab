//! Looks in both directions, whichever way a store is indexed, and its bytes. What each look finds
//! was worked by hand.
//!
//! The operator is `lookup`, from 2 rows of 3 and a table of one row of 4. The region pairs are
//! none of its own. By row-major indexes:
//!
//! ```text
//!     output   input 0   input 1
//! a   0 to 1   4 to 5    1
//! b   1 to 3   0         3
//! c   -        2         0
//! d   3        -         1 to 2
//! e   0 to 1   2         1
//! ```

ghost use Rattle.std.specs.Prelude.{◌≡◌, ◌<◌, ◌≤◌, ◌+◌, [], ◌∷◌, length, map, IfOk, OnOk};
ghost use Rattle.std.specs.Arc.{arc_value};
ghost use Rattle.sz_cells.specs.Extent.{flat, size_of};
ghost use Rattle.sz_spec.specs.Sides.{near_side, far_side};

use std::alloc::Global;
use std::sync::Arc;
use std::test::Fail;
use std::thread::Threads;
use sz_cells::{CellBits, CellSet, NoMemory, Run, Shape};
use sz_frame::{PieceLineage, Region, SetList};
use sz_full_many::FullMany;
use sz_region::Take;
use sz_spec::{Dir, Op, OpAt};

/// The output's shape, which is that of input 0.
fn picture() -> Result<Shape, Fail>
    ensures { IfOk result (λ s. s ≡ flat 2 3) }
{
    Ok(Shape::make(2, 3).ok_or("two rows of three are a shape")?)
}

/// The shape of input 1.
fn table() -> Result<Shape, Fail>
    ensures { IfOk result (λ s. s ≡ flat 1 4) }
{
    Ok(Shape::make(1, 4).ok_or("a row of four is a shape")?)
}

/// `lookup` between these shapes.
fn sample(alloc: Global) -> Result<Arc<OpAt>, Fail>
    ensures out { IfOk result (λ a. (arc_value a).out ≡ flat 2 3) }
    ensures ins { IfOk result (λ a. (arc_value a).ins ≡ flat 2 3 ∷ flat 1 4 ∷ []) }
{
    let ins = vec![in alloc; picture()?, table()?]?;
    match OpAt::of(Op::Lookup, ins) {
        Ok(at) => Ok(Arc::new(alloc, at)?),
        Err(_) => Err("the table has one row")?,
    }
}

/// The set of one run, or of no cell.
fn set_of(alloc: Global, shape: Shape, run: Option<[u32; 2]>) -> Result<Arc<CellSet>, Fail>
    ensures { IfOk result (λ s. (arc_value s).extent ≡ shape) }
{
    let mut bits = CellBits::new(alloc, shape)?;
    if let Some(run) = run {
        let [first, last] = run;
        if first > last || last >= shape.size() {
            return Err("this is no run of the shape".into());
        }
        bits.add_run(Run { first, last });
    }
    let set = bits.to_set(alloc)?;
    Ok(Arc::new(alloc, set)?)
}

/// The sets of these runs of the inputs.
fn ins_of(alloc: Global, first: Option<[u32; 2]>, second: Option<[u32; 2]>) -> Result<SetList, Fail>
    ensures { IfOk result (λ l. map (λ s. s.extent) l ≡ flat 2 3 ∷ flat 1 4 ∷ []) }
{
    let first = set_of(alloc, picture()?, first)?;
    let second = set_of(alloc, table()?, second)?;
    Ok(SetList::of(vec![in alloc; first, second]?))
}

/// Runs of the output and of each input, or no cell of it.
type Runs = [Option<[u32; 2]>; 3];

/// The region pair of these sets.
fn pair_of(alloc: Global, runs: Runs) -> Result<Region, Fail>
    ensures out { IfOk result (λ r. r.out.extent ≡ flat 2 3) }
    ensures ins { IfOk result (λ r. map (λ s. s.extent) r.ins ≡ flat 2 3 ∷ flat 1 4 ∷ []) }
{
    let ins = ins_of(alloc, runs[1], runs[2])?;
    let out = set_of(alloc, picture()?, runs[0])?;
    Ok(Region { out, ins })
}

/// Gives a store the region pair of these runs.
fn give_runs(alloc: Global, store: &mut FullMany, runs: Runs) -> Result<(), Fail>
    requires to { store.old.site.out ≡ flat 2 3 }
    requires ins { store.old.site.ins ≡ flat 2 3 ∷ flat 1 4 ∷ [] }
    requires few { length store.old.given < 100 }
    ensures site { store.new.site ≡ store.old.site }
    ensures one { OnOk result (length store.new.given ≡ length store.old.given + 1) }
{
    let mut lineage = PieceLineage::new(alloc, 0);
    lineage.lwrite(pair_of(alloc, runs)?)?;
    store.reserve_piece(&lineage)?;
    store.add_piece(&lineage);
    Ok(())
}

/// Gives a store the region pairs of these runs.
fn give_all(alloc: Global, store: &mut FullMany, pairs: &[Runs]) -> Result<(), Fail>
    requires to { store.old.site.out ≡ flat 2 3 }
    requires ins { store.old.site.ins ≡ flat 2 3 ∷ flat 1 4 ∷ [] }
    requires few { length store.old.given + length pairs.now < 100 }
    ensures { store.new.site ≡ store.old.site }
{
    let [runs, others @ ..] = pairs else {
        return Ok(());
    };
    give_runs(alloc, store, *runs)?;
    give_all(alloc, store, others)
}

/// The five region pairs.
const PAIRS: [Runs; 5] = [
    [Some([0, 1]), Some([4, 5]), Some([1, 1])],
    [Some([1, 3]), Some([0, 0]), Some([3, 3])],
    [None, Some([2, 2]), Some([0, 0])],
    [Some([3, 3]), None, Some([1, 2])],
    [Some([0, 1]), Some([2, 2]), Some([1, 1])],
];

/// The store of the five region pairs, indexed for looks in a direction.
fn store(alloc: Global, dir: Dir) -> Result<FullMany, Fail>
    ensures out { IfOk result (λ s. s.site.out ≡ flat 2 3) }
    ensures ins { IfOk result (λ s. s.site.ins ≡ flat 2 3 ∷ flat 1 4 ∷ []) }
{
    let mut store = FullMany::new(alloc, sample(alloc)?, dir)?;
    give_all(alloc, &mut store, &PAIRS)?;
    Ok(store)
}

/// Whether the image of the cells of a run has these runs.
fn leads_to(
    alloc: Global,
    store: &FullMany,
    dir: Dir,
    input: u32,
    near: Shape,
    far: Shape,
    from: Run,
    wanted: &[Run],
) -> Result<bool, NoMemory>
    requires input { input < length store.now.site.ins }
    requires near { near ≡ near_side dir store.now.site input }
    requires far { far ≡ far_side dir store.now.site input }
    requires order { from.first ≤ from.last }
    requires within { from.last < size_of near }
{
    let mut asked = CellBits::new(alloc, near)?;
    asked.add_run(from);
    let mut to = CellBits::new(alloc, far)?;
    store.image(dir, input, &asked, &mut to);
    let found = to.to_set(alloc)?;
    Ok(found.runs() == wanted)
}

/// The number of an input, a run of cells that is asked for, and the runs that are found.
type Found = (u32, [u32; 2], &'static [Run]);

/// Whether a look finds what it is to find.
fn finds(alloc: Global, store: &FullMany, dir: Dir, row: Found) -> Result<bool, Fail>
    requires out { store.now.site.out ≡ flat 2 3 }
    requires ins { store.now.site.ins ≡ flat 2 3 ∷ flat 1 4 ∷ [] }
{
    let (input, [first, last], wanted) = row;
    if input > 1 || first > last || last >= 4 {
        return Err("these are no cells of an input".into());
    }
    let own = picture()?;
    let side = if input == 0 { own } else { table()? };
    let (near, far) = match dir {
        Dir::Back => (own, side),
        Dir::Forward => (side, own),
    };
    Ok(leads_to(
        alloc,
        store,
        dir,
        input,
        near,
        far,
        Run { first, last },
        wanted,
    )?)
}

/// Whether each of these looks does.
fn finds_all(alloc: Global, store: &FullMany, dir: Dir, rows: &[Found]) -> Result<bool, Fail>
    requires out { store.now.site.out ≡ flat 2 3 }
    requires ins { store.now.site.ins ≡ flat 2 3 ∷ flat 1 4 ∷ [] }
{
    let [row, others @ ..] = rows else {
        return Ok(true);
    };
    Ok(finds(alloc, store, dir, *row)? && finds_all(alloc, store, dir, others)?)
}

/// What looks backward find.
const BACKWARD: [Found; 5] = [
    (
        0,
        [1, 1],
        &[
            Run { first: 0, last: 0 },
            Run { first: 2, last: 2 },
            Run { first: 4, last: 5 },
        ],
    ),
    (
        0,
        [0, 0],
        &[Run { first: 2, last: 2 }, Run { first: 4, last: 5 }],
    ),
    (0, [3, 3], &[Run { first: 0, last: 0 }]),
    (1, [3, 3], &[Run { first: 1, last: 3 }]),
    (1, [2, 2], &[Run { first: 3, last: 3 }]),
];

/// What looks forward find.
const FORWARD: [Found; 6] = [
    (0, [2, 2], &[Run { first: 0, last: 1 }]),
    (0, [0, 0], &[Run { first: 1, last: 3 }]),
    (0, [1, 1], &[]),
    (
        1,
        [1, 1],
        &[Run { first: 0, last: 1 }, Run { first: 3, last: 3 }],
    ),
    (1, [2, 3], &[Run { first: 1, last: 3 }]),
    (1, [0, 0], &[]),
];

/// Whether looks both ways find what they are to find.
fn is_right(alloc: Global, store: &FullMany) -> Result<bool, Fail>
    requires out { store.now.site.out ≡ flat 2 3 }
    requires ins { store.now.site.ins ≡ flat 2 3 ∷ flat 1 4 ∷ [] }
{
    Ok(
        finds_all(alloc, store, Dir::Back, &BACKWARD)?
            && finds_all(alloc, store, Dir::Forward, &FORWARD)?,
    )
}

/// Whether they do in the store that is indexed for looks in a direction.
fn is_right_indexed(alloc: Global, dir: Dir) -> Result<bool, Fail> {
    let store = store(alloc, dir)?;
    is_right(alloc, &store)
}

#[test]
fn a_store_indexed_backward_answers_both_ways(rt: HostRuntime) -> Result<(), Fail> {
    assert!(rt; is_right_indexed(rt.alloc(), Dir::Back)?);
    Ok(())
}

#[test]
fn a_store_indexed_forward_answers_both_ways(rt: HostRuntime) -> Result<(), Fail> {
    assert!(rt; is_right_indexed(rt.alloc(), Dir::Forward)?);
    Ok(())
}

/// The bytes of a store, between a 7 and a 9.
fn written(alloc: Global, store: &FullMany) -> Result<Vec<u8>, Fail> {
    let mut bytes = vec![in alloc; 7u8]?;
    store.put_bytes(&mut bytes)?;
    bytes.push(9)?;
    Ok(bytes)
}

/// Whether a store is read up to the last byte, and looks both ways find what they are to find.
fn is_read<R: Threads + Sync>(rt: &R, alloc: Global, bytes: &[u8]) -> Result<bool, Fail> {
    let (again, next) = FullMany::take_bytes(rt, alloc, sample(alloc)?, Dir::Forward, bytes, 1)?;
    Ok(next.checked_add(1) == Some(bytes.len() as u64) && is_right(alloc, &again)?)
}

#[test]
fn what_is_written_is_read_again(rt: HostRuntime) -> Result<(), Fail> {
    let alloc = rt.alloc();
    let store = store(alloc, Dir::Back)?;
    let bytes = written(alloc, &store)?;
    assert!(rt; is_read(&rt, alloc, &bytes)?);
    Ok(())
}

/// Why some bytes are no store.
fn fault_of<R: Threads + Sync>(rt: &R, alloc: Global, bytes: &[u8]) -> Result<Option<Take>, Fail> {
    let at = sample(alloc)?;
    Ok(FullMany::take_bytes(rt, alloc, at, Dir::Back, bytes, 0).err())
}

#[test]
fn bytes_of_no_store_are_refused(rt: HostRuntime) -> Result<(), Fail> {
    assert!(rt; fault_of(&rt, rt.alloc(), &[0, 0, 0])? == Some(Take::Bad { at: 0 }));
    Ok(())
}
