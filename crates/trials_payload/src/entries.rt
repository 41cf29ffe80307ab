//! Looks in both directions, whichever way entries are found, and their bytes. What each look finds
//! was worked by hand, and so were the bytes.
//!
//! The operator is `lookup`, from 2 rows of 3 and a table of one row of 4. Cells 0 and 1 of the
//! output name column 1, cell 3 names none, and the others are in no entry.

ghost use Rattle.std.specs.Prelude.{◌≡◌, ◌<◌, ◌≤◌, [], ◌∷◌, IfOk, false};
ghost use Rattle.std.specs.Arc.{arc_value};
ghost use Rattle.sz_cells.specs.Extent.{flat, size_of};
ghost use Rattle.sz_cells.specs.Cells.{named_in};
ghost use Rattle.sz_spec.specs.Sides.{extent_before, extent_after};
ghost use Rattle.sz_spec.specs.declared.op.Op.TheVariants.{Lookup};

use std::alloc::Global;
use std::sync::Arc;
use std::test::Fail;
use sz_cells::{Cell, CellBits, CellSet, Run, Shape};
use sz_frame::{PayEntry, Payload, PieceLineage};
use sz_payload::{PayMap, PayStore};
use sz_region::Take;
use sz_spec::{Dir, Op, OpAt};

/// Two payloads, none and that of column 1; two sets, {0, 1} and {3}; and the two entries.
const BYTES: [u8; 64] = [
    0, 0, 0, 2, 0, 0, 0, 0, 0, 0, 0, 4, 0, 0, 0, 1, 0, 0, 0, 2, 0, 0, 0, 1, 0, 0, 0, 0, 0, 0, 0, 1,
    0, 0, 0, 1, 0, 0, 0, 3, 0, 0, 0, 3, 0, 0, 0, 2, 0, 0, 0, 0, 0, 0, 0, 1, 0, 0, 0, 1, 0, 0, 0, 0,
];

/// The shape of one layer.
fn shape(rows: u32, cols: u32) -> Result<Shape, Fail>
    ensures { IfOk result (λ s. s ≡ flat rows cols) }
{
    Ok(Shape::make(rows, cols).ok_or("it is no shape")?)
}

/// `lookup` between these shapes.
fn sample(alloc: Global) -> Result<Arc<OpAt>, Fail>
    ensures { IfOk result (λ a. arc_value a
        ≡ record { op = Lookup; ins = flat 2 3 ∷ flat 1 4 ∷ []; out = flat 2 3 }) }
{
    let ins = vec![in alloc; shape(2, 3)?, shape(1, 4)?]?;
    match OpAt::of(Op::Lookup, ins) {
        Ok(at) => Ok(Arc::new(alloc, at)?),
        Err(_) => Err("the table has one row")?,
    }
}

/// The store of the entries.
fn store(alloc: Global, many: bool, comp: bool) -> Result<PayStore<PayMap>, Fail>
    ensures out { IfOk result (λ s. s.store.site.out ≡ flat 2 3) }
    ensures ins { IfOk result (λ s. s.store.site.ins ≡ flat 2 3 ∷ flat 1 4 ∷ []) }
{
    let at = sample(alloc)?;
    let map = PayMap::new(sample(alloc)?);
    let (store, _) = PayStore::take_bytes(alloc, map, at, many, comp, &BYTES, 0)?;
    Ok(store)
}

/// The shapes from which a look starts and to which it leads.
fn sides(dir: Dir, input: u32) -> Result<(Shape, Shape), Fail>
    requires { input < 2 }
    ensures near { IfOk result
        (λ s. s.0 ≡ extent_before dir (flat 2 3) (flat 2 3 ∷ flat 1 4 ∷ []) input) }
    ensures far { IfOk result
        (λ s. s.1 ≡ extent_after dir (flat 2 3) (flat 2 3 ∷ flat 1 4 ∷ []) input) }
    ensures size { IfOk result (λ s. 4 ≤ size_of s.0) }
{
    let out = shape(2, 3)?;
    let side = if input == 0 { out } else { shape(1, 4)? };
    Ok(match dir {
        Dir::Back => (out, side),
        Dir::Forward => (side, out),
    })
}

/// The run from one index to another.
fn run(first: u32, last: u32) -> Run
    ensures { result ≡ record { first = first; last = last } }
{
    Run { first, last }
}

/// Whether a look from the cells of a run finds those of these runs.
fn finds(
    alloc: Global,
    store: &PayStore<PayMap>,
    dir: Dir,
    input: u32,
    from: Run,
    want: &[Run],
) -> Result<bool, Fail>
    requires out { store.now.store.site.out ≡ flat 2 3 }
    requires ins { store.now.store.site.ins ≡ flat 2 3 ∷ flat 1 4 ∷ [] }
    requires input { input < 2 }
    requires order { from.first ≤ from.last }
    requires within { from.last < 4 }
{
    let (near, far) = sides(dir, input)?;
    let mut asked = CellBits::new(alloc, near)?;
    asked.add_run(from);
    let mut to = CellBits::new(alloc, far)?;
    store.image(dir, input, &asked, &mut to);
    Ok(to.to_set(alloc)?.runs() == want)
}

/// Whether looks find what they are to find, of payload or of composite lineage.
fn is_right(alloc: Global, store: &PayStore<PayMap>, comp: bool) -> Result<bool, Fail>
    requires out { store.now.store.site.out ≡ flat 2 3 }
    requires ins { store.now.store.site.ins ≡ flat 2 3 ∷ flat 1 4 ∷ [] }
{
    let first = if comp { run(0, 2) } else { run(0, 1) };
    Ok(
        finds(alloc, store, Dir::Back, 1, run(0, 3), &[run(1, 1)])?
            && finds(alloc, store, Dir::Back, 1, run(2, 3), &[])?
            && finds(alloc, store, Dir::Back, 0, run(3, 3), &[run(3, 3)])?
            && finds(alloc, store, Dir::Back, 0, run(0, 2), &[first])?
            && finds(alloc, store, Dir::Forward, 1, run(1, 2), &[run(0, 1)])?
            && finds(alloc, store, Dir::Forward, 1, run(2, 3), &[])?
            && finds(alloc, store, Dir::Forward, 0, run(0, 2), &[first])?
            && finds(alloc, store, Dir::Forward, 0, run(3, 3), &[run(3, 3)])?,
    )
}

/// Whether the store of the entries answers rightly, with payload or with composite lineage.
fn answers(alloc: Global, many: bool, comp: bool) -> Result<bool, Fail> {
    is_right(alloc, &store(alloc, many, comp)?, comp)
}

#[test]
fn stores_of_payload_lineage_answer_both_ways(rt: HostRuntime) -> Result<(), Fail> {
    let alloc = rt.alloc();
    assert!(rt; answers(alloc, false, false)? && answers(alloc, true, false)?);
    Ok(())
}

#[test]
fn stores_of_composite_lineage_have_defaults(rt: HostRuntime) -> Result<(), Fail> {
    let alloc = rt.alloc();
    assert!(rt; answers(alloc, false, true)? && answers(alloc, true, true)?);
    Ok(())
}

/// Appends the bytes that the store of the entries writes.
fn put(alloc: Global, to: &mut Vec<u8>) -> Result<(), Fail> {
    Ok(store(alloc, false, false)?.put_bytes(to)?)
}

#[test]
fn what_is_written_is_what_was_read(rt: HostRuntime) -> Result<(), Fail> {
    let alloc = rt.alloc();
    let mut bytes = vec![in alloc; 0u8; 0]?;
    put(alloc, &mut bytes)?;
    // payloads and sets keep the numbers that they were read with
    let read: &[u8] = &BYTES;
    assert!(rt; bytes.as_slice() == read);
    Ok(())
}

/// What is wrong with bytes of which a store is to be made.
fn fault_of(alloc: Global, bytes: &[u8]) -> Result<Option<Take>, Fail> {
    let at = sample(alloc)?;
    let map = PayMap::new(sample(alloc)?);
    Ok(PayStore::take_bytes(alloc, map, at, true, false, bytes, 0).err())
}

#[test]
fn a_payload_that_no_entry_names_is_judged(rt: HostRuntime) -> Result<(), Fail> {
    let bytes = [0, 0, 0, 1, 0, 0, 0, 4, 0, 0, 0, 4, 0, 0, 0, 0, 0, 0, 0, 0]; // column 4 of 4
    assert_eq!(rt; fault_of(rt.alloc(), &bytes)?, Some(Take::Bad { at: 0 }));
    Ok(())
}

/// A lineage of one entry: cell 3, which names column 3.
fn one_entry(alloc: Global) -> Result<PieceLineage, Fail>
    ensures { IfOk result (λ l. l.pays ≡ record {
      out = named_in (flat 2 3) (record { row = 1; col = 0 } ∷ []);
      payload = 0 ∷ 0 ∷ 0 ∷ 3 ∷ [];
    } ∷ []) }
{
    let cell = Cell { row: 1, col: 0 };
    let out = Arc::new(alloc, CellSet::from_cells(alloc, shape(2, 3)?, &[cell])?)?;
    let payload = Arc::new(alloc, Payload::of(vec![in alloc; 0, 0, 0, 3]?))?;
    let mut lineage = PieceLineage::new(alloc, 0);
    lineage.lwrite_payload(PayEntry { out, payload }, false)?;
    Ok(lineage)
}

/// A store of payload lineage that has no entry.
fn empty(alloc: Global) -> Result<PayStore<PayMap>, Fail>
    ensures comp { IfOk result (λ s. s.comp ≡ false) }
    ensures given { IfOk result (λ s. s.store.given ≡ []) }
    ensures site { IfOk result (λ s. s.store.site
        ≡ record { op = Lookup; ins = flat 2 3 ∷ flat 1 4 ∷ []; out = flat 2 3 }) }
{
    let at = sample(alloc)?;
    let map = PayMap::new(sample(alloc)?);
    Ok(PayStore::new(alloc, map, at, true, false)?)
}

/// A store of payload lineage to which a lineage of one entry was added.
fn with_one(alloc: Global, lineage: &PieceLineage) -> Result<PayStore<PayMap>, Fail>
    requires { lineage.now.pays ≡ record {
      out = named_in (flat 2 3) (record { row = 1; col = 0 } ∷ []);
      payload = 0 ∷ 0 ∷ 0 ∷ 3 ∷ [];
    } ∷ [] }
    ensures out { IfOk result (λ s. s.store.site.out ≡ flat 2 3) }
    ensures ins { IfOk result (λ s. s.store.site.ins ≡ flat 2 3 ∷ flat 1 4 ∷ []) }
{
    let mut store = empty(alloc)?;
    store.reserve_piece(lineage)?;
    store.add_piece(lineage);
    Ok(store)
}

/// Whether cell 3 and column 3 lead to each other.
fn is_found(alloc: Global, store: &PayStore<PayMap>) -> Result<bool, Fail>
    requires out { store.now.store.site.out ≡ flat 2 3 }
    requires ins { store.now.store.site.ins ≡ flat 2 3 ∷ flat 1 4 ∷ [] }
{
    let run = run(3, 3);
    Ok(
        finds(alloc, store, Dir::Back, 1, run, &[run])?
            && finds(alloc, store, Dir::Forward, 1, run, &[run])?,
    )
}

#[test]
fn an_entry_that_is_added_is_found(rt: HostRuntime) -> Result<(), Fail> {
    let alloc = rt.alloc();
    let store = with_one(alloc, &one_entry(alloc)?)?;
    assert!(rt; is_found(alloc, &store)?);
    Ok(())
}
