//! Pieces placed one after another, what the stores then answer, and their bytes.
//!
//! The operator is `clean` over a row of 65 cells, whose output has two pieces. The lineages have
//! no entry, so full lineage stands for nothing, and composite lineage for its default: the same
//! cell.

ghost use Rattle.std.specs.Prelude.{◌≡◌, ◌<◌, ◌≤◌, ◌∷◌, [], IfOk, pos, true};
ghost use Rattle.std.specs.Arc.{arc_value};
ghost use Rattle.sz_cells.specs.Extent.{flat};
ghost use Rattle.sz_spec.specs.Modes.{is_listed, is_stored};
ghost use Rattle.sz_spec.specs.declared.op.Op.TheVariants as op;
ghost use Rattle.sz_spec.specs.declared.modes.Strategy.TheVariants as strategy;

use std::alloc::Global;
use std::sync::Arc;
use std::test::Fail;
use std::thread::Threads;
use sz_cells::{CellBits, NoMemory, Run, Shape};
use sz_frame::PieceLineage;
use sz_region::Take;
use sz_spec::{Dir, Op, OpAt, Strategy};
use sz_store::NodeStore;

/// The shape of input and output.
fn row() -> Result<Shape, Fail>
    ensures { IfOk result (λ s. s ≡ flat 1 65) }
{
    Ok(Shape::make(1, 65).ok_or("a row of 65 is a shape")?)
}

/// `clean` between these shapes.
fn sample(alloc: Global) -> Result<Arc<OpAt>, Fail>
    ensures op { IfOk result (λ a. (arc_value a).op ≡ op.Clean (pos 5)) }
    ensures out { IfOk result (λ a. (arc_value a).out ≡ flat 1 65) }
    ensures ins { IfOk result (λ a. (arc_value a).ins ≡ flat 1 65 ∷ []) }
{
    let ins = vec![in alloc; row()?]?;
    match OpAt::of(Op::Clean { t: 5 }, ins) {
        Ok(at) => Ok(Arc::new(alloc, at)?),
        Err(_) => Err("clean takes every shape")?,
    }
}

/// A store by sets, none, and one of composite lineage by single cells.
const LIST: [Strategy; 3] = [Strategy::FullManyF, Strategy::BlackBox, Strategy::CompOne];

/// The stores of these strategies. Nothing is placed.
fn empty(alloc: Global) -> Result<NodeStore, Fail>
    ensures out { IfOk result (λ s. s.site.out ≡ flat 1 65) }
    ensures ins { IfOk result (λ s. s.site.ins ≡ flat 1 65 ∷ []) }
    ensures list { IfOk result (λ s. s.list
        ≡ strategy.FullManyF ∷ strategy.BlackBox ∷ strategy.CompOne ∷ []) }
{
    Ok(NodeStore::new(alloc, sample(alloc)?, &LIST)?)
}

/// Places a lineage without an entry.
fn place_none(alloc: Global, store: &mut NodeStore, piece: u32) -> Result<bool, NoMemory>
    requires out { store.old.site.out ≡ flat 1 65 }
    requires piece { piece < 2 }
    ensures site { store.new.site ≡ store.old.site }
    ensures list { store.new.list ≡ store.old.list }
{
    store.place(&PieceLineage::new(alloc, piece))
}

/// Whether a look backward by a strategy, from a run of cells, finds those of these runs.
fn finds(
    alloc: Global,
    store: &NodeStore,
    strategy: Strategy,
    from: Run,
    want: &[Run],
) -> Result<bool, Fail>
    requires out { store.now.site.out ≡ flat 1 65 }
    requires ins { store.now.site.ins ≡ flat 1 65 ∷ [] }
    requires listed { is_listed store.now.list strategy ≡ true }
    requires stored { is_stored strategy ≡ true }
    requires order { from.first ≤ from.last }
    requires within { from.last < 65 }
{
    let mut asked = CellBits::new(alloc, row()?)?;
    asked.add_run(from);
    let mut to = CellBits::new(alloc, row()?)?;
    store.image(strategy, Dir::Back, 0, &asked, &mut to);
    Ok(to.to_set(alloc)?.runs() == want)
}

/// Whether full lineage stands for nothing, and composite lineage for its default.
fn is_default(alloc: Global, store: &NodeStore) -> Result<bool, Fail>
    requires out { store.now.site.out ≡ flat 1 65 }
    requires ins { store.now.site.ins ≡ flat 1 65 ∷ [] }
    requires list { store.now.list
        ≡ strategy.FullManyF ∷ strategy.BlackBox ∷ strategy.CompOne ∷ [] }
{
    let run = Run { first: 3, last: 64 };
    Ok(
        finds(alloc, store, Strategy::FullManyF, run, &[])?
            && finds(alloc, store, Strategy::CompOne, run, &[run])?,
    )
}

/// Whether each piece is placed once, and the store is whole when both are, and answers by default.
fn takes_each_once(alloc: Global, store: &mut NodeStore) -> Result<bool, Fail>
    requires out { store.old.site.out ≡ flat 1 65 }
    requires ins { store.old.site.ins ≡ flat 1 65 ∷ [] }
    requires list { store.old.list
        ≡ strategy.FullManyF ∷ strategy.BlackBox ∷ strategy.CompOne ∷ [] }
{
    let once = place_none(alloc, store, 1)? && !place_none(alloc, store, 1)?;
    let in_part = store.missing() == 0 && !store.is_whole();
    let last = place_none(alloc, store, 0)?;
    let whole = store.missing() == 2 && store.is_whole();
    Ok(once && in_part && last && whole && is_default(alloc, store)?)
}

#[test]
fn each_piece_is_placed_once(rt: HostRuntime) -> Result<(), Fail> {
    let alloc = rt.alloc();
    let mut store = empty(alloc)?;
    assert!(rt; takes_each_once(alloc, &mut store)?);
    Ok(())
}

/// Appends the bytes that the empty stores write.
fn put(alloc: Global, to: &mut Vec<u8>) -> Result<(), Fail> {
    Ok(empty(alloc)?.put_bytes(to)?)
}

/// Whether stores that begin at place 1 of these bytes, and end at this one, are whole and answer
/// by default.
fn is_read<R: Threads + Sync>(rt: &R, alloc: Global, bytes: &[u8], end: u64) -> Result<bool, Fail> {
    let (again, next) = NodeStore::take_bytes(rt, alloc, sample(alloc)?, &LIST, bytes, 1)?;
    Ok(next == end && again.is_whole() && is_default(alloc, &again)?)
}

#[test]
fn what_is_written_is_read_again(rt: HostRuntime) -> Result<(), Fail> {
    let alloc = rt.alloc();
    let mut bytes = vec![in alloc; 7u8]?;
    put(alloc, &mut bytes)?;
    let end = bytes.len() as u64;
    bytes.push(9)?;
    assert!(rt; is_read(&rt, alloc, &bytes, end)?);
    Ok(())
}

#[test]
fn bytes_of_no_store_are_refused(rt: HostRuntime) -> Result<(), Fail> {
    let alloc = rt.alloc();
    let fault = NodeStore::take_bytes(
        &rt,
        alloc,
        sample(alloc)?,
        &LIST,
        &[0, 0, 0, 0, 0, 0, 0, 0, 1],
        0,
    );
    assert_eq!(rt; fault.err(), Some(Take::Bad { at: 0 }));
    Ok(())
}
