//! A shelf of three pieces that are one region, and short calls of it.

ghost use Rattle.std.specs.Prelude.{◌≡◌, ◌<◌, true, IfOk, IfSome};
ghost use Rattle.std.specs.Arc.{arc_value};
ghost use Rattle.sz_cells.specs.Extent.{flat};
ghost use Rattle.sz_shelf.specs.Passes.{TookTurn, place_of};
ghost use Rattle.sz_shelf.specs.Tags.{StandsFor};
ghost use Rattle.sz_shelf.specs.declared.answers.SealReply.TheVariants.{Sealed as SealedNow};
ghost use Rattle.trials_merge.specs.Bench.{labels, tag_of};

use std::alloc::Global;
use std::marker::Model;
use std::sync::{Arc, Wait};
use std::test::Fail;
use std::thread::Threads;
use sz_cells::{CellBits, CellSet, NoMemory, Run, Shape};
use sz_merge::{MergeTask, Merged, merge};
use sz_ops::{piece, prepare_lineage};
use sz_shelf::standing::needed_parts_can_be_placed;
use sz_shelf::{Look, Pass, Placed, SealReply, Shelf};
use sz_spec::{Array, Dir, Op, OpAt, Strategy, Tally};
use sz_store::NodeStore;

const LIST: [Strategy; 1] = [Strategy::FullManyB];

/// A shelf of the regions of a row of 130 high cells, and what its lineages are made of. Contracts
/// see which shelf it is.
#[derive(Drop)]
pub struct Bench {
    at: Arc<OpAt>,
    array: Arc<Array>,
    shelf: Arc<Shelf>,
}

impl Model for Bench {
    ghost use Rattle.std.specs.Arc.{arc_value};
    ghost use Rattle.sz_shelf.specs.Places.{ShelfPlace};
    ghost use Rattle.trials_merge.specs.Bench.{IsBench};

    ghost Value = { ShelfPlace };

    ghost view = { λ b. arc_value b.shelf };

    ghost invariant = { λ b.
        IsBench (arc_value b.at) (arc_value b.array) (arc_value b.shelf).tag };
}

/// The shape of input and output.
fn row() -> Result<Shape, Fail>
    ensures { IfOk result (λ s. s ≡ flat 1 130) }
{
    Ok(Shape::make(1, 130).ok_or("a row of 130 is a shape")?)
}

/// The operator.
fn site(alloc: Global) -> Result<Arc<OpAt>, Fail>
    ensures { IfOk result (λ at. arc_value at ≡ labels) }
{
    match OpAt::of(Op::Regions { t: 5 }, vec![in alloc; row()?]?) {
        Ok(at) => Ok(Arc::new(alloc, at)?),
        Err(_) => Err("every shape has regions".into()),
    }
}

/// Its array.
fn array(alloc: Global) -> Result<Arc<Array>, Fail>
    ensures { IfOk result (λ a. (arc_value a).extent ≡ flat 1 130) }
{
    match Array::make(row()?, vec![in alloc; Some(9); 130]?) {
        Some(array) => Ok(Arc::new(alloc, array)?),
        None => Err("the shape has 130 cells".into()),
    }
}

/// A shelf for them, and its first pass.
fn shelf(alloc: Global, at: &Arc<OpAt>, array: &Arc<Array>) -> Result<(Arc<Shelf>, Pass), Fail>
    requires site { arc_value at.now ≡ labels }
    requires array { (arc_value array.now).extent ≡ flat 1 130 }
    ensures tag { IfOk result (λ s. (arc_value s.0).tag ≡ tag_of (arc_value array.now)) }
    ensures pass { IfOk result (λ s. place_of s.1 ≡ arc_value s.0) }
{
    let own = Arc::try_clone(at)?;
    Ok(Shelf::make(alloc, own, &[Arc::try_clone(array)?], &LIST)?)
}

impl Bench {
    /// The shelf, and its first pass.
    pub fn new(alloc: Global) -> Result<(Bench, Pass), Fail>
        ensures { IfOk result (λ b. place_of b.1 ≡ b.0) }
    {
        let at = site(alloc)?;
        let array = array(alloc)?;
        let (shelf, pass) = shelf(alloc, &at, &array)?;
        Ok((Bench { at, array, shelf }, pass))
    }

    /// Places the lineage of a piece.
    pub fn place<R: Wait>(
        &self,
        alloc: Global,
        rt: &R,
        pass: &mut Pass,
        k: u32,
    ) -> Result<Placed, NoMemory>
        requires own { place_of pass.old ≡ self.now }
        requires piece { k < 3 }
        ensures own { place_of pass.new ≡ place_of pass.old }
    {
        let inputs = [Arc::try_clone(&self.array)?];
        let aid = prepare_lineage(alloc, &self.at, &inputs)?;
        let mut tally = Tally::new();
        let lineage = piece(alloc, &self.at, &inputs, &aid, k, &LIST, &mut tally)?;
        needed_parts_can_be_placed();
        self.shelf.place(rt, pass, &lineage)
    }

    /// Seals.
    pub fn seal<R: Wait>(&self, rt: &R, pass: &mut Pass) -> SealReply
        requires { place_of pass.old ≡ self.now }
        ensures own { place_of pass.new ≡ place_of pass.old }
        ensures sealed { result ≡ SealedNow → pass.new.saw ≡ true }
    {
        self.shelf.seal(rt, pass)
    }

    /// Looks from the cell 100: what is told, and the cells that were found.
    pub fn look<R: Wait>(
        &self,
        alloc: Global,
        rt: &R,
        pass: &mut Pass,
        dir: Dir,
    ) -> Result<(Look, CellSet), NoMemory>
        requires { place_of pass.old ≡ self.now }
        ensures own { place_of pass.new ≡ place_of pass.old }
        ensures turn { IfOk result (λ _. TookTurn pass.old pass.new) }
    {
        let mut from = CellBits::new(alloc, self.at.out())?;
        from.add_run(Run {
            first: 100,
            last: 100,
        });
        let mut to = CellBits::new(alloc, self.at.out())?;
        let look = self.look_into(rt, pass, dir, &from, &mut to);
        Ok((look, to.to_set(alloc)?))
    }

    fn look_into<R: Wait>(
        &self,
        rt: &R,
        pass: &mut Pass,
        dir: Dir,
        from: &CellBits,
        to: &mut CellBits,
    ) -> Look
        requires own { place_of pass.old ≡ self.now }
        requires from { from.now.extent ≡ flat 1 130 }
        requires to { to.old.extent ≡ flat 1 130 }
        ensures { TookTurn pass.old pass.new }
    {
        let _ = &self.at;
        self.shelf
            .look(rt, pass, Strategy::FullManyB, dir, 0, from, to)
    }

    /// The stores, where they are handed out.
    pub fn store_of<R: Wait>(
        &self,
        alloc: Global,
        rt: &R,
        pass: &mut Pass,
    ) -> Result<Option<Arc<NodeStore>>, NoMemory>
        requires own { place_of pass.old ≡ self.now }
        ensures turn { TookTurn pass.old pass.new }
        ensures stands { IfOk result (λ given. IfSome given
            (λ a. StandsFor pass.new.tag (arc_value a))) }
    {
        self.shelf.store_of(alloc, rt, pass)
    }

    /// One pass more.
    pub fn split(&self, pass: &mut Pass) -> Result<Pass, NoMemory>
        requires { place_of pass.old ≡ self.now }
        ensures own { place_of pass.new ≡ place_of pass.old }
        ensures still { pass.new.saw ≡ pass.old.saw }
        ensures new { IfOk result (λ p. place_of p ≡ self.now) }
        ensures saw { IfOk result (λ p. p.saw ≡ pass.old.saw) }
    {
        self.shelf.split(pass)
    }

    /// The stores that are merged of some of the shelf's.
    pub fn merged<R: Threads + Sync>(
        &self,
        alloc: Global,
        rt: &R,
        store: &NodeStore,
    ) -> Result<Merged, NoMemory>
        requires { StandsFor self.now.tag store.now }
    {
        let _ = &self.shelf;
        merge(alloc, rt, &self.at, &LIST, store)
    }

    /// The shelf's task.
    pub fn task(&self, alloc: Global, pass: Pass) -> Result<MergeTask, NoMemory>
        requires own { place_of pass ≡ self.now }
        requires saw { pass.saw ≡ true }
    {
        Ok(MergeTask {
            at: Arc::try_clone(&self.at)?,
            list: LIST.to_vec(alloc)?,
            shelf: Arc::try_clone(&self.shelf)?,
            pass,
        })
    }
}
