//! A shelf of two pieces, and short calls of it.

ghost use Rattle.std.specs.Prelude.{◌≡◌, ◌<◌, ◌||◌, true, IfOk, OnOk, OnErr, IfSome};
ghost use Rattle.std.specs.Arc.{arc_value};
ghost use Rattle.sz_cells.specs.Extent.{flat};
ghost use Rattle.sz_shelf.specs.Passes.{TookTurn, place_of, with_split, split_off};
ghost use Rattle.sz_shelf.specs.Steps.{longer};
ghost use Rattle.sz_shelf.specs.Tags.{StandsFor};
ghost use Rattle.sz_shelf.specs.declared.answers.SealReply.TheVariants.{Sealed as SealedNow};
ghost use Rattle.sz_query.specs.Views.{view_of, view_site, most_traced_by, IsUsable};
ghost use Rattle.trials_shelf.specs.Bench.{negation, tag_of};

use std::alloc::Global;
use std::marker::Model;
use std::sync::{Arc, Wait};
use std::test::Fail;
use sz_cells::{CellBits, CellSet, NoMemory, Run, Shape};
use sz_ops::{piece, prepare_lineage};
use sz_query::{Growing, NodeRunRef, NodeView};
use sz_shelf::standing::needed_parts_can_be_placed;
use sz_shelf::{Look, Pass, Placed, SealReply, Shelf};
use sz_spec::{Array, ArrayList, Dir, Op, OpAt, Strategy, Tally};
use sz_store::NodeStore;

const LIST: [Strategy; 3] = [Strategy::FullManyB, Strategy::Map, Strategy::FullOneF];

/// A shelf of the negation of a row of 65 cells, and what its lineages are made of. Contracts see
/// which shelf it is.
#[derive(Drop)]
pub struct Bench {
    at: Arc<OpAt>,
    array: Arc<Array>,
    shelf: Arc<Shelf>,
}

impl Model for Bench {
    ghost use Rattle.std.specs.Arc.{arc_value};
    ghost use Rattle.sz_shelf.specs.Places.{ShelfPlace};
    ghost use Rattle.trials_shelf.specs.Bench.{IsBench};

    ghost Value = { ShelfPlace };

    ghost view = { λ b. arc_value b.shelf };

    ghost invariant = { λ b.
        IsBench (arc_value b.at) (arc_value b.array) (arc_value b.shelf).tag };
}

/// The shape of input and output.
pub fn row() -> Result<Shape, Fail>
    ensures { IfOk result (λ s. s ≡ flat 1 65) }
{
    Ok(Shape::make(1, 65).ok_or("a row of 65 is a shape")?)
}

/// The operator.
fn site(alloc: Global) -> Result<Arc<OpAt>, Fail>
    ensures { IfOk result (λ at. arc_value at ≡ negation) }
{
    match OpAt::of(Op::Neg, vec![in alloc; row()?]?) {
        Ok(at) => Ok(Arc::new(alloc, at)?),
        Err(_) => Err("every shape can be negated".into()),
    }
}

/// Its array.
fn array(alloc: Global) -> Result<Arc<Array>, Fail>
    ensures { IfOk result (λ a. (arc_value a).extent ≡ flat 1 65) }
{
    match Array::make(row()?, vec![in alloc; Some(7); 65]?) {
        Some(array) => Ok(Arc::new(alloc, array)?),
        None => Err("the shape has 65 cells".into()),
    }
}

/// A shelf for them, and its first pass.
fn shelf(alloc: Global, at: &Arc<OpAt>, array: &Arc<Array>) -> Result<(Arc<Shelf>, Pass), Fail>
    requires site { arc_value at.now ≡ negation }
    requires array { (arc_value array.now).extent ≡ flat 1 65 }
    ensures tag { IfOk result (λ s. (arc_value s.0).tag ≡ tag_of (arc_value array.now)) }
    ensures pass { IfOk result (λ s. place_of s.1 ≡ arc_value s.0) }
{
    let own = Arc::try_clone(at)?;
    Ok(Shelf::make(alloc, own, &[Arc::try_clone(array)?], &LIST)?)
}

impl Bench {
    /// The shelf, and its first pass.
    pub fn new(alloc: Global) -> Result<(Bench, Pass), Fail>
        ensures { IfOk result (λ b. place_of b.1 ≡ b.0) }
    {
        let at = site(alloc)?;
        let array = array(alloc)?;
        let (shelf, pass) = shelf(alloc, &at, &array)?;
        Ok((Bench { at, array, shelf }, pass))
    }

    /// Another shelf for the same operator and array, and its first pass.
    pub fn again(&self, alloc: Global) -> Result<(Bench, Pass), Fail>
        ensures own { IfOk result (λ b. place_of b.1 ≡ b.0) }
        ensures tag { IfOk result (λ b. b.0.tag ≡ self.now.tag) }
    {
        let at = Arc::try_clone(&self.at)?;
        let array = Arc::try_clone(&self.array)?;
        let (shelf, pass) = shelf(alloc, &at, &array)?;
        Ok((Bench { at, array, shelf }, pass))
    }

    /// Places the lineage of a piece.
    pub fn place<R: Wait>(
        &self,
        alloc: Global,
        rt: &R,
        pass: &mut Pass,
        k: u32,
    ) -> Result<Placed, NoMemory>
        requires own { place_of pass.old ≡ self.now }
        requires piece { k < 2 }
        ensures own { place_of pass.new ≡ place_of pass.old }
    {
        let inputs = [Arc::try_clone(&self.array)?];
        let aid = prepare_lineage(alloc, &self.at, &inputs)?;
        let mut tally = Tally::new();
        let lineage = piece(alloc, &self.at, &inputs, &aid, k, &LIST, &mut tally)?;
        needed_parts_can_be_placed();
        self.shelf.place(rt, pass, &lineage)
    }

    /// Looks backward from the cells 3 to 64 by the store by sets, with a target that has the cell
    /// 0: what is told, and what the target then has.
    pub fn look<R: Wait>(
        &self,
        alloc: Global,
        rt: &R,
        pass: &mut Pass,
    ) -> Result<(Look, CellSet), NoMemory>
        requires { place_of pass.old ≡ self.now }
        ensures own { place_of pass.new ≡ place_of pass.old }
        ensures turn { IfOk result (λ _. TookTurn pass.old pass.new) }
    {
        let mut from = CellBits::new(alloc, self.at.out())?;
        from.add_run(Run { first: 3, last: 64 });
        let mut to = CellBits::new(alloc, self.at.out())?;
        to.add_run(Run { first: 0, last: 0 });
        let look = self.look_into(rt, pass, &from, &mut to);
        Ok((look, to.to_set(alloc)?))
    }

    fn look_into<R: Wait>(
        &self,
        rt: &R,
        pass: &mut Pass,
        from: &CellBits,
        to: &mut CellBits,
    ) -> Look
        requires own { place_of pass.old ≡ self.now }
        requires from { from.now.extent ≡ flat 1 65 }
        requires to { to.old.extent ≡ flat 1 65 }
        ensures { TookTurn pass.old pass.new }
    {
        let _ = &self.at;
        self.shelf
            .look(rt, pass, Strategy::FullManyB, Dir::Back, 0, from, to)
    }

    /// Seals.
    pub fn seal<R: Wait>(&self, rt: &R, pass: &mut Pass) -> SealReply
        requires { place_of pass.old ≡ self.now }
        ensures own { place_of pass.new ≡ place_of pass.old }
        ensures sealed { result ≡ SealedNow → pass.new.saw ≡ true }
    {
        self.shelf.seal(rt, pass)
    }

    /// Whether there is a seal.
    pub fn sealed_now(&self, pass: &mut Pass) -> bool
        requires { place_of pass.old ≡ self.now }
        ensures { place_of pass.new ≡ place_of pass.old }
    {
        self.shelf.sealed_now(pass)
    }

    /// The stores, where they are handed out.
    pub fn store_of<R: Wait>(
        &self,
        alloc: Global,
        rt: &R,
        pass: &mut Pass,
    ) -> Result<Option<Arc<NodeStore>>, NoMemory>
        requires { place_of pass.old ≡ self.now }
        ensures turn { TookTurn pass.old pass.new }
        ensures stands { IfOk result (λ given. IfSome given
            (λ a. StandsFor pass.new.tag (arc_value a))) }
    {
        self.shelf.store_of(alloc, rt, pass)
    }

    /// Puts other stores in place of these.
    pub fn swap<R: Wait>(&self, rt: &R, pass: &mut Pass, store: Arc<NodeStore>)
        requires own { place_of pass.old ≡ self.now }
        requires saw { pass.old.saw ≡ true }
        requires stands { StandsFor pass.old.tag (arc_value store) }
        ensures { TookTurn pass.old pass.new }
    {
        self.shelf.swap(rt, pass, store);
    }

    /// A view of the shelf while it may grow, by the store by sets.
    pub fn building(&self, alloc: Global, pass: Pass) -> Result<NodeView, Fail>
        requires { place_of pass ≡ self.now }
        ensures ready { IfOk result (λ v. IsUsable (view_of v)) }
        ensures site { IfOk result (λ v. view_site (view_of v) ≡ negation) }
        ensures most { IfOk result (λ v. most_traced_by (view_of v) < 66) }
    {
        let run = NodeRunRef {
            at: Arc::try_clone(&self.at)?,
            inputs: ArrayList::of(vec![in alloc; Arc::try_clone(&self.array)?]?),
        };
        Ok(NodeView::Building {
            node: Growing::of(run, Arc::try_clone(&self.shelf)?),
            pass,
            s: Strategy::FullManyB,
        })
    }

    /// A view of the sealed shelf, by the same store.
    pub fn stored(&self, pass: Pass) -> Result<NodeView, Fail>
        requires own { place_of pass ≡ self.now }
        requires saw { pass.saw ≡ true }
        ensures ready { IfOk result (λ v. IsUsable (view_of v)) }
        ensures site { IfOk result (λ v. view_site (view_of v) ≡ negation) }
        ensures most { IfOk result (λ v. most_traced_by (view_of v) < 66) }
    {
        Ok(NodeView::Stored {
            at: Arc::try_clone(&self.at)?,
            shelf: Arc::try_clone(&self.shelf)?,
            pass,
            s: Strategy::FullManyB,
        })
    }

    /// One pass more.
    pub fn split(&self, pass: &mut Pass) -> Result<Pass, NoMemory>
        requires { place_of pass.old ≡ self.now }
        ensures own { place_of pass.new ≡ place_of pass.old }
        ensures counted { OnOk result (pass.new ≡ with_split pass.old) }
        ensures err { OnErr result (pass.new ≡ pass.old) }
        ensures new { IfOk result (λ p. p ≡ split_off pass.old) }
    {
        self.shelf.split(pass)
    }

    /// One pass less.
    pub fn join(&self, into: &mut Pass, from: Pass)
        requires into { place_of into.old ≡ self.now }
        requires from { place_of from ≡ self.now }
        ensures own { place_of into.new ≡ place_of into.old }
        ensures seen { into.new.seen ≡ longer into.old.seen from.seen }
        ensures saw { into.new.saw ≡ (into.old.saw || from.saw) }
    {
        self.shelf.join(into, from);
    }
}
