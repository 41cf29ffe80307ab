//! The pairs of a shelf with an index for each input and each direction.

ghost use Rattle.std.specs.Prelude.{◌≡◌, ◌<◌, ◌≤◌, ◌^◌, ◌∷◌};
ghost use Rattle.sz_core.specs.Terms.{ℕ, [], All, IfOk, length, map, flat_map, size_of};
ghost use Rattle.sz_core.specs.Terms.{extent_before, extent_after, image_by, HasPairs};
ghost use Rattle.sz_core.specs.Terms.{AreIndexesOf, PairsLieWithin, LiesWithin, relation_of};

use crate::index::Index;
use crate::pairs::Pair;
use std::alloc::Global;
use std::marker::Model;
use sz_cells::{CellSet, NoMemory, Shape};
use sz_spec::Dir;

/// The shapes of a node's output and of what the node takes, and the pairs of each piece of the
/// output.
#[derive(Drop)]
pub(crate) struct PairIndex {
    out: Shape,
    ins: Vec<Shape>,
    pieces: Vec<Vec<Pair>>,
    back: Vec<Index>,
    forward: Vec<Index>,
}

impl Model for PairIndex {
    ghost use Rattle.std.specs.Prelude.{map};
    ghost use Rattle.sz_spec.specs.declared.modes.Dir.TheVariants.{Back, Forward};
    ghost use Rattle.sz_core.specs.Links.{Relation, relation_of, AreIndexesOf};

    ghost Value = { Relation };

    ghost view = { λ x. relation_of x.out x.ins.items (map (λ v. v.items) x.pieces.items) };

    ghost invariant = { λ x.
        AreIndexesOf Back (relation_of x.out x.ins.items (map (λ v. v.items) x.pieces.items))
        x.back.items
        × AreIndexesOf Forward (relation_of x.out x.ins.items (map (λ v. v.items) x.pieces.items))
        x.forward.items };
}

impl PairIndex {
    /// The pairs of a shelf, indexed.
    ///
    /// Takes time and memory in the number of pairs and of the cells of the shapes.
    pub fn new(
        alloc: Global,
        out: Shape,
        ins: Vec<Shape>,
        pieces: Vec<Vec<Pair>>,
    ) -> Result<PairIndex, NoMemory>
        requires few { length ins.items < 2 ^ 32 }
        requires within { PairsLieWithin
            (relation_of out ins.items (map (λ v. v.items) pieces.items)) }
        ensures { IfOk result (λ x.
            x ≡ relation_of out ins.items (map (λ v. v.items) pieces.items)) }
    {
        let back = indexes_of(alloc, Dir::Back, out, &ins, &pieces)?;
        let forward = indexes_of(alloc, Dir::Forward, out, &ins, &pieces)?;
        Ok(PairIndex {
            out,
            ins,
            pieces,
            back,
            forward,
        })
    }

    /// How many pieces there are.
    pub fn pieces(&self) -> usize
        ensures { result ≡ length self.now.pieces }
    {
        self.pieces.len()
    }

    /// The image of a set under what all pairs say of one of the inputs.
    ///
    /// Takes time as `Index::image`.
    pub fn image(
        &mut self,
        alloc: Global,
        dir: Dir,
        input: u32,
        from: &CellSet,
    ) -> Result<CellSet, NoMemory>
        requires input { input < length self.old.ins }
        requires shape { from.now.extent ≡ extent_before dir self.old.out self.old.ins input }
        ensures same { self.new ≡ self.old }
        ensures ok { IfOk result (λ set. set ≡ image_by (flat_map (λ pairs. pairs) self.old.pieces)
            dir self.old.out self.old.ins input from.now) }
    {
        match dir {
            Dir::Back => self.back[input as usize].image(alloc, from),
            Dir::Forward => self.forward[input as usize].image(alloc, from),
        }
    }
}

/// An index of the pairs for each input, to be read in one direction.
fn indexes_of(
    alloc: Global,
    dir: Dir,
    out: Shape,
    ins: &[Shape],
    pieces: &[Vec<Pair>],
) -> Result<Vec<Index>, NoMemory>
    requires few { length ins.now < 2 ^ 32 }
    requires within { PairsLieWithin (relation_of out ins.now (map (λ v. v.items) pieces.now)) }
    ensures { IfOk result (λ made.
        AreIndexesOf dir (relation_of out ins.now (map (λ v. v.items) pieces.now)) made.items) }
{
    let mut made = Vec::with_capacity(alloc, ins.len())?;
    for (input, taken) in ins.iter().enumerate() {
        let (near, far) = sides(dir, out, *taken);
        made.push(index_of(alloc, dir, input as u32, near, far, pieces)?)?;
    }
    Ok(made)
}

/// The shape of the cells that a step takes, and that of the cells to which it leads.
fn sides(dir: Dir, out: Shape, taken: Shape) -> (Shape, Shape)
    ensures near { result.0 ≡ extent_before dir out (taken ∷ []) 0 }
    ensures far { result.1 ≡ extent_after dir out (taken ∷ []) 0 }
{
    match dir {
        Dir::Back => (out, taken),
        Dir::Forward => (taken, out),
    }
}

/// An index of the pairs of one input, to be read in one direction.
fn index_of(
    alloc: Global,
    dir: Dir,
    input: u32,
    near: Shape,
    far: Shape,
    pieces: &[Vec<Pair>],
) -> Result<Index, NoMemory>
    requires { All (All (LiesWithin dir input (size_of near) far)) (map (λ v. v.items) pieces.now) }
    ensures { IfOk result (λ links.
        HasPairs dir input near far (flat_map (λ pairs. pairs) (map (λ v. v.items) pieces.now))
        links) }
{
    let mut index = Index::new(alloc, near.size(), far)?;
    for piece in pieces {
        index.add_pairs(dir, input, piece)?;
    }
    Ok(index)
}
