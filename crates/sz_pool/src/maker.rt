//! How one piece is made and placed.

ghost use Rattle.std.specs.Prelude.{◌≡◌, ◌+◌, ◌<◌, ◌^◌, map, MatchResult};
ghost use Rattle.std.specs.Arc.{arc_value};
ghost use Rattle.sz_spec.specs.Pieces.{pieces_of};
ghost use Rattle.sz_frame.specs.Written.{cells_in_piece};
ghost use Rattle.sz_ops.specs.Aids.{aid_of};
ghost use Rattle.sz_shelf.specs.Passes.{place_of};
ghost use Rattle.sz_pool.specs.Tagged.{tag_over};
ghost use Rattle.sz_pool.specs.Making.{IsPlaced, IsRefused};

use std::alloc::Global;
use std::sync::{Arc, Wait};
use sz_cells::NoMemory;
use sz_ops::{Aid, piece};
use sz_shelf::{Pass, Shelf};
use sz_spec::{Array, OpAt, Strategy, Tally};

/// What the pieces of an operator's lineage are made of, and the shelf on which they are placed.
#[derive(Drop)]
pub(crate) struct Maker<'a> {
    pub(crate) at: &'a OpAt,
    pub(crate) inputs: &'a [Arc<Array>],
    pub(crate) aid: &'a Aid,
    pub(crate) list: &'a [Strategy],
    pub(crate) shelf: &'a Shelf,
    ghost prepared: { aid.now ≡ aid_of at.now.op (map (λ a. arc_value a) inputs.now) },
    ghost tag: { shelf.now.tag ≡ tag_over at.now (map (λ a. arc_value a) inputs.now) list.now },
}

impl<'a> Maker<'a> {
    /// Makes a piece and places it, in one turn. Each of its cells is looked at once, and counted
    /// once the piece is made. Where there is no memory for it, it is left undone.
    pub(crate) fn place<R: Wait>(
        &self,
        alloc: Global,
        rt: &R,
        pass: &mut Pass,
        k: u32,
        tally: &mut Tally,
    ) -> Result<(), NoMemory>
        requires own { place_of pass.old ≡ self.now.shelf.now }
        requires piece { k < pieces_of self.now.at.now.out }
        requires room { tally.old + cells_in_piece self.now.at.now.out k < 2 ^ 63 }
        ensures { let out = self.now.at.now.out in MatchResult result
            (λ _. IsPlaced out k pass.old pass.new tally.old tally.new)
            (λ _. IsRefused out k pass.old pass.new tally.old tally.new) }
    {
        pass.kept(); // the tag is right
        let mut looked = Tally::new();
        let lineage = piece(
            alloc,
            self.at,
            self.inputs,
            self.aid,
            k,
            self.list,
            &mut looked,
        )?;
        tally.add(looked);
        self.shelf.place_as(rt, pass, &lineage, true)?;
        Ok(())
    }
}
