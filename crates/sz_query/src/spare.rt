//! Bitmaps that are kept between answers, so that an answer makes none that another one made.

ghost use Rattle.std.specs.Prelude.{◌≡◌, ◌<◌};
ghost use Rattle.sz_query.specs.Terms.{length, slice_index_or, IfOk, IfSome, Cells, no_cells};

use std::alloc::Global;
use std::marker::Model;
use sz_cells::{CellBits, NoMemory, Shape};

/// Bitmaps without a cell, of any shapes, for the answers to come: at most as many as one answer
/// takes. Contracts see nothing of it, since an answer is the same whichever bitmaps it takes.
#[derive(Drop)]
pub struct Spare {
    /// In the order in which they were given.
    bits: Vec<CellBits>,
}

impl Model for Spare {
    ghost use Rattle.std.specs.Prelude.{All};
    ghost use Rattle.sz_query.specs.Sides.{IsClear};

    ghost Value = { Unit {0} };

    ghost view = { λ _. tt };

    ghost invariant = { λ s. All IsClear s.bits.items };
}

impl Spare {
    /// How many bitmaps one answer takes at most: one for each of 32 steps, and one for the cells
    /// from which it starts.
    const MOST: usize = 33;

    /// No bitmap. Takes no memory.
    pub fn new(alloc: Global) -> Spare {
        Spare {
            bits: Vec::new(alloc),
        }
    }

    /// A bitmap of a shape without a cell: one that was kept, and else a new one, which alone takes
    /// memory and time in the shape's size.
    pub(crate) fn take(&mut self, alloc: Global, shape: Shape) -> Result<CellBits, NoMemory>
        ensures { IfOk result (λ b. b ≡ no_cells shape) }
    {
        match place_of(&self.bits, shape) {
            Some(place) => Ok(self.bits.remove(place)),
            None => CellBits::new(alloc, shape),
        }
    }

    /// Keeps a bitmap, without its cells. Where as many are kept as one answer takes, the one that
    /// was given first of them goes, so that what the last answer took is there for the next one.
    /// Where there is no memory for the list, the bitmap goes.
    ///
    /// Takes time in what was touched of the bitmap.
    pub(crate) fn give(&mut self, bits: CellBits) {
        let mut bits = bits;
        bits.clear();
        if self.bits.len() >= Spare::MOST {
            self.bits.remove(0);
        }
        let _ = self.bits.push(bits);
    }

    /// Keeps the bitmaps of a list.
    pub(crate) fn give_all(&mut self, all: Vec<CellBits>) {
        for bits in all {
            self.give(bits);
        }
    }
}

/// The place of a bitmap of a shape, where there is one.
fn place_of(bits: &[CellBits], shape: Shape) -> Option<usize>
    ensures within { IfSome result (λ k. k < length bits.now) }
    ensures shape { IfSome result
        (λ k. (d : Cells) → (slice_index_or bits.now k d).extent ≡ shape) }
{
    for place in 0..bits.len() {
        if bits[place].shape() == shape {
            return Some(place);
        }
    }
    None
}
