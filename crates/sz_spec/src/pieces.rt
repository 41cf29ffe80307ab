//! Pieces: the parts of an output array by which its lineage is kept.

ghost use Rattle.std.specs.Prelude.{◌≡◌};
ghost use Rattle.sz_spec.specs.Terms.{pieces_of};

use sz_cells::Shape;

/// How many cells a piece has. The last piece of an array may have fewer.
const CELLS: u32 = 64;

/// How many pieces an array of this shape has.
pub fn pieces_of(shape: Shape) -> u32
    ensures { result ≡ pieces_of shape }
{
    shape.size().div_ceil(CELLS)
}
