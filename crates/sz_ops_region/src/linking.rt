//! Linking the high cells of an array: one pass over all cells, in which each high cell is united
//! with the high cells to its left and above it.

ghost use Rattle.std.specs.Prelude.{◌≡◌, ◌+◌, ◌*◌, ◌/◌, ◌<◌};
ghost use Rattle.sz_ops_region.specs.Terms.{true, length, slice_index, IfOk, holds, size_of};
ghost use Rattle.sz_ops_region.specs.Terms.{index_of, layer_of, height_of, IsBandOf, AreLinked};
ghost use Rattle.sz_ops_region.specs.Terms.{IsWordOn};

use crate::links::word_for;
use crate::marks::is_high;
use crate::sides::{Band, Side, neighbour};
use std::alloc::Global;
use sz_cells::{Cell, NoMemory, Shape};
use sz_spec::Array;

/// The words of the cells of an array, by which each high cell is linked, and connected cells have
/// one root.
pub(crate) fn links_of(alloc: Global, array: &Array, t: i64) -> Result<Vec<u32>, NoMemory>
    ensures { IfOk result (λ v. AreLinked t array.now v.items (size_of array.now.extent)) }
{
    let size = array.shape().size();
    let mut words = vec![in alloc; 0u32; size as usize]?;
    link_all(&mut words, array, t);
    Ok(words)
}

/// Links the high cells of all layers.
fn link_all(words: &mut [u32], array: &Array, t: i64)
    requires { AreLinked t array.now words.old 0 }
    ensures { AreLinked t array.now words.new (size_of array.now.extent) }
{
    for layer in 0..array.shape().layers {
        link_layer(words, array, t, layer);
    }
}

/// Links the high cells of a layer.
fn link_layer(words: &mut [u32], array: &Array, t: i64, layer: u32)
    requires inside { layer < array.now.extent.layers }
    requires linked { AreLinked t array.now words.old
        (layer * height_of array.now.extent * array.now.extent.cols) }
    ensures { AreLinked t array.now words.new
        ((layer + 1) * height_of array.now.extent * array.now.extent.cols) }
{
    let band = Band::of(&array.shape(), layer);
    for row in band.top..band.end {
        link_row(words, array, t, band, row);
    }
}

/// Links the high cells of a row of a layer.
fn link_row(words: &mut [u32], array: &Array, t: i64, band: Band, row: u32)
    requires row { row < array.now.extent.rows }
    requires band { IsBandOf array.now.extent band (row / height_of array.now.extent) }
    requires linked { AreLinked t array.now words.old (row * array.now.extent.cols) }
    ensures { AreLinked t array.now words.new ((row + 1) * array.now.extent.cols) }
{
    let shape = array.shape();
    let mut left = 0;
    for col in 0..shape.cols {
        left = look(words, array, &shape, t, band, Cell { row, col }, left);
    }
}

/// Links a cell, where it is high, given the word of the cell to its left. The cell's own word.
///
/// It takes no branch by a value but where two cells are united, since values cannot be foreseen.
fn look(
    words: &mut [u32],
    array: &Array,
    shape: &Shape,
    t: i64,
    band: Band,
    cell: Cell,
    left: u32,
) -> u32
    requires shape { shape.now ≡ array.now.extent }
    requires cell { holds array.now.extent cell ≡ true }
    requires band { IsBandOf array.now.extent band (layer_of array.now.extent cell) }
    requires linked { AreLinked t array.now words.old (index_of array.now.extent cell) }
    requires left { IsWordOn words.old array.now.extent cell Side.Left left }
    ensures linked { AreLinked t array.now words.new (index_of array.now.extent cell + 1) }
    ensures word { result ≡ slice_index words.new (index_of array.now.extent cell) }
{
    shape.size(); // a shape is within the limits
    let index = shape.index(cell);
    let high = is_high(array.cells()[index as usize], t);
    let above = word_at(words, shape, band, cell, Side::Above);
    let word = word_for(words, high, index, left, above);
    words[index as usize] = word;
    word
}

/// The word of the neighbour of a cell on a side, 0 where there is none.
fn word_at(words: &[u32], shape: &Shape, band: Band, cell: Cell, side: Side) -> u32
    requires cell { holds shape.now cell ≡ true }
    requires band { IsBandOf shape.now band (layer_of shape.now cell) }
    requires long { length words.now ≡ size_of shape.now }
    ensures { IsWordOn words.now shape.now cell side result }
{
    match neighbour(shape, band, cell, side) {
        Some(beside) => words[shape.index(beside) as usize],
        None => 0,
    }
}
