//! Pairs of single cells: what the shelves of a machine hold.

use std::marker::Model;

/// Output cell `out` of a node depends on cell `cell` of the node's input number `input`. Cells are
/// named by their row-major indexes.
#[derive(Clone, Copy, Debug, PartialEq, Eq)]
pub struct Pair {
    pub out: u32,
    pub input: u32,
    pub cell: u32,
}

/// The pairs of a node's shelf: one list for each piece of the node's output. Contracts see the
/// lists.
#[derive(Drop)]
pub struct ShelfPairs {
    pub pieces: Vec<Vec<Pair>>,
}

impl Model for ShelfPairs {
    ghost use Rattle.std.specs.Prelude.{List, map};
    ghost use Rattle.sz_core.specs.declared.pairs.Pair.{Pair};

    ghost Value = { List (List Pair) };

    ghost view = { λ s. map (λ v. v.items) s.pieces.items };
}
