//! The mapping of an operator that has one.

ghost use Rattle.std.specs.Prelude.{◌≡◌};
ghost use Rattle.sz_ops.specs.Terms.{true, arc_value, has_mapping};

use crate::table::{choose, mapping};
use std::marker::Model;
use std::sync::Arc;
use sz_cells::{Cell, CellBits};
use sz_frame::Mapping;
use sz_spec::{Mapper, OpAt};

/// The mapping of an operator between its shapes. Contracts see the operator with these.
#[derive(Drop)]
pub struct OpMap {
    at: Arc<OpAt>,
}

impl Model for OpMap {
    ghost use Rattle.std.specs.Prelude.{◌≡◌, true};
    ghost use Rattle.std.specs.Arc.{arc_value};
    ghost use Rattle.sz_spec.specs.Shapes.{Site};
    ghost use Rattle.sz_spec.specs.Modes.{has_mapping};

    ghost Value = { Site };

    ghost view = { λ m. arc_value m.at };

    ghost invariant = { λ m. has_mapping (arc_value m.at).op ≡ true };
}

impl OpMap {
    /// The mapping of this operator, which has one.
    pub fn new(at: Arc<OpAt>) -> OpMap
        requires { has_mapping (arc_value at).op ≡ true }
        ensures { result ≡ arc_value at }
    {
        OpMap { at }
    }
}

impl Mapper for OpMap {
    ghost site = { λ m. m };

    fn map_b_into(&self, out: Cell, input: u32, to: &mut CellBits) {
        let at = &*self.at;
        mapping!(at; map => map.back_into(out, input, to))
    }

    fn map_f_into(&self, cell: Cell, input: u32, to: &mut CellBits) {
        let at = &*self.at;
        mapping!(at; map => map.forward_into(cell, input, to))
    }

    fn map_p_into(&self, _out: Cell, _payload: &[u8], _input: u32, _to: &mut CellBits) {
        let _ = &self.at; // no payload is one of an operator with a mapping
    }
}
