//! Operators with the shapes that they work between.

ghost use Rattle.std.specs.Prelude.{◌≡◌};
ghost use Rattle.sz_spec.specs.Terms.{true, length, Ok, arity, has_right_parameters, shape_of};
ghost use Rattle.sz_spec.specs.Terms.{site_of};

use crate::op::Op;
use crate::shapes::{ShapeFault, shape_of};
use std::marker::Model;
use sz_cells::Shape;

/// An operator with the shapes of its inputs and of its output. It has as many inputs as it takes,
/// its parameters are right, and the output has the shape that its rule gives.
#[derive(Drop)]
pub struct OpAt {
    op: Op,
    ins: Vec<Shape>,
    out: Shape,
}

impl Model for OpAt {
    ghost use Rattle.sz_spec.specs.Shapes.{Site, IsSite};

    ghost Value = { Site };

    ghost view = { λ a. record { op = a.op; ins = a.ins.items; out = a.out } };

    ghost invariant = { λ a. IsSite (record { op = a.op; ins = a.ins.items; out = a.out }) };
}

impl OpAt {
    /// The operator between inputs of these shapes and its output, or the shape rule that they
    /// break. Takes no memory.
    pub fn of(op: Op, ins: Vec<Shape>) -> Result<OpAt, ShapeFault>
        requires arity { length ins.items ≡ arity op }
        requires parameters { has_right_parameters op ≡ true }
        ensures { result ≡ site_of op ins.items }
    {
        let out = shape_of(&op, &ins)?;
        Ok(OpAt { op, ins, out })
    }

    /// The operator.
    pub fn op(&self) -> &Op
        ensures value { result.now ≡ self.now.op }
        ensures parameters { has_right_parameters self.now.op ≡ true }
    {
        &self.op
    }

    /// The shapes of its inputs, in their order.
    pub fn ins(&self) -> &[Shape]
        ensures value { result.now ≡ self.now.ins }
        ensures arity { length self.now.ins ≡ arity self.now.op }
    {
        &self.ins
    }

    /// The shape of its output.
    pub fn out(&self) -> Shape
        ensures value { result ≡ self.now.out }
        ensures rule { shape_of self.now.op self.now.ins ≡ Ok self.now.out }
    {
        self.out
    }
}
