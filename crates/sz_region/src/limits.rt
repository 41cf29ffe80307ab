//! Shapes of arrays, which are within the limits.

ghost use Rattle.std.specs.Prelude.{◌≡◌, ◌∷◌};
ghost use Rattle.sz_region.specs.Terms.{true, All, is_extent};

use sz_cells::Shape;
use sz_cells::laws::a_shape_is_within_limits;

/// The shapes of an output and of inputs are within the limits.
pub fn shapes_are_within_limits(out: &Shape, ins: &[Shape])
    ensures { All (λ e. is_extent e ≡ true) (out.now ∷ ins.now) }
{
    a_shape_is_within_limits(out);
    for shape in ins {
        a_shape_is_within_limits(shape);
    }
}
