//! How many cells shapes have.
ghost use Rattle.std.specs.Prelude.{◌≡◌, ◌≤◌, ◌*◌};
ghost use Rattle.sz_catalogue.specs.Terms.{length, cells_of};

use sz_cells::Shape;

/// How many cells some shapes have together.
pub fn cells_of(shapes: &[Shape]) -> u64
    requires { length shapes.now ≤ 1024 }
    ensures value { result ≡ cells_of shapes.now }
    ensures few { result ≤ 1048576 * length shapes.now }
{
    let mut cells = 0;
    for shape in shapes {
        cells += u64::from(shape.size());
    }
    cells
}
