//! The two ways in which a store is spelled again, and one of its sets.

ghost use Rattle.std.specs.Prelude.{◌≡◌, ◌++◌};
ghost use Rattle.sz_short.specs.Terms.{IfOk, IfErr, OnErr, Cells, IsSetOf, IsAt, OnBad, NoneAt};
ghost use Rattle.sz_short.specs.Terms.{read_bytes, written_bytes};

use crate::sets::{put_set_2, take_set_2};
use std::alloc::Global;
use sz_cells::Shape;
use sz_region::{Take, put_set, take_set};

/// Which spelling of cell sets is read, and which is written.
#[derive(Clone, Copy)]
pub(crate) enum Way {
    /// Short sets are written in place of the others.
    Shorten,
    /// Short sets are read, and the others written.
    Widen,
}

/// Appends the set of a shape that begins at a place, in the other spelling, and gives the place
/// behind it. After a refusal the bytes are as before.
pub(crate) fn respell_set(
    way: Way,
    alloc: Global,
    shape: Shape,
    bytes: &[u8],
    at: u64,
    to: &mut Vec<u8>,
) -> Result<u64, Take>
    ensures ok { IfOk result (λ n. (set : Cells) × IsSetOf shape set
        × IsAt bytes.now at n (read_bytes way set)
        × (to.new.items ≡ to.old.items ++ written_bytes way set)) }
    ensures err { IfErr result
        (λ e. OnBad e (NoneAt (IsSetOf shape) (read_bytes way) bytes.now at)) }
    ensures kept { OnErr result (to.new.items ≡ to.old.items) }
{
    match way {
        Way::Shorten => {
            let (set, next) = take_set(alloc, shape, bytes, at)?;
            put_set_2(&set, to)?;
            Ok(next)
        }
        Way::Widen => {
            let (set, next) = take_set_2(alloc, shape, bytes, at)?;
            put_set(&set, to)?;
            Ok(next)
        }
    }
}
