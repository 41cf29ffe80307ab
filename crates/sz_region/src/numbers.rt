//! Numbers of four bytes, big-endian: writing them, alone and in rows, and reading one at a place.

ghost use Rattle.std.specs.Prelude.{◌≡◌, ◌<◌, ◌≤◌, ◌+◌, ◌*◌, ◌^◌, ◌++◌};
ghost use Rattle.sz_region.specs.Terms.{ℕ, List, length, take, IfSome, IfNone, OnOk, OnErr};
ghost use Rattle.sz_region.specs.Terms.{four_bytes, rows_bytes, IsAt, AreRows, MakeRows};

use sz_cells::NoMemory;
use sz_numbers::{four_at, four_bytes};

/// Appends a number. After `NoMemory` the bytes are as before.
pub fn put_number(number: u32, to: &mut Vec<u8>) -> Result<(), NoMemory>
    ensures ok { OnOk result (to.new.items ≡ to.old.items ++ four_bytes number) }
    ensures err { OnErr result (to.new.items ≡ to.old.items) }
{
    to.extend_from_slice(&four_bytes(number))?;
    Ok(())
}

/// Appends how many rows of `width` numbers there are, and the numbers, row by row. After
/// `NoMemory` some of the bytes may be there.
pub fn put_rows(width: u32, numbers: &[u32], to: &mut Vec<u8>) -> Result<(), NoMemory>
    requires width { 0 < width }
    requires whole { MakeRows width numbers.now }
    ensures ok { OnOk result ((rows : List (List ℕ)) → AreRows width numbers.now rows
        → to.new.items ≡ to.old.items ++ rows_bytes rows) }
    ensures err { OnErr result (take (length to.old.items) to.new.items ≡ to.old.items) }
{
    put_number((numbers.len() / width as usize) as u32, to)?;
    for number in numbers {
        put_number(*number, to)?;
    }
    Ok(())
}

/// The number whose four bytes stand at a place. `None` exactly where there are not four bytes.
pub fn take_number(bytes: &[u8], at: u64) -> Option<u32>
    ensures some { IfSome result (λ n. IsAt bytes.now at (at + 4) (four_bytes n)) }
    ensures none { IfNone result (length bytes.now < at + 4) }
{
    let length = bytes.len() as u64;
    if length < 4 || length - 4 < at {
        return None;
    }
    Some(four_at(bytes, at as usize))
}
