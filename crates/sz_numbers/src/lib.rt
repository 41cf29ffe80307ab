//! Numbers of four and of eight bytes, the highest byte first, as the log and the stores in it have
//! them. The bytes are made and read by the crate `byteorder`, here alone.
//!
//! ```
//! bytes.extend_from_slice(&four_bytes(258))?;     // 00 00 01 02
//! four_at(&bytes, 0);                             // 258
//! ```
//!
//! Contracts name bytes as std does: `to_be_bytes` and `from_be_bytes`.
#![tactic(auto)]

ghost use Rattle.std.specs.Prelude.{◌≡◌, ◌≤◌, ◌+◌};
ghost use Rattle.sz_numbers.specs.Terms.{length, w32, w64, to_be_bytes, four_at, eight_at};

use byteorder::{BigEndian, ByteOrder};

/// The four bytes of a number.
pub fn four_bytes(number: u32) -> [u8; 4]
    ensures { result ≡ to_be_bytes w32 number }
{
    let mut bytes = [0; 4];
    BigEndian::write_u32(&mut bytes, number);
    bytes
}

/// The eight bytes of a number.
pub fn eight_bytes(number: u64) -> [u8; 8]
    ensures { result ≡ to_be_bytes w64 number }
{
    let mut bytes = [0; 8];
    BigEndian::write_u64(&mut bytes, number);
    bytes
}

/// The number of the four bytes at a place.
pub fn four_at(bytes: &[u8], at: usize) -> u32
    requires { at + 4 ≤ length bytes.now }
    ensures { result ≡ four_at bytes.now at }
{
    BigEndian::read_u32(&bytes[at..])
}

/// The number of the eight bytes at a place.
pub fn eight_at(bytes: &[u8], at: usize) -> u64
    requires { at + 8 ≤ length bytes.now }
    ensures { result ≡ eight_at bytes.now at }
{
    BigEndian::read_u64(&bytes[at..])
}
