//! The bytes of short numbers as they are written, and bytes that are none.

use crate::numbers::{put_short, take_short};
use std::alloc::Global;
use std::test::Fail;

/// Whether a number is written as these bytes, and they are read as that number.
fn is_spelled(alloc: Global, number: u32, bytes: &[u8]) -> Result<bool, Fail> {
    let mut written = Vec::new(alloc);
    put_short(number, &mut written)?;
    let read = take_short(bytes, 0) == Some((number, bytes.len() as u64));
    Ok(written.as_slice() == bytes && read)
}

#[test]
fn numbers_are_written_and_read_again(rt: HostRuntime) -> Result<(), Fail> {
    let alloc = rt.alloc();
    assert!(rt; is_spelled(alloc, 0, &[0])?);
    assert!(rt; is_spelled(alloc, 127, &[0x7f])?);
    assert!(rt; is_spelled(alloc, 128, &[0x80, 1])?);
    assert!(rt; is_spelled(alloc, 300, &[0xac, 2])?);
    assert!(rt; is_spelled(alloc, 4_294_967_295, &[0xff, 0xff, 0xff, 0xff, 0x0f])?);
    Ok(())
}

#[test]
fn bytes_of_no_number_are_refused(rt: HostRuntime) {
    assert_eq!(rt; take_short(&[], 0), None);
    assert_eq!(rt; take_short(&[0x80], 0), None);
    assert_eq!(rt; take_short(&[0x80, 0], 0), None);
    assert_eq!(rt; take_short(&[0xff, 0xff, 0xff, 0xff, 0x1f], 0), None);
    assert_eq!(rt; take_short(&[0x80, 0x80, 0x80, 0x80, 0x80, 1], 0), None);
    assert_eq!(rt; take_short(&[7], 1), None);
}
