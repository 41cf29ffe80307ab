//! Whole texts against those of another program, written from the rules alone.

ghost use Rattle.std.specs.Prelude.{◌≤◌};

use sha2::{Digest, Sha256};
use std::alloc::{AllocError, Global};
use std::test::Fail;
use sz_gen::{NoMemory, session_text, summary_text};

/// Whether a text has this digest.
fn has_digest(alloc: Global, text: &[u8], digest: &str) -> Result<bool, NoMemory> {
    let found = hex::encode(alloc, Sha256::digest(text))?;
    Ok(found.as_str() == digest)
}

/// Whether the text of a session has this digest.
fn is_text(alloc: Global, seed: u32, side: u32, digest: &str) -> Result<bool, NoMemory>
    requires some { 1 ≤ side }
    requires limit { side ≤ 512 }
{
    let text = session_text(alloc, seed, side)?;
    has_digest(alloc, text.as_slice(), digest)
}

/// The numbers from 0 to 250 over and over, so many in all.
fn long_replies(alloc: Global, length: u32) -> Result<Vec<u8>, AllocError> {
    let mut replies = Vec::new(alloc);
    for index in 0..length {
        replies.push((index % 251) as u8)?;
    }
    Ok(replies)
}

#[test]
fn texts_are_those_of_another_program(rt: HostRuntime) -> Result<(), Fail> {
    let alloc = rt.alloc();
    let one = "fa049d419e8404d0febd9fee724d082366e3ab640341798e5e859b4667ac0ef6";
    assert!(rt; is_text(alloc, 0, 1, one)?);
    let some = "2df74e891dc78cf966bcea80110aabeead5c57122c78acae729f9438b4952ef7";
    assert!(rt; is_text(alloc, 4294967295, 16, some)?);
    let most = "2c92ede982672bf2d13ae74e58ff50d21ea8854940d37eaa22d264953b829ef6";
    assert!(rt; is_text(alloc, 1, 512, most)?);
    Ok(())
}

/// Whether replies are summed up by this line.
fn is_summed_up(alloc: Global, replies: &[u8], line: &str) -> Result<bool, NoMemory> {
    let found = summary_text(alloc, 4294967295, 512, 18446744073709551615, replies)?;
    Ok(found.as_slice() == line.as_bytes())
}

#[test]
fn sums_up_more_than_a_megabyte(rt: HostRuntime) -> Result<(), Fail> {
    let replies = long_replies(rt.alloc(), 1048577)?;
    let line = concat!(
        "load seed 4294967295 side 512 lines 18446744073709551615 sha256 ",
        "5769f52bc3eef28afa39c6fc68cadb7d0bd69812ae3a3d71452f519ec3c7aa56\n"
    );
    assert!(rt; is_summed_up(rt.alloc(), &replies, line)?);
    Ok(())
}
