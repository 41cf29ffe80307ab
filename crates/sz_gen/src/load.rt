//! The two texts.

ghost use Rattle.std.specs.Prelude.{◌≡◌, ◌≤◌};
ghost use Rattle.sz_gen.specs.Terms.{IfOk, load_text, summary_line};

use crate::NoMemory;
use crate::draft::Draft;
use sha2::{Digest, Sha256};
use std::alloc::Global;

/// The text of the session of this seed and side, 42 lines. A side is 1 to 512. The cost is linear
/// in the text, whose greatest part is a number for each cell of a square of this side.
pub fn session_text(alloc: Global, seed: u32, side: u32) -> Result<Vec<u8>, NoMemory>
    requires some { 1 ≤ side }
    requires limit { side ≤ 512 }
    ensures { IfOk result (λ text. text.items ≡ load_text seed side) }
{
    let mut draft = Draft::new(alloc, seed);
    draft.push_array(b"img", side, side, 1000)?;
    draft.push_array(b"tab", 1, 16, 100)?;
    draft.push_flow()?;
    draft.push_strategies()?;
    draft.push_start()?;
    draft.push_triples(1, side)?;
    draft.push_await()?;
    draft.push_triples(10, side)?;
    Ok(draft.text)
}

/// The line that sums up a session of this seed and side: how many lines it had, and the SHA-256
/// digest of its replies. The cost is linear in the replies.
#[tactic(auto, unfolding(crate::specs::Summary::summary_line))]
pub fn summary_text(
    alloc: Global,
    seed: u32,
    side: u32,
    lines: u64,
    replies: &[u8],
) -> Result<Vec<u8>, NoMemory>
    ensures { IfOk result (λ text. text.items ≡ summary_line seed side lines replies.now) }
{
    let digest = hex::encode(alloc, Sha256::digest(replies))?;
    let text = format!(in alloc; "load seed {seed} side {side} lines {lines} sha256 {digest}\n")?;
    Ok(text.into_bytes())
}
