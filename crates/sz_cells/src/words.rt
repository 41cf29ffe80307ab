//! Words of 64 bits: the bits of a run, the next bit that is 1 or 0, and the longest runs of bits
//! that are 1.

ghost use Rattle.std.specs.Prelude.{◌≡◌, ◌≢◌, ◌+◌, ◌-◌, ◌*◌, ◌/◌, ◌^◌, ◌<◌, ◌≤◌, ◌&&◌};
ghost use Rattle.sz_cells.specs.Terms.{ℕ, true, false, nat_le, length, IfOk, find, range_with_len};
ghost use Rattle.sz_cells.specs.Terms.{is_in, covers, AreRunsFrom, is_one, has_bit};

use crate::spelling::add_run;
use crate::{NoMemory, Run};
use std::alloc::Global;

/// The bits of a word that are the cells of a run.
pub(crate) fn bits_of_run(run: Run, word: u32) -> u64
    requires order { run.first ≤ run.last }
    requires from { run.first / 64 ≤ word }
    requires upto { word ≤ run.last / 64 }
    ensures { (place : ℕ) → place < 64 → is_one result place ≡ is_in run (word * 64 + place) }
{
    let from = if word == run.first / 64 {
        u64::MAX << (run.first % 64)
    } else {
        u64::MAX
    };
    let upto = if word == run.last / 64 {
        u64::MAX >> (63 - run.last % 64)
    } else {
        u64::MAX
    };
    from & upto
}

/// The longest runs of bits that are 1, of which all are in the words from `first` to before `end`.
pub(crate) fn longest_runs(
    alloc: Global,
    words: &[u64],
    first: u32,
    end: u32,
) -> Result<Vec<Run>, NoMemory>
    requires within { end ≤ length words.now }
    requires fits { length words.now * 64 < 2 ^ 32 }
    requires start { first ≤ length words.now }
    requires before { (k : ℕ) → k < first * 64 → has_bit words.now k ≡ false }
    requires after { (k : ℕ) → end * 64 ≤ k → has_bit words.now k ≡ false }
    ensures longest { IfOk result (λ v. (bound : ℕ) → ((k : ℕ) → bound ≤ k → has_bit words.now k
        ≡ false) → AreRunsFrom 0 bound v.items) }
    ensures covered { IfOk result (λ v. (k : ℕ) → covers v.items k ≡ has_bit words.now k) }
{
    let mut runs = Vec::new(alloc);
    let mut from = first * 64;
    while let Some(start) = next_one(words, from, end) {
        let gap = next_zero(words, start, end);
        add_run(
            &mut runs,
            Run {
                first: start,
                last: gap - 1,
            },
        )?;
        from = gap;
    }
    Ok(runs)
}

/// The least index at or after `from` of which the bit is 1, in the words below `end`.
pub(crate) fn next_one(words: &[u64], from: u32, end: u32) -> Option<u32>
    requires within { end ≤ length words.now }
    requires fits { length words.now * 64 < 2 ^ 32 }
    ensures { result ≡ find (has_bit words.now) (range_with_len from (end * 64 - from)) }
{
    for word in from / 64..end {
        let bits = bits_from(words[word as usize], word, from);
        if bits != 0 {
            return Some(word * 64 + bits.trailing_zeros());
        }
    }
    None
}

/// The least index at or after `from` of which the bit is 0, in the words below `end`, or the first
/// index of `end`.
fn next_zero(words: &[u64], from: u32, end: u32) -> u32
    requires within { end ≤ length words.now }
    requires fits { length words.now * 64 < 2 ^ 32 }
    requires one { has_bit words.now from ≡ true }
    requires low { from < end * 64 }
    ensures later { from < result }
    ensures bounded { result ≤ end * 64 }
    ensures ones { (k : ℕ) → from ≤ k → k < result → has_bit words.now k ≡ true }
    ensures zero { result < end * 64 → has_bit words.now result ≡ false }
{
    for word in from / 64..end {
        let bits = bits_from(!words[word as usize], word, from);
        if bits != 0 {
            return word * 64 + bits.trailing_zeros();
        }
    }
    end * 64
}

/// The bits of a word that are not before an index.
fn bits_from(bits: u64, word: u32, from: u32) -> u64
    requires { from / 64 ≤ word }
    ensures { (place : ℕ) → place < 64 → is_one result place
        ≡ (is_one bits place && nat_le from (word * 64 + place)) }
{
    if word == from / 64 {
        bits & (u64::MAX << (from % 64))
    } else {
        bits
    }
}

/// Sets the bits to 0 that are 1, of which all are in the words from `first` to before `end`.
pub(crate) fn clear_words(words: &mut [u64], first: u32, end: u32)
    requires within { end ≤ length words.old }
    requires before { (k : ℕ) → k < first * 64 → has_bit words.old k ≡ false }
    requires after { (k : ℕ) → end * 64 ≤ k → has_bit words.old k ≡ false }
    ensures { (k : ℕ) → has_bit words.new k ≡ false }
{
    for word in first..end {
        words[word as usize] = 0;
    }
}
