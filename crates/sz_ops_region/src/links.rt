//! Links between cells, by which those that are connected get one root.
//!
//! A cell's word is 0 where it has no link, else 1 plus the index of the cell to which it is
//! linked: itself, or an earlier cell. From each cell the links lead to its root, which is linked
//! to itself. A search for a root shortens the way that it goes.

ghost use Rattle.std.specs.Prelude.{◌≡◌, ◌+◌, ◌<◌, ◌≤◌, ◌⊎◌, ◌==◌, if◌then◌else◌};
ghost use Rattle.sz_ops_region.specs.Terms.{ℕ, true, false, slice_index, slice_set, length};
ghost use Rattle.sz_ops_region.specs.Terms.{HasLink, AreLinks, KeepLinks, AreRoots, merged};
ghost use Rattle.sz_ops_region.specs.Terms.{merged_by, IsWordBeside, word_on};

/// The root of a cell. Each cell on the way is linked anew to the cell to which its own was linked.
fn root_of(words: &mut [u32], start: u32) -> u32
    requires links { AreLinks words.old }
    requires start { HasLink words.old start }
    ensures links { AreLinks words.new }
    ensures kept { KeepLinks words.old words.new }
    ensures roots { (root : ℕ → ℕ) → AreRoots words.old root
        → AreRoots words.new root × (result ≡ root start) }
    ensures top { slice_index words.new result ≡ 1 + result }
    ensures tops { (k : ℕ) → slice_index words.old k ≡ 1 + k → slice_index words.new k ≡ 1 + k }
{
    let mut at = start;
    loop {
        let up = words[at as usize] - 1;
        if up == at {
            return at;
        }
        let over = words[up as usize];
        words[at as usize] = over;
        at = over - 1;
    }
}

/// Unites the cells that have the root of one cell with those that have the root of another one:
/// the lesser root is that of all. The word that links a cell to it.
fn unite(words: &mut [u32], a: u32, b: u32) -> u32
    requires links { AreLinks words.old }
    requires a { HasLink words.old a }
    requires b { HasLink words.old b }
    ensures links { AreLinks words.new }
    ensures kept { KeepLinks words.old words.new }
    ensures roots { (root : ℕ → ℕ) → AreRoots words.old root
        → AreRoots words.new (merged root a b) × (result ≡ 1 + merged root a b a) }
    ensures top { (p : ℕ) → result ≡ 1 + p → slice_index words.new p ≡ 1 + p }
{
    let first = root_of(words, a);
    let second = root_of(words, b);
    if first < second {
        link(words, second, first)
    } else {
        link(words, first, second)
    }
}

/// Links a root to another one that is no greater. The word that does so.
fn link(words: &mut [u32], from: u32, to: u32) -> u32
    requires from { slice_index words.old from ≡ 1 + from }
    requires to { slice_index words.old to ≡ 1 + to }
    ensures word { result ≡ 1 + to }
    ensures words { words.new ≡ slice_set words.old from (1 + to) }
{
    let word = words[to as usize];
    words[from as usize] = word;
    word
}

/// The word for a cell: where it is high, it is to be united with the cells to which two words
/// link, 0 where there is none. Any other cell has no link.
pub(crate) fn word_for(words: &mut [u32], high: bool, index: u32, left: u32, above: u32) -> u32
    requires links { AreLinks words.old }
    requires index { index < 1048576 }
    requires left { (p : ℕ) → left ≡ 1 + p → HasLink words.old p }
    requires above { (p : ℕ) → above ≡ 1 + p → HasLink words.old p }
    ensures links { AreLinks words.new }
    ensures kept { KeepLinks words.old words.new }
    ensures high { high ≡ true → (root : ℕ → ℕ) → AreRoots words.old root
        → AreRoots words.new (merged_by root left above)
        × IsWordBeside words.new (merged_by root left above) index left above result }
    ensures low { high ≡ false → (words.new ≡ words.old) × (result ≡ 0) }
{
    if are_two(kept_where(high, left), above) {
        unite(words, left - 1, above - 1)
    } else {
        kept_where(high, one_of(left, above, 1 + index))
    }
}

/// A word where a cell is high, else 0.
fn kept_where(high: bool, word: u32) -> u32
    ensures { result ≡ (if high then word else 0) }
{
    if high { word } else { 0 }
}

/// Whether both of two words are no 0, and they differ: one test, since what is true of so few
/// cells is foreseen, and of each of its parts it is not.
fn are_two(one: u32, other: u32) -> bool
    ensures two { result ≡ true → (0 < one) × (0 < other) }
    ensures one { result ≡ false → (one ≡ 0) ⊎ ((other ≡ 0) ⊎ (one ≡ other)) }
{
    one.min(other).wrapping_sub(1) < one.max(other).wrapping_sub(1)
}

/// The first of some words that is no 0.
fn one_of(left: u32, above: u32, own: u32) -> u32
    ensures { result ≡ (if left == 0 then (if above == 0 then own else above) else left) }
{
    let beside = if left == 0 { above } else { left };
    if beside == 0 { own } else { beside }
}

/// The word of the cell to which the cell of an index is linked, which is its own from now on.
pub(crate) fn settle(words: &mut [u32], index: usize) -> u32
    requires down { (p : ℕ) → slice_index words.old index ≡ 1 + p → p ≤ index }
    requires index { index < length words.old }
    ensures word { result ≡ word_on words.old index }
    ensures words { words.new ≡ slice_set words.old index result }
{
    let word = words[index];
    // of a cell without a link the word is its own, so that no branch is taken by a word
    let at = if word == 0 {
        index
    } else {
        (word - 1) as usize
    };
    let label = words[at];
    words[index] = label;
    label
}
