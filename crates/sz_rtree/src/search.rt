//! The search for the next rectangle that overlaps.

ghost use Rattle.std.specs.Prelude.{◌≡◌, ◌<◌, ◌≤◌, ◌+◌, ◌^◌};
ghost use Rattle.sz_rtree.specs.Terms.{ℕ, length, MatchOption, IfSome, All, HoldsAt, Overlaps};
ghost use Rattle.sz_rtree.specs.Terms.{IsNextHit, Covers, MissesUpTo};

use crate::levels::{FAN_BITS, Level, overlap};
use sz_cells::Bounds;

/// The least number at or above `from` whose rectangle overlaps `bounds`.
///
/// A box that does not overlap is left whole. A box that does is looked into, a level lower. After
/// a miss the search goes on with the largest box that begins where that miss ends. The choice of
/// the level decides what a look costs, and never what it answers.
pub(crate) fn first_hit(
    rectangles: &[Bounds],
    levels: &[Level],
    bounds: &Bounds,
    from: usize,
) -> Option<usize>
    requires covered { All (Covers rectangles.now) levels.now }
    requires few { length rectangles.now < 2 ^ 32 }
    ensures { IsNextHit rectangles.now bounds.now from result }
{
    let mut number = from;
    let mut height = height_at(number, levels.len());
    while number < rectangles.len() {
        match end_of_miss(rectangles, levels, bounds, number, height) {
            Some(end) => {
                number = end;
                height = height_at(number, levels.len());
            }
            None if height == 0 => return Some(number),
            None => height -= 1,
        }
    }
    None
}

/// The number up to which nothing overlaps `bounds`, where the rectangle `number` (at height 0) or
/// its box `height` levels above does not.
fn end_of_miss(
    rectangles: &[Bounds],
    levels: &[Level],
    bounds: &Bounds,
    number: usize,
    height: usize,
) -> Option<usize>
    requires covered { All (Covers rectangles.now) levels.now }
    requires few { length rectangles.now < 2 ^ 32 }
    requires number_is_there { number < length rectangles.now }
    requires height_is_there { height ≤ length levels.now }
    ensures hit { result ≡ None → height ≡ 0
        → HoldsAt (λ r. Overlaps r bounds.now) rectangles.now number }
    ensures ahead { IfSome result (λ end. number < end) }
    ensures missed { IfSome result (λ end. MissesUpTo rectangles.now bounds.now number end) }
{
    if height > 0 {
        levels[height - 1].end_of_miss(number, bounds)
    } else if overlap(&rectangles[number], bounds) {
        None
    } else {
        Some(number + 1)
    }
}

/// How many levels above the rectangles a box begins with `number`, at most `highest`.
fn height_at(number: usize, highest: usize) -> usize
    ensures { result ≤ highest }
{
    let low_zeros = number.trailing_zeros() as usize;
    (low_zeros / FAN_BITS).min(highest)
}
