//! The levels of the tree: each has one box for each run of `span` rectangles whose numbers follow
//! one another.
//!
//! All that a look may rest on is `Covers`, that a box is round all its rectangles; `HasRoom` is
//! what lets a rectangle be added without memory.

ghost use Rattle.std.specs.Prelude.{◌≡◌, ◌<◌, ◌≤◌, ◌+◌, ◌^◌, ◌*◌, ◌++◌, ◌∷◌, ◌↔◌};
ghost use Rattle.sz_rtree.specs.Terms.{[], ℕ, List, length, slice_index_or, OnOk, IfOk, IfSome};
ghost use Rattle.sz_rtree.specs.Terms.{All, IsTrue, vec_len, vec_capacity, Bounds, Overlaps};
ghost use Rattle.sz_rtree.specs.Terms.{IsInside, Covers, HasRoom, MissesUpTo, box_capacities};

use std::alloc::Global;
use sz_cells::{Bounds, NoMemory};

/// The binary digits by which the span of one level exceeds that of the level below.
pub(crate) const FAN_BITS: usize = 2;

/// How many boxes of a level lie in one of the next.
const FAN: usize = 1 << FAN_BITS;

/// The span of the highest level, of which no tree has more than four boxes.
const GREATEST_SPAN: usize = 1 << 30;

#[derive(Drop)]
pub(crate) struct Level {
    span: usize,
    boxes: Vec<Bounds>,
}

/// The levels of a tree without rectangles.
pub(crate) fn empty_levels(alloc: Global) -> Result<Vec<Level>, NoMemory>
    ensures { IfOk result (λ levels. All (Covers []) levels.items) }
{
    let mut levels = Vec::new(alloc);
    let mut span = FAN;
    while span <= GREATEST_SPAN {
        let level = Level {
            span,
            boxes: Vec::new(alloc),
        };
        levels.push(level)?;
        span *= FAN;
    }
    Ok(levels)
}

/// The levels over these rectangles: the boxes of each are made of those of the level below, so they
/// cost a third of a visit to each rectangle.
pub(crate) fn levels_over(alloc: Global, rectangles: &[Bounds]) -> Result<Vec<Level>, NoMemory>
    requires { length rectangles.now < 2 ^ 32 }
    ensures { IfOk result (λ levels. All (Covers rectangles.now) levels.items) }
{
    let mut levels = Vec::new(alloc);
    let mut level = level_over(alloc, rectangles)?;
    while level.span < GREATEST_SPAN {
        let above = level_over(alloc, &level.boxes)?;
        let span = level.span * FAN;
        levels.push(level)?;
        level = Level {
            span,
            boxes: above.boxes,
        };
    }
    levels.push(level)?;
    Ok(levels)
}

/// The lowest level over these rectangles.
fn level_over(alloc: Global, rectangles: &[Bounds]) -> Result<Level, NoMemory>
    requires { length rectangles.now < 2 ^ 32 }
    ensures span { IfOk result (λ level. level.span ≡ 4) }
    ensures few { IfOk result (λ level. length level.boxes.items ≤ length rectangles.now) }
    ensures covers { IfOk result (Covers rectangles.now) }
{
    let mut level = Level {
        span: FAN,
        boxes: Vec::new(alloc),
    };
    level.reserve(rectangles.len())?;
    for number in 0..rectangles.len() {
        level.add(number, rectangles[number]);
    }
    Ok(level)
}

/// Takes room for the boxes of `count` rectangles on every level.
pub(crate) fn reserve_all(levels: &mut [Level], count: usize) -> Result<(), NoMemory>
    requires positive { All (λ level. 0 < level.span) levels.old }
    requires count_fits { count < 2 ^ 32 }
    ensures covers { (rectangles : List Bounds)
        → All (Covers rectangles) levels.old → All (Covers rectangles) levels.new }
    ensures kept { (room : ℕ)
        → All (HasRoom room) levels.old → All (HasRoom room) levels.new }
    ensures ok { OnOk result (All (HasRoom count) levels.new) }
{
    for level in levels.iter_mut() {
        level.reserve(count)?;
    }
    Ok(())
}

/// Puts the rectangle `number`, which comes after all others, into its box on every level.
pub(crate) fn add_to_all(levels: &mut [Level], number: usize, bounds: Bounds)
    requires positive { All (λ level. 0 < level.span) levels.old }
    requires room { All (HasRoom (number + 1)) levels.old }
    ensures covers { (rectangles : List Bounds) → length rectangles ≡ number
        → All (Covers rectangles) levels.old
        → All (Covers (rectangles ++ bounds ∷ [])) levels.new }
    ensures kept { (room : ℕ)
        → All (HasRoom room) levels.old → All (HasRoom room) levels.new }
    ensures capacities { box_capacities levels.new ≡ box_capacities levels.old }
{
    for level in levels.iter_mut() {
        level.add(number, bounds);
    }
}

impl Level {
    /// Takes room for the boxes of `count` rectangles.
    fn reserve(&mut self, count: usize) -> Result<(), NoMemory>
        requires positive { 0 < self.old.span }
        requires count_fits { count < 2 ^ 32 }
        ensures span { self.new.span ≡ self.old.span }
        ensures boxes { self.new.boxes.items ≡ self.old.boxes.items }
        ensures covers { (rectangles : List Bounds)
            → Covers rectangles self.old → Covers rectangles self.new }
        ensures kept { (room : ℕ) → HasRoom room self.old → HasRoom room self.new }
        ensures ok { OnOk result (HasRoom count self.new) }
    {
        let boxes = count / self.span + 1;
        let more = boxes.saturating_sub(self.boxes.len());
        reserve_bounds(&mut self.boxes, more)
    }

    /// Puts the rectangle `number`, which comes after all that the level has, into its box.
    fn add(&mut self, number: usize, bounds: Bounds)
        requires positive { 0 < self.old.span }
        requires room { HasRoom (number + 1) self.old }
        ensures span { self.new.span ≡ self.old.span }
        ensures covers { (rectangles : List Bounds) → length rectangles ≡ number
            → Covers rectangles self.old → Covers (rectangles ++ bounds ∷ []) self.new }
        ensures few { length self.new.boxes.items ≤ length self.old.boxes.items + 1 }
        ensures kept { (room : ℕ) → HasRoom room self.old → HasRoom room self.new }
        ensures capacity { vec_capacity self.new.boxes ≡ vec_capacity self.old.boxes }
    {
        let place = number / self.span;
        if place < self.boxes.len() {
            let before = self.boxes[place];
            self.boxes[place] = box_round(before, bounds);
        } else {
            self.boxes.push_reserved(bounds);
        }
    }

    /// The number after the last one in the box of `number`, where that box does not overlap
    /// `bounds`.
    pub(crate) fn end_of_miss(&self, number: usize, bounds: &Bounds) -> Option<usize>
        requires positive { 0 < self.now.span }
        requires small { self.now.span < 2 ^ 32 }
        requires number_fits { number < 2 ^ 32 }
        requires inside { number < vec_len self.now.boxes * self.now.span }
        ensures ahead { IfSome result (λ end. number < end) }
        ensures missed { IfSome result (λ end. (rectangles : List Bounds)
            → Covers rectangles self.now → MissesUpTo rectangles bounds.now number end) }
    {
        let place = number / self.span;
        if overlap(&self.boxes[place], bounds) {
            None
        } else {
            Some((place + 1) * self.span)
        }
    }
}

/// Takes room for `more` beside those that are there.
pub(crate) fn reserve_bounds(list: &mut Vec<Bounds>, more: usize) -> Result<(), NoMemory>
    ensures items { list.new.items ≡ list.old.items }
    ensures capacity { vec_capacity list.old ≤ vec_capacity list.new }
    ensures ok { OnOk result (vec_len list.old + more ≤ vec_capacity list.new) }
{
    list.reserve(more)?;
    Ok(())
}

/// The smallest box round the two.
fn box_round(a: Bounds, b: Bounds) -> Bounds
    ensures first { IsInside a result }
    ensures second { IsInside b result }
{
    Bounds {
        top: a.top.min(b.top),
        left: a.left.min(b.left),
        bottom: a.bottom.max(b.bottom),
        right: a.right.max(b.right),
    }
}

/// Whether the two have a row and a column in common.
pub(crate) fn overlap(a: &Bounds, b: &Bounds) -> bool
    ensures { IsTrue result ↔ Overlaps a.now b.now }
{
    let by_rows = a.top <= b.bottom && b.top <= a.bottom;
    let by_columns = a.left <= b.right && b.left <= a.right;
    by_rows && by_columns
}
