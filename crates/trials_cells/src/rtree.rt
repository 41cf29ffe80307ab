//! Looks in a tree of three rectangles, and in one of the greatest array. What a look answers is
//! proved; that there is memory for a tree is met here.

ghost use Rattle.std.specs.Prelude.{◌≡◌, ◌<◌, ◌^◌, length, IfOk};

use std::alloc::{AllocError, Global};
use std::test::Fail;
use sz_cells::{Bounds, NoMemory};
use sz_rtree::RTree;

const fn bounds(top: u32, left: u32, bottom: u32, right: u32) -> Bounds {
    Bounds {
        top,
        left,
        bottom,
        right,
    }
}

/// A tree with these rectangles, for which room is made once.
fn tree_of(alloc: Global, rectangles: &[Bounds]) -> Result<RTree, NoMemory>
    requires { length rectangles.now < 2 ^ 32 }
{
    let mut tree = RTree::new(alloc)?;
    tree.reserve(rectangles.len() as u32)?;
    for rectangle in rectangles {
        tree.insert(*rectangle);
    }
    Ok(tree)
}

/// A rectangle to look for, the number from which on, and the next that has cells of it.
type Look = ([u32; 4], u32, Option<u32>);

/// Whether a look in a tree finds its number.
fn is_found(tree: &RTree, look: &Look) -> bool {
    let [top, left, bottom, right] = look.0;
    tree.next_hit(bounds(top, left, bottom, right), look.1) == look.2
}

/// Whether each look in a tree finds its number.
fn finds(tree: &RTree, looks: &[Look]) -> bool {
    looks.iter().all(|look| is_found(tree, look))
}

/// Looks in the tree of the three.
const IN_THREE: [Look; 6] = [
    ([1, 1, 1, 1], 0, Some(0)),
    ([1, 1, 1, 1], 1, Some(2)),
    ([1, 1, 1, 1], 2, Some(2)),
    ([1, 1, 1, 1], 3, None),
    ([3, 0, 3, 0], 0, None),
    ([5, 5, 5, 5], 0, Some(1)),
];

#[test]
fn finds_the_three_in_turn(rt: HostRuntime) -> Result<(), Fail> {
    let three = [bounds(0, 0, 1, 1), bounds(5, 5, 6, 6), bounds(1, 1, 5, 5)];
    let tree = tree_of(rt.alloc(), &three)?;
    assert!(rt; tree.len() == 3 && finds(&tree, &IN_THREE));
    Ok(())
}

/// The cells of a square of this side, each a rectangle of its own, in row-major order.
fn unit_squares(alloc: Global, side: u32) -> Result<Vec<Bounds>, AllocError> {
    let mut rectangles = Vec::new(alloc);
    for row in 0..side {
        for column in 0..side {
            rectangles.push(bounds(row, column, row, column))?;
        }
    }
    Ok(rectangles)
}

/// Looks in the tree of the cells of a square of side 512.
const IN_SQUARE: [Look; 7] = [
    ([511, 511, 511, 511], 0, Some(262143)),
    ([511, 511, 511, 511], 262143, Some(262143)),
    ([511, 511, 511, 511], 262144, None),
    ([510, 511, 511, 511], 0, Some(261631)),
    ([510, 511, 511, 511], 261632, Some(262143)),
    ([0, 0, 511, 511], 262142, Some(262142)),
    ([512, 0, 600, 511], 0, None),
];

/// The cells of a square, where there are so many.
fn square_of(alloc: Global, side: u32, count: u32) -> Result<Vec<Bounds>, Fail>
    ensures { IfOk result (λ v. length v.items ≡ count) }
{
    let rectangles = unit_squares(alloc, side)?;
    if rectangles.len() != count as usize {
        return Err(Fail::from("another number of cells"));
    }
    Ok(rectangles)
}

#[test]
fn finds_the_last_of_262144(rt: HostRuntime) -> Result<(), Fail> {
    let alloc = rt.alloc();
    let tree = tree_of(alloc, &square_of(alloc, 512, 262144)?)?;
    assert!(rt; tree.len() == 262144 && finds(&tree, &IN_SQUARE));
    Ok(())
}

#[test]
fn a_tree_of_all_at_once_finds_the_last_of_262144(rt: HostRuntime) -> Result<(), Fail> {
    let alloc = rt.alloc();
    let tree = RTree::of(alloc, square_of(alloc, 512, 262144)?)?;
    assert!(rt; tree.len() == 262144 && finds(&tree, &IN_SQUARE));
    Ok(())
}

#[test]
fn a_tree_of_all_at_once_takes_one_more(rt: HostRuntime) -> Result<(), Fail> {
    let alloc = rt.alloc();
    let two = vec![in alloc; bounds(0, 0, 1, 1), bounds(5, 5, 6, 6)]?;
    let mut tree = RTree::of(alloc, two)?;
    tree.reserve(1)?;
    tree.insert(bounds(1, 1, 5, 5));
    assert!(rt; tree.len() == 3 && finds(&tree, &IN_THREE));
    Ok(())
}
