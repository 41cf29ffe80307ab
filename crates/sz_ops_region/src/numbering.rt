//! Numbering the components of an array by the labels of its cells, in one pass: the first cell
//! with a label is alone until another one has its label, and then both have a number.

ghost use Rattle.std.specs.Prelude.{◌≡◌, ◌+◌, ◌<◌, ◌≤◌};
ghost use Rattle.sz_ops_region.specs.Terms.{length, IfOk, AreFirsts, AreGrouped, AreNumbers};

use crate::marks::{Mark, Marks};
use crate::settling::labels_in;
use std::alloc::Global;
use sz_cells::NoMemory;
use sz_spec::Array;

/// The numbers of the components of cells so far.
#[derive(Drop)]
pub(crate) struct Numbers {
    /// What is known of each cell.
    pub(crate) marks: Marks,
    /// How many components have a number.
    pub(crate) count: u32,
}

impl Numbers {
    /// Marks the next cell, and where it is the second one with its label the first one too.
    fn add(&mut self, labels: &[u32], index: u32)
        requires index { index < length labels.now }
        requires few { length labels.now ≤ 1048576 }
        requires firsts { AreFirsts labels.now }
        requires count { self.old.count ≤ index }
        requires grouped { AreGrouped labels.now self.old.marks self.old.count index }
        ensures count { self.new.count ≤ index + 1 }
        ensures grouped { AreGrouped labels.now self.new.marks self.new.count (index + 1) }
    {
        let label = labels[index as usize];
        if label == 0 {
            return;
        }
        let first = label - 1;
        if first == index {
            self.marks.set_alone(index);
            return;
        }
        match self.marks.at(first) {
            Mark::Numbered(number) => self.marks.give(index, number),
            _ => {
                self.marks.give(first, self.count);
                self.marks.give(index, self.count);
                self.count += 1;
            }
        }
    }
}

/// The number of the component of each high cell of an array, in row-major order. A component of
/// one cell has none.
///
/// Takes memory in the number of the array's cells, and time as the links between them do.
pub(crate) fn numbers_of(alloc: Global, array: &Array, t: i64) -> Result<Numbers, NoMemory>
    ensures { IfOk result (λ n. AreNumbers t array.now n.marks n.count) }
{
    array.shape().size(); // a shape is within the limits
    let labels = labels_in(alloc, array, t)?;
    numbers_by(alloc, &labels)
}

/// The numbers of the components of cells by their labels.
fn numbers_by(alloc: Global, labels: &[u32]) -> Result<Numbers, NoMemory>
    requires few { length labels.now ≤ 1048576 }
    requires firsts { AreFirsts labels.now }
    ensures { IfOk result
        (λ n. AreGrouped labels.now n.marks n.count (length labels.now)) }
{
    let mut numbers = Numbers {
        marks: Marks::none(alloc, labels.len())?,
        count: 0,
    };
    for index in 0..labels.len() {
        numbers.add(labels, index as u32);
    }
    Ok(numbers)
}
