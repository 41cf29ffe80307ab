//! How often an operator at work is looked at.

use super::{Example, far_side, near_side, numbers, run_of};
use std::alloc::Global;
use std::cell::Cell as Count;
use std::sync::Arc;
use std::test::Fail;
use sz_cells::{Cell, CellBits, CellSet, NoMemory, Run, Shape};
use sz_frame::{AtWork, Mapped, Payload, at_work, trace_by};
use sz_ops_move::Transposition;
use sz_spec::{Dir, Op, Tally, Value};

/// An operator at work that counts how often it is asked.
#[derive(Drop)]
struct Counted<A> {
    of: A,
    looks: Count<u64>,
}

impl<A> Counted<A> {
    fn look(&self) {
        self.looks.set(self.looks.get().wrapping_add(1));
    }
}

impl<A: AtWork> AtWork for Counted<A> {
    ghost site = { λ c. A.site c.of };

    ghost inputs = { λ c. A.inputs c.of };

    fn out(&self) -> Shape {
        self.of.out()
    }

    fn arity(&self) -> u32 {
        self.of.arity()
    }

    fn value(&self, out: Cell, index: u32) -> Value {
        self.look();
        self.of.value(out, index)
    }

    fn back_into(&self, out: Cell, input: u32, to: &mut CellBits) {
        self.look();
        self.of.back_into(out, input, to);
    }

    fn meets(&self, out: Cell, input: u32, from: &CellBits) -> bool {
        self.look();
        self.of.meets(out, input, from)
    }

    fn related_set(&self, alloc: Global, out: Cell, input: u32) -> Result<Arc<CellSet>, NoMemory> {
        self.look();
        self.of.related_set(alloc, out, input)
    }

    fn lineage_kind(&self, out: Cell) -> Option<u32> {
        self.look();
        self.of.lineage_kind(out)
    }

    fn payload_kind(&self, out: Cell) -> Option<u32> {
        self.look();
        self.of.payload_kind(out)
    }

    fn payload(&self, alloc: Global, out: Cell) -> Result<Arc<Payload>, NoMemory> {
        self.look();
        self.of.payload(alloc, out)
    }

    fn overrides(&self, out: Cell) -> bool {
        self.look();
        self.of.overrides(out)
    }
}

impl Example {
    /// How often a trace of the cells of a run of indexes looks at a transposition, and how many
    /// cells it counts.
    fn looks(&self, alloc: Global, dir: Dir, from: Run) -> Result<(u64, u64), Fail> {
        let inputs = self.inputs.as_slice();
        let at = &*self.at;
        at_work(at, inputs);
        let Op::Transpose = at.op() else {
            return Err("the operator is no transposition".into())
        };
        at.ins(); // there is one input
        let near = near_side(at, dir, 0);
        if from.last < from.first || near.size() <= from.last {
            return Err("the cells are out of their array".into());
        }
        let mut bits = CellBits::new(alloc, near)?;
        bits.add_run(from);
        let mut to = CellBits::new(alloc, far_side(at, dir, 0))?;
        let mut tally = Tally::new();
        let counted = Counted {
            of: Mapped {
                of: Transposition { at },
                inputs,
            },
            looks: Count::new(0),
        };
        trace_by(&counted, dir, 0, &bits, &mut to, &mut tally);
        Ok((counted.looks.get(), tally.count()))
    }
}

#[test]
fn a_trace_looks_at_each_cell_once(rt: HostRuntime) -> Result<(), Fail> {
    let alloc = rt.alloc();
    let array = numbers(alloc, 2, 3, &[1, 2, 3, 4, 5, 6])?;
    let turned = Example::of_one(alloc, Op::Transpose, array)?;
    assert_eq!(rt; turned.looks(alloc, Dir::Forward, run_of(1, 2))?, (6, 6));
    assert_eq!(rt; turned.looks(alloc, Dir::Back, run_of(0, 5))?, (6, 6));
    assert_eq!(rt; turned.looks(alloc, Dir::Back, run_of(1, 2))?, (2, 6));
    Ok(())
}
