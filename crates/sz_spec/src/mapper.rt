//! Mappings of cells: the lineage of an operator that is known without its values.

ghost use Rattle.std.specs.Prelude.{◌≡◌, ◌<◌};
ghost use Rattle.sz_spec.specs.Terms.{true, length, holds, with_those, extent_at, Site, mapped};
ghost use Rattle.sz_spec.specs.Terms.{has_mapping, is_payload, mapped_by_payload};

use sz_cells::{Cell, CellBits};

/// The mappings of an operator between given shapes, in both directions and by payload. Of an
/// operator without a mapping of cells the first two give the composite default.
///
/// `site` is the operator with its shapes, and each call states what it adds by a relation of that
/// operator: `mapped` seen from its two sides, and `mapped_by_payload`. None takes memory.
pub trait Mapper {
    ghost site: { Self → Site };

    /// Adds the cells of an input to which an output cell is mapped.
    fn map_b_into(&self, out: Cell, input: u32, to: &mut CellBits)
        requires out { holds (site self.now).out out ≡ true }
        requires input { input < length (site self.now).ins }
        requires to { to.old.extent ≡ extent_at (site self.now).ins input }
        ensures { let s = site self.now in to.new ≡ with_those to.old
            (λ x. mapped s.op s.ins input out x) };

    /// Adds the output cells that are mapped to a cell of an input.
    fn map_f_into(&self, cell: Cell, input: u32, to: &mut CellBits)
        requires input { input < length (site self.now).ins }
        requires cell { holds (extent_at (site self.now).ins input) cell ≡ true }
        requires to { to.old.extent ≡ (site self.now).out }
        ensures { let s = site self.now in to.new ≡ with_those to.old
            (λ o. mapped s.op s.ins input o cell) };

    /// Adds the cells of an input that a payload of an output cell stands for. An operator that has
    /// a mapping has no payload, and leaves the set as it was. Of bytes that are no payload of
    /// another operator's nothing is said but that the set keeps its shape. Takes no memory.
    fn map_p_into(&self, out: Cell, payload: &[u8], input: u32, to: &mut CellBits)
        requires out { holds (site self.now).out out ≡ true }
        requires input { input < length (site self.now).ins }
        requires to { to.old.extent ≡ extent_at (site self.now).ins input }
        ensures extent { to.new.extent ≡ to.old.extent }
        ensures kept { has_mapping (site self.now).op ≡ true → to.new ≡ to.old }
        ensures added { is_payload (site self.now).op (site self.now).ins payload.now ≡ true
            → let s = site self.now in to.new ≡ with_those to.old
            (λ x. mapped_by_payload s.op s.ins payload.now input out x) };
}
