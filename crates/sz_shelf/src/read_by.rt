//! Reading the store of a strategy, and the mark of which one was read.
//!
//! Nothing is known here of what stores stand for: two of them may differ. So the mark, which this
//! file alone makes, names the one that was read, and no other that would have answered the same.

ghost use Rattle.std.specs.Prelude.{◌≡◌, ◌<◌};
ghost use Rattle.sz_shelf.specs.Terms.{length, true, has, with_those, is_listed, is_stored};
ghost use Rattle.sz_shelf.specs.Terms.{near_side, far_side, image_in, holding_for, holding_stands};

use sz_cells::CellBits;
use sz_spec::{Dir, Strategy};
use sz_store::NodeStore;

/// The mark of a store that was read: the strategy that keeps it.
#[derive(Clone, Copy, Debug, PartialEq, Eq)]
pub struct ReadBy {
    strategy: Strategy,
}

impl ReadBy {
    /// Adds the image of a set of cells by what the store of a strategy stands for. Takes no
    /// memory.
    pub(crate) fn image(
        store: &NodeStore,
        strategy: Strategy,
        dir: Dir,
        input: u32,
        from: &CellBits,
        to: &mut CellBits,
    ) -> ReadBy
        requires listed { is_listed store.now.list strategy ≡ true }
        requires stored { is_stored strategy ≡ true }
        requires input { input < length store.now.site.ins }
        requires from { from.now.extent ≡ near_side dir store.now.site input }
        requires to { to.old.extent ≡ far_side dir store.now.site input }
        ensures read { let s = store.now in let h = holding_for result.strategy s.stores in
            to.new ≡ with_those to.old
            (has (image_in dir s.site input (holding_stands s.site h input) from.now)) }
        ensures by { result.strategy ≡ strategy }
    {
        store.image(strategy, dir, input, from, to);
        ReadBy { strategy }
    }

    /// The strategy that keeps it.
    pub fn strategy(&self) -> Strategy
        ensures { result ≡ self.now.strategy }
    {
        self.strategy
    }
}
