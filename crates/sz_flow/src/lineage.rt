//! What a node's run needs before pieces of its lineage are made.

ghost use Rattle.std.specs.Prelude.{◌≡◌};
ghost use Rattle.sz_flow.specs.Terms.{execution_of};

use crate::node_run::NodeRun;
use std::alloc::Global;
use std::sync::Arc;
use sz_cells::NoMemory;

impl NodeRun {
    /// Prepares what pieces of the lineage are made by, in place of what the values needed. It is
    /// to be done once, before the first piece, and only where lineage is kept: for connected
    /// regions it takes time and memory in the number of cells, for the other operators none. What
    /// was shared before stays as it was.
    pub fn prepare_lineage(&mut self, alloc: Global) -> Result<(), NoMemory>
        ensures { execution_of self.new ≡ execution_of self.old }
    {
        let aid = sz_ops::prepare_lineage(alloc, &self.at, self.inputs.as_slice())?;
        self.aid = Arc::new(alloc, aid)?;
        Ok(())
    }
}
