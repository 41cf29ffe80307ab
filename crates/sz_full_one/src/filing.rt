//! Filing an item under each cell of a set.

ghost use Rattle.std.specs.Prelude.{◌≡◌, ◌<◌, ◌≤◌};
ghost use Rattle.sz_full_one.specs.Terms.{length, size_of, indexes_of, with_filed};

use sz_cells::{CellSet, Run};
use sz_tables::Chains;

/// Files an item under each cell of a set. Takes no memory.
pub fn file_set(files: &mut Chains, set: &CellSet, item: u32)
    requires keys { files.old.keys ≡ size_of set.now.extent }
    requires room { length set.now.indexes ≤ files.old.spare }
    ensures { files.new ≡ with_filed files.old set.now.indexes item }
{
    for run in set.runs() {
        file_run(files, *run, item);
    }
}

/// Files an item under each cell of a run.
fn file_run(files: &mut Chains, run: Run, item: u32)
    requires order { run.first ≤ run.last }
    requires keys { run.last < files.old.keys }
    requires room { length (indexes_of run) ≤ files.old.spare }
    ensures { files.new ≡ with_filed files.old (indexes_of run) item }
{
    for index in run.first..run.last {
        files.add(index, item);
    }
    files.add(run.last, item);
}
