//! A merge: asked, where it is handed to a thread, and finished, where its numbers are told.

ghost use Rattle.std.specs.Prelude.{◌≡◌};
ghost use Rattle.sz_commands.specs.Terms.{None, IfOk, OnOk, OnErr, AllZip, judged, response_of};
ghost use Rattle.sz_commands.specs.Terms.{IsMergedIn, apart, accepted};
ghost use Rattle.sz_script.specs.declared.command.Command.TheVariants as order;

use crate::session::Session;
use std::sync::Wait;
use std::thread::Threads;
use sz_catalogue::Reply;
use sz_cells::NoMemory;
use sz_script::Command;

impl Session {
    /// Notes that the merge of a version was asked, and hands its stores to whoever merges them,
    /// where it was not asked before.
    pub(crate) fn merge<R: Wait>(&mut self, rt: &R, version: u32) -> Result<Reply, NoMemory>
        requires judged { judged self.old.held (order.Merge version) ≡ None }
        ensures reply { IfOk result (λ r. accepted (apart self.old) (order.Merge version)
            ≡ (apart self.new, response_of r)) }
        ensures stored { OnOk result (self.new.stored ≡ self.old.stored) }
        ensures end { OnOk result (self.new.end ≡ self.old.end) }
        ensures kept { OnErr result (self.new ≡ self.old) }
    {
        let again = self.catalogue.merge_asked(version);
        let reply = self.accept(Command::Merge { version })?;
        if !again {
            self.hand_merges(rt, version);
        }
        Ok(reply)
    }

    /// Hands the stores of a version to whoever merges them. Nothing that is seen changes.
    fn hand_merges<R: Wait>(&mut self, rt: &R, version: u32)
        ensures { self.new ≡ self.old }
    {
        self.runs
            .hand_merges(self.alloc, rt, &self.catalogue, &self.to_merge, version);
    }

    /// Merges what is left to be merged of a version's stores, and tells how many kinds of lineage
    /// each store of full lineage has.
    pub(crate) fn merged<R: Threads + Wait + Sync>(
        &mut self,
        rt: &R,
        version: u32,
    ) -> Result<Reply, NoMemory>
        requires judged { judged self.old.held (order.Merged version) ≡ None }
        ensures reply { IfOk result (λ r. accepted (apart self.old) (order.Merged version)
            ≡ (apart self.new, response_of r)) }
        ensures stored { OnOk result
            (AllZip (IsMergedIn version) self.old.stored self.new.stored) }
        ensures end { OnOk result (self.new.end ≡ self.old.end) }
        ensures kept { OnErr result (self.new ≡ self.old) }
    {
        let kinds = self.runs.merged(self.alloc, rt, &self.catalogue, version)?;
        Ok(Reply::Merged { version, kinds })
    }
}
