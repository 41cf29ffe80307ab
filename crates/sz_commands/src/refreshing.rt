//! A refresh: what it makes of a version, and holding that.

ghost use Rattle.std.specs.Prelude.{◌≡◌, ◌+◌, ◌*◌, ◌^◌, ◌<◌};
ghost use Rattle.sz_commands.specs.Terms.{None, IfOk, OnOk, OnErr, arc_value, judged, version_of};
ghost use Rattle.sz_commands.specs.Terms.{cells_affected, response_of, IsMadeBy, apart, accepted};
ghost use Rattle.sz_commands.specs.Terms.{AddsEntry};
ghost use Rattle.sz_script.specs.declared.command.Command.TheVariants as order;

use crate::session::Session;
use std::sync::Wait;
use std::thread::Threads;
use sz_catalogue::Reply;
use sz_cells::NoMemory;
use sz_script::NewCells;
use sz_spec::Tally;
use sz_versions::{RefreshedRun, refresh_version};

impl Session {
    /// Starts the version that a refresh orders: computes again what the set cells reach, and holds
    /// the array and the version with its runs and its shelves.
    pub(crate) fn refresh<R: Threads + Wait + Sync>(
        &mut self,
        rt: &R,
        version: u32,
        input: u32,
        set: &NewCells,
        tally: &mut Tally,
    ) -> Result<Reply, NoMemory>
        requires judged { judged self.old.held (order.Refresh version input set.now) ≡ None }
        requires room { tally.old + 32 * 1048576 < 2 ^ 63 }
        ensures reply { IfOk result (λ r. accepted (apart self.old)
            (order.Refresh version input set.now) ≡ (apart self.new, response_of r)) }
        ensures stored { OnOk result
            (AddsEntry self.old.held self.old.stored self.new.stored) }
        ensures end { OnOk result (self.new.end ≡ self.old.end) }
        ensures ticks { OnOk result (tally.new ≡ tally.old + cells_affected self.old.held
            (version_of self.old.held version) input set.now) }
        ensures kept { OnErr result (self.new ≡ self.old) }
    {
        let made = self.refreshed(rt, version, input, set, tally)?;
        self.hold_refreshed(version, input, set, made)
    }

    /// What a refresh makes, of which nothing is held yet.
    pub(crate) fn refreshed<R: Threads + Wait + Sync>(
        &mut self,
        rt: &R,
        version: u32,
        input: u32,
        set: &NewCells,
        tally: &mut Tally,
    ) -> Result<RefreshedRun, NoMemory>
        requires judged { judged self.old.held (order.Refresh version input set.now) ≡ None }
        requires room { tally.old + 32 * 1048576 < 2 ^ 63 }
        ensures made { IfOk result (λ m. IsMadeBy self.old.held version input set.now
            (arc_value m.array) m.run m.cells) }
        ensures ticks { OnOk result (tally.new ≡ tally.old + cells_affected self.old.held
            (version_of self.old.held version) input set.now) }
        ensures same { self.new ≡ self.old }
    {
        let made = refresh_version(
            rt,
            self.alloc,
            &self.catalogue,
            &mut self.runs,
            &self.hands,
            version,
            input,
            set.as_slice(),
            tally,
        )?;
        Ok(made)
    }

    /// Holds the array that a refresh made, and the version on it, with what is carried of that.
    /// The set cells are lent for the contract alone.
    pub(crate) fn hold_refreshed(
        &mut self,
        version: u32,
        input: u32,
        _set: &NewCells,
        made: RefreshedRun,
    ) -> Result<Reply, NoMemory>
        requires judged { judged self.old.held (order.Refresh version input _set.now) ≡ None }
        requires made { IsMadeBy self.old.held version input _set.now (arc_value made.array)
            made.run made.cells }
        ensures reply { IfOk result (λ r. accepted (apart self.old)
            (order.Refresh version input _set.now) ≡ (apart self.new, response_of r)) }
        ensures stored { OnOk result
            (AddsEntry self.old.held self.old.stored self.new.stored) }
        ensures end { OnOk result (self.new.end ≡ self.old.end) }
        ensures kept { OnErr result (self.new ≡ self.old) }
    {
        let RefreshedRun { array, run, cells } = made;
        let number = self.catalogue.next_number() as u32;
        self.runs.add(number, run)?;
        match self.catalogue.share_refreshed(version, input, array) {
            Ok(version) => Ok(Reply::Refreshed { version, cells }),
            Err(fault) => {
                self.runs.take_back();
                Err(fault)
            }
        }
    }
}
