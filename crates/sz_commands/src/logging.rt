//! A session of a log: what a command makes durable is written to the log before its reply is
//! given.
//!
//! An accepted line that holds an array or a flow, or sets strategies, is appended as it stands,
//! once the session has taken it; of a refresh the line of the array that it makes is appended,
//! once the session holds that; and a version is appended at its first await, with its stores,
//! before the session notes the await. Nothing else is written. So where there is no memory nothing
//! was, and where the disk fails the log holds what it held, or what it would.

ghost use Rattle.std.specs.Prelude.{◌≡◌, ◌+◌, ◌*◌, ◌^◌, ◌<◌, ◌≤◌};
ghost use Rattle.sz_commands.specs.Terms.{true, false, None, Some, Ok, Err, IfOk, OnOk, []};
ghost use Rattle.sz_commands.specs.Terms.{reading, is_right, array_order, judged, version_of};
ghost use Rattle.sz_commands.specs.Terms.{has_no_version, has_input, base_at, cells_affected};
ghost use Rattle.sz_commands.specs.Terms.{response_of, is_of_kind, apart, accepted, after_command};
ghost use Rattle.sz_commands.specs.Terms.{traced_for, most_for, traced_along, most_along};
ghost use Rattle.sz_commands.specs.Terms.{LineGives, IsRight, Takes, traced_for_given};
ghost use Rattle.sz_commands.specs.Terms.{most_for_given, AddsEntry, FinishesEntry, StoredBy};
ghost use Rattle.sz_commands.specs.Terms.{StoredAfter, StoredBehind, CountsTell, IsLogOf, HasLog};
ghost use Rattle.sz_commands.specs.Terms.{KeepsLog, StopsInLog, held_after, IsLasting, Appends};
ghost use Rattle.sz_commands.specs.Terms.{IsGroupOf, IsGroupFor, IsLineGroup, IsVersionGroup};
ghost use Rattle.sz_commands.specs.Terms.{IsArrayGroup, is_refresh, makes, makes_judged};
ghost use Rattle.sz_commands.specs.Terms.{makes_durable, place_of};
ghost use Rattle.sz_script.specs.declared.command.Command.TheVariants as order;
ghost use Rattle.sz_catalogue.specs.Changes as changes;

use crate::open_log::OpenLog;
use crate::session::{Given, Session, Stop};
use std::sync::Wait;
use std::thread::Threads;
use sz_catalogue::Reply;
use sz_cells::NoMemory;
use sz_log::append;
use sz_outside::{Gate, Station};
use sz_recover::version_kind;
use sz_script::{Command, NewCells};
use sz_spec::{Array, Tally};
use sz_versions::body_for;
use sz_writing::line_of_array;

/// What a command makes durable.
#[derive(Clone, Copy, Drop)]
pub enum Lasting {
    /// Its line, in a group of this kind.
    Line(u8),
    /// The line of the array that a refresh makes.
    Array,
    /// A version that is awaited.
    Version(u32),
    /// Nothing.
    Nothing,
}

impl Session {
    /// Does what a line gives, and gives its reply, as `command` does.
    pub fn take_on<T: Station, G: Gate, R: Threads + Wait + Sync>(
        &mut self,
        rt: &R,
        given: Given,
        line: &[u8],
        number: u64,
        station: &mut T,
        gate: &G,
        tally: &mut Tally,
    ) -> Result<Option<Reply>, Stop>
        requires gives { LineGives line.now given }
        requires right { IsRight given }
        requires room { tally.old + 32 * 1048576 < 2 ^ 63 }
        requires log { HasLog T.Station self.old.held self.old.end station.old }
        ensures reply { IfOk result (λ r. Takes (apart self.old) given (apart self.new) r) }
        ensures stored { OnOk result (StoredBehind self.old line.now self.new) }
        ensures least { OnOk result (tally.old + traced_for_given self.old given ≤ tally.new) }
        ensures most { OnOk result (tally.new ≤ tally.old + most_for_given self.old given) }
        ensures log { OnOk result (KeepsLog T.Station self.old.held self.old.end
            self.new.held self.new.end station.old station.new) }
        ensures stops { StopsInLog T.Station self.old.held self.old.end
            (held_after self.old line.now) station.old station.new }
        ensures output { T.said station.new ≡ T.said station.old }
        ensures counted { CountsTell T.Station result station.old station.new }
        ensures kept { result ≡ Err Stop.NoMemory
            → (self.new ≡ self.old) × (station.new ≡ station.old) }
        ensures plain { self.old.end ≡ None → result ≡ Err Stop.DiskFault → ⊥ }
        ensures written { result ≡ Err Stop.DiskFault
            → makes_durable self.old.held line.now ≡ true }
        ensures idle { makes_durable self.old.held line.now ≡ false → station.new ≡ station.old }
        ensures appends { OnOk result (makes_durable self.old.held line.now ≡ true
            → Appends T.Station (IsGroupOf self.old.held line.now (reading line.now))
            self.old.end self.new.end station.old station.new) }
    {
        match given {
            Given::Nothing => Ok(None),
            Given::Refused(rule) => Ok(Some(Reply::Refused(rule))),
            Given::Ask(command) => {
                let reply = self.judge_on(rt, command, line, number, station, gate, tally)?;
                Ok(Some(reply))
            }
            Given::Other(command) => {
                let reply = self.judge_on(rt, command, line, number, station, gate, tally)?;
                Ok(Some(reply))
            }
        }
    }

    /// Judges the command of a line, and takes it where no rule refuses it.
    fn judge_on<T: Station, G: Gate, R: Threads + Wait + Sync>(
        &mut self,
        rt: &R,
        command: Command,
        line: &[u8],
        number: u64,
        station: &mut T,
        gate: &G,
        tally: &mut Tally,
    ) -> Result<Reply, Stop>
        requires reads { reading line.now ≡ Ok command }
        requires right { is_right command ≡ true }
        requires room { tally.old + 32 * 1048576 < 2 ^ 63 }
        requires log { HasLog T.Station self.old.held self.old.end station.old }
        ensures reply { IfOk result
            (λ r. after_command (apart self.old) command ≡ (apart self.new, response_of r)) }
        ensures stored { OnOk result (StoredAfter self.old command self.new) }
        ensures least { OnOk result (tally.old + traced_for self.old command ≤ tally.new) }
        ensures most { OnOk result (tally.new ≤ tally.old + most_for self.old command) }
        ensures log { OnOk result (KeepsLog T.Station self.old.held self.old.end
            self.new.held self.new.end station.old station.new) }
        ensures stops { StopsInLog T.Station self.old.held self.old.end
            (after_command self.old command).0.held station.old station.new }
        ensures output { T.said station.new ≡ T.said station.old }
        ensures counted { CountsTell T.Station result station.old station.new }
        ensures kept { result ≡ Err Stop.NoMemory
            → (self.new ≡ self.old) × (station.new ≡ station.old) }
        ensures plain { self.old.end ≡ None → result ≡ Err Stop.DiskFault → ⊥ }
        ensures written { result ≡ Err Stop.DiskFault
            → makes_judged self.old.held command (judged self.old.held command) ≡ true }
        ensures idle { makes_judged self.old.held command (judged self.old.held command) ≡ false
            → station.new ≡ station.old }
        ensures appends { OnOk result
            (makes_judged self.old.held command (judged self.old.held command) ≡ true
            → Appends T.Station (IsGroupFor self.old.held line.now command)
            self.old.end self.new.end station.old station.new) }
    {
        match self.ruling(&command)? {
            None => self.accept_on(rt, command, line, number, station, gate, tally),
            Some(rule) => Ok(Reply::Refused(rule)),
        }
    }

    /// Takes the command of a line, which no rule refuses.
    fn accept_on<T: Station, G: Gate, R: Threads + Wait + Sync>(
        &mut self,
        rt: &R,
        command: Command,
        line: &[u8],
        number: u64,
        station: &mut T,
        gate: &G,
        tally: &mut Tally,
    ) -> Result<Reply, Stop>
        requires reads { reading line.now ≡ Ok command }
        requires right { is_right command ≡ true }
        requires judged { judged self.old.held command ≡ None }
        requires room { tally.old + 32 * 1048576 < 2 ^ 63 }
        requires log { HasLog T.Station self.old.held self.old.end station.old }
        ensures reply { IfOk result
            (λ r. accepted (apart self.old) command ≡ (apart self.new, response_of r)) }
        ensures stored { OnOk result (StoredBy self.old command self.new) }
        ensures least { OnOk result (tally.old + traced_along self.old command ≤ tally.new) }
        ensures most { OnOk result (tally.new ≤ tally.old + most_along self.old command) }
        ensures log { OnOk result (KeepsLog T.Station self.old.held self.old.end
            self.new.held self.new.end station.old station.new) }
        ensures stops { StopsInLog T.Station self.old.held self.old.end
            (accepted self.old command).0.held station.old station.new }
        ensures output { T.said station.new ≡ T.said station.old }
        ensures counted { CountsTell T.Station result station.old station.new }
        ensures kept { result ≡ Err Stop.NoMemory
            → (self.new ≡ self.old) × (station.new ≡ station.old) }
        ensures plain { self.old.end ≡ None → result ≡ Err Stop.DiskFault → ⊥ }
        ensures written { result ≡ Err Stop.DiskFault → makes self.old.held command ≡ true }
        ensures idle { makes self.old.held command ≡ false → station.new ≡ station.old }
        ensures appends { OnOk result (makes self.old.held command ≡ true
            → Appends T.Station (IsGroupFor self.old.held line.now command)
            self.old.end self.new.end station.old station.new) }
    {
        let Some(log) = self.end else {
            return Ok(self.obey(rt, command, number, gate, tally)?);
        };
        match what_lasts(&command) {
            Lasting::Line(kind) => self.add_line(command, kind, line, log, station),
            Lasting::Array => self.add_array(rt, command, log, station, tally),
            Lasting::Version(version) => self.add_version(rt, version, log, station),
            Lasting::Nothing => Ok(self.obey(rt, command, number, gate, tally)?),
        }
    }

    /// Takes the command of a line that changes no version, and appends the line.
    fn add_line<T: Station>(
        &mut self,
        command: Command,
        kind: u8,
        line: &[u8],
        log: OpenLog,
        station: &mut T,
    ) -> Result<Reply, Stop>
        requires reads { reading line.now ≡ Ok command }
        requires kind { is_of_kind kind command ≡ true }
        requires right { is_right command ≡ true }
        requires judged { judged self.old.held command ≡ None }
        requires end { self.old.end ≡ Some (place_of log) }
        requires log { IsLogOf T.Station self.old.held (place_of log) station.old }
        ensures reply { IfOk result
            (λ r. accepted (apart self.old) command ≡ (apart self.new, response_of r)) }
        ensures stored { OnOk result (StoredBy self.old command self.new) }
        ensures log { OnOk result (KeepsLog T.Station self.old.held self.old.end
            self.new.held self.new.end station.old station.new) }
        ensures stops { StopsInLog T.Station self.old.held self.old.end
            (changes.accepted self.old.held command).0 station.old station.new }
        ensures output { T.said station.new ≡ T.said station.old }
        ensures counted { CountsTell T.Station result station.old station.new }
        ensures kept { result ≡ Err Stop.NoMemory
            → (self.new ≡ self.old) × (station.new ≡ station.old) }
        ensures appends { OnOk result (Appends T.Station (λ _. IsLineGroup command line.now)
            self.old.end self.new.end station.old station.new) }
    {
        let reply = self.accept(command)?;
        let next = append(station, log.end, kind, line)?;
        self.end = Some(OpenLog {
            end: next,
            format: log.format,
        });
        Ok(reply)
    }

    /// Takes a refresh, and appends the line of the array that it makes.
    fn add_array<T: Station, R: Threads + Wait + Sync>(
        &mut self,
        rt: &R,
        command: Command,
        log: OpenLog,
        station: &mut T,
        tally: &mut Tally,
    ) -> Result<Reply, Stop>
        requires kind { is_refresh command ≡ true }
        requires judged { judged self.old.held command ≡ None }
        requires room { tally.old + 32 * 1048576 < 2 ^ 63 }
        requires end { self.old.end ≡ Some (place_of log) }
        requires log { IsLogOf T.Station self.old.held (place_of log) station.old }
        ensures reply { IfOk result
            (λ r. accepted (apart self.old) command ≡ (apart self.new, response_of r)) }
        ensures stored { OnOk result (StoredBy self.old command self.new) }
        ensures least { OnOk result (tally.old + traced_along self.old command ≤ tally.new) }
        ensures most { OnOk result (tally.new ≤ tally.old + most_along self.old command) }
        ensures log { OnOk result (KeepsLog T.Station self.old.held self.old.end
            self.new.held self.new.end station.old station.new) }
        ensures stops { StopsInLog T.Station self.old.held self.old.end
            (changes.accepted self.old.held command).0 station.old station.new }
        ensures output { T.said station.new ≡ T.said station.old }
        ensures counted { CountsTell T.Station result station.old station.new }
        ensures kept { result ≡ Err Stop.NoMemory
            → (self.new ≡ self.old) × (station.new ≡ station.old) }
        ensures appends { OnOk result (Appends T.Station
            (IsGroupFor self.old.held [] command) self.old.end self.new.end
            station.old station.new) }
    {
        let Command::Refresh {
            version,
            input,
            set,
        } = command
        else {
            unreachable!()
        };
        self.add_refreshed(rt, version, input, &set, log, station, tally)
    }

    /// Takes a refresh of a version's input, and appends the line of the array that it makes: that
    /// is made before anything is held.
    fn add_refreshed<T: Station, R: Threads + Wait + Sync>(
        &mut self,
        rt: &R,
        version: u32,
        input: u32,
        set: &NewCells,
        log: OpenLog,
        station: &mut T,
        tally: &mut Tally,
    ) -> Result<Reply, Stop>
        requires judged { judged self.old.held (order.Refresh version input set.now) ≡ None }
        requires room { tally.old + 32 * 1048576 < 2 ^ 63 }
        requires end { self.old.end ≡ Some (place_of log) }
        requires log { IsLogOf T.Station self.old.held (place_of log) station.old }
        ensures reply { IfOk result (λ r. accepted (apart self.old)
            (order.Refresh version input set.now) ≡ (apart self.new, response_of r)) }
        ensures stored { OnOk result
            (AddsEntry self.old.held self.old.stored self.new.stored) }
        ensures ticks { OnOk result (tally.new ≡ tally.old + cells_affected self.old.held
            (version_of self.old.held version) input set.now) }
        ensures log { OnOk result (KeepsLog T.Station self.old.held self.old.end
            self.new.held self.new.end station.old station.new) }
        ensures stops { StopsInLog T.Station self.old.held self.old.end
            (changes.accepted self.old.held (order.Refresh version input set.now)).0
            station.old station.new }
        ensures output { T.said station.new ≡ T.said station.old }
        ensures counted { CountsTell T.Station result station.old station.new }
        ensures kept { result ≡ Err Stop.NoMemory
            → (self.new ≡ self.old) × (station.new ≡ station.old) }
        ensures appends { OnOk result (Appends T.Station
            (λ _. IsArrayGroup self.old.held version input set.now) self.old.end self.new.end
            station.old station.new) }
    {
        let made = self.refreshed(rt, version, input, set, tally)?;
        let line = self.line_for(version, input, &made.array)?;
        let reply = self.hold_refreshed(version, input, set, made)?;
        let next = append(station, log.end, 1, &line)?;
        self.end = Some(OpenLog {
            end: next,
            format: log.format,
        });
        Ok(reply)
    }

    /// The line that holds an array under the name of an input of a version.
    fn line_for(&self, version: u32, input: u32, array: &Array) -> Result<Vec<u8>, NoMemory>
        requires there { has_no_version self.now.held version ≡ false }
        requires input { has_input (version_of self.now.held version) input ≡ true }
        ensures { IfOk result (λ line. reading line.items ≡ Ok (array_order
            (base_at (version_of self.now.held version) input).name array.now)) }
    {
        let Some(held) = self.catalogue.version(version) else {
            unreachable!()
        };
        self.catalogue.is_in_order();
        let base = held.base.as_slice();
        let only = &base[input as usize];
        line_of_array(self.alloc, only.name.as_str(), array)
    }

    /// Awaits a version, and appends it where it was not awaited before.
    fn add_version<T: Station, R: Threads + Wait + Sync>(
        &mut self,
        rt: &R,
        version: u32,
        log: OpenLog,
        station: &mut T,
    ) -> Result<Reply, Stop>
        requires judged { judged self.old.held (order.Await version) ≡ None }
        requires end { self.old.end ≡ Some (place_of log) }
        requires log { IsLogOf T.Station self.old.held (place_of log) station.old }
        ensures reply { IfOk result (λ r. accepted (apart self.old) (order.Await version)
            ≡ (apart self.new, response_of r)) }
        ensures stored { OnOk result (FinishesEntry (version_of self.old.held version).awaited
            version self.old.stored self.new.stored) }
        ensures log { OnOk result (KeepsLog T.Station self.old.held self.old.end
            self.new.held self.new.end station.old station.new) }
        ensures stops { StopsInLog T.Station self.old.held self.old.end
            (changes.accepted self.old.held (order.Await version)).0 station.old station.new }
        ensures output { T.said station.new ≡ T.said station.old }
        ensures counted { CountsTell T.Station result station.old station.new }
        ensures kept { result ≡ Err Stop.NoMemory
            → (self.new ≡ self.old) × (station.new ≡ station.old) }
        ensures written { result ≡ Err Stop.DiskFault
            → (version_of self.old.held version).awaited ≡ false }
        ensures idle { (version_of self.old.held version).awaited ≡ true
            → station.new ≡ station.old }
        ensures appends { OnOk result ((version_of self.old.held version).awaited ≡ false
            → Appends T.Station (IsVersionGroup self.old.held version)
            self.old.end self.new.end station.old station.new) }
    {
        if self.is_awaited(version) {
            return Ok(self.await_again(version));
        }
        let run = self.whole_run(rt, version)?;
        self.catalogue.is_in_order();
        let body = body_for(self.alloc, &self.catalogue, version, &run, log.format)?;
        let next = append(station, log.end, version_kind(log.format), &body)?;
        self.end = Some(OpenLog {
            end: next,
            format: log.format,
        });
        Ok(self.note_await(version, run))
    }
}

/// What a command makes durable: nothing, but where it has an arm here.
fn what_lasts(command: &Command) -> Lasting
    ensures { IsLasting command.now result }
{
    match command {
        Command::Array { .. } | Command::Csv { .. } | Command::Layers { .. } => Lasting::Line(1),
        Command::Flow { .. } => Lasting::Line(2),
        Command::Strategy { .. } => Lasting::Line(3),
        Command::Refresh { .. } => Lasting::Array,
        Command::Await { version } => Lasting::Version(*version),
        _ => Lasting::Nothing,
    }
}
