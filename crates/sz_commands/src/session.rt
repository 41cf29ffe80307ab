//! A session: what is held, and what a line does to it.
//!
//! Contracts see a session as a `SessionState`. Beside the catalogue it has of each version the
//! runs of its nodes and what is kept of them (`HeldRuns`), so that no value is computed twice.

ghost use Rattle.std.specs.Prelude.{◌≡◌, ◌+◌, ◌*◌, ◌^◌, ◌<◌, ◌≤◌, if◌then◌else◌};
ghost use Rattle.sz_commands.specs.Terms.{true, false, None, Err, map, IfOk, OnOk, OnErr, length};
ghost use Rattle.sz_commands.specs.Terms.{Some, is_some, execution_of, AllZip, AllByRecursion};
ghost use Rattle.sz_commands.specs.Terms.{is_right, judged, version_of, has_no_version};
ghost use Rattle.sz_commands.specs.Terms.{is_not_joined, is_out_of_range, way_of, traced};
ghost use Rattle.sz_commands.specs.Terms.{changes_no_version, apart, accepted, cells_told};
ghost use Rattle.sz_commands.specs.Terms.{response_of, Responds, traced_for_line, traced_along};
ghost use Rattle.sz_commands.specs.Terms.{most_for_line, most_along, most_traced, IsTrailOf};
ghost use Rattle.sz_commands.specs.Terms.{strategy_told, nothing_held, AreGiven, AddsEntry};
ghost use Rattle.sz_commands.specs.Terms.{IsFinishedIn, FinishesEntry, StoredBy, StoredBehind};
ghost use Rattle.sz_commands.specs.Terms.{HasLog, KeepsLog, StopsInLog, held_after, makes_durable};
ghost use Rattle.sz_commands.specs.Terms.{Appends, IsGroupOf, end_of, reading, CountsTell};
ghost use Rattle.sz_commands.specs.Terms.{IsInquiryOf, executions_of, is_ask, IsAskLine, IsBegun};
ghost use Rattle.sz_commands.specs.Terms.{ask_reply, traced_for_asks, most_for_asks, LineGives};
ghost use Rattle.sz_commands.specs.Terms.{IsRight, IsInService, logged_in, stored_in, place_of};
ghost use Rattle.sz_commands.specs.Terms.{option_map, arc_value};
ghost use Rattle.sz_script.specs.declared.command.Command.TheVariants as order;
ghost use Rattle.sz_commands.specs.declared.session.Given.TheVariants as given;
ghost use Rattle.sz_commands.specs.declared.session.Stop.TheVariants as stop;

use crate::asking::{AskLine, Asked, Askers, work_out};
use crate::blank::is_blank;
use crate::open_log::OpenLog;
use std::alloc::Global;
use std::marker::Model;
use std::sync::{Arc, Wait};
use std::thread::Threads;
use sz_catalogue::{Catalogue, Reply};
use sz_cells::NoMemory;
use sz_flow::NodeRun;
use sz_merge::{MergeTask, merge_tasks, one_more_merger};
use sz_outside::{Failed, Gate, Station};
use sz_pool::{Receiver, Sender, Task, one_more, tasks};
use sz_query::{Found, Spare, Used};
use sz_recover::Recovered;
use sz_script::{
    BaseList, Command, LineFault, Name, NamedCells, Path, Refusal, StrategyList, laws, read_line,
};
use sz_spec::{Dir, Strategy, Tally};
use sz_versions::{Hands, HeldRuns, Inquiry, VersionRun, run_version};

/// A session: what is held; the runs of the nodes of each version, with what is kept of them; where
/// the log ends and its format, where it has one; the channels through which tasks go to workers,
/// and stores to be merged to whoever attends to them; and bitmaps for the asks to come.
#[derive(Drop)]
pub struct Session {
    pub(crate) catalogue: Catalogue,
    pub(crate) runs: HeldRuns,
    pub(crate) end: Option<OpenLog>,
    pub(crate) alloc: Global,
    pub(crate) hands: Hands,
    tasks: Receiver<Task>,
    pub(crate) to_merge: Sender<MergeTask>,
    merges: Receiver<MergeTask>,
    askers: Askers,
    spare: Spare,
}

impl Model for Session {
    ghost use Rattle.std.specs.Prelude.{option_map};
    ghost use Rattle.sz_commands.specs.States.{SessionState};
    ghost use Rattle.sz_commands.specs.Logged.{place_of};
    ghost use Rattle.sz_versions.specs.Residents.{IsInService, logged_in, stored_in};

    ghost Value = { SessionState };

    ghost view = { λ s. record {
      held = s.catalogue;
      logged = logged_in s.runs;
      stored = stored_in s.runs;
      end = option_map place_of s.end;
    } };

    ghost invariant = { λ s. IsInService s.catalogue s.runs };
}

/// Why a command was not done. The session is to be let go then.
#[derive(Clone, Copy, Debug, Drop, PartialEq, Eq)]
pub enum Stop {
    /// A call of the disk failed while the log was written.
    DiskFault,
    /// There was no memory.
    NoMemory,
}

impl From<NoMemory> for Stop {
    ghost from_gives = { λ _ e. e ≡ stop.NoMemory };

    fn from(_fault: NoMemory) -> Stop {
        Stop::NoMemory
    }
}

/// A log that was not written.
impl From<Failed> for Stop {
    ghost from_gives = { λ _ e. e ≡ stop.DiskFault };

    fn from(_fault: Failed) -> Stop {
        Stop::DiskFault
    }
}

/// What a line gives.
#[derive(Drop)]
pub enum Given {
    /// It is blank.
    Nothing,
    /// It is read as no command.
    Refused(Refusal),
    /// It orders an ask.
    Ask(Command),
    /// It orders anything else.
    Other(Command),
}

impl Session {
    /// A session that holds nothing, with so many workers, and askers for `asks`.
    pub fn fresh(alloc: Global, workers: u32, askers: u32) -> Result<Session, NoMemory>
        requires workers { (1 ≤ workers) × (workers ≤ 64) }
        requires askers { (1 ≤ askers) × (askers ≤ 64) }
        ensures { IfOk result (λ s. s ≡ nothing_held) }
    {
        let catalogue = Catalogue::new(alloc);
        let runs = HeldRuns::new(alloc);
        Session::holding(alloc, catalogue, runs, None, workers, askers)
    }

    /// A session of a log that was opened: it holds what the log holds, and answers of each version
    /// that the log gave by the stores that were read of it. The values of a version's nodes are
    /// computed again when it is first asked, shown, refreshed or merged, each once, side by side
    /// where that pays.
    pub fn of_log(
        alloc: Global,
        recovered: Recovered,
        workers: u32,
        askers: u32,
    ) -> Result<Session, NoMemory>
        requires workers { (1 ≤ workers) × (workers ≤ 64) }
        requires askers { (1 ≤ askers) × (askers ≤ 64) }
        ensures state { IfOk result (λ s. s ≡ record {
          held = recovered.catalogue;
          logged = recovered.stores.items;
          stored = s.stored;
          end = Some (end_of recovered);
        }) }
        ensures given { IfOk result (λ s. AreGiven s.stored) }
    {
        let Recovered {
            format,
            catalogue,
            end,
            stores,
        } = recovered;
        let log = OpenLog { end, format };
        catalogue.is_in_order();
        let runs = HeldRuns::recalled(alloc, &catalogue, stores)?;
        Session::holding(alloc, catalogue, runs, Some(log), workers, askers)
    }

    /// A session that holds this, with channels of its own.
    fn holding(
        alloc: Global,
        catalogue: Catalogue,
        runs: HeldRuns,
        end: Option<OpenLog>,
        workers: u32,
        askers: u32,
    ) -> Result<Session, NoMemory>
        requires workers { (1 ≤ workers) × (workers ≤ 64) }
        requires askers { (1 ≤ askers) × (askers ≤ 64) }
        requires service { IsInService catalogue runs }
        ensures { IfOk result (λ s. s ≡ record {
          held = catalogue;
          logged = logged_in runs;
          stored = stored_in runs;
          end = option_map place_of end;
        }) }
    {
        let (to, tasks) = tasks(alloc)?;
        let (to_merge, merges) = merge_tasks(alloc)?;
        Ok(Session {
            catalogue,
            runs,
            end,
            alloc,
            hands: Hands::of(to, workers),
            tasks,
            to_merge,
            merges,
            askers: Askers::of(askers),
            spare: Spare::new(alloc),
        })
    }

    /// One receiving end more of the channel to which a start sends its tasks. It closes once the
    /// session is let go.
    pub fn tasks(&self) -> Result<Receiver<Task>, NoMemory> {
        one_more(&self.tasks)
    }

    /// One receiving end more of the channel to which a merge sends stores. It closes once the
    /// session is let go.
    pub fn merges(&self) -> Result<Receiver<MergeTask>, NoMemory> {
        one_more_merger(&self.merges)
    }

    /// Does what a line orders, and gives its reply; a blank line has none. The gate is called once
    /// for an ask or explain that is accepted, when its answer is found. The tally rises by the
    /// output sizes of the steps that are told as traced, which says nothing of how a step was
    /// worked out.
    ///
    /// A start costs the values of its nodes, each computed once, and a shelf with tasks for each
    /// node with a stored strategy; a refresh the same, but that of the values those alone are
    /// computed that a set cell reaches. An await costs the pieces of lineage that workers left
    /// undone; to tell what a merge gave costs a look at each region pair of the version's stores,
    /// and the merging of those that are not merged yet. Any other line costs what it reads, looks
    /// up and answers.
    ///
    /// For a session of a log the station's disk is that log (`HasLog`): what the line makes
    /// durable is appended to it as one group, at the cost of its bytes (`appends`); any other line
    /// leaves the station as it was (`idle`); and no write is pending then. At every moment a stop
    /// leaves a log of what was durable before, or of what is then (`stops`). Where the disk fails,
    /// which it does only for a line that is to be appended (`written`), that was counted, and the
    /// log has to be opened again; no other line raises a count of faults, nor does one for which
    /// there is no memory (`counted`). A session of no log makes no call on the station.
    pub fn command<T: Station, G: Gate, R: Threads + Wait + Sync>(
        &mut self,
        rt: &R,
        line: &[u8],
        number: u64,
        station: &mut T,
        gate: &G,
        tally: &mut Tally,
    ) -> Result<Option<Reply>, Stop>
        requires room { tally.old + 32 * 1048576 < 2 ^ 63 }
        requires log { HasLog T.Station self.old.held self.old.end station.old }
        ensures reply { IfOk result
            (λ r. Responds (apart self.old) line.now (apart self.new) r) }
        ensures least { OnOk result
            (tally.old + traced_for_line self.old line.now ≤ tally.new) }
        ensures most { OnOk result (tally.new ≤ tally.old + most_for_line self.old line.now) }
        ensures stored { OnOk result (StoredBehind self.old line.now self.new) }
        ensures kept { result ≡ Err Stop.NoMemory
            → (self.new ≡ self.old) × (station.new ≡ station.old) }

        // The log.
        ensures log { OnOk result (KeepsLog T.Station self.old.held self.old.end
            self.new.held self.new.end station.old station.new) }
        ensures again { OnOk result (HasLog T.Station self.new.held self.new.end station.new) }
        ensures stops { StopsInLog T.Station self.old.held self.old.end
            (held_after self.old line.now) station.old station.new }
        ensures idle { makes_durable self.old.held line.now ≡ false → station.new ≡ station.old }
        ensures appends { OnOk result (makes_durable self.old.held line.now ≡ true
            → Appends T.Station (IsGroupOf self.old.held line.now (reading line.now))
            self.old.end self.new.end station.old station.new) }
        ensures output { T.said station.new ≡ T.said station.old }
        ensures counted { CountsTell T.Station result station.old station.new }
        ensures plain { self.old.end ≡ None → result ≡ Err Stop.DiskFault → ⊥ }
        ensures written { result ≡ Err Stop.DiskFault
            → makes_durable self.old.held line.now ≡ true }
    {
        let given = self.read(line)?;
        self.take_on(rt, given, line, number, station, gate, tally)
    }

    /// What a line gives. Costs what reading it costs.
    pub fn read(&self, line: &[u8]) -> Result<Given, NoMemory>
        ensures gives { IfOk result (λ g. LineGives line.now g) }
        ensures right { IfOk result (λ g. IsRight g) }
    {
        if is_blank(line) {
            return Ok(Given::Nothing);
        }
        laws::commands_are_right();
        match read_line(self.alloc, line) {
            Ok(command) => Ok(sorted(command)),
            Err(LineFault::Refused(rule)) => Ok(Given::Refused(rule)),
            Err(LineFault::NoMemory) => Err(NoMemory),
        }
    }

    /// Whether what a command makes durable is written to a log.
    pub fn has_log(&self) -> bool
        ensures { result ≡ is_some self.now.end }
    {
        self.end.is_some()
    }

    /// Whether asks are answered beside one another: there are several askers.
    pub fn has_askers(&self) -> bool {
        self.askers.count() > 1
    }

    /// Whether as many asks wait as there are askers.
    pub fn is_full(&self, waiting: usize) -> bool
        ensures { result ≡ false → waiting < 64 }
    {
        waiting >= self.askers.count()
    }

    /// The replies to asks, in their order: as many are answered at the same time as there are
    /// askers. The gate is called once for each that is accepted, when its answer is found, in the
    /// thread that found it. What is held stays, also where there is no memory.
    pub fn asks<G: Gate, R: Threads + Wait + Sync>(
        &mut self,
        rt: &R,
        lines: &[AskLine],
        gate: &G,
        tally: &mut Tally,
    ) -> Result<Vec<Reply>, NoMemory>
        requires asks { AllByRecursion IsAskLine lines.now }
        requires room { tally.old + length lines.now * 33554432 < 2 ^ 63 }
        ensures replies { IfOk result
            (λ rs. map response_of rs.items ≡ map (ask_reply self.old) lines.now) }
        ensures least { OnOk result
            (tally.old + traced_for_asks self.old lines.now ≤ tally.new) }
        ensures most { OnOk result (tally.new ≤ tally.old + most_for_asks self.old lines.now) }
        ensures same { self.new ≡ self.old }
    {
        let mut all = self.begin_each(rt, lines)?;
        work_out(self.alloc, rt, gate, self.askers, &mut all);
        self.replies_to(lines, all, self.alloc, tally)
    }

    /// Each ask, judged, and looked up where no rule refuses it.
    fn begin_each<R: Threads + Sync>(
        &mut self,
        rt: &R,
        lines: &[AskLine],
    ) -> Result<Vec<Asked>, NoMemory>
        requires asks { AllByRecursion IsAskLine lines.now }
        ensures begun { IfOk result (λ all. AllZip (IsBegun self.old) lines.now all.items) }
        ensures same { self.new ≡ self.old }
    {
        let mut all = Vec::with_capacity(self.alloc, lines.len())?;
        for line in lines {
            all.push(self.begin(rt, line)?)?;
        }
        Ok(all)
    }

    /// An ask, judged, and looked up where no rule refuses it.
    fn begin<R: Threads + Sync>(&mut self, rt: &R, line: &AskLine) -> Result<Asked, NoMemory>
        requires ask { IsAskLine line.now }
        ensures begun { IfOk result (λ a. IsBegun self.old line.now a) }
        ensures same { self.new ≡ self.old }
    {
        match self.ruling(&line.ask)? {
            None => self.open(rt, line),
            Some(rule) => Ok(Asked::Refused { rule }),
        }
    }

    /// The rule that refuses a command, where one does.
    pub(crate) fn ruling(&self, command: &Command) -> Result<Option<Refusal>, NoMemory>
        requires { is_right command.now ≡ true }
        ensures { IfOk result (λ rule. judged self.now.held command.now ≡ rule) }
    {
        match self.catalogue.judge(self.alloc, command) {
            Ok(()) => Ok(None),
            Err(LineFault::Refused(rule)) => Ok(Some(rule)),
            Err(LineFault::NoMemory) => Err(NoMemory),
        }
    }

    /// An ask that no rule refuses, looked up.
    fn open<R: Threads + Sync>(&mut self, rt: &R, line: &AskLine) -> Result<Asked, NoMemory>
        requires ask { IsAskLine line.now }
        requires judged { judged self.old.held line.now.ask ≡ None }
        ensures begun { IfOk result (λ a. IsBegun self.old line.now a) }
        ensures same { self.new ≡ self.old }
    {
        let Command::Ask {
            version,
            dir,
            path,
            cells,
        } = &line.ask
        else {
            unreachable!()
        };
        let inquiry = self.inquiry(rt, *version, *dir, path, cells)?;
        Ok(Asked::Open {
            number: line.number,
            inquiry,
        })
    }

    /// Does what a command orders that no rule refuses. One that neither starts, refreshes, awaits,
    /// merges, asks nor looks is the catalogue's alone.
    pub(crate) fn obey<G: Gate, R: Threads + Wait + Sync>(
        &mut self,
        rt: &R,
        command: Command,
        number: u64,
        gate: &G,
        tally: &mut Tally,
    ) -> Result<Reply, NoMemory>
        requires right { is_right command ≡ true }
        requires judged { judged self.old.held command ≡ None }
        requires room { tally.old + 32 * 1048576 < 2 ^ 63 }
        ensures reply { IfOk result
            (λ r. accepted (apart self.old) command ≡ (apart self.new, response_of r)) }
        ensures stored { OnOk result (StoredBy self.old command self.new) }
        ensures end { OnOk result (self.new.end ≡ self.old.end) }
        ensures least { OnOk result (tally.old + traced_along self.old command ≤ tally.new) }
        ensures most { OnOk result (tally.new ≤ tally.old + most_along self.old command) }
        ensures kept { OnErr result (self.new ≡ self.old) }
    {
        match command {
            Command::Start { name, base } => self.start(rt, name, base),
            Command::Refresh {
                version,
                input,
                set,
            } => self.refresh(rt, version, input, &set, tally),
            Command::Await { version } => self.await_version(rt, version),
            Command::Merge { version } => self.merge(rt, version),
            Command::Merged { version } => self.merged(rt, version),
            Command::Ask {
                version,
                dir,
                path,
                cells,
            } => {
                let found = self.find(rt, version, dir, &path, &cells, tally)?;
                gate.after_ask(number);
                Ok(Reply::Cells { cells: found.cells })
            }
            Command::Explain {
                version,
                dir,
                path,
                cells,
            } => self.explain(rt, version, dir, &path, &cells, number, gate, tally),
            Command::Show { version, node } => self.show(rt, version, node),
            other => self.accept(other),
        }
    }

    /// Takes a command that changes no version and looks at none.
    pub(crate) fn accept(&mut self, command: Command) -> Result<Reply, NoMemory>
        requires right { is_right command ≡ true }
        requires judged { judged self.old.held command ≡ None }
        requires kind { changes_no_version command ≡ true }
        ensures reply { IfOk result (λ r. accepted self.old command ≡ (self.new, response_of r)) }
        ensures seen { IfOk result
            (λ r. accepted (apart self.old) command ≡ (apart self.new, response_of r)) }
        ensures stored { OnOk result (StoredBy self.old command self.new) }
        ensures end { OnOk result (self.new.end ≡ self.old.end) }
        ensures untraced { OnOk result ((traced_along self.old command ≡ 0)
            × (most_along self.old command ≡ 0)) }
        ensures kept { OnErr result (self.new ≡ self.old) }
    {
        let reply = self.catalogue.accept(command)?;
        Ok(reply)
    }

    /// Starts a version: computes the values of its nodes, hands out tasks for their stores, and
    /// holds it with its runs and its shelves.
    fn start<R: Threads + Wait + Sync>(
        &mut self,
        rt: &R,
        name: Name,
        base: BaseList,
    ) -> Result<Reply, NoMemory>
        requires right { is_right (order.Start name base) ≡ true }
        requires judged { judged self.old.held (order.Start name base) ≡ None }
        ensures reply { IfOk result (λ r. accepted (apart self.old) (order.Start name base)
            ≡ (apart self.new, response_of r)) }
        ensures stored { OnOk result
            (AddsEntry self.old.held self.old.stored self.new.stored) }
        ensures end { OnOk result (self.new.end ≡ self.old.end) }
        ensures kept { OnErr result (self.new ≡ self.old) }
    {
        let run = run_version(
            rt,
            self.alloc,
            &self.catalogue,
            &self.hands,
            name.as_str(),
            base.as_slice(),
        )?;
        let number = self.catalogue.next_number() as u32;
        self.runs.add(number, run)?;
        match self.catalogue.start(name, base.as_slice()) {
            Ok(reply) => Ok(reply),
            Err(fault) => {
                self.runs.take_back();
                Err(fault)
            }
        }
    }

    /// Awaits a version: makes what is missing of its stores, takes them off their shelves, and
    /// notes the await. One that was awaited before stays as it is.
    pub(crate) fn await_version<R: Threads + Wait + Sync>(
        &mut self,
        rt: &R,
        version: u32,
    ) -> Result<Reply, NoMemory>
        requires judged { judged self.old.held (order.Await version) ≡ None }
        ensures reply { IfOk result (λ r. accepted (apart self.old) (order.Await version)
            ≡ (apart self.new, response_of r)) }
        ensures stored { OnOk result (FinishesEntry (version_of self.old.held version).awaited
            version self.old.stored self.new.stored) }
        ensures end { OnOk result (self.new.end ≡ self.old.end) }
        ensures kept { OnErr result (self.new ≡ self.old) }
    {
        if self.is_awaited(version) {
            return Ok(self.await_again(version));
        }
        let run = self.whole_run(rt, version)?;
        Ok(self.note_await(version, run))
    }

    /// Whether a version that is held was awaited.
    pub(crate) fn is_awaited(&self, version: u32) -> bool
        requires { has_no_version self.now.held version ≡ false }
        ensures { result ≡ (version_of self.now.held version).awaited }
    {
        let Some(held) = self.catalogue.version(version) else {
            unreachable!()
        };
        held.awaited
    }

    /// Awaits a version that was awaited before: nothing changes.
    pub(crate) fn await_again(&mut self, version: u32) -> Reply
        requires judged { judged self.old.held (order.Await version) ≡ None }
        requires awaited { (version_of self.old.held version).awaited ≡ true }
        ensures { accepted self.old (order.Await version) ≡ (self.new, response_of result) }
    {
        self.catalogue.await_version(version)
    }

    /// What is carried of a version once it is awaited: what is missing of its stores is made, and
    /// they are taken off their shelves. What is kept of it stays meanwhile.
    pub(crate) fn whole_run<R: Threads + Wait + Sync>(
        &mut self,
        rt: &R,
        version: u32,
    ) -> Result<VersionRun, NoMemory>
        requires held { has_no_version self.old.held version ≡ false }
        requires first { (version_of self.old.held version).awaited ≡ false }
        ensures whole { IfOk result (λ run.
            IsTrailOf (record (version_of self.old.held version) { awaited = true }) run) }
        ensures same { self.new ≡ self.old }
    {
        self.runs.whole(self.alloc, rt, &self.catalogue, version)
    }

    /// Notes that a version was awaited, with what is carried of it from then on.
    pub(crate) fn note_await(&mut self, version: u32, run: VersionRun) -> Reply
        requires judged { judged self.old.held (order.Await version) ≡ None }
        requires first { (version_of self.old.held version).awaited ≡ false }
        requires own { IsTrailOf (record (version_of self.old.held version) { awaited = true })
            run }
        ensures reply { accepted (apart self.old) (order.Await version)
            ≡ (apart self.new, response_of result) }
        ensures stored { AllZip (IsFinishedIn version) self.old.stored self.new.stored }
        ensures end { self.new.end ≡ self.old.end }
    {
        self.runs.replace(version, run);
        self.catalogue.await_version(version)
    }

    /// What is found along a path of a version, for an ask or explain that no rule refuses.
    fn find<R: Threads + Wait + Sync>(
        &mut self,
        rt: &R,
        version: u32,
        dir: Dir,
        path: &Path,
        named: &NamedCells,
        tally: &mut Tally,
    ) -> Result<Found, NoMemory>
        requires version { has_no_version self.old.held version ≡ false }
        requires joined { is_not_joined self.old.held version dir path.now ≡ false }
        requires range { is_out_of_range self.old.held version dir path.now named.now ≡ false }
        requires room { tally.old + 32 * 1048576 < 2 ^ 63 }
        ensures cells { IfOk result
            (λ f. f.cells ≡ cells_told self.old version dir path.now named.now) }
        ensures ways { (version_of self.old.held version).awaited ≡ true
            → IfOk result (λ f. map strategy_told f.used
            ≡ map (way_of (version_of self.old.held version) dir) path.now) }
        ensures traced { (version_of self.old.held version).awaited ≡ true
            → IfOk result (λ f. f.traced ≡ traced (version_of self.old.held version) dir path.now) }
        ensures least { OnOk result
            (tally.old + traced (version_of self.old.held version) dir path.now ≤ tally.new) }
        ensures most { OnOk result
            (tally.new ≤ tally.old + most_traced (version_of self.old.held version) dir path.now) }
        ensures kept { OnErr result (tally.new ≡ tally.old) }
        ensures same { self.new ≡ self.old }
    {
        let inquiry = self.inquiry(rt, version, dir, path, named)?;
        inquiry.answer(self.alloc, rt, &mut self.spare, tally)
    }

    /// What is asked along a path of a version, for an ask or explain that no rule refuses.
    fn inquiry<R: Threads + Sync>(
        &mut self,
        rt: &R,
        version: u32,
        dir: Dir,
        path: &Path,
        named: &NamedCells,
    ) -> Result<Inquiry, NoMemory>
        requires version { has_no_version self.old.held version ≡ false }
        requires joined { is_not_joined self.old.held version dir path.now ≡ false }
        requires range { is_out_of_range self.old.held version dir path.now named.now ≡ false }
        ensures search { IfOk result
            (λ s. IsInquiryOf self.old version dir path.now named.now s) }
        ensures same { self.new ≡ self.old }
    {
        self.runs
            .inquiry(rt, self.alloc, &self.catalogue, version, dir, path, named)
    }

    /// By which way each step of a path is answered, and how many cells are traced.
    fn explain<G: Gate, R: Threads + Wait + Sync>(
        &mut self,
        rt: &R,
        version: u32,
        dir: Dir,
        path: &Path,
        named: &NamedCells,
        line: u64,
        gate: &G,
        tally: &mut Tally,
    ) -> Result<Reply, NoMemory>
        requires judged { judged self.old.held (order.Explain version dir path.now named.now)
            ≡ None }
        requires room { tally.old + 32 * 1048576 < 2 ^ 63 }
        ensures reply { IfOk result (λ r. accepted self.old
            (order.Explain version dir path.now named.now) ≡ (self.new, response_of r)) }
        ensures least { OnOk result
            (tally.old + traced (version_of self.old.held version) dir path.now ≤ tally.new) }
        ensures most { OnOk result
            (tally.new ≤ tally.old + most_traced (version_of self.old.held version) dir path.now) }
        ensures same { self.new ≡ self.old }
    {
        let found = self.find(rt, version, dir, path, named, tally)?;
        let used = strategies_told(self.alloc, found.used.as_slice())?;
        gate.after_ask(line);
        Ok(Reply::Explain {
            used,
            traced: found.traced,
        })
    }

    /// The runs of the nodes of a version.
    fn runs_of<R: Threads + Sync>(
        &mut self,
        rt: &R,
        version: u32,
    ) -> Result<Arc<Vec<NodeRun>>, NoMemory>
        requires { has_no_version self.old.held version ≡ false }
        ensures runs { IfOk result (λ r. map execution_of (arc_value r).items
            ≡ executions_of (version_of self.old.held version)) }
        ensures same { self.new ≡ self.old }
    {
        self.runs.runs(rt, self.alloc, &self.catalogue, version)
    }

    /// The output of a node of a version, for a show that no rule refuses.
    fn show<R: Threads + Sync>(
        &mut self,
        rt: &R,
        version: u32,
        node: u32,
    ) -> Result<Reply, NoMemory>
        requires { judged self.old.held (order.Show version node) ≡ None }
        ensures reply { IfOk result
            (λ r. accepted self.old (order.Show version node) ≡ (self.old, response_of r)) }
        ensures same { self.new ≡ self.old }
    {
        let runs = self.runs_of(rt, version)?;
        let run = &runs[node as usize];
        Ok(Reply::Values {
            array: Arc::try_clone(&run.out)?,
        })
    }
}

/// What a line gives that is read as a command.
fn sorted(command: Command) -> Given
    ensures { result ≡ (if is_ask command then given.Ask command else given.Other command) }
{
    match command {
        Command::Ask {
            version,
            dir,
            path,
            cells,
        } => Given::Ask(Command::Ask {
            version,
            dir,
            path,
            cells,
        }),
        other => Given::Other(other),
    }
}

/// The strategy that is told for each step.
fn strategies_told(alloc: Global, used: &[Used]) -> Result<StrategyList, NoMemory>
    ensures { IfOk result (λ l. l ≡ map strategy_told used.now) }
{
    let mut told = Vec::with_capacity(alloc, used.len())?;
    for step in used {
        told.push(strategy_told(*step))?;
    }
    Ok(StrategyList::of(told))
}

/// The strategy that is told for how a step went.
fn strategy_told(used: Used) -> Strategy
    ensures { result ≡ strategy_told used }
{
    match used {
        Used::By(strategy) => strategy,
        Used::Traced => Strategy::BlackBox,
    }
}
