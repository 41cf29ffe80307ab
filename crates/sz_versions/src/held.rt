//! What a session carries of the versions that it holds: of each one run, whether it was started
//! here or a log gave it. The run of one that a log gave is made when it is first asked, so that a
//! log opens without it.

ghost use Rattle.std.specs.Prelude.{◌≡◌, ◌≤◌, ◌<◌, ◌==◌, ◌++◌, ◌∷◌};
ghost use Rattle.sz_versions.specs.Terms.{[], List, find, map, length, true, false, Some, None};
ghost use Rattle.sz_versions.specs.Terms.{All, IfOk, OnOk, OnErr, IfSome, IfNone, list_all};
ghost use Rattle.sz_versions.specs.Terms.{slice_get, is_joined, execution_of, version_numbered};
ghost use Rattle.sz_versions.specs.Terms.{path_start, version_of, has_no_version, is_not_joined};
ghost use Rattle.sz_versions.specs.Terms.{is_out_of_range, has_named_cell, AreOfVersions};
ghost use Rattle.sz_versions.specs.Terms.{executions_of, IsSoundVersion, IsTrailOf, IsInquiryBy};
ghost use Rattle.sz_versions.specs.Terms.{Resident, AreResidents, IsInService, IsTrailBy};
ghost use Rattle.sz_versions.specs.Terms.{residents_under, logged_in, logged_under, logged_of};
ghost use Rattle.sz_versions.specs.Terms.{stored_in, replaced_in, IsStill, arc_value};

use crate::building::ended;
use crate::finding::inquiry_along;
use crate::inquiry::Inquiry;
use crate::recalled::recall_each;
use crate::runs::{UnmadeRun, VersionRun};
use std::alloc::Global;
use std::marker::Model;
use std::mem;
use std::sync::{Arc, Wait};
use std::thread::Threads;
use sz_catalogue::{Catalogue, HeldVersion};
use sz_cells::NoMemory;
use sz_flow::NodeRun;
use sz_recover::KeptVersion;
use sz_script::{NamedCells, Path};
use sz_spec::Dir;

/// A run that is carried. Contracts see the run, whether it is made or not (`specs/Carried`).
#[derive(Drop)]
pub(crate) enum Carried {
    /// It is made.
    Made(VersionRun),
    /// What it is made of.
    Unmade(UnmadeRun),
    /// A call has it, and carries it again at its end.
    Lent,
}

/// What is carried of a version: its number, whether a log gave it, and its run. Contracts see it
/// as a `Resident`.
#[derive(Drop)]
pub struct HeldRun {
    pub(crate) number: u32,
    pub(crate) logged: bool,
    pub(crate) run: Carried,
}

impl Model for HeldRun {
    ghost use Rattle.sz_versions.specs.Residents.{Resident};
    ghost use Rattle.sz_versions.specs.Carried.{trail_of};

    ghost Value = { Resident };

    ghost view = { λ r. record { number = r.number; logged = r.logged; trail = trail_of r.run } };
}

/// What is carried of each version that is held. Contracts see the list.
#[derive(Drop)]
pub struct HeldRuns {
    pub(crate) runs: Vec<HeldRun>,
}

impl Model for HeldRuns {
    ghost use Rattle.std.specs.Prelude.{List};
    ghost use Rattle.sz_versions.specs.Residents.{Resident};

    ghost Value = { List Resident };

    ghost view = { λ h. h.runs.items };
}

impl HeldRuns {
    /// Of no version. Takes no memory.
    pub fn new(alloc: Global) -> HeldRuns
        ensures { result ≡ [] }
    {
        HeldRuns {
            runs: Vec::new(alloc),
        }
    }

    /// What is carried of the versions that a log gave, which are all that are held: the stores that
    /// were read of them, and what the values of their nodes are computed of when the version is
    /// first asked.
    pub fn recalled(
        alloc: Global,
        catalogue: &Catalogue,
        stores: Vec<KeptVersion>,
    ) -> Result<HeldRuns, NoMemory>
        requires { AreOfVersions catalogue.now stores.items }
        ensures own { IfOk result (λ rs. AreResidents catalogue.now rs) }
        ensures logged { IfOk result (λ rs. logged_in rs ≡ stores.items) }
        ensures each { IfOk result (λ rs. All (λ r. r.logged ≡ true) rs) }
    {
        let runs = recall_each(alloc, catalogue, stores)?;
        Ok(HeldRuns { runs })
    }

    /// Carries the run of one version more, which was started here.
    pub fn add(&mut self, number: u32, run: VersionRun) -> Result<(), NoMemory>
        ensures ok { OnOk result (self.new
            ≡ self.old ++ record { number = number; logged = false; trail = run } ∷ []) }
        ensures err { OnErr result (self.new ≡ self.old) }
    {
        self.runs.push(HeldRun {
            number,
            logged: false,
            run: Carried::Made(run),
        })?;
        Ok(())
    }

    /// Lets the one go that was added last.
    pub fn take_back(&mut self)
        ensures { (rs : List Resident) (r : Resident)
            → self.old ≡ rs ++ r ∷ [] → self.new ≡ rs }
    {
        let _ = self.runs.pop();
    }

    /// Carries another run of a version. Costs a look at each version.
    pub fn replace(&mut self, number: u32, run: VersionRun)
        requires once { residents_under number self.old ≤ 1 }
        ensures { self.new ≡ replaced_in number run self.old }
    {
        match self.place_of(number) {
            Some(at) => self.runs[at].replace(run),
            None => {}
        }
    }

    /// The runs of the nodes of a version that is held, which are made where they were not yet.
    /// Costs a look at each version.
    pub fn runs<R: Threads + Sync>(
        &mut self,
        rt: &R,
        alloc: Global,
        catalogue: &Catalogue,
        version: u32,
    ) -> Result<Arc<Vec<NodeRun>>, NoMemory>
        requires service { IsInService catalogue.now self.old }
        requires held { has_no_version catalogue.now version ≡ false }
        ensures runs { IfOk result (λ r. map execution_of (arc_value r).items
            ≡ executions_of (version_of catalogue.now version)) }
        ensures same { self.new ≡ self.old }
    {
        let (_held, at) = self.found(catalogue, version);
        self.runs[at].runs(rt, alloc)
    }

    /// What is asked along a path of a version, for an ask or explain that no rule refuses: by what
    /// is carried of it. Of that nothing changes but that passes were split off.
    pub fn inquiry<R: Threads + Sync>(
        &mut self,
        rt: &R,
        alloc: Global,
        catalogue: &Catalogue,
        version: u32,
        dir: Dir,
        path: &Path,
        named: &NamedCells,
    ) -> Result<Inquiry, NoMemory>
        requires service { IsInService catalogue.now self.old }
        requires held { has_no_version catalogue.now version ≡ false }
        requires joined { is_not_joined catalogue.now version dir path.now ≡ false }
        requires range { is_out_of_range catalogue.now version dir path.now named.now ≡ false }
        ensures search { IfOk result (λ s. IsInquiryBy (logged_under version (logged_in self.old))
            (version_of catalogue.now version) dir path.now named.now s) }
        ensures service { IsInService catalogue.now self.new }
        ensures logged { logged_in self.new ≡ logged_in self.old }
        ensures stored { stored_in self.new ≡ stored_in self.old }
    {
        let (held, at) = self.found(catalogue, version);
        self.runs[at].inquiry(rt, alloc, held, dir, path, named)
    }

    /// What is carried of a version once it is awaited: its runs, and its stores whole. What is
    /// missing of them is made on their shelves. Nothing else changes of what is carried; the run
    /// that is given is to be carried in the other's place.
    pub fn whole<R: Threads + Wait + Sync>(
        &mut self,
        alloc: Global,
        rt: &R,
        catalogue: &Catalogue,
        version: u32,
    ) -> Result<VersionRun, NoMemory>
        requires service { IsInService catalogue.now self.old }
        requires held { has_no_version catalogue.now version ≡ false }
        requires first { (version_of catalogue.now version).awaited ≡ false }
        ensures whole { IfOk result (λ run.
            IsTrailOf (record (version_of catalogue.now version) { awaited = true }) run) }
        ensures service { IsInService catalogue.now self.new }
        ensures logged { logged_in self.new ≡ logged_in self.old }
        ensures stored { stored_in self.new ≡ stored_in self.old }
    {
        let (held, at) = self.found(catalogue, version);
        self.runs[at].whole(alloc, rt, held)
    }

    /// A version that is held, and the place of what is carried of it.
    pub(crate) fn found<'a>(
        &self,
        catalogue: &'a Catalogue,
        version: u32,
    ) -> (&'a HeldVersion, usize)
        requires service { IsInService catalogue.now self.now }
        requires held { has_no_version catalogue.now version ≡ false }
        ensures version { Some result.0.now ≡ version_numbered catalogue.now version }
        ensures place { (r : Resident) × (slice_get self.now result.1 ≡ Some r)
            × (find (λ x. x.number == version) self.now ≡ Some r) }
        ensures within { result.1 < length self.now }
    {
        let held = version_held(catalogue, version);
        let Some(at) = self.place_of(version) else {
            unreachable!()
        };
        (held, at)
    }

    /// The place of a version.
    pub(crate) fn place_of(&self, version: u32) -> Option<usize>
        ensures some { IfSome result (λ i. (r : Resident) × (slice_get self.now i ≡ Some r)
            × (find (λ x. x.number == version) self.now ≡ Some r)) }
        ensures within { IfSome result (λ i. i < length self.now) }
        ensures none { IfNone result (find (λ x. x.number == version) self.now ≡ None) }
    {
        place_among(&self.runs, version)
    }
}

/// A version that is held.
pub(crate) fn version_held(catalogue: &Catalogue, version: u32) -> &HeldVersion
    requires { has_no_version catalogue.now version ≡ false }
    ensures { result.now ≡ version_of catalogue.now version }
{
    let Some(held) = catalogue.version(version) else {
        unreachable!()
    };
    held
}

/// The first place of a version.
fn place_among(runs: &[HeldRun], version: u32) -> Option<usize>
    ensures some { IfSome result (λ i. (r : Resident) × (slice_get runs.now i ≡ Some r)
        × (find (λ x. x.number == version) runs.now ≡ Some r)) }
    ensures within { IfSome result (λ i. i < length runs.now) }
    ensures none { IfNone result (find (λ x. x.number == version) runs.now ≡ None) }
{
    for at in 0..runs.len() {
        if runs[at].number() == version {
            return Some(at);
        }
    }
    None
}

impl HeldRun {
    /// The version's number.
    fn number(&self) -> u32
        ensures { result ≡ self.now.number }
    {
        self.number
    }

    /// The run, which is made where it was not yet. It is lent: until it is kept again, none is
    /// carried.
    pub(crate) fn lend<R: Threads + Sync>(
        &mut self,
        rt: &R,
        alloc: Global,
    ) -> Result<VersionRun, NoMemory>
        ensures run { IfOk result (λ r. r ≡ self.old.trail) }
        ensures rest { self.new ≡ record self.old { trail = self.new.trail } }
        ensures err { OnErr result (self.new ≡ self.old) }
    {
        match mem::replace(&mut self.run, Carried::Lent) {
            Carried::Made(run) => Ok(run),
            Carried::Unmade(unmade) => match unmade.runs(rt, alloc) {
                Ok(runs) => Ok(unmade.with(runs)),
                Err(fault) => {
                    self.run = Carried::Unmade(unmade);
                    Err(fault)
                }
            },
            Carried::Lent => Err(NoMemory), // a run is kept again by the call that was lent it
        }
    }

    /// Carries a run that was lent.
    pub(crate) fn keep(&mut self, run: VersionRun)
        ensures { self.new ≡ record self.old { trail = run } }
    {
        self.run = Carried::Made(run);
    }

    /// The runs of the version's nodes.
    fn runs<R: Threads + Sync>(
        &mut self,
        rt: &R,
        alloc: Global,
    ) -> Result<Arc<Vec<NodeRun>>, NoMemory>
        ensures runs { IfOk result
            (λ r. map execution_of (arc_value r).items ≡ self.old.trail.executions) }
        ensures same { self.new ≡ self.old }
    {
        let run = self.lend(rt, alloc)?;
        let runs = run.shared();
        self.keep(run);
        runs
    }

    /// Carries another run, which was made here.
    fn replace(&mut self, run: VersionRun)
        ensures { self.new ≡ record { number = self.old.number; logged = false; trail = run } }
    {
        self.logged = false;
        self.run = Carried::Made(run);
    }

    /// What is asked along a path, by what is carried.
    fn inquiry<R: Threads + Sync>(
        &mut self,
        rt: &R,
        alloc: Global,
        version: &HeldVersion,
        dir: Dir,
        path: &Path,
        named: &NamedCells,
    ) -> Result<Inquiry, NoMemory>
        requires sound { IsSoundVersion version.now }
        requires own { IsTrailBy self.old.logged version.now self.old.trail }
        requires joined { is_joined dir version.now.flow path.now ≡ true }
        requires named { list_all (has_named_cell (path_start dir version.now path.now)) named.now
            ≡ true }
        ensures search { IfOk result
            (λ s. IsInquiryBy (logged_of self.old) version.now dir path.now named.now s) }
        ensures still { IsStill self.old self.new }
    {
        let mut run = self.lend(rt, alloc)?;
        let inquiry = inquiry_along(alloc, version, &mut run, dir, path, named);
        self.keep(run);
        inquiry
    }

    /// What is carried of a version once it is awaited.
    fn whole<R: Threads + Wait + Sync>(
        &mut self,
        alloc: Global,
        rt: &R,
        version: &HeldVersion,
    ) -> Result<VersionRun, NoMemory>
        requires sound { IsSoundVersion version.now }
        requires first { version.now.awaited ≡ false }
        requires own { IsTrailBy self.old.logged version.now self.old.trail }
        ensures whole { IfOk result
            (λ run. IsTrailOf (record version.now { awaited = true }) run) }
        ensures still { IsStill self.old self.new }
    {
        let mut run = self.lend(rt, alloc)?;
        let whole = ended(alloc, rt, &mut run, version.lists.as_slice());
        self.keep(run);
        whole
    }
}
