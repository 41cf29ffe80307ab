//! Where bytes go: what a station is, and the one in memory.
ghost use Rattle.std.specs.Prelude.{◌≡◌, ◌≤◌, ◌<◌, ◌+◌, ◌^◌, ◌&&◌};
ghost use Rattle.sz_outside.specs.Terms.{ℕ, [], List, Option, Some, None, Bool, not, is_ok, IfOk};
ghost use Rattle.sz_outside.specs.Terms.{OnOk, OnErr, length, refl, inl, Rose, Stood, Says};
ghost use Rattle.sz_outside.specs.Terms.{SaysPart, count_after, faults_after, Told, HasSize};
ghost use Rattle.sz_outside.specs.Terms.{HasPlace, GivesAt, Writes, Cuts, Only, Said, SaidPart};
ghost use Rattle.sz_outside.specs.Terms.{TornBy, Cut, Same, Passes, HasImage, MayLeave, LeftSince};
ghost use Rattle.sz_outside.specs.Terms.{scene_before, left_now, now_counts, now, disk_of, said_of};
ghost use Rattle.sz_outside.specs.Terms.{ledger_before, is_next_done, is_write_done};
ghost use Rattle.sz_outside.specs.Terms.{say_fails_next, after_say, after_disk_call, image_by};
ghost use Rattle.sz_outside.specs.Terms.{PassesIn, event, Fits, Found, IsOfDisk, KeepsDisk};
ghost use Rattle.sz_outside.specs.Terms.{is_call_done, scene_after, step_of, true};
ghost use Rattle.sz_outside.specs.declared.history.Act.TheVariants as act;

use crate::history::{Act, History};
use crate::volumes::has_room;
use crate::{Failed, NoMemory};
use std::alloc::Global;
use std::marker::Model;

/// Holds one disk and one output under one clock.
///
/// Its meanings are the bytes said so far and the bytes of the disk as read, where it tells them;
/// the counts of its faults in saying and of those of its disk, each of which rises exactly where
/// such a call fails; what a stop of the machine may leave of the disk now; and what a stop at some
/// moment since an earlier one could have left of the disk and of what was said.
///
/// Places and sizes are in bytes, and the first byte of the disk is at place 0. A disk call that
/// answers `Failed` raised the count of the disk's faults, and one that answers Ok left it.
pub trait Station {
    ghost said: { Self → Option (List ℕ) };

    ghost say_faults: { Self → ℕ };

    ghost disk: { Self → Option (List ℕ) };

    ghost disk_faults: { Self → ℕ };

    ghost may_leave: { Self → List ℕ → Type 0 };

    ghost moment: { Self → ℕ };

    ghost left_since: { Self → ℕ → List ℕ → List ℕ → Type 0 };

    /// How many bytes the disk has, as read.
    fn size(&mut self) -> Result<u64, Failed>
        ensures size { IfOk result (λ n. HasSize (disk self.old) n) }
        ensures counted { disk_faults self.new
            ≡ faults_after (disk_faults self.old) (is_ok result) }
        ensures disk { disk self.new ≡ disk self.old }
        ensures output { (said self.new ≡ said self.old)
            × (say_faults self.new ≡ say_faults self.old) }
        ensures stops { Told (disk self.old) (
            Passes (moment self.old) (moment self.new) (left_since self.old) (left_since self.new)
            (may_leave self.old) (may_leave self.new) Same (Said (said self.old))) };

    /// Reads the bytes of the disk from a place on into the front of `into`, as many as there are
    /// and as there is room for, and says how many: 0 at the end of the disk and behind it. Where
    /// it fails, nothing is said of what `into` holds.
    fn read_at(&mut self, at: u64, into: &mut [u8]) -> Result<usize, Failed>
        ensures bound { IfOk result (λ n. n ≤ length into.new) }
        ensures bytes { IfOk result (λ n.
            GivesAt (disk self.old) at (length into.old) into.new n) }
        ensures counted { disk_faults self.new
            ≡ faults_after (disk_faults self.old) (is_ok result) }
        ensures disk { disk self.new ≡ disk self.old }
        ensures output { (said self.new ≡ said self.old)
            × (say_faults self.new ≡ say_faults self.old) }
        ensures stops { Told (disk self.old) (
            Passes (moment self.old) (moment self.new) (left_since self.old) (left_since self.new)
            (may_leave self.old) (may_leave self.new) Same (Said (said self.old))) };

    /// Writes these bytes at a place of the disk, which becomes longer where they go past its end.
    /// The place is at most the size. It fails where they would end at 2^62 or behind. Until a
    /// sync, a stop may leave any bytes where they were to stand, also where the write failed; of
    /// what a read gives there after a write that failed, no clause tells.
    fn write_at(&mut self, at: u64, bytes: &[u8]) -> Result<(), Failed>
        requires place { HasPlace (disk self.old) at }
        ensures written { OnOk result (Writes (disk self.old) (disk self.new) at bytes.now) }
        ensures limit { OnOk result (at + length bytes.now < 2 ^ 62) }
        ensures counted { disk_faults self.new
            ≡ faults_after (disk_faults self.old) (is_ok result) }
        ensures output { (said self.new ≡ said self.old)
            × (say_faults self.new ≡ say_faults self.old) }
        ensures stops { Told (disk self.old) (
            Passes (moment self.old) (moment self.new) (left_since self.old) (left_since self.new)
            (may_leave self.old) (may_leave self.new) (TornBy at (length bytes.now))
            (Said (said self.old))) };

    /// Cuts the disk to a size, which is at most the present one. Until a sync, a stop may leave
    /// the old size or the new one, also where the cut failed.
    fn cut(&mut self, size: u64) -> Result<(), Failed>
        requires place { HasPlace (disk self.old) size }
        ensures cut { OnOk result (Cuts (disk self.old) (disk self.new) size) }
        ensures counted { disk_faults self.new
            ≡ faults_after (disk_faults self.old) (is_ok result) }
        ensures output { (said self.new ≡ said self.old)
            × (say_faults self.new ≡ say_faults self.old) }
        ensures stops { Told (disk self.old) (
            Passes (moment self.old) (moment self.new) (left_since self.old) (left_since self.new)
            (may_leave self.old) (may_leave self.new) (Cut size) (Said (said self.old))) };

    /// Puts the disk where a stop leaves what a read gives. Where it fails, a stop may leave what
    /// it might have left before.
    fn sync(&mut self) -> Result<(), Failed>
        ensures synced { OnOk result (Only (disk self.old) (may_leave self.new)) }
        ensures counted { disk_faults self.new
            ≡ faults_after (disk_faults self.old) (is_ok result) }
        ensures disk { disk self.new ≡ disk self.old }
        ensures output { (said self.new ≡ said self.old)
            × (say_faults self.new ≡ say_faults self.old) }
        ensures stops { Told (disk self.old) (
            Passes (moment self.old) (moment self.new) (left_since self.old) (left_since self.new)
            (may_leave self.old) (may_leave self.new) Same (Said (said self.old))) };

    /// Says all of these bytes. Where it fails, a part of them from the front may have been said,
    /// as also where a stop comes within it.
    fn say(&mut self, bytes: &[u8]) -> Result<(), Failed>
        ensures said { OnOk result (Says (said self.old) (said self.new) bytes.now) }
        ensures part { OnErr result (SaysPart (said self.old) (said self.new) bytes.now) }
        ensures failed { OnErr result (Rose (say_faults self.old) (say_faults self.new)) }
        ensures quiet { OnOk result (Stood (say_faults self.old) (say_faults self.new)) }
        ensures faults { say_faults self.old ≤ say_faults self.new }
        ensures disk { (disk self.new ≡ disk self.old)
            × (disk_faults self.new ≡ disk_faults self.old) }
        ensures stops { Told (disk self.old) (
            Passes (moment self.old) (moment self.new) (left_since self.old) (left_since self.new)
            (may_leave self.old) (may_leave self.new) Same (SaidPart (said self.old) bytes.now)) };

    /// The disk as it reads is one of the images that a stop may leave.
    ghost reads: { (s : Self) → HasImage (disk s) (may_leave s) };

    /// Since this moment there is no other.
    ghost only_now: { (s : Self) (image found : List ℕ) → Told (disk s) (
        left_since s (moment s) image found → may_leave s image × Said (said s) found) };

    /// This moment is one of those since any other.
    ghost counts_now: { (s : Self) (t : ℕ) (image found : List ℕ) → Told (disk s) (
        t ≤ moment s → may_leave s image → Said (said s) found → left_since s t image found) };
}

/// How a stop may tear what is not synced of a disk in memory.
#[derive(Clone, Copy, Debug, Drop, PartialEq, Eq)]
pub enum Torn {
    /// It is as at the last sync.
    Old,
    /// It is as read.
    New,
    /// It has bytes 1.
    Ones,
}

/// A disk and an output in memory, with a record of all calls.
///
/// Each call takes memory for its record, and one that finds none fails and is counted like any
/// other; how many of them found none is told beside it. So a call fails exactly where its number
/// is one of those that fail, or it found no memory.
///
/// The record grows by the bytes of each write and each say, and is never made shorter. A write and
/// a sync also copy the whole disk. `size` and a cut take constant time, and a read and a say time
/// in proportion to their bytes.
#[derive(Drop)]
pub struct MemStation {
    history: History,
    say_fails: Vec<u64>,
    disk_fails: Vec<u64>,
    passes: Option<u64>,
    says: u64,
    disk_calls: u64,
    say_faults: u64,
    disk_faults: u64,
    unkept: u64,
}

impl Model for MemStation {
    ghost use Rattle.sz_outside.specs.Memory.{Ledger};

    ghost Value = { Ledger };

    ghost view = { λ s. record {
      past = s.history;
      say_fails = s.say_fails.items;
      disk_fails = s.disk_fails.items;
      passes = s.passes;
      says = s.says;
      disk_calls = s.disk_calls;
      say_faults = s.say_faults;
      disk_faults = s.disk_faults;
      unkept = s.unkept;
    } };
}

impl MemStation {
    /// A station with this disk, synced, with nothing said and no faults. The disk calls and the
    /// says of these numbers, counted from 1, fail. It copies the disk.
    pub fn new(
        alloc: Global,
        disk: Vec<u8>,
        disk_fails: Vec<u64>,
        say_fails: Vec<u64>,
    ) -> Result<MemStation, NoMemory>
        ensures { IfOk result (λ s.
            s ≡ ledger_before disk.items disk_fails.items say_fails.items None) }
    {
        Ok(MemStation {
            history: History::new(alloc, disk)?,
            say_fails,
            disk_fails,
            passes: None,
            says: 0,
            disk_calls: 0,
            say_faults: 0,
            disk_faults: 0,
            unkept: 0,
        })
    }

    /// A station with this disk, whose first disk calls pass, so many of them, and whose others
    /// fail.
    pub fn stopped(alloc: Global, disk: Vec<u8>, passes: u64) -> Result<MemStation, NoMemory>
        ensures { IfOk result (λ s. s ≡ ledger_before disk.items [] [] (Some passes)) }
    {
        Ok(MemStation {
            history: History::new(alloc, disk)?,
            say_fails: Vec::new(alloc),
            disk_fails: Vec::new(alloc),
            passes: Some(passes),
            says: 0,
            disk_calls: 0,
            say_faults: 0,
            disk_faults: 0,
            unkept: 0,
        })
    }

    /// The bytes said so far, with no copy.
    pub fn said(&self) -> &[u8]
        ensures { result.now ≡ said_of self.now }
    {
        self.history.said()
    }

    /// One image of the disk that a stop may leave now, as a copy.
    pub fn image(&self, alloc: Global, torn: Torn) -> Result<Vec<u8>, NoMemory>
        ensures bytes { IfOk result (λ v. v.items ≡ image_by torn (now self.now.past)) }
        ensures left { IfOk result (λ v. MayLeave (now self.now.past) v.items) }
    {
        let image = match torn {
            Torn::Old => self.history.synced(),
            Torn::New => self.history.disk(),
            Torn::Ones => self.history.ones(),
        };
        Ok(image.to_vec(alloc)?)
    }

    /// Counts a disk call, and says whether it is to be done.
    fn next_disk_call(&mut self) -> bool
        ensures answer { result ≡ is_next_done self.old }
        ensures counted { self.new ≡ record self.old {
          disk_calls = count_after self.old.disk_calls;
        } }
    {
        self.disk_calls = self.disk_calls.saturating_add(1);
        let is_stopped = match self.passes {
            Some(passes) => passes < self.disk_calls,
            None => false,
        };
        !(self.disk_fails.contains(&self.disk_calls) || is_stopped)
    }

    /// Counts a disk call with so many bytes, and says whether it is to be done: a write only where
    /// it has room.
    fn next_call(&mut self, act: Act, count: usize) -> bool
        ensures answer { result ≡ is_call_done self.old act count }
        ensures counted { self.new ≡ record self.old {
          disk_calls = count_after self.old.disk_calls;
        } }
    {
        match act {
            Act::Write { at } => self.next_disk_call() && has_room(at, count),
            _ => self.next_disk_call(),
        }
    }

    /// Counts a say, and says whether it is to be done.
    fn next_say(&mut self) -> bool
        ensures answer { result ≡ not (say_fails_next self.old) }
        ensures counted { self.new ≡ record self.old { says = count_after self.old.says } }
    {
        self.says = self.says.saturating_add(1);
        !self.say_fails.contains(&self.says)
    }

    /// Counts what became of a disk call, and answers it.
    fn end_disk_call(&mut self, is_done: bool, kept: Result<(), NoMemory>) -> Result<(), Failed>
        ensures answer { is_ok result ≡ (is_done && is_ok kept) }
        ensures counted { self.new ≡ record self.old {
          disk_faults = faults_after self.old.disk_faults (is_done && is_ok kept);
          unkept = faults_after self.old.unkept (is_ok kept);
        } }
    {
        if kept.is_err() {
            self.unkept = self.unkept.saturating_add(1);
        }
        if is_done && kept.is_ok() {
            return Ok(());
        }
        self.disk_faults = self.disk_faults.saturating_add(1);
        Err(Failed)
    }

    /// Makes a disk call: counts it, notes it, and does it where it is to be done.
    fn disk_call(&mut self, act: Act, bytes: &[u8]) -> Result<(), Failed>
        requires disk { IsOfDisk act }
        requires fits { Fits act (now self.old.past) }
        ensures counted { self.new.disk_faults ≡ faults_after self.old.disk_faults (is_ok result) }
        ensures done { OnOk result (
            now self.new.past ≡ scene_after (now self.old.past) (event act bytes.now true)) }
        ensures disk { KeepsDisk act → Some (disk_of self.new) ≡ Some (disk_of self.old) }
        ensures output { (Some (said_of self.new) ≡ Some (said_of self.old))
            × (self.new.say_faults ≡ self.old.say_faults) }
        ensures stops { PassesIn self.old self.new (step_of (event act bytes.now true) act)
            (Found (now self.old.past) bytes.now act) }
        ensures after { (is_kept : Bool)
            × (self.new ≡ after_disk_call self.old act bytes.now
            (is_call_done self.old act (length bytes.now)) is_kept)
            × (is_ok result ≡ (is_call_done self.old act (length bytes.now) && is_kept)) }
    {
        let is_done = self.next_call(act, bytes.len());
        let kept = self.history.note(act, bytes, is_done);
        self.end_disk_call(is_done, kept)
    }

    /// Counts what became of a say, and answers it.
    fn end_say(&mut self, is_done: bool, kept: Result<(), NoMemory>) -> Result<(), Failed>
        ensures answer { is_ok result ≡ (is_done && is_ok kept) }
        ensures counted { self.new ≡ record self.old {
          say_faults = faults_after self.old.say_faults (is_done && is_ok kept);
          unkept = faults_after self.old.unkept (is_ok kept);
        } }
        ensures rises { self.old.say_faults ≤ self.new.say_faults }
    {
        if kept.is_err() {
            self.unkept = self.unkept.saturating_add(1);
        }
        if is_done && kept.is_ok() {
            return Ok(());
        }
        self.say_faults = self.say_faults.saturating_add(1);
        Err(Failed)
    }
}

impl Station for MemStation {
    ghost said = { λ s. Some (said_of s) };

    ghost say_faults = { λ s. s.say_faults };

    ghost disk = { λ s. Some (disk_of s) };

    ghost disk_faults = { λ s. s.disk_faults };

    ghost may_leave = { λ s image. MayLeave (now s.past) image };

    ghost moment = { λ s. length s.past.events };

    ghost left_since = { λ s t image found.
        LeftSince (scene_before s.past.start) s.past.events t image found };

    ghost reads = { λ s. inl refl };

    ghost only_now = { λ s image found left.
        left_now (scene_before s.past.start) s.past.events image found left };

    ghost counts_now = { λ s t image found le may_leave is_said.
        now_counts (scene_before s.past.start) s.past.events t image found le
        (may_leave, is_said) };

    fn size(&mut self) -> Result<u64, Failed>
        ensures size { IfOk result (λ n. n ≡ length (disk_of self.old)) }
        ensures counted { self.new.disk_faults ≡ faults_after self.old.disk_faults (is_ok result) }
        ensures disk { Some (disk_of self.new) ≡ Some (disk_of self.old) }
        ensures output { (Some (said_of self.new) ≡ Some (said_of self.old))
            × (self.new.say_faults ≡ self.old.say_faults) }
        ensures stops { PassesIn self.old self.new Same (Said (Some (said_of self.old))) }

        ensures after { (is_kept : Bool)
            × (self.new ≡ after_disk_call self.old act.Look [] (is_next_done self.old) is_kept)
            × (is_ok result ≡ (is_next_done self.old && is_kept)) }
    {
        self.disk_call(Act::Look, &[])?;
        Ok(self.history.disk().len() as u64)
    }

    fn read_at(&mut self, at: u64, into: &mut [u8]) -> Result<usize, Failed>
        ensures bound { IfOk result (λ n. n ≤ length into.new) }
        ensures bytes { IfOk result (λ n.
            GivesAt (Some (disk_of self.old)) at (length into.old) into.new n) }
        ensures counted { self.new.disk_faults ≡ faults_after self.old.disk_faults (is_ok result) }
        ensures disk { Some (disk_of self.new) ≡ Some (disk_of self.old) }
        ensures output { (Some (said_of self.new) ≡ Some (said_of self.old))
            × (self.new.say_faults ≡ self.old.say_faults) }
        ensures stops { PassesIn self.old self.new Same (Said (Some (said_of self.old))) }

        ensures after { (is_kept : Bool)
            × (self.new ≡ after_disk_call self.old act.Look [] (is_next_done self.old) is_kept)
            × (is_ok result ≡ (is_next_done self.old && is_kept)) }
    {
        self.disk_call(Act::Look, &[])?;
        Ok(give_at(self.history.disk(), at, into))
    }

    fn write_at(&mut self, at: u64, bytes: &[u8]) -> Result<(), Failed>
        requires place { at ≤ length (disk_of self.old) }
        ensures written { OnOk result (
            Writes (Some (disk_of self.old)) (Some (disk_of self.new)) at bytes.now) }
        ensures limit { OnOk result (at + length bytes.now < 2 ^ 62) }
        ensures counted { self.new.disk_faults ≡ faults_after self.old.disk_faults (is_ok result) }
        ensures output { (Some (said_of self.new) ≡ Some (said_of self.old))
            × (self.new.say_faults ≡ self.old.say_faults) }
        ensures stops { PassesIn self.old self.new (TornBy at (length bytes.now))
            (Said (Some (said_of self.old))) }

        ensures after { (is_kept : Bool)
            × (self.new ≡ after_disk_call self.old (act.Write at) bytes.now
            (is_write_done self.old at (length bytes.now)) is_kept)
            × (is_ok result ≡ (is_write_done self.old at (length bytes.now) && is_kept)) }
    {
        self.disk_call(Act::Write { at }, bytes)
    }

    fn cut(&mut self, size: u64) -> Result<(), Failed>
        requires place { size ≤ length (disk_of self.old) }
        ensures cut { OnOk result (
            Cuts (Some (disk_of self.old)) (Some (disk_of self.new)) size) }
        ensures counted { self.new.disk_faults ≡ faults_after self.old.disk_faults (is_ok result) }
        ensures output { (Some (said_of self.new) ≡ Some (said_of self.old))
            × (self.new.say_faults ≡ self.old.say_faults) }
        ensures stops { PassesIn self.old self.new (Cut size) (Said (Some (said_of self.old))) }

        ensures after { (is_kept : Bool)
            × (self.new ≡ after_disk_call self.old (act.Cut size) []
            (is_next_done self.old) is_kept)
            × (is_ok result ≡ (is_next_done self.old && is_kept)) }
    {
        self.disk_call(Act::Cut { size }, &[])
    }

    fn sync(&mut self) -> Result<(), Failed>
        ensures synced { OnOk result (
            Only (Some (disk_of self.old)) (MayLeave (now self.new.past))) }
        ensures counted { self.new.disk_faults ≡ faults_after self.old.disk_faults (is_ok result) }
        ensures disk { Some (disk_of self.new) ≡ Some (disk_of self.old) }
        ensures output { (Some (said_of self.new) ≡ Some (said_of self.old))
            × (self.new.say_faults ≡ self.old.say_faults) }
        ensures stops { PassesIn self.old self.new Same (Said (Some (said_of self.old))) }

        ensures after { (is_kept : Bool)
            × (self.new ≡ after_disk_call self.old act.Sync [] (is_next_done self.old) is_kept)
            × (is_ok result ≡ (is_next_done self.old && is_kept)) }
    {
        self.disk_call(Act::Sync, &[])
    }

    fn say(&mut self, bytes: &[u8]) -> Result<(), Failed>
        ensures said { OnOk result (
            Says (Some (said_of self.old)) (Some (said_of self.new)) bytes.now) }
        ensures part { OnErr result (
            SaysPart (Some (said_of self.old)) (Some (said_of self.new)) bytes.now) }
        ensures failed { OnErr result (Rose self.old.say_faults self.new.say_faults) }
        ensures quiet { OnOk result (Stood self.old.say_faults self.new.say_faults) }
        ensures faults { self.old.say_faults ≤ self.new.say_faults }
        ensures disk { (Some (disk_of self.new) ≡ Some (disk_of self.old))
            × (self.new.disk_faults ≡ self.old.disk_faults) }
        ensures stops { PassesIn self.old self.new Same
            (SaidPart (Some (said_of self.old)) bytes.now) }

        ensures after { (is_kept : Bool)
            × (self.new ≡ after_say self.old bytes.now is_kept)
            × (is_ok result ≡ (not (say_fails_next self.old) && is_kept)) }
    {
        let is_done = self.next_say();
        let kept = self.history.note(Act::Say, bytes, is_done);
        self.end_say(is_done, kept)
    }
}

/// Copies the bytes of a disk from a place on to the front of `into`, and says how many.
fn give_at(disk: &[u8], at: u64, into: &mut [u8]) -> usize
    ensures bound { result ≤ length into.new }
    ensures bytes { GivesAt (Some disk.now) at (length into.old) into.new result }
{
    let start = disk.len().min(at as usize);
    let count = (disk.len() - start).min(into.len());
    into[..count].copy_from_slice(&disk[start..start + count]);
    count
}
