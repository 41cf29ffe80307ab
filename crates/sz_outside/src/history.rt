//! What a station in memory was asked for, and what its disk and its output are.
ghost use Rattle.std.specs.Prelude.{◌≡◌, ◌≤◌, ◌++◌, ◌∷◌};
ghost use Rattle.sz_outside.specs.Terms.{ℕ, [], List, Bool, true, length, replicate, IfOk, OnOk};
ghost use Rattle.sz_outside.specs.Terms.{OnErr, written, Event, MayLeave, Fits, scene_at};
ghost use Rattle.sz_outside.specs.Terms.{scene_before, now, noted};
ghost use Rattle.sz_outside.specs.declared.history.Act.TheVariants as act;

use crate::NoMemory;
use std::alloc::Global;
use std::marker::Model;

/// What a station was asked for.
#[derive(Clone, Copy, Debug, Drop, PartialEq, Eq)]
pub(crate) enum Act {
    /// The size of the disk, or a read.
    Look,
    Write { at: u64 },
    Cut { size: u64 },
    Sync,
    Say,
}

/// A call with the bytes that came with it, and whether it was done.
#[derive(Drop)]
pub(crate) struct Call {
    act: Act,
    bytes: Vec<u8>,
    is_done: bool,
}

impl Model for Call {
    ghost use Rattle.sz_outside.specs.History.{Event};

    ghost Value = { Event };

    ghost view = { λ c. record { act = c.act; bytes = c.bytes.items; is_done = c.is_done } };
}

/// The calls so far, on a disk that was synced when they began, and what they made of it.
#[derive(Drop)]
pub(crate) struct History {
    start: Vec<u8>,
    calls: Vec<Call>,
    disk: Vec<u8>,
    said: Vec<u8>,
    synced: Vec<u8>,
    ones: Vec<u8>,
    alloc: Global,
}

impl Model for History {
    ghost use Rattle.sz_outside.specs.History.{Shows, scene_at, scene_before};
    ghost use Rattle.sz_outside.specs.Memory.{Past};

    ghost Value = { Past };

    ghost view = { λ h. record { start = h.start.items; events = h.calls.items } };

    ghost invariant = { λ h. Shows h.disk.items h.said.items h.synced.items h.ones.items
        (scene_at (scene_before h.start.items) h.calls.items) };
}

impl History {
    pub(crate) fn new(alloc: Global, disk: Vec<u8>) -> Result<History, NoMemory>
        ensures { IfOk result (λ h. h ≡ record { start = disk.items; events = [] }) }
    {
        Ok(History {
            start: disk.as_slice().to_vec(alloc)?,
            calls: Vec::new(alloc),
            said: Vec::new(alloc),
            synced: disk.as_slice().to_vec(alloc)?,
            ones: disk.as_slice().to_vec(alloc)?,
            disk,
            alloc,
        })
    }

    /// The disk as read.
    pub(crate) fn disk(&self) -> &[u8]
        ensures { result.now ≡ (now self.now).disk }
    {
        &self.disk
    }

    /// The disk as at the last sync.
    pub(crate) fn synced(&self) -> &[u8]
        ensures value { result.now ≡ (now self.now).synced }
        ensures left { MayLeave (now self.now) result.now }
    {
        &self.synced
    }

    /// The disk as read, with a byte 1 wherever one is not synced.
    pub(crate) fn ones(&self) -> &[u8]
        ensures value { result.now ≡ (now self.now).ones }
        ensures left { MayLeave (now self.now) result.now }
    {
        &self.ones
    }

    /// The bytes said.
    pub(crate) fn said(&self) -> &[u8]
        ensures { result.now ≡ (now self.now).said }
    {
        &self.said
    }

    /// Notes a call with the bytes that come with it, and does it where it is to be done.
    pub(crate) fn note(&mut self, act: Act, bytes: &[u8], is_done: bool) -> Result<(), NoMemory>
        requires { Fits act (now self.old) }
        ensures ok { OnOk result (self.new ≡ noted self.old act bytes.now is_done) }
        ensures err { OnErr result (self.new ≡ self.old) }
    {
        match act {
            Act::Look => self.note_look(bytes, is_done),
            Act::Write { at } => self.note_write(at, bytes, is_done),
            Act::Cut { size } => self.note_cut(size, bytes, is_done),
            Act::Sync => self.note_sync(bytes, is_done),
            Act::Say => self.note_say(bytes, is_done),
        }
    }

    fn note_look(&mut self, bytes: &[u8], is_done: bool) -> Result<(), NoMemory>
        ensures ok { OnOk result (self.new ≡ noted self.old act.Look bytes.now is_done) }
        ensures err { OnErr result (self.new ≡ self.old) }
    {
        push_call(self.alloc, &mut self.calls, Act::Look, bytes, is_done)
    }

    fn note_say(&mut self, bytes: &[u8], is_done: bool) -> Result<(), NoMemory>
        ensures ok { OnOk result (self.new ≡ noted self.old act.Say bytes.now is_done) }
        ensures err { OnErr result (self.new ≡ self.old) }
    {
        if !is_done {
            return push_call(self.alloc, &mut self.calls, Act::Say, bytes, false);
        }
        let before = self.said.len();
        self.said.extend_from_slice(bytes)?;
        let kept = push_call(self.alloc, &mut self.calls, Act::Say, bytes, true);
        if kept.is_err() {
            self.said.truncate(before);
        }
        kept
    }

    fn note_write(&mut self, at: u64, bytes: &[u8], is_done: bool) -> Result<(), NoMemory>
        requires { at ≤ length (now self.old).disk }
        ensures ok { OnOk result (self.new ≡ noted self.old (act.Write at) bytes.now is_done) }
        ensures err { OnErr result (self.new ≡ self.old) }
    {
        let marks = ones(self.alloc, bytes.len())?;
        let mut ones = over(self.alloc, &self.ones, at as usize, &marks)?;
        if !is_done {
            push_call(self.alloc, &mut self.calls, Act::Write { at }, bytes, false)?;
            ones.truncate(self.ones.as_slice().len());
            self.ones = ones;
            return Ok(());
        }
        let disk = over(self.alloc, &self.disk, at as usize, bytes)?;
        push_call(self.alloc, &mut self.calls, Act::Write { at }, bytes, true)?;
        self.disk = disk;
        self.ones = ones;
        Ok(())
    }

    fn note_cut(&mut self, size: u64, bytes: &[u8], is_done: bool) -> Result<(), NoMemory>
        ensures ok { OnOk result (self.new ≡ noted self.old (act.Cut size) bytes.now is_done) }
        ensures err { OnErr result (self.new ≡ self.old) }
    {
        if !is_done {
            return push_call(self.alloc, &mut self.calls, Act::Cut { size }, bytes, false);
        }
        push_call(self.alloc, &mut self.calls, Act::Cut { size }, bytes, true)?;
        self.disk.truncate(size as usize);
        self.ones.truncate(size as usize);
        Ok(())
    }

    fn note_sync(&mut self, bytes: &[u8], is_done: bool) -> Result<(), NoMemory>
        ensures ok { OnOk result (self.new ≡ noted self.old act.Sync bytes.now is_done) }
        ensures err { OnErr result (self.new ≡ self.old) }
    {
        if !is_done {
            return push_call(self.alloc, &mut self.calls, Act::Sync, bytes, false);
        }
        let synced = self.disk.as_slice().to_vec(self.alloc)?;
        let ones = self.disk.as_slice().to_vec(self.alloc)?;
        push_call(self.alloc, &mut self.calls, Act::Sync, bytes, true)?;
        self.synced = synced;
        self.ones = ones;
        Ok(())
    }
}

/// Adds a call behind the others.
fn push_call(
    alloc: Global,
    calls: &mut Vec<Call>,
    act: Act,
    bytes: &[u8],
    is_done: bool,
) -> Result<(), NoMemory>
    ensures ok { OnOk result (calls.new.items ≡ calls.old.items
        ++ record { act = act; bytes = bytes.now; is_done = is_done } ∷ []) }
    ensures err { OnErr result (calls.new.items ≡ calls.old.items) }
{
    let bytes = bytes.to_vec(alloc)?;
    calls.push(Call {
        act,
        bytes,
        is_done,
    })?;
    Ok(())
}

/// The bytes with others at a place, over what was there and past their end.
fn over(alloc: Global, disk: &[u8], at: usize, bytes: &[u8]) -> Result<Vec<u8>, NoMemory>
    requires { at ≤ length disk.now }
    ensures { IfOk result (λ v. v.items ≡ written disk.now at bytes.now) }
{
    let mut all = disk[..at].to_vec(alloc)?;
    all.extend_from_slice(bytes)?;
    if bytes.len() < disk.len() - at {
        all.extend_from_slice(&disk[at + bytes.len()..])?;
    }
    Ok(all)
}

/// So many bytes 1.
fn ones(alloc: Global, count: usize) -> Result<Vec<u8>, NoMemory>
    ensures { IfOk result (λ v. v.items ≡ replicate count 1) }
{
    Ok(vec![in alloc; 1; count]?)
}
