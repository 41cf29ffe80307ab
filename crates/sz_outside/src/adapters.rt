//! Sources and stations over streams, and so over standard input and output.
//!
//! Both are written and proved for any reader and any writer, and tell the bytes that their stream
//! tells. The real streams tell none, but the body that serves them is the same, and cannot tell
//! them apart from any other.
ghost use Rattle.std.specs.Prelude.{◌≡◌, ◌≤◌, ◌<◌, ◌+◌, ◌^◌};
ghost use Rattle.sz_outside.specs.Terms.{⊤, None, IsSomeAnd, length, is_ok, IfOk, OnOk, OnErr};
ghost use Rattle.sz_outside.specs.Terms.{IsTrue, Some, MatchOption, option_map, Rose, Stood, Gives};
ghost use Rattle.sz_outside.specs.Terms.{Keeps, Says, SaysPart, faults_after, HasSize, GivesAt};
ghost use Rattle.sz_outside.specs.Terms.{Writes, WritesPart, Cuts, CutsOrNot};

use crate::streams::{Outlet, count_fault, read_and_count, write_and_count};
use crate::volumes::{Volume, read_from, write_to};
use crate::{Failed, Source, Station};
use std::fs::File;
use std::io::{ErrorKind, Read, Stdin, Stdout};

/// Standard input.
pub type StdinSource = ReaderSource<Stdin>;

/// Standard output, with a file or with none.
pub type FileStation = StreamStation<File, Stdout>;

/// A source over a reader, with the count of its faults.
#[derive(Drop)]
pub struct ReaderSource<R> {
    reader: R,
    faults: u64,
}

impl ReaderSource<Stdin> {
    /// Standard input, with no faults so far.
    pub fn new(rt: &HostRuntime) -> StdinSource
        ensures { result.faults ≡ 0 }
    {
        ReaderSource {
            reader: rt.stdin(),
            faults: 0,
        }
    }
}

impl<R: Read> Source for ReaderSource<R> {
    ghost left = { λ s. R.remaining s.reader };

    ghost faults = { λ s. s.faults };

    fn read(&mut self, into: &mut [u8]) -> Result<usize, Failed>
        ensures bound { IfOk result (λ n. n ≤ length into.new) }
        ensures bytes { IfOk result (λ n.
            Gives (R.remaining self.old.reader) (R.remaining self.new.reader) into.new n) }
        ensures failed { OnErr result (Rose self.old.faults self.new.faults) }
        ensures quiet { OnOk result (Stood self.old.faults self.new.faults) }
        ensures kept { OnErr result
            (Keeps (R.remaining self.old.reader) (R.remaining self.new.reader)) }
        ensures faults { self.old.faults ≤ self.new.faults }

        ensures counted { self.new.faults
            ≡ faults_after self.old.faults (is_ok result) }
    {
        read_and_count(&mut self.reader, &mut self.faults, into)
    }
}

/// A station over a file and a writer, with the counts of their faults.
///
/// It tells nothing of the bytes of its file, and so claims nothing of what a stop leaves. Each
/// disk call is one call of the file, but a read, which asks for the size first.
#[derive(Drop)]
pub struct StreamStation<V, W> {
    volume: Option<V>,
    disk_faults: u64,
    writer: W,
    say_faults: u64,
}

impl StreamStation<File, Stdout> {
    /// Standard output and a file, with no faults so far.
    pub fn over(rt: &HostRuntime, file: File) -> FileStation
        ensures quiet { (result.disk_faults ≡ 0) × (result.say_faults ≡ 0) }
        ensures held { result.volume ≡ Some file }
    {
        StreamStation {
            volume: Some(file),
            disk_faults: 0,
            writer: rt.stdout(),
            say_faults: 0,
        }
    }

    /// Standard output and no file, with no faults so far. Each disk call fails and is counted.
    pub fn closed(rt: &HostRuntime) -> FileStation
        ensures quiet { (result.disk_faults ≡ 0) × (result.say_faults ≡ 0) }
        ensures held { result.volume ≡ None }
    {
        StreamStation {
            volume: None,
            disk_faults: 0,
            writer: rt.stdout(),
            say_faults: 0,
        }
    }
}

impl<V: Volume, W: Outlet> Station for StreamStation<V, W> {
    ghost said = { λ s. W.contents s.writer };

    ghost say_faults = { λ s. s.say_faults };

    ghost disk = { λ _. None };

    ghost disk_faults = { λ s. s.disk_faults };

    ghost may_leave = { λ _ _. ⊤ };

    ghost moment = { λ _. 0 };

    ghost left_since = { λ _ _ _ _. ⊤ };

    ghost reads = { λ _. tt };

    ghost only_now = { λ _ _ _. tt };

    ghost counts_now = { λ _ _ _ _. tt };

    fn size(&mut self) -> Result<u64, Failed>
        ensures counted { self.new.disk_faults ≡ faults_after self.old.disk_faults (is_ok result) }
        ensures output { (W.contents self.new.writer ≡ W.contents self.old.writer)
            × (self.new.say_faults ≡ self.old.say_faults) }

        ensures size { IfOk result (λ n.
            IsSomeAnd self.old.volume (λ v. HasSize (V.bytes v) n)) }
        ensures kept { option_map V.bytes self.new.volume ≡ option_map V.bytes self.old.volume }
    {
        let size = match &mut self.volume {
            Some(volume) => volume.length(),
            None => Err(ErrorKind::NotFound.into()),
        };
        count_fault(size, &mut self.disk_faults)
    }

    fn read_at(&mut self, at: u64, into: &mut [u8]) -> Result<usize, Failed>
        ensures bound { IfOk result (λ n. n ≤ length into.new) }
        ensures counted { self.new.disk_faults ≡ faults_after self.old.disk_faults (is_ok result) }
        ensures output { (W.contents self.new.writer ≡ W.contents self.old.writer)
            × (self.new.say_faults ≡ self.old.say_faults) }

        ensures bytes { IfOk result (λ n. IsSomeAnd self.old.volume (λ v.
            GivesAt (V.bytes v) at (length into.old) into.new n)) }
        ensures kept { option_map V.bytes self.new.volume ≡ option_map V.bytes self.old.volume }
    {
        let given = match &mut self.volume {
            Some(volume) => read_from(volume, at, into),
            None => Err(ErrorKind::NotFound.into()),
        };
        count_fault(given, &mut self.disk_faults)
    }

    fn write_at(&mut self, at: u64, bytes: &[u8]) -> Result<(), Failed>
        ensures limit { OnOk result (at + length bytes.now < 2 ^ 62) }
        ensures counted { self.new.disk_faults ≡ faults_after self.old.disk_faults (is_ok result) }
        ensures output { (W.contents self.new.writer ≡ W.contents self.old.writer)
            × (self.new.say_faults ≡ self.old.say_faults) }

        ensures written { OnOk result (IsSomeAnd self.old.volume (λ v. IsSomeAnd self.new.volume
            (λ w. Writes (V.bytes v) (V.bytes w) at bytes.now))) }
        ensures part { OnErr result (MatchOption self.old.volume (self.new.volume ≡ None)
            (λ v. IsSomeAnd self.new.volume
            (λ w. WritesPart (V.bytes v) (V.bytes w) at (length bytes.now)))) }
    {
        let written = match &mut self.volume {
            Some(volume) => write_to(volume, at, bytes),
            None => Err(ErrorKind::NotFound.into()),
        };
        count_fault(written, &mut self.disk_faults)
    }

    fn cut(&mut self, size: u64) -> Result<(), Failed>
        ensures counted { self.new.disk_faults ≡ faults_after self.old.disk_faults (is_ok result) }
        ensures output { (W.contents self.new.writer ≡ W.contents self.old.writer)
            × (self.new.say_faults ≡ self.old.say_faults) }

        ensures cut { OnOk result (IsSomeAnd self.old.volume (λ v. IsSomeAnd self.new.volume
            (λ w. Cuts (V.bytes v) (V.bytes w) size))) }
        ensures part { OnErr result (MatchOption self.old.volume (self.new.volume ≡ None)
            (λ v. IsSomeAnd self.new.volume (λ w. CutsOrNot (V.bytes v) (V.bytes w) size))) }
    {
        let cut = match &mut self.volume {
            Some(volume) => volume.cut_to(size),
            None => Err(ErrorKind::NotFound.into()),
        };
        count_fault(cut, &mut self.disk_faults)
    }

    fn sync(&mut self) -> Result<(), Failed>
        ensures counted { self.new.disk_faults ≡ faults_after self.old.disk_faults (is_ok result) }
        ensures output { (W.contents self.new.writer ≡ W.contents self.old.writer)
            × (self.new.say_faults ≡ self.old.say_faults) }

        ensures synced { OnOk result (
            IsSomeAnd self.new.volume (λ w. IsTrue (V.is_synced w))) }
        ensures kept { option_map V.bytes self.new.volume ≡ option_map V.bytes self.old.volume }
    {
        let synced = match &mut self.volume {
            Some(volume) => volume.put_through(),
            None => Err(ErrorKind::NotFound.into()),
        };
        count_fault(synced, &mut self.disk_faults)
    }

    fn say(&mut self, bytes: &[u8]) -> Result<(), Failed>
        ensures said { OnOk result
            (Says (W.contents self.old.writer) (W.contents self.new.writer) bytes.now) }
        ensures part { OnErr result
            (SaysPart (W.contents self.old.writer) (W.contents self.new.writer) bytes.now) }
        ensures failed { OnErr result (Rose self.old.say_faults self.new.say_faults) }
        ensures quiet { OnOk result (Stood self.old.say_faults self.new.say_faults) }
        ensures faults { self.old.say_faults ≤ self.new.say_faults }
        ensures volume { (self.new.volume ≡ self.old.volume)
            × (self.new.disk_faults ≡ self.old.disk_faults) }

        ensures sent { OnOk result (IsTrue (W.holds_none self.new.writer)) }
        ensures counted { self.new.say_faults
            ≡ faults_after self.old.say_faults (is_ok result) }
    {
        write_and_count(&mut self.writer, &mut self.say_faults, bytes)
    }
}
