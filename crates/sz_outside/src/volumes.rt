//! A read and a write at a place of a file, for any kind of file.
ghost use Rattle.std.specs.Prelude.{◌≡◌, ◌≤◌, ◌<◌, ◌+◌, ◌^◌};
ghost use Rattle.sz_outside.specs.Terms.{ℕ, List, Option, Bool, None, true, length, IfOk, OnOk};
ghost use Rattle.sz_outside.specs.Terms.{OnErr, IsTrue, nat_lt, HasSize, GivesAt, Holds, Writes};
ghost use Rattle.sz_outside.specs.Terms.{WritesPart, Cuts, CutsOrNot};

use std::fs::File;
use std::io::{self, ErrorKind};
use std::os::unix::fs::FileExt;

/// A file of which a clause can say what bytes it has, and that they are synced.
///
/// A call that looks, and one that syncs, leaves the bytes as they were, whether it fails or not.
/// A write changes just the bytes that it was given a place for, and a cut just those behind its
/// size.
pub trait Volume {
    ghost bytes: { Self → Option (List ℕ) };

    ghost is_synced: { Self → Bool };

    /// How many bytes it has.
    fn length(&mut self) -> io::Result<u64>
        ensures size { IfOk result (λ n. HasSize (bytes self.old) n) }
        ensures kept { bytes self.new ≡ bytes self.old };

    /// Fills `into` with the bytes from a place on.
    fn fill(&mut self, at: u64, into: &mut [u8]) -> io::Result<()>
        ensures bytes { OnOk result (Holds (bytes self.old) at into.new) }
        ensures kept { bytes self.new ≡ bytes self.old };

    /// Writes all of these bytes at a place.
    fn put(&mut self, at: u64, given: &[u8]) -> io::Result<()>
        ensures written { OnOk result (Writes (bytes self.old) (bytes self.new) at given.now) }
        ensures part { OnErr result
            (WritesPart (bytes self.old) (bytes self.new) at (length given.now)) };

    /// Cuts it to a size.
    fn cut_to(&mut self, size: u64) -> io::Result<()>
        ensures cut { OnOk result (Cuts (bytes self.old) (bytes self.new) size) }
        ensures part { OnErr result (CutsOrNot (bytes self.old) (bytes self.new) size) };

    /// Puts its bytes on the device.
    fn put_through(&mut self) -> io::Result<()>
        ensures synced { OnOk result (IsTrue (is_synced self.new)) }
        ensures kept { bytes self.new ≡ bytes self.old };
}

/// A file of the system tells nothing of its bytes.
impl Volume for File {
    ghost bytes = { λ _. None };

    ghost is_synced = { λ _. true };

    fn length(&mut self) -> io::Result<u64> {
        Ok(self.metadata()?.len())
    }

    fn fill(&mut self, at: u64, into: &mut [u8]) -> io::Result<()> {
        self.read_exact_at(into, at)
    }

    fn put(&mut self, at: u64, given: &[u8]) -> io::Result<()> {
        self.write_all_at(given, at)
    }

    fn cut_to(&mut self, size: u64) -> io::Result<()> {
        self.set_len(size)
    }

    fn put_through(&mut self) -> io::Result<()> {
        self.sync_data()
    }
}

/// Reads the bytes from a place on, as many as there are and as there is room for.
pub(crate) fn read_from<V: Volume>(volume: &mut V, at: u64, into: &mut [u8]) -> io::Result<usize>
    ensures bound { IfOk result (λ n. n ≤ length into.new) }
    ensures bytes { IfOk result (λ n.
        GivesAt (V.bytes volume.old) at (length into.old) into.new n) }
    ensures kept { V.bytes volume.new ≡ V.bytes volume.old }
{
    let left = volume.length()?.saturating_sub(at);
    let count = into.len().min(left as usize);
    volume.fill(at, &mut into[..count])?;
    Ok(count)
}

/// Writes all of these bytes at a place. It fails where they would end at 2^62 or behind.
pub(crate) fn write_to<V: Volume>(volume: &mut V, at: u64, given: &[u8]) -> io::Result<()>
    ensures written { OnOk result (Writes (V.bytes volume.old) (V.bytes volume.new) at given.now) }
    ensures part { OnErr result
        (WritesPart (V.bytes volume.old) (V.bytes volume.new) at (length given.now)) }
    ensures limit { OnOk result (at + length given.now < 2 ^ 62) }
{
    if has_room(at, given.len()) {
        volume.put(at, given)
    } else {
        Err(ErrorKind::FileTooLarge.into())
    }
}

/// Whether bytes at a place end below 2^62.
pub(crate) fn has_room(at: u64, count: usize) -> bool
    ensures { result ≡ nat_lt (at + count) (2 ^ 62) }
{
    at.saturating_add(count as u64) < 1 << 62
}
