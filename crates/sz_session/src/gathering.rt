//! A station that gathers what is said, and what a feed says to it.
ghost use Rattle.std.specs.Prelude.{◌≡◌};
ghost use Rattle.sz_session.specs.Terms.{[], None, Some, ⊤, IfOk, count_after, nothing_held};
ghost use Rattle.sz_session.specs.Terms.{transcript, moment_before};

use std::alloc::Global;
use std::sync::Wait;
use std::thread::Threads;
use sz_feed::{Feed, Halt};
use sz_outside::{Failed, Gate, Station};

/// All that a feed says of a text. It lets the feed go, so that workers end.
pub(crate) fn told_by<G: Gate, R: Threads + Wait + Sync>(
    rt: &R,
    alloc: Global,
    feed: Feed,
    text: &[u8],
    gate: &G,
) -> Result<Vec<u8>, Halt>
    requires { feed ≡ moment_before nothing_held }
    ensures { IfOk result (λ replies. replies.items ≡ transcript nothing_held text.now) }
{
    let mut feed = feed;
    let mut replies = Replies::new(alloc);
    feed.take_chunk(rt, text, &mut replies, gate)?;
    feed.end_input(rt, &mut replies, gate)?;
    Ok(replies.bytes)
}

/// A station that gathers what is said, and has no disk. A say fails where there is no memory.
#[derive(Drop)]
struct Replies {
    bytes: Vec<u8>,
    say_faults: u64,
    disk_faults: u64,
}

impl Replies {
    /// Nothing is said yet.
    fn new(alloc: Global) -> Replies
        ensures { result.bytes.items ≡ [] }
    {
        Replies {
            bytes: Vec::new(alloc),
            say_faults: 0,
            disk_faults: 0,
        }
    }

    /// Counts a disk call, which fails.
    fn no_disk(&mut self) -> Failed
        ensures counted { self.new.disk_faults ≡ count_after self.old.disk_faults }
        ensures bytes { self.new.bytes ≡ self.old.bytes }
        ensures says { self.new.say_faults ≡ self.old.say_faults }
    {
        self.disk_faults = self.disk_faults.saturating_add(1);
        Failed
    }
}

impl Station for Replies {
    ghost said = { λ s. Some s.bytes.items };

    ghost say_faults = { λ s. s.say_faults };

    ghost disk = { λ _. None };

    ghost disk_faults = { λ s. s.disk_faults };

    ghost may_leave = { λ _ _. ⊤ };

    ghost moment = { λ _. 0 };

    ghost left_since = { λ _ _ _ _. ⊤ };

    ghost reads = { λ _. tt };

    ghost only_now = { λ _ _ _. tt };

    ghost counts_now = { λ _ _ _ _. tt };

    fn size(&mut self) -> Result<u64, Failed> {
        Err(self.no_disk())
    }

    fn read_at(&mut self, _at: u64, _into: &mut [u8]) -> Result<usize, Failed> {
        Err(self.no_disk())
    }

    fn write_at(&mut self, _at: u64, _bytes: &[u8]) -> Result<(), Failed> {
        Err(self.no_disk())
    }

    fn cut(&mut self, _size: u64) -> Result<(), Failed> {
        Err(self.no_disk())
    }

    fn sync(&mut self) -> Result<(), Failed> {
        Err(self.no_disk())
    }

    fn say(&mut self, bytes: &[u8]) -> Result<(), Failed> {
        if self.bytes.extend_from_slice(bytes).is_err() {
            self.say_faults = self.say_faults.saturating_add(1);
            return Err(Failed);
        }
        Ok(())
    }
}
