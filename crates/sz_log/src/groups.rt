//! Reading a log: whether a disk begins as one, and what stands at a place.
ghost use Rattle.std.specs.Prelude.{◌≡◌, ◌==◌, ◌<◌, ◌+◌, ◌^◌};
ghost use Rattle.sz_log.specs.Terms.{List, ℕ, IfOk, is_ok, length, faults_after, Told, Passes};
ghost use Rattle.sz_log.specs.Terms.{Same, Said, bytes_at, is_kind, StandsAt, SpellsAt};
ghost use Rattle.sz_log.specs.Terms.{SpellsLength, SaysWhether, group_on, opened_with};

use sz_numbers::eight_at;
use sz_outside::{Failed, Station};

/// The kinds of group.
const KINDS: [u8; 6] = [1, 2, 3, 4, 5, 6];

/// How a log begins: an open gate and a title.
const HEADER: [u8; 16] = [
    1, 83, 117, 98, 90, 101, 114, 111, 32, 108, 111, 103, 32, 49, 13, 10,
];

/// What stands at a place of a log.
#[derive(Clone, Copy, Debug, Drop, PartialEq, Eq)]
pub enum Group {
    /// A closed gate.
    Closed,
    /// An open gate and a whole group: its kind, where its body begins, how many bytes it has, and
    /// the place of the next gate.
    Whole {
        kind: u8,
        body: u64,
        length: u64,
        next: u64,
    },
    /// No gate, or an open gate without a whole group of a known kind behind it.
    Bad,
}

/// Whether groups are of this kind.
pub fn is_kind(kind: u8) -> bool
    ensures { result ≡ is_kind kind }
{
    KINDS.contains(&kind)
}

/// Whether the disk begins as a log. Takes no memory.
pub fn is_log<T: Station>(station: &mut T) -> Result<bool, Failed>
    ensures answer { IfOk result (λ is_log. SaysWhether (T.disk station.old) is_log) }
    ensures counted { T.disk_faults station.new
        ≡ faults_after (T.disk_faults station.old) (is_ok result) }
    ensures disk { T.disk station.new ≡ T.disk station.old }
    ensures output { (T.said station.new ≡ T.said station.old)
        × (T.say_faults station.new ≡ T.say_faults station.old) }
    ensures stops { Told (T.disk station.old) (
        Passes (T.moment station.old) (T.moment station.new)
        (T.left_since station.old) (T.left_since station.new)
        (T.may_leave station.old) (T.may_leave station.new) Same (Said (T.said station.old))) }
{
    let mut front = [0; 16];
    let count = station.read_at(0, &mut front)?;
    Ok(front[..count] == HEADER[..])
}

/// What stands at a place of the disk. Takes no memory.
pub fn group_at<T: Station>(station: &mut T, at: u64) -> Result<Group, Failed>
    ensures group { IfOk result (λ group. StandsAt (T.disk station.old) at group) }
    ensures spelled { IfOk result (λ group. SpellsAt (T.disk station.old) at group) }
    ensures counted { T.disk_faults station.new
        ≡ faults_after (T.disk_faults station.old) (is_ok result) }
    ensures disk { T.disk station.new ≡ T.disk station.old }
    ensures output { (T.said station.new ≡ T.said station.old)
        × (T.say_faults station.new ≡ T.say_faults station.old) }
    ensures stops { Told (T.disk station.old) (
        Passes (T.moment station.old) (T.moment station.new)
        (T.left_since station.old) (T.left_since station.new)
        (T.may_leave station.old) (T.may_leave station.new) Same (Said (T.said station.old))) }
{
    let size = station.size()?;
    let mut head = [0; 10];
    let count = station.read_at(at, &mut head)?;
    Ok(group_of(at, &head[..count], size))
}

/// What stands at a place of a disk of this size, by the first ten bytes from there on, or as many
/// as there are.
fn group_of(at: u64, head: &[u8], size: u64) -> Group
    ensures group { (disk : List ℕ) → size ≡ length disk → head.now ≡ bytes_at disk at 10
        → result ≡ group_on disk at }
    ensures spelled { (disk : List ℕ) → head.now ≡ bytes_at disk at 10
        → SpellsLength disk at result }
{
    let [gate, ..] = head else {
        return Group::Bad;
    };
    if !is_open(*gate) {
        return Group::Closed;
    }
    if head.len() < 10 {
        return Group::Bad;
    }
    let length = eight_at(head, 2);
    group_with(at, head[1], length, size.saturating_sub(at))
}

/// Whether a gate is open.
fn is_open(gate: u8) -> bool
    ensures { result ≡ (gate == 1) }
{
    gate == 1
}

/// What stands at a place behind an open gate, by the kind and the length there, where so many
/// bytes are left on the disk from the gate on.
fn group_with(at: u64, kind: u8, length: u64, left: u64) -> Group
    requires { at + left < 2 ^ 64 }
    ensures { result ≡ opened_with at kind length left }
{
    if !is_kind(kind) || left < 10 || length > left - 10 {
        return Group::Bad;
    }
    let body = at + 10;
    Group::Whole {
        kind,
        body,
        length,
        next: body + length,
    }
}
