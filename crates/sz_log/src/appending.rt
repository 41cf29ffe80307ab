//! Adding a group to a log.
ghost use Rattle.std.specs.Prelude.{◌≡◌, ◌≤◌, ◌<◌, ◌+◌, ◌^◌, ◌++◌, ◌∷◌};
ghost use Rattle.sz_log.specs.Terms.{[], List, ℕ, Some, true, IfOk, OnOk, is_ok, length, None, w64};
ghost use Rattle.sz_log.specs.Terms.{to_be_bytes, KeepsOutput, Steps, faults_after, Told, Passes};
ghost use Rattle.sz_log.specs.Terms.{Said, Only, HasPlace, Writes, written, LogGroup, EndsAt};
ghost use Rattle.sz_log.specs.Terms.{is_kind, bytes_behind_gate, group_bytes, Added, AddsOrKeeps};
ghost use Rattle.sz_log.specs.Terms.{KeepsFront, place_behind};

use crate::LogEnd;
use crate::writing::{put, write};
use sz_numbers::eight_bytes;
use sz_outside::{Failed, Station};

/// Adds a group at the end of a log, and says where the log ends then. Takes no memory.
///
/// At every moment a stop leaves the log without the group or with it whole, and after `Ok` with
/// it. After `Failed` the log must be opened again.
pub fn append<T: Station>(
    station: &mut T,
    end: LogEnd,
    kind: u8,
    body: &[u8],
) -> Result<LogEnd, Failed>
    requires log { EndsAt (T.disk station.old) end.at }
    requires synced { Only (T.disk station.old) (T.may_leave station.old) }
    requires kind { is_kind kind ≡ true }

    // The group stands in the place of the closed gate, and a closed gate behind it.
    ensures written { OnOk result (Writes (T.disk station.old) (T.disk station.new) end.at
        (group_bytes (record { kind = kind; body = body.now }) ++ 0 ∷ [])) }
    // So the log has it behind its others.
    ensures added { OnOk result (Added (T.disk station.old) (T.disk station.new) end.at
        (record { kind = kind; body = body.now })) }
    ensures end { IfOk result (λ next. Told (T.disk station.old)
        (next.at ≡ place_behind end.at (record { kind = kind; body = body.now }))) }
    // No write is pending.
    ensures synced { OnOk result (Only (T.disk station.new) (T.may_leave station.new)) }
    ensures counted { T.disk_faults station.new
        ≡ faults_after (T.disk_faults station.old) (is_ok result) }
    ensures output { (T.said station.new ≡ T.said station.old)
        × (T.say_faults station.new ≡ T.say_faults station.old) }
    // At every moment the log is without the group, or has it whole.
    ensures stops { Told (T.disk station.old) (
        Passes (T.moment station.old) (T.moment station.new)
        (T.left_since station.old) (T.left_since station.new)
        (T.may_leave station.old) (T.may_leave station.new)
        (AddsOrKeeps end.at (record { kind = kind; body = body.now }))
        (Said (T.said station.old))) }
{
    station.size()?; // it is a number of the type, and so is a place behind a byte of the disk
    let next = stage(station, end.at.saturating_add(1), kind, body)?;
    put(station, end.at, &[1])?;
    Ok(LogEnd { at: next })
}

/// Writes a group at a place behind its gate, and a closed gate behind it, and puts them where a
/// stop leaves them. Says where the closed gate stands.
fn stage<T: Station>(station: &mut T, at: u64, kind: u8, body: &[u8]) -> Result<u64, Failed>
    requires place { HasPlace (T.disk station.old) at }
    ensures written { OnOk result ((d : List ℕ) → T.disk station.old ≡ Some d → at ≤ length d
        → T.disk station.new ≡ Some (written d at
        (bytes_behind_gate (record { kind = kind; body = body.now }) ++ 0 ∷ []))) }
    ensures untold { OnOk result (T.disk station.old ≡ None → T.disk station.new ≡ None) }
    ensures gate { IfOk result (λ gate. (d : List ℕ) → T.disk station.old ≡ Some d
        → at ≤ length d → gate ≡ at + 9 + length body.now) }
    ensures limit { OnOk result (length body.now < 2 ^ 62) }
    ensures synced { OnOk result (Only (T.disk station.new) (T.may_leave station.new)) }
    ensures counted { T.disk_faults station.new
        ≡ faults_after (T.disk_faults station.old) (is_ok result) }
    ensures output { KeepsOutput T.said T.say_faults station.old station.new }
    ensures stops { (d : List ℕ) → T.disk station.old ≡ Some d → at ≤ length d
        → Steps T.moment T.left_since T.may_leave T.said station.old station.new (KeepsFront at) }
{
    station.write_at(at, &head_of(kind, body.len() as u64))?;
    let gate = write(station, at + 9, body)?;
    put(station, gate, &[0])?;
    Ok(gate)
}

/// The bytes of a kind and of a length.
fn head_of(kind: u8, length: u64) -> [u8; 9]
    ensures { result ≡ kind ∷ to_be_bytes w64 length }
{
    let [a, b, c, d, e, f, g, h] = eight_bytes(length);
    [kind, a, b, c, d, e, f, g, h]
}
