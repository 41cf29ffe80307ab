//! Writing at a place of the disk, and putting it where a stop leaves it.
ghost use Rattle.std.specs.Prelude.{◌≡◌, ◌≤◌, ◌<◌, ◌+◌, ◌^◌};
ghost use Rattle.sz_log.specs.Terms.{List, ℕ, Some, IfOk, OnOk, is_ok, length, None, KeepsOutput};
ghost use Rattle.sz_log.specs.Terms.{Steps, faults_after, Torn, Only, written};

use sz_outside::{Failed, Station};

/// Writes these bytes at a place of the disk, and says which place is behind them. Where the disk
/// is shorter they go to its end, since nothing can be written behind it.
pub fn write<T: Station>(station: &mut T, at: u64, bytes: &[u8]) -> Result<u64, Failed>
    ensures written { OnOk result ((d : List ℕ) → T.disk station.old ≡ Some d → at ≤ length d
        → T.disk station.new ≡ Some (written d at bytes.now)) }
    ensures untold { OnOk result (T.disk station.old ≡ None → T.disk station.new ≡ None) }
    ensures behind { IfOk result (λ behind. (d : List ℕ) → T.disk station.old ≡ Some d
        → at ≤ length d → behind ≡ at + length bytes.now) }
    ensures limit { OnOk result (length bytes.now < 2 ^ 62) }
    ensures counted { T.disk_faults station.new
        ≡ faults_after (T.disk_faults station.old) (is_ok result) }
    ensures output { KeepsOutput T.said T.say_faults station.old station.new }
    ensures stops { (d : List ℕ) → T.disk station.old ≡ Some d → at ≤ length d → Steps T.moment
        T.left_since T.may_leave T.said station.old station.new (Torn at (length bytes.now)) }
{
    let place = station.size()?.min(at);
    station.write_at(place, bytes)?;
    Ok(place + bytes.len() as u64)
}

/// Writes these bytes at a place of the disk, and puts them where a stop leaves them.
pub fn put<T: Station>(station: &mut T, at: u64, bytes: &[u8]) -> Result<(), Failed>
    ensures written { OnOk result ((d : List ℕ) → T.disk station.old ≡ Some d → at ≤ length d
        → T.disk station.new ≡ Some (written d at bytes.now)) }
    ensures untold { OnOk result (T.disk station.old ≡ None → T.disk station.new ≡ None) }
    ensures synced { OnOk result (Only (T.disk station.new) (T.may_leave station.new)) }
    ensures counted { T.disk_faults station.new
        ≡ faults_after (T.disk_faults station.old) (is_ok result) }
    ensures output { KeepsOutput T.said T.say_faults station.old station.new }
    ensures stops { (d : List ℕ) → T.disk station.old ≡ Some d → at ≤ length d → Steps T.moment
        T.left_since T.may_leave T.said station.old station.new (Torn at (length bytes.now)) }
{
    write(station, at, bytes)?;
    station.sync()
}
