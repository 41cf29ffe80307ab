//! Reading the entries of a store, and judging the table of payloads in its bytes.

ghost use Rattle.std.specs.Prelude.{◌≡◌, ◌≤◌, ◌+◌};
ghost use Rattle.sz_payload.specs.Terms.{ℕ, List, length, true, false, IfOk, IfErr, slice_range};
ghost use Rattle.sz_payload.specs.Terms.{number_at, has_mapping, entries, AreLawful};
ghost use Rattle.sz_payload.specs.Terms.{BeginsPayloads, IsTableAt, SaysNoPayloads};

use crate::runs::number_at;
use crate::table::is_payload;
use std::alloc::Global;
use sz_region::Take;
use sz_spec::OpAt;
use sz_tables::EntryTable;

/// The table of the entries of the operator's store that begins at a place, and the place behind
/// it. `Bad` exactly where none begins there.
pub(crate) fn take_lawful(
    alloc: Global,
    at: &OpAt,
    bytes: &[u8],
    from: u64,
) -> Result<(EntryTable, u64), Take>
    requires { has_mapping at.now.op ≡ false }
    ensures ok { IfOk result (λ r. BeginsPayloads at.now bytes.now from r.1 (entries r.0)) }
    ensures out { IfOk result (λ r. r.0.out ≡ at.now.out) }
    ensures lawful { IfOk result (λ r. AreLawful at.now r.0.payloads) }
    ensures within { IfOk result (λ r. r.1 ≤ length bytes.now) }
    ensures err { IfErr result (λ e. SaysNoPayloads at.now bytes.now from e) }
{
    match EntryTable::take_bytes(alloc, at.out(), bytes, from) {
        Ok(taken) => {
            if are_lawful(at, bytes, from) {
                Ok(taken)
            } else {
                Err(Take::Bad { at: from })
            }
        }
        Err(fault) => Err(fault),
    }
}

/// Whether each payload of the table that begins at a place is one of the operator. Takes time in
/// the number of its bytes, and no memory.
fn are_lawful(at: &OpAt, bytes: &[u8], from: u64) -> bool
    requires op { has_mapping at.now.op ≡ false }
    requires table { (payloads : List (List ℕ)) × (rest : List ℕ)
        × IsTableAt bytes.now from payloads rest }
    ensures yes { result ≡ true → (payloads : List (List ℕ)) (rest : List ℕ)
        → IsTableAt bytes.now from payloads rest → AreLawful at.now payloads }
    ensures no { result ≡ false → (payloads : List (List ℕ)) (rest : List ℕ)
        → IsTableAt bytes.now from payloads rest → AreLawful at.now payloads → ⊥ }
{
    let count = number_at(bytes, from as usize);
    let mut place = from as usize + 4;
    for _index in 0..count {
        let payload = payload_at(bytes, place);
        place += 4 + payload.len();
        if !is_payload(at, payload) {
            return false;
        }
    }
    true
}

/// The bytes of the payload whose length begins at a place.
fn payload_at(bytes: &[u8], place: usize) -> &[u8]
    requires { place + 4 + number_at bytes.now place ≤ length bytes.now }
    ensures value { let start = place + 4 in
        result.now ≡ slice_range bytes.now start (start + number_at bytes.now place) }
    ensures long { length result.now ≡ number_at bytes.now place }
{
    let start = place + 4;
    let long = number_at(bytes, place) as usize;
    &bytes[start..start + long]
}
