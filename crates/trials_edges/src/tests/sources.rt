//! Each form of a source once on its happy path, through its trait, and a gate that holds nobody.
ghost use Rattle.std.specs.Prelude.{◌≤◌, length, IfOk};

use std::test::Fail;
use sz_outside::{Failed, Gate, MemSource, NoGate, Source, StdinSource, SteadySource};

fn read_from<S: Source>(source: &mut S, into: &mut [u8]) -> Result<usize, Failed>
    ensures { IfOk result (λ n. n ≤ length into.new) }
{
    source.read(into)
}

pub(crate) fn need_send<T: Send>(_value: &T) {}

/// Whether a source gives these bytes where there is room for so many.
fn gives<S: Source>(source: &mut S, room: &mut [u8], bytes: &[u8]) -> bool {
    match read_from(source, room) {
        Ok(count) => &room[..count] == bytes,
        Err(Failed) => false,
    }
}

/// Whether a source gives seven bytes by three at most, fewer where there is room for fewer, and
/// then none.
fn gives_in_pieces<S: Source>(source: &mut S) -> bool {
    gives(source, &mut [0; 8], b"lin")
        && gives(source, &mut [0; 2], b"ea")
        && gives(source, &mut [0; 8], b"ge")
        && gives(source, &mut [0; 8], b"")
}

#[test]
fn a_source_gives_its_bytes_in_pieces(rt: HostRuntime) -> Result<(), Fail> {
    let alloc = rt.alloc();
    let mut source = MemSource::new(b"lineage".to_vec(alloc)?, 3, Vec::new(alloc));
    need_send(&source);
    assert!(rt; gives_in_pieces(&mut source));
    Ok(())
}

/// How a reading ends, and what the room for its bytes then holds.
type Reading = (Result<usize, Failed>, [u8; 4]);

/// Whether readings into the same room end so, one after the other.
fn reads_each<S: Source>(source: &mut S, readings: &[Reading]) -> bool {
    let mut into = [0; 4];
    for (count, held) in readings {
        if read_from(source, &mut into) != *count || into != *held {
            return false;
        }
    }
    true
}

/// Readings of four bytes by two, of which the second and the third fail.
const FAILING: [Reading; 4] = [
    (Ok(2), *b"ab\0\0"),
    (Err(Failed), *b"ab\0\0"),
    (Err(Failed), *b"ab\0\0"),
    (Ok(2), *b"cd\0\0"),
];

#[test]
fn a_read_that_fails_takes_no_byte(rt: HostRuntime) -> Result<(), Fail> {
    let alloc = rt.alloc();
    let fails = [2, 3].to_vec(alloc)?;
    let mut source = MemSource::new(b"abcd".to_vec(alloc)?, 2, fails);
    assert!(rt; reads_each(&mut source, &FAILING));
    Ok(())
}

/// Readings of two bytes one at a time, and of none behind them.
const STEADY: [Reading; 3] = [
    (Ok(1), *b"o\0\0\0"),
    (Ok(1), *b"k\0\0\0"),
    (Ok(0), *b"k\0\0\0"),
];

#[test]
fn a_steady_source_gives_one_byte_at_a_time(rt: HostRuntime) -> Result<(), Fail> {
    let mut source = SteadySource::new(b"ok".to_vec(rt.alloc())?, 1);
    need_send(&source);
    assert!(rt; reads_each(&mut source, &STEADY));
    Ok(())
}

/// What standard input holds in a test is not known, and a read might wait for it: so it is asked
/// for no byte, which shows only that a source over it is made and can be read.
#[test]
fn the_real_input_is_asked_for_nothing(rt: HostRuntime) {
    let mut source = StdinSource::new(&rt);
    need_send(&source);
    let mut into = [7; 4];
    assert_eq!(rt; read_from(&mut source, &mut into[..0]), Ok(0));
    assert_eq!(rt; into, [7; 4]);
}

fn call_gate<G: Gate>(gate: &G) {
    gate.at_piece(1, 0, 3);
    gate.after_ask(7);
}

#[test]
fn no_gate_holds_nobody() {
    call_gate(&NoGate);
}
