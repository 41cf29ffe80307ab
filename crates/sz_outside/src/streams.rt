//! One read and one say of a stream, for any reader and any writer, with the count of their faults.
//!
//! A read or a write that a signal broke off is tried again. Any other fault of the stream is
//! counted and answered as one; the end of the input is no fault.
ghost use Rattle.std.specs.Prelude.{◌≡◌, ◌≢◌, ◌≤◌};
ghost use Rattle.sz_outside.specs.Terms.{Bool, true, length, is_ok, Ok, IsTrue, IsErr, IfOk, IfErr};
ghost use Rattle.sz_outside.specs.Terms.{OnOk, OnErr, error_kind, KeepsKnown, Gives, Keeps, Says};
ghost use Rattle.sz_outside.specs.Terms.{SaysPart, faults_after};

use crate::Failed;
use std::io::{self, ErrorKind, Read, Stdout, Write};

/// Reads the next bytes, at most as many as `into` has room for. A fault is counted.
pub(crate) fn read_and_count<R: Read>(
    reader: &mut R,
    faults: &mut u64,
    into: &mut [u8],
) -> Result<usize, Failed>
    ensures bound { IfOk result (λ n. n ≤ length into.new) }
    ensures bytes { IfOk result (λ n.
        Gives (R.remaining reader.old) (R.remaining reader.new) into.new n) }
    ensures kept { OnErr result (Keeps (R.remaining reader.old) (R.remaining reader.new)) }
    ensures counted { faults.new ≡ faults_after faults.old (is_ok result) }
    ensures rises { faults.old ≤ faults.new }
{
    let given = retry_read(reader, into);
    count_fault(given, faults)
}

/// Writes all of the bytes and hands them on. A fault is counted, and then a part of them from the
/// front was written.
pub(crate) fn write_and_count<W: Outlet>(
    writer: &mut W,
    faults: &mut u64,
    bytes: &[u8],
) -> Result<(), Failed>
    ensures said { OnOk result (Says (W.contents writer.old) (W.contents writer.new) bytes.now) }
    ensures part { OnErr result
        (SaysPart (W.contents writer.old) (W.contents writer.new) bytes.now) }
    ensures sent { OnOk result (IsTrue (W.holds_none writer.new)) }
    ensures counted { faults.new ≡ faults_after faults.old (is_ok result) }
    ensures rises { faults.old ≤ faults.new }
{
    let written = write_out(writer, bytes);
    count_fault(written, faults)
}

/// A writer of which a clause can say that it holds no byte back. Nothing is said of what the flush
/// of std's `Write` does, so no clause over it could ask for one.
pub trait Outlet: Write {
    ghost holds_none: { Self → Bool };

    /// Hands on all bytes that the writer held back.
    fn hand_on(&mut self) -> io::Result<()>
        ensures kept { KeepsKnown (Self.contents self.old) (Self.contents self.new) }
        ensures sent { OnOk result (IsTrue (holds_none self.new)) };
}

/// Standard output holds nothing back.
impl Outlet for Stdout {
    ghost holds_none = { λ _. true };

    fn hand_on(&mut self) -> io::Result<()> {
        self.flush()
    }
}

/// One read, tried again where a signal broke it off.
fn retry_read<R: Read>(reader: &mut R, into: &mut [u8]) -> io::Result<usize>
    ensures bound { IfOk result (λ n. n ≤ length into.new) }
    ensures bytes { IfOk result (λ n.
        Gives (R.remaining reader.old) (R.remaining reader.new) into.new n) }
    ensures kept { OnErr result (Keeps (R.remaining reader.old) (R.remaining reader.new)) }
    ensures retried { IfErr result (λ fault. error_kind fault ≢ ErrorKind.Interrupted) }
{
    // Nothing says that signals ever end, and each function must: so the tries are counted.
    'tries: for _ in 0..u64::MAX {
        match reader.read(into) {
            Ok(count) => return Ok(count),
            Err(fault) if fault.kind() == ErrorKind::Interrupted => {}
            Err(fault) => return Err(fault),
        }
    }
    Err(ErrorKind::TimedOut.into())
}

/// The outcome of a call of a stream, whose fault is counted.
pub(crate) fn count_fault<T>(outcome: io::Result<T>, faults: &mut u64) -> Result<T, Failed>
    ensures value { IfOk outcome (λ x. result ≡ Ok x) }
    ensures fault { OnErr outcome (IsErr result) }
    ensures counted { faults.new ≡ faults_after faults.old (is_ok outcome) }
    ensures rises { faults.old ≤ faults.new }
{
    match outcome {
        Ok(value) => Ok(value),
        Err(_) => {
            *faults = faults.saturating_add(1);
            Err(Failed)
        }
    }
}

/// Writes all of the bytes and hands them on.
fn write_out<W: Outlet>(writer: &mut W, bytes: &[u8]) -> io::Result<()>
    ensures said { OnOk result (Says (W.contents writer.old) (W.contents writer.new) bytes.now) }
    ensures part { OnErr result
        (SaysPart (W.contents writer.old) (W.contents writer.new) bytes.now) }
    ensures sent { OnOk result (IsTrue (W.holds_none writer.new)) }
{
    write_bytes(writer, bytes)?;
    writer.hand_on()
}

/// Writes all of the bytes, in as many writes as the writer takes, each tried again where a signal
/// broke it off.
fn write_bytes<W: Write>(writer: &mut W, bytes: &[u8]) -> io::Result<()>
    ensures said { OnOk result (Says (W.contents writer.old) (W.contents writer.new) bytes.now) }
    ensures part { OnErr result
        (SaysPart (W.contents writer.old) (W.contents writer.new) bytes.now) }
    ensures retried { IfErr result (λ fault. error_kind fault ≢ ErrorKind.Interrupted) }
{
    let mut written = 0;
    // Nothing says that signals ever end, and each function must: so the writes are counted.
    'writes: for _ in 0..u64::MAX {
        if written == bytes.len() {
            return Ok(());
        }
        match writer.write(&bytes[written..]) {
            Ok(0) => return Err(ErrorKind::WriteZero.into()),
            Ok(count) => written += count,
            Err(fault) if fault.kind() == ErrorKind::Interrupted => {}
            Err(fault) => return Err(fault),
        }
    }
    Err(ErrorKind::TimedOut.into())
}
