//! What no clause says of the one read and the one write that serve the real streams.
ghost use Rattle.sz_outside.specs.Terms.{not};

use crate::Failed;
use crate::streams::{Outlet, read_and_count, write_and_count};
use std::fs::{self, File};
use std::io;
use std::io::{ErrorKind, Read, Write};
use std::test::Fail;

/// The one read that serves standard input is shown on a file, of which the bytes are known, and on
/// a folder, which is a fault.
#[test]
fn the_real_input_is_read(rt: HostRuntime) -> Result<(), Fail> {
    let mut into = [7; 4];
    let path = "sz_outside_test_input";
    fs::write(&rt, path, b"lineage")?;
    let mut file = File::open(&rt, path)?;
    let mut faults = 0;
    assert_eq!(rt; read_and_count(&mut file, &mut faults, &mut into), Ok(4));
    assert_eq!(rt; into, *b"line");
    assert_eq!(rt; read_and_count(&mut file, &mut faults, &mut into), Ok(3));
    assert_eq!(rt; into, *b"agee");
    assert_eq!(rt; read_and_count(&mut file, &mut faults, &mut into), Ok(0));
    fs::remove_file(&rt, path)?;
    let mut folder = File::open(&rt, ".")?;
    assert_eq!(rt; faults, 0);
    assert_eq!(rt;
        read_and_count(&mut folder, &mut faults, &mut into),
        Err(Failed)
    );
    assert_eq!(rt; faults, 1);
    Ok(())
}

/// Breaks a call off by the next signal, or where there is none left, by the next broken pipe.
fn meet(signals: &mut u8, breaks: &mut u8) -> io::Result<()> {
    if *signals > 0 {
        *signals -= 1;
        return Err(io::Error::from(ErrorKind::Interrupted));
    }
    if *breaks > 0 {
        *breaks -= 1;
        return Err(io::Error::from(ErrorKind::BrokenPipe));
    }
    Ok(())
}

/// A reader of endless bytes, two at a time, whose next reads a signal breaks off, and the reads
/// behind them a broken pipe.
#[derive(Drop)]
struct Pipe {
    signals: u8,
    breaks: u8,
}

impl Read for Pipe {
    fn read(&mut self, into: &mut [u8]) -> io::Result<usize> {
        meet(&mut self.signals, &mut self.breaks)?;
        Ok(into.len().min(2))
    }
}

/// A writer that takes two bytes at a time until it has no room, whose next writes a signal breaks
/// off, and the writes behind them a broken pipe. It holds what it takes until it is flushed.
#[derive(Drop)]
struct Sink {
    signals: u8,
    breaks: u8,
    room: usize,
    is_stuck: bool,
    holds_some: bool,
}

impl Write for Sink {
    fn write(&mut self, bytes: &[u8]) -> io::Result<usize> {
        meet(&mut self.signals, &mut self.breaks)?;
        let count = bytes.len().min(2);
        if count > self.room {
            return Err(io::Error::from(ErrorKind::StorageFull));
        }
        self.room -= count;
        self.holds_some = true;
        Ok(count)
    }

    fn flush(&mut self) -> io::Result<()> {
        self.hand_on()
    }
}

impl Outlet for Sink {
    ghost holds_none = { λ sink. not sink.holds_some };

    fn hand_on(&mut self) -> io::Result<()> {
        if self.is_stuck {
            return Err(io::Error::from(ErrorKind::StorageFull));
        }
        self.holds_some = false;
        Ok(())
    }
}

/// A sink with this much room.
fn sink_with(room: usize) -> Sink {
    Sink {
        signals: 0,
        breaks: 0,
        room,
        is_stuck: false,
        holds_some: false,
    }
}

#[test]
fn a_read_that_a_signal_broke_off_is_tried_again(rt: HostRuntime) {
    let mut pipe = Pipe {
        signals: 2,
        breaks: 0,
    };
    let mut faults = 0;
    assert_eq!(rt; read_and_count(&mut pipe, &mut faults, &mut [0; 4]), Ok(2));
    assert_eq!(rt; pipe.signals, 0);
    assert_eq!(rt; faults, 0);
}

#[test]
fn the_first_fault_of_a_reader_is_answered_and_counted(rt: HostRuntime) {
    let mut pipe = Pipe {
        signals: 1,
        breaks: 1,
    };
    let mut faults = u64::MAX - 1;
    assert_eq!(rt;
        read_and_count(&mut pipe, &mut faults, &mut [0; 4]),
        Err(Failed)
    );
    assert_eq!(rt; pipe.breaks, 0);
    assert_eq!(rt; faults, u64::MAX);
    assert_eq!(rt; read_and_count(&mut pipe, &mut faults, &mut [0; 4]), Ok(2));
    assert_eq!(rt; faults, u64::MAX);
}

#[test]
fn the_first_fault_of_a_writer_is_answered_and_counted(rt: HostRuntime) {
    let mut sink = sink_with(4);
    sink.breaks = 1;
    let mut faults = 0;
    assert_eq!(rt;
        write_and_count(&mut sink, &mut faults, b"1234"),
        Err(Failed)
    );
    assert_eq!(rt; faults, 1);
    assert_eq!(rt; sink.room, 4);
    assert_eq!(rt; write_and_count(&mut sink, &mut faults, b"1234"), Ok(()));
    assert_eq!(rt; faults, 1);
    assert_eq!(rt; sink.room, 0);
}

#[test]
fn a_say_is_written_and_flushed(rt: HostRuntime) {
    let mut sink = sink_with(9);
    sink.signals = 3;
    let mut faults = 0;
    assert_eq!(rt; write_and_count(&mut sink, &mut faults, b"12345"), Ok(()));
    assert_eq!(rt; sink.signals, 0);
    assert_eq!(rt; sink.room, 4);
    assert!(rt; !sink.holds_some);
    assert_eq!(rt; faults, 0);
}

#[test]
fn a_write_that_fails_midway_is_counted(rt: HostRuntime) {
    let mut sink = sink_with(4);
    let mut faults = 0;
    assert_eq!(rt;
        write_and_count(&mut sink, &mut faults, b"12345"),
        Err(Failed)
    );
    assert_eq!(rt; sink.room, 0);
    assert_eq!(rt; faults, 1);
}

#[test]
fn a_flush_that_fails_is_counted(rt: HostRuntime) {
    let mut sink = sink_with(5);
    sink.is_stuck = true;
    let mut faults = 0;
    assert_eq!(rt;
        write_and_count(&mut sink, &mut faults, b"12345"),
        Err(Failed)
    );
    assert_eq!(rt; sink.room, 0);
    assert_eq!(rt; faults, 1);
}
