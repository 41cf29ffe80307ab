//! Which exit number the words and the session give, and what is printed for each status.
use crate::ending::{ErrorLine, end, line_of};
use crate::running::run;
use crate::words::status_of_fault;
use std::alloc::Global;
use std::cell::Cell;
use std::fmt::Display;
use std::io::{Eprint, Error, ErrorKind, Result};
use std::process::ExitCode;
use std::sync::Wait;
use std::test::Fail;
use std::thread::Threads;
use sz_outside::{MemSource, MemStation};
use sz_session::Status;

/// Whether a status has this number and this line.
fn has_ending(status: Status, number: u8, text: &'static str) -> bool {
    let line = ErrorLine { text, place: None };
    status.number() == number && line_of(status) == line
}

#[test]
fn each_status_has_its_number_and_its_line(rt: HostRuntime) {
    assert!(rt; has_ending(Status::Done, 0, ""));
    assert!(rt;
        has_ending(
            Status::Usage,
            1,
            "usage: subzero MODE [PLACE] [--workers N] [--askers N] [--seed N] [--side N]"
        )
    );
    assert!(rt; has_ending(Status::ReadFault, 2, "subzero: reading the session failed"));
    assert!(rt; has_ending(Status::SayFault, 3, "subzero: writing a reply failed"));
    assert!(rt; has_ending(Status::DiskFault, 4, "subzero: the log's file failed"));
    assert!(rt; has_ending(Status::NotALog, 5, "subzero: not a log"));
    assert!(rt; has_ending(Status::AlreadyALog, 6, "subzero: already a log"));
    let bad = ErrorLine {
        text: "subzero: bad log at",
        place: Some(54),
    };
    assert!(rt; line_of(Status::BadLog { at: 54 }) == bad);
    assert_eq!(rt; Status::BadLog { at: 54 }.number(), 7);
    assert!(rt; has_ending(Status::NoMemory, 8, "subzero: out of memory"));
    assert!(rt; has_ending(Status::InputLimit, 9, "subzero: the session is too long"));
    assert_eq!(rt;
        status_of_fault(&Error::from(ErrorKind::InvalidData)),
        Status::Usage
    );
    assert_eq!(rt;
        status_of_fault(&Error::from(ErrorKind::OutOfMemory)),
        Status::NoMemory
    );
}

/// Keeps what is printed on it.
#[derive(Drop)]
struct Paper {
    alloc: Global,
    text: Cell<String>,
}

impl Eprint for Paper {
    fn eprint<D: Display + Drop>(&self, value: D) -> Result<()> {
        let before = self.text.replace(String::new(self.alloc));
        self.text.set(format!(in self.alloc; "{before}{value}")?);
        Ok(())
    }

    fn eprintln<D: Display + Drop>(&self, value: D) -> Result<()> {
        self.eprint(value)?;
        self.eprint("\n")
    }
}

#[test]
fn an_end_prints_its_line_where_it_has_one(rt: HostRuntime) {
    let alloc = rt.alloc();
    let text = Cell::new(String::new(alloc));
    let paper = Paper { alloc, text };
    assert!(rt; end(&paper, Status::Done) == ExitCode::from(0));
    assert!(rt; end(&paper, Status::ReadFault) == ExitCode::from(2));
    assert!(rt; end(&paper, Status::BadLog { at: 53 }) == ExitCode::from(7));
    assert_eq!(rt;
        paper.text.into_inner().as_str(),
        "subzero: reading the session failed\nsubzero: bad log at 53\n"
    );
}

/// The exit number for the program's name and this word behind it, where one is given, over a line
/// that is no JSON. The reads and the says of these numbers fail.
fn ends<R: Eprint + Threads + Wait + Clone + Send + Sync + 'static>(
    rt: &R,
    alloc: Global,
    words: &[&str],
    read_fails: &[u64],
    say_fails: &[u64],
) -> std::result::Result<ExitCode, Fail> {
    let mut args = vec![in alloc; String::from_str(alloc, "subzero")?]?;
    for word in words {
        args.push(String::from_str(alloc, word)?)?;
    }
    let mut source = MemSource::new(b"{\n".to_vec(alloc)?, 2, read_fails.to_vec(alloc)?);
    let says = say_fails.to_vec(alloc)?;
    let mut station = MemStation::new(alloc, Vec::new(alloc), Vec::new(alloc), says)?;
    let args = Ok(args.into_iter());
    Ok(run(rt, alloc, args, &mut source, &mut station))
}

#[test]
fn words_and_sessions_give_their_exit_numbers(rt: HostRuntime) -> std::result::Result<(), Fail> {
    let alloc = rt.alloc();
    assert!(rt; ends(&rt, alloc, &["play"], &[], &[])? == ExitCode::from(0));
    assert!(rt; ends(&rt, alloc, &["play"], &[1], &[])? == ExitCode::from(2));
    assert!(rt; ends(&rt, alloc, &["play"], &[], &[1])? == ExitCode::from(3));
    assert!(rt; ends(&rt, alloc, &[], &[], &[])? == ExitCode::from(1));
    assert!(rt; ends(&rt, alloc, &["load", "--side", "1"], &[1], &[])? == ExitCode::from(0));
    assert!(rt; ends(&rt, alloc, &["load", "--side", "1"], &[], &[1])? == ExitCode::from(3));
    assert!(rt; ends(&rt, alloc, &["load", "--side", "0"], &[], &[])? == ExitCode::from(1));
    assert!(rt; ends(&rt, alloc, &["run", "x"], &[], &[])? == ExitCode::from(5));
    assert!(rt; ends(&rt, alloc, &["check", "x"], &[], &[])? == ExitCode::from(5));
    assert!(rt; ends(&rt, alloc, &["upgrade", "x"], &[], &[])? == ExitCode::from(5));
    assert!(rt; ends(&rt, alloc, &["upgrade"], &[], &[])? == ExitCode::from(1));
    assert!(rt; ends(&rt, alloc, &["play", "x"], &[], &[])? == ExitCode::from(1));
    assert!(rt; ends(&rt, alloc, &["x", "play"], &[], &[])? == ExitCode::from(1));
    Ok(())
}
