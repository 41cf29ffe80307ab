//! Lines read and refused, with the running reader. Which number comes where is worked out line by
//! line in proofs/Rows*.antt.

use std::alloc::{AllocError, Global};
use sz_script::{LINE_LIMIT, LineFault, read_line, strategy_name, strategy_named};
use sz_spec::Strategy;

/// The number of the refusal of a line, and nothing where it is a command.
fn refused(alloc: Global, line: &[u8]) -> Option<u32> {
    match read_line(alloc, line) {
        Ok(_) => None,
        Err(LineFault::Refused(refusal)) => Some(refusal.printed().number),
        Err(LineFault::NoMemory) => Some(u32::MAX),
    }
}

/// Lines that refresh and merge. A cell that is set has three numbers, or four with its layer; the
/// last may be `null` and is an i64, any other is at least 0, and each is whole.
const FURTHER: [(&[u8], Option<u32>); 14] = [
    (br#"{"refresh":1,"input":0,"set":[]}"#, None),
    (
        br#"{"set":[[0,1,-9223372036854775808],[15,2,3,null]],"input":31,"refresh":9}"#,
        None,
    ),
    (br#"{"merge":4294967295}"#, None),
    (br#"{"merged":0}"#, None),
    (br#"{"refresh":1,"input":0,"set":[[0,0,1.0]]}"#, Some(3)),
    (
        br#"{"refresh":1,"input":0,"set":[[0,0,9223372036854775808]]}"#,
        Some(3),
    ),
    (br#"{"refresh":1,"input":0,"set":[[0,null,1]]}"#, Some(3)),
    (br#"{"refresh":1,"input":0,"set":[[0,-1,1]]}"#, Some(3)),
    (br#"{"refresh":1,"input":0,"set":[[0,0]]}"#, Some(3)),
    (br#"{"refresh":1,"input":0,"set":[[0,0,0,0,0]]}"#, Some(3)),
    (br#"{"refresh":1,"input":0}"#, Some(3)),
    (br#"{"refresh":1.0,"input":0,"set":[]}"#, Some(3)),
    (br#"{"merge":1,"merged":1}"#, Some(3)),
    (br#"{"merged":4294967296}"#, Some(3)),
];

/// A line of each form, and lines of which each breaks another rule.
const LINES: [(&[u8], Option<u32>); 16] = [
    (
        br#" {"cells": [[1,null],[-3,9223372036854775807]], "array": "\u0073ky_9"} "#,
        None,
    ),
    (br#"{"csv":"t","text":"1,,3\n4,5,6\n"}"#, None),
    (br#"{"layers":"a","cells":[[[1,2]],[[3,null]]]}"#, None),
    (
        br#"{"flow":"f","inputs":1,"nodes":[
        {"op":"convolve","kernel":[[0,-1,0]],"from":[{"i":0}]},
        {"op":"block","fold":"count","h":2,"w":3,"from":[{"n":0}]}]}"#,
        None,
    ),
    (br#"{"strategy":"f","node":3,"list":["full_one_b"]}"#, None),
    (br#"{"start":"minus","base":[["sky",4294967295]]}"#, None),
    (
        br#"{"plan":"f","base":[["a",1]],"units":65537,"back":0,"forward":4294967295}"#,
        None,
    ),
    (br#"{"await":"x","await":1}"#, None),
    (
        br#"{"ask":2,"dir":"forward","path":[[0,1]],"cells":[[3,4],[5,6,7]]}"#,
        None,
    ),
    (br#"{"explain":1,"dir":"back","path":[],"cells":[]}"#, None),
    (br#"{"show":1,"node":0}"#, None),
    (b"{\"await\":\"\xff\"}", Some(1)),
    (br#"{"start":"f","base":[["A",1]]}"#, Some(4)),
    (br#"{"array":"a","cells":[[1],[1,2]]}"#, Some(5)),
    (br#"{"csv":"t","text":"1,2\n3"}"#, Some(5)),
    (br#"{"flow":"f","inputs":1,"nodes":[]}"#, Some(8)),
];

/// The place of the first row whose line is read or refused otherwise.
fn first_other(alloc: Global, rows: &[(&[u8], Option<u32>)]) -> Option<usize> {
    rows.iter().position(|row| refused(alloc, row.0) != row.1)
}

#[test]
fn lines_are_read_or_refused(rt: HostRuntime) {
    assert_eq!(rt; first_other(rt.alloc(), &LINES), None);
    assert_eq!(rt; first_other(rt.alloc(), &FURTHER), None);
}

#[test]
fn strategies_have_names(rt: HostRuntime) {
    assert_eq!(rt; strategy_name(Strategy::PayMany), "pay_many");
    assert!(rt; strategy_named("blackbox") == Some(Strategy::BlackBox));
}

/// Adds a text so many times.
fn push_each_time(line: &mut Vec<u8>, times: u32, text: &[u8]) -> Result<(), AllocError> {
    for _ in 0..times {
        line.extend_from_slice(text)?;
    }
    Ok(())
}

/// Adds rows of so many zeros, each with a text behind it.
fn push_rows(line: &mut Vec<u8>, rows: u32, cols: u32, end: &[u8]) -> Result<(), AllocError> {
    for _ in 0..rows {
        push_each_time(line, cols.saturating_sub(1), b"0,")?;
        line.extend_from_slice(end)?;
    }
    Ok(())
}

/// Adds an array of so many rows of so many zeros, the last cell being this text.
fn push_zeros(line: &mut Vec<u8>, rows: u32, cols: u32, last: &str) -> Result<(), AllocError> {
    push_rows(line, rows.saturating_sub(1), cols, b"0],[")?;
    push_rows(line, 1, cols, last.as_bytes())
}

/// The number of the refusal of a line that holds an array of so many rows of so many zeros, the
/// last cell being this text.
fn refused_zeros(
    alloc: Global,
    rows: u32,
    cols: u32,
    last: &str,
) -> Result<Option<u32>, AllocError> {
    let mut line = Vec::from_slice(alloc, br#"{"array":"a","cells":[["#)?;
    push_zeros(&mut line, rows, cols, last)?;
    line.extend_from_slice(b"]]}")?;
    Ok(refused(alloc, &line))
}

#[test]
fn cells_are_too_many_where_none_is_bad(rt: HostRuntime) {
    let alloc = rt.alloc();
    assert!(rt; refused_zeros(alloc, 1_024, 1_024, "0") == Ok(None));
    assert!(rt; refused_zeros(alloc, 1_025, 1_024, "0") == Ok(Some(6)));
    assert!(rt; refused_zeros(alloc, 1_025, 1_024, "-0") == Ok(Some(5)));
    assert!(rt; refused_zeros(alloc, 1, 1_048_577, "0") == Ok(Some(6)));
}

/// The number of the refusal of a line that holds a comma-separated text of so many records of so
/// many zeros, the last field being this text.
fn refused_text(
    alloc: Global,
    rows: u32,
    cols: u32,
    last: &str,
) -> Result<Option<u32>, AllocError> {
    let mut line = Vec::from_slice(alloc, br#"{"csv":"t","text":""#)?;
    push_rows(&mut line, rows.saturating_sub(1), cols, br"0\n")?;
    push_rows(&mut line, 1, cols, last.as_bytes())?;
    line.extend_from_slice(br#""}"#)?;
    Ok(refused(alloc, &line))
}

#[test]
fn a_text_has_as_many_fields_as_an_array(rt: HostRuntime) {
    assert!(rt; refused_text(rt.alloc(), 1_024, 1_024, "-0") == Ok(None));
    assert!(rt; refused_text(rt.alloc(), 1_048_577, 1, "0") == Ok(Some(6)));
}

/// The number of the refusal of a line that is blanks up to the limit, and then this text.
fn refused_long(alloc: Global, behind: &[u8]) -> Result<Option<u32>, AllocError> {
    let mut line = Vec::with_capacity(alloc, LINE_LIMIT + 1)?;
    line.extend_from_slice(br#"{"await":1}"#)?;
    line.resize(LINE_LIMIT, b' ')?;
    line.extend_from_slice(behind)?;
    Ok(refused(alloc, &line))
}

#[test]
fn a_line_is_as_long_as_the_limit(rt: HostRuntime) {
    assert!(rt; refused_long(rt.alloc(), b"") == Ok(None));
    assert!(rt; refused_long(rt.alloc(), b" ") == Ok(Some(2)));
    assert!(rt; refused_long(rt.alloc(), b"x") == Ok(Some(2)));
}
