//! The greatest array, and as many cells as are held, with memory to spare: a body that gives up on
//! them is refused by no clause.
use super::play::session;
use std::alloc::{AllocError, Global};
use std::fmt::Write;
use std::sync::Wait;
use std::test::Fail;
use std::thread::Threads;

/// The rows, and the columns, of an array of 1,048,576 cells.
const SIDE: u32 = 1_024;

/// The line of the greatest array, each of whose cells holds 0.
fn array_line(alloc: Global) -> Result<String, AllocError> {
    let zeros = ",0".repeat(alloc, 1_023)?;
    let row = format!(in alloc; ",[0{zeros}]")?;
    let rows = row.repeat(alloc, 1_023)?;
    format!(in alloc; "{{\"array\":\"a\",\"cells\":[[0{zeros}]{rows}]}}\n")
}

/// Appends each cell of the array: behind a text, with a text between row and column, and with a
/// text behind it.
fn push_cells(text: &mut String, before: &str, between: &str, behind: &str) -> Result<(), Fail> {
    for row in 0..SIDE {
        for col in 0..SIDE {
            write!(text, "{before}{row}{between}{col}{behind}")?;
        }
    }
    Ok(())
}

/// Lines that negate an array `a`: a flow, and its start.
const NEGATED: &str =
    "{\"flow\":\"f\",\"inputs\":1,\"nodes\":[{\"op\":\"neg\",\"from\":[{\"i\":0}]}]}
{\"start\":\"f\",\"base\":[[\"a\",1]]}
";

/// The greatest array, negated, and an ask of every cell.
fn asked_text(alloc: Global) -> Result<String, Fail> {
    let mut text = array_line(alloc)?;
    text.push_str(NEGATED)?;
    text.push_str("{\"ask\":1,\"dir\":\"back\",\"path\":[[0,0]],\"cells\":[[0,0]")?;
    push_cells(&mut text, ",[", ",", "]")?;
    text.push_str("]}\n")?;
    Ok(text)
}

/// What is replied.
fn asked_replies(alloc: Global) -> Result<String, Fail> {
    let front = "1 array a 1\n2 flow f\n3 started 1\n4 cells 1048576";
    let mut replies = String::from_str(alloc, front)?;
    push_cells(&mut replies, " ", ",", "")?;
    replies.push('\n')?;
    Ok(replies)
}

/// Whether these replies are said of a text.
fn is_said<R: Threads + Wait + Clone + Send + Sync + 'static>(
    rt: &R,
    alloc: Global,
    text: String,
    replies: &str,
) -> Result<bool, Fail> {
    let played = session(rt, alloc, text.into_bytes(), 65_536, &[], &[])?;
    Ok(played.is_done(replies.as_bytes()))
}

#[test]
fn every_cell_of_the_greatest_array_is_asked(rt: HostRuntime) -> Result<(), Fail> {
    let replies = asked_replies(rt.alloc())?;
    let text = asked_text(rt.alloc())?;
    assert!(rt; is_said(&rt, rt.alloc(), text, &replies)?);
    Ok(())
}

/// The most cells of an array.
const CELLS: usize = 1_048_576;

/// The line of an array `a` of one row of so many zeros.
fn row_line(alloc: Global, cells: usize) -> Result<String, AllocError> {
    let zeros = ",0".repeat(alloc, cells.saturating_sub(1))?;
    format!(in alloc; "{{\"array\":\"a\",\"cells\":[[0{zeros}]]}}\n")
}

/// Four arrays of the most cells, one of one more, the negation of one, and an array of one cell.
fn full_text(alloc: Global) -> Result<String, Fail> {
    let mut text = row_line(alloc, CELLS)?.repeat(alloc, 4)?;
    text.push_str(&row_line(alloc, CELLS + 1)?)?;
    text.push_str(NEGATED)?;
    text.push_str("{\"array\":\"a\",\"cells\":[[0]]}\n")?;
    Ok(text)
}

/// Four arrays of the most cells are as many as are held: there is no room for the output of a
/// version, nor for an array of one cell. No row has more cells.
const FULL_REPLIES: &str = "1 array a 1\n2 array a 2\n3 array a 3\n4 array a 4\n\
    5 refused 6\n6 flow f\n7 refused 14\n8 refused 7\n";

#[test]
fn held_cells_leave_no_room_for_more(rt: HostRuntime) -> Result<(), Fail> {
    let text = full_text(rt.alloc())?;
    assert!(rt; is_said(&rt, rt.alloc(), text, FULL_REPLIES)?);
    Ok(())
}
