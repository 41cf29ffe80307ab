//! Logs that are opened again: what was asked before is answered alike.
use super::ended::{first_lines, log_of, served_by};
use super::rows::{Row, STARS};
use std::alloc::Global;
use std::sync::Wait;
use std::test::Fail;
use std::thread::Threads;
use sz_session::Status;

/// How many lines of the row stand before those that ask, and how many with these.
const BEFORE_ASKS: usize = 8;

const WITH_ASKS: usize = 13;

/// Lines on the version that was not awaited, a second await, and a start.
const MORE: &[u8] = b"{\"ask\":2,\"dir\":\"back\",\"path\":[[3,0]],\"cells\":[[0,1]]}
{\"explain\":2,\"dir\":\"back\",\"path\":[[3,0]],\"cells\":[[0,1]]}
{\"show\":2,\"node\":3}
{\"await\":2}
{\"await\":1}
{\"start\":\"stars\",\"base\":[[\"sky\",1]]}
";

/// Their replies: the version is gone, and its number is taken again.
const MORE_REPLIES: &[u8] = b"14 refused 15
15 refused 15
16 refused 15
17 refused 15
18 done 1
19 started 2
";

/// A part of a text: the lines behind so many ones, up to so many, and others behind these.
fn part(alloc: Global, text: &[u8], more: &[u8]) -> Result<Vec<u8>, Fail> {
    let front = first_lines(text, BEFORE_ASKS).len();
    let asks = first_lines(text, WITH_ASKS).get(front..).unwrap_or(b"");
    let mut part = asks.to_vec(alloc)?;
    part.extend_from_slice(more)?;
    Ok(part)
}

/// The asks of the row behind blank lines, so that each has its number again, and the other lines.
fn asks_again(alloc: Global, row: &Row) -> Result<Vec<u8>, Fail> {
    let mut text = vec![in alloc; b'\n'; BEFORE_ASKS]?;
    text.extend_from_slice(&part(alloc, row.text, MORE)?)?;
    Ok(text)
}

/// What asks are, and what is replied to them.
#[derive(Drop)]
struct Asks {
    text: Vec<u8>,
    replies: Vec<u8>,
}

/// The asks of the row again, and the other lines.
fn asks_of(alloc: Global, row: &Row) -> Result<Asks, Fail> {
    let text = asks_again(alloc, row)?;
    let replies = part(alloc, row.replies, MORE_REPLIES)?;
    Ok(Asks { text, replies })
}

/// Whether asks are answered so on a log, with so many workers, and the disk stays as it is.
fn is_answered<R: Threads + Wait + Clone + Send + Sync + 'static>(
    rt: &R,
    alloc: Global,
    workers: &str,
    asks: &Asks,
    log: &[u8],
) -> Result<bool, Fail> {
    let again = served_by(rt, alloc, ["run", workers], &asks.text, log)?;
    Ok(again.leaves(Status::Done, &asks.replies, log))
}

/// Whether a row's session on a new log says its replies with so many workers, and is asked again
/// with as many as the second number says.
fn is_asked_again<R: Threads + Wait + Clone + Send + Sync + 'static>(
    rt: &R,
    alloc: Global,
    row: &Row,
    asks: &Asks,
    workers: [&str; 2],
) -> Result<bool, Fail> {
    let [first, second] = workers;
    let empty = log_of(rt, alloc, b"")?;
    let kept = served_by(rt, alloc, ["run", first], row.text, &empty)?;
    Ok(kept.is(Status::Done, row.replies) && is_answered(rt, alloc, second, asks, &kept.read)?)
}

/// With one worker and with several, in the session that keeps the version and in the one that
/// opens the log again. The second changes nothing on the disk.
#[test]
fn an_opened_log_answers_as_before(rt: HostRuntime) -> Result<(), Fail> {
    let asks = asks_of(rt.alloc(), &STARS)?;
    for workers in [["1", "1"], ["1", "4"], ["4", "1"], ["4", "4"]] {
        assert!(rt;
            is_asked_again(&rt, rt.alloc(), &STARS, &asks, workers)?,
            "{} and {} workers",
            workers[0],
            workers[1]
        );
    }
    Ok(())
}
