//! A log on which a version was refreshed: the array of a refresh lasts at once, and its version
//! from its await on. That a merge was asked does not last.
use super::ended::{first_lines, log_of, says_on, served_on};
use super::rows::REFRESHED;
use std::alloc::Global;
use std::sync::Wait;
use std::test::Fail;
use std::thread::Threads;
use sz_session::Status;

/// How many lines of the row stand before the await of the version that its refresh makes.
const BEFORE_AWAIT: usize = 7;

/// Lines on the log of these: the version is gone, and its array is held. A version that the log
/// gave is refreshed, and its stores are merged.
const FIRST: &[u8] = b"{\"ask\":2,\"dir\":\"back\",\"path\":[[0,0]],\"cells\":[[0,2]]}
{\"show\":2,\"node\":0}
{\"refresh\":2,\"input\":0,\"set\":[]}
{\"start\":\"f\",\"base\":[[\"a\",2]]}
{\"show\":2,\"node\":0}
{\"refresh\":1,\"input\":0,\"set\":[[0,1,8]]}
{\"await\":3}
{\"ask\":3,\"dir\":\"back\",\"path\":[[0,0]],\"cells\":[[0,2]]}
{\"array\":\"a\",\"cells\":[[1]]}
{\"merge\":1}
{\"ask\":1,\"dir\":\"back\",\"path\":[[0,0]],\"cells\":[[0,2]]}
{\"merged\":1}
{\"ask\":1,\"dir\":\"back\",\"path\":[[0,0]],\"cells\":[[0,2]]}
{\"merged\":3}
";

const FIRST_REPLIES: &[u8] = b"1 refused 15
2 refused 15
3 refused 15
4 started 2
5 values 1 3 1 1 1
6 refreshed 3 cells 3
7 done 3
8 cells 3 0,0 0,1 0,2
9 array a 4
10 merging 1
11 cells 1 0,2
12 merged 1 3
13 cells 1 0,2
14 refused 25
";

/// Lines on the log of these, in which the refreshed version was awaited.
const SECOND: &[u8] = b"{\"merged\":1}
{\"show\":2,\"node\":0}
{\"ask\":3,\"dir\":\"back\",\"path\":[[0,0]],\"cells\":[[0,2]]}
{\"explain\":3,\"dir\":\"back\",\"path\":[[0,0]],\"cells\":[[0,2]]}
{\"merge\":3}
{\"merged\":3}
{\"refresh\":3,\"input\":0,\"set\":[[0,0,0],[0,0,9]]}
{\"show\":4,\"node\":0}
";

const SECOND_REPLIES: &[u8] = b"1 refused 25
2 refused 15
3 cells 3 0,0 0,1 0,2
4 explain full_many_b traced 0
5 merging 3
6 merged 3 1
7 refreshed 4 cells 3
8 values 1 3 1 1 1
";

/// The disk behind lines on a log that are replied to so.
fn behind<R: Threads + Wait + Clone + Send + Sync + 'static>(
    rt: &R,
    alloc: Global,
    log: &[u8],
    text: &[u8],
    replies: &[u8],
) -> Result<Vec<u8>, Fail> {
    let ended = served_on(rt, alloc, "run", text, log)?;
    if !ended.is(Status::Done, replies) {
        return Err(Fail::from("other replies"));
    }
    Ok(ended.read)
}

#[test]
fn a_refreshed_version_lasts_from_its_await_on(rt: HostRuntime) -> Result<(), Fail> {
    let alloc = rt.alloc();
    let log = log_of(&rt, alloc, first_lines(REFRESHED.text, BEFORE_AWAIT))?;
    let first = behind(&rt, alloc, &log, FIRST, FIRST_REPLIES)?;
    let second = behind(&rt, alloc, &first, SECOND, SECOND_REPLIES)?;
    assert!(rt; says_on(&rt, alloc, "check", b"", &second, b"sound 2\n")?);
    Ok(())
}
