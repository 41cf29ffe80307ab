//! Workers beside asks: no clause can see them, so these tests do.

ghost use Rattle.std.specs.Prelude.{◌≡◌};
ghost use Rattle.sz_commands.specs.Logged.{HasLog};
ghost use Rattle.sz_commands.specs.States.{nothing_held};

use crate::served::{Counts, empty_station, is_said, takes_each};
use std::alloc::Global;
use std::sync::atomic::Ordering;
use std::sync::{Arc, Wait};
use std::test::Fail;
use std::thread::Threads;
use sz_outside::{Gate, NoGate, Station};
use sz_pool::employ;
use sz_session::Session;
use sz_spec::Tally;

/// A gate that holds each piece until an ask was answered, and each answered ask until a piece was
/// taken up. Pieces of others than node 0 of version 1 and its piece 0 count as missed too.
#[derive(Drop)]
struct Holding {
    counts: Counts,
}

impl Gate for Holding {
    fn at_piece(&self, version: u32, node: u32, piece: u32) {
        if version != 1 || node != 0 || piece != 0 {
            self.counts.missed.fetch_add(1, Ordering::SeqCst);
        }
        self.counts.pieces.fetch_add(1, Ordering::SeqCst);
        self.counts.wait_above(&self.counts.asks, 0);
    }

    fn after_ask(&self, _line: u64) {
        self.counts.wait_above(&self.counts.pieces, 0);
        self.counts.asks.fetch_add(1, Ordering::SeqCst);
    }
}

/// The store of one node is asked for while it is built, and once it stands.
const TEXT: &[u8] = b"{\"array\":\"a\",\"cells\":[[5]]}
{\"flow\":\"f\",\"inputs\":1,\"nodes\":[{\"op\":\"neg\",\"from\":[{\"i\":0}]}]}
{\"strategy\":\"f\",\"node\":0,\"list\":[\"full_one_b\"]}
{\"start\":\"f\",\"base\":[[\"a\",1]]}
{\"ask\":1,\"dir\":\"back\",\"path\":[[0,0]],\"cells\":[[0,0]]}
{\"await\":1}
{\"explain\":1,\"dir\":\"back\",\"path\":[[0,0]],\"cells\":[[0,0]]}
";

/// The replies.
const REPLIES: &[u8] = b"1 array a 1
2 flow f
3 strategy f 0
4 started 1
5 cells 1 0,0
6 done 1
7 explain full_one_b traced 0
";

/// A worker takes up the piece before the ask behind the start is answered, and that ask is
/// answered while the piece is held.
#[test]
fn a_worker_is_at_its_piece_while_an_ask_is_answered(rt: HostRuntime) -> Result<(), Fail> {
    let alloc = rt.alloc();
    let counts = Counts::new();
    let gate = Arc::new(alloc, Holding { counts })?;
    assert!(rt; is_said(&rt, alloc, &["play"], TEXT, 65_536, &gate, REPLIES)?);
    let missed = gate.counts.missed.load(Ordering::SeqCst);
    assert_eq!(rt; (missed, gate.counts.pieces.load(Ordering::SeqCst)), (0, 1));
    Ok(())
}

/// Its lines up to the ask, and the ask.
const BEFORE_ASK: [&[u8]; 4] = [
    b"{\"array\":\"a\",\"cells\":[[5]]}",
    b"{\"flow\":\"f\",\"inputs\":1,\"nodes\":[{\"op\":\"neg\",\"from\":[{\"i\":0}]}]}",
    b"{\"strategy\":\"f\",\"node\":0,\"list\":[\"full_one_b\"]}",
    b"{\"start\":\"f\",\"base\":[[\"a\",1]]}",
];

const ASK: &[u8] = b"{\"ask\":1,\"dir\":\"back\",\"path\":[[0,0]],\"cells\":[[0,0]]}";

/// For how many asks it is waited that one is answered by the store.
const MOST_ASKS: u32 = 1_000_000;

/// Gives the lines up to the ask to a session, and then the ask again and again, until it is
/// answered by the store. Whether that came.
fn is_answered_by_the_store<R: Threads + Wait + Sync>(
    rt: &R,
    alloc: Global,
    session: &mut Session,
) -> Result<bool, Fail>
    requires { session.old ≡ nothing_held }
{
    let mut station = empty_station(alloc)?;
    Ok(
        takes_each(rt, session, &BEFORE_ASK, &mut station)
            && is_traced_no_more(rt, session, &mut station),
    )
}

/// Whether the ask, given again and again, is answered by the store at last.
fn is_traced_no_more<T: Station, R: Threads + Wait + Sync>(
    rt: &R,
    session: &mut Session,
    station: &mut T,
) -> bool
    requires { HasLog T.Station session.old.held session.old.end station.old }
{
    for _turn in 0..MOST_ASKS {
        let mut tally = Tally::new();
        if session
            .command(rt, ASK, 5, station, &NoGate, &mut tally)
            .is_err()
        {
            return false;
        }
        if tally.count() == 0 {
            return true;
        }
    }
    false
}

/// An ask of a version that is not awaited is answered by the store, once a worker has built it.
#[test]
fn an_ask_before_the_await_is_answered_by_the_store_at_last(rt: HostRuntime) -> Result<(), Fail> {
    let alloc = rt.alloc();
    let gate = Arc::new(alloc, NoGate)?;
    let mut session = Session::fresh(alloc, 1, 1)?;
    let tasks = session.tasks()?;
    let worker = employ(alloc, &rt, &gate, &tasks)?;
    assert!(rt; is_answered_by_the_store(&rt, alloc, &mut session)?);
    drop(session);
    drop(tasks);
    worker.join(&rt);
    Ok(())
}

/// With any number of workers the same is said.
#[test]
fn any_number_of_workers_says_the_same(rt: HostRuntime) -> Result<(), Fail> {
    let alloc = rt.alloc();
    for workers in ["1", "2", "4", "64"] {
        let gate = Arc::new(alloc, NoGate)?;
        let words = ["play", "--workers", workers];
        assert!(rt; is_said(&rt, alloc, &words, TEXT, 65_536, &gate, REPLIES)?);
    }
    Ok(())
}
