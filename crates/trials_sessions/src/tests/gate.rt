//! The gate is called once for each ask and explain that is accepted, with the number of its line:
//! no clause can see the call.

use super::play::{station_of, words_of};
use std::alloc::Global;
use std::sync::atomic::{AtomicU64, Ordering};
use std::sync::{Arc, Wait};
use std::test::Fail;
use std::thread::Threads;
use sz_outside::{Gate, SteadySource};
use sz_session::{Status, serve};

/// A gate that counts its calls after asks, and adds up the squares of their lines' numbers.
#[derive(Drop)]
struct Counting {
    asks: AtomicU64,
    squares: AtomicU64,
}

impl Gate for Counting {
    fn at_piece(&self, _version: u32, _node: u32, _piece: u32) {}

    fn after_ask(&self, line: u64) {
        self.asks.fetch_add(1, Ordering::SeqCst);
        self.squares
            .fetch_add(line.wrapping_mul(line), Ordering::SeqCst);
    }
}

/// Lines 5 and 8 are accepted; line 4 explains a version that is not awaited, and line 7 asks one
/// that is not there.
const TEXT: &[u8] = b"{\"array\":\"a\",\"cells\":[[5]]}
{\"flow\":\"f\",\"inputs\":1,\"nodes\":[{\"op\":\"neg\",\"from\":[{\"i\":0}]}]}
{\"start\":\"f\",\"base\":[[\"a\",1]]}
{\"explain\":1,\"dir\":\"back\",\"path\":[[0,0]],\"cells\":[[0,0]]}
{\"ask\":1,\"dir\":\"back\",\"path\":[[0,0]],\"cells\":[[0,0]]}
{\"await\":1}
{\"ask\":2,\"dir\":\"back\",\"path\":[[0,0]],\"cells\":[[0,0]]}
{\"explain\":1,\"dir\":\"back\",\"path\":[[0,0]],\"cells\":[[0,0]]}
{\"show\":1,\"node\":0}
";

/// The replies.
const REPLIES: &[u8] = b"1 array a 1
2 flow f
3 started 1
4 refused 19
5 cells 1 0,0
6 done 1
7 refused 15
8 explain map traced 0
9 values 1 1 -5
";

/// Whether the session is played so beside a gate.
fn is_played<R: Threads + Wait + Clone + Send + Sync + 'static>(
    rt: &R,
    alloc: Global,
    gate: &Arc<Counting>,
) -> Result<bool, Fail> {
    let words = words_of(alloc, &["play"])?;
    let mut source = SteadySource::new(TEXT.to_vec(alloc)?, 65_536);
    let mut station = station_of(alloc, &[])?;
    let status = serve(rt, alloc, &words, &mut source, &mut station, gate);
    Ok(status == Status::Done && station.said() == REPLIES)
}

/// Whether a gate was called behind so many asks, whose lines' numbers have squares of this sum.
fn counts(gate: &Counting, asks: u64, squares: u64) -> bool {
    gate.asks.load(Ordering::SeqCst) == asks && gate.squares.load(Ordering::SeqCst) == squares
}

#[test]
fn the_gate_is_called_once_for_each_answer(rt: HostRuntime) -> Result<(), Fail> {
    let counting = Counting {
        asks: AtomicU64::new(0),
        squares: AtomicU64::new(0),
    };
    let gate = Arc::new(rt.alloc(), counting)?;
    assert!(rt; is_played(&rt, rt.alloc(), &gate)?);
    assert!(rt; counts(&gate, 2, 5 * 5 + 8 * 8));
    Ok(())
}
