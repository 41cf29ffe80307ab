//! Asks beside one another.

ghost use Rattle.std.specs.Prelude.{◌≡◌, ◌≤◌, IfOk, IfSome};
ghost use Rattle.sz_commands.specs.Asks.{IsAskLine};

use crate::served::{Counts, is_begun, is_said};
use std::alloc::Global;
use std::sync::atomic::Ordering;
use std::sync::{Arc, Wait};
use std::test::Fail;
use std::thread::Threads;
use sz_catalogue::{Reply, reply_text};
use sz_outside::{Gate, NoGate};
use sz_script::{Command, laws, read_line};
use sz_session::{AskLine, Session};
use sz_spec::Tally;

/// A gate that holds each answered ask until a second one was answered.
#[derive(Drop)]
struct Meeting {
    counts: Counts,
}

impl Gate for Meeting {
    fn at_piece(&self, _version: u32, _node: u32, _piece: u32) {}

    fn after_ask(&self, _line: u64) {
        self.counts.asks.fetch_add(1, Ordering::SeqCst);
        self.counts.wait_above(&self.counts.asks, 1);
    }
}

/// Asks behind one another, among them some that are refused, with other lines between them, a
/// merge among these.
const TEXT: &[u8] = b"{\"array\":\"a\",\"cells\":[[5,6],[7,8]]}
{\"flow\":\"f\",\"inputs\":1,\"nodes\":[{\"op\":\"transpose\",\"from\":[{\"i\":0}]}]}
{\"strategy\":\"f\",\"node\":0,\"list\":[\"full_one_b\"]}
{\"start\":\"f\",\"base\":[[\"a\",1]]}
{\"await\":1}
{\"ask\":1,\"dir\":\"back\",\"path\":[[0,0]],\"cells\":[[0,1]]}
{\"ask\":1,\"dir\":\"forward\",\"path\":[[0,0]],\"cells\":[[1,0]]}
{\"ask\":2,\"dir\":\"back\",\"path\":[[0,0]],\"cells\":[[0,0]]}
{\"ask\":1,\"dir\":\"back\",\"path\":[[0,0],[0,0]],\"cells\":[[0,0]]}

{\"ask\":1,\"dir\":\"back\",\"path\":[[0,0]],\"cells\":[[2,0]]}
{\"ask\":1,\"dir\":\"back\",\"path\":[[0,0]],\"cells\":[]}
{\"explain\":1,\"dir\":\"back\",\"path\":[[0,0]],\"cells\":[[0,0]]}
{\"ask\":1,\"dir\":\"back\",\"path\":[[0,0]],\"cells\":[[0,0],[1,0]]}
{\"show\":1,\"node\":0}
{\"start\":\"f\",\"base\":[[\"a\",1]]}
{\"ask\":2,\"dir\":\"back\",\"path\":[[0,0]],\"cells\":[[1,0]]}
{\"ask\":2,\"dir\":\"forward\",\"path\":[[0,0]],\"cells\":[[1,1]]}
{\"merge\":1}
{\"ask\":1,\"dir\":\"back\",\"path\":[[0,0]],\"cells\":[[0,1]]}
{\"ask\":1,\"dir\":\"forward\",\"path\":[[0,0]],\"cells\":[[1,0]]}
{\"merged\":1}
{\"ask\":1,\"dir\":\"back\",\"path\":[[0,0]],\"cells\":[[0,1]]}
{\"ask\":1,\"dir\":\"forward\",\"path\":[[0,0]],\"cells\":[[1,0]]}
{
{\"ask\":2,\"dir\":\"back\",\"path\":[[0,0]],\"cells\":[[1,1]]}";

/// The replies.
const REPLIES: &[u8] = b"1 array a 1
2 flow f
3 strategy f 0
4 started 1
5 done 1
6 cells 1 1,0
7 cells 1 0,1
8 refused 15
9 refused 16
11 refused 17
12 cells 0
13 explain full_one_b traced 0
14 cells 2 0,0 0,1
15 values 2 2 5 7 6 8
16 started 2
17 cells 1 0,1
18 cells 1 1,1
19 merging 1
20 cells 1 1,0
21 cells 1 0,1
22 merged 1 4
23 cells 1 1,0
24 cells 1 0,1
25 refused 1
26 cells 1 1,1
";

/// Whether a session of the text with so many askers says the replies.
fn says_the_replies<G: Gate + 'static, R: Threads + Wait + Clone + Send + Sync + 'static>(
    rt: &R,
    alloc: Global,
    askers: &str,
    chunk: u32,
    gate: &Arc<G>,
) -> Result<bool, Fail>
    requires { 1 ≤ chunk }
{
    let words = ["play", "--askers", askers];
    is_said(rt, alloc, &words, TEXT, chunk, gate, REPLIES)
}

/// With any number of askers, and reads of any size, the same is said.
#[test]
fn any_number_of_askers_says_the_same(rt: HostRuntime) -> Result<(), Fail> {
    let alloc = rt.alloc();
    let gate = Arc::new(alloc, NoGate)?;
    for askers in ["1", "2", "4", "64"] {
        for chunk in [7u32, 200, 65_536] {
            assert!(rt; says_the_replies(&rt, alloc, askers, chunk.max(1), &gate)?);
        }
    }
    Ok(())
}

/// Two asks are answered at the same time: each is held until the other was answered too.
#[test]
fn two_asks_are_answered_at_the_same_time(rt: HostRuntime) -> Result<(), Fail> {
    let alloc = rt.alloc();
    let counts = Counts::new();
    let gate = Arc::new(alloc, Meeting { counts })?;
    assert!(rt; says_the_replies(&rt, alloc, "2", 65_536, &gate)?);
    assert_eq!(rt; gate.counts.missed.load(Ordering::SeqCst), 0);
    Ok(())
}

/// The ask that a line orders, with a number, where it orders one.
fn ask_line(alloc: Global, number: u64, line: &[u8]) -> Result<Option<AskLine>, Fail>
    ensures { IfOk result (λ o. IfSome o (λ l. IsAskLine l)) }
{
    laws::commands_are_right();
    match read_line(alloc, line) {
        Ok(
            Command::Ask {
                version,
                dir,
                path,
                cells,
            },
        ) => Ok(Some(AskLine {
            number,
            ask: Command::Ask {
                version,
                dir,
                path,
                cells,
            },
        })),
        _ => Ok(None),
    }
}

/// Two asks of a version whose one step is traced, and two that rules refuse.
const TRACED: &[u8] = b"{\"ask\":1,\"dir\":\"back\",\"path\":[[0,0]],\"cells\":[[0,1]]}";

const TURNED: &[u8] = b"{\"ask\":1,\"dir\":\"forward\",\"path\":[[0,0]],\"cells\":[[1,0]]}";

const NOT_THERE: &[u8] = b"{\"ask\":2,\"dir\":\"back\",\"path\":[[0,0]],\"cells\":[[0,0]]}";

const NOT_JOINED: &[u8] = b"{\"ask\":1,\"dir\":\"back\",\"path\":[[0,0],[0,0]],\"cells\":[[0,0]]}";

/// The lines before them.
const BEFORE: [&[u8]; 5] = [
    b"{\"array\":\"a\",\"cells\":[[5,6],[7,8]]}",
    b"{\"flow\":\"f\",\"inputs\":1,\"nodes\":[{\"op\":\"transpose\",\"from\":[{\"i\":0}]}]}",
    b"{\"strategy\":\"f\",\"node\":0,\"list\":[\"blackbox\"]}",
    b"{\"start\":\"f\",\"base\":[[\"a\",1]]}",
    b"{\"await\":1}",
];

/// Whether these are the reply lines to two asks that are given together, as lines 6 and 7, and so
/// many cells are told as traced for them.
fn is_told_to_two<R: Threads + Wait + Sync>(
    rt: &R,
    alloc: Global,
    session: &mut Session,
    lines: [&[u8]; 2],
    told: &[u8],
    traced: u64,
) -> Result<bool, Fail> {
    let [first, second] = lines;
    let mut tally = Tally::new();
    let replies = replies_to_two(rt, alloc, session, first, second, &mut tally)?;
    Ok(lines_of(alloc, &replies)?.as_slice() == told && tally.count() == traced)
}

/// The replies to two asks that are given together; none where a line is no ask.
fn replies_to_two<R: Threads + Wait + Sync>(
    rt: &R,
    alloc: Global,
    session: &mut Session,
    first: &[u8],
    second: &[u8],
    tally: &mut Tally,
) -> Result<Vec<Reply>, Fail>
    requires { tally.old ≡ 0 }
{
    let Some(first) = ask_line(alloc, 6, first)? else {
        return Ok(Vec::new(alloc));
    };
    let Some(second) = ask_line(alloc, 7, second)? else {
        return Ok(Vec::new(alloc));
    };
    let lines = [first, second];
    Ok(session.asks(rt, &lines, &NoGate, tally)?)
}

/// The reply lines of some replies, the first of which is line 6.
fn lines_of(alloc: Global, replies: &[Reply]) -> Result<Vec<u8>, Fail> {
    let mut text = Vec::new(alloc);
    let mut number = 6u64;
    for reply in replies {
        text.extend_from_slice(&reply_text(alloc, number, reply)?)?;
        number = number.saturating_add(1);
    }
    Ok(text)
}

/// Asks that are given together are replied to in their order, and the tally rises by what each
/// traces: 4 cells for each of two, and none for those that rules refuse.
#[test]
fn asks_have_their_replies_in_order(rt: HostRuntime) -> Result<(), Fail> {
    let alloc = rt.alloc();
    let mut session = Session::fresh(alloc, 1, 3)?;
    assert!(rt; is_begun(&rt, alloc, &mut session, &BEFORE)?);
    let told = b"6 cells 1 1,0\n7 cells 1 0,1\n";
    assert!(rt; is_told_to_two(&rt, alloc, &mut session, [TRACED, TURNED], told, 8)?);
    let told = b"6 refused 15\n7 refused 16\n";
    assert!(rt; is_told_to_two(&rt, alloc, &mut session, [NOT_THERE, NOT_JOINED], told, 0)?);
    Ok(())
}
