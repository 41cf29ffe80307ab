//! Whole sessions: each row is a text and the replies that are said of it.

use super::play::session;
use super::{merged, refreshed};
use std::alloc::Global;
use std::sync::Wait;
use std::test::Fail;
use std::thread::Threads;

/// A session: its name, its text and the replies that are said of it.
pub type Row = (&'static str, &'static [u8], &'static [u8]);

/// Whether a session says its replies.
fn says<R: Threads + Wait + Clone + Send + Sync + 'static>(
    rt: &R,
    alloc: Global,
    row: &Row,
) -> Result<bool, Fail> {
    let played = session(rt, alloc, row.1.to_vec(alloc)?, 65_536, &[], &[])?;
    Ok(played.is_done(row.2))
}

/// The name of the first of these sessions that says other replies, if any does.
fn first_other<R: Threads + Wait + Clone + Send + Sync + 'static>(
    rt: &R,
    alloc: Global,
    rows: &[Row],
) -> Result<Option<&'static str>, Fail> {
    for row in rows {
        if !says(rt, alloc, row)? {
            return Ok(Some(row.0));
        }
    }
    Ok(None)
}

/// Sessions whose values are told.
const VALUES: [Row; 6] = [
    ("MOVED", MOVED, MOVED_REPLIES),
    ("FOLDED", FOLDED, FOLDED_REPLIES),
    ("NEIGHBOURS", NEIGHBOURS, NEIGHBOURS_REPLIES),
    ("TWO_INPUTS", TWO_INPUTS, TWO_INPUTS_REPLIES),
    ("REFUSED", REFUSED, REFUSED_REPLIES),
    ("LAYERS", LAYERS, LAYERS_REPLIES),
];

/// Sessions whose cells are asked.
const ASKS: [Row; 8] = [
    ("ASKED", ASKED, ASKED_REPLIES),
    ("NAMED", NAMED, NAMED_REPLIES),
    ("TURNED", TURNED, TURNED_REPLIES),
    ("APART", APART, APART_REPLIES),
    ("STORED", STORED, STORED_REPLIES),
    ("LISTED", LISTED, LISTED_REPLIES),
    ("UNEVEN", UNEVEN, UNEVEN_REPLIES),
    ("EMPTY", b"", b""),
];

#[test]
fn sessions_say_their_replies(rt: HostRuntime) -> Result<(), Fail> {
    let alloc = rt.alloc();
    assert_eq!(rt; first_other(&rt, alloc, &VALUES)?, None);
    assert_eq!(rt; first_other(&rt, alloc, &ASKS)?, None);
    assert_eq!(rt; first_other(&rt, alloc, &merged::ROWS)?, None);
    assert_eq!(rt; first_other(&rt, alloc, &refreshed::ROWS)?, None);
    Ok(())
}

/// Cells of a transposed array, and of a cut one.
const MOVED: &[u8] = b"{\"array\":\"a\",\"cells\":[[1,2,3],[4,5,6]]}
{\"flow\":\"f\",\"inputs\":1,\"nodes\":[{\"op\":\"transpose\",\"from\":[{\"i\":0}]}]}
{\"start\":\"f\",\"base\":[[\"a\",1]]}
{\"await\":1}
{\"ask\":1,\"dir\":\"back\",\"path\":[[0,0]],\"cells\":[[2,0]]}
{\"array\":\"m\",\"cells\":[[1,2,3],[4,5,6],[7,8,9]]}
{\"flow\":\"g\",\"inputs\":1,\"nodes\":[{\"op\":\"slice\",\"r0\":1,\"c0\":1,\"h\":2,\"w\":2,\
    \"from\":[{\"i\":0}]}]}
{\"start\":\"g\",\"base\":[[\"m\",1]]}
{\"show\":2,\"node\":0}
{\"ask\":2,\"dir\":\"back\",\"path\":[[0,0]],\"cells\":[[0,1]]}
{\"ask\":2,\"dir\":\"forward\",\"path\":[[0,0]],\"cells\":[[0,0]]}
";

const MOVED_REPLIES: &[u8] = b"1 array a 1
2 flow f
3 started 1
4 done 1
5 cells 1 0,2
6 array m 1
7 flow g
8 started 2
9 values 2 2 5 6 8 9
10 cells 1 1,2
11 cells 0
";

/// Weights and blocks, and asks that are refused.
const FOLDED: &[u8] = b"{\"array\":\"a\",\"cells\":[[1,2,3],[4,5,6],[7,8,9]]}
{\"flow\":\"f\",\"inputs\":1,\"nodes\":[{\"op\":\"convolve\",\"kernel\":[[0,1,0],[1,1,1],[0,1,0]\
    ],\"from\":[{\"i\":0}]}]}
{\"strategy\":\"f\",\"node\":0,\"list\":[\"blackbox\"]}
{\"start\":\"f\",\"base\":[[\"a\",1]]}
{\"explain\":1,\"dir\":\"back\",\"path\":[[0,0]],\"cells\":[[0,0]]}
{\"await\":1}
{\"show\":1,\"node\":0}
{\"ask\":1,\"dir\":\"back\",\"path\":[[0,0]],\"cells\":[[0,0]]}
{\"explain\":1,\"dir\":\"back\",\"path\":[[0,0]],\"cells\":[[0,0]]}
{\"ask\":1,\"dir\":\"back\",\"path\":[[0,0]],\"cells\":[[3,0]]}
{\"ask\":1,\"dir\":\"back\",\"path\":[[0,0],[0,0]],\"cells\":[[0,0]]}
{\"ask\":1,\"dir\":\"back\",\"path\":[[0,0],[0,0]],\"cells\":[[3,0]]}
{\"ask\":2,\"dir\":\"back\",\"path\":[[0,0]],\"cells\":[[0,0]]}
{\"flow\":\"g\",\"inputs\":1,\"nodes\":[{\"op\":\"block\",\"fold\":\"sum\",\"h\":2,\"w\":2,\
    \"from\":[{\"i\":0}]}]}
{\"start\":\"g\",\"base\":[[\"a\",1]]}
{\"show\":2,\"node\":0}
{\"ask\":2,\"dir\":\"back\",\"path\":[[0,0]],\"cells\":[[1,1]]}
";

const FOLDED_REPLIES: &[u8] = b"1 array a 1
2 flow f
3 strategy f 0
4 started 1
5 refused 19
6 done 1
7 values 3 3 7 11 11 17 25 23 19 29 23
8 cells 3 0,0 0,1 1,0
9 explain blackbox traced 9
10 refused 17
11 refused 16
12 refused 16
13 refused 15
14 flow g
15 started 2
16 values 2 2 12 9 15 9
17 cells 1 2,2
";

/// Regions and cleaned cells depend on their neighbours.
const NEIGHBOURS: &[u8] = b"{\"array\":\"a\",\"cells\":[[9,9,0],[0,9,0],[9,0,0]]}
{\"flow\":\"f\",\"inputs\":1,\"nodes\":[{\"op\":\"regions\",\"t\":5,\"from\":[{\"i\":0}]}]}
{\"start\":\"f\",\"base\":[[\"a\",1]]}
{\"show\":1,\"node\":0}
{\"ask\":1,\"dir\":\"back\",\"path\":[[0,0]],\"cells\":[[1,1]]}
{\"array\":\"b\",\"cells\":[[1,2],[300,4]]}
{\"flow\":\"g\",\"inputs\":1,\"nodes\":[{\"op\":\"clean\",\"t\":100,\"from\":[{\"i\":0}]}]}
{\"start\":\"g\",\"base\":[[\"b\",1]]}
{\"show\":2,\"node\":0}
{\"ask\":2,\"dir\":\"back\",\"path\":[[0,0]],\"cells\":[[1,0]]}
{\"ask\":2,\"dir\":\"back\",\"path\":[[0,0]],\"cells\":[[0,1]]}
{\"ask\":2,\"dir\":\"forward\",\"path\":[[0,0]],\"cells\":[[0,0]]}
";

const NEIGHBOURS_REPLIES: &[u8] = b"1 array a 1
2 flow f
3 started 1
4 values 3 3 1 1 0 0 1 0 7 0 0
5 cells 3 0,0 0,1 1,1
6 array b 1
7 flow g
8 started 2
9 values 2 2 1 2 1 4
10 cells 4 0,0 0,1 1,0 1,1
11 cells 1 0,1
12 cells 2 0,0 1,0
";

/// Lookups and sums have two inputs.
const TWO_INPUTS: &[u8] = b"{\"array\":\"a\",\"cells\":[[7]]}
{\"array\":\"t\",\"cells\":[[10,20,30]]}
{\"array\":\"a\",\"cells\":[[0,0,1]]}
{\"array\":\"t\",\"cells\":[[10,20]]}
{\"flow\":\"f\",\"inputs\":2,\"nodes\":[{\"op\":\"lookup\",\"from\":[{\"i\":0},{\"i\":1}]}]}
{\"start\":\"f\",\"base\":[[\"a\",1],[\"t\",1]]}
{\"start\":\"f\",\"base\":[[\"a\",2],[\"t\",2]]}
{\"show\":1,\"node\":0}
{\"ask\":1,\"dir\":\"back\",\"path\":[[0,1]],\"cells\":[[0,0]]}
{\"ask\":2,\"dir\":\"forward\",\"path\":[[0,1]],\"cells\":[[0,0]]}
{\"array\":\"g\",\"cells\":[[9223372036854775807]]}
{\"array\":\"o\",\"cells\":[[1]]}
{\"flow\":\"s\",\"inputs\":2,\"nodes\":[{\"op\":\"add\",\"from\":[{\"i\":0},{\"i\":1}]}]}
{\"start\":\"s\",\"base\":[[\"g\",1],[\"o\",1]]}
{\"show\":3,\"node\":0}
{\"ask\":3,\"dir\":\"back\",\"path\":[[0,0]],\"cells\":[[0,0]]}
{\"ask\":3,\"dir\":\"back\",\"path\":[[0,1]],\"cells\":[[0,0]]}
{\"start\":\"s\",\"base\":[[\"o\",1],[\"a\",2]]}
";

const TWO_INPUTS_REPLIES: &[u8] = b"1 array a 1
2 array t 1
3 array a 2
4 array t 2
5 flow f
6 started 1
7 started 2
8 values 1 1 -
9 cells 0
10 cells 2 0,0 0,1
11 array g 1
12 array o 1
13 flow s
14 started 3
15 values 1 1 -
16 cells 1 0,0
17 cells 1 0,0
18 refused 13 0
";

/// Paths of several nodes, and lines that are refused.
const REFUSED: &[u8] = b"{\"array\":\"a\",\"cells\":[[5]]}
{\"flow\":\"f\",\"inputs\":1,\"nodes\":[{\"op\":\"neg\",\"from\":[{\"i\":0}]},{\"op\":\"add\",\
    \"from\":[{\"n\":0},{\"i\":0}]}]}
{\"start\":\"f\",\"base\":[[\"a\",1]]}
{\"ask\":1,\"dir\":\"back\",\"path\":[[1,0],[0,0]],\"cells\":[[0,0]]}
{\"ask\":1,\"dir\":\"back\",\"path\":[[1,1],[0,0]],\"cells\":[[0,0]]}
{\"ask\":1,\"dir\":\"forward\",\"path\":[[0,0],[1,0]],\"cells\":[[0,0]]}
{\"show\":1,\"node\":2}
{\"array\":\"a\",\"cells\":[[1,2],[3]]}
{\"array\":\"a\",\"cells\":[]}
{\"array\":\"a\",\"cells\":[[1.5]]}
{\"array\":\"a\"}
{\"array\":\"A\",\"cells\":[[1]]}
{\"flow\":\"g\",\"inputs\":1,\"nodes\":[{\"op\":\"neg\",\"from\":[{\"i\":0},{\"i\":0}]}]}
{\"flow\":\"f\",\"inputs\":1,\"nodes\":[{\"op\":\"neg\",\"from\":[{\"i\":0}]}]}
{\"flow\":\"r\",\"inputs\":1,\"nodes\":[{\"op\":\"regions\",\"t\":5,\"from\":[{\"i\":0}]}]}
{\"strategy\":\"r\",\"node\":0,\"list\":[\"map\"]}
{\"strategy\":\"r\",\"node\":0,\"list\":[\"full_one_b\"]}
";

const REFUSED_REPLIES: &[u8] = b"1 array a 1
2 flow f
3 started 1
4 cells 1 0,0
5 refused 16
6 cells 1 0,0
7 refused 20
8 refused 5
9 refused 5
10 refused 5
11 refused 3
12 refused 4
13 refused 8 4 0
14 refused 9
15 flow r
16 refused 18
17 strategy r 0
";

/// A cell of layers is named by three numbers.
const LAYERS: &[u8] = b"{\"layers\":\"a\",\"cells\":[[[1,2]],[[3,null]]]}
{\"flow\":\"f\",\"inputs\":1,\"nodes\":[{\"op\":\"neg\",\"from\":[{\"i\":0}]},\
    {\"op\":\"fold_layers\",\"fold\":\"sum\",\"from\":[{\"i\":0}]}]}
{\"start\":\"f\",\"base\":[[\"a\",1]]}
{\"show\":1,\"node\":0}
{\"ask\":1,\"dir\":\"back\",\"path\":[[0,0]],\"cells\":[[1,0,0]]}
{\"ask\":1,\"dir\":\"back\",\"path\":[[0,0]],\"cells\":[[0,1]]}
{\"ask\":1,\"dir\":\"back\",\"path\":[[0,0]],\"cells\":[[2,0,0]]}
{\"show\":1,\"node\":1}
{\"ask\":1,\"dir\":\"back\",\"path\":[[1,0]],\"cells\":[[0,1]]}
{\"ask\":1,\"dir\":\"forward\",\"path\":[[1,0]],\"cells\":[[1,0,0]]}
{\"layers\":\"b\",\"cells\":[[[1]],[[1,2]]]}
";

const LAYERS_REPLIES: &[u8] = b"1 array a 1
2 flow f
3 started 1
4 layers 2 1 2 -1 -2 -3 -
5 cells 1 1,0,0
6 cells 1 0,0,1
7 refused 17
8 values 1 2 4 2
9 cells 2 0,0,1 1,0,1
10 cells 1 0,0
11 refused 5
";

/// A cell named twice is there once, there may be none, and cells come in row-major order.
const ASKED: &[u8] = b"{\"array\":\"b\",\"cells\":[[1,null,3],[4,5,6]]}
{\"flow\":\"f\",\"inputs\":1,\"nodes\":[{\"op\":\"neg\",\"from\":[{\"i\":0}]}]}
{\"start\":\"f\",\"base\":[[\"b\",1]]}
{\"ask\":1,\"dir\":\"back\",\"path\":[[0,0]],\"cells\":[[0,0],[0,0]]}
{\"ask\":1,\"dir\":\"back\",\"path\":[[0,0]],\"cells\":[]}
{\"ask\":1,\"dir\":\"back\",\"path\":[[0,0]],\"cells\":[[1,2],[0,1],[1,0]]}
{\"ask\":1,\"dir\":\"back\",\"path\":[[0,0]],\"cells\":[[2,0]]}
{\"show\":1,\"node\":0}
";

const ASKED_REPLIES: &[u8] = b"1 array b 1
2 flow f
3 started 1
4 cells 1 0,0
5 cells 0
6 cells 3 0,1 1,0 1,2
7 refused 17
8 values 2 3 -1 - -3 -4 -5 -6
";

/// A name of 32 bytes, and one of 33. A path in which a step does not follow is not joined.
const NAMED: &[u8] = b"{\"array\":\"abcdefghijklmnopqrstuvwxyz_01234\",\"cells\":[[1]]}
{\"array\":\"abcdefghijklmnopqrstuvwxyz_012345\",\"cells\":[[1]]}
{\"flow\":\"f\",\"inputs\":1,\"nodes\":[{\"op\":\"neg\",\"from\":[{\"i\":0}]}]}
{\"start\":\"f\",\"base\":[[\"abcdefghijklmnopqrstuvwxyz_01234\",1]]}
{\"ask\":1,\"dir\":\"back\",\"path\":[[0,0]],\"cells\":[]}
{\"ask\":1,\"dir\":\"back\",\"path\":[[0,0],[0,0]],\"cells\":[]}
";

const NAMED_REPLIES: &[u8] = b"1 array abcdefghijklmnopqrstuvwxyz_01234 1
2 refused 4
3 flow f
4 started 1
5 cells 0
6 refused 16
";

/// Weights that are symmetric in no way, laid on as they are: weight (i, j) meets the cell i - 1
/// below and j - 1 right of the one that is made. Weights of 0 are related to no cell.
const TURNED: &[u8] = b"{\"array\":\"a\",\"cells\":[[0,0,0],[0,1,0],[0,0,0]]}
{\"flow\":\"f\",\"inputs\":1,\"nodes\":[{\"op\":\"convolve\",\"kernel\":[[1,2,3],[4,5,6],[7,8,9]],\
    \"from\":[{\"i\":0}]}]}
{\"start\":\"f\",\"base\":[[\"a\",1]]}
{\"show\":1,\"node\":0}
{\"flow\":\"g\",\"inputs\":1,\"nodes\":[{\"op\":\"convolve\",\"kernel\":[[0,0,1],[0,2,0],[0,3,0]],\
    \"from\":[{\"i\":0}]}]}
{\"start\":\"g\",\"base\":[[\"a\",1]]}
{\"show\":2,\"node\":0}
{\"ask\":2,\"dir\":\"back\",\"path\":[[0,0]],\"cells\":[[1,1]]}
{\"ask\":2,\"dir\":\"forward\",\"path\":[[0,0]],\"cells\":[[0,2]]}
";

const TURNED_REPLIES: &[u8] = b"1 array a 1
2 flow f
3 started 1
4 values 3 3 9 8 7 6 5 4 3 2 1
5 flow g
6 started 2
7 values 3 3 0 3 0 0 2 0 1 0 0
8 cells 3 0,2 1,1 2,1
9 cells 2 0,2 1,1
";

/// High cells one above the other in two layers are two regions, and weights reach no other layer.
const APART: &[u8] = b"{\"layers\":\"a\",\"cells\":[[[9]],[[9]]]}
{\"flow\":\"f\",\"inputs\":1,\"nodes\":[{\"op\":\"regions\",\"t\":5,\"from\":[{\"i\":0}]}]}
{\"start\":\"f\",\"base\":[[\"a\",1]]}
{\"show\":1,\"node\":0}
{\"ask\":1,\"dir\":\"back\",\"path\":[[0,0]],\"cells\":[[1,0,0]]}
{\"layers\":\"b\",\"cells\":[[[1],[2]],[[3],[4]]]}
{\"flow\":\"g\",\"inputs\":1,\"nodes\":[{\"op\":\"convolve\",\
    \"kernel\":[[0,1,0],[1,1,1],[0,1,0]],\"from\":[{\"i\":0}]}]}
{\"start\":\"g\",\"base\":[[\"b\",1]]}
{\"show\":2,\"node\":0}
{\"layers\":\"c\",\"cells\":[[[1]],[[1]],[[1]],[[1]],[[1]],[[1]],[[1]],[[1]],\
    [[1]],[[1]],[[1]],[[1]],[[1]],[[1]],[[1]],[[1]]]}
{\"layers\":\"c\",\"cells\":[[[1]],[[1]],[[1]],[[1]],[[1]],[[1]],[[1]],[[1]],[[1]],\
    [[1]],[[1]],[[1]],[[1]],[[1]],[[1]],[[1]],[[1]]]}
";

const APART_REPLIES: &[u8] = b"1 array a 1
2 flow f
3 started 1
4 layers 2 1 1 1 2
5 cells 1 1,0,0
6 array b 1
7 flow g
8 started 2
9 layers 2 2 1 3 3 7 7
10 array c 1
11 refused 5
";

/// Asks are answered from the store of the strategy that a version was started with: by a list that
/// is looked at in both directions, the same cells, and none is traced.
const STORED: &[u8] = b"{\"array\":\"m\",\"cells\":[[1,2,3],[4,5,6],[7,8,9]]}
{\"flow\":\"f\",\"inputs\":1,\"nodes\":[{\"op\":\"convolve\",\
    \"kernel\":[[0,1,0],[1,1,1],[0,1,0]],\"from\":[{\"i\":0}]}]}
{\"strategy\":\"f\",\"node\":0,\"list\":[\"full_one_b\"]}
{\"start\":\"f\",\"base\":[[\"m\",1]]}
{\"strategy\":\"f\",\"node\":0,\"list\":[\"full_one_f\"]}
{\"start\":\"f\",\"base\":[[\"m\",1]]}
{\"explain\":1,\"dir\":\"back\",\"path\":[[0,0]],\"cells\":[[0,0]]}
{\"await\":1}
{\"await\":2}
{\"ask\":1,\"dir\":\"back\",\"path\":[[0,0]],\"cells\":[[0,0]]}
{\"explain\":1,\"dir\":\"back\",\"path\":[[0,0]],\"cells\":[[0,0]]}
{\"ask\":2,\"dir\":\"back\",\"path\":[[0,0]],\"cells\":[[0,0]]}
{\"explain\":2,\"dir\":\"back\",\"path\":[[0,0]],\"cells\":[[0,0]]}
{\"ask\":1,\"dir\":\"forward\",\"path\":[[0,0]],\"cells\":[[2,0]]}
{\"explain\":1,\"dir\":\"forward\",\"path\":[[0,0]],\"cells\":[[2,0]]}
";

const STORED_REPLIES: &[u8] = b"1 array m 1
2 flow f
3 strategy f 0
4 started 1
5 strategy f 0
6 started 2
7 refused 19
8 done 1
9 done 2
10 cells 3 0,0 0,1 1,0
11 explain full_one_b traced 0
12 cells 3 0,0 0,1 1,0
13 explain full_one_f traced 0
14 cells 3 1,0 2,0 2,1
15 explain full_one_b traced 0
";

/// A list that is refused changes nothing, and one that is set after a start nothing of that
/// version. Each node has its own stores, and each direction its own way.
const LISTED: &[u8] = b"{\"array\":\"a\",\"cells\":[[1,2],[300,4]]}
{\"flow\":\"f\",\"inputs\":1,\"nodes\":[{\"op\":\"clean\",\"t\":100,\"from\":[{\"i\":0}]},\
    {\"op\":\"neg\",\"from\":[{\"n\":0}]}]}
{\"strategy\":\"f\",\"node\":0,\"list\":[\"comp_one\",\"full_many_f\",\"pay_many\"]}
{\"strategy\":\"f\",\"node\":1,\"list\":[\"full_many_b\"]}
{\"strategy\":\"f\",\"node\":0,\"list\":[\"full_one_b\",\"pay_one\",\"full_one_b\"]}
{\"strategy\":\"f\",\"node\":0,\"list\":[\"map\"]}
{\"strategy\":\"f\",\"node\":1,\"list\":[\"pay_one\"]}
{\"strategy\":\"f\",\"node\":2,\"list\":[\"full_one_b\"]}
{\"start\":\"f\",\"base\":[[\"a\",1]]}
{\"strategy\":\"f\",\"node\":0,\"list\":[\"blackbox\"]}
{\"await\":1}
{\"ask\":1,\"dir\":\"back\",\"path\":[[1,0],[0,0]],\"cells\":[[1,0]]}
{\"explain\":1,\"dir\":\"back\",\"path\":[[1,0],[0,0]],\"cells\":[[1,0]]}
{\"ask\":1,\"dir\":\"forward\",\"path\":[[0,0],[1,0]],\"cells\":[[0,0]]}
{\"explain\":1,\"dir\":\"forward\",\"path\":[[0,0],[1,0]],\"cells\":[[0,0]]}
{\"start\":\"f\",\"base\":[[\"a\",1]]}
{\"await\":2}
{\"explain\":2,\"dir\":\"back\",\"path\":[[1,0],[0,0]],\"cells\":[[1,0]]}
";

const LISTED_REPLIES: &[u8] = b"1 array a 1
2 flow f
3 strategy f 0
4 strategy f 1
5 refused 18
6 refused 18
7 refused 18
8 refused 18
9 started 1
10 strategy f 0
11 done 1
12 cells 4 0,0 0,1 1,0 1,1
13 explain full_many_b comp_one traced 0
14 cells 2 0,0 1,0
15 explain full_many_f full_many_b traced 0
16 started 2
17 done 2
18 explain full_many_b blackbox traced 4
";

/// No JSON, blank lines, lines that end in a byte 13, a line of the byte 12 alone, which is not
/// blank, and a line without a newline.
const UNEVEN: &[u8] = b"{\"array\":
   
\t \r
{\"await\":1}\r

\x0c
{";

const UNEVEN_REPLIES: &[u8] = b"1 refused 1\n4 refused 15\n6 refused 1\n7 refused 1\n";
