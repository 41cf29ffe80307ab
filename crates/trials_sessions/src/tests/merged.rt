//! Sessions in which the stores of a version are merged: each row is a text and the replies that
//! are said of it.

use super::rows::Row;

/// The rows.
pub const ROWS: [Row; 3] = [
    ("BESIDE", BESIDE, BESIDE_REPLIES),
    ("KINDS", KINDS, KINDS_REPLIES),
    ("REFRESHED", REFRESHED, REFRESHED_REPLIES),
];

/// The same is asked before a merge, beside it and behind it, and a merge that is asked again
/// changes nothing: a region of three cells, one of one, and five cells that are not high.
const BESIDE: &[u8] = b"{\"array\":\"a\",\"cells\":[[9,9,0],[0,9,0],[9,0,0]]}
{\"flow\":\"f\",\"inputs\":1,\"nodes\":[{\"op\":\"regions\",\"t\":5,\"from\":[{\"i\":0}]}]}
{\"strategy\":\"f\",\"node\":0,\"list\":[\"full_many_b\"]}
{\"start\":\"f\",\"base\":[[\"a\",1]]}
{\"merge\":1}
{\"merged\":1}
{\"await\":1}
{\"ask\":1,\"dir\":\"back\",\"path\":[[0,0]],\"cells\":[[1,1]]}
{\"ask\":1,\"dir\":\"forward\",\"path\":[[0,0]],\"cells\":[[0,0]]}
{\"explain\":1,\"dir\":\"back\",\"path\":[[0,0]],\"cells\":[[1,1]]}
{\"merged\":1}
{\"merge\":1}
{\"ask\":1,\"dir\":\"back\",\"path\":[[0,0]],\"cells\":[[1,1]]}
{\"ask\":1,\"dir\":\"forward\",\"path\":[[0,0]],\"cells\":[[0,0]]}
{\"explain\":1,\"dir\":\"back\",\"path\":[[0,0]],\"cells\":[[1,1]]}
{\"merge\":1}
{\"merged\":1}
{\"ask\":1,\"dir\":\"back\",\"path\":[[0,0]],\"cells\":[[1,1]]}
{\"ask\":1,\"dir\":\"forward\",\"path\":[[0,0]],\"cells\":[[0,0]]}
{\"explain\":1,\"dir\":\"back\",\"path\":[[0,0]],\"cells\":[[1,1]]}
{\"merged\":1}
{\"merge\":1}
{\"merged\":1}
{\"merge\":2}
{\"merged\":2}
";

const BESIDE_REPLIES: &[u8] = b"1 array a 1
2 flow f
3 strategy f 0
4 started 1
5 refused 22
6 refused 25
7 done 1
8 cells 3 0,0 0,1 1,1
9 cells 3 0,0 0,1 1,1
10 explain full_many_b traced 0
11 refused 25
12 merging 1
13 cells 3 0,0 0,1 1,1
14 cells 3 0,0 0,1 1,1
15 explain full_many_b traced 0
16 merging 1
17 merged 1 7
18 cells 3 0,0 0,1 1,1
19 cells 3 0,0 0,1 1,1
20 explain full_many_b traced 0
21 merged 1 7
22 merging 1
23 merged 1 7
24 refused 15
25 refused 15
";

/// Cells whose lineage differs in one input alone, cells that have none, and versions of several
/// nodes and lists: one number for each store of full lineage, in the order of nodes and lists.
const KINDS: &[u8] = b"{\"array\":\"a\",\"cells\":[[0,0,1]]}
{\"array\":\"t\",\"cells\":[[10,20]]}
{\"flow\":\"l\",\"inputs\":2,\"nodes\":[{\"op\":\"lookup\",\"from\":[{\"i\":0},{\"i\":1}]}]}
{\"strategy\":\"l\",\"node\":0,\"list\":[\"full_one_b\"]}
{\"start\":\"l\",\"base\":[[\"a\",1],[\"t\",1]]}
{\"await\":1}
{\"merge\":1}
{\"merged\":1}
{\"array\":\"m\",\"cells\":[[1,2,3],[4,5,6],[7,8,9]]}
{\"flow\":\"c\",\"inputs\":1,\"nodes\":[{\"op\":\"convolve\",\"kernel\":[[0]],\
    \"from\":[{\"i\":0}]}]}
{\"strategy\":\"c\",\"node\":0,\"list\":[\"full_many_f\"]}
{\"start\":\"c\",\"base\":[[\"m\",1]]}
{\"await\":2}
{\"merge\":2}
{\"merged\":2}
{\"ask\":2,\"dir\":\"forward\",\"path\":[[0,0]],\"cells\":[[1,1]]}
{\"flow\":\"b\",\"inputs\":1,\"nodes\":[{\"op\":\"block\",\"fold\":\"sum\",\"h\":2,\"w\":2,\
    \"from\":[{\"i\":0}]},{\"op\":\"regions\",\"t\":10,\"from\":[{\"n\":0}]},{\"op\":\"neg\",\
    \"from\":[{\"n\":1}]}]}
{\"strategy\":\"b\",\"node\":0,\"list\":[\"full_one_f\",\"map\",\"full_one_b\"]}
{\"strategy\":\"b\",\"node\":1,\"list\":[\"comp_one\",\"full_many_f\"]}
{\"start\":\"b\",\"base\":[[\"m\",1]]}
{\"await\":3}
{\"merge\":3}
{\"merged\":3}
{\"start\":\"s\",\"base\":[[\"m\",1]]}
{\"flow\":\"s\",\"inputs\":1,\"nodes\":[{\"op\":\"neg\",\"from\":[{\"i\":0}]}]}
{\"start\":\"s\",\"base\":[[\"m\",1]]}
{\"await\":4}
{\"merge\":4}
{\"merged\":4}
";

const KINDS_REPLIES: &[u8] = b"1 array a 1
2 array t 1
3 flow l
4 strategy l 0
5 started 1
6 done 1
7 merging 1
8 merged 1 3
9 array m 1
10 flow c
11 strategy c 0
12 started 2
13 done 2
14 merging 2
15 merged 2 0
16 cells 0
17 flow b
18 strategy b 0
19 strategy b 1
20 started 3
21 done 3
22 merging 3
23 merged 3 4 4 3
24 refused 10
25 flow s
26 started 4
27 done 4
28 merging 4
29 merged 4
";

/// A version that a refresh made is merged by itself, and one that was merged is refreshed.
const REFRESHED: &[u8] = b"{\"array\":\"a\",\"cells\":[[9,0,9]]}
{\"flow\":\"f\",\"inputs\":1,\"nodes\":[{\"op\":\"regions\",\"t\":5,\"from\":[{\"i\":0}]}]}
{\"strategy\":\"f\",\"node\":0,\"list\":[\"full_many_b\"]}
{\"start\":\"f\",\"base\":[[\"a\",1]]}
{\"await\":1}
{\"merge\":1}
{\"refresh\":1,\"input\":0,\"set\":[[0,1,8]]}
{\"merge\":2}
{\"merged\":2}
{\"await\":2}
{\"merged\":2}
{\"merge\":2}
{\"ask\":2,\"dir\":\"back\",\"path\":[[0,0]],\"cells\":[[0,2]]}
{\"merged\":2}
{\"ask\":2,\"dir\":\"back\",\"path\":[[0,0]],\"cells\":[[0,2]]}
{\"merged\":1}
{\"refresh\":2,\"input\":0,\"set\":[[0,0,null]]}
{\"show\":3,\"node\":0}
{\"merged\":3}
";

const REFRESHED_REPLIES: &[u8] = b"1 array a 1
2 flow f
3 strategy f 0
4 started 1
5 done 1
6 merging 1
7 refreshed 2 cells 3
8 refused 22
9 refused 25
10 done 2
11 refused 25
12 merging 2
13 cells 3 0,0 0,1 0,2
14 merged 2 1
15 cells 3 0,0 0,1 0,2
16 merged 1 3
17 refreshed 3 cells 3
18 values 1 3 0 2 2
19 refused 25
";
