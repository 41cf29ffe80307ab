//! Sessions in which a version is refreshed: each row is a text and the replies that are said of
//! it.

use super::rows::Row;

/// The rows.
pub const ROWS: [Row; 4] = [
    ("SET", SET, SET_REPLIES),
    ("JOINED", JOINED, JOINED_REPLIES),
    ("IN_LAYERS", IN_LAYERS, IN_LAYERS_REPLIES),
    ("OF_TWO", OF_TWO, OF_TWO_REPLIES),
];

/// One cell, set behind the await, twice in one line and to be empty. The versions of the array's
/// name count on, and the version that was refreshed stays as it was.
const SET: &[u8] = b"{\"array\":\"a\",\"cells\":[[5]]}
{\"flow\":\"f\",\"inputs\":1,\"nodes\":[{\"op\":\"neg\",\"from\":[{\"i\":0}]}]}
{\"start\":\"f\",\"base\":[[\"a\",1]]}
{\"refresh\":1,\"input\":0,\"set\":[[0,0,7]]}
{\"await\":1}
{\"refresh\":1,\"input\":1,\"set\":[[0,0,7]]}
{\"refresh\":2,\"input\":0,\"set\":[[0,0,7]]}
{\"refresh\":1,\"input\":0,\"set\":[[0,1,7]]}
{\"refresh\":1,\"input\":0,\"set\":[[0,0,7.0]]}
{\"refresh\":1,\"input\":0,\"set\":[[0,0,7]]}
{\"show\":2,\"node\":0}
{\"refresh\":2,\"input\":0,\"set\":[[0,0,8]]}
{\"await\":2}
{\"refresh\":2,\"input\":0,\"set\":[[0,0,8],[0,0,null]]}
{\"show\":3,\"node\":0}
{\"show\":1,\"node\":0}
{\"array\":\"a\",\"cells\":[[1]]}
{\"start\":\"f\",\"base\":[[\"a\",2]]}
{\"show\":4,\"node\":0}
{\"start\":\"f\",\"base\":[[\"a\",3]]}
{\"show\":5,\"node\":0}
";

const SET_REPLIES: &[u8] = b"1 array a 1
2 flow f
3 started 1
4 refused 22
5 done 1
6 refused 23
7 refused 15
8 refused 17
9 refused 3
10 refreshed 2 cells 1
11 values 1 1 -7
12 refused 22
13 done 2
14 refreshed 3 cells 1
15 values 1 1 -
16 values 1 1 -5
17 array a 4
18 started 4
19 values 1 1 -7
20 started 5
21 values 1 1 -
";

/// Two regions that a set cell joins, and parts again: what it reached before is made again, and
/// what it reaches then. A cell that is set to what it holds is set.
const JOINED: &[u8] = b"{\"array\":\"a\",\"cells\":[[9,0,9]]}
{\"flow\":\"f\",\"inputs\":1,\"nodes\":[{\"op\":\"regions\",\"t\":5,\"from\":[{\"i\":0}]}]}
{\"strategy\":\"f\",\"node\":0,\"list\":[\"full_many_b\",\"pay_one\"]}
{\"start\":\"f\",\"base\":[[\"a\",1]]}
{\"await\":1}
{\"strategy\":\"f\",\"node\":0,\"list\":[\"blackbox\"]}
{\"refresh\":1,\"input\":0,\"set\":[[0,1,8]]}
{\"show\":2,\"node\":0}
{\"ask\":2,\"dir\":\"back\",\"path\":[[0,0]],\"cells\":[[0,2]]}
{\"explain\":2,\"dir\":\"back\",\"path\":[[0,0]],\"cells\":[[0,2]]}
{\"await\":2}
{\"ask\":2,\"dir\":\"forward\",\"path\":[[0,0]],\"cells\":[[0,0]]}
{\"explain\":2,\"dir\":\"back\",\"path\":[[0,0]],\"cells\":[[0,2]]}
{\"ask\":1,\"dir\":\"back\",\"path\":[[0,0]],\"cells\":[[0,2]]}
{\"refresh\":2,\"input\":0,\"set\":[]}
{\"show\":3,\"node\":0}
{\"refresh\":2,\"input\":0,\"set\":[[0,1,0]]}
{\"show\":4,\"node\":0}
{\"refresh\":1,\"input\":0,\"set\":[[0,0,9]]}
";

const JOINED_REPLIES: &[u8] = b"1 array a 1
2 flow f
3 strategy f 0
4 started 1
5 done 1
6 strategy f 0
7 refreshed 2 cells 3
8 values 1 3 1 1 1
9 cells 3 0,0 0,1 0,2
10 refused 19
11 done 2
12 cells 3 0,0 0,1 0,2
13 explain full_many_b traced 0
14 cells 1 0,2
15 refreshed 3 cells 0
16 values 1 3 1 1 1
17 refreshed 4 cells 3
18 values 1 3 1 0 3
19 refreshed 5 cells 1
";

/// Cells of two layers, named by three numbers and by four, and a flow of two nodes: of each the
/// cells are counted that are made again.
const IN_LAYERS: &[u8] = b"{\"layers\":\"a\",\"cells\":[[[1,2]],[[3,null]]]}
{\"flow\":\"f\",\"inputs\":1,\"nodes\":[{\"op\":\"neg\",\"from\":[{\"i\":0}]},\
    {\"op\":\"fold_layers\",\"fold\":\"sum\",\"from\":[{\"n\":0}]}]}
{\"start\":\"f\",\"base\":[[\"a\",1]]}
{\"await\":1}
{\"refresh\":1,\"input\":0,\"set\":[[1,0,1,4]]}
{\"show\":2,\"node\":0}
{\"show\":2,\"node\":1}
{\"refresh\":1,\"input\":0,\"set\":[[0,1,5],[1,0,1,4],[0,0,0,-1]]}
{\"show\":3,\"node\":0}
{\"show\":3,\"node\":1}
{\"refresh\":1,\"input\":0,\"set\":[[2,0,0,1]]}
{\"refresh\":1,\"input\":0,\"set\":[[1,0,1]]}
{\"await\":3}
{\"ask\":3,\"dir\":\"back\",\"path\":[[1,0],[0,0]],\"cells\":[[0,1]]}
{\"ask\":3,\"dir\":\"forward\",\"path\":[[0,0],[1,0]],\"cells\":[[1,0,0]]}
";

const IN_LAYERS_REPLIES: &[u8] = b"1 array a 1
2 flow f
3 started 1
4 done 1
5 refreshed 2 cells 2
6 layers 2 1 2 -1 -2 -3 -4
7 values 1 2 -4 -6
8 refreshed 3 cells 5
9 layers 2 1 2 1 -5 -3 -4
10 values 1 2 -2 -9
11 refused 17
12 refused 17
13 done 3
14 cells 2 0,0,1 1,0,1
15 cells 1 0,0
";

/// One of two inputs, where both are one array, and where a table is the second.
const OF_TWO: &[u8] = b"{\"array\":\"a\",\"cells\":[[5]]}
{\"flow\":\"s\",\"inputs\":2,\"nodes\":[{\"op\":\"add\",\"from\":[{\"i\":0},{\"i\":1}]}]}
{\"start\":\"s\",\"base\":[[\"a\",1],[\"a\",1]]}
{\"await\":1}
{\"refresh\":1,\"input\":1,\"set\":[[0,0,7]]}
{\"show\":2,\"node\":0}
{\"array\":\"c\",\"cells\":[[0,0,1]]}
{\"array\":\"t\",\"cells\":[[10,20]]}
{\"flow\":\"l\",\"inputs\":2,\"nodes\":[{\"op\":\"lookup\",\"from\":[{\"i\":0},{\"i\":1}]}]}
{\"start\":\"l\",\"base\":[[\"c\",1],[\"t\",1]]}
{\"await\":3}
{\"refresh\":3,\"input\":1,\"set\":[[0,0,30]]}
{\"show\":4,\"node\":0}
{\"await\":4}
{\"refresh\":4,\"input\":0,\"set\":[[0,1,1]]}
{\"show\":5,\"node\":0}
{\"ask\":5,\"dir\":\"forward\",\"path\":[[0,1]],\"cells\":[[0,1]]}
{\"refresh\":4,\"input\":2,\"set\":[[0,1,1]]}
";

const OF_TWO_REPLIES: &[u8] = b"1 array a 1
2 flow s
3 started 1
4 done 1
5 refreshed 2 cells 1
6 values 1 1 12
7 array c 1
8 array t 1
9 flow l
10 started 3
11 done 3
12 refreshed 4 cells 2
13 values 1 3 30 30 20
14 done 4
15 refreshed 5 cells 1
16 values 1 3 30 20 20
17 cells 2 0,1 0,2
18 refused 23
";
