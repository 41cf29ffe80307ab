//! The sessions whose disk calls fail, and what is asked of the log that is left.

/// A session, and what is asked of a log on which it was answered.
#[derive(Clone, Copy, Drop)]
pub struct Row {
    pub name: &'static str,
    /// Its lines, and their replies.
    pub text: &'static [u8],
    pub replies: &'static [u8],
    /// The numbers of the lines that make something durable.
    pub lasting: &'static [usize],
    /// Lines that tell what a log holds.
    pub asks: &'static [u8],
    /// What they and a check say of a log that holds nothing, and of one on which all was answered.
    pub none: &'static [u8],
    pub all: &'static [u8],
}

/// Cells of a transposed array, and of a cut one. The second version is not awaited.
pub const MOVED: Row = Row {
    name: "MOVED",
    text: b"{\"array\":\"a\",\"cells\":[[1,2,3],[4,5,6]]}
{\"flow\":\"f\",\"inputs\":1,\"nodes\":[{\"op\":\"transpose\",\"from\":[{\"i\":0}]}]}
{\"start\":\"f\",\"base\":[[\"a\",1]]}
{\"await\":1}
{\"ask\":1,\"dir\":\"back\",\"path\":[[0,0]],\"cells\":[[2,0]]}
{\"array\":\"m\",\"cells\":[[1,2,3],[4,5,6],[7,8,9]]}
{\"flow\":\"g\",\"inputs\":1,\"nodes\":[{\"op\":\"slice\",\"r0\":1,\"c0\":1,\"h\":2,\"w\":2,\
    \"from\":[{\"i\":0}]}]}
{\"start\":\"g\",\"base\":[[\"m\",1]]}
{\"show\":2,\"node\":0}
{\"ask\":2,\"dir\":\"back\",\"path\":[[0,0]],\"cells\":[[0,1]]}
{\"ask\":2,\"dir\":\"forward\",\"path\":[[0,0]],\"cells\":[[0,0]]}
",
    replies: b"1 array a 1
2 flow f
3 started 1
4 done 1
5 cells 1 0,2
6 array m 1
7 flow g
8 started 2
9 values 2 2 5 6 8 9
10 cells 1 1,2
11 cells 0
",
    lasting: &[1, 2, 4, 6, 7],
    asks: b"{\"show\":1,\"node\":0}
{\"ask\":1,\"dir\":\"back\",\"path\":[[0,0]],\"cells\":[[2,0]]}
{\"explain\":1,\"dir\":\"back\",\"path\":[[0,0]],\"cells\":[[2,0]]}
{\"ask\":2,\"dir\":\"back\",\"path\":[[0,0]],\"cells\":[[0,1]]}
{\"start\":\"g\",\"base\":[[\"m\",1]]}
{\"flow\":\"f\",\"inputs\":1,\"nodes\":[{\"op\":\"neg\",\"from\":[{\"i\":0}]}]}
{\"flow\":\"g\",\"inputs\":1,\"nodes\":[{\"op\":\"neg\",\"from\":[{\"i\":0}]}]}
{\"array\":\"a\",\"cells\":[[1]]}
{\"array\":\"m\",\"cells\":[[1]]}
",
    none: b"1 refused 15
2 refused 15
3 refused 15
4 refused 15
5 refused 10
6 flow f
7 flow g
8 array a 1
9 array m 1
sound 0
",
    all: b"1 values 3 2 1 4 2 5 3 6
2 cells 1 0,2
3 explain map traced 0
4 refused 15
5 started 2
6 refused 9
7 refused 9
8 array a 2
9 array m 2
sound 1
",
};

/// The stars of an image, with stores for each node of the flow. The second version is not awaited.
pub const STARS: Row = Row {
    name: "STARS",
    text: b"{\"array\":\"sky\",\"cells\":[[10,10,10,10,10,10],[10,5000,10,10,10,10],\
    [10,10,10,200,210,10],[10,10,10,190,200,10],[10,10,10,10,10,10],[10,10,10,10,10,10]]}
{\"flow\":\"stars\",\"inputs\":1,\"nodes\":[{\"op\":\"clean\",\"t\":1000,\"from\":[{\"i\":0}]},\
    {\"op\":\"convolve\",\"kernel\":[[0,1,0],[1,1,1],[0,1,0]],\"from\":[{\"n\":0}]},\
    {\"op\":\"regions\",\"t\":200,\"from\":[{\"n\":1}]},\
    {\"op\":\"block\",\"fold\":\"max\",\"h\":2,\"w\":2,\"from\":[{\"n\":2}]}]}
{\"strategy\":\"stars\",\"node\":0,\"list\":[\"comp_one\"]}
{\"strategy\":\"stars\",\"node\":1,\"list\":[\"full_one_b\"]}
{\"strategy\":\"stars\",\"node\":2,\"list\":[\"pay_one\",\"full_many_b\"]}
{\"strategy\":\"stars\",\"node\":3,\"list\":[\"full_many_f\"]}
{\"start\":\"stars\",\"base\":[[\"sky\",1]]}
{\"await\":1}
{\"show\":1,\"node\":3}
{\"ask\":1,\"dir\":\"back\",\"path\":[[3,0],[2,0],[1,0],[0,0]],\"cells\":[[0,1]]}
{\"ask\":1,\"dir\":\"forward\",\"path\":[[0,0],[1,0],[2,0],[3,0]],\"cells\":[[1,1]]}
{\"explain\":1,\"dir\":\"back\",\"path\":[[3,0],[2,0],[1,0],[0,0]],\"cells\":[[0,1]]}
{\"ask\":1,\"dir\":\"back\",\"path\":[[3,0],[1,0]],\"cells\":[[0,1]]}
{\"start\":\"stars\",\"base\":[[\"sky\",1]]}
",
    replies: b"1 array sky 1
2 flow stars
3 strategy stars 0
4 strategy stars 1
5 strategy stars 2
6 strategy stars 3
7 started 1
8 done 1
9 values 3 3 0 10 10 0 10 10 0 10 10
10 cells 28 0,0 0,1 0,2 0,3 0,4 1,0 1,1 1,2 1,3 1,4 1,5 2,0 2,1 2,2 2,3 2,4 2,5 3,1 3,2 3,3 3,4 \
    3,5 4,2 4,3 4,4 4,5 5,3 5,4
11 cells 3 0,0 0,1 1,0
12 explain full_many_f full_many_b full_one_b comp_one traced 0
13 refused 16
14 started 2
",
    lasting: &[1, 2, 3, 4, 5, 6, 8],
    asks: b"{\"show\":1,\"node\":3}
{\"ask\":1,\"dir\":\"back\",\"path\":[[3,0],[2,0],[1,0],[0,0]],\"cells\":[[0,1]]}
{\"ask\":1,\"dir\":\"forward\",\"path\":[[0,0],[1,0],[2,0],[3,0]],\"cells\":[[1,1]]}
{\"explain\":1,\"dir\":\"back\",\"path\":[[3,0],[2,0],[1,0],[0,0]],\"cells\":[[0,1]]}
{\"ask\":2,\"dir\":\"back\",\"path\":[[3,0]],\"cells\":[[0,1]]}
{\"start\":\"stars\",\"base\":[[\"sky\",1]]}
{\"await\":1}
{\"explain\":1,\"dir\":\"forward\",\"path\":[[0,0],[1,0],[2,0],[3,0]],\"cells\":[[1,1]]}
{\"array\":\"sky\",\"cells\":[[1]]}
",
    none: b"1 refused 15
2 refused 15
3 refused 15
4 refused 15
5 refused 15
6 refused 10
7 refused 15
8 refused 15
9 array sky 1
sound 0
",
    all: b"1 values 3 3 0 10 10 0 10 10 0 10 10
2 cells 28 0,0 0,1 0,2 0,3 0,4 1,0 1,1 1,2 1,3 1,4 1,5 2,0 2,1 2,2 2,3 2,4 2,5 3,1 3,2 3,3 3,4 \
    3,5 4,2 4,3 4,4 4,5 5,3 5,4
3 cells 3 0,0 0,1 1,0
4 explain full_many_f full_many_b full_one_b comp_one traced 0
5 refused 15
6 started 2
7 done 1
8 explain comp_one full_one_b full_many_b full_many_f traced 0
9 array sky 2
sound 1
",
};

/// A refresh whose version is awaited, and whose stores are merged, and one whose version is not:
/// of each the array lasts at once, and the version from its await on; of a merge nothing lasts.
pub const REFRESHED: Row = Row {
    name: "REFRESHED",
    text: b"{\"array\":\"a\",\"cells\":[[9,0,9]]}
{\"flow\":\"f\",\"inputs\":1,\"nodes\":[{\"op\":\"regions\",\"t\":5,\"from\":[{\"i\":0}]}]}
{\"strategy\":\"f\",\"node\":0,\"list\":[\"full_many_b\"]}
{\"start\":\"f\",\"base\":[[\"a\",1]]}
{\"await\":1}
{\"refresh\":1,\"input\":0,\"set\":[[0,1,8]]}
{\"show\":2,\"node\":0}
{\"await\":2}
{\"merge\":2}
{\"merged\":2}
{\"refresh\":2,\"input\":0,\"set\":[[0,0,null]]}
{\"show\":3,\"node\":0}
",
    replies: b"1 array a 1
2 flow f
3 strategy f 0
4 started 1
5 done 1
6 refreshed 2 cells 3
7 values 1 3 1 1 1
8 done 2
9 merging 2
10 merged 2 1
11 refreshed 3 cells 3
12 values 1 3 0 2 2
",
    lasting: &[1, 2, 3, 5, 6, 8, 11],
    asks: b"{\"show\":1,\"node\":0}
{\"ask\":1,\"dir\":\"back\",\"path\":[[0,0]],\"cells\":[[0,0]]}
{\"show\":2,\"node\":0}
{\"ask\":2,\"dir\":\"back\",\"path\":[[0,0]],\"cells\":[[0,2]]}
{\"explain\":2,\"dir\":\"back\",\"path\":[[0,0]],\"cells\":[[0,2]]}
{\"merged\":2}
{\"merge\":2}
{\"merged\":2}
{\"start\":\"f\",\"base\":[[\"a\",1]]}
{\"await\":1}
{\"explain\":1,\"dir\":\"back\",\"path\":[[0,0]],\"cells\":[[0,0]]}
{\"start\":\"f\",\"base\":[[\"a\",2]]}
{\"start\":\"f\",\"base\":[[\"a\",3]]}
{\"array\":\"a\",\"cells\":[[1]]}
",
    none: b"1 refused 15
2 refused 15
3 refused 15
4 refused 15
5 refused 15
6 refused 15
7 refused 15
8 refused 15
9 refused 10
10 refused 15
11 refused 15
12 refused 10
13 refused 10
14 array a 1
sound 0
",
    all: b"1 values 1 3 1 0 3
2 cells 1 0,0
3 values 1 3 1 1 1
4 cells 3 0,0 0,1 0,2
5 explain full_many_b traced 0
6 refused 25
7 merging 2
8 merged 2 1
9 started 3
10 done 1
11 explain full_many_b traced 0
12 started 4
13 started 5
14 array a 4
sound 2
",
};
