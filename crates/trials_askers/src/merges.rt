//! Stores that are handed to whoever merges them: no clause can see them, so a test does.

use crate::served::is_begun;
use std::test::Fail;
use sz_session::Session;

/// Two versions, each of which keeps a store. The merge of the first is asked twice.
const LINES: [&[u8]; 9] = [
    b"{\"array\":\"a\",\"cells\":[[5,6],[7,8]]}",
    b"{\"flow\":\"f\",\"inputs\":1,\"nodes\":[{\"op\":\"transpose\",\"from\":[{\"i\":0}]}]}",
    b"{\"strategy\":\"f\",\"node\":0,\"list\":[\"full_one_b\"]}",
    b"{\"start\":\"f\",\"base\":[[\"a\",1]]}",
    b"{\"start\":\"f\",\"base\":[[\"a\",1]]}",
    b"{\"await\":1}",
    b"{\"await\":2}",
    b"{\"merge\":1}",
    b"{\"merge\":1}",
];

/// The stores of a version are handed over once, however often its merge is asked, and those of
/// another are not.
#[test]
fn a_merge_hands_out_each_store_once(rt: HostRuntime) -> Result<(), Fail> {
    let alloc = rt.alloc();
    let mut session = Session::fresh(alloc, 1, 1)?;
    let merges = session.merges()?;
    assert!(rt; is_begun(&rt, alloc, &mut session, &LINES)?);
    assert!(rt; merges.try_recv(&rt).is_ok());
    assert!(rt; merges.try_recv(&rt).is_err());
    Ok(())
}
