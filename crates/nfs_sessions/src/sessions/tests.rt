//! The last counter of a session.

use super::*;
use nfs_compound::ChannelAttrs;
use std::test::Fail;

#[test]
fn the_last_counter_is_given_once(rt: HostRuntime) -> Result<(), Fail> {
    let fore = ChannelAttrs {
        headerpadsize: 0,
        maxrequestsize: 2_048,
        maxresponsesize: 2_048,
        maxresponsesize_cached: 0,
        maxoperations: 1,
        maxrequests: 1,
        rdma_ird: None,
    };
    let wish = Wish {
        fore,
        back: fore,
        leaving: None,
    };
    let mut sessions = Sessions {
        sessions: Vec::new(rt.alloc()),
        last: u64::MAX - 1,
        most: 64,
    };
    let id = sessions.create(rt.alloc(), 7, &wish)?;
    assert_eq!(rt; id.counter, u64::MAX);
    for _ in 0..2 {
        let behind = sessions.create(rt.alloc(), 7, &wish);
        assert_eq!(rt; behind, Err(SessionFault::ServerFault));
        sessions.destroy(&id);
    }
    Ok(())
}
