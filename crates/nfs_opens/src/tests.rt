//! What no run of the program comes to in a reasonable time.

use super::*;
use std::test::Fail;

#[test]
fn a_seqid_after_the_last_is_one(rt: HostRuntime) -> Result<(), Fail> {
    for (seqid, next) in [(1, 2), (u32::MAX - 1, u32::MAX), (u32::MAX, 1)] {
        assert_eq!(rt; stateid::next_seqid(seqid), next, "behind {seqid}");
    }
    Ok(())
}
