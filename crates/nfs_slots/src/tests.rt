//! What no run of the program comes to: the status of a slot that is not there.

use super::*;
use nfs_xdr::Status;

#[test]
fn a_verdict_is_answered_with_its_status(rt: HostRuntime) {
    for (verdict, status) in [
        (Verdict::Fresh, Status::Nfs4Ok),
        (Verdict::Again, Status::Nfs4Ok),
        (Verdict::FalseRetry, Status::SeqFalseRetry),
        (Verdict::Misordered, Status::SeqMisordered),
        (Verdict::NoSlot, Status::BadSlot),
    ] {
        assert_eq!(rt; verdict.status(), status);
    }
}
