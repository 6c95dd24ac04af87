//! The fields of a call's head (RFC 5531 sections 8.2 and 9, appendix A).

use super::*;
use std::test::Fail;

#[test]
fn a_call_tells_who_calls_what(rt: HostRuntime) -> Result<(), Fail> {
    let record = [
        0, 0, 0, 7, 0, 0, 0, 0, 0, 0, 0, 2, 0, 1, 0x86, 0xa3, 0, 0, 0, 4, // xid 7, a call of RPC 2, NFS 4
        0, 0, 0, 1, // COMPOUND
        0, 0, 0, 1, 0, 0, 0, 36, // AUTH_SYS
        0, 0, 0, 5, 0, 0, 0, 3, b'a', b'b', b'c', 0, // its stamp and machine name
        0, 0, 3, 0xe8, 0, 0, 0, 100, // uid 1000, gid 100
        0, 0, 0, 3, 0, 0, 0, 20, 0, 0, 0, 30, 0, 0, 0, 40, // three groups
        0, 0, 0, 1, 0, 0, 0, 4, 0, 0, 0, 8, // a verifier, which is not looked at
        0, 0, 0, 0, 0, 0, 0, 1, 0, 0, 0, 0, // arguments
    ];
    let call = Call::read(&record).map_err(|_| "a call of COMPOUND")?;
    let who = call.who;
    assert_eq!(rt;
        (call.xid, call.procedure, who.uid, who.gid),
        (7, Procedure::Compound, 1000, 100)
    );
    assert_eq!(rt;
        (who.groups, call.args),
        (
            [[0, 0, 0, 20], [0, 0, 0, 30], [0, 0, 0, 40]].as_slice(),
            [0, 0, 0, 0, 0, 0, 0, 1, 0, 0, 0, 0].as_slice()
        )
    );
    Ok(())
}
