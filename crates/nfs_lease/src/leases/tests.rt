//! The order in which leases are kept, which no call tells.

use super::*;
use std::test::Fail;

#[test]
fn a_renewed_client_goes_behind_the_others(rt: HostRuntime) -> Result<(), Fail> {
    let mut leases = Leases::new(rt.alloc())?;
    leases.add(rt.alloc(), 1, 100)?;
    leases.add(rt.alloc(), 2, 100)?;
    leases.renew(1, 100);
    let kept: Vec<u64> = leases
        .renewals
        .iter()
        .rev()
        .map(|(client, _)| *client)
        .collect(rt.alloc())?;
    assert_eq!(rt; kept.as_slice(), [2, 1].as_slice());
    Ok(())
}
