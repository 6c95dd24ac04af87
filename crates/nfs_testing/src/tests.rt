//! What the helper of tests gives.

use super::*;
use std::test::Fail;

#[test]
fn words_are_sent_highest_byte_first(rt: HostRuntime) -> Result<(), Fail> {
    let bytes = bytes_of(rt.alloc(), &[&[1, 0x0203_0405], &[], &[u32::MAX]])?;
    assert_eq!(rt;
        bytes.as_slice(),
        [0, 0, 0, 1, 2, 3, 4, 5, 255, 255, 255, 255].as_slice()
    );
    Ok(())
}
