//! A slot behind the last number.

use super::*;
use std::test::Fail;

#[test]
fn numbers_go_round(rt: HostRuntime) -> Result<(), Fail> {
    let mut slot = Slot::new(rt.alloc(), 4, 4)?;
    slot.number = u32::MAX;
    slot.used = true;
    for (number, args, want) in [
        (u32::MAX, b"".as_slice(), Verdict::Again),
        (1, b"".as_slice(), Verdict::Misordered),
        (0, b"args".as_slice(), Verdict::Fresh),
    ] {
        assert_eq!(rt;
            slot.judge(number, 0, &Args::new(args, b"")),
            want,
            "{number}"
        );
    }
    slot.keep(0, 0, &Args::new(b"ar", b"gs"), b"kept");
    for (number, want) in [
        (0, Verdict::Again),
        (u32::MAX, Verdict::Misordered),
        (1, Verdict::Fresh),
    ] {
        assert_eq!(rt;
            slot.judge(number, 0, &Args::new(b"arg", b"s")),
            want,
            "{number}"
        );
    }
    assert_eq!(rt; slot.reply(), b"kept".as_slice());
    Ok(())
}
