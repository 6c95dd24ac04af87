//! Items of XDR that are read and put (RFC 4506).

use super::*;
use std::test::Fail;

#[test]
fn items_are_read_where_they_are_spelled(rt: HostRuntime) -> Result<(), Fail> {
    let bytes = [
        0, 0, 0, 3, // 3
        0, 0, 0, 1, 0, 0, 0, 2, // 2^32 + 2
        128, 0, 0, 0, 0, 0, 0, 0, // -2^63
        0, 0, 0, 1, // true
        0, 0, 0, 1, 0x41, 0, 0, 0, // "A"
        1, 2, 3, 4, 5, 6, 0, 0, // six bytes
        0, 0, 0, 2, 1, 2, 3, 4, 5, 6, 7, 8, // two pieces of four bytes
        255, 255, 255, 255, 255, 255, 255, 254, 0, 0, 0, 7, // 7 nanoseconds behind second -2
        9,
    ];
    let mut cursor = Cursor::new(&bytes);
    let numbers = (cursor.u32()?, cursor.u64()?, cursor.i64()?, cursor.flag()?);
    let opaques = (
        cursor.opaque(1)?,
        cursor.fixed::<6>()?,
        cursor.pieces::<4>()?,
    );
    let moment = cursor.time()?;
    assert_eq!(rt; numbers, (3, 4_294_967_298, i64::MIN, true));
    assert_eq!(rt;
        opaques,
        (
            [0x41].as_slice(),
            [1, 2, 3, 4, 5, 6],
            [[1, 2, 3, 4], [5, 6, 7, 8]].as_slice()
        )
    );
    assert_eq!(rt; (moment.seconds, moment.nanoseconds), (-2, 7));
    assert_eq!(rt; (cursor.left(), cursor.rest()), (1, [9].as_slice()));
    Ok(())
}

#[test]
fn a_refused_read_moves_nothing(rt: HostRuntime) {
    let bytes = [0, 0, 0, 2, 0x41, 0, 1, 0];
    let mut cursor = Cursor::new(&bytes);
    let refused = [
        cursor.flag().is_err(),
        cursor.opaque(2).is_err(), // padding that is not zero
        cursor.opaque(1).is_err(), // above the bound
        cursor.pieces::<8>().is_err(),
        cursor.fixed::<9>().is_err(),
    ];
    assert_eq!(rt; (refused, cursor.left()), ([true; 5], 8));
}

#[test]
#[tactic(auto, using(crate::proofs::Putting::putting))]
fn a_sheet_holds_what_was_put(rt: HostRuntime) -> Result<(), Fail> {
    let mut sheet = Sheet::new(rt.alloc(), 64)?;
    sheet.put_u32(3);
    sheet.put_u64(4_294_967_298);
    sheet.put_flag(true);
    sheet.put_opaque(&[0x41]);
    sheet.set_u32(12, 0);
    let whole = [
        0, 0, 0, 3, 0, 0, 0, 1, 0, 0, 0, 2, 0, 0, 0, 0, 0, 0, 0, 1, 0x41, 0, 0, 0,
    ];
    assert_eq!(rt; sheet.bytes(), whole.as_slice());
    let put = sheet.len();
    sheet.cut(20);
    let cut = sheet.len();
    sheet.clear();
    assert_eq!(rt; (put, cut, sheet.len()), (24, 20, 0));
    Ok(())
}

#[test]
#[tactic(auto, using(crate::proofs::Putting::putting), unfolding(crate::specs::Time::time))]
fn moments_and_bytes_are_put(rt: HostRuntime) -> Result<(), Fail> {
    let mut sheet = Sheet::new(rt.alloc(), 20)?;
    sheet.put_bytes(&[1, 2, 3, 4]);
    sheet.put_time(Time {
        seconds: -2,
        nanoseconds: 7,
    });
    sheet.put_fixed(&[5]);
    let whole = [
        1, 2, 3, 4, 255, 255, 255, 255, 255, 255, 255, 254, 0, 0, 0, 7, 5, 0, 0, 0,
    ];
    assert_eq!(rt; sheet.bytes(), whole.as_slice());
    Ok(())
}

#[test]
fn a_sheet_with_impossible_room_is_refused(rt: HostRuntime) {
    assert!(rt; Sheet::new(rt.alloc(), 1 << 62).is_err());
}

#[test]
fn statuses_have_their_numbers(rt: HostRuntime) {
    for (status, number) in [
        (Status::Nfs4Ok, 0),
        (Status::Inval, 22),
        (Status::NotSupp, 10004),
        (Status::MinorVersMismatch, 10021),
        (Status::BadXdr, 10036),
        (Status::OpIllegal, 10044),
        (Status::NotOnlyOp, 10081),
    ] {
        assert_eq!(rt;
            (status.number(), Status::of(number)),
            (number, Some(status))
        );
    }
}
