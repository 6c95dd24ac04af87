//! Handles, attributes read and written, who may do what, and who may set what (RFC 8881 sections 4, 5 and 6.2.4).

use super::*;
use nfs_tree::{FileType, Object, Profile};
use nfs_xdr::{Sheet, Status, Time, Who};
use std::alloc::{AllocError, Global};
use std::test::Fail;

/// A file in which no two numbers are equal.
const FILE: Object = Object {
    kind: FileType::Regular,
    mode: 0o644,
    owner: 1000,
    group: 50,
    change: 7,
    access: Time {
        seconds: -1,
        nanoseconds: 5,
    },
    metadata: Time {
        seconds: 100,
        nanoseconds: 6,
    },
    modify: Time {
        seconds: 4_294_967_296,
        nanoseconds: 8,
    },
    verifier: None,
};

const ABOUT: About = About {
    number: 12,
    size: 9,
    links: 3,
    instance: 11,
    lease: 90,
    most_bytes: 1_048_576,
    profile: Profile::Exact,
    used: 9,
    files_free: 5,
    files_total: 65_536,
    space_free: 4_096,
    space_total: 8_192,
};

fn object(kind: FileType, mode: u32, owner: u32, group: u32) -> Object {
    let at = Time {
        seconds: 100,
        nanoseconds: 0,
    };
    Object {
        kind,
        mode,
        owner,
        group,
        change: 1,
        access: at,
        metadata: at,
        modify: at,
        verifier: None,
    }
}

fn asking(first: u32, second: u32, third: u32) -> Mask {
    Mask::new(&[
        first.to_be_bytes(),
        second.to_be_bytes(),
        third.to_be_bytes(),
    ])
}

/// The further group 8, and the further group 50.
const EIGHT: &[[u8; 4]] = &[[0, 0, 0, 8]];

const FIFTY: &[[u8; 4]] = &[[0, 0, 0, 50]];

fn caller(uid: u32, gid: u32, groups: &[[u8; 4]]) -> Who<'_> {
    Who { uid, gid, groups }
}

fn written(
    alloc: Global,
    object: &Object,
    about: &About,
    asked: Mask,
) -> Result<Sheet, AllocError> {
    let mut sheet = Sheet::new(alloc, attrs_len(object, about, asked))?;
    write_attrs(object, about, asked, &mut sheet);
    Ok(sheet)
}

#[test]
fn writes_each_attribute(rt: HostRuntime) -> Result<(), Fail> {
    let expected: [u32; 62] = [
        3,
        0xf818_0fff,
        0x00b0_a03a,
        0x0800, // those that can be read
        228, // the bytes of the values
        3,
        0xf818_0fff,
        0x00f1_a03a,
        0x0800, // supported_attrs
        1,
        0,
        0,
        7,
        0,
        9,
        1,
        1,
        0, // type to named_attr
        0,
        0,
        0,
        1,
        1,
        90,
        0, // fsid to rdattr_error
        16,
        11,
        0,
        0,
        12,
        0,
        12, // filehandle, fileid
        0,
        0x0010_0000,
        1024,
        255,
        0,
        65_536,
        0,
        65_536, // maxfilesize to maxwrite
        0o644,
        3,
        4,
        0x3130_3030,
        2,
        0x3530_0000, // mode, numlinks, "1000", "50"
        0,
        9,
        0xffff_ffff,
        0xffff_ffff,
        5, // space_used, time_access
        0,
        100,
        6,
        1,
        0,
        8, // time_metadata, time_modify
        0,
        12,
        2,
        0x10,
        0x0041_0032, // mounted_on_fileid, suppattr_exclcreat
    ];
    let sheet = written(rt.alloc(), &FILE, &ABOUT, SUPPORTED)?;
    let (words, _) = sheet.bytes().as_chunks::<4>();
    assert_eq!(rt; words.len(), expected.len());
    for (word, number) in words.iter().zip(&expected) {
        assert_eq!(rt; u32::from_be_bytes(*word), *number);
    }
    Ok(())
}

#[test]
fn writes_what_is_asked(rt: HostRuntime) -> Result<(), Fail> {
    let directory = object(FileType::Directory, 493, 0, 0);
    let about = About {
        number: 2,
        size: 0,
        links: 1,
        instance: 7,
        used: 0,
        ..ABOUT
    };
    let some: [u8; 40] = [
        0, 0, 0, 2, 0, 0, 0, 0x18, 0, 0, 0, 0x0a, 0, 0, 0, 0x18, 0, 0, 0, 0, 0, 0, 0, 1, 0, 0, 0,
        0, 0, 0, 0, 0, 0, 0, 1, 0xed, 0, 0, 0, 1,
    ];
    let sheet = written(rt.alloc(), &directory, &about, asking(0x18, 0x0a, 0))?;
    assert_eq!(rt; sheet.bytes(), some.as_slice());
    let all: [u8; 28] = [
        0, 0, 0, 1, 0, 0, 0, 1, 0, 0, 0, 0x10, 0, 0, 0, 3, 0xf8, 0x18, 0x0f, 0xff, 0, 0xf1, 0xa0,
        0x3a, 0, 0, 8, 0,
    ];
    let sheet = written(rt.alloc(), &directory, &about, asking(1, 0, 0))?;
    assert_eq!(rt; sheet.bytes(), all.as_slice());
    Ok(())
}

#[test]
fn tells_how_much_there_may_be_in_unix_alone(rt: HostRuntime) -> Result<(), Fail> {
    let asked = asking(0x00e0_0000, 0x0008_1c00, 0);
    let expected: [u32; 19] = [
        2,
        0x00e0_0000,
        0x0008_1c00,
        60,
        0,
        5,
        0,
        5,
        0,
        65_536, // files_avail, files_free, files_total
        0,
        4_096,
        0,
        4_096,
        0,
        8_192, // space_avail, space_free, space_total
        0,
        0,
        1, // time_delta
    ];
    let about = About {
        profile: Profile::Unix,
        ..ABOUT
    };
    let sheet = written(rt.alloc(), &FILE, &about, asked)?;
    let (words, _) = sheet.bytes().as_chunks::<4>();
    assert_eq!(rt; words.len(), expected.len());
    for (word, number) in words.iter().zip(&expected) {
        assert_eq!(rt; u32::from_be_bytes(*word), *number);
    }
    let sheet = written(rt.alloc(), &FILE, &ABOUT, asked)?;
    assert_eq!(rt; sheet.bytes(), [0; 8].as_slice());
    Ok(())
}

#[test]
fn compares_with_its_own_spelling(rt: HostRuntime) {
    let directory = object(FileType::Directory, 493, 0, 0);
    let cases: [(Mask, &[u8], Result<bool, AttrFault>); 8] = [
        (asking(2, 0, 0), &[0, 0, 0, 2], Ok(true)),
        (asking(2, 0, 0), &[0, 0, 0, 1], Ok(false)),
        (asking(2, 0, 0), &[0, 0, 0, 2, 0, 0, 0, 0], Ok(false)),
        (asking(0, 0x10, 0), &[0, 0, 0, 1, 0x30, 0, 0, 0], Ok(true)),
        (asking(0x800, 0, 0), &[0, 0, 0, 0], Err(AttrFault::Inval)),
        (
            asking(0, 0x0001_0000, 0),
            &[0, 0, 0, 0],
            Err(AttrFault::Inval),
        ),
        (asking(0x800, 1, 0), &[], Err(AttrFault::AttrNotSupp)),
        (asking(0, 0, 0), &[], Ok(true)),
    ];
    for (asked, values, answer) in cases {
        assert_eq!(rt; same(&directory, &ABOUT, asked, values), answer);
    }
    assert!(rt; asking(0, 0x0040_0000, 0).asks_set_only());
    assert!(rt; !readable(Profile::Exact).asks_set_only());
}

#[test]
fn reads_what_is_set(rt: HostRuntime) {
    let given = asking(0x10, 0x0041_0032, 0);
    let values: [u8; 56] = [
        0, 0, 0, 0, 0, 0, 0, 5, // size
        0, 0, 1, 0xe9, // mode
        0, 0, 0, 1, b'7', 0, 0, 0, // owner
        0, 0, 0, 10, b'4', b'2', b'9', b'4', b'9', b'6', b'7', b'2', b'9', b'5', 0, 0, // group
        0, 0, 0, 0, // the server's time
        0, 0, 0, 1, 0xff, 0xff, 0xff, 0xff, 0xff, 0xff, 0xff, 0xfe, 0x3b, 0x9a, 0xc9, 0xff, // a given time
    ];
    let wanted = Wanted {
        size: Some(5),
        mode: Some(0o751),
        owner: Some(7),
        group: Some(4_294_967_295),
        access: Some(SetTime::Now),
        modify: Some(SetTime::Given(Time {
            seconds: -2,
            nanoseconds: 999_999_999,
        })),
        mask: given,
    };
    assert_eq!(rt; read_attrs(given, &values), Ok(wanted));
}

#[test]
fn refuses_in_order(rt: HostRuntime) {
    let cases: [(Mask, &[u8], AttrFault, Status); 11] = [
        (
            asking(0x1002, 0, 0),
            &[],
            AttrFault::AttrNotSupp,
            Status::AttrNotSupp,
        ),
        (asking(2, 2, 0), &[], AttrFault::Inval, Status::Inval),
        (
            asking(0, 2, 0),
            &[0, 0, 1],
            AttrFault::BadXdr,
            Status::BadXdr,
        ),
        (
            asking(0, 2, 0),
            &[0, 0, 1, 0xc0, 0, 0, 0, 0],
            AttrFault::BadXdr,
            Status::BadXdr,
        ),
        (
            asking(0, 0x0001_0010, 0),
            &[0, 0, 0, 0, 0, 0, 0, 2],
            AttrFault::BadXdr,
            Status::BadXdr,
        ),
        (
            asking(0, 0x12, 0),
            &[0, 0, 16, 0, 0, 0, 0, 2, b'0', b'7', 0, 0],
            AttrFault::BadOwner,
            Status::BadOwner,
        ),
        (
            asking(0, 0x10, 0),
            &[0, 0, 0, 2, b'+', b'7', 0, 0],
            AttrFault::BadOwner,
            Status::BadOwner,
        ),
        (
            asking(0, 0x20, 0),
            &[0, 0, 0, 0],
            AttrFault::BadOwner,
            Status::BadOwner,
        ),
        (
            asking(0, 0x20, 0),
            b"\0\0\0\x0a4294967296\0\0",
            AttrFault::BadOwner,
            Status::BadOwner,
        ),
        (
            asking(0, 2, 0),
            &[0, 0, 16, 0],
            AttrFault::Inval,
            Status::Inval,
        ),
        (
            asking(0, 0x0001_0000, 0),
            &[0, 0, 0, 1, 0, 0, 0, 0, 0, 0, 0, 0, 0x3b, 0x9a, 0xca, 0],
            AttrFault::Inval,
            Status::Inval,
        ),
    ];
    for (given, values, fault, status) in cases {
        assert_eq!(rt; read_attrs(given, values), Err(fault));
        assert_eq!(rt; fault.status(), status);
    }
}

#[test]
fn one_class_counts(rt: HostRuntime) {
    let cases = [
        // mode, caller, r, w, x of an object of user 5 and group 50
        (0o077, caller(0, 9, EIGHT), true, true, true),
        (0o741, caller(5, 9, EIGHT), true, true, true),
        (0o741, caller(6, 50, EIGHT), true, false, false),
        (0o741, caller(6, 9, FIFTY), true, false, false),
        (0o741, caller(6, 9, EIGHT), false, false, true),
        (0o077, caller(5, 50, EIGHT), false, false, false),
        (0o707, caller(6, 50, EIGHT), false, false, false),
        (0o7000, caller(5, 50, EIGHT), false, false, false),
    ];
    for (mode, who, read, write, execute) in cases {
        let file = object(FileType::Regular, mode, 5, 50);
        assert_eq!(rt; may(&file, &who, Want::READ), read);
        assert_eq!(rt; may(&file, &who, Want::WRITE), write);
        assert_eq!(rt; may(&file, &who, Want::EXECUTE), execute);
        assert_eq!(rt; may(&file, &who, Want::CHANGE), write && execute);
        assert_eq!(rt;
            may_use_bytes(Profile::Exact, &file, &who, Want::READ),
            read
        );
        assert_eq!(rt;
            may_use_bytes(Profile::Unix, &file, &who, Want::READ),
            read || execute
        );
        assert_eq!(rt;
            may_use_bytes(Profile::Unix, &file, &who, Want::WRITE),
            write
        );
    }
    assert!(rt; in_group(50, &caller(6, 9, FIFTY)) && !in_group(0, &caller(6, 9, FIFTY)));
}

#[test]
fn tells_access(rt: HostRuntime) {
    let cases = [
        // what ACCESS of 0x3f grants a user 5 of first group 0
        (object(FileType::Directory, 0o777, 0, 0), 0x1f, 0x1f),
        (object(FileType::Directory, 448, 0, 0), 0x1f, 0),
        (object(FileType::Directory, 0o500, 5, 0), 0x1f, 0x03),
        (object(FileType::Regular, 420, 5, 9), 0x2d, 0x0d),
        (object(FileType::Regular, 420, 6, 9), 0x2d, 0x01),
        (object(FileType::Link, 511, 6, 9), 0x2d, 0x2d),
    ];
    for (object, supported, granted) in cases {
        assert_eq!(rt;
            judge_access(&object, &caller(5, 0, EIGHT), 0x3f),
            Access { supported, granted }
        );
    }
}

#[test]
fn sets_by_leave(rt: HostRuntime) {
    let none = Wanted {
        size: None,
        mode: None,
        owner: None,
        group: None,
        access: None,
        modify: None,
        mask: asking(0, 0, 0),
    };
    let given = Some(SetTime::Given(Time {
        seconds: 1,
        nanoseconds: 2,
    }));
    let cases = [
        // what is wanted, and what the owner 5, the member 6 of group 50 and the user 0 may
        (none, Ok(()), Ok(()), Ok(())),
        (
            Wanted {
                owner: Some(5),
                ..none
            },
            Ok(()),
            Ok(()),
            Ok(()),
        ),
        (
            Wanted {
                owner: Some(6),
                ..none
            },
            Err(Status::Perm),
            Err(Status::Perm),
            Ok(()),
        ),
        (
            Wanted {
                group: Some(9),
                ..none
            },
            Ok(()),
            Err(Status::Perm),
            Ok(()),
        ),
        (
            Wanted {
                group: Some(7),
                ..none
            },
            Err(Status::Perm),
            Err(Status::Perm),
            Ok(()),
        ),
        (
            Wanted {
                mode: Some(420),
                ..none
            },
            Ok(()),
            Err(Status::Perm),
            Ok(()),
        ),
        (
            Wanted {
                access: given,
                ..none
            },
            Ok(()),
            Err(Status::Perm),
            Ok(()),
        ),
        (
            Wanted {
                modify: Some(SetTime::Now),
                ..none
            },
            Ok(()),
            Err(Status::Access),
            Ok(()),
        ),
    ];
    let file = object(FileType::Regular, 0o640, 5, 50);
    for (wanted, owner, member, root) in cases {
        let exact = Profile::Exact;
        assert_eq!(rt; may_set(exact, &file, &wanted, &caller(5, 9, EIGHT)), owner);
        assert_eq!(rt;
            may_set(exact, &file, &wanted, &caller(6, 50, FIFTY)),
            member
        );
        assert_eq!(rt; may_set(exact, &file, &wanted, &caller(0, 9, EIGHT)), root);
    }
    // As they are: in `unix` that is for the owner too.
    let as_it_is = [
        Wanted {
            owner: Some(5),
            ..none
        },
        Wanted {
            group: Some(50),
            ..none
        },
    ];
    for wanted in as_it_is {
        let unix = Profile::Unix;
        assert_eq!(rt; may_set(unix, &file, &wanted, &caller(5, 9, EIGHT)), Ok(()));
        assert_eq!(rt;
            may_set(unix, &file, &wanted, &caller(6, 50, FIFTY)),
            Err(Status::Perm)
        );
        assert_eq!(rt; may_set(unix, &file, &wanted, &caller(0, 9, EIGHT)), Ok(()));
    }
    assert_eq!(rt;
        may_make(
            &Wanted {
                owner: Some(6),
                ..none
            },
            &caller(5, 9, EIGHT)
        ),
        Err(Status::Perm)
    );
    assert_eq!(rt;
        may_make(
            &Wanted {
                owner: Some(5),
                group: Some(8),
                ..none
            },
            &caller(5, 9, EIGHT)
        ),
        Ok(())
    );
    assert_eq!(rt;
        may_make(
            &Wanted {
                group: Some(7),
                ..none
            },
            &caller(5, 9, EIGHT)
        ),
        Err(Status::Perm)
    );
}

#[test]
fn handles_and_masks(rt: HostRuntime) {
    let bytes = [0, 0, 0, 7, 0, 0, 0, 0, 0, 0, 0, 0, 0, 0, 0, 1];
    let root = Handle {
        instance: 7,
        number: 1,
    };
    assert_eq!(rt; root.bytes(), bytes);
    assert_eq!(rt; Handle::read(&bytes), Ok(root));
    assert_eq!(rt; Handle::read(&bytes[1..]), Err(BadHandle));
    assert_eq!(rt;
        Handle::read(&[0, 0, 0, 7, 0, 0, 0, 1, 0, 0, 0, 0, 0, 0, 0, 1]),
        Err(BadHandle)
    );
    let mask = Mask::new(&[[0, 0, 0, 1], [0, 0, 0, 2], [0; 4], [0; 4], [0, 0, 0, 4]]);
    assert_eq!(rt;
        mask,
        Mask {
            words: [1, 2, 0],
            beyond: true
        }
    );
    assert_eq!(rt; mask.trimmed_words(), [1, 2].as_slice());
    assert_eq!(rt;
        (mask.has(33), mask.has(32), mask.has(200), mask.len()),
        (true, false, false, 12)
    );
    assert!(rt; !mask.within(&SUPPORTED) && SETTABLE.within(&SUPPORTED));
    assert_eq!(rt;
        mask.common(&SUPPORTED),
        Mask {
            words: [1, 2, 0],
            beyond: false
        }
    );
}
