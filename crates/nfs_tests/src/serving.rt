//! A server over ends that fail, and the calls of it that the program does not make.

mod callers;
mod calls;
mod failing;
mod fakes;
mod talks;
mod weak;

use nfs_serve::Settings;

const SETTINGS: Settings = Settings {
    lease: 90,
    root_mode: 0o777,
};

/// A call of NULL with xid 1, and its reply.
const NULL: [u32; 10] = [1, 0, 2, 100_003, 4, 0, 0, 0, 0, 0];

const NULL_REPLY: [u32; 6] = [1, 1, 0, 0, 0, 0];

/// EXCHANGE_ID with xid 2 under AUTH_SYS of uid 0: verifier 1, owner `A`.
const EXCHANGE_ID: [u32; 26] = [
    2,
    0,
    2,
    100_003,
    4,
    1,
    1,
    20,
    0,
    0,
    0,
    0,
    0,
    0,
    0,
    0,
    1,
    1,
    42,
    0,
    1,
    1,
    0x4100_0000,
    0,
    0,
    0,
];

/// Its reply, with the client id of instance 7 and this counter.
const fn exchanged(counter: u32) -> [u32; 25] {
    [
        2,
        1,
        0,
        0,
        0,
        0,
        0,
        0,
        1,
        42,
        0,
        7,
        counter,
        1,
        0x0001_0000,
        0,
        0,
        0,
        6,
        0x6e66_7334,
        0x3164_0000,
        6,
        0x6e66_7334,
        0x3164_0000,
        0,
    ]
}

/// The top bit of a record mark.
const LAST: u32 = 0x8000_0000;
