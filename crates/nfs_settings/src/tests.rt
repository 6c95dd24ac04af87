//! The rows of the command line, of the settings and of the lines that faults are told by (docs/PROTOCOL.md, docs/OPERATING.md).

use crate::asked::Order;
use crate::fault::{Fault, told};
use crate::settings_file::{Bad, settings};
use crate::words::order;
use nfs_serve::{ReplayFault, Stop};
use std::test::Fail;

/// An order to serve in the words given, as the numbers that it has.
fn numbers(rt: &HostRuntime, words: &[&str]) -> Option<(Option<u32>, Option<u32>)> {
    match order(rt.alloc(), words) {
        Ok(
            Order::Serve {
                connections,
                at_once,
                ..
            },
        ) => Some((connections, at_once)),
        _ => None,
    }
}

#[test]
fn an_order_to_serve_has_its_address_its_numbers_and_its_settings(
    rt: HostRuntime,
) -> Result<(), Fail> {
    let words = [
        "nfs41d",
        "serve",
        "--settings",
        "there.toml",
        "--at-once",
        "16",
        "--connections",
        "1000000",
        "--status",
        "86400",
        "--metrics",
        "there.prom",
        "--listen",
        "127.0.0.1:2049",
    ];
    let is_so = matches!(
        order(rt.alloc(), words.as_slice()),
        Ok(Order::Serve {
            listen: "127.0.0.1:2049",
            connections: Some(1_000_000),
            at_once: Some(16),
            settings: Some("there.toml"),
            status: Some(86_400),
            metrics: Some("there.prom"),
            clients: None
        })
    );
    assert!(rt; is_so);
    Ok(())
}

#[test]
fn as_many_are_served_at_once_as_is_said_and_one_of_a_number(rt: HostRuntime) -> Result<(), Fail> {
    let words = [
        "nfs41d",
        "serve",
        "--listen",
        "127.0.0.1:0",
        "--connections",
        "3",
    ];
    assert!(rt; numbers(&rt, words.as_slice()) == Some((Some(3), Some(1))));
    assert!(rt; numbers(&rt, &words[..4]) == Some((None, None)));
    let few = [
        "nfs41d",
        "serve",
        "--listen",
        "127.0.0.1:0",
        "--at-once",
        "2",
    ];
    assert!(rt; numbers(&rt, few.as_slice()) == Some((None, Some(2))));
    Ok(())
}

#[test]
fn numbers_out_of_their_range_are_bad_arguments(rt: HostRuntime) -> Result<(), Fail> {
    for (connections, at_once) in [
        ("0", "1"),
        ("1000001", "1"),
        ("1", "0"),
        ("1", "17"),
        ("-1", "1"),
        ("1", "x"),
    ] {
        let words = [
            "nfs41d",
            "serve",
            "--listen",
            "127.0.0.1:0",
            "--connections",
            connections,
            "--at-once",
            at_once,
        ];
        assert!(rt; matches!(order(rt.alloc(), words.as_slice()), Err(Fault::Arguments)));
    }
    Ok(())
}

#[test]
fn a_replay_may_have_settings(rt: HostRuntime) -> Result<(), Fail> {
    let plain = ["nfs41d", "replay"];
    assert!(rt;
        matches!(
            order(rt.alloc(), plain.as_slice()),
            Ok(Order::Replay { settings: None })
        )
    );
    let with_file = ["nfs41d", "replay", "--settings", "a.toml"];
    let is_so = matches!(
        order(rt.alloc(), with_file.as_slice()),
        Ok(Order::Replay {
            settings: Some("a.toml")
        })
    );
    assert!(rt; is_so);
    Ok(())
}

#[test]
fn other_words_are_bad_arguments(rt: HostRuntime) -> Result<(), Fail> {
    for word in ["--help", "--version", "help", "stop", "serve", "", "Replay"] {
        let words = ["nfs41d", word];
        assert!(rt; matches!(order(rt.alloc(), words.as_slice()), Err(Fault::Arguments)));
    }
    let twice = ["nfs41d", "replay", "replay"];
    assert!(rt; matches!(order(rt.alloc(), twice.as_slice()), Err(Fault::Arguments)));
    Ok(())
}

/// Whether a fault is told by this line and this status.
fn is_told(rt: &HostRuntime, fault: &Fault, line: &str, status: u8) -> bool {
    let mut written = Vec::new(rt.alloc());
    let given = told(fault, &mut written);
    given == status && written.as_slice() == line.as_bytes()
}

#[test]
fn each_fault_is_told_by_a_line_and_a_status(rt: HostRuntime) -> Result<(), Fail> {
    assert!(rt; is_told(&rt, &Fault::Arguments, "nfs41d: bad arguments\n", 1));
    assert!(rt; is_told(&rt, &Fault::Settings, "nfs41d: bad settings\n", 1));
    assert!(rt; is_told(&rt, &Fault::Start, "nfs41d: cannot start\n", 1));
    assert!(rt; is_told(&rt, &Fault::Accept, "nfs41d: accept failed\n", 3));
    assert!(rt; is_told(&rt, &Fault::Flush, "nfs41d: output failed\n", 3));
    Ok(())
}

#[test]
fn the_fault_of_a_run_is_told_with_its_entry(rt: HostRuntime) -> Result<(), Fail> {
    for (number, line, status) in [
        (Stop::Cut, "nfs41d: script fault 1 at entry 12\n", 2),
        (Stop::Connection, "nfs41d: script fault 2 at entry 12\n", 2),
        (Stop::Long, "nfs41d: script fault 3 at entry 12\n", 2),
        (Stop::Late, "nfs41d: script fault 4 at entry 12\n", 2),
        (Stop::Many, "nfs41d: script fault 5 at entry 12\n", 2),
        (Stop::ReadFailed, "nfs41d: input failed\n", 3),
        (Stop::WriteFailed, "nfs41d: output failed\n", 3),
    ] {
        let fault = Fault::Replay(ReplayFault { number, entry: 12 });
        assert!(rt; is_told(&rt, &fault, line, status));
    }
    Ok(())
}

#[test]
fn texts_that_are_no_settings_are_refused(rt: HostRuntime) -> Result<(), Fail> {
    for text in [
        "lease = 0",
        "lease = 86401",
        "lease = \"90\"",
        "size = 1",
        "root_mode = 0o10000",
        "instance = 0",
        "instance = 4294967295",
        "file_bytes = 0",
        "file_bytes = 1099511627777",
        "objects = 0",
        "objects = 16777217",
        "profile = \"posix\"",
        "profile = 1",
        "lease = 1\nlease = 1",
        "lease",
    ] {
        assert!(rt; matches!(settings(rt.alloc(), text, 5, 0, true), Err(Bad::Text)));
    }
    Ok(())
}

/// Whether a text gives the profile that POSIX describes.
fn is_unix(rt: &HostRuntime, text: &str, endless: bool) -> Option<bool> {
    match settings(rt.alloc(), text, 5, 0, endless) {
        Ok(given) => Some(given.profile.is_unix()),
        Err(_) => None,
    }
}

#[test]
fn the_profile_is_that_of_a_repeatable_run_unless_the_server_lasts_or_it_is_set(
    rt: HostRuntime,
) -> Result<(), Fail> {
    for (text, endless, unix) in [
        ("", false, false),
        ("", true, true),
        ("instance = 9", true, false),
        ("profile = \"exact\"", true, false),
        ("profile = \"unix\"", false, true),
        ("instance = 9\nprofile = \"unix\"", true, true),
    ] {
        assert!(rt; is_unix(&rt, text, endless) == Some(unix));
    }
    Ok(())
}

/// The limits that a text gives, as objects and bytes of a file.
fn limits(rt: &HostRuntime, text: &str, endless: bool) -> Option<(u32, u64)> {
    match settings(rt.alloc(), text, 5, 0, endless) {
        Ok(given) => Some((given.limits.objects, given.limits.bytes)),
        Err(_) => None,
    }
}

#[test]
fn limits_are_those_of_a_repeatable_run_unless_the_server_lasts_or_they_are_set(
    rt: HostRuntime,
) -> Result<(), Fail> {
    for (text, endless, objects, bytes) in [
        ("", false, 65_536, 1_048_576),
        ("", true, 1_048_576, 1_099_511_627_776),
        ("instance = 9", true, 65_536, 1_048_576),
        ("lease = 9", true, 1_048_576, 1_099_511_627_776),
        ("objects = 1", true, 1, 1_099_511_627_776),
        ("file_bytes = 1", false, 65_536, 1),
        (
            "objects = 16777216\nfile_bytes = 1099511627776",
            false,
            16_777_216,
            1_099_511_627_776,
        ),
    ] {
        assert!(rt; limits(&rt, text, endless) == Some((objects, bytes)));
    }
    Ok(())
}
