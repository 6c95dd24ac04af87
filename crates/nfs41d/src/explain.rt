//! Why `serve` does not begin, in a line for whoever started it. The line of the fault itself comes after it
//! (docs/OPERATING.md).

use crate::holder::process_on;
use crate::shown::{Grouped, Shown};
use crate::{MOST_OF_SETTINGS, start_of};
use nfs_settings::{
    CLIENTS, CONNECTIONS, Fault, KEYS, LEASE, MOST_OBJECTS, MOST_OF_OWNER, Number, Order,
    ROOT_MODE, bytes_at, is_known, memory_at, number_at, order, profile_at, seats_at, up_to,
};
use nfs_tree::Profile;
use std::fmt;
use std::io::{ErrorKind, Write};
use std::net::{SocketAddr, SocketAddrV4, TcpListener};
use toml::{Table, Value};

/// The number of a start of the server; each start has a default of its own.
const INSTANCE: Number = Number {
    low: 1,
    high: u32::MAX - 1,
    default: 1,
};

/// How many objects there may be; the form of the program has the default.
const OBJECTS: Number = Number {
    low: 1,
    high: MOST_OBJECTS,
    default: 1,
};

/// The numbers that may stand at a key, and the greatest in octal where it is written so.
#[derive(Clone, Copy)]
struct Range {
    number: Number,
    octal: &'static str,
}

impl fmt::Display for Range {
    fn fmt<W: fmt::Write>(&self, f: &mut fmt::Formatter<W>) -> fmt::Result {
        let Number { low, high, .. } = self.number;
        let (low, high) = (Grouped(u64::from(low)), Grouped(u64::from(high)));
        let octal = self.octal;
        write!(f, "{low} to {high}{octal}")
    }
}

/// Writes why the words of a command line, the program's name first, came to a fault, where they ask to serve without a
/// number of connections. A failure to write is passed over.
pub fn explain<W: Write>(rt: &HostRuntime, words: &[&str], fault: &Fault, w: &mut W) {
    if !is_spoken(words) {
        return;
    }
    match fault {
        Fault::Arguments => explain_words(words, w),
        Fault::Settings => {
            if let Some(path) = file_of(rt, words) {
                explain_file(rt, path, w);
            }
        }
        Fault::Start => {
            if let Some(listen) = address_of(rt, words) {
                explain_address(rt, listen, w);
            }
        }
        _ => {}
    }
}

/// Whether a command line is one whose faults are explained: it begins with `serve`, and no word is `--connections`.
fn is_spoken(words: &[&str]) -> bool {
    for word in words {
        if word.starts_with("--connections") {
            return false;
        }
    }
    match words.get(1) {
        Some(command) => *command == "serve",
        None => false,
    }
}

/// The settings file that words name.
fn file_of<'a>(rt: &HostRuntime, words: &'a [&'a str]) -> Option<&'a str> {
    match order(rt.alloc(), words) {
        Ok(Order::Serve { settings, .. }) => settings,
        _ => None,
    }
}

/// The address that words name.
fn address_of<'a>(rt: &HostRuntime, words: &'a [&'a str]) -> Option<&'a str> {
    match order(rt.alloc(), words) {
        Ok(Order::Serve { listen, .. }) => Some(listen),
        _ => None,
    }
}

/// Writes which word is wrong.
fn explain_words<W: Write>(words: &[&str], w: &mut W) {
    if let Some(why) = crate::wrong_words::wrong(words) {
        let _ = writeln!(w, "nfs41d: {why}");
    }
}

/// Writes what is wrong with a settings file.
fn explain_file<W: Write>(rt: &HostRuntime, path: &str, w: &mut W) {
    let shown = Shown(path);
    match start_of(rt, path) {
        Err(e) => {
            let _ = writeln!(w, "nfs41d: {shown}: {e}");
        }
        Ok(text) => {
            if text.len() > MOST_OF_SETTINGS {
                let _ = writeln!(w, "nfs41d: {shown} has more than 65,536 bytes");
            } else {
                explain_text(rt, path, text.as_str(), w);
            }
        }
    }
}

/// Writes what is wrong with the text of a settings file.
fn explain_text<W: Write>(rt: &HostRuntime, path: &str, text: &str, w: &mut W) {
    match toml::table_from_str(rt.alloc(), text) {
        Ok(table) => explain_table(table, path, text, w),
        Err(e) if e.is_memory() => {}
        Err(e) => {
            let (shown, why) = (Shown(path), Shown(e.message()));
            let _ = writeln!(w, "nfs41d: {shown} is no TOML: {why}");
        }
    }
}

/// Writes what is wrong with the table that a text is.
fn explain_table<W: Write>(table: Table, path: &str, text: &str, w: &mut W) {
    let is_strange = explain_keys(&table, path, w);
    let root = Value::Table(table);
    let is_told = is_strange || explain_values(&root, path, w);
    if !is_told {
        explain_mode(text, path, w);
    }
}

/// Writes which key there is not, and answers whether there is one.
fn explain_keys<W: Write>(table: &Table, path: &str, w: &mut W) -> bool {
    for key in table.keys() {
        if !is_known(key.as_str()) {
            let (shown, key) = (Shown(path), Shown(key.as_str()));
            let _ = writeln!(
                w,
                "nfs41d: {shown}: there is no key '{key}': the keys are {KEYS}"
            );
            return true;
        }
    }
    false
}

/// Writes what is wrong with the first value that may not be, and answers whether there is one.
fn explain_values<W: Write>(root: &Value, path: &str, w: &mut W) -> bool {
    explain_start(root, path, w)
        || explain_sizes(root, path, w)
        || explain_crowd(root, path, w)
        || explain_profile(root, path, w)
}

/// The same of what stays as it is for as long as a server runs.
fn explain_start<W: Write>(root: &Value, path: &str, w: &mut W) -> bool {
    explain_number(root, "lease", LEASE, path, w)
        || explain_number(root, "root_mode", ROOT_MODE, path, w)
        || explain_number(root, "instance", INSTANCE, path, w)
        || explain_owner(root, path, w)
}

/// The same of how much there may be.
fn explain_sizes<W: Write>(root: &Value, path: &str, w: &mut W) -> bool {
    explain_bytes(root, path, w)
        || explain_number(root, "objects", OBJECTS, path, w)
        || explain_memory(root, path, w)
}

/// The same of how many may come.
fn explain_crowd<W: Write>(root: &Value, path: &str, w: &mut W) -> bool {
    explain_number(root, "connections", CONNECTIONS, path, w)
        || explain_number(root, "clients", CLIENTS, path, w)
        || explain_number(root, "sessions", CONNECTIONS, path, w)
        || explain_sessions(root, path, w)
}

/// Writes what is wrong with the name of the server, and answers whether something is.
fn explain_owner<W: Write>(root: &Value, path: &str, w: &mut W) -> bool {
    let shown = Shown(path);
    match root.get("server_owner") {
        None => false,
        Some(Value::String(text)) => {
            let count = text.len();
            if count >= 1 && count <= MOST_OF_OWNER {
                return false;
            }
            let _ = writeln!(
                w,
                "nfs41d: {shown}: server_owner has {count} bytes, and not from 1 to 1,024"
            );
            true
        }
        Some(_) => {
            let _ = writeln!(w, "nfs41d: {shown}: server_owner is no text");
            true
        }
    }
}

/// Writes that there would be more sessions than seats, and answers whether that is so.
fn explain_sessions<W: Write>(root: &Value, path: &str, w: &mut W) -> bool {
    let Some(seats) = seats_at(root) else {
        return false;
    };
    if number_at(root, "sessions", up_to(seats)).is_some() {
        return false;
    }
    let shown = Shown(path);
    let _ = writeln!(
        w,
        "nfs41d: {shown}: sessions is greater than connections, which is {seats}"
    );
    true
}

/// Writes what is wrong with the bytes of a file, and answers whether something is.
fn explain_bytes<W: Write>(root: &Value, path: &str, w: &mut W) -> bool {
    if bytes_at(root, "file_bytes", 1).is_some() {
        return false;
    }
    explain_wide(root, "file_bytes", &"1 to 1,099,511,627,776", path, w);
    true
}

/// Writes what is wrong with the bytes of pages, and answers whether something is.
fn explain_memory<W: Write>(root: &Value, path: &str, w: &mut W) -> bool {
    if memory_at(root, "memory", 0).is_some() {
        return false;
    }
    explain_wide(root, "memory", &"0 to 70,368,744,177,664", path, w);
    true
}

/// Writes that what stands at a key is no number of a range.
fn explain_wide<R: fmt::Display, W: Write>(
    root: &Value,
    key: &str,
    range: &R,
    path: &str,
    w: &mut W,
) {
    let shown = Shown(path);
    let _ = match root.get(key) {
        Some(Value::Integer(n)) => {
            writeln!(w, "nfs41d: {shown}: {key} is {n}, and not from {range}")
        }
        _ => writeln!(w, "nfs41d: {shown}: {key} is no number from {range}"),
    };
}

/// Writes what is wrong with the profile, and answers whether something is.
fn explain_profile<W: Write>(root: &Value, path: &str, w: &mut W) -> bool {
    if profile_at(root, "profile", Profile::Unix).is_some() {
        return false;
    }
    let shown = Shown(path);
    let _ = writeln!(
        w,
        "nfs41d: {shown}: profile is neither \"exact\" nor \"unix\""
    );
    true
}

/// Writes how permission bits are to be written, where a text writes them otherwise.
fn explain_mode<W: Write>(text: &str, path: &str, w: &mut W) {
    if let Some(mode) = decimal_mode(text) {
        let (shown, number) = (Shown(path), Shown(mode));
        let _ = if is_octal(mode) {
            writeln!(
                w,
                "nfs41d: {shown}: root_mode is {number} without 0o: write 0o{number}"
            )
        } else {
            writeln!(
                w,
                "nfs41d: {shown}: root_mode is {number} without 0o: write it in octal, as 0o755"
            )
        };
    }
}

/// Whether each sign of a number is a digit below 8.
fn is_octal(text: &str) -> bool {
    for sign in text.chars() {
        if !matches!(sign, '0'..='7') {
            return false;
        }
    }
    true
}

/// Writes what is wrong with the number at a key, and answers whether something is.
fn explain_number<W: Write>(
    root: &Value,
    key: &str,
    number: Number,
    path: &str,
    w: &mut W,
) -> bool {
    if number_at(root, key, number).is_some() {
        return false;
    }
    let octal = if key == "root_mode" { " (0o7777)" } else { "" };
    explain_wide(root, key, &Range { number, octal }, path, w);
    true
}

/// The permission bits that a text writes as a decimal number of more than one digit, unless it names an instance.
pub fn decimal_mode(text: &str) -> Option<&str> {
    if value_in(text, "instance").is_some() {
        return None;
    }
    let mode = value_in(text, "root_mode")?;
    if mode.len() > 1 && !mode.starts_with('0') {
        Some(mode)
    } else {
        None
    }
}

/// What a text that gives settings has at a key, as it is written.
fn value_in<'a>(text: &'a str, key: &str) -> Option<&'a str> {
    for line in text.lines() {
        if let Some(value) = value_on(line, key) {
            return Some(value);
        }
    }
    None
}

/// What a line has at a key, as it is written.
fn value_on<'a>(line: &'a str, key: &str) -> Option<&'a str> {
    let (name, rest) = line.split_once('=')?;
    if name.trim_matches(is_around) != key {
        return None;
    }
    match rest.split_once('#') {
        Some((value, _)) => Some(value.trim()),
        None => Some(rest.trim()),
    }
}

/// Whether a sign may stand around a key.
fn is_around(sign: char) -> bool {
    matches!(sign, ' ' | '\t' | '"' | '\'')
}

/// Writes why an address cannot be listened on.
fn explain_address<W: Write>(rt: &HostRuntime, listen: &str, w: &mut W) {
    let shown = Shown(listen);
    match listen.parse::<SocketAddrV4>() {
        Err(_) => {
            let why = if listen.split_once(':').is_some() {
                "is no IPv4 address with a port"
            } else {
                "has no port"
            };
            let _ = writeln!(
                w,
                "nfs41d: '{shown}' {why}: it is ADDR:PORT, as 127.0.0.1:2049"
            );
        }
        Ok(addr) => explain_taking(rt, addr, w),
    }
}

/// Writes why an address of the right form cannot be listened on.
fn explain_taking<W: Write>(rt: &HostRuntime, addr: SocketAddrV4, w: &mut W) {
    let (ip, port) = (addr.ip(), addr.port());
    let _ = match TcpListener::bind(rt, SocketAddr::V4(addr)) {
        Ok(_) => writeln!(w, "nfs41d: memory is short"),
        Err(e) => match e.kind() {
            ErrorKind::AddrInUse => match process_on(rt, port) {
                Some(process) => {
                    let id = process.as_str();
                    writeln!(
                        w,
                        "nfs41d: {addr} is in use by process {id}: end that, or take another port"
                    )
                }
                None => writeln!(w, "nfs41d: {addr} is in use: take another port"),
            },
            ErrorKind::AddrNotAvailable => writeln!(
                w,
                "nfs41d: no interface of this machine has the address {ip}; 0.0.0.0 is all of them"
            ),
            ErrorKind::PermissionDenied => writeln!(
                w,
                "nfs41d: port {port} needs a privilege (CAP_NET_BIND_SERVICE), as do ports below 1,024: take another, as 2049"
            ),
            _ => writeln!(w, "nfs41d: {addr}: {e}"),
        },
    };
}
