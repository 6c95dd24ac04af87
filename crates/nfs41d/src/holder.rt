//! Which process listens on a port of this machine, where the system says so (proc(5)).

use std::{fs, io};

/// The system's table of TCP sockets over IPv4.
const TABLE: &str = "/proc/net/tcp";

/// The state of a socket that listens, in that table.
const LISTENS: &str = "0A";

/// The number of the process that listens on a port, or nothing where that cannot be seen.
pub fn process_on(rt: &HostRuntime, port: u16) -> Option<String> {
    let table = fs::read_to_string(rt, TABLE).ok()?;
    let inode = inode_of(table.as_str(), port)?;
    let name = format!(in rt.alloc(); "socket:[{inode}]").ok()?;
    holder_of(rt, name.as_str()).ok()?
}

/// The number of the socket that listens on a port, as a table of sockets writes it.
fn inode_of<'a>(table: &'a str, port: u16) -> Option<&'a str> {
    for line in table.lines() {
        if let Some(inode) = inode_in(line, port) {
            return Some(inode);
        }
    }
    None
}

/// The number of the socket of a line, if it listens on a port.
fn inode_in<'a>(line: &'a str, port: u16) -> Option<&'a str> {
    let mut words = line.split_whitespace();
    let (_, own) = words.nth(1)?.split_once(':')?;
    let state = words.nth(1)?;
    let inode = words.nth(5)?;
    if state == LISTENS && u16::from_str_radix(own, 16).ok()? == port {
        Some(inode)
    } else {
        None
    }
}

/// The number of the process that has a file of this name open.
fn holder_of(rt: &HostRuntime, name: &str) -> io::Result<Option<String>> {
    for entry in fs::read_dir(rt, "/proc")? {
        let entry = entry?;
        let number = entry.file_name();
        if number.parse::<u32>().is_ok() && has_open(rt, number, name).unwrap_or(false) {
            return Ok(Some(String::from_str(rt.alloc(), number)?));
        }
    }
    Ok(None)
}

/// Whether a process has a file of this name open.
fn has_open(rt: &HostRuntime, number: &str, name: &str) -> io::Result<bool> {
    let folder = format!(in rt.alloc(); "/proc/{number}/fd")?;
    for entry in fs::read_dir(rt, folder.as_str())? {
        let entry = entry?;
        if let Ok(link) = fs::read_link(rt, entry.path()) {
            if link.to_str() == Some(name) {
                return Ok(true);
            }
        }
    }
    Ok(false)
}
