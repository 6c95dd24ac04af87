//! The settings of a server, as a TOML document gives them.

ghost use Rattle.std.specs.Prelude.{◌≡◌, ◌≢◌, IfOk, Some, None, Err, true, false, codes, option_and_then};
ghost use Rattle.toml.specs.Data.{Members, get, get_member, table};
ghost use Rattle.toml.specs.Errors.{IsBlank};
ghost use Rattle.toml.specs.View.{view, table_view};
ghost use Rattle.nfs_settings.specs.SettingsFile.{settings_in, settings_of, given, lease, root_mode, instance, file_bytes, objects, memory, connections, profile, clients, sessions, number_of, owner_of, is_owner, lasts, default_bytes, default_objects, default_memory, default_profile, profile_of, profile_named, all_known, is_known};

use crate::machine::pages_of;
use nfs_names::{Crowd, ServerOwner};
use nfs_serve::Settings;
use nfs_tree::{Limits, Profile};
use std::alloc::Global;
use toml::{Table, Value};

/// Why a text gives no settings.
#[derive(Clone, Copy)]
pub enum Bad {
    /// It is no TOML document, or has another key, type or number than may be.
    Text,
    /// Memory to read it was refused.
    Memory,
}

/// What a text gives to a server.
#[derive(Drop)]
pub struct Given {
    pub settings: Settings,
    /// Marks this start off from other starts of the server.
    pub instance: u32,
    /// By what the server names itself, if the text says it.
    pub owner: Option<ServerOwner>,
    /// The server lasts: it is for no run that is to be the same twice.
    pub lasting: bool,
    /// How many objects there may be, how many bytes a file may have, and how many pages all may have.
    pub limits: Limits,
    /// How many seats for connections there are, where no number is asked for on the command line.
    pub seats: u32,
    /// What the server has of what the RFC leaves open.
    pub profile: Profile,
    /// How many client records and sessions there may be; no more sessions than seats.
    pub crowd: Crowd,
}

/// The least and the greatest number that may stand at a key, and the one where the key is left out.
#[derive(Clone, Copy)]
pub struct Number {
    pub low: u32,
    pub high: u32,
    pub default: u32,
}

/// The keys.
pub const KEYS: &str =
    "lease, root_mode, instance, server_owner, file_bytes, objects, memory, connections, profile, clients, sessions";

/// Seconds.
pub const LEASE: Number = Number {
    low: 1,
    high: 86_400,
    default: 90,
};

/// Seats for connections, and sessions: where one of the two is left out it is as the other.
pub const CONNECTIONS: Number = Number {
    low: 1,
    high: 1_024,
    default: 64,
};

/// Client records.
pub const CLIENTS: Number = Number {
    low: 1,
    high: 65_536,
    default: 1_024,
};

/// Permission bits.
pub const ROOT_MODE: Number = Number {
    low: 0,
    high: 0o7777,
    default: 0o777,
};

/// The most bytes of a name.
pub const MOST_OF_OWNER: usize = 1_024;

/// The most objects that may be asked for.
pub const MOST_OBJECTS: u32 = 16_777_216;

/// The most bytes of pages that may be asked for.
const MOST_MEMORY: u64 = 70_368_744_177_664;

/// The objects of a server that lasts, where the settings leave them out.
const LASTING_OBJECTS: u32 = 1_048_576;

/// Whether a server lasts: it is asked to serve without a number of connections, and its settings name no instance. Every other
/// is for a run that is to be the same twice.
fn lasts(endless: bool, named: bool) -> bool
    ensures { result ≡ lasts endless named }
{
    endless && !named
}

/// The most bytes of a file, where the settings leave them out.
fn default_bytes(lasting: bool) -> u64
    ensures { result ≡ default_bytes lasting }
{
    if lasting {
        Limits::MOST_BYTES
    } else {
        Limits::PROFILE.bytes
    }
}

/// The most objects, where the settings leave them out.
fn default_objects(lasting: bool) -> u32
    ensures { result ≡ default_objects lasting }
{
    if lasting {
        LASTING_OBJECTS
    } else {
        Limits::PROFILE.objects
    }
}

/// How many bytes the pages of files may take, where the settings leave it out: `half` of the machine's memory.
fn default_memory(lasting: bool, half: u64) -> u64
    ensures { result ≡ default_memory lasting half }
{
    if lasting { half } else { 0 }
}

/// What a server has of what the RFC leaves open, where the settings leave it out.
fn default_profile(lasting: bool) -> Profile
    ensures { result ≡ default_profile lasting }
{
    if lasting {
        Profile::Unix
    } else {
        Profile::Exact
    }
}

/// What a text gives to a server, `endless` where it is asked to serve without a number of connections. Its instance is `start`
/// where the text gives none, and a server that lasts has `half` of the machine's memory for pages where the text says no number.
///
/// `Text` where it is no TOML document or has another key, type, number or length than may be; `Memory` where memory was refused,
/// which a text of blanks and comments never asks for.
pub fn settings(
    alloc: Global,
    text: &str,
    start: u32,
    half: u64,
    endless: bool,
) -> Result<Given, Bad>
    ensures given { IfOk result (λ found. settings_in start half endless text.now ≡ Some found) }
    ensures text { result ≡ Err Bad.Text → settings_in start half endless text.now ≡ None }
    ensures memory { result ≡ Err Bad.Memory → ¬ IsBlank text.now }
{
    match toml::table_from_str(alloc, text) {
        Ok(table) => given_by(alloc, table, start, half, endless),
        Err(e) if e.is_memory() => Err(Bad::Memory),
        Err(_) => Err(Bad::Text),
    }
}

/// What a table gives to a server, as [`settings`] says. `Memory` where memory for its name was refused.
fn given_by(alloc: Global, table: Table, start: u32, half: u64, endless: bool) -> Result<Given, Bad>
    ensures given { IfOk result (λ found. settings_of start half endless (table_view table) ≡ Some found) }
    ensures text { result ≡ Err Bad.Text → settings_of start half endless (table_view table) ≡ None }
    ensures memory { result ≡ Err Bad.Memory → get_member (codes "server_owner") (table_view table) ≢ None }
{
    let is_known = only_known(&table);
    let root = Value::Table(table);
    if is_known {
        let lasting = lasts(endless, root.get("instance").is_some());
        match asked_at(&root, start, half, lasting).given(lasting) {
            Some(given) => named_by(alloc, &root, given),
            None => Err(Bad::Text),
        }
    } else {
        Err(Bad::Text)
    }
}

/// What is given, with the name at its key.
fn named_by(alloc: Global, root: &Value, given: Given) -> Result<Given, Bad>
    ensures given { IfOk result (λ found. (found ≡ record given { owner = found.owner })
        × (owner_of (get (codes "server_owner") (view root.now)) ≡ Some found.owner)) }
    ensures text { result ≡ Err Bad.Text → owner_of (get (codes "server_owner") (view root.now)) ≡ None }
    ensures memory { result ≡ Err Bad.Memory → get (codes "server_owner") (view root.now) ≢ None }
{
    match owner_at(alloc, root, "server_owner") {
        Ok(owner) => Ok(Given { owner, ..given }),
        Err(bad) => Err(bad),
    }
}

/// What stands at each key but the server's name, where it may stand there.
#[derive(Clone, Copy)]
struct Asked {
    lease: Option<u32>,
    root_mode: Option<u32>,
    instance: Option<u32>,
    bytes: Option<u64>,
    objects: Option<u32>,
    memory: Option<u64>,
    seats: Option<u32>,
    profile: Option<Profile>,
    clients: Option<u32>,
    sessions: Option<u32>,
}

/// What a table asks for. Nothing is refused before all keys were read, so that one path leads through them.
fn asked_at(root: &Value, start: u32, half: u64, lasting: bool) -> Asked
    ensures { (t : Members) → view root.now ≡ table t → result ≡ record {
      lease = lease t;
      root_mode = root_mode t;
      instance = instance start t;
      bytes = file_bytes lasting t;
      objects = objects lasting t;
      memory = memory half lasting t;
      seats = connections t;
      profile = profile lasting t;
      clients = clients t;
      sessions = sessions t;
    } }
{
    let instances = Number {
        low: 1,
        high: u32::MAX - 1,
        default: start,
    };
    let counts = Number {
        low: 1,
        high: MOST_OBJECTS,
        default: default_objects(lasting),
    };
    Asked {
        lease: number_at(root, "lease", LEASE),
        root_mode: number_at(root, "root_mode", ROOT_MODE),
        instance: number_at(root, "instance", instances),
        bytes: bytes_at(root, "file_bytes", default_bytes(lasting)),
        objects: number_at(root, "objects", counts),
        memory: memory_at(root, "memory", default_memory(lasting, half)),
        seats: seats_at(root),
        profile: profile_at(root, "profile", default_profile(lasting)),
        clients: number_at(root, "clients", CLIENTS),
        sessions: sessions_at(root),
    }
}

impl Asked {
    /// What is given, without a name, if all may be given.
    fn given(&self, lasting: bool) -> Option<Given>
        ensures { let asked = self.now in result ≡ given asked.lease asked.root_mode asked.instance (Some None)
            asked.bytes asked.objects asked.memory asked.seats asked.profile asked.clients asked.sessions lasting }
    {
        let lease = self.lease?;
        let root_mode = self.root_mode?;
        let instance = self.instance?;
        let bytes = self.bytes?;
        let objects = self.objects?;
        let memory = self.memory?;
        let seats = self.seats?;
        let profile = self.profile?;
        let clients = self.clients?;
        let sessions = self.sessions?;
        Some(Given {
            settings: Settings { lease, root_mode },
            instance,
            owner: None,
            lasting,
            limits: Limits {
                objects,
                bytes,
                pages: pages_of(memory),
            },
            seats,
            profile,
            crowd: Crowd { clients, sessions },
        })
    }
}

/// The most sessions: as many as seats, where they are left out.
fn sessions_at(root: &Value) -> Option<u32>
    ensures { (t : Members) → view root.now ≡ table t → result ≡ sessions t }
{
    let seats = seats_at(root)?;
    number_at(root, "sessions", up_to(seats))
}

/// A number from 1 to this, and this where the key is left out.
pub fn up_to(most: u32) -> Number
    ensures { result ≡ record { low = 1; high = most; default = most } }
{
    Number {
        low: 1,
        high: most,
        default: most,
    }
}

/// The seats for connections: as many as sessions, where they are left out.
pub fn seats_at(root: &Value) -> Option<u32>
    ensures { result ≡ option_and_then (λ sessions. number_of 1 1024 sessions (get (codes "connections") (view root.now))) (number_of 1 1024 64 (get (codes "sessions") (view root.now))) }
{
    let sessions = number_at(root, "sessions", CONNECTIONS)?;
    let seats = Number {
        low: CONNECTIONS.low,
        high: CONNECTIONS.high,
        default: sessions,
    };
    number_at(root, "connections", seats)
}

/// Whether every key is one of the eleven.
fn only_known(table: &Table) -> bool
    ensures { result ≡ all_known (table_view table.now) }
{
    for key in table.keys() {
        if !is_known(key.as_str()) {
            return false;
        }
    }
    true
}

/// Whether a key is one of them.
pub fn is_known(key: &str) -> bool
    ensures { result ≡ is_known key.now }
{
    matches!(
        key,
        "lease"
            | "root_mode"
            | "instance"
            | "server_owner"
            | "file_bytes"
            | "objects"
            | "connections"
            | "profile"
            | "clients"
            | "sessions"
            | "memory"
    )
}

/// The number at a key, where it is an integer that may stand there, or the default where the key is left out.
pub fn number_at(root: &Value, key: &str, number: Number) -> Option<u32>
    ensures { result ≡ number_of number.low number.high number.default (get key.now (view root.now)) }
{
    match root.get(key) {
        None => Some(number.default),
        Some(value) => match value {
            Value::Integer(n) => match u32::try_from(*n) {
                Ok(n) if n >= number.low && n <= number.high => Some(n),
                _ => None,
            },
            _ => None,
        },
    }
}

/// The bytes of a file at a key, from 1 to 2^40, or the default where the key is left out.
pub fn bytes_at(root: &Value, key: &str, default: u64) -> Option<u64>
    ensures { result ≡ number_of 1 1099511627776 default (get key.now (view root.now)) }
{
    wide_at(root, key, 1, Limits::MOST_BYTES, default)
}

/// The bytes of pages at a key, from 0 to 2^46, or the default where the key is left out.
pub fn memory_at(root: &Value, key: &str, default: u64) -> Option<u64>
    ensures { result ≡ number_of 0 70368744177664 default (get key.now (view root.now)) }
{
    wide_at(root, key, 0, MOST_MEMORY, default)
}

/// The bytes at a key, from the least to the most, or the default where the key is left out.
fn wide_at(root: &Value, key: &str, low: u64, high: u64, default: u64) -> Option<u64>
    ensures { result ≡ number_of low high default (get key.now (view root.now)) }
{
    match root.get(key) {
        None => Some(default),
        Some(value) => match value {
            Value::Integer(n) => match u64::try_from(*n) {
                Ok(n) if n >= low && n <= high => Some(n),
                _ => None,
            },
            _ => None,
        },
    }
}

/// The profile that a key names, or the default where the key is left out.
pub fn profile_at(root: &Value, key: &str, default: Profile) -> Option<Profile>
    ensures { result ≡ profile_of default (get key.now (view root.now)) }
{
    match root.get(key) {
        None => Some(default),
        Some(value) => match value {
            Value::String(text) => profile_named(text.as_str()),
            _ => None,
        },
    }
}

fn profile_named(text: &str) -> Option<Profile>
    ensures { result ≡ profile_named text.now }
{
    if text == "exact" {
        return Some(Profile::Exact);
    }
    if text == "unix" {
        return Some(Profile::Unix);
    }
    None
}

/// The name at a key, if it is a text that a server may have, or none where the key is left out.
///
/// `Text` where something else stands there; `Memory` where memory was refused.
fn owner_at(alloc: Global, root: &Value, key: &str) -> Result<Option<ServerOwner>, Bad>
    ensures given { IfOk result (λ owner. owner_of (get key.now (view root.now)) ≡ Some owner) }
    ensures text { result ≡ Err Bad.Text → owner_of (get key.now (view root.now)) ≡ None }
    ensures memory { result ≡ Err Bad.Memory → get key.now (view root.now) ≢ None }
{
    match root.get(key) {
        None => Ok(None),
        Some(value) => match value {
            Value::String(text) => match named(alloc, text.as_str()) {
                Ok(owner) => Ok(Some(owner)),
                Err(bad) => Err(bad),
            },
            _ => Err(Bad::Text),
        },
    }
}

/// The name that a text is. `Text` where a server may not have it; `Memory` where memory was refused.
pub fn named(alloc: Global, text: &str) -> Result<ServerOwner, Bad>
    ensures given { IfOk result (λ owner. (owner ≡ text.now) × (is_owner text.now ≡ true)) }
    ensures text { result ≡ Err Bad.Text → is_owner text.now ≡ false }
{
    let bytes = text.as_bytes();
    if bytes.is_empty() || bytes.len() > MOST_OF_OWNER {
        return Err(Bad::Text);
    }
    ServerOwner::of(alloc, bytes).map_err(|_| Bad::Memory)
}
