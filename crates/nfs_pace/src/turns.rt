//! Whose connections have a turn in a sweep, so that a client of many connections has no more time in it than another.

ghost use Rattle.std.specs.Prelude.{◌≡◌, ◌<◌, IfOk, replicate};
ghost use Rattle.nfs_pace.specs.Turns.{no_turn, place_of, entry_of, is_of, asked, has_one, begun, added, lasted, becomes, has_turn, lasted_so_far};

use crate::paced::ENOUGH;
use std::alloc::{AllocError, Global};
use std::marker::Model;

/// How many clients have an entry at most. Client ids count up, so those that came one after the other have one each.
const ENTRIES: u32 = 1_024;

/// The turns of a client in the sweep in which it asked for one last.
#[derive(Clone, Copy)]
pub struct Turn {
    client: u64,
    sweep: u64,
    /// How many microseconds they lasted.
    micros: u64,
    /// The first port that has one.
    first: u32,
    /// The port that had one last, in this sweep or before it; `u32::MAX` where none is known.
    last: u32,
}

/// The turns of each client. Of two clients whose ids are the same modulo 1,024 it knows the last one that asked; the other is not held back.
#[derive(Drop)]
pub struct Turns {
    turns: Vec<Turn>,
}

impl Model for Turns {
    ghost use Rattle.std.specs.Prelude.{◌≡◌, length, List};
    ghost use Rattle.nfs_pace.specs.declared.turns.Turn.{Turn};

    ghost Value = { List Turn };

    ghost view = { λ t. t.turns.items };

    ghost invariant = { λ t. length t.turns.items ≡ 1024 };
}

impl Turns {
    /// Nobody had a turn yet.
    ///
    /// `AllocError` where memory is refused.
    pub fn new(alloc: Global) -> Result<Turns, AllocError>
        ensures { IfOk result (λ turns. turns ≡ replicate 1024 no_turn) }
    {
        let none = Turn {
            client: 0,
            sweep: 0,
            micros: 0,
            first: 0,
            last: u32::MAX,
        };
        let turns = vec![in alloc; none; ENTRIES as usize]?;
        Ok(Turns { turns })
    }

    /// A port of the client asks for a turn in this sweep. The ports ask in the order of their numbers, before any of them has its turn. Client 0 stands
    /// for none, here and below.
    pub fn ask(&mut self, client: u64, sweep: u64, port: u32)
        ensures { self.new ≡ becomes client (asked client sweep port) self.old }
    {
        if client != 0 {
            let place = place_of(client);
            self.turns[place] = asked(self.turns[place], client, sweep, port);
        }
    }

    /// Whether a port has a turn in this sweep: the first that asked behind that of the client's last turn, or else the first of all that asked; and those
    /// behind it, until the client's turns have lasted for 2 ms.
    pub fn has_turn(&self, client: u64, sweep: u64, port: u32) -> bool
        ensures { result ≡ has_turn client sweep port self.now }
    {
        client == 0 || has_one(self.turns[place_of(client)], client, sweep, port)
    }

    /// The turn of a port begins, or it has none and something waits there that was read before: how many microseconds the client's turns lasted before it in this sweep.
    pub fn begin(&mut self, client: u64, sweep: u64, port: u32) -> u64
        ensures turns { self.new ≡ becomes client (begun client sweep port) self.old }
        ensures before { result ≡ lasted_so_far client sweep self.old }
    {
        if client == 0 {
            return 0;
        }
        let place = place_of(client);
        let turn = self.turns[place];
        self.turns[place] = begun(turn, client, sweep, port);
        lasted(turn, client, sweep)
    }

    /// It lasted so many microseconds, or so many more.
    pub fn add(&mut self, client: u64, sweep: u64, micros: u64)
        ensures { self.new ≡ becomes client (added client sweep micros) self.old }
    {
        if client != 0 {
            let place = place_of(client);
            self.turns[place] = added(self.turns[place], client, sweep, micros);
        }
    }
}

/// Where the entry of a client is.
fn place_of(client: u64) -> usize
    ensures place { result ≡ place_of client }
    ensures bound { result < 1024 }
{
    (client % u64::from(ENTRIES)) as usize
}

/// Whether an entry is of a client in a sweep.
fn is_of(turn: Turn, client: u64, sweep: u64) -> bool
    ensures { result ≡ is_of client sweep turn }
{
    turn.client == client && turn.sweep == sweep
}

/// The entry of a client behind what a port asks.
fn asked(turn: Turn, client: u64, sweep: u64, port: u32) -> Turn
    ensures { result ≡ asked client sweep port turn }
{
    if !is_of(turn, client, sweep) {
        let last = if turn.client == client {
            turn.last
        } else {
            u32::MAX
        };
        Turn {
            client,
            sweep,
            micros: 0,
            first: port,
            last,
        }
    } else if turn.first <= turn.last && turn.last < port {
        Turn {
            first: port,
            ..turn
        }
    } else {
        turn
    }
}

/// Whether a port has a turn by the entry of its client.
fn has_one(turn: Turn, client: u64, sweep: u64, port: u32) -> bool
    ensures { result ≡ has_one client sweep port turn }
{
    !is_of(turn, client, sweep) || port == turn.first || turn.first < port && turn.micros < ENOUGH
}

/// The entry of a client where a port's turn begins.
fn begun(turn: Turn, client: u64, sweep: u64, port: u32) -> Turn
    ensures { result ≡ begun client sweep port turn }
{
    if !is_of(turn, client, sweep) {
        Turn {
            client,
            sweep,
            micros: 0,
            first: 0,
            last: port,
        }
    } else if has_one(turn, client, sweep, port) {
        Turn { last: port, ..turn }
    } else {
        turn
    }
}

/// The entry of a client whose turn lasted so long.
fn added(turn: Turn, client: u64, sweep: u64, micros: u64) -> Turn
    ensures { result ≡ added client sweep micros turn }
{
    if is_of(turn, client, sweep) {
        Turn {
            micros: turn.micros.saturating_add(micros),
            ..turn
        }
    } else {
        turn
    }
}

/// How many microseconds the turns of a client lasted by its entry.
fn lasted(turn: Turn, client: u64, sweep: u64) -> u64
    ensures { result ≡ lasted client sweep turn }
{
    if is_of(turn, client, sweep) {
        turn.micros
    } else {
        0
    }
}
