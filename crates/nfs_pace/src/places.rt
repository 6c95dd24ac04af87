//! Who has a seat among the connections of a server, who stands in the hall, and who gives way to a newcomer.
//!
//! Nothing here reads a clock or a socket. `shown` is what the clock shows that leases go by; `now` is what really passed, which bears on the hall alone.
//! Both are in microseconds. A client is named by its client id, and 0 stands for none.

ghost use Rattle.std.specs.Prelude.{◌≡◌, ◌≤◌, ◌<◌, ◌+◌, ◌*◌, ℕ, find, option_map, option_and_then, MatchOption, IfOk, IfSome, length, replicate, set, is_some, is_none, false, true, None, Some};
ghost use Rattle.std.specs.List.{count_by, list_any, position};
ghost use Rattle.std.specs.Option.{option_copied};
ghost use Rattle.nfs_pace.specs.Places.{is_over, client_of, has_ended, answers, hears, ends, sits, left, is_at, is_from, is_kept_for, is_dead, is_run_out, guest_at, seat_at, AreEach, newcomer, given_to, seats_of, crowd_of, IsMost, NoneMany, AreOwners, joined, is_seated, hall_count, crowd, IsFirstToGo, NoneToGo, GivesPort, Spares, GivesSeat, SeatsNext, NoneNext, IsNext};

use crate::crowds::{Crowds, NOBODY};
use crate::guest::{
    Guest, answers, ends, has_ended, has_stood, hears, is_from, is_over, stander, stood,
};
use crate::paced::MICROS;
use crate::seat::{
    Seat, given_to, is_at, is_dead, is_kept_for, is_of, is_run_out, left, owner, port_of, seat_in,
    sits, used_at,
};
use std::alloc::{AllocError, Global};
use std::marker::Model;

/// Who is on each port, and who has each seat.
#[derive(Drop)]
pub struct Places {
    guests: Vec<Option<Guest>>,
    seats: Vec<Option<Seat>>,
    /// Where the seat is of who is on each port, where it has one.
    found: Vec<usize>,
    /// Of each seat the client, and of each port the address of who stands in the hall there.
    owners: Crowds,
    standers: Crowds,
    /// How long one is spared: a lease, and a second more, as leases go by whole seconds.
    lease: u64,
}

impl Model for Places {
    ghost use Rattle.std.specs.Prelude.{◌≡◌, length};
    ghost use Rattle.nfs_pace.specs.Places.{PlacesModel, IsFound, AreOwners, AreStanders};

    ghost Value = { PlacesModel };

    ghost view = { λ p. record { guests = p.guests.items; seats = p.seats.items; lease = p.lease } };

    ghost invariant = { λ p. (length p.found.items ≡ length p.guests.items) × IsFound p.found.items p.seats.items × AreOwners p.owners p.seats.items × AreStanders p.standers p.guests.items p.seats.items };
}

impl Places {
    /// So many ports and seats, which are free, of a server whose lease lasts so many seconds. Where there are fewer seats than ports there is a hall.
    ///
    /// `AllocError` where memory is refused.
    pub fn new(alloc: Global, ports: u32, seats: u32, lease: u32) -> Result<Places, AllocError>
        ensures { IfOk result (λ p. p ≡ record { guests = replicate ports None; seats = replicate seats None; lease = (lease + 1) * 1000000 }) }
    {
        let guests = vec![in alloc; None; ports as usize]?;
        let free = vec![in alloc; None; seats as usize]?;
        let found = vec![in alloc; 0; ports as usize]?;
        let owners = Crowds::new(alloc, seats)?;
        let standers = Crowds::new(alloc, ports)?;
        Ok(Places {
            guests,
            seats: free,
            found,
            owners,
            standers,
            lease: (u64::from(lease) + 1) * MICROS,
        })
    }

    /// How many ports there are, free or not.
    pub fn count(&self) -> usize
        ensures { result ≡ length self.now.guests }
    {
        self.guests.len()
    }

    /// How many of them have a connection.
    pub fn taken(&self) -> usize
        ensures { result ≡ count_by is_some self.now.guests }
    {
        self.guests.iter().filter(|guest| guest.is_some()).count()
    }

    /// The address of a client's first connection, as `is_from` tells its connections.
    pub fn address_of(&self, client: u64) -> Option<u32>
        ensures { result ≡ option_and_then (λ guest. option_map (λ g. g.address) guest) (find (is_from client) self.now.guests) }
    {
        match first_from(&self.guests, client) {
            Some(guest) => match guest {
                Some(guest) => Some(guest.address),
                None => None,
            },
            None => None,
        }
    }

    /// Whether no port has one.
    pub fn is_empty(&self) -> bool
        ensures { result ≡ true → (port : ℕ) → port < length self.now.guests → is_none (guest_at self.now.guests port) ≡ true }
    {
        self.guests.iter().all(|guest| guest.is_none())
    }

    /// The client of the last SEQUENCE that was answered on the port; 0 where there is none.
    pub fn client_on(&self, port: usize) -> u64
        ensures { result ≡ client_of (guest_at self.now.guests port) }
    {
        match self.guests.get(port) {
            Some(Some(guest)) => guest.client,
            _ => 0,
        }
    }

    /// Whether who is on the port was silent for longer than it is spared.
    pub fn is_over(&self, port: usize, shown: u64) -> bool
        ensures { result ≡ is_over self.now.lease shown (guest_at self.now.guests port) }
    {
        match self.guests.get(port) {
            Some(guest) => is_over(*guest, self.lease, shown),
            None => false,
        }
    }

    /// A SEQUENCE of this client was answered on the port. A seat there is that client's from now on.
    pub fn answered(&mut self, port: usize, client: u64, shown: u64)
        ensures guests { self.new.guests ≡ set self.old.guests port (answers client shown (guest_at self.old.guests port)) }
        ensures seats { AreEach (sits port client shown) self.old.seats self.new.seats }
        ensures lease { self.new.lease ≡ self.old.lease }
    {
        if port >= self.guests.len() {
            return;
        }
        answers(&mut self.guests[port], client, shown);
        let j = self.found[port];
        sits_in(&mut self.seats, &mut self.owners, j, port, client, shown);
    }

    /// Something else was answered there: that counts of a stranger.
    pub fn heard(&mut self, port: usize, shown: u64)
        ensures { self.new ≡ record self.old { guests = set self.old.guests port (hears shown (guest_at self.old.guests port)) } }
    {
        if port < self.guests.len() {
            hears(&mut self.guests[port], shown);
        }
    }

    /// A session or a client was ended there: no seat is kept for it.
    pub fn ended(&mut self, port: usize)
        ensures { self.new ≡ record self.old { guests = set self.old.guests port (ends (guest_at self.old.guests port)) } }
    {
        if port < self.guests.len() {
            ends(&mut self.guests[port]);
        }
    }

    /// The connection of the port is gone. A seat there is kept for its client as long as its lease lasts, unless its session was ended there.
    pub fn leave(&mut self, port: usize, shown: u64)
        ensures guests { self.new.guests ≡ set self.old.guests port None }
        ensures seats { AreEach (left port (has_ended (guest_at self.old.guests port)) self.old.lease shown) self.old.seats self.new.seats }
        ensures lease { self.new.lease ≡ self.old.lease }
    {
        self.turn_over(port, None, shown);
    }

    /// Somebody else is on the port from now on, or nobody. The seat of who was there is kept for its client, or is free.
    fn turn_over(&mut self, port: usize, guest: Option<Guest>, shown: u64)
        ensures guests { self.new.guests ≡ set self.old.guests port guest }
        ensures seats { AreEach (left port (has_ended (guest_at self.old.guests port)) self.old.lease shown) self.old.seats self.new.seats }
        ensures lease { self.new.lease ≡ self.old.lease }
    {
        if port >= self.guests.len() {
            return;
        }
        let j = self.found[port];
        let ended = has_ended(self.guests[port]);
        let seat = left(seat_in(&self.seats, j), port, ended, self.lease, shown);
        change(&mut self.seats, &mut self.owners, j, seat);
        self.guests[port] = guest;
        self.standers.put(port, stander(guest));
    }

    /// A newcomer of this address has the port from now on, and stands in the hall.
    pub fn stand(&mut self, port: usize, address: u32, now: u64, shown: u64, sweep: u64)
        ensures guests { self.new.guests ≡ set self.old.guests port (Some (newcomer address now shown sweep)) }
        ensures seats { AreEach (left port (has_ended (guest_at self.old.guests port)) self.old.lease shown) self.old.seats self.new.seats }
        ensures lease { self.new.lease ≡ self.old.lease }
    {
        let newcomer = Guest {
            address,
            client: 0,
            used: shown,
            since: shown,
            came: now,
            sweep,
            ended: false,
        };
        self.turn_over(port, Some(newcomer), shown);
    }

    /// The port that a newcomer of this address is given now, if there is one for it. Who has it gives way. Who has a seat gives way to none before it
    /// was silent for longer than it is spared.
    #[tactic(auto, using(crate::proofs::Found::free_is_none, crate::proofs::Found::silent_is_over), unfolding(crate::specs::Places::crowd))]
    pub fn place_for(&self, address: u32, now: u64, shown: u64, sweep: u64) -> Option<usize>
        ensures given { GivesPort self.now address now shown sweep result }
        ensures spares { Spares self.now shown result }
        ensures bound { IfSome result (λ port. port < length self.now.guests) }
    {
        if let Some(port) = self.free() {
            return Some(port);
        }
        if let Some(port) = self.silent(shown) {
            return Some(port);
        }
        if self.seats.len() == self.guests.len() {
            return None;
        }
        if let Some(port) = self.first_to_go(true, address, now, sweep) {
            return Some(port);
        }
        self.first_to_go(false, address, now, sweep)
    }

    /// Gives a seat to one of the hall whose client is known, if there is one for it: whether it did.
    pub fn seat_next(&mut self, shown: u64) -> bool
        ensures { SeatsNext self.old shown result self.new }
    {
        match self.next_seat(shown) {
            Some((port, j)) => {
                self.give(port, j);
                true
            }
            None => false,
        }
    }

    /// Who is on the port has the seat from now on; whose it was stands in the hall.
    fn give(&mut self, port: usize, j: usize)
        requires guest { is_some (guest_at self.old.guests port) ≡ true }
        requires seat { j < length self.old.seats }
        requires stands { is_seated self.old port ≡ false }
        ensures { self.new ≡ record self.old { seats = set self.old.seats j (given_to port (guest_at self.old.guests port) (seat_at self.old.seats j)) } }
    {
        let before = self.seats[j];
        let given = given_to(self.guests[port], port, before);
        change(&mut self.seats, &mut self.owners, j, given);
        self.found[port] = j;
        join(&mut self.standers, &self.guests, port_of(before));
        self.standers.put(port, NOBODY);
    }

    /// The first port, in their order, for which there is a seat, and that seat.
    fn next_seat(&self, shown: u64) -> Option<(usize, usize)>
        ensures { MatchOption result (NoneNext self.now shown) (λ found. IsNext self.now shown found.0 found.1) }
    {
        for port in 0..self.guests.len() {
            if let Some(j) = self.seat_for(port, shown) {
                return Some((port, j));
            }
        }
        None
    }

    /// The seat that who is on the port is given, if its client is known and it has none.
    fn seat_for(&self, port: usize, shown: u64) -> Option<usize>
        requires { port < length self.now.guests }
        ensures gives { GivesSeat self.now shown port result }
        ensures bound { IfSome result (λ j. j < length self.now.seats) }
    {
        let guest = self.guests[port]?;
        if guest.client == 0 || self.is_seated(port) {
            return None;
        }
        let (client, address, since) = (guest.client, guest.address, guest.since);
        if let Some(j) = self.kept_for(client) {
            return Some(j);
        }
        if let Some(j) = self.free_seat() {
            return Some(j);
        }
        if let Some(j) = self.dead(client, address, since, shown) {
            return Some(j);
        }
        if let Some(j) = self.run_out(shown) {
            return Some(j);
        }
        self.most(client)
    }

    /// A port that has no connection.
    fn free(&self) -> Option<usize>
        ensures { result ≡ position is_none self.now.guests }
    {
        self.guests.iter().position(|guest| guest.is_none())
    }

    /// A port whose connection was silent for longer than it is spared.
    fn silent(&self, shown: u64) -> Option<usize>
        ensures { result ≡ position (is_over self.now.lease shown) self.now.guests }
    {
        let lease = self.lease;
        self.guests
            .iter()
            .position(|guest| is_over(*guest, lease, shown))
    }

    /// Whether who is on the port has a seat.
    #[tactic(auto, using(crate::proofs::Sitting::any_there))]
    fn is_seated(&self, port: usize) -> bool
        ensures { result ≡ list_any (is_at port) self.now.seats }
    {
        if port >= self.guests.len() {
            return false;
        }
        is_at(seat_in(&self.seats, self.found[port]), port)
    }

    /// The seat that is kept for a client.
    fn kept_for(&self, client: u64) -> Option<usize>
        ensures { result ≡ position (is_kept_for client) self.now.seats }
    {
        self.seats
            .iter()
            .position(|seat| is_kept_for(*seat, client))
    }

    /// A seat that nobody has.
    fn free_seat(&self) -> Option<usize>
        ensures { result ≡ position is_none self.now.seats }
    {
        self.seats.iter().position(|seat| seat.is_none())
    }

    /// The seat of a connection of the same client and address that was answered nothing since another of them came.
    fn dead(&self, client: u64, address: u32, since: u64, shown: u64) -> Option<usize>
        ensures { result ≡ position (is_dead client address since shown) self.now.seats }
    {
        self.seats
            .iter()
            .position(|seat| is_dead(*seat, client, address, since, shown))
    }

    /// A seat whose client was answered nothing there for longer than a lease.
    fn run_out(&self, shown: u64) -> Option<usize>
        ensures { result ≡ position (is_run_out self.now.lease shown) self.now.seats }
    {
        let lease = self.lease;
        self.seats
            .iter()
            .position(|seat| is_run_out(*seat, lease, shown))
    }

    /// How many seats a client has.
    fn seats_of(&self, client: u64) -> usize
        ensures count { result ≡ seats_of client self.now.seats }
        ensures bound { result ≤ length self.now.seats }
    {
        if client == NOBODY {
            // (that is what a free seat has: it is no client of the server's)
            self.seats
                .iter()
                .filter(|seat| is_of(**seat, client))
                .count()
        } else {
            self.owners.count(client)
        }
    }

    /// How many seats the client of this one has.
    fn crowd_of(&self, seat: Option<Seat>) -> usize
        ensures { result ≡ crowd_of self.now.seats seat }
    {
        match seat {
            Some(seat) => self.seats_of(seat.client),
            None => 0,
        }
    }

    /// Of the client that has most seats, and two more than this one at least, the one that was answered nothing for longest.
    fn most(&self, client: u64) -> Option<usize>
        ensures { MatchOption result (NoneMany self.now.seats (seats_of client self.now.seats + 1)) (λ j. IsMost self.now.seats (seats_of client self.now.seats + 1) j) }
    {
        let count = self.seats.len();
        let base = self.seats_of(client) + 1;
        let mut found = None;
        let mut most = base;
        let mut least = u64::MAX;
        for j in 0..count {
            let seat = self.seats[j];
            let (crowd, used) = (self.crowd_of(seat), used_at(seat));
            if goes_before(crowd, used, most, least, base) {
                most = crowd;
                least = used;
                found = Some(j);
            }
        }
        found
    }

    /// How many of an address stand in the hall.
    pub fn in_hall(&self, address: u32) -> usize
        ensures count { result ≡ hall_count self.now address (length self.now.guests) }
        ensures bound { result ≤ length self.now.guests }
    {
        self.standers.count(u64::from(address))
    }

    /// How many of the address of who is on the port stand in the hall, and the newcomer with them if it is of that; 0 where who is there does not give
    /// way to it.
    #[tactic(auto, unfolding(crate::specs::Places::crowd))]
    fn crowd(&self, port: usize, strangers: bool, address: u32, now: u64, sweep: u64) -> usize
        requires { port < length self.now.guests }
        ensures { result ≡ crowd self.now strangers address now sweep port }
    {
        match self.guests[port] {
            Some(guest) => {
                let known = guest.client != 0;
                if known == strangers || !has_stood(guest, now, sweep) || self.is_seated(port) {
                    0
                } else {
                    self.in_hall(guest.address) + usize::from(guest.address == address)
                }
            }
            None => 0,
        }
    }

    /// Of the strangers in the hall, or of the others, who gives way first to a newcomer of this address: of the address of which most stand there, and
    /// more than of the newcomer's, the one that came first.
    fn first_to_go(&self, strangers: bool, address: u32, now: u64, sweep: u64) -> Option<usize>
        ensures { MatchOption result (NoneToGo self.now strangers address now sweep) (λ port. IsFirstToGo self.now strangers address now sweep port) }
    {
        let base = self.in_hall(address);
        let mut found = None;
        let mut most = base;
        let mut longest = 0;
        for port in 0..self.guests.len() {
            let (crowd, stood) = (
                self.crowd(port, strangers, address, now, sweep),
                stood(self.guests[port], now),
            );
            if leads(crowd, stood, most, longest, base) {
                most = crowd;
                longest = stood;
                found = Some(port);
            }
        }
        found
    }
}

/// One seat becomes this one.
#[tactic(auto, using(crate::proofs::Standing::owners_set))]
fn change(seats: &mut Vec<Option<Seat>>, owners: &mut Crowds, j: usize, seat: Option<Seat>)
    requires { AreOwners owners.old seats.old.items }
    ensures seats { seats.new.items ≡ set seats.old.items j seat }
    ensures owners { AreOwners owners.new seats.new.items }
{
    if j < seats.len() {
        seats[j] = seat;
        owners.put(j, owner(seat));
    }
}

/// A SEQUENCE of this client was answered on the port, whose seat is this one if it has one.
#[tactic(auto, using(crate::proofs::Standing::owners_set, crate::proofs::Standing::owners_stay))]
fn sits_in(
    seats: &mut Vec<Option<Seat>>,
    owners: &mut Crowds,
    j: usize,
    port: usize,
    client: u64,
    shown: u64,
)
    requires { AreOwners owners.old seats.old.items }
    ensures seats { seats.new.items ≡ set seats.old.items j (sits port client shown (seat_at seats.old.items j)) }
    ensures owners { AreOwners owners.new seats.new.items }
{
    if j < seats.len() {
        let seat = &mut seats[j];
        let before = owner(*seat);
        sits(seat, port, client, shown);
        let after = owner(*seat);
        // (mostly it is the same client)
        if after != before {
            owners.put(j, after);
        }
    }
}

/// Who is on the port stands in the hall from now on.
fn join(standers: &mut Crowds, guests: &[Option<Guest>], port: Option<usize>)
    ensures { standers.new ≡ joined standers.old guests.now port }
{
    if let Some(port) = port {
        let guest = match guests.get(port) {
            Some(guest) => *guest,
            None => None,
        };
        standers.put(port, stander(guest));
    }
}

/// The first connection that is a client's.
fn first_from<'a>(guests: &'a [Option<Guest>], client: u64) -> Option<&'a Option<Guest>>
    ensures { option_copied result ≡ find (is_from client) guests.now }
{
    guests.iter().find(|guest| is_from(**guest, client))
}

/// Whether a crowd of more than so many leads: it is larger than the largest so far, or as large, and older.
fn leads(crowd: usize, age: u64, most: usize, longest: u64, base: usize) -> bool
    requires { base ≤ most }
    ensures leads { result ≡ true → (base < crowd) × (most ≤ crowd) × (crowd ≡ most → longest ≤ age) }
    ensures follows { result ≡ false → (crowd ≤ most) × (crowd ≡ most → base < crowd → age ≤ longest) }
{
    if crowd == most {
        crowd > base && age >= longest
    } else {
        crowd > most
    }
}

/// The same, where what was answered last first leads.
fn goes_before(crowd: usize, used: u64, most: usize, least: u64, base: usize) -> bool
    requires { base ≤ most }
    ensures leads { result ≡ true → (base < crowd) × (most ≤ crowd) × (crowd ≡ most → used ≤ least) }
    ensures follows { result ≡ false → (crowd ≤ most) × (crowd ≡ most → base < crowd → least ≤ used) }
{
    if crowd == most {
        crowd > base && used <= least
    } else {
        crowd > most
    }
}
