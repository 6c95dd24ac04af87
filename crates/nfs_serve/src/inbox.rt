//! What has come on a connection and was not stepped.

ghost use Rattle.std.specs.Prelude.{◌≡◌, ◌≤◌, ◌<◌, [], length, drop, take, IfOk};
ghost use Rattle.nfs_serve.specs.Told.{Logs};
ghost use Rattle.nfs_serve.specs.Shows.{came};
ghost use Rattle.nfs_serve.specs.Script.{most_piece};
ghost use Rattle.nfs_serve.specs.Desk.{most_ports};
ghost use Rattle.nfs_serve.specs.Boxes.{Receives};

use crate::connection::MARK;
use crate::ports::{Came, Ports};
use crate::script::MAX_PIECE;
use nfs_xdr::MAX_RECORD;
use std::alloc::{AllocError, Global};
use std::marker::Model;

/// The most bytes that one read brings: two records of the greatest length, each with one mark.
const MOST_READ: usize = 2 * (MARK + MAX_RECORD as usize);

/// Bytes that came and were not stepped, in room that is made once.
#[derive(Drop)]
pub(crate) struct Inbox {
    bytes: Vec<u8>,
    at: usize,
    end: usize,
}

impl Model for Inbox {
    ghost use Rattle.std.specs.Prelude.{ℕ, List, take, drop, vec_len, ◌≡◌, ◌≤◌};
    ghost use Rattle.nfs_serve.specs.Desk.{most_read};

    ghost Value = { List ℕ };

    ghost view = { λ b. drop b.at (take b.end b.bytes.items) };

    ghost invariant = { λ b. (b.at ≤ b.end) × (b.end ≤ most_read) × (vec_len b.bytes ≡ most_read) };
}

impl Inbox {
    /// An empty one. Its buffer is made here.
    pub(crate) fn new(alloc: Global) -> Result<Inbox, AllocError>
        ensures { IfOk result (λ b. b ≡ []) }
    {
        Ok(Inbox {
            bytes: vec![in alloc; 0; MOST_READ]?,
            at: 0,
            end: 0,
        })
    }

    /// The bytes.
    pub(crate) fn rest(&self) -> &[u8]
        ensures { result.now ≡ self.now }
    {
        &self.bytes[self.at..self.end]
    }

    /// What is stepped of them at once: no more than a piece of a script has.
    #[tactic(auto, using(std::proofs::lemmas::List::take_min))]
    pub(crate) fn piece(&self) -> &[u8]
        ensures { result.now ≡ take most_piece self.now }
    {
        let rest = self.rest();
        &rest[..(MAX_PIECE as usize).min(rest.len())]
    }

    /// Lets go so many bytes in front.
    pub(crate) fn consume(&mut self, n: usize)
        requires { n ≤ length self.old }
        ensures { self.new ≡ drop n self.old }
    {
        self.at += n;
    }

    /// Lets go all.
    pub(crate) fn clear(&mut self)
        ensures { self.new ≡ [] }
    {
        self.at = 0;
        self.end = 0;
    }

    /// Takes what one read gives, into an empty one.
    pub(crate) fn receive<P: Ports>(&mut self, ports: &mut P, port: u32) -> Came
        requires port { port < most_ports }
        requires empty { self.old ≡ [] }
        ensures received { Receives port result self.new (P.log ports.old) (P.log ports.new) }
    {
        let came = ports.read(port, &mut self.bytes);
        self.at = 0;
        self.end = match came {
            Came::Bytes(n) => n,
            _ => 0,
        };
        came
    }
}
