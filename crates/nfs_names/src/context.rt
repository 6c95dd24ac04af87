//! What the operations of a compound hand on to one another (RFC 8881 section 16.2.3.1).

ghost use Rattle.std.specs.Prelude.{◌≡◌};
ghost use Rattle.nfs_xdr.specs.Caller.{caller};
ghost use Rattle.nfs_names.specs.Context.{anonymous, begins, at_object};

use nfs_compound::Stateid;
use nfs_xdr::Who;
use std::marker::Model;

/// A filehandle that SAVEFH put aside, with its stateid.
#[derive(Clone, Copy)]
pub struct Saved {
    /// The number of its object.
    pub object: u64,
    /// The stateid that was the current one.
    pub stateid: Stateid,
}

/// Who calls. Contracts see the caller, its groups as numbers.
#[derive(Drop)]
pub struct Caller<'a> {
    who: Who<'a>,
}

impl<'a> Model for Caller<'a> {
    ghost use Rattle.nfs_xdr.specs.Caller.{Caller, caller};

    ghost Value = { Caller };

    ghost view = { λ c. caller c.who };
}

impl<'a> Caller<'a> {
    /// The caller, as permission bits are judged by.
    pub fn who(&self) -> &Who<'a>
        ensures { caller result.now ≡ self.now }
    {
        &self.who
    }
}

/// What stands between two operations of a compound, and for whom they run.
#[derive(Drop)]
pub struct Context<'a> {
    /// The number of the current filehandle's object, which may have gone.
    pub current: Option<u64>,
    /// The current stateid.
    pub stateid: Stateid,
    /// The saved filehandle.
    pub saved: Option<Saved>,
    /// The client of the session.
    pub client: u64,
    /// Who calls.
    pub who: Caller<'a>,
}

/// The anonymous stateid: all zeros (RFC 8881 section 8.2.3).
const ANONYMOUS: Stateid = Stateid {
    seqid: 0,
    other: [0; 12],
};

impl<'a> Context<'a> {
    /// The context in which the first operation behind a SEQUENCE runs: no filehandle, and the anonymous stateid.
    pub fn new(client: u64, who: &Who<'a>) -> Context<'a>
        ensures { result ≡ begins client (caller who.now) }
    {
        Context {
            current: None,
            stateid: ANONYMOUS,
            saved: None,
            client,
            who: Caller { who: *who },
        }
    }

    /// The object becomes the current filehandle's, and the current stateid is anonymous.
    pub(crate) fn go_to(&mut self, object: u64)
        ensures { self.new ≡ at_object self.old object }
    {
        self.current = Some(object);
        self.stateid = ANONYMOUS;
    }
}
