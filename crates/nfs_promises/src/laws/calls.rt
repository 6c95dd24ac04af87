//! What is promised of calls, of connections and of sessions.

ghost use Rattle.nfs_promises.specs.Calls.{NothingIsLost.NothingIsLost, WaitsForFew.WaitsForFew, EachIsAnswered.EachIsAnswered, Exchanges.RunsTo};
ghost use Rattle.nfs_promises.specs.Calls.{Exchanges.{null_script, null_output, exchange_script, exchange_output}, Streams.{HasOneReading, CutsAnywhere}};
ghost use Rattle.nfs_promises.specs.Calls.{Streams.{BringsOnce, ConnectionsAreStreams}, EachForm.EachFormRunsRecords, LeaseTold.{LeaseIsListed, LeaseIsTold}};
ghost use Rattle.nfs_promises.specs.Calls.{LeaseToldWorked.IsListed, SessionsOnce.{EachMakesOne, EachWasMade, RepeatsMakeNone, NextMakesOne}};
ghost use Rattle.nfs_promises.specs.Calls.{SessionsOnceWorked.IsGivenOnce, NeverExpired.NoneIsExpired, SessionsDenied.BadSessionIsTrue};
ghost use Rattle.nfs_promises.specs.Calls.{SessionsDeniedWorked.{IsLeft, EndsAreRefused}, SessionStays.SessionsStay, SessionStaysWorked.StaysToLast};
ghost use Rattle.nfs_promises.specs.Calls.{OwnIds.IdsAreOnes, OwnIdsWorked.AreOwn, HubWorked.{TurnIsSoon, ReplyIsWhole, TurnsAreEntries}};
ghost use Rattle.nfs_promises.specs.Calls.WholeRuns.{HubRunsScript, NothingIsLostInARun, NothingIsLostInATurn};

/// Which fault a script has, if any, and its whole entries before it are decided by its bytes.
#[tactic(auto, using(crate::proofs::Calls::HasOneReading::one_reading))]
pub fn one_reading()
    ensures { HasOneReading }
{}

/// What a piece brings on a connection does not depend on where it is cut.
#[tactic(auto, using(crate::proofs::Calls::CutsAnywhere::cuts_anywhere, crate::proofs::Calls::CutsAnywhere::brings_once))]
pub fn cuts_anywhere()
    ensures cuts { CutsAnywhere }
    ensures once { BringsOnce }
{}

/// Entries of many connections in any order, and closes: on each connection the pieces since its last close form one stream, and the
/// records that arrive on it are those of that stream.
#[tactic(auto, using(crate::proofs::Calls::ConnectionsAreStreams::connections))]
pub fn connections_are_streams()
    ensures { ConnectionsAreStreams }
{}

/// While one of many connections is served nothing that came on it is lost, and no reply is lost, doubled or out of its order.
#[tactic(auto, using(crate::proofs::Calls::NothingIsLost::account))]
pub fn nothing_is_lost()
    ensures { NothingIsLost }
{}

/// A run of many connections is the run of a script: of an entry for each part that was stepped, at its moment, and of one that closes for each
/// connection that began or was closed. So each law of scripts is one of it.
#[tactic(auto, using(crate::proofs::Calls::WholeRuns::runs_script))]
pub fn a_hub_runs_a_script()
    ensures { HubRunsScript }
{}

/// In a run of many connections nothing is lost on one that is served, since it began, while the others change the state in between: behind
/// each turn, and behind each act of one. Its records are those of what came and does not wait, and the replies to them are what its peer took
/// and what is owed.
pub fn nothing_is_lost_in_a_run()
    ensures ends { NothingIsLostInARun }
    ensures within { NothingIsLostInATurn }
{}

/// Between two turns of a connection on which something waits to be stepped no more than 16 records of each other port run.
#[tactic(auto, using(crate::proofs::Calls::WaitsForFew::waits_for_few))]
pub fn waits_for_few()
    ensures { WaitsForFew }
{}

/// The definitions compute: two sweeps over two ports, in which a call is stepped in two parts. They meet the premises of `waits_for_few`, which refuses a hub that
/// passes over the port in the second sweep, and one that steps 17 parts of the other port in between.
#[tactic(auto, using(crate::proofs::Calls::HubWorked::turn_is_soon))]
pub fn a_turn_is_soon()
    ensures { TurnIsSoon }
{}

/// The definitions compute: a turn in which the rest of that call is stepped, and its peer takes eight bytes of the reply. It meets the premises of `nothing_is_lost`,
/// which refuses a hub that doubles the reply, drops the rest of it, or swaps its bytes, and one that loses bytes that came.
#[tactic(auto, using(crate::proofs::Calls::HubWorked::reply_is_whole))]
pub fn a_reply_is_whole()
    ensures { ReplyIsWhole }
{}

/// The definitions compute: those two sweeps are the run of five entries, which bring two records. They meet the premises of `a_hub_runs_a_script`, which refuses the
/// script of the same turns in another order, a hub that does not step the call that it answers, and one that keeps what began of it.
#[tactic(auto, using(crate::proofs::Calls::HubWorked::turns_are_entries))]
pub fn turns_are_entries()
    ensures { TurnsAreEntries }
{}

/// What `Server::record`, `Server::feed`, `Server::replay`, `Server::talk` and `Server::serve_ports` do is a run of the records that arrive, in
/// their order: the state that each leaves is that which the list of its records leaves. So each law of any list of records is one of the
/// program in each of its forms.
#[tactic(auto, using(crate::proofs::Calls::EachForm::each_form))]
pub fn each_form_runs_records()
    ensures { EachFormRunsRecords }
{}

/// The definitions compute: a call of NULL is answered by the head of a reply.
#[tactic(auto, using(crate::proofs::Calls::Exchanges::null_runs))]
pub fn null()
    ensures { RunsTo null_script null_output }
{}

/// The definitions compute: EXCHANGE_ID of a new owner, sent twice, is answered with the client ids of two counters.
#[tactic(auto, using(crate::proofs::Calls::Exchanges::exchange_runs))]
pub fn exchange_id()
    ensures { RunsTo exchange_script exchange_output }
{}

/// In every run a session in which a request ran stays, with its slots, while its client renews in time, no DESTROY_SESSION of it is answered NFS4_OK and no CREATE_SESSION
/// puts another id in its client's place.
#[tactic(auto, using(crate::proofs::Calls::SessionStays::sessions_stay))]
pub fn sessions_stay()
    ensures { SessionsStay }
{}

/// The definitions compute: a client renews its lease at the last second, twice, and nothing ends its session. That run meets the premises of `sessions_stay`, which
/// refuses a server that forgets the session.
#[tactic(auto, using(crate::proofs::Calls::SessionStaysWorked::stays_to_last))]
pub fn a_session_stays()
    ensures { StaysToLast }
{}

/// Each call is answered under its xid, whatever it asks for and in whatever state; and what is no call is not answered.
#[tactic(auto, using(crate::proofs::Calls::EachIsAnswered::each_is_answered))]
pub fn each_call_is_answered()
    ensures { EachIsAnswered }
{}

/// In every run a GETATTR of attribute 10, whatever else it asks for, that answers NFS4_OK gives the number of seconds that leases last; and so does a READDIR, with
/// each of its entries.
#[tactic(auto, using(crate::proofs::Calls::LeaseTold::lease_is_told, crate::proofs::Calls::LeaseTold::lease_is_listed))]
pub fn lease_is_told()
    ensures told { LeaseIsTold }
    ensures listed { LeaseIsListed }
{}

/// The definitions compute: a READDIR of the root lists a file with the 90 seconds that leases last; and `lease_is_told` refuses an entry that says 91.
#[tactic(auto, using(crate::proofs::Calls::LeaseToldWorked::is_listed))]
pub fn a_lease_is_listed()
    ensures { IsListed }
{}

/// In every run a reply says NFS4ERR_BADSESSION of a SEQUENCE or a DESTROY_SESSION only where its session was not made, or has ended since: by a DESTROY_SESSION that was
/// answered NFS4_OK, by a CREATE_SESSION that put another id in its client's place, or with the lease. And nothing is answered NFS4ERR_EXPIRED.
pub fn sessions_are_denied_truly()
    ensures bad { BadSessionIsTrue }
    ensures expired { NoneIsExpired }
{}

/// The definitions compute: a client makes a session, and renews in time; where it does not, destroys the session or restarts, the reply says NFS4ERR_BADSESSION, and its
/// stateid is NFS4ERR_BAD_STATEID. Those runs meet the premises of `sessions_are_denied_truly`, which refuses a server that forgets the session, one whose leases are
/// shorter than it says, and a READ answered NFS4ERR_EXPIRED.
#[tactic(auto, using(crate::proofs::Calls::SessionsDeniedWorked::is_left, crate::proofs::Calls::SessionsDeniedWorked::ends_are_refused))]
pub fn a_session_is_denied()
    ensures left { IsLeft }
    ensures refused { EndsAreRefused }
{}

/// In every run what one client was told is told to no other: whoever is told a client id that was told before is the same owner with the same verifier, and whoever
/// is told a session id that was told before is the same client.
pub fn ids_are_ones()
    ensures { IdsAreOnes }
{}

/// The definitions compute: five owners are told five client ids, and two clients two session ids. That run meets the premises of `ids_are_ones`, which refuses a server
/// that tells every newcomer past the fourth the id of the first client, and one that tells each client the session of the first.
#[tactic(auto, using(crate::proofs::Calls::OwnIdsWorked::are_own))]
pub fn ids_are_own()
    ensures { AreOwn }
{}

/// A CREATE_SESSION that is answered NFS4_OK makes one session of its client, of the id that is answered, which did not stand before; or it changes nothing.
pub fn each_makes_one_session()
    ensures { EachMakesOne }
{}

/// The session that a CREATE_SESSION is answered with NFS4_OK was made by it, or by a record before it of the same client and number. So a client's first one
/// makes a session.
#[tactic(auto, using(crate::proofs::Calls::SessionsOnce::each_was_made))]
pub fn each_session_was_made()
    ensures { EachWasMade }
{}

/// A second CREATE_SESSION of the same client and number that is answered NFS4_OK is answered the same session id, and changes nothing.
pub fn repeats_make_no_session()
    ensures { RepeatsMakeNone }
{}

/// Where nothing between asks for a session of the client, the next number that is answered NFS4_OK makes another session.
pub fn next_number_makes_a_session()
    ensures { NextMakesOne }
{}

/// The definitions compute: CREATE_SESSION comes twice, another client in between, and then with the next number. That run meets the premises of
/// `each_makes_one_session`, `each_session_was_made`, `repeats_make_no_session` and `next_number_makes_a_session`, which refuse a second session, an id that
/// stands and an answer that makes no session.
#[tactic(auto, using(crate::proofs::Calls::SessionsOnceWorked::is_given_once))]
pub fn a_session_is_made_once()
    ensures { IsGivenOnce }
{}
