//! Stateids on the wire and in the table of opens (RFC 8881 sections 8.2.2 and 8.2.3).

ghost use Rattle.std.specs.Prelude.{◌≡◌, ◌+◌, ◌*◌, ◌≤◌, length, map};
ghost use Rattle.std.specs.List.{flat_map};
ghost use Rattle.nfs_xdr.specs.SheetState.{Puts};
ghost use Rattle.nfs_xdr.specs.Spelling.{number};
ghost use Rattle.nfs_names.specs.State.{state_of};
ghost use Rattle.nfs_names.specs.Comes.{Comes};
ghost use Rattle.nfs_names.specs.View.{outcome_of};
ghost use Rattle.nfs_files.specs.StateIds.{state_id, wire_id, meant};
ghost use Rattle.nfs_files.specs.Parts as parts;
ghost use Rattle.nfs_files.specs.FreeStateid as of_free;
ghost use Rattle.nfs_files.specs.TestStateid as of_test;

use nfs_compound::{OpNum, Stateid, Stateids};
use nfs_names::{Context, Store, refuse};
use nfs_opens::{CurrentSeqid, Seat, Sort, StateId};
use nfs_results::{Res, write_test_stateid_head};
use nfs_xdr::{Sheet, Status};

/// What the bytes of a stateid say.
pub(crate) fn state_id(given: &Stateid) -> StateId
    ensures { result ≡ state_id given.now }
{
    let [a, b, c, d, e, f, g, h, i, j, k, l] = given.other;
    StateId {
        seqid: given.seqid,
        instance: u32::from_be_bytes([a, b, c, d]),
        number: u64::from_be_bytes([e, f, g, h, i, j, k, l]),
    }
}

/// The bytes of a stateid.
#[tactic(auto, unfolding(nfs_xdr::specs::Spelling::number, nfs_xdr::specs::Spelling::hyper))]
pub(crate) fn wire_id(id: StateId) -> Stateid
    ensures { result ≡ wire_id id }
{
    let [a, b, c, d] = id.instance.to_be_bytes();
    let [e, f, g, h, i, j, k, l] = id.number.to_be_bytes();
    Stateid {
        seqid: id.seqid,
        other: [a, b, c, d, e, f, g, h, i, j, k, l],
    }
}

/// The stateid that an argument stands for, which may be the current one.
///
/// BAD_STATEID where it is to be the current one and that is special.
pub(crate) fn meant(
    context: &Context<'_>,
    form: CurrentSeqid,
    given: &Stateid,
) -> Result<StateId, Status>
    ensures { result ≡ meant context.now form given.now }
{
    state_id(given).resolve(state_id(&context.stateid), form)
}

/// The stateid that is to be freed.
fn free_id(store: &mut Store, context: &Context<'_>, id: StateId) -> Res<'static>
    ensures { outcome_of result (state_of store.new) context.now ≡ parts.frees (state_of store.old) context.now id }
{
    match store.opens.free(id, context.client) {
        Ok(()) => Res::FreeStateid,
        Err(status) => refuse(OpNum::FreeStateid, status),
    }
}

/// FREE_STATEID.
pub(crate) fn free_stateid(
    store: &mut Store,
    context: &Context<'_>,
    given: &Stateid,
) -> Res<'static>
    ensures { outcome_of result (state_of store.new) context.now ≡ of_free.free_stateid (state_of store.old) context.now given.now }
{
    match meant(context, CurrentSeqid::Any, given) {
        Ok(id) => free_id(store, context, id),
        Err(status) => refuse(OpNum::FreeStateid, status),
    }
}

/// What a stateid was found to be, as TEST_STATEID reports it.
fn status_of(judged: Result<Seat, Status>) -> Status
    ensures { result ≡ of_test.seat_status judged }
{
    match judged {
        Ok(Seat::Open { .. }) => Status::Nfs4Ok,
        Ok(Seat::Lock { .. }) => Status::Nfs4Ok,
        Ok(Seat::Anonymous) => Status::BadStateId,
        Ok(Seat::ReadBypass) => Status::BadStateId,
        Err(status) => status,
    }
}

/// Whether a stateid names a state of the client. The one that stands for the current stateid elsewhere names none.
fn tested(store: &Store, context: &Context<'_>, id: StateId) -> Status
    ensures { result ≡ of_test.tested (state_of store.now) context.now id }
{
    match id.resolve(StateId::ANONYMOUS, CurrentSeqid::Any) {
        Ok(id) => status_of(store.opens.judge(id, context.client, None, Sort::Either)),
        Err(status) => status,
    }
}

/// The number of its status.
#[tactic(auto, unfolding(crate::specs::TestStateid::code))]
fn code(store: &Store, context: &Context<'_>, given: &Stateid) -> u32
    ensures { result ≡ of_test.code (state_of store.now) context.now given.now }
{
    tested(store, context, state_id(given)).number()
}

/// Puts the number of the status of each stateid.
fn put_codes(store: &Store, context: &Context<'_>, given: &Stateids<'_>, out: &mut Sheet)
    requires { length out.old.bytes + 4 * length given.now ≤ out.old.room }
    ensures { Puts out.old out.new (flat_map number (map (of_test.code (state_of store.now) context.now) given.now)) }
{
    for place in 0..given.len() {
        out.put_u32(code(store, context, &given.get(place)));
    }
}

/// How many there are, as a word has it. Their own count was one word too.
fn count_of(given: &Stateids<'_>) -> u32
    ensures { number result ≡ number (length given.now) }
{
    (given.len() % 0x1_0000_0000) as u32
}

/// TEST_STATEID.
#[tactic(auto, unfolding(crate::specs::TestStateid::test_stateid))]
pub(crate) fn test_stateid(
    store: &Store,
    context: &Context<'_>,
    given: &Stateids<'_>,
    out: &mut Sheet,
) -> Status
    requires { length out.old.bytes + (12 + 4 * length given.now) ≤ out.old.room }
    ensures { Comes (of_test.test_stateid (state_of store.now) context.now given.now) out.old out.new result (state_of store.now) context.now }
{
    write_test_stateid_head(count_of(given), out);
    put_codes(store, context, given, out);
    Status::Nfs4Ok
}
