//! What is promised over a network that loses, repeats, delays and reorders.

ghost use Rattle.std.specs.{Prelude.{◌≡◌, ◌↔◌, ℕ, List, Bool, true, Option, Some}};
ghost use Rattle.nfs_xdr.specs.{Text.IsBytes};
ghost use Rattle.nfs_names.specs.{declared.start.Start.Start};
ghost use Rattle.nfs_promises.specs.Network.{Endpoint.SlotNumber, ExecutingAlone.{ExecutingAlone, StaysSettled}, AnsweredAgain.AnsweredAgain};
ghost use Rattle.nfs_promises.specs.Network.{AnsweredAgainWorked.{IsFreshThere, IsHadAgain, IsUnderItsXid}, FreshRuns.{FreshRuns, NextRuns, Passes}};
ghost use Rattle.nfs_promises.specs.Network.{GivenUp.IsGivenUp, LostReply.{IsAccepted, IsOverAWire}, ExactlyOnce.{ExactlyOnce, AnswersExecuted}};
ghost use Rattle.nfs_promises.specs.Network.{ByNumber.{AnswersNumbered, ExactlyOnceByNumber, XidsSuffice}, PerfectWire.AsOverAWire, RealTime.Atomic};
ghost use Rattle.nfs_promises.specs.Network.{ThisServer.{ReplyReader, IsSequenced, Bears, server}, SeenWrite.IsSeen, WrongAnswers.AnswersAreRefused};
ghost use Rattle.nfs_promises.specs.Network.WrongServers.{LawsRefuse};

/// What callers go by in replies can be read: the answer of a reply, whether its SEQUENCE is NFS4_OK, and the slot and the number that it
/// bears. So there is a reader of which the laws of a network speak.
pub fn replies_can_be_read()
    ensures answers { ReplyReader }
    ensures sequences { (is_sequenced : List ℕ → Bool) × ((result : List ℕ) → IsBytes result → is_sequenced result ≡ true ↔ IsSequenced result) }
    ensures numbers { (number_of : List ℕ → Option SlotNumber) × ((result : List ℕ) (n : SlotNumber) → IsBytes result → number_of result ≡ Some n ↔ Bears result n) }
{}

/// Over a network that loses, repeats, delays and reorders: of the compounds that are sent on a slot under a number one is executed at most, and
/// once; so a compound that is given up runs once or never. What their caller accepts are results of those executions, in their order, each for its own
/// compound. Where none is given up, the executed ones are the first that were sent, in their order.
pub fn exactly_once()
    ensures { (reader : ReplyReader) (start : Start) → ExactlyOnce (server reader.find start) }
{}

/// What executes on a slot is answered under the xid of its call, with a SEQUENCE that its caller may accept.
pub fn answers_what_executes()
    ensures { (reader : ReplyReader) (start : Start) → AnswersExecuted (server reader.find start) }
{}

/// The definitions compute: two compounds are sent on a slot, the second again since its first reply is lost; each is executed once, and both
/// results are accepted.
pub fn exchange_over_a_network()
    ensures { (reader : ReplyReader) → IsAccepted reader.find }
{}

/// The definitions compute: a caller gives up a compound that was executed, one that is late, and one that is refused meanwhile, which it sends again behind another
/// one under the number of the late one. That run meets the premises of `exactly_once_by_number`; each number is executed once.
pub fn a_slot_is_given_up()
    ensures { (reader : ReplyReader) → IsGivenUp reader.find }
{}

/// A list of records leaves what those that execute leave alone, but for the list's last moment and what has run out by then; and those are
/// answered alike.
pub fn executing_alone()
    ensures { (reader : ReplyReader) (start : Start) → ExecutingAlone (server reader.find start) }
{}

/// Behind each record of a run nothing is left to run out: to take its moment anew changes nothing.
pub fn stays_settled()
    ensures { (reader : ReplyReader) (start : Start) → StaysSettled (server reader.find start) }
{}

/// What `exactly_once` says holds too of callers that go by the session, the slot and the number in SEQUENCE's result, as RFC 8881 clients check, and
/// by no xid. Callers and their slots may come on the way.
pub fn exactly_once_by_number()
    ensures { (reader : ReplyReader) (start : Start) → ExactlyOnceByNumber (server reader.find start) }
{}

/// What executes on a slot is answered with a result that bears the slot and the number, so its caller may accept it.
pub fn answers_with_the_number()
    ensures { (reader : ReplyReader) (start : Start) → AnswersNumbered (server reader.find start) }
{}

/// Callers that go by xids, and use none for two compounds, do what callers by number may do: so each law of these is one of those.
pub fn xids_suffice()
    ensures { (reader : ReplyReader) (start : Start) → XidsSuffice (server reader.find start) }
{}

/// Over a network that loses, repeats, delays and reorders the server ends as one that received each executed compound once, in order, over a
/// perfect wire, and nothing that does not execute; what callers accept are the results that it answers there.
pub fn as_over_a_wire()
    ensures { (reader : ReplyReader) (start : Start) → AsOverAWire (server reader.find start) }
{}

/// Atomic, and in real time: over such a network what runs is one list of records, one after the other; each accepted result is its compound's in
/// that list; and a compound that is first sent after a result was accepted, by whatever caller, runs after the compound of that result.
pub fn atomic_in_real_time()
    ensures { (reader : ReplyReader) (start : Start) → Atomic (server reader.find start) }
{}

/// The definitions compute: a client writes to a file, and accepts the result though the first reply was lost; then another client comes and reads
/// the file, and is answered what was written. Each call has the same xid. That run meets the premises of `as_over_a_wire` and
/// `atomic_in_real_time`.
pub fn a_write_is_seen()
    ensures { (reader : ReplyReader) → IsSeen reader.find }
{}

/// The exchange of `exchange_over_a_network` is as over a perfect wire, on which the second compound comes once; and it runs after the first one.
pub fn exchange_over_a_wire()
    ensures { (reader : ReplyReader) → IsOverAWire reader.find }
{}

/// The definitions compute: a small server that runs a repeat again meets `exactly_once_by_number`, and `as_over_a_wire` is false of it; and of one
/// whose results bear another slot `exactly_once_by_number` is false.
#[tactic(auto, using(crate::proofs::Network::WrongServers::laws_refuse))]
pub fn wrong_servers_fail()
    ensures { LawsRefuse }
{}

/// A lost reply can be had again: a compound that executed is answered with the same result whenever it comes again, under the xid that it then has, while no
/// other executed on its slot and its session stands; and nothing runs.
pub fn lost_replies_can_be_had()
    ensures { (reader : ReplyReader) (start : Start) → AnsweredAgain (server reader.find start) }
{}

/// A fresh request runs: a compound with the number behind its slot's, on a slot of its session and within what the session lets pass, executes, and its SEQUENCE is
/// answered NFS4_OK.
pub fn fresh_requests_run()
    ensures { (reader : ReplyReader) (start : Start) → FreshRuns (server reader.find start) Passes }
{}

/// Who was answered goes on: the number behind that of the compound which executed on the slot last is fresh there.
pub fn next_requests_run()
    ensures { (reader : ReplyReader) (start : Start) → NextRuns (server reader.find start) Passes }
{}

/// The definitions compute: of the exchange in which a reply is lost, the second compound meets the premises of `fresh_requests_run`.
pub fn a_request_is_fresh()
    ensures { (reader : ReplyReader) → IsFreshThere reader.find }
{}

/// The definitions compute: the reply to a compound is lost, and it comes again behind other records, under another xid and with another highest slot. That run
/// meets the premises of `lost_replies_can_be_had`. And a call that is refused is answered under its xid; a reply is not answered.
pub fn a_reply_is_had_again()
    ensures again { (reader : ReplyReader) → IsHadAgain reader.find }
    ensures under { IsUnderItsXid }
{}

/// The definitions compute: `lost_replies_can_be_had` refuses a small server that refuses repeats from slot 2 on, one that makes
/// their answer anew and one that runs them again; `fresh_requests_run` refuses one that refuses everything, and `next_requests_run` one that runs the first compound of each slot alone; and `each_call_is_answered` refuses a call that is not answered, an answer under another xid and an answer to what is no call.
#[tactic(auto, using(crate::proofs::Network::WrongAnswers::answers_are_refused))]
pub fn wrong_answers_are_refused()
    ensures { AnswersAreRefused }
{}
