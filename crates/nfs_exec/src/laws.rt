//! Laws of compounds and of expiry, over their definitions.

ghost use Rattle.nfs_exec.specs.Step.Laws.{RepeatsChangeNothing, RefusalsChangeNothing, NeverRunsAgain, ExpiresOnce, ExpiryFindsNothing};
ghost use Rattle.nfs_exec.specs.Step.Compared.{ComparesAllButHighest, DifferThereAlone};
ghost use Rattle.nfs_exec.specs.Step.Sequencing.{NextNumberRuns, FalseRetriesAreTrue};
ghost use Rattle.nfs_exec.specs.Step.Delayed.{DelayIsACut, NothingDelays};
ghost use Rattle.nfs_exec.specs.Step.DelayedOpen.{IsWorked};
ghost use Rattle.nfs_exec.specs.Runs.Ended.{WhatRunsOutEnds};
ghost use Rattle.nfs_exec.specs.Runs.Ops.{OpsAreRun, OpsAreRunIn, AnswersAreTheirs};
ghost use Rattle.nfs_exec.specs.Runs.NoClashes.{NoneInRuns};
ghost use Rattle.nfs_exec.specs.Runs.OneSession.{GivesOne};
ghost use Rattle.nfs_exec.specs.Runs.WrittenRun.{StandsInRuns};

/// A request that is repeated is answered with the reply that was kept, byte for byte, and changes nothing.
#[tactic(auto, using(crate::proofs::Step::Repeating::repeats))]
pub fn repeats_change_nothing()
    ensures { RepeatsChangeNothing }
{}

/// The bytes of a request that SEQUENCE begins are what stands before sa_highest_slotid, its four bytes and what stands behind them; and a repeat is compared by
/// the first and the last of these. So two requests that are compared by the same bytes differ in that field or not at all.
pub fn compares_all_but_highest()
    ensures cut { ComparesAllButHighest }
    ensures alone { DifferThereAlone }
{}

/// A SEQUENCE that is refused changes nothing: the slot, its kept reply and the lease are as they were.
#[tactic(auto, using(crate::proofs::Step::Repeating::refusals))]
pub fn refusals_change_nothing()
    ensures { RefusalsChangeNothing }
{}

/// The number behind a slot's last one runs, whatever became of the reply to that, where the slots and sizes of the session allow it. And what is refused as a
/// false retry is one: the slot took another request under that number.
#[tactic(auto, using(crate::proofs::Step::Sequencing::next_runs, crate::proofs::Step::Sequencing::false_retries_are_true))]
pub fn numbers_are_judged_truly()
    ensures next { NextNumberRuns }
    ensures false_retries { FalseRetriesAreTrue }
{}

/// A request that ran does not run again on its session and slot before 2^32 minus 1 others ran there, whatever comes between.
pub fn never_runs_again()
    ensures { NeverRunsAgain }
{}

/// Expiry ends all that a client has whose lease has run out, and leaves every other client what it has; a byte that is held then is held by a lock state that stays.
#[tactic(auto, using(crate::proofs::Runs::Ended::what_runs_out_ends))]
pub fn what_runs_out_ends()
    ensures { WhatRunsOutEnds }
{}

/// What has run out at a moment has run out at each later one, and expiry at both is expiry at the later.
pub fn expires_once()
    ensures { ExpiresOnce }
{}

/// Behind a compound at the moment of an expiry, expiry at the same moment finds nothing.
pub fn expiry_finds_nothing()
    ensures { ExpiryFindsNothing }
{}

/// Memory refused at a place of a compound makes no difference, or the operation there answers NFS4ERR_DELAY, a WRITE in the profile `unix`
/// NFS4ERR_NOSPC: then its results and the machine behind it are those of the same compound cut in front of that operation, but for the last
/// result and for what its slot keeps.
#[tactic(auto, using(crate::proofs::Step::Delayed::is_a_cut))]
pub fn delay_is_a_cut()
    ensures { DelayIsACut }
{}

/// Where memory is not refused no operation answers NFS4ERR_DELAY, in whatever state a server reaches.
#[tactic(auto, using(crate::proofs::Runs::NoDelays::nothing_delays))]
pub fn nothing_delays()
    ensures { NothingDelays }
{}

/// An OPEN that gets no memory, its number again and the next one, computed to their worked answers.
#[tactic(auto, using(crate::proofs::Step::DelayedOpen::is_worked))]
pub fn a_delayed_open()
    ensures { IsWorked }
{}

/// The operations of a compound, one by one, are those that it runs: the first of its items, each from where the one before it ended, to the first that is refused.
/// Their results, one after the other, are its results, and the last gives its status and leaves its machine.
pub fn ops_are_run()
    ensures { OpsAreRun }
{}

/// The same of what stands behind a SEQUENCE.
pub fn ops_are_run_in()
    ensures { OpsAreRunIn }
{}

/// A request that runs is answered with NFS4_OK of its SEQUENCE and the results of its operations, one after the other.
#[tactic(auto, using(crate::proofs::Runs::OpsRun::answers_are_theirs))]
pub fn answers_are_theirs()
    ensures { AnswersAreTheirs }
{}

/// In every run no byte has a writer beside another holder and no two opens clash, before and behind each operation too.
pub fn none_in_runs()
    ensures { NoneInRuns }
{}

/// In every run a byte that a WRITE told stands in its file, while that has a name or an open, before each operation behind it and behind the compound, as long as
/// they spare it.
pub fn written_bytes_stand()
    ensures { StandsInRuns }
{}

/// A CREATE_SESSION that is answered NFS4_OK made one session, of the id that is answered, which did not stand before; or it changed nothing.
pub fn one_session_is_made()
    ensures { GivesOne }
{}
