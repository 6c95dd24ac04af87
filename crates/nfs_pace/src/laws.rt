//! What leases rest on. Each function does nothing; its contract is a law.

ghost use Rattle.nfs_pace.specs.Paced.{risen};
ghost use Rattle.nfs_pace.specs.InTurn.{TakeTurns, lowest_first};
ghost use Rattle.nfs_pace.specs.Turns.{asked};
ghost use Rattle.nfs_pace.specs.Laws.{AlwaysAddsUp, KeepsWhoRenews};
ghost use Rattle.nfs_pace.specs.Seated.{KeepsSeats, SeatsAreHad};
ghost use Rattle.nfs_pace.specs.SeatedWorked.{IsKept, SeatsRefused};
ghost use Rattle.nfs_pace.specs.Worked.{WorkedRun, WrongClocks};

/// From one sweep to a later one the clock rises by what passed and a sixteenth of it at most, and by a sixteenth of a lease a sweep.
#[tactic(auto, using(crate::proofs::Sums::always_adds_up))]
pub fn adds_up()
    ensures { AlwaysAddsUp risen }
{}

/// Whoever sends a renewal at most three quarters of a lease behind the reply to its last one is told a moment within its lease, however long sweeps
/// take.
pub fn keeps_who_renews()
    ensures { KeepsWhoRenews risen }
{}

/// A worked run meets the premises of that law, with sweeps of 20 seconds. A clock that shows what is read takes the lease of a client in it, and one
/// that rises by a quarter of a lease in a sweep and makes up a third of what passes takes one in another.
#[tactic(auto, using(crate::proofs::WrongClocks::worked_run, crate::proofs::WrongClocks::wrong_clocks))]
pub fn wrong_clocks_are_refused()
    ensures worked { WorkedRun }
    ensures wrong { WrongClocks }
{}

/// Whoever has a seat, or is kept one, has it as long as no more than a lease has passed since a SEQUENCE of it was answered there, whoever comes and
/// whatever is answered to others.
#[tactic(auto, using(crate::proofs::Seats::keeps_seats))]
pub fn keeps_seats()
    ensures { KeepsSeats }
{}

/// If one in the hall whose client is known is given no seat, each seat is had by a client, or kept for it, in its lease; and no client has two more than
/// its own.
pub fn seats_are_had()
    ensures { SeatsAreHad }
{}

/// A client keeps the one seat while another comes and asks for it; places that give the seat to whoever asks, or give none where one is free, are refused by these laws.
#[tactic(auto, using(crate::proofs::SeatedWorked::is_kept, crate::proofs::SeatedWorked::seats_refused))]
pub fn wrong_places_are_refused()
    ensures kept { IsKept }
    ensures wrong { SeatsRefused }
{}

/// Of the connections of a client that are ready, the first behind that of its last turn comes next, or else the first of all: so each comes once those
/// between have had their turns. To let the lowest come first each time is refused by this law.
pub fn take_turns()
    ensures next { TakeTurns asked }
    ensures wrong { TakeTurns lowest_first → ⊥ }
{}
