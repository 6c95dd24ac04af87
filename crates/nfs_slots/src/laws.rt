//! What holds of every list of requests that a table of slots keeps.

ghost use Rattle.nfs_slots.specs.Laws.{OnePlace, RepeatsAreAnswered};

/// A number that was kept on a slot is fresh there again only after 2^32 minus 1 further numbers were kept on it.
#[tactic(auto, using(crate::proofs::TableLemmas::one_place))]
pub fn one_place()
    ensures { OnePlace }
{}

/// As long as no further number is kept on its slot, a request is answered with its kept reply, whatever other slots keep.
#[tactic(auto, using(crate::proofs::TableLemmas::repeats_are_answered))]
pub fn repeats_are_answered()
    ensures { RepeatsAreAnswered }
{}
