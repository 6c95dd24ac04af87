//! What holds of every table of sessions, and of every list of calls on it.

ghost use Rattle.nfs_sessions.specs.Laws.{IdsRise, SessionsAreAMap};

/// The sessions are a map from id to session: each call changes it at the ids that it names, and at no other.
#[tactic(auto, using(crate::proofs::LawLemmas::sessions_are_a_map))]
pub fn sessions_are_a_map()
    ensures { SessionsAreAMap }
{}

/// No id is given twice, whatever calls come between.
#[tactic(auto, using(crate::proofs::LawLemmas::ids_rise))]
pub fn ids_rise()
    ensures { IdsRise }
{}
