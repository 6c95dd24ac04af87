//! Where the moments of a talk, and of many, come from.

ghost use Rattle.std.specs.Prelude.{◌≤◌, ℕ, List, [], ◌∷◌, Option};
ghost use Rattle.nfs_serve.specs.Script.{last_moment};
ghost use Rattle.nfs_serve.specs.Told.{Told, Sweep, Turn, Moment, Late, Logs};

/// A clock that gives the moment, and measures turns.
pub trait Clock {
    // What it told so far, where that is known.
    ghost told: { Self → Option (List Told) };

    /// The moment, in seconds, at most 2^62.
    fn now(&mut self) -> u64
        ensures bound { result ≤ last_moment }
        ensures tells { Logs (told self.old) (told self.new) (Moment result ∷ []) };

    /// A sweep over many connections begins.
    fn begin_sweep(&mut self)
        ensures { Logs (told self.old) (told self.new) (Sweep ∷ []) };

    /// The turn of one connection begins. Those of the same client before it in this sweep lasted so many microseconds.
    fn begin_turn(&mut self, before: u64)
        ensures { Logs (told self.old) (told self.new) (Turn ∷ []) };

    /// Whether the turn has lasted long enough, behind a record of it.
    fn is_late(&mut self) -> bool
        ensures { Logs (told self.old) (told self.new) (Late result ∷ []) };
}
