//! What runs the lines of a script.
ghost use Rattle.std.specs.Prelude.{◌≡◌, ◌+◌, ◌<◌, ℕ, Bool, true, false, List, [], ◌∷◌, ◌++◌, MatchBool, MatchResult, IfErr, OnOk, OnErr};
ghost use mathlib.Core.List.{IsPrefix};
ghost use Rattle.line_table.specs.declared.journal.JournalEntry.{JournalEntry as EntryRecord};
ghost use Rattle.io_session.specs.Events.{Event, Begins, RefusesLine, Completes, Idles, Tends, RefusesCommit, Halts};
ghost use Rattle.io_session.specs.Worlds.{IsDrained, KeepsAll};

use line_table::JournalEntry;
use std::alloc::AllocError;

/// There was no memory for the line. It comes back.
#[derive(Drop)]
pub struct BeginRefused<L> {
    pub line: L,
}

/// A world that goes on by events. Each call that changes it is one of them.
pub trait Driven<L> {
    /// The lines that were begun, in order.
    ghost begun: { Self → List L };

    /// What was done of them.
    ghost journal: { Self → List EntryRecord };

    /// How many operations are in flight.
    ghost in_flight: { Self → ℕ };

    /// How much is left to do of the lines that were begun: operations that complete, commits that start, and moves that are
    /// given up take from it.
    ghost left: { Self → ℕ };

    /// Whether a move wants a commit.
    ghost is_due: { Self → Bool };

    /// Whether each line that was begun is answered.
    ghost is_done: { Self → Bool };

    /// Whether the line may begin.
    ghost allows: { Self → L → Bool };

    /// What an event makes of a world.
    ghost makes: { Self → Event L → Self → Type 0 };

    /// Whether the line may begin.
    fn may_begin(&self, line: &L) -> bool
        ensures { result ≡ allows self.now line.now };

    /// Begins the line. Only memory can be wanting; then the line comes back, and nothing changes but what is spare.
    fn begin(&mut self, line: L) -> Result<(), BeginRefused<L>>
        requires { allows self.old line ≡ true }
        ensures made { OnOk result (makes self.old (Begins line) self.new) }
        ensures begun { OnOk result (begun self.new ≡ begun self.old ++ line ∷ []) }
        ensures longer { IsPrefix (journal self.old) (journal self.new) }
        ensures refused { IfErr result (λ e. (e.line ≡ line) × makes self.old (RefusesLine line) self.new) }
        ensures kept { OnErr result (KeepsAll begun journal in_flight left is_due is_done allows self.old self.new) };

    /// Whether a move wants a commit.
    fn is_due(&self) -> bool
        ensures { result ≡ is_due self.now };

    /// Starts the commit that is due; where none is, nothing is done. Only memory can be wanting; then nothing changes but what is
    /// spare.
    fn tend(&mut self) -> Result<(), AllocError>
        ensures made { OnOk result (MatchBool (is_due self.old) (makes self.old Tends self.new × (left self.new < left self.old)) (self.new ≡ self.old)) }
        ensures begun { begun self.new ≡ begun self.old }
        ensures longer { IsPrefix (journal self.old) (journal self.new) }
        ensures refused { OnErr result ((is_due self.old ≡ true) × makes self.old RefusesCommit self.new) }
        ensures kept { OnErr result (KeepsAll begun journal in_flight left is_due is_done allows self.old self.new) };

    /// Gives the move up whose commit is due; where none is, nothing is done.
    fn halt_move(&mut self)
        ensures made { MatchBool (is_due self.old) (makes self.old Halts self.new × (left self.new < left self.old)) (self.new ≡ self.old) }
        ensures begun { begun self.new ≡ begun self.old }
        ensures longer { IsPrefix (journal self.old) (journal self.new) };

    /// Completes an operation that is ready, and says whether there was one.
    fn turn(&mut self) -> bool
        ensures made { MatchBool result (makes self.old Completes self.new × (left self.new < left self.old)) (makes self.old Idles self.new) }
        ensures begun { begun self.new ≡ begun self.old }
        ensures longer { IsPrefix (journal self.old) (journal self.new) };

    /// Waits until an operation completes, and says whether one was in flight. Where none is and no commit is due, each line
    /// that was begun is answered, and any line may begin.
    fn settle(&mut self) -> bool
        ensures made { MatchBool result (makes self.old Completes self.new × (left self.new < left self.old)) (makes self.old Idles self.new) }
        ensures drained { result ≡ false → IsDrained in_flight is_due is_done allows self.old self.new }
        ensures begun { begun self.new ≡ begun self.old }
        ensures longer { IsPrefix (journal self.old) (journal self.new) };

    /// Whether each line that was begun is answered and nothing is in flight.
    fn is_done(&self) -> bool
        ensures { result ≡ is_done self.now };

    /// How many regions of the running move are done, and of how many, where a move runs. It is shown, and nothing goes by it.
    fn progress(&self) -> Option<(u64, u64)>;
}
