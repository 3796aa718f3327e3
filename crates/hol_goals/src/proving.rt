// What stands in front of the replay of a finished proof. The stack is generic in it.
ghost use Rattle.std.specs.Prelude.{◌≡◌, [], IfOk};
ghost use Rattle.hol_journal.specs.Journal.{Journal, IsMade, theorem_in};
ghost use Rattle.hol_just.specs.Steps.{goal_of, tree_of};
ghost use Rattle.hol_goals.specs.Expansions.{Proves};
ghost use Rattle.hol_goals.specs.Made.{StaysMade};

use hol_combine::Leaves;
use hol_journal::Rec;
use hol_just::{Goal, Just};
use hol_model::Fault;
use std::alloc::Global;

/// Proves goals by justifications, over what refiners without parts run on.
pub trait Prover: Leaves {
    /// What the recorder made.
    ghost journal: { Self → Journal };

    /// The goal's theorem by a justification without subgoals: replayed, tested against the goal, and given the goal's own term.
    fn prove(&mut self, alloc: Global, goal: &Goal, just: &Just) -> Result<Rec, Fault>
        requires ready { Self.is_ready self.old }
        ensures outcome { Proves (Self.theory self.old) (Self.store self.old) (goal_of goal.now) (tree_of just.now) (theorem_in result) }
        ensures made { IfOk result (IsMade (journal self.new)) }
        ensures stays { StaysMade (journal self.old) (journal self.new) }
        ensures extends { Self.extends self.old self.new }
        ensures theory { Self.theory self.new ≡ Self.theory self.old }
        ensures store { Self.store self.new ≡ Self.store self.old }
        ensures ready { Self.is_ready self.new };

    /// What the recorder made stays its own while refiners run.
    ghost extends_makes: { (old new : Self) → Self.extends old new → StaysMade (journal old) (journal new) };
}
