// The first open goal refined, and the stage that this reaches.
ghost use Rattle.std.specs.Prelude.{◌≡◌, ◌<◌, length, true, IfOk, IfErr};
ghost use Rattle.hol_model.specs.declared.fault.Fault.TheVariants.{Memory};
ghost use Rattle.hol_model.specs.Goals.GoalStates as states;
ghost use Rattle.hol_model.specs.Goals.Replays.{is_within_depth};
ghost use Rattle.hol_journal.specs.Journal.{Journal, IsMade};
ghost use Rattle.hol_just.specs.Steps.{goal_of, step_of};
ghost use Rattle.hol_just.specs.Growing.{grown_tree};
ghost use Rattle.hol_combine.specs.Posed.{IsKept};
ghost use Rattle.hol_goals.specs.Refinements.{goal_told, goal_in_focus, Refines};
ghost use Rattle.hol_goals.specs.Stages.{attempt_of, state_of};
ghost use Rattle.hol_goals.specs.Expansions.{Reaches, Finishes, IsExpandedBy};
ghost use Rattle.hol_goals.specs.Made.{StaysMade, IsAttemptMade};

use crate::attempt::Attempt;
use crate::proving::Prover;
use crate::refining::refined;
use crate::stage::{GoalState, Opening, Stage};
use hol_journal::Rec;
use hol_just::{Goal, Growing, Step};
use hol_model::Fault;
use std::alloc::Global;

/// What is told of the stage that a refined proof reaches: how many goals are open, or the theorem of the goal.
#[derive(Drop)]
pub enum Expansion {
    Open(usize),
    NoSubgoals(Rec),
}

/// What is told of a refinement: the stage that the proof reaches, or the refusal.
pub type Told = Result<Expansion, Fault>;

impl Attempt {
    /// The first open goal.
    #[tactic(auto, using(crate::proofs::Tops::no_focus, crate::proofs::Tops::done_focus, crate::proofs::Tops::focus_at))]
    pub(crate) fn focus(&self) -> Result<&Goal, Fault>
        ensures { goal_told result ≡ goal_in_focus (states.focus_outcome (attempt_of self.now).proof) }
    {
        let Some(stage) = self.stage() else {
            return Err(Fault::NoGoal);
        };
        match stage {
            Stage::Underway(opening) => Ok(&opening.goals[0]),
            Stage::Proved(_) => Err(Fault::NoGoal),
        }
    }

    // The open goals with the first of them refined.
    #[tactic(auto, using(crate::proofs::Focusing::nothing_set, crate::proofs::Focusing::is_done))]
    fn refined(&self, alloc: Global, refinement: Step) -> Result<GoalState, Fault>
        ensures { Refines (states.focus_outcome (attempt_of self.now).proof) (step_of refinement) result }
    {
        let Some(stage) = self.stage() else {
            return Err(Fault::NoGoal);
        };
        match stage {
            Stage::Underway(opening) => refined(alloc, opening, refinement),
            Stage::Proved(_) => Err(Fault::NoGoal),
        }
    }

    // Keeps the goals that are left open as the next stage.
    fn proceed(&mut self, state: GoalState) -> Told
        requires open { 0 < length state.goals.items }
        requires within { is_within_depth (grown_tree state.just) ≡ true }
        ensures reaches { Reaches (attempt_of self.old) (attempt_of self.new) (states.underway (state_of state)) result }
        ensures made { (journal : Journal) → IsAttemptMade journal self.old → IsAttemptMade journal self.new }
    {
        let GoalState { goals, just } = state;
        let count = goals.len();
        self.advance(Stage::Underway(Opening { goals, just }))?;
        Ok(Expansion::Open(count))
    }

    // Keeps the theorem of the goal as the next stage.
    fn conclude(&mut self, alloc: Global, theorem: Rec) -> Told
        ensures reaches { Reaches (attempt_of self.old) (attempt_of self.new) (states.proved theorem.theorem) result }
        ensures made { (journal : Journal) → IsMade journal theorem → IsAttemptMade journal self.old → IsAttemptMade journal self.new }
    {
        let told = theorem.copy(alloc)?;
        self.advance(Stage::Proved(theorem))?;
        Ok(Expansion::NoSubgoals(told))
    }

    // Proves the goal by a justification without subgoals.
    fn finish<P: Prover>(&mut self, alloc: Global, prover: &mut P, just: &Growing) -> Told
        requires ready { P.is_ready prover.old }
        requires within { is_within_depth (grown_tree just.now) ≡ true }
        ensures outcome { Finishes (P.theory prover.old) (P.store prover.old) (goal_of self.old.goal) (grown_tree just.now) (attempt_of self.old) (attempt_of self.new) result }
        ensures kept { IsKept (P.theory prover.old) (P.theory prover.new) (P.is_ready prover.new) (P.extends prover.old prover.new) }
        ensures store { P.store prover.new ≡ P.store prover.old }
        ensures stays { StaysMade (P.journal prover.old) (P.journal prover.new) }
        ensures made { IsAttemptMade (P.journal prover.old) self.old → IsAttemptMade (P.journal prover.new) self.new }
    {
        let whole = just.whole(alloc)?;
        let theorem = prover.prove(alloc, &self.goal, &whole)?;
        self.conclude(alloc, theorem)
    }

    /// Refines the first open goal by a step that was found for it.
    pub(crate) fn expand_by<P: Prover>(
        &mut self,
        alloc: Global,
        prover: &mut P,
        refinement: Step,
    ) -> Told
        requires ready { P.is_ready prover.old }
        ensures outcome { IsExpandedBy (P.theory prover.old) (P.store prover.old) (step_of refinement) (attempt_of self.old) (attempt_of self.new) result }
        ensures kept { IsKept (P.theory prover.old) (P.theory prover.new) (P.is_ready prover.new) (P.extends prover.old prover.new) }
        ensures store { P.store prover.new ≡ P.store prover.old }
        ensures stays { StaysMade (P.journal prover.old) (P.journal prover.new) }
        ensures made { IsAttemptMade (P.journal prover.old) self.old → IsAttemptMade (P.journal prover.new) self.new }
    {
        let state = self.refined(alloc, refinement)?;
        if state.goals.is_empty() {
            return self.finish(alloc, prover, &state.just);
        }
        self.proceed(state)
    }
}
