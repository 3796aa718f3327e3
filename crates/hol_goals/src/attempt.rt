// The stages of a proof.
ghost use Rattle.std.specs.Prelude.{◌≡◌, ◌⊎◌, slice_get, ◌+◌, ◌<◌, ◌∷◌, length, take, map, OnOk, OnErr, IfErr, IfSome};
ghost use Rattle.std.specs.Option.{option_map};
ghost use Rattle.std.specs.VecDeque.{deque_len, deque_capacity};
ghost use Rattle.hol_model.specs.declared.fault.Fault.TheVariants.{Memory, NoGoal, NothingToUndo};
ghost use Rattle.hol_model.specs.declared.limits.TheConstants.{KEPT_EXPANSIONS_LIMIT};
ghost use Rattle.hol_model.specs.Goals.GoalStates.{back_outcome, rotate_outcome, changed_stack, reverted};
ghost use Rattle.hol_model.specs.Goals.StackCalls.{Changes};
ghost use Rattle.hol_goals.specs.declared.attempt.Change.TheVariants as changes;
ghost use Rattle.hol_journal.specs.Journal.{Journal};
ghost use Rattle.hol_goals.specs.Stages.{shown, taken, stage_of, attempt_of, GoesOn};
ghost use Rattle.hol_goals.specs.Made.{IsStageMade, IsAttemptMade};

use crate::stage::Stage;
use crate::turning::turned;
use hol_just::Goal;
use hol_model::{Fault, KEPT_EXPANSIONS_LIMIT};
use std::alloc::Global;
use std::collections::VecDeque;

/// What can be undone: nothing, a further stage, or that the first stage was taken back.
#[derive(Drop)]
pub(crate) enum Change {
    Nothing,
    Forward,
    Back,
}

/// A goal and the stages of its proof, the newest first; the first one may be taken back.
#[derive(Drop)]
pub(crate) struct Attempt {
    pub(crate) goal: Goal,
    pub(crate) stages: VecDeque<Stage>,
    pub(crate) change: Change,
}

// How many stages are taken back.
pub(crate) fn taken(change: &Change) -> usize
    ensures { result ≡ taken change.now }
{
    match change {
        Change::Back => 1,
        _ => 0,
    }
}

// Puts a stage, for which there is room, before those that are not taken back.
fn put_over(stages: &mut VecDeque<Stage>, change: &Change, stage: Stage)
    requires { deque_len stages.old < deque_capacity stages.old }
    ensures { stages.new.items ≡ take (KEPT_EXPANSIONS_LIMIT + 2) (stage ∷ shown change.now stages.old.items) }
{
    if taken(change) == 1 {
        let _taken = stages.pop_front();
        stages.push_front_reserved(stage);
        stages.truncate(KEPT_EXPANSIONS_LIMIT + 2);
        return;
    }
    stages.push_front_reserved(stage);
    stages.truncate(KEPT_EXPANSIONS_LIMIT + 2);
}

// Leaves the stages that are not taken back, so many at most.
fn uncover(stages: &mut VecDeque<Stage>, change: &Change)
    ensures { stages.new.items ≡ take (KEPT_EXPANSIONS_LIMIT + 1) (shown change.now stages.old.items) }
{
    if taken(change) == 1 {
        let _taken = stages.pop_front();
        stages.truncate(KEPT_EXPANSIONS_LIMIT + 1);
        return;
    }
    stages.truncate(KEPT_EXPANSIONS_LIMIT + 1);
}

// How many stages are not taken back.
fn count(stages: &VecDeque<Stage>, change: &Change) -> usize
    ensures { result ≡ length (shown change.now stages.now.items) }
{
    stages.len().saturating_sub(taken(change))
}

// The first stage that is not taken back.
#[tactic(auto)]
fn first<'a>(stages: &'a VecDeque<Stage>, change: &Change) -> Option<&'a Stage>
    ensures { option_map (λ stage. stage.now) result ≡ slice_get (shown change.now stages.now.items) 0 }
{
    if taken(change) == 1 {
        return stages.get(1);
    }
    stages.get(0)
}

impl Attempt {
    /// The stage at hand.
    #[tactic(auto, using(crate::proofs::Stacks::stage_there))]
    pub(crate) fn stage(&self) -> Option<&Stage>
        ensures stage { option_map (λ stage. stage_of stage.now) result ≡ option_map (λ proof. proof.stage) (attempt_of self.now).proof }
        ensures made { (journal : Journal) → IsAttemptMade journal self.now → IfSome result (λ stage. IsStageMade journal stage.now) }
    {
        first(&self.stages, &self.change)
    }

    /// One stage further.
    #[tactic(auto)]
    pub(crate) fn advance(&mut self, stage: Stage) -> Result<(), Fault>
        ensures ok { OnOk result (GoesOn (attempt_of self.old) (attempt_of self.new) (stage_of stage)) }
        ensures err { IfErr result (λ fault. fault ≡ Memory) }
        ensures kept { OnErr result (attempt_of self.new ≡ attempt_of self.old) }
        ensures made { (journal : Journal) → IsAttemptMade journal self.old → IsStageMade journal stage → IsAttemptMade journal self.new }
    {
        if self.stages.reserve(1).is_err() {
            return Err(Fault::Memory);
        }
        put_over(&mut self.stages, &self.change, stage);
        self.change = Change::Forward;
        Ok(())
    }

    /// Takes the last stage back.
    #[tactic(auto, using(crate::proofs::Stacks::has_one, crate::proofs::Stacks::has_none))]
    pub(crate) fn back(&mut self) -> Result<(), Fault>
        ensures outcome { Changes result (back_outcome (attempt_of self.old).proof) (changed_stack (attempt_of self.old)) (attempt_of self.old) (attempt_of self.new) }
        ensures err { IfErr result (λ fault. (fault ≡ NoGoal) ⊎ (fault ≡ NothingToUndo)) }
        ensures made { (journal : Journal) → IsAttemptMade journal self.old → IsAttemptMade journal self.new }
    {
        let count = count(&self.stages, &self.change);
        if count == 0 {
            return Err(Fault::NoGoal);
        }
        if count == 1 {
            return Err(Fault::NothingToUndo);
        }
        uncover(&mut self.stages, &self.change);
        self.change = Change::Back;
        Ok(())
    }

    /// Moves the first open goal behind the others, so many times.
    #[tactic(auto, using(crate::proofs::Rotating::nothing_set, crate::proofs::Rotating::is_done))]
    pub(crate) fn rotate(&mut self, alloc: Global, turns: usize) -> Result<(), Fault>
        ensures outcome { Changes result (rotate_outcome (attempt_of self.old).proof turns) (changed_stack (attempt_of self.old)) (attempt_of self.old) (attempt_of self.new) }
        ensures made { (journal : Journal) → IsAttemptMade journal self.old → IsAttemptMade journal self.new }
    {
        let Some(stage) = self.stage() else {
            return Err(Fault::NoGoal);
        };
        let turned = match stage {
            Stage::Underway(opening) => turned(alloc, opening, turns % opening.goals.len()),
            Stage::Proved(_) => return Err(Fault::NoGoal),
        };
        let turned = turned?;
        self.advance(Stage::Underway(turned))
    }

    /// Undoes the last change.
    #[tactic(auto)]
    pub(crate) fn revert(&mut self)
        ensures reverted { attempt_of self.new ≡ reverted (attempt_of self.old) }
        ensures made { (journal : Journal) → IsAttemptMade journal self.old → IsAttemptMade journal self.new }
    {
        match self.change {
            Change::Nothing => {}
            Change::Forward => {
                if self.stages.len() > 1 {
                    let _undone = self.stages.pop_front();
                }
                self.change = Change::Nothing;
            }
            Change::Back => self.change = Change::Nothing,
        }
    }
}
