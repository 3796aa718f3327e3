// The theorem of a goal, once no goal is open.
ghost use Rattle.std.specs.Prelude.{◌≡◌};
ghost use Rattle.hol_model.specs.Kernel.Outcome.{Answers};
ghost use Rattle.hol_model.specs.Goals.Achieving.{achieves};
ghost use Rattle.hol_model.specs.Goals.GoalStates.{closing_outcome};
ghost use Rattle.hol_just.specs.Steps.{goal_of};
ghost use Rattle.hol_journal.specs.Journal.{IsMade, theorem_in};
ghost use Rattle.hol_goals.specs.Closing.{Closes};

use hol_journal::{Inference, Rec, Recorder, journals_grow, theorems_hold};
use hol_just::Goal;
use hol_model::Fault;

// Whether the theorem achieves the goal, up to the names of bound variables.
fn achieves(recorder: &Recorder, theorem: &Rec, goal: &Goal) -> bool
    ensures { result ≡ achieves (goal_of goal.now) theorem.now.theorem }
{
    hol_just_replay::achieves(recorder, theorem, goal)
}

/// The theorem of the goal's own term, from one that achieves the goal: by EQ_MP with REFL of the term. Refused: InvalidStep
/// where it does not achieve the goal; TooLarge where the equation is; Memory.
#[tactic(auto, using(crate::proofs::Closings::fails_test, crate::proofs::Closings::fails_refl, crate::proofs::Closings::closes))]
pub fn closed(recorder: &mut Recorder, goal: &Goal, theorem: &Rec) -> Result<Rec, Fault>
    requires { IsMade recorder.old theorem.now }
    ensures outcome { Answers (theorem_in result) (closing_outcome recorder.old.theory (goal_of goal.now) theorem.now.theorem) }
    ensures continues { Closes recorder.old recorder.new result }
{
    journals_grow();
    if !achieves(recorder, theorem, goal) {
        return Err(Fault::InvalidStep);
    }
    let same = recorder.infer(Inference::Refl(&goal.concl))?;
    theorems_hold(&same, theorem);
    recorder.infer_known(Inference::EqMp(&same, theorem))
}
