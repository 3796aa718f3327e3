// The first open goal refined.
ghost use Rattle.std.specs.Prelude.{◌≡◌, ◌∷◌, map, drop, true, IfOk, IfErr};
ghost use Rattle.hol_model.specs.Goals.Splicing.{spliced};
ghost use Rattle.hol_model.specs.Goals.GoalStates.{untouched};
ghost use Rattle.hol_model.specs.Goals.Replays.{is_within_depth};
ghost use Rattle.hol_just.specs.Steps.{goals_of, step_of, IsRefused};
ghost use Rattle.hol_just.specs.Growing.{grown_tree};
ghost use Rattle.hol_goals.specs.Stages.{opening_of, state_of};

use crate::copying::append_goals;
use crate::stage::{GoalState, Opening};
use hol_just::{Portion, Step};
use hol_model::Fault;
use std::alloc::Global;

/// The open goals with the first of them refined: the subgoals of the step stand before the other goals.
pub(crate) fn refined(
    alloc: Global,
    opening: &Opening,
    refinement: Step,
) -> Result<GoalState, Fault>
    ensures ok { IfOk result (λ made. state_of made ≡ spliced (opening_of opening.now) (step_of refinement ∷ map untouched (drop 1 (goals_of opening.now.goals.items)))) }
    ensures within { IfOk result (λ made. is_within_depth (grown_tree made.just) ≡ true) }
    ensures err { IfErr result (IsRefused (spliced (opening_of opening.now) (step_of refinement ∷ map untouched (drop 1 (goals_of opening.now.goals.items)))).justification) }
{
    let Step { mut goals, just } = refinement;
    let portion = Portion {
        subgoals: goals.len(),
        just,
    };
    let just = opening.just.refined(alloc, portion)?;
    append_goals(alloc, &mut goals, &opening.goals[1..])?;
    Ok(GoalState { goals, just })
}
