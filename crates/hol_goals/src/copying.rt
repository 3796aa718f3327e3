// Copies of goals.
ghost use Rattle.std.specs.Prelude.{◌≡◌, ◌++◌, ◌∷◌, [], map, OnOk, IfOk, IfErr};
ghost use Rattle.hol_model.specs.declared.fault.Fault.TheVariants.{Memory};
ghost use Rattle.hol_model.specs.Goals.Justifications as trees;
ghost use Rattle.hol_model.specs.Goals.GoalStates.{untouched};
ghost use Rattle.hol_just.specs.Steps.{goal_of, goals_of, step_of};

use hol_just::{Goal, Step, sub};
use hol_model::Fault;
use std::alloc::Global;

/// Puts copies of goals behind others.
pub(crate) fn append_goals(alloc: Global, all: &mut Vec<Goal>, goals: &[Goal]) -> Result<(), Fault>
    ensures ok { OnOk result (goals_of all.new.items ≡ goals_of all.old.items ++ goals_of goals.now) }
    ensures err { IfErr result (λ fault. fault ≡ Memory) }
{
    for goal in goals {
        all.push(goal.copy(alloc)?)?;
    }
    Ok(())
}

// The step that leaves a goal as it is.
fn untouched(alloc: Global, goal: &Goal) -> Result<Step, Fault>
    ensures ok { IfOk result (λ step. step_of step ≡ untouched (goal_of goal.now)) }
    ensures err { IfErr result (λ fault. fault ≡ Memory) }
{
    let mut goals = Vec::new(alloc);
    goals.push(goal.copy(alloc)?)?;
    Ok(Step {
        goals,
        just: sub(alloc, 0)?,
    })
}

/// Puts steps that leave goals as they are behind others.
pub(crate) fn append_untouched(
    alloc: Global,
    steps: &mut Vec<Step>,
    goals: &[Goal],
) -> Result<(), Fault>
    ensures ok { OnOk result (map step_of steps.new.items ≡ map step_of steps.old.items ++ map untouched (goals_of goals.now)) }
    ensures err { IfErr result (λ fault. fault ≡ Memory) }
{
    for goal in goals {
        steps.push(untouched(alloc, goal)?)?;
    }
    Ok(())
}
