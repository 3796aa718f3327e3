// Turns of the open goals.
ghost use Rattle.std.specs.Prelude.{◌≡◌, ◌<◌, ◌≤◌, ◌-◌, ◌++◌, ◌∷◌, [], length, map, take, drop, IfOk, IfErr, OnOk};
ghost use Rattle.hol_model.specs.declared.fault.Fault.TheVariants.{Memory};
ghost use Rattle.hol_model.specs.Goals.GoalStates.{untouched, rotated};
ghost use Rattle.hol_just.specs.Steps.{goals_of, step_of};
ghost use Rattle.hol_goals.specs.Stages.{opening_of};
ghost use Rattle.hol_goals.specs.Turning.{numbered, numbered_from, last_of, turning_steps};

use crate::copying::{append_goals, append_untouched};
use crate::stage::Opening;
use hol_just::{Goal, Growing, Step, splice, sub};
use hol_model::Fault;
use std::alloc::Global;

// The step without goals that stands for the subgoal with this number.
fn numbered(alloc: Global, number: usize) -> Result<Step, Fault>
    ensures ok { IfOk result (λ step. step_of step ≡ numbered number) }
    ensures err { IfErr result (λ fault. fault ≡ Memory) }
{
    Ok(Step {
        goals: Vec::new(alloc),
        just: sub(alloc, number)?,
    })
}

// Steps that stand for the subgoals with the numbers from the first to the last, without the last.
fn numbered_steps(alloc: Global, first: usize, end: usize) -> Result<Vec<Step>, Fault>
    requires { first ≤ end }
    ensures ok { IfOk result (λ steps. map step_of steps.items ≡ numbered_from first (end - first)) }
    ensures err { IfErr result (λ fault. fault ≡ Memory) }
{
    let mut steps = Vec::new(alloc);
    for number in first..end {
        steps.push(numbered(alloc, number)?)?;
    }
    Ok(steps)
}

// Of so many goals and one more, the step that stands for the last.
fn last_of(alloc: Global, number: usize, goals: &[Goal]) -> Result<Step, Fault>
    requires { number < length goals.now }
    ensures ok { IfOk result (λ step. step_of step ≡ last_of number (goals_of goals.now)) }
    ensures err { IfErr result (λ fault. fault ≡ Memory) }
{
    let mut copies = Vec::new(alloc);
    append_goals(alloc, &mut copies, &goals[..number + 1])?;
    Ok(Step {
        goals: copies,
        just: sub(alloc, number)?,
    })
}

// The steps that turn the goals when they are spliced in: the first numbers go to the end, the others come to the front, and
// the last step keeps the numbers past the goals.
fn turning_steps(alloc: Global, goals: &[Goal], turns: usize) -> Result<Vec<Step>, Fault>
    requires { turns < length goals.now }
    ensures ok { IfOk result (λ steps. map step_of steps.items ≡ turning_steps turns (goals_of goals.now)) }
    ensures err { IfErr result (λ fault. fault ≡ Memory) }
{
    let mut steps = numbered_steps(alloc, goals.len() - turns, goals.len())?;
    append_untouched(alloc, &mut steps, &goals[turns..])?;
    steps.push(last_of(alloc, turns, goals)?)?;
    Ok(steps)
}

// The goals, so many of them behind the others.
fn turned_goals(alloc: Global, goals: &[Goal], turns: usize) -> Result<Vec<Goal>, Fault>
    requires { turns < length goals.now }
    ensures ok { IfOk result (λ made. goals_of made.items ≡ drop turns (goals_of goals.now) ++ take turns (goals_of goals.now)) }
    ensures open { IfOk result (λ made. 0 < length made.items) }
    ensures err { IfErr result (λ fault. fault ≡ Memory) }
{
    let mut turned = Vec::new(alloc);
    append_goals(alloc, &mut turned, &goals[turns..])?;
    append_goals(alloc, &mut turned, &goals[..turns])?;
    Ok(turned)
}

/// The goals with so many of them moved to the end, one after another.
pub(crate) fn turned(alloc: Global, opening: &Opening, turns: usize) -> Result<Opening, Fault>
    requires { turns < length opening.now.goals.items }
    ensures ok { IfOk result (λ made. opening_of made ≡ rotated turns (opening_of opening.now)) }
    ensures err { IfErr result (λ fault. fault ≡ Memory) }
{
    let goals = turned_goals(alloc, &opening.goals, turns)?;
    let steps = turning_steps(alloc, &opening.goals, turns)?;
    let just = splice(alloc, &opening.just.whole(alloc)?, &steps)?;
    let just = Growing::new(alloc, just)?;
    Ok(Opening { goals, just })
}
