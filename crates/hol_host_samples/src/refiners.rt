// Refiners.

use crate::forms::{conjunction, dest_binary, dest_forall, falsity};
use hol_host::HostFail;
use hol_just::{Goal, Just, Rule, Step, step, sub};
use hol_model::Fault;
use hol_subst::vsubst;
use hol_terms::{Term, frees};
use std::alloc::Global;

/// On `!x. p` the subgoal `p`, x with primes where a free variable of the goal has its name; on `p ==> q` the subgoal `q` with
/// `p` assumed. Else it fails.
pub fn peel(alloc: Global, goal: &Goal) -> Result<Step, HostFail> {
    if let Some(bound) = dest_forall(&goal.concl) {
        return Ok(generalized(alloc, goal, bound.variable, bound.body)?);
    }
    if let Some(sides) = dest_binary(&goal.concl, "==>") {
        return Ok(discharged(alloc, goal, sides.left, sides.right)?);
    }
    Err(HostFail::Failed)
}

/// No subgoals, by CONTR of the goal over the assumption of `F`: no step of the goal, unless it assumes `F`.
pub fn liar(alloc: Global, goal: &Goal) -> Result<Step, HostFail> {
    let assumed = step(alloc, Rule::Assume(falsity(alloc)?), &[])?;
    Ok(by_contradiction(alloc, goal, assumed)?)
}

/// No subgoals, by CONTR of the goal over the first conjunct of the assumption of `F /\ F`.
pub fn liar2(alloc: Global, goal: &Goal) -> Result<Step, HostFail> {
    let falsity = falsity(alloc)?;
    let twice = conjunction(alloc, &falsity, &falsity)?;
    let assumed = step(alloc, Rule::Assume(twice), &[])?;
    let first = step(alloc, Rule::Conjunct1, &[assumed])?;
    Ok(by_contradiction(alloc, goal, first)?)
}

// The body for a variable that is not free in the goal.
fn generalized(alloc: Global, goal: &Goal, variable: &Term, body: &Term) -> Result<Step, Fault> {
    let fresh = fresh_variable(alloc, goal, variable)?;
    let body = vsubst(alloc, &[(fresh.copy(alloc)?, variable.copy(alloc)?)], body)?;
    let just = step(alloc, Rule::Gen(fresh), &[sub(alloc, 0)?])?;
    to_one(alloc, goal.with_concl(alloc, &body)?, just)
}

// The right side with the left one assumed, behind the other assumptions.
fn discharged(alloc: Global, goal: &Goal, left: &Term, right: &Term) -> Result<Step, Fault> {
    let mut subgoal = goal.with_concl(alloc, right)?;
    subgoal.asms.push(left.copy(alloc)?)?;
    let just = step(alloc, Rule::Disch(left.copy(alloc)?), &[sub(alloc, 0)?])?;
    to_one(alloc, subgoal, just)
}

// The goal of a justification of `F`, without subgoals.
fn by_contradiction(alloc: Global, goal: &Goal, falsity: Just) -> Result<Step, Fault> {
    let just = step(alloc, Rule::Contr(goal.concl.copy(alloc)?), &[falsity])?;
    Ok(Step {
        goals: Vec::new(alloc),
        just,
    })
}

fn to_one(alloc: Global, goal: Goal, just: Just) -> Result<Step, Fault> {
    let mut goals = Vec::new(alloc);
    goals.push(goal)?;
    Ok(Step { goals, just })
}

// The variable, with as few primes as leave it a name that no free variable of the goal has.
fn fresh_variable(alloc: Global, goal: &Goal, variable: &Term) -> Result<Term, Fault> {
    let mut taken = frees(alloc, &goal.concl)?;
    for assumption in &goal.asms {
        let mut more = frees(alloc, assumption)?;
        taken.append(&mut more)?;
    }
    let Some((name, ty)) = variable.dest_var() else {
        return Err(Fault::NotVariable);
    };
    let mut fresh = String::from_str(alloc, name)?;
    for _ in 0..taken.len() {
        if !is_taken(&taken, fresh.as_str()) {
            break;
        }
        fresh.push_str("'")?;
    }
    Term::mk_var(alloc, fresh.as_str(), ty)
}

// Whether one of the variables has the name.
fn is_taken(variables: &[Term], name: &str) -> bool {
    for variable in variables {
        if let Some((other, _)) = variable.dest_var() {
            if other == name {
                return true;
            }
        }
    }
    false
}
