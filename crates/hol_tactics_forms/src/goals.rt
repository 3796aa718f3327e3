// Steps of goals, and names that are free in none of their terms.

use crate::proving::{Derivation, disch};
use hol_host::HostFail;
use hol_just::{Goal, Step};
use hol_model::Fault;
use hol_subst::{variant, vsubst};
use hol_terms::{Term, frees};
use std::alloc::Global;

/// The step that needs no subgoal.
pub fn to_none(alloc: Global, just: Derivation) -> Result<Step, HostFail> {
    let just = just?;
    Ok(Step {
        goals: Vec::new(alloc),
        just,
    })
}

/// The step to one subgoal.
pub fn to_one(
    alloc: Global,
    goal: Result<Goal, Fault>,
    just: Derivation,
) -> Result<Step, HostFail> {
    let mut step = to_none(alloc, just)?;
    step.goals.push(goal?)?;
    Ok(step)
}

/// The step to two subgoals.
pub fn to_two(
    alloc: Global,
    first: Result<Goal, Fault>,
    second: Result<Goal, Fault>,
    just: Derivation,
) -> Result<Step, HostFail> {
    let mut step = to_one(alloc, first, just)?;
    step.goals.push(second?)?;
    Ok(step)
}

/// The step to `p ==> g`, of the step to `g` with `p` assumed.
pub fn discharged(alloc: Global, p: &Term, step: Result<Step, HostFail>) -> Result<Step, HostFail> {
    let Step { goals, just } = step?;
    let just = disch(alloc, p, Ok(just))?;
    Ok(Step { goals, just })
}

/// The same terms. Refused: Memory.
pub fn copy_terms(alloc: Global, terms: &[Term]) -> Result<Vec<Term>, Fault> {
    let mut copies = Vec::new(alloc);
    for term in terms {
        push_copy(alloc, term, &mut copies)?;
    }
    Ok(copies)
}

/// Adds the same term. Refused: Memory.
pub fn push_copy(alloc: Global, term: &Term, terms: &mut Vec<Term>) -> Result<(), Fault> {
    terms.push(term.copy(alloc)?)?;
    Ok(())
}

/// The free variables of a goal; one that stands in several formulas is there several times. Refused: Memory.
pub fn goal_frees(alloc: Global, goal: &Goal) -> Result<Vec<Term>, Fault> {
    let mut variables = frees(alloc, &goal.concl)?;
    for assumption in &goal.asms {
        add_frees(alloc, assumption, &mut variables)?;
    }
    Ok(variables)
}

fn add_frees(alloc: Global, term: &Term, variables: &mut Vec<Term>) -> Result<(), Fault> {
    let mut more = frees(alloc, term)?;
    variables.append(&mut more)?;
    Ok(())
}

/// The variable, with primes where one of these has its name and type. It joins them. Refused: NotVariable, Memory.
pub fn fresh(alloc: Global, avoid: &mut Vec<Term>, variable: &Term) -> Result<Term, Fault> {
    let fresh = variant(alloc, avoid, variable)?;
    push_copy(alloc, &fresh, avoid)?;
    Ok(fresh)
}

/// A term with another one for a variable. Refused: TypeMismatch, TooLarge, Memory.
pub fn with_value(
    alloc: Global,
    value: &Term,
    variable: &Term,
    term: &Term,
) -> Result<Term, Fault> {
    let pairs = [(value.copy(alloc)?, variable.copy(alloc)?)];
    vsubst(alloc, &pairs, term)
}

/// A variable that is none of these, which it joins, and the body of a binder with it in place of the bound variable. Refused:
/// NotVariable, TooLarge, Memory.
pub fn open_binder(
    alloc: Global,
    avoid: &mut Vec<Term>,
    variable: &Term,
    body: &Term,
) -> Result<(Term, Term), Fault> {
    let fresh = fresh(alloc, avoid, variable)?;
    let opened = with_value(alloc, &fresh, variable, body)?;
    Ok((fresh, opened))
}
