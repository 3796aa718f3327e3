// What the host's functions answer.
use hol_host::{Equated, HostFail};
use hol_just::{Goal, Rule, Step, step, sub};
use hol_terms::Term;
use hol_types::Ty;
use std::alloc::Global;

/// The goal itself as the one subgoal.
pub(crate) fn unchanged(alloc: Global, goal: &Goal) -> Result<Step, HostFail> {
    let just = sub(alloc, 0)?;
    let mut goals = Vec::new(alloc);
    goals.push(goal.copy(alloc)?)?;
    Ok(Step { goals, just })
}

/// The term itself, by REFL.
pub(crate) fn same(alloc: Global, term: &Term) -> Equated {
    let just = step(alloc, Rule::Refl(term.copy(alloc)?), &[])?;
    Ok((term.copy(alloc)?, just))
}

/// The goal, behind a subgoal that it does not need, whose name tells the number.
pub(crate) fn told(alloc: Global, calls: u32, goal: &Goal) -> Result<Step, HostFail> {
    let name = format!(in alloc; "calls_{calls}")?;
    let formula = Term::mk_var(alloc, name.as_str(), &Ty::boolean(alloc)?)?;
    let just = sub(alloc, 1)?;
    let mut goals = Vec::new(alloc);
    goals.push(goal.with_concl(alloc, &formula)?)?;
    goals.push(goal.copy(alloc)?)?;
    Ok(Step { goals, just })
}

/// On `p \/ q` the subgoal `q`, used twice: DISJ2 of the first conjunct of CONJ of its theorem with itself. On an atom it fails.
pub(crate) fn twice(alloc: Global, goal: &Goal) -> Result<Step, HostFail> {
    let Some((applied, right)) = goal.concl.dest_comb() else {
        return Err(HostFail::Failed);
    };
    let Some((_, left)) = applied.dest_comb() else {
        return Err(HostFail::Failed);
    };
    let both = step(alloc, Rule::Conj, &[sub(alloc, 0)?, sub(alloc, 0)?])?;
    let first = step(alloc, Rule::Conjunct1, &[both])?;
    let just = step(alloc, Rule::Disj2(left.copy(alloc)?), &[first])?;
    let mut goals = Vec::new(alloc);
    goals.push(goal.with_concl(alloc, right)?)?;
    Ok(Step { goals, just })
}
