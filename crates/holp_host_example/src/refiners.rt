// Refiners. Nothing is claimed of what they answer: it is tested before it is used.

use hol_host::HostFail;
use hol_just::{Goal, Step, spliced_step};
use hol_match::term_match;
use hol_subst::vsubst;
use hol_tactics_forms::{
    Derivation, Formula, assume, conj, dest_formula, dest_imp, mp, named, spec, sub, to_none,
    to_one, to_two,
};
use hol_terms::{Term, frees};
use std::alloc::Global;

/// From the last assumption `!x.. p ==> q` whose `q` is the goal at some terms for `x..`, the subgoal `p` at these terms
/// (HOL Light's FIRST_ASSUM MATCH_MP_TAC). Else it fails.
pub(crate) fn back(alloc: Global, goal: &Goal) -> Result<Step, HostFail> {
    for assumption in goal.asms.iter().rev() {
        match back_by(alloc, goal, assumption) {
            Err(HostFail::Failed) => {}
            answer => return answer,
        }
    }
    Err(HostFail::Failed)
}

// The same from this assumption.
fn back_by(alloc: Global, goal: &Goal, assumption: &Term) -> Result<Step, HostFail> {
    let Some((premise, result)) = dest_imp(body_of(assumption)) else {
        return Err(HostFail::Failed);
    };
    let fixed = frees(alloc, assumption)?;
    let found = term_match(alloc, &fixed, result, &goal.concl)?;
    if !found.types.is_empty() {
        return Err(HostFail::Failed);
    }
    let premise = vsubst(alloc, &found.terms, premise)?;
    let implies = specialized(alloc, assumption, &found.terms);
    let just = mp(alloc, implies, sub(alloc, 0));
    to_one(alloc, goal.with_concl(alloc, &premise), just)
}

// `p` of `!x.. p`.
fn body_of(formula: &Term) -> &Term {
    let mut body = formula;
    for _ in 0..formula.height() {
        let Formula::ForAll(_, inner) = dest_formula(body) else {
            break;
        };
        body = inner;
    }
    body
}

// `p` at these terms for `x..`, of the assumption `!x.. p`.
fn specialized(alloc: Global, assumption: &Term, terms: &[(Term, Term)]) -> Derivation {
    let mut just = assume(alloc, assumption);
    let mut body = assumption;
    for _ in 0..assumption.height() {
        let Formula::ForAll(variable, inner) = dest_formula(body) else {
            break;
        };
        let value = vsubst(alloc, terms, variable)?;
        just = spec(alloc, &value, just);
        body = inner;
    }
    just
}

/// On `p1 /\ (p2 /\ ..)`, whatever the parentheses, a subgoal for each conjunct. It leaves another goal as it is.
pub(crate) fn conjuncts(alloc: Global, goal: &Goal) -> Result<Step, HostFail> {
    let mut whole = unchanged(alloc, goal)?;
    for _ in 0..goal.concl.height() {
        let count = whole.goals.len();
        whole = split(alloc, whole)?;
        if whole.goals.len() == count {
            break;
        }
    }
    Ok(whole)
}

// Each subgoal split by `both`.
fn split(alloc: Global, whole: Step) -> Result<Step, HostFail> {
    let mut parts = Vec::new(alloc);
    for goal in &whole.goals {
        parts.push(both(alloc, goal)?)?;
    }
    Ok(spliced_step(alloc, whole.just, parts)?)
}

/// No subgoals, and why: because `T` holds. That is a reason for the goal `T` alone.
pub(crate) fn admit(alloc: Global, _goal: &Goal) -> Result<Step, HostFail> {
    to_none(alloc, named(alloc, "TRUTH"))
}

// On `p /\ q` the subgoals `p` and `q`; else the goal.
fn both(alloc: Global, goal: &Goal) -> Result<Step, HostFail> {
    let Formula::And(left, right) = dest_formula(&goal.concl) else {
        return unchanged(alloc, goal);
    };
    to_two(
        alloc,
        goal.with_concl(alloc, left),
        goal.with_concl(alloc, right),
        conj(alloc, sub(alloc, 0), sub(alloc, 1)),
    )
}

// The step that leaves the goal.
fn unchanged(alloc: Global, goal: &Goal) -> Result<Step, HostFail> {
    to_one(alloc, goal.copy(alloc), sub(alloc, 0))
}
