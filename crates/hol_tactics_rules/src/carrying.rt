// Refiners by a formula that travels in the goal, and of all assumptions.

use hol_alpha::aconv;
use hol_host::HostFail;
use hol_just::{Goal, Step};
use hol_model::Fault;
use hol_tactics_forms::{
    Formula, assume, dest_formula, dest_imp, disch, disj_cases, excluded_middle, mk_imp, mk_neg,
    mp, prove_hyp, push_copy, spec, sub, to_one, to_two,
};
use hol_terms::Term;
use std::alloc::Global;

/// SUBGOAL_THEN ASSUME_TAC: on `(p <=> p) ==> g` the subgoals `p`, and `g` with `p` assumed. Else it fails.
pub fn cut(alloc: Global, goal: &Goal) -> Result<Step, HostFail> {
    let Some((carrier, wanted)) = dest_imp(&goal.concl) else {
        return Err(HostFail::Failed);
    };
    let Some(p) = carried(carrier) else {
        return Err(HostFail::Failed);
    };
    let just = prove_hyp(alloc, sub(alloc, 0), sub(alloc, 1));
    to_two(
        alloc,
        goal.with_concl(alloc, p),
        assuming(alloc, goal, p, wanted),
        disch(alloc, carrier, just),
    )
}

/// ASM_CASES_TAC: on `(p <=> p) ==> g` the subgoal `g` with `p` assumed, and with `~p`. DISJ_CASES_TAC: on `p \/ q ==> g`, with
/// `p` and with `q`. Else it fails.
pub fn cases(alloc: Global, goal: &Goal) -> Result<Step, HostFail> {
    let Some((carrier, wanted)) = dest_imp(&goal.concl) else {
        return Err(HostFail::Failed);
    };
    if let Formula::Or(left, right) = dest_formula(carrier) {
        let just = disj_cases(alloc, assume(alloc, carrier), sub(alloc, 0), sub(alloc, 1));
        return to_two(
            alloc,
            assuming(alloc, goal, left, wanted),
            assuming(alloc, goal, right, wanted),
            disch(alloc, carrier, just),
        );
    }
    match carried(carrier) {
        Some(p) => by_holding(alloc, goal, carrier, p, wanted),
        None => Err(HostFail::Failed),
    }
}

// The conclusion with `p` assumed, and with `~p`.
fn by_holding(
    alloc: Global,
    goal: &Goal,
    carrier: &Term,
    p: &Term,
    wanted: &Term,
) -> Result<Step, HostFail> {
    let denied = mk_neg(alloc, p)?;
    let just = disj_cases(
        alloc,
        excluded_middle(alloc, p),
        sub(alloc, 0),
        sub(alloc, 1),
    );
    to_two(
        alloc,
        assuming(alloc, goal, p, wanted),
        assuming(alloc, goal, &denied, wanted),
        disch(alloc, carrier, just),
    )
}

// `p` of `p <=> p`.
fn carried(carrier: &Term) -> Option<&Term> {
    match dest_formula(carrier) {
        Formula::Iff(left, right) if aconv(left, right) => Some(left),
        _ => None,
    }
}

// The goal of this conclusion with one assumption more.
fn assuming(alloc: Global, goal: &Goal, p: &Term, concl: &Term) -> Result<Goal, Fault> {
    let mut goal = goal.with_concl(alloc, concl)?;
    push_copy(alloc, p, &mut goal.asms)?;
    Ok(goal)
}

/// UNDISCH_TAC of each assumption: on `g`, with `a..`, `b` assumed, the subgoal `a.. ==> b ==> g` without assumptions.
pub fn undisch(alloc: Global, goal: &Goal) -> Result<Step, HostFail> {
    let asms = Vec::new(alloc);
    let concl = implied(alloc, &goal.asms, &goal.concl)?;
    let mut just = sub(alloc, 0);
    for _ in &goal.asms {
        just = hol_tactics_forms::undisch(alloc, just);
    }
    to_one(alloc, Ok(Goal { asms, concl }), just)
}

// The formula with antecedents.
fn implied(alloc: Global, antecedents: &[Term], formula: &Term) -> Result<Term, Fault> {
    let mut implied = formula.copy(alloc)?;
    for antecedent in antecedents.iter().rev() {
        implied = mk_imp(alloc, antecedent, &implied)?;
    }
    Ok(implied)
}

/// SPEC_ALL of what MP_TAC brought: on `(!x.. p) ==> g` the subgoal `p ==> g`, with the quantified variables free in it. Where there
/// is no quantifier it fails.
pub fn spec_all(alloc: Global, goal: &Goal) -> Result<Step, HostFail> {
    let Some((rule, wanted)) = dest_imp(&goal.concl) else {
        return Err(HostFail::Failed);
    };
    let Formula::ForAll(_, _) = dest_formula(rule) else {
        return Err(HostFail::Failed);
    };
    let mut body = rule;
    let mut just = assume(alloc, rule);
    for _ in 0..rule.height() {
        let Formula::ForAll(variable, inner) = dest_formula(body) else {
            break;
        };
        just = spec(alloc, variable, just);
        body = inner;
    }
    let concl = mk_imp(alloc, body, wanted)?;
    let just = disch(alloc, rule, mp(alloc, sub(alloc, 0), just));
    to_one(alloc, goal.with_concl(alloc, &concl), just)
}
