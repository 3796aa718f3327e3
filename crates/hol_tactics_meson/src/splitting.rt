// A goal as smaller goals, before they are refuted one by one.

use crate::facts::{assumed, by_absurdity};
use hol_host::HostFail;
use hol_just::{Goal, Just, Step, splice};
use hol_model::Fault;
use hol_tactics_forms::{
    Derivation, Formula, assume, ccontr, conj, contradiction, deduct_antisym, dest_formula,
    disj_cases, eq_mp, excluded_middle, mk_imp, mk_neg, mp, push_copy, refute, sub, sym, to_none,
    to_two, undisch,
};
use hol_tactics_rules::strip;
use hol_terms::Term;
use std::alloc::Global;

// How often a goal is split, one within the other, how many goals there may be, and how deep a quantifier is looked for.
const DEPTH: u32 = 40;

const GOALS: usize = 300;

/// The step to goals without connectives in the conclusion, and without equivalences and disjunctions of quantified formulas among the
/// assumptions.
pub(crate) fn split(alloc: Global, goal: &Goal) -> Result<Step, HostFail> {
    let mut goals = Vec::new(alloc);
    let just = split_into(alloc, goal, &mut goals, DEPTH)?;
    Ok(Step { goals, just })
}

// The justification of a goal by further goals at the end of the list.
fn split_into(alloc: Global, goal: &Goal, goals: &mut Vec<Goal>, depth: u32) -> Derivation {
    if depth == 0 || goals.len() >= GOALS {
        return left(alloc, goal, goals);
    }
    let Some(step) = first_split(alloc, goal)? else {
        return left(alloc, goal, goals);
    };
    let mut parts = Vec::new(alloc);
    for goal in &step.goals {
        add_part(alloc, split_into(alloc, goal, goals, depth - 1), &mut parts)?;
    }
    spliced(alloc, &step, &parts)
}

/// Adds the justification of a subgoal.
pub(crate) fn add_part(
    alloc: Global,
    just: Derivation,
    parts: &mut Vec<Step>,
) -> Result<(), HostFail> {
    parts.push(to_none(alloc, just)?)?;
    Ok(())
}

/// The justification of a step with these for its subgoals.
pub(crate) fn spliced(alloc: Global, step: &Step, parts: &[Step]) -> Derivation {
    Ok(splice(alloc, &step.just, parts)?)
}

/// The same justification.
pub(crate) fn again(alloc: Global, just: &Just) -> Derivation {
    Ok(just.copy(alloc)?)
}

// A goal that is split no further.
fn left(alloc: Global, goal: &Goal, goals: &mut Vec<Goal>) -> Derivation {
    let number = goals.len();
    goals.push(goal.copy(alloc)?)?;
    sub(alloc, number)
}

// A step that splits the conclusion, or else an assumption.
fn first_split(alloc: Global, goal: &Goal) -> Result<Option<Step>, HostFail> {
    match dest_formula(&goal.concl) {
        Formula::Iff(p, q) => some(eq_tac(alloc, goal, p, q)),
        Formula::Not(p) if !is_atom(p) => some(strip(alloc, goal)),
        Formula::Atom | Formula::Or(_, _) | Formula::Exists(_, _) | Formula::Not(_) => {
            split_assumption(alloc, goal)
        }
        Formula::And(_, _) | Formula::Implies(_, _) | Formula::ForAll(_, _) => {
            some(strip(alloc, goal))
        }
    }
}

fn some(step: Result<Step, HostFail>) -> Result<Option<Step>, HostFail> {
    Ok(Some(step?))
}

// EQ_TAC: an equivalence as two implications.
fn eq_tac(alloc: Global, goal: &Goal, p: &Term, q: &Term) -> Result<Step, HostFail> {
    let forth = mk_imp(alloc, p, q)?;
    let back = mk_imp(alloc, q, p)?;
    let p = undisch(alloc, sub(alloc, 1));
    let q = undisch(alloc, sub(alloc, 0));
    to_two(
        alloc,
        goal.with_concl(alloc, &forth),
        goal.with_concl(alloc, &back),
        deduct_antisym(alloc, p, q),
    )
}

// What an assumption gives in the two cases of a formula p: with p, and with `~p`, where it gives anything then.
#[derive(Drop)]
struct Cases<'a> {
    p: &'a Term,
    with: Derived,
    without: Option<Derived>,
}

// A formula with its proof from the assumption and the case.
#[derive(Drop)]
struct Derived {
    formula: Term,
    just: Just,
}

// A step that splits the first assumption that can be.
fn split_assumption(alloc: Global, goal: &Goal) -> Result<Option<Step>, HostFail> {
    for (place, assumption) in goal.asms.iter().enumerate() {
        if let Some(cases) = cases_of(alloc, assumption)? {
            return some(by_cases(alloc, goal, place, &cases));
        }
    }
    Ok(None)
}

fn is_atom(term: &Term) -> bool {
    matches!(dest_formula(term), Formula::Atom)
}

// Whether a quantifier stands in the formula, outside of its atoms and no deeper than this.
fn is_quantified(term: &Term, depth: u32) -> bool {
    if depth == 0 {
        return false;
    }
    match dest_formula(term) {
        Formula::ForAll(_, _) | Formula::Exists(_, _) => true,
        Formula::Not(p) => is_quantified(p, depth - 1),
        Formula::And(p, q) | Formula::Or(p, q) | Formula::Implies(p, q) | Formula::Iff(p, q) => {
            is_quantified(p, depth - 1) || is_quantified(q, depth - 1)
        }
        Formula::Atom => false,
    }
}

// The cases of an assumption, if a quantifier stands in it and it is an equivalence, an implication, or the denial of an equivalence or
// of a conjunction.
fn cases_of(alloc: Global, assumption: &Term) -> Result<Option<Cases<'_>>, HostFail> {
    if !is_quantified(assumption, DEPTH) {
        return Ok(None);
    }
    match dest_formula(assumption) {
        Formula::Implies(p, q) => {
            // q with p.
            let just = mp(alloc, assume(alloc, assumption), assume(alloc, p));
            with_one(p, Derived::new(q.copy(alloc), just))
        }
        Formula::Iff(p, q) => {
            // q with p, and `~q` with `~p`.
            let forth = eq_mp(alloc, assume(alloc, assumption), assume(alloc, p));
            let back = sym(alloc, assume(alloc, assumption));
            let p_holds = eq_mp(alloc, back, assume(alloc, q));
            let clash = contradiction(alloc, assumed(alloc, p, false), p_holds);
            let without = Derived::refuted(alloc, q, clash);
            with_both(p, Derived::new(q.copy(alloc), forth), without)
        }
        Formula::Not(denied) => denial_cases(alloc, assumption, denied),
        _ => Ok(None),
    }
}

fn denial_cases<'a>(
    alloc: Global,
    assumption: &Term,
    denied: &'a Term,
) -> Result<Option<Cases<'a>>, HostFail> {
    match dest_formula(denied) {
        Formula::And(p, q) => {
            // `~q` with p.
            let both = conj(alloc, assume(alloc, p), assume(alloc, q));
            let clash = contradiction(alloc, assume(alloc, assumption), both);
            with_one(p, Derived::refuted(alloc, q, clash))
        }
        Formula::Iff(p, q) => {
            // `~q` with p, and q with `~p`.
            let hold = deduct_antisym(alloc, assume(alloc, p), assume(alloc, q));
            let clash = contradiction(alloc, assume(alloc, assumption), hold);
            let with = Derived::refuted(alloc, q, clash);
            let (p_holds, q_holds) = (by_absurdity(alloc, q, p), by_absurdity(alloc, p, q));
            let fail = deduct_antisym(alloc, p_holds, q_holds);
            let clash = contradiction(alloc, assume(alloc, assumption), fail);
            with_both(
                p,
                with,
                Derived::new(q.copy(alloc), ccontr(alloc, q, clash)),
            )
        }
        _ => Ok(None),
    }
}

// The cases of p, where something is derived with p alone.
fn with_one(p: &Term, with: Result<Derived, HostFail>) -> Result<Option<Cases<'_>>, HostFail> {
    let with = with?;
    let without = None;
    Ok(Some(Cases { p, with, without }))
}

// The cases of p, where something is derived in both.
fn with_both(
    p: &Term,
    with: Result<Derived, HostFail>,
    without: Result<Derived, HostFail>,
) -> Result<Option<Cases<'_>>, HostFail> {
    let with = with?;
    let without = Some(without?);
    Ok(Some(Cases { p, with, without }))
}

impl Derived {
    // A formula with its proof, where there are both.
    fn new(formula: Result<Term, Fault>, just: Derivation) -> Result<Derived, HostFail> {
        let formula = formula?;
        let just = just?;
        Ok(Derived { formula, just })
    }

    // `~p`, of `F` from p.
    fn refuted(alloc: Global, p: &Term, falsity: Derivation) -> Result<Derived, HostFail> {
        Derived::new(mk_neg(alloc, p), refute(alloc, p, falsity))
    }
}

// The step to a goal for each case, in which what it gives stands before the conclusion in place of the assumption.
fn by_cases(alloc: Global, goal: &Goal, place: usize, cases: &Cases<'_>) -> Result<Step, HostFail> {
    let p = cases.p;
    let denied = mk_neg(alloc, p)?;
    let without = cases.without.as_ref();
    let holds = concluded(alloc, p, Some(&cases.with), 0);
    let fails = concluded(alloc, &denied, without, 1);
    to_two(
        alloc,
        case_goal(alloc, goal, place, p, Some(&cases.with)),
        case_goal(alloc, goal, place, &denied, without),
        disj_cases(alloc, excluded_middle(alloc, p), holds, fails),
    )
}

// The goal's conclusion, from p, by the goal `derived ==> p ==> concl` of this number, which is stripped next.
fn concluded(alloc: Global, p: &Term, derived: Option<&Derived>, number: usize) -> Derivation {
    let implies = match derived {
        Some(derived) => mp(alloc, sub(alloc, number), again(alloc, &derived.just)),
        None => sub(alloc, number),
    };
    mp(alloc, implies, assume(alloc, p))
}

// The goal `derived ==> p ==> concl` from the assumptions but the one at a place.
fn case_goal(
    alloc: Global,
    goal: &Goal,
    place: usize,
    p: &Term,
    derived: Option<&Derived>,
) -> Result<Goal, Fault> {
    let asms = others(alloc, &goal.asms, place)?;
    let concl = conclusion(alloc, goal, p, derived)?;
    Ok(Goal { asms, concl })
}

fn conclusion(
    alloc: Global,
    goal: &Goal,
    p: &Term,
    derived: Option<&Derived>,
) -> Result<Term, Fault> {
    let implies = mk_imp(alloc, p, &goal.concl)?;
    match derived {
        Some(derived) => mk_imp(alloc, &derived.formula, &implies),
        None => Ok(implies),
    }
}

// The terms but the one at a place.
fn others(alloc: Global, terms: &[Term], place: usize) -> Result<Vec<Term>, Fault> {
    let mut others = Vec::new(alloc);
    for (number, term) in terms.iter().enumerate() {
        if number != place {
            push_copy(alloc, term, &mut others)?;
        }
    }
    Ok(others)
}
