// The refiners of the table that name no theorem and call no variable.
ghost use Rattle.std.specs.Prelude.{[], ◌∷◌};
ghost use Rattle.hol_model.specs.Goals.Goals as goals;
ghost use Rattle.hol_model.specs.Derived.DerivedRules.{named};
ghost use Rattle.hol_model.specs.Goals.Justifications.{by_rule, no_parts};
ghost use Rattle.hol_model.specs.Refining.Refiners as refiners;
ghost use Rattle.hol_model.specs.Refining.Refiners.{leaves, from_first, one_part};
ghost use Rattle.hol_model.specs.declared.rule.Rule.TheVariants as rules;
ghost use Rattle.hol_just.specs.Steps.{goal_of};
ghost use Rattle.hol_refine.specs.TableAnswers.{step_in, AnswersStep, AnswersRow, Makes};
ghost use Rattle.hol_refine.specs.Rows as stated;

use crate::assumed::is_assumed;
use crate::making::{by_itself, from_one, from_two, subgoal, to_assuming, to_target, to_targets};
use hol_alpha::aconv;
use hol_bool::{connected_sides, falsity, negated_part};
use hol_equal::equality::equation_parts;
use hol_just::{Goal, Just, Rule, Step};
use hol_model::Fault;
use hol_terms::Term;
use std::alloc::Global;

/// The goal itself.
pub(crate) fn all_tac(alloc: Global, goal: &Goal) -> Result<Step, Fault>
    ensures { AnswersRow refiners.all_tac (goal_of goal.now) (step_in result) }
{
    let just = subgoal(alloc, 0)?;
    to_target(alloc, goal, &goal.concl, just)
}

/// Refuses every goal.
pub(crate) fn no_tac() -> Result<Step, Fault>
    ensures { (goal : goals.Goal) → AnswersRow refiners.no_tac goal (step_in result) }
{
    Err(Fault::RefineFails)
}

// The assumption `p`.
fn assumed(alloc: Global, p: &Term) -> Result<Step, Fault>
    ensures { AnswersStep (leaves [] (by_rule (rules.Assume p.now) no_parts)) (step_in result) }
{
    let p = p.copy(alloc)?;
    by_itself(alloc, Rule::Assume(p))
}

/// The target is an assumption.
pub(crate) fn assumption_tac(alloc: Global, goal: &Goal) -> Result<Step, Fault>
    ensures { AnswersRow refiners.assumption_tac (goal_of goal.now) (step_in result) }
{
    if !is_assumed(&goal.concl, goal) {
        return Err(Fault::RefineFails);
    }
    assumed(alloc, &goal.concl)
}

// `a = a`.
fn reflexive(alloc: Global, a: &Term) -> Result<Step, Fault>
    ensures { AnswersStep (leaves [] (by_rule (rules.Refl a.now) no_parts)) (step_in result) }
{
    let a = a.copy(alloc)?;
    by_itself(alloc, Rule::Refl(a))
}

/// The target is `a = a`.
pub(crate) fn refl_tac(alloc: Global, goal: &Goal) -> Result<Step, Fault>
    ensures { AnswersRow refiners.refl_tac (goal_of goal.now) (step_in result) }
{
    match equation_parts(&goal.concl) {
        Some(sides) => {
            if !aconv(sides.left, sides.right) {
                return Err(Fault::RefineFails);
            }
            reflexive(alloc, sides.left)
        }
        None => Err(Fault::BadShape),
    }
}

// Subgoals with these targets, joined by CONJ.
fn both(alloc: Global, goal: &Goal, left: &Term, right: &Term) -> Result<Step, Fault>
    ensures { AnswersStep (stated.both (goal_of goal.now) left.now right.now) (step_in result) }
{
    let just = from_two(alloc, Rule::Conj, subgoal(alloc, 0), subgoal(alloc, 1))?;
    to_targets(alloc, goal, left, right, just)
}

/// `p /\ q` becomes `p`, and `q`.
pub(crate) fn conj_tac(alloc: Global, goal: &Goal) -> Result<Step, Fault>
    ensures { AnswersRow refiners.conj_tac (goal_of goal.now) (step_in result) }
{
    match connected_sides(&goal.concl, "/\\") {
        Some(sides) => both(alloc, goal, sides.left, sides.right),
        None => Err(Fault::BadShape),
    }
}

// One side alone, by the rule that adds the other.
fn to_side(alloc: Global, goal: &Goal, side: &Term, rule: Rule) -> Result<Step, Fault>
    ensures { AnswersStep (leaves (refiners.toward (goal_of goal.now) (named side.now) ∷ []) (by_rule rule (one_part from_first))) (step_in result) }
{
    let just = from_one(alloc, rule, subgoal(alloc, 0))?;
    to_target(alloc, goal, side, just)
}

/// `p \/ q` becomes `p`.
pub(crate) fn disj1_tac(alloc: Global, goal: &Goal) -> Result<Step, Fault>
    ensures { AnswersRow refiners.disj1_tac (goal_of goal.now) (step_in result) }
{
    match connected_sides(&goal.concl, "\\/") {
        Some(sides) => {
            let q = sides.right.copy(alloc)?;
            to_side(alloc, goal, sides.left, Rule::Disj1(q))
        }
        None => Err(Fault::BadShape),
    }
}

/// `p \/ q` becomes `q`.
pub(crate) fn disj2_tac(alloc: Global, goal: &Goal) -> Result<Step, Fault>
    ensures { AnswersRow refiners.disj2_tac (goal_of goal.now) (step_in result) }
{
    match connected_sides(&goal.concl, "\\/") {
        Some(sides) => {
            let p = sides.left.copy(alloc)?;
            to_side(alloc, goal, sides.right, Rule::Disj2(p))
        }
        None => Err(Fault::BadShape),
    }
}

// What DISCH draws from the first subgoal.
fn by_disch(alloc: Global, p: &Term) -> Result<Just, Fault>
    ensures { Makes result (by_rule (rules.Disch p.now) (one_part from_first)) }
{
    from_one(alloc, Rule::Disch(p.copy(alloc)?), subgoal(alloc, 0))
}

// `q`, with `p` assumed.
fn discharged(alloc: Global, goal: &Goal, p: &Term, q: &Term) -> Result<Step, Fault>
    ensures { AnswersStep (stated.discharged (goal_of goal.now) p.now q.now) (step_in result) }
{
    let just = by_disch(alloc, p)?;
    to_assuming(alloc, goal, p, q, just)
}

// `F`, with `p` assumed.
fn refuted(alloc: Global, goal: &Goal, p: &Term) -> Result<Step, Fault>
    ensures { AnswersStep (stated.refuted (goal_of goal.now) p.now) (step_in result) }
{
    let falsity = falsity(alloc)?;
    let just = from_one(alloc, Rule::NotIntro, by_disch(alloc, p))?;
    to_assuming(alloc, goal, p, &falsity, just)
}

/// `p ==> q` becomes `q` with `p` assumed, and `~p` becomes `F` with `p` assumed.
pub(crate) fn disch_tac(alloc: Global, goal: &Goal) -> Result<Step, Fault>
    ensures { AnswersRow refiners.disch_tac (goal_of goal.now) (step_in result) }
{
    match connected_sides(&goal.concl, "==>") {
        Some(sides) => discharged(alloc, goal, sides.left, sides.right),
        None => match negated_part(&goal.concl) {
            Some(p) => refuted(alloc, goal, p),
            None => Err(Fault::BadShape),
        },
    }
}
