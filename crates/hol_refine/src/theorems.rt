// The refiners of the table that name a theorem, and make no term.
ghost use Rattle.std.specs.Prelude.{◌≡◌, [], ◌∷◌};
ghost use Rattle.std.specs.Option.{option_map};
ghost use Rattle.hol_model.specs.Derived.DerivedRules.{named};
ghost use Rattle.hol_model.specs.declared.rule.Rule.TheVariants as rules;
ghost use Rattle.hol_model.specs.Goals.Justifications as trees;
ghost use Rattle.hol_model.specs.Goals.Justifications.{by_rule};
ghost use Rattle.hol_model.specs.Refining.Refiners as refiners;
ghost use Rattle.hol_model.specs.Refining.Refiners.{leaves, two_parts, from_first};
ghost use Rattle.hol_just.specs.Steps.{goal_of};
ghost use Rattle.hol_refine.specs.TableAnswers.{step_in, AnswersStep, AnswersNamedRow};
ghost use Rattle.hol_refine.specs.Rows as stated;

use crate::assumed::are_assumed;
use crate::cited::Cited;
use crate::making::{
    assuming, by_disj_cases, closed, from_two, stored_theorem, subgoal, to_assuming, to_two,
};
use hol_alpha::aconv;
use hol_bool::connected_sides;
use hol_just::{Goal, Rule, Step, named};
use hol_model::Fault;
use hol_terms::Term;
use std::alloc::Global;

// The stored theorem itself.
fn stored(alloc: Global, name: &str) -> Result<Step, Fault>
    ensures { AnswersStep (leaves [] (trees.named name.now)) (step_in result) }
{
    let just = named(alloc, name)?;
    closed(alloc, just)
}

/// The target is the theorem's conclusion.
pub(crate) fn accept_tac(alloc: Global, cited: Cited<'_>, goal: &Goal) -> Result<Step, Fault>
    ensures { AnswersNamedRow (refiners.accept_tac cited.entry.name.now) cited.entry.name.now (option_map (λ t. t.now) cited.entry.theorem) (goal_of goal.now) (step_in result) }
{
    match cited.theorem {
        Some(theorem) => {
            if !aconv(theorem.concl(), &goal.concl) {
                return Err(Fault::RefineFails);
            }
            if !are_assumed(theorem.hyps(), goal) {
                return Err(Fault::RefineFails);
            }
            stored(alloc, cited.name)
        }
        None => Err(Fault::UnknownName),
    }
}

// The goal with the conclusion of the theorem of this name assumed.
fn assumed(alloc: Global, name: &str, conclusion: &Term, goal: &Goal) -> Result<Step, Fault>
    ensures { AnswersStep (leaves (refiners.assuming (goal_of goal.now) (named conclusion.now) ∷ []) (by_rule rules.ProveHyp (two_parts (trees.named name.now) from_first))) (step_in result) }
{
    let just = from_two(
        alloc,
        Rule::ProveHyp,
        stored_theorem(alloc, name),
        subgoal(alloc, 0),
    )?;
    to_assuming(alloc, goal, conclusion, &goal.concl, just)
}

/// The theorem's conclusion is assumed.
pub(crate) fn assume_tac(alloc: Global, cited: Cited<'_>, goal: &Goal) -> Result<Step, Fault>
    ensures { AnswersNamedRow (refiners.assume_tac cited.entry.name.now) cited.entry.name.now (option_map (λ t. t.now) cited.entry.theorem) (goal_of goal.now) (step_in result) }
{
    match cited.theorem {
        Some(theorem) => {
            if !are_assumed(theorem.hyps(), goal) {
                return Err(Fault::RefineFails);
            }
            assumed(alloc, cited.name, theorem.concl(), goal)
        }
        None => Err(Fault::UnknownName),
    }
}

// The goal with the one side assumed, and with the other.
fn split(alloc: Global, name: &str, left: &Term, right: &Term, goal: &Goal) -> Result<Step, Fault>
    ensures { AnswersStep (stated.split (goal_of goal.now) name.now left.now right.now) (step_in result) }
{
    let just = by_disj_cases(alloc, name)?;
    let first = assuming(alloc, goal, left, &goal.concl)?;
    let second = assuming(alloc, goal, right, &goal.concl)?;
    to_two(alloc, first, second, just)
}

/// The theorem's conclusion is `p \/ q`: the goal with `p` assumed, and with `q` assumed.
pub(crate) fn disj_cases_tac(alloc: Global, cited: Cited<'_>, goal: &Goal) -> Result<Step, Fault>
    ensures { AnswersNamedRow (refiners.disj_cases_tac cited.entry.name.now) cited.entry.name.now (option_map (λ t. t.now) cited.entry.theorem) (goal_of goal.now) (step_in result) }
{
    match cited.theorem {
        Some(theorem) => match connected_sides(theorem.concl(), "\\/") {
            Some(sides) => {
                if !are_assumed(theorem.hyps(), goal) {
                    return Err(Fault::RefineFails);
                }
                split(alloc, cited.name, sides.left, sides.right, goal)
            }
            None => Err(Fault::BadShape),
        },
        None => Err(Fault::UnknownName),
    }
}
