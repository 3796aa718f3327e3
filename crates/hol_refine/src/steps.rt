// Steps by a lemma.
ghost use Rattle.std.specs.Prelude.{◌≡◌, [], ◌∷◌, Ok};
ghost use Rattle.hol_model.specs.Logic.NamedLogic.{is_true};
ghost use Rattle.hol_model.specs.Derived.DerivedRules.{named};
ghost use Rattle.hol_model.specs.declared.rule.Rule.TheVariants as rules;
ghost use Rattle.hol_model.specs.Goals.Justifications as trees;
ghost use Rattle.hol_model.specs.Goals.Justifications.{by_rule};
ghost use Rattle.hol_model.specs.Refining.Refiners.{converted, proved_by_lemma, toward, leaves, one_part, two_parts, from_first};
ghost use Rattle.hol_just.specs.Steps.{goal_of};
ghost use Rattle.hol_refine.specs.TableAnswers.{step_in, AnswersStep, Makes};

use crate::making::{closed, from_one, from_two, stored_lemma, subgoal, to_target};
use hol_just::{Goal, Just, Rule, Step};
use hol_model::Fault;
use hol_terms::{Parts, Term};
use std::alloc::Global;

// Whether the term is `T`.
fn is_truth(term: &Term) -> bool
    ensures { result ≡ is_true term.now }
{
    match term.parts() {
        Parts::Constant(name, _) => name == "T",
        _ => false,
    }
}

// `p`, from the lemma `p <=> T`.
fn by_truth(alloc: Global, number: usize) -> Result<Just, Fault>
    ensures { Makes result (by_rule rules.EqtElim (one_part (trees.lemma number))) }
{
    from_one(alloc, Rule::EqtElim, stored_lemma(alloc, number))
}

// `q <=> p`, from the lemma `p <=> q`.
fn turned(alloc: Global, number: usize) -> Result<Just, Fault>
    ensures { Makes result (by_rule rules.Sym (one_part (trees.lemma number))) }
{
    from_one(alloc, Rule::Sym, stored_lemma(alloc, number))
}

// `p`, from the lemma `p <=> q` and the subgoal `q`.
fn by_equation(alloc: Global, number: usize) -> Result<Just, Fault>
    ensures { Makes result (by_rule rules.EqMp (two_parts (by_rule rules.Sym (one_part (trees.lemma number))) from_first)) }
{
    from_two(alloc, Rule::EqMp, turned(alloc, number), subgoal(alloc, 0))
}

// A step that closes the goal by the lemma `p <=> T`.
fn closed_by_truth(alloc: Global, number: usize) -> Result<Step, Fault>
    ensures { AnswersStep (Ok (record { goals = []; justification = by_rule rules.EqtElim (one_part (trees.lemma number)) })) (step_in result) }
{
    let just = by_truth(alloc, number)?;
    closed(alloc, just)
}

// The step to the right side of the lemma `p <=> q`.
fn to_right(alloc: Global, number: usize, goal: &Goal, right: &Term) -> Result<Step, Fault>
    ensures { AnswersStep (leaves (toward (goal_of goal.now) (named right.now) ∷ [])
        (by_rule rules.EqMp (two_parts (by_rule rules.Sym (one_part (trees.lemma number))) from_first))) (step_in result) }
{
    let just = by_equation(alloc, number)?;
    to_target(alloc, goal, right, just)
}

/// The goal's step by the lemma of this number, an equation of the target with this right side: to that side, or to nothing
/// where it is `T`. Refused: Memory.
pub(crate) fn converted(
    alloc: Global,
    number: usize,
    goal: &Goal,
    right: &Term,
) -> Result<Step, Fault>
    ensures { AnswersStep (Ok (converted number (goal_of goal.now) right.now)) (step_in result) }
{
    if is_truth(right) {
        return closed_by_truth(alloc, number);
    }
    to_right(alloc, number, goal, right)
}

/// The step that closes a goal by the lemma of this number. Refused: Memory.
pub(crate) fn proved(alloc: Global, number: usize) -> Result<Step, Fault>
    ensures { AnswersStep (Ok (proved_by_lemma number)) (step_in result) }
{
    let just = stored_lemma(alloc, number)?;
    closed(alloc, just)
}
