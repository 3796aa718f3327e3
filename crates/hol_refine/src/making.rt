// Justifications and steps of the table.
ghost use Rattle.std.specs.Prelude.{◌≡◌, [], ◌∷◌, true, IfOk, IfErr};
ghost use Rattle.hol_model.specs.declared.fault.Fault.TheVariants.{Memory};
ghost use Rattle.hol_model.specs.Derived.DerivedRules.{Conclusion, named, IsConclusion};
ghost use Rattle.hol_model.specs.Goals.Justifications.{Justification, by_rule, no_parts};
ghost use Rattle.hol_model.specs.Goals.Justifications as trees;
ghost use Rattle.hol_model.specs.declared.rule.Rule.TheVariants as rules;
ghost use Rattle.hol_model.specs.Refining.Refiners as refiners;
ghost use Rattle.hol_model.specs.Refining.Refiners.{StatedGoal, from_assumptions, one_part, two_parts, three_parts, leaves, from_first, from_second};
ghost use Rattle.hol_just.specs.Steps.{tree_of, goal_of};
ghost use Rattle.hol_refine.specs.TableAnswers.{step_in, IsGoal, AnswersStep, Makes, MakesBoth, MakesOver, is_shallow};
ghost use Rattle.hol_refine.specs.Rows.{two_targets};

use hol_just::{Goal, Just, Rule, Step, lemma, named, step, sub};
use hol_model::Fault;
use hol_terms::Term;
use std::alloc::Global;

/// What a rule draws from nothing.
pub(crate) fn by_none(alloc: Global, rule: Rule) -> Result<Just, Fault>
    ensures { Makes result (by_rule rule no_parts) }
{
    step(alloc, rule, &[])
}

/// What a rule draws from one premise. Refused: Memory.
pub fn by_one(alloc: Global, rule: Rule, part: Just) -> Result<Just, Fault>
    ensures { (t : Justification) → tree_of part ≡ t → is_shallow t ≡ true → Makes result (by_rule rule (one_part t)) }
{
    let parts = [part];
    step(alloc, rule, &parts)
}

/// What a rule draws from two premises. Refused: Memory.
pub fn by_two(alloc: Global, rule: Rule, first: Just, second: Just) -> Result<Just, Fault>
    ensures { (t u : Justification) → tree_of first ≡ t → tree_of second ≡ u → is_shallow t ≡ true → is_shallow u ≡ true → Makes result (by_rule rule (two_parts t u)) }
{
    let parts = [first, second];
    step(alloc, rule, &parts)
}

/// What a rule draws from three premises.
pub(crate) fn by_three(
    alloc: Global,
    rule: Rule,
    first: Just,
    second: Just,
    third: Just,
) -> Result<Just, Fault>
    ensures { (t u v : Justification) → tree_of first ≡ t → tree_of second ≡ u → tree_of third ≡ v
        → MakesOver (t ∷ u ∷ v ∷ []) result (by_rule rule (three_parts t u v)) }
{
    let parts = [first, second, third];
    step(alloc, rule, &parts)
}

// Both, where both were made.
fn both(first: Result<Just, Fault>, second: Result<Just, Fault>) -> Result<(Just, Just), Fault>
    ensures { (t u : Justification) → Makes first t → Makes second u → MakesBoth result t u }
{
    match first {
        Ok(first) => match second {
            Ok(second) => Ok((first, second)),
            Err(fault) => {
                drop(first);
                Err(fault)
            }
        },
        Err(fault) => {
            drop(second);
            Err(fault)
        }
    }
}

/// What a rule draws from a premise, where that was made.
pub(crate) fn from_one(alloc: Global, rule: Rule, part: Result<Just, Fault>) -> Result<Just, Fault>
    ensures { (t : Justification) → Makes part t → is_shallow t ≡ true → Makes result (by_rule rule (one_part t)) }
{
    match part {
        Ok(part) => by_one(alloc, rule, part),
        Err(fault) => {
            drop(rule);
            Err(fault)
        }
    }
}

/// What a rule draws from two premises, where both were made.
pub(crate) fn from_two(
    alloc: Global,
    rule: Rule,
    first: Result<Just, Fault>,
    second: Result<Just, Fault>,
) -> Result<Just, Fault>
    ensures { (t u : Justification) → Makes first t → Makes second u → is_shallow t ≡ true → is_shallow u ≡ true → Makes result (by_rule rule (two_parts t u)) }
{
    match both(first, second) {
        Ok((first, second)) => by_two(alloc, rule, first, second),
        Err(fault) => {
            drop(rule);
            Err(fault)
        }
    }
}

/// The subgoal of this number.
pub(crate) fn subgoal(alloc: Global, number: usize) -> Result<Just, Fault>
    ensures { Makes result (trees.sub number) }
{
    sub(alloc, number)
}

/// The stored theorem of this name.
pub(crate) fn stored_theorem(alloc: Global, name: &str) -> Result<Just, Fault>
    ensures { Makes result (trees.named name.now) }
{
    named(alloc, name)
}

/// The lemma of this number.
pub(crate) fn stored_lemma(alloc: Global, number: usize) -> Result<Just, Fault>
    ensures { Makes result (trees.lemma number) }
{
    lemma(alloc, number)
}

/// What DISJ_CASES draws from a stored theorem and both subgoals.
pub(crate) fn by_disj_cases(alloc: Global, name: &str) -> Result<Just, Fault>
    ensures { Makes result (by_rule rules.DisjCases (three_parts (trees.named name.now) from_first from_second)) }
{
    let theorem = named(alloc, name)?;
    let first = sub(alloc, 0)?;
    let second = sub(alloc, 1)?;
    by_three(alloc, Rule::DisjCases, theorem, first, second)
}

/// The goal's assumptions, with another target.
#[tactic(auto, using(crate::proofs::Goals::toward_made))]
fn toward(alloc: Global, goal: &Goal, target: &Term) -> Result<Goal, Fault>
    ensures ok { IfOk result (λ made. (c : Conclusion) → IsConclusion c target.now → IsGoal (from_assumptions (goal_of goal.now).assumptions [] c) (goal_of made)) }
    ensures err { IfErr result (λ fault. fault ≡ Memory) }
{
    goal.with_concl(alloc, target)
}

/// The goal's assumptions and one more behind them, with this target.
#[tactic(auto, using(crate::proofs::Goals::assuming_made))]
pub(crate) fn assuming(
    alloc: Global,
    goal: &Goal,
    added: &Term,
    target: &Term,
) -> Result<Goal, Fault>
    ensures ok { IfOk result (λ made. (c d : Conclusion) → IsConclusion c added.now → IsConclusion d target.now
        → IsGoal (from_assumptions (goal_of goal.now).assumptions (c ∷ []) d) (goal_of made)) }
    ensures err { IfErr result (λ fault. fault ≡ Memory) }
{
    let mut subgoal = goal.with_concl(alloc, target)?;
    subgoal.asms.push(added.copy(alloc)?)?;
    Ok(subgoal)
}

/// A step that closes the goal. Refused: Memory.
pub fn closed(alloc: Global, just: Just) -> Result<Step, Fault>
    ensures { (t : Justification) → tree_of just ≡ t → AnswersStep (leaves [] t) (step_in result) }
{
    Ok(Step {
        goals: Vec::new(alloc),
        just,
    })
}

/// A step to one subgoal.
pub(crate) fn to_one(alloc: Global, goal: Goal, just: Just) -> Result<Step, Fault>
    ensures { (s : StatedGoal) (t : Justification) → IsGoal s (goal_of goal) → tree_of just ≡ t → AnswersStep (leaves (s ∷ []) t) (step_in result) }
{
    let mut goals = Vec::new(alloc);
    goals.push(goal)?;
    Ok(Step { goals, just })
}

/// A step to two subgoals.
pub(crate) fn to_two(alloc: Global, first: Goal, second: Goal, just: Just) -> Result<Step, Fault>
    ensures { (s r : StatedGoal) (t : Justification) → IsGoal s (goal_of first) → IsGoal r (goal_of second) → tree_of just ≡ t → AnswersStep (leaves (s ∷ r ∷ []) t) (step_in result) }
{
    let mut goals = Vec::new(alloc);
    goals.push(first)?;
    goals.push(second)?;
    Ok(Step { goals, just })
}

/// A step by a rule without premises.
pub(crate) fn by_itself(alloc: Global, rule: Rule) -> Result<Step, Fault>
    ensures { AnswersStep (leaves [] (by_rule rule no_parts)) (step_in result) }
{
    let just = by_none(alloc, rule)?;
    closed(alloc, just)
}

/// A step to a subgoal with a target that is as stated.
pub(crate) fn to_stated(
    alloc: Global,
    goal: &Goal,
    target: &Term,
    just: Just,
) -> Result<Step, Fault>
    ensures { (c : Conclusion) (t : Justification) → IsConclusion c target.now → tree_of just ≡ t → AnswersStep (leaves (refiners.toward (goal_of goal.now) c ∷ []) t) (step_in result) }
{
    let subgoal = toward(alloc, goal, target)?;
    to_one(alloc, subgoal, just)
}

/// A step to a subgoal with this target. Refused: Memory.
pub fn to_target(alloc: Global, goal: &Goal, target: &Term, just: Just) -> Result<Step, Fault>
    ensures { (t : Justification) → tree_of just ≡ t → AnswersStep (leaves (refiners.toward (goal_of goal.now) (named target.now) ∷ []) t) (step_in result) }
{
    to_stated(alloc, goal, target, just)
}

/// A step to subgoals with these targets.
pub(crate) fn to_targets(
    alloc: Global,
    goal: &Goal,
    left: &Term,
    right: &Term,
    just: Just,
) -> Result<Step, Fault>
    ensures { (t : Justification) → tree_of just ≡ t → AnswersStep (leaves (two_targets (goal_of goal.now) left.now right.now) t) (step_in result) }
{
    let first = toward(alloc, goal, left)?;
    let second = toward(alloc, goal, right)?;
    to_two(alloc, first, second, just)
}

/// A step to a subgoal with this target, and with one more assumption that is as stated.
pub(crate) fn to_assuming(
    alloc: Global,
    goal: &Goal,
    added: &Term,
    target: &Term,
    just: Just,
) -> Result<Step, Fault>
    ensures { (c : Conclusion) (t : Justification) → IsConclusion c added.now → tree_of just ≡ t → AnswersStep (leaves
        (from_assumptions (goal_of goal.now).assumptions (c ∷ []) (named target.now) ∷ []) t) (step_in result) }
{
    let subgoal = assuming(alloc, goal, added, target)?;
    to_one(alloc, subgoal, just)
}
