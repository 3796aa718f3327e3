// The refiners of the table that take a quantifier away.
ghost use Rattle.std.specs.Prelude.{◌≡◌, [], ◌∷◌, Some, true, IsTrue};
ghost use Rattle.std.specs.Option.{option_map};
ghost use Rattle.hol_model.specs.Terms.Name.{is_identifier};
ghost use Rattle.hol_model.specs.Terms.NamedTerm.{variable, type_of};
ghost use Rattle.hol_model.specs.Derived.DerivedRules as spec;
ghost use Rattle.hol_model.specs.declared.rule.Rule.TheVariants as rules;
ghost use Rattle.hol_model.specs.Goals.Justifications as trees;
ghost use Rattle.hol_model.specs.Goals.Justifications.{by_rule};
ghost use Rattle.hol_model.specs.Goals.Replays.{Store};
ghost use Rattle.hol_model.specs.Refining.Refiners as refiners;
ghost use Rattle.hol_model.specs.Refining.Refiners.{one_part, two_parts, from_first};
ghost use Rattle.hol_just.specs.Steps.{goal_of};
ghost use Rattle.hol_refine.specs.TableAnswers.{step_in, AnswersLeaf, AnswersNamedLeaf, AnswersStep, AnswersRow, Makes, abstracted};
ghost use Rattle.hol_refine.specs.Rows as stated;

use crate::assumed::are_assumed;
use crate::cited::Cited;
use crate::making::{from_one, from_two, stored_theorem, subgoal, to_assuming, to_stated};
use crate::names::{fresh_name, fresh_name_beside};
use crate::quantified::{Quantified, instance, quantified_parts, renamed, variable_of};
use hol_just::{Goal, Just, Rule, Step};
use hol_kernel::{Theory, Thm};
use hol_model::Fault;
use hol_terms::Term;
use hol_types::Ty;
use std::alloc::Global;

// What EXISTS draws from the first subgoal.
fn by_exists(alloc: Global, formula: &Term, witness: &Term) -> Result<Just, Fault>
    ensures { Makes result (by_rule (rules.Exists formula.now witness.now) (one_part from_first)) }
{
    let formula = formula.copy(alloc)?;
    let witness = witness.copy(alloc)?;
    from_one(alloc, Rule::Exists(formula, witness), subgoal(alloc, 0))
}

// The body with the witness for the variable.
fn witnessed(
    alloc: Global,
    goal: &Goal,
    witness: &Term,
    parts: Quantified<'_>,
) -> Result<Step, Fault>
    requires named { is_identifier parts.name.now ≡ true }
    requires typed { type_of witness.now ≡ Some parts.ty.now }
    ensures { AnswersStep (stated.witnessed (goal_of goal.now) (abstracted parts.entry.name.now parts.entry.ty.now parts.entry.body.now) witness.now) (step_in result) }
{
    let instance = instance(alloc, parts, witness)?;
    let just = by_exists(alloc, &goal.concl, witness)?;
    to_stated(alloc, goal, &instance, just)
}

// Whether the term is of this type.
#[tactic(auto, using(crate::proofs::Fitting::of_type))]
fn is_of_type(ty: &Ty, term: &Term) -> bool
    ensures test { result ≡ spec.is_of_type ty.now term.now }
    ensures typed { IsTrue result → type_of term.now ≡ Some ty.now }
{
    term.ty().eq(ty)
}

/// `?x. p` becomes `p` with the witness for `x`.
pub(crate) fn exists_tac(alloc: Global, witness: &Term, goal: &Goal) -> Result<Step, Fault>
    ensures { AnswersRow (refiners.exists_tac witness.now) (goal_of goal.now) (step_in result) }
{
    match quantified_parts(&goal.concl, "?") {
        Some(parts) => {
            if !is_of_type(parts.ty, witness) {
                return Err(Fault::TypeMismatch);
            }
            witnessed(alloc, goal, witness, parts)
        }
        None => Err(Fault::BadShape),
    }
}

// What GEN draws from the first subgoal.
fn by_gen(alloc: Global, name: &str, ty: &Ty) -> Result<Just, Fault>
    requires { is_identifier name.now ≡ true }
    ensures { Makes result (by_rule (rules.Gen (variable name.now ty.now)) (one_part from_first)) }
{
    let variable = variable_of(alloc, name, ty)?;
    from_one(alloc, Rule::Gen(variable), subgoal(alloc, 0))
}

// The body with a new variable.
fn generalized(
    alloc: Global,
    goal: &Goal,
    parts: Quantified<'_>,
    fresh: &str,
) -> Result<Step, Fault>
    requires named { is_identifier parts.name.now ≡ true }
    requires fresh { is_identifier fresh.now ≡ true }
    ensures { AnswersStep (stated.generalized (goal_of goal.now) (abstracted parts.entry.name.now parts.entry.ty.now parts.entry.body.now) fresh.now) (step_in result) }
{
    let instance = renamed(alloc, parts, fresh)?;
    let just = by_gen(alloc, fresh, parts.ty)?;
    to_stated(alloc, goal, &instance, just)
}

/// `!x. p` becomes `p` with a new variable for `x`.
#[tactic(auto, using(crate::proofs::FreshAnswers::gen_answers, crate::proofs::FreshAnswers::gen_refused, crate::proofs::FreshAnswers::leaf_memory))]
pub(crate) fn gen_tac(alloc: Global, theory: &Theory, goal: &Goal) -> Result<Step, Fault>
    ensures { (store : Store) → AnswersLeaf theory.now store refiners.gen_tac (goal_of goal.now) (step_in result) }
{
    match quantified_parts(&goal.concl, "!") {
        Some(parts) => {
            let fresh = fresh_name(alloc, theory, goal, parts.name)?;
            generalized(alloc, goal, parts, fresh.as_str())
        }
        None => Err(Fault::BadShape),
    }
}

// What CHOOSE draws from the theorem of this name and the first subgoal.
fn by_choose(alloc: Global, theorem: &str, name: &str, ty: &Ty) -> Result<Just, Fault>
    requires { is_identifier name.now ≡ true }
    ensures { Makes result (by_rule (rules.Choose (variable name.now ty.now)) (two_parts (trees.named theorem.now) from_first)) }
{
    let variable = variable_of(alloc, name, ty)?;
    from_two(
        alloc,
        Rule::Choose(variable),
        stored_theorem(alloc, theorem),
        subgoal(alloc, 0),
    )
}

// The goal, with the body of the theorem's conclusion assumed of a new variable.
fn chosen(
    alloc: Global,
    goal: &Goal,
    theorem: &str,
    parts: Quantified<'_>,
    fresh: &str,
) -> Result<Step, Fault>
    requires named { is_identifier parts.name.now ≡ true }
    requires fresh { is_identifier fresh.now ≡ true }
    ensures { AnswersStep (stated.chosen (goal_of goal.now) theorem.now (abstracted parts.entry.name.now parts.entry.ty.now parts.entry.body.now) fresh.now) (step_in result) }
{
    let instance = renamed(alloc, parts, fresh)?;
    let just = by_choose(alloc, theorem, fresh, parts.ty)?;
    to_assuming(alloc, goal, &instance, &goal.concl, just)
}

// The same of this theorem.
#[tactic(auto, using(crate::proofs::FreshAnswers::leaf_memory))]
fn chosen_from(
    alloc: Global,
    theory: &Theory,
    name: &str,
    theorem: &Thm,
    goal: &Goal,
) -> Result<Step, Fault>
    ensures { (store : Store) → store.named name.now ≡ Some theorem.now → AnswersLeaf theory.now store (refiners.choose_tac name.now) (goal_of goal.now) (step_in result) }
{
    let hypotheses = theorem.hyps();
    let conclusion = theorem.concl();
    match quantified_parts(conclusion, "?") {
        Some(parts) => {
            if !are_assumed(hypotheses, goal) {
                return Err(Fault::RefineFails);
            }
            let fresh = fresh_name_beside(alloc, theory, goal, parts.ty, conclusion, parts.name)?;
            chosen(alloc, goal, name, parts, fresh.as_str())
        }
        None => Err(Fault::BadShape),
    }
}

/// The theorem's conclusion is `?x. p`: the goal with `p` assumed of a new variable for `x`.
#[tactic(auto, using(crate::proofs::FreshAnswers::choose_unknown))]
pub(crate) fn choose_tac(
    alloc: Global,
    theory: &Theory,
    cited: Cited<'_>,
    goal: &Goal,
) -> Result<Step, Fault>
    ensures { AnswersNamedLeaf theory.now (refiners.choose_tac cited.entry.name.now) cited.entry.name.now (option_map (λ t. t.now) cited.entry.theorem) (goal_of goal.now) (step_in result) }
{
    match cited.theorem {
        Some(theorem) => chosen_from(alloc, theory, cited.name, theorem, goal),
        None => Err(Fault::UnknownName),
    }
}
