// The refiners of the table that make an implication.
ghost use Rattle.std.specs.Prelude.{◌≡◌, [], ◌∷◌, Some, true, IfOk, IfErr};
ghost use Rattle.std.specs.Option.{option_map};
ghost use Rattle.hol_model.specs.declared.fault.Fault.TheVariants.{Memory};
ghost use Rattle.hol_model.specs.Terms.HolType.{bool_type};
ghost use Rattle.hol_model.specs.Terms.NamedTerm.{NamedTerm, constant, type_of};
ghost use Rattle.hol_model.specs.Terms.Nameless.{image};
ghost use Rattle.hol_model.specs.Terms.Measures.{nameless_within_limits};
ghost use Rattle.hol_model.specs.Kernel.Rules.{dest_equation};
ghost use Rattle.hol_model.specs.Logic.Logic.{binary, implies_name};
ghost use Rattle.hol_model.specs.Logic.NamedLogic.{implication};
ghost use Rattle.hol_model.specs.Kernel.Theorem.{without_hypothesis};
ghost use Rattle.hol_model.specs.Goals.Justifications as trees;
ghost use Rattle.hol_model.specs.Goals.Achieving as achieving;
ghost use Rattle.hol_model.specs.Refining.Refiners as refiners;
ghost use Rattle.hol_just.specs.Steps.{goal_of};
ghost use Rattle.hol_refine.specs.TableAnswers.{step_in, AnswersStep, AnswersRow, AnswersNamedRow, Makes, AnswersImplication};
ghost use Rattle.hol_refine.specs.Rows as stated;

use crate::assumed::{are_assumed, is_assumed};
use crate::cited::Cited;
use crate::making::{from_one, from_two, stored_theorem, subgoal, to_one, to_target, to_targets};
use hol_alpha::aconv;
use hol_equal::equality::equation_parts;
use hol_just::{Goal, Just, Rule, Step};
use hol_model::Fault;
use hol_terms::Term;
use hol_types::Ty;
use std::alloc::Global;

// `==>`.
fn connective(alloc: Global) -> Result<Term, Fault>
    ensures ok { IfOk result (λ term. term ≡ constant implies_name binary) }
    ensures err { IfErr result (λ fault. fault ≡ Memory) }
{
    let boolean = Ty::boolean(alloc)?;
    let unary = Ty::fun(alloc, &boolean, &boolean)?;
    let binary = Ty::fun(alloc, &boolean, &unary)?;
    Term::mk_const(alloc, "==>", &binary)
}

// `p ==> q`.
fn implies(alloc: Global, p: &Term, q: &Term) -> Result<Term, Fault>
    ensures { type_of p.now ≡ Some bool_type → type_of q.now ≡ Some bool_type → AnswersImplication result p.now q.now }
{
    let connective = connective(alloc)?;
    let half = Term::mk_comb(alloc, &connective, p)?;
    Term::mk_comb(alloc, &half, q)
}

// The goal's target behind the conclusion of the theorem of this name.
fn implied(alloc: Global, name: &str, conclusion: &Term, goal: &Goal) -> Result<Step, Fault>
    ensures { type_of conclusion.now ≡ Some bool_type → type_of goal.now.concl ≡ Some bool_type → AnswersStep (stated.implied (goal_of goal.now) name.now conclusion.now) (step_in result) }
{
    let implication = implies(alloc, conclusion, &goal.concl)?;
    let just = from_two(
        alloc,
        Rule::Mp,
        subgoal(alloc, 0),
        stored_theorem(alloc, name),
    )?;
    to_target(alloc, goal, &implication, just)
}

/// `q` becomes `p ==> q`, `p` the theorem's conclusion.
pub(crate) fn mp_tac(alloc: Global, cited: Cited<'_>, goal: &Goal) -> Result<Step, Fault>
    requires { type_of goal.now.concl ≡ Some bool_type }
    ensures { AnswersNamedRow (refiners.mp_tac cited.entry.name.now) cited.entry.name.now (option_map (λ t. t.now) cited.entry.theorem) (goal_of goal.now) (step_in result) }
{
    match cited.theorem {
        Some(theorem) => {
            if !are_assumed(theorem.hyps(), goal) {
                return Err(Fault::RefineFails);
            }
            implied(alloc, cited.name, theorem.concl(), goal)
        }
        None => Err(Fault::UnknownName),
    }
}

// The terms without those that are alpha-equivalent to `p`.
fn without(alloc: Global, p: &Term, terms: &[Term]) -> Result<Vec<Term>, Fault>
    ensures ok { IfOk result (λ others. others.items ≡ without_hypothesis p.now terms.now) }
    ensures err { IfErr result (λ fault. fault ≡ Memory) }
{
    let mut others = Vec::new(alloc);
    for hypothesis in terms {
        if !aconv(hypothesis, p) {
            others.push(hypothesis.copy(alloc)?)?;
        }
    }
    Ok(others)
}

// The goal's target behind `p`, which is no longer assumed.
fn undischarged(alloc: Global, p: &Term, goal: &Goal) -> Result<Step, Fault>
    ensures { type_of p.now ≡ Some bool_type → type_of goal.now.concl ≡ Some bool_type → AnswersStep (stated.undischarged (goal_of goal.now) p.now) (step_in result) }
{
    let implication = implies(alloc, p, &goal.concl)?;
    let just = from_one(alloc, Rule::Undisch, subgoal(alloc, 0))?;
    let asms = without(alloc, p, &goal.asms)?;
    let subgoal = Goal {
        asms,
        concl: implication,
    };
    to_one(alloc, subgoal, just)
}

/// `q` becomes `p ==> q`, `p` no longer assumed.
pub(crate) fn undisch_tac(alloc: Global, p: &Term, goal: &Goal) -> Result<Step, Fault>
    requires target { type_of goal.now.concl ≡ Some bool_type }
    requires assumption { achieving.is_assumed p.now (goal_of goal.now) ≡ true → type_of p.now ≡ Some bool_type }
    ensures { AnswersRow (refiners.undisch_tac p.now) (goal_of goal.now) (step_in result) }
{
    if !is_assumed(p, goal) {
        return Err(Fault::RefineFails);
    }
    undischarged(alloc, p, goal)
}

// What DEDUCT_ANTISYM draws from both subgoals, each without its antecedent.
pub(crate) fn by_both_ways(alloc: Global) -> Result<Just, Fault>
    ensures { Makes result stated.by_both_ways }
{
    from_two(
        alloc,
        Rule::DeductAntisym,
        from_one(alloc, Rule::Undisch, subgoal(alloc, 1)),
        from_one(alloc, Rule::Undisch, subgoal(alloc, 0)),
    )
}

// The two implications as targets.
pub(crate) fn both_ways(
    alloc: Global,
    goal: &Goal,
    left: &Term,
    right: &Term,
) -> Result<Step, Fault>
    requires left { type_of left.now ≡ Some bool_type }
    requires right { type_of right.now ≡ Some bool_type }
    requires fits { nameless_within_limits (image (implication left.now right.now)) ≡ true }
    ensures { AnswersStep (stated.both_ways (goal_of goal.now) left.now right.now) (step_in result) }
{
    let there = implies(alloc, left, right)?;
    let back = implies(alloc, right, left)?;
    let just = by_both_ways(alloc)?;
    to_targets(alloc, goal, &there, &back, just)
}

/// `p <=> q` becomes `p ==> q`, and `q ==> p`.
pub(crate) fn eq_tac(alloc: Global, goal: &Goal) -> Result<Step, Fault>
    requires target { type_of goal.now.concl ≡ Some bool_type }
    requires sides { (p q : NamedTerm) → dest_equation goal.now.concl ≡ Some (p, q) → type_of p ≡ Some bool_type → type_of q ≡ Some bool_type }
    ensures { AnswersRow refiners.eq_tac (goal_of goal.now) (step_in result) }
{
    goal.concl.well_formed();
    match equation_parts(&goal.concl) {
        Some(sides) => {
            if !sides.left.ty().is_bool() {
                return Err(Fault::BadShape);
            }
            both_ways(alloc, goal, sides.left, sides.right)
        }
        None => Err(Fault::BadShape),
    }
}
