// The table: which row answers for a refiner.
ghost use Rattle.std.specs.Prelude.{◌≡◌, true};
ghost use Rattle.hol_model.specs.Logic.Theory.{IsLegal};
ghost use Rattle.hol_model.specs.Goals.Replays.{IsKnownGoal};
ghost use Rattle.hol_model.specs.Refining.Refiners.{is_in_table};
ghost use Rattle.hol_tactic_exprs.specs.Expressions.{leaf_of};
ghost use Rattle.hol_just.specs.Steps.{goal_of};
ghost use Rattle.hol_theorem_store.specs.Store.{stored_of};
ghost use Rattle.hol_theorem_store.specs.Stored.{theorems_in};
ghost use Rattle.hol_refine.specs.TableAnswers.{step_in, AnswersLeaf};

use crate::cited::cite;
use crate::implications::{eq_tac, mp_tac, undisch_tac};
use crate::quantifiers::{choose_tac, exists_tac, gen_tac};
use crate::rows::{
    all_tac, assumption_tac, conj_tac, disch_tac, disj1_tac, disj2_tac, no_tac, refl_tac,
};
use crate::theorems::{accept_tac, assume_tac, disj_cases_tac};
use hol_just::{Goal, Step};
use hol_kernel::Theory;
use hol_model::Fault;
use hol_tactic_exprs::Leaf;
use hol_terms::Term;
use hol_theorem_store::Store;
use std::alloc::Global;

/// What a refiner leaves of the goal, with its justification (HOL Light's tactics.ml; CONV_TAC, REWRITE_TAC and TAUT_TAC,
/// which prove a theorem on the way, are not in this table). Refused, in this order: UnknownName where a name stands for no
/// stored theorem; BadShape where the target, or the conclusion of the theorem of DISJ_CASES_TAC and CHOOSE_TAC, has another
/// form; TypeMismatch for a witness of another type; RefineFails where a test fails (NO_TAC always; in ACCEPT_TAC the
/// conclusion before the hypotheses); TooLarge where a new term passes the limits; and Memory.
pub fn leaf_step(
    alloc: Global,
    theory: &Theory,
    store: &Store,
    leaf: &Leaf<Term>,
    goal: &Goal,
) -> Result<Step, Fault>
    requires table { is_in_table (leaf_of leaf.now) ≡ true }
    requires legal { IsLegal theory.now }
    requires known { IsKnownGoal theory.now (goal_of goal.now) }
    ensures { AnswersLeaf theory.now (theorems_in (stored_of store.now)) (leaf_of leaf.now) (goal_of goal.now) (step_in result) }
{
    match leaf {
        Leaf::All => all_tac(alloc, goal),
        Leaf::No => no_tac(),
        Leaf::Accept(name) => accept_tac(alloc, cite(store, name), goal),
        Leaf::Assumption => assumption_tac(alloc, goal),
        Leaf::Assume(name) => assume_tac(alloc, cite(store, name), goal),
        Leaf::Refl => refl_tac(alloc, goal),
        Leaf::Conj => conj_tac(alloc, goal),
        Leaf::Eq => eq_tac(alloc, goal),
        Leaf::Disj1 => disj1_tac(alloc, goal),
        Leaf::Disj2 => disj2_tac(alloc, goal),
        Leaf::Disch => disch_tac(alloc, goal),
        Leaf::Gen => gen_tac(alloc, theory, goal),
        Leaf::Exists(witness) => exists_tac(alloc, witness, goal),
        Leaf::Mp(name) => mp_tac(alloc, cite(store, name), goal),
        Leaf::DisjCases(name) => disj_cases_tac(alloc, cite(store, name), goal),
        Leaf::Choose(name) => choose_tac(alloc, theory, cite(store, name), goal),
        Leaf::Undisch(p) => undisch_tac(alloc, p, goal),
        Leaf::Conv(_) | Leaf::Rewrite(_) | Leaf::Taut => unreachable!(),
    }
}
