// MESON_TAC.

use crate::rebuilding::rebuilt;
use crate::reducing::reduce;
use crate::splitting::{add_part, spliced, split};
use hol_host::HostFail;
use hol_just::{Goal, Step};
use hol_tactics_forms::{
    Derivation, assume, ccontr, falsity, goal_frees, is_constant, mk_neg, named, refute, to_none,
    truth,
};
use hol_tactics_search::{COMPARISONS, Given, Problem, Symbol, add_equality, find_refutation};
use std::alloc::Global;

/// ASM_MESON_TAC: no subgoal, where the goal follows from its assumptions by first-order reasoning with equality. Theorems are brought
/// into the goal by MP_TAC. Redexes are reduced, as many as 2,000 in a formula. The goal is split into as many as 300. Of each the
/// assumptions and the denied conclusion are made to clauses, in which a witness stands for what there is, and refuted by model
/// elimination: by a first clause without affirmed literals, and each subgoal by one above it or by a clause, with iterative deepening
/// over 1 to 59 inferences, and 30,000,000 comparisons for all goals. Terms are first order: what is applied or abstracted is matched as
/// it stands. Where nothing is found it fails.
pub fn meson(alloc: Global, goal: &Goal) -> Result<Step, HostFail> {
    let reduced = reduce(alloc, goal)?;
    let mut parts = Vec::new(alloc);
    for goal in &reduced.goals {
        add_part(alloc, proved(alloc, goal), &mut parts)?;
    }
    to_none(alloc, spliced(alloc, &reduced, &parts))
}

// The justification of a goal without redexes.
fn proved(alloc: Global, goal: &Goal) -> Derivation {
    let split = split(alloc, goal)?;
    let mut parts = Vec::new(alloc);
    let mut comparisons = COMPARISONS;
    for goal in &split.goals {
        add_part(alloc, refuted(alloc, goal, &mut comparisons), &mut parts)?;
    }
    spliced(alloc, &split, &parts)
}

// The justification of a goal without subgoals.
fn refuted(alloc: Global, goal: &Goal, comparisons: &mut u32) -> Derivation {
    let mut problem = Problem::new(alloc);
    let falsity = falsity_of(alloc, goal, &mut problem, comparisons);
    ccontr(alloc, &goal.concl, falsity)
}

// `F`, from the assumptions and the denied conclusion.
fn falsity_of(
    alloc: Global,
    goal: &Goal,
    problem: &mut Problem,
    comparisons: &mut u32,
) -> Derivation {
    give_goal(alloc, problem, goal)?;
    let avoid = goal_frees(alloc, goal)?;
    let found = find_refutation(alloc, problem, comparisons)?;
    rebuilt(alloc, problem, &found, avoid)
}

// Adds the assumptions and the denied conclusion, with what holds of equality, of `T` and of `F`.
fn give_goal(alloc: Global, problem: &mut Problem, goal: &Goal) -> Result<(), HostFail> {
    for assumption in &goal.asms {
        problem.give(alloc, Given::assumed(assumption.copy(alloc)))?;
    }
    problem.give(alloc, Given::assumed(mk_neg(alloc, &goal.concl)))?;
    add_equality(alloc, problem)?;
    add_constants(alloc, problem)
}

// Adds that `T` holds and `F` does not, where they occur.
fn add_constants(alloc: Global, problem: &mut Problem) -> Result<(), HostFail> {
    if occurs(problem, "T") {
        let proof = named(alloc, "TRUTH");
        problem.give(alloc, Given::proved(truth(alloc), proof))?;
    }
    if occurs(problem, "F") {
        let falsity = falsity(alloc)?;
        let proof = refute(alloc, &falsity, assume(alloc, &falsity));
        problem.give(alloc, Given::proved(mk_neg(alloc, &falsity), proof))?;
    }
    Ok(())
}

// Whether the constant of this name is a symbol of the problem.
fn occurs(problem: &Problem, name: &str) -> bool {
    for symbol in problem.terms.symbols() {
        if let Symbol::Known { term, .. } = symbol {
            if is_constant(term, name) {
                return true;
            }
        }
    }
    false
}
