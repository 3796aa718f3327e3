// Refiners and conversions with a step to find, to spoil, or to leave.
use hol_host::{Equated, HostFail};
use hol_just::{Goal, Just, Rule, Step, lemma, named, splice, step, sub};
use hol_model::Fault;
use hol_terms::{Term, mk_eq};
use std::alloc::Global;

/// On `p /\ p` without assumptions the subgoal `p`, once for both sides. Of other applications the step is wrong.
pub(crate) fn twin(alloc: Global, goal: &Goal) -> Result<Step, HostFail> {
    let Some((_, half)) = goal.concl.dest_comb() else {
        return Err(HostFail::Failed);
    };
    to_one(
        alloc,
        Vec::new(alloc),
        half.copy(alloc),
        twice(alloc, Rule::Conj),
    )
}

/// No step of any goal.
pub(crate) fn mute(_alloc: Global, _goal: &Goal) -> Result<Step, HostFail> {
    Err(HostFail::Failed)
}

/// No step of any goal, for want of memory.
pub(crate) fn starved(_alloc: Global, _goal: &Goal) -> Result<Step, HostFail> {
    Err(HostFail::Memory)
}

/// The step of the goal `T`, whatever the goal.
pub(crate) fn stranger(alloc: Global, _goal: &Goal) -> Result<Step, HostFail> {
    proved(alloc, named(alloc, "TRUTH"))
}

/// A subgoal that is no formula: `\x:bool. p` of p.
pub(crate) fn shapeless(alloc: Global, goal: &Goal) -> Result<Step, HostFail> {
    let formula = &goal.concl;
    let variable = Term::mk_var(alloc, "x", formula.ty())?;
    let predicate = Term::mk_abs(alloc, &variable, formula);
    to_one(alloc, Vec::new(alloc), predicate, sub(alloc, 0))
}

/// No subgoals, by the subgoal of number 0.
pub(crate) fn circular(alloc: Global, _goal: &Goal) -> Result<Step, HostFail> {
    proved(alloc, sub(alloc, 0))
}

/// The step of the goal `T` by a tree of more than 2^1000 nodes, which stand in some 4,000 lines.
pub(crate) fn shared(alloc: Global, _goal: &Goal) -> Result<Step, HostFail> {
    proved(alloc, doubled(alloc))
}

/// The step of the goal `T` by a tree whose depth is one past the limit: no step.
pub(crate) fn deep(alloc: Global, _goal: &Goal) -> Result<Step, HostFail> {
    proved(alloc, towering(alloc))
}

/// The subgoal of the same conclusion with the assumption `p` alone, whether the goal has that assumption or not.
pub(crate) fn presuming(alloc: Global, goal: &Goal) -> Result<Step, HostFail> {
    let formula = &goal.concl;
    let mut asms = Vec::new(alloc);
    asms.push(Term::mk_var(alloc, "p", formula.ty())?)?;
    to_one(alloc, asms, formula.copy(alloc), sub(alloc, 0))
}

/// The step of the goal `T`, with a subgoal that names a constant which no theory of these tests has.
pub(crate) fn foreign(alloc: Global, goal: &Goal) -> Result<Step, HostFail> {
    let unknown = Term::mk_const(alloc, "unknown", goal.concl.ty());
    to_one(alloc, Vec::new(alloc), unknown, named(alloc, "TRUTH"))
}

/// No subgoals, by a theorem that is not stored.
pub(crate) fn nameless(alloc: Global, _goal: &Goal) -> Result<Step, HostFail> {
    proved(alloc, named(alloc, "nobody"))
}

/// No subgoals, by a lemma that there is not.
pub(crate) fn without_lemma(alloc: Global, _goal: &Goal) -> Result<Step, HostFail> {
    proved(alloc, lemma(alloc, 1000))
}

/// The step of the goal `T` by a tree of 2^2000 - 1 nodes, as deep as a tree may be.
pub(crate) fn vast(alloc: Global, _goal: &Goal) -> Result<Step, HostFail> {
    proved(alloc, doubled_to_the_limit(alloc))
}

// The step without subgoals by a justification, where it was made.
fn proved(alloc: Global, just: Result<Just, Fault>) -> Result<Step, HostFail> {
    Ok(Step {
        goals: Vec::new(alloc),
        just: just?,
    })
}

// The step to one subgoal by a justification, where this and the subgoal's conclusion were made.
fn to_one(
    alloc: Global,
    asms: Vec<Term>,
    concl: Result<Term, Fault>,
    just: Result<Just, Fault>,
) -> Result<Step, HostFail> {
    let mut step = proved(alloc, just)?;
    step.goals.push(Goal {
        asms,
        concl: concl?,
    })?;
    Ok(step)
}

// A rule whose two premises are both the theorem of the one subgoal.
fn twice(alloc: Global, rule: Rule) -> Result<Just, Fault> {
    step(alloc, rule, &[sub(alloc, 0)?, sub(alloc, 0)?])
}

// `T`, by PROVE_HYP of a part with itself, 1,999 times.
fn doubled_to_the_limit(alloc: Global) -> Result<Just, Fault> {
    let layer = twice(alloc, Rule::ProveHyp)?;
    let once = repeated(alloc, &layer, named(alloc, "TRUTH")?)?;
    let twice = repeated(alloc, &layer, once)?;
    around(alloc, &layer, twice)
}

// `T`, by the first conjunct of CONJ of a part with itself, 999 times.
fn doubled(alloc: Global) -> Result<Just, Fault> {
    let first = step(alloc, Rule::Conjunct1, &[twice(alloc, Rule::Conj)?])?;
    repeated(alloc, &first, named(alloc, "TRUTH")?)
}

// `T`, by EQT_INTRO and EQT_ELIM, 1,000 times each.
fn towering(alloc: Global) -> Result<Just, Fault> {
    let eliminated = step(alloc, Rule::EqtElim, &[sub(alloc, 0)?])?;
    let introduced = step(alloc, Rule::EqtIntro, &[eliminated])?;
    let equation = step(alloc, Rule::EqtIntro, &[named(alloc, "TRUTH")?])?;
    let made = repeated(alloc, &introduced, equation)?;
    step(alloc, Rule::EqtElim, &[made])
}

// 999 layers over a justification, 37 of them in one.
fn repeated(alloc: Global, layer: &Just, inmost: Just) -> Result<Just, Fault> {
    let mut block = sub(alloc, 0)?;
    for _ in 0..37 {
        block = around(alloc, layer, block)?;
    }
    let mut made = inmost;
    for _ in 0..27 {
        made = around(alloc, &block, made)?;
    }
    Ok(made)
}

// A layer over a justification, which stands in it once.
fn around(alloc: Global, layer: &Just, just: Just) -> Result<Just, Fault> {
    let part = Step {
        goals: Vec::new(alloc),
        just,
    };
    splice(alloc, layer, &[part])
}

/// The term itself, by a theorem that is no equation of the two.
pub(crate) fn wrong(alloc: Global, term: &Term) -> Equated {
    Ok((term.copy(alloc)?, named(alloc, "TRUTH")?))
}

/// No equation of any term, for want of memory.
pub(crate) fn starved_conv(_alloc: Global, _term: &Term) -> Equated {
    Err(HostFail::Memory)
}

/// `T`, by the theorem that the formula equals itself.
pub(crate) fn twisted(alloc: Global, term: &Term) -> Equated {
    let just = step(alloc, Rule::Refl(term.copy(alloc)?), &[])?;
    Ok((truth(alloc, term)?, just))
}

/// `T`, by the assumption that the formula equals it.
pub(crate) fn guess(alloc: Global, term: &Term) -> Equated {
    let truth = truth(alloc, term)?;
    let equation = mk_eq(alloc, term, &truth)?;
    let just = step(alloc, Rule::Assume(equation), &[])?;
    Ok((truth, just))
}

/// `\y:A. y` of `\x:A. x`, by TRANS of the two reflexivities, and no answer of a term that binds another name.
pub(crate) fn renamed(alloc: Global, term: &Term) -> Equated {
    let Some((variable, _)) = term.dest_abs() else {
        return Err(HostFail::Failed);
    };
    if !is_named_x(variable) {
        return Err(HostFail::Failed);
    }
    let other = Term::mk_var(alloc, "y", variable.ty())?;
    let identity = Term::mk_abs(alloc, &other, &other)?;
    let left = step(alloc, Rule::Refl(term.copy(alloc)?), &[])?;
    let right = step(alloc, Rule::Refl(identity.copy(alloc)?), &[])?;
    let just = step(alloc, Rule::Trans, &[left, right])?;
    Ok((identity, just))
}

fn is_named_x(variable: &Term) -> bool {
    match variable.dest_var() {
        Some((name, _)) => name == "x",
        None => false,
    }
}

// `T`, of the type of a formula.
fn truth(alloc: Global, formula: &Term) -> Result<Term, Fault> {
    Term::mk_const(alloc, "T", formula.ty())
}
