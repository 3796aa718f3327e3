// Justifications by rules under HOL Light's names, and by a few rules that are made of them. A rule takes its premises as they come,
// and passes on the first refusal among them.

use hol_host::HostFail;
use hol_just::{Just, Rule, step};
use hol_terms::Term;
use std::alloc::Global;

/// A justification, or why there is none.
pub type Derivation = Result<Just, HostFail>;

// By a rule without premises.
fn by_none(alloc: Global, rule: Rule) -> Derivation {
    Ok(step(alloc, rule, &[])?)
}

// By a rule from one premise.
fn by_one(alloc: Global, rule: Rule, premise: Derivation) -> Derivation {
    let premises = [premise?];
    Ok(step(alloc, rule, &premises)?)
}

// By a rule from two premises.
fn by_two(alloc: Global, rule: Rule, first: Derivation, second: Derivation) -> Derivation {
    let premises = [first?, second?];
    Ok(step(alloc, rule, &premises)?)
}

/// The subgoal of this number.
pub fn sub(alloc: Global, number: usize) -> Derivation {
    Ok(hol_just::sub(alloc, number)?)
}

/// The stored theorem of this name.
pub fn named(alloc: Global, name: &str) -> Derivation {
    Ok(hol_just::named(alloc, name)?)
}

/// REFL: `t = t`.
pub fn refl(alloc: Global, term: &Term) -> Derivation {
    by_none(alloc, Rule::Refl(term.copy(alloc)?))
}

/// BETA_CONV: of `(\x. t) s`, that it is `t[s/x]`.
pub fn beta_conv(alloc: Global, redex: &Term) -> Derivation {
    by_none(alloc, Rule::BetaConv(redex.copy(alloc)?))
}

/// ASSUME: `p |- p`.
pub fn assume(alloc: Global, p: &Term) -> Derivation {
    by_none(alloc, Rule::Assume(p.copy(alloc)?))
}

/// SYM: of `s = t`, `t = s`.
pub fn sym(alloc: Global, equation: Derivation) -> Derivation {
    by_one(alloc, Rule::Sym, equation)
}

/// TRANS: of `s = t` and `t = u`, `s = u`.
pub fn trans(alloc: Global, first: Derivation, second: Derivation) -> Derivation {
    by_two(alloc, Rule::Trans, first, second)
}

/// MK_COMB: of `f = g` and `x = y`, `f x = g y`.
pub fn mk_comb(alloc: Global, functions: Derivation, arguments: Derivation) -> Derivation {
    by_two(alloc, Rule::MkComb, functions, arguments)
}

/// ABS: of `s = t`, `(\x. s) = (\x. t)`.
pub fn abs(alloc: Global, variable: &Term, equation: Derivation) -> Derivation {
    by_one(alloc, Rule::Abs(variable.copy(alloc)?), equation)
}

/// EQ_MP: of `p <=> q` and `p`, `q`.
pub fn eq_mp(alloc: Global, equation: Derivation, premise: Derivation) -> Derivation {
    by_two(alloc, Rule::EqMp, equation, premise)
}

/// DEDUCT_ANTISYM_RULE: `p <=> q`, of `p` from the hypothesis `q` and `q` from the hypothesis `p`.
pub fn deduct_antisym(alloc: Global, back: Derivation, forth: Derivation) -> Derivation {
    by_two(alloc, Rule::DeductAntisym, back, forth)
}

/// EQT_INTRO: of `p`, `p <=> T`.
pub fn eqt_intro(alloc: Global, proved: Derivation) -> Derivation {
    by_one(alloc, Rule::EqtIntro, proved)
}

/// EQT_ELIM: of `p <=> T`, `p`.
pub fn eqt_elim(alloc: Global, equation: Derivation) -> Derivation {
    by_one(alloc, Rule::EqtElim, equation)
}

/// MP: of `p ==> q` and `p`, `q`.
pub fn mp(alloc: Global, implies: Derivation, premise: Derivation) -> Derivation {
    by_two(alloc, Rule::Mp, implies, premise)
}

/// DISCH: of `q`, `p ==> q` without the hypothesis `p`.
pub fn disch(alloc: Global, p: &Term, just: Derivation) -> Derivation {
    by_one(alloc, Rule::Disch(p.copy(alloc)?), just)
}

/// UNDISCH: of `p ==> q`, `q` from the hypothesis `p`.
pub fn undisch(alloc: Global, implies: Derivation) -> Derivation {
    by_one(alloc, Rule::Undisch, implies)
}

/// PROVE_HYP: the second one, without the hypothesis that the first one proves.
pub fn prove_hyp(alloc: Global, proved: Derivation, just: Derivation) -> Derivation {
    by_two(alloc, Rule::ProveHyp, proved, just)
}

/// CONJ: of `p` and `q`, `p /\ q`.
pub fn conj(alloc: Global, left: Derivation, right: Derivation) -> Derivation {
    by_two(alloc, Rule::Conj, left, right)
}

/// CONJUNCT1: of `p /\ q`, `p`.
pub fn conjunct1(alloc: Global, both: Derivation) -> Derivation {
    by_one(alloc, Rule::Conjunct1, both)
}

/// CONJUNCT2: of `p /\ q`, `q`.
pub fn conjunct2(alloc: Global, both: Derivation) -> Derivation {
    by_one(alloc, Rule::Conjunct2, both)
}

/// What follows from both sides of a conjunction, from the conjunction.
pub fn from_conjunction(alloc: Global, both: &Term, just: Derivation) -> Derivation {
    let just = prove_hyp(alloc, conjunct2(alloc, assume(alloc, both)), just);
    prove_hyp(alloc, conjunct1(alloc, assume(alloc, both)), just)
}

/// DISJ1: of `p`, `p \/ q`.
pub fn disj1(alloc: Global, left: Derivation, q: &Term) -> Derivation {
    by_one(alloc, Rule::Disj1(q.copy(alloc)?), left)
}

/// DISJ2: of `q`, `p \/ q`.
pub fn disj2(alloc: Global, p: &Term, right: Derivation) -> Derivation {
    by_one(alloc, Rule::Disj2(p.copy(alloc)?), right)
}

/// DISJ_CASES: of `p \/ q`, what follows from `p` and from `q`.
pub fn disj_cases(
    alloc: Global,
    either: Derivation,
    left: Derivation,
    right: Derivation,
) -> Derivation {
    let premises = [either?, left?, right?];
    Ok(step(alloc, Rule::DisjCases, &premises)?)
}

/// GEN: of `p`, `!x. p`.
pub fn generalize(alloc: Global, variable: &Term, just: Derivation) -> Derivation {
    by_one(alloc, Rule::Gen(variable.copy(alloc)?), just)
}

/// SPEC: of `!x. p`, `p[t/x]`.
pub fn spec(alloc: Global, term: &Term, all: Derivation) -> Derivation {
    by_one(alloc, Rule::Spec(term.copy(alloc)?), all)
}

/// INST: by pairs (new, old).
pub fn inst(alloc: Global, theta: Vec<(Term, Term)>, just: Derivation) -> Derivation {
    by_one(alloc, Rule::Inst(theta), just)
}

/// EXISTS: this formula, `?x. p`, of `p` at the witness.
pub fn exists(alloc: Global, formula: &Term, witness: &Term, just: Derivation) -> Derivation {
    let rule = Rule::Exists(formula.copy(alloc)?, witness.copy(alloc)?);
    by_one(alloc, rule, just)
}

/// CHOOSE: of `?x. p`, what follows from `p` at a variable that is in nothing else.
pub fn choose(alloc: Global, variable: &Term, some: Derivation, just: Derivation) -> Derivation {
    by_two(alloc, Rule::Choose(variable.copy(alloc)?), some, just)
}

/// NOT_ELIM: of `~p`, `p ==> F`.
pub fn not_elim(alloc: Global, denied: Derivation) -> Derivation {
    by_one(alloc, Rule::NotElim, denied)
}

/// NOT_INTRO: of `p ==> F`, `~p`.
pub fn not_intro(alloc: Global, implies: Derivation) -> Derivation {
    by_one(alloc, Rule::NotIntro, implies)
}

/// CONTR: of `F`, `p`.
pub fn contr(alloc: Global, p: &Term, falsity: Derivation) -> Derivation {
    by_one(alloc, Rule::Contr(p.copy(alloc)?), falsity)
}

/// `F`, of `~p` and `p`.
pub fn contradiction(alloc: Global, denied: Derivation, affirmed: Derivation) -> Derivation {
    mp(alloc, not_elim(alloc, denied), affirmed)
}

/// `~p`, of `F` from the hypothesis `p`.
pub fn refute(alloc: Global, p: &Term, falsity: Derivation) -> Derivation {
    not_intro(alloc, disch(alloc, p, falsity))
}

/// CCONTR: `p`, of `F` from the hypothesis `~p`.
pub fn ccontr(alloc: Global, p: &Term, falsity: Derivation) -> Derivation {
    let absurd = contr(alloc, p, falsity);
    disj_cases(alloc, excluded_middle(alloc, p), assume(alloc, p), absurd)
}

/// EXCLUDED_MIDDLE: `p \/ ~p`.
pub fn excluded_middle(alloc: Global, p: &Term) -> Derivation {
    spec(alloc, p, named(alloc, "EXCLUDED_MIDDLE"))
}
