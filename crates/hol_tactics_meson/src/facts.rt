// Formulas that are proved, or whose negations are, and what follows from them.

use crate::witnesses::{Quantified, Supposed};
use hol_host::HostFail;
use hol_just::Just;
use hol_model::Fault;
use hol_tactics_forms::{
    Derivation, Formula, assume, ccontr, conj, conjunct1, conjunct2, contr, contradiction,
    deduct_antisym, dest_formula, disch, disj_cases, disj1, disj2, eq_mp, exists, mk_neg, mp,
    prove_hyp, refute, spec, sym,
};
use hol_terms::Term;
use std::alloc::Global;

/// A formula that is proved if it is positive; else its negation is.
#[derive(Drop)]
pub struct Fact {
    pub just: Just,
    pub formula: Term,
    pub positive: bool,
}

// The formula, or its negation.
fn literal(alloc: Global, formula: &Term, positive: bool) -> Result<Term, Fault> {
    if positive {
        return formula.copy(alloc);
    }
    mk_neg(alloc, formula)
}

/// The formula, or its negation, assumed.
pub fn assumed(alloc: Global, formula: &Term, positive: bool) -> Derivation {
    let literal = literal(alloc, formula, positive)?;
    assume(alloc, &literal)
}

/// q, of p and `~p`, which are assumed.
pub fn by_absurdity(alloc: Global, p: &Term, q: &Term) -> Derivation {
    let absurd = contradiction(alloc, assumed(alloc, p, false), assume(alloc, p));
    contr(alloc, q, absurd)
}

// Of a denied formula and what gives it from a part, that the part fails.
fn part_fails(alloc: Global, denied: Derivation, part: &Term, formula: Derivation) -> Derivation {
    refute(alloc, part, contradiction(alloc, denied, formula))
}

impl Fact {
    fn new(
        alloc: Global,
        just: Derivation,
        formula: &Term,
        positive: bool,
    ) -> Result<Fact, HostFail> {
        let just = just?;
        let formula = formula.copy(alloc)?;
        Ok(Fact {
            just,
            formula,
            positive,
        })
    }

    /// What is assumed.
    pub fn assumed(alloc: Global, formula: &Term, positive: bool) -> Result<Fact, HostFail> {
        Fact::new(alloc, assumed(alloc, formula, positive), formula, positive)
    }

    /// `F`, of the fact and an assumption of the opposite.
    pub fn against_assumed(self, alloc: Global) -> Derivation {
        let opposite = assumed(alloc, &self.formula, !self.positive);
        if self.positive {
            contradiction(alloc, opposite, Ok(self.just))
        } else {
            contradiction(alloc, Ok(self.just), opposite)
        }
    }

    /// Of `~p`, that p fails; of `~ ~p`, that it holds.
    pub fn negated(self, alloc: Global, p: &Term) -> Result<Fact, HostFail> {
        if self.positive {
            return Fact::new(alloc, Ok(self.just), p, false);
        }
        let clash = contradiction(alloc, Ok(self.just), assume(alloc, &self.formula));
        Fact::new(alloc, ccontr(alloc, p, clash), p, true)
    }

    /// Of `!x. p`, or of `~(?x. p)`, what it says of a value.
    pub fn at_value(
        self,
        alloc: Global,
        of: Quantified<'_>,
        value: &Term,
    ) -> Result<Fact, HostFail> {
        let formula = of.body_at(alloc, value)?;
        let just = if self.positive {
            spec(alloc, value, Ok(self.just))
        } else {
            let some = exists(alloc, of.formula, value, assume(alloc, &formula));
            part_fails(alloc, Ok(self.just), &formula, some)
        };
        Fact::new(alloc, just, &formula, self.positive)
    }

    /// Of `?x. p`, or of `~(!x. p)`, what it says of a witness.
    pub fn at_witness(self, alloc: Global, supposed: &Supposed) -> Result<Fact, HostFail> {
        let body_at = &supposed.body_at;
        let implies = assume(alloc, &supposed.hypothesis);
        let just = if self.positive {
            mp(alloc, implies, Ok(self.just))
        } else {
            let all = mp(alloc, implies, assume(alloc, body_at));
            part_fails(alloc, Ok(self.just), body_at, all)
        };
        Fact::new(alloc, just, body_at, self.positive)
    }

    /// The first or the second of the facts that a conjunction, a denied disjunction or a denied implication is.
    pub fn side(self, alloc: Global, is_first: bool) -> Result<Fact, HostFail> {
        let Fact {
            just,
            formula,
            positive,
        } = self;
        let just = Ok(just);
        match (dest_formula(&formula), positive, is_first) {
            (Formula::And(p, _), true, true) => {
                Fact::new(alloc, conjunct1(alloc, just), p, true)
            }
            (Formula::And(_, q), true, false) => {
                Fact::new(alloc, conjunct2(alloc, just), q, true)
            }
            (Formula::Or(p, q), false, true) => {
                let either = disj1(alloc, assume(alloc, p), q);
                Fact::new(alloc, part_fails(alloc, just, p, either), p, false)
            }
            (Formula::Or(p, q), false, false) => {
                let either = disj2(alloc, p, assume(alloc, q));
                Fact::new(alloc, part_fails(alloc, just, q, either), q, false)
            }
            (Formula::Implies(p, q), false, true) => {
                let implies = disch(alloc, p, by_absurdity(alloc, p, q));
                let clash = contradiction(alloc, just, implies);
                Fact::new(alloc, ccontr(alloc, p, clash), p, true)
            }
            (Formula::Implies(p, q), false, false) => {
                let implies = disch(alloc, p, assume(alloc, q));
                Fact::new(alloc, part_fails(alloc, just, q, implies), q, false)
            }
            _ => Err(HostFail::Failed),
        }
    }
}

/// A formula, affirmed or denied, of which one of two alternatives holds. An equivalence has two such pairs: this is its first one or
/// its second one.
#[derive(Drop)]
pub struct Alternatives {
    fact: Fact,
    is_first: bool,
}

// What a connective joins.
fn sides(formula: &Term) -> Option<(&Term, &Term)> {
    match dest_formula(formula) {
        Formula::And(p, q) | Formula::Or(p, q) | Formula::Implies(p, q) | Formula::Iff(p, q) => {
            Some((p, q))
        }
        _ => None,
    }
}

impl Alternatives {
    /// The pair of alternatives of a fact, of an equivalence the first pair or the second.
    pub fn new(fact: Fact, is_first: bool) -> Alternatives {
        Alternatives { fact, is_first }
    }

    /// The first or the second alternative, assumed.
    pub fn assumed(&self, alloc: Global, is_left: bool) -> Result<Fact, HostFail> {
        let Some((p, q)) = sides(&self.fact.formula) else {
            return Err(HostFail::Failed);
        };
        let (left, right) = self.signs();
        if is_left {
            Fact::assumed(alloc, p, left)
        } else {
            Fact::assumed(alloc, q, right)
        }
    }

    // Whether each alternative is affirmed. Of `p \/ q` and of `~(p /\ q)` they are the parts; of `p ==> q` that p fails, or q; of
    // `p <=> q` first that p fails, or q, and then p, or that q fails; of `~(p <=> q)` first p or q, and then that p or q fails.
    fn signs(&self) -> (bool, bool) {
        let positive = self.fact.positive;
        match dest_formula(&self.fact.formula) {
            Formula::Implies(_, _) => (!positive, positive),
            Formula::Iff(_, _) => {
                let is_right = self.is_first;
                (is_right != positive, is_right)
            }
            _ => (positive, positive),
        }
    }

    /// `F`, of `F` from each alternative.
    pub fn refuted(self, alloc: Global, left: Derivation, right: Derivation) -> Derivation {
        let Alternatives {
            fact: Fact {
                just,
                formula,
                positive,
            },
            is_first,
        } = self;
        let just = Ok(just);
        match (dest_formula(&formula), positive, is_first) {
            (Formula::Or(_, _), true, _) => disj_cases(alloc, just, left, right),
            (Formula::And(p, q), false, _) => {
                let both = conj(alloc, ccontr(alloc, p, left), ccontr(alloc, q, right));
                contradiction(alloc, just, both)
            }
            (Formula::Implies(p, _), true, _) => {
                prove_hyp(alloc, mp(alloc, just, ccontr(alloc, p, left)), right)
            }
            (Formula::Iff(p, _), true, true) => {
                prove_hyp(alloc, eq_mp(alloc, just, ccontr(alloc, p, left)), right)
            }
            (Formula::Iff(_, q), true, false) => {
                let p = eq_mp(alloc, sym(alloc, just), assume(alloc, q));
                prove_hyp(alloc, refute(alloc, q, prove_hyp(alloc, p, left)), right)
            }
            (Formula::Iff(p, q), false, true) => {
                let equal = deduct_antisym(alloc, contr(alloc, p, right), contr(alloc, q, left));
                contradiction(alloc, just, equal)
            }
            (Formula::Iff(p, q), false, false) => {
                let equal = deduct_antisym(alloc, ccontr(alloc, p, left), ccontr(alloc, q, right));
                contradiction(alloc, just, equal)
            }
            _ => Err(HostFail::Failed),
        }
    }
}
