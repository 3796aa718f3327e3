// Formulas as rules to rewrite by.

use crate::basic::eqf_intro;
use crate::changed::{Conversion, changed_to};
use hol_alpha::aconv;
use hol_host::HostFail;
use hol_just::{Goal, Just};
use hol_model::Fault;
use hol_subst::vsubst;
use hol_tactics_forms::{
    Derivation, Formula, assume, conjunct1, conjunct2, copy_terms, dest_eq, dest_formula,
    eqt_intro, falsity, goal_frees, inst, instance, open_binder, spec, truth,
};
use hol_terms::Term;
use std::alloc::Global;

// How many connectives and quantifiers of a formula are taken apart.
const PARTS: u32 = 2000;

/// An equation to rewrite by, from left to right.
#[derive(Drop)]
pub(crate) struct Rewrite {
    left: Term,
    right: Term,
    just: Just,
}

// A formula, and why it holds.
#[derive(Drop)]
struct Fact {
    term: Term,
    just: Just,
}

/// Rules that are made of a goal's formulas.
#[derive(Drop)]
pub(crate) struct Rules {
    rewrites: Vec<Rewrite>,
    // The free variables of the goal, and with them those for which any terms may be put.
    fixed: Vec<Term>,
    avoid: Vec<Term>,
}

impl Rules {
    /// No rules.
    pub(crate) fn new(alloc: Global, goal: &Goal) -> Result<Rules, HostFail> {
        let fixed = goal_frees(alloc, goal)?;
        let avoid = copy_terms(alloc, &fixed)?;
        Ok(Rules {
            rewrites: Vec::new(alloc),
            fixed,
            avoid,
        })
    }

    /// The rules, and the variables for which they put nothing.
    pub(crate) fn into_parts(self) -> (Vec<Rewrite>, Vec<Term>) {
        let Rules {
            rewrites,
            fixed,
            ..
        } = self;
        (rewrites, fixed)
    }

    /// Adds the rules of formulas of the goal.
    pub(crate) fn add_all(&mut self, alloc: Global, formulas: &[Term]) -> Result<(), HostFail> {
        for formula in formulas {
            self.add(alloc, formula)?;
        }
        Ok(())
    }

    /// Adds the rules of a formula of the goal: those of both sides of a conjunction, those of the body of `!x. p` for any x; by
    /// `s = t` the left side becomes the right one, by `~p` the formula `p` becomes `F`, by another formula `p` it becomes `T`.
    pub(crate) fn add(&mut self, alloc: Global, formula: &Term) -> Result<(), HostFail> {
        let mut pending = Vec::new(alloc);
        push_fact(alloc, formula, assume(alloc, formula), &mut pending)?;
        for _ in 0..PARTS {
            let Some(fact) = pending.pop() else {
                return Ok(());
            };
            self.add_fact(alloc, fact, &mut pending)?;
        }
        Err(HostFail::Failed)
    }

    // Adds the rule of a fact, or puts its parts at the end of what is pending, the first one last.
    fn add_fact(
        &mut self,
        alloc: Global,
        fact: Fact,
        pending: &mut Vec<Fact>,
    ) -> Result<(), HostFail> {
        let Fact { term, just } = fact;
        match dest_formula(&term) {
            Formula::ForAll(variable, body) => {
                let (fresh, body) = open_binder(alloc, &mut self.avoid, variable, body)?;
                push_fact(alloc, &body, spec(alloc, &fresh, Ok(just)), pending)
            }
            Formula::And(p, q) => add_sides(alloc, p, q, just, pending),
            _ => self.add_rewrite(rewrite_of(alloc, &term, just)?),
        }
    }

    // A rule that would make a term of itself is left out.
    fn add_rewrite(&mut self, rewrite: Rewrite) -> Result<(), HostFail> {
        if !aconv(&rewrite.left, &rewrite.right) {
            self.rewrites.push(rewrite)?;
        }
        Ok(())
    }
}

fn push_fact(
    alloc: Global,
    term: &Term,
    just: Derivation,
    facts: &mut Vec<Fact>,
) -> Result<(), HostFail> {
    let just = just?;
    let term = term.copy(alloc)?;
    facts.push(Fact { term, just })?;
    Ok(())
}

// Both sides of a conjunction, the left one last.
fn add_sides(
    alloc: Global,
    p: &Term,
    q: &Term,
    both: Just,
    pending: &mut Vec<Fact>,
) -> Result<(), HostFail> {
    let other = both.copy(alloc)?;
    push_fact(alloc, q, conjunct2(alloc, Ok(other)), pending)?;
    push_fact(alloc, p, conjunct1(alloc, Ok(both)), pending)
}

// The rule of a formula that is neither a conjunction nor quantified.
fn rewrite_of(alloc: Global, term: &Term, just: Just) -> Result<Rewrite, HostFail> {
    if let Formula::Not(p) = dest_formula(term) {
        return rewrite_by(alloc, p, falsity(alloc), eqf_intro(alloc, p, Ok(just)));
    }
    match dest_eq(term) {
        Some((left, right)) => rewrite_by(alloc, left, right.copy(alloc), Ok(just)),
        None => rewrite_by(alloc, term, truth(alloc), eqt_intro(alloc, Ok(just))),
    }
}

// The rule by an equation of these sides.
fn rewrite_by(
    alloc: Global,
    left: &Term,
    right: Result<Term, Fault>,
    just: Derivation,
) -> Result<Rewrite, HostFail> {
    Ok(Rewrite {
        just: just?,
        right: right?,
        left: left.copy(alloc)?,
    })
}

/// The term by the first rule that changes it, with nothing put for the fixed variables.
pub(crate) fn first_instance(
    alloc: Global,
    rules: &[Rewrite],
    fixed: &[Term],
    term: &Term,
) -> Conversion {
    for rule in rules {
        if let Some(changed) = rule.instance(alloc, fixed, term)? {
            return Ok(Some(changed));
        }
    }
    Ok(None)
}

impl Rewrite {
    // The right side and the equation, where the left side becomes the term and the right side something else.
    fn instance(&self, alloc: Global, fixed: &[Term], term: &Term) -> Conversion {
        let Some(terms) = instance(alloc, fixed, &self.left, term)? else {
            return Ok(None);
        };
        let right = vsubst(alloc, &terms, &self.right)?;
        if aconv(term, &right) {
            return Ok(None);
        }
        changed_to(right, self.inst(alloc, terms))
    }

    // INST of the equation.
    fn inst(&self, alloc: Global, terms: Vec<(Term, Term)>) -> Derivation {
        let just = self.just.copy(alloc)?;
        if terms.is_empty() {
            return Ok(just);
        }
        inst(alloc, terms, Ok(just))
    }
}
