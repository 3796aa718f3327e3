// EXISTS_TAC of witnesses that are found by matching.

use hol_host::HostFail;
use hol_just::{Goal, Step};
use hol_model::Fault;
use hol_tactics_forms::{
    Derivation, Formula, copy_terms, dest_formula, goal_frees, instance, open_binder, push_copy,
    sub, to_one, value_of, with_value,
};
use hol_terms::Term;
use std::alloc::Global;

/// EXISTS_TAC of each variable: on `?x.. p`, the subgoal `p` at the terms for which a conjunct of `p` is an assumption, the last one
/// for which there are such terms for all the variables. Else it fails.
pub fn exists(alloc: Global, goal: &Goal) -> Result<Step, HostFail> {
    let wanted = Wanted::new(alloc, goal)?;
    if wanted.variables.is_empty() {
        return Err(HostFail::Failed);
    }
    match wanted.found(alloc, &goal.asms)? {
        Some(witnesses) => by_witnesses(alloc, goal, &witnesses),
        None => Err(HostFail::Failed),
    }
}

// The variables for which a goal wants witnesses, and the conjuncts that speak of them.
#[derive(Drop)]
struct Wanted {
    variables: Vec<Term>,
    conjuncts: Vec<Term>,
    // The free variables of the goal.
    fixed: Vec<Term>,
}

impl Wanted {
    // What a goal wants.
    fn new(alloc: Global, goal: &Goal) -> Result<Wanted, Fault> {
        let mut wanted = Wanted {
            variables: Vec::new(alloc),
            conjuncts: Vec::new(alloc),
            fixed: goal_frees(alloc, goal)?,
        };
        let body = wanted.opened(alloc, &goal.concl)?;
        add_conjuncts(alloc, &body, &mut wanted.conjuncts)?;
        Ok(wanted)
    }

    // The formula without its outermost quantifiers, whose variables are wanted.
    fn opened(&mut self, alloc: Global, formula: &Term) -> Result<Term, Fault> {
        let mut avoid = copy_terms(alloc, &self.fixed)?;
        let mut body = formula.copy(alloc)?;
        for _ in 0..formula.height() {
            let Formula::Exists(variable, inner) = dest_formula(&body) else {
                break;
            };
            let (fresh, inner) = open_binder(alloc, &mut avoid, variable, inner)?;
            self.variables.push(fresh)?;
            body = inner;
        }
        Ok(body)
    }

    // The witnesses at which a conjunct is one of the formulas, the last one that there is.
    fn found(&self, alloc: Global, formulas: &[Term]) -> Result<Option<Vec<Term>>, Fault> {
        for formula in formulas.iter().rev() {
            if let Some(witnesses) = self.witnesses(alloc, formula)? {
                return Ok(Some(witnesses));
            }
        }
        Ok(None)
    }

    // The witnesses at which a conjunct is the formula.
    fn witnesses(&self, alloc: Global, formula: &Term) -> Result<Option<Vec<Term>>, Fault> {
        for conjunct in &self.conjuncts {
            if let Some(witnesses) = self.matched(alloc, conjunct, formula)? {
                return Ok(Some(witnesses));
            }
        }
        Ok(None)
    }

    // The same of one conjunct.
    fn matched(
        &self,
        alloc: Global,
        conjunct: &Term,
        formula: &Term,
    ) -> Result<Option<Vec<Term>>, Fault> {
        match instance(alloc, &self.fixed, conjunct, formula)? {
            Some(terms) => values_of(alloc, &self.variables, &terms),
            None => Ok(None),
        }
    }
}

// Adds the conjuncts of a formula, from left to right.
fn add_conjuncts(alloc: Global, formula: &Term, conjuncts: &mut Vec<Term>) -> Result<(), Fault> {
    let mut rest: Vec<&Term> = Vec::new(alloc);
    rest.push(formula)?;
    for _ in 0..formula.nodes() {
        let Some(next) = rest.pop() else {
            break;
        };
        match dest_formula(next) {
            Formula::And(left, right) => {
                rest.push(right)?;
                rest.push(left)?;
            }
            _ => push_copy(alloc, next, conjuncts)?,
        }
    }
    Ok(())
}

// What is put for variables in pairs (new, old), where something is put for each.
fn values_of(
    alloc: Global,
    variables: &[Term],
    terms: &[(Term, Term)],
) -> Result<Option<Vec<Term>>, Fault> {
    let mut values = Vec::new(alloc);
    for variable in variables {
        let Some(value) = value_of(terms, variable) else {
            return Ok(None);
        };
        push_copy(alloc, value, &mut values)?;
    }
    Ok(Some(values))
}

// The step to the body of the goal's quantifiers at these witnesses.
fn by_witnesses(alloc: Global, goal: &Goal, witnesses: &[Term]) -> Result<Step, HostFail> {
    let mut formulas = Vec::new(alloc);
    let mut body = goal.concl.copy(alloc)?;
    for witness in witnesses {
        push_copy(alloc, &body, &mut formulas)?;
        body = instantiated(alloc, &body, witness)?;
    }
    let just = witnessed(alloc, &formulas, witnesses);
    to_one(alloc, goal.with_concl(alloc, &body), just)
}

// The body of an existential formula at a witness.
fn instantiated(alloc: Global, formula: &Term, witness: &Term) -> Result<Term, HostFail> {
    match dest_formula(formula) {
        Formula::Exists(variable, body) => Ok(with_value(alloc, witness, variable, body)?),
        _ => Err(HostFail::Failed),
    }
}

// The first of existential formulas, each the body of the one before it, at these witnesses, of the subgoal.
fn witnessed(alloc: Global, formulas: &[Term], witnesses: &[Term]) -> Derivation {
    let mut just = sub(alloc, 0);
    for (formula, witness) in formulas.iter().zip(witnesses).rev() {
        just = hol_tactics_forms::exists(alloc, formula, witness, just);
    }
    just
}
