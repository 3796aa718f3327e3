// MATCH_MP_TAC and MATCH_ACCEPT_TAC of the theorem that MP_TAC brought, and of assumptions.

use hol_host::HostFail;
use hol_just::{Goal, Just, Step};
use hol_model::Fault;
use hol_subst::vsubst;
use hol_tactics_forms::{
    Derivation, Formula, assume, choose, copy_terms, dest_formula, dest_imp, disch,
    from_conjunction, goal_frees, instance, mk_conj, mk_exists, mp, open_binder, prove_hyp,
    push_copy, spec, sub, to_none, to_one, value_of,
};
use hol_terms::Term;
use std::alloc::Global;

// How many antecedents of a rule are taken off.
const ANTECEDENTS: u32 = 100;

/// MATCH_MP_TAC: on `(!x.. p ==> !y.. q ==> r) ==> g`, where `g` is `r` at some terms for the variables, the subgoals `p` and `q`
/// at these terms, or one that says that there are values of the variables that `r` does not name for which they hold. At least
/// one antecedent is taken off, and no more than it needs. Else it fails.
pub fn back(alloc: Global, goal: &Goal) -> Result<Step, HostFail> {
    let Some((rule, wanted)) = dest_imp(&goal.concl) else {
        return Err(HostFail::Failed);
    };
    let Step { goals, just } = match_mp_tac(alloc, goal, rule, wanted)?;
    let just = disch(alloc, rule, Ok(just))?;
    Ok(Step { goals, just })
}

/// FIRST_ASSUM MATCH_MP_TAC: what `back` does to the goal, with the last assumption for which it succeeds as the rule. The
/// assumption stays. Where there is none, it fails.
pub fn asm_back(alloc: Global, goal: &Goal) -> Result<Step, HostFail> {
    for rule in goal.asms.iter().rev() {
        match match_mp_tac(alloc, goal, rule, &goal.concl) {
            Err(HostFail::Failed) => {}
            answer => return answer,
        }
    }
    Err(HostFail::Failed)
}

/// MATCH_ACCEPT_TAC: on `(!x.. p) ==> g`, where `g` is `p` at some terms for the variables, no subgoal. Else it fails.
pub fn accept(alloc: Global, goal: &Goal) -> Result<Step, HostFail> {
    let Some((rule, wanted)) = dest_imp(&goal.concl) else {
        return Err(HostFail::Failed);
    };
    let opened = Opened::new(alloc, goal, rule)?;
    let Some(terms) = instance(alloc, &opened.fixed, &opened.result, wanted)? else {
        return Err(HostFail::Failed);
    };
    let Applied { just, .. } = opened.applied(alloc, rule, &terms, false)?;
    to_none(alloc, disch(alloc, rule, Ok(just)))
}

// The wanted formula from a rule and its antecedents.
fn match_mp_tac(alloc: Global, goal: &Goal, rule: &Term, wanted: &Term) -> Result<Step, HostFail> {
    let mut opened = Opened::new(alloc, goal, rule)?;
    for _ in 0..ANTECEDENTS {
        opened.take_antecedent(alloc)?;
        if let Some(terms) = instance(alloc, &opened.fixed, &opened.result, wanted)? {
            return by_antecedents(alloc, goal, rule, &opened, &terms);
        }
    }
    Err(HostFail::Failed)
}

#[derive(Drop)]
enum Taken {
    Variable(Term),
    Antecedent(Term),
}

// A formula without some quantifiers and antecedents, which were taken off in this order.
#[derive(Drop)]
struct Opened {
    taken: Vec<Taken>,
    result: Term,
    // The free variables of the goal, and with them those that were taken off.
    fixed: Vec<Term>,
    avoid: Vec<Term>,
}

// The result of a rule at some terms, and the antecedents there.
#[derive(Drop)]
struct Applied {
    just: Just,
    premises: Vec<Term>,
}

impl Opened {
    // The formula without its outermost quantifiers, for a goal.
    fn new(alloc: Global, goal: &Goal, formula: &Term) -> Result<Opened, Fault> {
        let fixed = goal_frees(alloc, goal)?;
        let mut opened = Opened {
            taken: Vec::new(alloc),
            result: formula.copy(alloc)?,
            avoid: copy_terms(alloc, &fixed)?,
            fixed,
        };
        opened.take_variables(alloc, formula)?;
        Ok(opened)
    }

    // Takes the outermost quantifiers of a formula off.
    fn take_variables(&mut self, alloc: Global, formula: &Term) -> Result<(), Fault> {
        self.result = formula.copy(alloc)?;
        for _ in 0..formula.height() {
            let Formula::ForAll(variable, body) = dest_formula(&self.result) else {
                break;
            };
            let (fresh, body) = open_binder(alloc, &mut self.avoid, variable, body)?;
            self.taken.push(Taken::Variable(fresh))?;
            self.result = body;
        }
        Ok(())
    }

    // Takes an antecedent off, and the quantifiers behind it. Where there is none, it fails.
    fn take_antecedent(&mut self, alloc: Global) -> Result<(), HostFail> {
        let formula = self.result.copy(alloc)?;
        let Some((p, q)) = dest_imp(&formula) else {
            return Err(HostFail::Failed);
        };
        self.taken.push(Taken::Antecedent(p.copy(alloc)?))?;
        Ok(self.take_variables(alloc, q)?)
    }

    // The variables that were taken off, and for which nothing is put.
    fn unknown(&self, alloc: Global, terms: &[(Term, Term)]) -> Result<Vec<Term>, Fault> {
        let mut unknown = Vec::new(alloc);
        for taken in &self.taken {
            match taken {
                Taken::Variable(variable) if value_of(terms, variable).is_none() => {
                    push_copy(alloc, variable, &mut unknown)?;
                }
                _ => {}
            }
        }
        Ok(unknown)
    }

    // The result of the rule at these terms, from the antecedents: each is assumed where they are assumed, or else a subgoal.
    fn applied(
        &self,
        alloc: Global,
        rule: &Term,
        terms: &[(Term, Term)],
        are_assumed: bool,
    ) -> Result<Applied, HostFail> {
        let mut premises = Vec::new(alloc);
        let mut just = assume(alloc, rule);
        for taken in &self.taken {
            just = taken.applied(alloc, terms, just, are_assumed, &mut premises);
        }
        Ok(Applied {
            just: just?,
            premises,
        })
    }
}

impl Taken {
    // A rule at the term for the variable, or without the antecedent, which is one more premise.
    fn applied(
        &self,
        alloc: Global,
        terms: &[(Term, Term)],
        rule: Derivation,
        is_assumed: bool,
        premises: &mut Vec<Term>,
    ) -> Derivation {
        match self {
            Taken::Variable(variable) => {
                let value = vsubst(alloc, terms, variable)?;
                spec(alloc, &value, rule)
            }
            Taken::Antecedent(p) => {
                let premise = vsubst(alloc, terms, p)?;
                let fact = if is_assumed {
                    assume(alloc, &premise)
                } else {
                    sub(alloc, premises.len())
                };
                premises.push(premise)?;
                mp(alloc, rule, fact)
            }
        }
    }
}

// The step to the antecedents of a rule, whose result at these terms is wanted.
fn by_antecedents(
    alloc: Global,
    goal: &Goal,
    rule: &Term,
    opened: &Opened,
    terms: &[(Term, Term)],
) -> Result<Step, HostFail> {
    let unknown = opened.unknown(alloc, terms)?;
    let Applied { just, premises } = opened.applied(alloc, rule, terms, !unknown.is_empty())?;
    if unknown.is_empty() {
        return Ok(Step {
            goals: goals_of(alloc, goal, &premises)?,
            just,
        });
    }
    by_values(alloc, goal, &unknown, &premises, just)
}

// The goals of these conclusions.
fn goals_of(alloc: Global, goal: &Goal, concls: &[Term]) -> Result<Vec<Goal>, Fault> {
    let mut goals = Vec::new(alloc);
    for concl in concls {
        goals.push(goal.with_concl(alloc, concl)?)?;
    }
    Ok(goals)
}

// The step to one subgoal: that there are values of these variables for which the premises hold.
fn by_values(
    alloc: Global,
    goal: &Goal,
    unknown: &[Term],
    premises: &[Term],
    just: Just,
) -> Result<Step, HostFail> {
    let mut reduced = from_all(alloc, premises, just)?;
    for variable in unknown.iter().rev() {
        reduced = reduced.from_some(alloc, variable)?;
    }
    let just = prove_hyp(alloc, sub(alloc, 0), Ok(reduced.just));
    to_one(alloc, goal.with_concl(alloc, &reduced.formula), just)
}

// A formula, and what is wanted from it.
#[derive(Drop)]
struct Reduced {
    formula: Term,
    just: Just,
}

// From the conjunction of the premises.
fn from_all(alloc: Global, premises: &[Term], just: Just) -> Result<Reduced, HostFail> {
    let mut rest = premises.iter().rev();
    let Some(last) = rest.next() else {
        return Err(HostFail::Failed);
    };
    let mut reduced = Reduced {
        formula: last.copy(alloc)?,
        just,
    };
    for premise in rest {
        reduced = reduced.from_both(alloc, premise)?;
    }
    Ok(reduced)
}

impl Reduced {
    // From the conjunction of a premise and the formula.
    fn from_both(self, alloc: Global, premise: &Term) -> Result<Reduced, HostFail> {
        let formula = mk_conj(alloc, premise, &self.formula)?;
        let just = from_conjunction(alloc, &formula, Ok(self.just))?;
        Ok(Reduced { formula, just })
    }

    // From `?x. p` in place of `p`.
    fn from_some(self, alloc: Global, variable: &Term) -> Result<Reduced, HostFail> {
        let formula = mk_exists(alloc, variable, &self.formula)?;
        let just = choose(alloc, variable, assume(alloc, &formula), Ok(self.just))?;
        Ok(Reduced { formula, just })
    }
}
