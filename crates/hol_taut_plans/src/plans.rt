// Plans of proofs.
use crate::parts::Parts;
use crate::planner::Planner;
use crate::refutations::settle;
use crate::steps::Step;
use crate::tables::constants;
use hol_model::Fault;
use hol_taut_formulas::Subformulas;
use hol_terms::Term;
use std::alloc::Global;

/// A proof as a list of steps, the last of which is the formula.
#[derive(Drop)]
pub struct Plan {
    formulas: Subformulas,
    steps: Vec<Step>,
}

impl Plan {
    /// The steps, each behind those that it takes.
    pub fn steps(&self) -> &[Step] {
        &self.steps
    }

    /// A part of the formula, by its number.
    pub fn part(&self, number: usize) -> Option<&Term> {
        match self.formulas.get(number) {
            Some(formula) => Some(&formula.term),
            None => None,
        }
    }
}

// The steps that a step takes.
fn taken_by(step: Step) -> Option<(usize, usize)> {
    match step {
        Step::Rule(_, first, second) => Some((first, second)),
        _ => None,
    }
}

// The same step of steps that have other numbers.
fn renumbered(step: Step, numbers: &[usize]) -> Step {
    match step {
        Step::Rule(rule, first, second) => Step::Rule(
            rule,
            number_at(numbers, first),
            number_at(numbers, second),
        ),
        _ => step,
    }
}

fn number_at(numbers: &[usize], at: usize) -> usize {
    match numbers.get(at) {
        Some(number) => *number,
        None => at,
    }
}

fn mark(used: &mut [bool], at: usize) {
    if let Some(mark) = used.get_mut(at) {
        *mark = true;
    }
}

fn is_marked(used: &[bool], at: usize) -> bool {
    match used.get(at) {
        Some(mark) => *mark,
        None => false,
    }
}

// For each step up to the last whether that takes it, or what it takes does.
fn used(alloc: Global, steps: &[Step], last: usize) -> Result<Vec<bool>, Fault> {
    let mut used = Vec::new(alloc);
    for _ in 0..steps.len() {
        used.push(false)?;
    }
    mark(&mut used, last);
    for behind in 0..steps.len() {
        let at = steps.len() - 1 - behind;
        if is_marked(&used, at) {
            if let Some((first, second)) = taken_by(steps[at]) {
                mark(&mut used, first);
                mark(&mut used, second);
            }
        }
    }
    Ok(used)
}

// The steps that the last one takes, and that one.
fn only_used(alloc: Global, steps: &[Step], last: usize) -> Result<Vec<Step>, Fault> {
    let used = used(alloc, steps, last)?;
    let mut numbers = Vec::new(alloc);
    let mut kept = Vec::new(alloc);
    for at in 0..steps.len() {
        numbers.push(kept.len())?;
        if is_marked(&used, at) {
            kept.push(renumbered(steps[at], &numbers))?;
        }
    }
    Ok(kept)
}

// Makes the values known that parts always have, each by those below it or else by splits.
fn settle_all(planner: &mut Planner, alloc: Global) -> Result<(), Fault> {
    let constants = constants(alloc, &planner.parts)?;
    let mut unknown = Vec::new(alloc);
    for at in 0..constants.len() {
        unknown.push(at)?;
        let told = planner.told(at)?;
        planner.values.set(at, told, 0);
        if told.is_none() {
            if let Some(value) = constants[at] {
                settle(planner, alloc, &unknown, at, value)?;
            }
        }
        if planner.values.known(at).is_some() {
            let _ = unknown.pop();
        }
    }
    Ok(())
}

// The steps that show a part, without those that are not taken.
fn steps_to(planner: &mut Planner, alloc: Global, at: usize) -> Result<Vec<Step>, Fault> {
    settle_all(planner, alloc)?;
    let shown = planner.show(at)?;
    only_used(alloc, planner.steps(), shown.step)
}

/// A proof of a tautology. A part that is the same whatever the atoms are is shown by itself, over its own atoms.
/// Refused: TooManyAtoms; TooLarge where it takes too many steps, or parts are looked at too often; BadShape where the formula is no
/// tautology; Memory.
pub fn planned(alloc: Global, term: &Term) -> Result<Plan, Fault> {
    let formulas = Subformulas::of(alloc, term)?;
    let parts = Parts::of(alloc, &formulas)?;
    let mut planner = Planner::new(alloc, parts)?;
    let steps = steps_to(&mut planner, alloc, formulas.whole())?;
    Ok(Plan { formulas, steps })
}
