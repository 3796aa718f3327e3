// STRIP_TAC.

use hol_host::HostFail;
use hol_just::{Goal, Step};
use hol_tactics_forms::{
    Derivation, Formula, assume, choose, conj, copy_terms, dest_formula, disch, disj_cases,
    falsity, from_conjunction, generalize, goal_frees, open_binder, push_copy, refute, sub, to_one,
    to_two,
};
use hol_terms::Term;
use std::alloc::Global;

// How many formulas are taken apart one after another, and how many subgoals there may be.
const DEPTH: u32 = 200;

const GOALS: usize = 1000;

/// STRIP_TAC: on `!x. p` the subgoal `p`, with primes at `x` where they are wanted; on `p /\ q` the subgoals `p` and `q`; on
/// `p ==> q`, or `~p`, the subgoal `q`, or `F`, with `p` assumed in parts: of a conjunction both sides, of `?x. p` the body, and
/// of a disjunction one side in each of two subgoals. Else it fails, and past 1,000 subgoals.
pub fn strip(alloc: Global, goal: &Goal) -> Result<Step, HostFail> {
    match dest_formula(&goal.concl) {
        Formula::ForAll(variable, body) => gen_tac(alloc, goal, variable, body),
        Formula::And(left, right) => conj_tac(alloc, goal, left, right),
        Formula::Implies(left, right) => {
            let Step { goals, just } = strip_assume(alloc, goal, left, right)?;
            let just = disch(alloc, left, Ok(just))?;
            Ok(Step { goals, just })
        }
        Formula::Not(p) => {
            let falsity = falsity(alloc)?;
            let Step { goals, just } = strip_assume(alloc, goal, p, &falsity)?;
            let just = refute(alloc, p, Ok(just))?;
            Ok(Step { goals, just })
        }
        _ => Err(HostFail::Failed),
    }
}

// The body for a variable that is not free in the goal.
fn gen_tac(alloc: Global, goal: &Goal, variable: &Term, body: &Term) -> Result<Step, HostFail> {
    let mut avoid = goal_frees(alloc, goal)?;
    let (fresh, body) = open_binder(alloc, &mut avoid, variable, body)?;
    let just = generalize(alloc, &fresh, sub(alloc, 0));
    to_one(alloc, goal.with_concl(alloc, &body), just)
}

// Both sides.
fn conj_tac(alloc: Global, goal: &Goal, left: &Term, right: &Term) -> Result<Step, HostFail> {
    to_two(
        alloc,
        goal.with_concl(alloc, left),
        goal.with_concl(alloc, right),
        conj(alloc, sub(alloc, 0), sub(alloc, 1)),
    )
}

// The conclusion from the goal's assumptions and the parts of a formula.
fn strip_assume(alloc: Global, goal: &Goal, p: &Term, concl: &Term) -> Result<Step, HostFail> {
    let mut stripping = Stripping {
        goals: Vec::new(alloc),
        avoid: goal_frees(alloc, goal)?,
    };
    let open = Open::new(alloc, goal, p, concl)?;
    let just = stripping.assume_next(alloc, open, DEPTH)?;
    let Stripping { goals, .. } = stripping;
    Ok(Step { goals, just })
}

// A subgoal to be, and the formulas that it is still to assume, the next one last.
#[derive(Drop)]
struct Open {
    goal: Goal,
    pending: Vec<Term>,
}

impl Open {
    // The goal of this conclusion, which is to assume a formula.
    fn new(alloc: Global, goal: &Goal, p: &Term, concl: &Term) -> Result<Open, HostFail> {
        let mut open = Open {
            goal: goal.with_concl(alloc, concl)?,
            pending: Vec::new(alloc),
        };
        push_copy(alloc, p, &mut open.pending)?;
        Ok(open)
    }

    // The same, which is to assume one formula more.
    fn with(&self, alloc: Global, p: &Term) -> Result<Open, HostFail> {
        let mut open = Open {
            goal: self.goal.copy(alloc)?,
            pending: copy_terms(alloc, &self.pending)?,
        };
        push_copy(alloc, p, &mut open.pending)?;
        Ok(open)
    }
}

// The subgoals so far, and the variables that are used.
#[derive(Drop)]
struct Stripping {
    goals: Vec<Goal>,
    avoid: Vec<Term>,
}

impl Stripping {
    // The conclusion, from the assumptions and the formulas that are pending.
    #[cycle(assuming)]
    fn assume_next(&mut self, alloc: Global, open: Open, depth: u32) -> Derivation {
        if depth == 0 {
            return Err(HostFail::Failed);
        }
        let Open {
            mut goal,
            mut pending,
        } = open;
        let Some(p) = pending.pop() else {
            return self.subgoal(alloc, goal);
        };
        match dest_formula(&p) {
            Formula::And(left, right) => {
                self.assume_both(alloc, Open { goal, pending }, &p, left, right, depth - 1)
            }
            Formula::Or(left, right) => {
                self.assume_either(alloc, Open { goal, pending }, &p, left, right, depth - 1)
            }
            Formula::Exists(variable, body) => {
                self.assume_witness(alloc, Open { goal, pending }, &p, variable, body, depth - 1)
            }
            _ => {
                goal.asms.push(p)?;
                self.assume_next(alloc, Open { goal, pending }, depth - 1)
            }
        }
    }

    // The goal as one more subgoal.
    fn subgoal(&mut self, alloc: Global, goal: Goal) -> Derivation {
        let number = self.goals.len();
        if number == GOALS {
            return Err(HostFail::Failed);
        }
        self.goals.push(goal)?;
        sub(alloc, number)
    }

    // With both sides of a conjunction pending.
    #[cycle(assuming)]
    fn assume_both(
        &mut self,
        alloc: Global,
        mut open: Open,
        p: &Term,
        left: &Term,
        right: &Term,
        depth: u32,
    ) -> Derivation {
        push_copy(alloc, right, &mut open.pending)?;
        push_copy(alloc, left, &mut open.pending)?;
        let just = self.assume_next(alloc, open, depth);
        from_conjunction(alloc, p, just)
    }

    // With the left side of a disjunction pending, and with the right one.
    #[cycle(assuming)]
    fn assume_either(
        &mut self,
        alloc: Global,
        open: Open,
        p: &Term,
        left: &Term,
        right: &Term,
        depth: u32,
    ) -> Derivation {
        let first = self.assume_next(alloc, open.with(alloc, left)?, depth)?;
        let second = self.assume_next(alloc, open.with(alloc, right)?, depth);
        disj_cases(alloc, assume(alloc, p), Ok(first), second)
    }

    // With the body of an existential formula pending, of a new variable.
    #[cycle(assuming)]
    fn assume_witness(
        &mut self,
        alloc: Global,
        open: Open,
        p: &Term,
        variable: &Term,
        body: &Term,
        depth: u32,
    ) -> Derivation {
        let (fresh, body) = open_binder(alloc, &mut self.avoid, variable, body)?;
        let just = self.assume_next(alloc, open.with(alloc, &body)?, depth);
        choose(alloc, &fresh, assume(alloc, p), just)
    }
}
