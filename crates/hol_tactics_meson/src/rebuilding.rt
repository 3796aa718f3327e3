// A refutation as a justification, by a stack of what is begun.

use crate::facts::{Alternatives, Fact};
use crate::splitting::again;
use crate::values::{ClauseInstance, Values};
use crate::witnesses::{Quantified, Witnesses};
use hol_host::HostFail;
use hol_just::Just;
use hol_tactics_forms::{Derivation, Formula, dest_formula, prove_hyp};
use hol_tactics_search::{Move, Part, Problem, Refutation, Route};
use hol_terms::Term;
use std::alloc::Global;

// How many turns a rebuilding may take.
const TURNS: u32 = 1_000_000;

// An instance of a clause whose literals are met one after the other: the next one, and the one that contradicts the subgoal that the
// clause was taken for.
#[derive(Clone, Copy)]
struct Level {
    of: ClauseInstance,
    next: usize,
    used: Option<usize>,
}

// What is done next: a fact is followed by a route until `F` is proved of it, or it is proved.
#[derive(Drop)]
enum Turn {
    Follow(Fact, usize),
    Refuted(Just),
}

// What waits for a proof of `F`.
#[derive(Drop)]
enum Frame {
    // The first alternative, with the route of the second one.
    First(Alternatives, usize),
    // The second one, with the proof from the first.
    Second(Alternatives, Just),
    // The last level, with the proof of its subgoal, which is assumed in it.
    Level(Just),
}

#[derive(Drop)]
struct Rebuilding<'a> {
    problem: &'a Problem,
    found: &'a Refutation,
    values: Values<'a>,
    // The number of the next move.
    next: usize,
    levels: Vec<Level>,
    frames: Vec<Frame>,
}

/// `F`, from the formulas that are given without a proof.
pub(crate) fn rebuilt<'a>(
    alloc: Global,
    problem: &'a Problem,
    found: &'a Refutation,
    avoid: Vec<Term>,
) -> Derivation {
    let witnesses = Witnesses::new(alloc, avoid);
    let mut rebuilding = Rebuilding::new(alloc, problem, found, witnesses);
    let falsity = rebuilding.run(alloc);
    let just = rebuilding.values.witnesses.discharged(alloc, falsity);
    with_proofs(alloc, problem, just)
}

// The justification without the formulas that are given with a proof.
fn with_proofs(alloc: Global, problem: &Problem, of: Derivation) -> Derivation {
    let mut just = of;
    for given in &problem.givens {
        if let Some(proof) = &given.proof {
            just = prove_hyp(alloc, again(alloc, proof), just);
        }
    }
    just
}

// Follows a fact.
fn follow(fact: Result<Fact, HostFail>, route: usize) -> Result<Turn, HostFail> {
    Ok(Turn::Follow(fact?, route))
}

// Goes on behind a proof of `F`.
fn refuted(falsity: Derivation) -> Result<Turn, HostFail> {
    Ok(Turn::Refuted(falsity?))
}

impl<'a> Rebuilding<'a> {
    fn new(
        alloc: Global,
        problem: &'a Problem,
        found: &'a Refutation,
        witnesses: Witnesses,
    ) -> Rebuilding<'a> {
        Rebuilding {
            problem,
            found,
            values: Values::new(problem, &found.bindings, witnesses),
            next: 0,
            levels: Vec::new(alloc),
            frames: Vec::new(alloc),
        }
    }

    // `F`, from the given formulas and what is supposed of witnesses.
    fn run(&mut self, alloc: Global) -> Derivation {
        let start = ClauseInstance {
            clause: self.found.start,
            base: 0,
        };
        let mut turn = self.begin(alloc, start, None);
        for _ in 0..TURNS {
            turn = match turn? {
                Turn::Follow(fact, route) => self.follow(alloc, fact, route),
                Turn::Refuted(falsity) => match self.frames.pop() {
                    Some(frame) => self.resume(alloc, frame, falsity),
                    None => return Ok(falsity),
                },
            };
        }
        Err(HostFail::Failed)
    }

    // Begins with an instance of a clause: its formula is to be followed.
    fn begin(
        &mut self,
        alloc: Global,
        of: ClauseInstance,
        used: Option<usize>,
    ) -> Result<Turn, HostFail> {
        let problem = self.problem;
        let Some(clause) = problem.clause(of.clause) else {
            return Err(HostFail::Failed);
        };
        let Some(given) = problem.givens.get(clause.given) else {
            return Err(HostFail::Failed);
        };
        self.levels.push(Level { of, next: 0, used })?;
        follow(Fact::assumed(alloc, &given.formula, true), clause.route)
    }

    // Follows a fact by one part of a route.
    fn follow(&mut self, alloc: Global, fact: Fact, route: usize) -> Result<Turn, HostFail> {
        let formula = fact.formula.copy(alloc)?;
        match dest_formula(&formula) {
            Formula::Not(p) => follow(fact.negated(alloc, p), route),
            Formula::ForAll(variable, body) | Formula::Exists(variable, body) => {
                let of = Quantified {
                    formula: &formula,
                    variable,
                    body,
                };
                self.quantified(alloc, fact, of, route)
            }
            Formula::Iff(_, _) => self.equivalence(alloc, fact, route),
            Formula::And(_, _) | Formula::Or(_, _) | Formula::Implies(_, _) => {
                self.connective(alloc, fact, route)
            }
            Formula::Atom => self.leaf(alloc, fact),
        }
    }

    // A conjunction, a disjunction or an implication: one of two facts, or either of two.
    fn connective(&mut self, alloc: Global, fact: Fact, route: usize) -> Result<Turn, HostFail> {
        match self.problem.route(route) {
            Some(Route::Through(Part::Side(is_first), inner)) => {
                follow(fact.side(alloc, is_first), inner)
            }
            _ => self.alternatives(alloc, Alternatives::new(fact, true), route),
        }
    }

    // An equivalence: one of the two facts that it is, each of which is either of two.
    fn equivalence(&mut self, alloc: Global, fact: Fact, route: usize) -> Result<Turn, HostFail> {
        match self.problem.route(route) {
            Some(Route::Through(Part::Side(is_first), inner)) => {
                self.alternatives(alloc, Alternatives::new(fact, is_first), inner)
            }
            _ => Err(HostFail::Failed),
        }
    }

    // Begins with the first of two alternatives.
    fn alternatives(
        &mut self,
        alloc: Global,
        of: Alternatives,
        route: usize,
    ) -> Result<Turn, HostFail> {
        let Some(Route::Both(left, right)) = self.problem.route(route) else {
            return Err(HostFail::Failed);
        };
        let first = of.assumed(alloc, true);
        self.frames.push(Frame::First(of, right))?;
        follow(first, left)
    }

    // Goes on where `F` was waited for.
    fn resume(&mut self, alloc: Global, frame: Frame, falsity: Just) -> Result<Turn, HostFail> {
        match frame {
            Frame::First(of, route) => {
                let second = of.assumed(alloc, false);
                self.frames.push(Frame::Second(of, falsity))?;
                follow(second, route)
            }
            Frame::Second(of, first) => refuted(of.refuted(alloc, Ok(first), Ok(falsity))),
            Frame::Level(subgoal) => {
                self.levels.pop();
                refuted(prove_hyp(alloc, Ok(subgoal), Ok(falsity)))
            }
        }
    }

    // A literal: it contradicts the subgoal of its level, or the next move meets it.
    fn leaf(&mut self, alloc: Global, fact: Fact) -> Result<Turn, HostFail> {
        if self.is_used()? {
            return refuted(fact.against_assumed(alloc));
        }
        let Some(next) = self.found.moves.get(self.next).copied() else {
            return Err(HostFail::Failed);
        };
        self.next = self.next.saturating_add(1);
        match next {
            Move::Reduce => refuted(fact.against_assumed(alloc)),
            Move::Extend(extension) => {
                self.frames.push(Frame::Level(fact.just))?;
                let of = ClauseInstance {
                    clause: extension.clause,
                    base: extension.base,
                };
                self.begin(alloc, of, Some(extension.literal))
            }
        }
    }

    // Whether the next literal of the last level contradicts its subgoal. It is passed.
    fn is_used(&mut self) -> Result<bool, HostFail> {
        let Some(level) = self.levels.last_mut() else {
            return Err(HostFail::Failed);
        };
        let place = level.next;
        level.next = place.saturating_add(1);
        Ok(level.used == Some(place))
    }

    // A quantified formula at a value, or at a witness.
    fn quantified(
        &mut self,
        alloc: Global,
        fact: Fact,
        of: Quantified<'_>,
        route: usize,
    ) -> Result<Turn, HostFail> {
        let Some(instance) = self.last_instance() else {
            return Err(HostFail::Failed);
        };
        match self.problem.route(route) {
            Some(Route::Through(Part::Instance(number), inner)) => {
                let value = self.values.value(alloc, instance, number)?;
                follow(fact.at_value(alloc, of, &value), inner)
            }
            Some(Route::Through(Part::Witness(symbol), inner)) => {
                let witness = self.values.witness(alloc, instance, symbol)?;
                let witnesses = &mut self.values.witnesses;
                let supposed = witnesses.suppose(alloc, witness, of, fact.positive)?;
                follow(fact.at_witness(alloc, supposed), inner)
            }
            _ => Err(HostFail::Failed),
        }
    }

    fn last_instance(&self) -> Option<ClauseInstance> {
        match self.levels.last() {
            Some(level) => Some(level.of),
            None => None,
        }
    }
}
