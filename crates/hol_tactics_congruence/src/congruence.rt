// Congruence closure: equations that follow from equations.

use hol_alpha::aconv;
use hol_host::HostFail;
use hol_just::{Goal, Just, Step};
use hol_tactics_forms::{
    Derivation, Formula, assume, contr, contradiction, dest_eq, dest_formula, mk_comb, refl, sym,
    to_none, trans,
};
use hol_terms::Term;
use std::alloc::Global;

// How many terms there may be, how deep they are gone into, and how many lines an explanation may have.
const TERMS: usize = 400;

const DEPTH: u32 = 400;

const LINES: usize = 20000;

/// No subgoal, where the goal is an equation that follows from the equations among its assumptions by reflexivity, symmetry, transitivity
/// and congruence, or where an assumption that denies an equation contradicts the others; equivalences are equations of formulas. It
/// fails otherwise, and where there are more than 400 terms.
pub fn eq(alloc: Global, goal: &Goal) -> Result<Step, HostFail> {
    let closure = Closure::of_goal(alloc, goal)?;
    to_none(alloc, closure.proved(alloc, goal))
}

// Why two terms are equal.
#[derive(Clone, Copy)]
enum Reason {
    // The assumption of this number, turned round or not.
    Assumed(usize, bool),
    // Their functions and their arguments are equal.
    Congruent,
}

impl Reason {
    fn turned(self) -> Reason {
        match self {
            Reason::Assumed(number, is_turned) => Reason::Assumed(number, !is_turned),
            Reason::Congruent => Reason::Congruent,
        }
    }
}

// An edge of the forest of equal terms: to which term, and why.
#[derive(Clone, Copy)]
struct Edge {
    to: usize,
    reason: Reason,
}

// A function and its argument, by number.
#[derive(Clone, Copy)]
struct Operands {
    function: usize,
    argument: usize,
}

// A term: its parts, a number that the terms of its class share, and the edge towards the root of its tree.
#[derive(Drop)]
struct Entry {
    term: Term,
    operands: Option<Operands>,
    class: usize,
    edge: Option<Edge>,
}

#[derive(Drop)]
struct Closure<'a> {
    assumptions: &'a [Term],
    entries: Vec<Entry>,
}

impl<'a> Closure<'a> {
    // The closure of the equations that a goal assumes, over their terms, those of the equation that it concludes and those of the
    // equations that it assumes to be false.
    fn of_goal(alloc: Global, goal: &'a Goal) -> Result<Closure<'a>, HostFail> {
        let mut closure = Closure {
            assumptions: &goal.asms,
            entries: Vec::new(alloc),
        };
        closure.add_goal(alloc, goal)?;
        closure.close();
        Ok(closure)
    }

    // Adds the terms of a goal, and joins the sides of the equations that it assumes.
    fn add_goal(&mut self, alloc: Global, goal: &Goal) -> Result<(), HostFail> {
        self.add_sides(alloc, &goal.concl)?;
        for assumption in &goal.asms {
            if let Formula::Not(denied) = dest_formula(assumption) {
                self.add_sides(alloc, denied)?;
            }
        }
        for number in 0..goal.asms.len() {
            self.assume(alloc, number, &goal.asms[number])?;
        }
        Ok(())
    }

    // Joins terms whose parts are joined, until there are no more. Each time there is a class less.
    fn close(&mut self) {
        for _ in 0..TERMS {
            if !self.join_congruent() {
                break;
            }
        }
    }

    // Adds the sides of an equation.
    fn add_sides(&mut self, alloc: Global, formula: &Term) -> Result<(), HostFail> {
        if let Some((left, right)) = dest_eq(formula) {
            self.add(alloc, left, DEPTH)?;
            self.add(alloc, right, DEPTH)?;
        }
        Ok(())
    }

    // Joins the sides of an equation that is assumed.
    fn assume(&mut self, alloc: Global, number: usize, formula: &Term) -> Result<(), HostFail> {
        if let Some((left, right)) = dest_eq(formula) {
            let left = self.add(alloc, left, DEPTH)?;
            let right = self.add(alloc, right, DEPTH)?;
            self.join(left, right, Reason::Assumed(number, false));
        }
        Ok(())
    }

    // The number of a term, which is added behind its parts where it is new.
    fn add(&mut self, alloc: Global, term: &Term, depth: u32) -> Result<usize, HostFail> {
        if let Some(number) = self.find(term) {
            return Ok(number);
        }
        if depth == 0 {
            return Err(HostFail::Failed);
        }
        let Some((function, argument)) = term.dest_comb() else {
            return self.push(alloc, term, None);
        };
        let function = self.add(alloc, function, depth - 1)?;
        let argument = self.add(alloc, argument, depth - 1)?;
        self.push(alloc, term, Some(Operands { function, argument }))
    }

    // Adds a term, in a class of its own.
    fn push(
        &mut self,
        alloc: Global,
        term: &Term,
        operands: Option<Operands>,
    ) -> Result<usize, HostFail> {
        let number = self.entries.len();
        if number >= TERMS {
            return Err(HostFail::Failed);
        }
        let term = term.copy(alloc)?;
        self.entries.push(Entry {
            term,
            operands,
            class: number,
            edge: None,
        })?;
        Ok(number)
    }

    // The number of a term that was added.
    fn find(&self, term: &Term) -> Option<usize> {
        for (number, entry) in self.entries.iter().enumerate() {
            if aconv(&entry.term, term) {
                return Some(number);
            }
        }
        None
    }

    // Whether two terms are of one class.
    fn are_joined(&self, first: usize, second: usize) -> bool {
        match (self.entries.get(first), self.entries.get(second)) {
            (Some(first), Some(second)) => first.class == second.class,
            _ => false,
        }
    }

    // Joins terms whose parts are joined; whether there were any that were not joined.
    fn join_congruent(&mut self) -> bool {
        let mut is_changed = false;
        for first in 0..self.entries.len() {
            for second in 0..first {
                if !self.are_joined(first, second) && self.are_congruent(first, second) {
                    self.join(first, second, Reason::Congruent);
                    is_changed = true;
                }
            }
        }
        is_changed
    }

    fn operands(&self, number: usize) -> Option<Operands> {
        self.entries.get(number)?.operands
    }

    fn are_congruent(&self, first: usize, second: usize) -> bool {
        match (self.operands(first), self.operands(second)) {
            (Some(left), Some(right)) => self.are_joined(left.function, right.function)
                && self.are_joined(left.argument, right.argument),
            _ => false,
        }
    }

    // Makes two classes one, by an edge from the first term to the second.
    fn join(&mut self, first: usize, second: usize, reason: Reason) {
        if self.are_joined(first, second) {
            return;
        }
        self.make_root(first, Edge { to: second, reason });
        let (Some(old), Some(new)) = (self.class(first), self.class(second)) else {
            return;
        };
        for entry in &mut self.entries {
            if entry.class == old {
                entry.class = new;
            }
        }
    }

    fn class(&self, number: usize) -> Option<usize> {
        Some(self.entries.get(number)?.class)
    }

    // Turns the path from a term to the root of its tree round, and puts the edge at the term.
    fn make_root(&mut self, number: usize, edge: Edge) {
        let mut at = number;
        let mut edge = edge;
        for _ in 0..self.entries.len() {
            let Some(before) = self.replace_edge(at, edge) else {
                break;
            };
            edge = Edge {
                to: at,
                reason: before.reason.turned(),
            };
            at = before.to;
        }
    }

    // Puts an edge at a term, and answers the one that was there.
    fn replace_edge(&mut self, number: usize, edge: Edge) -> Option<Edge> {
        let entry = self.entries.get_mut(number)?;
        let before = entry.edge;
        entry.edge = Some(edge);
        before
    }

    // The goal's conclusion, as an equation that follows, or of an assumption that denies one.
    fn proved(&self, alloc: Global, goal: &Goal) -> Derivation {
        if let Some((left, right)) = dest_eq(&goal.concl) {
            if let Some(equal) = self.equation(alloc, left, right)? {
                return Ok(equal);
            }
        }
        for assumption in &goal.asms {
            if let Some(falsity) = self.refutation(alloc, assumption)? {
                return contr(alloc, &goal.concl, Ok(falsity));
            }
        }
        Err(HostFail::Failed)
    }

    // `s = t`, where it follows.
    fn equation(&self, alloc: Global, s: &Term, t: &Term) -> Result<Option<Just>, HostFail> {
        let (Some(left), Some(right)) = (self.find(s), self.find(t)) else {
            return Ok(None);
        };
        if !self.are_joined(left, right) {
            return Ok(None);
        }
        Ok(Some(self.explained(alloc, left, right, DEPTH)?))
    }

    // `F`, of an assumption that denies an equation that follows.
    fn refutation(&self, alloc: Global, assumption: &Term) -> Result<Option<Just>, HostFail> {
        let Formula::Not(denied) = dest_formula(assumption) else {
            return Ok(None);
        };
        let Some((left, right)) = dest_eq(denied) else {
            return Ok(None);
        };
        match self.equation(alloc, left, right)? {
            Some(equal) => {
                let falsity = contradiction(alloc, assume(alloc, assumption), Ok(equal));
                Ok(Some(falsity?))
            }
            None => Ok(None),
        }
    }

    // The numbers from a term to the root of its tree.
    fn path(&self, alloc: Global, number: usize) -> Result<Vec<usize>, HostFail> {
        let mut path = Vec::new(alloc);
        let mut at = number;
        for _ in 0..TERMS {
            path.push(at)?;
            let Some(edge) = self.edge(at) else {
                return Ok(path);
            };
            at = edge.to;
        }
        Err(HostFail::Failed)
    }

    fn edge(&self, number: usize) -> Option<Edge> {
        self.entries.get(number)?.edge
    }

    // `s = t`, of two terms of one class: both lead to the first term that their paths share.
    #[cycle(explaining)]
    fn explained(&self, alloc: Global, first: usize, second: usize, depth: u32) -> Derivation {
        if depth == 0 {
            return Err(HostFail::Failed);
        }
        let left = self.path(alloc, first)?;
        let right = self.path(alloc, second)?;
        let Some(meeting) = first_shared(&left, &right) else {
            return Err(HostFail::Failed);
        };
        let forth = self.along(alloc, &left, meeting, depth - 1)?;
        let back = self.along(alloc, &right, meeting, depth - 1);
        within_limit(trans(alloc, Ok(forth), sym(alloc, back)))
    }

    // `s = t`, where `s` is the first term of a path and `t` the one of this number on it.
    #[cycle(explaining)]
    fn along(&self, alloc: Global, path: &[usize], last: usize, depth: u32) -> Derivation {
        let mut just = self.reflexivity(alloc, path)?;
        for number in path {
            if *number == last {
                break;
            }
            let Some(edge) = self.edge(*number) else {
                return Err(HostFail::Failed);
            };
            let equal = self.by_reason(alloc, *number, edge, depth);
            just = trans(alloc, Ok(just), equal)?;
        }
        Ok(just)
    }

    // `s = s`, where `s` is the first term of a path.
    fn reflexivity(&self, alloc: Global, path: &[usize]) -> Derivation {
        match self.first_entry(path) {
            Some(entry) => refl(alloc, &entry.term),
            None => Err(HostFail::Failed),
        }
    }

    fn first_entry(&self, path: &[usize]) -> Option<&Entry> {
        self.entries.get(*path.first()?)
    }

    // `s = t`, of a term and the one to which its edge goes.
    #[cycle(explaining)]
    fn by_reason(&self, alloc: Global, number: usize, edge: Edge, depth: u32) -> Derivation {
        match edge.reason {
            Reason::Assumed(assumption, is_turned) => { self.assumed(alloc, assumption, is_turned) }
            Reason::Congruent => match (self.operands(number), self.operands(edge.to)) {
                (Some(left), Some(right)) => { self.congruence(alloc, left, right, depth) }
                _ => Err(HostFail::Failed),
            },
        }
    }

    // An equation that is assumed, turned round or not.
    fn assumed(&self, alloc: Global, number: usize, is_turned: bool) -> Derivation {
        let Some(equation) = self.assumptions.get(number) else {
            return Err(HostFail::Failed);
        };
        if is_turned {
            return sym(alloc, assume(alloc, equation));
        }
        assume(alloc, equation)
    }

    // `f x = g y`, of `f = g` and `x = y`.
    #[cycle(explaining)]
    fn congruence(&self, alloc: Global, left: Operands, right: Operands, depth: u32) -> Derivation {
        let functions = self.explained(alloc, left.function, right.function, depth)?;
        let arguments = self.explained(alloc, left.argument, right.argument, depth);
        mk_comb(alloc, Ok(functions), arguments)
    }
}

// The justification, where it has no more lines than it may have.
fn within_limit(just: Derivation) -> Derivation {
    let just = just?;
    if just.steps() > LINES {
        return Err(HostFail::Failed);
    }
    Ok(just)
}

// The first of these numbers that is one of the others.
fn first_shared(numbers: &[usize], others: &[usize]) -> Option<usize> {
    for number in numbers {
        if others.contains(number) {
            return Some(*number);
        }
    }
    None
}
