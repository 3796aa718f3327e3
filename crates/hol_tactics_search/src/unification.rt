// Unification of nodes at instances of clauses: an instance is the place where the values of its variables begin.

use crate::first_order::{Node, Terms};
use hol_host::HostFail;
use std::alloc::Global;

// How many pairs of parts are compared in one call.
const PAIRS: u32 = 20_000;

/// A node, its variables being those of the instance of a clause that begins at this place.
#[derive(Clone, Copy)]
pub struct Instance {
    pub node: usize,
    pub base: usize,
}

impl Instance {
    /// Another node at the same instance.
    pub fn part(self, node: usize) -> Instance {
        Instance {
            node,
            base: self.base,
        }
    }
}

/// The values of variables, and the places of those that were set, in order.
#[derive(Drop)]
pub struct Bindings {
    values: Vec<Option<Instance>>,
    trail: Vec<usize>,
    // What is still to be compared, and still to be searched for a variable.
    pairs: Vec<(Instance, Instance)>,
    parts: Vec<Instance>,
    /// How many pairs of nodes were compared, and nodes searched for a variable.
    pub(crate) spent: u32,
}

/// How far the values had come.
#[derive(Clone, Copy)]
pub(crate) struct Mark {
    values: usize,
    trail: usize,
}

// The place of a variable's value.
fn place(base: usize, number: usize) -> usize {
    base.saturating_add(number)
}

impl Bindings {
    pub(crate) fn new(alloc: Global) -> Bindings {
        Bindings {
            values: Vec::new(alloc),
            trail: Vec::new(alloc),
            pairs: Vec::new(alloc),
            parts: Vec::new(alloc),
            spent: 0,
        }
    }

    /// Room for so many variables without values: where they begin.
    pub(crate) fn instance(&mut self, count: usize) -> Result<usize, HostFail> {
        let base = self.values.len();
        for _ in 0..count {
            self.values.push(None)?;
        }
        Ok(base)
    }

    pub(crate) fn mark(&self) -> Mark {
        Mark {
            values: self.values.len(),
            trail: self.trail.len(),
        }
    }

    /// Whether a variable that was there at the mark has got its value since.
    pub(crate) fn has_set_since(&self, mark: Mark) -> bool {
        self.trail
            .iter()
            .skip(mark.trail)
            .any(|place| *place < mark.values)
    }

    /// Takes back all that was done since the mark.
    pub(crate) fn undo(&mut self, mark: Mark) {
        for at in mark.trail..self.trail.len() {
            if let Some(place) = self.trail.get(at).copied() {
                if let Some(value) = self.values.get_mut(place) {
                    *value = None;
                }
            }
        }
        self.trail.truncate(mark.trail);
        self.values.truncate(mark.values);
    }

    pub(crate) fn clear(&mut self) {
        self.trail.clear();
        self.values.clear();
    }

    /// The value of an instance's variable of this number.
    pub fn value(&self, base: usize, number: usize) -> Option<Instance> {
        match self.values.get(place(base, number)) {
            Some(value) => *value,
            None => None,
        }
    }

    /// What a node stands for: a variable without a value, or no variable.
    pub fn resolved(&self, terms: &Terms, term: Instance) -> Instance {
        let mut at = term;
        for _ in 0..self.values.len() {
            let Node::Variable(number) = terms.node(at.node) else {
                return at;
            };
            let Some(value) = self.value(at.base, number) else {
                return at;
            };
            at = value;
        }
        at
    }

    /// Whether two nodes are equal by the values that are set, or, where these may be set, by values for variables; what is too large is
    /// not. Where it answers that they are not, some may be set.
    pub(crate) fn are_equal(
        &mut self,
        terms: &Terms,
        pair: (Instance, Instance),
        may_set: bool,
    ) -> Result<bool, HostFail> {
        self.pairs.clear();
        self.pairs.push(pair)?;
        for _ in 0..PAIRS {
            let Some(pair) = self.pairs.pop() else {
                return Ok(true);
            };
            if !self.meet_heads(terms, pair, may_set)? {
                return Ok(false);
            }
        }
        Ok(false)
    }

    // The same of their heads. The parts of two applications are left to be compared.
    fn meet_heads(
        &mut self,
        terms: &Terms,
        pair: (Instance, Instance),
        may_set: bool,
    ) -> Result<bool, HostFail> {
        self.spent = self.spent.saturating_add(1);
        let a = self.resolved(terms, pair.0);
        let b = self.resolved(terms, pair.1);
        let (left, right) = (terms.node(a.node), terms.node(b.node));
        if let Node::Variable(number) = left {
            let at = place(a.base, number);
            if matches!(right, Node::Variable(other) if place(b.base, other) == at) {
                return Ok(true);
            }
            return self.bind(terms, at, a, b, may_set);
        }
        if let Node::Variable(number) = right {
            return self.bind(terms, place(b.base, number), b, a, may_set);
        }
        match (left, right) {
            (Node::Symbol(x), Node::Symbol(y)) => Ok(x == y),
            (Node::Apply(f, x), Node::Apply(g, y)) => {
                self.pairs.push((a.part(x), b.part(y)))?;
                self.pairs.push((a.part(f), b.part(g)))?;
                Ok(true)
            }
            _ => Ok(false),
        }
    }

    // Gives the variable at a place its value, where it may be set, the types are the same and the variable is not in it.
    fn bind(
        &mut self,
        terms: &Terms,
        at: usize,
        variable: Instance,
        value: Instance,
        may_set: bool,
    ) -> Result<bool, HostFail> {
        if !may_set
            || terms.type_number(variable.node) != terms.type_number(value.node)
            || self.occurs(terms, at, value)?
        {
            return Ok(false);
        }
        match self.values.get_mut(at) {
            Some(slot) => *slot = Some(value),
            None => return Ok(false),
        }
        self.trail.push(at)?;
        Ok(true)
    }

    // Whether the variable at a place is in a term, or the term is too large to say.
    fn occurs(&mut self, terms: &Terms, at: usize, term: Instance) -> Result<bool, HostFail> {
        self.parts.clear();
        self.parts.push(term)?;
        for _ in 0..PAIRS {
            let Some(part) = self.parts.pop() else {
                return Ok(false);
            };
            self.spent = self.spent.saturating_add(1);
            let part = self.resolved(terms, part);
            match terms.node(part.node) {
                Node::Variable(number) => {
                    if place(part.base, number) == at {
                        return Ok(true);
                    }
                }
                Node::Symbol(_) => {}
                Node::Apply(function, argument) => {
                    self.parts.push(part.part(argument))?;
                    self.parts.push(part.part(function))?;
                }
            }
        }
        Ok(true)
    }
}
