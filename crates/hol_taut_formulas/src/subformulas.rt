// The parts of a formula with their terms.
use crate::form::{Form, form_of};
use crate::numbered::{Part, put_atom};
use hol_model::Fault;
use hol_terms::Term;
use indexmap::IndexSet;
use std::alloc::Global;

/// A part of a formula, how it is made, and at how many places it stands.
#[derive(Drop)]
pub struct Subformula {
    pub term: Term,
    pub part: Part,
    pub places: usize,
}

/// The parts of a formula, each once and behind those that it is made of. Nothing is promised of them.
#[derive(Drop)]
pub struct Subformulas {
    parts: IndexSet<Part>,
    all: Vec<Subformula>,
    atoms: Vec<Term>,
    whole: usize,
}

impl Subformulas {
    /// The parts of a formula. Refused: TooManyAtoms; Memory.
    pub fn of(alloc: Global, term: &Term) -> Result<Subformulas, Fault> {
        let mut parts = Subformulas {
            parts: IndexSet::new(alloc),
            all: Vec::new(alloc),
            atoms: Vec::new(alloc),
            whole: 0,
        };
        parts.whole = parts.number(alloc, term)?;
        Ok(parts)
    }

    /// The parts, by their numbers.
    pub fn as_slice(&self) -> &[Subformula] {
        &self.all
    }

    /// The part of this number.
    pub fn get(&self, number: usize) -> Option<&Subformula> {
        self.all.get(number)
    }

    /// The number of the whole.
    pub fn whole(&self) -> usize {
        self.whole
    }

    /// How many atoms there are.
    pub fn atoms(&self) -> usize {
        self.atoms.len()
    }

    // Counts one more place of a part.
    fn count(&mut self, number: usize) {
        if let Some(part) = self.all.get_mut(number) {
            part.places = part.places.saturating_add(1);
        }
    }

    // The number of the part that is made so, which stands at one more place.
    fn put(&mut self, alloc: Global, part: Part, term: &Term) -> Result<usize, Fault> {
        let (number, is_new) = self.parts.insert_full(part)?;
        if is_new {
            let term = term.copy(alloc)?;
            self.all.push(Subformula {
                term,
                part,
                places: 1,
            })?;
        } else {
            self.count(number);
        }
        Ok(number)
    }

    // The number of a formula among the parts.
    fn number(&mut self, alloc: Global, term: &Term) -> Result<usize, Fault> {
        match form_of(term) {
            Form::Atom => {
                let atom = put_atom(alloc, term, &mut self.atoms)?;
                self.put(alloc, Part::Atom(atom), term)
            }
            Form::Constantly(value) => self.put(alloc, Part::Constantly(value), term),
            Form::Negated(part) => {
                let part = self.number(alloc, part)?;
                self.put(alloc, Part::Negated(part), term)
            }
            Form::Connected(connective, left, right) => {
                let left = self.number(alloc, left)?;
                let right = self.number(alloc, right)?;
                self.put(alloc, Part::Connected(connective, left, right), term)
            }
        }
    }
}
