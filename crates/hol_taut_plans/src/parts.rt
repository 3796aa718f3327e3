// The parts of a formula.
use crate::cubes::Cube;
use crate::shapes::Shape;
use hol_model::Fault;
use hol_taut_formulas::Subformulas;
use std::alloc::Global;

// How a part is made, and both values of each of its atoms.
#[derive(Clone, Copy)]
struct Part {
    shape: Shape,
    atoms: Cube,
}

/// The parts of a formula, each behind those that it is made of.
#[derive(Drop)]
pub(crate) struct Parts {
    parts: Vec<Part>,
    atoms: usize,
}

impl Parts {
    /// The parts of a formula, by the same numbers.
    pub(crate) fn of(alloc: Global, formulas: &Subformulas) -> Result<Parts, Fault> {
        let mut parts = Parts {
            parts: Vec::new(alloc),
            atoms: formulas.atoms(),
        };
        for formula in formulas.as_slice() {
            let shape = Shape::of(formula.part);
            let atoms = parts.atoms_below(shape);
            parts.parts.push(Part { shape, atoms })?;
        }
        Ok(parts)
    }

    /// How many there are.
    pub(crate) fn len(&self) -> usize {
        self.parts.len()
    }

    /// How many atoms there are.
    pub(crate) fn atoms(&self) -> usize {
        self.atoms
    }

    /// How a part is made.
    pub(crate) fn shape(&self, at: usize) -> Result<Shape, Fault> {
        match self.parts.get(at) {
            Some(part) => Ok(part.shape),
            None => Err(Fault::BadShape),
        }
    }

    /// Both values of each of its atoms.
    pub(crate) fn atoms_of(&self, at: usize) -> Cube {
        match self.parts.get(at) {
            Some(part) => part.atoms,
            None => Cube::empty(),
        }
    }

    // The atoms of a part that is made so.
    fn atoms_below(&self, shape: Shape) -> Cube {
        match shape {
            Shape::Atom(atom) => Cube::both(atom),
            _ => match shape.sides() {
                Some((left, right)) => self.atoms_of(left).with(self.atoms_of(right)),
                None => Cube::empty(),
            },
        }
    }
}
