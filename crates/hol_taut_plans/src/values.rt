// What is known of parts where some atoms have values.
use crate::parts::Parts;
use crate::shapes::Shape;
use hol_model::Fault;
use std::alloc::Global;

// The value of a part where it is known, by how many splits, the value that it is tried with, and whether the whole needs it.
#[derive(Clone, Copy)]
struct Value {
    known: Option<bool>,
    level: usize,
    tried: Option<bool>,
    is_needed: bool,
}

/// The value of an atom, by the number of its part.
#[derive(Clone, Copy)]
pub(crate) struct Fact {
    pub(crate) at: usize,
    pub(crate) value: bool,
}

/// What is known of the parts.
#[derive(Drop)]
pub(crate) struct Values {
    values: Vec<Value>,
}

impl Values {
    /// Nothing is known of so many parts.
    pub(crate) fn new(alloc: Global, count: usize) -> Result<Values, Fault> {
        let mut values = Vec::new(alloc);
        for _ in 0..count {
            values.push(Value {
                known: None,
                level: 0,
                tried: None,
                is_needed: false,
            })?;
        }
        Ok(Values { values })
    }

    /// The value of a part, where it is known.
    pub(crate) fn known(&self, at: usize) -> Option<bool> {
        match self.values.get(at) {
            Some(value) => value.known,
            None => None,
        }
    }

    /// Behind how many splits it became known.
    pub(crate) fn level(&self, at: usize) -> usize {
        match self.values.get(at) {
            Some(value) => value.level,
            None => 0,
        }
    }

    // The known value, or else the one that it is tried with.
    fn tried(&self, at: usize) -> Option<bool> {
        match self.values.get(at) {
            Some(value) => match value.known {
                Some(known) => Some(known),
                None => value.tried,
            },
            None => None,
        }
    }

    /// Makes a value known, or unknown.
    pub(crate) fn set(&mut self, at: usize, known: Option<bool>, level: usize) {
        if let Some(value) = self.values.get_mut(at) {
            value.known = known;
            value.level = level;
        }
    }

    fn set_tried(&mut self, at: usize, tried: Option<bool>) {
        if let Some(value) = self.values.get_mut(at) {
            value.tried = tried;
        }
    }

    fn set_needed(&mut self, at: usize, is_needed: bool) {
        if let Some(value) = self.values.get_mut(at) {
            value.is_needed = is_needed;
        }
    }

    fn is_needed(&self, at: usize) -> bool {
        match self.values.get(at) {
            Some(value) => value.is_needed && value.known.is_none(),
            None => false,
        }
    }

    /// The value of a part that is made so, where the known values of its sides tell it.
    pub(crate) fn told(&self, shape: Shape) -> Option<bool> {
        match shape.sides() {
            Some((left, right)) => shape.told(self.known(left), self.known(right)),
            None => shape.told(None, None),
        }
    }

    // The same by what these are tried with.
    fn told_tried(&self, shape: Shape) -> Option<bool> {
        match shape.sides() {
            Some((left, right)) => shape.told(self.tried(left), self.tried(right)),
            None => shape.told(None, None),
        }
    }

    // Marks those of the unknown parts that the whole needs.
    fn mark(&mut self, parts: &Parts, whole: usize, unknown: &[usize]) -> Result<(), Fault> {
        for at in unknown.iter() {
            self.set_needed(*at, false);
        }
        self.set_needed(whole, true);
        for at in unknown.iter().rev() {
            if self.is_needed(*at) {
                if let Some((left, right)) = parts.shape(*at)?.sides() {
                    self.set_needed(left, true);
                    self.set_needed(right, true);
                }
            }
        }
        Ok(())
    }

    // Those that the whole needs.
    fn needed(&self, alloc: Global, unknown: &[usize]) -> Result<Vec<usize>, Fault> {
        let mut needed = Vec::new(alloc);
        for at in unknown.iter() {
            if self.is_needed(*at) {
                needed.push(*at)?;
            }
        }
        Ok(needed)
    }

    /// What is known of unknown parts with one more fact, at this level. Answers those that are still unknown and that the whole
    /// needs.
    pub(crate) fn enter(
        &mut self,
        alloc: Global,
        parts: &Parts,
        whole: usize,
        unknown: &[usize],
        fact: Option<Fact>,
        level: usize,
    ) -> Result<Vec<usize>, Fault> {
        for at in unknown.iter() {
            let told = match fact {
                Some(fact) if fact.at == *at => Some(fact.value),
                _ => self.told(parts.shape(*at)?),
            };
            self.set(*at, told, level);
        }
        self.mark(parts, whole, unknown)?;
        self.needed(alloc, unknown)
    }

    /// Takes back what was made known.
    pub(crate) fn leave(&mut self, unknown: &[usize]) {
        for at in unknown.iter() {
            self.set(*at, None, 0);
        }
    }

    // Whether the whole is known with one more fact.
    fn tells(
        &mut self,
        parts: &Parts,
        whole: usize,
        unknown: &[usize],
        fact: Fact,
    ) -> Result<bool, Fault> {
        for at in unknown.iter() {
            let tried = if fact.at == *at {
                Some(fact.value)
            } else {
                self.told_tried(parts.shape(*at)?)
            };
            self.set_tried(*at, tried);
        }
        let tells = self.tried(whole).is_some();
        for at in unknown.iter() {
            self.set_tried(*at, None);
        }
        Ok(tells)
    }

    // How many values of an atom tell the value of the whole.
    fn told_by(
        &mut self,
        parts: &Parts,
        whole: usize,
        unknown: &[usize],
        at: usize,
    ) -> Result<usize, Fault> {
        let when_true = self.tells(parts, whole, unknown, Fact { at, value: true })?;
        let when_false = self.tells(parts, whole, unknown, Fact { at, value: false })?;
        if when_true && when_false {
            return Ok(2);
        }
        if when_true || when_false {
            Ok(1)
        } else {
            Ok(0)
        }
    }

    /// Of the unknown atoms the one whose values tell the value of the whole most often: the first, where several do.
    pub(crate) fn next_atom(
        &mut self,
        parts: &Parts,
        whole: usize,
        unknown: &[usize],
    ) -> Result<Option<(usize, usize)>, Fault> {
        let mut best = None;
        let mut most = 0;
        for at in unknown.iter() {
            if let Shape::Atom(atom) = parts.shape(*at)? {
                let told = self.told_by(parts, whole, unknown, *at)?;
                if best.is_none() || told > most {
                    best = Some((*at, atom));
                    most = told;
                }
            }
        }
        Ok(best)
    }
}
