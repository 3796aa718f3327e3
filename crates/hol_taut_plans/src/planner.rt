// Steps that show parts whose values are known.
use crate::cubes::Cube;
use crate::parts::Parts;
use crate::steps::{Formula, Rule, Step};
use crate::values::Values;
use crate::ways::{Side, Way, way_to};
use hol_model::Fault;
use hol_taut_formulas::Law;
use indexmap::{IndexMap, IndexSet};
use std::alloc::Global;

// The most steps of a plan.
const MOST_STEPS: usize = 400_000;

// The most parts that are looked at as values are told.
const MOST_WORK: usize = 50_000_000;

/// The step that shows a part, and the values of atoms that it assumes.
#[derive(Clone, Copy)]
pub(crate) struct Shown {
    pub(crate) step: usize,
    pub(crate) cube: Cube,
}

// A part, and the values of its atoms where it became known.
#[derive(Clone, Copy, PartialEq, Eq, Hash)]
struct Place {
    at: usize,
    cube: Cube,
}

/// A plan as it is made.
#[derive(Drop)]
pub(crate) struct Planner {
    pub(crate) parts: Parts,
    pub(crate) values: Values,
    /// The values of the atoms behind each of the splits, none behind the first of them.
    pub(crate) cubes: Vec<Cube>,
    /// What shows parts by themselves.
    facts: Vec<Option<Shown>>,
    shown: IndexMap<Place, Shown>,
    steps: IndexSet<Step>,
    work: usize,
}

impl Planner {
    /// No step as yet.
    pub(crate) fn new(alloc: Global, parts: Parts) -> Result<Planner, Fault> {
        let count = parts.len();
        let values = Values::new(alloc, count)?;
        let mut facts = Vec::new(alloc);
        for _ in 0..count {
            facts.push(None)?;
        }
        let mut cubes = Vec::new(alloc);
        cubes.push(Cube::empty())?;
        Ok(Planner {
            parts,
            values,
            cubes,
            facts,
            shown: IndexMap::new(alloc),
            steps: IndexSet::new(alloc),
            work: 0,
        })
    }

    /// Notes that so many parts are looked at. Refused: TooLarge.
    pub(crate) fn spend(&mut self, work: usize) -> Result<(), Fault> {
        self.work = self.work.saturating_add(work);
        if self.work > MOST_WORK {
            return Err(Fault::TooLarge);
        }
        Ok(())
    }

    /// The number of a step, which is put to the plan where it does not stand there. Refused: TooLarge; Memory.
    pub(crate) fn put(&mut self, step: Step) -> Result<usize, Fault> {
        if self.steps.len() >= MOST_STEPS {
            return Err(Fault::TooLarge);
        }
        let (number, _) = self.steps.insert_full(step)?;
        Ok(number)
    }

    /// The steps.
    pub(crate) fn steps(&self) -> &[Step] {
        self.steps.as_slice()
    }

    /// Keeps what shows a part by itself.
    pub(crate) fn set_fact(&mut self, at: usize, shown: Shown) {
        if let Some(fact) = self.facts.get_mut(at) {
            *fact = Some(shown);
        }
    }

    /// The value of a part, where the known values of its sides tell it.
    pub(crate) fn told(&self, at: usize) -> Result<Option<bool>, Fault> {
        Ok(self.values.told(self.parts.shape(at)?))
    }

    /// What shows a part by itself.
    pub(crate) fn fact(&self, at: usize) -> Option<Shown> {
        match self.facts.get(at) {
            Some(fact) => *fact,
            None => None,
        }
    }

    // The values of the atoms behind so many splits.
    fn cube_at(&self, level: usize) -> Cube {
        match self.cubes.get(level) {
            Some(cube) => *cube,
            None => Cube::empty(),
        }
    }

    /// The values of the atoms.
    pub(crate) fn now(&self) -> Cube {
        match self.cubes.last() {
            Some(cube) => *cube,
            None => Cube::empty(),
        }
    }

    // The place of a part, by the values of its atoms where it became known.
    fn place(&self, at: usize) -> Place {
        let cube = self.cube_at(self.values.level(at));
        Place {
            at,
            cube: cube.among(self.parts.atoms_of(at)),
        }
    }

    // What shows a part, where that was found.
    fn found(&self, at: usize) -> Option<Shown> {
        if let Some(fact) = self.fact(at) {
            return Some(fact);
        }
        match self.shown.get(&self.place(at)) {
            Some(shown) => Some(*shown),
            None => None,
        }
    }

    /// By a law at two formulas.
    pub(crate) fn by_instance(
        &mut self,
        law: Law,
        p: Formula,
        q: Formula,
        premise: usize,
    ) -> Result<usize, Fault> {
        let instance = self.put(Step::Inst(law, p, q))?;
        let equation = self.put(Step::Rule(Rule::DeductAntisym, premise, instance))?;
        self.put(Step::Rule(Rule::EqMp, equation, premise))
    }

    // Whether a side has its value as early as the part.
    fn is_early(&self, at: usize, side: Side) -> bool {
        match self.values.known(side.at) {
            Some(value) => {
                value == side.value && self.values.level(side.at) <= self.values.level(at)
            }
            None => false,
        }
    }

    // Of two sides the one that takes less.
    fn easier(&self, left: Side, right: Side) -> Side {
        if self.found(left.at).is_some() {
            return left;
        }
        if self.found(right.at).is_some() {
            return right;
        }
        let left_atoms = self.parts.atoms_of(left.at).count();
        if left_atoms <= self.parts.atoms_of(right.at).count() {
            left
        } else {
            right
        }
    }

    // The side from which a part follows.
    fn side(&self, at: usize, left: Side, right: Side) -> Side {
        if !self.is_early(at, right) {
            return left;
        }
        if !self.is_early(at, left) {
            return right;
        }
        self.easier(left, right)
    }

    /// How a part whose value is known follows: of two sides the one that takes less is chosen.
    pub(crate) fn way(&self, at: usize) -> Result<Way, Fault> {
        let shape = self.parts.shape(at)?;
        let Some(value) = self.values.known(at) else {
            return Ok(Way::Nowhere);
        };
        let sides = match shape.sides() {
            Some((left, right)) => (self.values.known(left), self.values.known(right)),
            None => (None, None),
        };
        match way_to(shape, value, sides) {
            Way::Either(left, right) => {
                let side = self.side(at, left, right);
                Ok(Way::One(side.law, side.at))
            }
            way => Ok(way),
        }
    }

    // By a rule of two theorems.
    fn by_rule(&mut self, rule: Rule, first: Shown, second: Shown) -> Result<Shown, Fault> {
        Ok(Shown {
            step: self.put(Step::Rule(rule, first.step, second.step))?,
            cube: first.cube.with(second.cube),
        })
    }

    // By a law at the sides of a part.
    fn by_law(&mut self, law: Law, at: usize, premise: Shown) -> Result<Shown, Fault> {
        let Some((left, right)) = self.parts.shape(at)?.sides() else {
            return Err(Fault::BadShape);
        };
        let (p, q) = (Formula::Part(left), Formula::Part(right));
        Ok(Shown {
            step: self.by_instance(law, p, q, premise.step)?,
            cube: premise.cube,
        })
    }

    // `T`, `F <=> F` or `p <=> p`.
    fn plain(&mut self, step: Step) -> Result<Shown, Fault> {
        Ok(Shown {
            step: self.put(step)?,
            cube: Cube::empty(),
        })
    }

    // Notes what shows a part, for whenever its atoms have the same values.
    fn keep(&mut self, at: usize, shown: Shown) -> Result<Shown, Fault> {
        let place = self.place(at);
        self.shown.insert(place, shown)?;
        Ok(shown)
    }

    /// The step that shows a part whose value is known.
    pub(crate) fn show(&mut self, at: usize) -> Result<Shown, Fault> {
        if let Some(found) = self.found(at) {
            return Ok(found);
        }
        let shown = match self.way(at)? {
            Way::Constant(true) => self.plain(Step::Truth)?,
            Way::Constant(false) => self.plain(Step::Refl(Formula::Part(at)))?,
            Way::Refl(side) => self.plain(Step::Refl(Formula::Part(side)))?,
            Way::One(law, side) => {
                if side >= at {
                    return Err(Fault::BadShape);
                }
                let premise = self.show(side)?;
                self.by_law(law, at, premise)?
            }
            Way::Two(law, side, other, rule) => {
                if side >= at || other >= at {
                    return Err(Fault::BadShape);
                }
                let premise = self.show(side)?;
                let first = self.by_law(law, at, premise)?;
                let second = self.show(other)?;
                self.by_rule(rule, first, second)?
            }
            Way::Both(left, right) => {
                if left >= at || right >= at {
                    return Err(Fault::BadShape);
                }
                let first = self.show(left)?;
                let second = self.show(right)?;
                self.by_rule(Rule::DeductAntisym, first, second)?
            }
            _ => return Err(Fault::BadShape),
        };
        self.keep(at, shown)
    }
}
