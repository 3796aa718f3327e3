// The denial of a part, and what it says of parts below it.
use crate::planner::{Planner, Shown};
use crate::steps::{Formula, Rule, Step};
use crate::ways::Way;
use hol_model::Fault;
use hol_taut_formulas::Law;
use indexmap::IndexMap;
use std::alloc::Global;

// How often a part has to be told by a side before it is worked out what the denial says of that side.
const FEWEST_VISITS: usize = 3;

// A side by which a part is told, with its value, and the law.
#[derive(Clone, Copy)]
struct Told {
    side: Side,
    law: Law,
}

// A part with a value that the denial excludes.
#[derive(Clone, Copy, PartialEq, Eq, Hash)]
struct Side {
    at: usize,
    value: bool,
}

// How often it was visited, and the step by which it is excluded.
#[derive(Clone, Copy)]
struct Excluded {
    visits: usize,
    step: Option<usize>,
}

/// The assumption that a part does not have the value that it always has.
#[derive(Drop)]
pub(crate) struct Denial {
    pub(crate) at: usize,
    step: usize,
    excluded: IndexMap<Side, Excluded>,
}

/// That a part has this value.
pub(crate) fn valued(at: usize, value: bool) -> Formula {
    if value {
        Formula::Part(at)
    } else {
        Formula::Denied(at)
    }
}

/// What gives `F` gives that a formula is equal to `F`.
pub(crate) fn denied(
    planner: &mut Planner,
    formula: Formula,
    absurd: usize,
) -> Result<usize, Fault> {
    let given = planner.put(Step::Inst(Law::Contr, formula, formula))?;
    planner.put(Step::Rule(Rule::DeductAntisym, given, absurd))
}

/// What gives `F` from the opposite of a value gives the value.
pub(crate) fn concluded(
    planner: &mut Planner,
    at: usize,
    value: bool,
    absurd: usize,
) -> Result<usize, Fault> {
    let step = denied(planner, valued(at, !value), absurd)?;
    if !value {
        return Ok(step);
    }
    let part = Formula::Part(at);
    planner.by_instance(Law::NotFalseElim, part, part, step)
}

// `F`, from what shows a part and what excludes its value.
fn opposed(value: bool, shown: usize, excluding: usize) -> Step {
    if value {
        Step::Rule(Rule::EqMp, excluding, shown)
    } else {
        Step::Rule(Rule::EqMp, shown, excluding)
    }
}

// The side by which a part is told, where one side tells it.
fn told_by(planner: &Planner, at: usize) -> Result<Option<Told>, Fault> {
    if planner.fact(at).is_some() {
        return Ok(None);
    }
    let Way::One(law, side) = planner.way(at)? else {
        return Ok(None);
    };
    match planner.values.known(side) {
        Some(value) if side < at => Ok(Some(Told {
            side: Side { at: side, value },
            law,
        })),
        _ => Ok(None),
    }
}

impl Denial {
    /// Assumes the opposite of a value.
    pub(crate) fn assume(
        planner: &mut Planner,
        alloc: Global,
        at: usize,
        value: bool,
    ) -> Result<Denial, Fault> {
        let step = planner.put(Step::Assume(valued(at, !value)))?;
        Ok(Denial {
            at,
            step,
            excluded: IndexMap::new(alloc),
        })
    }

    // Visits a side once more.
    fn visit(&mut self, side: Side) -> Result<Excluded, Fault> {
        let mut excluded = match self.excluded.get(&side) {
            Some(excluded) => *excluded,
            None => Excluded {
                visits: 0,
                step: None,
            },
        };
        excluded.visits = excluded.visits.saturating_add(1);
        self.excluded.insert(side, excluded)?;
        Ok(excluded)
    }

    // Visits the sides by which a part is told, all the way down.
    fn visit_all(&mut self, planner: &Planner, at: usize) -> Result<(), Fault> {
        let Some(told) = told_by(planner, at)? else {
            return Ok(());
        };
        if told.side.at >= at {
            return Ok(());
        }
        self.visit(told.side)?;
        self.visit_all(planner, told.side.at)
    }

    // Excludes the value of the side by which a part is told, as that of the part is.
    fn exclude(
        &mut self,
        planner: &mut Planner,
        at: usize,
        excluding: usize,
        told: Told,
        visits: usize,
    ) -> Result<usize, Fault> {
        let Some((left, right)) = planner.parts.shape(at)?.sides() else {
            return Err(Fault::BadShape);
        };
        let Some(value) = planner.values.known(at) else {
            return Err(Fault::BadShape);
        };
        let instance = Step::Inst(told.law, Formula::Part(left), Formula::Part(right));
        let instance = planner.put(instance)?;
        let absurd = planner.put(opposed(value, instance, excluding))?;
        let step = concluded(planner, told.side.at, !told.side.value, absurd)?;
        self.excluded.insert(
            told.side,
            Excluded {
                visits,
                step: Some(step),
            },
        )?;
        Ok(step)
    }

    // `F`, from a part whose value is excluded, or from one below it.
    fn opposed_below(
        &mut self,
        planner: &mut Planner,
        at: usize,
        excluding: usize,
    ) -> Result<Shown, Fault> {
        if let Some(told) = told_by(planner, at)? {
            if told.side.at >= at {
                return Err(Fault::BadShape);
            }
            let excluded = self.visit(told.side)?;
            if let Some(step) = excluded.step {
                return self.opposed_below(planner, told.side.at, step);
            }
            if excluded.visits >= FEWEST_VISITS {
                let step = self.exclude(planner, at, excluding, told, excluded.visits)?;
                return self.opposed_below(planner, told.side.at, step);
            }
            self.visit_all(planner, told.side.at)?;
        }
        let Some(value) = planner.values.known(at) else {
            return Err(Fault::BadShape);
        };
        let shown = planner.show(at)?;
        Ok(Shown {
            step: planner.put(opposed(value, shown.step, excluding))?,
            cube: shown.cube,
        })
    }

    /// `F`, where the part has its value.
    pub(crate) fn refuted(&mut self, planner: &mut Planner) -> Result<Shown, Fault> {
        self.opposed_below(planner, self.at, self.step)
    }
}
