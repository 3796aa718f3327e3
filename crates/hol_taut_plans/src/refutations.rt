// Steps that show a part by splits over its atoms: they refute its denial.
use crate::cubes::Cube;
use crate::denials::{Denial, concluded, denied, valued};
use crate::planner::{Planner, Shown};
use crate::steps::{Formula, Rule, Step};
use crate::values::Fact;
use hol_model::{ATOMS_LIMIT, Fault};
use std::alloc::Global;

// Assumes the value of an atom, and answers what is left unknown.
fn entered(
    planner: &mut Planner,
    alloc: Global,
    whole: usize,
    unknown: &[usize],
    fact: Fact,
    cube: Cube,
) -> Result<Vec<usize>, Fault> {
    let step = planner.put(Step::Assume(valued(fact.at, fact.value)))?;
    planner.set_fact(fact.at, Shown { step, cube });
    let level = planner.cubes.len();
    let now = planner.now();
    planner.cubes.push(now.with(cube))?;
    planner
        .values
        .enter(alloc, &planner.parts, whole, unknown, Some(fact), level)
}

// Takes the assumption back.
fn left(planner: &mut Planner, unknown: &[usize]) {
    planner.values.leave(unknown);
    let _ = planner.cubes.pop();
}

// `F` without the assumption that an atom is false, by what gives `F` from that it is true.
fn cut(
    planner: &mut Planner,
    at: usize,
    atom: usize,
    when_true: Shown,
    when_false: Shown,
) -> Result<Shown, Fault> {
    let fact = denied(planner, Formula::Part(at), when_true.step)?;
    let equation = planner.put(Step::Rule(Rule::DeductAntisym, fact, when_false.step))?;
    let cube = when_true.cube.with(when_false.cube);
    Ok(Shown {
        step: planner.put(Step::Rule(Rule::EqMp, equation, fact))?,
        cube: cube.without(Cube::both(atom)),
    })
}

// `F`, from a denial, by at most so many more splits.
fn refuted(
    planner: &mut Planner,
    alloc: Global,
    denial: &mut Denial,
    unknown: &[usize],
    most: usize,
) -> Result<Shown, Fault> {
    let whole = denial.at;
    if planner.values.known(whole).is_some() {
        return denial.refuted(planner);
    }
    if most == 0 {
        return Err(Fault::BadShape);
    }
    planner.spend(unknown.len().saturating_mul(most))?;
    let next = planner.values.next_atom(&planner.parts, whole, unknown)?;
    let Some((at, atom)) = next else {
        return Err(Fault::BadShape);
    };
    let truth = Cube::one(atom, true);
    let rest = entered(
        planner,
        alloc,
        whole,
        unknown,
        Fact { at, value: true },
        truth,
    )?;
    let when_true = refuted(planner, alloc, denial, &rest, most - 1)?;
    left(planner, unknown);
    if !truth.is_within(when_true.cube) {
        return Ok(when_true);
    }
    let falsity = Cube::one(atom, false);
    let rest = entered(
        planner,
        alloc,
        whole,
        unknown,
        Fact { at, value: false },
        falsity,
    )?;
    let when_false = refuted(planner, alloc, denial, &rest, most - 1)?;
    left(planner, unknown);
    if !falsity.is_within(when_false.cube) {
        return Ok(when_false);
    }
    cut(planner, at, atom, when_true, when_false)
}

/// Plans that a part always has this value, where it is the last of the unknown parts.
pub(crate) fn settle(
    planner: &mut Planner,
    alloc: Global,
    unknown: &[usize],
    at: usize,
    value: bool,
) -> Result<(), Fault> {
    let mut denial = Denial::assume(planner, alloc, at, value)?;
    let needed = planner
        .values
        .enter(alloc, &planner.parts, at, unknown, None, 0)?;
    let absurd = refuted(planner, alloc, &mut denial, &needed, ATOMS_LIMIT)?;
    let step = concluded(planner, at, value, absurd.step)?;
    planner.values.set(at, Some(value), 0);
    planner.set_fact(
        at,
        Shown {
            step,
            cube: absurd.cube,
        },
    );
    Ok(())
}
