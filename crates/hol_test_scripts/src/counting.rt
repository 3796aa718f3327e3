// A host that counts its calls.

use crate::steps::{same, told, twice, unchanged};
use hol_host::{Converts, Equated, HostFail, Refines};
use hol_just::{Goal, Step};
use hol_terms::Term;
use std::alloc::Global;
use std::cell::Cell;

/// A refiner, with how often the counted functions were called since it was told last.
#[derive(Clone, Copy)]
pub(crate) enum Refiner<'a> {
    /// Every second call fails; the others leave the goal.
    Counted(&'a Cell<u32>),
    /// Tells the number of calls.
    Told(&'a Cell<u32>),
    Twice,
}

/// A conversion, with that number. Every second call fails; the others leave the term.
#[derive(Clone, Copy)]
pub(crate) struct Counted<'a> {
    calls: &'a Cell<u32>,
}

/// The refiners, each under its name.
pub(crate) fn refiners(calls: &Cell<u32>) -> [(&'static str, Refiner<'_>); 3] {
    [
        ("f", Refiner::Counted(calls)),
        ("calls", Refiner::Told(calls)),
        ("twice", Refiner::Twice),
    ]
}

/// The conversions, each under its name.
pub(crate) fn conversions(calls: &Cell<u32>) -> [(&'static str, Counted<'_>); 1] {
    [("f", Counted { calls })]
}

// Counts a call; whether it is to be answered.
fn answers(calls: &Cell<u32>) -> bool {
    let before = calls.get();
    calls.set(before.wrapping_add(1));
    before % 2 == 0
}

impl<'a> Refines for Refiner<'a> {
    fn refine(self, alloc: Global, goal: &Goal) -> Result<Step, HostFail> {
        match self {
            Refiner::Counted(calls) if answers(calls) => unchanged(alloc, goal),
            Refiner::Counted(_) => Err(HostFail::Failed),
            Refiner::Told(calls) => told(alloc, calls.replace(0), goal),
            Refiner::Twice => twice(alloc, goal),
        }
    }
}

impl<'a> Converts for Counted<'a> {
    fn convert(self, alloc: Global, term: &Term) -> Equated {
        if answers(self.calls) {
            same(alloc, term)
        } else {
            Err(HostFail::Failed)
        }
    }
}
