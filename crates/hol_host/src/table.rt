// Hosts whose functions stand in tables.
ghost use Rattle.std.specs.Prelude.{◌≡◌, ◌↔◌, map, Contains, IsSome};

use crate::functions::{Converters, Equated, HostFail, Refiners};
use hol_just::{Goal, Step};
use hol_terms::Term;
use std::alloc::Global;

/// A refiner that stands in a table. It may answer anything.
pub trait Refines: Copy {
    /// Its step of a goal.
    fn refine(self, alloc: Global, goal: &Goal) -> Result<Step, HostFail>;
}

/// A conversion that stands in a table. It may answer anything.
pub trait Converts: Copy {
    /// Its equation of a term.
    fn convert(self, alloc: Global, term: &Term) -> Equated;
}

/// A host of two tables: refiners and conversions, each under its name. Of two functions of one name and kind the first answers.
#[derive(Clone, Copy)]
pub struct Table<'a, R, C> {
    pub refiners: &'a [(&'static str, R)],
    pub conversions: &'a [(&'static str, C)],
}

impl<'a, R: Refines, C: Converts> Converters for Table<'a, R, C> {
    ghost conversions = { λ host. record {
      names = map (λ entry. entry.0.now) host.conversions.now;
      converts = λ name term answer. Unit {0};
    } };

    fn convert(&self, alloc: Global, name: &str, term: &Term) -> Option<Equated> {
        let conversion = named(self.conversions, name)?;
        Some(conversion.convert(alloc, term))
    }
}

impl<'a, R: Refines, C: Converts> Refiners for Table<'a, R, C> {
    ghost refiners = { λ host. record {
      names = map (λ entry. entry.0.now) host.refiners.now;
      refines = λ name goal answer. Unit {0};
    } };

    fn refine(&self, alloc: Global, name: &str, goal: &Goal) -> Option<Result<Step, HostFail>> {
        let refiner = named(self.refiners, name)?;
        Some(refiner.refine(alloc, goal))
    }
}

/// What stands under a name in a table.
pub fn named<F: Copy>(table: &[(&'static str, F)], name: &str) -> Option<F>
    ensures { IsSome result ↔ Contains (map (λ entry. entry.0.now) table.now) name.now }
{
    for entry in table {
        if entry.0 == name {
            return Some(entry.1);
        }
    }
    None
}
