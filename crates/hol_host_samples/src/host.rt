// The samples by their names.
use crate::conversions::swap;
use crate::refiners::{liar, liar2, peel};
use hol_host::{Converts, Equated, HostFail, Refines, Table};
use hol_just::{Goal, Step};
use hol_terms::Term;
use std::alloc::Global;

/// A sample refiner.
#[derive(Clone, Copy)]
pub enum Refiner {
    Peel,
    Liar,
    Liar2,
}

/// A sample conversion.
#[derive(Clone, Copy)]
pub enum Conversion {
    Swap,
}

/// The sample refiners, each under its name.
pub const REFINERS: [(&str, Refiner); 3] = [
    ("peel", Refiner::Peel),
    ("liar", Refiner::Liar),
    ("liar2", Refiner::Liar2),
];

/// The sample conversions, each under its name.
pub const CONVERSIONS: [(&str, Conversion); 1] = [("swap", Conversion::Swap)];

impl Refines for Refiner {
    fn refine(self, alloc: Global, goal: &Goal) -> Result<Step, HostFail> {
        match self {
            Refiner::Peel => peel(alloc, goal),
            Refiner::Liar => liar(alloc, goal),
            Refiner::Liar2 => liar2(alloc, goal),
        }
    }
}

impl Converts for Conversion {
    fn convert(self, alloc: Global, term: &Term) -> Equated {
        match self {
            Conversion::Swap => swap(alloc, term),
        }
    }
}

/// The host of the sample refiners and conversions.
pub type Samples = Table<'static, Refiner, Conversion>;

/// The sample refiners and conversions, under the names of `REFINERS` and `CONVERSIONS`.
pub const SAMPLES: Samples = Table {
    refiners: &REFINERS,
    conversions: &CONVERSIONS,
};
