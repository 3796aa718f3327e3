// The host of tests.

use crate::host_functions::{
    circular, deep, foreign, guess, mute, nameless, presuming, renamed, shapeless, shared, starved,
    starved_conv, stranger, twin, twisted, vast, without_lemma, wrong,
};
use hol_host::{Beside, Converts, Equated, HostFail, Refines, Table};
use hol_host_samples::peel;
use hol_just::{Goal, Step};
use hol_terms::Term;
use std::alloc::Global;

/// A refiner of tests.
#[derive(Clone, Copy)]
pub enum Refiner {
    Peel,
    Twin,
    Mute,
    Starved,
    Stranger,
    Shapeless,
    Circular,
    Shared,
    Deep,
    Presuming,
    Foreign,
    Nameless,
    WithoutLemma,
    Vast,
}

/// A conversion of tests.
#[derive(Clone, Copy)]
pub enum Conversion {
    Wrong,
    Starved,
    Twisted,
    Guess,
    Renamed,
}

/// The refiners, each under its name, and the sample `peel` under that of a refiner of the program's host.
pub const REFINERS: [(&str, Refiner); 14] = [
    ("meson", Refiner::Peel),
    ("twin", Refiner::Twin),
    ("mute", Refiner::Mute),
    ("starved", Refiner::Starved),
    ("stranger", Refiner::Stranger),
    ("shapeless", Refiner::Shapeless),
    ("circular", Refiner::Circular),
    ("shared", Refiner::Shared),
    ("deep", Refiner::Deep),
    ("presuming", Refiner::Presuming),
    ("foreign", Refiner::Foreign),
    ("nameless", Refiner::Nameless),
    ("without_lemma", Refiner::WithoutLemma),
    ("vast", Refiner::Vast),
];

/// The conversions, each under its name.
pub const CONVERSIONS: [(&str, Conversion); 5] = [
    ("wrong", Conversion::Wrong),
    ("starved", Conversion::Starved),
    ("twisted", Conversion::Twisted),
    ("guess", Conversion::Guess),
    ("renamed", Conversion::Renamed),
];

impl Refines for Refiner {
    fn refine(self, alloc: Global, goal: &Goal) -> Result<Step, HostFail> {
        match self {
            Refiner::Peel => peel(alloc, goal),
            Refiner::Twin => twin(alloc, goal),
            Refiner::Mute => mute(alloc, goal),
            Refiner::Starved => starved(alloc, goal),
            Refiner::Stranger => stranger(alloc, goal),
            Refiner::Shapeless => shapeless(alloc, goal),
            Refiner::Circular => circular(alloc, goal),
            Refiner::Shared => shared(alloc, goal),
            Refiner::Deep => deep(alloc, goal),
            Refiner::Presuming => presuming(alloc, goal),
            Refiner::Foreign => foreign(alloc, goal),
            Refiner::Nameless => nameless(alloc, goal),
            Refiner::WithoutLemma => without_lemma(alloc, goal),
            Refiner::Vast => vast(alloc, goal),
        }
    }
}

impl Converts for Conversion {
    fn convert(self, alloc: Global, term: &Term) -> Equated {
        match self {
            Conversion::Wrong => wrong(alloc, term),
            Conversion::Starved => starved_conv(alloc, term),
            Conversion::Twisted => twisted(alloc, term),
            Conversion::Guess => guess(alloc, term),
            Conversion::Renamed => renamed(alloc, term),
        }
    }
}

/// The host of tests.
pub type Samples = Beside<hol_host_samples::Samples, Table<'static, Refiner, Conversion>>;

/// The samples of the program, and the refiners and conversions of tests under the names of `REFINERS` and `CONVERSIONS`.
pub const SAMPLES: Samples = Beside {
    first: hol_host_samples::SAMPLES,
    second: Table {
        refiners: &REFINERS,
        conversions: &CONVERSIONS,
    },
};
