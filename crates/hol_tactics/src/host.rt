// The functions of this layer by their names.

use hol_host::{Converts, Equated, HostFail, Refines, Table};
use hol_just::{Goal, Step};
use hol_tactics_congruence::eq;
use hol_tactics_meson::meson;
use hol_tactics_rewrite::{asm_rewrite, beta, rewrite, unwind};
use hol_tactics_rules::{accept, asm_back, back, cases, cut, exists, spec_all, strip, undisch};
use hol_terms::Term;
use std::alloc::Global;

/// A refiner of this layer.
#[derive(Clone, Copy)]
pub enum Refiner {
    Strip,
    Back,
    AsmBack,
    Accept,
    Cut,
    Cases,
    SpecAll,
    Undisch,
    Exists,
    AsmRewrite,
    Rewrite,
    Eq,
    Meson,
}

/// A conversion of this layer.
#[derive(Clone, Copy)]
pub enum Conversion {
    Beta,
    Unwind,
}

/// The refiners, each under its name.
pub const REFINERS: [(&str, Refiner); 13] = [
    ("strip", Refiner::Strip),
    ("back", Refiner::Back),
    ("asm_back", Refiner::AsmBack),
    ("accept", Refiner::Accept),
    ("cut", Refiner::Cut),
    ("cases", Refiner::Cases),
    ("spec_all", Refiner::SpecAll),
    ("undisch", Refiner::Undisch),
    ("exists", Refiner::Exists),
    ("asm_rewrite", Refiner::AsmRewrite),
    ("rewrite", Refiner::Rewrite),
    ("eq", Refiner::Eq),
    ("meson", Refiner::Meson),
];

/// The conversions, each under its name.
pub const CONVERSIONS: [(&str, Conversion); 2] = [
    ("beta", Conversion::Beta),
    ("unwind", Conversion::Unwind),
];

impl Refines for Refiner {
    fn refine(self, alloc: Global, goal: &Goal) -> Result<Step, HostFail> {
        match self {
            Refiner::Strip => strip(alloc, goal),
            Refiner::Back => back(alloc, goal),
            Refiner::AsmBack => asm_back(alloc, goal),
            Refiner::Accept => accept(alloc, goal),
            Refiner::Cut => cut(alloc, goal),
            Refiner::Cases => cases(alloc, goal),
            Refiner::SpecAll => spec_all(alloc, goal),
            Refiner::Undisch => undisch(alloc, goal),
            Refiner::Exists => exists(alloc, goal),
            Refiner::AsmRewrite => asm_rewrite(alloc, goal),
            Refiner::Rewrite => rewrite(alloc, goal),
            Refiner::Eq => eq(alloc, goal),
            Refiner::Meson => meson(alloc, goal),
        }
    }
}

impl Converts for Conversion {
    fn convert(self, alloc: Global, term: &Term) -> Equated {
        match self {
            Conversion::Beta => beta(alloc, term),
            Conversion::Unwind => unwind(alloc, term),
        }
    }
}

/// The host of these refiners and conversions.
pub type Tactics = Table<'static, Refiner, Conversion>;

/// The refiners and conversions of this layer, under the names of `REFINERS` and `CONVERSIONS`.
pub const TACTICS: Tactics = Table {
    refiners: &REFINERS,
    conversions: &CONVERSIONS,
};
