// Two hosts as one.
ghost use Rattle.hol_host.specs.Host.{refiners_beside, conversions_beside};

use crate::functions::{Converters, Equated, HostFail, Refiners};
use hol_just::{Goal, Step};
use hol_terms::Term;
use std::alloc::Global;

/// Two hosts side by side. Of two functions of one name and kind the first host's answers.
#[derive(Drop)]
pub struct Beside<A, B> {
    pub first: A,
    pub second: B,
}

impl<A: Converters, B: Converters> Converters for Beside<A, B> {
    ghost conversions = { λ host. conversions_beside (A.conversions host.first) (B.conversions host.second) };

    fn convert(&self, alloc: Global, name: &str, term: &Term) -> Option<Equated> {
        match self.first.convert(alloc, name, term) {
            Some(answer) => Some(answer),
            None => self.second.convert(alloc, name, term),
        }
    }
}

impl<A: Refiners, B: Refiners> Refiners for Beside<A, B> {
    ghost refiners = { λ host. refiners_beside (A.refiners host.first) (B.refiners host.second) };

    fn refine(&self, alloc: Global, name: &str, goal: &Goal) -> Option<Result<Step, HostFail>> {
        match self.first.refine(alloc, name, goal) {
            Some(answer) => Some(answer),
            None => self.second.refine(alloc, name, goal),
        }
    }
}
