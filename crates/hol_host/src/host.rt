// A host's stored refiners and conversions.
ghost use Rattle.std.specs.Prelude.{◌≡◌, ◌++◌, ◌∷◌, [], map, Contains, length, IfSome, IfNone, IsSome, OnOk, OnErr, ◌↔◌, string_bytes};
ghost use Rattle.hol_model.specs.Kernel.Outcome.{Answers};

use crate::conversions::{Converter, HostConvs};
use crate::functions::{Converters, Equated, HostFail, Refiners};
use crate::names::{is_full, is_same};
use hol_just::{Goal, Step};
use hol_model::{Fault, is_identifier};
use hol_terms::Term;
use std::alloc::Global;

/// A host's refiner: of a goal, a step to subgoals. It may answer anything, and equal calls may answer differently.
pub type Refiner = Box<dyn Fn(Global, &Goal) -> Result<Step, HostFail>>;

#[derive(Drop)]
struct NamedRefiner {
    name: String,
    call: Refiner,
    ghost callable: { Refiner.IsAlwaysCallable call },
}

impl NamedRefiner {
    // What the function answers.
    fn answer(&self, alloc: Global, goal: &Goal) -> Result<Step, HostFail>
        ensures { Refiner.post self.now.call alloc goal.entry result }
    {
        (self.call)(alloc, goal)
    }
}

/// Refiners and conversions, each under a name of its own among its kind: at most 64 together.
#[derive(Drop)]
pub struct Host {
    refiners: Vec<NamedRefiner>,
    conversions: HostConvs,
}

impl Host {
    ghost use Rattle.hol_host.specs.Host.{leaving, stored_outcome, is_listed, IsPlace};
    ghost use Rattle.hol_host.specs.Stored.{conversion_names, refiner_names};

    /// No functions.
    pub fn new(alloc: Global) -> Host
        ensures refiners { refiner_names result ≡ [] }
        ensures conversions { conversion_names result.conversions ≡ [] }
    {
        Host {
            refiners: Vec::new(alloc),
            conversions: HostConvs::new(alloc),
        }
    }

    /// Stores a refiner, which may be called on every goal. Refused: BadName unless the name is an identifier, NameTaken by another
    /// refiner, TooLong past 64 functions of both kinds, Memory.
    pub fn refiner(&mut self, alloc: Global, name: &str, call: Refiner) -> Result<(), Fault>
        requires { IsAlwaysCallable call }
        ensures outcome { Answers (leaving result (refiner_names self.new)) (stored_outcome (length (conversion_names self.old.conversions)) (refiner_names self.old) name.now) }
        ensures stored { OnOk result (map (λ entry. entry.call) self.new.refiners.items ≡ map (λ entry. entry.call) self.old.refiners.items ++ call ∷ []) }
        ensures kept { OnErr result (self.new.refiners.items ≡ self.old.refiners.items) }
        ensures conversions { self.new.conversions ≡ self.old.conversions }
    {
        if !is_identifier(name.as_bytes()) {
            return Err(Fault::BadName);
        }
        if self.has(name) {
            return Err(Fault::NameTaken);
        }
        if is_full(self.conversions.len(), self.refiners.len()) {
            return Err(Fault::TooLong);
        }
        let Ok(name) = String::from_str(alloc, name) else {
            return Err(Fault::Memory);
        };
        match self.refiners.push(NamedRefiner { name, call }) {
            Ok(()) => Ok(()),
            Err(_) => Err(Fault::Memory),
        }
    }

    /// Stores a conversion, which may be called on every term. Refused: BadName unless the name is an identifier, NameTaken by another
    /// conversion, TooLong past 64 functions of both kinds, Memory.
    pub fn conv(&mut self, alloc: Global, name: &str, call: Converter) -> Result<(), Fault>
        requires { IsAlwaysCallable call }
        ensures outcome { Answers (leaving result (conversion_names self.new.conversions)) (stored_outcome (length (refiner_names self.old)) (conversion_names self.old.conversions) name.now) }
        ensures stored { OnOk result (map (λ entry. entry.call) self.new.conversions.conversions.items ≡ map (λ entry. entry.call) self.old.conversions.conversions.items ++ call ∷ []) }
        ensures kept { OnErr result (self.new.conversions.conversions.items ≡ self.old.conversions.conversions.items) }
        ensures refiners { self.new.refiners ≡ self.old.refiners }
    {
        let others = self.refiners.len();
        self.conversions.add_beside(alloc, others, name, call)
    }

    // Whether a refiner has this name.
    fn has(&self, name: &str) -> bool
        ensures { result ≡ is_listed name.now (refiner_names self.now) }
    {
        self.place(name).is_some()
    }

    // The refiner of this name.
    fn named(&self, name: &str) -> Option<&NamedRefiner>
        ensures named { IfSome result (λ refiner. string_bytes refiner.now.name ≡ name.now) }
        ensures listed { IfSome result (λ refiner. Contains self.now.refiners.items refiner.now) }
        ensures there { IsSome result ↔ Contains (refiner_names self.now) name.now }
    {
        let place = self.place(name)?;
        Some(&self.refiners[place])
    }

    // The place of the refiner of this name.
    fn place(&self, name: &str) -> Option<usize>
        ensures found { IfSome result (λ place. IsPlace (refiner_names self.now) name.now place) }
        ensures none { IfNone result (Contains (refiner_names self.now) name.now → ⊥) }
    {
        for (i, refiner) in self.refiners.iter().enumerate() {
            if is_same(refiner.name.as_str(), name) {
                return Some(i);
            }
        }
        None
    }
}

impl Converters for Host {
    ghost use Rattle.hol_host.specs.Host.{IsAnswerOfOne, MayAnswer, equation_answered};
    ghost use Rattle.hol_host.specs.Stored.{conversion_names};

    ghost conversions = { λ host. record {
      names = conversion_names host.conversions;
      converts = λ name term answer.
          IsAnswerOfOne host.conversions.conversions.items (λ entry. string_bytes entry.name) (λ entry. MayAnswer (Converter.post entry.call) (λ t. t) equation_answered term answer) name;
    } };

    fn convert(&self, alloc: Global, name: &str, term: &Term) -> Option<Equated> {
        self.conversions.convert(alloc, name, term)
    }
}

impl Refiners for Host {
    ghost use Rattle.hol_just.specs.Steps.{goal_of};
    ghost use Rattle.hol_host.specs.Host.{IsAnswerOfOne, MayAnswer, step_answered};
    ghost use Rattle.hol_host.specs.Stored.{refiner_names};

    ghost refiners = { λ host. record {
      names = refiner_names host;
      refines = λ name goal answer.
          IsAnswerOfOne host.refiners.items (λ entry. string_bytes entry.name) (λ entry. MayAnswer (Refiner.post entry.call) goal_of step_answered goal answer) name;
    } };

    fn refine(&self, alloc: Global, name: &str, goal: &Goal) -> Option<Result<Step, HostFail>> {
        let refiner = self.named(name)?;
        Some(refiner.answer(alloc, goal))
    }
}
