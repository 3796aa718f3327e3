// A host's stored conversions.
ghost use Rattle.std.specs.Prelude.{◌≡◌, ◌++◌, ◌∷◌, [], map, Contains, length, IfSome, IfNone, IsSome, OnOk, OnErr, ◌↔◌, string_bytes};
ghost use Rattle.hol_model.specs.Kernel.Outcome.{Answers};

use crate::functions::{Converters, Equated};
use crate::names::{is_full, is_same};
use hol_model::{Fault, is_identifier};
use hol_terms::Term;
use std::alloc::Global;

/// A host's conversion. It may answer anything, and equal calls may answer differently.
pub type Converter = Box<dyn Fn(Global, &Term) -> Equated>;

#[derive(Drop)]
struct NamedConverter {
    name: String,
    call: Converter,
    ghost callable: { Converter.IsAlwaysCallable call },
}

impl NamedConverter {
    // What the function answers.
    fn answer(&self, alloc: Global, term: &Term) -> Equated
        ensures { Converter.post self.now.call alloc term.entry result }
    {
        (self.call)(alloc, term)
    }
}

/// Conversions, each under a name of its own.
#[derive(Drop)]
pub struct HostConvs {
    conversions: Vec<NamedConverter>,
}

impl HostConvs {
    ghost use Rattle.hol_host.specs.Host.{leaving, stored_outcome, is_listed, IsPlace};
    ghost use Rattle.hol_host.specs.Stored.{conversion_names};

    /// No conversions.
    pub fn new(alloc: Global) -> HostConvs
        ensures { conversion_names result ≡ [] }
    {
        HostConvs {
            conversions: Vec::new(alloc),
        }
    }

    /// Stores a conversion, which may be called on every term. Refused: BadName unless the name is an identifier, NameTaken,
    /// TooLong past 64 conversions, Memory.
    pub fn add(&mut self, alloc: Global, name: &str, call: Converter) -> Result<(), Fault>
        requires { IsAlwaysCallable call }
        ensures outcome { Answers (leaving result (conversion_names self.new)) (stored_outcome 0 (conversion_names self.old) name.now) }
        ensures stored { OnOk result (map (λ entry. entry.call) self.new.conversions.items ≡ map (λ entry. entry.call) self.old.conversions.items ++ call ∷ []) }
        ensures kept { OnErr result (self.new.conversions.items ≡ self.old.conversions.items) }
    {
        self.add_beside(alloc, 0, name, call)
    }

    /// The same, where so many other functions count too.
    pub(crate) fn add_beside(
        &mut self,
        alloc: Global,
        others: usize,
        name: &str,
        call: Converter,
    ) -> Result<(), Fault>
        requires { IsAlwaysCallable call }
        ensures outcome { Answers (leaving result (conversion_names self.new)) (stored_outcome others (conversion_names self.old) name.now) }
        ensures stored { OnOk result (map (λ entry. entry.call) self.new.conversions.items ≡ map (λ entry. entry.call) self.old.conversions.items ++ call ∷ []) }
        ensures kept { OnErr result (self.new.conversions.items ≡ self.old.conversions.items) }
    {
        if !is_identifier(name.as_bytes()) {
            return Err(Fault::BadName);
        }
        if self.has(name) {
            return Err(Fault::NameTaken);
        }
        if is_full(others, self.conversions.len()) {
            return Err(Fault::TooLong);
        }
        let Ok(name) = String::from_str(alloc, name) else {
            return Err(Fault::Memory);
        };
        match self.conversions.push(NamedConverter { name, call }) {
            Ok(()) => Ok(()),
            Err(_) => Err(Fault::Memory),
        }
    }

    // How many there are.
    pub(crate) fn len(&self) -> usize
        ensures { result ≡ length (conversion_names self.now) }
    {
        self.conversions.len()
    }

    // Whether a conversion has this name.
    pub(crate) fn has(&self, name: &str) -> bool
        ensures { result ≡ is_listed name.now (conversion_names self.now) }
    {
        self.place(name).is_some()
    }

    // The conversion of this name.
    fn named(&self, name: &str) -> Option<&NamedConverter>
        ensures named { IfSome result (λ converter. string_bytes converter.now.name ≡ name.now) }
        ensures listed { IfSome result (λ converter. Contains self.now.conversions.items converter.now) }
        ensures there { IsSome result ↔ Contains (conversion_names self.now) name.now }
    {
        let place = self.place(name)?;
        Some(&self.conversions[place])
    }

    // The place of the conversion of this name.
    fn place(&self, name: &str) -> Option<usize>
        ensures found { IfSome result (λ place. IsPlace (conversion_names self.now) name.now place) }
        ensures none { IfNone result (Contains (conversion_names self.now) name.now → ⊥) }
    {
        for (i, conversion) in self.conversions.iter().enumerate() {
            if is_same(conversion.name.as_str(), name) {
                return Some(i);
            }
        }
        None
    }
}

impl Converters for HostConvs {
    ghost use Rattle.hol_host.specs.Host.{IsAnswerOfOne, MayAnswer, equation_answered};
    ghost use Rattle.hol_host.specs.Stored.{conversion_names};

    ghost conversions = { λ host. record {
      names = conversion_names host;
      converts = λ name term answer.
          IsAnswerOfOne host.conversions.items (λ entry. string_bytes entry.name) (λ entry. MayAnswer (Converter.post entry.call) (λ t. t) equation_answered term answer) name;
    } };

    fn convert(&self, alloc: Global, name: &str, term: &Term) -> Option<Equated> {
        let converter = self.named(name)?;
        Some(converter.answer(alloc, term))
    }
}
