// Definitions and declarations (HOL Light's `new_basic_definition`, and constants and types without a definition).
ghost use Rattle.std.specs.Prelude.{◌≡◌, true, IfOk, OnErr};
ghost use Rattle.hol_model.specs.Terms.Name.{is_constant_name};
ghost use Rattle.hol_model.specs.Terms.NamedTerm.{constant, equation};
ghost use Rattle.hol_model.specs.Logic.Legality.{own_type};
ghost use Rattle.hol_model.specs.Logic.KnownTerm as spec;
ghost use Rattle.hol_model.specs.Logic.Theory.{IsEarlier};
ghost use Rattle.hol_model.specs.Kernel.Rules as outcome;
ghost use Rattle.hol_model.specs.Kernel.Outcome.{Answers};
ghost use Rattle.hol_kernel.specs.Leaving.{leaving};

use crate::equation::equation;
use crate::known::knows_type;
use crate::legality::{is_closed, is_fixed, is_new_name, reflects};
use crate::theory::Theory;
use crate::thm::Thm;
use hol_model::{Fault, is_constant_name, is_declared_type_name};
use hol_terms::Term;
use hol_types::Ty;
use std::alloc::Global;

// The equation of a constant and the term that it stands for.
fn defining_equation(alloc: Global, name: &str, term: &Term) -> Result<Term, Fault>
    requires { is_constant_name name.now ≡ true }
    ensures { Answers result (outcome.limited (equation (constant name.now (own_type term.now)) term.now)) }
{
    let constant = Term::mk_const(alloc, name, term.ty())?;
    equation(alloc, &constant, term)
}

impl Theory {
    /// Defines a constant; the theorem is `|- c = t`, and stands on the theory with the definition. BadName where no constant
    /// may have the name; then refused where the theory does not know the term, as `first_unknown` answers; NotClosed where
    /// a variable is free in it; TypeVarsNotReflected where a type variable in it does not stand in its type; AlreadyDefined
    /// where the name is taken; TooLarge where the theory is full or the equation is past the limits. After a refusal the
    /// theory is as before.
    pub fn define(&mut self, alloc: Global, name: &str, term: &Term) -> Result<Thm, Fault>
        ensures outcome { Answers result (outcome.define_outcome self.old name.now term.now) }
        ensures grown { IfOk result (λ theorem. self.new ≡ theorem.theory) }
        ensures kept { OnErr result (self.new ≡ self.old) }
        ensures earlier { IsEarlier self.old self.new }
    {
        if !is_constant_name(name.as_bytes()) {
            return Err(Fault::BadName);
        }
        if let Some(fault) = self.first_unknown(term) {
            return Err(fault);
        }
        if !is_closed(term) {
            return Err(Fault::NotClosed);
        }
        if !reflects(term, term.ty()) {
            return Err(Fault::TypeVarsNotReflected);
        }
        if !is_new_name(self, name) {
            return Err(Fault::AlreadyDefined);
        }
        if self.is_full() {
            return Err(Fault::TooLarge);
        }
        let conclusion = defining_equation(alloc, name, term)?;
        let entries = self.entries().with_definition(alloc, name, term)?;
        let theorem = Thm::new(alloc, &entries, Vec::new(alloc), conclusion)?;
        self.grow_by_constant(alloc, name, term.ty(), entries)?;
        Ok(theorem)
    }

    /// Declares a type. BadName where no declared type may have the name; AlreadyDefined where it is taken; TooLarge where
    /// the theory is full. After a refusal the theory is as before.
    pub fn new_type(&mut self, alloc: Global, name: &str) -> Result<(), Fault>
        ensures outcome { Answers (leaving result self.new) (outcome.new_type_outcome self.old name.now) }
        ensures kept { OnErr result (self.new ≡ self.old) }
        ensures earlier { IsEarlier self.old self.new }
    {
        if !is_declared_type_name(name.as_bytes()) {
            return Err(Fault::BadName);
        }
        if !is_new_name(self, name) {
            return Err(Fault::AlreadyDefined);
        }
        if self.is_full() {
            return Err(Fault::TooLarge);
        }
        let entries = self.entries().with_type(alloc, name)?;
        self.grow_by_type(alloc, name, entries)
    }

    /// Declares a constant of a type without type variables. BadName where no constant may have the name; UnknownType where
    /// the theory does not know the type; TypeVarsNotReflected where a type variable stands in it; AlreadyDefined where the
    /// name is taken; TooLarge where the theory is full. After a refusal the theory is as before.
    pub fn new_const(&mut self, alloc: Global, name: &str, ty: &Ty) -> Result<(), Fault>
        ensures outcome { Answers (leaving result self.new) (outcome.new_const_outcome self.old name.now ty.now) }
        ensures kept { OnErr result (self.new ≡ self.old) }
        ensures earlier { IsEarlier self.old self.new }
    {
        if !is_constant_name(name.as_bytes()) {
            return Err(Fault::BadName);
        }
        if !knows_type(ty, self) {
            return Err(Fault::UnknownType);
        }
        if !is_fixed(ty) {
            return Err(Fault::TypeVarsNotReflected);
        }
        if !is_new_name(self, name) {
            return Err(Fault::AlreadyDefined);
        }
        if self.is_full() {
            return Err(Fault::TooLarge);
        }
        let entries = self.entries().with_constant(alloc, name, ty)?;
        self.grow_by_constant(alloc, name, ty, entries)
    }
}
