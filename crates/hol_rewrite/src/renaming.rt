// A term with one variable renamed.
ghost use Rattle.std.specs.Prelude.{◌≡◌, IfOk, IfErr, IsTrue, IsSome};
ghost use Rattle.hol_model.specs.declared.fault.Fault.TheVariants.{Memory};
ghost use Rattle.hol_model.specs.Terms.Name.{is_identifier};
ghost use Rattle.hol_model.specs.Terms.NamedTerm.{is_variable, combination, abstraction, type_of, is_within_limits};
ghost use Rattle.hol_model.specs.Terms.Substitution as spec;
ghost use Rattle.hol_rewrite.specs.Rules.{IsRenamed};
ghost use Rattle.hol_terms.specs.Classes.{class_of_name};

use hol_model::Fault;
use hol_terms::{NameClasses, Parts, Term, same_variable};
use hol_types::Ty;
use std::alloc::Global;

/// The term with the variable `old` renamed to `new`, of its type, at each free occurrence. Binders keep their names, so one
/// may capture the new name.
#[tactic(auto, using(crate::proofs::KeptSizes::between_variables))]
pub(crate) fn with_variable_renamed(
    alloc: Global,
    old: &Term,
    new: &Term,
    term: &Term,
) -> Result<Term, Fault>
    requires old { IsTrue (is_variable old.now) }
    requires new { IsTrue (is_variable new.now) }
    ensures ok { IfOk result (λ made. IsRenamed old.now new.now term.now made) }
    ensures err { IfErr result (λ fault. fault ≡ Memory) }
{
    let Some((name, ty)) = old.dest_var() else {
        unreachable!()
    };
    let Some((fresh, _)) = new.dest_var() else {
        unreachable!()
    };
    renamed(alloc, NameClasses::of_name(name), name, ty, fresh, term)
}

// The term with one variable renamed, given the class of its name: what lacks the class is handed on.
#[tactic(auto, using(crate::proofs::KeptSizes::renaming))]
fn renamed(
    alloc: Global,
    class: NameClasses,
    name: &str,
    ty: &Ty,
    fresh: &str,
    term: &Term,
) -> Result<Term, Fault>
    requires class { class.bits ≡ class_of_name name.now }
    requires fresh { IsTrue (is_identifier fresh.now) }
    ensures ok { IfOk result (λ made. made ≡ spec.with_new_name name.now ty.now fresh.now term.now) }
    ensures err { IfErr result (λ fault. fault ≡ Memory) }
{
    if !class.meets(term.names()) {
        return term.copy(alloc);
    }
    term.well_formed();
    match term.parts() {
        Parts::Variable(other, s) => {
            if same_variable(name, ty, other, s) {
                return Term::mk_var(alloc, fresh, s);
            }
            term.copy(alloc)
        }
        Parts::Constant(_, _) => term.copy(alloc),
        Parts::Combination(function, argument) => {
            let function = renamed(alloc, class, name, ty, fresh, function)?;
            let argument = renamed(alloc, class, name, ty, fresh, argument)?;
            combined(alloc, &function, &argument)
        }
        Parts::Abstraction(other, s, body) => {
            if same_variable(name, ty, other, s) {
                return term.copy(alloc);
            }
            let body = renamed(alloc, class, name, ty, fresh, body)?;
            abstracted(alloc, other, s, &body)
        }
    }
}

// The combination, where it is a term.
fn combined(alloc: Global, function: &Term, argument: &Term) -> Result<Term, Fault>
    requires typed { IsSome (type_of (combination function.now argument.now)) }
    requires fits { IsTrue (is_within_limits (combination function.now argument.now)) }
    ensures ok { IfOk result (λ term. term ≡ combination function.now argument.now) }
    ensures err { IfErr result (λ fault. fault ≡ Memory) }
{
    Term::mk_comb(alloc, function, argument)
}

// The abstraction, where it is within the limits.
fn abstracted(alloc: Global, name: &str, ty: &Ty, body: &Term) -> Result<Term, Fault>
    requires named { IsTrue (is_identifier name.now) }
    requires fits { IsTrue (is_within_limits (abstraction name.now ty.now body.now)) }
    ensures ok { IfOk result (λ term. term ≡ abstraction name.now ty.now body.now) }
    ensures err { IfErr result (λ fault. fault ≡ Memory) }
{
    let binder = Term::mk_var(alloc, name, ty)?;
    Term::mk_abs(alloc, &binder, body)
}
