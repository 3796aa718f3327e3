// The two axioms (HOL Light's ETA_AX and SELECT_AX without their quantifiers).
ghost use Rattle.std.specs.Prelude.{◌≡◌, [], ◌∷◌, IfOk, IfErr, codes};
ghost use Rattle.hol_model.specs.Terms.NamedTerm.{variable, combination, abstraction};
ghost use Rattle.hol_model.specs.Logic.Theory.{type_a};
ghost use Rattle.hol_model.specs.Kernel.NamedAxioms as axioms;
ghost use Rattle.hol_model.specs.declared.fault.Fault.TheVariants.{Memory};

use crate::generic::{choice, predicate_type, type_a};
use crate::hypotheses::one_hypothesis;
use crate::theory::Theory;
use crate::thm::Thm;
use hol_model::Fault;
use hol_terms::{Term, mk_eq};
use hol_types::Ty;
use std::alloc::Global;

impl Theory {
    ghost use Rattle.hol_model.specs.Kernel.Theorem.{Theorem};

    /// ETA: `|- (\x:A. t x) = t`, for a variable `t` of type `A->B`: a function is the abstraction of its values. Only memory
    /// refuses it.
    pub fn eta(&self, alloc: Global) -> Result<Thm, Fault>
        ensures ok { IfOk result (λ theorem. theorem ≡ record { theory = self.now; hypotheses = []; conclusion = axioms.eta_conclusion }) }
        ensures err { IfErr result (λ fault. fault ≡ Memory) }
    {
        let conclusion = eta_conclusion(alloc)?;
        Thm::new(alloc, self.entries(), Vec::new(alloc), conclusion)
    }

    /// SELECT: `P x |- P (@ P)`, for variables `P` of type `A->bool` and `x` of type `A`: choice takes a value that has the
    /// property, where one has. Only memory refuses it.
    pub fn select(&self, alloc: Global) -> Result<Thm, Fault>
        ensures ok { IfOk result (λ theorem. theorem ≡ record { theory = self.now; hypotheses = axioms.select_hypothesis ∷ []; conclusion = axioms.select_conclusion }) }
        ensures err { IfErr result (λ fault. fault ≡ Memory) }
    {
        let predicate = select_predicate(alloc)?;
        let conclusion = select_conclusion(alloc, &predicate)?;
        let hypotheses = one_hypothesis(alloc, select_hypothesis(alloc, &predicate)?)?;
        Thm::new(alloc, self.entries(), hypotheses, conclusion)
    }
}

fn eta_conclusion(alloc: Global) -> Result<Term, Fault>
    ensures ok { IfOk result (λ term. term ≡ axioms.eta_conclusion) }
    ensures err { IfErr result (λ fault. fault ≡ Memory) }
{
    let function = eta_function(alloc)?;
    let expanded = expanded(alloc, &function)?;
    mk_eq(alloc, &expanded, &function)
}

fn eta_function(alloc: Global) -> Result<Term, Fault>
    ensures ok { IfOk result (λ term. term ≡ axioms.eta_function) }
    ensures err { IfErr result (λ fault. fault ≡ Memory) }
{
    let domain = type_a(alloc)?;
    let ty = Ty::fun(alloc, &domain, &Ty::tyvar(alloc, "B")?)?;
    Term::mk_var(alloc, "t", &ty)
}

// The abstraction of the function's values.
fn expanded(alloc: Global, function: &Term) -> Result<Term, Fault>
    requires { function.now ≡ axioms.eta_function }
    ensures ok { IfOk result (λ term. term ≡ abstraction (codes "x") type_a (combination axioms.eta_function (variable (codes "x") type_a))) }
    ensures err { IfErr result (λ fault. fault ≡ Memory) }
{
    let argument = argument(alloc)?;
    let applied = Term::mk_comb(alloc, function, &argument)?;
    Term::mk_abs(alloc, &argument, &applied)
}

// The variable `x` of type `A`.
fn argument(alloc: Global) -> Result<Term, Fault>
    ensures ok { IfOk result (λ term. term ≡ variable (codes "x") type_a) }
    ensures err { IfErr result (λ fault. fault ≡ Memory) }
{
    Term::mk_var(alloc, "x", &type_a(alloc)?)
}

fn select_predicate(alloc: Global) -> Result<Term, Fault>
    ensures ok { IfOk result (λ term. term ≡ axioms.select_predicate) }
    ensures err { IfErr result (λ fault. fault ≡ Memory) }
{
    Term::mk_var(alloc, "P", &predicate_type(alloc)?)
}

fn select_hypothesis(alloc: Global, predicate: &Term) -> Result<Term, Fault>
    requires { predicate.now ≡ axioms.select_predicate }
    ensures ok { IfOk result (λ term. term ≡ axioms.select_hypothesis) }
    ensures err { IfErr result (λ fault. fault ≡ Memory) }
{
    Term::mk_comb(alloc, predicate, &argument(alloc)?)
}

fn select_conclusion(alloc: Global, predicate: &Term) -> Result<Term, Fault>
    requires { predicate.now ≡ axioms.select_predicate }
    ensures ok { IfOk result (λ term. term ≡ axioms.select_conclusion) }
    ensures err { IfErr result (λ fault. fault ≡ Memory) }
{
    let choice = Term::mk_const(alloc, "@", &choice(alloc)?)?;
    let chosen = Term::mk_comb(alloc, &choice, predicate)?;
    Term::mk_comb(alloc, predicate, &chosen)
}
