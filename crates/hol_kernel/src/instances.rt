// Instantiation of theorems.
ghost use Rattle.std.specs.Prelude.{◌≡◌, ◌⊎◌, [], ◌∷◌, None, IfOk, IfErr, true, false, map};
ghost use Rattle.std.specs.List.{list_all};
ghost use Rattle.hol_model.specs.Terms.Nameless.{image};
ghost use Rattle.hol_model.specs.Terms.Measures.{nameless_within_limits};
ghost use Rattle.hol_model.specs.Logic.Derivable.{Derivable};
ghost use Rattle.hol_model.specs.Terms.Substitution as substitution;
ghost use Rattle.hol_model.specs.Logic.KnownTerm as known;
ghost use Rattle.hol_model.specs.Logic.Theory.{IsEarlier, IsLegal};
ghost use Rattle.hol_model.specs.Kernel.Theorem.{IsTheorem};
ghost use Rattle.hol_model.specs.Kernel.Outcome.{AnswersSuch};
ghost use Rattle.hol_model.specs.Kernel.Instantiation as spec;
ghost use Rattle.hol_kernel.specs.Change.{change_of, MayChange};
ghost use Rattle.hol_model.specs.declared.fault.Fault.TheVariants.{Memory, TooLarge};

use crate::entries::Entries;
use crate::hypotheses::in_order;
use crate::known::{is_known, knows_constants, knows_type, knows_types};
use crate::theory::Theory;
use crate::thm::Thm;
use hol_model::Fault;
use hol_subst::{inst, vsubst};
use hol_terms::Term;
use hol_types::{Ty, replaces_type_variables};
use std::alloc::Global;

impl Theory {
    /// INST: free variables replaced by terms of their types, all at once, by a list of pairs (new, old). Bound variables
    /// that would catch a variable of a new term take other names. Of all the pairs in turn: NotVariable where an old term
    /// is no variable, TypeMismatch where a new one is not of its type, UnknownType, UnknownConst and NotInstance where the
    /// theory does not know one; then TooLarge where a term of the answer is past the limits. Walks the new terms; for
    /// replacements that a proof shows to be accepted, `inst_known`.
    pub fn inst(&self, alloc: Global, theta: &[(Term, Term)], theorem: &Thm) -> Result<Thm, Fault>
        requires { IsEarlier theorem.now.theory self.now }
        ensures outcome { AnswersSuch result (spec.inst_refusal self.now theta.now theorem.now) (spec.IsInst self.now theta.now theorem.now) }
        ensures stands_on { IfOk result (λ answer. answer.theory ≡ self.now) }
    {
        if let Some(fault) = replacements_refusal(theta, self) {
            return Err(fault);
        }
        self.inst_known(alloc, theta, theorem)
    }

    /// INST by terms that the theory knows, for variables of their types, which are not walked for it. TooLarge as `inst`.
    pub fn inst_known(
        &self,
        alloc: Global,
        theta: &[(Term, Term)],
        theorem: &Thm,
    ) -> Result<Thm, Fault>
        requires theorem { IsEarlier theorem.now.theory self.now }
        requires known { spec.replacements_refusal self.now theta.now ≡ None }
        ensures outcome { AnswersSuch result (spec.inst_refusal self.now theta.now theorem.now) (spec.IsInst self.now theta.now theorem.now) }
        ensures stands_on { IfOk result (λ answer. answer.theory ≡ self.now) }
    {
        changed(alloc, self.entries(), &Change::Variables(theta), theorem)
    }

    /// INST_TYPE: type variables replaced by types, all at once, by a list of pairs (new, old). NotVariable where an old type
    /// is no type variable; UnknownType where the theory does not know a new one; TooLarge where a term of the answer is
    /// past the limits.
    pub fn inst_type(&self, alloc: Global, theta: &[(Ty, Ty)], theorem: &Thm) -> Result<Thm, Fault>
        requires { IsEarlier theorem.now.theory self.now }
        ensures outcome { AnswersSuch result (spec.inst_type_refusal self.now theta.now theorem.now) (spec.IsInstType self.now theta.now theorem.now) }
        ensures stands_on { IfOk result (λ answer. answer.theory ≡ self.now) }
    {
        if let Some(fault) = type_replacements_refusal(theta, self) {
            return Err(fault);
        }
        changed(alloc, self.entries(), &Change::Types(theta), theorem)
    }
}

// What stands for variables or for type variables, as pairs (new, old).
#[derive(Clone, Copy)]
enum Change<'a> {
    Variables(&'a [(Term, Term)]),
    Types(&'a [(Ty, Ty)]),
}

// The theorem with each of its terms changed, where that is shown to follow.
fn changed(
    alloc: Global,
    entries: &Entries,
    change: &Change<'_>,
    theorem: &Thm,
) -> Result<Thm, Fault>
    requires replacements { MayChange change.now }
    requires legal { IsLegal entries.now }
    requires derivable { IsTheorem theorem.now → Derivable entries.now (map (change_of change.now) (map image theorem.now.hypotheses)) (change_of change.now (image theorem.now.conclusion)) }
    ensures outcome { AnswersSuch result (spec.or_too_large None (spec.all_fit (change_of change.now)
        (theorem.now.conclusion ∷ theorem.now.hypotheses))) (spec.IsChanged entries.now (change_of change.now) theorem.now) }
    ensures stands_on { IfOk result (λ answer. answer.theory ≡ entries.now) }
{
    let conclusion = changed_term(alloc, change, theorem.concl())?;
    let instances = changed_terms(alloc, change, theorem.hyps())?;
    let hypotheses = in_order(alloc, &instances)?;
    Thm::new(alloc, entries, hypotheses, conclusion)
}

fn changed_terms(alloc: Global, change: &Change<'_>, terms: &[Term]) -> Result<Vec<Term>, Fault>
    requires { MayChange change.now }
    ensures ok { IfOk result (λ all. map image all.items ≡ map (change_of change.now) (map image terms.now)) }
    ensures within_limits { IfOk result (λ _. spec.all_fit (change_of change.now) terms.now ≡ true) }
    ensures err { IfErr result (λ fault. (fault ≡ Memory) ⊎ ((fault ≡ TooLarge) × (spec.all_fit (change_of change.now) terms.now ≡ false))) }
{
    let mut all = Vec::new(alloc);
    for term in terms {
        all.push(changed_term(alloc, change, term)?)?;
    }
    Ok(all)
}

fn changed_term(alloc: Global, change: &Change<'_>, term: &Term) -> Result<Term, Fault>
    requires { MayChange change.now }
    ensures ok { IfOk result (λ new. image new ≡ change_of change.now (image term.now)) }
    ensures within_limits { IfOk result (λ _. nameless_within_limits (change_of change.now (image term.now)) ≡ true) }
    ensures err { IfErr result (λ fault. (fault ≡ Memory) ⊎ ((fault ≡ TooLarge) × (nameless_within_limits (change_of change.now (image term.now)) ≡ false))) }
{
    match change {
        Change::Variables(theta) => vsubst(alloc, theta, term),
        Change::Types(theta) => inst(alloc, theta, term),
    }
}

// The refusal for a list of replacements of type variables.
fn type_replacements_refusal(theta: &[(Ty, Ty)], theory: &Theory) -> Option<Fault>
    ensures { result ≡ spec.type_replacements_refusal theory.now theta.now }
{
    if !replaces_type_variables(theta) {
        Some(Fault::NotVariable)
    } else if !all_are_known(theta, theory) {
        Some(Fault::UnknownType)
    } else {
        None
    }
}

fn all_are_known(theta: &[(Ty, Ty)], theory: &Theory) -> bool
    ensures { result ≡ list_all (λ pair. known.knows_type theory.now pair.0) theta.now }
{
    theta.iter().all(|pair| knows_type(&pair.0, theory))
}

// The refusal for a list of replacements of variables.
fn replacements_refusal(theta: &[(Term, Term)], theory: &Theory) -> Option<Fault>
    ensures { result ≡ spec.replacements_refusal theory.now theta.now }
{
    if !replaces_variables(theta) {
        Some(Fault::NotVariable)
    } else if !keeps_types(theta) {
        Some(Fault::TypeMismatch)
    } else if all_known(theta, theory) {
        None
    } else if !all_know_types(theta, theory) {
        Some(Fault::UnknownType)
    } else if !all_know_constants(theta, theory) {
        Some(Fault::UnknownConst)
    } else {
        Some(Fault::NotInstance)
    }
}

fn replaces_variables(theta: &[(Term, Term)]) -> bool
    ensures { result ≡ substitution.replaces_variables theta.now }
{
    theta.iter().all(|pair| pair.1.is_var())
}

fn keeps_types(theta: &[(Term, Term)]) -> bool
    ensures { result ≡ substitution.keeps_types theta.now }
{
    theta.iter().all(|pair| pair.0.ty().eq(pair.1.ty()))
}

fn all_known(theta: &[(Term, Term)], theory: &Theory) -> bool
    ensures { result ≡ list_all (λ pair. known.is_known theory.now pair.0) theta.now }
{
    theta.iter().all(|pair| is_known(&pair.0, theory))
}

fn all_know_types(theta: &[(Term, Term)], theory: &Theory) -> bool
    ensures { result ≡ list_all (λ pair. known.knows_types theory.now pair.0) theta.now }
{
    theta.iter().all(|pair| knows_types(&pair.0, theory))
}

fn all_know_constants(theta: &[(Term, Term)], theory: &Theory) -> bool
    ensures { result ≡ list_all (λ pair. known.knows_constants theory.now pair.0) theta.now }
{
    theta.iter().all(|pair| knows_constants(&pair.0, theory))
}
