// Names that nothing in a goal has.
ghost use Rattle.std.specs.Prelude.{◌≡◌, ℕ, List, true, IfOk, IfErr, IsTrue};
ghost use Rattle.std.specs.List.{list_any};
ghost use Rattle.std.specs.Option.{is_some};
ghost use Rattle.std.specs.String.{string_bytes};
ghost use Rattle.hol_model.specs.declared.fault.Fault.TheVariants.{Memory};
ghost use Rattle.hol_model.specs.Terms.Name.{is_identifier};
ghost use Rattle.hol_model.specs.Terms.Nameless.{binder_index, image, image_under};
ghost use Rattle.hol_model.specs.Terms.Substitution.{IsFirstFree, occurs_free};
ghost use Rattle.hol_model.specs.Refining.Refiners as refiners;
ghost use Rattle.hol_terms.specs.Classes.{class_of_name};
ghost use Rattle.hol_just.specs.Steps.{goal_of};
ghost use Rattle.hol_refine.specs.Scope.{binders_of};
ghost use Rattle.hol_refine.specs.Sums.{name_sum, primed_sum};

use hol_just::Goal;
use hol_kernel::Theory;
use hol_model::Fault;
use hol_terms::{NameClasses, Parts, Term, is_free, same_variable};
use hol_types::Ty;
use std::alloc::Global;

/// The binders that a part of a term stands under.
#[derive(Drop)]
enum Scope<'a> {
    Outermost,
    // The name and the type of a binder, and those outside it.
    Under(&'a str, &'a Ty, &'a Scope<'a>),
}

// Whether one of the binders binds the variable of this name and type.
fn is_bound(scope: &Scope<'_>, name: &str, ty: &Ty) -> bool
    ensures { result ≡ is_some (binder_index (binders_of scope.now) name.now ty.now) }
{
    match scope {
        Scope::Outermost => false,
        Scope::Under(other, s, outer) => same_variable(other, s, name, ty)
            || is_bound(outer, name, ty),
    }
}

// Whether a variable of this name, whose class is given, is free in a term that stands under these binders: what lacks the
// class is passed over.
#[tactic(auto, using(crate::proofs::TakenNames::bound_passes, crate::proofs::TakenNames::free_compares, crate::proofs::TakenNames::lacks_class))]
fn has_free_name(name: &str, class: NameClasses, term: &Term, scope: &Scope<'_>) -> bool
    requires { class.bits ≡ class_of_name name.now }
    ensures { result ≡ refiners.has_free_name name.now (image_under (binders_of scope.now) term.now) }
{
    if !class.meets(term.names()) {
        return false;
    }
    match term.parts() {
        Parts::Variable(other, ty) => {
            if is_bound(&*scope, other, ty) {
                return false;
            }
            name == other
        }
        Parts::Constant(_, _) => false,
        Parts::Combination(function, argument) => has_free_name(name, class, function, &*scope)
            || has_free_name(name, class, argument, &*scope),
        Parts::Abstraction(other, ty, body) => has_free_name(
            name,
            class,
            body,
            &Scope::Under(other, ty, &*scope),
        ),
    }
}

// Whether a variable of this name, whose class is given, is free in one of the terms.
fn is_free_name_in_some(name: &str, class: NameClasses, terms: &[Term]) -> bool
    requires { class.bits ≡ class_of_name name.now }
    ensures { result ≡ list_any (λ term. refiners.has_free_name name.now (image term)) terms.now }
{
    terms
        .iter()
        .any(|term| has_free_name(name, class, term, &Scope::Outermost))
}

// The place from which on the first term stands in which a variable of the name is free, or one past all. A hint alone.
fn place_from(name: &str, class: NameClasses, terms: &[Term], from: usize) -> usize
    requires { class.bits ≡ class_of_name name.now }
{
    for at in from..terms.len() {
        if has_free_name(name, class, &terms[at], &Scope::Outermost) {
            return at;
        }
    }
    usize::MAX
}

// Whether a variable of the name is free in the term at a place, where there is one.
#[tactic(auto, using(crate::proofs::TakenNames::found_at))]
fn is_free_name_at(name: &str, class: NameClasses, terms: &[Term], place: usize) -> bool
    requires { class.bits ≡ class_of_name name.now }
    ensures { IsTrue result → list_any (λ term. refiners.has_free_name name.now (image term)) terms.now ≡ true }
{
    match terms.get(place) {
        Some(term) => has_free_name(name, class, term, &Scope::Outermost),
        None => false,
    }
}

// Whether a variable of this name, whose class is given, is free in one of the terms. Those from a place on are tried first,
// and the place becomes that of the term; past all, none is tried first.
fn is_free_name_from(name: &str, class: NameClasses, terms: &[Term], place: &mut usize) -> bool
    requires { class.bits ≡ class_of_name name.now }
    ensures { result ≡ list_any (λ term. refiners.has_free_name name.now (image term)) terms.now }
{
    *place = place_from(name, class, terms, *place);
    if is_free_name_at(name, class, terms, *place) {
        return true;
    }
    *place = 0;
    is_free_name_in_some(name, class, terms)
}

// What is kept from one name to the next, which has one prime more: the sum that the name's class is made of, and the place
// from which assumptions are tried first. Often the next name is free behind the assumption in which this one is.
#[derive(Clone, Copy)]
struct Trying {
    sum: u8,
    place: usize,
}

impl Trying {
    // To begin with a name.
    fn of(name: &str) -> Trying
        ensures { result.sum ≡ name_sum name.now }
    {
        Trying {
            sum: name
                .as_bytes()
                .iter()
                .fold(0u8, |sum, byte| sum.wrapping_mul(37).wrapping_add(*byte)),
            place: usize::MAX,
        }
    }

    // To go on with one prime more.
    fn with_prime(self) -> Trying
        ensures { result.sum ≡ primed_sum self.sum }
    {
        Trying {
            sum: self.sum.wrapping_mul(37).wrapping_add(b'\''),
            place: self.place,
        }
    }

    // The class of the name.
    fn class(self) -> NameClasses
        ensures { (name : List ℕ) → self.sum ≡ name_sum name → result.bits ≡ class_of_name name }
    {
        NameClasses {
            bits: 1 << (self.sum % 64),
        }
    }
}

// Whether a free variable of the goal or a constant has the name.
#[tactic(auto, using(crate::proofs::TakenNames::taken_by_assumption, crate::proofs::TakenNames::taken_by_target, crate::proofs::TakenNames::taken_by_constant))]
fn is_taken(theory: &Theory, goal: &Goal, trying: &mut Trying, name: &str) -> bool
    requires { trying.old.sum ≡ name_sum name.now }
    ensures taken { result ≡ refiners.is_taken theory.now (goal_of goal.now) name.now }
    ensures sum { trying.new.sum ≡ trying.old.sum }
{
    let class = trying.class();
    is_free_name_from(name, class, &goal.asms, &mut trying.place)
        || has_free_name(name, class, &goal.concl, &Scope::Outermost)
        || theory.const_type(name).is_some()
}

/// The name with so many primes that it is not taken.
#[tactic(auto, using(crate::proofs::Primes::no_primes, crate::proofs::Primes::free_at_last))]
pub(crate) fn fresh_name(
    alloc: Global,
    theory: &Theory,
    goal: &Goal,
    name: &str,
) -> Result<String, Fault>
    requires { IsTrue (is_identifier name.now) }
    ensures fresh { IfOk result (λ fresh. IsFirstFree (refiners.is_taken theory.now (goal_of goal.now)) name.now (string_bytes fresh)) }
    ensures named { IfOk result (λ fresh. IsTrue (is_identifier (string_bytes fresh))) }
    ensures err { IfErr result (λ fault. fault ≡ Memory) }
{
    let mut fresh = String::from_str(alloc, name)?;
    let mut trying = Trying::of(name);
    while is_taken(theory, goal, &mut trying, fresh.as_str()) {
        fresh.push_str("'")?;
        trying = trying.with_prime();
    }
    Ok(fresh)
}

// Whether the variable of this name and type is free in the term.
#[tactic(auto, using(crate::proofs::TakenNames::free_in_image))]
fn is_free_in(term: &Term, name: &str, ty: &Ty) -> bool
    ensures { result ≡ occurs_free name.now ty.now (image term.now) }
{
    is_free(term, name, ty)
}

// Whether the name is taken, or a variable of this name and type is free in the conclusion.
fn is_taken_beside(
    theory: &Theory,
    goal: &Goal,
    ty: &Ty,
    conclusion: &Term,
    trying: &mut Trying,
    name: &str,
) -> bool
    requires { trying.old.sum ≡ name_sum name.now }
    ensures taken { result ≡ refiners.is_taken_beside theory.now (goal_of goal.now) ty.now conclusion.now name.now }
    ensures sum { trying.new.sum ≡ trying.old.sum }
{
    is_taken(theory, goal, trying, name) || is_free_in(conclusion, name, ty)
}

/// The name with so many primes that it is not taken, nor free at this type in the conclusion.
#[tactic(auto, using(crate::proofs::Primes::no_primes, crate::proofs::Primes::free_at_last))]
pub(crate) fn fresh_name_beside(
    alloc: Global,
    theory: &Theory,
    goal: &Goal,
    ty: &Ty,
    conclusion: &Term,
    name: &str,
) -> Result<String, Fault>
    requires { IsTrue (is_identifier name.now) }
    ensures fresh { IfOk result (λ fresh. IsFirstFree (refiners.is_taken_beside theory.now (goal_of goal.now) ty.now conclusion.now) name.now (string_bytes fresh)) }
    ensures named { IfOk result (λ fresh. IsTrue (is_identifier (string_bytes fresh))) }
    ensures err { IfErr result (λ fault. fault ≡ Memory) }
{
    let mut fresh = String::from_str(alloc, name)?;
    let mut trying = Trying::of(name);
    while is_taken_beside(theory, goal, ty, conclusion, &mut trying, fresh.as_str()) {
        fresh.push_str("'")?;
        trying = trying.with_prime();
    }
    Ok(fresh)
}
