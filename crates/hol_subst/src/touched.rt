// What a replacement may touch, told by the classes of names that terms keep: the rest is handed on or passed over.
ghost use Rattle.std.specs.Prelude.{◌≡◌, ◌∷◌, ℕ, List, Some, fold, bit_or};
ghost use Rattle.hol_model.specs.Terms.HolType.{HolType};
ghost use Rattle.hol_terms.specs.Classes.{classes_of_names};
ghost use Rattle.hol_subst.specs.Entries.{Entry, entries};
ghost use Rattle.hol_subst.specs.Touched.{Covers};
ghost use Rattle.hol_subst.specs.Touched as spec;

use hol_terms::{NameClasses, Parts, Term};
use hol_types::{Ty, is_replaced_type};

/// The classes of the names that may be replaced, and of those that may be free in what replaces them.
#[derive(Clone, Copy)]
pub struct Touched {
    pub old: NameClasses,
    pub new: NameClasses,
}

impl Touched {
    /// What a list of pairs (new, old) touches.
    #[tactic(auto, using(crate::proofs::Apart::covering))]
    pub(crate) fn by_pairs(pairs: &[(Term, Term)]) -> Touched
        ensures { Covers result.old.bits result.new.bits (entries pairs.now) }
    {
        Touched {
            old: old_names(pairs),
            new: new_names(pairs),
        }
    }

    /// The same, with a variable of this name replaced as well.
    #[tactic(auto, using(crate::proofs::Apart::covering))]
    pub(crate) fn and_putting(self, name: &str, new: &Term) -> Touched
        ensures { (env : List Entry) (ty : HolType) → Covers self.old.bits self.new.bits env
            → Covers result.old.bits result.new.bits (((name.now, ty), Some new.now) ∷ env) }
    {
        Touched {
            old: self.old.union(NameClasses::of_name(name)),
            new: self.new.union(new.names()),
        }
    }
}

fn old_names(pairs: &[(Term, Term)]) -> NameClasses
    ensures { result.bits ≡ fold (λ bits pair. bit_or bits (classes_of_names pair.1)) 0 pairs.now }
{
    NameClasses {
        bits: pairs
            .iter()
            .fold(0, |bits, pair| bits | pair.1.names().bits),
    }
}

fn new_names(pairs: &[(Term, Term)]) -> NameClasses
    ensures { result.bits ≡ fold (λ bits pair. bit_or bits (classes_of_names pair.0)) 0 pairs.now }
{
    NameClasses {
        bits: pairs
            .iter()
            .fold(0, |bits, pair| bits | pair.0.names().bits),
    }
}

/// Whether a list of pairs (new, old) may change the type.
pub(crate) fn changes_type(types: &[(Ty, Ty)], ty: &Ty) -> bool
    ensures { result ≡ spec.changes_type types.now ty.now }
{
    !types.is_empty() && ty.has_tyvars()
}

/// Whether a list of pairs (new, old) may change a type that the term is written with.
pub(crate) fn changes_types(types: &[(Ty, Ty)], term: &Term) -> bool
    ensures { result ≡ spec.changes_types types.now term.now }
{
    !types.is_empty() && term.has_tyvars()
}

/// Whether a list of pairs (new, old) changes no type that the term is written with.
#[tactic(auto, using(crate::proofs::StayingTypes::closed))]
pub(crate) fn keeps_all_types(types: &[(Ty, Ty)], term: &Term) -> bool
    ensures { result ≡ spec.keeps_all_types types.now term.now }
{
    if !term.has_tyvars() {
        return true;
    }
    match term.parts() {
        Parts::Variable(_, ty) | Parts::Constant(_, ty) => is_replaced_type(types, ty, ty),
        Parts::Combination(function, argument) => {
            keeps_all_types(types, function) && keeps_all_types(types, argument)
        }
        Parts::Abstraction(_, ty, body) => {
            is_replaced_type(types, ty, ty) && keeps_all_types(types, body)
        }
    }
}
