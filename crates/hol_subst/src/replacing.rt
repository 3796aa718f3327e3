// What is replaced in a term, and what that may touch.
ghost use Rattle.std.specs.Prelude.{◌≡◌, ◌∷◌, None};
ghost use Rattle.std.specs.Option.{option_map};
ghost use Rattle.hol_subst.specs.Entries.{looked_up, KeepsTypes, KeepsTypes-prop};
ghost use Rattle.hol_subst.specs.Replacements.{entries_of};
ghost use Rattle.hol_subst.specs.Touched.{Covers, Covers-prop, ReplacesAlike};
ghost use Rattle.hol_subst.specs.Touched as spec;

use crate::replacements::{Replacements, look_up_entry};
use crate::touched::{Touched, changes_types};
use hol_terms::{NameClasses, Term};
use hol_types::Ty;

/// What is replaced in a term: types, by a list of pairs (new, old), and variables.
#[derive(Clone, Copy)]
pub struct Replacing<'a> {
    pub types: &'a [(Ty, Ty)],
    pub replacements: &'a Replacements<'a>,
    // The classes of names that the replacements may touch.
    pub touched: Touched,
    pub ghost keeps_types: { KeepsTypes (entries_of replacements.now) types.now } by { KeepsTypes-prop (entries_of replacements.now) types.now },
    pub ghost covered: { Covers touched.old.bits touched.new.bits (entries_of replacements.now) } by { Covers-prop touched.old.bits touched.new.bits (entries_of replacements.now) },
}

impl<'a> Replacing<'a> {
    /// Whether nothing that is replaced stands in the term.
    pub(crate) fn stays(&self, term: &Term) -> bool
        ensures { result ≡ spec.stays self.now.touched.old.bits self.now.types.now term.now }
    {
        !self.touched.old.meets(term.names()) && !changes_types(self.types, term)
    }

    /// What replaces the variable of this name and type, or `None` where it is kept.
    #[tactic(auto, using(crate::proofs::Apart::keeping_apart))]
    pub(crate) fn look_up(&self, name: &str, ty: &Ty) -> Option<&'a Term>
        ensures { option_map (λ new. new.now) result ≡ looked_up (entries_of self.now.replacements.now) name.now ty.now }
    {
        if !self.touched.old.meets(NameClasses::of_name(name)) {
            return None;
        }
        look_up_entry(self.replacements, name, ty)
    }

    /// The replacements, but for a variable that is kept.
    #[tactic(auto, using(crate::proofs::Apart::keeping_variable))]
    pub(crate) fn keeping(&'a self, name: &'a str, ty: &'a Ty) -> Replacements<'a>
        ensures { ReplacesAlike (entries_of result) (((name.now, ty.now), None) ∷ entries_of self.now.replacements.now) }
    {
        if self.touched.old.meets(NameClasses::of_name(name)) {
            Replacements::Keeping(name, ty, self.replacements)
        } else {
            *self.replacements
        }
    }
}
