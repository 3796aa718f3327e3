// Rules by an instance of a lemma, which is proved once.
ghost use Rattle.std.specs.Prelude.{◌≡◌, List, [], ◌∷◌, ◌++◌, map, None};
ghost use Rattle.std.specs.List.{list_all};
ghost use Rattle.hol_model.specs.Terms.HolType.{bool_type};
ghost use Rattle.hol_model.specs.Terms.Nameless.{Nameless};
ghost use Rattle.hol_model.specs.Terms.Measures.{nameless_within_limits};
ghost use Rattle.hol_model.specs.Terms.Substitution.{put_all};
ghost use Rattle.hol_model.specs.Kernel.Instantiation.{instantiate_all, replacements_refusal, type_replacements_refusal};
ghost use Rattle.hol_model.specs.Logic.Derivable.{nameless_equation};
ghost use Rattle.hol_journal.specs.Journal.{IsMade};
ghost use Rattle.hol_journal.specs.Growth.{Continues};
ghost use Rattle.hol_equal.specs.Sequents.{Shows, DerivesIf, instance_of};
ghost use Rattle.hol_equal.specs.Fits.{LemmaFits};

use crate::equality::cut_known;
use crate::steps::{self, Made};
use hol_journal::{Rec, Recorder};
use hol_terms::Term;
use hol_types::Ty;

/// The instance of a lemma with these types for type variables, and then these terms, which the theory knows and which
/// are not walked for it, for variables of their types, in at most two steps.
pub fn instance_known(
    recorder: &mut Recorder,
    types: &[(Ty, Ty)],
    terms: &[(Term, Term)],
    lemma: &Rec,
) -> Made
    requires lemma { IsMade recorder.old lemma.now }
    requires known { replacements_refusal recorder.old.theory terms.now ≡ None }
    ensures continues { Continues recorder.old recorder.new result }
    ensures derives { type_replacements_refusal recorder.old.theory types.now ≡ None → replacements_refusal recorder.old.theory terms.now ≡ None
        → (h : List Nameless) (c : Nameless) → Shows lemma.now.theorem h c
        → DerivesIf (list_all nameless_within_limits (map (instantiate_all types.now) (c ∷ h)
        ++ map (instance_of types.now terms.now) (c ∷ h))) result (map (instance_of types.now terms.now) h) (instance_of types.now terms.now c) }
{
    if types.is_empty() {
        return steps::inst_known(recorder, terms, lemma);
    }
    let typed = steps::inst_type(recorder, types, lemma)?;
    steps::inst_known(recorder, terms, &typed)
}

/// From the lemma's hypothesis at an instance, its conclusion there, in at most four steps, by terms that the theory knows, which
/// are not walked for it, where the premise fits: it is not compared with the hypothesis. A rule of two premises takes a lemma
/// whose conclusion is an equation, `p |- q = r`, and uses it on the second premise by EQ_MP: to take away two hypotheses one
/// after another would take the second from the hypotheses of the first premise too.
pub fn by_fitting_lemma(
    recorder: &mut Recorder,
    types: &[(Ty, Ty)],
    terms: &[(Term, Term)],
    lemma: &Rec,
    premise: &Rec,
) -> Made
    requires lemma { IsMade recorder.old lemma.now }
    requires premise { IsMade recorder.old premise.now }
    requires types { type_replacements_refusal recorder.old.theory types.now ≡ None }
    requires known { replacements_refusal recorder.old.theory terms.now ≡ None }
    requires fits { LemmaFits types.now terms.now lemma.now.theorem premise.now.theorem }
    ensures continues { Continues recorder.old recorder.new result }
    ensures derives { type_replacements_refusal recorder.old.theory types.now ≡ None → replacements_refusal recorder.old.theory terms.now ≡ None
        → (h : List Nameless) (p c : Nameless) → Shows lemma.now.theorem (p ∷ []) c → Shows premise.now.theorem h (instance_of types.now terms.now p)
        → DerivesIf (list_all nameless_within_limits (instantiate_all types.now c ∷ instantiate_all types.now p ∷ instance_of types.now terms.now c
        ∷ instance_of types.now terms.now p ∷ nameless_equation bool_type (instance_of types.now terms.now p) (instance_of types.now terms.now c)
        ∷ [])) result h (instance_of types.now terms.now c) }
{
    let stated = instance_known(recorder, types, terms, lemma)?;
    cut_known(recorder, premise, &stated)
}
