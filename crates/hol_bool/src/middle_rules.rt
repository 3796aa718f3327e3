// The rule of excluded middle.
ghost use Rattle.std.specs.Prelude.{[], ◌∷◌};
ghost use Rattle.hol_model.specs.Terms.Nameless.{image};
ghost use Rattle.hol_model.specs.Derived.DerivedRules.{AnswersStated, excluded_middle_outcome};
ghost use Rattle.hol_journal.specs.Journal.{theorem_in};
ghost use Rattle.hol_prelude.specs.HasLogic.{HasLogic};
ghost use Rattle.hol_journal.specs.Growth.{Continues};

use crate::formula_terms::{connect, for_p, negate};
use crate::prelude_rules::{instance_of_theorem, pass_formula};
use hol_equal::Made;
use hol_journal::Recorder;
use hol_prelude::Bool;
use hol_prelude::numbers::EXCLUDED_MIDDLE;
use hol_terms::Term;

/// EXCLUDED_MIDDLE: `p \/ ~p`, in at most three steps. Refused where `p` is not of type `bool`, and then where the theory does not
/// know a type or a constant of it.
pub fn excluded_middle(recorder: &mut Recorder, logic: &Bool, p: &Term) -> Made
    requires logic { HasLogic recorder.old logic.now }
    ensures continues { Continues recorder.old recorder.new result }
    ensures outcome { AnswersStated (theorem_in result) (image p.now ∷ []) (excluded_middle_outcome recorder.old.theory p.now) }
{
    let alloc = recorder.alloc();
    recorder.theory_is_legal();
    pass_formula(recorder, p)?;
    let negated = negate(alloc, p)?;
    let stated = connect(alloc, "\\/", p, &negated)?;
    let terms = for_p(alloc, p)?;
    instance_of_theorem(recorder, logic, EXCLUDED_MIDDLE, &terms, &stated)
}
