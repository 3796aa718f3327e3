// Answers of conversions, which may be that nothing changes: then no theorem is made.
ghost use Rattle.std.specs.Prelude.{◌≡◌, ℕ, List, true, Ok, IfOk, IsSome, IsTrue};
ghost use Rattle.hol_model.specs.Terms.HolType.{HolType};
ghost use Rattle.hol_model.specs.Terms.NamedTerm.{NamedTerm, variable, combination, abstraction, equation, is_within_limits};
ghost use Rattle.hol_model.specs.Logic.Theory.{Theory};
ghost use Rattle.hol_model.specs.Logic.KnownTerm.{is_known};
ghost use Rattle.hol_model.specs.Kernel.Rules.{dest_equation, refl_outcome};
ghost use Rattle.hol_model.specs.Refining.Conversions as conversions;
ghost use Rattle.hol_laws_refiners.specs.Laws.{IsEquationOf};
ghost use Rattle.hol_laws_refiners.proofs.Repeating.{onto};
ghost use Rattle.hol_journal.specs.Journal.{IsMade, theorem_in};
ghost use Rattle.hol_theorem_library.specs.Library.{IsLibrary};
ghost use Rattle.hol_theorem_library.specs.declared.library.Library as library;
ghost use Rattle.hol_conv.specs.Makes.{Makes, StandsOn, StandsIf, Joins, IsRightSide};
ghost use Rattle.hol_conv.specs.Converted.{same_theorem, theorem_of, answered, changed_by, IsMadeFor, IsExact, IsAnswerOf, IsHeldIn, MakesAnswer, from_refl, to_refl};

use crate::joins::{
    abs, ap_term, ap_thm, if_changed, itself, mk_comb, refl_known, right_side, trans_known,
};
use crate::parts::Halves;
use hol_journal::Rec;
use hol_model::Fault;
use hol_terms::{Term, equation_fits};
use hol_theorem_library::Library;

/// What a conversion answers on a term.
#[derive(Drop)]
pub enum Converted {
    /// `|- t = t`, which is not made.
    Same,
    /// A theorem, and whether it is known to stand on the recorder's theory.
    Changed(Rec, bool),
}

/// An answer, or its refusal.
pub type Answer = Result<Converted, Fault>;

/// That the term equals itself. Refused as REFL of a known term: TooLarge.
pub fn unchanged(t: &Term) -> Answer
    ensures outcome { (theory : Theory) → is_known theory t.now ≡ true → answered theory t.now result ≡ refl_outcome theory t.now }
    ensures answer { (library : library.Library) → IfOk result (IsAnswerOf library t.now) }
{
    if equation_fits(t) {
        Ok(Converted::Same)
    } else {
        Err(Fault::TooLarge)
    }
}

/// A theorem that was made, as an answer, and whether it is known to stand on the recorder's theory.
pub fn as_answer(made: Result<Rec, Fault>, stands_here: bool) -> Answer
    ensures same { result ≡ changed_by stands_here made }
    ensures answered { (theory : Theory) (t : NamedTerm) → answered theory t result ≡ theorem_in made }
    ensures made { (old new : library.Library) (t : NamedTerm) → Makes old new made → StandsIf stands_here old.recorder.theory made → MakesAnswer old new t result }
{
    Ok(Converted::Changed(made?, stands_here))
}

/// The theorem of an answer on a known term.
pub fn theorem(library: &mut Library, t: &Term, answer: Answer) -> Result<Rec, Fault>
    requires library { IsLibrary library.old }
    requires known { is_known library.old.recorder.theory t.now ≡ true }
    requires answer { IfOk answer (IsAnswerOf library.old t.now) }
    ensures joins { Joins (answered library.old.recorder.theory t.now answer) (theorem_in result) }
    ensures makes { Makes library.old library.new result }
{
    match answer? {
        Converted::Same => refl_known(library, t),
        Converted::Changed(made, _) => Ok(made),
    }
}

/// The right side of an answer on a known term.
pub fn right_of<'a>(library: &Library, t: &'a Term, answer: &'a Converted) -> &'a Term
    requires known { is_known library.now.recorder.theory t.now ≡ true }
    requires answer { IsAnswerOf library.now t.now answer.now }
    requires equation { IsSome (dest_equation (theorem_of library.now.recorder.theory t.now answer.now).conclusion) }
    ensures right { IsRightSide (theorem_of library.now.recorder.theory t.now answer.now) result.now }
    ensures known { is_known library.now.recorder.theory result.now ≡ true }
{
    match answer {
        Converted::Same => t,
        Converted::Changed(made, _) => right_side(library, made),
    }
}

/// MK_COMB of answers on the parts of a known term.
pub fn of_parts(
    library: &mut Library,
    t: &Term,
    halves: Halves,
    first: Converted,
    second: Answer,
) -> Answer
    requires library { IsLibrary library.old }
    requires whole { t.now ≡ combination halves.function.now halves.argument.now }
    requires known { is_known library.old.recorder.theory t.now ≡ true }
    requires first { IsAnswerOf library.old halves.function.now first }
    requires second { IfOk second (IsAnswerOf library.old halves.argument.now) }
    ensures joins { Joins
        (conversions.of_parts library.old.recorder.theory (Ok (theorem_of library.old.recorder.theory halves.entry.function.now first))
        (answered library.old.recorder.theory halves.entry.argument.now second))
        (answered library.old.recorder.theory t.now result) }
    ensures makes { MakesAnswer library.old library.new t.now result }
{
    let second = second?;
    t.well_formed();
    match first {
        Converted::Same => match second {
            Converted::Same => unchanged(t),
            Converted::Changed(second, _) => {
                as_answer(ap_term(library, halves.function, &second), true)
            }
        },
        Converted::Changed(first, _) => match second {
            Converted::Same => as_answer(ap_thm(library, &first, halves.argument), true),
            Converted::Changed(second, _) => as_answer(mk_comb(library, &first, &second), true),
        },
    }
}

/// AP_TERM of an answer on the argument of a known term. Refused as REFL of the function, which may have the larger type.
pub fn of_argument(library: &mut Library, t: &Term, halves: Halves, part: Answer) -> Answer
    requires library { IsLibrary library.old }
    requires whole { t.now ≡ combination halves.function.now halves.argument.now }
    requires known { is_known library.old.recorder.theory t.now ≡ true }
    requires part { IfOk part (IsAnswerOf library.old halves.argument.now) }
    ensures joins { Joins (conversions.of_argument library.old.recorder.theory halves.entry.function.now (answered library.old.recorder.theory halves.entry.argument.now part))
        (answered library.old.recorder.theory t.now result) }
    ensures makes { MakesAnswer library.old library.new t.now result }
{
    let part = part?;
    let same = unchanged(halves.function)?;
    of_parts(library, t, halves, same, Ok(part))
}

/// AP_THM of an answer on the function of a known term. Refused as REFL of the argument, which may have the larger type.
pub fn of_function(library: &mut Library, t: &Term, halves: Halves, part: Answer) -> Answer
    requires library { IsLibrary library.old }
    requires whole { t.now ≡ combination halves.function.now halves.argument.now }
    requires known { is_known library.old.recorder.theory t.now ≡ true }
    requires part { IfOk part (IsAnswerOf library.old halves.function.now) }
    ensures joins { Joins (conversions.of_function library.old.recorder.theory halves.entry.argument.now (answered library.old.recorder.theory halves.entry.function.now part))
        (answered library.old.recorder.theory t.now result) }
    ensures makes { MakesAnswer library.old library.new t.now result }
{
    let part = part?;
    let same = unchanged(halves.argument)?;
    of_parts(library, t, halves, part, Ok(same))
}

/// ABS of an answer on the body of a known term, an abstraction over this variable. Refused as `abs`.
pub fn of_body(library: &mut Library, t: &Term, binder: &Term, part: Answer) -> Answer
    requires library { IsLibrary library.old }
    requires known { is_known library.old.recorder.theory t.now ≡ true }
    requires part { IfOk part (IsHeldIn library.old) }
    ensures joins { (name : List ℕ) (ty : HolType) (body : NamedTerm) → binder.now ≡ variable name ty → t.now ≡ abstraction name ty body
        → Joins (conversions.of_body library.old.recorder.theory name ty (answered library.old.recorder.theory body part)) (answered library.old.recorder.theory t.now result) }
    ensures makes { MakesAnswer library.old library.new t.now result }
{
    match part {
        Ok(Converted::Same) => unchanged(t),
        Ok(Converted::Changed(part, _)) => as_answer(abs(library, binder, &part), true),
        Err(fault) => Err(fault),
    }
}

// Whether a theorem that says that the term equals something says just this, and stands on the library's theory where it is said to: nothing
// is bound in the term.
fn is_exact(t: &Term, stands_here: bool) -> bool
    ensures { IsTrue result → IsExact t.now stands_here }
{
    stands_here && !t.has_binders()
}

// TRANS of what REFL proves and a theorem: the theorem itself where it stands on the library's theory, and nothing is bound in the term.
fn from_same(library: &mut Library, t: &Term, next: &Rec, stands_here: bool) -> Result<Rec, Fault>
    requires library { IsLibrary library.old }
    requires known { is_known library.old.recorder.theory t.now ≡ true }
    requires roomy { is_within_limits (equation t.now t.now) ≡ true }
    requires next { IsMadeFor library.old stands_here next.now }
    requires equation { IsEquationOf t.now next.now.theorem }
    ensures makes { Makes library.old library.new result }
    ensures stands { IfOk result (StandsOn library.old.recorder.theory) }
    ensures joins { Joins (from_refl library.old.recorder.theory t.now next.now.theorem) (theorem_in result) }
{
    if is_exact(t, stands_here) {
        return itself(library, next);
    }
    let same = refl_known(library, t)?;
    trans_known(library, &same, next)
}

// TRANS of a theorem and what REFL proves: the theorem itself where it stands on the library's theory.
fn to_same(
    library: &mut Library,
    first: &Rec,
    stands_here: bool,
    right: &Term,
) -> Result<Rec, Fault>
    requires library { IsLibrary library.old }
    requires known { is_known library.old.recorder.theory right.now ≡ true }
    requires roomy { is_within_limits (equation right.now right.now) ≡ true }
    requires first { IsMadeFor library.old stands_here first.now }
    requires side { IsRightSide first.now.theorem right.now }
    ensures makes { Makes library.old library.new result }
    ensures stands { IfOk result (StandsOn library.old.recorder.theory) }
    ensures joins { Joins (to_refl library.old.recorder.theory first.now.theorem right.now) (theorem_in result) }
{
    if stands_here {
        return itself(library, first);
    }
    let same = refl_known(library, right)?;
    trans_known(library, first, &same)
}

/// TRANS of an answer on a known term and one on its right side, which nothing is compared for. A theorem is joined to nothing only where it
/// may stand on an earlier theory, or, behind, where it may have other bound names on its left side.
pub fn then(
    library: &mut Library,
    t: &Term,
    first: &Converted,
    right: &Term,
    next: Answer,
) -> Answer
    requires library { IsLibrary library.old }
    requires known { is_known library.old.recorder.theory t.now ≡ true }
    requires right { is_known library.old.recorder.theory right.now ≡ true }
    requires side { IsRightSide (theorem_of library.old.recorder.theory t.now first.now) right.now }
    requires first { IsAnswerOf library.old t.now first.now }
    requires next { IfOk next (IsAnswerOf library.old right.now) }
    requires equation { IfOk next (λ next. IsEquationOf right.now (theorem_of library.old.recorder.theory right.now next)) }
    ensures joins { Joins (onto library.old.recorder.theory (theorem_of library.old.recorder.theory t.now first.now) (answered library.old.recorder.theory right.now next))
        (answered library.old.recorder.theory t.now result) }
    ensures makes { MakesAnswer library.old library.new t.now result }
{
    let next = next?;
    match first {
        Converted::Same => match next {
            Converted::Same => Ok(Converted::Same),
            Converted::Changed(next, stands_here) => {
                as_answer(from_same(library, t, &next, stands_here), true)
            }
        },
        Converted::Changed(first, stands_here) => match next {
            Converted::Same => as_answer(to_same(library, first, *stands_here, right), true),
            Converted::Changed(next, _) => as_answer(trans_known(library, first, &next), true),
        },
    }
}

/// The answer, where it is not that the term equals itself. Refused: ConvFails.
pub fn only_changed(t: &Term, answer: Converted) -> Answer
    ensures same { IfOk result (λ same. same ≡ answer) }
    ensures changed { (theory : Theory) → answered theory t.now result ≡ conversions.if_changed t.now (Ok (theorem_of theory t.now answer)) }
{
    match answer {
        Converted::Same => Err(Fault::ConvFails),
        Converted::Changed(made, stands_here) => as_answer(if_changed(t, made), stands_here),
    }
}
