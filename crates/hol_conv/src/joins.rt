// The rules by which theorems of conversions are joined.
ghost use Rattle.std.specs.Prelude.{◌≡◌, ℕ, List, true, false, Ok, IfOk, IsSome};
ghost use Rattle.hol_model.specs.Terms.HolType.{HolType};
ghost use Rattle.hol_model.specs.Terms.NamedTerm.{NamedTerm, variable};
ghost use Rattle.hol_model.specs.Logic.KnownTerm.{is_known};
ghost use Rattle.hol_model.specs.Kernel.Rules.{dest_equation, refl_outcome, trans_outcome};
ghost use Rattle.hol_model.specs.Refining.Conversions.{binder_fault, of_argument, of_function, of_parts, of_body};
ghost use Rattle.hol_model.specs.Refining.Conversions as outcome;
ghost use Rattle.hol_terms.specs.Binders.{has_abstractions};
ghost use Rattle.hol_laws_refiners.specs.Laws.{IsEquationOf};
ghost use Rattle.hol_journal.specs.Journal.{Journal, IsMade, theorem_in};
ghost use Rattle.hol_theorem_library.specs.Library.{IsLibrary};
ghost use Rattle.hol_conv.specs.Makes.{Makes, StandsOn, Joins, Meets, IsRightSide};
ghost use Rattle.hol_conv.specs.Converted.{same_theorem};

use hol_alpha::aconv;
use hol_equal::conclusion_of;
use hol_equal::equality::equation_parts;
use hol_journal::{Inference, Rec};
use hol_model::Fault;
use hol_terms::Term;
use hol_theorem_library::Library;

/// REFL: `|- t = t`, as ALL_CONV, of a term that the library's theory knows, which is not walked for it. Refused as the kernel's rule.
pub fn refl_known(library: &mut Library, term: &Term) -> Result<Rec, Fault>
    requires library { IsLibrary library.old }
    requires known { is_known library.old.recorder.theory term.now ≡ true }
    ensures makes { Makes library.old library.new result }
    ensures stands { IfOk result (StandsOn library.old.recorder.theory) }
    ensures joins { Joins (refl_outcome library.old.recorder.theory term.now) (theorem_in result) }
{
    library.recorder.infer_known(Inference::Refl(term))
}

/// TRANS: from `a = b` and `b = c`, `a = c`, whose middle terms are known to meet, so that they are not compared. Refused as the
/// kernel's rule.
pub fn trans_known(library: &mut Library, first: &Rec, second: &Rec) -> Result<Rec, Fault>
    requires library { IsLibrary library.old }
    requires first { IsMade library.old.recorder first.now }
    requires second { IsMade library.old.recorder second.now }
    requires meets { Meets first.now.theorem second.now.theorem }
    ensures makes { Makes library.old library.new result }
    ensures stands { IfOk result (StandsOn library.old.recorder.theory) }
    ensures joins { Joins (trans_outcome library.old.recorder.theory first.now.theorem second.now.theorem) (theorem_in result) }
{
    let _first = conclusion_of(&library.recorder, first);
    let _second = conclusion_of(&library.recorder, second);
    library
        .recorder
        .infer_known(Inference::Trans(first, second))
}

/// A theorem that stands on the library's theory, as what TRANS makes of it and of what REFL proves of its right side, and of what REFL
/// proves of its left side, where nothing is bound there, and of it. Refused: Memory.
pub fn itself(library: &Library, made: &Rec) -> Result<Rec, Fault>
    requires library { IsLibrary library.now }
    requires made { IsMade library.now.recorder made.now }
    requires stands { StandsOn library.now.recorder.theory made.now }
    ensures makes { Makes library.now library.now result }
    ensures stands { IfOk result (StandsOn library.now.recorder.theory) }
    ensures in_front { (right : NamedTerm) → IsRightSide made.now.theorem right
        → Joins (trans_outcome library.now.recorder.theory made.now.theorem (same_theorem library.now.recorder.theory right)) (theorem_in result) }
    ensures behind { (t : NamedTerm) → has_abstractions t ≡ false → IsEquationOf t made.now.theorem
        → Joins (trans_outcome library.now.recorder.theory (same_theorem library.now.recorder.theory t) made.now.theorem) (theorem_in result) }
{
    let _conclusion = conclusion_of(&library.recorder, made);
    library.recorder.thm(made).well_formed();
    made.copy(library.recorder.alloc())
}

/// MK_COMB: from `f = g` and `x = y`, `f x = g y`. Refused as the kernel's rule.
pub fn mk_comb(library: &mut Library, first: &Rec, second: &Rec) -> Result<Rec, Fault>
    requires library { IsLibrary library.old }
    requires first { IsMade library.old.recorder first.now }
    requires second { IsMade library.old.recorder second.now }
    ensures makes { Makes library.old library.new result }
    ensures stands { IfOk result (StandsOn library.old.recorder.theory) }
    ensures joins { Joins (of_parts library.old.recorder.theory (Ok first.now.theorem) (Ok second.now.theorem)) (theorem_in result) }
{
    library.recorder.infer(Inference::MkComb(first, second))
}

/// AP_TERM: from `x = y`, `f x = f y`, by REFL and MK_COMB. Refused as these, in this order.
pub fn ap_term(library: &mut Library, function: &Term, argument: &Rec) -> Result<Rec, Fault>
    requires library { IsLibrary library.old }
    requires known { is_known library.old.recorder.theory function.now ≡ true }
    requires argument { IsMade library.old.recorder argument.now }
    ensures makes { Makes library.old library.new result }
    ensures stands { IfOk result (StandsOn library.old.recorder.theory) }
    ensures joins { Joins (of_argument library.old.recorder.theory function.now (Ok argument.now.theorem)) (theorem_in result) }
{
    let same = refl_known(library, function)?;
    mk_comb(library, &same, argument)
}

/// AP_THM: from `f = g`, `f x = g x`, by REFL and MK_COMB. Refused as these, in this order.
pub fn ap_thm(library: &mut Library, function: &Rec, argument: &Term) -> Result<Rec, Fault>
    requires library { IsLibrary library.old }
    requires function { IsMade library.old.recorder function.now }
    requires known { is_known library.old.recorder.theory argument.now ≡ true }
    ensures makes { Makes library.old library.new result }
    ensures stands { IfOk result (StandsOn library.old.recorder.theory) }
    ensures joins { Joins (of_function library.old.recorder.theory argument.now (Ok function.now.theorem)) (theorem_in result) }
{
    let same = refl_known(library, argument)?;
    mk_comb(library, function, &same)
}

// A variable that is free in a hypothesis is a refusal of the conversion.
fn refusal(fault: Fault) -> Fault
    ensures { result ≡ binder_fault fault }
{
    match fault {
        Fault::FreeInHypothesis => Fault::ConvFails,
        fault => fault,
    }
}

/// ABS: from `s = t`, `(\x. s) = (\x. t)`. Refused as the kernel's rule, but with ConvFails where `x` is free in a
/// hypothesis.
pub fn abs(library: &mut Library, binder: &Term, body: &Rec) -> Result<Rec, Fault>
    requires library { IsLibrary library.old }
    requires body { IsMade library.old.recorder body.now }
    ensures makes { Makes library.old library.new result }
    ensures stands { IfOk result (StandsOn library.old.recorder.theory) }
    ensures joins { (name : List ℕ) (ty : HolType) → binder.now ≡ variable name ty → Joins (of_body library.old.recorder.theory name ty (Ok body.now.theorem)) (theorem_in result) }
{
    match library.recorder.infer(Inference::Abs(binder, body)) {
        Ok(made) => Ok(made),
        Err(fault) => Err(refusal(fault)),
    }
}

/// The theorem, where it is not that the term equals itself. Refused: ConvFails.
pub fn if_changed(term: &Term, made: Rec) -> Result<Rec, Fault>
    ensures same { IfOk result (λ same. same ≡ made) }
    ensures joins { theorem_in result ≡ outcome.if_changed term.now (Ok made.theorem) }
{
    match equation_parts(made.theorem().concl()) {
        Some(sides) => {
            if aconv(sides.right, term) {
                Err(Fault::ConvFails)
            } else {
                Ok(made)
            }
        }
        None => Err(Fault::ConvFails),
    }
}

/// The right side of an equation that the library's recorder made: a term that its theory knows.
pub fn right_side<'a>(library: &Library, made: &'a Rec) -> &'a Term
    requires made { IsMade library.now.recorder made.now }
    requires equation { IsSome (dest_equation made.now.theorem.conclusion) }
    ensures right { IsRightSide made.now.theorem result.now }
    ensures known { is_known library.now.recorder.theory result.now ≡ true }
{
    let conclusion = conclusion_of(&library.recorder, made);
    match equation_parts(conclusion) {
        Some(sides) => {
            let right = sides.right;
            let _type = right.ty();
            right
        }
        None => unreachable!(),
    }
}
