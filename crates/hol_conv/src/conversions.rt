// Conversions of one step.
ghost use Rattle.std.specs.Prelude.{◌≡◌, ◌⊎◌, [], ◌∷◌, true, Err, IfOk};
ghost use Rattle.std.specs.Option.{is_some};
ghost use Rattle.hol_model.specs.declared.fault.Fault.TheVariants.{Memory};
ghost use Rattle.hol_model.specs.Logic.KnownTerm.{is_known};
ghost use Rattle.hol_model.specs.Logic.NamedLogic.{dest_redex};
ghost use Rattle.hol_model.specs.Rewrites.Rewriting.{Rewrites};
ghost use Rattle.hol_model.specs.Refining.Conversions.{redex_outcome};
ghost use Rattle.hol_model.specs.Derived.DerivedRules.{AnswersStated};
ghost use Rattle.hol_model.specs.Terms.Nameless.{image};
ghost use Rattle.hol_journal.specs.Journal.{theorem_in};
ghost use Rattle.hol_prelude_derivations.specs.Derivations.{AreMade, theorems};
ghost use Rattle.hol_rewrite.specs.RuleSides.{AreEquations, sides_of_rules};
ghost use Rattle.hol_theorem_library.specs.Library.{IsLibrary};
ghost use Rattle.hol_conv.specs.Makes.{Makes, StandsOn};

use hol_journal::Rec;
use hol_model::Fault;
use hol_rewrite::{Choice, rewrite_at};
use hol_terms::{Parts, Term};
use hol_theorem_library::Library;

// Whether the term is an abstraction that is applied.
fn is_redex(term: &Term) -> bool
    ensures { result ≡ is_some (dest_redex term.now) }
{
    match term.parts() {
        Parts::Combination(function, _) => match function.parts() {
            Parts::Abstraction(_, _, _) => true,
            _ => false,
        },
        _ => false,
    }
}

/// BETA_CONV: for `(\x. b) a`, `|- (\x. b) a = b[a/x]`. Refused where the term is no abstraction that is applied
/// (`ConvFails`).
pub fn beta_conv(library: &mut Library, term: &Term) -> Result<Rec, Fault>
    requires library { IsLibrary library.old }
    ensures makes { Makes library.old library.new result }
    ensures stands { IfOk result (StandsOn library.old.recorder.theory) }
    ensures answers { AnswersStated (theorem_in result) (image term.now ∷ []) (redex_outcome library.old.recorder.theory term.now) }
{
    if !is_redex(term) {
        return Err(Fault::ConvFails);
    }
    hol_equal::beta_conv(&mut library.recorder, term)
}

/// Rewriting by rules that are there, of the term and not of its parts: the first rule that applies. The choice is that of
/// the rules, which are equations. Refused as `rewrite_at`.
pub fn rules_conv(
    library: &mut Library,
    rules: &[Rec],
    choice: &Choice,
    term: &Term,
) -> Result<Rec, Fault>
    requires library { IsLibrary library.old }
    requires made { AreMade library.old.recorder rules.now }
    requires equations { AreEquations (theorems rules.now) }
    requires choice { choice.now ≡ sides_of_rules rules.now }
    requires known { is_known library.old.recorder.theory term.now ≡ true }
    ensures makes { Makes library.old library.new result }
    ensures stands { IfOk result (StandsOn library.old.recorder.theory) }
    ensures rewrites { Rewrites (theorems rules.now) term.now (theorem_in result) ⊎ (theorem_in result ≡ Err Memory) }
{
    rewrite_at(&mut library.recorder, rules, choice, term)
}
