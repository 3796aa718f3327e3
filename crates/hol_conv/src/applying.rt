// Conversions and rewriting over a library.
ghost use Rattle.std.specs.Prelude.{◌≡◌, true};
ghost use Rattle.hol_model.specs.Logic.KnownTerm.{is_known};
ghost use Rattle.hol_model.specs.Refining.Conversions.{top_depth_conv};
ghost use Rattle.hol_model.specs.Refining.Conversions as conversions;
ghost use Rattle.hol_tactic_exprs.specs.Expressions.{conversion_of};
ghost use Rattle.hol_prelude_derivations.specs.Derivations.{AreMade, theorems};
ghost use Rattle.hol_rewrite.specs.RuleSides.{AreEquations};
ghost use Rattle.hol_theorem_library.specs.Library.{IsLibrary};
ghost use Rattle.hol_conv.specs.Makes.{Makes};
ghost use Rattle.hol_conv.specs.Prepared.{ArePrepared};
ghost use Rattle.hol_conv.specs.Answers.{ConvertsOver};

use crate::by_rules::ByRules;
use crate::converting::convert;
use crate::leaves::Made;
use crate::over_host::OverHost;
use crate::prepared::NamedRules;
use crate::preparing::prepare;
use hol_host::Converters;
use hol_journal::Rec;
use hol_rewrite::choice_of;
use hol_tactic_exprs::{Conv, Fuel, Prefix};
use hol_terms::Term;
use hol_theorem_library::Library;

/// What the conversion proves of a known term, an equation of it: an answer that it may have, with the steps that it leaves
/// (hol_model, Conversions; HOL Light's equal.ml). A host's conversions may be called, and what they answer is replayed.
///
/// Each conversion without parts spends a step before anything else. The rules of theorems that it names are made before
/// that, once for all places. Refused for the first refusal that is not caught:
/// StepLimit where no step is left; ConvFails of NO_CONV, of BETA_CONV where there is no redex, of a host's conversion that
/// fails, of a part that the term does not have, of ABS_CONV where its variable is free in a hypothesis; UnknownName where no
/// theorem or conversion has the name; NoMatch where no rule of REWR_CONV's theorem applies; InvalidStep where a host's
/// justification does not give its equation; TooLarge where as many descents are open as the limit allows, or a theorem on the
/// way passes a limit; and Memory. ORELSEC, TRY_CONV, REPEATC and what is defined by them catch all but StepLimit, TooLarge and
/// Memory.
pub fn apply<H: Converters>(
    library: &mut Library,
    hosts: &H,
    conv: &Conv,
    t: &Term,
    fuel: &mut Fuel,
) -> Made
    requires library { IsLibrary library.old }
    requires known { is_known library.old.recorder.theory t.now ≡ true }
    ensures outcome { ConvertsOver library.old (H.conversions hosts.now) 0 fuel.old.left (conversion_of conv.now) t.now result fuel.new.left }
    ensures makes { Makes library.old library.new result }
{
    let alloc = library.recorder.alloc();
    let mut prepared = Vec::new(alloc);
    prepare(library, conv, &mut prepared);
    apply_prepared(library, hosts, &prepared, conv, t, fuel)
}

// The same, where the rules of some names are there.
fn apply_prepared<H: Converters>(
    library: &mut Library,
    hosts: &H,
    prepared: &[NamedRules],
    conv: &Conv,
    t: &Term,
    fuel: &mut Fuel,
) -> Made
    requires library { IsLibrary library.old }
    requires prepared { ArePrepared library.old prepared.now }
    requires known { is_known library.old.recorder.theory t.now ≡ true }
    ensures outcome { ConvertsOver library.old (H.conversions hosts.now) 0 fuel.old.left (conversion_of conv.now) t.now result fuel.new.left }
    ensures makes { Makes library.old library.new result }
{
    let leaves = OverHost { hosts, prepared };
    convert(library, &leaves, conv, t, 0, fuel)
}

/// TOP_DEPTH_CONV by these rules, of a known term (HOL Light's simp.ml, PURE_REWRITE_CONV): each try of the rules at a term
/// spends a step, and the first rule that applies is taken. The rules are equations that the recorder made, as `rules_of`
/// answers them. No conversion of the host is called.
///
/// Where no rule applies anywhere, the answer is that the term equals itself. Refused: StepLimit where no step is left; TooLarge
/// where as many descents are open as the limit allows, or a theorem on the way passes a limit; and Memory.
pub fn rewrite<H: Converters>(
    library: &mut Library,
    hosts: &H,
    rules: &[Rec],
    t: &Term,
    fuel: &mut Fuel,
) -> Made
    requires library { IsLibrary library.old }
    requires known { is_known library.old.recorder.theory t.now ≡ true }
    requires made { AreMade library.old.recorder rules.now }
    requires equations { AreEquations (theorems rules.now) }
    ensures outcome { ConvertsOver library.old (H.conversions hosts.now) 0 fuel.old.left (top_depth_conv (conversions.rules_conv (theorems rules.now))) t.now result fuel.new.left }
    ensures makes { Makes library.old library.new result }
{
    let alloc = library.recorder.alloc();
    let choice = choice_of(alloc, rules)?;
    // Each conversion without parts stands for the rules.
    let everywhere = Conv::prefixed(alloc, Prefix::TopDepth, Conv::All)?;
    let leaves = ByRules {
        hosts,
        rules,
        choice: &choice,
    };
    convert(library, &leaves, &everywhere, t, 0, fuel)
}
