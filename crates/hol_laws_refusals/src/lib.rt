//! The laws on what conversions and refiner expressions may be refused for, and with them the commands of a session.
//!
//! Each function is a law: it does nothing, and its clause is the law's statement, for callers' proofs.
#![tactic(auto)]

ghost use Rattle.hol_model.specs.Refining.HostFunctions.{HostConversions, Host};
ghost use Rattle.hol_laws_refusals.specs.Laws.{ConversionsRefuse, RewritingRefuses, RefinersRefuse, ExpressionsHaveKnownRules};
ghost use Rattle.hol_laws_refusals.specs.SmallLaws.{SmallConversionsFit, SmallRefinersFit, SmallGoalsFit};
ghost use Rattle.hol_laws_refusals.specs.SessionRefusals.{ExpandingRefuses, ConvertingRefuses};

/// A host with conversions.
pub trait Converting {
    ghost conversions: { HostConversions };
}

/// A host with refiners and conversions.
pub trait Refining {
    ghost host: { Host };
}

/// What a conversion on a known term is refused for is one of its refusals, whatever a host's conversions answer.
pub fn conversions_refuse<C: Converting>()
    ensures { ConversionsRefuse C.conversions }
{}

/// A conversion that meets what is small alone is not refused as too large, whatever a host's conversions answer.
pub fn small_conversions_fit<C: Converting>()
    ensures { SmallConversionsFit C.conversions }
{}

/// Rewriting everywhere in a known term is refused for want of steps, of memory or of room, and for a limit that is passed.
pub fn rewriting_refuses<C: Converting>()
    ensures { RewritingRefuses C.conversions }
{}

/// What a refiner expression for a known goal is refused for is one of its refusals, whatever a host's functions answer.
pub fn refiners_refuse<R: Refining>()
    ensures { RefinersRefuse R.host }
{}

/// A refiner expression that meets what is small alone is not refused as too large, whatever a host's functions answer.
pub fn small_refiners_fit<R: Refining>()
    ensures { SmallRefinersFit R.host }
{}

/// No command on goals that meets what is small alone is refused as too large, whatever a host's functions answer.
pub fn small_goals_fit<R: Refining>()
    ensures { SmallGoalsFit R.host }
{}

/// The expressions of the program have no rules of their own, so that nothing is asked of them.
pub fn expressions_have_known_rules()
    ensures { ExpressionsHaveKnownRules }
{}

/// In a sound session `e` is refused as its quoted terms are, as no goal is open, or for one of the refusals of refiner
/// expressions, whatever a host's functions answer.
pub fn expanding_refuses<R: Refining>()
    ensures { ExpandingRefuses R.host }
{}

/// In a sound session the theorem of a conversion is refused as its quoted term is, or for one of the refusals of conversions.
pub fn converting_refuses<R: Refining>()
    ensures { ConvertingRefuses R.host }
{}
