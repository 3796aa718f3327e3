// What stands in front of the conversions without parts.
ghost use Rattle.hol_model.specs.Refining.Conversions.{Conversion};
ghost use Rattle.hol_model.specs.Refining.HostFunctions.{HostConversions};
ghost use Rattle.hol_theorem_library.specs.Library.{IsContinued};
ghost use Rattle.hol_theorem_library.specs.declared.library.Library as library;
ghost use Rattle.hol_conv.specs.Makes.{Makes, StandsIf};
ghost use Rattle.std.specs.Prelude.{◌≡◌, ℕ};
ghost use Rattle.hol_conv.specs.Leaves.{IsLeaf, is_made_anew, stands_for};
ghost use Rattle.hol_conv.specs.Answers.{IsAsked, ConvertsOver};

use hol_journal::Rec;
use hol_model::Fault;
use hol_tactic_exprs::{Conv, Fuel};
use hol_terms::Term;
use hol_theorem_library::Library;

/// What a conversion answers on a term `t`: a theorem `|- t = u`, or its refusal.
pub type Made = Result<Rec, Fault>;

/// Whether the theorem of a conversion without parts is made as it is asked for, so that it stands on the library's theory. What a host
/// answers may be stored.
pub(crate) fn is_made_anew(leaf: &Conv) -> bool
    ensures { result ≡ is_made_anew leaf.now }
{
    match leaf {
        Conv::Host(_) => false,
        _ => true,
    }
}

/// Tries conversions without parts. What is above is generic in it.
pub trait Leaves {
    /// What a conversion without parts stands for.
    ghost means: { Self → Conversion → Conversion };

    /// A host's conversions.
    ghost hosts: { Self → HostConversions };

    /// That they may be tried over the library.
    ghost is_ready: { Self → library.Library → Type 0 };

    /// Tries a conversion without parts on a term.
    fn try_leaf(&self, library: &mut Library, leaf: &Conv, t: &Term, fuel: &mut Fuel) -> Made
        requires leaf { IsLeaf leaf.now }
        requires asked { IsAsked (is_ready self.now) library.old t.now }
        ensures converts { (depth : ℕ) → ConvertsOver library.old (hosts self.now) depth fuel.old.left (stands_for (means self.now) leaf.now) t.now result fuel.new.left }
        ensures makes { Makes library.old library.new result }
        ensures stands { StandsIf (is_made_anew leaf.now) library.old.recorder.theory result };

    /// They are ready as its journal grows.
    ghost stays_ready: { (leaves : Self) (old new : library.Library) → IsContinued old new → is_ready leaves old → is_ready leaves new };
}
