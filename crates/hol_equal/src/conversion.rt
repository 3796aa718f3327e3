// Beta conversion of redexes whose parts are known.
ghost use Rattle.std.specs.Prelude.{◌≡◌, ◌∷◌, ℕ, List, [], Some, None};
ghost use Rattle.hol_model.specs.Terms.HolType.{HolType};
ghost use Rattle.hol_model.specs.Terms.NamedTerm.{NamedTerm, variable, combination, abstraction, type_of};
ghost use Rattle.hol_model.specs.Kernel.Rules.{first_unknown};
ghost use Rattle.hol_journal.specs.Growth.{Continues};
ghost use Rattle.hol_equal.specs.Sequents.{DerivesIf};
ghost use Rattle.hol_equal.specs.Conversions.{conversion, conversion_fits, IsKnownRedex};

use crate::steps::{self, Made};
use hol_journal::Recorder;
use hol_terms::Term;

/// For an abstraction `\x. b`, its variable and a term `a`, all of them known to the theory and not walked for it, the theorem
/// `(\x. b) a = b[a/x]`, in two steps.
pub fn converted_known(
    recorder: &mut Recorder,
    function: &Term,
    binder: &Term,
    argument: &Term,
) -> Made
    requires { IsKnownRedex recorder.old.theory function.now binder.now argument.now }
    ensures continues { Continues recorder.old recorder.new result }
    ensures derives { (name : List ℕ) (ty codomain : HolType) (body : NamedTerm) → function.now ≡ abstraction name ty body
        → binder.now ≡ variable name ty → type_of body ≡ Some codomain → type_of argument.now ≡ Some ty
        → first_unknown recorder.old.theory (combination (abstraction name ty body) argument.now) ≡ None
        → DerivesIf (conversion_fits name ty codomain body argument.now) result [] (conversion name ty codomain body argument.now) }
{
    let alloc = recorder.alloc();
    let trivial = Term::mk_comb(alloc, function, binder)?;
    let equation = steps::beta_known(recorder, &trivial)?;
    let new = argument.copy(alloc)?;
    let old = binder.copy(alloc)?;
    steps::inst_known(recorder, &[(new, old)], &equation)
}
