// Theorems of the prelude again, on the theory that the recorder has now.
ghost use Rattle.std.specs.Prelude.{◌≡◌, ◌<◌, [], length, IfOk, IfErr};
ghost use Rattle.hol_model.specs.declared.fault.Fault.TheVariants.{Memory};
ghost use Rattle.hol_model.specs.Terms.NamedTerm.{NamedTerm};
ghost use Rattle.hol_bool.specs.Axioms.{IsAxiom, eta_axiom, select_axiom};
ghost use Rattle.hol_prelude.specs.HasLogic.{HasLogic};
ghost use Rattle.hol_prelude.specs.Prelude.{prelude_theorems};
ghost use Rattle.hol_journal.specs.Growth.{Continues};

use hol_equal::{Made, conclusion_of, named};
use hol_journal::Recorder;
use hol_prelude::numbers::{ETA_AX, SELECT_AX};
use hol_prelude::{Bool, theorem_of};

// The theorem of this number, which has no hypotheses.
fn restated(recorder: &mut Recorder, logic: &Bool, number: usize) -> Made
    requires logic { HasLogic recorder.old logic.now }
    requires number { number < length prelude_theorems }
    ensures continues { Continues recorder.old recorder.new result }
    ensures ok { (conclusion : NamedTerm) → IsAxiom number conclusion → IfOk result (λ made. made.theorem ≡ record { theory = recorder.old.theory; hypotheses = []; conclusion = conclusion }) }
    ensures err { (conclusion : NamedTerm) → IsAxiom number conclusion → IfErr result (λ fault. fault ≡ Memory) }
{
    let stored = theorem_of(recorder, logic, number);
    let conclusion = conclusion_of(recorder, stored);
    named(recorder, conclusion, stored)
}

/// ETA_AX: `!t. (\x. t x) = t`, on the theory that the recorder has now, in two steps. It is refused where there is no
/// memory, and for no other reason.
pub fn eta_ax(recorder: &mut Recorder, logic: &Bool) -> Made
    requires { HasLogic recorder.old logic.now }
    ensures continues { Continues recorder.old recorder.new result }
    ensures ok { IfOk result (λ made. made.theorem ≡ record { theory = recorder.old.theory; hypotheses = []; conclusion = eta_axiom }) }
    ensures err { IfErr result (λ fault. fault ≡ Memory) }
{
    restated(recorder, logic, ETA_AX)
}

/// SELECT_AX: `!P x. P x ==> P (@ P)`, on the theory that the recorder has now, in two steps. It is refused where there
/// is no memory, and for no other reason.
pub fn select_ax(recorder: &mut Recorder, logic: &Bool) -> Made
    requires { HasLogic recorder.old logic.now }
    ensures continues { Continues recorder.old recorder.new result }
    ensures ok { IfOk result (λ made. made.theorem ≡ record { theory = recorder.old.theory; hypotheses = []; conclusion = select_axiom }) }
    ensures err { IfErr result (λ fault. fault ≡ Memory) }
{
    restated(recorder, logic, SELECT_AX)
}
