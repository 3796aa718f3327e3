// The text of a pruned log.
ghost use Rattle.std.specs.Prelude.{◌≡◌, ◌≤◌, ◌<◌, [], ◌∷◌, map, length, IfOk, IfErr, IsErrOf, Contains};
ghost use Rattle.hol_model.specs.declared.fault.Fault.TheVariants.{Memory, TooLong};
ghost use Rattle.hol_journal_log.specs.Claims.{claims_of};
ghost use Rattle.hol_journal_log.specs.Pruning.{AreMade, HaveIdentifiers};
ghost use Rattle.hol_journal_log.specs.LogOf.{IsPrunedText, IsLogOf, IsPastLimit};

use crate::claim::Claim;
use crate::log_laws::journal_logs_are_accepted;
use crate::pruning::{claims_fit, pruned_text};
use hol_journal::Recorder;
use hol_logtext::logs_read_back;
use hol_model::{Fault, TEXT_BYTES_LIMIT};

/// The text of the log of the claims, pruned to the entries that they need, within the limit on texts. Where each claim's name is an
/// identifier, it is accepted, with these claims, over entries of the recorder's theory.
///
/// Refusals: Memory, also where an entry that the log needs is not kept, and TooLong, where the text would be longer.
pub fn log_text<'a>(recorder: &'a Recorder, claims: &[Claim<'a>]) -> Result<Vec<u8>, Fault>
    requires { AreMade recorder.now (claims_of claims.now) }
    ensures pruned { IfOk result (λ text. IsPrunedText recorder.now (claims_of claims.now) text.items) }
    ensures accepted { HaveIdentifiers (claims_of claims.now) → IfOk result (λ text. IsLogOf recorder.now.theory text.items (claims_of claims.now)) }
    ensures within_limit { IfOk result (λ text. length text.items ≤ TEXT_BYTES_LIMIT) }
    ensures too_long { IsErrOf result TooLong → IsPastLimit recorder.now (claims_of claims.now) }
    ensures refusals { IfErr result (Contains (TooLong ∷ Memory ∷ [])) }
{
    journal_logs_are_accepted();
    logs_read_back();
    claims_fit(claims);
    let _entry = recorder.stored(0);
    pruned_text(recorder, claims)
}
