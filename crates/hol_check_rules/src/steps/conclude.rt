// The theorem of a step, of the hypotheses and the conclusion that were made.
ghost use Rattle.std.specs.Prelude.{◌≡◌, List, Some, slice_get, length};
ghost use Rattle.hol_model.specs.Terms.Nameless.{Nameless};
ghost use Rattle.hol_model.specs.Logs.LogSequents.{supposing};
ghost use Rattle.hol_check_terms.specs.Terms.{TermTable, IsGrown};
ghost use Rattle.hol_check_rules.specs.Steps.{AreInOrder, Takes, plain};
ghost use Rattle.hol_check_changes.specs.Forming.{IsFormed};

use super::Taken;
use crate::state::Theorem;
use hol_model::{Cause, Fault};

/// The theorem of hypotheses and a conclusion that was formed, or that it passes a limit.
pub(crate) fn conclude(hypotheses: Vec<usize>, conclusion: Result<usize, Fault>) -> Taken
    ensures { (earlier now : TermTable) (wanted : List Nameless) (formed : Nameless) → IsGrown earlier now
        → AreInOrder earlier.terms hypotheses.items wanted → IsFormed formed conclusion now.terms
        → Takes (plain (supposing wanted formed)) result now.terms }
{
    match conclusion {
        Ok(conclusion) => Ok(Ok(Theorem {
            hypotheses,
            conclusion,
        })),
        Err(Fault::TooLarge) => Ok(Err(Cause::Large)),
        Err(_fault) => Err(Fault::Memory),
    }
}
