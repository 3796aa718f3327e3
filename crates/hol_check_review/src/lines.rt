// The lines that tell claims and entries.
ghost use Rattle.std.specs.Prelude.{IfOk};
ghost use Rattle.std.specs.String.{string_bytes};
ghost use Rattle.hol_syntax.specs.Scope.{scope_of};
ghost use Rattle.hol_check_review.specs.Reviews.{IsClaimLine, IsEntryLine};

use crate::texts::{text_of_claim, text_of_entry};
use crate::types::text_of_name;
use crate::usual::{mark_of, remark_on};
use hol_check::{Claim, LogEntry};
use hol_model::Fault;
use hol_syntax::Scope;
use std::alloc::Global;

/// The line of a claim: its name, `: `, and its sequent as scripts write sequents. The names of bound variables are made
/// up, apart from those of the binders round them, of free variables and of the scope's constants.
///
/// Refusals: Memory; TooLarge, where the sequent is past a limit on types and terms; UnknownConst, where the scope lacks
/// a constant or a type. A sequent that is none of an accepted log may be refused for BadName, TypeMismatch, NotBool and
/// NameTaken. That one of an accepted log is not, is not proved.
pub fn line_of_claim(alloc: Global, scope: &Scope, claim: &Claim) -> Result<String, Fault>
    ensures { IfOk result (λ line. IsClaimLine (scope_of scope.now) claim.now (string_bytes line)) }
{
    let name = text_of_name(claim.name())?;
    let text = text_of_claim(alloc, scope, claim)?;
    Ok(format!(in alloc; "{name}: {text}")?)
}

/// The line of an entry: the command of a script that makes it, `def`, `newtype` or `newconst`, and behind it ` (as usual)`
/// where it is the definition of a logical constant that the prelude has, and ` (WARNING: not as usual)` where it is none
/// of these and makes a constant of the name of one. Names of bound variables are made up, as for a claim. Refusals: as
/// of `line_of_claim`, and UnknownType, where the scope lacks a type.
pub fn line_of_entry(alloc: Global, scope: &Scope, entry: &LogEntry) -> Result<String, Fault>
    ensures { IfOk result (λ line. IsEntryLine (scope_of scope.now) entry.now (string_bytes line)) }
{
    let text = text_of_entry(alloc, scope, entry)?;
    let mark = mark_of(remark_on(entry));
    Ok(format!(in alloc; "{text}{mark}")?)
}
