// One line after another.
ghost use Rattle.std.specs.Prelude.{◌≡◌, IfOk, IfErr};
ghost use Rattle.hol_model.specs.declared.fault.Fault.TheVariants.{Memory};
ghost use Rattle.hol_model.specs.Logs.LogFaults.{has_end_fault};
ghost use Rattle.hol_logtext.specs.Lines.{line_of};
ghost use Rattle.hol_check_terms.specs.Terms.{TermTable};
ghost use Rattle.hol_check_rules.specs.State.{state_of};
ghost use Rattle.hol_check_lines.specs.Taken.{IsTaken};

use crate::addition::add;
use crate::judge::judge;
use crate::log::Log;
use crate::named::make_named;
use hol_check_rules::state::Contents;
use hol_logtext::Line;
use hol_model::{Cause, Fault};

/// Takes a line, or answers the first cause for which it is refused. After a refusal the log has no use. Terms are made
/// where a step or a claim names them, so memory may be used up there in place of at their own lines.
pub fn take(log: &mut Log, line: &Line<'_>) -> Result<Result<(), Cause>, Fault>
    ensures taken { IfOk result (IsTaken log.old (line_of line.now) log.new) }
    ensures refused { IfErr result (λ fault. fault ≡ Memory) }
{
    make_named(&mut log.table, &mut log.contents, line)?;
    let addition = match judge(&mut log.table, &log.contents, line)? {
        Ok(addition) => addition,
        Err(cause) => return Ok(Err(cause)),
    };
    if ends_wrongly(&log.contents, line) {
        return Ok(Err(Cause::End));
    }
    add(log.table.alloc(), &mut log.contents, addition)?;
    Ok(Ok(()))
}

// Whether a line stands after the last one, or is a last one that tells another number of claims.
fn ends_wrongly(contents: &Contents, line: &Line<'_>) -> bool
    ensures { (table : TermTable) → result ≡ has_end_fault (state_of table contents.now) (line_of line.now) }
{
    match line {
        Line::End(count) => contents.is_ended || *count as usize != contents.claims.len(),
        _ => contents.is_ended,
    }
}
