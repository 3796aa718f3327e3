// Rows of truth values that make a proposition false, as refusals tell them.
ghost use Rattle.std.specs.Prelude.{◌≡◌, ◌++◌, OnOk, IfOk, IfErr, string_bytes};
ghost use Rattle.hol_model.specs.declared.fault.Fault.TheVariants.{Memory};
ghost use Rattle.hol_model.specs.Propositional.Propositions.{atoms_of};
ghost use Rattle.hol_model_sessions.specs.Replies as replies;
ghost use Rattle.hol_model_sessions.specs.ScriptSessions.{values_of};
ghost use Rattle.hol_syntax.specs.Scope.{scope_of};
ghost use Rattle.hol_script_inference.specs.Rows.{values_behind, TellsRow};

use hol_model::Fault;
use hol_script_session::reply::Refused;
use hol_syntax::Scope;
use hol_syntax_print::text_of_term;
use hol_taut_formulas::atoms;
use hol_terms::Term;
use std::alloc::Global;

// Puts an atom and its value at the end of a text.
fn push_value(
    alloc: Global,
    scope: &Scope,
    atom: &Term,
    value: bool,
    out: &mut String,
) -> Result<(), Fault>
    ensures ok { OnOk result (string_bytes out.new ≡ string_bytes out.old ++ replies.value_text (scope_of scope.now) (atom.now, value)) }
    ensures err { IfErr result (λ fault. fault ≡ Memory) }
{
    let text = text_of_term(alloc, scope, atom)?;
    out.push_str(text.as_str())?;
    out.push_str(if value { "=T" } else { "=F" })?;
    Ok(())
}

// Puts atoms and their values at the end of a text, the first behind this text, each other behind a comma.
fn push_values(
    alloc: Global,
    scope: &Scope,
    before: &str,
    atoms: &[Term],
    row: &[bool],
    out: &mut String,
) -> Result<(), Fault>
    ensures ok { OnOk result (string_bytes out.new ≡ string_bytes out.old ++ values_behind (scope_of scope.now) before.now (values_of atoms.now row.now)) }
    ensures err { IfErr result (λ fault. fault ≡ Memory) }
{
    let Some((atom, atoms)) = atoms.split_first() else {
        return Ok(());
    };
    let Some((value, row)) = row.split_first() else {
        return Ok(());
    };
    out.push_str(before)?;
    push_value(alloc, scope, atom, *value, out)?;
    push_values(alloc, scope, ", ", atoms, row, out)
}

// The text of a row of values of a proposition's atoms.
fn row_text(alloc: Global, scope: &Scope, term: &Term, row: &[bool]) -> Result<String, Fault>
    ensures { IfOk result (λ text. string_bytes text ≡ replies.row_text (scope_of scope.now) (values_of (atoms_of term.now) row.now)) }
{
    let atoms = atoms(alloc, term)?;
    let mut text = String::new(alloc);
    push_values(alloc, scope, " ", &atoms, row, &mut text)?;
    Ok(text)
}

/// The refusal of a term that TAUT does not prove: where the fault has a row, with its text. Where that finds no memory, the
/// refusal is Memory.
pub(crate) fn refusal_with_row(alloc: Global, scope: &Scope, term: &Term, fault: Fault) -> Refused
    ensures { TellsRow (scope_of scope.now) term.now fault result }
{
    let Fault::NotTautology { row, .. } = fault else {
        return Refused { fault, row: None };
    };
    match row_text(alloc, scope, term, &row) {
        Ok(text) => Refused {
            fault,
            row: Some(text),
        },
        Err(_) => Refused {
            fault: Fault::Memory,
            row: None,
        },
    }
}
