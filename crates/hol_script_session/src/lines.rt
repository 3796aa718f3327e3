// The lines of theorems, and names in them.
ghost use Rattle.std.specs.Prelude.{◌≡◌, [], IfOk, IfErr, string_bytes};
ghost use Rattle.hol_model_sessions.specs.Sessions as spec;
ghost use Rattle.hol_model.specs.declared.fault.Fault.TheVariants.{Memory};
ghost use Rattle.hol_syntax.specs.Scope.{scope_of};
ghost use Rattle.hol_script_session.specs.Answers.{IsLineOf};
ghost use Rattle.hol_script_session.specs.Growth.{LeavesNone, MakesEquation, MakesLine};

use hol_kernel::Thm;
use hol_model::Fault;
use hol_syntax::Scope;
use hol_syntax_print::push_sequent;
use hol_terms::{Term, mk_eq};
use std::alloc::Global;

/// The line of a theorem, and the name in it.
#[derive(Drop)]
pub struct TheoremLine {
    pub name: String,
    pub text: String,
}

/// Whether `thm` may give this name: names that end in `_def` belong to definitions.
pub(crate) fn is_theorem_name(name: &str) -> bool
    ensures { result ≡ spec.is_theorem_name name.now }
{
    !name.as_bytes().ends_with(b"_def")
}

// A name, a colon and a sequent.
fn sequent_line(
    alloc: Global,
    scope: &Scope,
    name: &str,
    hyps: &[Term],
    concl: &Term,
) -> Result<TheoremLine, Fault>
    ensures ok { IfOk result (λ line. IsLineOf line (scope_of scope.now) name.now (record { theory = []; hypotheses = hyps.now; conclusion = concl.now })) }
    ensures err { IfErr result (λ fault. fault ≡ Memory) }
{
    let mut text = String::from_str(alloc, name)?;
    text.push_str(": ")?;
    push_sequent(alloc, scope, hyps, concl, &mut text)?;
    text.push_str("\n")?;
    Ok(TheoremLine {
        name: String::from_str(alloc, name)?,
        text,
    })
}

/// The line of a theorem.
pub(crate) fn theorem_line(
    alloc: Global,
    scope: &Scope,
    name: &str,
    theorem: &Thm,
) -> Result<TheoremLine, Fault>
    ensures ok { IfOk result (λ line. IsLineOf line (scope_of scope.now) name.now theorem.now) }
    ensures err { IfErr result (λ fault. fault ≡ Memory) }
{
    sequent_line(alloc, scope, name, theorem.hyps(), theorem.concl())
}

// The name under which the theorem of a definition is stored.
pub(crate) fn definition_name(alloc: Global, name: &str) -> Result<String, Fault>
    ensures ok { IfOk result (λ stored. string_bytes stored ≡ spec.definition_name name.now) }
    ensures err { IfErr result (λ fault. fault ≡ Memory) }
{
    let mut stored = String::from_str(alloc, name)?;
    stored.push_str("_def")?;
    Ok(stored)
}

// Want of memory is told; any other refusal leaves no equation.
fn no_equation(fault: Fault) -> Result<Option<Term>, Fault>
    ensures { LeavesNone result fault }
{
    match fault {
        Fault::Memory => Err(Fault::Memory),
        _ => Ok(None),
    }
}

// The equation `c = t` of a definition; `None` where there is none within the limits.
fn definition_equation(alloc: Global, name: &str, term: &Term) -> Result<Option<Term>, Fault>
    ensures { MakesEquation result name.now term.now }
{
    let constant = match Term::mk_const(alloc, name, term.ty()) {
        Ok(constant) => constant,
        Err(fault) => return no_equation(fault),
    };
    match mk_eq(alloc, &constant, term) {
        Ok(equation) => Ok(Some(equation)),
        Err(fault) => no_equation(fault),
    }
}

// The line of the theorem of a definition; `None` where its equation is not within the limits.
pub(crate) fn definition_line(
    alloc: Global,
    scope: &Scope,
    name: &str,
    stored: &str,
    term: &Term,
) -> Result<Option<TheoremLine>, Fault>
    ensures { MakesLine result (scope_of scope.now) name.now stored.now term.now }
{
    let Some(equation) = definition_equation(alloc, name, term)? else {
        return Ok(None);
    };
    let line = sequent_line(alloc, scope, stored, &[], &equation)?;
    Ok(Some(line))
}
