// The texts of claims and entries, in the language of scripts.
ghost use Rattle.std.specs.Prelude.{IfOk};
ghost use Rattle.std.specs.String.{string_bytes};
ghost use Rattle.hol_model.specs.Terms.Nameless.{image};
ghost use Rattle.hol_model.specs.Texts.SequentTexts.{IsReadableFormula};
ghost use Rattle.hol_syntax.specs.Scope.{scope_of};
ghost use Rattle.hol_check_review.specs.Reviews.{IsClaimText, IsEntryText, IsNamedFormula, AreNamedFormulas, IsBodyText, IsTypeText};

use crate::known::{knows_term, knows_type};
use crate::names::Names;
use crate::terms::term_of;
use crate::types::{text_of_name, type_of};
use hol_check::{Claim, EntryParts, LogEntry, TermView, TypeView};
use hol_model::Fault;
use hol_syntax::Scope;
use hol_syntax_print::{text_of_sequent, text_of_term, text_of_type};
use hol_terms::Term;
use std::alloc::Global;

// The formula that is shown, with names at its binders.
fn formula_of(
    alloc: Global,
    scope: &Scope,
    names: &Names,
    view: &TermView<'_>,
) -> Result<Term, Fault>
    ensures { IfOk result (IsNamedFormula (scope_of scope.now) view.now) }
{
    let term = term_of(alloc, names, view)?;
    if !term.ty().is_bool() {
        return Err(Fault::NotBool);
    }
    if !knows_term(scope, &term) {
        return Err(Fault::UnknownConst);
    }
    term.well_formed();
    Ok(term)
}

// The hypotheses of a claim, with names at their binders.
fn hypotheses_of(
    alloc: Global,
    scope: &Scope,
    names: &Names,
    claim: &Claim,
) -> Result<Vec<Term>, Fault>
    ensures { IfOk result (λ hyps. AreNamedFormulas (scope_of scope.now) claim.now.sequent.hypotheses hyps.items) }
{
    let mut hyps = Vec::new(alloc);
    for place in 0..claim.hyp_count() {
        let Some(hyp) = claim.hyp(place) else {
            unreachable!()
        };
        hyps.push(formula_of(alloc, scope, names, &hyp)?)?;
    }
    Ok(hyps)
}

/// The text of a claim's sequent, as scripts write sequents. The names of bound variables are made up. Refusals: as of
/// `line_of_claim`.
pub(crate) fn text_of_claim(alloc: Global, scope: &Scope, claim: &Claim) -> Result<String, Fault>
    ensures { IfOk result (λ text. IsClaimText (scope_of scope.now) claim.now.sequent (string_bytes text)) }
{
    let names = Names::for_claim(alloc, scope, claim)?;
    let hyps = hypotheses_of(alloc, scope, &names, claim)?;
    let concl = formula_of(alloc, scope, &names, &claim.concl())?;
    text_of_sequent(alloc, scope, hyps.as_slice(), &concl)
}

// The text of a body, of the type of the constant that is defined by it.
fn text_of_body(
    alloc: Global,
    scope: &Scope,
    ty: &TypeView<'_>,
    body: &TermView<'_>,
) -> Result<String, Fault>
    ensures { IfOk result (λ text. IsBodyText (scope_of scope.now) ty.now body.now (string_bytes text)) }
{
    let names = Names::for_term(alloc, scope, body)?;
    let term = term_of(alloc, &names, body)?;
    if !term.ty().eq(&type_of(alloc, ty)?) {
        return Err(Fault::TypeMismatch);
    }
    if !knows_term(scope, &term) {
        return Err(Fault::UnknownConst);
    }
    text_of_term(alloc, scope, &term)
}

// The text of the type of a constant.
fn text_of_constant_type(alloc: Global, scope: &Scope, ty: &TypeView<'_>) -> Result<String, Fault>
    ensures { IfOk result (λ text. IsTypeText (scope_of scope.now) ty.now (string_bytes text)) }
{
    let ty = type_of(alloc, ty)?;
    if !knows_type(scope, &ty) {
        return Err(Fault::UnknownType);
    }
    text_of_type(alloc, &ty)
}

/// The text of an entry, as the command of a script that makes it. Refusals: as of `line_of_entry`.
pub(crate) fn text_of_entry(alloc: Global, scope: &Scope, entry: &LogEntry) -> Result<String, Fault>
    ensures { IfOk result (λ text. IsEntryText (scope_of scope.now) entry.now (string_bytes text)) }
{
    match entry.parts() {
        EntryParts::Definition(name, ty, body) => {
            let name = text_of_name(name)?;
            let body = text_of_body(alloc, scope, &ty, &body)?;
            Ok(format!(in alloc; "def {name} = `{body}` ;;")?)
        }
        EntryParts::DeclaredType(name) => {
            let name = text_of_name(name)?;
            Ok(format!(in alloc; "newtype {name} ;;")?)
        }
        EntryParts::DeclaredConstant(name, ty) => {
            let name = text_of_name(name)?;
            let ty = text_of_constant_type(alloc, scope, &ty)?;
            Ok(format!(in alloc; "newconst {name} : {ty} ;;")?)
        }
    }
}
