// Definitions.
ghost use Rattle.std.specs.Prelude.{◌≡◌, ◌<◌, length, IfOk, IfErr};
ghost use Rattle.hol_model.specs.declared.fault.Fault.TheVariants.{Memory};
ghost use Rattle.hol_check_terms.specs.Terms.{name_at, type_at, term_at, IsGrown};
ghost use Rattle.hol_check_rules.specs.Steps as spec;
ghost use Rattle.hol_check_rules.specs.Definitions.{IsDefined};
ghost use Rattle.hol_check_changes.specs.Forming.{IsFitting};

use hol_check_changes::forming::{equation_of, fitting_type};
use hol_check_terms::reflection::reflects;
use hol_check_terms::terms::Terms;
use hol_model::{Cause, Fault};

/// What a definition gives: the type of the constant, and the equation of the constant and its body.
#[derive(Clone, Copy)]
pub struct Definition {
    pub ty: usize,
    pub conclusion: usize,
}

/// The definition of a constant of a new name as a term in which no variable is free, and whose type variables all stand
/// in its type.
pub fn define(
    terms: &mut Terms,
    name: usize,
    body: usize,
) -> Result<Result<Definition, Cause>, Fault>
    requires name { name < length terms.old.names }
    requires body { IsFitting terms.old.terms body }
    ensures defined { IfOk result (IsDefined (spec.definition_step (name_at terms.old.names name) (term_at terms.old.terms body)) (term_at terms.old.terms body) terms.new) }
    ensures refused { IfErr result (λ fault. fault ≡ Memory) }
    ensures grows { IsGrown terms.old terms.new }
{
    let ty = fitting_type(terms, body)?;
    let definable = is_definable(terms, ty, body)?;
    if !definable {
        return Ok(Err(Cause::Rule));
    }
    let constant = terms.constant(name, ty)?;
    match equation_of(terms, constant, body) {
        Ok(conclusion) => Ok(Ok(Definition { ty, conclusion })),
        Err(Fault::TooLarge) => Ok(Err(Cause::Large)),
        Err(_fault) => Err(Fault::Memory),
    }
}

// Whether no variable is free in a term, and each of its type variables stands in a type.
fn is_definable(terms: &Terms, ty: usize, body: usize) -> Result<bool, Fault>
    requires ty { ty < length terms.now.types }
    requires body { body < length terms.now.terms }
    ensures definable { IfOk result (λ answer. answer ≡ spec.is_definable (type_at terms.now.types ty) (term_at terms.now.terms body)) }
    ensures refused { IfErr result (λ fault. fault ≡ Memory) }
{
    if !terms.has_no_free(body) {
        return Ok(false);
    }
    reflects(terms, ty, body)
}
