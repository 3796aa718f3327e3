// First-order matching of types.
ghost use Rattle.std.specs.Prelude.{◌≡◌, Some, None, IfOk, IfErr, if◌then◌else◌, find};
ghost use Rattle.std.specs.Option.{option_map};
ghost use Rattle.hol_model.specs.Terms.HolType.{type_eq, type_variable};
ghost use Rattle.hol_model.specs.declared.fault.Fault.TheVariants.{Memory};
ghost use Rattle.hol_model.specs.Rewrites.Matching as matching;
ghost use Rattle.hol_match.specs.Walk as spec;

use hol_model::Fault;
use hol_terms::Term;
use hol_types::{Ty, TypeParts};
use std::alloc::Global;

/// Whether a type of the pattern becomes a type of the term by the pairs that were found and further ones, which are put
/// behind them.
pub fn match_type(
    alloc: Global,
    fixed: &[Term],
    generic: &Ty,
    ty: &Ty,
    types: &mut Vec<(Ty, Ty)>,
) -> Result<bool, Fault>
    ensures ok { IfOk result (λ fits. spec.match_type fixed.now types.old.items generic.now ty.now ≡ (if fits then Some types.new.items else None)) }
    ensures err { IfErr result (λ fault. fault ≡ Memory) }
{
    match (generic.parts(), ty.parts()) {
        (TypeParts::Variable(name), _) => with_type(alloc, fixed, name, generic, ty, types),
        (TypeParts::Bool, TypeParts::Bool) => Ok(true),
        (TypeParts::Function(a, b), TypeParts::Function(c, d)) => {
            if !match_type(alloc, fixed, a, c, types)? {
                return Ok(false);
            }
            match_type(alloc, fixed, b, d, types)
        }
        (TypeParts::Declared(name), TypeParts::Declared(other)) => Ok(name == other),
        _ => Ok(false),
    }
}

// The same for a type variable, `generic`, of this name.
fn with_type(
    alloc: Global,
    fixed: &[Term],
    name: &str,
    generic: &Ty,
    ty: &Ty,
    types: &mut Vec<(Ty, Ty)>,
) -> Result<bool, Fault>
    requires { generic.now ≡ type_variable name.now }
    ensures ok { IfOk result (λ fits. spec.with_type fixed.now types.old.items name.now ty.now ≡ (if fits then Some types.new.items else None)) }
    ensures err { IfErr result (λ fault. fault ≡ Memory) }
{
    if is_fixed_type(fixed, name) {
        return Ok(ty.eq(generic));
    }
    match known_type(types, generic) {
        Some(known) => Ok(known.eq(ty)),
        None => {
            types.push((ty.copy(alloc)?, generic.copy(alloc)?))?;
            Ok(true)
        }
    }
}

// Whether the type variable stands in the type of a fixed variable.
fn is_fixed_type(fixed: &[Term], name: &str) -> bool
    ensures { result ≡ matching.is_fixed_type fixed.now name.now }
{
    fixed
        .iter()
        .any(|variable| stands_in_variable(name, variable))
}

// Whether the type variable stands in the type of a variable.
fn stands_in_variable(name: &str, term: &Term) -> bool
    ensures { result ≡ matching.stands_in_variable name.now term.now }
{
    match term.dest_var() {
        Some((_, ty)) => stands_in_type(name, ty),
        None => false,
    }
}

// Whether the type variable stands in the type.
fn stands_in_type(name: &str, ty: &Ty) -> bool
    ensures { result ≡ matching.stands_in_type name.now ty.now }
{
    match ty.parts() {
        TypeParts::Variable(other) => name == other,
        TypeParts::Function(domain, codomain) => stands_in_type(name, domain)
            || stands_in_type(name, codomain),
        _ => false,
    }
}

// What the first pair for the type variable puts in its place.
fn known_type<'a>(types: &'a [(Ty, Ty)], variable: &Ty) -> Option<&'a Ty>
    ensures { option_map (λ ty. ty.now) result ≡ option_map (λ pair. pair.0) (find (λ pair. type_eq pair.1 variable.now) types.now) }
{
    match types.iter().find(|pair| pair.1.eq(variable)) {
        Some(pair) => Some(&pair.0),
        None => None,
    }
}
