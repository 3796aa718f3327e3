// First-order matching of terms: pattern and term are gone through side by side, each part once.
ghost use Rattle.std.specs.Prelude.{◌≡◌, ◌⊎◌, [], ◌∷◌, ◌++◌, Some, None, IfOk, OnOk, IfErr, IsTrue, if◌then◌else◌, find};
ghost use Rattle.std.specs.Option.{option_map};
ghost use Rattle.hol_model.specs.Terms.Name.{is_identifier};
ghost use Rattle.hol_model.specs.Terms.NamedTerm.{variable, type_of};
ghost use Rattle.hol_model.specs.Terms.Substitution as substitution;
ghost use Rattle.hol_model.specs.declared.fault.Fault.TheVariants.{Memory, NoMatch};
ghost use Rattle.hol_model.specs.Rewrites.Matching.{HasNoMatch, Matches};
ghost use Rattle.hol_model.specs.Rewrites.Matching as definitions;
ghost use Rattle.hol_match.specs.Frames.{sides_of};
ghost use Rattle.hol_match.specs.Once.{IsOnce};
ghost use Rattle.hol_match.specs.Walk as spec;

use crate::frames::{bound_alike, is_variable_named};
use crate::inside::is_closed;
use crate::types::match_type;
use hol_alpha::{Frames, Named, aconv};
use hol_model::Fault;
use hol_terms::{Parts, Term};
use hol_types::Ty;
use std::alloc::Global;

/// A match: the pairs (new, old) that are put into the pattern, the types first (by `inst`) and then the terms (by
/// `vsubst`).
#[derive(Drop)]
pub struct Match {
    pub types: Vec<(Ty, Ty)>,
    pub terms: Vec<(Term, Term)>,
}

/// The first-order match of a pattern with a term, as `term_match` of HOL Light's drule.ml: what is put for the type
/// variables of the pattern, and then for its free variables, so that it is the term up to the names of bound variables.
/// The variables in `fixed` and the type variables in their types stay. Other members of `fixed` count for nothing.
///
/// Each pair is for a type variable of the pattern, or for a variable that is free in it once types are put in, and is the
/// only one for it. Variables that become one as types are put in have one pair.
///
/// Refused: NoMatch, exactly where there is no match, and Memory.
#[tactic(auto, using(crate::proofs::Completeness::matching))]
pub fn term_match(
    alloc: Global,
    fixed: &[Term],
    pattern: &Term,
    term: &Term,
) -> Result<Match, Fault>
    ensures ok { IfOk result (λ found. Matches fixed.now pattern.now term.now found.types.items found.terms.items) }
    ensures once { IfOk result (λ found. IsOnce found.types.items × IsOnce found.terms.items) }
    ensures err { IfErr result (λ fault. (fault ≡ Memory) ⊎ ((fault ≡ NoMatch) × HasNoMatch fixed.now pattern.now term.now)) }
{
    let mut found = Match {
        types: Vec::new(alloc),
        terms: Vec::new(alloc),
    };
    if match_part(alloc, fixed, &Frames::Outermost, pattern, term, &mut found)? {
        Ok(found)
    } else {
        Err(Fault::NoMatch)
    }
}

// Whether a part of the pattern becomes a part of the term by the pairs that were found and further ones, which are put
// behind them.
fn match_part(
    alloc: Global,
    fixed: &[Term],
    frames: &Frames<'_>,
    pattern: &Term,
    term: &Term,
    found: &mut Match,
) -> Result<bool, Fault>
    ensures ok { IfOk result (λ fits. spec.match_part fixed.now (sides_of frames.now) (found.old.types.items, found.old.terms.items) pattern.now term.now
        ≡ (if fits then Some (found.new.types.items, found.new.terms.items) else None)) }
    ensures err { IfErr result (λ fault. fault ≡ Memory) }
{
    match (pattern.parts(), term.parts()) {
        (Parts::Variable(name, ty), _) => match bound_alike(&*frames, name, ty, term) {
            Some(alike) => Ok(alike),
            None => match_free(alloc, fixed, &*frames, name, ty, term, found),
        },
        (Parts::Constant(name, ty), Parts::Constant(other, s)) => {
            if name != other {
                return Ok(false);
            }
            match_type(alloc, fixed, ty, s, &mut found.types)
        }
        (Parts::Combination(f, x), Parts::Combination(g, y)) => {
            if !match_part(alloc, fixed, &*frames, f, g, found)? {
                return Ok(false);
            }
            match_part(alloc, fixed, &*frames, x, y, found)
        }
        (Parts::Abstraction(name, ty, body), Parts::Abstraction(other, s, other_body)) => {
            if !match_type(alloc, fixed, ty, s, &mut found.types)? {
                return Ok(false);
            }
            let left = Named { name, ty };
            let right = Named { name: other, ty: s };
            let under = Frames::Under(left, right, &*frames);
            match_part(alloc, fixed, &under, body, other_body, found)
        }
        _ => Ok(false),
    }
}

// The same for a variable that is free in the pattern. The type of the term's part tells which variable it becomes.
fn match_free(
    alloc: Global,
    fixed: &[Term],
    frames: &Frames<'_>,
    name: &str,
    ty: &Ty,
    term: &Term,
    found: &mut Match,
) -> Result<bool, Fault>
    requires { IsTrue (is_identifier name.now) }
    ensures ok { IfOk result (λ fits. spec.match_free fixed.now (spec.right_of (sides_of frames.now)) (found.old.types.items, found.old.terms.items) name.now ty.now term.now (type_of term.now)
        ≡ (if fits then Some (found.new.types.items, found.new.terms.items) else None)) }
    ensures err { IfErr result (λ fault. fault ≡ Memory) }
{
    let s = term.ty();
    if !match_type(alloc, fixed, ty, s, &mut found.types)? {
        return Ok(false);
    }
    if !is_closed(&*frames, term) {
        return Ok(false);
    }
    with_term(alloc, fixed, name, s, term, &mut found.terms)
}

// Whether the term stands for the variable of this name and type, by the pairs that were found or a further one.
fn with_term(
    alloc: Global,
    fixed: &[Term],
    name: &str,
    ty: &Ty,
    term: &Term,
    terms: &mut Vec<(Term, Term)>,
) -> Result<bool, Fault>
    requires { IsTrue (is_identifier name.now) }
    ensures ok { IfOk result (λ fits. spec.with_term fixed.now terms.old.items name.now ty.now term.now ≡ (if fits then Some terms.new.items else None)) }
    ensures err { IfErr result (λ fault. fault ≡ Memory) }
{
    if is_fixed(fixed, name, ty) {
        return Ok(is_variable_named(name, ty, term));
    }
    match known_term(terms, name, ty) {
        Some(known) => Ok(aconv(known, term)),
        None => {
            add_term(alloc, name, ty, term, terms)?;
            Ok(true)
        }
    }
}

// Puts the pair of the term and of the variable that it stands for at the end of a list.
fn add_term(
    alloc: Global,
    name: &str,
    ty: &Ty,
    term: &Term,
    terms: &mut Vec<(Term, Term)>,
) -> Result<(), Fault>
    requires { IsTrue (is_identifier name.now) }
    ensures ok { OnOk result (terms.new.items ≡ terms.old.items ++ (term.now, variable name.now ty.now) ∷ []) }
    ensures err { IfErr result (λ fault. fault ≡ Memory) }
{
    let variable = Term::mk_var(alloc, name, ty)?;
    terms.push((term.copy(alloc)?, variable))?;
    Ok(())
}

// Whether the variable of this name and type is fixed.
fn is_fixed(fixed: &[Term], name: &str, ty: &Ty) -> bool
    ensures { result ≡ definitions.is_fixed fixed.now name.now ty.now }
{
    fixed
        .iter()
        .any(|variable| is_variable_named(name, ty, variable))
}

// What the first pair for the variable of this name and type puts in its place.
fn known_term<'a>(terms: &'a [(Term, Term)], name: &str, ty: &Ty) -> Option<&'a Term>
    ensures { option_map (λ term. term.now) result ≡ option_map (λ pair. pair.0) (find (λ pair. substitution.is_variable_named name.now ty.now pair.1) terms.now) }
{
    match terms
        .iter()
        .find(|pair| is_variable_named(name, ty, &pair.1))
    {
        Some(pair) => Some(&pair.0),
        None => None,
    }
}
