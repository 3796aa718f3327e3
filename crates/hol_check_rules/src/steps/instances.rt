// Instances of theorems.
ghost use Rattle.std.specs.Prelude.{◌≡◌, ◌<◌, List, map, length, IfOk, IfErr};
ghost use Rattle.std.specs.List.{All};
ghost use Rattle.std.specs.List.{list_all};
ghost use Rattle.hol_model.specs.declared.fault.Fault.TheVariants.{Memory};
ghost use Rattle.hol_model.specs.Terms.HolType.{HolType, is_type_variable, replaces_type_variables};
ghost use Rattle.hol_model.specs.Logs.LogFaults.{is_replacement};
ghost use Rattle.hol_model.specs.Terms.Nameless.{Nameless};
ghost use Rattle.hol_model.specs.Logs.LogSequents.{supposing};
ghost use Rattle.hol_check_terms.specs.Terms.{type_at, term_at, IsGrown};
ghost use Rattle.hol_check_changes.specs.Pairs.{ArePairs};
ghost use Rattle.hol_check_changes.specs.Change.{PartChange, changed, IsMeant, HasMeaning};
ghost use Rattle.hol_check_rules.specs.Hypotheses.{terms_in};
ghost use Rattle.hol_check_rules.specs.State.{sequent_in, IsFittingTheorem};
ghost use Rattle.hol_check_rules.specs.StepPairs.{term_pairs_in, type_pairs_in, IsFittingPair, IsTypePair};
ghost use Rattle.hol_check_rules.specs.Steps as spec;
ghost use Rattle.hol_check_rules.specs.Steps.{AreFormed, Takes, changed_step};
ghost use Rattle.hol_check_changes.specs.Forming.{IsFormed, IsFitting};

use super::Taken;
use super::conclude::conclude;
use crate::hypotheses::set_of;
use crate::state::Theorem;
use hol_check_changes::change::change_whole;
use hol_check_changes::equation::is_free_variable;
use hol_check_changes::forming::{have_one_type, within_limits};
use hol_check_changes::leaves::Change;
use hol_check_terms::terms::Terms;
use hol_check_terms::types::TypeShape;
use hol_model::{Cause, Fault};

/// A theorem with free variables replaced, all at once, by pairs (new, old), of which the first counts.
pub fn inst(terms: &mut Terms, premise: &Theorem, pairs: &[(usize, usize)]) -> Taken
    requires premise { IsFittingTheorem terms.old.terms premise.now }
    requires pairs { All (IsFittingPair terms.old.terms) pairs.now }
    ensures taken { Takes (spec.inst_step (sequent_in terms.old.terms premise.now) (term_pairs_in terms.old.terms pairs.now)) result terms.new.terms }
    ensures grows { IsGrown terms.old terms.new }
{
    let replaces = are_replacements(terms, pairs)?;
    if !replaces {
        return Ok(Err(Cause::Kind));
    }
    changed_theorem(terms, &Change::Put(pairs), premise)
}

/// A theorem with type variables replaced, all at once, by pairs (new, old), of which the first counts.
pub fn inst_type(terms: &mut Terms, premise: &Theorem, pairs: &[(usize, usize)]) -> Taken
    requires premise { IsFittingTheorem terms.old.terms premise.now }
    requires pairs { All (IsTypePair terms.old.types) pairs.now }
    ensures taken { Takes (spec.inst_type_step (sequent_in terms.old.terms premise.now) (type_pairs_in terms.old.types pairs.now)) result terms.new.terms }
    ensures grows { IsGrown terms.old terms.new }
{
    if !replace_type_variables(terms, pairs) {
        return Ok(Err(Cause::Kind));
    }
    changed_theorem(terms, &Change::Instantiate(pairs), premise)
}

// Whether each pair puts a term for a variable of its type.
fn are_replacements(terms: &mut Terms, pairs: &[(usize, usize)]) -> Result<bool, Fault>
    requires { All (IsFittingPair terms.old.terms) pairs.now }
    ensures are { IfOk result (λ answer. answer ≡ list_all is_replacement (term_pairs_in terms.old.terms pairs.now)) }
    ensures refused { IfErr result (λ fault. fault ≡ Memory) }
    ensures grows { IsGrown terms.old terms.new }
{
    for pair in pairs {
        let replaces = is_replacement(terms, pair.0, pair.1)?;
        if !replaces {
            return Ok(false);
        }
    }
    Ok(true)
}

// Whether a term may stand for another, a variable of its type.
fn is_replacement(terms: &mut Terms, new: usize, old: usize) -> Result<bool, Fault>
    requires new { IsFitting terms.old.terms new }
    requires old { IsFitting terms.old.terms old }
    ensures is { IfOk result (λ answer. answer ≡ is_replacement (term_at terms.old.terms new, term_at terms.old.terms old)) }
    ensures refused { IfErr result (λ fault. fault ≡ Memory) }
    ensures grows { IsGrown terms.old terms.new }
{
    if !is_free_variable(terms, old) {
        return Ok(false);
    }
    have_one_type(terms, new, old)
}

// Whether each pair puts a type for a type variable.
fn replace_type_variables(terms: &Terms, pairs: &[(usize, usize)]) -> bool
    requires { All (IsTypePair terms.now.types) pairs.now }
    ensures { result ≡ replaces_type_variables (type_pairs_in terms.now.types pairs.now) }
{
    for pair in pairs {
        if !is_type_variable(terms, pair.1) {
            return false;
        }
    }
    true
}

// Whether a type is a type variable.
fn is_type_variable(terms: &Terms, ty: usize) -> bool
    requires { ty < length terms.now.types }
    ensures { result ≡ is_type_variable (type_at terms.now.types ty) }
{
    match terms.type_shape(ty) {
        TypeShape::Variable(_name) => true,
        _ => false,
    }
}

// The change of each term of a theorem.
fn changed_theorem(terms: &mut Terms, change: &Change<'_>, premise: &Theorem) -> Taken
    requires meaning { HasMeaning terms.old change.now }
    requires premise { IsFittingTheorem terms.old.terms premise.now }
    ensures taken { (meaning : PartChange) → IsMeant terms.old change.now meaning → Takes (changed_step (changed meaning 0) (sequent_in terms.old.terms premise.now)) result terms.new.terms }
    ensures grows { IsGrown terms.old terms.new }
{
    let changed = match change_each(terms, change, &premise.hypotheses) {
        Ok(changed) => changed,
        Err(Fault::TooLarge) => return Ok(Err(Cause::Large)),
        Err(_fault) => return Err(Fault::Memory),
    };
    let hypotheses = set_of(terms, &changed)?;
    conclude(hypotheses, change_within(terms, change, premise.conclusion))
}

// The change of each term of a list.
fn change_each(terms: &mut Terms, change: &Change<'_>, list: &[usize]) -> Result<Vec<usize>, Fault>
    requires meaning { HasMeaning terms.old change.now }
    requires list { All (IsFitting terms.old.terms) list.now }
    ensures changed { (meaning : PartChange) → IsMeant terms.old change.now meaning → AreFormed (map (changed meaning 0) (terms_in terms.old.terms list.now)) result terms.new.terms }
    ensures grows { IsGrown terms.old terms.new }
{
    let mut news = Vec::new(terms.alloc());
    for number in list {
        let new = change_within(terms, change, *number)?;
        news.push(new)?;
    }
    Ok(news)
}

// The change of a term, within the limits.
fn change_within(terms: &mut Terms, change: &Change<'_>, number: usize) -> Result<usize, Fault>
    requires number { number < length terms.old.terms }
    requires meaning { HasMeaning terms.old change.now }
    ensures changed { (meaning : PartChange) → IsMeant terms.old change.now meaning → IsFormed (changed meaning 0 (term_at terms.old.terms number)) result terms.new.terms }
    ensures grows { IsGrown terms.old terms.new }
{
    let new = change_whole(terms, change, number)?;
    within_limits(terms, new)
}
