// Hypotheses: in the order of their images, and no two of them alpha-equivalent.
ghost use Rattle.std.specs.Prelude.{◌≡◌, ◌<◌, ◌≤◌, ◌+◌, ◌++◌, [], ◌∷◌, IfOk, IfErr, OnOk, IfSome, length, take, drop};
ghost use Rattle.std.specs.List.Sorted.{IsSearchInRange};
ghost use Rattle.hol_model.specs.Kernel.Theorem.{AreOrdered};
ghost use Rattle.hol_model.specs.Kernel.Theorem as spec;
ghost use Rattle.hol_kernel.specs.Place as place;
ghost use Rattle.hol_model.specs.Kernel.Rules as rules;
ghost use Rattle.hol_model.specs.declared.fault.Fault.TheVariants.{Memory};

use hol_alpha::alpha_cmp;
use hol_model::Fault;
use hol_terms::{Term, is_free};
use hol_types::Ty;
use std::alloc::Global;
use std::cmp::Ordering;

/// The hypotheses of two theorems; where two are alpha-equivalent, that of the first stays.
pub fn with_hypotheses(alloc: Global, first: &[Term], second: &[Term]) -> Result<Vec<Term>, Fault>
    requires first_ordered { AreOrdered first.now }
    requires second_ordered { AreOrdered second.now }
    ensures ok { IfOk result (λ all. all.items ≡ spec.with_hypotheses first.now second.now) }
    ensures err { IfErr result (λ fault. fault ≡ Memory) }
{
    if are_few(second, first) {
        return with_few_new(alloc, first, second);
    }
    if are_few(first, second) {
        return with_few_old(alloc, first, second);
    }
    merged(alloc, first, second)
}

/// The terms in order, as hypotheses; where two are alpha-equivalent, the earlier one stays.
pub fn in_order(alloc: Global, terms: &[Term]) -> Result<Vec<Term>, Fault>
    ensures ok { IfOk result (λ all. all.items ≡ spec.with_hypotheses [] terms.now) }
    ensures err { IfErr result (λ fault. fault ≡ Memory) }
{
    let mut all = Vec::new(alloc);
    for new in terms {
        add_hypothesis(alloc, &mut all, new)?;
    }
    Ok(all)
}

/// The hypotheses without those that are alpha-equivalent to a term.
pub fn without_hypothesis(
    alloc: Global,
    term: &Term,
    hypotheses: &[Term],
) -> Result<Vec<Term>, Fault>
    requires { AreOrdered hypotheses.now }
    ensures ok { IfOk result (λ others. others.items ≡ spec.without_hypothesis term.now hypotheses.now) }
    ensures ordered { IfOk result (λ others. AreOrdered others.items) }
    ensures err { IfErr result (λ fault. fault ≡ Memory) }
{
    match place_in(hypotheses, term) {
        Ok(index) => without_index(alloc, hypotheses, index),
        Err(_) => copies(alloc, hypotheses),
    }
}

/// Whether a variable is free in some hypothesis.
pub fn is_free_in_hypotheses(hypotheses: &[Term], name: &str, ty: &Ty) -> bool
    ensures { result ≡ rules.is_free_in_hypotheses name.now ty.now hypotheses.now }
{
    hypotheses
        .iter()
        .any(|hypothesis| is_free(hypothesis, name, ty))
}

/// A list of one hypothesis.
pub fn one_hypothesis(alloc: Global, hypothesis: Term) -> Result<Vec<Term>, Fault>
    ensures ok { IfOk result (λ all. all.items ≡ hypothesis ∷ []) }
    ensures err { IfErr result (λ fault. fault ≡ Memory) }
{
    let mut all = Vec::new(alloc);
    all.push(hypothesis)?;
    Ok(all)
}

/// Copies of the terms.
pub fn copies(alloc: Global, terms: &[Term]) -> Result<Vec<Term>, Fault>
    ensures ok { IfOk result (λ all. all.items ≡ terms.now) }
    ensures err { IfErr result (λ fault. fault ≡ Memory) }
{
    let mut all = Vec::with_capacity(alloc, terms.len())?;
    push_copies(alloc, &mut all, terms)?;
    Ok(all)
}

// Whether to search for the place of each of the few costs less than to walk along the many.
fn are_few(few: &[Term], many: &[Term]) -> bool {
    few.len() < many.len() / 8
}

// An empty list with room for the terms of both.
fn with_room_for(alloc: Global, first: &[Term], second: &[Term]) -> Result<Vec<Term>, Fault>
    ensures ok { IfOk result (λ all. all.items ≡ []) }
    ensures err { IfErr result (λ fault. fault ≡ Memory) }
{
    let room = first.len().saturating_add(second.len());
    Ok(Vec::with_capacity(alloc, room)?)
}

// The hypotheses of two theorems, one beside the other.
fn merged(alloc: Global, first: &[Term], second: &[Term]) -> Result<Vec<Term>, Fault>
    requires { AreOrdered second.now }
    ensures ok { IfOk result (λ all. all.items ≡ spec.with_hypotheses first.now second.now) }
    ensures err { IfErr result (λ fault. fault ≡ Memory) }
{
    let mut all = with_room_for(alloc, first, second)?;
    let mut left = 0;
    let mut right = 0;
    while left < first.len() && right < second.len() {
        let old = &first[left];
        let new = &second[right];
        match alpha_cmp(old, new) {
            Ordering::Less => {
                push_copy(alloc, &mut all, old)?;
                left += 1;
            }
            Ordering::Equal => {
                push_copy(alloc, &mut all, old)?;
                left += 1;
                right += 1;
            }
            Ordering::Greater => {
                push_copy(alloc, &mut all, new)?;
                right += 1;
            }
        }
    }
    push_copies(alloc, &mut all, &first[left..])?;
    push_copies(alloc, &mut all, &second[right..])?;
    Ok(all)
}

// The hypotheses of two theorems, by a search for the place of each of the second.
fn with_few_new(alloc: Global, first: &[Term], second: &[Term]) -> Result<Vec<Term>, Fault>
    requires first_ordered { AreOrdered first.now }
    requires second_ordered { AreOrdered second.now }
    ensures ok { IfOk result (λ all. all.items ≡ spec.with_hypotheses first.now second.now) }
    ensures err { IfErr result (λ fault. fault ≡ Memory) }
{
    let mut all = with_room_for(alloc, first, second)?;
    let mut rest = first;
    for new in second {
        rest = put_new(alloc, &mut all, rest, new)?;
    }
    push_copies(alloc, &mut all, rest)?;
    Ok(all)
}

// The hypotheses of two theorems, by a search for the place of each of the first.
fn with_few_old(alloc: Global, first: &[Term], second: &[Term]) -> Result<Vec<Term>, Fault>
    requires { AreOrdered second.now }
    ensures ok { IfOk result (λ all. all.items ≡ spec.with_hypotheses first.now second.now) }
    ensures err { IfErr result (λ fault. fault ≡ Memory) }
{
    let mut all = with_room_for(alloc, first, second)?;
    let mut rest = second;
    for old in first {
        rest = put_old(alloc, &mut all, rest, old)?;
    }
    push_copies(alloc, &mut all, rest)?;
    Ok(all)
}

// Puts a new hypothesis among others as far as its place, unless one that is alpha-equivalent stands there; answers what stands behind it.
fn put_new<'a>(
    alloc: Global,
    all: &mut Vec<Term>,
    others: &'a [Term],
    new: &Term,
) -> Result<&'a [Term], Fault>
    requires { AreOrdered others.now }
    ensures ok { IfOk result (λ rest. place.IsNewPut others.now new.now all.old.items all.new.items rest.now) }
    ensures err { IfErr result (λ fault. fault ≡ Memory) }
{
    match place_in(others, new) {
        Ok(index) => {
            let (front, back) = others.split_at(index + 1);
            push_copies(alloc, all, front)?;
            Ok(back)
        }
        Err(index) => {
            let (front, back) = others.split_at(index);
            push_copies(alloc, all, front)?;
            push_copy(alloc, all, new)?;
            Ok(back)
        }
    }
}

// Puts an old hypothesis among others as far as its place, for one that is alpha-equivalent if it stands there; answers what stands behind it.
fn put_old<'a>(
    alloc: Global,
    all: &mut Vec<Term>,
    others: &'a [Term],
    old: &Term,
) -> Result<&'a [Term], Fault>
    requires { AreOrdered others.now }
    ensures ok { IfOk result (λ rest. place.IsOldPut others.now old.now all.old.items all.new.items rest.now) }
    ensures err { IfErr result (λ fault. fault ≡ Memory) }
{
    match place_in(others, old) {
        Ok(index) => {
            push_copies(alloc, all, &others[..index])?;
            push_copy(alloc, all, old)?;
            Ok(&others[index + 1..])
        }
        Err(index) => {
            let (front, back) = others.split_at(index);
            push_copies(alloc, all, front)?;
            push_copy(alloc, all, old)?;
            Ok(back)
        }
    }
}

// Copies of the terms but for one of them.
fn without_index(alloc: Global, terms: &[Term], index: usize) -> Result<Vec<Term>, Fault>
    requires { index < length terms.now }
    ensures ok { IfOk result (λ others. others.items ≡ take index terms.now ++ drop (index + 1) terms.now) }
    ensures err { IfErr result (λ fault. fault ≡ Memory) }
{
    let mut others = Vec::with_capacity(alloc, terms.len() - 1)?;
    push_copies(alloc, &mut others, &terms[..index])?;
    push_copies(alloc, &mut others, &terms[index + 1..])?;
    Ok(others)
}

// Puts copies of the terms behind others.
fn push_copies(alloc: Global, all: &mut Vec<Term>, terms: &[Term]) -> Result<(), Fault>
    ensures ok { OnOk result (all.new.items ≡ all.old.items ++ terms.now) }
    ensures err { IfErr result (λ fault. fault ≡ Memory) }
{
    for term in terms {
        push_copy(alloc, all, term)?;
    }
    Ok(())
}

// Puts a copy of a term behind others.
fn push_copy(alloc: Global, all: &mut Vec<Term>, term: &Term) -> Result<(), Fault>
    ensures ok { OnOk result (all.new.items ≡ all.old.items ++ term.now ∷ []) }
    ensures err { IfErr result (λ fault. fault ≡ Memory) }
{
    all.push(term.copy(alloc)?)?;
    Ok(())
}

// Puts a hypothesis in its place among ordered ones, unless one that is alpha-equivalent stands there.
fn add_hypothesis(alloc: Global, hypotheses: &mut Vec<Term>, new: &Term) -> Result<(), Fault>
    requires { AreOrdered hypotheses.old.items }
    ensures ok { OnOk result (hypotheses.new.items ≡ spec.with_hypothesis hypotheses.old.items new.now) }
    ensures err { IfErr result (λ fault. fault ≡ Memory) }
{
    match place_of(hypotheses, new) {
        Some(index) => {
            hypotheses.insert(index, new.copy(alloc)?)?;
            Ok(())
        }
        None => Ok(()),
    }
}

// Where a hypothesis belongs among ordered ones, or `None` where one that is alpha-equivalent stands there.
fn place_of(hypotheses: &[Term], new: &Term) -> Option<usize>
    requires { AreOrdered hypotheses.now }
    ensures place { result ≡ place.place_of hypotheses.now new.now }
    ensures within { IfSome result (λ index. index ≤ length hypotheses.now) }
{
    place_in(hypotheses, new).err()
}

// The place of a term among ordered hypotheses: `Ok` where one that is alpha-equivalent stands there, else `Err`.
fn place_in(hypotheses: &[Term], term: &Term) -> Result<usize, usize>
    requires { AreOrdered hypotheses.now }
    ensures place { result ≡ place.place_in hypotheses.now term.now }
    ensures within { IsSearchInRange result (length hypotheses.now) }
{
    hypotheses.binary_search_by(|hypothesis| alpha_cmp(hypothesis, term))
}
