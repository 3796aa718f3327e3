// Hypotheses by numbers: in the order of terms, each once.
ghost use Rattle.std.specs.Prelude.{◌≡◌, ◌++◌, ℕ, List, Some, slice_get, length, IfOk, IfErr};
ghost use Rattle.std.specs.List.{All};
ghost use Rattle.hol_model.specs.declared.fault.Fault.TheVariants.{Memory};
ghost use Rattle.hol_model.specs.Terms.HolType.{HolType};
ghost use Rattle.hol_model.specs.Terms.Nameless.{free};
ghost use Rattle.hol_model.specs.Logic.Derivable as derivable;
ghost use Rattle.hol_model.specs.Logs.LogFaults as faults;
ghost use Rattle.hol_check_terms.specs.Terms.{term_at};
ghost use Rattle.hol_check_changes.specs.Change.{IsVariable};
ghost use Rattle.hol_check_rules.specs.Hypotheses.{terms_in, AreOrdered};
ghost use Rattle.hol_check_rules.specs.Steps.{AreInOrder};
ghost use Rattle.hol_check_changes.specs.Forming.{IsFitting};

use hol_check_terms::compare::compare_terms;
use hol_check_terms::occurs::occurs_free;
use hol_check_terms::terms::Terms;
use hol_model::Fault;
use std::alloc::Global;
use std::cmp::Ordering;

/// The terms of two ordered lists in order, each once.
pub(crate) fn union(terms: &Terms, first: &[usize], second: &[usize]) -> Result<Vec<usize>, Fault>
    requires first { All (IsFitting terms.now.terms) first.now }
    requires second { All (IsFitting terms.now.terms) second.now }
    requires first_ordered { AreOrdered (terms_in terms.now.terms first.now) }
    requires second_ordered { AreOrdered (terms_in terms.now.terms second.now) }
    ensures all { IfOk result (λ all. AreInOrder terms.now.terms all.items (terms_in terms.now.terms first.now ++ terms_in terms.now.terms second.now)) }
    ensures refused { IfErr result (λ fault. fault ≡ Memory) }
{
    let mut all = Vec::new(terms.alloc());
    let mut left = 0;
    let mut right = 0;
    while left < first.len() && right < second.len() {
        let old = first[left];
        let new = second[right];
        match compare_terms(terms, old, new) {
            Ordering::Less => {
                all.push(old)?;
                left += 1;
            }
            Ordering::Equal => {
                all.push(old)?;
                left += 1;
                right += 1;
            }
            Ordering::Greater => {
                all.push(new)?;
                right += 1;
            }
        }
    }
    all.extend_from_slice(&first[left..])?;
    all.extend_from_slice(&second[right..])?;
    Ok(all)
}

/// The terms of a list in order, each once.
pub fn set_of(terms: &Terms, list: &[usize]) -> Result<Vec<usize>, Fault>
    requires { All (IsFitting terms.now.terms) list.now }
    ensures all { IfOk result (λ all. AreInOrder terms.now.terms all.items (terms_in terms.now.terms list.now)) }
    ensures refused { IfErr result (λ fault. fault ≡ Memory) }
{
    if list.len() < 2 {
        return copied(terms.alloc(), list);
    }
    let (left, right) = list.split_at(list.len() / 2);
    let left = set_of(terms, left)?;
    let right = set_of(terms, right)?;
    union(terms, &left, &right)
}

// The numbers of a list.
fn copied(alloc: Global, list: &[usize]) -> Result<Vec<usize>, Fault>
    ensures same { IfOk result (λ copy. copy.items ≡ list.now) }
    ensures refused { IfErr result (λ fault. fault ≡ Memory) }
{
    let mut copy = Vec::new(alloc);
    copy.extend_from_slice(list)?;
    Ok(copy)
}

/// The list without a term.
pub(crate) fn without(terms: &Terms, term: usize, list: &[usize]) -> Result<Vec<usize>, Fault>
    requires term { IsFitting terms.now.terms term }
    requires list { All (IsFitting terms.now.terms) list.now }
    requires ordered { AreOrdered (terms_in terms.now.terms list.now) }
    ensures others { IfOk result (λ others. terms_in terms.now.terms others.items ≡ derivable.without (term_at terms.now.terms term) (terms_in terms.now.terms list.now)) }
    ensures fitting { IfOk result (λ others. All (IsFitting terms.now.terms) others.items) }
    ensures ordered { IfOk result (λ others. AreOrdered (terms_in terms.now.terms others.items)) }
    ensures refused { IfErr result (λ fault. fault ≡ Memory) }
{
    let mut others = Vec::new(terms.alloc());
    for other in list {
        if !terms.is_same(*other, term) {
            others.push(*other)?;
        }
    }
    Ok(others)
}

/// Whether a variable is free in one of the terms.
pub(crate) fn is_free_in_any(terms: &Terms, variable: usize, list: &[usize]) -> Result<bool, Fault>
    requires variable { IsVariable terms.now.terms variable }
    requires list { All (IsFitting terms.now.terms) list.now }
    ensures found { IfOk result (λ found. found ≡ faults.is_free_in_any (term_at terms.now.terms variable) (terms_in terms.now.terms list.now)) }
    ensures refused { IfErr result (λ fault. fault ≡ Memory) }
{
    for number in list {
        let found = occurs_free(terms, variable, *number)?;
        if found {
            return Ok(true);
        }
    }
    Ok(false)
}
