// The values of a formula in 64 rows at once.
ghost use Rattle.std.specs.Prelude.{◌≡◌, ℕ, ◌<◌, [], map, get_or, IfOk, IfErr};
ghost use Rattle.hol_model.specs.declared.fault.Fault.TheVariants.{Memory};
ghost use Rattle.hol_model.specs.Propositional.Propositions.{truth_table};
ghost use Rattle.hol_taut_formulas.specs.Forms.{meant};
ghost use Rattle.hol_taut_formulas.specs.NumberedFormulas.{truth_of_part, truths};
ghost use Rattle.hol_taut_formulas.specs.Words.{is_set, value_in_row, HasValues};

use crate::Connective;
use crate::numbered::{Numbered, Part};
use hol_model::Fault;
use std::alloc::Global;

/// The values of a formula, a bit for each row, where the atoms have these.
pub(crate) fn values(alloc: Global, formula: &Numbered, columns: &[u64]) -> Result<u64, Fault>
    ensures ok { IfOk result (HasValues formula.now columns.now) }
    ensures err { IfErr result (λ fault. fault ≡ Memory) }
{
    let words = words_of(alloc, formula.parts.as_slice(), columns)?;
    Ok(word_at(&words, formula.whole))
}

// The values of each part.
fn words_of(alloc: Global, parts: &[Part], columns: &[u64]) -> Result<Vec<u64>, Fault>
    ensures ok { IfOk result (λ words. (row : ℕ) → row < 64 → map (is_set row) words.items ≡ truths (value_in_row columns.now row) [] parts.now) }
    ensures err { IfErr result (λ fault. fault ≡ Memory) }
{
    let mut words = Vec::with_capacity(alloc, parts.len())?;
    for part in parts {
        let word = word_of(*part, columns, &words);
        words.push(word)?;
    }
    Ok(words)
}

// The values of a part, where those before it have these.
fn word_of(part: Part, columns: &[u64], words: &[u64]) -> u64
    ensures { (row : ℕ) → row < 64 → is_set row result ≡ truth_of_part (value_in_row columns.now row) (map (is_set row) words.now) part }
{
    match part {
        Part::Atom(place) => word_at(columns, place),
        Part::Constantly(value) => { if value { u64::MAX } else { 0 } }
        Part::Negated(part) => !word_at(words, part),
        Part::Connected(connective, left, right) => {
            let left = word_at(words, left);
            let right = word_at(words, right);
            connect(connective, left, right)
        }
    }
}

// A connective of values.
fn connect(connective: Connective, left: u64, right: u64) -> u64
    ensures { (row : ℕ) → row < 64 → is_set row result ≡ truth_table (meant connective) (is_set row left) (is_set row right) }
{
    match connective {
        Connective::And => left & right,
        Connective::Or => left | right,
        Connective::Implies => !left | right,
        Connective::Iff => !(left ^ right),
    }
}

// The values at a place, none of them true where there is none.
fn word_at(words: &[u64], place: usize) -> u64
    ensures { result ≡ get_or words.now place 0 }
{
    match words.get(place) {
        Some(word) => *word,
        None => 0,
    }
}
