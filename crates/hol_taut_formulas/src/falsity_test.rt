// The refusal of a formula that is no tautology.
ghost use Rattle.std.specs.Prelude.{◌≡◌, get_or, not, false, IfOk, IfErr};
ghost use Rattle.std.specs.List.{find};
ghost use Rattle.std.specs.Option.{option_map};
ghost use Rattle.hol_model.specs.declared.fault.Fault.TheVariants.{Memory};
ghost use Rattle.hol_model.specs.Kernel.Outcome.{AnswersSuch};
ghost use Rattle.hol_model.specs.Propositional.Propositions.{atoms_of};
ghost use Rattle.hol_model.specs.Propositional.Tautologies.{falsity_of, row_in_full, rows};
ghost use Rattle.hol_taut_formulas.specs.NumberedFormulas.{is_true_at};

use crate::decision::first_false;
use crate::numbered::{Numbered, numbered_formula};
use hol_model::{ATOMS_LIMIT, Fault};
use hol_terms::Term;
use std::alloc::Global;

/// The atoms of a tautology. Refused where there are too many, of which those past the limit are not looked for, and then
/// where the formula is false in a row of their values.
pub fn atoms_of_tautology(alloc: Global, term: &Term) -> Result<Vec<Term>, Fault>
    ensures { AnswersSuch result (falsity_of term.now) (λ atoms. atoms.items ≡ atoms_of term.now) }
{
    let mut atoms = Vec::new(alloc);
    let formula = numbered_formula(alloc, term, &mut atoms)?;
    match first_falsity(alloc, &formula, atoms.len())? {
        Some(row) => Err(Fault::NotTautology {
            atoms: atoms.len(),
            row: in_full(&row),
        }),
        None => Ok(atoms),
    }
}

// The first row of so many values in which a formula is false.
fn first_falsity(
    alloc: Global,
    formula: &Numbered,
    count: usize,
) -> Result<Option<Vec<bool>>, Fault>
    ensures ok { IfOk result (λ found. option_map (λ values. values.items) found ≡ find (λ row. not (is_true_at row formula.now)) (rows count)) }
    ensures err { IfErr result (λ fault. fault ≡ Memory) }
{
    if formula.holds_of_itself() {
        return Ok(None);
    }
    first_false(alloc, formula, count, &[])
}

// The values of a row, and then `false`.
fn in_full(row: &[bool]) -> [bool; ATOMS_LIMIT]
    ensures { result ≡ row_in_full row.now }
{
    let mut full = [false; ATOMS_LIMIT];
    for at in 0..ATOMS_LIMIT {
        full[at] = is_true_at(row, at);
    }
    full
}

// The value at a place, or `false`.
fn is_true_at(row: &[bool], at: usize) -> bool
    ensures { result ≡ get_or row.now at false }
{
    match row.get(at) {
        Some(value) => *value,
        None => false,
    }
}
