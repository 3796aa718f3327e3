// The first row in which a formula is false.
ghost use Rattle.std.specs.Prelude.{◌≡◌, ◌≤◌, ◌<◌, ◌-◌, [], ◌∷◌, ◌++◌, ◌^◌, length, map, take, drop, not, IfOk, IfErr};
ghost use Rattle.std.specs.List.{find};
ghost use Rattle.std.specs.Option.{option_map};
ghost use Rattle.hol_model.specs.declared.fault.Fault.TheVariants.{Memory};
ghost use Rattle.hol_taut_formulas.specs.declared.decision.TheConstants.{MASKS};
ghost use Rattle.hol_taut_formulas.specs.FalseRows.{first_falsity};
ghost use Rattle.hol_taut_formulas.specs.Words as spec;
ghost use Rattle.hol_taut_formulas.specs.Words.{in_each_row};

use crate::numbered::Numbered;
use crate::values::values;
use hol_model::Fault;
use std::alloc::Global;

// How many values a word tells the rows of.
const WORD_VALUES: usize = 6;

// The values in the 64 rows of six atoms, an atom a word.
const MASKS: [u64; 6] = [
    0x0000_0000_ffff_ffff,
    0x0000_ffff_0000_ffff,
    0x00ff_00ff_00ff_00ff,
    0x0f0f_0f0f_0f0f_0f0f,
    0x3333_3333_3333_3333,
    0x5555_5555_5555_5555,
];

/// The first row of so many values in which a formula is false, among those that begin with these.
pub(crate) fn first_false(
    alloc: Global,
    formula: &Numbered,
    count: usize,
    row: &[bool],
) -> Result<Option<Vec<bool>>, Fault>
    requires { length row.now ≤ count }
    ensures ok { IfOk result (λ found. option_map (λ values. values.items) found ≡ first_falsity count formula.now row.now) }
    ensures err { IfErr result (λ fault. fault ≡ Memory) }
{
    if count - row.len() <= WORD_VALUES {
        return first_false_in_word(alloc, formula, count, row);
    }
    let with_true = with_value(alloc, row, true)?;
    let found = first_false(alloc, formula, count, &with_true)?;
    if found.is_some() {
        return Ok(found);
    }
    let with_false = with_value(alloc, row, false)?;
    first_false(alloc, formula, count, &with_false)
}

// The values of a row, and one more.
fn with_value(alloc: Global, row: &[bool], value: bool) -> Result<Vec<bool>, Fault>
    ensures ok { IfOk result (λ longer. longer.items ≡ row.now ++ value ∷ []) }
    ensures err { IfErr result (λ fault. fault ≡ Memory) }
{
    let mut longer = Vec::new(alloc);
    longer.extend_from_slice(row)?;
    longer.push(value)?;
    Ok(longer)
}

// The same, where a word tells all these rows.
fn first_false_in_word(
    alloc: Global,
    formula: &Numbered,
    count: usize,
    row: &[bool],
) -> Result<Option<Vec<bool>>, Fault>
    requires known { length row.now ≤ count }
    requires few { count - length row.now ≤ 6 }
    ensures ok { IfOk result (λ found. option_map (λ values. values.items) found ≡ first_falsity count formula.now row.now) }
    ensures err { IfErr result (λ fault. fault ≡ Memory) }
{
    let left = count - row.len();
    let columns = columns(alloc, row, left)?;
    let word = values(alloc, formula, &columns)?;
    let place = word.trailing_ones();
    if place >= 1 << left {
        return Ok(None);
    }
    Ok(Some(row_at(alloc, &columns, place)?))
}

// A word for each atom: those with known values, and so many more.
fn columns(alloc: Global, row: &[bool], left: usize) -> Result<Vec<u64>, Fault>
    requires { left ≤ 6 }
    ensures ok { IfOk result (λ columns. columns.items ≡ map in_each_row row.now ++ drop (6 - left) MASKS) }
    ensures err { IfErr result (λ fault. fault ≡ Memory) }
{
    let mut columns = row
        .iter()
        .map(|value| if *value { u64::MAX } else { 0 })
        .collect::<Vec<u64>>(alloc)?;
    columns.extend_from_slice(&MASKS[WORD_VALUES - left..])?;
    Ok(columns)
}

// The values in one row.
fn row_at(alloc: Global, columns: &[u64], place: u32) -> Result<Vec<bool>, Fault>
    requires { place < 64 }
    ensures ok { IfOk result (λ row. row.items ≡ map (spec.is_set place) columns.now) }
    ensures err { IfErr result (λ fault. fault ≡ Memory) }
{
    let row = columns
        .iter()
        .map(|column| is_set(place, *column))
        .collect(alloc)?;
    Ok(row)
}

// The value in one row.
#[tactic(auto, using(std::proofs::lemmas::Nat::Bits::shr_and_one))]
fn is_set(place: u32, word: u64) -> bool
    requires { place < 64 }
    ensures { result ≡ spec.is_set place word }
{
    word >> place & 1 == 1
}
