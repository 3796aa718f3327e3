// Parts that have the same value whatever the values of the atoms.
use crate::parts::Parts;
use crate::shapes::Shape;
use hol_model::Fault;
use std::alloc::Global;

// The most words of all tables.
const MOST_WORDS: usize = 1 << 23;

// How many atoms a word tells the rows of.
const WORD_ATOMS: usize = 6;

// The values in the 64 rows of six atoms, an atom a word.
const COLUMNS: [u64; 6] = [
    0xaaaa_aaaa_aaaa_aaaa,
    0xcccc_cccc_cccc_cccc,
    0xf0f0_f0f0_f0f0_f0f0,
    0xff00_ff00_ff00_ff00,
    0xffff_0000_ffff_0000,
    0xffff_ffff_0000_0000,
];

// A word of the values of an atom.
fn column(atom: usize, word: usize) -> u64 {
    if let Some(column) = COLUMNS.get(atom) {
        return *column;
    }
    if atom >= WORD_ATOMS && atom < 32 && word >> (atom - WORD_ATOMS) & 1 == 1 {
        return u64::MAX;
    }
    0
}

// How many words tell all rows of so many atoms.
fn words_of(atoms: usize) -> usize {
    if atoms > WORD_ATOMS && atoms < 20 {
        1 << (atoms - WORD_ATOMS)
    } else {
        1
    }
}

// A word of a part's table.
fn word_at(tables: &[Vec<u64>], at: usize, word: usize) -> u64 {
    match tables.get(at) {
        Some(table) => match table.get(word) {
            Some(values) => *values,
            None => 0,
        },
        None => 0,
    }
}

// A word of the table of a part that is made so.
fn word_of(tables: &[Vec<u64>], shape: Shape, word: usize) -> u64 {
    if let Shape::Atom(atom) = shape {
        return column(atom, word);
    }
    match shape.sides() {
        Some((left, right)) => {
            shape.in_rows(word_at(tables, left, word), word_at(tables, right, word))
        }
        None => shape.in_rows(0, 0),
    }
}

// The table of a part that is made so.
fn table(
    alloc: Global,
    tables: &[Vec<u64>],
    shape: Shape,
    words: usize,
) -> Result<Vec<u64>, Fault> {
    let mut table = Vec::new(alloc);
    for word in 0..words {
        table.push(word_of(tables, shape, word))?;
    }
    Ok(table)
}

// The value that stands in all rows.
fn constant(table: &[u64]) -> Option<bool> {
    if table.iter().all(|word| *word == u64::MAX) {
        return Some(true);
    }
    if table.iter().all(|word| *word == 0) {
        return Some(false);
    }
    None
}

/// For each part the value that it has in all rows, where there is one. Refused: TooLarge for too many rows of too many parts; Memory.
pub(crate) fn constants(alloc: Global, parts: &Parts) -> Result<Vec<Option<bool>>, Fault> {
    let words = words_of(parts.atoms());
    if parts.len().saturating_mul(words) > MOST_WORDS {
        return Err(Fault::TooLarge);
    }
    let mut tables = Vec::new(alloc);
    let mut constants = Vec::new(alloc);
    for at in 0..parts.len() {
        let table = table(alloc, &tables, parts.shape(at)?, words)?;
        constants.push(constant(&table))?;
        tables.push(table)?;
    }
    Ok(constants)
}
