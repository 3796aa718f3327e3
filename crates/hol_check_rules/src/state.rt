// What the lines of a log have given so far, as numbers of tables.
ghost use Rattle.std.specs.Prelude.{◌≡◌, nat_le, length};
ghost use Rattle.hol_model.specs.declared.limits.TheConstants.{DEFINITIONS_LIMIT};
ghost use Rattle.hol_model.specs.Logs.LogFaults.{is_first_version};
ghost use Rattle.hol_logtext.specs.Lines.{version_of};
ghost use Rattle.hol_check_terms.specs.Terms.{TermTable};
ghost use Rattle.hol_check_rules.specs.State.{state_of, IsContents};
ghost use Rattle.hol_check_rules.specs.Judged.{FindsType, FindsWritten, FindsTerm, FindsTheorem, IsMadeLine};

use crate::known::Known;
use hol_check_written::written::Written;
use hol_logtext::Version;
use hol_model::DEFINITIONS_LIMIT;
use indexmap::IndexMap;

/// A theorem: its hypotheses in the order of terms, each once, and its conclusion, by the numbers of terms.
#[derive(Drop)]
pub struct Theorem {
    pub hypotheses: Vec<usize>,
    pub conclusion: usize,
}

/// An entry of the theory, by the numbers of names, types and terms.
#[derive(Clone, Copy)]
pub enum TheoryEntry {
    /// The constant's name, its type, and what it is defined as.
    Definition(usize, usize, usize),
    DeclaredType(usize),
    /// The constant's name, and its type.
    DeclaredConstant(usize, usize),
}

/// A claim: the number of its name in the table of names, and that of its theorem among the theorems.
#[derive(Clone, Copy)]
pub struct ListedClaim {
    pub name: usize,
    pub theorem: usize,
}

/// What the lines have given, each kind in the order of its lines. Types are given by their numbers in the tables, terms
/// as they are written, and the entries of the theory with the oldest first. The tables have the terms that steps and
/// claims have named: `made` has their numbers there by those of their lines.
#[derive(Drop)]
pub struct Contents {
    pub version: Version,
    pub types: Vec<usize>,
    pub terms: Vec<Written>,
    pub made: IndexMap<usize, usize>,
    pub theorems: Vec<Theorem>,
    pub entries: Vec<TheoryEntry>,
    pub known: Known,
    pub claims: Vec<ListedClaim>,
    pub is_ended: bool,
}

/// What an accepted line adds to a log.
#[derive(Drop)]
pub enum Addition {
    TypeNumber(usize),
    TermLine(Written),
    Proved(Theorem),
    /// A definition's name, type and body, and its theorem's conclusion.
    Defined(usize, usize, usize, usize),
    NewType(usize),
    /// The constant's name, and its type.
    NewConstant(usize, usize),
    Claimed(ListedClaim),
    Ended,
}

/// Whether a log is of the first version.
pub fn is_of_first_version(contents: &Contents) -> bool
    ensures { result ≡ is_first_version (version_of contents.now.version) }
{
    match contents.version {
        Version::First => true,
        Version::Second => false,
    }
}

/// Whether there is no room for a further entry of the theory.
pub fn is_full(contents: &Contents) -> bool
    ensures { result ≡ nat_le DEFINITIONS_LIMIT (length contents.now.entries.items) }
{
    contents.entries.len() >= DEFINITIONS_LIMIT
}

/// The number in the tables of the type that a line names.
pub fn type_at(contents: &Contents, number: u32) -> Option<usize>
    ensures { (table : TermTable) → IsContents table contents.now → FindsType (state_of table contents.now) number table.types result }
{
    match contents.types.get(number as usize) {
        Some(found) => Some(*found),
        None => None,
    }
}

/// The term that a line names, as it is written.
pub fn written_at(contents: &Contents, number: u32) -> Option<Written>
    ensures { (table : TermTable) → IsContents table contents.now → FindsWritten table contents.now number result }
{
    match contents.terms.get(number as usize) {
        Some(found) => Some(*found),
        None => None,
    }
}

/// The number in the tables of the term that a line names, which was made.
pub fn term_at(contents: &Contents, number: u32) -> Option<usize>
    ensures { (table : TermTable) → IsContents table contents.now → IsMadeLine contents.now number → FindsTerm (state_of table contents.now) number table.terms result }
{
    match contents.made.get(&(number as usize)) {
        Some(found) => Some(*found),
        None => None,
    }
}

/// The theorem that a line names.
pub fn theorem_at(contents: &Contents, number: u32) -> Option<&Theorem>
    ensures { (table : TermTable) → IsContents table contents.now → FindsTheorem (state_of table contents.now) number table.terms result }
{
    contents.theorems.get(number as usize)
}
