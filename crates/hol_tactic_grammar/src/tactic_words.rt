// The words of refiners.
ghost use Rattle.std.specs.Prelude.{◌≡◌};
ghost use Rattle.hol_tactic_grammar.specs.TacticWords.{start_of_word};

use crate::tactics::Prefix;
use crate::words::meaning_in;

/// A refiner without arguments.
#[derive(Clone, Copy, Drop)]
pub enum Plain {
    All,
    No,
    Assumption,
    Refl,
    Taut,
    Eq,
    Conj,
    Disj1,
    Disj2,
    Disch,
    Gen,
}

/// A refiner that takes a name.
#[derive(Clone, Copy, Drop)]
pub enum Named {
    Accept,
    Assume,
    Mp,
    DisjCases,
    Choose,
    Host,
}

/// A refiner that takes a quoted term.
#[derive(Clone, Copy, Drop)]
pub enum Quoted {
    Exists,
    Undisch,
}

/// A refiner that takes a conversion or names.
#[derive(Clone, Copy, Drop)]
pub enum Other {
    Conv,
    Rewrite,
}

/// What a word begins.
#[derive(Clone, Copy, Drop)]
pub enum Start {
    OfPrefix(Prefix),
    OfPlain(Plain),
    OfNamed(Named),
    OfQuoted(Quoted),
    OfOther(Other),
}

// What each word begins.
const STARTS: [(&str, Start); 23] = [
    ("ALL_TAC", Start::OfPlain(Plain::All)),
    ("NO_TAC", Start::OfPlain(Plain::No)),
    ("ASSUMPTION_TAC", Start::OfPlain(Plain::Assumption)),
    ("REFL_TAC", Start::OfPlain(Plain::Refl)),
    ("TAUT_TAC", Start::OfPlain(Plain::Taut)),
    ("EQ_TAC", Start::OfPlain(Plain::Eq)),
    ("CONJ_TAC", Start::OfPlain(Plain::Conj)),
    ("DISJ1_TAC", Start::OfPlain(Plain::Disj1)),
    ("DISJ2_TAC", Start::OfPlain(Plain::Disj2)),
    ("DISCH_TAC", Start::OfPlain(Plain::Disch)),
    ("GEN_TAC", Start::OfPlain(Plain::Gen)),
    ("ACCEPT_TAC", Start::OfNamed(Named::Accept)),
    ("ASSUME_TAC", Start::OfNamed(Named::Assume)),
    ("MP_TAC", Start::OfNamed(Named::Mp)),
    ("DISJ_CASES_TAC", Start::OfNamed(Named::DisjCases)),
    ("CHOOSE_TAC", Start::OfNamed(Named::Choose)),
    ("HOST", Start::OfNamed(Named::Host)),
    ("EXISTS_TAC", Start::OfQuoted(Quoted::Exists)),
    ("UNDISCH_TAC", Start::OfQuoted(Quoted::Undisch)),
    ("REPEAT", Start::OfPrefix(Prefix::Repeat)),
    ("TRY", Start::OfPrefix(Prefix::Try)),
    ("CONV_TAC", Start::OfOther(Other::Conv)),
    ("REWRITE_TAC", Start::OfOther(Other::Rewrite)),
];

/// What a word begins.
pub fn start_named(word: &str) -> Option<Start>
    ensures { result ≡ start_of_word word.now }
{
    meaning_in(&STARTS, word)
}
