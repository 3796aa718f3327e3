// The words of conversions.
ghost use Rattle.std.specs.Prelude.{◌≡◌};
ghost use Rattle.hol_tactic_grammar.specs.ConversionWords.{prefix_of_word, single_of_word};

use crate::words::meaning_in;
use hol_tactic_exprs::Prefix;

/// A conversion without parts, and without the name that it takes.
#[derive(Clone, Copy, Drop)]
pub enum Single {
    All,
    No,
    Beta,
    Rewr,
    Host,
}

// The conversional that each word names.
const PREFIXES: [(&str, Prefix); 9] = [
    ("REPEATC", Prefix::Repeat),
    ("TRY_CONV", Prefix::Try),
    ("RAND_CONV", Prefix::Rand),
    ("RATOR_CONV", Prefix::Rator),
    ("ABS_CONV", Prefix::Abs),
    ("SUB_CONV", Prefix::Sub),
    ("DEPTH_CONV", Prefix::Depth),
    ("ONCE_DEPTH_CONV", Prefix::OnceDepth),
    ("TOP_DEPTH_CONV", Prefix::TopDepth),
];

// The conversion without parts that each word names.
const SINGLES: [(&str, Single); 5] = [
    ("ALL_CONV", Single::All),
    ("NO_CONV", Single::No),
    ("BETA_CONV", Single::Beta),
    ("REWR_CONV", Single::Rewr),
    ("HOST", Single::Host),
];

/// The conversional that a word names.
pub fn prefix_named(word: &str) -> Option<Prefix>
    ensures { result ≡ prefix_of_word word.now }
{
    meaning_in(&PREFIXES, word)
}

/// The conversion without parts that a word names.
pub fn single_named(word: &str) -> Option<Single>
    ensures { result ≡ single_of_word word.now }
{
    meaning_in(&SINGLES, word)
}
