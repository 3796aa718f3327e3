// The atom that is split next.
ghost use Rattle.std.specs.Prelude.{◌≡◌};
ghost use Rattle.std.specs.Option.{option_map};
ghost use Rattle.hol_taut.specs.Next.{IsNext};

use crate::facts::{Facts, fact_of};
use crate::known::known_value;
use hol_journal::Rec;
use hol_terms::Term;

// Whether the facts tell the value of a formula where an atom has this value too. No theorem is looked at, so that any
// stands for the atom's.
fn tells(term: &Term, atom: &Term, value: bool, any: &Rec, facts: &Facts<'_>) -> bool {
    let with_value = Facts::Fact(atom, value, any, &*facts);
    known_value(term, &with_value).is_some()
}

// Whether more values of one atom than of another tell the value of a formula.
fn tells_more(term: &Term, atom: &Term, other: &Term, any: &Rec, facts: &Facts<'_>) -> bool {
    let when_true = tells(term, atom, true, any, &*facts);
    let when_false = tells(term, atom, false, any, &*facts);
    let other_true = tells(term, other, true, any, &*facts);
    let other_false = tells(term, other, false, any, &*facts);
    let both = when_true && when_false;
    let either = when_true || when_false;
    (both && !(other_true && other_false)) || (either && !(other_true || other_false))
}

/// Of the atoms without a fact the one whose values tell the value of a formula most often: the first, where several do.
#[tactic(auto, using(crate::proofs::NextLemmas::none_next, crate::proofs::NextLemmas::later_next, crate::proofs::NextLemmas::first_next, crate::proofs::NextLemmas::other_next))]
pub(crate) fn next_atom<'a>(
    term: &Term,
    atoms: &'a [Term],
    any: &Rec,
    facts: &Facts<'_>,
) -> Option<&'a Term>
    ensures { IsNext facts.now atoms.now (option_map (λ atom. atom.now) result) }
{
    let Some((first, rest)) = atoms.split_first() else {
        return None;
    };
    let later = next_atom(term, rest, any, &*facts);
    if fact_of(&*facts, first).is_some() {
        return later;
    }
    match later {
        Some(other) => {
            if tells_more(term, other, first, any, &*facts) {
                Some(other)
            } else {
                Some(first)
            }
        }
        None => Some(first),
    }
}
