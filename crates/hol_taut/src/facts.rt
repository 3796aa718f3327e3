// Facts of atoms: their values, and theorems of them.
ghost use Rattle.std.specs.Prelude.{◌≡◌, List, IfSome};
ghost use Rattle.std.specs.Option.{option_map};
ghost use Rattle.hol_model.specs.Terms.Nameless.{Nameless, image};
ghost use Rattle.hol_journal.specs.Journal.{Journal};
ghost use Rattle.hol_journal.specs.Growth.{IsHeld};
ghost use Rattle.hol_model.specs.Propositional.Connectives.{fact};
ghost use Rattle.hol_taut.specs.Proved.{Proves};
ghost use Rattle.hol_taut.specs.FactLists.{value_of, AreHeld, AreProved};

use hol_alpha::aconv;
use hol_journal::Rec;
use hol_terms::Term;

/// The values of some atoms, with theorems: `a` for a true one, and `a <=> F` for a false one.
#[derive(Drop)]
pub(crate) enum Facts<'a> {
    Nothing,
    // An atom, its value, its theorem, and the earlier facts.
    Fact(&'a Term, bool, &'a Rec, &'a Facts<'a>),
}

/// A value, and its theorem.
#[derive(Clone, Copy)]
pub(crate) struct Known<'a> {
    pub(crate) value: bool,
    pub(crate) theorem: &'a Rec,
}

/// The fact of an atom, where there is one.
pub(crate) fn fact_of<'a>(facts: &Facts<'a>, term: &Term) -> Option<Known<'a>>
    ensures value { option_map (λ known. known.value) result ≡ value_of facts.now term.now }
    ensures held { (journal : Journal) → AreHeld journal facts.now → IfSome result (λ known. IsHeld journal known.theorem.now) }
    ensures proved { (allowed : List Nameless) → AreProved allowed facts.now → IfSome result (λ known. Proves known.theorem.now.theorem allowed (fact known.value (image term.now))) }
{
    match facts {
        Facts::Nothing => None,
        Facts::Fact(atom, value, theorem, earlier) => {
            if aconv(atom, term) {
                return Some(Known {
                    value: *value,
                    theorem,
                });
            }
            fact_of(earlier, term)
        }
    }
}
