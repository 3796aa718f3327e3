// Which variables may be free in a term, by their numbers in the tables.
ghost use Rattle.std.specs.Prelude.{ℕ, IsTrue};
ghost use Rattle.hol_check_written.specs.Variables.{IsAmong};

/// Variables whose numbers lie between two numbers. There are none where the least is past the greatest.
#[derive(Clone, Copy)]
pub struct Variables {
    pub least: usize,
    pub greatest: usize,
}

/// No variable.
pub(crate) fn no_variable() -> Variables {
    Variables {
        least: usize::MAX,
        greatest: 0,
    }
}

/// One variable.
pub(crate) fn one_variable(variable: usize) -> Variables
    ensures { IsAmong result variable }
{
    Variables {
        least: variable,
        greatest: variable,
    }
}

/// The variables of two terms, and maybe more.
pub(crate) fn joined(first: Variables, second: Variables) -> Variables
    ensures first { (variable : ℕ) → IsAmong first variable → IsAmong result variable }
    ensures second { (variable : ℕ) → IsAmong second variable → IsAmong result variable }
{
    let least = if first.least < second.least {
        first.least
    } else {
        second.least
    };
    let greatest = if first.greatest < second.greatest {
        second.greatest
    } else {
        first.greatest
    };
    Variables { least, greatest }
}

/// Whether it is known that no variable is among both.
pub(crate) fn are_apart(first: Variables, second: Variables) -> bool
    ensures { IsTrue result → (variable : ℕ) → IsAmong first variable → IsAmong second variable → ⊥ }
{
    first.greatest < second.least || second.greatest < first.least
}
