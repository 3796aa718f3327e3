// How a formula of a binary connective follows from its sides.
ghost use Rattle.std.specs.Prelude.{◌≡◌};
ghost use Rattle.hol_taut_formulas.specs.Forms.{meant};
ghost use Rattle.hol_taut.specs.Ways.{the_way};

use hol_taut_formulas::Connective;
use hol_taut_laws::Law;

/// By which law a formula, or its equation with `F`, follows from its sides.
#[derive(Clone, Copy)]
pub(crate) enum Way {
    /// From the left side, which has this value.
    Left(Law, bool),
    /// From the right side, which has this value.
    Right(Law, bool),
    /// From the left side, an equation of the right side and the formula.
    Equation(Law, bool, bool),
    /// From the left side, the equation of the formula and the right side, which is false.
    Chain(Law, bool),
    /// From the right side, the equation of the formula and the left side, which is false.
    ChainFromRight(Law),
    /// The equation of the sides, which are true.
    Same,
}

/// The way to a formula of this value, whose sides have these.
pub(crate) fn way_to(
    connective: Connective,
    value: bool,
    left: Option<bool>,
    right: Option<bool>,
) -> Way
    ensures { result ≡ the_way (meant connective) value left right }
{
    match connective {
        Connective::And => match (value, left) {
            (true, _) => Way::Equation(Law::Conj, true, true),
            (false, Some(false)) => Way::Left(Law::AndFalseLeft, false),
            (false, _) => Way::Right(Law::AndFalseRight, false),
        },
        Connective::Or => match (value, left) {
            (false, _) => Way::Chain(Law::OrFalseLeft, false),
            (true, Some(true)) => Way::Left(Law::Disj1, true),
            (true, _) => Way::Right(Law::Disj2, true),
        },
        Connective::Implies => match (value, left) {
            (false, _) => Way::Chain(Law::Mp, true),
            (true, Some(false)) => Way::Left(Law::ImpFalseLeft, false),
            (true, _) => Way::Right(Law::ImpTrueRight, true),
        },
        Connective::Iff => match (left, right) {
            (Some(true), Some(true)) => Way::Same,
            (Some(true), _) => Way::Chain(Law::IffTrueLeft, true),
            (_, Some(true)) => Way::ChainFromRight(Law::IffTrueRight),
            _ => Way::Equation(Law::IffFalseLeft, false, false),
        },
    }
}
