// How a part whose value is known follows from its sides.
use crate::shapes::Shape;
use crate::steps::Rule;
use hol_taut_formulas::Law;

/// A side, its value, and the law that leads from it.
#[derive(Clone, Copy)]
pub(crate) struct Side {
    pub(crate) law: Law,
    pub(crate) at: usize,
    pub(crate) value: bool,
}

/// How a part, or its equation with `F`, follows.
#[derive(Clone, Copy)]
pub(crate) enum Way {
    /// It is `T` or `F`.
    Constant(bool),
    /// It is the equivalence of this part with itself.
    Refl(usize),
    /// From a side, by a law.
    One(Law, usize),
    /// From either of two sides.
    Either(Side, Side),
    /// From a side by a law, and then by a rule from that and the other one.
    Two(Law, usize, usize, Rule),
    /// From both sides, which are true.
    Both(usize, usize),
    /// It does not.
    Nowhere,
}

// From one side or the other.
fn either(left: (Law, usize, bool), right: (Law, usize, bool)) -> Way {
    let left = Side {
        law: left.0,
        at: left.1,
        value: left.2,
    };
    let right = Side {
        law: right.0,
        at: right.1,
        value: right.2,
    };
    Way::Either(left, right)
}

// The way to an equivalence of different parts of these values.
fn way_to_equivalence(left: (usize, Option<bool>), right: (usize, Option<bool>)) -> Way {
    match (left.1, right.1) {
        (Some(true), Some(true)) => Way::Both(left.0, right.0),
        (Some(true), Some(false)) => Way::Two(Law::IffTrueLeft, left.0, right.0, Rule::Trans),
        (Some(false), Some(true)) => Way::Two(Law::IffTrueRight, right.0, left.0, Rule::Trans),
        (Some(false), Some(false)) => Way::Two(Law::IffFalseLeft, left.0, right.0, Rule::EqMp),
        _ => Way::Nowhere,
    }
}

/// The way to a part of this value that is made so, whose sides have these values.
pub(crate) fn way_to(shape: Shape, value: bool, sides: (Option<bool>, Option<bool>)) -> Way {
    match (shape, value) {
        (Shape::Atom(_), _) => Way::Nowhere,
        (Shape::Constantly(_), _) => Way::Constant(value),
        (Shape::Not(part), true) => Way::One(Law::NotFalse, part),
        (Shape::Not(part), false) => Way::One(Law::NotTrue, part),
        (Shape::And(left, right), true) => Way::Two(Law::Conj, left, right, Rule::EqMp),
        (Shape::And(left, right), false) => either(
            (Law::AndFalseLeft, left, false),
            (Law::AndFalseRight, right, false),
        ),
        (Shape::Or(left, right), true) => either(
            (Law::Disj1, left, true),
            (Law::Disj2, right, true),
        ),
        (Shape::Or(left, right), false) => Way::Two(Law::OrFalseLeft, left, right, Rule::Trans),
        (Shape::Implies(left, right), true) => either(
            (Law::ImpFalseLeft, left, false),
            (Law::ImpTrueRight, right, true),
        ),
        (Shape::Implies(left, right), false) => Way::Two(Law::Mp, left, right, Rule::Trans),
        (Shape::Iff(left, right), _) => {
            if left == right {
                Way::Refl(left)
            } else {
                way_to_equivalence((left, sides.0), (right, sides.1))
            }
        }
    }
}
