// How parts of formulas are made.
use hol_taut_formulas::{Connective, Part};

/// How a part is made, by the numbers of the parts that it is made of.
#[derive(Clone, Copy)]
pub(crate) enum Shape {
    /// Not taken apart, the atom of this number.
    Atom(usize),
    Constantly(bool),
    Not(usize),
    And(usize, usize),
    Or(usize, usize),
    Implies(usize, usize),
    Iff(usize, usize),
}

// How a connective's formula is made.
fn connected(connective: Connective, left: usize, right: usize) -> Shape {
    match connective {
        Connective::And => Shape::And(left, right),
        Connective::Or => Shape::Or(left, right),
        Connective::Implies => Shape::Implies(left, right),
        Connective::Iff => Shape::Iff(left, right),
    }
}

impl Shape {
    /// That of a part.
    pub(crate) fn of(part: Part) -> Shape {
        match part {
            Part::Atom(atom) => Shape::Atom(atom),
            Part::Constantly(value) => Shape::Constantly(value),
            Part::Negated(part) => Shape::Not(part),
            Part::Connected(connective, left, right) => connected(connective, left, right),
        }
    }

    /// Its sides: a negation's part stands for both.
    pub(crate) fn sides(self) -> Option<(usize, usize)> {
        match self {
            Shape::Atom(_) => None,
            Shape::Constantly(_) => None,
            Shape::Not(part) => Some((part, part)),
            Shape::And(left, right) => Some((left, right)),
            Shape::Or(left, right) => Some((left, right)),
            Shape::Implies(left, right) => Some((left, right)),
            Shape::Iff(left, right) => Some((left, right)),
        }
    }

    /// Its value, where the values of its sides tell it.
    pub(crate) fn told(self, left: Option<bool>, right: Option<bool>) -> Option<bool> {
        match self {
            Shape::Atom(_) => None,
            Shape::Constantly(value) => Some(value),
            Shape::Not(_) => negated(left),
            Shape::And(_, _) => both(left, right),
            Shape::Or(_, _) => negated(both(negated(left), negated(right))),
            Shape::Implies(_, _) => negated(both(left, negated(right))),
            Shape::Iff(first, second) => {
                if first == second {
                    Some(true)
                } else {
                    same(left, right)
                }
            }
        }
    }

    /// Its values in 64 rows, a bit for each, by those of its sides.
    pub(crate) fn in_rows(self, left: u64, right: u64) -> u64 {
        match self {
            Shape::Atom(_) => 0,
            Shape::Constantly(value) => { if value { u64::MAX } else { 0 } }
            Shape::Not(_) => !left,
            Shape::And(_, _) => left & right,
            Shape::Or(_, _) => left | right,
            Shape::Implies(_, _) => !left | right,
            Shape::Iff(_, _) => !(left ^ right),
        }
    }
}

fn negated(value: Option<bool>) -> Option<bool> {
    match value {
        Some(value) => Some(!value),
        None => None,
    }
}

fn both(left: Option<bool>, right: Option<bool>) -> Option<bool> {
    match (left, right) {
        (Some(false), _) => Some(false),
        (_, Some(false)) => Some(false),
        (Some(true), right) => right,
        _ => None,
    }
}

fn same(left: Option<bool>, right: Option<bool>) -> Option<bool> {
    match (left, right) {
        (Some(left), Some(right)) => Some(left == right),
        _ => None,
    }
}
