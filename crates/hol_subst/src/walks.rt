// What walks through bodies, in search of what binders capture, tell for further ones.
use crate::place::Place;
use hol_terms::Term;

/// What the walks on the way to a part tell. Nothing rests on it but time.
#[derive(Clone, Copy)]
pub struct Walks {
    /// How many nodes walks in vain may have gone into since the table of variables was made.
    pub in_vain: u64,
    // Once they went into this many times the nodes of a part, it gets a table of its own.
    price: u64,
    /// Where in the part a captured variable may stand.
    pub hint: Place,
}

impl Walks {
    /// None yet.
    pub(crate) fn none() -> Walks {
        Walks {
            in_vain: 0,
            price: 1,
            hint: Place::nowhere(),
        }
    }

    /// On the way to the first part of a term.
    pub(crate) fn in_first_part(self) -> Walks {
        Walks {
            hint: self.hint.in_first_part(),
            ..self
        }
    }

    /// On the way to the argument of a combination.
    pub(crate) fn in_argument(self, function: &Term) -> Walks {
        Walks {
            hint: self.hint.in_argument(function),
            ..self
        }
    }

    /// The same, where a walk in vain may have gone into so many more nodes.
    pub(crate) fn and_in_vain(self, nodes: u64) -> Walks {
        Walks {
            in_vain: self.in_vain.saturating_add(nodes),
            ..self
        }
    }

    /// Whether a table of its own is worth its cost for a part.
    pub(crate) fn are_worth_a_table(self, part: &Term) -> bool {
        self.in_vain >= self.price.saturating_mul(u64::from(part.nodes()))
    }

    /// The same, where the part has a new table of variables. The next smaller part has to be worth twice as much.
    pub(crate) fn since_new_table(self) -> Walks {
        Walks {
            in_vain: 0,
            price: self.price.saturating_mul(2),
            ..self
        }
    }
}
