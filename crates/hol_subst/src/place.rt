// Where in a term a variable stands.
use hol_terms::Term;

/// A node of a term, told by how many nodes come before it where each comes before its parts, and a function before its
/// argument. A number past the term's nodes is the place of none. Nothing rests on a place but time.
#[derive(Clone, Copy)]
pub struct Place {
    number: u32,
}

impl Place {
    /// Of no node.
    pub(crate) fn nowhere() -> Place {
        Place { number: u32::MAX }
    }

    /// Of a term itself.
    pub(crate) fn first() -> Place {
        Place { number: 0 }
    }

    pub(crate) fn is_in(self, term: &Term) -> bool {
        self.number < term.nodes()
    }

    /// The place in the first part of the term.
    pub(crate) fn in_first_part(self) -> Place {
        Place {
            number: self.number.wrapping_sub(1),
        }
    }

    /// The place in the argument of a combination.
    pub(crate) fn in_argument(self, function: &Term) -> Place {
        Place {
            number: self.number.wrapping_sub(function.nodes()).wrapping_sub(1),
        }
    }

    /// The place one node before.
    pub(crate) fn before(self) -> Place {
        self.in_first_part()
    }

    /// Goes on by so many nodes.
    pub(crate) fn pass(&mut self, nodes: u32) {
        self.number = self.number.wrapping_add(nodes);
    }
}
