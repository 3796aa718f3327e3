// Values of some atoms.

/// Values of some atoms: those that are true and those that are false, a bit for each atom.
#[derive(Clone, Copy, PartialEq, Eq, Hash)]
pub(crate) struct Cube {
    trues: u32,
    falses: u32,
}

// The bit of an atom.
fn bit(atom: usize) -> u32 {
    if atom < 32 { 1 << atom } else { 0 }
}

impl Cube {
    /// No atom's value.
    pub(crate) fn empty() -> Cube {
        Cube {
            trues: 0,
            falses: 0,
        }
    }

    /// Both values of an atom.
    pub(crate) fn both(atom: usize) -> Cube {
        Cube {
            trues: bit(atom),
            falses: bit(atom),
        }
    }

    /// The value of an atom.
    pub(crate) fn one(atom: usize, value: bool) -> Cube {
        if value {
            Cube {
                trues: bit(atom),
                falses: 0,
            }
        } else {
            Cube {
                trues: 0,
                falses: bit(atom),
            }
        }
    }

    /// The values of both.
    pub(crate) fn with(self, other: Cube) -> Cube {
        Cube {
            trues: self.trues | other.trues,
            falses: self.falses | other.falses,
        }
    }

    /// Those that are values of the other too.
    pub(crate) fn among(self, other: Cube) -> Cube {
        Cube {
            trues: self.trues & other.trues,
            falses: self.falses & other.falses,
        }
    }

    /// Those that are no values of the other.
    pub(crate) fn without(self, other: Cube) -> Cube {
        Cube {
            trues: self.trues & !other.trues,
            falses: self.falses & !other.falses,
        }
    }

    /// Whether all are values of the other.
    pub(crate) fn is_within(self, other: Cube) -> bool {
        self.trues & !other.trues == 0 && self.falses & !other.falses == 0
    }

    /// Of how many atoms there are values.
    pub(crate) fn count(self) -> u32 {
        (self.trues | self.falses).count_ones()
    }
}
