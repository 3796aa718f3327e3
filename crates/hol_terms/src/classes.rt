// Classes of names: which variables may be free in a term, as a small summary.
ghost use Rattle.std.specs.Prelude.{◌≡◌, bit_or};
ghost use Rattle.hol_terms.specs.Classes.{class_of_name, have_common_class};

/// A set of classes of names. There are 64 classes; a name's is a number that is made of its bytes.
#[derive(Clone, Copy)]
pub struct NameClasses {
    pub bits: u64,
}

impl NameClasses {
    /// No class.
    pub fn none() -> NameClasses
        ensures { result.bits ≡ 0 }
    {
        NameClasses { bits: 0 }
    }

    /// The class of a name.
    pub fn of_name(name: &str) -> NameClasses
        ensures { result.bits ≡ class_of_name name.now }
    {
        let class = name
            .as_bytes()
            .iter()
            .fold(0u8, |sum, byte| sum.wrapping_mul(37).wrapping_add(*byte))
            % 64;
        NameClasses { bits: 1 << class }
    }

    /// The classes of both sets.
    pub fn union(self, other: NameClasses) -> NameClasses
        ensures { result.bits ≡ bit_or self.bits other.bits }
    {
        NameClasses {
            bits: self.bits | other.bits,
        }
    }

    /// Whether a class is in both sets.
    pub fn meets(self, other: NameClasses) -> bool
        ensures { result ≡ have_common_class self.bits other.bits }
    {
        self.bits & other.bits != 0
    }
}
