// Names, each with one number.
ghost use Rattle.std.specs.Prelude.{◌≡◌, ◌<◌, ℕ, List, [], Some, slice_get, length, IfOk, IfErr};
ghost use Rattle.std.specs.List.{slice_index_or};
ghost use Rattle.std.specs.Str.{bytes_eq};
ghost use Rattle.hol_model.specs.declared.fault.Fault.TheVariants.{Memory};
ghost use Rattle.hol_check_terms.specs.Growth.{IsLonger};
ghost use Rattle.hol_check_terms.specs.Table.{HaveOneNumber};

use hol_model::Fault;
use indexmap::IndexSet;
use std::alloc::Global;
use std::marker::Model;

/// Names in the order in which they came, each once. A name's number is its place.
#[derive(Drop)]
pub struct Names {
    set: IndexSet<Vec<u8>>,
}

impl Model for Names {
    ghost use Rattle.std.specs.Prelude.{ℕ, List};

    ghost Value = { List (List ℕ) };

    ghost use Rattle.hol_check_terms.specs.Names.{viewed_names, AreDistinctNames};

    ghost view = { viewed_names };

    ghost invariant = { AreDistinctNames };
}

impl Names {
    /// A table without names.
    pub fn new(alloc: Global) -> Names
        ensures { result ≡ [] }
    {
        Names {
            set: IndexSet::new(alloc),
        }
    }

    /// The number of a name, which is put at the end if it is new.
    pub(crate) fn number_of(&mut self, alloc: Global, name: &[u8]) -> Result<usize, Fault>
        ensures number { IfOk result (λ number. slice_get self.new number ≡ Some name.now) }
        ensures refused { IfErr result (λ fault. fault ≡ Memory) }
        ensures grows { IsLonger self.old self.new }
    {
        let owned = Vec::from_slice(alloc, name)?;
        let (number, _) = self.set.insert_full(owned)?;
        Ok(number)
    }

    /// The bytes of a name.
    pub fn bytes(&self, number: usize) -> &[u8]
        requires { number < length self.now }
        ensures { result.now ≡ slice_index_or self.now number [] }
    {
        match self.set.get_index(number) {
            Some(name) => name.as_slice(),
            None => &[],
        }
    }

    /// Whether two numbers are those of one name.
    pub fn is_same(&self, first: usize, second: usize) -> bool
        requires first { first < length self.now }
        requires second { second < length self.now }
        ensures { result ≡ bytes_eq (slice_index_or self.now first []) (slice_index_or self.now second []) }
    {
        let _set = &self.set;
        first == second
    }

    /// No name has two numbers. It does nothing: a caller learns this fact from its contract.
    pub fn have_one_number(&self)
        ensures { HaveOneNumber self.now }
    {
        let _set = &self.set;
    }
}
