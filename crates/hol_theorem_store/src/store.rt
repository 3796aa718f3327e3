// The store.
ghost use Rattle.std.specs.Prelude.{◌≡◌, [], ◌∷◌, ◌++◌, length, take, slice_get, string_bytes, IfOk, IfErr, IfSome, OnErr, OnOk, IsNone};
ghost use Rattle.std.specs.Option.{option_map};
ghost use Rattle.hol_model.specs.declared.fault.Fault.TheVariants.{Memory};
ghost use Rattle.hol_journal.specs.Journal.{Journal, IsMade};
ghost use Rattle.hol_theorem_store.specs.Stored.{IsEmpty, IsStoreOf, StoresTheorem, KeepsTheorems, KeepsStore, RefusesName};
ghost use Rattle.hol_theorem_store.specs.Store.{stored_of, HasRoom};

use hol_journal::Rec;
use hol_model::Fault;
use indexmap::IndexMap;
use std::alloc::Global;

/// Theorems under names, and lemmas by their numbers, each with its recorder's entry.
#[derive(Drop)]
pub struct Store {
    theorems: IndexMap<String, Rec>,
    lemmas: Vec<Rec>,
}

impl Store {
    /// The store without theorems.
    pub fn new(alloc: Global) -> Store
        ensures empty { IsEmpty (stored_of result) }
        ensures made { (journal : Journal) → IsStoreOf journal (stored_of result) }
    {
        Store {
            theorems: IndexMap::new(alloc),
            lemmas: Vec::new(alloc),
        }
    }

    /// The theorem of a name.
    pub fn get<'a>(&'a self, name: &str) -> Option<&'a Rec>
        ensures found { option_map (λ theorem. theorem.now) result ≡ (stored_of self.now).theorems name.now }
        ensures made { (journal : Journal) → IsStoreOf journal (stored_of self.now) → IfSome result (λ theorem. IsMade journal theorem.now) }
    {
        self.theorems.get(name)
    }

    /// The lemma of a number.
    pub fn lemma(&self, number: usize) -> Option<&Rec>
        ensures found { option_map (λ theorem. theorem.now) result ≡ slice_get (stored_of self.now).lemmas number }
        ensures made { (journal : Journal) → IsStoreOf journal (stored_of self.now) → IfSome result (λ theorem. IsMade journal theorem.now) }
    {
        self.lemmas.get(number)
    }

    /// How many lemmas there are: the number of the next.
    pub fn lemma_count(&self) -> usize
        ensures { result ≡ length (stored_of self.now).lemmas }
    {
        self.lemmas.len()
    }

    /// Stores a theorem under a new name. Refused, where nothing changes: NameTaken, then Memory.
    pub fn put(&mut self, alloc: Global, name: &str, theorem: Rec) -> Result<(), Fault>
        ensures stored { OnOk result (StoresTheorem (stored_of self.old) (stored_of self.new) name.now theorem) }
        ensures free { OnOk result (IsNone ((stored_of self.old).theorems name.now)) }
        ensures err { IfErr result (RefusesName ((stored_of self.old).theorems name.now)) }
        ensures kept { OnErr result (KeepsStore (stored_of self.old) (stored_of self.new)) }
        ensures made { (journal : Journal) → IsStoreOf journal (stored_of self.old) → IsMade journal theorem → IsStoreOf journal (stored_of self.new) }
    {
        if self.get(name).is_some() {
            return Err(Fault::NameTaken);
        }
        let Ok(key) = String::from_str(alloc, name) else {
            return Err(Fault::Memory);
        };
        match self.theorems.insert(key, theorem) {
            Ok(_) => Ok(()),
            Err(_) => Err(Fault::Memory),
        }
    }

    /// Makes room for one more theorem under a name. Refused: Memory.
    pub fn room(&mut self) -> Result<(), Fault>
        ensures ok { OnOk result (HasRoom self.new) }
        ensures err { IfErr result (λ fault. fault ≡ Memory) }
        ensures kept { KeepsStore (stored_of self.old) (stored_of self.new) }
        ensures made { (journal : Journal) → IsStoreOf journal (stored_of self.old) → IsStoreOf journal (stored_of self.new) }
    {
        match self.theorems.reserve(1) {
            Ok(()) => Ok(()),
            Err(_) => Err(Fault::Memory),
        }
    }

    /// Stores a theorem under a name, in place of an earlier one there. It takes no memory: the room was made before.
    pub fn put_made(&mut self, name: String, theorem: Rec)
        requires room { HasRoom self.old }
        ensures stored { StoresTheorem (stored_of self.old) (stored_of self.new) (string_bytes name) theorem }
        ensures made { (journal : Journal) → IsStoreOf journal (stored_of self.old) → IsMade journal theorem → IsStoreOf journal (stored_of self.new) }
    {
        match self.theorems.insert(name, theorem) {
            Ok(_) => {}
            Err(_) => unreachable!(),
        }
    }

    /// One lemma more, behind the others; its number. Refused, where nothing changes: Memory.
    pub fn add_lemma(&mut self, theorem: Rec) -> Result<usize, Fault>
        ensures number { IfOk result (λ number. number ≡ length (stored_of self.old).lemmas) }
        ensures ok { OnOk result ((stored_of self.new).lemmas ≡ (stored_of self.old).lemmas ++ theorem ∷ []) }
        ensures err { IfErr result (λ fault. fault ≡ Memory) }
        ensures kept { OnErr result ((stored_of self.new).lemmas ≡ (stored_of self.old).lemmas) }
        ensures theorems { KeepsTheorems (stored_of self.old) (stored_of self.new) }
        ensures made { (journal : Journal) → IsStoreOf journal (stored_of self.old) → IsMade journal theorem → IsStoreOf journal (stored_of self.new) }
    {
        let number = self.lemmas.len();
        match self.lemmas.push(theorem) {
            Ok(()) => Ok(number),
            Err(_) => Err(Fault::Memory),
        }
    }

    /// Forgets the lemmas.
    pub fn clear_lemmas(&mut self)
        ensures lemmas { (stored_of self.new).lemmas ≡ [] }
        ensures theorems { KeepsTheorems (stored_of self.old) (stored_of self.new) }
        ensures made { (journal : Journal) → IsStoreOf journal (stored_of self.old) → IsStoreOf journal (stored_of self.new) }
    {
        self.lemmas.clear();
    }

    /// Forgets all lemmas but the first `count`.
    pub fn keep_lemmas(&mut self, count: usize)
        ensures lemmas { (stored_of self.new).lemmas ≡ take count (stored_of self.old).lemmas }
        ensures theorems { KeepsTheorems (stored_of self.old) (stored_of self.new) }
        ensures made { (journal : Journal) → IsStoreOf journal (stored_of self.old) → IsStoreOf journal (stored_of self.new) }
    {
        self.lemmas.truncate(count);
    }
}
