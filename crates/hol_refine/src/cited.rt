// The stored theorems that refiners name.
ghost use Rattle.std.specs.Prelude.{◌≡◌};
ghost use Rattle.std.specs.Option.{option_map};
ghost use Rattle.std.specs.String.{string_bytes};
ghost use Rattle.hol_theorem_store.specs.Store.{stored_of};
ghost use Rattle.hol_theorem_store.specs.Stored.{theorems_in};

use hol_kernel::Thm;
use hol_theorem_store::Store;

/// A name, and the theorem that it stands for.
#[derive(Clone, Copy)]
pub(crate) struct Cited<'a> {
    pub(crate) name: &'a str,
    pub(crate) theorem: Option<&'a Thm>,
}

// The stored theorem of a name.
fn theorem_named<'a>(store: &'a Store, name: &str) -> Option<&'a Thm>
    ensures { (theorems_in (stored_of store.now)).named name.now ≡ option_map (λ theorem. theorem.now) result }
{
    match store.get(name) {
        Some(stored) => Some(stored.theorem()),
        None => None,
    }
}

/// The name, with the stored theorem.
pub(crate) fn cite<'a>(store: &'a Store, name: &'a String) -> Cited<'a>
    ensures name { result.name.now ≡ string_bytes name.now }
    ensures theorem { (theorems_in (stored_of store.now)).named result.name.now ≡ option_map (λ theorem. theorem.now) result.theorem }
{
    let name = name.as_str();
    Cited {
        name,
        theorem: theorem_named(store, name),
    }
}
