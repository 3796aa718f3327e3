// The names of a log's theory.
ghost use Rattle.std.specs.Prelude.{◌≡◌, [], ◌∷◌, reverse, IfOk, OnOk};
ghost use Rattle.hol_model.specs.Logic.Theory.{Theory};
ghost use Rattle.hol_model.specs.Texts.Scopes.{scope_over};
ghost use Rattle.hol_syntax.specs.Scope.{scope_of};
ghost use Rattle.hol_check_review.specs.Theories.{IsScopeOf};

use crate::types::{text_of_name, type_of};
use hol_check::{EntryParts, LogEntry};
use hol_model::Fault;
use hol_syntax::Scope;
use std::alloc::Global;

// Puts an entry's name in.
fn add_entry(alloc: Global, scope: &mut Scope, entry: &LogEntry) -> Result<(), Fault>
    ensures { (theory : Theory) → IsScopeOf (scope_of scope.old) theory → OnOk result (IsScopeOf (scope_of scope.new) (entry.now ∷ theory)) }
{
    match entry.parts() {
        EntryParts::Definition(name, ty, _) | EntryParts::DeclaredConstant(name, ty) => {
            let ty = type_of(alloc, &ty)?;
            scope.add_const(alloc, text_of_name(name)?, &ty)
        }
        EntryParts::DeclaredType(name) => scope.add_type(alloc, text_of_name(name)?),
    }
}

// Puts the names of entries in.
fn add_entries(alloc: Global, scope: &mut Scope, entries: &[LogEntry]) -> Result<(), Fault>
    ensures { IsScopeOf (scope_of scope.old) [] → OnOk result (IsScopeOf (scope_of scope.new) (reverse entries.now)) }
{
    for entry in entries {
        add_entry(alloc, scope, entry)?;
    }
    Ok(())
}

/// What names stand for over the theory of a log, given its entries in the order of their lines. Refusals: Memory;
/// NameTaken, where an entry has the name of an earlier one; BadName and TooLarge, where a type is none of the logic.
/// That no entry of an accepted log is refused but for memory, is not proved.
pub fn scope_of_entries(alloc: Global, entries: &[LogEntry]) -> Result<Scope, Fault>
    ensures { IfOk result (λ scope. scope_of scope ≡ scope_over (reverse entries.now)) }
{
    let mut scope = Scope::new(alloc)?;
    add_entries(alloc, &mut scope, entries)?;
    Ok(scope)
}
