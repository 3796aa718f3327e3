// The rules that a conversion names, made before it is tried.
ghost use Rattle.std.specs.Prelude.{IfSome};
ghost use Rattle.hol_theorem_library.specs.Library.{IsLibrary};
ghost use Rattle.hol_theorem_library.specs.declared.library.Library as library;
ghost use Rattle.hol_conv.specs.Prepared.{ArePrepared, IsPreparedFor};
ghost use Rattle.hol_conv.specs.Prepares.{Prepares};

use crate::prepared::{NamedRules, rules_named};
use hol_tactic_exprs::Conv;
use hol_theorem_library::Library;

// So many names have their rules made before; those of others are made at each place.
const PREPARED_LIMIT: usize = 64;

/// The rules of this name, where they are there.
pub(crate) fn prepared_for<'a>(prepared: &'a [NamedRules], name: &str) -> Option<&'a NamedRules>
    ensures found { (library : library.Library) → ArePrepared library prepared.now → IfSome result (λ named. IsPreparedFor library name.now named.now) }
{
    for named in prepared {
        if named.is_of(name) {
            return Some(named);
        }
    }
    None
}

// Puts the rules of a name behind the others, where they are not there and can be made.
fn prepare_name(library: &mut Library, name: &str, prepared: &mut Vec<NamedRules>)
    requires library { IsLibrary library.old }
    requires prepared { ArePrepared library.old prepared.old.items }
    ensures prepares { Prepares library.old library.new prepared.new.items }
{
    if PREPARED_LIMIT <= prepared.len() || prepared_for(prepared, name).is_some() {
        return;
    }
    match rules_named(library, name) {
        Ok(named) => {
            let _room = prepared.push(named);
        }
        Err(_) => {}
    }
}

/// Puts the rules of the names in the conversion behind the others, where they can be made: others are made at each place.
#[cycle(prepare)]
pub(crate) fn prepare(library: &mut Library, conv: &Conv, prepared: &mut Vec<NamedRules>)
    requires library { IsLibrary library.old }
    requires prepared { ArePrepared library.old prepared.old.items }
    ensures prepares { Prepares library.old library.new prepared.new.items }
{
    match conv {
        Conv::All | Conv::No | Conv::Beta | Conv::Host(_) => {}
        Conv::Rewr(name) => prepare_name(library, name, prepared),
        Conv::Then(first, others) | Conv::OrElse(first, others) => {
            prepare(library, first, prepared);
            prepare_all(library, others, prepared);
        }
        Conv::Prefixed(_, part) => prepare(library, part, prepared),
    }
}

// The same for each of these.
#[cycle(prepare)]
fn prepare_all(library: &mut Library, convs: &[Conv], prepared: &mut Vec<NamedRules>)
    requires library { IsLibrary library.old }
    requires prepared { ArePrepared library.old prepared.old.items }
    ensures prepares { Prepares library.old library.new prepared.new.items }
{
    for conv in convs {
        prepare(library, conv, prepared);
    }
}
