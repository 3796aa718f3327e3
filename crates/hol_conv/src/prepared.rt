// The rules of a stored theorem, made once for many terms.
ghost use Rattle.std.specs.Prelude.{◌≡◌, ◌≢◌, true, IfOk, IfErr, string_bytes};
ghost use Rattle.std.specs.Bool.{OnTrue, OnFalse};
ghost use Rattle.hol_model.specs.Logic.KnownTerm.{is_known};
ghost use Rattle.hol_journal.specs.Journal.{theorem_in};
ghost use Rattle.hol_prelude_derivations.specs.Derivations.{AreMade, theorems};
ghost use Rattle.hol_theorem_library.specs.Library.{IsLibrary, IsContinued, store_in};
ghost use Rattle.hol_conv.specs.Makes.{Makes, StandsOn};
ghost use Rattle.hol_conv.specs.OneStep.{RewritesByName};
ghost use Rattle.hol_conv.specs.Prepared.{AreRulesOf, RefusesRules, IsPrepared, IsPreparedFor};

use crate::conversions::rules_conv;
use hol_journal::Rec;
use hol_model::Fault;
use hol_rewrite::{Choice, choice_of, rules_of};
use hol_terms::Term;
use hol_theorem_library::{Library, libraries_continue};

/// The rules of a stored theorem, and the choice among them.
#[derive(Drop)]
pub struct NamedRules {
    name: String,
    rules: Vec<Rec>,
    choice: Choice,
}

impl NamedRules {
    /// Whether the theorem has this name.
    pub fn is_of(&self, name: &str) -> bool
        ensures same { OnTrue result (string_bytes self.now.name ≡ name.now) }
        ensures other { OnFalse result (string_bytes self.now.name ≢ name.now) }
    {
        self.name.as_str() == name
    }
}

// The rules of the theorem of this name.
fn stored_rules(library: &mut Library, name: &str) -> Result<Vec<Rec>, Fault>
    requires library { IsLibrary library.old }
    ensures library { IsLibrary library.new }
    ensures continued { IsContinued library.old library.new }
    ensures made { IfOk result (λ rules. AreMade library.new.recorder rules.items) }
    ensures ok { IfOk result (λ rules. AreRulesOf (store_in library.old) name.now (theorems rules.items)) }
    ensures err { IfErr result (RefusesRules (store_in library.old) name.now) }
{
    libraries_continue();
    match library.store.get(name) {
        Some(theorem) => rules_of(&mut library.recorder, &library.logic, theorem),
        None => Err(Fault::UnknownName),
    }
}

/// The rules of the theorem of this name. Refused, in this order: no theorem has the name (`UnknownName`); as `rules_of`;
/// and Memory.
pub fn rules_named(library: &mut Library, name: &str) -> Result<NamedRules, Fault>
    requires library { IsLibrary library.old }
    ensures library { IsLibrary library.new }
    ensures continued { IsContinued library.old library.new }
    ensures ok { IfOk result (IsPreparedFor library.new name.now) }
    ensures err { IfErr result (RefusesRules (store_in library.old) name.now) }
{
    let alloc = library.recorder.alloc();
    let rules = stored_rules(library, name)?;
    let choice = choice_of(alloc, &rules)?;
    match String::from_str(alloc, name) {
        Ok(name) => Ok(NamedRules {
            name,
            rules,
            choice,
        }),
        Err(_) => Err(Fault::Memory),
    }
}

/// REWR_CONV by rules that are there: rewriting by the rules of a stored theorem, of the term and not of its parts. Refused as
/// `rewrite_at`.
pub fn prepared_rewr_conv(
    library: &mut Library,
    named: &NamedRules,
    term: &Term,
) -> Result<Rec, Fault>
    requires library { IsLibrary library.old }
    requires prepared { IsPrepared library.old named.now }
    requires known { is_known library.old.recorder.theory term.now ≡ true }
    ensures makes { Makes library.old library.new result }
    ensures stands { IfOk result (StandsOn library.old.recorder.theory) }
    ensures rewrites { RewritesByName (store_in library.old) (string_bytes named.now.name) term.now (theorem_in result) }
{
    rules_conv(library, &named.rules, &named.choice, term)
}

/// REWR_CONV: rewriting by the rules of a stored theorem, of the term and not of its parts. Refused, in this order: no
/// theorem has the name (`UnknownName`); as `rules_of`; as `rewrite_at`.
pub fn rewr_conv(library: &mut Library, name: &str, term: &Term) -> Result<Rec, Fault>
    requires library { IsLibrary library.old }
    requires known { is_known library.old.recorder.theory term.now ≡ true }
    ensures makes { Makes library.old library.new result }
    ensures stands { IfOk result (StandsOn library.old.recorder.theory) }
    ensures rewrites { RewritesByName (store_in library.old) name.now term.now (theorem_in result) }
{
    let named = rules_named(library, name)?;
    prepared_rewr_conv(library, &named, term)
}
