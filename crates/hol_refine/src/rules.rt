// The rules of stored theorems.
ghost use Rattle.std.specs.Prelude.{◌≡◌, ◌⊎◌, ◌++◌, Ok, Err, map, IfOk, IfErr, OnOk, OnErr, string_bytes};
ghost use Rattle.hol_model.specs.declared.fault.Fault.TheVariants.{Memory};
ghost use Rattle.hol_model.specs.Rewrites.Rewriting.{AnswersRules};
ghost use Rattle.hol_model.specs.Refining.Refiners.{AnswersAllRules, IsRefusedBefore, rewrite_tac};
ghost use Rattle.hol_journal.specs.Journal.{IsMade};
ghost use Rattle.hol_prelude_derivations.specs.Derivations.{AreMade, theorems};
ghost use Rattle.hol_theorem_library.specs.Library.{IsLibrary, IsContinued, store_in};
ghost use Rattle.hol_refine.specs.Answers.{AreNamedRules};

use crate::naming::theorems_named;
use hol_journal::Rec;
use hol_model::Fault;
use hol_rewrite::rules_of;
use hol_theorem_library::{Library, libraries_continue};
use std::alloc::Global;

// The rules of a theorem, in order. Refused as `rules_of`.
fn rules_of_one(library: &mut Library, theorem: &Rec) -> Result<Vec<Rec>, Fault>
    requires library { IsLibrary library.old }
    requires made { IsMade library.old.recorder theorem.now }
    ensures library { IsLibrary library.new }
    ensures continued { IsContinued library.old library.new }
    ensures made { IfOk result (λ rules. AreMade library.new.recorder rules.items) }
    ensures ok { IfOk result (λ rules. AnswersRules theorem.now.theorem (Ok (theorems rules.items))) }
    ensures err { IfErr result (λ fault. AnswersRules theorem.now.theorem (Err fault)) }
{
    libraries_continue();
    rules_of(&mut library.recorder, &library.logic, theorem)
}

// Puts rules behind others. Refused: Memory.
fn add_rules(rules: &mut Vec<Rec>, mut more: Vec<Rec>) -> Result<(), Fault>
    ensures ok { OnOk result (rules.new.items ≡ rules.old.items ++ more.items) }
    ensures err { IfErr result (λ fault. fault ≡ Memory) }
{
    rules.append(&mut more)?;
    Ok(())
}

// The rules of the theorems, in order. Refused as `rules_of` of the first for which it is refused.
fn rules_of_all(alloc: Global, library: &mut Library, all: &[Rec]) -> Result<Vec<Rec>, Fault>
    requires library { IsLibrary library.old }
    requires made { AreMade library.old.recorder all.now }
    ensures library { IsLibrary library.new }
    ensures continued { IsContinued library.old library.new }
    ensures made { IfOk result (λ rules. AreMade library.new.recorder rules.items) }
    ensures ok { IfOk result (λ rules. AnswersAllRules (theorems all.now) (Ok (theorems rules.items))) }
    ensures err { IfErr result (λ fault. (fault ≡ Memory) ⊎ AnswersAllRules (theorems all.now) (Err fault)) }
{
    let mut rules = Vec::new(alloc);
    for theorem in all {
        let more = rules_of_one(library, theorem)?;
        add_rules(&mut rules, more)?;
    }
    Ok(rules)
}

/// The rules of the stored theorems of the names, in order. Refused, in this order: UnknownName where a name stands for none;
/// TooLarge of the first theorem whose rules have no room; and Memory.
pub(crate) fn rules_named(library: &mut Library, names: &[String]) -> Result<Vec<Rec>, Fault>
    requires library { IsLibrary library.old }
    ensures library { IsLibrary library.new }
    ensures continued { IsContinued library.old library.new }
    ensures made { IfOk result (λ rules. AreMade library.new.recorder rules.items) }
    ensures ok { IfOk result (λ rules. AreNamedRules (store_in library.old) (map string_bytes names.now) (theorems rules.items)) }
    ensures err { IfErr result (λ fault. (fault ≡ Memory) ⊎ IsRefusedBefore (store_in library.old) (rewrite_tac (map string_bytes names.now)) fault) }
{
    let alloc = library.recorder.alloc();
    let theorems = theorems_named(alloc, &library.store, names)?;
    match rules_of_all(alloc, library, &theorems) {
        Ok(rules) => Ok(rules),
        Err(fault) => Err(fault),
    }
}
