// Theorems that are joined by TRANS: each of the right side of the one before. That a term equals itself is not made where it
// changes no answer.
ghost use Rattle.std.specs.Prelude.{◌≡◌, [], ◌∷◌, true, false, Ok, IfOk, IfErr};
ghost use Rattle.std.specs.List.{All};
ghost use Rattle.hol_model.specs.declared.fault.Fault.TheVariants.{Memory};
ghost use Rattle.hol_model.specs.Terms.NamedTerm.{NamedTerm};
ghost use Rattle.hol_model.specs.Logic.Theory.{Theory};
ghost use Rattle.hol_model.specs.Logic.KnownTerm.{is_known};
ghost use Rattle.hol_model.specs.Refining.Conversions as conversions;
ghost use Rattle.hol_laws_refiners.specs.Laws.{IsEquationOf};
ghost use Rattle.hol_laws_refiners.proofs.Repeating.{joined_from};
ghost use Rattle.hol_journal.specs.Journal.{IsMade, theorem_in};
ghost use Rattle.hol_theorem_library.specs.Library.{IsLibrary, IsContinued};
ghost use Rattle.hol_theorem_library.specs.declared.library.Library as library;
ghost use Rattle.hol_conv.specs.Makes.{Makes, StandsOn, Joins, IsRightSide};
ghost use Rattle.hol_conv.specs.Converted.{same_theorem, theorem_of, answered, IsMadeFor, IsAnswerOf, MakesAnswer};
ghost use Rattle.hol_conv.specs.Chains as chains;
ghost use Rattle.hol_conv.specs.Chains.{proved_by, LeadUpTo, IsChain, BeginsAt, IsChainFrom, Settles, Reflects, Finishes, Tries, IsExtended, Links, LinksMade};

use crate::converted::{Answer, Converted, as_answer, only_changed, theorem, unchanged};
use crate::joins::{itself, refl_known, right_side, trans_known};
use hol_journal::Rec;
use hol_model::Fault;
use hol_tactic_exprs::{Fuel, is_caught};
use hol_terms::Term;
use hol_theorem_library::Library;
use std::alloc::Global;

/// Theorems, each of the right side of the one before, and the term of which the next is to be proved.
#[derive(Drop)]
pub(crate) struct Chain {
    pub(crate) theorems: Vec<Rec>,
    pub(crate) current: Term,
    /// Whether the last theorem is known to stand on the library's theory.
    pub(crate) stands_here: bool,
    /// Whether that the current term equals itself stands behind them, which is not made yet.
    pub(crate) is_same: bool,
}

/// The chain without theorems.
fn begin(alloc: Global, t: &Term) -> Result<Chain, Fault>
    ensures theorems { IfOk result (λ chain. (theory : Theory) → proved_by theory chain ≡ []) }
    ensures current { IfOk result (λ chain. chain.current ≡ t.now) }
    ensures begins { (library : library.Library) → is_known library.recorder.theory t.now ≡ true → IfOk result (IsChainFrom library t.now) }
    ensures err { IfErr result (λ fault. fault ≡ Memory) }
{
    let current = t.copy(alloc)?;
    Ok(Chain {
        theorems: Vec::new(alloc),
        current,
        stands_here: false,
        is_same: false,
    })
}

/// ALL_CONV of a known term: nothing is made.
pub(crate) fn same(library: &Library, t: &Term, fuel: &mut Fuel) -> Answer
    requires library { IsLibrary library.now }
    requires known { is_known library.now.recorder.theory t.now ≡ true }
    ensures reflects { Reflects library.now.recorder.theory t.now fuel.old.left (answered library.now.recorder.theory t.now result) fuel.new.left }
    ensures makes { MakesAnswer library.now library.now t.now result }
{
    if !fuel.spend() {
        return Err(Fault::StepLimit);
    }
    unchanged(t)
}

// The theorems, joined from the right to the last. They meet, so nothing is compared.
fn joined(library: &mut Library, theorems: Vec<Rec>, last: Rec) -> Result<Rec, Fault>
    requires library { IsLibrary library.old }
    requires theorems { All (IsMade library.old.recorder) theorems.items }
    requires last { IsMade library.old.recorder last }
    requires lead { LeadUpTo theorems.items last.theorem }
    ensures joins { Joins (joined_from library.old.recorder.theory (chains.theorems theorems.items) (Ok last.theorem)) (theorem_in result) }
    ensures stands { StandsOn library.old.recorder.theory last → IfOk result (StandsOn library.old.recorder.theory) }
    ensures makes { Makes library.old library.new result }
{
    let mut theorems = theorems;
    let mut last = last;
    while let Some(theorem) = theorems.pop() {
        last = trans_known(library, &theorem, &last)?;
    }
    Ok(last)
}

// The theorems of a chain, joined from the right to the last, which stands on the library's theory. That the current term equals itself
// would add nothing behind it.
fn ended(library: &mut Library, chain: Chain) -> Result<Rec, Fault>
    requires library { IsLibrary library.old }
    requires chain { IsChain library.old chain }
    requires stands { chain.stands_here ≡ true }
    ensures joins { Joins (joined_from library.old.recorder.theory (chains.theorems chain.theorems.items) (Ok (same_theorem library.old.recorder.theory chain.current))) (theorem_in result) }
    ensures stands { IfOk result (StandsOn library.old.recorder.theory) }
    ensures makes { Makes library.old library.new result }
{
    let Chain { mut theorems, .. } = chain;
    match theorems.pop() {
        Some(theorem) => {
            let last = itself(library, &theorem)?;
            joined(library, theorems, last)
        }
        None => unreachable!(),
    }
}

/// Ends a chain from a term behind a refusal: by ALL_CONV where it is caught.
pub(crate) fn finish(
    library: &mut Library,
    t: &Term,
    chain: Chain,
    fault: Fault,
    fuel: &mut Fuel,
) -> Answer
    requires library { IsLibrary library.old }
    requires chain { IsChainFrom library.old t.now chain }
    ensures finishes { Finishes library.old.recorder.theory (proved_by library.old.recorder.theory chain) chain.current fault fuel.old.left
        (answered library.old.recorder.theory t.now result) fuel.new.left }
    ensures makes { MakesAnswer library.old library.new t.now result }
{
    if !is_caught(&fault) {
        return Err(fault);
    }
    if chain.theorems.is_empty() {
        return same(library, t, fuel);
    }
    let last = same(library, &chain.current, fuel);
    if chain.stands_here {
        return match last {
            Ok(_) => as_answer(ended(library, chain), true),
            Err(fault) => Err(fault),
        };
    }
    let Chain {
        theorems,
        current,
        ..
    } = chain;
    match theorem(library, &current, last) {
        Ok(last) => as_answer(joined(library, theorems, last), false),
        Err(fault) => Err(fault),
    }
}

/// What was answered on the term, or ALL_CONV where it is a refusal that is caught.
pub(crate) fn or_same(library: &Library, t: &Term, answer: Answer, fuel: &mut Fuel) -> Answer
    requires library { IsLibrary library.now }
    requires known { is_known library.now.recorder.theory t.now ≡ true }
    requires answer { IfOk answer (IsAnswerOf library.now t.now) }
    ensures tries { Tries library.now.recorder.theory t.now (answered library.now.recorder.theory t.now answer) fuel.old.left (answered library.now.recorder.theory t.now result) fuel.new.left }
    ensures makes { MakesAnswer library.now library.now t.now result }
{
    match answer {
        Ok(answer) => Ok(answer),
        Err(fault) => {
            if !is_caught(&fault) {
                return Err(fault);
            }
            same(library, t, fuel)
        }
    }
}

/// What was answered on the term, where it is not that it equals itself: CHANGED_CONV.
pub(crate) fn changed(t: &Term, answer: Answer) -> Answer
    ensures same { IfOk result (λ same. answer ≡ Ok same) }
    ensures changed { (theory : Theory) → answered theory t.now result ≡ conversions.if_changed t.now (answered theory t.now answer) }
{
    match answer {
        Ok(answer) => only_changed(t, answer),
        Err(fault) => Err(fault),
    }
}

// Makes that the current term equals itself, where that stands behind the theorems.
fn settled(library: &mut Library, chain: Chain) -> Result<Chain, Fault>
    requires library { IsLibrary library.old }
    requires chain { IsChain library.old chain }
    ensures library { IsLibrary library.new }
    ensures continued { IsContinued library.old library.new }
    ensures chain { IfOk result (IsChain library.new) }
    ensures settles { IfOk result (Settles library.old.recorder.theory chain) }
    ensures err { IfErr result (λ fault. fault ≡ Memory) }
{
    if !chain.is_same {
        return Ok(chain);
    }
    let Chain {
        mut theorems,
        current,
        ..
    } = chain;
    let same = refl_known(library, &current)?;
    match theorems.push(same) {
        Ok(()) => Ok(Chain {
            theorems,
            current,
            stands_here: false,
            is_same: false,
        }),
        Err(_) => Err(Fault::Memory),
    }
}

// Puts an equation of the current term behind theorems that are made.
fn pushed(library: &Library, chain: Chain, made: Rec, stands_here: bool) -> Result<Chain, Fault>
    requires chain { IsChain library.now chain }
    requires settled { chain.is_same ≡ false }
    requires made { IsMadeFor library.now stands_here made }
    requires equation { IsEquationOf chain.current made.theorem }
    ensures chain { IfOk result (IsChain library.now) }
    ensures extends { (theory : Theory) → IfOk result (IsExtended theory (proved_by theory chain) made.theorem) }
    ensures begun { IfOk result (λ new. (t : NamedTerm) → BeginsAt t new) }
    ensures err { IfErr result (λ fault. fault ≡ Memory) }
{
    let alloc = library.recorder.alloc();
    let current = right_side(library, &made).copy(alloc)?;
    let Chain { mut theorems, .. } = chain;
    match theorems.push(made) {
        Ok(()) => Ok(Chain {
            theorems,
            current,
            stands_here,
            is_same: false,
        }),
        Err(_) => Err(Fault::Memory),
    }
}

// Puts an answer on the current term behind the theorems.
fn extended(library: &mut Library, chain: Chain, answer: Converted) -> Result<Chain, Fault>
    requires library { IsLibrary library.old }
    requires chain { IsChain library.old chain }
    requires answer { IsAnswerOf library.old chain.current answer }
    requires equation { IsEquationOf chain.current (theorem_of library.old.recorder.theory chain.current answer) }
    ensures library { IsLibrary library.new }
    ensures continued { IsContinued library.old library.new }
    ensures chain { IfOk result (IsChain library.new) }
    ensures extends { IfOk result (IsExtended library.old.recorder.theory (proved_by library.old.recorder.theory chain) (theorem_of library.old.recorder.theory chain.current answer)) }
    ensures begun { IfOk result (λ new. (t : NamedTerm) → BeginsAt t chain → BeginsAt t new) }
    ensures err { IfErr result (λ fault. fault ≡ Memory) }
{
    let chain = settled(library, chain)?;
    match answer {
        Converted::Same => Ok(Chain {
            theorems: chain.theorems,
            current: chain.current,
            stands_here: chain.stands_here,
            is_same: true,
        }),
        Converted::Changed(made, stands_here) => pushed(library, chain, made, stands_here),
    }
}

/// The chain of an answer on a known term.
pub(crate) fn begin_by(library: &mut Library, t: &Term, answer: Converted) -> Result<Chain, Fault>
    requires library { IsLibrary library.old }
    requires known { is_known library.old.recorder.theory t.now ≡ true }
    requires answer { IsAnswerOf library.old t.now answer }
    requires equation { IsEquationOf t.now (theorem_of library.old.recorder.theory t.now answer) }
    ensures library { IsLibrary library.new }
    ensures continued { IsContinued library.old library.new }
    ensures chain { IfOk result (IsChainFrom library.new t.now) }
    ensures extends { IfOk result (IsExtended library.old.recorder.theory [] (theorem_of library.old.recorder.theory t.now answer)) }
    ensures err { IfErr result (λ fault. fault ≡ Memory) }
{
    let alloc = library.recorder.alloc();
    let chain = begin(alloc, t)?;
    extended(library, chain, answer)
}

/// A chain that goes on, or what is answered behind it.
#[derive(Drop)]
pub(crate) enum Linked {
    GoesOn(Chain),
    Ends(Answer),
}

/// Puts what was answered on the current term behind the theorems of a chain from a term, or ends it.
pub(crate) fn link(
    library: &mut Library,
    t: &Term,
    chain: Chain,
    answer: Answer,
    fuel: &mut Fuel,
) -> Linked
    requires library { IsLibrary library.old }
    requires chain { IsChainFrom library.old t.now chain }
    requires answer { IfOk answer (IsAnswerOf library.old chain.current) }
    requires equation { IfOk answer (λ answer. IsEquationOf chain.current (theorem_of library.old.recorder.theory chain.current answer)) }
    ensures links { Links library.old.recorder.theory (proved_by library.old.recorder.theory chain) t.now chain.current
        (answered library.old.recorder.theory chain.current answer) fuel.old.left result fuel.new.left }
    ensures library { IsLibrary library.new }
    ensures continued { IsContinued library.old library.new }
    ensures made { LinksMade library.new t.now result }
{
    let answer = match answer {
        Ok(answer) => answer,
        Err(fault) => return Linked::Ends(finish(library, t, chain, fault, fuel)),
    };
    match extended(library, chain, answer) {
        Ok(chain) => Linked::GoesOn(chain),
        Err(fault) => Linked::Ends(Err(fault)),
    }
}
