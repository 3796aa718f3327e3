// Derivations by the kernel's rules, as data.
ghost use Rattle.std.specs.Prelude.{◌≡◌, Ok, slice_get};
ghost use Rattle.hol_model.specs.declared.fault.Fault.TheVariants.{BadShape};
ghost use Rattle.hol_model.specs.Kernel.Outcome.{Answers, given};
ghost use Rattle.hol_model.specs.Kernel.Rules.{refl_outcome, eq_mp_outcome, abs_outcome};
ghost use Rattle.hol_prelude_derivations.specs.RuleOutcomes.{axiom_theorem, term_rule_outcome, pair_rule_outcome};
ghost use Rattle.hol_journal.specs.Journal.{IsMade, theorem_in};
ghost use Rattle.hol_prelude_derivations.specs.Sketches.{followed, term_outcome};
ghost use Rattle.hol_prelude_derivations.specs.Derivations.{ap_term_of, ap_thm_of, turned, sym_of, inst_of, inst_type_of, derived_outcome, theorems, GoesOn, AreMade};

use crate::rule::{Axiom, PairRule, TermRule};
use crate::sketch::{TermSketch, TypeSketch, term_of, type_of};
use hol_journal::{Inference, Rec, Recorder};
use hol_model::Fault;
use hol_terms::Term;

/// A derivation from earlier theorems.
#[derive(Clone, Copy)]
pub enum Derivation<'a> {
    /// The earlier theorem of this number.
    Earlier(usize),
    Axiom(Axiom),
    Term(TermRule, &'a TermSketch<'a>),
    Pair(PairRule, &'a Derivation<'a>, &'a Derivation<'a>),
    /// SYM.
    Sym(&'a Derivation<'a>),
    /// AP_TERM: the function, and the theorem.
    ApTerm(&'a TermSketch<'a>, &'a Derivation<'a>),
    /// AP_THM: the theorem, and the argument.
    ApThm(&'a Derivation<'a>, &'a TermSketch<'a>),
    /// ABS: the variable, and the theorem.
    Abs(&'a TermSketch<'a>, &'a Derivation<'a>),
    /// INST of a theorem without hypotheses: the new term, the variable, the theorem, and the conclusion with its names.
    Inst(&'a TermSketch<'a>, &'a TermSketch<'a>, &'a Derivation<'a>, &'a TermSketch<'a>),
    /// INST_TYPE of a theorem without hypotheses: the new type, the type variable, the theorem, and the conclusion with
    /// its names.
    InstType(&'a TypeSketch<'a>, &'a TypeSketch<'a>, &'a Derivation<'a>, &'a TermSketch<'a>),
}

/// The theorem of the derivation.
#[tactic(auto, using(crate::proofs::DerivationLemmas::still_all_made, crate::proofs::DerivationLemmas::still_made))]
pub(crate) fn derive(
    recorder: &mut Recorder,
    earlier: &[Rec],
    derivation: &Derivation<'_>,
) -> Result<Rec, Fault>
    requires made { AreMade recorder.old earlier.now }
    ensures outcome { Answers (theorem_in result) (derived_outcome recorder.old.theory (theorems earlier.now) derivation.now) }
    ensures goes_on { GoesOn recorder.old recorder.new result }
{
    match derivation {
        Derivation::Earlier(number) => earlier_theorem(recorder, earlier, *number),
        Derivation::Axiom(rule) => by_axiom(recorder, *rule),
        Derivation::Term(rule, term) => by_term(recorder, *rule, term),
        Derivation::Pair(rule, first, second) => {
            let first = derive(recorder, earlier, first)?;
            let second = derive(recorder, earlier, second)?;
            by_pair(recorder, *rule, &first, &second)
        }
        Derivation::Sym(theorem) => {
            let theorem = derive(recorder, earlier, theorem)?;
            by_sym(recorder, &theorem)
        }
        Derivation::ApTerm(function, theorem) => {
            let theorem = derive(recorder, earlier, theorem)?;
            by_ap_term(recorder, function, &theorem)
        }
        Derivation::ApThm(theorem, argument) => {
            let theorem = derive(recorder, earlier, theorem)?;
            by_ap_thm(recorder, &theorem, argument)
        }
        Derivation::Abs(variable, theorem) => {
            let theorem = derive(recorder, earlier, theorem)?;
            by_abs(recorder, variable, &theorem)
        }
        Derivation::Inst(new, old, theorem, conclusion) => {
            let theorem = derive(recorder, earlier, theorem)?;
            by_inst(recorder, new, old, &theorem, conclusion)
        }
        Derivation::InstType(new, old, theorem, conclusion) => {
            let theorem = derive(recorder, earlier, theorem)?;
            by_inst_type(recorder, new, old, &theorem, conclusion)
        }
    }
}

// The earlier theorem of this number.
fn earlier_theorem(recorder: &mut Recorder, earlier: &[Rec], number: usize) -> Result<Rec, Fault>
    requires { AreMade recorder.old earlier.now }
    ensures outcome { Answers (theorem_in result) (given (slice_get (theorems earlier.now) number) BadShape (λ theorem. Ok theorem)) }
    ensures goes_on { GoesOn recorder.old recorder.new result }
{
    let alloc = recorder.alloc();
    match earlier.get(number) {
        Some(theorem) => theorem.copy(alloc),
        None => Err(Fault::BadShape),
    }
}

// ETA or SELECT.
#[tactic(auto, using(crate::proofs::DerivationLemmas::inference_goes_on))]
fn by_axiom(recorder: &mut Recorder, rule: Axiom) -> Result<Rec, Fault>
    ensures outcome { Answers (theorem_in result) (Ok (axiom_theorem rule recorder.old.theory)) }
    ensures goes_on { GoesOn recorder.old recorder.new result }
{
    match rule {
        Axiom::Eta => recorder.infer(Inference::Eta),
        Axiom::Select => recorder.infer(Inference::Select),
    }
}

// REFL of a term.
#[tactic(auto, using(crate::proofs::DerivationLemmas::inference_goes_on))]
fn reflexive(recorder: &mut Recorder, term: &Term) -> Result<Rec, Fault>
    ensures outcome { Answers (theorem_in result) (refl_outcome recorder.old.theory term.now) }
    ensures goes_on { GoesOn recorder.old recorder.new result }
{
    recorder.infer(Inference::Refl(term))
}

// REFL, BETA or ASSUME.
#[tactic(auto, using(crate::proofs::DerivationLemmas::inference_goes_on))]
fn by_term(recorder: &mut Recorder, rule: TermRule, term: &TermSketch<'_>) -> Result<Rec, Fault>
    ensures outcome { Answers (theorem_in result) (followed (term_outcome term.now) (λ term. term_rule_outcome rule recorder.old.theory term)) }
    ensures goes_on { GoesOn recorder.old recorder.new result }
{
    let alloc = recorder.alloc();
    let term = term_of(alloc, term)?;
    match rule {
        TermRule::Refl => reflexive(recorder, &term),
        TermRule::Beta => recorder.infer(Inference::Beta(&term)),
        TermRule::Assume => recorder.infer(Inference::Assume(&term)),
    }
}

// A rule for two theorems.
#[tactic(auto, using(crate::proofs::DerivationLemmas::inference_goes_on))]
fn by_pair(recorder: &mut Recorder, rule: PairRule, first: &Rec, second: &Rec) -> Result<Rec, Fault>
    requires first { IsMade recorder.old first.now }
    requires second { IsMade recorder.old second.now }
    ensures outcome { Answers (theorem_in result) (pair_rule_outcome rule recorder.old.theory first.now.theorem second.now.theorem) }
    ensures goes_on { GoesOn recorder.old recorder.new result }
{
    match rule {
        PairRule::Trans => recorder.infer(Inference::Trans(first, second)),
        PairRule::MkComb => recorder.infer(Inference::MkComb(first, second)),
        PairRule::EqMp => recorder.infer(Inference::EqMp(first, second)),
        PairRule::DeductAntisym => recorder.infer(Inference::DeductAntisym(first, second)),
    }
}

// MK_COMB of REFL of a function, and a theorem.
#[tactic(auto, using(crate::proofs::DerivationLemmas::still_made, crate::proofs::DerivationLemmas::goes_on_twice))]
fn by_ap_term(
    recorder: &mut Recorder,
    function: &TermSketch<'_>,
    theorem: &Rec,
) -> Result<Rec, Fault>
    requires { IsMade recorder.old theorem.now }
    ensures outcome { Answers (theorem_in result) (ap_term_of recorder.old.theory function.now theorem.now.theorem) }
    ensures goes_on { GoesOn recorder.old recorder.new result }
{
    let alloc = recorder.alloc();
    let function = term_of(alloc, function)?;
    let reflexive = reflexive(recorder, &function)?;
    by_pair(recorder, PairRule::MkComb, &reflexive, theorem)
}

// MK_COMB of a theorem, and REFL of an argument.
#[tactic(auto, using(crate::proofs::DerivationLemmas::still_made, crate::proofs::DerivationLemmas::goes_on_twice))]
fn by_ap_thm(
    recorder: &mut Recorder,
    theorem: &Rec,
    argument: &TermSketch<'_>,
) -> Result<Rec, Fault>
    requires { IsMade recorder.old theorem.now }
    ensures outcome { Answers (theorem_in result) (ap_thm_of recorder.old.theory theorem.now.theorem argument.now) }
    ensures goes_on { GoesOn recorder.old recorder.new result }
{
    let alloc = recorder.alloc();
    let argument = term_of(alloc, argument)?;
    let reflexive = reflexive(recorder, &argument)?;
    by_pair(recorder, PairRule::MkComb, theorem, &reflexive)
}

// An equation with its sides turned, by its relation and its left side.
#[tactic(auto, using(crate::proofs::DerivationLemmas::still_made, crate::proofs::DerivationLemmas::goes_on_twice))]
fn turned(
    recorder: &mut Recorder,
    relation: &Term,
    left: &Term,
    theorem: &Rec,
) -> Result<Rec, Fault>
    requires { IsMade recorder.old theorem.now }
    ensures outcome { Answers (theorem_in result) (turned recorder.old.theory relation.now left.now theorem.now.theorem) }
    ensures goes_on { GoesOn recorder.old recorder.new result }
{
    let same = reflexive(recorder, relation)?;
    let applied = by_pair(recorder, PairRule::MkComb, &same, theorem)?;
    let reflexive = reflexive(recorder, left)?;
    let sides = by_pair(recorder, PairRule::MkComb, &applied, &reflexive)?;
    by_pair(recorder, PairRule::EqMp, &sides, &reflexive)
}

// SYM.
fn by_sym(recorder: &mut Recorder, theorem: &Rec) -> Result<Rec, Fault>
    requires { IsMade recorder.old theorem.now }
    ensures outcome { Answers (theorem_in result) (sym_of recorder.old.theory theorem.now.theorem) }
    ensures goes_on { GoesOn recorder.old recorder.new result }
{
    let Some((applied, _)) = recorder.thm(theorem).concl().dest_comb() else {
        return Err(Fault::NotEquation);
    };
    let Some((relation, left)) = applied.dest_comb() else {
        return Err(Fault::NotEquation);
    };
    turned(recorder, relation, left, theorem)
}

// ABS over a variable.
#[tactic(auto, using(crate::proofs::DerivationLemmas::inference_goes_on))]
fn by_abs(recorder: &mut Recorder, variable: &TermSketch<'_>, theorem: &Rec) -> Result<Rec, Fault>
    requires { IsMade recorder.old theorem.now }
    ensures outcome { Answers (theorem_in result) (followed (term_outcome variable.now) (λ variable. abs_outcome recorder.old.theory variable theorem.now.theorem)) }
    ensures goes_on { GoesOn recorder.old recorder.new result }
{
    let alloc = recorder.alloc();
    let variable = term_of(alloc, variable)?;
    recorder.infer(Inference::Abs(&variable, theorem))
}

// EQ_MP of REFL of a term, and a theorem of its image.
#[tactic(auto, using(crate::proofs::DerivationLemmas::still_made, crate::proofs::DerivationLemmas::goes_on_twice))]
fn renamed(recorder: &mut Recorder, conclusion: &Term, theorem: &Rec) -> Result<Rec, Fault>
    requires { IsMade recorder.old theorem.now }
    ensures outcome { Answers (theorem_in result) (followed (refl_outcome recorder.old.theory conclusion.now) (λ reflexive. eq_mp_outcome recorder.old.theory reflexive theorem.now.theorem)) }
    ensures goes_on { GoesOn recorder.old recorder.new result }
{
    let reflexive = reflexive(recorder, conclusion)?;
    by_pair(recorder, PairRule::EqMp, &reflexive, theorem)
}

// INST of a theorem without hypotheses.
fn by_inst(
    recorder: &mut Recorder,
    new: &TermSketch<'_>,
    old: &TermSketch<'_>,
    theorem: &Rec,
    conclusion: &TermSketch<'_>,
) -> Result<Rec, Fault>
    requires { IsMade recorder.old theorem.now }
    ensures outcome { Answers (theorem_in result) (inst_of recorder.old.theory new.now old.now theorem.now.theorem conclusion.now) }
    ensures goes_on { GoesOn recorder.old recorder.new result }
{
    let alloc = recorder.alloc();
    let pairs = [(term_of(alloc, new)?, term_of(alloc, old)?)];
    let conclusion = term_of(alloc, conclusion)?;
    if recorder.thm(theorem).hyps().len() != 0 {
        return Err(Fault::BadShape);
    }
    let instance = recorder.infer(Inference::Inst(&pairs, theorem))?;
    renamed(recorder, &conclusion, &instance)
}

// INST_TYPE of a theorem without hypotheses.
fn by_inst_type(
    recorder: &mut Recorder,
    new: &TypeSketch<'_>,
    old: &TypeSketch<'_>,
    theorem: &Rec,
    conclusion: &TermSketch<'_>,
) -> Result<Rec, Fault>
    requires { IsMade recorder.old theorem.now }
    ensures outcome { Answers (theorem_in result) (inst_type_of recorder.old.theory new.now old.now theorem.now.theorem conclusion.now) }
    ensures goes_on { GoesOn recorder.old recorder.new result }
{
    let alloc = recorder.alloc();
    let pairs = [(type_of(alloc, new)?, type_of(alloc, old)?)];
    let conclusion = term_of(alloc, conclusion)?;
    if recorder.thm(theorem).hyps().len() != 0 {
        return Err(Fault::BadShape);
    }
    let instance = recorder.infer(Inference::InstType(&pairs, theorem))?;
    renamed(recorder, &conclusion, &instance)
}
