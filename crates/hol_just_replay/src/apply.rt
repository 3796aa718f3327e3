// A rule of inference on theorems.
ghost use Rattle.std.specs.Prelude.{◌≡◌, ◌<◌, [], ◌∷◌, length, Err};
ghost use Rattle.hol_model.specs.declared.fault.Fault.TheVariants.{InvalidStep};
ghost use Rattle.hol_journal.specs.Journal.{IsMade, theorem_in};
ghost use Rattle.hol_prelude.specs.HasLogic.{HasLogic};
ghost use Rattle.hol_journal.specs.Growth.{Continues};
ghost use Rattle.hol_equal.specs.Inferred.{Infers};
ghost use Rattle.hol_just_replay.specs.Room.{FindsRoom};
ghost use Rattle.hol_just_replay.specs.Outcomes.{AnswersBy, AreLent, lent_theorems};

use hol_bool::{
    conj, conjunct1, conjunct2, contr, disch, disj_cases, disj1, disj2, eqt_elim, eqt_intro, mp,
    not_elim, not_intro, primitive_rules_infer, undisch,
};
use hol_equal::{Made, add_assum, beta_conv, conclusion_of, prove_hyp, sym};
use hol_journal::{Inference, Rec, Recorder};
use hol_just::Rule;
use hol_model::Fault;
use hol_prelude::Bool;
use hol_quant::{choose, exists, generalize, spec};

// The refusal of a rule that takes another number of premises.
fn refuse(recorder: &mut Recorder) -> Made
    ensures continues { Continues recorder.old recorder.new result }
    ensures refused { result ≡ Err InvalidStep }
{
    let _entries = recorder.entries();
    Err(Fault::InvalidStep)
}

// A rule without premises. Here and below a term's type and a premise's conclusion are read for what is known of them.
#[tactic(auto, using(crate::proofs::Rooms::rooms_of_none))]
fn on_none(recorder: &mut Recorder, logic: &Bool, rule: &Rule) -> Made
    requires logic { HasLogic recorder.old logic.now }
    ensures continues { Continues recorder.old recorder.new result }
    ensures inferred { Infers recorder.old.theory rule.now [] (theorem_in result) }
    ensures room { FindsRoom recorder.old.theory rule.now [] (theorem_in result) }
    ensures outcome { AnswersBy recorder.old.theory rule.now [] (theorem_in result) }
{
    recorder.theory_is_legal();
    primitive_rules_infer();
    match rule {
        Rule::Refl(t) => {
            let _type = t.ty();
            recorder.infer(Inference::Refl(t))
        }
        Rule::Beta(t) => {
            let _type = t.ty();
            recorder.infer(Inference::Beta(t))
        }
        Rule::Assume(p) => {
            let _type = p.ty();
            recorder.infer(Inference::Assume(p))
        }
        Rule::EtaAxiom => recorder.infer(Inference::Eta),
        Rule::SelectAxiom => recorder.infer(Inference::Select),
        Rule::BetaConv(t) => {
            let _type = t.ty();
            beta_conv(recorder, t)
        }
        _ => refuse(recorder),
    }
}

// A rule of one premise.
#[tactic(auto, using(crate::proofs::Rooms::rooms_of_one))]
fn on_one(recorder: &mut Recorder, logic: &Bool, rule: &Rule, premise: &Rec) -> Made
    requires logic { HasLogic recorder.old logic.now }
    requires premise { IsMade recorder.old premise.now }
    ensures continues { Continues recorder.old recorder.new result }
    ensures inferred { Infers recorder.old.theory rule.now (premise.now.theorem ∷ []) (theorem_in result) }
    ensures room { FindsRoom recorder.old.theory rule.now (premise.now.theorem ∷ []) (theorem_in result) }
    ensures outcome { AnswersBy recorder.old.theory rule.now (premise.now.theorem ∷ []) (theorem_in result) }
{
    let _premise = conclusion_of(recorder, premise);
    primitive_rules_infer();
    match rule {
        Rule::Abs(x) => recorder.infer(Inference::Abs(x, premise)),
        Rule::Inst(theta) => recorder.infer(Inference::Inst(theta, premise)),
        Rule::InstType(theta) => recorder.infer(Inference::InstType(theta, premise)),
        Rule::Sym => sym(recorder, premise),
        Rule::AddAssum(p) => {
            let _type = p.ty();
            add_assum(recorder, p, premise)
        }
        Rule::EqtIntro => eqt_intro(recorder, logic, premise),
        Rule::EqtElim => eqt_elim(recorder, logic, premise),
        Rule::Conjunct1 => conjunct1(recorder, logic, premise),
        Rule::Conjunct2 => conjunct2(recorder, logic, premise),
        Rule::Disch(p) => {
            let _type = p.ty();
            disch(recorder, logic, p, premise)
        }
        Rule::Undisch => undisch(recorder, logic, premise),
        Rule::Spec(t) => {
            let _type = t.ty();
            spec(recorder, logic, t, premise)
        }
        Rule::Gen(x) => generalize(recorder, logic, x, premise),
        Rule::Disj1(q) => {
            let _type = q.ty();
            disj1(recorder, logic, q, premise)
        }
        Rule::Disj2(p) => {
            let _type = p.ty();
            disj2(recorder, logic, p, premise)
        }
        Rule::Contr(p) => {
            let _type = p.ty();
            contr(recorder, logic, p, premise)
        }
        Rule::NotIntro => not_intro(recorder, logic, premise),
        Rule::NotElim => not_elim(recorder, logic, premise),
        Rule::Exists(formula, witness) => {
            let _formula = formula.ty();
            let _witness = witness.ty();
            exists(recorder, logic, formula, witness, premise)
        }
        _ => refuse(recorder),
    }
}

// A rule of two premises.
#[tactic(auto, using(crate::proofs::Rooms::rooms_of_two))]
fn on_two(recorder: &mut Recorder, logic: &Bool, rule: &Rule, first: &Rec, second: &Rec) -> Made
    requires logic { HasLogic recorder.old logic.now }
    requires first { IsMade recorder.old first.now }
    requires second { IsMade recorder.old second.now }
    ensures continues { Continues recorder.old recorder.new result }
    ensures inferred { Infers recorder.old.theory rule.now (first.now.theorem ∷ second.now.theorem ∷ []) (theorem_in result) }
    ensures room { FindsRoom recorder.old.theory rule.now (first.now.theorem ∷ second.now.theorem ∷ []) (theorem_in result) }
    ensures outcome { AnswersBy recorder.old.theory rule.now (first.now.theorem ∷ second.now.theorem ∷ []) (theorem_in result) }
{
    let _first = conclusion_of(recorder, first);
    let _second = conclusion_of(recorder, second);
    primitive_rules_infer();
    match rule {
        Rule::Trans => recorder.infer(Inference::Trans(first, second)),
        Rule::MkComb => recorder.infer(Inference::MkComb(first, second)),
        Rule::EqMp => recorder.infer(Inference::EqMp(first, second)),
        Rule::DeductAntisym => recorder.infer(Inference::DeductAntisym(first, second)),
        Rule::ProveHyp => prove_hyp(recorder, first, second),
        Rule::Conj => conj(recorder, logic, first, second),
        Rule::Mp => mp(recorder, logic, first, second),
        Rule::Choose(v) => choose(recorder, logic, v, first, second),
        _ => refuse(recorder),
    }
}

// A rule of three premises.
#[tactic(auto, using(crate::proofs::Rooms::rooms_of_three))]
fn on_three(
    recorder: &mut Recorder,
    logic: &Bool,
    rule: &Rule,
    first: &Rec,
    second: &Rec,
    third: &Rec,
) -> Made
    requires logic { HasLogic recorder.old logic.now }
    requires first { IsMade recorder.old first.now }
    requires second { IsMade recorder.old second.now }
    requires third { IsMade recorder.old third.now }
    ensures continues { Continues recorder.old recorder.new result }
    ensures inferred { Infers recorder.old.theory rule.now (first.now.theorem ∷ second.now.theorem ∷ third.now.theorem ∷ []) (theorem_in result) }
    ensures room { FindsRoom recorder.old.theory rule.now (first.now.theorem ∷ second.now.theorem ∷ third.now.theorem ∷ []) (theorem_in result) }
    ensures outcome { AnswersBy recorder.old.theory rule.now (first.now.theorem ∷ second.now.theorem ∷ third.now.theorem ∷ []) (theorem_in result) }
{
    let _first = conclusion_of(recorder, first);
    match rule {
        Rule::DisjCases => disj_cases(recorder, logic, first, second, third),
        _ => refuse(recorder),
    }
}

// The refusal of too many premises.
#[tactic(auto, using(crate::proofs::Premises::too_many_lent))]
fn refuse_many(recorder: &mut Recorder, rule: &Rule, premises: &[&Rec]) -> Made
    requires { 3 < length premises.now }
    ensures continues { Continues recorder.old recorder.new result }
    ensures inferred { Infers recorder.old.theory rule.now (lent_theorems premises.now) (theorem_in result) }
    ensures room { FindsRoom recorder.old.theory rule.now (lent_theorems premises.now) (theorem_in result) }
    ensures outcome { AnswersBy recorder.old.theory rule.now (lent_theorems premises.now) (theorem_in result) }
{
    let _rule = rule;
    let _premises = premises.len();
    refuse(recorder)
}

/// A rule on theorems that the recorder made, one for each premise (fusion.ml, equal.ml and bool.ml of HOL Light). It
/// answers by the rule's own outcome, and the theorem has the sequent that the table of rules draws; where it draws none,
/// the rule is refused. TooLarge comes only where a term that the rule takes, of a premise, or of what is drawn leaves no
/// room.
pub fn apply_rule(recorder: &mut Recorder, logic: &Bool, rule: &Rule, premises: &[&Rec]) -> Made
    requires logic { HasLogic recorder.old logic.now }
    requires premises { AreLent recorder.old premises.now }
    ensures continues { Continues recorder.old recorder.new result }
    ensures inferred { Infers recorder.old.theory rule.now (lent_theorems premises.now) (theorem_in result) }
    ensures room { FindsRoom recorder.old.theory rule.now (lent_theorems premises.now) (theorem_in result) }
    ensures outcome { AnswersBy recorder.old.theory rule.now (lent_theorems premises.now) (theorem_in result) }
{
    match premises {
        [] => on_none(recorder, logic, rule),
        [premise] => on_one(recorder, logic, rule, premise),
        [first, second] => on_two(recorder, logic, rule, first, second),
        [first, second, third] => on_three(recorder, logic, rule, first, second, third),
        _ => refuse_many(recorder, rule, premises),
    }
}
