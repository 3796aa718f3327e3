// The theorems of the prelude and the laws among them, table by table.
ghost use Rattle.std.specs.Prelude.{◌≡◌, [], ◌++◌, IfOk};
ghost use Rattle.hol_journal.specs.Growth.{IsGrown};
ghost use Rattle.hol_prelude_derivations.specs.Derivations.{AreMade};
ghost use Rattle.hol_prelude.specs.Prelude.{first_theorems, disjunction_theorems, case_theorems, existence_theorems, axiom_theorems, middle_theorems, conjunction_theorems};
ghost use Rattle.hol_prelude.specs.Stages.{MakesTheorems};
ghost use Rattle.hol_prelude.specs.Laws.{laws, falsity_laws, decider_laws};

use crate::tables::{
    AXIOMS, CASES, CONJUNCTION, DECIDER_LAWS, DISJUNCTION, EXISTENCE, FALSITY_LAWS, FIRST_THEOREMS,
    LAWS, MIDDLE,
};
use hol_journal::{Rec, Recorder};
use hol_model::Fault;
use hol_prelude_derivations::making::{make_first, make_table};

// The definitions, TRUTH and the theorems of the first connectives.
fn first(recorder: &mut Recorder) -> Result<Vec<Rec>, Fault>
    requires new { recorder.old.theory ≡ [] }
    ensures outcome { MakesTheorems first_theorems recorder.new.theory result }
    ensures made { IfOk result (λ all. AreMade recorder.new all.items) }
    ensures grown { IsGrown recorder.old recorder.new }
{
    make_first(recorder, &FIRST_THEOREMS)
}

// The theorems, and the laws that the later tables cite.
fn with_laws(recorder: &mut Recorder) -> Result<Vec<Rec>, Fault>
    requires new { recorder.old.theory ≡ [] }
    ensures outcome { MakesTheorems (first_theorems ++ laws) recorder.new.theory result }
    ensures made { IfOk result (λ all. AreMade recorder.new all.items) }
    ensures grown { IsGrown recorder.old recorder.new }
{
    let earlier = first(recorder)?;
    make_table(recorder, earlier, &LAWS)
}

// The theorems, and the laws of falsity.
fn with_falsity(recorder: &mut Recorder) -> Result<Vec<Rec>, Fault>
    requires new { recorder.old.theory ≡ [] }
    ensures outcome { MakesTheorems (first_theorems ++ laws ++ falsity_laws) recorder.new.theory result }
    ensures made { IfOk result (λ all. AreMade recorder.new all.items) }
    ensures grown { IsGrown recorder.old recorder.new }
{
    let earlier = with_laws(recorder)?;
    make_table(recorder, earlier, &FALSITY_LAWS)
}

// The theorems, and the laws of the formula that is chosen for `p \/ ~p`.
fn with_decider(recorder: &mut Recorder) -> Result<Vec<Rec>, Fault>
    requires new { recorder.old.theory ≡ [] }
    ensures outcome { MakesTheorems (first_theorems ++ laws ++ falsity_laws ++ decider_laws) recorder.new.theory result }
    ensures made { IfOk result (λ all. AreMade recorder.new all.items) }
    ensures grown { IsGrown recorder.old recorder.new }
{
    let earlier = with_falsity(recorder)?;
    make_table(recorder, earlier, &DECIDER_LAWS)
}

// The theorems, and DISJ1.
fn with_disjunction(recorder: &mut Recorder) -> Result<Vec<Rec>, Fault>
    requires new { recorder.old.theory ≡ [] }
    ensures outcome { MakesTheorems (first_theorems ++ laws ++ falsity_laws ++ decider_laws ++ disjunction_theorems) recorder.new.theory result }
    ensures made { IfOk result (λ all. AreMade recorder.new all.items) }
    ensures grown { IsGrown recorder.old recorder.new }
{
    let earlier = with_decider(recorder)?;
    make_table(recorder, earlier, &DISJUNCTION)
}

// The theorems, and DISJ2 and DISJ_CASES.
fn with_cases(recorder: &mut Recorder) -> Result<Vec<Rec>, Fault>
    requires new { recorder.old.theory ≡ [] }
    ensures outcome { MakesTheorems (first_theorems ++ laws ++ falsity_laws ++ decider_laws ++ disjunction_theorems ++ case_theorems) recorder.new.theory result }
    ensures made { IfOk result (λ all. AreMade recorder.new all.items) }
    ensures grown { IsGrown recorder.old recorder.new }
{
    let earlier = with_disjunction(recorder)?;
    make_table(recorder, earlier, &CASES)
}

// The theorems, and EXISTS.
fn with_existence(recorder: &mut Recorder) -> Result<Vec<Rec>, Fault>
    requires new { recorder.old.theory ≡ [] }
    ensures outcome { MakesTheorems (first_theorems ++ laws ++ falsity_laws ++ decider_laws ++ disjunction_theorems ++ case_theorems ++ existence_theorems) recorder.new.theory result }
    ensures made { IfOk result (λ all. AreMade recorder.new all.items) }
    ensures grown { IsGrown recorder.old recorder.new }
{
    let earlier = with_cases(recorder)?;
    make_table(recorder, earlier, &EXISTENCE)
}

// The theorems, and CHOOSE, ETA_AX and SELECT_AX.
fn with_axioms(recorder: &mut Recorder) -> Result<Vec<Rec>, Fault>
    requires new { recorder.old.theory ≡ [] }
    ensures outcome { MakesTheorems (first_theorems ++ laws ++ falsity_laws ++ decider_laws ++ disjunction_theorems ++ case_theorems
        ++ existence_theorems ++ axiom_theorems) recorder.new.theory result }
    ensures made { IfOk result (λ all. AreMade recorder.new all.items) }
    ensures grown { IsGrown recorder.old recorder.new }
{
    let earlier = with_existence(recorder)?;
    make_table(recorder, earlier, &AXIOMS)
}

// The theorems, and EXCLUDED_MIDDLE.
fn with_middle(recorder: &mut Recorder) -> Result<Vec<Rec>, Fault>
    requires new { recorder.old.theory ≡ [] }
    ensures outcome { MakesTheorems (first_theorems ++ laws ++ falsity_laws ++ decider_laws ++ disjunction_theorems ++ case_theorems
        ++ existence_theorems ++ axiom_theorems ++ middle_theorems) recorder.new.theory result }
    ensures made { IfOk result (λ all. AreMade recorder.new all.items) }
    ensures grown { IsGrown recorder.old recorder.new }
{
    let earlier = with_axioms(recorder)?;
    make_table(recorder, earlier, &MIDDLE)
}

/// All theorems, the laws among them.
pub(crate) fn with_conjunction(recorder: &mut Recorder) -> Result<Vec<Rec>, Fault>
    requires new { recorder.old.theory ≡ [] }
    ensures outcome { MakesTheorems (first_theorems ++ laws ++ falsity_laws ++ decider_laws ++ disjunction_theorems ++ case_theorems
        ++ existence_theorems ++ axiom_theorems ++ middle_theorems ++ conjunction_theorems) recorder.new.theory result }
    ensures made { IfOk result (λ all. AreMade recorder.new all.items) }
    ensures grown { IsGrown recorder.old recorder.new }
{
    let earlier = with_middle(recorder)?;
    make_table(recorder, earlier, &CONJUNCTION)
}
