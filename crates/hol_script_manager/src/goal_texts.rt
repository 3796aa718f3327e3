// The texts of open goals.
ghost use Rattle.std.specs.Prelude.{◌≡◌, ◌++◌, ◌∷◌, [], true, IsTrue, OnOk, IfOk, IfErr, string_bytes};
ghost use Rattle.std.specs.List.{list_all};
ghost use Rattle.hol_model.specs.Terms.NamedTerm.{is_within_limits};
ghost use Rattle.hol_model.specs.Terms.WellNamed.{is_well_named};
ghost use Rattle.hol_model.specs.declared.fault.Fault.TheVariants.{Memory};
ghost use Rattle.hol_model.specs.Texts.Texts as texts;
ghost use Rattle.hol_model_sessions.specs.Replies as replies;
ghost use Rattle.hol_syntax.specs.Scope.{scope_of};
ghost use Rattle.hol_just.specs.Steps.{goals_of};
ghost use Rattle.hol_model.specs.Goals.GoalStates.{goal_of as goal_of_term};
ghost use Rattle.hol_script_manager.specs.GoalTexts.{count_said, line_of_goal, is_well_formed};

use hol_just::Goal;
use hol_model::Fault;
use hol_syntax::Scope;
use hol_syntax_print::text_of_goal;
use hol_terms::Term;
use itoa::Buffer;
use std::alloc::Global;

// Puts how many goals are open at the end of a text.
fn push_count(count: usize, out: &mut String) -> Result<(), Fault>
    ensures ok { OnOk result (string_bytes out.new ≡ string_bytes out.old ++ count_said count) }
    ensures err { IfErr result (λ fault. fault ≡ Memory) }
{
    if count == 0 {
        out.push_str("No subgoals\n")?;
    } else if count == 1 {
        out.push_str("1 subgoal\n")?;
    } else {
        let mut digits = Buffer::new();
        out.push_str(digits.format(count))?;
        out.push_str(" subgoals\n")?;
    }
    Ok(())
}

// Puts a goal's line at the end of a text.
fn push_goal(alloc: Global, scope: &Scope, goal: &Goal, out: &mut String) -> Result<(), Fault>
    ensures ok { OnOk result (string_bytes out.new ≡ string_bytes out.old ++ line_of_goal (scope_of scope.now) goal.now) }
    ensures err { IfErr result (λ fault. fault ≡ Memory) }
{
    let text = text_of_goal(alloc, scope, &goal.asms, &goal.concl)?;
    out.push_str(text.as_str())?;
    out.push_str("\n")?;
    Ok(())
}

// Puts a line for each goal at the end of a text.
fn push_goals(alloc: Global, scope: &Scope, goals: &[Goal], out: &mut String) -> Result<(), Fault>
    ensures ok { OnOk result (string_bytes out.new ≡ string_bytes out.old ++ replies.goals_text (scope_of scope.now) (goals_of goals.now)) }
    ensures err { IfErr result (λ fault. fault ≡ Memory) }
{
    for goal in goals {
        push_goal(alloc, scope, goal, out)?;
    }
    Ok(())
}

fn terms_are_well_formed(terms: &[Term])
    ensures within_limits { list_all is_within_limits terms.now ≡ true }
    ensures well_named { list_all is_well_named terms.now ≡ true }
{
    for term in terms {
        term.well_formed();
        term.well_named();
    }
}

fn goal_is_well_formed(goal: &Goal)
    ensures { IsTrue (is_well_formed goal.now) }
{
    goal.concl.well_formed();
    goal.concl.well_named();
    terms_are_well_formed(&goal.asms);
}

/// Each term of the goals is within the limits, and each name in it is of its kind. Nothing is computed: the clause is the law,
/// for callers' proofs.
pub(crate) fn goals_are_well_formed(goals: &[Goal])
    ensures { list_all is_well_formed goals.now ≡ true }
{
    for goal in goals {
        goal_is_well_formed(goal);
    }
}

/// `No subgoals`, or how many goals are open and a line for each, in order. Refused: Memory.
pub(crate) fn text_of_goals(alloc: Global, scope: &Scope, goals: &[Goal]) -> Result<String, Fault>
    ensures ok { IfOk result (λ text. string_bytes text ≡ replies.text_of_goals (scope_of scope.now) (goals_of goals.now)) }
    ensures err { IfErr result (λ fault. fault ≡ Memory) }
{
    let mut text = String::new(alloc);
    push_count(goals.len(), &mut text)?;
    push_goals(alloc, scope, goals, &mut text)?;
    Ok(text)
}

/// The text of one goal without assumptions. Refused: Memory.
pub(crate) fn text_of_only_goal(alloc: Global, scope: &Scope, concl: &Term) -> Result<String, Fault>
    ensures ok { IfOk result (λ text. string_bytes text ≡ replies.text_of_goals (scope_of scope.now) (goal_of_term concl.now ∷ [])) }
    ensures err { IfErr result (λ fault. fault ≡ Memory) }
{
    let text = text_of_goal(alloc, scope, &[], concl)?;
    let mut out = String::from_str(alloc, "1 subgoal\n")?;
    out.push_str(text.as_str())?;
    out.push_str("\n")?;
    Ok(out)
}
