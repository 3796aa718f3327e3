//! What the commands of a script may answer, and laws over it.
//!
//! Each function is a law: it does nothing, and its clause is the law's statement, for callers' proofs.
#![tactic(auto)]

ghost use Rattle.hol_model.specs.Refining.HostFunctions.{Host};
ghost use Rattle.hol_model_sessions.specs.ScriptSessions.{Tools};
ghost use Rattle.hol_laws_sessions.specs.ToolLaws.{ToolsRefineValidly, ExpansionsSpend};
ghost use Rattle.hol_laws_sessions.specs.RunLaws.{RunsBegin, BlanksPass, TurnsPass, RunsEnd, RunsEndUnfinished, StoppedRunsBegin, TurnsAdd};
ghost use Rattle.hol_laws_sessions.specs.Examples.{ExpressionsAreSpelled, GoalsAreKept, TextsAreSaid};
ghost use Rattle.hol_laws_sessions.specs.ReadTerms.{ReadTermsAreKnown, VariablesStayKnown, ScopesAreOver};
ghost use Rattle.hol_laws_sessions.specs.ValidSessions.{TurnsKeepValid, ExpansionsAreRefused};
ghost use Rattle.hol_laws_sessions.specs.UniqueReadings.{QuotesAreUnambiguous, ConversionsAreUnambiguous, TacticsAreUnambiguous, PartsAreUnambiguous, CommandsAreUnambiguous};
ghost use Rattle.hol_laws_sessions.specs.HeadlineLaws.{NoLineIsFalsity, RefusalsAreNoTheorems, GoalsAreNoTheorems, TheoremsAreSeen, ToldLinesAreLines, WrittenLinesAreTold, RunsAreTold, RunsAreWalked, WalksAreTold};
ghost use Rattle.hol_laws_sessions.specs.SessionLaws.{MayLackMemory, RefusalsChangeNothing, TheoriesStayLegal, TheoriesGrow, PrintedTheoremsAreProved, NoSubgoalsMeansProved, PrintedTheoremsStay, SequentsSuffice};

use hol_sound::consistent;

/// What refiners, conversions, the decision of tautologies and replays may answer.
pub trait Toolbox {
    ghost tools: { Tools };
}

/// Each of the commands that are left may find no memory; a text behind the last `;;` is refused as it is.
pub fn may_lack_memory<T: Toolbox>()
    ensures { MayLackMemory T.tools }
{}

/// A refusal leaves the state.
pub fn refusals_change_nothing<T: Toolbox>()
    ensures { RefusalsChangeNothing T.tools }
{}

/// Each turn leads from a legal theory to a legal theory.
pub fn theories_stay_legal<T: Toolbox>()
    ensures { TheoriesStayLegal T.tools }
{}

/// A theory only grows.
pub fn theories_grow<T: Toolbox>()
    ensures { TheoriesGrow T.tools }
{}

/// Each theorem that is printed is proved, and its text is read as its sequent.
pub fn printed_theorems_are_proved<T: Toolbox>()
    ensures { PrintedTheoremsAreProved T.tools }
{}

/// Where no subgoals are told, the goal that was set is proved.
pub fn no_subgoals_means_proved<T: Toolbox>()
    ensures { NoSubgoalsMeansProved T.tools }
{}

/// A run begins with its whole script left.
pub fn runs_begin<T: Toolbox>()
    ensures { RunsBegin T.tools }
{}

/// A blank piece asks for nothing.
pub fn blanks_pass<T: Toolbox>()
    ensures { BlanksPass T.tools }
{}

/// A piece that is not blank is one turn.
pub fn turns_pass<T: Toolbox>()
    ensures { TurnsPass T.tools }
{}

/// A run ends where nothing stands behind the last `;;`.
pub fn runs_end<T: Toolbox>()
    ensures { RunsEnd T.tools }
{}

/// A text behind the last `;;` is one more turn.
pub fn runs_end_unfinished<T: Toolbox>()
    ensures { RunsEndUnfinished T.tools }
{}

/// Wherever a run stops, its turns are the first of a run.
pub fn stopped_runs_begin<T: Toolbox>()
    ensures { StoppedRunsBegin T.tools }
{}

/// What is seen of turns is seen of one after another.
pub fn turns_add()
    ensures { TurnsAdd }
{}

/// The name of each theorem that is printed is an identifier, and stands for that theorem at the end.
pub fn printed_theorems_stay<T: Toolbox>()
    ensures { PrintedTheoremsStay T.tools }
{}

/// Expressions as they are spelled.
pub fn expressions_are_spelled()
    ensures { ExpressionsAreSpelled }
{}

/// Goals as they are rotated and taken back.
pub fn goals_are_kept()
    ensures { GoalsAreKept }
{}

/// Goals and refusals as they are printed.
pub fn texts_are_said()
    ensures { TextsAreSaid }
{}

/// Tokens begin with one conversion.
pub fn conversions_are_unambiguous()
    ensures { ConversionsAreUnambiguous }
{}

/// Tokens are one refiner expression's.
pub fn tactics_are_unambiguous()
    ensures { QuotesAreUnambiguous → TacticsAreUnambiguous }
{}

/// A text is one command's, or none's.
pub fn commands_are_unambiguous()
    ensures { PartsAreUnambiguous → CommandsAreUnambiguous }
{}

/// Each turn keeps the proof under way sound, where refiners answer valid steps.
pub fn turns_keep_valid<T: Toolbox>()
    ensures { TurnsKeepValid T.tools }
{}

/// No closing replay refuses `e` but for memory or size, where refiners answer valid steps.
pub fn expansions_are_refused<T: Toolbox>()
    ensures { ExpansionsAreRefused T.tools }
{}

/// A term that is read has a type, and each type and constant in it is known.
pub fn read_terms_are_known()
    ensures { ReadTermsAreKnown }
{}

/// Each turn keeps the types of declared variables known.
pub fn variables_stay_known<T: Toolbox>()
    ensures { VariablesStayKnown T.tools }
{}

/// A state's scope is one over its theory, where declared variables have known types.
pub fn scopes_are_over()
    ensures { ScopesAreOver }
{}

/// A host with refiners and conversions.
pub trait Hosted {
    ghost host: { Host };
}

/// Refiners answer valid steps in a session, whatever a host's functions answer.
pub fn tools_refine_validly<H: Hosted>()
    ensures { ToolsRefineValidly H.host }
{}

/// An expansion has cost a step, and leaves further lemmas alone.
pub fn expansions_spend<H: Hosted>()
    ensures { ExpansionsSpend H.host }
{}

/// A stored theorem needs no theory beside its sequent: it is one over each later state of the theory.
pub fn sequents_suffice()
    ensures { SequentsSuffice }
{}

/// No line of a script's output tells falsity without hypotheses.
pub fn no_line_is_falsity()
    ensures { NoLineIsFalsity }
{
    consistent();
}

/// No line that tells a refusal begins as a theorem's.
pub fn refusals_are_no_theorems()
    ensures { RefusalsAreNoTheorems }
{}

/// No line that tells a goal, how many are open, or that none is, begins as a theorem's.
pub fn goals_are_no_theorems()
    ensures { GoalsAreNoTheorems }
{}

/// A line of a script's output is a theorem's exactly where it begins with an identifier, a colon and a space.
pub fn lines_that_begin_so_are_theorems()
    ensures { TheoremsAreSeen }
{}

/// Each line that a script's output tells ends in its one line feed, so that the output is cut into these lines.
pub fn told_lines_are_lines()
    ensures { ToldLinesAreLines }
{}

/// Each line that a run wrote whole is told over a theory that the script declares.
pub fn written_lines_are_told()
    ensures { WrittenLinesAreTold }
{}

/// What a run writes is told by the pieces of its script, in lines of theorems, of refusals and of goals.
pub fn runs_are_told<T: Toolbox>()
    ensures { RunsAreTold T.tools }
{}

/// What a run writes is told piece by piece: the answer to each piece speaks of what the pieces up to it declare, and of the goal
/// that was set last.
pub fn runs_walk<T: Toolbox>()
    ensures { RunsAreWalked T.tools }
{}

/// What is told piece by piece is told line by line.
pub fn walks_are_told()
    ensures { WalksAreTold }
{}
