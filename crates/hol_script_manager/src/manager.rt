// What the commands of goals do, and what the other commands leave of a proof under way.
ghost use Rattle.std.specs.Prelude.{◌≡◌, ℕ, List, [], ◌∷◌, map, IfOk, IfErr, IsErrOf, OnOk, OnErr, Ok, Contains, string_bytes};
ghost use Rattle.hol_model.specs.declared.fault.Fault.TheVariants.{Memory, TooLong};
ghost use Rattle.hol_model.specs.Texts.TermGrammar.{TermTree};
ghost use Rattle.hol_model.specs.Texts.Lexing.{numeral_value};
ghost use Rattle.hol_syntax_grammar.specs.Steps.{flat_steps_of};
ghost use Rattle.hol_syntax_grammar.specs.TermSteps.{term_steps, flat_steps};
ghost use Rattle.hol_model_sessions.specs.CommandGrammar.{CommandTree, show_command, goal_command, e_command, b_command, p_command, r_command, save_command};
ghost use Rattle.hol_model_sessions.specs.ScriptSessions.{start};
ghost use Rattle.hol_script_inference.specs.Sessions.{Performs, no_tools, plainly, Says, IsAcceptedLog, IsLongLog};
ghost use Rattle.hol_script_inference.specs.Answers.{session_tools};
ghost use Rattle.hol_script_commands.specs.Views.{IsCommand};
ghost use Rattle.hol_tactic_grammar.specs.Tactics.{IsExpression};
ghost use Rattle.hol_tactic_grammar.specs.Reading.{IsOfTree};
ghost use Rattle.hol_model_sessions.specs.TacticGrammar.{Tactic};
ghost use Rattle.hol_journal_log.specs.LogAccepted.{log_claim};
ghost use Rattle.hol_journal_log.specs.Pruning.{HaveIdentifiers};
ghost use Rattle.hol_script_manager.specs.Commands.{IsCommandOfTree};
ghost use Rattle.hol_script_manager.specs.Managers.{state_of, journal_of, claims_of, IsManager, ShowsGoals, IsUndone, Forgets};

use crate::goal_texts::{goals_are_well_formed, text_of_goals, text_of_only_goal};
use crate::prover::Prover;
use hol_goals::Stack;
use hol_host::Refiners;
use hol_model::{Fault, STEPS_LIMIT};
use hol_script_commands::command::Command;
use hol_script_inference::{Printed, Refused, Session, plainly, thm};
use hol_sound::sound;
use hol_syntax::term_of_steps;
use hol_syntax_grammar::TermStep;
use hol_tactic_exprs::{Fuel, Tac};
use hol_tactic_grammar::read_tactic;
use std::alloc::Global;

/// A session, and the proof of a goal under way.
#[derive(Drop)]
pub struct Manager {
    prover: Prover,
    stack: Stack,
}

impl Manager {
    /// Where a script begins: the session's beginning, and no goal.
    pub fn new(alloc: Global) -> Result<Manager, Fault>
        ensures ok { IfOk result (λ manager. state_of manager ≡ start) }
        ensures kept { IfOk result IsManager }
        ensures err { IfErr result (λ fault. fault ≡ Memory) }
    {
        let session = Session::new(alloc)?;
        Ok(Manager {
            prover: Prover { session },
            stack: Stack::new(),
        })
    }

    /// Lets go of the entries that a log is written from; `log_text` finds no memory then. No contract sees a change.
    pub fn forget_journal(&mut self)
        ensures { self.new ≡ self.old }
    {
        self.prover.session.library.recorder.forget();
    }

    // The answer that shows the open goals. Refused: Memory.
    fn shown(&self, alloc: Global) -> Result<Printed, Fault>
        requires { IsManager self.now }
        ensures ok { IfOk result (ShowsGoals (state_of self.now)) }
        ensures err { IfErr result (λ fault. fault ≡ Memory) }
    {
        // Laws, for the proof that what is shown is told by its text: of the theorem that proves the goal, and of the open goals.
        sound();
        match self.stack.top_thm() {
            Ok(theorem) => self
                .prover
                .session
                .library
                .recorder
                .thm(theorem)
                .well_formed(),
            Err(_) => {}
        }
        let goals = self.stack.open_goals();
        goals_are_well_formed(goals);
        let text = text_of_goals(alloc, &self.prover.session.scope, goals)?;
        Ok(Printed::Goals(text))
    }

    /// `goal "p"` (HOL Light's `g`): sets a goal without assumptions, in place of the one before, and shows it. Refused, where
    /// nothing changes: as the term is; as `Stack::set`.
    fn goal(&mut self, alloc: Global, steps: &[TermStep<'_>]) -> Result<Printed, Fault>
        requires { IsManager self.old }
        ensures performs { (tree : TermTree) → flat_steps_of steps.now ≡ flat_steps (term_steps tree)
            → Performs no_tools (state_of self.old) (goal_command tree) (Says (plainly result)) (state_of self.new) }
        ensures kept { IsManager self.new }
    {
        let session = &mut self.prover.session;
        let term = term_of_steps(alloc, &session.scope, steps)?;
        let text = text_of_only_goal(alloc, &session.scope, &term)?;
        term.well_formed();
        term.well_named();
        self.stack.set(alloc, &session.library.recorder, &term)?;
        session.library.store.clear_lemmas();
        Ok(Printed::Goals(text))
    }

    // Forgets the lemmas behind the first ones, so many, and then keeps no entry of a rule from a number on, which they alone
    // cite.
    fn forget(&mut self, lemmas: usize, entries: usize)
        ensures { Forgets self.old self.new lemmas }
    {
        self.prover.session.library.store.keep_lemmas(lemmas);
        self.prover.session.library.recorder.give_back(entries);
    }

    /// `e` (HOL Light's `e`): refines the first open goal by an expression, and shows the goals that are open then. It may spend
    /// as many steps as one command may (`STEPS_LIMIT`). Refused, where nothing changes: as the first quoted term that is; as
    /// `Stack::expand`.
    fn expand<H: Refiners>(
        &mut self,
        alloc: Global,
        host: &H,
        tac: &Tac<Vec<TermStep<'_>>>,
    ) -> Result<Printed, Fault>
        requires manager { IsManager self.old }
        requires expression { IsOfTree tac.now }
        ensures performs { (tree : Tactic TermTree) → IsExpression tac.now tree
            → Performs (session_tools (H.refiners host.now) (H.conversions host.now)) (state_of self.old) (e_command tree) (Says (plainly result)) (state_of self.new) }
        ensures kept { IsManager self.new }
    {
        let tac = read_tactic(alloc, &self.prover.session.scope, tac)?;
        let lemmas = self.prover.session.library.store.lemma_count();
        let entries = self.prover.session.library.recorder.entries();
        let mut fuel = Fuel::new(STEPS_LIMIT);
        match self
            .stack
            .expand(alloc, &mut self.prover, &tac, host, &mut fuel)
        {
            Ok(_told) => {}
            Err(fault) => {
                self.forget(lemmas, entries);
                return Err(fault);
            }
        }
        match self.shown_or_undone(alloc) {
            Ok(printed) => Ok(printed),
            Err(fault) => {
                self.forget(lemmas, entries);
                Err(fault)
            }
        }
    }

    /// `b` (HOL Light's `b`): takes the last change of the proof back, and shows the goals that are open then. Refused, where
    /// nothing changes: NoGoal, NothingToUndo; Memory.
    fn back(&mut self, alloc: Global) -> Result<Printed, Fault>
        requires { IsManager self.old }
        ensures performs { Performs no_tools (state_of self.old) b_command (Says (plainly result)) (state_of self.new) }
        ensures kept { IsManager self.new }
    {
        self.stack.back()?;
        self.shown_or_undone(alloc)
    }

    // The answer that shows the open goals behind a change, which is undone where there is no memory.
    fn shown_or_undone(&mut self, alloc: Global) -> Result<Printed, Fault>
        requires { IsManager self.old }
        ensures ok { IfOk result (ShowsGoals (state_of self.old)) }
        ensures same { OnOk result (self.new ≡ self.old) }
        ensures undone { OnErr result (IsUndone self.old self.new) }
        ensures err { IfErr result (λ fault. fault ≡ Memory) }
        ensures kept { IsManager self.new }
    {
        match self.shown(alloc) {
            Ok(printed) => Ok(printed),
            Err(fault) => {
                self.stack.revert();
                Err(fault)
            }
        }
    }

    /// `p` (HOL Light's `p`): shows the open goals. Refused: NoGoal where none is set; Memory.
    pub fn print(&self, alloc: Global) -> Result<Printed, Fault>
        requires { IsManager self.now }
        ensures { Performs no_tools (state_of self.now) p_command (Says (plainly result)) (state_of self.now) }
    {
        if !self.stack.is_set() {
            return Err(Fault::NoGoal);
        }
        self.shown(alloc)
    }

    /// `r n` (HOL Light's `r`): moves the first open goal behind the others, n times, and shows the goals. Refused, where nothing
    /// changes: NoGoal; Memory.
    fn rotate(&mut self, alloc: Global, turns: u32) -> Result<Printed, Fault>
        requires { IsManager self.old }
        ensures performs { (digits : List ℕ) → numeral_value digits ≡ turns
            → Performs no_tools (state_of self.old) (r_command digits) (Says (plainly result)) (state_of self.new) }
        ensures kept { IsManager self.new }
    {
        self.stack.rotate(alloc, turns)?;
        self.shown_or_undone(alloc)
    }

    /// `save NAME`: stores and prints the theorem of the goal. Refused, where nothing changes: BadName, NameTaken, NoGoal,
    /// GoalsRemain; Memory.
    fn save(&mut self, alloc: Global, name: &str) -> Result<Printed, Fault>
        requires { IsManager self.old }
        ensures performs { Performs no_tools (state_of self.old) (save_command name.now) (Says (plainly result)) (state_of self.new) }
        ensures kept { IsManager self.new }
    {
        self.prover.session.test_name(name)?;
        let theorem = self.stack.top_thm()?.copy(alloc)?;
        self.prover.session.keep(alloc, name, theorem)
    }

    /// `show NAME`: prints a stored theorem again (`Session::show`).
    pub fn show(&self, alloc: Global, name: &str) -> Result<Printed, Fault>
        requires { IsManager self.now }
        ensures { Performs no_tools (state_of self.now) (show_command name.now) (Says (plainly result)) (state_of self.now) }
    {
        self.prover.session.show(alloc, name)
    }

    /// Carries out a command, which may call a host's functions: what it prints, or a refusal, which changes nothing. `thm`,
    /// `show`, `var`, `def`, `newtype` and `newconst` are the session's.
    pub fn perform<H: Refiners>(
        &mut self,
        alloc: Global,
        host: &H,
        command: Command<'_>,
    ) -> Result<Printed, Refused>
        requires manager { IsManager self.old }
        requires tree { IsCommandOfTree command }
        ensures performs { (tree : CommandTree) → IsCommand command.entry tree
            → Performs (session_tools (H.refiners host.now) (H.conversions host.now)) (state_of self.old) tree (Says result) (state_of self.new) }
        ensures kept { IsManager self.new }
    {
        match command {
            Command::Thm(name, asked) => {
                thm(&mut self.prover.session, alloc, host, name, &asked)
            }
            Command::Show(name) => plainly(self.show(alloc, name)),
            Command::Var(name, ty) => plainly(self.prover.session.var(alloc, name, &ty)),
            Command::Def(name, term) => plainly(self.prover.session.def(alloc, name, &term)),
            Command::NewType(name) => plainly(self.prover.session.newtype(alloc, name)),
            Command::NewConst(name, ty) => plainly(self.prover.session.newconst(alloc, name, &ty)),
            Command::Goal(term) => plainly(self.goal(alloc, &term)),
            Command::Expand(tac) => plainly(self.expand(alloc, host, &tac)),
            Command::Back => plainly(self.back(alloc)),
            Command::Print => plainly(self.print(alloc)),
            Command::Rotate(turns) => plainly(self.rotate(alloc, turns)),
            Command::Save(name) => plainly(self.save(alloc, name)),
        }
    }

    /// The text of the log of the theorems that are stored under these names, with a claim for each (`Session::log_text`).
    /// Refusals: Memory, and TooLong, where the text would be longer than the limit on texts.
    pub fn log_text<'a>(&'a self, alloc: Global, names: &'a [String]) -> Result<Vec<u8>, Fault>
        requires manager { IsManager self.now }
        requires named { HaveIdentifiers (claims_of self.now (map string_bytes names.now)) }
        ensures ok { IfOk result (λ text. IsAcceptedLog (journal_of self.now) (map log_claim (claims_of self.now (map string_bytes names.now))) text.items) }
        ensures too_long { IsErrOf result TooLong → IsLongLog (journal_of self.now) (map log_claim (claims_of self.now (map string_bytes names.now))) }
        ensures refusals { IfErr result (Contains (TooLong ∷ Memory ∷ [])) }
    {
        self.prover.session.log_text(alloc, names)
    }
}
