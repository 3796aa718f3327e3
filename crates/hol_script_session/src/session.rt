// Sessions: what the commands of a script have stored.
ghost use Rattle.std.specs.Prelude.{◌≡◌, ◌⊎◌, ◌<◌, ◌∷◌, true, List, [], map, length, OnOk, OnErr, IfOk, IfErr, IsErrOf, Contains, string_bytes};
ghost use Rattle.hol_model_sessions.specs.CommandGrammar.{show_command, var_command, def_command, newtype_command, newconst_command};
ghost use Rattle.hol_model.specs.Kernel.Rules.{define_outcome, new_type_outcome, new_const_outcome};
ghost use Rattle.hol_model.specs.Kernel.Outcome.{Answers};
ghost use Rattle.hol_model.specs.Kernel.Theorem.{Theorem};
ghost use Rattle.hol_model.specs.Logic.KnownTerm as logic;
ghost use Rattle.hol_model.specs.Derived.Prelude.{stored_theorems};
ghost use Rattle.hol_model_sessions.specs.Sessions.{start, with_theorem, with_theorems, scope_in};
ghost use Rattle.hol_model.specs.Texts.Reading.{meaning, type_meaning};
ghost use Rattle.hol_model.specs.Texts.TermGrammar.{TermTree};
ghost use Rattle.hol_model.specs.Texts.TypeGrammar.{TypeTree, type_steps};
ghost use Rattle.hol_model.specs.declared.fault.Fault.TheVariants.{Memory, TooLong};
ghost use Rattle.hol_syntax_grammar.specs.Steps.{flat_steps_of};
ghost use Rattle.hol_syntax_grammar.specs.TermSteps.{term_steps, flat_steps};
ghost use Rattle.hol_syntax_grammar.specs.Views.{steps_of};
ghost use Rattle.hol_script_session.specs.Answers.{no_tools, plainly, TestsName, IsNewName, PerformsWith};
ghost use Rattle.hol_prelude.specs.Prelude.{prelude_theorems};
ghost use Rattle.hol_journal.specs.Journal.{IsMade};
ghost use Rattle.hol_journal_log.specs.LogAccepted.{log_claim};
ghost use Rattle.hol_journal_log.specs.Pruning.{HaveIdentifiers};
ghost use Rattle.hol_script_session.specs.Growth.{IsRefused, Defines, Stores, KeepsSession};
ghost use Rattle.hol_script_session.specs.Beginning.{logical_state, AreStoredTheorems, StoresNumbered};
ghost use Rattle.hol_theorem_store.specs.Store.{stored_of};
ghost use Rattle.hol_script_session.specs.SessionState.{state_of, lemmas_of, IsSession, IsLaterLibrary, StaysMade};
ghost use Rattle.hol_script_session.specs.StoredClaims.{stored_claims, IsAcceptedLog, IsLongLog};

use crate::beginning::{STORED, logical_scope};
use crate::growth::libraries_grow;
use crate::known::knows_type;
use crate::lines::{TheoremLine, definition_line, definition_name, is_theorem_name, theorem_line};
use crate::reply::Printed;
use crate::stored_claims::claims;
use hol_journal::{Rec, journals_grow};
use hol_journal_log::log_text;
use hol_model::Fault;
use hol_prelude::theorem_of;
use hol_sound::sound;
use hol_syntax::{Scope, build_type, term_of_steps};
use hol_syntax_grammar::{TermStep, TypeStep};
use hol_terms::Term;
use hol_theorem_library::Library;
use hol_types::Ty;
use std::alloc::Global;

/// A library, which is a theory with its journal and the stored theorems, and what the names of texts stand for.
#[derive(Drop)]
pub struct Session {
    pub library: Library,
    pub scope: Scope,
}

impl Session {
    /// The session in which a script begins: the logical constants are defined, and the theorems of the prelude stored.
    pub fn new(alloc: Global) -> Result<Session, Fault>
        ensures ok { IfOk result (λ session. state_of session ≡ start) }
        ensures is_session { IfOk result IsSession }
        ensures lemmas { IfOk result (λ session. lemmas_of session ≡ []) }
        ensures err { IfErr result (λ fault. fault ≡ Memory) }
    {
        let mut session = Session::with_logic(alloc)?;
        session.store_all(alloc, &STORED)?;
        Ok(session)
    }

    // The logical constants, and no stored theorems.
    #[tactic(auto, using(crate::proofs::BeginningLemmas::logical_over, crate::proofs::ProvedStores::proved_none, crate::proofs::ProvedStores::no_lemmas))]
    fn with_logic(alloc: Global) -> Result<Session, Fault>
        ensures ok { IfOk result (λ session. state_of session ≡ logical_state) }
        ensures is_session { IfOk result IsSession }
        ensures lemmas { IfOk result (λ session. lemmas_of session ≡ []) }
        ensures err { IfErr result (λ fault. fault ≡ Memory) }
    {
        let scope = logical_scope(alloc)?;
        let library = Library::new(alloc)?;
        library.recorder.theory_is_legal();
        Ok(Session { library, scope })
    }

    // Stores the theorems of a table, which are those of the prelude.
    fn store_all(&mut self, alloc: Global, table: &[(&str, usize)]) -> Result<(), Fault>
        requires session { IsSession self.old }
        requires table { AreStoredTheorems table.now stored_theorems }
        ensures ok { OnOk result (state_of self.new ≡ with_theorems (state_of self.old) stored_theorems) }
        ensures err { IfErr result (λ fault. fault ≡ Memory) }
        ensures kept { IsSession self.new }
        ensures lemmas { lemmas_of self.new ≡ lemmas_of self.old }
    {
        for at in 0..table.len() {
            let stored = &table[at];
            self.store_numbered(alloc, stored.0, stored.1)?;
        }
        Ok(())
    }

    // Stores the theorem of this number among those of the prelude.
    fn store_numbered(&mut self, alloc: Global, name: &str, number: usize) -> Result<(), Fault>
        requires session { IsSession self.old }
        requires number { number < length prelude_theorems }
        ensures ok { OnOk result (StoresNumbered (state_of self.old) (state_of self.new) name.now number) }
        ensures err { IfErr result (λ fault. fault ≡ Memory) }
        ensures kept { IsSession self.new }
        ensures lemmas { lemmas_of self.new ≡ lemmas_of self.old }
    {
        let theorem = theorem_of(&self.library.recorder, &self.library.logic, number).copy(alloc)?;
        self.store(alloc, name, theorem)
    }

    /// Whether a theorem may have this name. Refused: BadName, where the name ends in `_def`, which belongs to definitions;
    /// NameTaken.
    pub fn test_name(&self, name: &str) -> Result<(), Fault>
        ensures { TestsName (state_of self.now) name.now result }
    {
        if !is_theorem_name(name) {
            return Err(Fault::BadName);
        }
        if self.library.store.get(name).is_some() {
            return Err(Fault::NameTaken);
        }
        Ok(())
    }

    /// Stores and prints a theorem under a new name. Refused, where nothing changes: Memory.
    pub fn keep(&mut self, alloc: Global, name: &str, theorem: Rec) -> Result<Printed, Fault>
        requires session { IsSession self.old }
        requires made { IsMade self.old.library.recorder theorem }
        requires named { IsNewName (state_of self.old) name.now }
        ensures ok { IfOk result (Stores self.old self.new name.now theorem.theorem) }
        ensures err { OnErr result (state_of self.new ≡ state_of self.old) }
        ensures memory { IfErr result (λ fault. fault ≡ Memory) }
        ensures kept { IsSession self.new }
        ensures lemmas { lemmas_of self.new ≡ lemmas_of self.old }
        ensures stays { StaysMade self.old self.new }
        ensures later { IsLaterLibrary (state_of self.old) (state_of self.new) }
    {
        sound();
        let thm = self.library.recorder.thm(&theorem);
        thm.well_formed();
        let line = theorem_line(alloc, &self.scope, name, thm)?;
        self.store(alloc, name, theorem)?;
        Ok(Printed::Line(line))
    }

    // Stores a theorem. A refusal changes nothing.
    fn store(&mut self, alloc: Global, name: &str, theorem: Rec) -> Result<(), Fault>
        requires session { IsSession self.old }
        requires made { IsMade self.old.library.recorder theorem }
        ensures ok { OnOk result (state_of self.new ≡ with_theorem (state_of self.old) name.now theorem.theorem) }
        ensures err { OnErr result (state_of self.new ≡ state_of self.old) }
        ensures memory { IfErr result (λ fault. fault ≡ Memory) }
        ensures kept { IsSession self.new }
        ensures lemmas { lemmas_of self.new ≡ lemmas_of self.old }
        ensures recorder { self.new.library.recorder ≡ self.old.library.recorder }
    {
        let key = String::from_str(alloc, name)?;
        self.library.store.room()?;
        self.library.recorder.thm(&theorem).well_formed();
        self.library.store.put_made(key, theorem);
        Ok(())
    }

    /// `show NAME`: prints a stored theorem again.
    pub fn show(&self, alloc: Global, name: &str) -> Result<Printed, Fault>
        requires { IsSession self.now }
        ensures { (lemmas : List Theorem) → PerformsWith no_tools lemmas (state_of self.now) (show_command name.now) (plainly result) (state_of self.now) }
    {
        let Some(theorem) = self.library.store.get(name) else {
            return Err(Fault::UnknownName);
        };
        sound();
        let thm = self.library.recorder.thm(theorem);
        thm.well_formed();
        let line = theorem_line(alloc, &self.scope, name, thm)?;
        Ok(Printed::Line(line))
    }

    /// `var NAME : type`: declares a variable for bare names, in place of an earlier one. A refusal changes nothing.
    pub fn var(&mut self, alloc: Global, name: &str, steps: &[TypeStep]) -> Result<Printed, Fault>
        requires { IsSession self.old }
        ensures performs { (lemmas : List Theorem) (tree : TypeTree) → steps_of steps.now ≡ type_steps tree
            → PerformsWith no_tools lemmas (state_of self.old) (var_command name.now tree) (plainly result) (state_of self.new) }
        ensures kept { IsSession self.new }
        ensures lemmas { lemmas_of self.new ≡ lemmas_of self.old }
        ensures stays { StaysMade self.old self.new }
        ensures later { IsLaterLibrary (state_of self.old) (state_of self.new) }
    {
        let ty = self.ty(alloc, steps)?;
        self.scope.set_var(alloc, name, &ty)?;
        Ok(Printed::Nothing)
    }

    /// `def NAME = t`: defines a constant, and stores and prints the theorem as `NAME_def`. A refusal changes nothing.
    pub fn def(&mut self, alloc: Global, name: &str, steps: &[TermStep]) -> Result<Printed, Fault>
        requires { IsSession self.old }
        ensures performs { (lemmas : List Theorem) (tree : TermTree) → flat_steps_of steps.now ≡ flat_steps (term_steps tree)
            → PerformsWith no_tools lemmas (state_of self.old) (def_command name.now tree) (plainly result) (state_of self.new) }
        ensures kept { IsSession self.new }
        ensures lemmas { lemmas_of self.new ≡ lemmas_of self.old }
        ensures stays { StaysMade self.old self.new }
        ensures later { IsLaterLibrary (state_of self.old) (state_of self.new) }
    {
        let term = self.term(alloc, steps)?;
        match self.scope.add_const(alloc, name, term.ty()) {
            Ok(()) => {}
            Err(Fault::NameTaken) => return Err(self.refusal_of_definition(alloc, name, &term)),
            Err(_) => return Err(Fault::Memory),
        }
        sound();
        libraries_grow();
        match self.define(alloc, name, &term) {
            Ok(line) => Ok(Printed::Line(line)),
            Err(fault) => {
                self.scope.remove_const(name);
                Err(fault)
            }
        }
    }

    /// `newtype NAME`: declares a type. A refusal changes nothing.
    pub fn newtype(&mut self, alloc: Global, name: &str) -> Result<Printed, Fault>
        requires { IsSession self.old }
        ensures performs { (lemmas : List Theorem) → PerformsWith no_tools lemmas (state_of self.old) (newtype_command name.now) (plainly result) (state_of self.new) }
        ensures kept { IsSession self.new }
        ensures lemmas { lemmas_of self.new ≡ lemmas_of self.old }
        ensures stays { StaysMade self.old self.new }
        ensures later { IsLaterLibrary (state_of self.old) (state_of self.new) }
    {
        match self.scope.add_type(alloc, name) {
            Ok(()) => {}
            Err(Fault::NameTaken) => return Err(self.refusal_of_type(alloc, name)),
            Err(_) => return Err(Fault::Memory),
        }
        libraries_grow();
        match self.library.recorder.new_type(name) {
            Ok(()) => Ok(Printed::Nothing),
            Err(fault) => {
                self.scope.remove_type(name);
                Err(fault)
            }
        }
    }

    /// `newconst NAME : type`: declares a constant. A refusal changes nothing.
    pub fn newconst(
        &mut self,
        alloc: Global,
        name: &str,
        steps: &[TypeStep],
    ) -> Result<Printed, Fault>
        requires { IsSession self.old }
        ensures performs { (lemmas : List Theorem) (tree : TypeTree) → steps_of steps.now ≡ type_steps tree
            → PerformsWith no_tools lemmas (state_of self.old) (newconst_command name.now tree) (plainly result) (state_of self.new) }
        ensures kept { IsSession self.new }
        ensures lemmas { lemmas_of self.new ≡ lemmas_of self.old }
        ensures stays { StaysMade self.old self.new }
        ensures later { IsLaterLibrary (state_of self.old) (state_of self.new) }
    {
        let ty = self.ty(alloc, steps)?;
        match self.scope.add_const(alloc, name, &ty) {
            Ok(()) => {}
            Err(Fault::NameTaken) => return Err(self.refusal_of_const(alloc, name, &ty)),
            Err(_) => return Err(Fault::Memory),
        }
        libraries_grow();
        match self.library.recorder.new_const(name, &ty) {
            Ok(()) => Ok(Printed::Nothing),
            Err(fault) => {
                self.scope.remove_const(name);
                Err(fault)
            }
        }
    }

    /// The text of the log of the theorems that are stored under these names, with a claim for each. Refusals: Memory,
    /// and TooLong, where the text would be longer than the limit on texts.
    pub fn log_text<'a>(&'a self, alloc: Global, names: &'a [String]) -> Result<Vec<u8>, Fault>
        requires session { IsSession self.now }
        requires named { HaveIdentifiers (stored_claims ((stored_of self.now.library.store).theorems) (map string_bytes names.now)) }
        ensures ok { IfOk result (λ text. IsAcceptedLog self.now.library.recorder
            (map log_claim (stored_claims ((stored_of self.now.library.store).theorems) (map string_bytes names.now))) text.items) }
        ensures too_long { IsErrOf result TooLong → IsLongLog self.now.library.recorder (map log_claim (stored_claims ((stored_of self.now.library.store).theorems) (map string_bytes names.now))) }
        ensures refusals { IfErr result (Contains (TooLong ∷ Memory ∷ [])) }
    {
        let _entry = self.library.recorder.stored(0);
        match claims(alloc, &self.library.store, names) {
            Ok(claims) => log_text(&self.library.recorder, &claims),
            Err(fault) => Err(fault),
        }
    }

    /// The term of a quoted argument.
    pub fn term(&self, alloc: Global, steps: &[TermStep]) -> Result<Term, Fault>
        requires { IsSession self.now }
        ensures { (tree : TermTree) → flat_steps_of steps.now ≡ flat_steps (term_steps tree)
            → Answers result (meaning (scope_in (state_of self.now)) [] tree) }
    {
        term_of_steps(alloc, &self.scope, steps)
    }

    /// The term of a quoted argument, tested as the kernel's rules test theirs. What a text is read as passes the test.
    pub fn known_term(&self, alloc: Global, steps: &[TermStep]) -> Result<Term, Fault>
        requires { IsSession self.now }
        ensures reads { (tree : TermTree) → flat_steps_of steps.now ≡ flat_steps (term_steps tree)
            → Answers result (meaning (scope_in (state_of self.now)) [] tree) }
        ensures known { IfOk result (λ term. logic.is_known self.now.library.recorder.theory term ≡ true) }
    {
        let term = self.term(alloc, steps)?;
        match self.library.recorder.theory().first_unknown(&term) {
            None => Ok(term),
            Some(fault) => Err(fault),
        }
    }

    /// The type of a command's argument, tested as the kernel tests types. What a text is read as passes the test.
    pub fn ty(&self, alloc: Global, steps: &[TypeStep]) -> Result<Ty, Fault>
        requires { IsSession self.now }
        ensures reads { (tree : TypeTree) → steps_of steps.now ≡ type_steps tree → Answers result (type_meaning (scope_in (state_of self.now)) tree) }
        ensures known { IfOk result (λ ty. logic.knows_type self.now.library.recorder.theory ty ≡ true) }
    {
        let ty = build_type(alloc, &self.scope, steps)?;
        if !knows_type(self.library.recorder.theory(), &ty) {
            return Err(Fault::UnknownType);
        }
        Ok(ty)
    }

    // Defines a constant that the scope has, stores the theorem and answers its line. A refusal changes nothing.
    fn define(&mut self, alloc: Global, name: &str, term: &Term) -> Result<TheoremLine, Fault>
        ensures ok { IfOk result (Defines self.old self.new name.now term.now) }
        ensures kept { OnErr result (KeepsSession self.old self.new) }
        ensures err { IfErr result (λ fault. (fault ≡ Memory) ⊎ (define_outcome self.old.library.recorder.theory name.now term.now ≡ Err fault)) }
    {
        let key = definition_name(alloc, name)?;
        let Some(line) = definition_line(alloc, &self.scope, name, key.as_str(), term)? else {
            return Err(self.refusal_of_definition(alloc, name, term));
        };
        self.library.store.room()?;
        journals_grow();
        let theorem = self.library.recorder.define(name, term)?;
        self.library.recorder.thm(&theorem).well_formed();
        self.library.store.put_made(key, theorem);
        Ok(line)
    }

    // The refusal of a definition that the theory does not accept.
    fn refusal_of_definition(&mut self, alloc: Global, name: &str, term: &Term) -> Fault
        requires { IsRefused (define_outcome self.old.library.recorder.theory name.now term.now) }
        ensures fault { (result ≡ Memory) ⊎ (define_outcome self.old.library.recorder.theory name.now term.now ≡ Err result) }
        ensures kept { self.new ≡ self.old }
    {
        match self.library.recorder.define(name, term) {
            Ok(_) => unreachable!(),
            Err(fault) => fault,
        }
    }

    // The refusal of a type that the theory does not accept.
    fn refusal_of_type(&mut self, alloc: Global, name: &str) -> Fault
        requires { IsRefused (new_type_outcome self.old.library.recorder.theory name.now) }
        ensures fault { (result ≡ Memory) ⊎ (new_type_outcome self.old.library.recorder.theory name.now ≡ Err result) }
        ensures kept { self.new ≡ self.old }
    {
        match self.library.recorder.new_type(name) {
            Ok(()) => unreachable!(),
            Err(fault) => fault,
        }
    }

    // The refusal of a constant that the theory does not accept.
    fn refusal_of_const(&mut self, alloc: Global, name: &str, ty: &Ty) -> Fault
        requires { IsRefused (new_const_outcome self.old.library.recorder.theory name.now ty.now) }
        ensures fault { (result ≡ Memory) ⊎ (new_const_outcome self.old.library.recorder.theory name.now ty.now ≡ Err result) }
        ensures kept { self.new ≡ self.old }
    {
        match self.library.recorder.new_const(name, ty) {
            Ok(()) => unreachable!(),
            Err(fault) => fault,
        }
    }
}
