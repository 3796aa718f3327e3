// The state of a log that is read line by line.
ghost use Rattle.std.specs.Prelude.{◌≡◌, length, IfOk, IfErr};
ghost use Rattle.hol_model.specs.declared.fault.Fault.TheVariants.{Memory};
ghost use Rattle.hol_model.specs.Logs.LogState.{first_state};
ghost use Rattle.hol_logtext.specs.Lines.{version_of};
ghost use Rattle.hol_check_rules.specs.State.{state_of, IsContents};

use crate::start::first_known;
use hol_check_rules::state::Contents;
use hol_check_terms::terms::Terms;
use hol_logtext::Version;
use hol_model::Fault;
use indexmap::IndexMap;
use std::alloc::Global;
use std::marker::Model;

/// What the lines of a log have given so far, with the tables of the types and terms in it.
#[derive(Drop)]
pub struct Log {
    pub table: Terms,
    pub contents: Contents,
}

impl Model for Log {
    ghost use Rattle.hol_model.specs.Logs.LogState.{LogState};
    ghost use Rattle.hol_check_lines.specs.LogCode.{log_code};

    ghost Value = { LogState };

    ghost coded = { log_code };

    ghost use Rattle.hol_check_lines.specs.Log.{viewed_log, IsLog};

    ghost view = { viewed_log };

    ghost invariant = { IsLog };
}

impl Log {
    /// The state after the header.
    #[tactic(auto, using(crate::proofs::StartLemmas::none_written, crate::proofs::StartLemmas::none_made))]
    pub fn new(alloc: Global, version: Version) -> Result<Log, Fault>
        ensures log { IfOk result (λ log. log ≡ first_state (version_of version)) }
        ensures refused { IfErr result (λ fault. fault ≡ Memory) }
    {
        let mut table = Terms::new(alloc);
        let known = first_known(&mut table)?;
        let contents = Contents {
            version,
            types: Vec::new(alloc),
            terms: Vec::new(alloc),
            made: IndexMap::new(alloc),
            theorems: Vec::new(alloc),
            entries: Vec::new(alloc),
            known,
            claims: Vec::new(alloc),
            is_ended: false,
        };
        Ok(Log { table, contents })
    }

    /// Whether the last line was read.
    pub fn is_ended(&self) -> bool
        ensures { result ≡ self.now.is_ended }
    {
        self.contents.is_ended
    }

    /// The tables, and what the lines have given.
    pub fn parts(&self) -> (&Terms, &Contents)
        ensures state { self.now ≡ state_of result.0.now result.1.now }
        ensures kept { IsContents result.0.now result.1.now }
    {
        (&self.table, &self.contents)
    }

    /// The number of claims.
    pub fn claims(&self) -> usize
        ensures { result ≡ length self.now.claims }
    {
        self.contents.claims.len()
    }
}
