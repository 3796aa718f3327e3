// REDEPTH_CONV: a term converted from the inside out, as long as there is something to convert.

use crate::basic::{basic, beta_conv};
use crate::changed::{Conversion, abs, combined, trans};
use crate::rules::{Rewrite, first_instance};
use hol_host::HostFail;
use hol_subst::variant;
use hol_tactics_forms::with_value;
use hol_terms::Term;
use std::alloc::Global;

// How deep a term is gone into, and how often a part is converted again; how many conversions of a part there are in all.
const DEPTH: u32 = 400;

const CONVERSIONS: u32 = 2000;

/// What a part of a term is converted by.
#[derive(Drop)]
pub(crate) struct Redepth {
    rules: Vec<Rewrite>,
    // Whether basic rewrites are used too.
    is_basic: bool,
    // The variables that are free in hypotheses: no rule puts anything for them, and no binder may bind them.
    fixed: Vec<Term>,
    left: u32,
}

impl Redepth {
    /// BETA_CONV.
    pub(crate) fn by_beta(alloc: Global) -> Redepth {
        Redepth {
            rules: Vec::new(alloc),
            is_basic: false,
            fixed: Vec::new(alloc),
            left: CONVERSIONS,
        }
    }

    /// These rules, whose hypotheses have no other free variables, the basic rewrites and BETA_CONV.
    pub(crate) fn by_rules(rules: Vec<Rewrite>, fixed: Vec<Term>) -> Redepth {
        Redepth {
            rules,
            is_basic: true,
            fixed,
            left: CONVERSIONS,
        }
    }

    /// The term in which no part can be converted, unless it is the term itself. It fails past 2,000 conversions.
    pub(crate) fn convert(&mut self, alloc: Global, term: &Term) -> Conversion {
        self.converted(alloc, term, DEPTH)
    }

    // The parts converted, and then the whole, again and again.
    #[cycle(converting)]
    fn converted(&mut self, alloc: Global, term: &Term, depth: u32) -> Conversion {
        if depth == 0 {
            return Err(HostFail::Failed);
        }
        match self.parts_converted(alloc, term, depth - 1)? {
            Some(inner) => {
                let behind = self.whole_converted(alloc, &inner.term, depth - 1)?;
                trans(alloc, inner, behind)
            }
            None => self.whole_converted(alloc, term, depth - 1),
        }
    }

    // The term converted as a whole, and what it becomes converted again.
    #[cycle(converting)]
    fn whole_converted(&mut self, alloc: Global, term: &Term, depth: u32) -> Conversion {
        let Some(made) = self.first_counted(alloc, term)? else {
            return Ok(None);
        };
        let behind = self.converted(alloc, &made.term, depth)?;
        trans(alloc, made, behind)
    }

    // The parts converted, unless nothing changes.
    #[cycle(converting)]
    fn parts_converted(&mut self, alloc: Global, term: &Term, depth: u32) -> Conversion {
        if let Some((variable, body)) = term.dest_abs() {
            return self.body_converted(alloc, variable, body, depth);
        }
        match term.dest_comb() {
            Some((function, argument)) => {
                self.operands_converted(alloc, function, argument, depth)
            }
            None => Ok(None),
        }
    }

    // The abstraction of a converted body, of a variable that is free in no hypothesis.
    #[cycle(converting)]
    fn body_converted(
        &mut self,
        alloc: Global,
        variable: &Term,
        body: &Term,
        depth: u32,
    ) -> Conversion {
        let other = variant(alloc, &self.fixed, variable)?;
        let body = with_value(alloc, &other, variable, body)?;
        match self.converted(alloc, &body, depth)? {
            Some(changed) => abs(alloc, &other, changed),
            None => Ok(None),
        }
    }

    // A function and its argument, converted.
    #[cycle(converting)]
    fn operands_converted(
        &mut self,
        alloc: Global,
        function: &Term,
        argument: &Term,
        depth: u32,
    ) -> Conversion {
        let left = self.converted(alloc, function, depth)?;
        let right = self.converted(alloc, argument, depth)?;
        combined(alloc, function, left, argument, right)
    }

    // The term by the first conversion of it as a whole, which is counted.
    fn first_counted(&mut self, alloc: Global, term: &Term) -> Conversion {
        let changed = self.first_conversion(alloc, term)?;
        if changed.is_some() {
            self.count()?;
        }
        Ok(changed)
    }

    // Counts a conversion.
    fn count(&mut self) -> Result<(), HostFail> {
        if self.left == 0 {
            return Err(HostFail::Failed);
        }
        self.left -= 1;
        Ok(())
    }

    // The term by the first rule that it is an instance of, or by a clause.
    fn first_conversion(&self, alloc: Global, term: &Term) -> Conversion {
        match first_instance(alloc, &self.rules, &self.fixed, term)? {
            None => self.first_clause(alloc, term),
            changed => Ok(changed),
        }
    }

    // The term by a basic rewrite, where these are used, or by BETA_CONV.
    fn first_clause(&self, alloc: Global, term: &Term) -> Conversion {
        if self.is_basic {
            if let Some(changed) = basic(alloc, term)? {
                return Ok(Some(changed));
            }
        }
        beta_conv(alloc, term)
    }
}
