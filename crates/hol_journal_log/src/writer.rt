// The lines of a log, as they are written.
ghost use Rattle.std.specs.Prelude.{◌≡◌, ◌≤◌, ◌<◌, ◌+◌, length, List, [], ◌∷◌, ◌++◌, nat_eq, map, Some, slice_get, IfOk, IfErr, IsErrOf, IfSome, OnOk, IsTrue, IsFalse, Contains};
ghost use Rattle.std.specs.List.{list_any};
ghost use Rattle.hol_model.specs.Terms.HolType.{bool_type};
ghost use Rattle.hol_model.specs.Logic.Logic.{unary, binary};
ghost use Rattle.hol_model.specs.Terms.NamedTerm.{NamedTerm};
ghost use Rattle.hol_model.specs.Logs.LogLine.{LogLine};
ghost use Rattle.hol_model.specs.Logs.LogLine.LogLine.{declared_type_line, constant_line, theorem_line};
ghost use Rattle.hol_model.specs.declared.fault.Fault.TheVariants.{Memory, TooLong};
ghost use Rattle.hol_logtext.specs.Lines.{line_of, rule_of};
ghost use Rattle.hol_logtext.specs.LogBytes.{bytes_of_lines};
ghost use Rattle.hol_journal.specs.Steps.{JournalEntry, both_parts};
ghost use Rattle.hol_journal.specs.Views.{step_of, entry_of};
ghost use Rattle.hol_journal_log.specs.LogWriting as log;
ghost use Rattle.hol_journal_log.specs.LogWriting.{Written, Claimed, nothing_written, number_of_entry, with_line, closed};
ghost use Rattle.hol_model.specs.Terms.NamedTerm.{variable, constant};
ghost use Rattle.hol_model.specs.Terms.Name.{is_identifier, is_declared_type_name, is_constant_name};
ghost use Rattle.hol_journal_log.specs.LogAccepted.{has_name};
ghost use Rattle.hol_journal_log.specs.Marking.{Notes};
ghost use Rattle.hol_journal_log.specs.WrittenNames.{name_in_line, names_in_lines, names_written};
ghost use Rattle.hol_journal_log.specs.Writing.{KeepsNames, StandBelow, write_marked, AreTypesWritten, AreTermsWritten, IsStepWritten, IsTypeLineWritten, IsTermLineWritten, IsTypeWritten, IsTermWritten};
ghost use Rattle.hol_journal_log.specs.Claims.{claims_of};
ghost use Rattle.hol_journal_log.specs.Writer.{line_of_type, line_of_term, written};

use crate::claim::Claim;
use crate::connectives::is_binary;
use crate::hints::Hints;
use crate::lines::{TermLine, TypeLine};
use crate::needed::Names;
use crate::numbers::{TheoremNumbers, number};
use hol_journal::Recorder;
use hol_journal::entry::{Entry, Rule};
use hol_kernel::Thm;
use hol_logtext::{Line, LogWriter, Rule as LogRule};
use hol_model::{Fault, TEXT_BYTES_LIMIT};
use hol_terms::{Parts, Term};
use hol_types::{Ty, TypeParts};
use indexmap::IndexSet;
use std::alloc::Global;
use std::mem::replace;

// For how many bytes of the text there is to be room at first, for each entry.
const BYTES_OF_ENTRY: usize = 32;

/// The lines of a log so far. The places of types, terms and theorems are their numbers.
#[derive(Drop)]
pub(crate) struct Writer<'a> {
    types: IndexSet<TypeLine<'a>>,
    terms: IndexSet<TermLine<'a>>,
    theorems: TheoremNumbers,
    log: LogWriter,
    // Names that no marked entry introduces, and whether one of them is written.
    missing: Names<'a>,
    is_missing: bool,
    // Hints, tested where they are used: numbers of terms under their marks, of the type of connectives, and of the last claim's hypotheses.
    hints: Hints,
    connective: u32,
    hypotheses: Vec<u32>,
}

impl<'a> Writer<'a> {
    /// Nothing is written, but the header. There is room for the lines of so many entries.
    pub(crate) fn new(
        alloc: Global,
        missing: Names<'a>,
        entries: usize,
    ) -> Result<Writer<'a>, Fault>
        ensures ok { IfOk result (λ writer. written writer ≡ nothing_written) }
        ensures err { IfErr result (λ fault. fault ≡ Memory) }
    {
        let bytes = entries.saturating_mul(BYTES_OF_ENTRY).min(TEXT_BYTES_LIMIT);
        Ok(Writer {
            types: IndexSet::new(alloc),
            terms: IndexSet::with_capacity(alloc, entries)?,
            theorems: TheoremNumbers::new(alloc),
            log: LogWriter::new(alloc, bytes)?,
            missing,
            is_missing: false,
            hints: Hints::new(alloc)?,
            connective: 0,
            hypotheses: Vec::new(alloc),
        })
    }

    // Puts the line of a type, unless it is there.
    fn put_type(&mut self, line: TypeLine<'a>) -> Result<u32, Fault>
        requires { IsTrue (has_name (line_of_type line)) }
        ensures ok { IfOk result (IsTypeLineWritten (written self.old) (written self.new) (line_of_type line.entry)) }
        ensures named { OnOk result (KeepsNames (written self.old) (written self.new)) }
        ensures err { IfErr result (λ fault. fault ≡ Memory) }
    {
        let (place, is_new) = self.types.insert_full(line)?;
        if !is_new {
            return number(place);
        }
        self.log.write(&line.line())?;
        number(place)
    }

    // Puts the line of a term, unless it is there.
    fn put_term(&mut self, line: TermLine<'a>) -> Result<u32, Fault>
        requires { IsTrue (has_name (line_of_term line)) }
        ensures ok { IfOk result (IsTermLineWritten (written self.old) (written self.new) (line_of_term line.entry)) }
        ensures named { OnOk result (KeepsNames (written self.old) (written self.new)) }
        ensures err { IfErr result (λ fault. fault ≡ Memory) }
    {
        let (place, is_new) = self.terms.insert_full(line)?;
        if !is_new {
            return number(place);
        }
        self.log.write(&line.line())?;
        number(place)
    }

    // Writes a type. The first type, mostly `bool`, is tried at once.
    fn type_number(&mut self, ty: &'a Ty) -> Result<u32, Fault>
        ensures ok { IfOk result (IsTypeWritten (written self.old) (written self.new) ty.now) }
        ensures named { OnOk result (KeepsNames (written self.old) (written self.new)) }
        ensures err { IfErr result (λ fault. fault ≡ Memory) }
    {
        if self.has_type(0, ty) {
            return Ok(0);
        }
        match ty.parts() {
            TypeParts::Variable(name) => self.put_type(TypeLine::Variable(name)),
            TypeParts::Bool => self.put_type(TypeLine::Bool),
            TypeParts::Function(domain, codomain) => {
                let domain = self.type_number(domain)?;
                let codomain = self.type_number(codomain)?;
                self.put_type(TypeLine::Function(domain, codomain))
            }
            TypeParts::Declared(name) => self.put_declared(name),
        }
    }

    // Puts the line of a declared type, and looks whether its name is missing.
    fn put_declared(&mut self, name: &'a str) -> Result<u32, Fault>
        requires { IsTrue (is_declared_type_name name.now) }
        ensures ok { IfOk result (IsTypeLineWritten (written self.old) (written self.new) (declared_type_line name.now)) }
        ensures named { OnOk result (KeepsNames (written self.old) (written self.new)) }
        ensures err { IfErr result (λ fault. fault ≡ Memory) }
    {
        self.look_for(name);
        self.put_type(TypeLine::Declared(name))
    }

    // Puts the line of a constant of a type that has a number. It looks whether the name is missing, and whether that is the type of connectives.
    fn put_constant(&mut self, name: &'a str, ty: u32) -> Result<u32, Fault>
        requires { IsTrue (is_constant_name name.now) }
        ensures ok { IfOk result (IsTermLineWritten (written self.old) (written self.new) (constant_line name.now ty)) }
        ensures named { OnOk result (KeepsNames (written self.old) (written self.new)) }
        ensures err { IfErr result (λ fault. fault ≡ Memory) }
    {
        self.look_for(name);
        self.look_at_type(ty);
        self.put_term(TermLine::Constant(name, ty))
    }

    // Looks whether a name is missing.
    fn look_for(&mut self, name: &str)
        ensures { written self.new ≡ written self.old }
    {
        if self.missing.contains(name) {
            self.is_missing = true;
        }
    }

    // Looks whether the type of connectives is written under a number.
    fn look_at_type(&mut self, number: u32)
        ensures { written self.new ≡ written self.old }
    {
        if self.is_binary_at(number) {
            self.connective = number;
        }
    }

    // The line of a type that has a number.
    fn type_line(&self, number: u32) -> Option<TypeLine<'a>>
        ensures { IfSome result (λ line. IsTypeLineWritten (written self.now) (written self.now) (line_of_type line) number) }
    {
        let _distinct = self.types.len();
        match self.types.get_index(number as usize) {
            Some(line) => Some(*line),
            None => None,
        }
    }

    // The line of a term that has a number.
    fn term_line(&self, number: u32) -> Option<TermLine<'a>>
        ensures { IfSome result (λ line. IsTermLineWritten (written self.now) (written self.now) (line_of_term line) number) }
    {
        let _distinct = self.terms.len();
        match self.terms.get_index(number as usize) {
            Some(line) => Some(*line),
            None => None,
        }
    }

    // Whether `bool` is written under a number.
    fn is_bool_at(&self, number: u32) -> bool
        ensures { IsTrue result → IsTypeWritten (written self.now) (written self.now) bool_type number }
    {
        matches!(self.type_line(number), Some(TypeLine::Bool))
    }

    // Whether a type is written under a number.
    #[cycle(has_type)]
    fn is_type_at(&self, number: u32, ty: &Ty) -> bool
        ensures { IsTrue result → IsTypeWritten (written self.now) (written self.now) ty.now number }
    {
        let Some(line) = self.type_line(number) else {
            return false;
        };
        match (line, ty.parts()) {
            (TypeLine::Variable(written), TypeParts::Variable(name)) => written == name,
            (TypeLine::Bool, TypeParts::Bool) => true,
            (TypeLine::Function(first, second), TypeParts::Function(domain, codomain)) => {
                self.has_type(first, domain) && self.has_type(second, codomain)
            }
            (TypeLine::Declared(written), TypeParts::Declared(name)) => written == name,
            _ => false,
        }
    }

    // The same. Nothing is called for the type `bool`.
    #[cycle(has_type)]
    fn has_type(&self, number: u32, ty: &Ty) -> bool
        ensures { IsTrue result → IsTypeWritten (written self.now) (written self.now) ty.now number }
    {
        if ty.is_bool() {
            return self.is_bool_at(number);
        }
        self.is_type_at(number, ty)
    }

    // Whether the type of connectives of one formula is written under a number.
    fn is_unary_at(&self, number: u32) -> bool
        ensures { IsTrue result → IsTypeWritten (written self.now) (written self.now) unary number }
    {
        match self.type_line(number) {
            Some(TypeLine::Function(first, second)) => {
                self.is_bool_at(first) && self.is_bool_at(second)
            }
            _ => false,
        }
    }

    // Whether the type of connectives of two formulas is written under a number.
    fn is_binary_at(&self, number: u32) -> bool
        ensures { IsTrue result → IsTypeWritten (written self.now) (written self.now) binary number }
    {
        match self.type_line(number) {
            Some(TypeLine::Function(first, second)) => {
                self.is_bool_at(first) && self.is_unary_at(second)
            }
            _ => false,
        }
    }

    // Whether a type is written under a number, where that of connectives is known.
    fn has_constant_type(&self, connective: Option<u32>, number: u32, ty: &Ty) -> bool
        requires { IfSome connective (IsTypeWritten (written self.now) (written self.now) binary) }
        ensures { IsTrue result → IsTypeWritten (written self.now) (written self.now) ty.now number }
    {
        if let Some(known) = connective {
            if known == number && is_binary(ty) {
                return true;
            }
        }
        self.has_type(number, ty)
    }

    // Whether a variable is written under a number.
    fn is_variable_at(&self, number: u32, name: &str, ty: &Ty) -> bool
        ensures { IsTrue result → IsTermWritten (written self.now) (written self.now) (variable name.now ty.now) number }
    {
        match self.term_line(number) {
            Some(TermLine::Variable(written, of)) => written == name && self.has_type(of, ty),
            _ => false,
        }
    }

    // Whether a constant is written under a number.
    fn is_constant_at(&self, connective: Option<u32>, number: u32, name: &str, ty: &Ty) -> bool
        requires { IfSome connective (IsTypeWritten (written self.now) (written self.now) binary) }
        ensures { IsTrue result → IsTermWritten (written self.now) (written self.now) (constant name.now ty.now) number }
    {
        match self.term_line(number) {
            Some(TermLine::Constant(written, of)) => {
                written == name && self.has_constant_type(connective, of, ty)
            }
            _ => false,
        }
    }

    // The same, where the number of the type of connectives is known. Of a function and its argument, a variable or a constant is looked at first, and
    // the walk goes on with the other one alone.
    fn is_term_at(&self, connective: Option<u32>, number: u32, term: &Term) -> bool
        requires { IfSome connective (IsTypeWritten (written self.now) (written self.now) binary) }
        ensures { IsTrue result → IsTermWritten (written self.now) (written self.now) term.now number }
    {
        match term.parts() {
            Parts::Variable(name, ty) => self.is_variable_at(number, name, ty),
            Parts::Constant(name, ty) => self.is_constant_at(connective, number, name, ty),
            Parts::Combination(function, argument) => match self.term_line(number) {
                Some(TermLine::Combination(first, second)) => match (
                    function.parts(),
                    argument.parts(),
                ) {
                    (_, Parts::Variable(name, ty)) => {
                        self.is_variable_at(second, name, ty)
                            && self.is_term_at(connective, first, function)
                    }
                    (Parts::Constant(name, ty), _) => {
                        self.is_constant_at(connective, first, name, ty)
                            && self.is_term_at(connective, second, argument)
                    }
                    _ => {
                        self.is_term_at(connective, first, function)
                            && self.is_term_at(connective, second, argument)
                    }
                },
                _ => false,
            },
            Parts::Abstraction(name, ty, body) => match self.term_line(number) {
                Some(TermLine::Abstraction(first, second)) => {
                    self.is_variable_at(first, name, ty)
                        && self.is_term_at(connective, second, body)
                }
                _ => false,
            },
        }
    }

    // The number of the type of connectives, for a term in which one may stand.
    fn connective_in(&self, term: &Term) -> Option<u32>
        ensures { IfSome result (IsTypeWritten (written self.now) (written self.now) binary) }
    {
        if term.nodes() > 1 && self.is_binary_at(self.connective) {
            Some(self.connective)
        } else {
            None
        }
    }

    // Whether a term is written under a number.
    fn is_written_at(&self, number: u32, term: &Term) -> bool
        ensures { IsTrue result → IsTermWritten (written self.now) (written self.now) term.now number }
    {
        self.is_term_at(self.connective_in(term), number, term)
    }

    // The number of a term that is known to be written.
    fn known_number(&self, term: &Term) -> Option<u32>
        ensures { IfSome result (IsTermWritten (written self.now) (written self.now) term.now) }
    {
        let hint = self.hints.get(term.mark())?;
        if self.is_written_at(hint, term) {
            Some(hint)
        } else {
            None
        }
    }

    // The number of a term, where it is the next of some numbers, or the one behind that. The place moves behind it.
    fn number_among(&self, numbers: &[u32], place: &mut usize, term: &Term) -> Option<u32>
        ensures { IfSome result (IsTermWritten (written self.now) (written self.now) term.now) }
    {
        for ahead in 0..2 {
            let at = place.wrapping_add(ahead);
            let number = *numbers.get(at)?;
            if self.is_written_at(number, term) {
                *place = at.wrapping_add(1);
                return Some(number);
            }
        }
        None
    }

    // Writes a term, unless it is known to be written.
    #[cycle(term_number)]
    fn term_number(&mut self, term: &'a Term) -> Result<u32, Fault>
        ensures ok { IfOk result (IsTermWritten (written self.old) (written self.new) term.now) }
        ensures named { OnOk result (KeepsNames (written self.old) (written self.new)) }
        ensures err { IfErr result (λ fault. fault ≡ Memory) }
    {
        if let Some(number) = self.known_number(term) {
            return Ok(number);
        }
        let number = self.number_by_parts(term)?;
        self.hints.insert(term.mark(), number)?;
        Ok(number)
    }

    // Writes a term behind its parts.
    #[cycle(term_number)]
    fn number_by_parts(&mut self, term: &'a Term) -> Result<u32, Fault>
        ensures ok { IfOk result (IsTermWritten (written self.old) (written self.new) term.now) }
        ensures named { OnOk result (KeepsNames (written self.old) (written self.new)) }
        ensures err { IfErr result (λ fault. fault ≡ Memory) }
    {
        match term.parts() {
            Parts::Variable(name, ty) => self.variable_number(name, ty),
            Parts::Constant(name, ty) => {
                let ty = self.type_number(ty)?;
                self.put_constant(name, ty)
            }
            Parts::Combination(function, argument) => {
                let function = self.term_number(function)?;
                let argument = self.term_number(argument)?;
                self.put_term(TermLine::Combination(function, argument))
            }
            Parts::Abstraction(name, ty, body) => {
                let binder = self.variable_number(name, ty)?;
                let body = self.term_number(body)?;
                self.put_term(TermLine::Abstraction(binder, body))
            }
        }
    }

    // Writes a variable.
    fn variable_number(&mut self, name: &'a str, ty: &'a Ty) -> Result<u32, Fault>
        requires { IsTrue (is_identifier name.now) }
        ensures ok { IfOk result (IsTermWritten (written self.old) (written self.new) (variable name.now ty.now)) }
        ensures named { OnOk result (KeepsNames (written self.old) (written self.new)) }
        ensures err { IfErr result (λ fault. fault ≡ Memory) }
    {
        let ty = self.type_number(ty)?;
        self.put_term(TermLine::Variable(name, ty))
    }

    // The number of the theorem of an entry.
    fn theorem_number(&self, entry: usize) -> Result<u32, Fault>
        ensures ok { IfOk result (λ number. number ≡ number_of_entry (written self.now) entry) }
        ensures err { IfErr result (λ fault. fault ≡ Memory) }
    {
        number(self.theorems.number(entry))
    }

    // Writes a term, which may be among some numbers from a place on.
    fn term_number_near(
        &mut self,
        numbers: &[u32],
        place: &mut usize,
        term: &'a Term,
    ) -> Result<u32, Fault>
        ensures ok { IfOk result (IsTermWritten (written self.old) (written self.new) term.now) }
        ensures named { OnOk result (KeepsNames (written self.old) (written self.new)) }
        ensures err { IfErr result (λ fault. fault ≡ Memory) }
    {
        if let Some(number) = self.number_among(numbers, place, term) {
            return Ok(number);
        }
        self.term_number(term)
    }

    // Writes terms, from left to right. Many of them may have some numbers, in their order.
    fn term_numbers(
        &mut self,
        terms: &'a [Term],
        known: &[u32],
        numbers: &mut Vec<u32>,
    ) -> Result<(), Fault>
        ensures ok { (old : Written) (before : List NamedTerm) → AreTermsWritten old (written self.old) before numbers.old.items
            → OnOk result (AreTermsWritten old (written self.new) (before ++ terms.now) numbers.new.items) }
        ensures named { OnOk result (KeepsNames (written self.old) (written self.new)) }
        ensures err { IfErr result (λ fault. fault ≡ Memory) }
    {
        let mut place = 0;
        for term in terms {
            let number = self.term_number_near(known, &mut place, term)?;
            numbers.push(number)?;
        }
        Ok(())
    }

    // Takes the numbers of the hypotheses of the last claim.
    fn take_hypotheses(&mut self, alloc: Global) -> Vec<u32>
        ensures { written self.new ≡ written self.old }
    {
        replace(&mut self.hypotheses, Vec::new(alloc))
    }

    // Keeps the numbers of the hypotheses of a claim.
    fn keep_hypotheses(&mut self, numbers: &[u32]) -> Result<(), Fault>
        ensures ok { OnOk result (written self.new ≡ written self.old) }
        ensures err { IfErr result (λ fault. fault ≡ Memory) }
    {
        self.hypotheses.extend_from_slice(numbers)?;
        Ok(())
    }

    // Writes pairs of terms, from left to right.
    fn term_pairs(
        &mut self,
        alloc: Global,
        pairs: &'a [(Term, Term)],
    ) -> Result<Vec<(u32, u32)>, Fault>
        ensures ok { IfOk result (λ numbers. AreTermsWritten (written self.old) (written self.new) (both_parts pairs.now) (both_parts numbers.items)) }
        ensures named { OnOk result (KeepsNames (written self.old) (written self.new)) }
        ensures err { IfErr result (λ fault. fault ≡ Memory) }
    {
        let mut numbers = Vec::new(alloc);
        for pair in pairs {
            let new = self.term_number(&pair.0)?;
            let old = self.term_number(&pair.1)?;
            numbers.push((new, old))?;
        }
        Ok(numbers)
    }

    // Writes pairs of types, from left to right.
    fn type_pairs(&mut self, alloc: Global, pairs: &'a [(Ty, Ty)]) -> Result<Vec<(u32, u32)>, Fault>
        ensures ok { IfOk result (λ numbers. AreTypesWritten (written self.old) (written self.new) (both_parts pairs.now) (both_parts numbers.items)) }
        ensures named { OnOk result (KeepsNames (written self.old) (written self.new)) }
        ensures err { IfErr result (λ fault. fault ≡ Memory) }
    {
        let mut numbers = Vec::new(alloc);
        for pair in pairs {
            let new = self.type_number(&pair.0)?;
            let old = self.type_number(&pair.1)?;
            numbers.push((new, old))?;
        }
        Ok(numbers)
    }

    // The rule of a step over two theorems.
    fn theorem_pair(&self, first: usize, second: usize) -> Result<(u32, u32), Fault>
        ensures ok { IfOk result (λ pair. pair ≡ (number_of_entry (written self.now) first, number_of_entry (written self.now) second)) }
        ensures err { IfErr result (λ fault. fault ≡ Memory) }
    {
        let first = self.theorem_number(first)?;
        let second = self.theorem_number(second)?;
        Ok((first, second))
    }

    // Writes what a step names.
    fn step(&mut self, alloc: Global, rule: &'a Rule) -> Result<LogRule<'a>, Fault>
        ensures ok { IfOk result (λ line. IsStepWritten (written self.old) (written self.new) (step_of rule.now) (rule_of line)) }
        ensures named { OnOk result (KeepsNames (written self.old) (written self.new)) }
        ensures err { IfErr result (λ fault. fault ≡ Memory) }
    {
        match rule {
            Rule::Refl(term) => {
                let term = self.term_number(term)?;
                Ok(LogRule::Refl(term))
            }
            Rule::Trans(first, second) => {
                let (first, second) = self.theorem_pair(*first, *second)?;
                Ok(LogRule::Trans(first, second))
            }
            Rule::MkComb(first, second) => {
                let (first, second) = self.theorem_pair(*first, *second)?;
                Ok(LogRule::MkComb(first, second))
            }
            Rule::Abs(binder, theorem) => {
                let binder = self.term_number(binder)?;
                let theorem = self.theorem_number(*theorem)?;
                Ok(LogRule::Abs(binder, theorem))
            }
            Rule::Beta(term) => {
                let term = self.term_number(term)?;
                Ok(LogRule::Beta(term))
            }
            Rule::Assume(term) => {
                let term = self.term_number(term)?;
                Ok(LogRule::Assume(term))
            }
            Rule::EqMp(first, second) => {
                let (first, second) = self.theorem_pair(*first, *second)?;
                Ok(LogRule::EqMp(first, second))
            }
            Rule::DeductAntisym(first, second) => {
                let (first, second) = self.theorem_pair(*first, *second)?;
                Ok(LogRule::Deduct(first, second))
            }
            Rule::Inst(theorem, pairs) => {
                let theorem = self.theorem_number(*theorem)?;
                let pairs = self.term_pairs(alloc, pairs)?;
                Ok(LogRule::Inst(theorem, pairs))
            }
            Rule::InstType(theorem, pairs) => {
                let theorem = self.theorem_number(*theorem)?;
                let pairs = self.type_pairs(alloc, pairs)?;
                Ok(LogRule::InstType(theorem, pairs))
            }
            Rule::Eta => Ok(LogRule::Eta),
            Rule::Select => Ok(LogRule::Select),
        }
    }

    // Puts the line of the theorem of an entry.
    fn put_theorem(&mut self, entry: usize, line: LogRule<'a>) -> Result<(), Fault>
        requires { IsFalse (list_any (nat_eq entry) (written self.old).theorems) }
        ensures ok { OnOk result (written self.new ≡ record (written self.old)
            { theorems = (written self.old).theorems ++ entry ∷ []; lines = (written self.old).lines ++ theorem_line (rule_of line.entry) ∷ [] }) }
        ensures named { OnOk result (KeepsNames (written self.old) (written self.new)) }
        ensures err { IfErr result (λ fault. fault ≡ Memory) }
    {
        self.log.write(&Line::Theorem(line))?;
        self.theorems.push(entry)
    }

    // Puts a line that is neither that of a type nor that of a term.
    fn put_line(&mut self, line: Line<'a>) -> Result<(), Fault>
        requires { IsTrue (has_name (line_of line)) }
        ensures ok { OnOk result (written self.new ≡ with_line (line_of line.entry) (written self.old)) }
        ensures named { OnOk result (KeepsNames (written self.old) (written self.new)) }
        ensures err { IfErr result (λ fault. fault ≡ Memory) }
    {
        self.log.write(&line)
    }

    // Writes an entry.
    fn write_entry(&mut self, alloc: Global, number: usize, entry: &'a Entry) -> Result<(), Fault>
        requires { IsFalse (list_any (nat_eq number) (written self.old).theorems) }
        ensures ok { OnOk result (written self.new ≡ log.write_entry number (entry_of entry.now) (written self.old)) }
        ensures named { OnOk result (KeepsNames (written self.old) (written self.new)) }
        ensures err { IfErr result (λ fault. fault ≡ Memory) }
    {
        match entry {
            Entry::Derived(rule, _) => {
                let line = self.step(alloc, rule)?;
                self.put_theorem(number, line)
            }
            Entry::Defined(name, term) => {
                let term = self.term_number(term)?;
                self.put_theorem(number, LogRule::Def(name.as_str(), term))
            }
            Entry::DeclaredType(name) => self.put_line(Line::NewType(name.as_str())),
            Entry::DeclaredConstant(name, ty) => {
                let ty = self.type_number(ty)?;
                self.put_line(Line::NewConstant(name.as_str(), ty))
            }
        }
    }

    // Writes a name for the theorem of an entry.
    fn write_claim(
        &mut self,
        alloc: Global,
        name: &'a str,
        theorem: &'a Thm,
        entry: usize,
    ) -> Result<(), Fault>
        ensures ok { let claim : Claimed = record { name = name.now; made = record { theorem = theorem.now; entry = entry } } in
            OnOk result (written self.new ≡ log.write_claim claim (written self.old)) }
        ensures named { OnOk result (KeepsNames (written self.old) (written self.new)) }
        ensures err { IfErr result (λ fault. fault ≡ Memory) }
    {
        let mut hypotheses = Vec::new(alloc);
        let known = self.take_hypotheses(alloc);
        let conclusion = self.term_number(theorem.concl())?;
        self.term_numbers(theorem.hyps(), &known, &mut hypotheses)?;
        self.keep_hypotheses(&hypotheses)?;
        let theorem = self.theorem_number(entry)?;
        self.put_line(Line::Claim(name, theorem, conclusion, hypotheses))
    }

    /// Writes the marked entries. Refusal: Memory, also where one of them is not kept.
    pub(crate) fn write_entries(
        &mut self,
        alloc: Global,
        recorder: &'a Recorder,
        marks: &[bool],
    ) -> Result<(), Fault>
        requires begun { written self.old ≡ nothing_written }
        requires one_each { length marks.now ≡ length recorder.now.entries }
        ensures ok { OnOk result (written self.new ≡ log.write_entries 0 recorder.now.entries marks.now nothing_written) }
        ensures named { OnOk result (KeepsNames (written self.old) (written self.new)) }
        ensures err { IfErr result (λ fault. fault ≡ Memory) }
    {
        for at in 0..marks.len() {
            self.write_marked(alloc, recorder, at, marks[at])?;
        }
        Ok(())
    }

    /// Writes the marked entries, up to the first that mentions a missing name. It is told whether none does. Refusal: Memory, also where one
    /// of them is not kept.
    pub(crate) fn write_until_missing(
        &mut self,
        alloc: Global,
        recorder: &'a Recorder,
        marks: &[bool],
    ) -> Result<bool, Fault>
        requires one_each { length marks.now ≡ length recorder.now.entries }
        requires begun { written self.old ≡ nothing_written }
        ensures ok { IfOk result (λ is_whole. IsTrue is_whole → written self.new ≡ log.write_entries 0 recorder.now.entries marks.now nothing_written) }
        ensures named { OnOk result (KeepsNames (written self.old) (written self.new)) }
        ensures err { IfErr result (λ fault. fault ≡ Memory) }
    {
        for at in 0..marks.len() {
            if self.is_missing {
                return Ok(false);
            }
            self.write_marked(alloc, recorder, at, marks[at])?;
        }
        Ok(!self.is_missing)
    }

    // Writes the entry of a number if it is marked.
    fn write_marked(
        &mut self,
        alloc: Global,
        recorder: &'a Recorder,
        number: usize,
        mark: bool,
    ) -> Result<(), Fault>
        requires { StandBelow number (written self.old) }
        ensures ok { (entry : JournalEntry) → slice_get recorder.now.entries number ≡ Some entry
            → OnOk result (written self.new ≡ write_marked number mark entry (written self.old)) }
        ensures below { OnOk result (StandBelow (number + 1) (written self.new)) }
        ensures named { OnOk result (KeepsNames (written self.old) (written self.new)) }
        ensures err { IfErr result (λ fault. fault ≡ Memory) }
    {
        if !mark {
            return Ok(());
        }
        match recorder.stored(number)? {
            Some(entry) => self.write_entry(alloc, number, entry),
            None => Err(Fault::Memory),
        }
    }

    /// Notes the names of declared types and of constants in what is written.
    pub(crate) fn note_names(&self, names: &mut Names<'a>) -> Result<(), Fault>
        ensures ok { OnOk result (Notes names.old names.new (names_written (written self.now))) }
        ensures err { IfErr result (λ fault. fault ≡ Memory) }
    {
        for at in 0..self.types.len() {
            self.note_declared(at, names)?;
        }
        self.note_constants(names)
    }

    fn note_constants(&self, names: &mut Names<'a>) -> Result<(), Fault>
        ensures ok { OnOk result (Notes names.old names.new (names_in_lines (written self.now).terms)) }
        ensures err { IfErr result (λ fault. fault ≡ Memory) }
    {
        for at in 0..self.terms.len() {
            self.note_constant(at, names)?;
        }
        Ok(())
    }

    // Notes the name of a declared type, where the type of this number is one.
    fn note_declared(&self, at: usize, names: &mut Names<'a>) -> Result<(), Fault>
        ensures ok { (line : LogLine) → slice_get (written self.now).types at ≡ Some line → OnOk result (Notes names.old names.new (name_in_line line)) }
        ensures err { IfErr result (λ fault. fault ≡ Memory) }
    {
        match self.types.get_index(at) {
            Some(line) => line.note_name(names),
            None => Ok(()),
        }
    }

    // Notes the name of a constant, where the term of this number is one.
    fn note_constant(&self, at: usize, names: &mut Names<'a>) -> Result<(), Fault>
        ensures ok { (line : LogLine) → slice_get (written self.now).terms at ≡ Some line → OnOk result (Notes names.old names.new (name_in_line line)) }
        ensures err { IfErr result (λ fault. fault ≡ Memory) }
    {
        match self.terms.get_index(at) {
            Some(line) => line.note_name(names),
            None => Ok(()),
        }
    }

    /// Writes claims.
    pub(crate) fn write_claims(&mut self, alloc: Global, claims: &[Claim<'a>]) -> Result<(), Fault>
        ensures ok { OnOk result (written self.new ≡ log.write_claims (claims_of claims.now) (written self.old)) }
        ensures named { OnOk result (KeepsNames (written self.old) (written self.new)) }
        ensures err { IfErr result (λ fault. fault ≡ Memory) }
    {
        for at in 0..claims.len() {
            let claim = &claims[at];
            self.write_claim(
                alloc,
                claim.name,
                claim.theorem.theorem(),
                claim.theorem.entry(),
            )?;
        }
        Ok(())
    }

    /// Puts the end behind the lines, and gives the text away. Refusals: Memory, and TooLong, where the text would be longer than the limit.
    pub(crate) fn finish(&mut self, alloc: Global, claims: usize) -> Result<Vec<u8>, Fault>
        ensures ok { IfOk result (λ text. text.items ≡ bytes_of_lines (closed claims (written self.old).lines)) }
        ensures within_limit { IfOk result (λ text. length text.items ≤ TEXT_BYTES_LIMIT) }
        ensures too_long { IsErrOf result TooLong → TEXT_BYTES_LIMIT < length (bytes_of_lines (closed claims (written self.old).lines)) }
        ensures refusals { IfErr result (Contains (TooLong ∷ Memory ∷ [])) }
    {
        let claims = number(claims)?;
        self.log.write(&Line::End(claims))?;
        let log = replace(&mut self.log, LogWriter::new(alloc, 0)?);
        log.finish()
    }
}
