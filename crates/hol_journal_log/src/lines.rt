// The lines of types and of terms, by which the writer finds their numbers.
ghost use Rattle.std.specs.Prelude.{◌≡◌, IfErr, OnOk};
ghost use Rattle.hol_model.specs.declared.fault.Fault.TheVariants.{Memory};
ghost use Rattle.hol_logtext.specs.Lines.{line_of};
ghost use Rattle.hol_journal_log.specs.Marking.{Notes};
ghost use Rattle.hol_journal_log.specs.WrittenNames.{name_in_line};
ghost use Rattle.hol_journal_log.specs.Writer.{line_of_type, line_of_term};

use crate::needed::Names;
use hol_logtext::Line;
use hol_model::Fault;

/// The line of a type, whose parts are named by the numbers of their lines.
#[derive(Clone, Copy, PartialEq, Eq, Hash)]
pub(crate) enum TypeLine<'a> {
    Variable(&'a str),
    Bool,
    Function(u32, u32),
    Declared(&'a str),
}

/// The line of a term, whose parts are named by the numbers of their lines.
#[derive(Clone, Copy, PartialEq, Eq, Hash)]
pub(crate) enum TermLine<'a> {
    Variable(&'a str, u32),
    Constant(&'a str, u32),
    Combination(u32, u32),
    Abstraction(u32, u32),
}

impl<'a> TypeLine<'a> {
    /// The line of the log.
    pub(crate) fn line(self) -> Line<'a>
        ensures { line_of result ≡ line_of_type self.entry }
    {
        match self {
            TypeLine::Variable(name) => Line::TypeVariable(name),
            TypeLine::Bool => Line::Bool,
            TypeLine::Function(domain, codomain) => Line::FunctionType(domain, codomain),
            TypeLine::Declared(name) => Line::DeclaredType(name),
        }
    }

    /// Notes the name, where it is that of a declared type.
    pub(crate) fn note_name(self, names: &mut Names<'a>) -> Result<(), Fault>
        ensures ok { OnOk result (Notes names.old names.new (name_in_line (line_of_type self.entry))) }
        ensures err { IfErr result (λ fault. fault ≡ Memory) }
    {
        match self {
            TypeLine::Declared(name) => names.note(name),
            _ => Ok(()),
        }
    }
}

impl<'a> TermLine<'a> {
    /// The line of the log.
    pub(crate) fn line(self) -> Line<'a>
        ensures { line_of result ≡ line_of_term self.entry }
    {
        match self {
            TermLine::Variable(name, ty) => Line::Variable(name, ty),
            TermLine::Constant(name, ty) => Line::Constant(name, ty),
            TermLine::Combination(function, argument) => Line::Combination(function, argument),
            TermLine::Abstraction(binder, body) => Line::Abstraction(binder, body),
        }
    }

    /// Notes the name, where it is that of a constant.
    pub(crate) fn note_name(self, names: &mut Names<'a>) -> Result<(), Fault>
        ensures ok { OnOk result (Notes names.old names.new (name_in_line (line_of_term self.entry))) }
        ensures err { IfErr result (λ fault. fault ≡ Memory) }
    {
        match self {
            TermLine::Constant(name, _) => names.note(name),
            _ => Ok(()),
        }
    }
}
