// Why a call is refused.
ghost use Rattle.std.specs.Prelude.{◌≡◌};
ghost use Rattle.hol_model.specs.declared.fault.Fault.TheVariants.{Memory};

use crate::ATOMS_LIMIT;
use std::alloc::{AllocError, AllocFailed};
use thiserror::Error;

/// Why a line of a log is refused.
#[derive(Clone, Copy, Debug, PartialEq, Eq, Error)]
pub enum Cause {
    /// The first line is not the header.
    #[error("header")]
    Header,
    /// The line has no line feed at its end.
    #[error("cut")]
    Cut,
    /// The line has none of the forms.
    #[error("shape")]
    Shape,
    /// A number names nothing earlier of its kind.
    #[error("number")]
    Number,
    /// A name is not of its kind, or taken.
    #[error("name")]
    Name,
    /// Parts do not fit, or are not of the kind that is asked for.
    #[error("type")]
    Kind,
    /// A constant is not known, or stands at no instance of its generic type.
    #[error("const")]
    Const,
    /// Another condition of a rule or a definition fails.
    #[error("rule")]
    Rule,
    /// A claim differs from its theorem.
    #[error("claim")]
    Claim,
    /// A limit is passed.
    #[error("large")]
    Large,
    /// The input ends early or goes on, or the number of claims is wrong.
    #[error("end")]
    End,
}

/// Why a call is refused. A refused call changes nothing unless its contract says so.
#[derive(Clone, Copy, Debug, PartialEq, Eq, Error)]
pub enum Fault {
    /// A growth was refused.
    #[error("E1 Memory")]
    Memory,
    /// A limit on types, terms, definitions, justifications or descents is passed.
    #[error("E2 TooLarge")]
    TooLarge,
    /// A name is not of its kind.
    #[error("E3 BadName")]
    BadName,
    /// Types do not fit.
    #[error("E4 TypeMismatch")]
    TypeMismatch,
    /// A constant is not known.
    #[error("E5 UnknownConst")]
    UnknownConst,
    /// A constant stands at a type that is no instance of its generic type.
    #[error("E6 NotInstance")]
    NotInstance,
    /// A term is not of type `bool`.
    #[error("E7 NotBool")]
    NotBool,
    /// A conclusion is no equation.
    #[error("E8 NotEquation")]
    NotEquation,
    /// Two terms are not alpha-equivalent.
    #[error("E9 NotAlpha")]
    NotAlpha,
    /// A term is no variable, or a type no type variable.
    #[error("E10 NotVariable")]
    NotVariable,
    /// A variable is free in a hypothesis.
    #[error("E11 FreeInHypothesis")]
    FreeInHypothesis,
    /// A term is no abstraction applied to the very variable that it binds.
    #[error("E12 NotTrivialBeta")]
    NotTrivialBeta,
    /// A variable is free in the body of a definition.
    #[error("E13 NotClosed")]
    NotClosed,
    /// A type variable does not occur in the type of the constant.
    #[error("E14 TypeVarsNotReflected")]
    TypeVarsNotReflected,
    /// A name is taken in the theory.
    #[error("E15 AlreadyDefined")]
    AlreadyDefined,
    /// A term does not have the form that is asked for.
    #[error("E16 BadShape")]
    BadShape,
    /// A conversion fails.
    #[error("E17 ConvFails")]
    ConvFails,
    /// A refiner fails.
    #[error("E18 RefineFails")]
    RefineFails,
    /// A list of refiners is not as long as the list of subgoals.
    #[error("E19 LengthMismatch")]
    LengthMismatch,
    /// One more step was asked for than there are.
    #[error("E20 StepLimit")]
    StepLimit,
    /// A name stands for nothing.
    #[error("E21 UnknownName")]
    UnknownName,
    /// There is no open goal.
    #[error("E22 NoGoal")]
    NoGoal,
    /// Goals are open.
    #[error("E23 GoalsRemain")]
    GoalsRemain,
    /// There is nothing to take back.
    #[error("E24 NothingToUndo")]
    NothingToUndo,
    /// A justification does not give its goal.
    #[error("E25 InvalidStep")]
    InvalidStep,
    /// A proposition is false in a row: the values of its atoms, in their order, and then `false`.
    #[error("E26 NotTautology")]
    NotTautology {
        atoms: usize,
        row: [bool; ATOMS_LIMIT],
    },
    /// A proposition has more atoms than the limit.
    #[error("E27 TooManyAtoms")]
    TooManyAtoms,
    /// A text is not of the grammar.
    #[error("E28 Syntax")]
    Syntax,
    /// A name is taken.
    #[error("E29 NameTaken")]
    NameTaken,
    /// A line of a log is faulty, counted from 1.
    #[error("E30 LogFault")]
    LogFault {
        line: u64,
        cause: Cause,
    },
    /// A source failed.
    #[error("E31 ReadFault")]
    ReadFault,
    /// A sink failed.
    #[error("E32 WriteFault")]
    WriteFault,
    /// An input or an output is longer than its limit.
    #[error("E33 TooLong")]
    TooLong,
    /// A pattern does not match.
    #[error("E34 NoMatch")]
    NoMatch,
    /// A type is not known.
    #[error("E35 UnknownType")]
    UnknownType,
}

impl Fault {
    ghost use Rattle.hol_model.specs.Kernel.Fault.{number_of, name_of};

    /// The number by which a program reports it.
    pub fn number(&self) -> u8
        ensures { result ≡ number_of self.now }
    {
        match self {
            Fault::Memory => 1,
            Fault::TooLarge => 2,
            Fault::BadName => 3,
            Fault::TypeMismatch => 4,
            Fault::UnknownConst => 5,
            Fault::NotInstance => 6,
            Fault::NotBool => 7,
            Fault::NotEquation => 8,
            Fault::NotAlpha => 9,
            Fault::NotVariable => 10,
            Fault::FreeInHypothesis => 11,
            Fault::NotTrivialBeta => 12,
            Fault::NotClosed => 13,
            Fault::TypeVarsNotReflected => 14,
            Fault::AlreadyDefined => 15,
            Fault::BadShape => 16,
            Fault::ConvFails => 17,
            Fault::RefineFails => 18,
            Fault::LengthMismatch => 19,
            Fault::StepLimit => 20,
            Fault::UnknownName => 21,
            Fault::NoGoal => 22,
            Fault::GoalsRemain => 23,
            Fault::NothingToUndo => 24,
            Fault::InvalidStep => 25,
            Fault::NotTautology { .. } => 26,
            Fault::TooManyAtoms => 27,
            Fault::Syntax => 28,
            Fault::NameTaken => 29,
            Fault::LogFault { .. } => 30,
            Fault::ReadFault => 31,
            Fault::WriteFault => 32,
            Fault::TooLong => 33,
            Fault::NoMatch => 34,
            Fault::UnknownType => 35,
        }
    }

    /// The name by which a program reports it.
    pub fn name(&self) -> &'static str
        ensures { result.now ≡ name_of self.now }
    {
        match self {
            Fault::Memory => "Memory",
            Fault::TooLarge => "TooLarge",
            Fault::BadName => "BadName",
            Fault::TypeMismatch => "TypeMismatch",
            Fault::UnknownConst => "UnknownConst",
            Fault::NotInstance => "NotInstance",
            Fault::NotBool => "NotBool",
            Fault::NotEquation => "NotEquation",
            Fault::NotAlpha => "NotAlpha",
            Fault::NotVariable => "NotVariable",
            Fault::FreeInHypothesis => "FreeInHypothesis",
            Fault::NotTrivialBeta => "NotTrivialBeta",
            Fault::NotClosed => "NotClosed",
            Fault::TypeVarsNotReflected => "TypeVarsNotReflected",
            Fault::AlreadyDefined => "AlreadyDefined",
            Fault::BadShape => "BadShape",
            Fault::ConvFails => "ConvFails",
            Fault::RefineFails => "RefineFails",
            Fault::LengthMismatch => "LengthMismatch",
            Fault::StepLimit => "StepLimit",
            Fault::UnknownName => "UnknownName",
            Fault::NoGoal => "NoGoal",
            Fault::GoalsRemain => "GoalsRemain",
            Fault::NothingToUndo => "NothingToUndo",
            Fault::InvalidStep => "InvalidStep",
            Fault::NotTautology { .. } => "NotTautology",
            Fault::TooManyAtoms => "TooManyAtoms",
            Fault::Syntax => "Syntax",
            Fault::NameTaken => "NameTaken",
            Fault::LogFault { .. } => "LogFault",
            Fault::ReadFault => "ReadFault",
            Fault::WriteFault => "WriteFault",
            Fault::TooLong => "TooLong",
            Fault::NoMatch => "NoMatch",
            Fault::UnknownType => "UnknownType",
        }
    }
}

impl From<AllocError> for Fault {
    ghost from_gives = { λ _ fault. fault ≡ Memory };

    fn from(_error: AllocError) -> Fault {
        Fault::Memory
    }
}

impl<T: Drop> From<AllocFailed<T>> for Fault {
    ghost from_gives = { λ _ fault. fault ≡ Memory };

    fn from(_error: AllocFailed<T>) -> Fault {
        Fault::Memory
    }
}
