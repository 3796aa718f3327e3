// The texts of faults.
use hol_model::{ATOMS_LIMIT, Cause, Fault};
use std::alloc::Global;

// The faults, by their numbers.
const FAULTS: [Fault; 35] = [
    Fault::Memory,
    Fault::TooLarge,
    Fault::BadName,
    Fault::TypeMismatch,
    Fault::UnknownConst,
    Fault::NotInstance,
    Fault::NotBool,
    Fault::NotEquation,
    Fault::NotAlpha,
    Fault::NotVariable,
    Fault::FreeInHypothesis,
    Fault::NotTrivialBeta,
    Fault::NotClosed,
    Fault::TypeVarsNotReflected,
    Fault::AlreadyDefined,
    Fault::BadShape,
    Fault::ConvFails,
    Fault::RefineFails,
    Fault::LengthMismatch,
    Fault::StepLimit,
    Fault::UnknownName,
    Fault::NoGoal,
    Fault::GoalsRemain,
    Fault::NothingToUndo,
    Fault::InvalidStep,
    Fault::NotTautology {
        atoms: 0,
        row: [false; ATOMS_LIMIT],
    },
    Fault::TooManyAtoms,
    Fault::Syntax,
    Fault::NameTaken,
    Fault::LogFault {
        line: 1,
        cause: Cause::Header,
    },
    Fault::ReadFault,
    Fault::WriteFault,
    Fault::TooLong,
    Fault::NoMatch,
    Fault::UnknownType,
];

// Whether a fault is written as its number and its name.
fn is_written(alloc: Global, fault: &Fault) -> Result<bool, Fault> {
    let mut written = String::new(alloc);
    write!(written, "{fault}")?;
    let mut expected = String::new(alloc);
    write!(expected, "E{} {}", fault.number(), fault.name())?;
    Ok(written.as_str() == expected.as_str())
}

#[test]
fn each_fault_is_written_as_its_number_and_name(rt: HostRuntime) {
    for at in 0..FAULTS.len() {
        let fault = &FAULTS[at];
        assert!(rt; fault.number() as usize == at + 1);
        assert!(rt; is_written(rt.alloc(), fault) == Ok(true));
    }
}
