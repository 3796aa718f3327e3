// What a command is answered.
ghost use Rattle.std.specs.Prelude.{◌≡◌};
ghost use Rattle.hol_script_session.specs.Answers as spec;

use crate::lines::TheoremLine;
use hol_model::Fault;

/// What an accepted command prints.
#[derive(Drop)]
pub enum Printed {
    Nothing,
    Line(TheoremLine),
    /// The lines of open goals.
    Goals(String),
}

/// Why a command is refused. `row` is the text of a row of values that makes a proposition false: a space, and then each
/// atom with its value, with commas between them.
#[derive(Drop)]
pub struct Refused {
    pub fault: Fault,
    pub row: Option<String>,
}

impl Refused {
    /// A refusal without a row.
    pub fn plain(fault: Fault) -> Refused
        ensures { result ≡ spec.plain fault }
    {
        Refused { fault, row: None }
    }
}

/// The answer of a command whose refusals have no row.
pub fn plainly(answer: Result<Printed, Fault>) -> Result<Printed, Refused>
    ensures { result ≡ spec.plainly answer }
{
    match answer {
        Ok(printed) => Ok(printed),
        Err(fault) => Err(Refused::plain(fault)),
    }
}
