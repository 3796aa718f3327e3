// The parts of a term to which a conversion goes down.
ghost use Rattle.std.specs.Prelude.{IfOk, IfErr};
ghost use Rattle.hol_conv.specs.Parts.{AreParts, AreBoundParts, RefusesParts, RefusesBoundParts};

use hol_model::{DESCENTS_LIMIT, Fault};
use hol_terms::Term;

/// The function and the argument of a combination.
#[derive(Clone, Copy)]
pub(crate) struct Halves<'a> {
    pub(crate) function: &'a Term,
    pub(crate) argument: &'a Term,
}

/// The function and the argument. Refused: ConvFails of another term; TooLarge where there are too many descents.
pub(crate) fn combination(t: &Term, depth: u32) -> Result<Halves<'_>, Fault>
    ensures ok { IfOk result (λ halves. AreParts t.now depth halves.function.now halves.argument.now) }
    ensures err { IfErr result (RefusesParts t.now depth) }
{
    let Some((function, argument)) = t.dest_comb() else {
        return Err(Fault::ConvFails);
    };
    if DESCENTS_LIMIT <= depth {
        return Err(Fault::TooLarge);
    }
    Ok(Halves { function, argument })
}

/// The variable and the body. Refused: ConvFails of another term; TooLarge where there are too many descents.
pub(crate) fn abstraction(t: &Term, depth: u32) -> Result<(&Term, &Term), Fault>
    ensures ok { IfOk result (λ parts. AreBoundParts t.now depth parts.0.now parts.1.now) }
    ensures err { IfErr result (RefusesBoundParts t.now depth) }
{
    let Some(parts) = t.dest_abs() else {
        return Err(Fault::ConvFails);
    };
    if DESCENTS_LIMIT <= depth {
        return Err(Fault::TooLarge);
    }
    Ok(parts)
}
