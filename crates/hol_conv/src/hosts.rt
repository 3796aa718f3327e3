// A host's conversions.
ghost use Rattle.std.specs.Prelude.{◌≡◌};
ghost use Rattle.std.specs.Bool.{Decides};
ghost use Rattle.hol_model.specs.Goals.Justifications.{Justification};
ghost use Rattle.hol_model.specs.Goals.Replays.{HasSequent};
ghost use Rattle.hol_model.specs.Refining.HostFunctions.{promised, AnswersHostEquation};
ghost use Rattle.hol_model.specs.Refining.Conversions as conv;
ghost use Rattle.hol_journal.specs.Journal.{theorem_in};
ghost use Rattle.hol_just.specs.Steps.{tree_of};
ghost use Rattle.hol_theorem_library.specs.Library.{IsLibrary, store_in};
ghost use Rattle.hol_conv.specs.Makes.{Makes};
ghost use Rattle.hol_conv.specs.OneStep.{ConvertsInStep};
ghost use Rattle.hol_conv.specs.HostAnswers.{says_equal};

use hol_alpha::aconv;
use hol_equal::equality::equation_parts;
use hol_host::{Converters, HostFail};
use hol_journal::Rec;
use hol_just::Just;
use hol_just_replay::replay;
use hol_kernel::Thm;
use hol_model::Fault;
use hol_terms::Term;
use hol_theorem_library::Library;

// Whether the theorem says, without hypotheses, that the first term equals the second.
fn says_equal(left: &Term, right: &Term, theorem: &Thm) -> bool
    ensures { result ≡ says_equal left.now right.now theorem.now }
{
    if !theorem.hyps().is_empty() {
        return false;
    }
    match equation_parts(theorem.concl()) {
        Some(sides) => aconv(sides.left, left) && aconv(sides.right, right),
        None => false,
    }
}

// Whether the theorem is that of the equation.
fn is_promised(left: &Term, right: &Term, theorem: &Thm) -> bool
    ensures { (justification : Justification) → Decides result (HasSequent (promised left.now (record { term = right.now; justification = justification })) theorem.now) }
{
    let _conclusion = theorem.concl();
    says_equal(left, right, theorem)
}

// The theorem of a justification, where that is the equation of the two terms.
fn equation_of(library: &mut Library, left: &Term, right: &Term, just: &Just) -> Result<Rec, Fault>
    requires library { IsLibrary library.old }
    ensures makes { Makes library.old library.new result }
    ensures answers { AnswersHostEquation library.old.recorder.theory (store_in library.old) left.now (record { term = right.now; justification = tree_of just.now }) (theorem_in result) }
{
    let made = replay(
        &mut library.recorder,
        &library.logic,
        &library.store,
        just,
        &[],
    )?;
    if is_promised(left, right, made.theorem()) {
        Ok(made)
    } else {
        Err(Fault::InvalidStep)
    }
}

/// A host's conversion. The justification that it answers is replayed at once. Refused, in this order: no conversion has
/// the name (`UnknownName`); it fails (`ConvFails`) or finds no memory (`Memory`); the justification is not one of
/// `|- t = t'` without hypotheses, for the term and what it answered (`InvalidStep`). `TooLarge` may come in their place
/// only where the replay has no room.
pub fn host_conv<H: Converters>(
    library: &mut Library,
    hosts: &H,
    name: &str,
    term: &Term,
) -> Result<Rec, Fault>
    requires library { IsLibrary library.old }
    ensures makes { Makes library.old library.new result }
    ensures converts { ConvertsInStep library.old.recorder.theory (store_in library.old) (H.conversions hosts.now) (conv.host_conv name.now) term.now (theorem_in result) }
{
    let alloc = library.recorder.alloc();
    match hosts.convert(alloc, name, term) {
        None => Err(Fault::UnknownName),
        Some(Err(HostFail::Failed)) => Err(Fault::ConvFails),
        Some(Err(HostFail::Memory)) => Err(Fault::Memory),
        Some(Ok((other, just))) => equation_of(library, term, &other, &just),
    }
}
