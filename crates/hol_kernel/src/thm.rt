// Theorems.
ghost use Rattle.std.specs.Prelude.{◌≡◌, IfOk, IfErr, map, true};
ghost use Rattle.std.specs.List.{All, list_all};
ghost use Rattle.hol_model.specs.Terms.NamedTerm.{is_within_limits};
ghost use Rattle.hol_model.specs.Terms.WellNamed.{is_well_named};
ghost use Rattle.hol_kernel.specs.KnownFormula.{IsKnownFormula};
ghost use Rattle.hol_model.specs.declared.fault.Fault.TheVariants.{Memory};

use crate::entries::Entries;
use hol_model::Fault;
use hol_sound::sound;
use hol_terms::Term;
use std::alloc::Global;
use std::marker::Model;
use std::rc::Rc;

/// A theorem: hypotheses, a conclusion, and the entries of the theory on which it stands. Only the kernel's rules make
/// one, so it is derivable there. Copies share one node.
#[derive(Drop)]
pub struct Thm {
    node: Rc<TheoremNode>,
}

#[derive(Drop)]
struct TheoremNode {
    entries: Entries,
    hypotheses: Vec<Term>,
    conclusion: Term,
}

impl Model for Thm {
    ghost use Rattle.hol_model.specs.Kernel.Theorem.{Theorem, IsTheorem};
    ghost use Rattle.hol_model.specs.Kernel.TheoremCode.{theorem_code};

    ghost Value = { Theorem };

    ghost coded = { theorem_code };

    ghost use Rattle.hol_kernel.specs.Thm.{viewed_theorem};

    ghost view = { viewed_theorem };

    ghost invariant = { λ thm. IsTheorem (viewed_theorem thm) };
}

impl Thm {
    ghost use Rattle.hol_model.specs.Kernel.Theorem.{Theorem, IsTheorem, IsWellFormed, AreOrdered};
    ghost use Rattle.hol_model.specs.Logic.Derivable.{Derivable};
    ghost use Rattle.hol_model.specs.Terms.Nameless.{image};
    ghost use Rattle.hol_model.specs.Models.Holds.{Holds};

    /// A theorem, where it is shown to be one.
    pub(crate) fn new(
        alloc: Global,
        entries: &Entries,
        hypotheses: Vec<Term>,
        conclusion: Term,
    ) -> Result<Thm, Fault>
        requires { IsTheorem (record { theory = entries.now; hypotheses = hypotheses.items; conclusion = conclusion }) }
        ensures ok { IfOk result (λ thm. thm ≡ record { theory = entries.now; hypotheses = hypotheses.items; conclusion = conclusion }) }
        ensures err { IfErr result (λ fault. fault ≡ Memory) }
    {
        let entries = entries.copy()?;
        let node = Rc::new(
            alloc,
            TheoremNode {
                entries,
                hypotheses,
                conclusion,
            },
        )?;
        Ok(Thm { node })
    }

    /// The same theorem, of which the copies share one node.
    pub fn copy(&self, _alloc: Global) -> Result<Thm, Fault>
        ensures ok { IfOk result (λ thm. thm ≡ self.now) }
        ensures err { IfErr result (λ fault. fault ≡ Memory) }
    {
        Ok(Thm {
            node: self.node.clone()?,
        })
    }

    /// The hypotheses, in the order of their images, no two of them the same up to the names of bound variables. Each is a
    /// formula that the theorem's theory knows, and the conclusion holds where all of them hold.
    pub fn hyps(&self) -> &[Term]
        ensures value { result.now ≡ self.now.hypotheses }
        ensures ordered { AreOrdered result.now }
        ensures theorem { IsTheorem self.now }
        ensures known { All (IsKnownFormula self.now.theory) result.now }
        ensures holds { Holds self.now.theory (map image result.now) (image self.now.conclusion) }
    {
        sound();
        &self.node.hypotheses
    }

    /// The conclusion, a formula that the theorem's theory knows. It holds where all the hypotheses hold.
    pub fn concl(&self) -> &Term
        ensures value { result.now ≡ self.now.conclusion }
        ensures theorem { IsTheorem self.now }
        ensures known { IsKnownFormula self.now.theory result.now }
        ensures holds { Holds self.now.theory (map image self.now.hypotheses) (image result.now) }
    {
        sound();
        &self.node.conclusion
    }

    /// A theorem's terms are within the limits, and each name in them is of its kind. Nothing is computed: the clause is the
    /// law, for callers' proofs.
    pub fn well_formed(&self)
        ensures { IsWellFormed self.now }
    {
        let conclusion = self.concl();
        conclusion.well_formed();
        conclusion.well_named();
        are_well_formed(self.hyps());
    }
}

fn are_well_formed(terms: &[Term])
    ensures within_limits { list_all is_within_limits terms.now ≡ true }
    ensures well_named { list_all is_well_named terms.now ≡ true }
{
    for term in terms {
        term.well_formed();
        term.well_named();
    }
}
