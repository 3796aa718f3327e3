// Variables that stand for witnesses, and why there are such values.

use crate::facts::{assumed, by_absurdity};
use hol_alpha::aconv;
use hol_host::HostFail;
use hol_model::Fault;
use hol_tactics_forms::{
    Derivation, assume, ccontr, choose, contradiction, disch, disj_cases, excluded_middle, exists,
    fresh, generalize, mk_exists, mk_imp, push_copy, with_value,
};
use hol_terms::{Term, free_in};
use hol_types::Ty;
use std::alloc::Global;

/// `?x. p` or `!x. p`, with x and p.
#[derive(Clone, Copy)]
pub struct Quantified<'a> {
    pub formula: &'a Term,
    pub variable: &'a Term,
    pub body: &'a Term,
}

impl<'a> Quantified<'a> {
    /// p at a value of x.
    pub fn body_at(&self, alloc: Global, value: &Term) -> Result<Term, Fault> {
        with_value(alloc, value, self.variable, self.body)
    }
}

/// What is supposed of a witness v: `(?x. p) ==> p[v/x]`, or `p[v/x] ==> !x. p`.
#[derive(Drop)]
pub struct Supposed {
    witness: usize,
    variable: Term,
    formula: Term,
    is_existential: bool,
    /// `p[v/x]`, and all of it.
    pub body_at: Term,
    pub hypothesis: Term,
}

// A symbol for a witness with values of its parameters, and the variable that stands for this.
#[derive(Drop)]
struct Witness {
    symbol: usize,
    parameters: Vec<Term>,
    variable: Term,
}

/// The witnesses of a refutation.
#[derive(Drop)]
pub struct Witnesses {
    all: Vec<Witness>,
    supposed: Vec<Supposed>,
    // The variables that are used.
    avoid: Vec<Term>,
    // A variable for each type at which any value serves.
    free: Vec<Term>,
}

impl Witness {
    fn is_of(&self, symbol: usize, parameters: &[Term]) -> bool {
        self.symbol == symbol && are_aconv(&self.parameters, parameters)
    }
}

// Whether the lists are the same up to the names of bound variables.
fn are_aconv(first: &[Term], second: &[Term]) -> bool {
    first.len() == second.len() && first.iter().zip(second).all(|(a, b)| aconv(a, b))
}

impl Witnesses {
    /// None yet; their variables will be none of these.
    pub fn new(alloc: Global, avoid: Vec<Term>) -> Witnesses {
        Witnesses {
            all: Vec::new(alloc),
            supposed: Vec::new(alloc),
            avoid,
            free: Vec::new(alloc),
        }
    }

    /// A variable for any value of a type, for each type one.
    pub fn any(&mut self, alloc: Global, ty: &Ty) -> Result<Term, HostFail> {
        for variable in &self.free {
            if variable.ty().eq(ty) {
                return Ok(variable.copy(alloc)?);
            }
        }
        let named = Term::mk_var(alloc, "any", ty)?;
        let variable = fresh(alloc, &mut self.avoid, &named)?;
        push_copy(alloc, &variable, &mut self.free)?;
        Ok(variable)
    }

    /// The number of the witness of this symbol for these parameters. Its variable has this one's name, or one with primes.
    pub fn number(
        &mut self,
        alloc: Global,
        symbol: usize,
        parameters: Vec<Term>,
        named: &Term,
    ) -> Result<usize, HostFail> {
        for (number, witness) in self.all.iter().enumerate() {
            if witness.is_of(symbol, &parameters) {
                return Ok(number);
            }
        }
        let variable = fresh(alloc, &mut self.avoid, named)?;
        let number = self.all.len();
        self.all.push(Witness {
            symbol,
            parameters,
            variable,
        })?;
        Ok(number)
    }

    /// The variable of the witness of this number.
    pub fn variable(&self, alloc: Global, number: usize) -> Result<Term, HostFail> {
        match self.all.get(number) {
            Some(witness) => Ok(witness.variable.copy(alloc)?),
            None => Err(HostFail::Failed),
        }
    }

    /// What is supposed of a witness for a quantified formula.
    pub fn suppose(
        &mut self,
        alloc: Global,
        witness: usize,
        of: Quantified<'_>,
        is_existential: bool,
    ) -> Result<&Supposed, HostFail> {
        if self.supposed_of(witness).is_none() {
            let variable = self.variable(alloc, witness)?;
            self.supposed.push(Supposed::new(alloc, witness, variable, of, is_existential)?)?;
        }
        self.supposed_of(witness).ok_or(HostFail::Failed)
    }

    fn supposed_of(&self, witness: usize) -> Option<&Supposed> {
        self.supposed
            .iter()
            .find(|supposed| supposed.witness == witness)
    }

    /// The justification of a formula without what is supposed of the witnesses: first of one that no other supposition names.
    pub fn discharged(&self, alloc: Global, of: Derivation) -> Derivation {
        let mut just = of;
        let mut is_left = self.all_left(alloc)?;
        for _ in &self.supposed {
            let Some(last) = self.last(&is_left) else {
                return Err(HostFail::Failed);
            };
            just = self.without(alloc, last, just);
            if let Some(flag) = is_left.get_mut(last) {
                *flag = false;
            }
        }
        just
    }

    // That each supposition is left.
    fn all_left(&self, alloc: Global) -> Result<Vec<bool>, HostFail> {
        let mut is_left = Vec::new(alloc);
        for _ in &self.supposed {
            is_left.push(true)?;
        }
        Ok(is_left)
    }

    // The place of a supposition that is left whose witness no other that is left names.
    fn last(&self, is_left: &[bool]) -> Option<usize> {
        for (at, supposed) in self.supposed.iter().enumerate() {
            if is_at(is_left, at) && !self.is_named(is_left, at, &supposed.variable) {
                return Some(at);
            }
        }
        None
    }

    // Whether a supposition that is left, but this one, names the variable.
    fn is_named(&self, is_left: &[bool], but: usize, variable: &Term) -> bool {
        for (at, supposed) in self.supposed.iter().enumerate() {
            if at != but && is_at(is_left, at) && free_in(variable, &supposed.hypothesis) {
                return true;
            }
        }
        false
    }

    // The justification without the supposition at this place.
    fn without(&self, alloc: Global, at: usize, just: Derivation) -> Derivation {
        match self.supposed.get(at) {
            Some(supposed) => {
                let witnessed = supposed.witnessed(alloc);
                choose(alloc, &supposed.variable, witnessed, just)
            }
            None => Err(HostFail::Failed),
        }
    }
}

fn is_at(flags: &[bool], at: usize) -> bool {
    match flags.get(at) {
        Some(flag) => *flag,
        None => false,
    }
}

impl Supposed {
    fn new(
        alloc: Global,
        witness: usize,
        variable: Term,
        of: Quantified<'_>,
        is_existential: bool,
    ) -> Result<Supposed, Fault> {
        let body_at = of.body_at(alloc, &variable)?;
        let hypothesis = if is_existential {
            mk_imp(alloc, of.formula, &body_at)
        } else {
            mk_imp(alloc, &body_at, of.formula)
        };
        Ok(Supposed {
            witness,
            hypothesis: hypothesis?,
            formula: of.formula.copy(alloc)?,
            variable,
            is_existential,
            body_at,
        })
    }

    // That there is a value for which it holds.
    fn witnessed(&self, alloc: Global) -> Derivation {
        let claim = mk_exists(alloc, &self.variable, &self.hypothesis)?;
        if self.is_existential {
            self.for_existential(alloc, &claim)
        } else {
            self.for_universal(alloc, &claim)
        }
    }

    // The claim, of the supposition at v itself.
    fn claimed(&self, alloc: Global, claim: &Term, supposition: Derivation) -> Derivation {
        exists(alloc, claim, &self.variable, supposition)
    }

    // `?v. (?x. p) ==> p[v/x]`: by cases of `?x. p`.
    fn for_existential(&self, alloc: Global, claim: &Term) -> Derivation {
        let holds = self.claim_if_some(alloc, claim);
        let fails = self.claim_by_absurdity(alloc, claim, &self.formula, &self.body_at);
        disj_cases(alloc, excluded_middle(alloc, &self.formula), holds, fails)
    }

    // The claim, from `?x. p`.
    fn claim_if_some(&self, alloc: Global, claim: &Term) -> Derivation {
        let implies = disch(alloc, &self.formula, assume(alloc, &self.body_at));
        let claimed = self.claimed(alloc, claim, implies);
        choose(alloc, &self.variable, assume(alloc, &self.formula), claimed)
    }

    // The claim, that `p ==> q` at v, from `~p`.
    fn claim_by_absurdity(&self, alloc: Global, claim: &Term, p: &Term, q: &Term) -> Derivation {
        let implies = disch(alloc, p, by_absurdity(alloc, p, q));
        self.claimed(alloc, claim, implies)
    }

    // `?v. p[v/x] ==> !x. p`: if it were denied, `!x. p` would hold, and any value would do.
    fn for_universal(&self, alloc: Global, claim: &Term) -> Derivation {
        let implies = disch(alloc, &self.body_at, self.all_if_denied(alloc, claim));
        let claimed = self.claimed(alloc, claim, implies);
        let clash = contradiction(alloc, assumed(alloc, claim, false), claimed);
        ccontr(alloc, claim, clash)
    }

    // `!x. p`, from the denied claim.
    fn all_if_denied(&self, alloc: Global, claim: &Term) -> Derivation {
        let claimed = self.claim_by_absurdity(alloc, claim, &self.body_at, &self.formula);
        let clash = contradiction(alloc, assumed(alloc, claim, false), claimed);
        generalize(alloc, &self.variable, ccontr(alloc, &self.body_at, clash))
    }
}
