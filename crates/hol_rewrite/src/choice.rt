// The first rule that matches a term.
ghost use Rattle.std.specs.Prelude.{◌≡◌, ◌⊎◌, ℕ, [], ◌∷◌, ◌++◌, Some, None, IfOk, IfErr, OnOk, OnErr, MatchOption, slice_get, map};
ghost use Rattle.hol_model.specs.declared.fault.Fault.TheVariants.{Memory, NoMatch};
ghost use Rattle.hol_model.specs.Rewrites.Choice.{IsFirstMatch, NoneMatches, patterns_of};
ghost use Rattle.hol_rewrite.specs.Sides.{viewed_sides, IsTried};

use hol_match::{Match, term_match};
use hol_model::Fault;
use hol_net::Net;
use hol_terms::Term;
use std::alloc::Global;
use std::marker::Model;

/// The left side of a rule: the variables that stay, and the pattern.
#[derive(Drop)]
pub struct LeftSide {
    pub fixed: Vec<Term>,
    pub pattern: Term,
}

/// Left sides of rules in order, with a net of their patterns.
#[derive(Drop)]
pub struct Choice {
    sides: Vec<LeftSide>,
    net: Net,
}

impl Model for Choice {
    ghost use Rattle.std.specs.Prelude.{◌≡◌, List};
    ghost use Rattle.hol_model.specs.Rewrites.Choice.{Side, sides_code, patterns_of};
    ghost use Rattle.hol_rewrite.specs.Sides.{viewed_sides};

    ghost Value = { List Side };

    ghost coded = { sides_code };

    ghost view = { λ choice. viewed_sides choice.sides.items };

    ghost invariant = { λ choice. choice.net ≡ patterns_of (viewed_sides choice.sides.items) };
}

impl Choice {
    /// The choice among no rules.
    pub fn new(alloc: Global) -> Result<Choice, Fault>
        ensures ok { IfOk result (λ choice. choice ≡ []) }
        ensures err { IfErr result (λ fault. fault ≡ Memory) }
    {
        let net = Net::new(alloc)?;
        Ok(Choice {
            sides: Vec::new(alloc),
            net,
        })
    }

    /// Puts a left side after the others.
    pub fn add(&mut self, alloc: Global, fixed: Vec<Term>, pattern: &Term) -> Result<(), Fault>
        ensures ok { OnOk result (self.new ≡ self.old ++ (fixed.items, pattern.now) ∷ []) }
        ensures unchanged { OnErr result (self.new ≡ self.old) }
        ensures err { IfErr result (λ fault. fault ≡ Memory) }
    {
        let copy = pattern.copy(alloc)?;
        self.sides.reserve(1)?;
        self.net.insert(alloc, pattern)?;
        match self.sides.push(LeftSide {
            fixed,
            pattern: copy,
        }) {
            Ok(()) => Ok(()),
            Err(_) => unreachable!(),
        }
    }

    /// The place of the first left side that matches the term, and its match.
    ///
    /// Refused where none matches (`NoMatch`).
    pub fn first_match(&self, alloc: Global, term: &Term) -> Result<(usize, Match), Fault>
        ensures ok { IfOk result (λ found. IsFirstMatch self.now term.now found.0 found.1.types.items found.1.terms.items) }
        ensures err { IfErr result (λ fault. (fault ≡ Memory) ⊎ ((fault ≡ NoMatch) × NoneMatches self.now term.now)) }
    {
        let places = self.net.candidates(alloc, term)?;
        for place in &places {
            match match_at(alloc, &self.sides, *place, term)? {
                Some(found) => return Ok((*place, found)),
                None => {}
            }
        }
        Err(Fault::NoMatch)
    }
}

// The match of the left side at a place, where there is one.
fn match_at(
    alloc: Global,
    sides: &[LeftSide],
    place: usize,
    term: &Term,
) -> Result<Option<Match>, Fault>
    ensures ok { IfOk result (λ found. IsTried (viewed_sides sides.now) term.now place found) }
    ensures err { IfErr result (λ fault. fault ≡ Memory) }
{
    let Some(side) = sides.get(place) else {
        return Ok(None);
    };
    match term_match(alloc, &side.fixed, &side.pattern, term) {
        Ok(found) => Ok(Some(found)),
        Err(Fault::NoMatch) => Ok(None),
        Err(fault) => Err(fault),
    }
}
