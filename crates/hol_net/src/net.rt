// A net of patterns: a list, and a tree that leads to the places of those that may fit.
ghost use Rattle.std.specs.Prelude.{◌≡◌, [], ◌∷◌, ◌++◌, IfOk, IfErr, OnOk, OnErr, filter};
ghost use Rattle.hol_model.specs.declared.fault.Fault.TheVariants.{Memory};
ghost use Rattle.hol_model.specs.Rewrites.Matching.{fits};
ghost use Rattle.hol_net.specs.Net.{IsNet};
ghost use Rattle.hol_model.specs.Rewrites.Places.{places_where, passes};

use crate::fitting::fits;
use crate::tree::Tree;
use hol_model::Fault;
use hol_terms::Term;
use std::alloc::Global;
use std::marker::Model;

// So many patterns are tried one after the other; for more the tree is walked.
const TRIED_LIMIT: usize = 6;

/// A net of patterns, as in nets.ml of HOL Light: which of a list of patterns fit a term is found without trying each of many.
#[derive(Drop)]
pub struct Net {
    patterns: Vec<Term>,
    // Leads to the place of each pattern, and to places that a refused `insert` left.
    tree: Tree,
}

impl Model for Net {
    ghost use Rattle.std.specs.Prelude.{List};
    ghost use Rattle.hol_model.specs.Terms.NamedTerm.{NamedTerm};
    ghost use Rattle.hol_net.specs.Net.{patterns_code, IsNet};

    ghost Value = { List NamedTerm };

    ghost coded = { patterns_code };

    ghost view = { λ net. net.patterns.items };

    ghost invariant = { λ net. IsNet net.tree net.patterns.items };
}

impl Net {
    /// The net of no patterns. Refused: Memory.
    pub fn new(alloc: Global) -> Result<Net, Fault>
        ensures ok { IfOk result (λ net. net ≡ []) }
        ensures err { IfErr result (λ fault. fault ≡ Memory) }
    {
        let tree = Tree::new(alloc)?;
        Ok(Net {
            patterns: Vec::new(alloc),
            tree,
        })
    }

    /// Puts a pattern behind those of the net. Refused, where the net stays as it was: Memory.
    pub fn insert(&mut self, alloc: Global, pattern: &Term) -> Result<(), Fault>
        ensures ok { OnOk result (self.new ≡ self.old ++ pattern.now ∷ []) }
        ensures unchanged { OnErr result (self.new ≡ self.old) }
        ensures err { IfErr result (λ fault. fault ≡ Memory) }
    {
        let place = self.patterns.len();
        let node = self.tree.node_or_new(alloc, 0, pattern)?;
        self.tree.note(node, place)?;
        self.patterns.push(pattern.copy(alloc)?)?;
        Ok(())
    }

    /// The places, ascending, of the patterns that fit a term. The cost is that of the way through the term along the
    /// patterns that agree with it so far, and of the patterns that are found; a few patterns are tried each. Refused: Memory.
    pub fn candidates(&self, alloc: Global, term: &Term) -> Result<Vec<usize>, Fault>
        ensures ok { IfOk result (λ places. places.items ≡ places_where (λ pattern. fits pattern term.now) self.now) }
        ensures err { IfErr result (λ fault. fault ≡ Memory) }
    {
        if self.patterns.len() <= TRIED_LIMIT {
            tried(alloc, &self.patterns, term)
        } else {
            self.reached(alloc, term)
        }
    }

    // The same, by a walk through the tree.
    fn reached(&self, alloc: Global, term: &Term) -> Result<Vec<usize>, Fault>
        ensures ok { IfOk result (λ places. places.items ≡ places_where (λ pattern. fits pattern term.now) self.now) }
        ensures err { IfErr result (λ fault. fault ≡ Memory) }
    {
        let mut nodes = Vec::new(alloc);
        self.tree.add_nodes(alloc, 0, term, &mut nodes)?;
        let mut places = Vec::new(alloc);
        self.tree.add_places(&nodes, &mut places)?;
        places.sort_unstable();
        places.dedup();
        fitting(alloc, &self.patterns, &places, term)
    }
}

// The places, ascending, of those of the patterns that fit a term, each of which is tried.
#[tactic(auto, using(crate::proofs::Ascending::places_all))]
fn tried(alloc: Global, patterns: &[Term], term: &Term) -> Result<Vec<usize>, Fault>
    ensures ok { IfOk result (λ kept. kept.items ≡ places_where (λ pattern. fits pattern term.now) patterns.now) }
    ensures err { IfErr result (λ fault. fault ≡ Memory) }
{
    let mut kept = Vec::new(alloc);
    for place in 0..patterns.len() {
        if fits_at(patterns, place, term) {
            kept.push(place)?;
        }
    }
    Ok(kept)
}

// Those of the places at which a pattern fits a term.
fn fitting(
    alloc: Global,
    patterns: &[Term],
    places: &[usize],
    term: &Term,
) -> Result<Vec<usize>, Fault>
    ensures ok { IfOk result (λ kept. kept.items ≡ filter (passes (λ pattern. fits pattern term.now) patterns.now) places.now) }
    ensures err { IfErr result (λ fault. fault ≡ Memory) }
{
    let mut kept = Vec::new(alloc);
    for place in places {
        if fits_at(patterns, *place, term) {
            kept.push(*place)?;
        }
    }
    Ok(kept)
}

// Whether there is a pattern at the place, and it fits a term.
fn fits_at(patterns: &[Term], place: usize, term: &Term) -> bool
    ensures { result ≡ passes (λ pattern. fits pattern term.now) patterns.now place }
{
    match patterns.get(place) {
        Some(pattern) => fits(pattern, term),
        None => false,
    }
}
