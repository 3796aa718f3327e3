// Names for bound variables, which lines of a log do not have.

use crate::types::text_of_name;
use hol_check::{Claim, TermParts, TermView};
use hol_model::Fault;
use hol_syntax::Scope;
use hol_types::Ty;
use std::alloc::Global;
use std::collections::HashSet;

/// What kind of type a variable has. The names of each kind have letters of their own.
#[derive(Clone, Copy, PartialEq, Eq)]
pub(crate) enum Kind {
    Formula,
    Predicate,
    Function,
    Other,
}

// The kinds, in the order in which a table of names holds them.
const KINDS: [Kind; 4] = [Kind::Formula, Kind::Predicate, Kind::Function, Kind::Other];

impl Kind {
    /// The kind of a type.
    pub(crate) fn of(ty: &Ty) -> Kind {
        if ty.is_bool() {
            return Kind::Formula;
        }
        match ty.dest_fun() {
            Some((_, codomain)) if codomain.is_bool() => Kind::Predicate,
            Some(_) => Kind::Function,
            None => Kind::Other,
        }
    }

    // The letters of the names.
    fn letters(self) -> [&'static str; 3] {
        match self {
            Kind::Formula => ["p", "q", "r"],
            Kind::Predicate => ["P", "Q", "R"],
            Kind::Function => ["f", "g", "h"],
            Kind::Other => ["x", "y", "z"],
        }
    }

    // The name of a number: the letters alone, then each with 1 behind it, with 2, and so on.
    fn name(self, alloc: Global, number: usize) -> Result<String, Fault> {
        let letters = self.letters();
        let letter = letters[number % 3];
        let round = number / 3;
        if round == 0 {
            return Ok(String::from_str(alloc, letter)?);
        }
        Ok(format!(in alloc; "{letter}{round}")?)
    }
}

/// Names that stand for no constant of a scope and for no free variable of a claim or a definition, as many of each
/// kind as binders are open at once there.
#[derive(Drop)]
pub(crate) struct Names {
    formulas: Vec<String>,
    predicates: Vec<String>,
    functions: Vec<String>,
    others: Vec<String>,
}

// What is looked at before names are made up: the names of free variables, and the greatest number of binders that are
// open at once.
#[derive(Drop)]
struct Looked {
    taken: HashSet<String>,
    open: usize,
}

impl Looked {
    // Looks at a term that stands under so many binders.
    fn look(&mut self, alloc: Global, view: &TermView<'_>, open: usize) -> Result<(), Fault> {
        match view.parts() {
            TermParts::Free(name, _) => {
                let name = text_of_name(name)?;
                if !self.taken.contains(name) {
                    self.taken.insert(String::from_str(alloc, name)?)?;
                }
                Ok(())
            }
            TermParts::Constant(_, _) | TermParts::Bound(_) => Ok(()),
            TermParts::Application(function, argument) => {
                self.look(alloc, &function, open)?;
                self.look(alloc, &argument, open)
            }
            TermParts::Abstraction(_, body) => {
                let open = open.saturating_add(1);
                self.open = self.open.max(open);
                self.look(alloc, &body, open)
            }
        }
    }

    // The first names of a kind that are not taken.
    fn names(&self, alloc: Global, scope: &Scope, kind: Kind) -> Result<Vec<String>, Fault> {
        let mut names = Vec::new(alloc);
        for number in 0..usize::MAX {
            if names.len() >= self.open {
                break;
            }
            let name = kind.name(alloc, number)?;
            if !self.taken.contains(name.as_str()) && scope.const_type(name.as_str()).is_none() {
                names.push(name)?;
            }
        }
        Ok(names)
    }

    fn all_names(&self, alloc: Global, scope: &Scope) -> Result<Names, Fault> {
        let [formula, predicate, function, other] = KINDS;
        Ok(Names {
            formulas: self.names(alloc, scope, formula)?,
            predicates: self.names(alloc, scope, predicate)?,
            functions: self.names(alloc, scope, function)?,
            others: self.names(alloc, scope, other)?,
        })
    }
}

impl Names {
    /// Names for the bound variables of a term.
    pub(crate) fn for_term(
        alloc: Global,
        scope: &Scope,
        view: &TermView<'_>,
    ) -> Result<Names, Fault> {
        let mut looked = Looked {
            taken: HashSet::new(alloc),
            open: 0,
        };
        looked.look(alloc, view, 0)?;
        looked.all_names(alloc, scope)
    }

    /// Names for the bound variables of a claim.
    pub(crate) fn for_claim(alloc: Global, scope: &Scope, claim: &Claim) -> Result<Names, Fault> {
        let mut looked = Looked {
            taken: HashSet::new(alloc),
            open: 0,
        };
        for place in 0..claim.hyp_count() {
            if let Some(hyp) = claim.hyp(place) {
                looked.look(alloc, &hyp, 0)?;
            }
        }
        looked.look(alloc, &claim.concl(), 0)?;
        looked.all_names(alloc, scope)
    }

    /// The name of this kind behind so many.
    pub(crate) fn get(&self, kind: Kind, number: usize) -> Option<&str> {
        let names = match kind {
            Kind::Formula => &self.formulas,
            Kind::Predicate => &self.predicates,
            Kind::Function => &self.functions,
            Kind::Other => &self.others,
        };
        match names.get(number) {
            Some(name) => Some(name.as_str()),
            None => None,
        }
    }
}
