// A term of the logic.
ghost use Rattle.std.specs.Prelude.{◌≡◌, ◌<◌, ◌≤◌, ◌↔◌, [], ◌∷◌, Some, Ok, Err, IfOk, IfErr, IfSome, IsTrue, IsFalse, IsNone, IsOk, IsSome, IsSomeAnd, Contains};
ghost use Rattle.std.specs.Option.{option_map};
ghost use Rattle.hol_model.specs.Terms.NamedTerm as spec;
ghost use Rattle.hol_model.specs.Terms.NamedTerm.{NamedTerm, variable, constant, combination, abstraction, height, nodes, type_of, is_within_limits, is_variable, abstract, dest_variable, dest_constant, dest_combination, dest_abstraction};
ghost use Rattle.hol_model.specs.Terms.Name.{is_identifier, is_constant_name};
ghost use Rattle.hol_model.specs.Terms.WellNamed.{is_well_named};
ghost use Rattle.hol_model.specs.Kernel.Outcome.{Answers};
ghost use Rattle.hol_model.specs.Kernel.Rules.{abstraction_outcome};
ghost use Rattle.hol_model.specs.Kernel.Constructors.{variable_outcome, constant_outcome, combination_outcome};
ghost use Rattle.hol_model.specs.declared.fault.Fault.TheVariants.{Memory, TooLarge, BadName, TypeMismatch, NotVariable};

use crate::{NameClasses, mark};
use hol_model::{Fault, TERM_HEIGHT_LIMIT, TERM_NODES_LIMIT};
use hol_types::Ty;
use std::alloc::Global;
use std::marker::Model;
use std::rc::Rc;

/// A term of the logic: well typed and within the limits. Copies share their nodes.
#[cycle(term)]
#[derive(Drop)]
pub struct Term {
    node: Rc<TermNode>,
}

#[cycle(term)]
#[derive(Drop)]
struct TermNode {
    nodes: u32,
    height: u32,
    // A number that is made of the whole term.
    mark: u32,
    // Whether a type variable stands in a type of the term.
    has_tyvars: bool,
    // Whether an abstraction stands in the term.
    has_binders: bool,
    // The classes of the names of the variables in the term, binders left out.
    names: NameClasses,
    ty: Ty,
    shape: TermShape,
}

#[cycle(term)]
#[derive(Drop)]
enum TermShape {
    Variable(String),
    Constant(String),
    Combination(Term, Term),
    // The variable that is bound, and the body.
    Abstraction(Term, Term),
}

/// The parts of a term.
#[derive(Clone, Copy)]
pub enum Parts<'a> {
    Variable(&'a str, &'a Ty),
    Constant(&'a str, &'a Ty),
    Combination(&'a Term, &'a Term),
    // The name and the type of the variable that is bound, and the body.
    Abstraction(&'a str, &'a Ty, &'a Term),
}

impl Model for Term {
    ghost use Rattle.hol_model.specs.Terms.NamedTerm.{NamedTerm};
    ghost use Rattle.hol_model.specs.Terms.NamedTermCode.{term_code};

    ghost Value = { NamedTerm };

    ghost coded = { term_code };

    ghost use Rattle.hol_terms.specs.Term.{term_of_node, IsTermNode, weight};
    ghost use Rattle.std.proofs.Common.{arith};

    ghost view = { λ term. term_of_node term.node.value };

    ghost invariant = { λ term. IsTermNode term.node.value };

    ghost size = { weight };

    ghost size_decreases = { λ a h. Prim.grind arith };
}

impl Term {
    ghost use Rattle.hol_terms.specs.Parts.{term_of_parts, HasNames};
    ghost use Rattle.hol_terms.specs.Term.{term_of_node, term_of_shape, IsTermNode, IsLeaf, IsNamed};
    ghost use Rattle.hol_terms.specs.Classes.{classes_of_names};
    ghost use Rattle.hol_terms.specs.TypeVariables.{has_type_variables};
    ghost use Rattle.hol_terms.specs.Binders.{has_abstractions};

    fn from_node(alloc: Global, node: TermNode) -> Result<Term, Fault>
        requires { IsTermNode node }
        ensures ok { IfOk result (λ term. term ≡ term_of_node node) }
        ensures err { IfErr result (λ fault. fault ≡ Memory) }
    {
        let node = Rc::new(alloc, node)?;
        Ok(Term { node })
    }

    /// The same term, by the same nodes.
    pub fn copy(&self, _alloc: Global) -> Result<Term, Fault>
        ensures ok { IfOk result (λ term. term ≡ self.now) }
        ensures err { IfErr result (λ fault. fault ≡ Memory) }
    {
        Ok(Term {
            node: self.node.clone()?,
        })
    }

    /// The number of nodes that the term is written with.
    pub fn nodes(&self) -> u32
        ensures count { result ≡ nodes self.now }
        ensures limit { result ≤ TERM_NODES_LIMIT }
    {
        self.node.nodes
    }

    /// The height of the term: 1 for a variable or constant, else one more than its highest part.
    pub fn height(&self) -> u32
        ensures value { result ≡ height self.now }
        ensures limit { result ≤ TERM_HEIGHT_LIMIT }
    {
        self.node.height
    }

    /// A number that is made of the whole term, by which tables find it fast. Nothing is said of it: two terms may have one mark, so
    /// what is found by it is tested.
    pub fn mark(&self) -> u32 {
        self.node.mark
    }

    /// Whether a type variable stands in a type that the term is written with.
    pub fn has_tyvars(&self) -> bool
        ensures { result ≡ has_type_variables self.now }
    {
        self.node.has_tyvars
    }

    /// Whether an abstraction stands in the term.
    pub fn has_binders(&self) -> bool
        ensures { result ≡ has_abstractions self.now }
    {
        self.node.has_binders
    }

    /// The classes of the names of the term's variables, binders left out: a variable whose name has another class is
    /// not free in the term.
    pub fn names(&self) -> NameClasses
        ensures { result.bits ≡ classes_of_names self.now }
    {
        self.node.names
    }

    /// A term is well typed and within the limits. Nothing is computed: the clauses are the law, for callers' proofs.
    pub fn well_formed(&self)
        ensures typed { IsSome (type_of self.now) }
        ensures within_limits { IsTrue (is_within_limits self.now) }
    {
        let _node = &self.node;
    }

    /// Each name in the term is of its kind, bound names too. Nothing is computed: the clause is the law, for callers' proofs.
    pub fn well_named(&self)
        ensures { IsTrue (is_well_named self.now) }
    {
        let _node = &self.node;
    }

    /// The type of the term.
    pub fn ty(&self) -> &Ty
        ensures { type_of self.now ≡ Some result.now }
    {
        &self.node.ty
    }

    /// A copy of the type of the term.
    pub fn type_of(&self, alloc: Global) -> Result<Ty, Fault>
        ensures ok { IfOk result (λ ty. type_of self.now ≡ Some ty) }
        ensures err { IfErr result (λ fault. fault ≡ Memory) }
    {
        self.node.ty.copy(alloc)
    }

    /// The variable of this name and type.
    pub fn mk_var(alloc: Global, name: &str, ty: &Ty) -> Result<Term, Fault>
        ensures outcome { Answers result (variable_outcome name.now ty.now) }
    {
        if !hol_model::is_identifier(name.as_bytes()) {
            return Err(Fault::BadName);
        }
        let shape = TermShape::Variable(String::from_str(alloc, name)?);
        let mark = mark::of_variable(name, ty);
        Term::leaf(alloc, ty, NameClasses::of_name(name), mark, shape)
    }

    /// The constant of this name and type.
    pub fn mk_const(alloc: Global, name: &str, ty: &Ty) -> Result<Term, Fault>
        ensures outcome { Answers result (constant_outcome name.now ty.now) }
    {
        if !hol_model::is_constant_name(name.as_bytes()) {
            return Err(Fault::BadName);
        }
        let shape = TermShape::Constant(String::from_str(alloc, name)?);
        let mark = mark::of_constant(name, ty);
        Term::leaf(alloc, ty, NameClasses::none(), mark, shape)
    }

    // The variable or the constant of this shape.
    fn leaf(
        alloc: Global,
        ty: &Ty,
        names: NameClasses,
        mark: u32,
        shape: TermShape,
    ) -> Result<Term, Fault>
        requires leaf { IsLeaf shape }
        requires named { IsNamed shape }
        requires classed { names.bits ≡ classes_of_names (term_of_shape shape ty.now) }
        ensures ok { IfOk result (λ term. term ≡ term_of_shape shape ty.now) }
        ensures err { IfErr result (λ fault. fault ≡ Memory) }
    {
        let _within_limit = ty.nodes();
        ty.well_named();
        let ty = ty.copy(alloc)?;
        let has_tyvars = ty.has_tyvars();
        Term::from_node(
            alloc,
            TermNode {
                nodes: 1,
                height: 1,
                mark,
                has_tyvars,
                has_binders: false,
                names,
                ty,
                shape,
            },
        )
    }

    /// A function applied to an argument.
    pub fn mk_comb(alloc: Global, function: &Term, argument: &Term) -> Result<Term, Fault>
        ensures outcome { Answers result (combination_outcome function.now argument.now) }
    {
        let Some(ty) = answer_type(&function.node.ty, &argument.node.ty) else {
            return Err(Fault::TypeMismatch);
        };
        let nodes = function.node.nodes + argument.node.nodes + 1;
        let height = function.node.height.max(argument.node.height) + 1;
        if nodes > TERM_NODES_LIMIT || height > TERM_HEIGHT_LIMIT {
            return Err(Fault::TooLarge);
        }
        let ty = ty.copy(alloc)?;
        let has_tyvars = function.node.has_tyvars || argument.node.has_tyvars;
        let has_binders = function.node.has_binders || argument.node.has_binders;
        let names = function.node.names.union(argument.node.names);
        let mark = mark::of_combination(function.node.mark, argument.node.mark);
        let shape = TermShape::Combination(function.copy(alloc)?, argument.copy(alloc)?);
        let node = TermNode {
            nodes,
            height,
            mark,
            has_tyvars,
            has_binders,
            names,
            ty,
            shape,
        };
        Term::from_node(alloc, node)
    }

    /// The abstraction of a variable over a body.
    pub fn mk_abs(alloc: Global, binder: &Term, body: &Term) -> Result<Term, Fault>
        ensures outcome { Answers result (abstraction_outcome binder.now body.now) }
    {
        let TermShape::Variable(_) = &binder.node.shape else {
            return Err(Fault::NotVariable);
        };
        let nodes = body.node.nodes + 1;
        let height = body.node.height + 1;
        if nodes > TERM_NODES_LIMIT || height > TERM_HEIGHT_LIMIT {
            return Err(Fault::TooLarge);
        }
        let ty = Ty::fun(alloc, &binder.node.ty, &body.node.ty)?;
        let _within_limit = ty.nodes();
        let has_tyvars = binder.node.has_tyvars || body.node.has_tyvars;
        let names = body.node.names;
        let mark = mark::of_abstraction(binder.node.mark, body.node.mark);
        let shape = TermShape::Abstraction(binder.copy(alloc)?, body.copy(alloc)?);
        let node = TermNode {
            nodes,
            height,
            mark,
            has_tyvars,
            has_binders: true,
            names,
            ty,
            shape,
        };
        Term::from_node(alloc, node)
    }

    /// The parts of the term.
    pub fn parts(&self) -> Parts<'_>
        ensures value { term_of_parts result ≡ self.now }
        ensures named { HasNames result }
    {
        match &self.node.shape {
            TermShape::Variable(name) => Parts::Variable(name.as_str(), &self.node.ty),
            TermShape::Constant(name) => Parts::Constant(name.as_str(), &self.node.ty),
            TermShape::Combination(function, argument) => Parts::Combination(function, argument),
            TermShape::Abstraction(binder, body) => match &binder.node.shape {
                TermShape::Variable(name) => Parts::Abstraction(
                    name.as_str(),
                    &binder.node.ty,
                    body,
                ),
                _ => unreachable!(),
            },
        }
    }

    /// Whether the term is a variable.
    pub fn is_var(&self) -> bool
        ensures { result ≡ is_variable self.now }
    {
        matches!(&self.node.shape, TermShape::Variable(_))
    }

    /// The name and the type of a variable.
    pub fn dest_var(&self) -> Option<(&str, &Ty)>
        ensures named { IfSome result (λ parts. IsTrue (is_identifier parts.0.now)) }
        ensures parts { option_map (λ parts. (parts.0.now, parts.1.now)) result ≡ dest_variable self.now }
    {
        match &self.node.shape {
            TermShape::Variable(name) => Some((name.as_str(), &self.node.ty)),
            _ => None,
        }
    }

    /// The name and the type of a constant.
    pub fn dest_const(&self) -> Option<(&str, &Ty)>
        ensures { option_map (λ parts. (parts.0.now, parts.1.now)) result ≡ dest_constant self.now }
    {
        match &self.node.shape {
            TermShape::Constant(name) => Some((name.as_str(), &self.node.ty)),
            _ => None,
        }
    }

    /// The function and the argument of a combination.
    pub fn dest_comb(&self) -> Option<(&Term, &Term)>
        ensures { option_map (λ parts. (parts.0.now, parts.1.now)) result ≡ dest_combination self.now }
    {
        match &self.node.shape {
            TermShape::Combination(function, argument) => Some((function, argument)),
            _ => None,
        }
    }

    /// The variable and the body of an abstraction.
    pub fn dest_abs(&self) -> Option<(&Term, &Term)>
        ensures { option_map (λ parts. (parts.0.now, parts.1.now)) result ≡ dest_abstraction self.now }
    {
        match &self.node.shape {
            TermShape::Abstraction(binder, body) => Some((binder, body)),
            _ => None,
        }
    }
}

// The type of a function's answer, where the function takes arguments of the second type.
fn answer_type<'a>(function: &'a Ty, argument: &Ty) -> Option<&'a Ty>
    ensures { option_map (λ ty. ty.now) result ≡ spec.answer_type function.now argument.now }
{
    match function.dest_fun() {
        Some((domain, codomain)) if domain.eq(argument) => Some(codomain),
        _ => None,
    }
}
