// The parts of quantified formulas.
ghost use Rattle.std.specs.Prelude.{◌≡◌, Some, true, IfSome};
ghost use Rattle.std.specs.Option.{is_some};
ghost use Rattle.hol_model.specs.Terms.NamedTerm.{combination, dest_abstraction};
ghost use Rattle.hol_model.specs.Logic.NamedLogic.{is_constant_named, dest_quantified};

use hol_terms::{Parts, Term};

/// A quantifier and the abstraction under it, with the abstraction's variable and body.
#[derive(Clone, Copy)]
pub struct Quantified<'a> {
    pub quantifier: &'a Term,
    pub predicate: &'a Term,
    pub binder: &'a Term,
    pub body: &'a Term,
}

/// The parts of the term, where a quantifier of this name stands over an abstraction.
pub fn quantified_parts<'a>(term: &'a Term, quantifier_name: &str) -> Option<Quantified<'a>>
    ensures whole { IfSome result (λ parts. term.now ≡ combination parts.quantifier.now parts.predicate.now) }
    ensures named { IfSome result (λ parts. is_constant_named quantifier_name.now parts.quantifier.now ≡ true) }
    ensures abstraction { IfSome result (λ parts. dest_abstraction parts.predicate.now ≡ Some (parts.binder.now, parts.body.now)) }
    ensures found { is_some result ≡ is_some (dest_quantified quantifier_name.now term.now) }
{
    match term.parts() {
        Parts::Combination(quantifier, predicate) => match quantifier.parts() {
            Parts::Constant(name, _) => {
                if name != quantifier_name {
                    return None;
                }
                match predicate.dest_abs() {
                    Some((binder, body)) => Some(Quantified {
                        quantifier,
                        predicate,
                        binder,
                        body,
                    }),
                    None => None,
                }
            }
            _ => None,
        },
        _ => None,
    }
}
