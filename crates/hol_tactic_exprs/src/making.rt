// The makers of compound expressions, and copies.
ghost use Rattle.std.specs.Prelude.{◌≡◌, map, IfOk, IfErr, string_bytes};
ghost use Rattle.hol_model.specs.declared.fault.Fault.TheVariants.{Memory};
ghost use Rattle.hol_model.specs.Refining.Conversions as conversions;
ghost use Rattle.hol_model.specs.Refining.Combinators as combinators;
ghost use Rattle.hol_tactic_exprs.specs.Expressions.{conversion_of, conversions_of, with_prefix, leaf_of, tactic_of, tactics_of, link_of, links_of};

use crate::conv::{Conv, Prefix};
use crate::leaf::Leaf;
use crate::tac::{Link, Tac};
use hol_model::Fault;
use hol_terms::Term;
use std::alloc::Global;

impl Conv {
    /// `first THENC ..`. Refused: Memory.
    #[tactic(auto, using(crate::proofs::Rows::then_means))]
    pub fn thenc(alloc: Global, first: Conv, others: Vec<Conv>) -> Result<Conv, Fault>
        ensures ok { IfOk result (λ made. conversion_of made ≡ conversions.thenc (conversion_of first) (conversions_of others.items)) }
        ensures err { IfErr result (λ fault. fault ≡ Memory) }
    {
        Ok(Conv::Then(Box::new(alloc, first)?, others))
    }

    /// `first ORELSEC ..`. Refused: Memory.
    #[tactic(auto, using(crate::proofs::Rows::or_else_means))]
    pub fn orelsec(alloc: Global, first: Conv, others: Vec<Conv>) -> Result<Conv, Fault>
        ensures ok { IfOk result (λ made. conversion_of made ≡ conversions.orelsec (conversion_of first) (conversions_of others.items)) }
        ensures err { IfErr result (λ fault. fault ≡ Memory) }
    {
        Ok(Conv::OrElse(Box::new(alloc, first)?, others))
    }

    /// A conversional in front of a conversion. Refused: Memory.
    pub fn prefixed(alloc: Global, prefix: Prefix, conv: Conv) -> Result<Conv, Fault>
        ensures ok { IfOk result (λ made. conversion_of made ≡ with_prefix prefix (conversion_of conv)) }
        ensures err { IfErr result (λ fault. fault ≡ Memory) }
    {
        Ok(Conv::Prefixed(prefix, Box::new(alloc, conv)?))
    }

    /// The same conversion. Refused: Memory.
    #[cycle(copying_conv)]
    pub fn copy(&self, alloc: Global) -> Result<Conv, Fault>
        ensures ok { IfOk result (λ made. conversion_of made ≡ conversion_of self.now) }
        ensures err { IfErr result (λ fault. fault ≡ Memory) }
    {
        match self {
            Conv::All => Ok(Conv::All),
            Conv::No => Ok(Conv::No),
            Conv::Beta => Ok(Conv::Beta),
            Conv::Rewr(name) => Ok(Conv::Rewr(name.clone()?)),
            Conv::Host(name) => Ok(Conv::Host(name.clone()?)),
            Conv::Then(first, others) => {
                Conv::thenc(alloc, first.copy(alloc)?, conv_copies(alloc, others)?)
            }
            Conv::OrElse(first, others) => {
                Conv::orelsec(alloc, first.copy(alloc)?, conv_copies(alloc, others)?)
            }
            Conv::Prefixed(prefix, conv) => Conv::prefixed(alloc, *prefix, conv.copy(alloc)?),
        }
    }
}

#[cycle(copying_conv)]
fn conv_copies(alloc: Global, convs: &[Conv]) -> Result<Vec<Conv>, Fault>
    ensures ok { IfOk result (λ made. map conversion_of made.items ≡ map conversion_of convs.now) }
    ensures err { IfErr result (λ fault. fault ≡ Memory) }
{
    let mut copies = Vec::new(alloc);
    for conv in convs {
        copies.push(conv.copy(alloc)?)?;
    }
    Ok(copies)
}

/// The same names. Refused: Memory.
pub fn name_copies(alloc: Global, names: &[String]) -> Result<Vec<String>, Fault>
    ensures ok { IfOk result (λ made. map string_bytes made.items ≡ map string_bytes names.now) }
    ensures err { IfErr result (λ fault. fault ≡ Memory) }
{
    let mut copies = Vec::new(alloc);
    for name in names {
        copies.push(name.clone()?)?;
    }
    Ok(copies)
}

/// The refiner of the same kind, with the same names and conversion, and a quoted term that is made of the other's.
#[macro_export]
macro_rules! leaf_like {
    ($alloc:expr, $leaf:expr, $quote:ident => $made:expr) => {
        match $leaf {
            $crate::Leaf::All => Ok($crate::Leaf::All),
            $crate::Leaf::No => Ok($crate::Leaf::No),
            $crate::Leaf::Accept(name) => Ok($crate::Leaf::Accept(name.clone()?)),
            $crate::Leaf::Assumption => Ok($crate::Leaf::Assumption),
            $crate::Leaf::Assume(name) => Ok($crate::Leaf::Assume(name.clone()?)),
            $crate::Leaf::Refl => Ok($crate::Leaf::Refl),
            $crate::Leaf::Conj => Ok($crate::Leaf::Conj),
            $crate::Leaf::Eq => Ok($crate::Leaf::Eq),
            $crate::Leaf::Disj1 => Ok($crate::Leaf::Disj1),
            $crate::Leaf::Disj2 => Ok($crate::Leaf::Disj2),
            $crate::Leaf::Disch => Ok($crate::Leaf::Disch),
            $crate::Leaf::Gen => Ok($crate::Leaf::Gen),
            $crate::Leaf::Exists($quote) => Ok($crate::Leaf::Exists($made)),
            $crate::Leaf::Mp(name) => Ok($crate::Leaf::Mp(name.clone()?)),
            $crate::Leaf::DisjCases(name) => Ok($crate::Leaf::DisjCases(name.clone()?)),
            $crate::Leaf::Choose(name) => Ok($crate::Leaf::Choose(name.clone()?)),
            $crate::Leaf::Undisch($quote) => Ok($crate::Leaf::Undisch($made)),
            $crate::Leaf::Conv(conv) => Ok($crate::Leaf::Conv(conv.copy($alloc)?)),
            $crate::Leaf::Rewrite(names) => Ok($crate::Leaf::Rewrite($crate::name_copies($alloc, names)?)),
            $crate::Leaf::Taut => Ok($crate::Leaf::Taut),
        }
    };
}

impl Leaf<Term> {
    /// The same refiner. Refused: Memory.
    pub fn copy(&self, alloc: Global) -> Result<Leaf<Term>, Fault>
        ensures ok { IfOk result (λ made. leaf_of made ≡ leaf_of self.now) }
        ensures err { IfErr result (λ fault. fault ≡ Memory) }
    {
        leaf_like!(alloc, self, quote => quote.copy(alloc)?)
    }
}

impl Tac<Term> {
    /// THEN and THENL, one link after another. Refused: Memory.
    #[tactic(auto, using(crate::proofs::Rows::chain_means))]
    pub fn chain(
        alloc: Global,
        first: Tac<Term>,
        links: Vec<Link<Term>>,
    ) -> Result<Tac<Term>, Fault>
        ensures ok { IfOk result (λ made. tactic_of made ≡ combinators.chain (tactic_of first) (links_of links.items)) }
        ensures err { IfErr result (λ fault. fault ≡ Memory) }
    {
        Ok(Tac::Chain(Box::new(alloc, first)?, links))
    }

    /// `first ORELSE ..`. Refused: Memory.
    #[tactic(auto, using(crate::proofs::Rows::orelse_means))]
    pub fn orelse(
        alloc: Global,
        first: Tac<Term>,
        others: Vec<Tac<Term>>,
    ) -> Result<Tac<Term>, Fault>
        ensures ok { IfOk result (λ made. tactic_of made ≡ combinators.orelse (tactic_of first) (tactics_of others.items)) }
        ensures err { IfErr result (λ fault. fault ≡ Memory) }
    {
        Ok(Tac::OrElse(Box::new(alloc, first)?, others))
    }

    /// REPEAT. Refused: Memory.
    pub fn repeat(alloc: Global, tac: Tac<Term>) -> Result<Tac<Term>, Fault>
        ensures ok { IfOk result (λ made. tactic_of made ≡ combinators.repeat (tactic_of tac)) }
        ensures err { IfErr result (λ fault. fault ≡ Memory) }
    {
        Ok(Tac::Repeat(Box::new(alloc, tac)?))
    }

    /// TRY. Refused: Memory.
    pub fn try_tac(alloc: Global, tac: Tac<Term>) -> Result<Tac<Term>, Fault>
        ensures ok { IfOk result (λ made. tactic_of made ≡ combinators.try (tactic_of tac)) }
        ensures err { IfErr result (λ fault. fault ≡ Memory) }
    {
        Ok(Tac::Try(Box::new(alloc, tac)?))
    }

    /// The same expression. Refused: Memory.
    #[cycle(copying_tac)]
    pub fn copy(&self, alloc: Global) -> Result<Tac<Term>, Fault>
        ensures ok { IfOk result (λ made. tactic_of made ≡ tactic_of self.now) }
        ensures err { IfErr result (λ fault. fault ≡ Memory) }
    {
        match self {
            Tac::Leaf(leaf) => Ok(Tac::Leaf(leaf.copy(alloc)?)),
            Tac::Host(name) => Ok(Tac::Host(name.clone()?)),
            Tac::Chain(first, links) => {
                Tac::chain(alloc, first.copy(alloc)?, link_copies(alloc, links)?)
            }
            Tac::OrElse(first, others) => {
                Tac::orelse(alloc, first.copy(alloc)?, tac_copies(alloc, others)?)
            }
            Tac::Repeat(tac) => Tac::repeat(alloc, tac.copy(alloc)?),
            Tac::Try(tac) => Tac::try_tac(alloc, tac.copy(alloc)?),
        }
    }
}

#[cycle(copying_tac)]
fn tac_copies(alloc: Global, tacs: &[Tac<Term>]) -> Result<Vec<Tac<Term>>, Fault>
    ensures ok { IfOk result (λ made. map tactic_of made.items ≡ map tactic_of tacs.now) }
    ensures err { IfErr result (λ fault. fault ≡ Memory) }
{
    let mut copies = Vec::new(alloc);
    for tac in tacs {
        copies.push(tac.copy(alloc)?)?;
    }
    Ok(copies)
}

impl Link<Term> {
    /// The same link. Refused: Memory.
    #[cycle(copying_tac)]
    #[tactic(auto, using(crate::proofs::Rows::thenl_means))]
    pub fn copy(&self, alloc: Global) -> Result<Link<Term>, Fault>
        ensures ok { IfOk result (λ made. link_of made ≡ link_of self.now) }
        ensures err { IfErr result (λ fault. fault ≡ Memory) }
    {
        match self {
            Link::Then(tac) => Ok(Link::Then(tac.copy(alloc)?)),
            Link::Thenl(tacs) => Ok(Link::Thenl(tac_copies(alloc, tacs)?)),
        }
    }
}

#[cycle(copying_tac)]
fn link_copies(alloc: Global, links: &[Link<Term>]) -> Result<Vec<Link<Term>>, Fault>
    ensures ok { IfOk result (λ made. map link_of made.items ≡ map link_of links.now) }
    ensures err { IfErr result (λ fault. fault ≡ Memory) }
{
    let mut copies = Vec::new(alloc);
    for link in links {
        copies.push(link.copy(alloc)?)?;
    }
    Ok(copies)
}
