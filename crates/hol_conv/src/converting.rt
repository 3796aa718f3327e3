// Tries conversions.
ghost use Rattle.std.specs.Prelude.{◌≡◌, ◌<◌, ◌+◌, ℕ};
ghost use Rattle.hol_model.specs.declared.limits.TheConstants.{DESCENTS_LIMIT};
ghost use Rattle.hol_model.specs.Refining.Conversions as conversions;
ghost use Rattle.hol_laws_refiners.proofs.Repeating.{IsFinal};
ghost use Rattle.hol_tactic_exprs.specs.Expressions.{conversion_of};
ghost use Rattle.hol_conv.specs.Makes.{Makes};
ghost use Rattle.hol_conv.specs.Converted.{answered, MakesAnswer};
ghost use Rattle.hol_conv.specs.Leaves.{IsLeaf, stands_for, thenc_of, orelsec_of};
ghost use Rattle.hol_conv.specs.Answers.{IsAsked, ConvertsOver, AnswersOver, AnswersBehind, top_depth_again, rest_of_top_depth};
ghost use Rattle.hol_conv.specs.Chains.{IsChainFrom};

use crate::chain::{Chain, Linked, begin_by, changed, link, or_same, same};
use crate::converted::{
    Answer, as_answer, of_argument, of_body, of_function, of_parts, right_of, then, theorem,
};
use crate::leaves::{Leaves, Made, is_made_anew};
use crate::parts::{Halves, abstraction, combination};
use hol_model::{DESCENTS_LIMIT, Fault};
use hol_tactic_exprs::{Conv, Fuel, Prefix, is_caught};
use hol_terms::{Parts, Term};
use hol_theorem_library::Library;

/// Tries a conversion on a known term, where so many descents are open: the answer is one that it may have, with the steps that
/// it leaves (hol_model, Conversions). Refused: what a conversion without parts is refused for, StepLimit where no step is left;
/// ConvFails where the term has no such part, or ABS_CONV's variable is free in a hypothesis; TooLarge where so many descents
/// are open as the limit allows, or an equation on the way is; Memory. ORELSEC, TRY_CONV and REPEATC catch all but StepLimit,
/// TooLarge and Memory.
pub fn convert<L: Leaves>(
    library: &mut Library,
    leaves: &L,
    conv: &Conv,
    t: &Term,
    depth: u32,
    fuel: &mut Fuel,
) -> Made
    requires asked { IsAsked (L.is_ready leaves.now) library.old t.now }
    ensures converts { ConvertsOver library.old (L.hosts leaves.now) depth fuel.old.left (stands_for (L.means leaves.now) conv.now) t.now result fuel.new.left }
    ensures makes { Makes library.old library.new result }
{
    let answer = Level { leaves, depth }.converted(library, conv, t, fuel);
    theorem(library, t, answer)
}

// What tries the conversions without parts, and how many descents are open.
#[derive(Drop)]
struct Level<'a, L> {
    leaves: &'a L,
    depth: u32,
}

// The conversions that THENC or ORELSEC chains.
#[derive(Clone, Copy)]
struct Convs<'a> {
    first: &'a Conv,
    others: &'a [Conv],
}

// DEPTH_CONV, ONCE_DEPTH_CONV or TOP_DEPTH_CONV, and its part.
#[derive(Clone, Copy)]
struct Deep<'a> {
    conv: &'a Conv,
    part: &'a Conv,
}

impl<L: Leaves> Level<'_, L> {
    // A conversion without parts: what it answers is a theorem.
    fn leaf(&self, library: &mut Library, conv: &Conv, t: &Term, fuel: &mut Fuel) -> Answer
        requires leaf { IsLeaf conv.now }
        requires asked { IsAsked (L.is_ready self.now.leaves.now) library.old t.now }
        ensures converts { (depth : ℕ) → AnswersOver library.old (L.hosts self.now.leaves.now) depth fuel.old.left (stands_for (L.means self.now.leaves.now) conv.now) t.now result fuel.new.left }
        ensures makes { MakesAnswer library.old library.new t.now result }
    {
        let made = self.leaves.try_leaf(library, conv, t, fuel);
        as_answer(made, is_made_anew(conv))
    }

    // The same, where no theorem is made of what does not change.
    #[cycle(converted)]
    fn converted(&self, library: &mut Library, conv: &Conv, t: &Term, fuel: &mut Fuel) -> Answer
        requires asked { IsAsked (L.is_ready self.now.leaves.now) library.old t.now }
        ensures converts { AnswersOver library.old (L.hosts self.now.leaves.now) self.now.depth fuel.old.left (stands_for (L.means self.now.leaves.now) conv.now) t.now result fuel.new.left }
        ensures makes { MakesAnswer library.old library.new t.now result }
    {
        match conv {
            Conv::All => self.leaf(library, conv, t, fuel),
            Conv::No => self.leaf(library, conv, t, fuel),
            Conv::Beta => self.leaf(library, conv, t, fuel),
            Conv::Rewr(_) => self.leaf(library, conv, t, fuel),
            Conv::Host(_) => self.leaf(library, conv, t, fuel),
            Conv::Then(first, others) => self.thenc(library, Convs { first, others }, t, fuel),
            Conv::OrElse(first, others) => self.orelsec(library, Convs { first, others }, t, fuel),
            Conv::Prefixed(prefix, part) => match *prefix {
                Prefix::Repeat => self.repeatc(library, part, t, fuel),
                Prefix::Try => {
                    let made = self.converted(library, part, t, fuel);
                    or_same(library, t, made, fuel)
                }
                Prefix::Rand => self.rand_conv(library, part, t, fuel),
                Prefix::Rator => self.rator_conv(library, part, t, fuel),
                Prefix::Abs => self.abs_conv(library, part, t, fuel),
                Prefix::Sub => self.sub_conv(library, part, t, fuel),
                Prefix::Depth => self.depth_conv(library, Deep { conv, part }, t, fuel),
                Prefix::OnceDepth => self.once_depth_conv(library, Deep { conv, part }, t, fuel),
                Prefix::TopDepth => self.top_depth_conv(library, Deep { conv, part }, t, fuel),
            },
        }
    }

    // THENC, joined by TRANS from the left.
    #[cycle(converted)]
    fn thenc(&self, library: &mut Library, convs: Convs, t: &Term, fuel: &mut Fuel) -> Answer
        requires asked { IsAsked (L.is_ready self.now.leaves.now) library.old t.now }
        ensures converts { AnswersOver library.old (L.hosts self.now.leaves.now) self.now.depth fuel.old.left
            (thenc_of (L.means self.now.leaves.now) convs.entry.first.now convs.entry.others.now) t.now result fuel.new.left }
        ensures makes { MakesAnswer library.old library.new t.now result }
    {
        let mut made = self.converted(library, convs.first, t, fuel)?;
        for other in convs.others {
            let right = right_of(library, t, &made);
            let next = self.converted(library, other, right, fuel);
            made = then(library, t, &made, right, next)?;
        }
        Ok(made)
    }

    // ORELSEC.
    #[cycle(converted)]
    fn orelsec(&self, library: &mut Library, convs: Convs, t: &Term, fuel: &mut Fuel) -> Answer
        requires asked { IsAsked (L.is_ready self.now.leaves.now) library.old t.now }
        ensures converts { AnswersOver library.old (L.hosts self.now.leaves.now) self.now.depth fuel.old.left
            (orelsec_of (L.means self.now.leaves.now) convs.entry.first.now convs.entry.others.now) t.now result fuel.new.left }
        ensures makes { MakesAnswer library.old library.new t.now result }
    {
        let mut fault = match self.converted(library, convs.first, t, fuel) {
            Ok(made) => return Ok(made),
            Err(fault) => fault,
        };
        for other in convs.others {
            if !is_caught(&fault) {
                return Err(fault);
            }
            match self.converted(library, other, t, fuel) {
                Ok(made) => return Ok(made),
                Err(next) => fault = next,
            }
        }
        Err(fault)
    }

    // REPEATC, joined by TRANS from the right. What refuses it is not caught. No chain is begun for what is refused at once.
    #[cycle(converted)]
    fn repeatc(&self, library: &mut Library, conv: &Conv, t: &Term, fuel: &mut Fuel) -> Answer
        requires asked { IsAsked (L.is_ready self.now.leaves.now) library.old t.now }
        ensures converts { AnswersOver library.old (L.hosts self.now.leaves.now) self.now.depth fuel.old.left
            (conversions.repeatc (stands_for (L.means self.now.leaves.now) conv.now)) t.now result fuel.new.left }
        ensures last { IsFinal (answered library.old.recorder.theory t.now result) }
        ensures makes { MakesAnswer library.old library.new t.now result }
    {
        let made = match self.converted(library, conv, t, fuel) {
            Ok(made) => made,
            Err(fault) => return or_same(library, t, Err(fault), fuel),
        };
        let chain = begin_by(library, t, made)?;
        self.repeat_on(library, conv, t, chain, fuel)
    }

    // What REPEATC comes to on a term behind a chain from it. It stands apart, since most terms begin no chain.
    #[cycle(converted)]
    fn repeat_on(
        &self,
        library: &mut Library,
        conv: &Conv,
        t: &Term,
        chain: Chain,
        fuel: &mut Fuel,
    ) -> Answer
        requires asked { IsAsked (L.is_ready self.now.leaves.now) library.old t.now }
        requires chain { IsChainFrom library.old t.now chain }
        ensures converts { AnswersBehind library.old (L.hosts self.now.leaves.now) self.now.depth (conversions.repeatc (stands_for (L.means self.now.leaves.now) conv.now)) t.now
            (conversions.repeatc (stands_for (L.means self.now.leaves.now) conv.now)) chain fuel.old.left result fuel.new.left }
        ensures makes { MakesAnswer library.old library.new t.now result }
    {
        let mut chain = chain;
        loop {
            let next = self.converted(library, conv, &chain.current, fuel);
            chain = match link(library, t, chain, next, fuel) {
                Linked::GoesOn(chain) => chain,
                Linked::Ends(result) => return result,
            };
        }
    }

    // Tries a conversion on a part of a term.
    #[cycle(converted)]
    fn below(&self, library: &mut Library, conv: &Conv, part: &Term, fuel: &mut Fuel) -> Answer
        requires room { self.now.depth < DESCENTS_LIMIT }
        requires asked { IsAsked (L.is_ready self.now.leaves.now) library.old part.now }
        ensures converts { AnswersOver library.old (L.hosts self.now.leaves.now) (self.now.depth + 1) fuel.old.left (stands_for (L.means self.now.leaves.now) conv.now) part.now result fuel.new.left }
        ensures makes { MakesAnswer library.old library.new part.now result }
    {
        let deeper = Level {
            leaves: self.leaves,
            depth: self.depth + 1,
        };
        deeper.converted(library, conv, part, fuel)
    }

    // RAND_CONV.
    #[cycle(converted)]
    fn rand_conv(&self, library: &mut Library, conv: &Conv, t: &Term, fuel: &mut Fuel) -> Answer
        requires asked { IsAsked (L.is_ready self.now.leaves.now) library.old t.now }
        ensures converts { AnswersOver library.old (L.hosts self.now.leaves.now) self.now.depth fuel.old.left
            (conversions.rand_conv (stands_for (L.means self.now.leaves.now) conv.now)) t.now result fuel.new.left }
        ensures makes { MakesAnswer library.old library.new t.now result }
    {
        let halves = combination(t, self.depth)?;
        let part = self.below(library, conv, halves.argument, fuel);
        of_argument(library, t, halves, part)
    }

    // RATOR_CONV.
    #[cycle(converted)]
    fn rator_conv(&self, library: &mut Library, conv: &Conv, t: &Term, fuel: &mut Fuel) -> Answer
        requires asked { IsAsked (L.is_ready self.now.leaves.now) library.old t.now }
        ensures converts { AnswersOver library.old (L.hosts self.now.leaves.now) self.now.depth fuel.old.left
            (conversions.rator_conv (stands_for (L.means self.now.leaves.now) conv.now)) t.now result fuel.new.left }
        ensures makes { MakesAnswer library.old library.new t.now result }
    {
        let halves = combination(t, self.depth)?;
        let part = self.below(library, conv, halves.function, fuel);
        of_function(library, t, halves, part)
    }

    // ABS_CONV.
    #[cycle(converted)]
    fn abs_conv(&self, library: &mut Library, conv: &Conv, t: &Term, fuel: &mut Fuel) -> Answer
        requires asked { IsAsked (L.is_ready self.now.leaves.now) library.old t.now }
        ensures converts { AnswersOver library.old (L.hosts self.now.leaves.now) self.now.depth fuel.old.left
            (conversions.abs_conv (stands_for (L.means self.now.leaves.now) conv.now)) t.now result fuel.new.left }
        ensures makes { MakesAnswer library.old library.new t.now result }
    {
        let (binder, body) = abstraction(t, self.depth)?;
        let part = self.below(library, conv, body, fuel);
        of_body(library, t, binder, part)
    }

    // SUB_CONV.
    #[cycle(converted)]
    fn sub_conv(&self, library: &mut Library, conv: &Conv, t: &Term, fuel: &mut Fuel) -> Answer
        requires asked { IsAsked (L.is_ready self.now.leaves.now) library.old t.now }
        ensures converts { AnswersOver library.old (L.hosts self.now.leaves.now) self.now.depth fuel.old.left
            (conversions.sub_conv (stands_for (L.means self.now.leaves.now) conv.now)) t.now result fuel.new.left }
        ensures makes { MakesAnswer library.old library.new t.now result }
    {
        match t.parts() {
            Parts::Combination(function, argument) => {
                if DESCENTS_LIMIT <= self.depth {
                    return Err(Fault::TooLarge);
                }
                let first = self.below(library, conv, function, fuel)?;
                let second = self.below(library, conv, argument, fuel);
                of_parts(library, t, Halves { function, argument }, first, second)
            }
            Parts::Abstraction(_, _, _) => self.abs_conv(library, conv, t, fuel),
            Parts::Variable(_, _) => same(library, t, fuel),
            Parts::Constant(_, _) => same(library, t, fuel),
        }
    }

    // DEPTH_CONV.
    #[cycle(converted)]
    fn depth_conv(&self, library: &mut Library, deep: Deep, t: &Term, fuel: &mut Fuel) -> Answer
        requires whole { conversion_of deep.conv.now ≡ conversions.depth_conv (conversion_of deep.part.now) }
        requires asked { IsAsked (L.is_ready self.now.leaves.now) library.old t.now }
        ensures converts { AnswersOver library.old (L.hosts self.now.leaves.now) self.now.depth fuel.old.left
            (stands_for (L.means self.now.leaves.now) deep.entry.conv.now) t.now result fuel.new.left }
        ensures makes { MakesAnswer library.old library.new t.now result }
    {
        let below = self.sub_conv(library, deep.conv, t, fuel)?;
        let right = right_of(library, t, &below);
        let here = self.repeatc(library, deep.part, right, fuel);
        then(library, t, &below, right, here)
    }

    // ONCE_DEPTH_CONV.
    #[cycle(converted)]
    fn once_depth_conv(
        &self,
        library: &mut Library,
        deep: Deep,
        t: &Term,
        fuel: &mut Fuel,
    ) -> Answer
        requires whole { conversion_of deep.conv.now ≡ conversions.once_depth_conv (conversion_of deep.part.now) }
        requires asked { IsAsked (L.is_ready self.now.leaves.now) library.old t.now }
        ensures converts { AnswersOver library.old (L.hosts self.now.leaves.now) self.now.depth fuel.old.left
            (stands_for (L.means self.now.leaves.now) deep.entry.conv.now) t.now result fuel.new.left }
        ensures makes { MakesAnswer library.old library.new t.now result }
    {
        match self.converted(library, deep.part, t, fuel) {
            Ok(made) => Ok(made),
            Err(fault) => {
                if !is_caught(&fault) {
                    return Err(fault);
                }
                let made = self.sub_conv(library, deep.conv, t, fuel);
                or_same(library, t, made, fuel)
            }
        }
    }

    // TOP_DEPTH_CONV: REPEATC, and the rest on its right side.
    #[cycle(converted)]
    fn top_depth_conv(&self, library: &mut Library, deep: Deep, t: &Term, fuel: &mut Fuel) -> Answer
        requires whole { conversion_of deep.conv.now ≡ conversions.top_depth_conv (conversion_of deep.part.now) }
        requires asked { IsAsked (L.is_ready self.now.leaves.now) library.old t.now }
        ensures converts { AnswersOver library.old (L.hosts self.now.leaves.now) self.now.depth fuel.old.left
            (stands_for (L.means self.now.leaves.now) deep.entry.conv.now) t.now result fuel.new.left }
        ensures makes { MakesAnswer library.old library.new t.now result }
    {
        let begun = self.repeatc(library, deep.part, t, fuel)?;
        let right = right_of(library, t, &begun);
        let rest = self.top_depth_rest(library, deep, right, fuel);
        then(library, t, &begun, right, rest)
    }

    // What TOP_DEPTH_CONV goes on with behind REPEATC, joined by TRANS from the right. No chain is begun where nothing below changes.
    #[cycle(converted)]
    fn top_depth_rest(&self, library: &mut Library, deep: Deep, t: &Term, fuel: &mut Fuel) -> Answer
        requires whole { conversion_of deep.conv.now ≡ conversions.top_depth_conv (conversion_of deep.part.now) }
        requires asked { IsAsked (L.is_ready self.now.leaves.now) library.old t.now }
        ensures converts { AnswersOver library.old (L.hosts self.now.leaves.now) self.now.depth fuel.old.left
            (rest_of_top_depth (stands_for (L.means self.now.leaves.now) deep.entry.part.now)) t.now result fuel.new.left }
        ensures makes { MakesAnswer library.old library.new t.now result }
    {
        let under = self.sub_conv(library, deep.conv, t, fuel);
        let found = match changed(t, under) {
            Ok(found) => found,
            Err(fault) => return or_same(library, t, Err(fault), fuel),
        };
        let chain = begin_by(library, t, found)?;
        self.top_depth_on(library, deep, t, chain, fuel)
    }

    // What that rest comes to on a term behind a chain from it, where something has changed below. It stands apart, since most terms begin no
    // chain.
    #[cycle(converted)]
    fn top_depth_on(
        &self,
        library: &mut Library,
        deep: Deep,
        t: &Term,
        chain: Chain,
        fuel: &mut Fuel,
    ) -> Answer
        requires whole { conversion_of deep.conv.now ≡ conversions.top_depth_conv (conversion_of deep.part.now) }
        requires asked { IsAsked (L.is_ready self.now.leaves.now) library.old t.now }
        requires chain { IsChainFrom library.old t.now chain }
        ensures converts { AnswersBehind library.old (L.hosts self.now.leaves.now) self.now.depth (rest_of_top_depth (stands_for (L.means self.now.leaves.now) deep.entry.part.now)) t.now
            (top_depth_again (stands_for (L.means self.now.leaves.now) deep.entry.part.now)) chain fuel.old.left result fuel.new.left }
        ensures makes { MakesAnswer library.old library.new t.now result }
    {
        let mut chain = chain;
        loop {
            let again = self.converted(library, deep.part, &chain.current, fuel);
            chain = match link(library, t, chain, again, fuel) {
                Linked::GoesOn(chain) => chain,
                Linked::Ends(result) => return result,
            };
            let here = self.repeatc(library, deep.part, &chain.current, fuel);
            chain = match link(library, t, chain, here, fuel) {
                Linked::GoesOn(chain) => chain,
                Linked::Ends(result) => return result,
            };
            let below = self.sub_conv(library, deep.conv, &chain.current, fuel);
            let below = changed(&chain.current, below);
            chain = match link(library, t, chain, below, fuel) {
                Linked::GoesOn(chain) => chain,
                Linked::Ends(result) => return result,
            };
        }
    }
}
