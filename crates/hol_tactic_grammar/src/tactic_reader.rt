// Refiner expressions, read from tokens by one loop over open places.
ghost use Rattle.std.specs.Prelude.{◌≡◌, ◌≤◌, ℕ, ◌+◌, ◌-◌, ◌*◌, List, ◌∷◌, MatchBool, codes, length, vec_len};
ghost use Rattle.hol_model.specs.Texts.Token.{Name};
ghost use Rattle.hol_syntax_grammar.specs.declared.token.Token.{Token};
ghost use Rattle.hol_syntax_grammar.specs.Views.{tokens_of};
ghost use Rattle.hol_tactic_grammar.specs.Tokens.{AreTokens, IsAt, behind};
ghost use Rattle.hol_tactic_grammar.specs.Expressions.{expression_here};
ghost use Rattle.hol_tactic_grammar.specs.Tactics.{ReadsTactic};
ghost use Rattle.hol_tactic_grammar.specs.OpenTactics.{WantsChoice, WantsChain, HasUnit, HasChoiceWhole, HasWhole, opens_of, IsReading, turns_left, Goes, Waits, Nests, Closes, IsListFrontAt, Adds, AddsElement, IsChainWith, unit_read, unit_made};

use crate::leaves::{read_by_name, read_by_quote, read_other, read_plain};
use crate::tactic_words::{Start, start_named};
use crate::tactics::{Joint, Prefix, Refiner, or_else, prefixed, then_on};
use crate::tokens::{Read, is_mark, is_word, name_at};
use hol_model::{EXPRESSION_NESTING_LIMIT, Symbol};
use hol_syntax_grammar::{ReadError, Token};
use hol_tactic_exprs::Link;
use std::alloc::Global;

// An open place: what waits for what stands behind it.
#[derive(Drop)]
enum Open<'a> {
    // REPEAT or TRY.
    Prefixed(Prefix),
    // A parenthesis.
    Enclosed,
    // What stands before an ORELSE.
    Choice(Refiner<'a>, Vec<Refiner<'a>>),
    // What stands before a THEN.
    Chain(Refiner<'a>, Vec<Joint<'a>>),
    // What stands before a THENL, and the refiners of its list so far.
    Listed(Refiner<'a>, Vec<Joint<'a>>, Vec<Refiner<'a>>),
}

// What is read behind the open places, and up to which place.
#[derive(Drop)]
enum Reading<'a> {
    // Nothing; a unit is wanted.
    Wanted(usize),
    // What REPEAT and TRY may stand before.
    Unit(Refiner<'a>, usize),
    // A chain of ORELSE, which may go on.
    Choice(Refiner<'a>, Vec<Refiner<'a>>, usize),
    // A chain of THEN and THENL, which may go on.
    Chain(Refiner<'a>, Vec<Joint<'a>>, usize),
    // All tokens.
    Whole(Refiner<'a>),
}

// What stands behind THENL.
#[derive(Clone, Copy, Drop)]
enum ListFront {
    // No list, or one that nests too deep.
    Missing,
    // A list of none.
    Empty,
    // The bracket that opens a list of some.
    Begun,
}

#[derive(Drop)]
struct Reader<'a> {
    opens: Vec<Open<'a>>,
    // How many more prefixes, parentheses and lists may be open.
    room: usize,
}

impl<'a> Reader<'a> {
    // One more place is open.
    fn wait(&mut self, place: Open<'a>, next: usize) -> Read<Reading<'a>>
        ensures { Waits result self.old self.new place.entry next }
    {
        self.opens.push(place)?;
        Ok(Reading::Wanted(next))
    }

    // One more place that nests is open.
    fn nest(&mut self, place: Open<'a>, next: usize) -> Read<Reading<'a>>
        ensures { Nests result self.old self.new place.entry next }
    {
        if self.room == 0 {
            // A call: what the return itself lets go is proved variant by variant.
            drop(place);
            return Err(ReadError::Syntax);
        }
        self.room -= 1;
        self.wait(place, next)
    }

    // The newest open place, which is open no more.
    fn close(&mut self) -> Option<Open<'a>>
        ensures { Closes result self.old self.new }
    {
        self.opens.pop()
    }

    // A unit is wanted: what begins it is opened, or it is read.
    fn begin(&mut self, alloc: Global, tokens: &[Token<'a>], at: usize) -> Read<Reading<'a>>
        requires tokens { AreTokens (tokens_of tokens.now) }
        requires reading { IsReading (Reading.Wanted at) self.old tokens.now }
        ensures { Goes result self.new tokens.now (turns_left (Reading.Wanted at) self.old tokens.now) }
    {
        if is_mark(tokens, at, Symbol::OpenParenthesis) {
            return self.nest(Open::Enclosed, at + 1);
        }
        let Some(word) = name_at(tokens, at) else {
            return Err(ReadError::Syntax);
        };
        let Some(start) = start_named(word) else {
            return Err(ReadError::Syntax);
        };
        match start {
            Start::OfPrefix(prefix) => self.nest(Open::Prefixed(prefix), at + 1),
            Start::OfPlain(tactic) => read_up_to(read_plain(tokens, at, tactic)),
            Start::OfNamed(tactic) => read_up_to(read_by_name(alloc, tokens, at, tactic)),
            Start::OfQuoted(tactic) => read_up_to(read_by_quote(alloc, tokens, at, tactic)),
            Start::OfOther(other) => { read_up_to(read_other(alloc, tokens, at, other, self.room)) }
        }
    }

    // Whether a unit begins a chain of ORELSE: the newest open place takes no unit.
    fn begins_choice(&self) -> bool
        ensures { MatchBool result (WantsChoice (opens_of self.now)) (WantsChoice (opens_of self.now) → ⊥) }
    {
        match self.opens.last() {
            Some(Open::Prefixed(_) | Open::Choice(_, _)) => false,
            Some(Open::Enclosed | Open::Chain(_, _) | Open::Listed(_, _, _)) | None => true,
        }
    }

    // A unit is read: what waits for it takes it, or a chain of ORELSE begins.
    fn take_unit(&mut self, alloc: Global, unit: Refiner<'a>, next: usize) -> Read<Reading<'a>>
        requires { self.old.room ≤ EXPRESSION_NESTING_LIMIT }
        ensures { (tokens : List Token) → IsReading (Reading.Unit unit.entry next) self.old tokens
            → Goes result self.new tokens (turns_left (Reading.Unit unit.entry next) self.old tokens) }
    {
        if self.begins_choice() {
            return Ok(Reading::Choice(unit, Vec::new(alloc), next));
        }
        match self.close() {
            Some(Open::Prefixed(prefix)) => {
                self.room += 1;
                unit_made(prefixed(alloc, prefix, unit), next)
            }
            Some(Open::Choice(first, others)) => choice_with(first, others, unit, next),
            Some(Open::Enclosed | Open::Chain(_, _) | Open::Listed(_, _, _)) | None => {
                unreachable!()
            }
        }
    }

    // A chain of ORELSE is read, and goes on or ends.
    fn take_choice(
        &mut self,
        alloc: Global,
        tokens: &[Token<'a>],
        first: Refiner<'a>,
        others: Vec<Refiner<'a>>,
        next: usize,
    ) -> Read<Reading<'a>>
        requires tokens { AreTokens (tokens_of tokens.now) }
        requires reading { IsReading (Reading.Choice first others next) self.old tokens.now }
        ensures { Goes result self.new tokens.now (turns_left (Reading.Choice first.entry others.entry next) self.old tokens.now) }
    {
        if is_word(tokens, next, "ORELSE") {
            return self.wait(Open::Choice(first, others), next + 1);
        }
        let choice = or_else(alloc, first, others)?;
        self.end_choice(alloc, choice, next)
    }

    // Whether a chain of ORELSE begins one of THEN and THENL: the newest open place takes no chain of ORELSE.
    fn begins_chain(&self) -> bool
        ensures { MatchBool result (WantsChain (opens_of self.now)) (WantsChain (opens_of self.now) → ⊥) }
    {
        match self.opens.last() {
            Some(Open::Prefixed(_) | Open::Choice(_, _) | Open::Chain(_, _)) => false,
            Some(Open::Enclosed | Open::Listed(_, _, _)) | None => true,
        }
    }

    // A chain of ORELSE has ended: a chain of THEN and THENL takes it, or begins.
    fn end_choice(&mut self, alloc: Global, choice: Refiner<'a>, next: usize) -> Read<Reading<'a>>
        requires { WantsChoice (opens_of self.old) }
        ensures { (tokens : List Token) → HasChoiceWhole (opens_of self.old) self.old.room (tokens_of tokens) (behind next tokens) (expression_here choice.entry)
            → Goes result self.new tokens (8 * (length tokens - next) + 4 * vec_len self.old.opens + 3) }
    {
        if self.begins_chain() {
            return Ok(Reading::Chain(choice, Vec::new(alloc), next));
        }
        match self.close() {
            Some(Open::Chain(first, links)) => chain_with(first, links, Link::Then(choice), next),
            _ => unreachable!(),
        }
    }

    // A chain of THEN and THENL is read, and goes on or ends.
    fn take_chain(
        &mut self,
        alloc: Global,
        tokens: &[Token<'a>],
        first: Refiner<'a>,
        links: Vec<Joint<'a>>,
        next: usize,
    ) -> Read<Reading<'a>>
        requires tokens { AreTokens (tokens_of tokens.now) }
        requires reading { IsReading (Reading.Chain first links next) self.old tokens.now }
        ensures { Goes result self.new tokens.now (turns_left (Reading.Chain first.entry links.entry next) self.old tokens.now) }
    {
        if is_word(tokens, next, "THEN") {
            return self.wait(Open::Chain(first, links), next + 1);
        }
        if is_word(tokens, next, "THENL") {
            return self.begin_list(alloc, tokens, first, links, next);
        }
        let tactic = then_on(alloc, first, links)?;
        self.end_chain(tokens, tactic, next)
    }

    // What stands behind THENL.
    fn list_front(&self, tokens: &[Token<'a>], at: usize) -> ListFront
        requires { IsAt (Name (codes "THENL")) at tokens.now }
        ensures { IsListFrontAt result self.now.room at tokens.now }
    {
        if self.room == 0 || !is_mark(tokens, at + 1, Symbol::OpenBracket) {
            return ListFront::Missing;
        }
        if is_mark(tokens, at + 2, Symbol::CloseBracket) {
            return ListFront::Empty;
        }
        ListFront::Begun
    }

    // THENL, and the bracket that opens its list.
    fn begin_list(
        &mut self,
        alloc: Global,
        tokens: &[Token<'a>],
        first: Refiner<'a>,
        links: Vec<Joint<'a>>,
        at: usize,
    ) -> Read<Reading<'a>>
        requires reading { IsReading (Reading.Chain first links at) self.old tokens.now }
        requires front { IsAt (Name (codes "THENL")) at tokens.now }
        ensures { Goes result self.new tokens.now (turns_left (Reading.Chain first.entry links.entry at) self.old tokens.now) }
    {
        match self.list_front(tokens, at) {
            ListFront::Missing => {
                drop((first, links));
                Err(ReadError::Syntax)
            }
            ListFront::Empty => chain_with(first, links, Link::Thenl(Vec::new(alloc)), at + 3),
            ListFront::Begun => {
                self.room -= 1;
                self.wait(Open::Listed(first, links, Vec::new(alloc)), at + 2)
            }
        }
    }

    // A chain of THEN and THENL has ended: a parenthesis or a list takes it, or it is all.
    fn end_chain(
        &mut self,
        tokens: &[Token<'a>],
        tactic: Refiner<'a>,
        next: usize,
    ) -> Read<Reading<'a>>
        requires { HasWhole (opens_of self.old) self.old.room (tokens_of tokens.now) (behind next tokens.now) (expression_here tactic) }
        ensures { Goes result self.new tokens.now (8 * (length tokens.now - next) + 4 * vec_len self.old.opens + 2) }
    {
        match self.close() {
            Some(Open::Enclosed) => self.end_parenthesis(tokens, tactic, next),
            Some(Open::Listed(first, links, each)) => {
                self.take_element(tokens, first, links, each, tactic, next)
            }
            Some(Open::Prefixed(_) | Open::Choice(_, _) | Open::Chain(_, _)) => unreachable!(),
            None => {
                if next < tokens.len() {
                    drop(tactic);
                    return Err(ReadError::Syntax);
                }
                Ok(Reading::Whole(tactic))
            }
        }
    }

    // An expression in parentheses is read, up to the closing one.
    fn end_parenthesis(
        &mut self,
        tokens: &[Token<'a>],
        tactic: Refiner<'a>,
        next: usize,
    ) -> Read<Reading<'a>>
        requires { HasWhole (Open.Enclosed ∷ opens_of self.old) self.old.room (tokens_of tokens.now) (behind next tokens.now) (expression_here tactic) }
        ensures { Goes result self.new tokens.now (8 * (length tokens.now - next) + 4 * vec_len self.old.opens + 2) }
    {
        if !is_mark(tokens, next, Symbol::CloseParenthesis) {
            drop(tactic);
            return Err(ReadError::Syntax);
        }
        self.room += 1;
        Ok(Reading::Unit(tactic, next + 1))
    }

    // One more refiner of a list is read, and the list goes on or ends.
    fn take_element(
        &mut self,
        tokens: &[Token<'a>],
        first: Refiner<'a>,
        links: Vec<Joint<'a>>,
        mut each: Vec<Refiner<'a>>,
        tactic: Refiner<'a>,
        next: usize,
    ) -> Read<Reading<'a>>
        requires { HasWhole (Open.Listed first links each ∷ opens_of self.old) self.old.room (tokens_of tokens.now) (behind next tokens.now) (expression_here tactic) }
        ensures { Goes result self.new tokens.now (8 * (length tokens.now - next) + 4 * vec_len self.old.opens + 2) }
    {
        match add_element(tokens, &mut each, tactic, next) {
            Ok(true) => self.wait(Open::Listed(first, links, each), next + 1),
            Ok(false) => {
                self.room += 1;
                chain_with(first, links, Link::Thenl(each), next + 1)
            }
            Err(error) => {
                drop((first, links, each));
                Err(error)
            }
        }
    }
}

// Adds a refiner to a list, and returns whether the list goes on behind it.
fn add_element<'a>(
    tokens: &[Token<'a>],
    each: &mut Vec<Refiner<'a>>,
    tactic: Refiner<'a>,
    next: usize,
) -> Read<bool>
    ensures { AddsElement result tactic.entry each.old.items each.new.items next tokens.now }
{
    each.push(tactic)?;
    if is_mark(tokens, next, Symbol::Semicolon) {
        return Ok(true);
    }
    if is_mark(tokens, next, Symbol::CloseBracket) {
        return Ok(false);
    }
    Err(ReadError::Syntax)
}

// One more at the end.
fn add<T: Drop>(items: &mut Vec<T>, item: T) -> Read<()>
    ensures { Adds result item items.old.items items.new.items }
{
    items.push(item)?;
    Ok(())
}

// One more unit of a chain of ORELSE.
fn choice_with<'a>(
    first: Refiner<'a>,
    mut others: Vec<Refiner<'a>>,
    unit: Refiner<'a>,
    next: usize,
) -> Read<Reading<'a>>
    ensures { (reader : Reader) (tokens : List Token)
        → HasUnit (Open.Choice first.entry others.entry ∷ opens_of reader) reader.room (tokens_of tokens) (behind next tokens) (expression_here unit.entry)
        → Goes result reader tokens (8 * (length tokens - next) + 4 * vec_len reader.opens + 8) }
{
    match add(&mut others, unit) {
        Ok(()) => Ok(Reading::Choice(first, others, next)),
        Err(error) => {
            drop((first, others));
            Err(error)
        }
    }
}

// One more link of a chain of THEN and THENL.
fn chain_with<'a>(
    first: Refiner<'a>,
    mut links: Vec<Joint<'a>>,
    link: Joint<'a>,
    next: usize,
) -> Read<Reading<'a>>
    ensures { (reader : Reader) (tokens : List Token) → IsChainWith first.entry links.entry link.entry next reader tokens
        → Goes result reader tokens (8 * (length tokens - next) + 4 * vec_len reader.opens + 7) }
{
    match add(&mut links, link) {
        Ok(()) => Ok(Reading::Chain(first, links, next)),
        Err(error) => {
            drop((first, links));
            Err(error)
        }
    }
}

// A unit that is made.
fn unit_made<'a>(made: Read<Refiner<'a>>, next: usize) -> Read<Reading<'a>>
    ensures { result ≡ unit_made made.entry next }
{
    Ok(Reading::Unit(made?, next))
}

// A unit that is read.
fn read_up_to<'a>(read: Read<(Refiner<'a>, usize)>) -> Read<Reading<'a>>
    ensures { result ≡ unit_read read.entry }
{
    let (unit, next) = read?;
    Ok(Reading::Unit(unit, next))
}

/// The refiner expression that the tokens are (HOL Light's tactics.ml), its quoted terms by their steps. Refused: Syntax where they
/// are none within the limit of nesting, Memory.
pub fn tactic_of<'a>(alloc: Global, tokens: &[Token<'a>]) -> Result<Refiner<'a>, ReadError>
    requires { AreTokens (tokens_of tokens.now) }
    ensures { ReadsTactic result tokens.now }
{
    let mut reader = Reader {
        opens: Vec::new(alloc),
        room: EXPRESSION_NESTING_LIMIT,
    };
    let mut reading = Reading::Wanted(0);
    loop {
        match reading {
            Reading::Wanted(at) => reading = reader.begin(alloc, tokens, at)?,
            Reading::Unit(unit, place) => reading = reader.take_unit(alloc, unit, place)?,
            Reading::Choice(first, others, place) => {
                reading = reader.take_choice(alloc, tokens, first, others, place)?;
            }
            Reading::Chain(first, links, place) => {
                reading = reader.take_chain(alloc, tokens, first, links, place)?;
            }
            Reading::Whole(tactic) => return Ok(tactic),
        }
    }
}
