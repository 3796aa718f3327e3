// Commands, read from the tokens of a text.
ghost use Rattle.std.specs.Prelude.{◌≡◌, codes};
ghost use Rattle.hol_syntax_grammar.specs.Views.{tokens_of};
ghost use Rattle.hol_tactic_grammar.specs.Tokens.{AreTokens};
ghost use Rattle.hol_script_commands.specs.Reading.{command_kind_of, ParsesTyping};
ghost use Rattle.hol_script_commands.specs.Reading.{ParsesArguments, ParsesRule, ParsesTautology, ParsesConverted, ParsesAsked, ParsesBody, ParsesBehind, ParsesCommand};
ghost use Rattle.hol_script_commands.specs.Pairs.{ParsesPairs};

use crate::goals::{GoalKind, parse_goal_command};
use crate::pairs::{
    QuotedPair, TermPair, TypePair, parse_term_pairs, parse_type_pairs, take_pairs,
};
use crate::quotes::{parse_conversion_and_quote, parse_only_quote};
use crate::rules::parse_named;
use crate::tokens::{only_name, take_mark, take_name};
use hol_model::Symbol;
use hol_model_rules::RuleName;
use hol_syntax::parse_type;
use hol_syntax_grammar::{ReadError, TermStep, Token, TypeStep};
use hol_tactic_exprs::{Conv, Tac};
use hol_tactic_grammar::meaning_in;
use std::alloc::Global;

/// A rule with its arguments: terms and types by their steps, theorems and type variables by their names.
#[derive(Drop)]
pub enum Rule<'a> {
    Named(RuleName, Vec<Vec<TermStep<'a>>>, Vec<&'a str>),
    Inst(Vec<TermPair<'a>>, &'a str),
    InstType(Vec<TypePair<'a>>, &'a str),
}

/// What `thm` asks for: what a rule gives, a tautology, or what a conversion makes of a term.
#[derive(Drop)]
pub enum Asked<'a> {
    Rule(Rule<'a>),
    Tautology(Vec<TermStep<'a>>),
    Conversion(Conv, Vec<TermStep<'a>>),
}

/// A command with its arguments: terms and types by their steps.
#[derive(Drop)]
pub enum Command<'a> {
    Thm(&'a str, Asked<'a>),
    Show(&'a str),
    Var(&'a str, Vec<TypeStep<'a>>),
    Def(&'a str, Vec<TermStep<'a>>),
    NewType(&'a str),
    NewConst(&'a str, Vec<TypeStep<'a>>),
    /// `goal`: the goal.
    Goal(Vec<TermStep<'a>>),
    /// `e`: what is done with the first subgoal.
    Expand(Tac<Vec<TermStep<'a>>>),
    /// `b`.
    Back,
    /// `p`.
    Print,
    /// `r`: by how many subgoals.
    Rotate(u32),
    /// `save`: under which name.
    Save(&'a str),
}

/// What the reader of a command answers.
pub(crate) type Parsed<'a> = Result<Command<'a>, ReadError>;

// A command whose word has a name behind it, without its arguments.
#[derive(Clone, Copy, Drop)]
enum NamingKind {
    Thm,
    Show,
    Var,
    Def,
    NewType,
    NewConst,
    Save,
}

// A command without its arguments.
#[derive(Clone, Copy, Drop)]
enum CommandKind {
    Naming(NamingKind),
    OfGoals(GoalKind),
}

// A list of pairs in brackets and the name of a theorem, and nothing else.
fn parse_pairs<'a>(
    alloc: Global,
    tokens: &'a [Token<'a>],
) -> Result<(Vec<QuotedPair<'a>>, &'a str), ReadError>
    requires { AreTokens (tokens_of tokens.now) }
    ensures { ParsesPairs result (tokens_of tokens.now) }
{
    let (pairs, rest) = take_pairs(alloc, tokens)?;
    match only_name(rest) {
        Some(name) => Ok((pairs, name)),
        None => Err(ReadError::Syntax),
    }
}

// Pairs of quoted terms and the name of a theorem.
fn parse_inst<'a>(alloc: Global, tokens: &'a [Token<'a>]) -> Result<Rule<'a>, ReadError>
    requires { AreTokens (tokens_of tokens.now) }
    ensures { ParsesArguments result (codes "INST") (tokens_of tokens.now) }
{
    let (pairs, name) = parse_pairs(alloc, tokens)?;
    Ok(Rule::Inst(parse_term_pairs(alloc, &pairs)?, name))
}

// Pairs of a quoted type and a quoted type variable, and the name of a theorem.
fn parse_inst_type<'a>(alloc: Global, tokens: &'a [Token<'a>]) -> Result<Rule<'a>, ReadError>
    requires { AreTokens (tokens_of tokens.now) }
    ensures { ParsesArguments result (codes "INST_TYPE") (tokens_of tokens.now) }
{
    let (pairs, name) = parse_pairs(alloc, tokens)?;
    Ok(Rule::InstType(parse_type_pairs(alloc, &pairs)?, name))
}

// What a rule of this word has behind it.
fn parse_arguments<'a>(
    alloc: Global,
    word: &str,
    tokens: &'a [Token<'a>],
) -> Result<Rule<'a>, ReadError>
    requires { AreTokens (tokens_of tokens.now) }
    ensures { ParsesArguments result word.now (tokens_of tokens.now) }
{
    if word == "INST" {
        return parse_inst(alloc, tokens);
    }
    if word == "INST_TYPE" {
        return parse_inst_type(alloc, tokens);
    }
    match RuleName::of_word(word) {
        Some(rule) => parse_named(alloc, rule, tokens),
        None => Err(ReadError::Syntax),
    }
}

// A rule with its arguments.
fn parse_rule<'a>(alloc: Global, tokens: &'a [Token<'a>]) -> Result<Rule<'a>, ReadError>
    requires { AreTokens (tokens_of tokens.now) }
    ensures { ParsesRule result (tokens_of tokens.now) }
{
    match take_name(tokens) {
        Some((word, arguments)) => parse_arguments(alloc, word, arguments),
        None => Err(ReadError::Syntax),
    }
}

// A quoted term and nothing else, for TAUT.
fn parse_tautology<'a>(alloc: Global, tokens: &'a [Token<'a>]) -> Result<Asked<'a>, ReadError>
    ensures { ParsesTautology result (tokens_of tokens.now) }
{
    Ok(Asked::Tautology(parse_only_quote(alloc, tokens)?))
}

// A conversion, a quoted term and nothing else, for CONV.
fn parse_converted<'a>(alloc: Global, tokens: &'a [Token<'a>]) -> Result<Asked<'a>, ReadError>
    requires { AreTokens (tokens_of tokens.now) }
    ensures { ParsesConverted result (tokens_of tokens.now) }
{
    let (conversion, steps) = parse_conversion_and_quote(alloc, tokens)?;
    Ok(Asked::Conversion(conversion, steps))
}

// A rule, TAUT or CONV with its arguments.
fn parse_asked<'a>(alloc: Global, tokens: &'a [Token<'a>]) -> Result<Asked<'a>, ReadError>
    requires { AreTokens (tokens_of tokens.now) }
    ensures { ParsesAsked result (tokens_of tokens.now) }
{
    let Some((word, arguments)) = take_name(tokens) else {
        return Err(ReadError::Syntax);
    };
    if word == "TAUT" {
        return parse_tautology(alloc, arguments);
    }
    if word == "CONV" {
        return parse_converted(alloc, arguments);
    }
    Ok(Asked::Rule(parse_rule(alloc, tokens)?))
}

// The type behind a colon and nothing else.
fn parse_typing<'a>(alloc: Global, tokens: &'a [Token<'a>]) -> Result<Vec<TypeStep<'a>>, ReadError>
    ensures { ParsesTyping result (tokens_of tokens.now) }
{
    match take_mark(tokens, Symbol::Colon) {
        Some(ty) => parse_type(alloc, ty),
        None => Err(ReadError::Syntax),
    }
}

fn parse_thm<'a>(alloc: Global, name: &'a str, tokens: &'a [Token<'a>]) -> Parsed<'a>
    requires { AreTokens (tokens_of tokens.now) }
    ensures { ParsesBody result NamingKind.Thm name.now (tokens_of tokens.now) }
{
    let Some(asked) = take_mark(tokens, Symbol::Equal) else {
        return Err(ReadError::Syntax);
    };
    Ok(Command::Thm(name, parse_asked(alloc, asked)?))
}

fn parse_show<'a>(name: &'a str, tokens: &'a [Token<'a>]) -> Parsed<'a>
    ensures { ParsesBody result NamingKind.Show name.now (tokens_of tokens.now) }
{
    if !tokens.is_empty() {
        return Err(ReadError::Syntax);
    }
    Ok(Command::Show(name))
}

fn parse_var<'a>(alloc: Global, name: &'a str, tokens: &'a [Token<'a>]) -> Parsed<'a>
    ensures { ParsesBody result NamingKind.Var name.now (tokens_of tokens.now) }
{
    Ok(Command::Var(name, parse_typing(alloc, tokens)?))
}

fn parse_def<'a>(alloc: Global, name: &'a str, tokens: &'a [Token<'a>]) -> Parsed<'a>
    ensures { ParsesBody result NamingKind.Def name.now (tokens_of tokens.now) }
{
    let Some(quote) = take_mark(tokens, Symbol::Equal) else {
        return Err(ReadError::Syntax);
    };
    Ok(Command::Def(name, parse_only_quote(alloc, quote)?))
}

fn parse_newtype<'a>(name: &'a str, tokens: &'a [Token<'a>]) -> Parsed<'a>
    ensures { ParsesBody result NamingKind.NewType name.now (tokens_of tokens.now) }
{
    if !tokens.is_empty() {
        return Err(ReadError::Syntax);
    }
    Ok(Command::NewType(name))
}

fn parse_newconst<'a>(alloc: Global, name: &'a str, tokens: &'a [Token<'a>]) -> Parsed<'a>
    ensures { ParsesBody result NamingKind.NewConst name.now (tokens_of tokens.now) }
{
    Ok(Command::NewConst(name, parse_typing(alloc, tokens)?))
}

fn parse_save<'a>(name: &'a str, tokens: &'a [Token<'a>]) -> Parsed<'a>
    ensures { ParsesBody result NamingKind.Save name.now (tokens_of tokens.now) }
{
    if !tokens.is_empty() {
        return Err(ReadError::Syntax);
    }
    Ok(Command::Save(name))
}

// The kind of command that each word names.
const COMMANDS: [(&str, CommandKind); 12] = [
    ("thm", CommandKind::Naming(NamingKind::Thm)),
    ("show", CommandKind::Naming(NamingKind::Show)),
    ("var", CommandKind::Naming(NamingKind::Var)),
    ("def", CommandKind::Naming(NamingKind::Def)),
    ("newtype", CommandKind::Naming(NamingKind::NewType)),
    ("newconst", CommandKind::Naming(NamingKind::NewConst)),
    ("save", CommandKind::Naming(NamingKind::Save)),
    ("goal", CommandKind::OfGoals(GoalKind::Goal)),
    ("e", CommandKind::OfGoals(GoalKind::Expand)),
    ("b", CommandKind::OfGoals(GoalKind::Back)),
    ("p", CommandKind::OfGoals(GoalKind::Print)),
    ("r", CommandKind::OfGoals(GoalKind::Rotate)),
];

// The kind of command that a word names.
fn command_kind(word: &str) -> Option<CommandKind>
    ensures { result ≡ command_kind_of word.now }
{
    meaning_in(&COMMANDS, word)
}

// A name, and what a command of this kind has behind it.
fn parse_naming<'a>(alloc: Global, kind: NamingKind, tokens: &'a [Token<'a>]) -> Parsed<'a>
    requires { AreTokens (tokens_of tokens.now) }
    ensures { ParsesBehind result (CommandKind.Naming kind) (tokens_of tokens.now) }
{
    let Some((name, body)) = take_name(tokens) else {
        return Err(ReadError::Syntax);
    };
    match kind {
        NamingKind::Thm => parse_thm(alloc, name, body),
        NamingKind::Show => parse_show(name, body),
        NamingKind::Var => parse_var(alloc, name, body),
        NamingKind::Def => parse_def(alloc, name, body),
        NamingKind::NewType => parse_newtype(name, body),
        NamingKind::NewConst => parse_newconst(alloc, name, body),
        NamingKind::Save => parse_save(name, body),
    }
}

/// The command that the tokens are. Refused: Syntax where they are none within the limits of nesting, Memory.
pub fn parse_command<'a>(alloc: Global, tokens: &'a [Token<'a>]) -> Result<Command<'a>, ReadError>
    requires { AreTokens (tokens_of tokens.now) }
    ensures { ParsesCommand result (tokens_of tokens.now) }
{
    let Some((word, arguments)) = take_name(tokens) else {
        return Err(ReadError::Syntax);
    };
    let Some(kind) = command_kind(word) else {
        return Err(ReadError::Syntax);
    };
    match kind {
        CommandKind::Naming(kind) => parse_naming(alloc, kind, arguments),
        CommandKind::OfGoals(kind) => parse_goal_command(alloc, kind, arguments),
    }
}
