// The lexer: the tokens of a text, in order.
ghost use Rattle.std.specs.Prelude.{◌≡◌, ◌++◌, List, [], ℕ, Option, None, Some, MatchOption, IfOk, Bool};
ghost use Rattle.hol_model.specs.Texts.Token.{Mark, symbol_text};
ghost use Rattle.hol_model.specs.Texts.Token as model;
ghost use Rattle.hol_model.specs.Texts.Lexing.{is_letter, is_digit, is_name_byte, is_blank, Lexes};
ghost use Rattle.hol_syntax_grammar.specs.Lexer.{symbols, strip, front, back, symbol_at, number_at, token_at, is_within_limit};
ghost use Rattle.hol_syntax_grammar.specs.Views.{token_of, tokens_of};
ghost use Rattle.hol_syntax_grammar.specs.Classes.{test_of, IsStripped, IsFound, IsFoundToken, IsLexed};

use crate::token::Token;
use crate::type_reader::ReadError;
use hol_model::{NUMBER_LIMIT, Symbol};
use std::alloc::Global;

// Bytes that a token or white space goes on with.
#[derive(Clone, Copy)]
enum Class {
    Letter,
    Digit,
    NameByte,
    Blank,
}

// Every symbol behind those that begin with it, the commonest first.
const SYMBOLS: [Symbol; 21] = [
    Symbol::OpenParenthesis,
    Symbol::CloseParenthesis,
    Symbol::Colon,
    Symbol::Arrow,
    Symbol::Dot,
    Symbol::Comma,
    Symbol::Implies,
    Symbol::Equal,
    Symbol::And,
    Symbol::Or,
    Symbol::Backslash,
    Symbol::Tilde,
    Symbol::Exclamation,
    Symbol::Question,
    Symbol::Iff,
    Symbol::Backquote,
    Symbol::Semicolon,
    Symbol::OpenBracket,
    Symbol::CloseBracket,
    Symbol::At,
    Symbol::Turnstile,
];

fn is_in(class: Class, b: u8) -> bool
    ensures { result ≡ test_of class b }
{
    match class {
        Class::Letter => (65 <= b && b <= 90) || (97 <= b && b <= 122),
        Class::Digit => 48 <= b && b <= 57,
        Class::NameByte => is_in_letters(b) || is_in_digits(b) || b == 95 || b == 39,
        Class::Blank => (b == 32 || b == 9) || (b == 10 || b == 13),
    }
}

fn is_in_letters(b: u8) -> bool
    ensures { result ≡ is_letter b }
{
    (65 <= b && b <= 90) || (97 <= b && b <= 122)
}

fn is_in_digits(b: u8) -> bool
    ensures { result ≡ is_digit b }
{
    48 <= b && b <= 57
}

/// The bytes of a symbol.
pub fn text(symbol: Symbol) -> &'static [u8]
    ensures { result.now ≡ symbol_text symbol }
{
    match symbol {
        Symbol::Iff => b"<=>",
        Symbol::Implies => b"==>",
        Symbol::Arrow => b"->",
        Symbol::And => b"/\\",
        Symbol::Or => b"\\/",
        Symbol::Turnstile => b"|-",
        Symbol::Equal => b"=",
        Symbol::Backslash => b"\\",
        Symbol::Exclamation => b"!",
        Symbol::Question => b"?",
        Symbol::At => b"@",
        Symbol::Tilde => b"~",
        Symbol::OpenParenthesis => b"(",
        Symbol::CloseParenthesis => b")",
        Symbol::OpenBracket => b"[",
        Symbol::CloseBracket => b"]",
        Symbol::Colon => b":",
        Symbol::Dot => b".",
        Symbol::Comma => b",",
        Symbol::Semicolon => b";",
        Symbol::Backquote => b"`",
    }
}

// The bytes up to the first that is not in the class, and from there on.
fn split(class: Class, bytes: &[u8]) -> (&[u8], &[u8])
    ensures front { result.0.now ≡ front (test_of class) bytes.now }
    ensures back { result.1.now ≡ back (test_of class) bytes.now }
{
    for (i, b) in bytes.iter().enumerate() {
        if !is_in(class, *b) {
            return (&bytes[..i], &bytes[i..]);
        }
    }
    (bytes, &bytes[bytes.len()..])
}

// What follows a text at the front.
fn strip<'a>(text: &[u8], bytes: &'a [u8]) -> Option<&'a [u8]>
    ensures { IsStripped result (strip text.now bytes.now) }
{
    let Some((first, others)) = text.split_first() else {
        return Some(bytes);
    };
    let (next, rest) = bytes.split_first()?;
    if first != next {
        return None;
    }
    strip(others, rest)
}

// The first symbol of the table that stands at the front, and what follows it.
fn find_symbol<'a>(table: &[Symbol], bytes: &'a [u8]) -> Option<(Symbol, &'a [u8])>
    ensures { IsFound result (symbol_at table.now bytes.now) }
{
    for symbol in table {
        if let Some(rest) = strip(text(*symbol), bytes) {
            return Some((*symbol, rest));
        }
    }
    None
}

// The symbol at the front, and what follows it.
fn find_mark(bytes: &[u8]) -> Option<(Token, &[u8])>
    ensures { IsFoundToken result (symbol_at symbols bytes.now) }
{
    match find_symbol(&SYMBOLS, bytes) {
        None => None,
        Some((symbol, rest)) => Some((Token::Mark(symbol), rest)),
    }
}

// Whether the number that the digits write is within the limit.
fn is_within_limit(digits: &[u8]) -> bool
    ensures { result ≡ is_within_limit digits.now }
{
    let mut value: u64 = 0;
    for digit in digits {
        value = value * 10 + u64::from(digit.saturating_sub(48));
        if value > u64::from(NUMBER_LIMIT) {
            return false;
        }
    }
    true
}

// The token at the front, and what follows it.
fn find_token(bytes: &[u8]) -> Option<(Token, &[u8])>
    ensures { IsFoundToken result (token_at bytes.now) }
{
    if bytes.is_empty() {
        return None;
    }
    let first = bytes[0];
    if is_in_letters(first) {
        let (name, rest) = split(Class::NameByte, bytes);
        return Some((Token::Name(name), rest));
    }
    if !is_in_digits(first) {
        return find_mark(bytes);
    }
    let (digits, rest) = split(Class::Digit, bytes);
    if first == 48 && digits.len() > 1 {
        return None;
    }
    if !is_within_limit(digits) {
        return None;
    }
    Some((Token::Number(digits), rest))
}

/// The tokens of a text.
pub fn tokens_in<'a>(alloc: Global, text: &'a [u8]) -> Result<Vec<Token<'a>>, ReadError>
    ensures found { IfOk result (λ v. Lexes text.now (tokens_of v.items)) }
    ensures only { (tokens : List model.Token) → Lexes text.now tokens → IsLexed result tokens }
{
    let mut tokens = Vec::new(alloc);
    let mut rest = split(Class::Blank, text).1;
    while !rest.is_empty() {
        let Some((token, behind)) = find_token(rest) else {
            return Err(ReadError::Syntax);
        };
        tokens.push(token)?;
        rest = split(Class::Blank, behind).1;
    }
    Ok(tokens)
}
