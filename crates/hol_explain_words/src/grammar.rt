// The grammar of commands, and how far a text keeps to it.
use crate::known::push_name;
use crate::messages::Message;
use crate::no_memory::NoMemory;
use crate::piece::Piece;
use crate::tables::{front, line_of_pair};
use hol_model_rules::{RULES, RuleName};
use std::alloc::Global;

// Each line has a symbol and a word that may stand at it, and behind them the symbols that are wanted next. `#name`, `#number`,
// `#quote`, `#unclosed` and `#end` are any word of that kind, and `#any` takes no word, where none of the others stands there.
// What is expected at a symbol stands behind `#part`, or behind `#choice` where a message lists the words that may stand there.
// A symbol whose words were passed over before stands behind `#also`. The rules of the table of names stand at `rule` too.
const GRAMMAR: &str = "\
command #choice a command
command thm name is_rule rule end
command show name end
command var name colon type end
command def name is_term quote end
command newtype name end
command newconst name colon type end
command goal quote end
command e refiner refiners end_of_refiners
command b end
command r number end
command p end
command save name end
end #part the end of the command
end #end
name #part a name
name #name
number #part a number
number #number
colon #part `:` and a type
colon :
is_rule #part `=` and a rule
is_rule =
is_term #part `=` and a quoted term
is_term =
quote #part a backquote with a term behind it
quote #quote
quote #unclosed closing_quote
closing_quote #part a closing backquote
stored #part a name (rules do not nest: a theorem is made by a command of its own, `thm`)
stored #name
theorem #part the name of a theorem
theorem #name
rule #choice a rule
rule INST pairs stored
rule INST_TYPE pairs stored
rule TAUT quote
rule CONV conversion quote
pairs #part `[` and pairs of quoted texts
pairs [ pairs_or_none
pairs_or_none ]
pairs_or_none #any quote comma quote further_pairs
comma #part `,` and what is replaced
comma ,
further_pairs #part `;` or `]`
further_pairs ; quote comma quote further_pairs
further_pairs ]
names #part `[` and names of theorems
names [ names_or_none
names_or_none ]
names_or_none #any theorem further_names
further_names #part `;` or `]`
further_names ; theorem further_names
further_names ]
refiner #choice a refiner
refiner ALL_TAC
refiner NO_TAC
refiner ACCEPT_TAC stored
refiner ASSUMPTION_TAC
refiner ASSUME_TAC stored
refiner REFL_TAC
refiner CONJ_TAC
refiner EQ_TAC
refiner DISJ1_TAC
refiner DISJ2_TAC
refiner DISCH_TAC
refiner GEN_TAC
refiner EXISTS_TAC quote
refiner MP_TAC stored
refiner DISJ_CASES_TAC stored
refiner CHOOSE_TAC stored
refiner UNDISCH_TAC quote
refiner CONV_TAC conversion
refiner REWRITE_TAC names
refiner TAUT_TAC
refiner HOST host_refiner
refiner REPEAT refiner
refiner TRY refiner
refiner ( refiner refiners closing_refiners
host_refiner #part the name of a host's refiner
host_refiner #name
refiners THEN refiner refiners
refiners ORELSE refiner refiners
refiners THENL list refiners
refiners #any
closing_refiners #part `THEN`, `THENL`, `ORELSE` or `)`
closing_refiners #also refiners
closing_refiners )
end_of_refiners #part `THEN`, `THENL`, `ORELSE` or the end of the command
end_of_refiners #also refiners
end_of_refiners #end
list #part `[` and a list of refiners
list [ members_or_none
members_or_none ]
members_or_none #any refiner refiners further_members
further_members #part `THEN`, `THENL`, `ORELSE`, `;` or `]`
further_members #also refiners
further_members ; refiner refiners further_members
further_members ]
conversion #choice a conversion
conversion ALL_CONV
conversion NO_CONV
conversion BETA_CONV
conversion REWR_CONV theorem
conversion HOST host_conversion
conversion REPEATC conversion
conversion TRY_CONV conversion
conversion RAND_CONV conversion
conversion RATOR_CONV conversion
conversion ABS_CONV conversion
conversion SUB_CONV conversion
conversion DEPTH_CONV conversion
conversion ONCE_DEPTH_CONV conversion
conversion TOP_DEPTH_CONV conversion
conversion ( conversion conversions
host_conversion #part the name of a host's conversion
host_conversion #name
conversions #part `THENC`, `ORELSEC` or `)`
conversions THENC conversion conversions
conversions ORELSEC conversion conversions
conversions )
type #choice a type, or a type variable, which begins with a capital letter
type #name arrows
type ( type closing_type arrows
arrows -> type
arrows #any
closing_type #part `->` or `)`
closing_type )
quoted_type #any type end_of_type
end_of_type #part `->` or the end of the type
end_of_type #end
type_variable #part a type variable between backquotes
quoted_term #any term further end_of_term
term #part a term (a name, `(`, `[`, `~`, `\\`, `!`, `?` or `@`)
term ~ operand
term \\ bound term
term ! bound term
term ? bound term
term @ bound term
term #name
term [ constant
term ( inside
bound #part the name of a bound variable
bound #name type_of_bound
type_of_bound #part `:` and the type of the bound variable (a binder binds one variable, as in `!p:bool. !q:bool. p`)
type_of_bound : type dot
dot #part `.` and the body of the binder
dot .
operand #part an operand (a name, `(`, `[` or `~`; a binder inside a term stands in parentheses)
operand ~ operand
operand #name
operand [ constant
operand ( inside
constant #part the name of a constant
constant #name type_of_constant
constant ~ type_of_constant
constant ! type_of_constant
constant ? type_of_constant
constant @ type_of_constant
constant ==> type_of_constant
constant \\/ type_of_constant
constant /\\ type_of_constant
constant = type_of_constant
type_of_constant #part `:` and the type of the constant
type_of_constant : type closing_constant
closing_constant #part `->` or `]`
closing_constant ]
inside #name named
inside #any term further closing_term
named : type closing_type
named #any further closing_term
closing_term #part an infix (`<=>`, `==>`, `\\/`, `/\\` or `=`), an argument (a name, `(` or `[`) or `)`
closing_term )
further <=> operand further
further ==> operand further
further \\/ operand further
further /\\ operand further
further = operand further
further #name further
further [ constant further
further ( inside further
further #any
end_of_term #part an infix (`<=>`, `==>`, `\\/`, `/\\` or `=`), an argument (a name, `(` or `[`) or the end of the term
end_of_term #end";

// What is wanted behind a rule, by the number of its terms and of its theorems.
const ARGUMENTS: [[&str; 4]; 3] = [
    ["", "stored", "stored stored", "stored stored stored"],
    [
        "quote",
        "quote stored",
        "quote stored stored",
        "quote stored stored stored",
    ],
    [
        "quote quote",
        "quote quote stored",
        "quote quote stored stored",
        "quote quote stored stored stored",
    ],
];

// The symbols behind a symbol and a word, where the grammar has such a line.
fn behind(symbol: &str, word: &str) -> Option<&'static str> {
    match line_of_pair(GRAMMAR, symbol, word) {
        None if symbol == "rule" => {
            let rule = RuleName::of_word(word)?;
            ARGUMENTS.get(rule.terms())?.get(rule.theorems()).copied()
        }
        line => line,
    }
}

/// How far a text is read: the place in the list of the first word that is not, and the symbol at which it cannot stand.
#[derive(Clone, Copy)]
pub(crate) struct Reading {
    pub(crate) at: usize,
    pub(crate) missing: Option<&'static str>,
}

// The place behind what is taken at a symbol, and the symbols that are wanted there.
fn step(piece: &Piece<'_>, at: usize, symbol: &str) -> Option<(usize, &'static str)> {
    let word = piece.text(at);
    let further = at.saturating_add(1);
    if let Some(wanted) = behind(symbol, word) {
        return Some((further, wanted));
    }
    if let Some(wanted) = behind(symbol, piece.kind(at).class()) {
        return Some((further, wanted));
    }
    match behind(symbol, "#any") {
        Some(wanted) => Some((at, wanted)),
        None => None,
    }
}

/// Reads words from a place in the list on, as long as they are what a symbol wants.
pub(crate) fn read(
    alloc: Global,
    piece: &Piece<'_>,
    from: usize,
    first: &'static str,
) -> Result<Reading, NoMemory> {
    let mut open = Vec::new(alloc);
    open.push(first)?;
    let mut reading = Reading {
        at: from,
        missing: None,
    };
    for _ in 0..u64::MAX {
        let Some(wanted) = open.pop() else {
            break;
        };
        let (symbol, later) = front(wanted);
        if symbol.is_empty() {
            continue;
        }
        let Some((further, inner)) = step(piece, reading.at, symbol) else {
            reading.missing = Some(symbol);
            break;
        };
        open.extend_from_slice(&[later, inner])?;
        reading.at = further;
    }
    Ok(reading)
}

/// What is expected at a symbol.
pub(crate) fn expected(symbol: &str) -> &'static str {
    if let Some(choice) = behind(symbol, "#choice") {
        return choice;
    }
    match behind(symbol, "#part") {
        Some(part) => part,
        None => "something else",
    }
}

/// Whether a message lists the words that may stand at a symbol.
pub(crate) fn is_choice(symbol: &str) -> bool {
    behind(symbol, "#choice").is_some()
}

/// The symbol whose words could stand at a symbol too.
pub(crate) fn also_at(symbol: &str) -> &'static str {
    match behind(symbol, "#also") {
        Some(also) => also,
        None => "",
    }
}

/// Puts the words that may stand at a symbol at the end.
pub(crate) fn push_words(
    alloc: Global,
    words: &mut Vec<String>,
    symbol: &str,
) -> Result<(), NoMemory> {
    if symbol == "rule" {
        for rule in &RULES {
            push_name(alloc, words, rule.word())?;
        }
    }
    for line in GRAMMAR.lines() {
        let (known, rest) = front(line);
        let (word, _) = front(rest);
        if known == symbol && !word.starts_with('#') {
            push_name(alloc, words, word)?;
        }
    }
    Ok(())
}

/// Whether a command may begin with a word.
pub(crate) fn is_command(word: &str) -> bool {
    behind("command", word).is_some()
}

/// Whether a word is a refiner by itself, with its arguments.
pub fn is_refiner(word: &str) -> bool {
    match behind("refiner", word) {
        Some(wanted) => !wanted.starts_with("refiner"),
        None => false,
    }
}

/// Whether the name of a theorem stands behind a refiner or a conversion.
pub fn is_before_theorem(word: &str) -> bool {
    behind("refiner", word) == Some("stored") || behind("conversion", word) == Some("theorem")
}

/// Where the conversion that begins at a place in the list ends. A message is told where there was no memory to read it.
pub fn end_of_conversion(
    alloc: Global,
    piece: &Piece<'_>,
    from: usize,
    message: &mut Message,
) -> usize {
    match message.made(read(alloc, piece, from, "conversion")) {
        Some(Reading { at, missing: None }) => at,
        _ => piece.words.len(),
    }
}
