// The pieces of a script.
ghost use Rattle.std.specs.Prelude.{◌≡◌, ◌+◌, ◌≤◌, ◌<◌, false, length, MatchOption};
ghost use Rattle.hol_model_sessions.specs.Script.{has_mark, IsCut, is_blank_text, line_feeds, leading_line_feeds};
ghost use Rattle.hol_model_sessions.specs.Script as spec;
ghost use Rattle.hol_model.specs.Texts.Lexing as lexing;

/// What stands before the first `;;` and what stands behind it, where there is one.
pub fn cut(bytes: &[u8]) -> Option<(&[u8], &[u8])>
    ensures { MatchOption result (has_mark bytes.now ≡ false) (λ parts. IsCut bytes.now parts.0.now parts.1.now) }
{
    let mut at = 0;
    while at + 1 < bytes.len() {
        if bytes[at] == b';' && bytes[at + 1] == b';' {
            return Some((&bytes[..at], &bytes[at + 2..]));
        }
        at += 1;
    }
    None
}

fn is_blank(byte: u8) -> bool
    ensures { result ≡ lexing.is_blank byte }
{
    (byte == b' ' || byte == b'\t') || (byte == b'\n' || byte == b'\r')
}

fn is_line_feed(byte: u8) -> bool
    ensures { result ≡ spec.is_line_feed byte }
{
    byte == b'\n'
}

/// Whether a text holds white space alone.
pub fn is_blank_text(bytes: &[u8]) -> bool
    ensures { result ≡ spec.is_blank_text bytes.now }
{
    bytes.iter().all(|byte| is_blank(*byte))
}

/// The number of line feeds in a text.
pub fn line_feeds(bytes: &[u8]) -> usize
    ensures count { result ≡ spec.line_feeds bytes.now }
    ensures bound { result ≤ length bytes.now }
{
    bytes.iter().filter(|byte| is_line_feed(**byte)).count()
}

/// The number of line feeds in the white space at the front of a text.
pub fn leading_line_feeds(bytes: &[u8]) -> usize
    ensures count { result ≡ spec.leading_line_feeds bytes.now }
    ensures bound { result ≤ length bytes.now }
{
    bytes
        .iter()
        .take_while(|byte| is_blank(**byte))
        .filter(|byte| is_line_feed(**byte))
        .count()
}
