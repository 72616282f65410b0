//! Brackets: which one is open where a closing one is missing.

ghost use Rattle.std.specs.Prelude.{◌≡◌, map};
ghost use Rattle.rhai_report.specs.Brackets.{closed, closed_text, innermost, note_of, opened, token_of};

use rhai_lower::{Entry, Token};

/// A kind of brackets.
#[derive(Clone, Copy, PartialEq, Debug)]
pub enum Bracket {
    /// `{` or `#{`, and `}`
    Brace,
    /// `(` and `)`
    Paren,
    /// `[` or `?[`, and `]`
    Square,
}

/// The kind that a token opens.
pub fn opened_by(token: &Token) -> Option<Bracket>
    ensures { result ≡ opened token.now }
{
    match token {
        Token::LeftBrace | Token::MapStart => Some(Bracket::Brace),
        Token::LeftParen => Some(Bracket::Paren),
        Token::LeftBracket | Token::QuestionBracket => Some(Bracket::Square),
        _ => None,
    }
}

/// The kind that a token closes.
pub fn closed_by(token: &Token) -> Option<Bracket>
    ensures { result ≡ closed token.now }
{
    match token {
        Token::RightBrace => Some(Bracket::Brace),
        Token::RightParen => Some(Bracket::Paren),
        Token::RightBracket => Some(Bracket::Square),
        _ => None,
    }
}

/// The kind that a text closes.
pub fn closed_by_text(text: &str) -> Option<Bracket>
    ensures { result ≡ closed_text text.now }
{
    match text {
        "}" => Some(Bracket::Brace),
        ")" => Some(Bracket::Paren),
        "]" => Some(Bracket::Square),
        _ => None,
    }
}

/// The index of the token that opened the innermost bracket that is open after these tokens. A closing token closes the
/// bracket that was opened last, of whatever kind.

pub fn innermost_open(entries: &[Entry]) -> Option<usize>
    ensures { result ≡ innermost (map token_of entries.now) }
{
    let mut closed = 0usize;
    let mut at = entries.len();
    while at > 0 {
        let token = &entries[at - 1].token;
        if closed_by(token).is_some() {
            closed += 1;
        } else if opened_by(token).is_some() {
            if closed == 0 {
                return Some(at - 1);
            }
            closed -= 1;
        }
        at -= 1;
    }
    None
}

/// What is said of a token that opened a bracket.
pub fn opening_note(token: &Token) -> &'static str
    ensures { result.now ≡ note_of token.now }
{
    match token {
        Token::LeftBrace => "the block was opened here",
        Token::MapStart => "the object map was opened here",
        Token::LeftParen => "the parenthesis was opened here",
        _ => "the bracket was opened here",
    }
}
