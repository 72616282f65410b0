//! `Mark`: a position in a file, and the bytes that are underlined there.

ghost use Rattle.std.specs.Prelude.{◌≡◌, ◌+◌, IfSome, false, option_map};
ghost use Rattle.std.specs.Str.{IsCharBoundary};
ghost use Rattle.rhai_report.specs.Lines.{BeginsLine, line_at};
ghost use Rattle.rhai_report.specs.Marks.{IsByteAt, Marks, MarksPart, MarksToken, column_at, is_escape, span_in_file};

use crate::line::line_of;
use crate::text::{characters, first_characters};
use rhai_lower::{LexError, Position, Token};
use rhai_tokenizer::Span;

/// A place in a file, and the bytes that are underlined there.
#[derive(Clone, Copy, PartialEq, Debug)]
pub struct Mark {
    /// The line, counted from 1.
    pub line: usize,
    /// The column, in characters, counted from 1.
    pub column: usize,
    /// The first byte that is underlined, in the same line.
    pub start: usize,
    /// The byte after the last one; that of the start, if no byte is underlined.
    pub stop: usize,
}

/// The mark of the bytes from `start` to `stop`, at the place of the byte `at`.
pub fn mark_at(text: &str, at: usize, start: usize, stop: usize) -> Mark
    ensures line { result.line ≡ (line_at text.now at).number }
    ensures column { IsCharBoundary text.now at → result.column ≡ column_at text.now at }
    ensures start { result.start ≡ start }
    ensures stop { result.stop ≡ stop }
{
    let line = line_of(text, at);
    let before = text.get(line.start..at).unwrap_or("");
    Mark {
        line: line.number,
        column: characters(before).saturating_add(1),
        start,
        stop,
    }
}

/// The bytes of a file that are these of its script, which begins at byte `from`.
pub fn in_file(from: usize, span: Span) -> Span
    ensures { result ≡ span_in_file from span }
{
    Span {
        start: span.start.saturating_add(from),
        stop: span.stop.saturating_add(from),
    }
}

// The byte at which the line begins that is after so many line feeds, if there are as many.
fn after_feeds(text: &str, feeds: usize) -> Option<usize>
    ensures { IfSome result (BeginsLine text.now (feeds + 1)) }
{
    let bytes = text.as_bytes();
    let (mut at, mut passed) = (0, 0);
    while passed < feeds {
        if *bytes.get(at)? == b'\n' {
            passed += 1;
        }
        at += 1;
    }
    Some(at)
}

// The byte of a text at which a position is. Without one, or where lines or columns are no longer counted, there is
// none.
fn byte_at(text: &str, pos: Position) -> Option<usize>
    ensures { IfSome result (IsByteAt text.now pos) }
{
    let (line, column) = (pos.line()?, pos.column()?);
    if line == u16::MAX || column == u16::MAX {
        return None;
    }
    let start = after_feeds(text, usize::from(line.saturating_sub(1)))?;
    let rest = text.get(start..)?;
    let before = first_characters(rest, usize::from(column.saturating_sub(1)));
    (before.len() < rest.len()).then_some(start.saturating_add(before.len()))
}

// The length of the escape that an error of a string is about; 0 for any other token.
fn escape_len(token: Option<&Token>) -> usize
    ensures { is_escape (option_map (λ t. t.now) token.entry) ≡ false → result ≡ 0 }
{
    match token {
        Some(Token::LexError(LexError::ImproperSymbol(symbol))) if symbol.0.starts_with('\\') => {
            symbol.0.len()
        }
        _ => 0,
    }
}

// The mark of a wrong escape, which ends with the character at the position.
fn escape_mark(text: &str, from: usize, span: Span, pos: Position, len: usize) -> Option<Mark>
    ensures { IfSome result (MarksPart text.now span) }
{
    let at = byte_at(text.get(from..)?, pos)?.saturating_add(from);
    if at <= span.start || at >= span.stop {
        return None;
    }
    let spoils = text.get(at..)?.chars().next()?;
    let stop = at.saturating_add(spoils.len_utf8());
    let start = stop.saturating_sub(len).max(span.start);
    Some(mark_at(text, at, start, stop))
}

/// The mark of bytes of a script, which begins at byte `from` of the file `text`.
pub fn mark_of_span(text: &str, from: usize, span: Span) -> Mark
    ensures { Marks text.now (span_in_file from span) result }
{
    let Span { start, stop } = in_file(from, span);
    mark_at(text, start, start, stop)
}

// The mark of the escape that an error of a string is about, if it is found.
#[tactic(auto, using(crate::proofs::MarkLemmas::marks_part))]
fn wrong_escape(
    text: &str,
    from: usize,
    span: Span,
    pos: Position,
    token: Option<&Token>,
) -> Option<Mark>
    ensures { IfSome result (MarksToken text.now (span_in_file from span) (option_map (λ t. t.now) token.entry)) }
{
    let len = escape_len(token);
    if len == 0 {
        return None;
    }
    escape_mark(text, from, in_file(from, span), pos, len)
}

/// The mark of a token: its bytes, which are `span` in the script. That of a wrong escape in a string is the escape
/// alone, at the position `pos` of the error, which is that of the character that spoils it. `text` is the file, in
/// which the script begins at byte `from`; without a `token` the mark is that of the end.
#[tactic(auto, using(crate::proofs::MarkLemmas::marks_all))]
pub fn mark_of(text: &str, from: usize, span: Span, pos: Position, token: Option<&Token>) -> Mark
    ensures { MarksToken text.now (span_in_file from span) (option_map (λ t. t.now) token.entry) result }
{
    match wrong_escape(text, from, span, pos, token) {
        Some(mark) => mark,
        None => mark_of_span(text, from, span),
    }
}
