//! `Report`: what is told of a script that is refused.

ghost use Rattle.std.specs.Prelude.{◌≡◌, IfOk, option_map};
ghost use Rattle.std.specs.List.{position};
ghost use Rattle.rhai_report.specs.Marks.{token_at};
ghost use Rattle.rhai_report.specs.Reports.{IsMarkOf, Tells, first_at, is_at};

use crate::mark::{Mark, mark_of};
use crate::message::message_of;
use crate::notes::notes_of;
use rhai_grammar::ParseError;
use rhai_lower::{Position, Token};
use rhai_tokenizer::Tokens;
use std::alloc::{AllocError, Global};

/// A file with a script.
#[derive(Clone, Copy, Debug)]
pub struct Source<'a> {
    /// The name of the file, as it is printed; empty if the script has none.
    pub name: &'a str,
    /// Its text.
    pub text: &'a str,
    /// The byte at which the script begins in it.
    pub start: usize,
}

/// What scripts know from outside.
#[derive(Clone, Copy, Debug)]
pub struct Outside<'a> {
    /// Names of variables.
    pub variables: &'a [&'a str],
    /// Names of modules.
    pub modules: &'a [&'a str],
}

/// What may help, maybe with a place.
#[derive(Drop, Debug)]
pub struct Note {
    /// What is said.
    pub text: String,
    /// The place that it is about.
    pub mark: Option<Mark>,
}

/// What is told of a script that is refused. `print_report` gives it as text, and the crate `rhai_json` as JSON.
#[derive(Drop, Debug)]
pub struct Report<'a> {
    /// The file with the script.
    pub source: Source<'a>,
    /// The error.
    pub error: &'a ParseError,
    /// Why the script is refused.
    pub message: String,
    /// The place where; none if memory ran out.
    pub mark: Option<Mark>,
    /// What may help.
    pub notes: Vec<Note>,
}

/// The token of this index, if there is one.
pub fn token_at(tokens: &Tokens, index: usize) -> Option<&Token>
    ensures { option_map (λ t. t.now) result ≡ token_at tokens.now index }
{
    let entry = tokens.entries.get(index)?;
    Some(&entry.token)
}

// The mark of the token of this index, or of the end.
fn mark_of_token(source: Source<'_>, tokens: &Tokens, index: usize, pos: Position) -> Option<Mark>
    ensures { IsMarkOf source.entry tokens.now index result }
{
    let span = *tokens.spans.get(index)?;
    Some(mark_of(
        source.text,
        source.start,
        span,
        pos,
        token_at(tokens, index),
    ))
}

// The index of the first token at this position, if one is there.
fn found_at(tokens: &Tokens, pos: Position) -> Option<usize>
    ensures { result ≡ position (is_at pos) tokens.now.entries.items }
{
    tokens.entries.iter().position(|entry| entry.pos == pos)
}

/// The index of the first token at this position; that of the end mark, which is the number of tokens, if no token is
/// there.
pub fn index_at(tokens: &Tokens, pos: Position) -> usize
    ensures { result ≡ first_at pos tokens.now.entries.items }
{
    found_at(tokens, pos).unwrap_or(tokens.entries.len())
}

/// What is told of a script that is refused with this error, at the token of this index (that of the end mark is the
/// number of tokens). `tokens` are those of the script; `outside` is what it knows from outside. Returns `AllocError`
/// if memory runs out.
pub fn report_of<'a>(
    alloc: Global,
    source: Source<'a>,
    tokens: &Tokens,
    index: usize,
    error: &'a ParseError,
    outside: Outside<'_>,
) -> Result<Report<'a>, AllocError>
    ensures { IfOk result (Tells source.entry tokens.now index outside.entry error.now) }
{
    let ParseError(kind, pos) = error;
    let mark = if pos.is_none() {
        None
    } else {
        mark_of_token(source, tokens, index, *pos)
    };
    Ok(Report {
        source,
        error,
        message: message_of(alloc, kind)?,
        mark,
        notes: notes_of(alloc, source, tokens, index, kind, outside)?,
    })
}
