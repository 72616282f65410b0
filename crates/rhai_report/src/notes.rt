//! What may help where a script is refused.

ghost use Rattle.std.specs.Prelude.{◌≡◌, ◌++◌, IfOk, codes, map, option_to_list, slice_get, string_bytes, take};
ghost use Rattle.rhai_report.specs.Notes.{HasNotes, Helps, TellsMeaning, TellsOpening, TellsRemark, known_names};

use crate::brackets::{closed_by_text, innermost_open, opened_by, opening_note};
use crate::declared::{Declared, declared_names};
use crate::mark::mark_of_span;
use crate::message::symbol_of;
use crate::report::{Note, Outside, Source, token_at};
use crate::similar::most_similar;
use rhai_grammar::ParseErrorType;
use rhai_lower::Entry;
use rhai_tokenizer::{Span, Tokens};
use std::alloc::{AllocError, Global};

// The tokens before that of this index.
fn entries_before(tokens: &Tokens, index: usize) -> &[Entry]
    ensures { result.now ≡ take index tokens.now.entries.items }
{
    let entries = tokens.entries.as_slice();
    let (before, _) = entries.split_at(index.min(entries.len()));
    before
}

// The bytes of the token of this index, if there is one.
fn span_at(tokens: &Tokens, index: usize) -> Option<Span>
    ensures { result ≡ slice_get tokens.now.spans.items index }
{
    tokens.spans.get(index).copied()
}

// Where the innermost bracket before the token of this index was opened, if it is of the kind that `missing` closes.
fn opening(
    alloc: Global,
    source: Source<'_>,
    tokens: &Tokens,
    index: usize,
    missing: &str,
) -> Result<Option<Note>, AllocError>
    ensures { IfOk result (TellsOpening source.entry tokens.now index missing.now) }
{
    let Some(at) = innermost_open(entries_before(tokens, index)) else {
        return Ok(None);
    };
    let (Some(token), Some(span)) = (token_at(tokens, at), span_at(tokens, at)) else {
        return Ok(None);
    };
    if opened_by(token) != closed_by_text(missing) {
        return Ok(None);
    }
    let mark = mark_of_span(source.text, source.start, span);
    let text = String::from_str(alloc, opening_note(token))?;
    Ok(Some(Note {
        text,
        mark: Some(mark),
    }))
}

// A note without a place, if there is a text.
fn remark(alloc: Global, text: &str) -> Result<Option<Note>, AllocError>
    ensures { IfOk result (TellsRemark text.now) }
{
    if text.is_empty() {
        return Ok(None);
    }
    let text = String::from_str(alloc, text)?;
    Ok(Some(Note { text, mark: None }))
}

// The note that this name was meant.
fn meaning(alloc: Global, other: &str) -> Result<Note, AllocError>
    ensures text { IfOk result (λ n. string_bytes n.text ≡ codes "did you mean `" ++ (other.now ++ codes "`?")) }
    ensures mark { IfOk result (λ n. n.mark ≡ None) }
{
    let text = format!(in alloc; "did you mean `{other}`?")?;
    Ok(Note { text, mark: None })
}

// The names that may be meant: those that the text declares, and those from outside.
fn known_names<'a>(
    alloc: Global,
    tokens: &'a Tokens,
    declared: Declared,
    outside: &[&'a str],
) -> Result<Vec<&'a str>, AllocError>
    ensures { IfOk result (λ names. map (λ n. n.now) names.items ≡ known_names declared tokens.now outside.now) }
{
    let mut names = declared_names(alloc, &tokens.entries, declared)?;
    names.extend_from_slice(outside)?;
    Ok(names)
}

// The name that was meant in place of one that is not known.
fn meant(
    alloc: Global,
    tokens: &Tokens,
    declared: Declared,
    outside: &[&str],
    name: &str,
) -> Result<Option<Note>, AllocError>
    ensures { IfOk result (TellsMeaning name.now (known_names declared tokens.now outside.now)) }
{
    let names = known_names(alloc, tokens, declared, outside)?;
    let Some(other) = most_similar(alloc, name, &names)? else {
        return Ok(None);
    };
    let note = meaning(alloc, other)?;
    Ok(Some(note))
}

// The note on a refusal of this kind.
fn note_of(
    alloc: Global,
    source: Source<'_>,
    tokens: &Tokens,
    index: usize,
    kind: &ParseErrorType,
    outside: Outside<'_>,
) -> Result<Option<Note>, AllocError>
    ensures { IfOk result (Helps source.entry tokens.now index kind.now outside.entry) }
{
    match kind {
        ParseErrorType::MissingToken(token, _) => {
            opening(alloc, source, tokens, index, token.as_str())
        }
        ParseErrorType::VariableUndefined(name) => meant(
            alloc,
            tokens,
            Declared::Variables,
            outside.variables,
            name.as_str(),
        ),
        ParseErrorType::ModuleUndefined(name) => meant(
            alloc,
            tokens,
            Declared::Modules,
            outside.modules,
            name.as_str(),
        ),
        _ => remark(alloc, symbol_of(kind).map_or("", |symbol| symbol.note)),
    }
}

// One note, or none, as a list.
fn listed(alloc: Global, note: Option<Note>) -> Result<Vec<Note>, AllocError>
    ensures { IfOk result (λ notes. notes.items ≡ option_to_list note) }
{
    let mut notes = Vec::new(alloc);
    match note {
        Some(note) => notes.push(note)?,
        None => {}
    }
    Ok(notes)
}

/// What may help where a script is refused for this reason, at the token of this index: where the bracket was opened
/// that has to be closed, which name was meant, or what is said of a symbol. Returns `AllocError` if memory runs out.
pub fn notes_of(
    alloc: Global,
    source: Source<'_>,
    tokens: &Tokens,
    index: usize,
    kind: &ParseErrorType,
    outside: Outside<'_>,
) -> Result<Vec<Note>, AllocError>
    ensures { IfOk result (λ notes. HasNotes source.entry tokens.now index kind.now outside.entry notes.items) }
{
    let note = note_of(alloc, source, tokens, index, kind, outside)?;
    let notes = listed(alloc, note)?;
    Ok(notes)
}
