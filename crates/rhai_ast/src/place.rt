//! The token at which a script is refused, also beyond line or column 65535.

use crate::settings::Settings;
use crate::source::script_of;
use rhai_report::{Source, index_at};
use rhai_script::{Entry, ParseError, Position, TokenStream, Tokens, tokenize};
use std::alloc::{AllocError, Global};

/// How many columns a line has in which tokens are numbered.
const COLUMNS: usize = 65535;

// The position that stands for a number; none if the number is too great.
fn numbered(number: usize) -> Position {
    let line = u16::try_from((number / COLUMNS).saturating_add(1)).unwrap_or(0);
    let column = u16::try_from((number % COLUMNS).saturating_add(1)).unwrap_or(0);
    Position::new(line, column).unwrap_or(Position::NONE)
}

// The number that a position stands for.
fn number_of(pos: Position) -> Option<usize> {
    let line = usize::from(pos.line()?).saturating_sub(1);
    let column = usize::from(pos.column()?).saturating_sub(1);
    Some(line.saturating_mul(COLUMNS).saturating_add(column))
}

// Whether a position is where lines or columns are no longer counted, so that tokens share it.
fn is_shared(pos: Position) -> bool {
    pos.line() == Some(u16::MAX) || pos.column() == Some(u16::MAX)
}

// A stream of these tokens, each at the position that stands for its number.
fn numbered_stream(mut entries: Vec<Entry>) -> Option<TokenStream> {
    for (number, entry) in entries.iter_mut().enumerate() {
        entry.pos = numbered(number);
    }
    let end = numbered(entries.len());
    TokenStream::checked(entries, end).ok()
}

// The index of the token at which a script is refused, found by numbers in place of positions.
fn index_by_number(
    alloc: Global,
    settings: &Settings<'_>,
    source: Source<'_>,
) -> Result<Option<usize>, AllocError> {
    let Tokens { entries, .. } = tokenize(alloc, script_of(source), settings.limits)?;
    let Some(mut input) = numbered_stream(entries) else {
        return Ok(None);
    };
    match settings.parse_stream(alloc, &mut input) {
        Ok(_) => Ok(None),
        Err(ParseError(_, pos)) => Ok(number_of(pos)),
    }
}

/// The index of the token at which a script is refused, at this position; that of the end mark is the number of
/// `tokens`, which are those of the script. Where tokens share the position, the script is read again, with the number
/// of each token as its position. Returns `AllocError` if memory runs out.
pub fn refused_token(
    alloc: Global,
    settings: &Settings<'_>,
    source: Source<'_>,
    tokens: &Tokens,
    pos: Position,
) -> Result<usize, AllocError> {
    let first = index_at(tokens, pos);
    if !is_shared(pos) {
        return Ok(first);
    }
    let index = index_by_number(alloc, settings, source)?;
    Ok(index.unwrap_or(first))
}
