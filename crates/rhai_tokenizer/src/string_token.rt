//! The tokens of strings.

ghost use Rattle.std.specs.Prelude.{◌≡◌, ◌&&◌, ◌<◌, true, Some, codes, length, nat_lt, IfOk};
ghost use Rattle.std.specs.Rc.{rc_str_bytes};
ghost use Rattle.rhai_lower.specs.Entries.{token_may_be_delivered};
ghost use Rattle.rhai_lower.specs.Lexemes.{Interpolated, String, UnterminatedString, lexeme};
ghost use Rattle.rhai_tokenizer.specs.Meanings.{string_lexeme, unless_faulty, within};
ghost use Rattle.rhai_tokenizer.specs.Strings.{escapes};
ghost use Rattle.rhai_tokenizer.specs.Symbols.{improper};
ghost use Rattle.rhai_tokenizer.specs.StringTurns.{fault_of};
ghost use Rattle.rhai_tokenizer.specs.Turns.{quoted_of};

use crate::character::character_token;
use crate::interner::Interner;
use crate::limits::Limits;
use crate::place::Place;
use crate::special::Style;
use crate::strings::{Ending, Fault};
use rhai_lower::token::{LexError, Token};
use std::alloc::{AllocError, Global};
use std::rc::{Rc, RcStr};

// Whether a string of this value is too long.
#[inline(always)]
fn is_too_long(limits: Limits, value: &str) -> bool
    ensures { result ≡ (nat_lt 0 limits.max_string_size && nat_lt limits.max_string_size (length value.now)) }
{
    0 < limits.max_string_size && limits.max_string_size < value.len()
}

/// The token of a string of this value. Returns `AllocError` if memory runs out.
#[inline(always)]
pub fn string_token(
    alloc: Global,
    names: &mut Interner,
    limits: Limits,
    value: &str,
) -> Result<Token, AllocError>
    ensures value { IfOk result (λ t. lexeme t ≡ within limits String value.now) }
    ensures delivered { IfOk result (λ t. token_may_be_delivered t ≡ true) }
{
    if is_too_long(limits, value) {
        return Ok(Token::LexError(LexError::StringTooLong(limits.max_string_size)));
    }
    Ok(Token::StringConstant(names.name(alloc, value)?))
}

#[inline(always)]
fn interpolated_token(
    alloc: Global,
    names: &mut Interner,
    limits: Limits,
    value: &str,
) -> Result<Token, AllocError>
    ensures value { IfOk result (λ t. lexeme t ≡ within limits Interpolated value.now) }
    ensures delivered { IfOk result (λ t. token_may_be_delivered t ≡ true) }
{
    if is_too_long(limits, value) {
        return Ok(Token::LexError(LexError::StringTooLong(limits.max_string_size)));
    }
    Ok(Token::InterpolatedString(names.name(alloc, value)?))
}

/// The token of a part of a back-ticked string. Returns `AllocError` if memory runs out.
#[inline(always)]
pub fn ticked_token(
    alloc: Global,
    names: &mut Interner,
    limits: Limits,
    value: &str,
    ending: Ending,
) -> Result<Token, AllocError>
    ensures value { IfOk result (λ t. lexeme t ≡ string_lexeme limits value.now ending) }
    ensures delivered { IfOk result (λ t. token_may_be_delivered t ≡ true) }
{
    match ending {
        Ending::Closed => string_token(alloc, names, limits, value),
        Ending::Interpolates => interpolated_token(alloc, names, limits, value),
        Ending::Unended => Ok(Token::LexError(LexError::UnterminatedString)),
    }
}

// The token of a string or a character without wrong escapes.
#[inline(always)]
fn quoted_token(
    alloc: Global,
    names: &mut Interner,
    limits: Limits,
    style: Style,
    value: &str,
    ending: Ending,
) -> Result<Token, AllocError>
    ensures value { IfOk result (λ t. lexeme t ≡ quoted_of limits style value.now ending) }
    ensures delivered { IfOk result (λ t. token_may_be_delivered t ≡ true) }
{
    match style {
        Style::Apostrophe => character_token(alloc, value, ending),
        _ => ticked_token(alloc, names, limits, value, ending),
    }
}

// The error of a wrong escape.
#[inline(never)]
fn wrong_escape(alloc: Global, text: RcStr) -> Result<Token, AllocError>
    ensures value { IfOk result (λ t. lexeme t ≡ improper (rc_str_bytes text) (codes "not a valid escape sequence")) }
    ensures delivered { IfOk result (λ t. token_may_be_delivered t ≡ true) }
{
    let note = RcStr::from_str(alloc, "not a valid escape sequence")?;
    Ok(Token::LexError(LexError::ImproperSymbol(Rc::new(alloc, (text, note))?)))
}

/// The token of a string or a character, and where it stands. Returns `AllocError` if memory runs out.
#[inline(always)]
pub fn faulty_or(
    alloc: Global,
    names: &mut Interner,
    limits: Limits,
    style: Style,
    place: Place,
    value: &str,
    fault: Option<Fault>,
    ending: Ending,
) -> Result<(Token, Place), AllocError>
    ensures value { IfOk result (λ r. Some (record { token = lexeme r.0; place = r.1 })
        ≡ unless_faulty (fault_of fault) place (quoted_of limits style value.now ending)) }
    ensures delivered { IfOk result (λ r. token_may_be_delivered r.0 ≡ true) }
{
    match fault {
        Some(Fault { text, place }) => Ok((wrong_escape(alloc, text)?, place)),
        None => Ok((
            quoted_token(alloc, names, limits, style, value, ending)?,
            place,
        )),
    }
}
