//! One turn of the reading of a text: the usual pieces at its front, and the piece after them.

ghost use Rattle.std.specs.Prelude.{◌≡◌, ◌<◌, ◌≤◌, true, false, length, slice_index, IfOk, IfSome};
ghost use Rattle.std.specs.Prelude.{drop, not, ◌&&◌, ◌==◌};
ghost use Rattle.rhai_tokenizer.specs.Bytes.{begins};
ghost use Rattle.rhai_tokenizer.specs.Cutting.{first_class};
ghost use Rattle.rhai_tokenizer.specs.Turns.{IsQuiet, IsRead, IsReady, IsTurn, left};

use crate::braces::{Brace, follow, symbol_brace};
use crate::class::{Class, First, first_class};
use crate::lexer::{Kind, begins, run_len, sign};
use crate::limits::Limits;
use crate::meaning::fixed_symbol;
use crate::reading::{Reading, any, is_due, take};
use crate::string_token::string_token;
use crate::table::{Fixed, Meaning};
use crate::usual::usuals;
use rhai_lower::token::Token;
use std::alloc::AllocError;

// The token of a symbol that always is this token.
#[inline(always)]
fn fixed_of(kind: Kind) -> Option<Fixed>
    ensures { IfSome result (λ fixed. kind ≡ Kind.Symbol (Meaning.Plain fixed)) }
{
    match kind {
        Kind::Symbol(meaning) => match meaning {
            Meaning::Plain(fixed) => Some(fixed),
            _ => None,
        },
        _ => None,
    }
}

// A symbol, or a character that begins no token.
#[inline(always)]
fn symbol(reading: &mut Reading, limits: Limits, rest: &str) -> Result<usize, AllocError>
    requires ready { IsReady reading.old rest.now }
    requires quiet { IsQuiet reading.old }
    requires class { First.Other ≡ first_class (slice_index rest.now 0) }
    ensures { IfOk result (λ n. IsTurn limits reading.old reading.new rest.now n) }
{
    let bytes = rest.as_bytes();
    let (kind, len) = sign(bytes[0], &bytes[1..], bytes);
    match fixed_of(kind) {
        Some(fixed) => {
            let text = &bytes[..len];
            let token = fixed_symbol(reading.operand, fixed, text);
            take(reading, token, len)?;
            reading.in_text = follow(&mut reading.braces, symbol_brace(text), false)?;
            Ok(len)
        }
        None => any(reading, limits, rest),
    }
}

// Whether a string ends here, with no further mark.
#[inline(always)]
fn ends_string(z: &[u8]) -> bool
    ensures { result ≡ (begins (λ c. c == 34) z.now && not (begins (λ c. c == 34) (drop 1 z.now))) }
{
    match z {
        [b'"', b'"', ..] => false,
        [b'"', ..] => true,
        _ => false,
    }
}

// A string, which mostly has no escapes and is of bytes that each take a column.
#[inline(never)]
fn text_piece(reading: &mut Reading, limits: Limits, rest: &str) -> Result<usize, AllocError>
    requires ready { IsReady reading.old rest.now }
    requires quiet { IsQuiet reading.old }
    requires class { First.Quote ≡ first_class (slice_index rest.now 0) }
    ensures { IfOk result (λ n. IsTurn limits reading.old reading.new rest.now n) }
{
    let (_, more) = rest.split_at(1);
    let bytes = more.as_bytes();
    let n = run_len(Class::Text, bytes);
    if !ends_string(&bytes[n..]) {
        return any(reading, limits, rest);
    }
    let (text, _) = more.split_at(n);
    let token = string_token(reading.tools.alloc, &mut reading.tools.names, limits, text)?;
    take(reading, token, n + 2)?;
    Ok(n + 2)
}

// A piece that begins with no letter.
#[inline(always)]
fn other(reading: &mut Reading, limits: Limits, rest: &str) -> Result<usize, AllocError>
    requires ready { IsReady reading.old rest.now }
    requires quiet { IsQuiet reading.old }
    ensures { IfOk result (λ n. IsTurn limits reading.old reading.new rest.now n) }
{
    match first_class(rest.as_bytes()[0]) {
        First::Other => symbol(reading, limits, rest),
        First::Quote => text_piece(reading, limits, rest),
        _ => any(reading, limits, rest),
    }
}

// Whether the next piece depends on no more than the bytes with which it begins.
#[inline(always)]
fn is_quiet(reading: &Reading) -> bool
    ensures { result ≡ true → IsQuiet reading.now }
{
    !(reading.in_text || (reading.opens || reading.is_hashed))
}

// Whether a block begins, which may be one of an interpolation.
#[inline(always)]
fn begins_block(reading: &Reading, rest: &str) -> bool
    ensures code { result ≡ true → reading.now.in_text ≡ false }
    ensures hash { result ≡ true → reading.now.is_hashed ≡ false }
    ensures brace { result ≡ true → begins (λ c. c == 123) rest.now ≡ true }
{
    match rest.as_bytes() {
        [first, ..] => *first == b'{' && !(reading.in_text || reading.is_hashed),
        [] => false,
    }
}

// The `{` of a block, which may be one of an interpolation.
#[inline(always)]
fn block(reading: &mut Reading, rest: &str) -> Result<usize, AllocError>
    requires ready { IsReady reading.old rest.now }
    requires code { reading.old.in_text ≡ false }
    requires hash { reading.old.is_hashed ≡ false }
    requires brace { begins (λ c. c == 123) rest.now ≡ true }
    ensures { IfOk result (λ n. (limits : Limits) → IsTurn limits reading.old reading.new rest.now n) }
{
    let _rest = rest;
    take(reading, Token::LeftBrace, 1)?;
    reading.in_text = follow(&mut reading.braces, Brace::Opens, reading.opens)?;
    reading.opens = false;
    Ok(1)
}

// Reads the piece at the front of a text, where one is due. Gives its length.
#[inline(always)]
fn piece(reading: &mut Reading, limits: Limits, rest: &str) -> Result<usize, AllocError>
    requires { IsReady reading.old rest.now }
    ensures { IfOk result (λ n. IsTurn limits reading.old reading.new rest.now n) }
{
    if is_quiet(reading) {
        other(reading, limits, rest)
    } else if begins_block(reading, rest) {
        block(reading, rest)
    } else {
        any(reading, limits, rest)
    }
}

// Reads usual pieces, where they are told by the bytes with which they begin alone. Gives what is left.
#[inline(always)]
fn past_usuals<'a>(reading: &mut Reading, rest: &'a str) -> Result<&'a str, AllocError>
    requires { IsReady reading.old rest.now }
    ensures read { IfOk result (λ more. (limits : Limits)
        → IsRead limits reading.old reading.new rest.now more.now) }
    ensures in_text { IfOk result (λ more. reading.new.in_text ≡ reading.old.in_text) }
    ensures shorter { IfOk result (λ more. length more.now ≤ length rest.now) }
{
    if is_quiet(reading) {
        usuals(reading, rest)
    } else {
        Ok(rest)
    }
}

// The piece at the front is read.
#[inline(always)]
fn after_piece<'a>(
    reading: &mut Reading,
    limits: Limits,
    rest: &'a str,
) -> Result<&'a str, AllocError>
    requires { IsReady reading.old rest.now }
    ensures read { IfOk result (λ more. IsRead limits reading.old reading.new rest.now more.now) }
    ensures falls { IfOk result (λ more. left reading.new.in_text more.now < left reading.old.in_text rest.now) }
{
    let len = piece(reading, limits, rest)?;
    let (_, more) = rest.split_at(len);
    Ok(more)
}

/// Reads the usual pieces at the front of a text, and the piece after them, where one is due. Gives what is left.
/// Returns `AllocError` if memory runs out.
#[inline(always)]
pub fn turn<'a>(reading: &mut Reading, limits: Limits, rest: &'a str) -> Result<&'a str, AllocError>
    requires { IsReady reading.old rest.now }
    ensures read { IfOk result (λ more. IsRead limits reading.old reading.new rest.now more.now) }
    ensures falls { IfOk result (λ more. left reading.new.in_text more.now < left reading.old.in_text rest.now) }
{
    let next = past_usuals(reading, rest)?;
    if !is_due(reading.in_text, next) {
        return Ok(next);
    }
    let more = after_piece(reading, limits, next)?;
    Ok(more)
}
