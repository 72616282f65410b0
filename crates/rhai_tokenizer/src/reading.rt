//! What the reading of a text has come to, and how a piece joins it.

ghost use Rattle.std.specs.Prelude.{◌≡◌, ◌<◌, ◌+◌, ◌^◌, [], true, false, length, IfOk, IfSome};
ghost use Rattle.std.specs.List.{list_all};
ghost use Rattle.rhai_lower.specs.Entries.{token_may_be_delivered};
ghost use Rattle.rhai_lower.specs.Texts.{Text};
ghost use Rattle.rhai_tokenizer.specs.CuttingMeanings.{is_plain};
ghost use Rattle.rhai_tokenizer.specs.Meanings.{at_start, operand_then};
ghost use Rattle.rhai_tokenizer.specs.Places.{past};
ghost use Rattle.rhai_tokenizer.specs.Turns.{IsFront, IsIn, IsPlace, IsReady, IsTurn, Joins, before_of, due, found_of};
ghost use Rattle.rhai_tokenizer.specs.Turns.{place_of};

use crate::braces::{follow, opens_after};
use crate::front::{Front, Tools, front_of};
use crate::limits::Limits;
use crate::meaning::operand_after;
use crate::place::{FIRST_LINE, Line, Place, line_of, place_in, position};
use crate::tokens::{Span, Tokens};
use rhai_lower::position::Position;
use rhai_lower::stream::Entry;
use rhai_lower::token::Token;
use std::alloc::{AllocError, Global};

/// What the reading of a text has come to.
#[derive(Drop)]
pub struct Reading {
    /// The tokens so far.
    pub out: Tokens,
    /// What the making of tokens shares.
    pub tools: Tools,
    /// For each open brace whether it begins an interpolation. The innermost is the last.
    pub braces: Vec<bool>,
    /// Whether a sign begins an operand.
    pub operand: bool,
    /// Whether the text of a back-ticked string goes on.
    pub in_text: bool,
    /// Whether an interpolation begins.
    pub opens: bool,
    /// Whether the piece before is a `#` alone.
    pub is_hashed: bool,
    /// The line of the next piece.
    pub line: Line,
    /// Its first byte.
    pub at: usize,
}

impl Reading {
    /// Nothing is read. Does not allocate.
    pub fn new(alloc: Global) -> Self
        ensures before { before_of result ≡ at_start }
        ensures entries { result.out.entries.items ≡ [] }
        ensures spans { result.out.spans.items ≡ [] }
        ensures at { result.at ≡ 0 }
        ensures hash { result.is_hashed ≡ false }
        ensures placed { IsIn result.line result.at }
    {
        Reading {
            out: Tokens {
                entries: Vec::new(alloc),
                end: Position::START,
                spans: Vec::new(alloc),
            },
            tools: Tools::new(alloc),
            braces: Vec::new(alloc),
            operand: true,
            in_text: false,
            opens: false,
            is_hashed: false,
            line: FIRST_LINE,
            at: 0,
        }
    }
}

// A token joins. The answer is whether a sign begins an operand after it.
#[inline(always)]
fn push(
    out: &mut Tokens,
    token: Token,
    operand: bool,
    in_text: bool,
    place: Place,
    span: Span,
) -> Result<bool, AllocError>
    requires place { IsPlace place }
    requires delivered { token_may_be_delivered token ≡ true }
    ensures after { IfOk result (λ o. o ≡ operand_then operand (found_of place (Some token))) }
    ensures joined { IfOk result (λ o. Joins out.old out.new in_text span.start span.stop
        (found_of place (Some token))) }
{
    out.entries.reserve(1)?;
    out.spans.reserve(1)?;
    let next = operand_after(operand, &token);
    let pos = position(place);
    out.entries.push_reserved(Entry {
        token,
        pos,
        text: in_text,
    });
    out.spans.push_reserved(span);
    Ok(next)
}

// A piece joins the tokens, if it is one. The answer is whether a sign begins an operand after it.
fn join(
    out: &mut Tokens,
    token: Option<Token>,
    operand: bool,
    in_text: bool,
    place: Place,
    span: Span,
) -> Result<bool, AllocError>
    requires place { IsPlace place }
    requires delivered { IfSome token (λ k. token_may_be_delivered k ≡ true) }
    ensures after { IfOk result (λ o. o ≡ operand_then operand (found_of place token)) }
    ensures joined { IfOk result (λ o. Joins out.old out.new in_text span.start span.stop (found_of place token)) }
{
    match token {
        None => Ok(operand),
        Some(token) => push(out, token, operand, in_text, place, span),
    }
}

// A piece with its token joins.
#[inline(always)]
fn add(reading: &mut Reading, limits: Limits, rest: &str, piece: Front) -> Result<usize, AllocError>
    requires ready { IsReady reading.old rest.now }
    requires front { IsFront limits reading.old.in_text reading.old.operand (place_of reading.old) rest.now piece }
    ensures { IfOk result (λ n. IsTurn limits reading.old reading.new rest.now n) }
{
    let _limits = limits;
    let _rest = rest;
    let Front {
        token,
        place,
        len,
        after,
        brace,
        is_hash,
    } = piece;
    let start = reading.at;
    let stop = start + len;
    let span = Span { start, stop };
    let (operand, in_text) = (reading.operand, reading.in_text);
    reading.operand = join(&mut reading.out, token, operand, in_text, place, span)?;
    reading.in_text = follow(&mut reading.braces, brace, reading.opens)?;
    reading.opens = opens_after(brace);
    reading.is_hashed = is_hash;
    reading.line = line_of(after, stop);
    reading.at = stop;
    Ok(len)
}

/// Any piece.
#[inline(never)]
pub fn any(reading: &mut Reading, limits: Limits, rest: &str) -> Result<usize, AllocError>
    requires { IsReady reading.old rest.now }
    ensures { IfOk result (λ n. IsTurn limits reading.old reading.new rest.now n) }
{
    let (in_text, operand) = (reading.in_text, reading.operand);
    let (is_hashed, place) = (reading.is_hashed, place_in(reading.line, reading.at));
    let piece = front_of(
        &mut reading.tools,
        limits,
        in_text,
        operand,
        is_hashed,
        place,
        rest,
    )?;
    add(reading, limits, rest, piece)
}

/// A token of so many bytes that each take a column joins.
#[inline(always)]
pub fn take(reading: &mut Reading, token: Token, len: usize) -> Result<(), AllocError>
    requires place { IsIn reading.old.line reading.old.at }
    requires delivered { token_may_be_delivered token ≡ true }
    requires room { reading.old.at + len < 2 ^ 63 }
    ensures joined { IfOk result (λ done. Joins reading.old.out reading.new.out false reading.old.at
        reading.new.at (found_of (place_of reading.old) (Some token))) }
    ensures operand { IfOk result (λ done. reading.new.operand
        ≡ operand_then reading.old.operand (found_of (place_of reading.old) (Some token))) }
    ensures place { IfOk result (λ done. (t : Text) → length t ≡ len → list_all is_plain t ≡ true
        → place_of reading.new ≡ past (place_of reading.old) t) }
    ensures at { IfOk result (λ done. reading.new.at ≡ reading.old.at + len) }
    ensures placed { IfOk result (λ done. IsIn reading.new.line reading.new.at) }
    ensures hash { reading.new.is_hashed ≡ reading.old.is_hashed }
    ensures braces { reading.new.braces ≡ reading.old.braces }
    ensures in_text { reading.new.in_text ≡ reading.old.in_text }
    ensures opens { reading.new.opens ≡ reading.old.opens }
{
    let start = reading.at;
    let stop = start + len;
    let place = place_in(reading.line, start);
    let span = Span { start, stop };
    reading.operand = push(&mut reading.out, token, reading.operand, false, place, span)?;
    reading.at = stop;
    Ok(())
}

/// Whether a piece comes next.
#[inline(always)]
pub fn is_due(in_text: bool, rest: &str) -> bool
    ensures { result ≡ due in_text rest.now }
{
    if in_text {
        return true;
    }
    match rest.as_bytes() {
        [] => false,
        [_, ..] => true,
    }
}
