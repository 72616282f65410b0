//! `tokens_json`: the tokens of a script.

ghost use Rattle.std.specs.Prelude.{◌≡◌, IfOk, OnOk, codes, string_bytes, zip};
ghost use Rattle.json.specs.Print.{print};
ghost use Rattle.json.specs.Token.{key};
ghost use Rattle.rhai_lower.specs.Lexemes.{lexeme};
ghost use Rattle.rhai_json.specs.Fields.{◌▷◌, items, put};
ghost use Rattle.rhai_json.specs.TokenLists.{end_span, entry_value, held, token_list, token_value};

use crate::errors::put_lex_error;
use crate::fields::{put_flag, put_position, put_span, put_text};
use crate::out::Out;
use rhai_lower::{Entry, Position, Token};
use rhai_report::in_file;
use rhai_tokenizer::{Span, Tokens};
use std::alloc::{AllocError, Global};

// What a token holds; how it is written, if it holds nothing.
fn put_payload(out: &mut Out, token: &Token) -> Result<(), AllocError>
    ensures { OnOk result (out.new ≡ out.old ▷ put (key (codes "payload")) ▷ held (lexeme token.now)) }
{
    out.key("payload")?;
    match token {
        Token::IntegerConstant(number) => out.integer(*number),
        Token::CharConstant(character) => out.character(*character),
        Token::StringConstant(text)
        | Token::InterpolatedString(text)
        | Token::Identifier(text)
        | Token::Reserved(text)
        | Token::Comment(text) => out.text(text),
        Token::LexError(error) => put_lex_error(out, error),
        sign => out.text(sign.literal_syntax()),
    }
}

fn put_token(
    out: &mut Out,
    token: &Token,
    pos: Position,
    span: Option<Span>,
    text: bool,
) -> Result<(), AllocError>
    ensures { OnOk result (out.new ≡ token_value (lexeme token.now) pos span text out.old) }
{
    out.begin_object()?;
    put_text(out, "kind", token.kind())?;
    put_payload(out, token)?;
    put_position(out, "position", pos)?;
    put_span(out, span)?;
    put_flag(out, "text", text)?;
    out.end_object()
}

fn put_entry(out: &mut Out, entry: &Entry, span: Span, from: usize) -> Result<(), AllocError>
    ensures { OnOk result (out.new ≡ entry_value from (entry.now, span) out.old) }
{
    let span = in_file(from, span);
    put_token(out, &entry.token, entry.pos, Some(span), entry.text)
}

fn put_entries(
    out: &mut Out,
    entries: &[Entry],
    spans: &[Span],
    from: usize,
) -> Result<(), AllocError>
    ensures { OnOk result (out.new ≡ items (entry_value from) (zip entries.now spans.now) out.old) }
{
    for (entry, span) in entries.iter().zip(spans.iter()) {
        put_entry(out, entry, *span, from)?;
    }
    Ok(())
}

// The bytes of the end mark.
fn last_span(spans: &[Span], from: usize) -> Option<Span>
    ensures { result ≡ end_span from spans.now }
{
    let span = spans.last()?;
    Some(in_file(from, *span))
}

/// The tokens of a script as a JSON array: each with its kind, what it holds or how it is written, its position, its
/// bytes, and whether it is a text after a block of an interpolated string. The last one is the end mark, `EOF`. Bytes
/// count from the start of the file, in which the script begins at byte `from`. Returns `AllocError` if memory runs
/// out.
pub fn tokens_json(alloc: Global, tokens: &Tokens, from: usize) -> Result<String, AllocError>
    ensures { IfOk result (λ text. string_bytes text ≡ print (token_list from tokens.now)) }
{
    let mut out = Out::new(alloc);
    out.begin_array()?;
    put_entries(&mut out, &tokens.entries, &tokens.spans, from)?;
    let end = last_span(&tokens.spans, from);
    put_token(&mut out, &Token::EOF, tokens.end, end, false)?;
    out.end_array()?;
    Ok(out.into_text())
}
