//! Fields that several objects have: a key and its value.

ghost use Rattle.std.specs.Prelude.{◌≡◌, OnOk, codes, map, option_map};
ghost use Rattle.std.specs.Int.NonZero.{non_zero_usize_get};
ghost use Rattle.std.specs.Rc.{rc_str_bytes};
ghost use Rattle.rhai_lower.specs.View.{module_index_of, path_of, written};
ghost use Rattle.rhai_lower.specs.Lexemes.{lexeme};
ghost use Rattle.rhai_json.specs.Trees.{sign_text as written_sign};
ghost use Rattle.rhai_json.specs.Fields.{flag_field, ident_fields, integer_field, list_field, namespace_field};
ghost use Rattle.rhai_json.specs.Fields.{node_start, number_field, numbers_field, optional_number_field};
ghost use Rattle.rhai_json.specs.Fields.{optional_text_field, position_field, span_field, step_value, text_field};
ghost use Rattle.rhai_json.specs.Fields.{texts_field};

use crate::out::Out;
use rhai_lower::{Ident, Namespace, Position, Token};
use rhai_tokenizer::Span;
use std::alloc::AllocError;
use std::num::NonZeroUsize;
use std::rc::RcStr;

#[tactic(auto, unfolding(crate::specs::Fields::text_field))]
pub fn put_text(out: &mut Out, key: &str, text: &str) -> Result<(), AllocError>
    ensures { OnOk result (out.new ≡ text_field key.now text.now out.old) }
{
    out.key(key)?;
    out.text(text)
}

#[tactic(auto, unfolding(crate::specs::Fields::number_field))]
pub fn put_number(out: &mut Out, key: &str, number: usize) -> Result<(), AllocError>
    ensures { OnOk result (out.new ≡ number_field key.now number out.old) }
{
    out.key(key)?;
    out.number(number)
}

#[tactic(auto, unfolding(crate::specs::Fields::integer_field))]
pub fn put_integer(out: &mut Out, key: &str, number: i64) -> Result<(), AllocError>
    ensures { OnOk result (out.new ≡ integer_field key.now number out.old) }
{
    out.key(key)?;
    out.integer(number)
}

#[tactic(auto, unfolding(crate::specs::Fields::flag_field))]
pub fn put_flag(out: &mut Out, key: &str, flag: bool) -> Result<(), AllocError>
    ensures { OnOk result (out.new ≡ flag_field key.now flag out.old) }
{
    out.key(key)?;
    out.flag(flag)
}

/// A text, or null.
#[tactic(auto, unfolding(crate::specs::Fields::optional_text_field, crate::specs::Fields::text_field))]
pub fn put_optional_text(out: &mut Out, key: &str, text: Option<&str>) -> Result<(), AllocError>
    ensures { OnOk result (out.new ≡ optional_text_field key.now (option_map (λ t. t.now) text.entry) out.old) }
{
    out.key(key)?;
    match text {
        Some(text) => out.text(text),
        None => out.null(),
    }
}

/// A number, or null.
#[tactic(auto, unfolding(crate::specs::Fields::optional_number_field, crate::specs::Fields::number_field))]
pub fn put_optional_number(
    out: &mut Out,
    key: &str,
    number: Option<usize>,
) -> Result<(), AllocError>
    ensures { OnOk result (out.new ≡ optional_number_field key.now number out.old) }
{
    out.key(key)?;
    match number {
        Some(number) => out.number(number),
        None => out.null(),
    }
}

/// An offset, or null.
pub fn put_offset(out: &mut Out, key: &str, offset: Option<NonZeroUsize>) -> Result<(), AllocError>
    ensures { OnOk result (out.new ≡ optional_number_field key.now (option_map non_zero_usize_get offset) out.old) }
{
    put_optional_number(out, key, offset.map(|number| number.get()))
}

/// A line and a column, or null.
#[tactic(auto, unfolding(crate::specs::Fields::position_field))]
pub fn put_position(out: &mut Out, key: &str, pos: Position) -> Result<(), AllocError>
    ensures { OnOk result (out.new ≡ position_field key.now pos out.old) }
{
    out.key(key)?;
    match (pos.line(), pos.column()) {
        (Some(line), Some(column)) => {
            out.begin_object()?;
            put_number(out, "line", line as usize)?;
            put_number(out, "column", column as usize)?;
            out.end_object()
        }
        _ => out.null(),
    }
}

/// The bytes from `start` to before `stop`, or null.
#[tactic(auto, unfolding(crate::specs::Fields::span_field))]
pub fn put_span(out: &mut Out, span: Option<Span>) -> Result<(), AllocError>
    ensures { OnOk result (out.new ≡ span_field span out.old) }
{
    out.key("span")?;
    let Some(span) = span else {
        return out.null();
    };
    out.begin_object()?;
    put_number(out, "start", span.start)?;
    put_number(out, "stop", span.stop)?;
    out.end_object()
}

/// How an operator's token is written, which has no payload.
pub fn sign_text(token: &Token) -> &'static str
    ensures { result.now ≡ written_sign (lexeme token.now) }
{
    match token {
        Token::IntegerConstant(_)
        | Token::CharConstant(_)
        | Token::StringConstant(_)
        | Token::InterpolatedString(_)
        | Token::Identifier(_)
        | Token::Reserved(_)
        | Token::LexError(_)
        | Token::Comment(_) => "",
        sign => sign.literal_syntax(),
    }
}

/// An operator, or null.
#[tactic(auto, unfolding(crate::specs::Fields::optional_text_field))]
pub fn put_sign(out: &mut Out, key: &str, token: &Option<Token>) -> Result<(), AllocError>
    ensures { OnOk result (out.new
        ≡ optional_text_field key.now (option_map written_sign (option_map lexeme token.now)) out.old) }
{
    match token {
        Some(token) => put_text(out, key, sign_text(token)),
        None => put_optional_text(out, key, None),
    }
}

/// An array of texts.
#[tactic(auto, unfolding(crate::specs::Fields::texts_field))]
pub fn put_texts(out: &mut Out, key: &str, texts: &[RcStr]) -> Result<(), AllocError>
    ensures { OnOk result (out.new ≡ texts_field key.now (map rc_str_bytes texts.now) out.old) }
{
    out.key(key)?;
    out.begin_array()?;
    for text in texts {
        out.text(text)?;
    }
    out.end_array()
}

/// An array of numbers.
#[tactic(auto, unfolding(crate::specs::Fields::numbers_field))]
pub fn put_numbers(out: &mut Out, key: &str, numbers: &[usize]) -> Result<(), AllocError>
    ensures { OnOk result (out.new ≡ numbers_field key.now numbers.now out.old) }
{
    out.key(key)?;
    out.begin_array()?;
    for number in numbers {
        out.number(*number)?;
    }
    out.end_array()
}

/// A name and its position.
#[tactic(auto, unfolding(crate::specs::Fields::ident_fields))]
pub fn put_ident(out: &mut Out, ident: &Ident) -> Result<(), AllocError>
    ensures { OnOk result (out.new ≡ ident_fields (rc_str_bytes ident.now.name) ident.now.pos out.old) }
{
    put_text(out, "name", &ident.name)?;
    put_position(out, "position", ident.pos)
}

// An object of a name and its position.
fn put_step(out: &mut Out, ident: &Ident) -> Result<(), AllocError>
    ensures { OnOk result (out.new ≡ step_value (written ident.now) out.old) }
{
    out.begin_object()?;
    put_ident(out, ident)?;
    out.end_object()
}

fn put_path(out: &mut Out, path: &[Ident]) -> Result<(), AllocError>
    ensures { OnOk result (out.new ≡ list_field (codes "path") step_value (map written path.now) out.old) }
{
    out.key("path")?;
    out.begin_array()?;
    for ident in path {
        put_step(out, ident)?;
    }
    out.end_array()
}

/// The path before a name, and the offset of its import.
#[tactic(auto, unfolding(crate::specs::Fields::namespace_field))]
pub fn put_namespace(out: &mut Out, namespace: &Namespace) -> Result<(), AllocError>
    ensures { OnOk result (out.new
        ≡ namespace_field (path_of namespace.now) (module_index_of namespace.now) out.old) }
{
    out.key("namespace")?;
    out.begin_object()?;
    put_path(out, &namespace.path)?;
    put_offset(out, "index", namespace.index)?;
    out.end_object()
}

/// The kind and the position of a node, which begin its object.
#[tactic(auto, unfolding(crate::specs::Fields::node_start))]
pub fn begin_node(out: &mut Out, kind: &str, pos: Position) -> Result<(), AllocError>
    ensures { OnOk result (out.new ≡ node_start kind.now pos out.old) }
{
    out.begin_object()?;
    put_text(out, "kind", kind)?;
    put_position(out, "position", pos)
}
