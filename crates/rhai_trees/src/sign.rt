//! `make_unary`: what `-`, `+` or `!` makes of its operand.

ghost use Rattle.std.specs.Prelude.{◌≡◌, IfErr, IfOk};
ghost use Rattle.rhai_lower.specs.Lexemes.{lexeme};
ghost use Rattle.rhai_lower.specs.View.{view};
ghost use Rattle.rhai_grammar.specs.Answers.{Answers};
ghost use Rattle.rhai_grammar.specs.Causes.{MemoryIsNowhere};
ghost use Rattle.rhai_grammar.specs.Signs.{effect, plain_sign, sign_call, sign_result};
ghost use Rattle.rhai_trees.specs.Views.{integer_value, negated};

use crate::call::native_call;
use rhai_grammar::{Effect, InputError, ParseError, ParseErrorType, ParseResult};
use rhai_lower::{Expr, Position, StringsInterner, Token};
use std::alloc::{AllocError, Global};
use std::rc::RcStr;

/// What a sign makes of its operand (docs/GRAMMAR.md, "Signs"). Minus on an integer constant gives the negated integer,
/// at the sign; plus on one gives that constant unchanged; otherwise a sign is a native-only call at the sign's
/// position.
///
/// `op_token` is the sign, `pos` its position. Minus on the least integer gives `MalformedNumber` at the sign. If
/// memory runs out, the error is `OutOfMemory`.
#[tactic(auto, using(crate::proofs::SignLemmas::results))]
pub fn make_unary(
    alloc: Global,
    interner: &mut StringsInterner,
    op_token: Token,
    pos: Position,
    operand: Expr,
) -> ParseResult<Expr>
    ensures answers { Answers view (sign_result (lexeme op_token) pos (view operand)) result }
    ensures nowhere { IfErr result MemoryIsNowhere }
{
    match (sign_effect(&op_token), integer_of(&operand)) {
        (Effect::Negates, Some(number)) => negated(alloc, number, pos),
        (Effect::Keeps, Some(_)) => Ok(operand),
        (Effect::Calls, Some(_)) | (_, None) => {
            Ok(sign_call(alloc, interner, plain_sign(op_token), pos, operand)?)
        }
    }
}

// What a token does to an integer constant, as a sign before it.
fn sign_effect(op_token: &Token) -> Effect
    ensures { result ≡ effect (lexeme op_token.now) }
{
    match op_token {
        Token::Minus | Token::UnaryMinus => Effect::Negates,
        Token::Plus | Token::UnaryPlus => Effect::Keeps,
        _ => Effect::Calls,
    }
}

// The sign as a call names it.
fn plain_sign(op_token: Token) -> Token
    ensures { lexeme result ≡ plain_sign (lexeme op_token) }
{
    match op_token {
        Token::UnaryMinus => Token::Minus,
        Token::UnaryPlus => Token::Plus,
        other => other,
    }
}

/// The value of an integer constant.
pub(crate) fn integer_of(expr: &Expr) -> Option<i64>
    ensures { result ≡ integer_value (view expr.now) }
{
    match expr {
        Expr::IntegerConstant(number, _) => Some(*number),
        _ => None,
    }
}

// Minus on an integer constant.
#[tactic(auto, using(crate::proofs::SignLemmas::negations))]
fn negated(alloc: Global, number: i64, pos: Position) -> ParseResult<Expr>
    ensures answers { Answers view (negated number pos) result }
    ensures nowhere { IfErr result MemoryIsNowhere }
{
    match number.checked_neg() {
        Some(negated) => Ok(Expr::IntegerConstant(negated, pos)),
        None => {
            let text = RcStr::from_string(format!(in alloc; "-{number}")?)?;
            let input = InputError::MalformedNumber(text);
            Err(ParseError(ParseErrorType::BadInput(input), pos))
        }
    }
}

// The call of a sign on any other operand.
fn sign_call(
    alloc: Global,
    interner: &mut StringsInterner,
    op_token: Token,
    pos: Position,
    operand: Expr,
) -> Result<Expr, AllocError>
    ensures { IfOk result (λ e. view e ≡ sign_call (lexeme op_token) pos (view operand)) }
{
    native_call(alloc, interner, op_token, pos, vec![in alloc; operand]?)
}
