//! The nodes of tokens that are values, and whether an object map has a key.

ghost use Rattle.std.specs.Prelude.{◌≡◌, IfOk};
ghost use Rattle.rhai_lower.specs.Lexemes.{lexeme};
ghost use Rattle.rhai_lower.specs.View.{property_views, view};
ghost use Rattle.rhai_grammar.specs.Beginnings.{value_of};
ghost use Rattle.rhai_grammar.specs.Literals.{has_key};

use rhai_lower::{Expr, Ident, NamedList, Position, Token};
use std::alloc::AllocError;

/// The node of a token at `pos` that is a value. The error is that there is no memory for it.
#[inline(always)]
#[tactic(auto, using(crate::proofs::LiteralLemmas::values))]
pub fn value_of(token: &Token, pos: Position) -> Result<Expr, AllocError>
    ensures { IfOk result (λ x. view x ≡ value_of (lexeme token.now) pos) }
{
    match token {
        Token::IntegerConstant(n) => Ok(Expr::IntegerConstant(*n, pos)),
        Token::CharConstant(c) => Ok(Expr::CharConstant(*c, pos)),
        Token::StringConstant(t) => Ok(Expr::StringConstant(t.clone()?, pos)),
        Token::True => Ok(Expr::BoolConstant(true, pos)),
        Token::False => Ok(Expr::BoolConstant(false, pos)),
        _ => Ok(Expr::Unit(pos)),
    }
}

/// Whether one of these properties has this key. Does not allocate. The time does not grow with the properties.
pub fn has_key(key: &str, properties: &NamedList<(Ident, Expr)>) -> bool
    ensures { result ≡ has_key key.now (property_views properties.now) }
{
    properties.has_name(key)
}
