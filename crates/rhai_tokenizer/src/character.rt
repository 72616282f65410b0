//! The token of a character.

ghost use Rattle.std.specs.Prelude.{◌≡◌, true, IfOk};
ghost use Rattle.rhai_lower.specs.Entries.{token_may_be_delivered};
ghost use Rattle.rhai_lower.specs.Lexemes.{lexeme};
ghost use Rattle.rhai_tokenizer.specs.Meanings.{character_lexeme};

use crate::meaning::improper;
use crate::special::character_len;
use crate::strings::Ending;
use rhai_lower::token::{LexError, Token};
use std::alloc::{AllocError, Global};

/// The token of a character that has this value and ends so.
#[inline(never)]
pub fn character_token(alloc: Global, value: &str, ending: Ending) -> Result<Token, AllocError>
    ensures value { IfOk result (λ t. lexeme t ≡ character_lexeme value.now ending) }
    ensures delivered { IfOk result (λ t. token_may_be_delivered t ≡ true) }
{
    match ending {
        Ending::Closed => match value.chars().next() {
            Some(c) if character_len(value.as_bytes()) == value.len() => {
                Ok(Token::CharConstant(c))
            }
            _ => improper(alloc, value, "not a single character"),
        },
        Ending::Unended | Ending::Interpolates => {
            Ok(Token::LexError(LexError::UnterminatedString))
        }
    }
}
