//! Why a script is refused: the message of the error, and what is said of a symbol that is not allowed.

ghost use Rattle.std.specs.Prelude.{◌≡◌, IfOk, option_map, string_bytes};
ghost use Rattle.rhai_report.specs.Reasons.{reason, symbol};

use rhai_grammar::{InputError, ParseErrorType};
use rhai_lower::LexError;
use std::alloc::{AllocError, Global};

/// A symbol that is not allowed, and what is said of it.
#[derive(Clone, Copy, Debug)]
pub struct Symbol<'a> {
    /// The symbol, as it is written.
    pub text: &'a str,
    /// What is wrong with it; empty if nothing is said.
    pub note: &'a str,
}

/// The symbol that an error is about, if it is not allowed.
pub fn symbol_of(kind: &ParseErrorType) -> Option<Symbol<'_>>
    ensures { option_map (λ s. (s.text.now, s.note.now)) result ≡ symbol kind.now }
{
    match kind {
        ParseErrorType::BadInput(InputError::ImproperSymbol(text, note)) => Some(Symbol {
            text,
            note,
        }),
        ParseErrorType::BadInput(InputError::Lexer(LexError::ImproperSymbol(symbol))) => {
            Some(Symbol {
                text: &symbol.0,
                note: &symbol.1,
            })
        }
        _ => None,
    }
}

/// Why a script is refused: the error's own message, but of a symbol that is not allowed this alone, since its note may
/// be no whole sentence. Returns `AllocError` if memory runs out.
pub fn message_of(alloc: Global, kind: &ParseErrorType) -> Result<String, AllocError>
    ensures { IfOk result (λ message. string_bytes message ≡ reason kind.now) }
{
    match symbol_of(kind) {
        Some(Symbol { text, .. }) => format!(in alloc; "Invalid symbol encountered: '{text}'"),
        None => format!(in alloc; "{kind}"),
    }
}
