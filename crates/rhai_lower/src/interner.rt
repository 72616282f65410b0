//! `StringsInterner`: names that the parser makes itself, each made once.

ghost use Rattle.std.specs.Prelude.{◌≡◌, IfOk};
ghost use Rattle.std.specs.Rc.{rc_str_bytes};
ghost use Rattle.rhai_lower.specs.Lexemes.{text_of, lexeme};

use crate::token::Token;
use std::alloc::{AllocError, Global};
use std::rc::RcStr;

/// Names of operators, which calls share: each is made once. They are as few as there are operators, so a list of them
/// is searched.
#[derive(Drop)]
pub struct StringsInterner {
    names: Vec<RcStr>,
}

impl StringsInterner {
    /// An interner without names. Does not allocate.
    pub fn new(alloc: Global) -> Self {
        let names = Vec::new(alloc);
        StringsInterner { names }
    }

    /// The text of a token, as from [`Token::text`]; that of a token without payload is shared with earlier ones.
    /// Returns `AllocError` if memory runs out.
    pub fn text(&mut self, alloc: Global, token: &Token) -> Result<RcStr, AllocError>
        ensures { IfOk result (λ t. rc_str_bytes t ≡ text_of (lexeme token.now)) }
    {
        let symbol = token.literal_syntax();
        if symbol.is_empty() {
            return token.text(alloc);
        }
        self.intern(alloc, symbol)
    }

    // The name with this text.
    fn intern(&mut self, alloc: Global, text: &str) -> Result<RcStr, AllocError>
        ensures { IfOk result (λ t. rc_str_bytes t ≡ text.now) }
    {
        if let Some(name) = self.names.iter().find(|name| name.as_str() == text) {
            return name.clone();
        }
        let name = RcStr::from_str(alloc, text)?;
        self.names.push(name.clone()?)?;
        Ok(name)
    }
}
