//! Reads raw strings.

ghost use Rattle.std.specs.Prelude.{◌≡◌, [], ◌∷◌, true, drop, length};
ghost use Rattle.rhai_tokenizer.specs.Bytes.{begins_raw, begins_with};
ghost use Rattle.rhai_tokenizer.specs.RawTurns.{IsRaw};

use crate::class::Class;
use crate::lexer::{begins_with, run_len};

/// How a raw string is made up, in bytes.
#[derive(Clone, Copy, Debug)]
pub struct RawString {
    /// How many `#` stand before it.
    pub hashes: usize,
    /// The length of its text.
    pub len: usize,
    /// Whether its end follows.
    pub is_closed: bool,
}

// The end of a raw string with these `#` stands here.
#[inline(always)]
fn ends(hashes: &[u8], z: &[u8]) -> bool
    ensures { result ≡ begins_with (34 ∷ hashes.now) z.now }
{
    match z {
        [b, rest @ ..] => *b == b'"' && begins_with(hashes, rest),
        _ => false,
    }
}

/// The raw string at the front of a text, which begins with `#`.
pub fn raw_string(z: &[u8]) -> RawString
    requires hash { begins_with (35 ∷ []) z.now ≡ true }
    requires raw { begins_raw (drop 1 z.now) ≡ true }
    ensures { IsRaw z.now result }
{
    let hashes = run_len(Class::Hash, z);
    let (marks, after) = z.split_at(hashes);
    let body = &after[1..];
    let mut len = 0;
    while len < body.len() {
        if ends(marks, &body[len..]) {
            return RawString {
                hashes,
                len,
                is_closed: true,
            };
        }
        len += 1;
    }
    RawString {
        hashes,
        len,
        is_closed: false,
    }
}
