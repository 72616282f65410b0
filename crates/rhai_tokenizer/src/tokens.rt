//! `Tokens`: the tokens of a text, with their positions and bytes.

use rhai_lower::position::Position;
use rhai_lower::stream::Entry;

/// The bytes of a text on which a token stands.
#[derive(Clone, Copy, Debug)]
pub struct Span {
    /// The first byte.
    pub start: usize,
    /// The byte after the last one.
    pub stop: usize,
}

/// The tokens of a text, and where they stand.
#[derive(Drop, Debug)]
pub struct Tokens {
    /// The tokens, as a stream delivers them.
    pub entries: Vec<Entry>,
    /// The position of the end mark.
    pub end: Position,
    /// The bytes of each token, and of the end mark.
    pub spans: Vec<Span>,
}
