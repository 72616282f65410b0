//! `Limits`: what a host asks of the tokenizer: doc comments, the greatest string.

/// What a tokenizer is asked for.
#[derive(Clone, Copy, Debug)]
pub struct Limits {
    /// Whether doc comments are tokens. Other comments never are.
    pub doc_comments: bool,
    /// The greatest length of the value of a string, in bytes; 0 is no limit.
    pub max_string_size: usize,
}

impl Limits {
    /// No doc comments, and strings of any length.
    pub const NONE: Limits = Limits {
        doc_comments: false,
        max_string_size: 0,
    };
}
