//! `DueToken`: tokens that continue or end a construct.

/// A token that continues or ends a construct. Where it is required, any other token in its place is refused.
#[derive(Clone, Copy, PartialEq, Eq, Debug)]
pub enum DueToken {
    /// `(`, before the variables of `for`, and before that of `catch`.
    LeftParen,
    /// `)`, which ends parentheses.
    RightParen,
    /// `]`, which ends an index.
    RightBracket,
    /// `:`, between the key of a property and its value.
    Colon,
    /// `{`, which begins a block, and the arms of `switch`.
    LeftBrace,
    /// `}`, which ends a block.
    RightBrace,
    /// `,`, between the variables of `for`.
    Comma,
    /// `=`, which may not follow a guard.
    Equals,
    /// `|`, between the cases of an arm of `switch`.
    Pipe,
    /// `=>`, before what an arm of `switch` does.
    DoubleArrow,
    /// `in`, after the variables of `for`.
    In,
    /// `if`, directly after `else`, and before the guard of an arm of `switch`.
    If,
    /// `else`, after a block of `if`.
    Else,
    /// `catch`, after the block of `try`.
    Catch,
    /// `as`, before another name, after `import` and `export`.
    As,
    /// `fn`, directly after `private`.
    Fn,
    /// `.`, after a string that is the type of a function's objects.
    Period,
}
