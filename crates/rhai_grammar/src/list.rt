//! `CommaList`: the lists with commas. `AfterPart` is what a token is after a part of one.

/// A list whose parts are separated by commas.
#[derive(Clone, Copy, PartialEq, Eq, Debug)]
pub enum CommaList {
    /// The arguments of a call, up to `)`.
    Arguments,
    /// The items of an array, up to `]`.
    Array,
    /// The properties of an object map, up to `}`.
    Map,
    /// The arms of a `switch`, up to `}`.
    Arms,
    /// The parameters of a function, up to `)`.
    Parameters,
    /// The parameters of a closure, up to `|`.
    ClosureParameters,
}

/// What a token is after a part of such a list.
#[derive(Clone, Copy, PartialEq, Eq, Debug)]
pub enum AfterPart {
    /// `,`
    Comma,
    /// The token that closes the list.
    Close,
    /// It may not stand there.
    Nothing,
}
