//! `Position`: where tokens and nodes are in a script.

ghost use Rattle.std.specs.Prelude.{◌≡◌, ◌<◌, ◌↔◌, IsSome, IfSome, IsTrue, Some};
ghost use Rattle.rhai_lower.specs.Positions.{place, line_of, column_of, nowhere, shown, described};

use std::fmt;

/// A line and a column, both counted from 1, or no position.
#[derive(Clone, Copy, PartialEq, Eq, Hash, Debug)]
pub struct Position {
    // Both are 0 if there is no position.
    line: u16,
    column: u16,
}

impl Position {
    /// No position.
    pub const NONE: Position = Position { line: 0, column: 0 };

    /// The start of a script: line 1, column 1.
    pub const START: Position = Position { line: 1, column: 1 };

    /// The position at a line and a column, both counted from 1; `None` if one of them is 0.
    pub fn new(line: u16, column: u16) -> Option<Position>
        ensures some { IsSome result ↔ ((0 < line) × (0 < column)) }
        ensures value { IfSome result (λ p. p ≡ place line column) }
    {
        if line == 0 || column == 0 {
            return None;
        }
        Some(Position { line, column })
    }

    /// The line, counted from 1; `None` if there is no position.
    pub fn line(&self) -> Option<u16>
        ensures { result ≡ line_of self.now }
    {
        if self.line == 0 {
            None
        } else {
            Some(self.line)
        }
    }

    /// The column, counted from 1; `None` if there is no position.
    pub fn column(&self) -> Option<u16>
        ensures { result ≡ column_of self.now }
    {
        if self.column == 0 {
            None
        } else {
            Some(self.column)
        }
    }

    /// The position as messages show it: `line 3, position 7`.
    pub fn described(self) -> DescribedPosition
        ensures { result.position ≡ self }
    {
        DescribedPosition { position: self }
    }

    /// Whether there is no position.
    pub fn is_none(&self) -> bool
        ensures { IsTrue result ↔ (self.now ≡ nowhere) }
    {
        *self == Position::NONE
    }
}

/// `line:column`, or `none`.
impl fmt::Display for Position {
    ghost output = { λ p. Some (shown p) };

    fn fmt<W: fmt::Write>(&self, f: &mut fmt::Formatter<W>) -> fmt::Result {
        match (self.line(), self.column()) {
            (Some(line), Some(column)) => write!(f, "{line}:{column}"),
            _ => write!(f, "none"),
        }
    }
}

/// A position as messages show it: [`Position::described`] makes it.
#[derive(Clone, Copy, PartialEq, Eq, Hash, Debug)]
pub struct DescribedPosition {
    /// The position that is shown.
    pub position: Position,
}

/// `line 3, position 7`, or `none`.
impl fmt::Display for DescribedPosition {
    ghost output = { λ d. Some (described d.position) };

    fn fmt<W: fmt::Write>(&self, f: &mut fmt::Formatter<W>) -> fmt::Result {
        match (self.position.line(), self.position.column()) {
            (Some(line), Some(column)) => write!(f, "line {line}, position {column}"),
            _ => f.write_str("none"),
        }
    }
}
