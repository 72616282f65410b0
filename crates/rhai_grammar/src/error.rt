//! `ParseError`: why a script is refused, and where.

ghost use Rattle.std.specs.Prelude.{◌≡◌};
ghost use Rattle.rhai_grammar.specs.Causes.{no_memory};

use rhai_lower::{LexError, Position};
use std::alloc::{AllocError, AllocFailed};
use std::rc::RcStr;

/// An input that the parser cannot use, or that the tokenizer could not read.
#[derive(Clone, PartialEq, Debug, Drop)]
pub enum InputError {
    /// An unexpected token, by its text.
    UnexpectedInput(RcStr),
    /// An error of the tokenizer.
    Lexer(LexError),
    /// Minus before the least integer, which has no negation; the text is `-` and that integer.
    MalformedNumber(RcStr),
    /// A symbol or word that is not allowed here, and a note on what to write instead.
    ImproperSymbol(RcStr, RcStr),
}

/// Why a script is refused. docs/GRAMMAR.md, "Errors", says which error occurs when.
#[derive(Clone, PartialEq, Debug, Drop)]
pub enum ParseErrorType {
    /// The script ends where an operand, or the statement of a `switch` arm, is expected.
    UnexpectedEOF,
    /// An input that the parser or the tokenizer cannot use.
    BadInput(InputError),
    /// A reserved symbol, by its text, where a binary operator may follow.
    UnknownOperator(RcStr),
    /// Another token in place of this one; the second text is a note on what it is for.
    MissingToken(RcStr, RcStr),
    /// An expression of this kind is expected.
    ExprExpected(RcStr),
    /// A value of the first kind is expected, and one of the second kind was found.
    MismatchedType(RcStr, RcStr),
    /// An index of a kind that the indexed value does not take; the text says which.
    MalformedIndexExpr(RcStr),
    /// A method call with `!`, and a note.
    MalformedCapture(RcStr),
    /// The name of a property is missing.
    PropertyExpected,
    /// The name of a variable is missing.
    VariableExpected,
    /// A reserved word where it is not allowed.
    Reserved(RcStr),
    /// A property that an object map has twice, by its name.
    DuplicatedProperty(RcStr),
    /// A loop's variable and counter with the same name.
    DuplicatedVariable(RcStr),
    /// A variable that exists already, where shadowing is off.
    VariableExists(RcStr),
    /// A variable that is not defined, where variables are strict.
    VariableUndefined(RcStr),
    /// A module that is not imported, where variables are strict.
    ModuleUndefined(RcStr),
    /// A `switch` arm after the default one.
    WrongSwitchDefaultCase,
    /// A condition on the default arm of a `switch`.
    WrongSwitchCaseCondition,
    /// An integer case after a range in a `switch`.
    WrongSwitchIntegerCase,
    /// A function below the global level.
    WrongFnDefinition,
    /// A doc comment before anything but a function at global level.
    WrongDocComment,
    /// A function without a name.
    FnMissingName,
    /// A function of this name without a parameter list.
    FnMissingParams(RcStr),
    /// A function of this name without a body.
    FnMissingBody(RcStr),
    /// A function (empty for a closure) that has this parameter twice.
    FnDuplicatedParam(RcStr, RcStr),
    /// A function of this name and number of parameters exists already.
    FnDuplicatedDefinition(RcStr, usize),
    /// An export below the global level.
    WrongExport,
    /// An assignment to a constant of this name; the name is empty for an unnamed one.
    AssignmentToConstant(RcStr),
    /// An assignment to something that cannot be assigned to.
    AssignmentToInvalidLHS(RcStr),
    /// `break` or `continue` outside a loop.
    LoopBreak,
    /// A literal of this kind with more items than this limit.
    LiteralTooLarge(RcStr, usize),
    /// The script nests more deeply than the limit allows.
    ExprTooDeep,
    /// The script has more functions than the limit allows.
    TooManyFunctions,
    /// Memory ran out.
    OutOfMemory,
}

/// Why a script is refused, and where; the position is none if memory ran out.
#[derive(Clone, PartialEq, Debug, Drop)]
pub struct ParseError(pub ParseErrorType, pub Position);

/// The result of a parsing function.
pub type ParseResult<T> = Result<T, ParseError>;

impl From<AllocError> for ParseError {
    ghost from_gives = { λ _ e. e ≡ no_memory };

    fn from(_error: AllocError) -> ParseError {
        ParseError(ParseErrorType::OutOfMemory, Position::NONE)
    }
}

impl<T: Drop> From<AllocFailed<T>> for ParseError {
    ghost from_gives = { λ _ e. e ≡ no_memory };

    fn from(_error: AllocFailed<T>) -> ParseError {
        ParseError(ParseErrorType::OutOfMemory, Position::NONE)
    }
}
