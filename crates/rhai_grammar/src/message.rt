//! How errors are shown: Rhai's message, and the position after it.

ghost use Rattle.std.specs.Prelude.{◌≡◌, Some};
ghost use Rattle.rhai_lower.specs.Messages.{text_or};
ghost use Rattle.rhai_grammar.specs.Messages.{reserved_kind};

use crate::error::{InputError, ParseError, ParseErrorType};
use rhai_lower::{is_valid_identifier, write_improper_symbol};
use std::error::Error;
use std::fmt;
use std::rc::RcStr;

/// The message of the error, as `Unexpected '~'`. `specs/Messages` has them all.
impl fmt::Display for InputError {
    ghost use Rattle.rhai_grammar.specs.Messages.{input_error_message};

    ghost output = { λ e. Some (input_error_message e) };

    fn fmt<W: fmt::Write>(&self, f: &mut fmt::Formatter<W>) -> fmt::Result {
        match self {
            InputError::UnexpectedInput(text) => write!(f, "Unexpected '{text}'"),
            InputError::Lexer(error) => write!(f, "{error}"),
            InputError::MalformedNumber(text) => write!(f, "Invalid number: '{text}'"),
            InputError::ImproperSymbol(symbol, note) => {
                write_improper_symbol(f, symbol.as_str(), note.as_str())
            }
        }
    }
}

impl Error for InputError {}

// A function by its name, which is empty for a closure.
#[derive(Drop)]
struct FunctionNamed<'a>(&'a RcStr);

impl fmt::Display for FunctionNamed<'_> {
    ghost use Rattle.std.specs.Rc.{rc_str_bytes};
    ghost use Rattle.rhai_grammar.specs.Messages.{function_named};

    ghost output = { λ n. Some (function_named (rc_str_bytes n.0.now)) };

    fn fmt<W: fmt::Write>(&self, f: &mut fmt::Formatter<W>) -> fmt::Result {
        if self.0.is_empty() {
            f.write_str("anonymous function")
        } else {
            write!(f, "function {}", self.0)
        }
    }
}

// A constant by its name, which is empty for a value without one.
#[derive(Drop)]
struct ConstantNamed<'a>(&'a RcStr);

impl fmt::Display for ConstantNamed<'_> {
    ghost use Rattle.std.specs.Rc.{rc_str_bytes};
    ghost use Rattle.rhai_grammar.specs.Messages.{constant_named};

    ghost output = { λ n. Some (constant_named (rc_str_bytes n.0.now)) };

    fn fmt<W: fmt::Write>(&self, f: &mut fmt::Formatter<W>) -> fmt::Result {
        if self.0.is_empty() {
            f.write_str("a constant value")
        } else {
            write!(f, "constant {}", self.0)
        }
    }
}

// A number of parameters, in words.
#[derive(Drop)]
struct ParameterCount(usize);

impl fmt::Display for ParameterCount {
    ghost use Rattle.rhai_grammar.specs.Messages.{parameter_count};

    ghost output = { λ n. Some (parameter_count n.0) };

    fn fmt<W: fmt::Write>(&self, f: &mut fmt::Formatter<W>) -> fmt::Result {
        match self.0 {
            0 => f.write_str("no parameters"),
            1 => f.write_str("1 parameter"),
            count => write!(f, "{count} parameters"),
        }
    }
}

// The text, or the other one where it is empty.
fn text_or<'a>(text: &'a str, otherwise: &'static str) -> &'a str
    ensures { result.now ≡ text_or text.now otherwise.now }
{
    if text.is_empty() { otherwise } else { text }
}

// What a reserved text is: a keyword, or a symbol.
fn reserved_kind(text: &str) -> &'static str
    ensures { result.now ≡ reserved_kind text.now }
{
    if is_valid_identifier(text) {
        "keyword"
    } else {
        "symbol"
    }
}

/// The message of the kind, as `Undefined variable: x`. `specs/Messages` has them all.
impl fmt::Display for ParseErrorType {
    ghost use Rattle.rhai_grammar.specs.Messages.{kind_message};

    ghost output = { λ e. Some (kind_message e) };

    fn fmt<W: fmt::Write>(&self, f: &mut fmt::Formatter<W>) -> fmt::Result {
        match self {
            ParseErrorType::UnexpectedEOF => f.write_str("Script is incomplete"),
            ParseErrorType::BadInput(error) => write!(f, "{error}"),
            ParseErrorType::UnknownOperator(text) => write!(f, "Unknown operator: '{text}'"),
            ParseErrorType::MissingToken(token, note) => write!(f, "Expecting '{token}' {note}"),
            ParseErrorType::ExprExpected(what) => write!(f, "Expecting {what} expression"),
            ParseErrorType::MismatchedType(due, found) => {
                write!(f, "Expecting {due}, not {found}")
            }
            ParseErrorType::MalformedIndexExpr(note) => {
                f.write_str(text_or(note, "Invalid index in indexing expression"))
            }
            ParseErrorType::MalformedCapture(note) => f.write_str(text_or(
                note,
                "Invalid capturing",
            )),
            ParseErrorType::PropertyExpected => f.write_str("Expecting name of a property"),
            ParseErrorType::VariableExpected => f.write_str("Expecting name of a variable"),
            ParseErrorType::Reserved(text) => {
                write!(f, "'{text}' is a reserved {}", reserved_kind(text))
            }
            ParseErrorType::DuplicatedProperty(name) => {
                write!(f, "Duplicated property for object map literal: {name}")
            }
            ParseErrorType::DuplicatedVariable(name) => write!(
                f,
                "Duplicated variable name: {name}"
            ),
            ParseErrorType::VariableExists(name) => write!(f, "Variable already defined: {name}"),
            ParseErrorType::VariableUndefined(name) => write!(f, "Undefined variable: {name}"),
            ParseErrorType::ModuleUndefined(name) => write!(f, "Undefined module: {name}"),
            ParseErrorType::WrongSwitchDefaultCase => {
                f.write_str("Default switch case must be the last")
            }
            ParseErrorType::WrongSwitchCaseCondition => {
                f.write_str("This switch case cannot have a condition")
            }
            ParseErrorType::WrongSwitchIntegerCase => {
                f.write_str("Numeric switch case cannot follow a range case")
            }
            ParseErrorType::WrongFnDefinition => f.write_str(
                "Function definitions must be at global level and cannot be inside a block or another function",
            ),
            ParseErrorType::WrongDocComment => {
                f.write_str("Doc-comment must be followed immediately by a function definition")
            }
            ParseErrorType::FnMissingName => {
                f.write_str("Expecting function name in function declaration")
            }
            ParseErrorType::FnMissingParams(name) => {
                write!(f, "Expecting parameters for function {name}")
            }
            ParseErrorType::FnMissingBody(name) => {
                write!(
                    f,
                    "Expecting body statement block for {}",
                    FunctionNamed(name)
                )
            }
            ParseErrorType::FnDuplicatedParam(name, parameter) => {
                write!(
                    f,
                    "Duplicated parameter {parameter} for {}",
                    FunctionNamed(name)
                )
            }
            ParseErrorType::FnDuplicatedDefinition(name, count) => {
                write!(
                    f,
                    "Function {name} with {} already exists",
                    ParameterCount(*count)
                )
            }
            ParseErrorType::WrongExport => {
                f.write_str("Export statement can only appear at global level")
            }
            ParseErrorType::AssignmentToConstant(name) => {
                write!(f, "Cannot assign to {}", ConstantNamed(name))
            }
            ParseErrorType::AssignmentToInvalidLHS(note) => {
                f.write_str(text_or(note, "Expression cannot be assigned to"))
            }
            ParseErrorType::LoopBreak => {
                f.write_str("Break statement should only be used inside a loop")
            }
            ParseErrorType::LiteralTooLarge(what, limit) => {
                write!(f, "{what} exceeds the maximum limit ({limit})")
            }
            ParseErrorType::ExprTooDeep => f.write_str("Expression exceeds maximum complexity"),
            ParseErrorType::TooManyFunctions => {
                f.write_str("Number of functions defined exceeds maximum limit")
            }
            ParseErrorType::OutOfMemory => f.write_str("Out of memory"),
        }
    }
}

impl Error for ParseErrorType {}

/// The kind's message, and the position after it unless there is none: `Undefined variable: x (line 3, position 7)`.
impl fmt::Display for ParseError {
    ghost use Rattle.rhai_grammar.specs.Messages.{message};

    ghost output = { λ e. Some (message e) };

    fn fmt<W: fmt::Write>(&self, f: &mut fmt::Formatter<W>) -> fmt::Result {
        if self.1.is_none() {
            write!(f, "{}", self.0)
        } else {
            write!(f, "{} ({})", self.0, self.1.described())
        }
    }
}

impl Error for ParseError {}
