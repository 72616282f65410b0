//! `Token`: what the tokenizer delivers to the parser.

ghost use Rattle.std.specs.Prelude.{◌≡◌, IfOk, Some};
ghost use Rattle.std.specs.Fmt.{DisplaysOnOk};
ghost use Rattle.std.specs.Rc.{rc_str_bytes};
ghost use Rattle.rhai_lower.specs.Symbols.{Written, is_assignment, is_mark, is_operator, is_symbol, is_word};
ghost use Rattle.rhai_lower.specs.Tokens.{assigns, binds_right, literal_of, strength_of};
ghost use Rattle.rhai_lower.specs.Lexemes.{kind_of, text_of, lexeme};
ghost use Rattle.rhai_lower.specs.Messages.{symbol_message};

use std::alloc::{AllocError, Global};
use std::error::Error;
use std::fmt;
use std::rc::{Rc, RcStr};

/// What the tokenizer could not read.
#[derive(Clone, PartialEq, Debug, Drop)]
pub enum LexError {
    /// A string that is not terminated.
    UnterminatedString,
    /// A string that is longer than this limit.
    StringTooLong(usize),
    /// A text that looks like a number but is not one.
    MalformedNumber(RcStr),
    /// A symbol that the language does not have, and a note on what to write instead. They are behind a pointer, since
    /// each token takes as much memory as the largest payload.
    ImproperSymbol(Rc<(RcStr, RcStr)>),
    /// An input that is not a token.
    UnexpectedInput(RcStr),
    /// The tokenizer ran out of memory.
    OutOfMemory,
}

/// The message of the error, as `Unexpected '~'`. `specs/Messages` has them all.
impl fmt::Display for LexError {
    ghost use Rattle.std.specs.Prelude.{Some};
    ghost use Rattle.rhai_lower.specs.Lexemes.{fault};
    ghost use Rattle.rhai_lower.specs.Messages.{fault_message};

    ghost output = { λ e. Some (fault_message (fault e)) };

    fn fmt<W: fmt::Write>(&self, f: &mut fmt::Formatter<W>) -> fmt::Result {
        match self {
            LexError::UnterminatedString => f.write_str("Open string is not terminated"),
            LexError::StringTooLong(limit) => write!(f, "String is too long (max {limit})"),
            LexError::MalformedNumber(text) => write!(f, "Invalid number: '{text}'"),
            LexError::ImproperSymbol(symbol) => {
                write_improper_symbol(f, symbol.0.as_str(), symbol.1.as_str())
            }
            LexError::UnexpectedInput(text) => write!(f, "Unexpected '{text}'"),
            LexError::OutOfMemory => f.write_str("Out of memory"),
        }
    }
}

impl Error for LexError {}

/// Writes the message of a symbol that is not allowed: the note, or where it is empty that the symbol is invalid.
/// Returns `fmt::Error` if the formatter's writer fails.
pub fn write_improper_symbol<W: fmt::Write>(
    f: &mut fmt::Formatter<W>,
    symbol: &str,
    note: &str,
) -> fmt::Result
    ensures { DisplaysOnOk W.write_str_gives f.old result (Some (symbol_message symbol.now note.now)) f.new }
{
    if note.is_empty() {
        write!(f, "Invalid symbol encountered: '{symbol}'")
    } else {
        f.write_str(note)
    }
}

/// A token, or the end mark after all tokens.
#[derive(Clone, PartialEq, Debug, Drop)]
pub enum Token {
    /// An integer.
    IntegerConstant(i64),
    /// A character.
    CharConstant(char),
    /// A string without interpolation, or the last text of an interpolated string.
    StringConstant(RcStr),
    /// A text of an interpolated string that is followed by a block.
    InterpolatedString(RcStr),
    /// A name.
    Identifier(RcStr),
    /// A word or symbol that the language reserves.
    Reserved(RcStr),
    /// What the tokenizer could not read.
    LexError(LexError),
    /// A doc comment.
    Comment(RcStr),
    /// `()`
    Unit,
    /// `{`
    LeftBrace,
    /// `}`
    RightBrace,
    /// `(`
    LeftParen,
    /// `)`
    RightParen,
    /// `[`
    LeftBracket,
    /// `]`
    RightBracket,
    /// `?[`
    QuestionBracket,
    /// `#{`
    MapStart,
    /// `.`
    Period,
    /// `?.`
    Elvis,
    /// `::`
    DoubleColon,
    /// `:`
    Colon,
    /// `,`
    Comma,
    /// `;`
    SemiColon,
    /// `=>`
    DoubleArrow,
    /// `=`
    Equals,
    /// `|`
    Pipe,
    /// `||`
    Or,
    /// `!`
    Bang,
    /// `_`
    Underscore,
    /// `^`
    XOr,
    /// `&&`
    And,
    /// `&`
    Ampersand,
    /// `==`
    EqualsTo,
    /// `!=`
    NotEqualsTo,
    /// `in`
    In,
    /// `!in`
    NotIn,
    /// `<`
    LessThan,
    /// `<=`
    LessThanEqualsTo,
    /// `>`
    GreaterThan,
    /// `>=`
    GreaterThanEqualsTo,
    /// `??`
    DoubleQuestion,
    /// `..`
    ExclusiveRange,
    /// `..=`
    InclusiveRange,
    /// `+`
    Plus,
    /// `-`
    Minus,
    /// `*`
    Multiply,
    /// `/`
    Divide,
    /// `%`
    Modulo,
    /// `**`
    PowerOf,
    /// `<<`
    LeftShift,
    /// `>>`
    RightShift,
    /// `+` where an operand begins
    UnaryPlus,
    /// `-` where an operand begins
    UnaryMinus,
    /// `+=`
    PlusAssign,
    /// `-=`
    MinusAssign,
    /// `*=`
    MultiplyAssign,
    /// `/=`
    DivideAssign,
    /// `%=`
    ModuloAssign,
    /// `**=`
    PowerOfAssign,
    /// `<<=`
    LeftShiftAssign,
    /// `>>=`
    RightShiftAssign,
    /// `&=`
    AndAssign,
    /// `|=`
    OrAssign,
    /// `^=`
    XOrAssign,
    /// `true`
    True,
    /// `false`
    False,
    /// `let`
    Let,
    /// `const`
    Const,
    /// `if`
    If,
    /// `else`
    Else,
    /// `switch`
    Switch,
    /// `while`
    While,
    /// `loop`
    Loop,
    /// `do`
    Do,
    /// `until`
    Until,
    /// `for`
    For,
    /// `break`
    Break,
    /// `continue`
    Continue,
    /// `return`
    Return,
    /// `throw`
    Throw,
    /// `try`
    Try,
    /// `catch`
    Catch,
    /// `import`
    Import,
    /// `export`
    Export,
    /// `as`
    As,
    /// `fn`
    Fn,
    /// `private`
    Private,
    /// The end mark.
    EOF,
}

impl Token {
    /// The strength (precedence) of the token as a binary operator, from 30 (`||`) to 210 (`<<`); `None` if it is not a
    /// binary operator. The table is in docs/GRAMMAR.md, "The language on one page".
    pub fn precedence(&self) -> Option<u8>
        ensures { result ≡ strength_of self.now }
    {
        match self {
            Token::Or | Token::XOr | Token::Pipe => Some(30),
            Token::And | Token::Ampersand => Some(60),
            Token::EqualsTo | Token::NotEqualsTo => Some(90),
            Token::In | Token::NotIn => Some(110),
            Token::LessThan
            | Token::LessThanEqualsTo
            | Token::GreaterThan
            | Token::GreaterThanEqualsTo => Some(130),
            Token::DoubleQuestion => Some(135),
            Token::ExclusiveRange | Token::InclusiveRange => Some(140),
            Token::Plus | Token::Minus => Some(150),
            Token::Multiply | Token::Divide | Token::Modulo => Some(180),
            Token::PowerOf => Some(190),
            Token::LeftShift | Token::RightShift => Some(210),
            _ => None,
        }
    }

    /// Whether the token is a right-associative operator, as in `2 ** 3 ** 4`.
    pub fn is_bind_right(&self) -> bool
        ensures { result ≡ binds_right self.now }
    {
        matches!(self, Token::PowerOf)
    }

    /// Whether the token is an op-assignment, such as `+=`.
    pub fn is_op_assignment(&self) -> bool
        ensures { result ≡ assigns self.now }
    {
        matches!(
            self,
            Token::PlusAssign
                | Token::MinusAssign
                | Token::MultiplyAssign
                | Token::DivideAssign
                | Token::ModuloAssign
                | Token::PowerOfAssign
                | Token::LeftShiftAssign
                | Token::RightShiftAssign
                | Token::AndAssign
                | Token::OrAssign
                | Token::XOrAssign
        )
    }

    /// How a token without payload is written; empty for a token with payload.
    pub fn literal_syntax(&self) -> &'static str
        ensures { result.now ≡ literal_of self.now }
    {
        match self {
            Token::Unit => "()",
            Token::LeftBrace => "{",
            Token::RightBrace => "}",
            Token::LeftParen => "(",
            Token::RightParen => ")",
            Token::LeftBracket => "[",
            Token::RightBracket => "]",
            Token::QuestionBracket => "?[",
            Token::MapStart => "#{",
            Token::Period => ".",
            Token::Elvis => "?.",
            Token::DoubleColon => "::",
            Token::Colon => ":",
            Token::Comma => ",",
            Token::SemiColon => ";",
            Token::DoubleArrow => "=>",
            Token::Equals => "=",
            Token::Pipe => "|",
            Token::Or => "||",
            Token::Bang => "!",
            Token::Underscore => "_",
            Token::XOr => "^",
            Token::And => "&&",
            Token::Ampersand => "&",
            Token::EqualsTo => "==",
            Token::NotEqualsTo => "!=",
            Token::In => "in",
            Token::NotIn => "!in",
            Token::LessThan => "<",
            Token::LessThanEqualsTo => "<=",
            Token::GreaterThan => ">",
            Token::GreaterThanEqualsTo => ">=",
            Token::DoubleQuestion => "??",
            Token::ExclusiveRange => "..",
            Token::InclusiveRange => "..=",
            Token::Plus => "+",
            Token::Minus => "-",
            Token::Multiply => "*",
            Token::Divide => "/",
            Token::Modulo => "%",
            Token::PowerOf => "**",
            Token::LeftShift => "<<",
            Token::RightShift => ">>",
            Token::UnaryPlus => "+",
            Token::UnaryMinus => "-",
            Token::PlusAssign => "+=",
            Token::MinusAssign => "-=",
            Token::MultiplyAssign => "*=",
            Token::DivideAssign => "/=",
            Token::ModuloAssign => "%=",
            Token::PowerOfAssign => "**=",
            Token::LeftShiftAssign => "<<=",
            Token::RightShiftAssign => ">>=",
            Token::AndAssign => "&=",
            Token::OrAssign => "|=",
            Token::XOrAssign => "^=",
            Token::True => "true",
            Token::False => "false",
            Token::Let => "let",
            Token::Const => "const",
            Token::If => "if",
            Token::Else => "else",
            Token::Switch => "switch",
            Token::While => "while",
            Token::Loop => "loop",
            Token::Do => "do",
            Token::Until => "until",
            Token::For => "for",
            Token::Break => "break",
            Token::Continue => "continue",
            Token::Return => "return",
            Token::Throw => "throw",
            Token::Try => "try",
            Token::Catch => "catch",
            Token::Import => "import",
            Token::Export => "export",
            Token::As => "as",
            Token::Fn => "fn",
            Token::Private => "private",
            Token::EOF => "{EOF}",
            _ => "",
        }
    }

    /// Rhai's name of the token's kind, as `IntegerConstant`.
    pub fn kind(&self) -> &'static str
        ensures { result.now ≡ kind_of (lexeme self.now) }
    {
        match self {
            Token::IntegerConstant(_) => "IntegerConstant",
            Token::CharConstant(_) => "CharConstant",
            Token::StringConstant(_) => "StringConstant",
            Token::InterpolatedString(_) => "InterpolatedString",
            Token::Identifier(_) => "Identifier",
            Token::Reserved(_) => "Reserved",
            Token::LexError(_) => "LexError",
            Token::Comment(_) => "Comment",
            Token::Unit => "Unit",
            Token::LeftBrace => "LeftBrace",
            Token::RightBrace => "RightBrace",
            Token::LeftParen => "LeftParen",
            Token::RightParen => "RightParen",
            Token::LeftBracket => "LeftBracket",
            Token::RightBracket => "RightBracket",
            Token::QuestionBracket => "QuestionBracket",
            Token::MapStart => "MapStart",
            Token::Period => "Period",
            Token::Elvis => "Elvis",
            Token::DoubleColon => "DoubleColon",
            Token::Colon => "Colon",
            Token::Comma => "Comma",
            Token::SemiColon => "SemiColon",
            Token::DoubleArrow => "DoubleArrow",
            Token::Equals => "Equals",
            Token::Pipe => "Pipe",
            Token::Or => "Or",
            Token::Bang => "Bang",
            Token::Underscore => "Underscore",
            Token::XOr => "XOr",
            Token::And => "And",
            Token::Ampersand => "Ampersand",
            Token::EqualsTo => "EqualsTo",
            Token::NotEqualsTo => "NotEqualsTo",
            Token::In => "In",
            Token::NotIn => "NotIn",
            Token::LessThan => "LessThan",
            Token::LessThanEqualsTo => "LessThanEqualsTo",
            Token::GreaterThan => "GreaterThan",
            Token::GreaterThanEqualsTo => "GreaterThanEqualsTo",
            Token::DoubleQuestion => "DoubleQuestion",
            Token::ExclusiveRange => "ExclusiveRange",
            Token::InclusiveRange => "InclusiveRange",
            Token::Plus => "Plus",
            Token::Minus => "Minus",
            Token::Multiply => "Multiply",
            Token::Divide => "Divide",
            Token::Modulo => "Modulo",
            Token::PowerOf => "PowerOf",
            Token::LeftShift => "LeftShift",
            Token::RightShift => "RightShift",
            Token::UnaryPlus => "UnaryPlus",
            Token::UnaryMinus => "UnaryMinus",
            Token::PlusAssign => "PlusAssign",
            Token::MinusAssign => "MinusAssign",
            Token::MultiplyAssign => "MultiplyAssign",
            Token::DivideAssign => "DivideAssign",
            Token::ModuloAssign => "ModuloAssign",
            Token::PowerOfAssign => "PowerOfAssign",
            Token::LeftShiftAssign => "LeftShiftAssign",
            Token::RightShiftAssign => "RightShiftAssign",
            Token::AndAssign => "AndAssign",
            Token::OrAssign => "OrAssign",
            Token::XOrAssign => "XOrAssign",
            Token::True => "True",
            Token::False => "False",
            Token::Let => "Let",
            Token::Const => "Const",
            Token::If => "If",
            Token::Else => "Else",
            Token::Switch => "Switch",
            Token::While => "While",
            Token::Loop => "Loop",
            Token::Do => "Do",
            Token::Until => "Until",
            Token::For => "For",
            Token::Break => "Break",
            Token::Continue => "Continue",
            Token::Return => "Return",
            Token::Throw => "Throw",
            Token::Try => "Try",
            Token::Catch => "Catch",
            Token::Import => "Import",
            Token::Export => "Export",
            Token::As => "As",
            Token::Fn => "Fn",
            Token::Private => "Private",
            Token::EOF => "EOF",
        }
    }

    /// The token's text: its payload (an integer in decimal), or how it is written; empty for an error of the
    /// tokenizer. Returns `AllocError` if memory runs out.
    #[inline(always)]
    pub fn text(&self, alloc: Global) -> Result<RcStr, AllocError>
        ensures { IfOk result (λ t. rc_str_bytes t ≡ text_of (lexeme self.now)) }
    {
        match self {
            Token::IntegerConstant(n) => RcStr::from_string(format!(in alloc; "{n}")?),
            Token::CharConstant(c) => RcStr::from_string(format!(in alloc; "{c}")?),
            Token::StringConstant(t)
            | Token::InterpolatedString(t)
            | Token::Identifier(t)
            | Token::Reserved(t)
            | Token::Comment(t) => t.clone(),
            Token::LexError(_) => RcStr::from_str(alloc, ""),
            _ => RcStr::from_str(alloc, self.literal_syntax()),
        }
    }
}

// Tokens by how they are written in a list: words, operators that assign, other operators, and the rest.
fn keyword(text: &str) -> Option<Token>
    ensures { Written is_word text.now result }
{
    Some(match text {
        "in" => Token::In,
        "!in" => Token::NotIn,
        "if" => Token::If,
        "else" => Token::Else,
        "switch" => Token::Switch,
        "while" => Token::While,
        "loop" => Token::Loop,
        "do" => Token::Do,
        "until" => Token::Until,
        "for" => Token::For,
        "break" => Token::Break,
        "continue" => Token::Continue,
        "return" => Token::Return,
        "throw" => Token::Throw,
        "try" => Token::Try,
        "catch" => Token::Catch,
        "true" => Token::True,
        "false" => Token::False,
        "let" => Token::Let,
        "const" => Token::Const,
        "import" => Token::Import,
        "export" => Token::Export,
        "as" => Token::As,
        "fn" => Token::Fn,
        "private" => Token::Private,
        _ => return None,
    })
}

fn assignment(text: &str) -> Option<Token>
    ensures { Written is_assignment text.now result }
{
    Some(match text {
        "+=" => Token::PlusAssign,
        "-=" => Token::MinusAssign,
        "*=" => Token::MultiplyAssign,
        "/=" => Token::DivideAssign,
        "%=" => Token::ModuloAssign,
        "**=" => Token::PowerOfAssign,
        "<<=" => Token::LeftShiftAssign,
        ">>=" => Token::RightShiftAssign,
        "&=" => Token::AndAssign,
        "|=" => Token::OrAssign,
        "^=" => Token::XOrAssign,
        _ => return None,
    })
}

fn operator(text: &str) -> Option<Token>
    ensures { Written is_operator text.now result }
{
    Some(match text {
        "+" => Token::Plus,
        "-" => Token::Minus,
        "*" => Token::Multiply,
        "/" => Token::Divide,
        "%" => Token::Modulo,
        "**" => Token::PowerOf,
        "<<" => Token::LeftShift,
        ">>" => Token::RightShift,
        "^" => Token::XOr,
        "|" => Token::Pipe,
        "&" => Token::Ampersand,
        "||" => Token::Or,
        "&&" => Token::And,
        "==" => Token::EqualsTo,
        "!=" => Token::NotEqualsTo,
        "<" => Token::LessThan,
        "<=" => Token::LessThanEqualsTo,
        ">" => Token::GreaterThan,
        ">=" => Token::GreaterThanEqualsTo,
        "??" => Token::DoubleQuestion,
        ".." => Token::ExclusiveRange,
        "..=" => Token::InclusiveRange,
        _ => return None,
    })
}

fn mark(text: &str) -> Option<Token>
    ensures { Written is_mark text.now result }
{
    Some(match text {
        "()" => Token::Unit,
        "{" => Token::LeftBrace,
        "}" => Token::RightBrace,
        "(" => Token::LeftParen,
        ")" => Token::RightParen,
        "[" => Token::LeftBracket,
        "]" => Token::RightBracket,
        "?[" => Token::QuestionBracket,
        "#{" => Token::MapStart,
        "." => Token::Period,
        "?." => Token::Elvis,
        "::" => Token::DoubleColon,
        ":" => Token::Colon,
        "," => Token::Comma,
        ";" => Token::SemiColon,
        "=>" => Token::DoubleArrow,
        "=" => Token::Equals,
        "!" => Token::Bang,
        "_" => Token::Underscore,
        "u-" => Token::UnaryMinus,
        "u+" => Token::UnaryPlus,
        _ => return None,
    })
}

/// The token without payload that is written like this, with `u-` and `u+` for the signs before an operand; `None` if
/// there is no such token.
pub fn symbol(text: &str) -> Option<Token>
    ensures { Written is_symbol text.now result }
{
    if let Some(token) = keyword(text) {
        return Some(token);
    }
    if let Some(token) = assignment(text) {
        return Some(token);
    }
    if let Some(token) = operator(text) {
        return Some(token);
    }
    mark(text)
}
