//! What is told of a text: its tree, its names or its tokens, or why it is refused.

ghost use Rattle.std.specs.Prelude.{◌≡◌, IfErr, IfOk, IsUtf8, string_bytes};
ghost use Rattle.rhai_grammar.specs.Causes.{MemoryIsNowhere, is_for_memory};
ghost use Rattle.rhai_c.specs.Answers.{IsReply, ReadsAs, Tells, kind_of};
ghost use Rattle.rhai_c.specs.Json.{TellsRefusal};
ghost use Rattle.rhai_c.specs.declared.scripts.Question.TheVariants.{Script, Tokens};

use crate::settings::Settings;
use rhai_grammar::{ParseError, ParseErrorType, ParseResult};
use rhai_json::{diagnostic_json, names_json, tokens_json, tree_json};
use rhai_lower::{AST, OptimizationLevel, Unoptimized};
use rhai_report::{Outside, Source, index_at, report_of};
use rhai_script::{compile_expression_with, compile_with, names_of};
use rhai_tokenizer::tokenize;
use std::alloc::{AllocError, Global};

/// What a text is read as.
#[derive(Clone, Copy, Debug)]
pub enum Kind {
    /// A script.
    Script,
    /// One expression.
    Expression,
}

impl Kind {
    /// The kind of this number, if there is one.
    pub fn of_number(number: u32) -> Option<Kind>
        ensures { result ≡ kind_of number }
    {
        match number {
            0 => Some(Kind::Script),
            1 => Some(Kind::Expression),
            _ => None,
        }
    }
}

/// What is told of a script.
#[derive(Clone, Copy, Debug)]
pub enum Told {
    /// Its tree.
    Tree,
    /// Which names each of its functions needs.
    Names,
}

/// What is asked of a text.
#[derive(Clone, Copy, Debug)]
pub enum Question {
    /// What a script or an expression is.
    Script(Kind, Told),
    /// Which tokens the text has.
    Tokens,
}

/// What is told of a text.
#[derive(Drop)]
pub enum Reply {
    /// It is accepted, and this is what was asked.
    Accepted(Vec<u8>),
    /// It is refused, and this says why.
    Refused(Vec<u8>),
    /// It is not UTF-8: so many bytes stand before the first one that is wrong.
    NotUtf8(usize),
    /// Memory ran out.
    NoMemory,
}

// Reads a text as one of the two kinds.
fn read(alloc: Global, settings: &Settings, text: &str, kind: Kind) -> ParseResult<AST>
    ensures reads { ReadsAs kind settings.now text.now result }
    ensures nowhere { IfErr result MemoryIsNowhere }
{
    let Settings {
        engine,
        limits,
        constants,
    } = settings;
    let (constants, level) = (Some(constants), OptimizationLevel::None);
    match kind {
        Kind::Script => compile_with(alloc, engine, text, *limits, constants, level, &Unoptimized),
        Kind::Expression => {
            compile_expression_with(alloc, engine, text, *limits, constants, level, &Unoptimized)
        }
    }
}

// Why a text is refused. Its tokens are read once more, for the span.
fn refusal(
    alloc: Global,
    settings: &Settings,
    text: &str,
    error: ParseError,
) -> Result<Vec<u8>, AllocError>
    ensures { IfOk result (λ bytes. TellsRefusal settings.now.limits text.now error bytes.items) }
{
    let tokens = tokenize(alloc, text, settings.limits)?;
    let source = Source {
        name: "",
        text,
        start: 0,
    };
    let outside = Outside {
        variables: &[],
        modules: &[],
    };
    let index = index_at(&tokens, error.1);
    let report = report_of(alloc, source, &tokens, index, &error, outside)?;
    Ok(diagnostic_json(alloc, &report)?.into_bytes())
}

// What is told of a script, as a text.
#[tactic(auto, using(crate::proofs::Replies::tells_names))]
fn text_of(alloc: Global, script: &AST, told: Told) -> Result<String, AllocError>
    ensures { IfOk result (λ text. Tells told script.now (string_bytes text)) }
{
    match told {
        Told::Tree => tree_json(alloc, script),
        Told::Names => names_json(alloc, &names_of(alloc, &script.functions)?),
    }
}

// What is told of a script, which is dropped.
fn tell(alloc: Global, script: AST, told: Told) -> Result<Vec<u8>, AllocError>
    ensures { IfOk result (λ bytes. Tells told script bytes.items) }
{
    let text = text_of(alloc, &script, told)?;
    Ok(text.into_bytes())
}

// Whether an error says that memory ran out.
fn is_for_memory(error: &ParseError) -> bool
    ensures { result ≡ is_for_memory error.now }
{
    match error.0 {
        ParseErrorType::OutOfMemory => true,
        _ => false,
    }
}

#[tactic(auto, using(crate::proofs::Replies::accepts, crate::proofs::Replies::refuses))]
fn about_script(
    alloc: Global,
    settings: &Settings,
    text: &str,
    kind: Kind,
    told: Told,
) -> Result<Reply, AllocError>
    requires { IsUtf8 text.now }
    ensures { IfOk result (IsReply (Script kind told) settings.now text.now) }
{
    let error = match read(alloc, settings, text, kind) {
        Ok(script) => return Ok(Reply::Accepted(tell(alloc, script, told)?)),
        Err(error) => error,
    };
    if is_for_memory(&error) {
        return Ok(Reply::NoMemory);
    }
    Ok(Reply::Refused(refusal(alloc, settings, text, error)?))
}

fn about_tokens(alloc: Global, settings: &Settings, text: &str) -> Result<Reply, AllocError>
    requires { IsUtf8 text.now }
    ensures { IfOk result (IsReply Tokens settings.now text.now) }
{
    let tokens = tokenize(alloc, text, settings.limits)?;
    Ok(Reply::Accepted(tokens_json(alloc, &tokens, 0)?.into_bytes()))
}

/// What is told of a text, under these settings.
pub fn reply_on(alloc: Global, settings: &Settings, bytes: &[u8], question: Question) -> Reply
    ensures { IsReply question settings.now bytes.now result }
{
    let text = match str::from_utf8(bytes) {
        Ok(text) => text,
        Err(error) => return Reply::NotUtf8(error.valid_up_to()),
    };
    let reply = match question {
        Question::Script(kind, told) => about_script(alloc, settings, text, kind, told),
        Question::Tokens => about_tokens(alloc, settings, text),
    };
    match reply {
        Ok(reply) => reply,
        Err(_) => Reply::NoMemory,
    }
}
