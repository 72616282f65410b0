//! The words of the command line.

use clap::{Arg, ArgAction, ArgMatches, Command, value_parser};
use rhai_script::LangOptions;
use std::alloc::{AllocError, Global};

/// What a command does.
#[derive(Clone, Copy, PartialEq, Debug)]
pub enum Task {
    /// Says what is wrong with scripts.
    Check,
    /// Prints the tree of a script.
    Tree,
    /// Prints the tokens of a script.
    Tokens,
    /// Prints which names the functions of a script need.
    Names,
}

/// The options that forbid parts of the language: the name, the part, and the help of each.
pub const FORBIDDING: [(&str, LangOptions, &str); 7] = [
    (
        "no-if-expr",
        LangOptions::IF_EXPR,
        "Refuse `if` as an expression",
    ),
    (
        "no-switch-expr",
        LangOptions::SWITCH_EXPR,
        "Refuse `switch` as an expression",
    ),
    (
        "no-loop-expr",
        LangOptions::LOOP_EXPR,
        "Refuse loops as expressions",
    ),
    (
        "no-stmt-expr",
        LangOptions::STMT_EXPR,
        "Refuse blocks as expressions",
    ),
    ("no-closures", LangOptions::ANON_FN, "Refuse closures"),
    ("no-looping", LangOptions::LOOPING, "Refuse loops"),
    (
        "no-shadowing",
        LangOptions::SHADOWING,
        "Refuse a variable of a name that is there already",
    ),
];

// Options with a number: their names and their help.
const NUMBERS: [(&str, &str); 5] = [
    (
        "max-depth",
        "How deeply a script may nest outside functions [default: 64]; 0 is no limit but the stack",
    ),
    (
        "max-fn-depth",
        "How deeply a function may nest [default: 32]; 0 is no limit but the stack",
    ),
    (
        "max-functions",
        "How many functions and closures a script may have; 0 allows none",
    ),
    (
        "max-array",
        "How many items an array literal may have; 0 is no limit",
    ),
    (
        "max-map",
        "How many properties an object map literal may have; 0 is no limit",
    ),
];

fn flag<'a>(alloc: Global, name: &'a str, help: &'a str) -> Arg<'a> {
    Arg::new(alloc, name)
        .long(name)
        .action(ArgAction::SetTrue)
        .help(help)
}

fn number<'a>(alloc: Global, name: &'a str, help: &'a str) -> Arg<'a> {
    Arg::new(alloc, name)
        .long(name)
        .value_name("N")
        .value_parser(value_parser!(usize))
        .help(help)
}

fn name<'a>(alloc: Global, name: &'a str, help: &'a str) -> Arg<'a> {
    Arg::new(alloc, name)
        .long(name)
        .value_name("NAME")
        .action(ArgAction::Append)
        .help(help)
}

// One file.
fn file<'a>(alloc: Global) -> Arg<'a> {
    Arg::new(alloc, "FILE")
        .required(true)
        .help("A script, or - for the standard input")
}

// One file or more.
fn files<'a>(alloc: Global) -> Arg<'a> {
    file(alloc).action(ArgAction::Append).num_args(1..)
}

// What each command has.
fn with_text<'a>(alloc: Global, command: Command<'a>) -> Result<Command<'a>, AllocError> {
    let doc = flag(alloc, "doc", "Keep doc comments, which belong to functions");
    let most = number(
        alloc,
        "max-string",
        "The greatest length of a string in bytes; 0 is no limit",
    );
    let colour = Arg::new(alloc, "color")
        .long("color")
        .value_name("WHEN")
        .value_parser(["auto", "always", "never"].as_slice())
        .default_value("auto")
        .help("Whether messages have colours; auto: on a terminal");
    let json = flag(alloc, "json", "Answer in JSON, each answer on a line");
    command.arg(doc)?.arg(most)?.arg(colour)?.arg(json)
}

// What a command has that parses.
fn with_language<'a>(alloc: Global, command: Command<'a>) -> Result<Command<'a>, AllocError> {
    let mut command = with_text(alloc, command)?
        .arg(flag(alloc, "expression", "The text is one expression"))?
        .arg(flag(
            alloc,
            "strict",
            "All variables and modules have to be known",
        ))?
        .arg(name(
            alloc,
            "constant",
            "A variable that is known from outside, with --strict",
        ))?
        .arg(name(
            alloc,
            "module",
            "A module that is known from outside, with --strict",
        ))?;
    for (option, help) in NUMBERS {
        command = command.arg(number(alloc, option, help))?;
    }
    for (option, _, help) in FORBIDDING {
        command = command.arg(flag(alloc, option, help))?;
    }
    Ok(command)
}

fn check<'a>(alloc: Global) -> Result<Command<'a>, AllocError> {
    let command = Command::new(alloc, "check").about("Says what is wrong with scripts");
    with_language(alloc, command)?.arg(files(alloc))
}

fn tokens<'a>(alloc: Global) -> Result<Command<'a>, AllocError> {
    let command = Command::new(alloc, "tokens").about("Prints the tokens of a script");
    with_text(alloc, command)?
        .arg(flag(alloc, "spans", "Print the bytes of each token"))?
        .arg(file(alloc))
}

/// The command line. Returns `AllocError` if memory runs out.
pub fn command<'a>(alloc: Global) -> Result<Command<'a>, AllocError> {
    let tree = Command::new(alloc, "tree").about("Prints the tree of a script");
    let names = Command::new(alloc, "names").about("Prints which names functions need");
    Command::new(alloc, "rhai-ast")
        .about("Checks scripts, and prints what they are made of")
        .version("0.1.0 (Rhai 1.27.0)")
        .subcommand_required(true)
        .subcommand(check(alloc)?)?
        .subcommand(with_language(alloc, tree)?.arg(file(alloc))?)?
        .subcommand(tokens(alloc)?)?
        .subcommand(with_language(alloc, names)?.arg(file(alloc))?)
}

/// The command that the words name, and its own words; `None` without one.
pub fn task_of<'m, 'a>(matches: &'m ArgMatches<'a>) -> Option<(Task, &'m ArgMatches<'a>)> {
    let (name, words) = matches.subcommand()?;
    let task = match name {
        "check" => Task::Check,
        "tree" => Task::Tree,
        "tokens" => Task::Tokens,
        "names" => Task::Names,
        _ => return None,
    };
    Some((task, words))
}
