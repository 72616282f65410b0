//! The program `rhai-ast`: checks scripts, and prints what they are made of. docs/FORMAT.md describes the command line
//! and the formats.
#![tactic(auto)]

mod console;
mod files;
mod list;
mod options;
mod place;
mod refusal;
mod settings;
mod source;

use crate::console::{Console, FAILED};
use crate::files::{Form, Run};
use crate::options::{command, task_of};
use crate::settings::{Settings, outside_of, wrong_name};
use clap::{ArgMatches, Error};
use std::env;
use std::process::ExitCode;

// How these words want the answer.
fn form_of(words: &ArgMatches<'_>) -> Form {
    if words.get_flag("json") {
        Form::Json
    } else if words.get_flag("spans") {
        Form::TextWithSpans
    } else {
        Form::Text
    }
}

// Runs the command of these words.
fn run_command(rt: &HostRuntime, matches: &ArgMatches<'_>) -> Result<u8, Error> {
    let Some((task, words)) = task_of(matches) else {
        return Ok(FAILED);
    };
    if let Some((option, name)) = wrong_name(outside_of(words)) {
        let _ = eprintln!(rt;
            "error: invalid value '{name}' for '{option} <NAME>': no identifier\n"
        );
        let _ = rt.eprintln("For more information, try '--help'.");
        return Ok(FAILED);
    }
    let mut run = Run {
        rt,
        task,
        form: form_of(words),
        settings: Settings::new(rt.alloc(), words)?,
        console: Console::new(rt, words.get_str("color").unwrap_or("auto")),
    };
    Ok(run.on_files(words.get_strs("FILE").unwrap_or(&[])))
}

// Reads the words of the command line, and runs.
fn run(rt: &HostRuntime) -> Result<u8, Error> {
    let alloc = rt.alloc();
    let Ok(words) = env::args(rt) else {
        let _ = rt.eprintln("error: a word of the command line is not UTF-8, or memory ran out");
        return Ok(FAILED);
    };
    let words: Vec<String> = words.collect(alloc)?;
    let matches = command(alloc)?.try_get_matches_from(words.as_slice())?;
    run_command(rt, &matches)
}

fn main(rt: HostRuntime) -> ExitCode {
    match run(&rt) {
        Ok(status) => ExitCode::from(status),
        Err(error) => {
            let _ = error.print(&rt);
            ExitCode::from(error.exit_code() as u8)
        }
    }
}
