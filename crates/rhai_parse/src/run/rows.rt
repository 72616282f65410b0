//! Worked scripts: all that the program prints of each, and its status. The answers follow from the rules of the
//! language; an independent implementation gives the same.

mod expressions;
mod functions;
mod statements;

use super::run;
use std::alloc::{AllocError, Global};
use std::process::Abort;

// The words of a command line.
fn words(alloc: Global, line: &str) -> Result<Vec<String>, AllocError> {
    let mut words = Vec::new(alloc);
    for word in line.split(' ') {
        words.push(String::from_str(alloc, word)?)?;
    }
    Ok(words)
}

// Wants the program to end with this status and to print just this text. In the list two spaces end a line.
fn shows(
    rt: &(impl Abort + AllocGlobal),
    line: &str,
    list: &str,
    (status, text): (u8, &str),
) -> Result<(), AllocError> {
    let alloc = rt.alloc();
    let list = list.replace(alloc, "  ", "\n")?;
    let mut input = list.as_bytes();
    let mut output: Vec<u8> = Vec::new(alloc);
    let ended = run(alloc, &words(alloc, line)?, &mut input, &mut output);
    assert!(rt; output.as_slice() == text.as_bytes(), "{line}: {list}");
    assert!(rt; ended == status, "{line}: {list}: status {ended}");
    Ok(())
}

// Wants the program to print this after the word `refused`.
fn refuses(
    rt: &(impl Abort + AllocGlobal),
    line: &str,
    list: &str,
    refusal: &str,
) -> Result<(), AllocError> {
    let text = format!(in rt.alloc(); "refused {refusal}\n")?;
    shows(rt, line, list, (1, &text))
}
