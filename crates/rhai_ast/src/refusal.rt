//! What is told of a file that is not accepted.

use crate::place::refused_token;
use crate::settings::Settings;
use crate::source::{NotText, script_of};
use rhai_report::{Report, Source, Style, print_report, push_visible, report_of};
use rhai_script::{ParseError, tokenize};
use std::alloc::{AllocError, Global};
use std::io;

/// What is told of a script that is refused with this error. Returns `AllocError` if memory runs out.
pub fn refusal_report<'a>(
    alloc: Global,
    settings: &Settings<'_>,
    source: Source<'a>,
    error: &'a ParseError,
) -> Result<Report<'a>, AllocError> {
    let tokens = tokenize(alloc, script_of(source), settings.limits)?;
    let index = refused_token(alloc, settings, source, &tokens, error.1)?;
    report_of(alloc, source, &tokens, index, error, settings.outside)
}

/// A report as text. Returns `AllocError` if memory runs out.
pub fn report_text(alloc: Global, style: Style, report: &Report<'_>) -> Result<String, AllocError> {
    let mut text = String::new(alloc);
    print_report(&mut text, style, report)?;
    Ok(text)
}

// The title of what is told of a file.
fn title(alloc: Global, style: Style, name: &str) -> Result<String, AllocError> {
    let Style {
        error,
        strong,
        plain,
        ..
    } = style;
    let mut text = format!(in alloc; "{error}error{plain}{strong}: ")?;
    push_visible(&mut text, name)?;
    Ok(text)
}

/// What is told of a file that cannot be read. Returns `AllocError` if memory runs out.
pub fn unreadable_text(
    alloc: Global,
    style: Style,
    name: &str,
    error: &io::Error,
) -> Result<String, AllocError> {
    let mut text = title(alloc, style, name)?;
    let plain = style.plain;
    write!(text, ": {error}{plain}\n")?;
    Ok(text)
}

/// What is told of a file that is no text. Returns `AllocError` if memory runs out.
pub fn not_utf8_text(
    alloc: Global,
    style: Style,
    name: &str,
    place: NotText,
) -> Result<String, AllocError> {
    let mut text = title(alloc, style, name)?;
    let Style {
        edge,
        strong,
        plain,
        ..
    } = style;
    let NotText {
        byte,
        value,
        line,
        column,
    } = place;
    write!(text, ": not UTF-8{plain}\n {edge}-->{plain} ")?;
    push_visible(&mut text, name)?;
    write!(text, ":{line}:{column}\n")?;
    write!(
        text,
        "  {edge}={plain} {strong}note{plain}: byte {byte}, counted from 0, "
    )?;
    write!(text, "is 0x{value:02x} and belongs to no character\n")?;
    Ok(text)
}
