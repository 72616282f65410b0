//! Where scripts come from.

use rhai_report::Source;
use std::alloc::Global;
use std::io::{self, Read};
use std::{fmt, fs, str};

/// The bytes of a file, or of the standard input for `-`. Returns an error if they cannot be read.
pub fn read_bytes(rt: &HostRuntime, file: &str) -> io::Result<Vec<u8>> {
    if file != "-" {
        return fs::read(rt, file);
    }
    let mut bytes = Vec::new(rt.alloc());
    rt.reader().read_to_end(&mut bytes)?;
    Ok(bytes)
}

/// Where the bytes of a file are no longer UTF-8.
#[derive(Clone, Copy, PartialEq, Debug)]
pub struct NotText {
    /// The byte that begins no character, counted from 0.
    pub byte: usize,
    /// What is there.
    pub value: u8,
    /// The line, counted from 1.
    pub line: usize,
    /// The column, in characters, counted from 1.
    pub column: usize,
}

// Where the bytes are no text, of which so many are one.
fn place_of(bytes: &[u8], valid: usize) -> NotText {
    let before = bytes.get(..valid).unwrap_or(bytes);
    let line = before.iter().filter(|byte| **byte == b'\n').count();
    let start = before.iter().rposition(|byte| *byte == b'\n');
    let front = before
        .get(start.map_or(0, |feed| feed.saturating_add(1))..)
        .unwrap_or(&[]);
    let columns = str::from_utf8(front).map_or(0, |front| front.chars().count());
    NotText {
        byte: valid,
        value: bytes.get(valid).copied().unwrap_or(0),
        line: line.saturating_add(1),
        column: columns.saturating_add(1),
    }
}

/// The text that these bytes are, or where they are none.
pub fn text_of(bytes: &[u8]) -> Result<&str, NotText> {
    str::from_utf8(bytes).map_err(|error| place_of(bytes, error.valid_up_to()))
}

// The byte at which the script begins in the text of a file: a first line that begins with `#!` is meant for the
// system, and is passed over but for its line feed.
fn script_start(text: &str) -> usize {
    if text.starts_with("#!") {
        text.find('\n').unwrap_or(text.len())
    } else {
        0
    }
}

/// The script in the text of a file.
pub fn source_of<'a>(name: &'a str, text: &'a str) -> Source<'a> {
    Source {
        name: if name == "-" { "<stdin>" } else { name },
        text,
        start: script_start(text),
    }
}

/// The text of a script, after a first line that is meant for the system.
pub fn script_of<'a>(source: Source<'a>) -> &'a str {
    source.text.get(source.start..).unwrap_or("")
}
