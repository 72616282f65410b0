//! Where a program reports what is wrong, and how a run ends.

use rhai_report::Style;
use std::io::{self, IsTerminal};

/// The status of a run that was fine.
pub const FINE: u8 = 0;

/// The status of a run in which a script was refused.
pub const REFUSED: u8 = 1;

/// The status of a run that could not read its words or a file, that could not write, or that ran out of memory.
pub const FAILED: u8 = 2;

/// Where a program tells what is wrong: the error output.
#[derive(Drop)]
pub struct Console<'r> {
    rt: &'r HostRuntime,
    /// The colours.
    pub style: Style,
    // Whether something was told.
    has_told: bool,
}

impl<'r> Console<'r> {
    /// A console with colours by this word: `always`, `never`, or else those of a terminal.
    pub fn new(rt: &'r HostRuntime, colour: &str) -> Console<'r> {
        let is_coloured = match colour {
            "always" => true,
            "never" => false,
            _ => rt.stderr().is_terminal(),
        };
        Console {
            rt,
            style: if is_coloured {
                Style::COLOURS
            } else {
                Style::PLAIN
            },
            has_told: false,
        }
    }

    // Writes a text, after an empty line if something was told before.
    fn write(&mut self, text: &str) -> io::Result<()> {
        if self.has_told {
            self.rt.eprint("\n")?;
        }
        self.has_told = true;
        self.rt.eprint(text)
    }

    /// Tells a text, and returns this status; if it cannot be written, that of a run that failed.
    pub fn tell(&mut self, text: &str, status: u8) -> u8 {
        match self.write(text) {
            Ok(()) => status,
            Err(_) => FAILED,
        }
    }

    /// Tells that memory ran out, maybe while a file was read. Returns the status of a run that failed.
    pub fn tell_out_of_memory(&mut self) -> u8 {
        self.tell("error: out of memory\n", FAILED)
    }
}
