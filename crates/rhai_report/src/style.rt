//! `Style`: what is written around the parts of a report, as the colours of a terminal.

/// What is written before the parts of a report.
#[derive(Clone, Copy, Debug)]
pub struct Style {
    /// Before the word `error`, and what is underlined with it.
    pub error: &'static str,
    /// Before the word `note`, and what is underlined with it.
    pub note: &'static str,
    /// Before the numbers of lines, and the bars.
    pub edge: &'static str,
    /// Before the message.
    pub strong: &'static str,
    /// After each of these.
    pub plain: &'static str,
}

impl Style {
    /// No colours.
    pub const PLAIN: Style = Style {
        error: "",
        note: "",
        edge: "",
        strong: "",
        plain: "",
    };

    /// The colours of a terminal.
    pub const COLOURS: Style = Style {
        error: "\x1b[1;31m",
        note: "\x1b[1;36m",
        edge: "\x1b[1;34m",
        strong: "\x1b[1m",
        plain: "\x1b[0m",
    };
}
