//! How texts are shown: what would move or hide others in a terminal is replaced, and widths are those of a terminal.

ghost use Rattle.std.specs.Prelude.{◌≡◌, OnOk, string_bytes};
ghost use Rattle.rhai_report.specs.Printed.{as_wide, filled, visible};
ghost use Rattle.rhai_report.specs.Visible.{shown_as};

use std::alloc::AllocError;
use unicode_width::UnicodeWidthStr;

/// The character that is shown for one. A control character, but a tab, has a picture of its own; one that has none, or
/// that turns the direction of what follows, is shown as U+FFFD. All others are shown as they are.
pub fn shown(character: char) -> char
    ensures { result ≡ shown_as character }
{
    match character {
        '\t' => '\t',
        '\0'..='\u{1f}' => {
            let picture = (character as u32).saturating_add(0x2400);
            char::from_u32(picture).unwrap_or('\u{fffd}')
        }
        '\u{7f}' => '\u{2421}',
        '\u{80}'..='\u{9f}'
        | '\u{200e}'..='\u{200f}'
        | '\u{2028}'..='\u{202e}'
        | '\u{2066}'..='\u{2069}' => '\u{fffd}',
        other => other,
    }
}

/// Adds the characters of a text as they are shown. Returns `AllocError` if memory runs out.
pub fn push_visible(out: &mut String, text: &str) -> Result<(), AllocError>
    ensures { OnOk result (string_bytes out.new ≡ visible text.now (string_bytes out.old)) }
{
    for character in text.chars() {
        out.push(shown(character))?;
    }
    Ok(())
}

/// Adds a character as often as there are columns. Returns `AllocError` if memory runs out.
pub fn push_fill(out: &mut String, fill: char, columns: usize) -> Result<(), AllocError>
    ensures { OnOk result (string_bytes out.new ≡ filled fill columns (string_bytes out.old)) }
{
    for _ in 0..columns {
        out.push(fill)?;
    }
    Ok(())
}

/// Adds what is as wide as a shown text: tabs where that has tabs, and else `fill`. Returns `AllocError` if memory runs
/// out.
pub fn push_as_wide(out: &mut String, fill: char, text: &str) -> Result<(), AllocError>
    ensures { OnOk result (string_bytes out.new ≡ as_wide fill text.now (string_bytes out.old)) }
{
    for (index, part) in text.split('\t').enumerate() {
        if index > 0 {
            out.push('\t')?;
        }
        push_fill(out, fill, part.width())?;
    }
    Ok(())
}
