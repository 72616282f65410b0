//! How a report is printed: a message, the line where, and notes. docs/FORMAT.md describes it.

ghost use Rattle.std.specs.Prelude.{◌≡◌, ◌≤◌, ◌<◌, ◌-◌, ◌^◌, OnOk, length, string_bytes};
ghost use Rattle.std.specs.Fmt.{decimal};
ghost use Rattle.rhai_report.specs.Printed.{Prints, PrintsMark, PrintsNote, PrintsNotes, carets, edge, greatest_line};
ghost use Rattle.rhai_report.specs.Printed.{line, place, remark, remarks, title};

use crate::mark::Mark;
use crate::report::{Note, Report, Source};
use crate::snippet::{Snippet, snippet_of};
use crate::style::Style;
use crate::visible::{push_as_wide, push_fill, push_visible};
use std::alloc::AllocError;
use unicode_width::UnicodeWidthStr;

/// What stands for what was cut.
const DOTS: &str = "...";

// How a mark is printed.
#[derive(Clone, Copy)]
struct Look {
    style: Style,
    // Before what is underlined.
    colour: &'static str,
    // How many digits the greatest number of a line has.
    digits: usize,
}

// How many digits a number has.
fn digits_of(number: usize) -> usize
    ensures fits { number < 10 ^ result }
    ensures least { (0 < number → 10 ^ (result - 1) ≤ number) × (number ≡ 0 → result ≡ 1) }
    ensures printed { result ≡ length (decimal number) }
{
    match number.checked_ilog10() {
        Some(power) => usize::try_from(power).unwrap_or(0).saturating_add(1),
        None => 1,
    }
}

// The greatest number of a line that a report shows.
fn greatest_line(report: &Report<'_>) -> usize
    ensures { result ≡ greatest_line report.now }
{
    let mut greatest = report.mark.map_or(0, |mark| mark.line);
    for note in &report.notes {
        greatest = greatest.max(note.mark.map_or(0, |mark| mark.line));
    }
    greatest
}

// The edge of a line: the number of a line, or blanks, and a bar.
fn push_edge(out: &mut String, look: Look, number: Option<usize>) -> Result<(), AllocError>
    ensures { OnOk result (string_bytes out.new ≡ edge look.style look.digits number (string_bytes out.old)) }
{
    let Look { style, digits, .. } = look;
    let Style { edge, plain, .. } = style;
    out.push_str(edge)?;
    let used = match number {
        Some(line) => {
            write!(out, "{line}")?;
            digits_of(line)
        }
        None => 0,
    };
    push_fill(out, ' ', digits.saturating_sub(used))?;
    write!(out, " |{plain}")
}

// The file and the place.
fn push_place(
    out: &mut String,
    look: Look,
    source: Source<'_>,
    mark: Mark,
) -> Result<(), AllocError>
    ensures { OnOk result (string_bytes out.new
        ≡ place look.style look.digits source.entry.name.now mark (string_bytes out.old)) }
{
    let Style { edge, plain, .. } = look.style;
    push_fill(out, ' ', look.digits)?;
    write!(out, "{edge}-->{plain} ")?;
    push_visible(out, source.name)?;
    out.push_str(if source.name.is_empty() { "" } else { ":" })?;
    let Mark { line, column, .. } = mark;
    write!(out, "{line}:{column}\n")
}

// The line of a snippet, after its edge.
fn push_line(out: &mut String, snippet: Snippet<'_>) -> Result<(), AllocError>
    ensures { OnOk result (string_bytes out.new ≡ line snippet.entry (string_bytes out.old)) }
{
    let Snippet {
        before,
        marked,
        after,
        cut_front,
        cut_end,
    } = snippet;
    if before.is_empty() && marked.is_empty() && after.is_empty() {
        return out.push_str("\n");
    }
    out.push_str(" ")?;
    out.push_str(if cut_front { DOTS } else { "" })?;
    push_visible(out, before)?;
    push_visible(out, marked)?;
    push_visible(out, after)?;
    out.push_str(if cut_end { DOTS } else { "" })?;
    out.push_str("\n")
}

// The carets below what is marked, after the edge of their line.
fn push_carets(out: &mut String, look: Look, snippet: Snippet<'_>) -> Result<(), AllocError>
    ensures { OnOk result (string_bytes out.new
        ≡ carets look.style look.colour.now snippet.entry (string_bytes out.old)) }
{
    let alloc = *out.allocator();
    let mut text = String::new(alloc);
    text.push_str(if snippet.cut_front { " ..." } else { " " })?;
    push_visible(&mut text, snippet.before)?;
    push_as_wide(out, ' ', &text)?;
    out.push_str(look.colour)?;
    text.clear();
    push_visible(&mut text, snippet.marked)?;
    if text.as_str().width() == 0 {
        out.push_str("^")?;
    } else {
        push_as_wide(out, '^', &text)?;
    }
    out.push_str(look.style.plain)?;
    out.push_str("\n")
}

// A place, its line, and what is underlined there.
fn push_mark(out: &mut String, look: Look, source: Source<'_>, mark: Mark) -> Result<(), AllocError>
    ensures { OnOk result (PrintsMark look.style look.colour.now look.digits source.entry mark (string_bytes out.old)
        (string_bytes out.new)) }
{
    push_place(out, look, source, mark)?;
    push_edge(out, look, None)?;
    out.push_str("\n")?;
    let snippet = snippet_of(source.text, mark);
    push_edge(out, look, Some(mark.line))?;
    push_line(out, snippet)?;
    push_edge(out, look, None)?;
    push_carets(out, look, snippet)
}

// The title of a report or note.
fn push_title(out: &mut String, look: Look, word: &str, text: &str) -> Result<(), AllocError>
    ensures { OnOk result (string_bytes out.new
        ≡ title look.style look.colour.now word.now text.now (string_bytes out.old)) }
{
    let Look { style, colour, .. } = look;
    let Style { strong, plain, .. } = style;
    write!(out, "{colour}{word}{plain}{strong}: ")?;
    push_visible(out, text)?;
    write!(out, "{plain}\n")
}

// A note without a place.
fn push_remark(out: &mut String, look: Look, text: &str) -> Result<(), AllocError>
    ensures { OnOk result (string_bytes out.new ≡ remark look.style look.digits text.now (string_bytes out.old)) }
{
    let Style {
        edge,
        strong,
        plain,
        ..
    } = look.style;
    push_fill(out, ' ', look.digits)?;
    write!(out, " {edge}={plain} ")?;
    write!(out, "{strong}note{plain}: ")?;
    push_visible(out, text)?;
    out.push_str("\n")
}

// The notes without a place.
fn push_remarks(out: &mut String, look: Look, notes: &[Note]) -> Result<(), AllocError>
    ensures { OnOk result (string_bytes out.new ≡ remarks look.style look.digits notes.now (string_bytes out.old)) }
{
    for note in notes {
        if note.mark.is_none() {
            push_remark(out, look, &note.text)?;
        }
    }
    Ok(())
}

// A note with a place; nothing for one without.
fn push_note(
    out: &mut String,
    look: Look,
    source: Source<'_>,
    note: &Note,
) -> Result<(), AllocError>
    ensures { OnOk result (PrintsNote look.style look.colour.now look.digits source.entry note.now.mark
        (string_bytes note.now.text) (string_bytes out.old) (string_bytes out.new)) }
{
    let Some(mark) = note.mark else {
        return Ok(());
    };
    push_title(out, look, "note", &note.text)?;
    push_mark(out, look, source, mark)
}

// The notes with a place.
fn push_notes(
    out: &mut String,
    look: Look,
    source: Source<'_>,
    notes: &[Note],
) -> Result<(), AllocError>
    ensures { OnOk result (PrintsNotes look.style look.colour.now look.digits source.entry notes.now
        (string_bytes out.old) (string_bytes out.new)) }
{
    for note in notes {
        push_note(out, look, source, note)?;
    }
    Ok(())
}

/// Adds a report to a text. Returns `AllocError` if memory runs out.
pub fn print_report(out: &mut String, style: Style, report: &Report<'_>) -> Result<(), AllocError>
    ensures { OnOk result (Prints style report.now (string_bytes out.old) (string_bytes out.new)) }
{
    let look = Look {
        style,
        colour: style.error,
        digits: digits_of(greatest_line(report)),
    };
    push_title(out, look, "error", &report.message)?;
    if let Some(mark) = report.mark {
        push_mark(out, look, report.source, mark)?;
    }
    let look = Look {
        colour: style.note,
        ..look
    };
    push_remarks(out, look, &report.notes)?;
    push_notes(out, look, report.source, &report.notes)
}
