//! `diagnostic_json`: why a script is refused.

ghost use Rattle.std.specs.Prelude.{◌≡◌, [], IfOk, OnOk, codes, string_bytes};
ghost use Rattle.json.specs.Print.{print};
ghost use Rattle.rhai_json.specs.Fields.{list_field, optional_text_field};
ghost use Rattle.rhai_json.specs.Reports.{name_of, note_value, place_fields, report_value};

use crate::errors::put_refusal;
use crate::fields::{put_optional_number, put_optional_text, put_span, put_text};
use crate::out::Out;
use rhai_report::{Mark, Note, Report};
use rhai_tokenizer::Span;
use std::alloc::{AllocError, Global};

// The fields of a place: its line, its column, and the bytes there; each null for no place.
fn put_place(out: &mut Out, mark: Option<Mark>) -> Result<(), AllocError>
    ensures { OnOk result (out.new ≡ place_fields mark out.old) }
{
    put_optional_number(out, "line", mark.map(|mark| mark.line))?;
    put_optional_number(out, "column", mark.map(|mark| mark.column))?;
    let span = mark.map(|Mark { start, stop, .. }| Span { start, stop });
    put_span(out, span)
}

fn put_note(out: &mut Out, note: &Note) -> Result<(), AllocError>
    ensures { OnOk result (out.new ≡ note_value note.now out.old) }
{
    out.begin_object()?;
    put_text(out, "message", &note.text)?;
    put_place(out, note.mark)?;
    out.end_object()
}

fn put_notes(out: &mut Out, notes: &[Note]) -> Result<(), AllocError>
    ensures { OnOk result (out.new ≡ list_field (codes "notes") note_value notes.now out.old) }
{
    out.key("notes")?;
    out.begin_array()?;
    for note in notes {
        put_note(out, note)?;
    }
    out.end_array()
}

// The name of the file; null if there is none.
fn put_file(out: &mut Out, name: &str) -> Result<(), AllocError>
    ensures { OnOk result (out.new ≡ optional_text_field (codes "file") (name_of name.now) out.old) }
{
    if name.is_empty() {
        return put_optional_text(out, "file", None);
    }
    put_optional_text(out, "file", Some(name))
}

/// What is told of a refused script, as one JSON object: `file` (or null), `kind` and `payload` (what the error names),
/// `message`, `line` and `column` (from 1), `span` (the token's bytes in the file), and `notes`, each with its own
/// `message` and place. A place that there is none of is null. docs/JSON.md has the payload of each kind. Returns
/// `AllocError` if memory runs out.
pub fn diagnostic_json(alloc: Global, report: &Report<'_>) -> Result<String, AllocError>
    ensures { IfOk result (λ text. string_bytes text ≡ print (report_value report.now [])) }
{
    let mut out = Out::new(alloc);
    out.begin_object()?;
    put_file(&mut out, report.source.name)?;
    put_refusal(&mut out, &report.error.0)?;
    put_text(&mut out, "message", &report.message)?;
    put_place(&mut out, report.mark)?;
    put_notes(&mut out, &report.notes)?;
    out.end_object()?;
    Ok(out.into_text())
}
