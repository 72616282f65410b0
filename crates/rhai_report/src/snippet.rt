//! `Snippet`: the line of a mark, in three parts, cut where it is long.

ghost use Rattle.std.specs.Prelude.{◌≡◌, ◌+◌, nat_lt};
ghost use Rattle.std.specs.Str.{IsCharBoundary};
ghost use Rattle.rhai_report.specs.Snippets.{IsCut, IsSnippetOf, IsWhole, after_mark, before_mark, marked, shown_end};
ghost use Rattle.rhai_report.specs.Snippets.{size};

use crate::line::{Line, line_of};
use crate::mark::Mark;
use crate::text::{characters, first_characters, last_characters};

/// How many characters of a line are shown whole; a longer one is cut around its mark.
pub const LONGEST: usize = 160;

/// How many characters of each part of a longer line are shown.
pub const KEPT: usize = 60;

/// The line of a mark: what is before it, what is marked, and what is after it.
#[derive(Clone, Copy, Debug)]
pub struct Snippet<'a> {
    /// What is before the mark.
    pub before: &'a str,
    /// What is marked, up to the end of the line.
    pub marked: &'a str,
    /// What is after the mark.
    pub after: &'a str,
    /// Whether something was cut at the front.
    pub cut_front: bool,
    /// Whether something was cut at the end.
    pub cut_end: bool,
}

// Where a line ends that is shown: before its line end.
fn shown_end(text: &str, line: Line) -> usize
    ensures { result ≡ shown_end text.now line }
{
    let last = line.stop.saturating_sub(1);
    match text.as_bytes().get(last) {
        Some(b'\r') => last,
        _ => line.stop,
    }
}

// The three parts of the line of a mark.
fn whole(text: &str, mark: Mark) -> Snippet<'_>
    ensures { IsCharBoundary text.now mark.start → IsCharBoundary text.now mark.stop
        → IsWhole (before_mark text.now mark) (marked text.now mark) (after_mark text.now mark) result }
{
    let line = line_of(text, mark.start);
    let end = shown_end(text, line);
    let stop = mark.stop.min(end).max(mark.start);
    Snippet {
        before: text.get(line.start..mark.start).unwrap_or(""),
        marked: text.get(mark.start..stop).unwrap_or(""),
        after: text.get(stop..end).unwrap_or(""),
        cut_front: false,
        cut_end: false,
    }
}

// Whether all of a snippet has more characters than are shown.
fn is_long(snippet: &Snippet<'_>) -> bool
    ensures { result ≡ nat_lt 160 (size snippet.now.before.now + size snippet.now.marked.now
        + size snippet.now.after.now) }
{
    let before = characters(snippet.before);
    let marked = characters(snippet.marked);
    let after = characters(snippet.after);
    before.saturating_add(marked).saturating_add(after) > LONGEST
}

// Each part of a snippet, cut around the front of what is marked.
fn cut(snippet: Snippet<'_>) -> Snippet<'_>
    ensures { IsCut snippet.entry.before.now snippet.entry.marked.now snippet.entry.after.now result }
{
    let Snippet {
        before,
        marked,
        after,
        ..
    } = snippet;
    let is_cut = characters(marked) > KEPT;
    Snippet {
        before: last_characters(before, KEPT),
        marked: first_characters(marked, KEPT),
        after: first_characters(after, if is_cut { 0 } else { KEPT }),
        cut_front: characters(before) > KEPT,
        cut_end: is_cut || characters(after) > KEPT,
    }
}

/// The line of a mark of a text, without its line end. A line of more than [`LONGEST`] characters is cut: of each part
/// at most [`KEPT`] characters are left, those that are next to the front of what is marked.
pub fn snippet_of(text: &str, mark: Mark) -> Snippet<'_>
    ensures { IsSnippetOf text.now mark result }
{
    let snippet = whole(text, mark);
    if is_long(&snippet) {
        cut(snippet)
    } else {
        snippet
    }
}
