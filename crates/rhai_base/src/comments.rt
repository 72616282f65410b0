//! `kept_comments`: which doc comments a function keeps, and how.

ghost use Rattle.std.specs.Prelude.{◌≡◌, ◌≤◌, IfOk, OnOk, string_bytes};
ghost use Rattle.std.specs.Prelude.{List, ◌∷◌, ◌++◌, All, drop, map};
ghost use Rattle.std.specs.Rc.{rc_str_bytes};
ghost use Rattle.std.specs.Str.Lines.{lines};
ghost use Rattle.rhai_grammar.specs.Comments.{Comment, has_line_feed, indent, joined_lines, kept_after, kept_comments};
ghost use Rattle.rhai_grammar.specs.Comments.{leading_spaces, shifted, unindented, unless_empty, with_line};
ghost use Rattle.rhai_base.specs.Comments.{comments_of, texts_of};

use rhai_lower::Position;
use std::alloc::{AllocError, Global};
use std::rc::RcStr;

/// The comments that a function keeps, of those written before it, in the order of the script. Each of `comments` has
/// the text of one and its position, where its first character stands.
///
/// Comments without a line feed that follow each other are joined by line feeds; where nothing is written in them, they
/// are left out. Each other comment stands alone, and its later lines lose the spaces that all of them begin with, but
/// at most as many as there are columns before the comment. The error is that there is no memory for the texts.
pub fn kept_comments(
    alloc: Global,
    comments: &[(RcStr, Position)],
) -> Result<Vec<RcStr>, AllocError>
    ensures { IfOk result (λ kept. texts_of kept.items ≡ kept_comments (comments_of comments.now)) }
{
    let mut kept = Vec::new(alloc);
    let mut joined = String::new(alloc);
    for comment in comments {
        joined = keep_comment(alloc, &mut kept, joined, &comment.0, comment.1)?;
    }
    keep_joined(&mut kept, joined)?;
    Ok(kept)
}

// One more comment, after the lines in `joined`: keeps these if a line feed in the comment ends them. Returns the lines
// that are joined then.
fn keep_comment(
    alloc: Global,
    kept: &mut Vec<RcStr>,
    joined: String,
    text: &RcStr,
    pos: Position,
) -> Result<String, AllocError>
    ensures { IfOk result (λ then. (more : List Comment)
        → texts_of kept.new.items ++ kept_after (string_bytes then) more
        ≡ texts_of kept.old.items
        ++ kept_after (string_bytes joined) (record { text = rc_str_bytes text.now; at = pos } ∷ more)) }
{
    if !has_line_feed(text.as_str()) {
        return with_line(joined, text.as_str());
    }
    keep_joined(kept, joined)?;
    kept.push(unindented(alloc, text, pos)?)?;
    Ok(String::new(alloc))
}

// Keeps lines that are joined, if there are some.
fn keep_joined(kept: &mut Vec<RcStr>, joined: String) -> Result<(), AllocError>
    ensures { OnOk result (texts_of kept.new.items ≡ texts_of kept.old.items ++ unless_empty (string_bytes joined)) }
{
    if joined.is_empty() {
        return Ok(());
    }
    kept.push(RcStr::from_string(joined)?)?;
    Ok(())
}

// A text with one more line.
fn with_line(mut joined: String, line: &str) -> Result<String, AllocError>
    ensures { IfOk result (λ text. string_bytes text ≡ with_line (string_bytes joined) line.now) }
{
    if !joined.is_empty() {
        joined.push('\n')?;
    }
    joined.push_str(line)?;
    Ok(joined)
}

// A comment with a line feed at `pos`, whose later lines lose their indent.
fn unindented(alloc: Global, text: &RcStr, pos: Position) -> Result<RcStr, AllocError>
    ensures { IfOk result (λ t. rc_str_bytes t ≡ unindented (record { text = rc_str_bytes text.now; at = pos })) }
{
    let lines = lines_of(alloc, text.as_str())?;
    shifted(alloc, text, pos, &lines)
}

// A comment of these lines at `pos`, where each after the first loses its indent.
fn shifted(alloc: Global, text: &RcStr, pos: Position, lines: &[&str]) -> Result<RcStr, AllocError>
    ensures { IfOk result (λ t. rc_str_bytes t
        ≡ shifted (record { text = rc_str_bytes text.now; at = pos }) (map (λ x. x.now) lines.now)) }
{
    let Some((first, later)) = lines.split_first() else {
        return text.clone();
    };
    let n = indent(later, pos);
    if n == 0 {
        return text.clone();
    }
    RcStr::from_string(join_lines(alloc, first, later, n)?)
}

// The lines of a text.
fn lines_of<'a>(alloc: Global, text: &'a str) -> Result<Vec<&'a str>, AllocError>
    ensures { IfOk result (λ v. map (λ x. x.now) v.items ≡ lines text.now) }
{
    let mut lines = Vec::new(alloc);
    for line in text.lines() {
        lines.push(line)?;
    }
    Ok(lines)
}

// How many spaces each of the later lines of a comment at `pos` loses.
#[tactic(auto, unfolding(rhai_grammar::specs::Comments::indent))]
fn indent(later: &[&str], pos: Position) -> usize
    ensures value { result ≡ indent (map (λ x. x.now) later.now) pos }
    ensures fits { All (λ line. result ≤ leading_spaces line.now) later.now }
{
    let mut least = match pos.column() {
        Some(column) => column as usize - 1,
        None => 0,
    };
    for line in later {
        least = least.min(leading_spaces(line));
    }
    least
}

// The lines joined by line feeds, where each after the first loses `n` spaces.
fn join_lines(alloc: Global, first: &str, later: &[&str], n: usize) -> Result<String, AllocError>
    requires { All (λ line. n ≤ leading_spaces line.now) later.now }
    ensures { IfOk result (λ text. string_bytes text
        ≡ joined_lines (first.now ∷ map (drop n) (map (λ x. x.now) later.now))) }
{
    let mut text = String::from_str(alloc, first)?;
    for line in later {
        text.push('\n')?;
        text.push_str(without_spaces(line, n))?;
    }
    Ok(text)
}

// A line without its first `n` bytes, which are spaces.
fn without_spaces(line: &str, n: usize) -> &str
    requires { n ≤ leading_spaces line.now }
    ensures { result.now ≡ drop n line.now }
{
    &line[n..]
}

// How many spaces a line begins with.
fn leading_spaces(line: &str) -> usize
    ensures { result ≡ leading_spaces line.now }
{
    line.bytes().take_while(|b| *b == b' ').count()
}

// Whether a text has a line feed.
fn has_line_feed(text: &str) -> bool
    ensures { result ≡ has_line_feed text.now }
{
    text.bytes().any(|b| b == b'\n')
}
