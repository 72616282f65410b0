//! The line of a text that contains a byte.

ghost use Rattle.std.specs.Prelude.{◌≡◌, ◌≤◌, length};
ghost use Rattle.std.specs.List.{count_by, prefix_len, suffix_len};
ghost use Rattle.rhai_report.specs.Lines.{is_feed, is_inside, line_at};

/// A line of a text.
#[derive(Clone, Copy, PartialEq, Debug)]
pub struct Line {
    /// Its number, counted from 1.
    pub number: usize,
    /// Its first byte.
    pub start: usize,
    /// The byte after its last one: that of its line feed, or the end of the text.
    pub stop: usize,
}

// How many line feeds there are.
#[tactic(auto, using(crate::proofs::LineLemmas::counting))]
fn feeds_in(bytes: &[u8]) -> usize
    ensures { result ≡ count_by is_feed bytes.now }
{
    let mut feeds = 0;
    for byte in bytes {
        if *byte == b'\n' {
            feeds += 1;
        }
    }
    feeds
}

// How many bytes are after the last line feed.
#[tactic(auto, using(crate::proofs::LineLemmas::ending))]
fn after_last_feed(bytes: &[u8]) -> usize
    ensures { result ≡ suffix_len is_inside bytes.now }
{
    let mut start = bytes.len();
    while start > 0 && bytes[start - 1] != b'\n' {
        start -= 1;
    }
    bytes.len() - start
}

// How many bytes are before the first line feed.
#[tactic(auto, using(crate::proofs::LineLemmas::going))]
fn before_first_feed(bytes: &[u8]) -> usize
    ensures { result ≡ prefix_len is_inside bytes.now }
{
    let mut stop = 0;
    while stop < bytes.len() && bytes[stop] != b'\n' {
        stop += 1;
    }
    stop
}

/// The line in which the byte `at` of a text stands. A line feed stands in the line that it ends. A greater `at` than
/// the length of the text counts as that.
#[tactic(auto, using(crate::proofs::LineLemmas::bounds))]
pub fn line_of(text: &str, at: usize) -> Line
    ensures { result ≡ line_at text.now at }
{
    let bytes = text.as_bytes();
    let (before, after) = bytes.split_at(at.min(bytes.len()));
    Line {
        number: feeds_in(before) + 1,
        start: before.len() - after_last_feed(before),
        stop: before.len() + before_first_feed(after),
    }
}
