//! The parts of a string that are no plain bytes: escapes, doubled quotes, line ends.

ghost use Rattle.std.specs.Prelude.{◌≡◌, ◌+◌, ◌*◌, min, ◌<◌, ◌≤◌, true, length, Some, []};
ghost use Rattle.rhai_tokenizer.specs.Bytes.{begins, is_line_feed};
ghost use Rattle.rhai_tokenizer.specs.Places.{past};
ghost use Rattle.rhai_tokenizer.specs.Strings as strings;
ghost use Rattle.rhai_tokenizer.specs.CuttingStrings as spec;
ghost use Rattle.rhai_tokenizer.specs.StringTurns.{Ends};

use crate::class::Class;
use crate::lexer::{begins, run_len};
use crate::number::radix_of;

/// How a string is written.
#[derive(Clone, Copy, Debug)]
pub enum Style {
    /// Between `"`, with escapes.
    Quote,
    /// Between back-ticks, with interpolations.
    Tick,
    /// Between `'`, with escapes: a character.
    Apostrophe,
}

/// What stands where a byte does not stand for itself for sure.
#[derive(Clone, Copy)]
pub enum Special {
    // So many bytes that stand for a character.
    Means {
        len: usize,
        value: char,
    },
    // So many bytes, with a line end: the string goes on in the next line.
    Continues {
        len: usize,
    },
    // So many bytes of a wrong escape. Its text has `text` bytes, of which `before` stand before the character that
    // spoils it.
    Spoils {
        len: usize,
        text: usize,
        before: usize,
    },
    // So many bytes of an escape, after which the string is not terminated.
    Stops {
        len: usize,
    },
    // The end of the string.
    Ends,
}

/// The byte of the mark at both ends.
pub fn mark_of(style: Style) -> u8
    ensures value { result ≡ strings.mark_of style }
    ensures small { result < 128 }
{
    match style {
        Style::Quote => b'"',
        Style::Tick => b'`',
        Style::Apostrophe => b'\'',
    }
}

fn is_escape(style: Style, b: u8) -> bool
    ensures { result ≡ strings.is_escape style b }
{
    b == b'\\' || (b == b't' || (b == b'n' || (b == b'r' || b == mark_of(style))))
}

fn escape_char(style: Style, b: u8) -> char
    requires { strings.is_escape style b ≡ true }
    ensures { result ≡ strings.escape_value b }
{
    match b {
        b't' => '\t',
        b'n' => '\n',
        b'r' => '\r',
        b'"' => '"',
        b'`' => '`',
        b'\'' => '\'',
        _ => '\\',
    }
}

fn digits_after(marker: u8) -> usize
    ensures value { result ≡ strings.digits_after marker }
    ensures few { result ≤ 8 }
{
    match marker {
        b'x' => 2,
        b'u' => 4,
        b'U' => 8,
        _ => 0,
    }
}

// The value of digits, or a number past all characters.
fn hex_value(digits: &[u8]) -> u32
    ensures value { result ≡ min spec.past_characters (spec.hex_value digits.now) }
    ensures within { result ≤ spec.past_characters }
{
    let value = radix_of(16, digits);
    if value < 0x11_0000 {
        value as u32
    } else {
        0x11_0000
    }
}

// How many bytes at the front are hexadecimal digits, up to so many.
fn hex_len(n: usize, z: &[u8]) -> usize
    ensures value { result ≡ length (spec.hex_run n z.now) }
    ensures few { result ≤ n }
    ensures within { result ≤ length z.now }
{
    run_len(Class::Hexadecimal, &z[..n.min(z.len())])
}

/// The length of the character at the front of a text, or 0.
pub fn character_len(z: &[u8]) -> usize
    ensures value { result ≡ length (strings.character z.now) }
    ensures within { result ≤ length z.now }
{
    match z {
        [] => 0,
        [b, rest @ ..] => {
            if *b < 128 {
                1
            } else {
                1 + run_len(Class::Continuation, rest)
            }
        }
    }
}

/// Whether a line end with a line feed stands at the front.
pub fn begins_with_line_feed(z: &[u8]) -> bool
    ensures { result ≡ begins is_line_feed z.now }
{
    matches!(z, [b'\n', ..])
}

fn doubled(mark: u8, rest: &[u8]) -> Special
    requires { mark < 128 }
    ensures { result ≡ spec.doubled_special mark rest.now }
{
    match rest {
        [b, ..] if *b == mark => Special::Means {
            len: 2,
            value: mark as char,
        },
        _ => Special::Ends,
    }
}

// After a byte of a back-ticked string.
fn tick_special(b: u8, rest: &[u8]) -> Special
    ensures { result ≡ spec.tick_special b rest.now }
{
    if b == b'`' {
        return doubled(b'`', rest);
    }
    if b == b'$' {
        return match rest {
            [b'{', ..] => Special::Ends,
            _ => Special::Means { len: 1, value: '$' },
        };
    }
    if begins_with_line_feed(rest) {
        return Special::Means {
            len: 2,
            value: '\n',
        };
    }
    Special::Means {
        len: 1,
        value: '\r',
    }
}

// A whole number of a character.
fn coded(n: usize, digits: &[u8]) -> Special
    requires { n ≤ 8 }
    ensures { result ≡ spec.coded_special n digits.now }
{
    match char::from_u32(hex_value(digits)) {
        Some(value) => Special::Means { len: 2 + n, value },
        None => Special::Spoils {
            len: 2 + n,
            text: 2 + n,
            before: 1 + n,
        },
    }
}

// An escape that has this length and does not go on before `z`.
fn cut(len: usize, z: &[u8]) -> Special
    requires { len ≤ 10 }
    ensures { result ≡ spec.cut_special len z.now }
{
    if begins(Class::Line, z) {
        Special::Spoils {
            len,
            text: len + character_len(z),
            before: len,
        }
    } else {
        Special::Stops { len }
    }
}

// After `\` and a marker that wants so many digits.
fn number_special(n: usize, rest: &[u8]) -> Special
    requires { n ≤ 8 }
    ensures { result ≡ spec.number_special n rest.now }
{
    let k = hex_len(n, rest);
    let (digits, more) = rest.split_at(k);
    if k == n {
        coded(n, digits)
    } else {
        cut(2 + k, more)
    }
}

#[tactic(auto, using(crate::proofs::LeafLemmas::length_run))]
fn wrong(rest: &[u8]) -> Special
    ensures { result ≡ spec.wrong_special rest.now }
{
    let len = 2 + run_len(Class::Continuation, rest);
    Special::Spoils {
        len,
        text: len,
        before: 1,
    }
}

// After `\` and a byte that neither is an escape nor a marker.
fn line_special(style: Style, b: u8, rest: &[u8]) -> Special
    ensures { result ≡ spec.line_special style b rest.now }
{
    match style {
        Style::Quote => {
            if b == b'\n' {
                Special::Continues { len: 2 }
            } else if b == b'\r' && begins_with_line_feed(rest) {
                Special::Continues { len: 3 }
            } else {
                wrong(rest)
            }
        }
        _ => {
            if b == b'\n' {
                Special::Stops { len: 1 }
            } else {
                wrong(rest)
            }
        }
    }
}

// After `\`.
fn escape_special(style: Style, z: &[u8]) -> Special
    ensures { result ≡ spec.escape_special style z.now }
{
    match z {
        [] => Special::Stops { len: 1 },
        [b, rest @ ..] => {
            if is_escape(style, *b) {
                return Special::Means {
                    len: 2,
                    value: escape_char(style, *b),
                };
            }
            let n = digits_after(*b);
            if 0 < n {
                number_special(n, rest)
            } else {
                line_special(style, *b, rest)
            }
        }
    }
}

/// What stands where a byte does not stand for itself for sure.
pub fn special_at(style: Style, z: &[u8]) -> Special
    ensures { result ≡ spec.special_at style z.now }
{
    match z {
        [] => Special::Ends,
        [b, rest @ ..] => match style {
            Style::Tick => tick_special(*b, rest),
            _ => {
                let mark = mark_of(style);
                if *b == mark {
                    doubled(mark, rest)
                } else if *b == b'\\' {
                    escape_special(style, rest)
                } else {
                    Special::Ends
                }
            }
        },
    }
}
