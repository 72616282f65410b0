//! Classes of bytes: what a byte begins, and what it continues.

ghost use Rattle.std.specs.Prelude.{◌≡◌, ◌<◌, ◌≤◌, false, length, true};
ghost use Rattle.rhai_lower.specs.Names.{is_word};
ghost use Rattle.std.specs.Char.{digit_value};
ghost use Rattle.rhai_tokenizer.specs.Bytes.{base_of, is_digit_after};
ghost use Rattle.rhai_tokenizer.specs.Cutting as spec;

/// What begins with a byte.
#[derive(Clone, Copy)]
pub enum First {
    /// A word.
    Letter,
    /// An integer.
    Digit,
    /// White space.
    Space,
    /// White space, or a character that begins no token.
    Far,
    /// A string.
    Quote,
    /// A back-ticked string.
    Tick,
    /// A character.
    Apostrophe,
    /// A comment, or a symbol.
    Slash,
    /// `!in`, or another symbol.
    Bang,
    /// An integer with its sign, or a symbol.
    Minus,
    /// A raw string, or a symbol.
    Hash,
    /// A symbol, or a character that begins no token.
    Other,
}

/// What begins with this byte.
#[inline(always)]
pub fn first_class(byte: u8) -> First
    ensures { result ≡ spec.first_class byte }
{
    match byte {
        b'a'..=b'z' | b'A'..=b'Z' | b'_' => First::Letter,
        b'0'..=b'9' => First::Digit,
        b' ' | 9..=13 => First::Space,
        128..=255 => First::Far,
        b'"' => First::Quote,
        b'`' => First::Tick,
        b'\'' => First::Apostrophe,
        b'/' => First::Slash,
        b'!' => First::Bang,
        b'-' => First::Minus,
        b'#' => First::Hash,
        _ => First::Other,
    }
}

/// Bytes of one kind, as a piece goes on with them.
#[derive(Clone, Copy)]
pub enum Class {
    Word,
    Digit,
    Figure,
    Line,
    Comment,
    Continuation,
    Hexadecimal,
    Hash,
    Second,
    Text,
}

// For each byte: 1 if a word goes on with it, 2 if a symbol does, else 0.
static BYTES: [u8; 256] = [
    0, 0, 0, 0, 0, 0, 0, 0, 0, 0, 0, 0, 0, 0, 0, 0, 0, 0, 0, 0, 0, 0, 0, 0, 0, 0, 0, 0, 0, 0, 0, 0,
    0, 0, 0, 0, 0, 0, 2, 0, 0, 2, 2, 2, 0, 2, 2, 0, 1, 1, 1, 1, 1, 1, 1, 1, 1, 1, 2, 2, 2, 2, 2, 2,
    0, 1, 1, 1, 1, 1, 1, 1, 1, 1, 1, 1, 1, 1, 1, 1, 1, 1, 1, 1, 1, 1, 1, 1, 1, 1, 1, 2, 0, 0, 0, 1,
    0, 1, 1, 1, 1, 1, 1, 1, 1, 1, 1, 1, 1, 1, 1, 1, 1, 1, 1, 1, 1, 1, 1, 1, 1, 1, 1, 0, 2, 0, 0, 0,
    0, 0, 0, 0, 0, 0, 0, 0, 0, 0, 0, 0, 0, 0, 0, 0, 0, 0, 0, 0, 0, 0, 0, 0, 0, 0, 0, 0, 0, 0, 0, 0,
    0, 0, 0, 0, 0, 0, 0, 0, 0, 0, 0, 0, 0, 0, 0, 0, 0, 0, 0, 0, 0, 0, 0, 0, 0, 0, 0, 0, 0, 0, 0, 0,
    0, 0, 0, 0, 0, 0, 0, 0, 0, 0, 0, 0, 0, 0, 0, 0, 0, 0, 0, 0, 0, 0, 0, 0, 0, 0, 0, 0, 0, 0, 0, 0,
    0, 0, 0, 0, 0, 0, 0, 0, 0, 0, 0, 0, 0, 0, 0, 0, 0, 0, 0, 0, 0, 0, 0, 0, 0, 0, 0, 0, 0, 0, 0, 0,
];

fn bytes() -> &'static [u8]
    ensures value { result.now ≡ BYTES }
    ensures len { length result.now ≡ 256 }
{
    &BYTES
}

// Whether a word goes on with a byte.
#[inline(always)]
fn is_word(b: u8) -> bool
    ensures { result ≡ is_word b }
{
    bytes()[b as usize] == 1
}

// Whether a symbol that does not begin with `#` goes on with a byte.
#[inline(always)]
fn is_second(b: u8) -> bool
    ensures { result ≡ spec.is_second b }
{
    bytes()[b as usize] == 2
}

/// Whether a byte is white space.
#[inline(always)]
pub fn is_space(b: u8) -> bool
    ensures { result ≡ spec.is_space b }
{
    b == b' ' || (9 <= b && b <= 13)
}

/// Whether a byte begins or continues a piece that is no white space, for sure.
#[inline(always)]
pub fn is_usual(b: u8) -> bool
    ensures { result ≡ true → (spec.is_space b ≡ false) × (b < 128) }
{
    bytes()[b as usize] != 0
}

// Whether a byte takes a column, and stands for itself in a string.
#[inline(always)]
fn is_text(b: u8) -> bool
    ensures { result ≡ spec.is_text b }
{
    b < 128 && !(b == b'"' || (b == b'\\' || b == b'\n'))
}

/// Whether a byte is of the class.
#[inline(always)]
pub fn is_in(class: Class, b: u8) -> bool
    ensures { result ≡ spec.is_in class b }
{
    match class {
        Class::Word => is_word(b),
        Class::Digit => b.is_ascii_digit(),
        Class::Figure => b.is_ascii_digit() || b == b'_',
        Class::Line => !(b == b'\n'),
        Class::Comment => !(b == b'/' || b == b'*'),
        Class::Continuation => 128 <= b && b < 192,
        Class::Hexadecimal => b.is_ascii_hexdigit(),
        Class::Hash => b == b'#',
        Class::Second => is_second(b),
        Class::Text => is_text(b),
    }
}

/// The base of an integer that begins with `0` and this byte, or 0.
pub fn base_of(marker: u8) -> u8
    ensures value { result ≡ base_of marker }
    ensures within { result ≤ 16 }
{
    match marker {
        b'x' | b'X' => 16,
        b'o' | b'O' => 8,
        b'b' | b'B' => 2,
        _ => 0,
    }
}

/// Whether an integer with this marker goes on with a byte.
pub fn is_digit_after(marker: u8, b: u8) -> bool
    ensures { result ≡ is_digit_after marker b }
{
    (if base_of(marker) == 16 {
        b.is_ascii_hexdigit()
    } else {
        b.is_ascii_digit()
    }) || b == b'_'
}

/// The value of a digit, or 36.
pub fn digit(b: u8) -> u8
    ensures value { result ≡ digit_value b }
    ensures within { result ≤ 36 }
{
    match b {
        b'0'..=b'9' => b - b'0',
        b'A'..=b'Z' => b - b'A' + 10,
        b'a'..=b'z' => b - b'a' + 10,
        _ => 36,
    }
}
