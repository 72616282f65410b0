//! The characters of a text: how many there are, the first ones, and the last ones.

ghost use Rattle.std.specs.Prelude.{◌≡◌, ◌-◌, drop, length, take};
ghost use Rattle.std.specs.Str.{chars, encode_utf8_all};

/// The number of characters of a text.
pub fn characters(text: &str) -> usize
    ensures { result ≡ length (chars text.now) }
{
    text.chars().count()
}

// What is after so many characters of a text.
fn after_characters(text: &str, count: usize) -> &str
    ensures { result.now ≡ encode_utf8_all (drop count (chars text.now)) }
{
    let mut rest = text.chars();
    for _passed in 0..count {
        let _ = rest.next();
    }
    rest.as_str()
}

/// The first characters of a text, at most `count`.
pub fn first_characters(text: &str, count: usize) -> &str
    ensures { result.now ≡ encode_utf8_all (take count (chars text.now)) }
{
    let after = after_characters(text, count);
    let end = text.len().saturating_sub(after.len());
    text.get(..end).unwrap_or(text)
}

/// The last characters of a text, at most `count`.
pub fn last_characters(text: &str, count: usize) -> &str
    ensures { result.now ≡ encode_utf8_all (drop (length (chars text.now) - count) (chars text.now)) }
{
    after_characters(text, characters(text).saturating_sub(count))
}
