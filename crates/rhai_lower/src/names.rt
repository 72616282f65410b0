//! Which texts are names, and which words the language reserves.

ghost use Rattle.std.specs.Prelude.{◌≡◌};
ghost use Rattle.std.specs.List.{list_all};
ghost use Rattle.rhai_lower.specs.Names.{is_word, begins_with_letter, first_but_underscore, is_identifier};
ghost use Rattle.rhai_lower.specs.Names.{is_function_name, reserved_as};

fn is_word_byte(byte: u8) -> bool
    ensures { result ≡ is_word byte }
{
    byte.is_ascii_alphanumeric() || byte == b'_'
}

fn are_words(bytes: &[u8]) -> bool
    ensures { result ≡ list_all is_word bytes.now }
{
    bytes.iter().all(|byte| is_word_byte(*byte))
}

fn first_but_underscore(bytes: &[u8]) -> Option<u8>
    ensures { result ≡ first_but_underscore bytes.now }
{
    bytes.iter().copied().find(|byte| *byte != b'_')
}

fn begins_with_letter(bytes: &[u8]) -> bool
    ensures { result ≡ begins_with_letter (first_but_underscore bytes.now) }
{
    match first_but_underscore(bytes) {
        Some(first) => first.is_ascii_alphabetic(),
        None => false,
    }
}

/// Whether a text is a valid identifier: ASCII letters, digits and underscores, of which the first other than an
/// underscore is a letter (docs/GRAMMAR.md, "Identifiers").
pub fn is_valid_identifier(name: &str) -> bool
    ensures { result ≡ is_identifier name.now }
{
    are_words(name.as_bytes()) && begins_with_letter(name.as_bytes())
}

/// Whether a text is a valid function name: a valid identifier that is not on the list of reserved words.
pub fn is_valid_function_name(name: &str) -> bool
    ensures { result ≡ is_function_name name.now }
{
    is_valid_identifier(name) && !is_reserved_keyword_or_symbol(name).0
}

/// Whether a text is on the list of reserved words, whether it may be called, and whether it may be called as a method.
/// All three are false for a text that is not on the list (docs/GRAMMAR.md, "Reserved words").
pub fn is_reserved_keyword_or_symbol(text: &str) -> (bool, bool, bool)
    ensures { result ≡ reserved_as text.now }
{
    match text {
        "this" => (true, false, false),
        "print" | "debug" | "is_def_var" | "is_def_fn" => (true, true, false),
        "eval" | "Fn" | "call" | "curry" | "type_of" | "is_shared" => (true, true, true),
        _ => (false, false, false),
    }
}
