//! `TokenStream`: it delivers entries to the parser as tokens.

ghost use Rattle.std.specs.Prelude.{⊤, ◌≡◌, ◌≢◌, ◌<◌, ◌≤◌, ◌+◌, ◌∷◌, [], List, reverse, map, false, true, not};
ghost use Rattle.std.specs.Prelude.{length};
ghost use Rattle.std.specs.Prelude.{All, IsTrue, IsNone, IsOk, IfOk, IfErr, Some, ◌↔◌};
ghost use Rattle.std.specs.Borrow.{sem, follows_so};
ghost use mathlib.Core.Option.{none};
ghost use Rattle.rhai_lower.specs.Streams.{Stream, next_item, later, peeking, stream_of, in_text_next};
ghost use Rattle.rhai_lower.specs.Entries.{ask_of, head_asks, head_text, head_peeked, may_be_delivered};
ghost use Rattle.rhai_lower.specs.Entries.{first_undeliverable};

use crate::names::is_valid_identifier;
use crate::position::Position;
use crate::token::{LexError, Token};
use std::error::Error;
use std::marker::Model;
use std::{fmt, mem};

/// A token in the list that a stream delivers.
#[derive(Drop, Debug)]
pub struct Entry {
    /// The token. It is not the end mark, and an identifier is a valid name.
    pub token: Token,
    /// Its position.
    pub pos: Position,
    /// Whether it is a text of an interpolated string, after one of its blocks. The mark matters for strings and
    /// interpolated strings only: requested in code mode, they are delivered as `LexError::UnexpectedInput`.
    pub text: bool,
}

impl Entry {
    /// Whether a stream may deliver the entry: it is not the end mark, and an identifier is a valid name.
    pub fn is_deliverable(&self) -> bool
        ensures { result ≡ may_be_delivered self.now }
    {
        match &self.token {
            Token::Identifier(name) => is_valid_identifier(name),
            Token::EOF => false,
            _ => true,
        }
    }
}

/// Entries of which one may not be delivered.
#[derive(Drop, Debug)]
pub struct UndeliverableEntry {
    /// The index of the first such entry, counted from 0.
    pub index: usize,
    /// All entries, as they were given.
    pub entries: Vec<Entry>,
}

/// `Entry 3 is the end mark, or an identifier that is not a name`
impl fmt::Display for UndeliverableEntry {
    ghost use Rattle.std.specs.Prelude.{Some};
    ghost use Rattle.rhai_lower.specs.Messages.{undeliverable_message};

    ghost output = { λ e. Some (undeliverable_message e) };

    fn fmt<W: fmt::Write>(&self, f: &mut fmt::Formatter<W>) -> fmt::Result {
        let index = self.index;
        write!(
            f,
            "Entry {index} is the end mark, or an identifier that is not a name"
        )
    }
}

impl Error for UndeliverableEntry {}

/// What is known of the next token.
#[derive(Clone, Copy, Debug)]
enum Head {
    /// Nothing; `text` is whether the next request is in text mode.
    Unasked { text: bool },
    /// The end mark is peeked.
    End { text: bool },
    /// A token that is the same in both modes is peeked.
    Same { text: bool },
    /// A marked text, requested in text mode.
    Text,
    /// A marked text, requested in code mode, and so an error.
    Code { interpolated: bool },
}

/// Delivers tokens one by one, and then the end mark forever. The next token can be peeked. docs/GRAMMAR.md, "The
/// stream", describes the two modes.
#[derive(Drop, Debug)]
pub struct TokenStream {
    // The entries that were not requested yet, the next one last.
    rest: Vec<Entry>,
    head: Head,
    // The token that is peeked, which is lent from here; of no meaning if none is.
    taken: (Token, Position),
    // The position of the end mark.
    end: Position,
}

impl Model for TokenStream {
    ghost use Rattle.std.specs.Prelude.{◌≡◌, ◌++◌, map, reverse};
    ghost use Rattle.rhai_lower.specs.Streams.{Stream, requests_of};
    ghost use Rattle.rhai_lower.specs.Entries.{ask_of, head_asks, head_text, head_peeked, EndsWith};
    ghost use Rattle.rhai_lower.specs.RequestCodes.{stream_code};

    ghost Value = { Stream };

    ghost coded = { stream_code };

    ghost view = { λ s. record {
      requests = requests_of (head_asks s.head s.taken ++ map ask_of (reverse s.rest.items)) s.end;
      in_text = head_text s.head;
      peeked = head_peeked s.head;
    } };

    ghost invariant = { λ s. EndsWith s.head s.taken s.end s.rest.items };
}

// A marked entry as it is delivered in a mode.
fn ask_marked(entry: Entry, text: bool) -> (Head, (Token, Position))
    requires { entry.text ≡ true }
    ensures asks { head_asks result.0 result.1 ≡ ask_of entry ∷ [] }
    ensures mode { head_text result.0 ≡ text }
    ensures peeked { head_peeked result.0 ≡ true }
{
    let Entry { token, pos, .. } = entry;
    match token {
        Token::StringConstant(s) => {
            if text {
                (Head::Text, (Token::StringConstant(s), pos))
            } else {
                let error = LexError::UnexpectedInput(s);
                let interpolated = false;
                (Head::Code { interpolated }, (Token::LexError(error), pos))
            }
        }
        Token::InterpolatedString(s) => {
            if text {
                (Head::Text, (Token::InterpolatedString(s), pos))
            } else {
                let error = LexError::UnexpectedInput(s);
                let interpolated = true;
                (Head::Code { interpolated }, (Token::LexError(error), pos))
            }
        }
        other => (Head::Same { text }, (other, pos)),
    }
}

// The index of the first entry that is not deliverable.
fn first_undeliverable(entries: &[Entry]) -> Option<usize>
    ensures index { result ≡ first_undeliverable entries.now }
    ensures none { IsNone result ↔ All (λ e. IsTrue (may_be_delivered e)) entries.now }
{
    entries.iter().position(|entry| !entry.is_deliverable())
}

impl TokenStream {
    ghost use Rattle.rhai_lower.specs.contracts.stream.TokenStream.{the_row};

    /// A stream that delivers these entries in order, and then the end mark at `end`. The caller has to prove that all
    /// entries are deliverable ([`Entry::is_deliverable`]). Does not allocate.
    pub fn new(entries: Vec<Entry>, end: Position) -> Self
        requires { All (λ e. IsTrue (may_be_delivered e)) entries.items }
        ensures { result ≡ stream_of (map ask_of entries.items) end }
    {
        let mut rest = entries;
        rest.reverse();
        TokenStream {
            rest,
            head: Head::Unasked { text: false },
            taken: (Token::EOF, end),
            end,
        }
    }

    /// As [`TokenStream::new`], for entries of any kind. Returns [`UndeliverableEntry`] with all entries if one of them
    /// is not deliverable ([`Entry::is_deliverable`]). Does not allocate.
    pub fn checked(entries: Vec<Entry>, end: Position) -> Result<Self, UndeliverableEntry>
        ensures exact { IsOk result ↔ All (λ e. IsTrue (may_be_delivered e)) entries.items }
        ensures stream { IfOk result (λ s. s ≡ stream_of (map ask_of entries.items) end) }
        ensures index { IfErr result (λ e. first_undeliverable entries.items ≡ Some e.index) }
        ensures kept { IfErr result (λ e. e.entries.items ≡ entries.items) }
    {
        match first_undeliverable(&entries) {
            Some(index) => Err(UndeliverableEntry { index, entries }),
            None => Ok(TokenStream::new(entries, end)),
        }
    }

    // Ensures that the next token is peeked. Most requests find it so.
    #[inline(always)]
    fn ask(&mut self)
        ensures { self.new ≡ peeking self.old }
    {
        if let Head::Unasked { text } = self.head {
            self.ask_next(text);
        }
    }

    // Peeks the next token.
    #[inline(never)]
    fn ask_next(&mut self, text: bool)
        requires unasked { self.old.peeked ≡ false }
        requires mode { self.old.in_text ≡ text }
        ensures { self.new ≡ peeking self.old }
    {
        match self.rest.pop() {
            Some(entry) => {
                if entry.text {
                    let (head, taken) = ask_marked(entry, text);
                    self.head = head;
                    self.taken = taken;
                } else {
                    self.head = Head::Same { text };
                    self.taken = (entry.token, entry.pos);
                }
            }
            None => {
                self.head = Head::End { text };
                self.taken = (Token::EOF, self.end);
            }
        }
    }

    /// The next token with its position, without taking it. Does not allocate.
    #[inline(always)]
    pub fn peek(&mut self) -> &(Token, Position)
        ensures value { result.now ≡ next_item self.old }
        ensures* after { sem 𝓛 (follows_so the_row the_row self.entry.ghost_name none (λ _ _. ⊤) (λ v. v
            ≡ peeking self.old)) }
    {
        self.ask();
        &self.taken
    }

    /// Takes the next token with its position. The request after it is in code mode. Does not allocate.
    pub fn next(&mut self) -> (Token, Position)
        ensures value { result ≡ next_item self.old }
        ensures after { self.new ≡ later self.old }
    {
        self.ask();
        self.head = Head::Unasked { text: false };
        mem::replace(&mut self.taken, (Token::EOF, self.end))
    }

    /// Takes the next token and drops it. Does not allocate.
    pub fn skip(&mut self)
        ensures { self.new ≡ later self.old }
    {
        self.ask();
        self.head = Head::Unasked { text: false };
    }

    /// Makes the next request one in text mode, as needed after a block of an interpolated string; later ones are in
    /// code mode. The caller has to prove that no token is peeked. Does not allocate.
    pub fn set_text_mode(&mut self)
        requires { self.old.peeked ≡ false }
        ensures { self.new ≡ in_text_next self.old }
    {
        self.head = Head::Unasked { text: true };
    }
}
