//! `Out`: the JSON written so far.

ghost use Rattle.std.specs.Prelude.{◌≡◌, [], OnOk, string_bytes};
ghost use Rattle.std.specs.Char.{encode_utf8};
ghost use Rattle.std.specs.Fmt.{decimal, signed_decimal};
ghost use Rattle.json.specs.Print.{print};
ghost use Rattle.json.specs.Token.{begin_array, begin_object, boolean, end_array, end_object, key};
ghost use Rattle.json.specs.Token.{null, number, string};
ghost use Rattle.rhai_json.specs.Fields.{put};

use json::Writer;
use std::alloc::{AllocError, Global};
use std::marker::Model;

/// The JSON that was written so far, token by token. Each call adds a token, or fails with `AllocError` where memory
/// runs out.
#[derive(Drop)]
pub struct Out {
    writer: Writer,
}

impl Model for Out {
    ghost use Rattle.std.specs.Prelude.{◌≡◌, [], List};
    ghost use Rattle.json.specs.Token.{Token, tokens_code};

    ghost Value = { List Token };

    ghost coded = { tokens_code };

    ghost view = { λ o. o.writer.tokens };

    ghost invariant = { λ o. o.writer.before ≡ [] };
}

#[tactic(auto, unfolding(crate::specs::Fields::put))]
impl Out {
    /// Nothing yet. Does not allocate.
    pub fn new(alloc: Global) -> Self
        ensures { result ≡ [] }
    {
        Out {
            writer: Writer::new(Vec::new(alloc)),
        }
    }

    /// The text that was written.
    pub fn into_text(self) -> String
        ensures { string_bytes result ≡ print self }
    {
        let Out { writer } = self;
        let bytes = writer.into_inner();
        // What the writer gives is UTF-8.
        unsafe { String::from_utf8_unchecked(bytes) }
    }

    pub fn begin_object(&mut self) -> Result<(), AllocError>
        ensures { OnOk result (self.new ≡ put begin_object self.old) }
    {
        self.writer.begin_object()
    }

    pub fn end_object(&mut self) -> Result<(), AllocError>
        ensures { OnOk result (self.new ≡ put end_object self.old) }
    {
        self.writer.end_object()
    }

    pub fn begin_array(&mut self) -> Result<(), AllocError>
        ensures { OnOk result (self.new ≡ put begin_array self.old) }
    {
        self.writer.begin_array()
    }

    pub fn end_array(&mut self) -> Result<(), AllocError>
        ensures { OnOk result (self.new ≡ put end_array self.old) }
    {
        self.writer.end_array()
    }

    pub fn key(&mut self, name: &str) -> Result<(), AllocError>
        ensures { OnOk result (self.new ≡ put (key name.now) self.old) }
    {
        self.writer.key(name)
    }

    pub fn text(&mut self, text: &str) -> Result<(), AllocError>
        ensures { OnOk result (self.new ≡ put (string text.now) self.old) }
    {
        self.writer.string(text)
    }

    pub fn number(&mut self, count: usize) -> Result<(), AllocError>
        ensures { OnOk result (self.new ≡ put (number (decimal count)) self.old) }
    {
        self.writer.u64(count as u64)
    }

    pub fn integer(&mut self, value: i64) -> Result<(), AllocError>
        ensures { OnOk result (self.new ≡ put (number (signed_decimal value)) self.old) }
    {
        self.writer.i64(value)
    }

    pub fn flag(&mut self, flag: bool) -> Result<(), AllocError>
        ensures { OnOk result (self.new ≡ put (boolean flag) self.old) }
    {
        self.writer.boolean(flag)
    }

    pub fn null(&mut self) -> Result<(), AllocError>
        ensures { OnOk result (self.new ≡ put null self.old) }
    {
        self.writer.null()
    }

    /// A character, as a text of its own.
    pub fn character(&mut self, character: char) -> Result<(), AllocError>
        ensures { OnOk result (self.new ≡ put (string (encode_utf8 character)) self.old) }
    {
        let mut buffer = [0; 4];
        self.text(character.encode_utf8(&mut buffer))
    }
}
