//! `RhaiAnswer`: the text that a call gives a host.

ghost use Rattle.std.specs.Prelude.{◌≡◌, ◌⊎◌};
ghost use Rattle.rhai_c.specs.Answers.{HasNone, HasText, Shows};
ghost use Rattle.rhai_c.specs.declared.status.Status.TheVariants.{NoMemory};

use crate::held::Held;
use crate::kept::Kept;
use crate::scripts::Reply;
use crate::status::Status;
use std::alloc::Global;
use std::ptr::null;

/// The text that a call gives a host, to be freed.
#[repr(C)]
pub struct RhaiAnswer {
    /// What the library keeps of it, or null.
    pub kept: Held,
    /// The first byte of the text, or null.
    pub text: *const u8,
    /// The length of the text in bytes. Of a text that is not UTF-8, how many bytes stand before the first wrong one.
    pub length: usize,
}

impl RhaiAnswer {
    /// Frees the text, if there is one, and leaves none, with this length.
    pub fn clear(&mut self, alloc: Global, length: usize)
        ensures { HasNone length self.new }
    {
        drop(self.kept.take(alloc));
        self.text = null();
        self.length = length;
    }

    // Hands out a text with this status, unless memory runs out.
    fn hand_out(&mut self, alloc: Global, status: Status, bytes: Vec<u8>) -> Status
        ensures { ((result ≡ status) × HasText bytes self.new) ⊎ ((result ≡ NoMemory) × HasNone 0 self.new) }
    {
        let (text, length) = (bytes.as_ptr(), bytes.len());
        let Ok(kept) = Box::new(alloc, Kept::Text(bytes)) else {
            self.clear(alloc, 0);
            return Status::NoMemory;
        };
        self.kept.put(alloc, kept);
        self.text = text;
        self.length = length;
        status
    }

    /// Hands out a reply. A text that was there is freed.
    pub fn give(&mut self, alloc: Global, reply: Reply) -> Status
        ensures { Shows result reply self.new }
    {
        match reply {
            Reply::Accepted(bytes) => self.hand_out(alloc, Status::Ok, bytes),
            Reply::Refused(bytes) => self.hand_out(alloc, Status::Refused, bytes),
            Reply::NotUtf8(length) => {
                self.clear(alloc, length);
                Status::NotUtf8
            }
            Reply::NoMemory => {
                self.clear(alloc, 0);
                Status::NoMemory
            }
        }
    }
}
