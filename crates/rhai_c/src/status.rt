//! `Status`: how a call ended.

ghost use Rattle.std.specs.Prelude.{◌≡◌};
ghost use Rattle.rhai_c.specs.Statuses.{number_of};

/// How a call ended.
#[derive(Clone, Copy, Debug)]
pub enum Status {
    /// The text is accepted, or the call did what it was to do.
    Ok,
    /// The text is refused.
    Refused,
    /// The text, or the name, is not UTF-8.
    NotUtf8,
    /// Memory ran out.
    NoMemory,
    /// An argument is none that the call takes.
    BadArgument,
}

impl Status {
    /// Its number in C.
    pub fn number(self) -> u32
        ensures { result ≡ number_of self }
    {
        match self {
            Status::Ok => 0,
            Status::Refused => 1,
            Status::NotUtf8 => 2,
            Status::NoMemory => 3,
            Status::BadArgument => 4,
        }
    }
}
