//! `Reader`: the reader of constructs. Its methods stand beside what they read.

use rhai_readers::Config;

/// Reads constructs under these options and limits.
#[derive(Drop)]
pub struct Reader<'r, R> {
    /// What constructs are read under.
    pub engine: &'r Config,
    /// What reads the expressions, statements and blocks in them.
    pub readers: R,
}
