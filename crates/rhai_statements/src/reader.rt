//! `Reader`: the reader of statements. Its methods stand beside what they read.

use rhai_readers::Config;

/// Reads statements under these options and limits.
#[derive(Drop)]
pub struct Reader<'r, R> {
    /// What statements are read under.
    pub engine: &'r Config,
    /// What reads the expressions, statements and constructs in them.
    pub readers: R,
}
