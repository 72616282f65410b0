//! `Kept`: what the library keeps for a host.

use crate::settings::Settings;

/// What the library keeps for a host, on the heap.
#[derive(Drop)]
pub enum Kept {
    /// What scripts are read under.
    Settings(Settings),
    /// The bytes of an answer.
    Text(Vec<u8>),
}
