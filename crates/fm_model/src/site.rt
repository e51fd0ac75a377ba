//! What is chosen for a collection before its first file.

use fm_base::Bytes;

/// A collection's name, its epoch in Unix seconds, and the mark: what stands in a file's name before the moment of its
/// run. All instants of a collection are whole seconds from its epoch.
#[derive(Drop)]
pub struct Site {
    pub name: Bytes,
    pub epoch: i64,
    pub mark: Bytes,
}
