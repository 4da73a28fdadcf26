//! How long files are, as far as that is known before they are read.

/// Tells whoever hashes files how long they are. The answers choose only how a file is hashed: what
/// is found of it does not depend on them.
pub trait Lengths {
    /// How many bytes the file with these path components has; `None` if that is not known.
    fn length(&mut self, path: &[&str]) -> Option<u64>;
}

/// Nothing is known of any file.
#[derive(Clone, Copy, Debug, Drop)]
pub struct Unknown;

impl Lengths for Unknown {
    fn length(&mut self, _path: &[&str]) -> Option<u64> {
        None
    }
}
