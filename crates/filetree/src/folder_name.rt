//! The name of a folder.

ghost use Rattle.std.specs.Prelude.{◌≡◌, IfOk};

use std::alloc::{AllocError, Global};
use std::marker::Model;

/// The name of a folder, in a text that has room for its bytes alone. Contracts see it as these.
#[derive(Drop)]
pub(crate) struct FolderName {
    text: String,
}

impl Model for FolderName {
    ghost use Rattle.std.specs.Prelude.{◌≡◌, ℕ, List};
    ghost use Rattle.std.specs.String.{string_bytes, string_capacity, string_len};

    ghost Value = { List ℕ };

    ghost view = { λ n. string_bytes n.text };

    ghost invariant = { λ n. string_capacity n.text ≡ string_len n.text };
}

impl FolderName {
    /// A copy of a name.
    pub(crate) fn of(alloc: Global, name: &str) -> Result<FolderName, AllocError>
        ensures { IfOk result (λ n. n ≡ name.now) }
    {
        let mut bytes = Vec::with_capacity(alloc, name.len())?;
        'bytes: for byte in name.as_bytes() {
            bytes.push_reserved(*byte);
        }
        match String::from_utf8(bytes) {
            Ok(text) => Ok(FolderName { text }),
            Err(_) => unreachable!(),
        }
    }

    /// The name.
    pub(crate) fn as_str(&self) -> &str
        ensures value { result.now ≡ self.now }
    {
        self.text.as_str()
    }
}
