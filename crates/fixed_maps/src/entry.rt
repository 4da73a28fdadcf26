//! The entries of a map.

/// A key: by its first number, and then by its second.
pub type Key = (usize, u64);

/// A value: two numbers.
pub type Value = (usize, u64);

/// A key with its value.
pub(crate) type Entry = (Key, Value);
