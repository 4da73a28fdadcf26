//! What a printed line tells, and that its JSON object is what the kit's `serde_json` writes.
#![tactic(auto)]

mod laws;

pub use laws::{objects_are_texts, texts_tell};
