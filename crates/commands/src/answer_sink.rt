//! Where the answers of a replay go.
use benc::Sink;

/// A sink that answers go to, and its path, which a fault of it names.
#[derive(Drop)]
pub struct AnswerSink<'a, A: Sink> {
    /// The path.
    pub path: &'a str,
    /// The sink.
    pub sink: A,
}
