//! The version 1 pieces of a window of small files, each filled up with zeros to the piece length,
//! hashed side by side (BEP 3, "pieces"; BEP 47, "Padding Files"); and if need be the files' own
//! cuts, as they are.

mod alone;
mod both;
mod stretches;
mod together;
mod window;

pub use window::CutWindow;
