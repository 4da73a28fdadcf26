//! The leaves of a window of blocks, hashed side by side whatever their lengths, and the roots and
//! layers of the files that these blocks make up (BEP 52, "pieces root", "piece layers").

mod files;
mod leaves;
mod order;

pub use files::Window;
pub use leaves::WINDOW;
