//! A draft of a torrent, to which files are added as a caller reads them: their bytes come in parts
//! of any size, and the draft is written as one text. What `gathering` does with the files of a
//! shelf, this does with files of any reader.
#![tactic(auto)]

mod coming_file;
mod components;
mod feeding;
mod open_draft;
mod stage;
mod text_sink;

pub use coming_file::ComingFile;
pub use open_draft::OpenDraft;
