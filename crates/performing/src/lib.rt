//! Each command of `btcheck` on real files.
#![tactic(auto)]

mod assemble;
mod assemble_faults;
mod check;
mod check_part;
mod convert;
mod create;
mod create_part;
mod excluded;
mod extra;
mod file_bytes;
mod folder_hints;
mod hints;
mod holding;
mod join;
mod join_faults;
mod long;
mod origin;
mod performing;
mod printed;
mod refused_counts;
mod replay;
mod replay_summary;
mod report_files;
mod root;
mod show;
mod sizes;
mod summary;
mod told_lengths;
mod torrent_file;
mod verdict_counts;
mod watched;

pub use performing::perform;
