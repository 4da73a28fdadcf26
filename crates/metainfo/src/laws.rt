//! The laws of file trees, of torrent files and of drafts. A function that calls one of these knows
//! its law.
ghost use Rattle.std.specs.Prelude.{◌≡◌, ◌-◌, ◌^◌};

pub use drafts::laws::{draft_describes, draft_is_outline};
pub use filetree::laws::{
    bad_path_is_bad_component, order_is_apart, shape_is_standard, walks_are_all, walks_are_safe,
};
use hashtree::{BLOCK_LENGTH, MAX_LENGTH};
pub use opening::laws::{
    max_torrent_is_the_limit, place_is_block_place, refusal_is_one, torrent_is_not_refused,
    torrent_is_one, torrent_or_refusal, trees_are_roots,
};
use pieces::MAX_PIECES;

/// The constants are how many bytes a block has, and the longest file whose tree has a height of 32
/// at most (BEP 52, "pieces root"); and how many pieces have a number of 32 bits, less one.
pub fn constants_of_trees()
    ensures block { BLOCK_LENGTH ≡ 16384 }
    ensures length { MAX_LENGTH ≡ 2 ^ 46 }
    ensures pieces { MAX_PIECES ≡ 2 ^ 32 - 1 }
{}
