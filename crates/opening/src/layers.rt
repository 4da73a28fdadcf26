//! The pairs of `piece layers` (BEP 52, "piece layers").

ghost use Rattle.std.specs.Prelude.{◌≡◌, IfSome, length, option_map};
ghost use Rattle.benc.specs.View.{view, pairs_view};
ghost use Rattle.filetree.specs.Dictionary.{Ascends, under};
ghost use Rattle.opening.specs.PieceLayers.{ascends_prop, layer_at};
ghost use Rattle.opening.specs.Steps.{pairs_seen};
ghost use Rattle.pieces.specs.Pieces.{pieces_of};

use crate::digests::digests;
use crate::roots::Root;
use benc::{Pair, Value};
use hashtree::Hash;
use pieces::PieceLength;

/// The pairs of `piece layers`, whose keys ascend.
#[derive(Drop)]
pub(crate) struct Layers<'v, 'a> {
    pairs: &'v [Pair<'a>],
    ghost ascend: { Ascends (pairs_view pairs.now) } by { ascends_prop (pairs_view pairs.now) },
}

impl<'v, 'a> Layers<'v, 'a> {
    ghost use Rattle.opening.specs.Layered.{layer_pairs};

    /// The layers of pairs whose keys ascend; there may be none.
    pub(crate) fn of(pairs: Option<&'v [Pair<'a>]>) -> Layers<'v, 'a>
        requires { Ascends (pairs_seen pairs) }
        ensures { layer_pairs result ≡ pairs_seen pairs.entry }
    {
        match pairs {
            Some(pairs) => Layers { pairs },
            None => Layers { pairs: &[] },
        }
    }

    /// The value under a root.
    pub(crate) fn under(&self, root: &Hash) -> Option<&'v Value<'a>>
        ensures { option_map (λ w. view w.now) result ≡ under root.now (layer_pairs self.now) }
    {
        entry(self.pairs, root)
    }

    /// The layer of a tree, if it has one hash for each piece.
    pub(crate) fn layer_of(&self, tree: &Root, piece_length: PieceLength) -> Option<&'a [Hash]>
        ensures count { IfSome result
            (λ hs. length hs.now ≡ pieces_of piece_length tree.now.length) }
        ensures value { option_map (λ hs. hs.now) result
            ≡ layer_at piece_length (layer_pairs self.now) tree.now }
    {
        match self.under(&tree.root) {
            Some(value) => digests(value, piece_length.pieces(tree.length)),
            None => None,
        }
    }
}

// The value under a root, by binary search.
fn entry<'v, 'a>(layers: &'v [Pair<'a>], root: &Hash) -> Option<&'v Value<'a>>
    requires { Ascends (pairs_view layers.now) }
    ensures { option_map (λ w. view w.now) result ≡ under root.now (pairs_view layers.now) }
{
    match layers.binary_search_by(|pair| pair.key.cmp(root.as_slice())) {
        Ok(place) => Some(&layers[place].value),
        Err(_) => None,
    }
}
