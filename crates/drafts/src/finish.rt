//! Writing a draft as a torrent file (BEP 52, "metainfo files"; BEP 3).

ghost use Rattle.std.specs.Prelude.{◌≡◌, ◌≢◌, ◌≤◌, ◌↔◌, [], ◌∷◌, if◌then◌else◌, length, IfErr, IfOk, IsTrue, OnOk};
ghost use Rattle.benc.specs.Device.{BrokeOrUnflushed, SentAndFlushed, WroteAndFlushed};
ghost use Rattle.benc.specs.Text.{pairs_spelling, spelling};
ghost use Rattle.benc.specs.Value.{no_pairs};
ghost use Rattle.filetree.specs.Tests.{First, NoneHolds};
ghost use Rattle.opening.specs.Describes.{Describes};
ghost use Rattle.opening.specs.Refusals.{max_torrent};
ghost use Rattle.drafts.specs.DraftSeen.{outline_layers};
ghost use Rattle.drafts.specs.Finishing.{finish_rows};
ghost use Rattle.drafts.specs.Pen.{Put};
ghost use Rattle.drafts.specs.Written.{info_value, pairs_of_layers, list_pair, pieces_pair, torrent_of, value_of};

use crate::draft::{Draft, KeptRoot};
use crate::hybrid_text::{is_single, put_digests, put_entries};
use crate::laws::draft_describes;
use crate::pen::Pen;
use crate::tree_text::put_tree;
use benc::{DeviceFault, Sink};
use filetree::Refusal;
use hashtree::Hash;
use itoa::Buffer;
use opening::MAX_TORRENT;
use std::collections::BTreeMap;

// Bytes in a SHA-1 digest.
const DIGEST_LENGTH: u64 = 20;

impl Draft {
    /// Writes the torrent file, and flushes. The text is measured before a byte of it is written.
    /// It takes no memory.
    ///
    /// # Errors
    ///
    /// `NoFiles` if no file was added; `TooLarge` if the text has more than 67,108,864 bytes; in
    /// that order, and nothing is written then. `Write` if the sink fails: a prefix of the text
    /// went out.
    pub fn finish<W: Sink>(&self, w: &mut W) -> Result<(), Refusal>
        ensures written { IfOk result (λ _. NoneHolds (finish_rows self.now)
            × SentAndFlushed (W.seen w.old) (W.seen w.new) (spelling (value_of self.now))) }
        ensures opens { OnOk result (Describes (spelling (value_of self.now))
            (torrent_of self.now)) }
        ensures refused { IfErr result (λ r. r ≢ Refusal.Write
            → First (finish_rows self.now) r × (W.seen w.new ≡ W.seen w.old)) }
        ensures no_memory { IfErr result (λ r. r ≢ Refusal.NoMemory) }
        ensures broke { IfErr result (λ r. r ≡ Refusal.Write → NoneHolds (finish_rows self.now)
            × BrokeOrUnflushed (W.seen w.old) (W.seen w.new) (spelling (value_of self.now))) }
    {
        draft_describes();
        if self.files.is_empty() {
            return Err(Refusal::NoFiles);
        }
        if !self.is_small(w) {
            return Err(Refusal::TooLarge);
        }
        match self.write(w) {
            Ok(()) => Ok(()),
            Err(DeviceFault) => Err(Refusal::Write),
        }
    }

    // Whether the text is within the limit. It writes nothing.
    fn is_small<W: Sink>(&self, w: &mut W) -> bool
        ensures answer { IsTrue result ↔ (length (spelling (value_of self.now)) ≤ max_torrent) }
        ensures unchanged { W.seen w.new ≡ W.seen w.old }
    {
        let mut pen = Pen::Measuring(0);
        self.put_torrent(&mut pen, w);
        match pen {
            Pen::Measuring(len) => len <= MAX_TORRENT as u64,
            _ => false,
        }
    }

    // Writes the text, and flushes.
    fn write<W: Sink>(&self, w: &mut W) -> Result<(), DeviceFault>
        ensures { WroteAndFlushed (W.seen w.old) (W.seen w.new) result
            (spelling (value_of self.now)) }
    {
        let mut pen = Pen::Writing;
        self.put_torrent(&mut pen, w);
        match pen {
            Pen::Writing => w.flush(),
            _ => Err(DeviceFault),
        }
    }

    // Puts the whole text.
    fn put_torrent<W: Sink>(&self, pen: &mut Pen, w: &mut W)
        ensures { Put pen.old (W.seen w.old) pen.new (W.seen w.new) (spelling (value_of self.now)) }
    {
        pen.put(w, b"d4:info");
        self.put_info(pen, w);
        pen.put(w, b"12:piece layersd");
        put_layers(&self.roots, self.piece_length.bytes(), pen, w);
        pen.put(w, b"ee");
    }

    // Puts the info dictionary.
    fn put_info<W: Sink>(&self, pen: &mut Pen, w: &mut W)
        ensures { Put pen.old (W.seen w.old) pen.new (W.seen w.new)
            (spelling (info_value self.now)) }
    {
        pen.put(w, b"d9:file treed");
        put_tree(&self.files, pen, w);
        pen.put(w, b"e");
        self.put_list(pen, w);
        pen.put(w, b"12:meta versioni2e4:name");
        pen.put_string(w, self.name.as_bytes());
        pen.put(w, b"12:piece length");
        pen.put_integer(w, self.piece_length.bytes());
        self.put_pieces(pen, w);
        pen.put(w, b"e");
    }

    // Puts the version 1 list of a hybrid: `length` or `files`.
    fn put_list<W: Sink>(&self, pen: &mut Pen, w: &mut W)
        ensures { Put pen.old (W.seen w.old) pen.new (W.seen w.new)
            (pairs_spelling (if self.now.hybrid then list_pair self.now no_pairs else no_pairs)) }
    {
        if !self.hybrid {
            return;
        }
        if is_single(&self.name, &self.files) {
            pen.put(w, b"6:length");
            pen.put_integer(w, self.files[0].length);
        } else {
            pen.put(w, b"5:filesl");
            put_entries(&self.files, self.piece_length, pen, w);
            pen.put(w, b"e");
        }
    }

    // Puts the version 1 digests of a hybrid.
    fn put_pieces<W: Sink>(&self, pen: &mut Pen, w: &mut W)
        ensures { Put pen.old (W.seen w.old) pen.new (W.seen w.new)
            (pairs_spelling (pieces_pair self.now)) }
    {
        if !self.hybrid {
            return;
        }
        let mut digits = Buffer::new();
        pen.put(w, b"6:pieces");
        pen.put(w, digits.format(DIGEST_LENGTH * self.pieces).as_bytes());
        pen.put(w, b":");
        put_digests(&self.files, pen, w);
    }
}

// Puts the layers of the roots whose files are longer than a piece.
fn put_layers<W: Sink>(
    roots: &BTreeMap<Hash, KeptRoot>,
    piece_length: u64,
    pen: &mut Pen,
    w: &mut W,
)
    ensures { Put pen.old (W.seen w.old) pen.new (W.seen w.new)
        (pairs_spelling (pairs_of_layers (outline_layers piece_length roots.now.entries))) }
{
    'roots: for (root, kept) in roots {
        put_layer(root, kept, piece_length, pen, w);
    }
}

// Puts the layer of a root whose files are longer than a piece.
fn put_layer<W: Sink>(root: &Hash, kept: &KeptRoot, piece_length: u64, pen: &mut Pen, w: &mut W)
    ensures { Put pen.old (W.seen w.old) pen.new (W.seen w.new) (pairs_spelling (pairs_of_layers
        (outline_layers piece_length ((root.now, kept.now) ∷ [])))) }
{
    if kept.length > piece_length {
        pen.put_string(w, root);
        pen.put_string(w, kept.layer.as_flattened());
    }
}
