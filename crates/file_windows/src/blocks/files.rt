//! The blocks of several files in a buffer, hashed together, and the roots and layers of the files'
//! trees.

ghost use Rattle.std.specs.Prelude.{◌≡◌, ℕ, ◌+◌, ◌*◌, ◌^◌, ◌<◌, ◌≤◌, ◌↔◌, List, length, IfOk, IsTrue, OnErr};
ghost use Rattle.hashtree.specs.Tree.{block_count, height, layer_of, root_of};

use crate::blocks::leaves::{WINDOW, leaves_of};
use hashtree::{BLOCK_LENGTH, Hash, NoMemory, Shape, fill_levels, laws, layer_root};
use std::alloc::Global;

// Bytes in a block.
const BLOCK: usize = BLOCK_LENGTH as usize;

/// The blocks of files that stand in a buffer, a window of them at most: a `push` for each file,
/// one `hash` for all blocks, and then the `root` and a `layer` of each file. The window takes no
/// memory; a layer does.
#[derive(Drop)]
pub struct Window {
    starts: [usize; WINDOW],
    sizes: [usize; WINDOW],
    leaves: [Hash; WINDOW],
    count: usize,
    ghost within: { count ≤ 64 },
}

impl Window {
    ghost use Rattle.file_windows.specs.Files.{HasFile, IsHashed, IsWithin, block_total, bytes_at};

    /// No file.
    pub fn new() -> Window
        ensures none { block_total result ≡ 0 }
        ensures within { (size : ℕ) → IsWithin result size }
    {
        Window {
            starts: [0; WINDOW],
            sizes: [0; WINDOW],
            leaves: [[0; 32]; WINDOW],
            count: 0,
        }
    }

    /// How many blocks there are.
    pub fn blocks(&self) -> usize
        ensures value { result ≡ block_total self.now }
        ensures bound { result ≤ 64 }
    {
        self.count
    }

    /// Whether there is room for the blocks of one more file of this size.
    pub fn has_room(&self, size: usize) -> bool
        ensures { IsTrue result ↔ (block_total self.now + block_count size ≤ 64) }
    {
        size.div_ceil(BLOCK) <= WINDOW - self.count
    }

    /// Takes a file of this size that stands at this byte of the buffer: the number of its first
    /// block. Condition: there is room for its blocks.
    pub fn push(&mut self, start: usize, size: usize) -> usize
        requires room { block_total self.old + block_count size ≤ 64 }
        requires fits { start + size < 2 ^ 64 }
        ensures more { block_total self.new ≡ block_total self.old + block_count size }
        ensures has { HasFile self.new result start size }
        ensures kept { (first from many : ℕ) → HasFile self.old first from many
            → HasFile self.new first from many }
        ensures within { (bytes : ℕ) → IsWithin self.old bytes → start + size ≤ bytes
            → IsWithin self.new bytes }
    {
        let first = self.count;
        let blocks = size.div_ceil(BLOCK);
        'parts: for j in 0..blocks {
            self.starts[first + j] = start + BLOCK * j;
            self.sizes[first + j] = (size - BLOCK * j).min(BLOCK);
        }
        self.count = first + blocks;
        first
    }

    /// Hashes all blocks. Condition: they stand in the buffer.
    pub fn hash(&mut self, buffer: &[u8])
        requires { IsWithin self.old (length buffer.now) }
        ensures hashed { IsHashed self.new buffer.now }
        ensures total { block_total self.new ≡ block_total self.old }
        ensures within { (bytes : ℕ) → IsWithin self.old bytes → IsWithin self.new bytes }
        ensures kept { (first start size : ℕ) → HasFile self.old first start size
            → HasFile self.new first start size }
    {
        let count = self.count;
        let starts = self.starts;
        let sizes = self.sizes;
        let mut leaves = self.leaves;
        leaves_of(
            buffer,
            &starts[..count],
            &sizes[..count],
            &mut leaves[..count],
        );
        self.leaves = leaves;
    }

    /// The leaves of the tree of a file of this size, whose first block this is. Condition: its
    /// blocks are in the window.
    pub fn leaves(&self, first: usize, size: usize) -> &[Hash]
        requires { first + block_count size ≤ 64 }
        ensures count { length result.now ≡ block_count size }
        ensures leaves { (buffer : List ℕ) (start : ℕ) → HasFile self.now first start size
            → IsHashed self.now buffer → start + size ≤ length buffer
            → result.now ≡ layer_of (bytes_at buffer start size) 0 }
    {
        &self.leaves[first..first + size.div_ceil(BLOCK)]
    }

    /// The root of the tree of a file of this size, whose first block this is (BEP 52, "pieces
    /// root"). Conditions: it has a byte, and its blocks are in the window.
    pub fn root(&self, first: usize, size: usize) -> Hash
        requires some { 0 < size }
        requires within { first + block_count size ≤ 64 }
        ensures { (buffer : List ℕ) (start : ℕ) → HasFile self.now first start size
            → IsHashed self.now buffer → start + size ≤ length buffer
            → result ≡ root_of (bytes_at buffer start size) }
    {
        laws::layers_lead_to_root();
        laws::leaves_are_digests();
        let shape = Shape::of(size as u64).unwrap();
        layer_root(shape, 0, self.leaves(first, size))
    }

    /// A layer of the tree of a file of this size, without its pads; none above the root (BEP 52,
    /// "piece layers"). Conditions: as for [`Window::root`].
    ///
    /// # Errors
    ///
    /// It fails only if memory was refused, which is asked for only if the tree has the layer.
    pub fn layer(
        &self,
        alloc: Global,
        first: usize,
        size: usize,
        layer: u32,
    ) -> Result<Vec<Hash>, NoMemory>
        requires some { 0 < size }
        requires within { first + block_count size ≤ 64 }
        ensures layer { IfOk result (λ hashes. (buffer : List ℕ) (start : ℕ)
            → HasFile self.now first start size → IsHashed self.now buffer
            → start + size ≤ length buffer
            → hashes.items ≡ layer_of (bytes_at buffer start size) layer) }
        ensures memory { OnErr result (layer ≤ height (block_count size)) }
    {
        laws::leaves_are_digests();
        let shape = Shape::of(size as u64).unwrap();
        if shape.height() < layer {
            return Ok(Vec::new(alloc));
        }
        let mut levels = fill_levels(alloc, shape, 0, self.leaves(first, size))?;
        Ok(levels.swap_remove(layer as usize))
    }
}
