//! The root of a file, whose bytes come in parts of any size.

ghost use Rattle.std.specs.Prelude.{◌≡◌, ◌<◌, ◌≤◌, ◌+◌, ◌^◌, ◌↔◌, ◌⊎◌, [], IfOk, IsTrue, length};
ghost use Rattle.hashtree.specs.RootBuilder as builder_of;
ghost use Rattle.short_pushes.specs.Held.{held};

use crate::groups::whole_groups;
use crate::waiting::Waiting;
use hashtree::{Hash, NoMemory, RootBuilder};
use std::alloc::Global;
use std::mem::replace;

/// The root of a file. The bytes of short pushes wait until eight blocks of them can be hashed side
/// by side; longer pushes are not copied, unless bytes wait. The room, 131,072 bytes, is taken by
/// [`FileRoot::new`].
#[derive(Drop)]
pub struct FileRoot {
    builder: RootBuilder,
    waiting: Waiting,
    ghost in_file: { builder_of.byte_count builder + length (held waiting) ≤ 2 ^ 46 },
}

impl FileRoot {
    ghost use Rattle.hashtree.specs.Parts.{TakesFront};
    ghost use Rattle.short_pushes.specs.FileRoots.{EndsWithRoot, FeedsRoot, IsNew, root_byte_count};

    /// A root that was given nothing yet. It fails if memory is refused.
    pub fn new(alloc: Global) -> Result<FileRoot, NoMemory>
        ensures { IfOk result (λ r. IsNew r) }
    {
        Ok(FileRoot {
            builder: RootBuilder::new(),
            waiting: Waiting::new(alloc)?,
        })
    }

    /// How many bytes were pushed.
    pub fn len(&self) -> u64
        ensures { result ≡ root_byte_count self.now }
    {
        self.builder.len() + self.waiting.len() as u64
    }

    /// Whether nothing was pushed yet.
    pub fn is_empty(&self) -> bool
        ensures { IsTrue result ↔ (root_byte_count self.now ≡ 0) }
    {
        self.len() == 0
    }

    /// Takes the file's next bytes. Condition: [`FileRoot::len`] and their number are at most 2^46
    /// together.
    pub fn push(&mut self, bytes: &[u8])
        requires { root_byte_count self.old + length bytes.now ≤ 2 ^ 46 }
        ensures { FeedsRoot self.old bytes.now self.new }
    {
        let rest = self.fill(bytes);
        if !rest.is_empty() {
            self.pass(rest);
        }
    }

    /// The file's length in bytes and the root of its tree. Nothing is given then. Condition: at
    /// least one byte was pushed, since an empty file has no tree.
    pub fn finish(&mut self) -> (u64, Hash)
        requires { 0 < root_byte_count self.old }
        ensures length { result.0 ≡ root_byte_count self.old }
        ensures tree { EndsWithRoot self.old result.0 result.1 }
        ensures begins { IsNew self.new }
    {
        self.hand_on();
        replace(&mut self.builder, RootBuilder::new()).finish()
    }

    // If bytes wait, lets the first of these wait too, and hands on what fills the room. Returns
    // the others.
    fn fill<'b>(&mut self, bytes: &'b [u8]) -> &'b [u8]
        requires { root_byte_count self.old + length bytes.now ≤ 2 ^ 46 }
        ensures front { TakesFront FeedsRoot self.old bytes.now self.new result.now }
        ensures ends { (held self.new.waiting ≡ []) ⊎ (result.now ≡ []) }
    {
        let rest = self.waiting.top_up(bytes);
        if self.waiting.is_full() {
            self.hand_on();
        }
        rest
    }

    // Passes whole groups on, and lets the bytes after them wait. Condition: no byte waits.
    fn pass(&mut self, bytes: &[u8])
        requires none { held self.old.waiting ≡ [] }
        requires room { root_byte_count self.old + length bytes.now ≤ 2 ^ 46 }
        ensures { FeedsRoot self.old bytes.now self.new }
    {
        let (groups, rest) = whole_groups(bytes, self.builder.len());
        self.builder.push(groups);
        self.waiting.keep(rest);
    }

    // Hands the bytes that wait on to the builder.
    fn hand_on(&mut self)
        ensures same { FeedsRoot self.old [] self.new }
        ensures none { held self.new.waiting ≡ [] }
    {
        self.builder.push(self.waiting.as_slice());
        self.waiting.clear();
    }
}
