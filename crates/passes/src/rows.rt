//! Where what is held stands: the bytes of files in a room, one file after the other, and their
//! blocks and version 1 pieces in windows.
ghost use Rattle.std.specs.Prelude.{◌≡◌, ℕ, List, [], ◌<◌, ◌≤◌, ◌+◌, IsTrue, Some, length, slice_get, take};
ghost use Rattle.file_windows.specs.Files.{bytes_at};

use crate::cuts_wanted::CutsWanted;
use crate::nothing::Nothing;
use benc::{DeviceFault, Source};
use file_windows::{CutWindow, Window};
use folders::{fill, room_for_files};
use pieces::PieceLength;
use std::alloc::Global;

/// How many paths are looked at together at most.
pub(crate) const MOST: usize = 64;

// Bytes in eight blocks, as many as a small file has at most.
const SMALL: usize = 131_072;

/// Why there is nothing to be held of a path; or where the bytes of its file, its blocks and its
/// version 1 pieces begin.
#[derive(Clone, Copy)]
pub(crate) struct Place {
    pub(crate) nothing: Option<Nothing>,
    pub(crate) start: usize,
    pub(crate) size: usize,
    pub(crate) block: usize,
    pub(crate) cut: usize,
}

/// What is held, and where it stands.
#[derive(Drop)]
pub(crate) struct Rows {
    pub(crate) room: Vec<u8>,
    pub(crate) used: usize,
    pub(crate) places: [Place; MOST],
    pub(crate) count: usize,
    pub(crate) blocks: Window,
    pub(crate) cuts: CutWindow,
    pub(crate) wanted: CutsWanted,
}

impl Rows {
    ghost use Rattle.passes.specs.Held.{Answer, IsNothingFor, as_answer, content};
    ghost use Rattle.passes.specs.Rows.{AreRowsHashed, FillsBehind, HasHeldRoom, HoldsRow, IsFilePlaced, IsRowSound, WritesBehind, held_answers, cutting_of};

    /// Nothing is held. If memory for the bytes of small files is refused, only empty ones will be;
    /// the same where at most one file is to come.
    pub(crate) fn new(
        alloc: Global,
        files: usize,
        piece_length: PieceLength,
        wanted: CutsWanted,
    ) -> Rows
        ensures sound { IsRowSound result }
        ensures none { held_answers result ≡ [] }
        ensures cutting { cutting_of result
            ≡ record { piece_length = piece_length; wanted = wanted } }
    {
        let place = Place {
            nothing: None,
            start: 0,
            size: 0,
            block: 0,
            cut: 0,
        };
        Rows {
            room: room_for_files(alloc, files),
            used: 0,
            places: [place; MOST],
            count: 0,
            blocks: Window::new(),
            cuts: CutWindow::new(piece_length.bytes() as usize),
            wanted,
        }
    }

    /// Lets go of all that is held.
    pub(crate) fn clear(&mut self)
        requires { IsRowSound self.old }
        ensures sound { IsRowSound self.new }
        ensures none { held_answers self.new ≡ [] }
        ensures cutting { cutting_of self.new ≡ cutting_of self.old }
    {
        self.used = 0;
        self.count = 0;
        self.blocks = Window::new();
        self.cuts.clear();
    }

    /// Whether there is room for one more file of this size, and for this many bytes behind it.
    pub(crate) fn has_room(&self, size: u64, behind: usize) -> bool
        requires { behind ≤ 1 }
        ensures room { IsTrue result → HasHeldRoom self.now size }
        ensures behind { IsTrue result
            → self.now.used + size + behind ≤ length self.now.room.items }
        ensures small { IsTrue result → size ≤ 131072 }
    {
        self.count < MOST
            && size <= SMALL as u64
            && self.blocks.has_room(size as usize)
            && self.cuts.has_room(size as usize)
            && self.used <= self.room.len()
            && size as usize + behind <= self.room.len() - self.used
    }

    /// Where what is held of the path of this number stands. Condition: something is.
    pub(crate) fn place(&self, number: usize) -> Place
        requires sound { IsRowSound self.now }
        requires there { number < length (held_answers self.now) }
        ensures nothing { (a : Answer) → slice_get (held_answers self.now) number ≡ Some a
            → IsNothingFor result.nothing a }
        ensures file { (bytes : List ℕ)
            → slice_get (held_answers self.now) number ≡ Some (content bytes)
            → IsFilePlaced self.now result bytes }
    {
        self.places[number]
    }

    /// Holds that there is nothing to be held of one more path. Condition: there is room.
    pub(crate) fn keep_nothing(&mut self, why: Nothing)
        requires sound { IsRowSound self.old }
        requires few { self.old.count < 64 }
        ensures { HoldsRow self.old (as_answer why) self.new }
    {
        let place = Place {
            nothing: Some(why),
            start: 0,
            size: 0,
            block: 0,
            cut: 0,
        };
        put_place(&mut self.places, self.count, place);
        self.count += 1;
    }

    /// Holds a file of this size too, whose bytes stand behind the others. Condition: there is room
    /// for it.
    pub(crate) fn keep(&mut self, size: usize)
        requires sound { IsRowSound self.old }
        requires room { HasHeldRoom self.old size }
        ensures { HoldsRow self.old (content (bytes_at self.old.room.items self.old.used size))
            self.new }
    {
        let start = self.used;
        let place = Place {
            nothing: None,
            start,
            size,
            block: self.blocks.push(start, size),
            cut: self.cuts.push(start, size),
        };
        put_place(&mut self.places, self.count, place);
        self.used = start + size;
        self.count += 1;
    }

    /// Puts bytes behind the files. Condition: there is room for them.
    pub(crate) fn write(&mut self, bytes: &[u8])
        requires { self.old.used + length bytes.now ≤ length self.old.room.items }
        ensures behind { WritesBehind self.old self.new }
        ensures here { bytes_at self.new.room.items self.old.used (length bytes.now)
            ≡ bytes.now }
    {
        put_bytes(&mut self.room, self.used, bytes);
    }

    /// Reads a source into the room behind the files, at most to one byte past this size: how many
    /// bytes came. Condition: there is room for that.
    pub(crate) fn fill_behind<F: Source>(
        &mut self,
        file: &mut F,
        size: usize,
    ) -> Result<usize, DeviceFault>
        requires { self.old.used + size + 1 ≤ length self.old.room.items }
        ensures { FillsBehind size (F.seen file.old) (F.seen file.new) self.old self.new result }
    {
        let start = self.used;
        fill(file, &mut self.room[start..start + size + 1])
    }

    /// Hashes the blocks of all files, and the version 1 pieces that are wanted.
    // It has copies of what is in the windows in its frame, so it is not inlined.
    #[inline(never)]
    pub(crate) fn hash(&mut self)
        requires { IsRowSound self.old }
        ensures hashed { AreRowsHashed self.new }
        ensures sound { IsRowSound self.new }
        ensures answers { held_answers self.new ≡ held_answers self.old }
        ensures cutting { cutting_of self.new ≡ cutting_of self.old }
    {
        self.blocks.hash(&self.room);
        match self.wanted {
            CutsWanted::Nothing => {}
            CutsWanted::Filled => self.cuts.hash(&self.room),
            CutsWanted::Both => self.cuts.hash_both(&self.room),
        }
    }
}

// Puts bytes into a room, from this one on. Condition: there is room for them.
fn put_bytes(room: &mut [u8], at: usize, bytes: &[u8])
    requires { at + length bytes.now ≤ length room.old }
    ensures count { length room.new ≡ length room.old }
    ensures before { take at room.new ≡ take at room.old }
    ensures here { bytes_at room.new at (length bytes.now) ≡ bytes.now }
{
    room[at..at + bytes.len()].copy_from_slice(bytes);
}

// Puts a place behind those that there are. Condition: there is room for it.
fn put_place(places: &mut [Place; MOST], count: usize, place: Place)
    requires { count < 64 }
    ensures length { length places.new ≡ 64 }
    ensures before { (k : ℕ) → k < count → slice_get places.new k ≡ slice_get places.old k }
    ensures last { (e : _) → slice_get places.new count ≡ Some e → e ≡ place }
{
    places[count] = place;
}
