//! Shelves: where a torrent's files lie, each under its path; and those that open a file at any of
//! its bytes.
ghost use Rattle.std.specs.Prelude.{◌≡◌, ℕ, List, map, Option, option_map, IfOk, IfSome};
ghost use Rattle.benc.specs.Device.{CountsFault};
ghost use Rattle.folders.specs.Seeking.{from_offset};
ghost use Rattle.folders.specs.Shelf.{CountsListing, IsFound, IsListed, ShelfContents, more};

use crate::shelf_fault::ShelfFault;
use benc::{DeviceFault, Source};

/// A place where files lie under paths. A file that it opened is handed back to it.
pub trait Shelf {
    ghost use Rattle.std.specs.Prelude.{Result, String};
    ghost use Rattle.std.specs.Global.{Global, Vec};
    ghost use Rattle.benc.specs.declared.device.DeviceFault.{DeviceFault};
    ghost use Rattle.folders.specs.declared.shelf_fault.ShelfFault.{ShelfFault};

    /// An opened file.
    type File: Source;

    // What is on the shelf, as far as that is known.
    ghost contents: { Self → ShelfContents };

    // What a call of `list` may answer, and the shelf after it.
    ghost lists: { Self → Result (Vec (Vec (String Global))) ShelfFault → Self → Type 0 };

    // What a call of `open` with this path may answer, and the shelf after it.
    ghost opens: { Self → List (List ℕ) → Result (Option Self.File) DeviceFault → Self → Type 0 };

    // The shelf after a call of `close` with this file.
    ghost closes: { Self → Self.File → Self → Type 0 };

    // How many faults the shelf and the files that were handed back had, modulo 2^64.
    ghost faults: { Self → ℕ };

    /// Lists the files, those in folders too: the path of each, once, in any order. It refuses with
    /// `Name` if a name is not UTF-8, with `Special` if something is neither a regular file nor a
    /// folder, with `Device` if the shelf failed, which is counted, and with `NoMemory`. What is on
    /// the shelf stays.
    fn list(&mut self) -> Result<Vec<Vec<String>>, ShelfFault>
        ensures listed { IsListed (contents self.old).listing result }
        ensures counts { CountsListing (faults self.old) (faults self.new) result }
        ensures lists { lists self.old result self.new }
        ensures stays { contents self.new ≡ contents self.old };

    /// Opens the file with these path components. It answers `None` if nothing has that name. A
    /// fault is counted. What is on the shelf stays.
    fn open(&mut self, path: &[&str]) -> Result<Option<Self::File>, DeviceFault>
        ensures found { IfOk result (λ found.
            IsFound ((contents self.old).under (map (λ s. s.now) path.now))
            (option_map (λ f. (Self.File.seen f).left) found)) }
        ensures fresh { IfOk result (λ found. IfSome found (λ f. (Self.File.seen f).faults ≡ 0)) }
        ensures counts { CountsFault (faults self.old) (faults self.new) result }
        ensures opens { opens self.old (map (λ s. s.now) path.now) result self.new }
        ensures stays { contents self.new ≡ contents self.old };

    /// Takes a file back, and adds its count of faults.
    fn close(&mut self, file: Self::File)
        ensures counts { faults self.new ≡ more (faults self.old) (Self.File.seen file).faults }
        ensures closes { closes self.old file self.new }
        ensures stays { contents self.new ≡ contents self.old };

    /// How many calls were answered with a fault, modulo 2^64, those on files that were handed back
    /// among them.
    fn failures(&self) -> u64
        ensures { result ≡ faults self.now };
}

/// A shelf that opens a file at any of its bytes.
pub trait SeekShelf: Shelf {
    ghost use Rattle.std.specs.Prelude.{Result};
    ghost use Rattle.benc.specs.declared.device.DeviceFault.{DeviceFault};

    // What a call of `open_at` with this path and offset may answer, and the shelf after it.
    ghost opens_at: { Self → List (List ℕ) → ℕ → Result (Option Self.File) DeviceFault → Self
        → Type 0 };

    /// Opens the file with these path components, to be read from this byte on: none if there are
    /// no more bytes than that. It answers `None` if nothing has that name. A fault is counted.
    /// What is on the shelf stays.
    fn open_at(&mut self, path: &[&str], offset: u64) -> Result<Option<Self::File>, DeviceFault>
        ensures found { IfOk result (λ found.
            IsFound (from_offset offset
            ((Self.Shelf.contents self.old).under (map (λ s. s.now) path.now)))
            (option_map (λ f. (Self.File.seen f).left) found)) }
        ensures fresh { IfOk result (λ found. IfSome found (λ f. (Self.File.seen f).faults ≡ 0)) }
        ensures counts { CountsFault (Self.Shelf.faults self.old) (Self.Shelf.faults self.new)
            result }
        ensures opens { opens_at self.old (map (λ s. s.now) path.now) offset result self.new }
        ensures stays { Self.Shelf.contents self.new ≡ Self.Shelf.contents self.old };
}
